//! Reading the text of a query: its pairs, what each gives, the draft that they make together, and the checks on it.

pub mod amount;
pub mod check;
pub mod draft;
pub mod given;
pub mod items;
pub mod parameter;
pub mod pass;
pub mod traits;
pub mod values;
