//! The tests of the nine rules.

pub mod anchor;
pub(crate) mod each;
pub mod own;
pub mod sums;
pub mod traits;
pub(crate) mod whole;
