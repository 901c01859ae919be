//! What a second line says of a fault: where it stands in the input, and what to do so that the next run passes.
//!
//! It knows nothing of runs, and writes nothing: a line is a function of a fault and of the texts.
#![tactic(auto)]

pub mod queries;
pub mod quoted;
pub mod tables;

pub use queries::{host_remedy, query_remedy, token_remedy};
pub use quoted::{push_all, push_quoted};
pub use tables::{record_remedy, size_remedy, unread_remedy};
