//! What a query of allocation candidates asks for, and the tokens that a search goes on from.
//!
//! A `Query` stands for the record of its text (`specs/Asks`), or the first fault of the text is told (`specs/Faults`).
#![tactic(auto)]

pub mod fault;
pub mod group;
pub mod laws;
pub mod query;
mod reading;
pub mod slot;
pub mod token;
pub mod version;
pub mod write;

pub use fault::QueryFault;
pub use group::{AggregateRule, AnyOf, Group, Need};
pub use query::Query;
pub use slot::Slot;
pub use token::{Token, TokenFault};
pub use version::Version;
pub use write::write_ids;
