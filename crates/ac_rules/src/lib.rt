//! The nine rules: which lists of providers are candidates, the lowest rule that a list breaks, and a source of all candidates that
//! goes by the definition alone.
//!
//! It knows nothing of the texts of tables and queries, nor of what is printed, nor of how a search avoids lists.
#![tactic(auto)]

pub mod assignment;
pub mod claims;
pub mod classes;
pub mod judge;
pub mod laws;
pub mod located;
pub mod plain;
pub mod rules;
pub mod slots;
pub mod source;
pub mod verdict;

pub use assignment::{Assignment, Placed};
pub use claims::{claim, release, relocate};
pub use classes::{all_classes, number_of};
pub use judge::verify;
pub use located::InCloud;
pub use plain::Plain;
pub use source::{Source, TooManyTries};
pub use verdict::{Rule, Verdict};
