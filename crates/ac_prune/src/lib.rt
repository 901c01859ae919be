//! Looking ahead: which choices of a slot and which fronts of a path lead to no candidate, and the ledger of what a path takes, by
//! which that is told.
//!
//! It knows nothing of how a search goes through the choices.
#![tactic(auto)]

mod ahead;
mod choices;
mod collective;
mod families;
mod front;
mod hosts;
mod ledger;
mod look_ahead;
mod lookout;
mod trees;
mod tuning;

pub use choices::all_choices;
pub use front::{Front, bound_by};
pub use hosts::limit;
pub use ledger::Ledger;
pub use ledger::marks::taken_roots;
pub use look_ahead::LookAhead;
pub use lookout::Lookout;
