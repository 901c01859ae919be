//! The search: it goes one path of providers, slot by slot, leaves out what can host nothing, and gives exactly the candidates that the
//! rules name; and at which roots candidates stand.
//!
//! It knows nothing of the texts of tables and queries, nor of what is printed. The rules, the verdict and the plain source are those of
//! `ac_rules`, handed on.
#![tactic(auto)]

mod at;
mod fault;
mod hosts;
pub mod laws;
mod least;
pub mod walk;

pub use ac_rules::{Plain, Rule, Source, TooManyTries, Verdict, verify};
pub use fault::SearchFault;
pub use hosts::{fits_root, fitting_roots};
pub use walk::Walk;
