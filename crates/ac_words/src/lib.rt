//! The words of a command line: what they ask for, and why they are refused.
#![tactic(auto)]

pub mod form;
pub mod laws;
pub mod name;
pub mod words;

pub use form::Form;
pub use words::{WordFault, Words, read_words};
