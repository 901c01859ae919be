//! A session: questions come line by line, and each is answered over the tables as they stand then.
//!
//! It knows feeds and sinks, and nothing of command lines or files.
#![tactic(auto)]

mod endings;
mod escaping;
mod help;
pub mod laws;
mod left;
pub mod line_faults;
pub mod lines;
pub mod questions;
mod session;
mod turns;
pub mod usages;

pub use line_faults::LineFault;
pub use lines::{Lines, Next};
pub use questions::{Question, read_question};
pub use session::run_session;
pub use usages::write_usages;
