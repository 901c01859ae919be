//! What-if changes of a cloud: what a line says, and the cloud after some lines.
//!
//! It knows nothing of tables, of queries or of searches.
#![tactic(auto)]

pub mod changes;
mod draft;
pub mod fault;
pub mod laws;
mod reading;
pub mod what_if;

pub use changes::{Change, Edit, Line, Scope, Setting};
pub use fault::{ChangeFault, ChangeKind};
pub use what_if::{change, read_changes};
