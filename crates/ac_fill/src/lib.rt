//! Placements by first fit: each the first candidate that the ones before it left, until there is none, or as many as a limit says.
//!
//! One pass of a source of candidates is enough, since claims only take room: what a cloud's claims leave is among what it had before. Where
//! the front of a list has no room any more, the pass goes on behind all lists that begin so.
#![tactic(auto)]

mod bound;
mod by_root;
pub mod count;
mod found;
pub mod laws;
pub mod placements;
pub mod takings;

pub use bound::{Bound, Short};
pub use count::count_filled;
pub use placements::{Filled, write_filled};
pub use takings::Takings;
