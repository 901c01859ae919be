//! Quantities, names, identifiers, rows of CSV, and the devices that bytes come from and go to.
//!
//! This is the ground of `ac_cli`: it knows numbers and texts, and nothing of tables, queries or searches.
#![tactic(auto)]

pub mod device;
pub mod gathering;
pub mod id;
pub mod inventory;
pub mod laws;
pub mod memory;
pub mod name;
pub mod number;
pub mod pieces;
pub mod rows;

pub use device::from_read::FromRead;
pub use device::mem_feed::MemFeed;
pub use device::mem_sink::MemSink;
pub use device::to_write::ToWrite;
pub use device::whole_push::{WriteFailed, push_all};
pub use device::{Feed, MOST_AGAIN, Pull, Push, Sink};
pub use gathering::Gathering;
pub use id::Id;
pub use inventory::Inventory;
pub use memory::Turn;
pub use name::{ClassName, Names, NoMemory, Suffix, TraitName};
pub use number::{Ratio, read_count};
pub use pieces::digits::Digits;
pub use pieces::push_pieces;
