//! The five tables of an exported cloud, their faults, and the cloud that they state.
//!
//! It knows nothing of queries or of searches.
#![tactic(auto)]

pub mod beside;
pub mod called;
pub mod columns;
pub mod fault;
pub mod flavors;
pub mod found;
pub mod laws;
pub mod read;
mod reader;
pub mod table_bytes;
mod tables;
pub mod written;

pub use ac_cloud::{Cloud, Counts, Entry, HostFault};
pub use beside::BesideFault;
pub use called::{Called, read_called};
pub use columns::{Column, columns_needed};
pub use fault::{Table, TableFault, TableKind};
pub use flavors::{Flavor, read_flavors};
pub use found::Found;
pub use read::{FiveTables, FromTables, Sources};
pub use reader::records::{next_row, open_rows, text_at};
pub use table_bytes::{ReadFault, drain};
pub use written::{usages_fit, usages_text};
