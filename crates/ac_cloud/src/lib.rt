//! A cloud: its providers, their trees, what each has, and in which trees each is available.
//!
//! It knows nothing of tables, of queries or of searches.
#![tactic(auto)]

pub mod cloud;
pub mod laws;
pub mod lists;
pub mod provider;

pub use cloud::entry::Entry;
pub use cloud::provider_index::{Expected, Ids};
pub use cloud::provider_name::HostFault;
pub use cloud::{Cloud, Counts};
pub use lists::Lists;
pub use provider::Provider;
