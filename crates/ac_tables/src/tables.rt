//! The five tables: what a record of each says, and what all its records do.

pub(crate) mod aggregates;
pub(crate) mod entries;
pub(crate) mod id_order;
pub(crate) mod inventories;
pub(crate) mod provider_record;
pub(crate) mod providers;
pub(crate) mod traits;
pub(crate) mod usages;
