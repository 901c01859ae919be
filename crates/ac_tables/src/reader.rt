//! Reading any table: its records, its header, its rows in order.

pub(crate) mod fields;
pub(crate) mod gather;
pub(crate) mod header;
pub(crate) mod keys;
pub(crate) mod provider_rows;
pub(crate) mod record;
pub(crate) mod records;
pub(crate) mod row;
