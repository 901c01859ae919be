//! The texts of what is found of a cloud and a query: explanations, and rows of hosts.

mod asks;
mod audit_rows;
mod explanation;
mod host_details;
mod host_rows;
mod host_sums;
mod lacks;
mod question;
mod slot_details;
mod why_rows;
mod within;

pub use audit_rows::audit_text;
pub use explanation::{
    FoundWithout, Told, differences_text, explanation_status, find_apart, find_without,
    has_candidate,
};
pub use host_rows::{hosts_status, hosts_text};
pub use host_sums::{lack_counts, sums_text};
pub use question::Question;
pub use why_rows::{root_place, why_at};
