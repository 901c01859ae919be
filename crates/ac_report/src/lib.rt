//! Every text of an answer: the JSON body of a page of candidates, its tokens and its rows, explanations, and rows of hosts.
//!
//! It knows nothing of jobs and feeds, of what ends a run, or of the lines of faults.
#![tactic(auto)]

mod amounts;
pub mod called;
pub mod fault;
pub mod findings;
mod ids;
pub mod laws;
pub mod lines;
pub mod list_rows;
pub mod named;
pub mod names;
pub mod page;
pub mod request;
pub mod summary;

pub use called::{NameFault, Names};
pub use fault::PageFault;
pub use lines::write_tokens;
pub use list_rows::write_list;
pub use names::shown_name;
pub use page::{write_page, write_shown_page};
pub use request::{request_text, suffix_text};
pub use summary::summary_text;
