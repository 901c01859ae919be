//! A run: the answer to a job over the bytes of five tables, with its status.
//!
//! It knows feeds and sinks, and nothing of command lines or files.
#![tactic(auto)]

mod answer;
mod capacity;
mod inputs;
pub mod job;
pub mod laws;
mod notes;
mod outputs;
mod ready;
pub mod refusal;
pub mod run_job;
mod wanted;

pub use answer::write_answer;
pub use capacity::flavors::Plan;
pub use capacity::placements::fill_status;
pub use inputs::Inputs;
pub use job::{Command, Job, Paths};
pub use outputs::push_verdict;
pub use ready::read_inputs;
pub use refusal::lines::{asked_status, names_status, push_asked_line, push_names_line, tell};
pub use refusal::{
    AnswerRefusal, AskRefusal, ChangesRefusal, FlavorsRefusal, NamesRefusal, Refusal, Refused,
    TablesRefusal,
};
pub use run_job::{refuse_names, run};
pub use wanted::mark::{has_path, past_mark};
pub use wanted::named::Naming;
pub use wanted::named::texts::read_names;
pub use wanted::{Wanted, find_root, read_query, read_token, read_wanted};
