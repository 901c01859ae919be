//! A query with the text that it was read of, so that it can be read once more.
ghost use Rattle.std.specs.Prelude.{◌≡◌, IfOk};
ghost use Rattle.std.specs.String.{string_bytes};
ghost use Rattle.ac_query.specs.Laws.Gathered.{asked_by};
ghost use Rattle.ac_query.specs.Pairs.{pairs_of};
ghost use Rattle.ac_query.specs.Shown.Queries.{asked_of};

use ac_base::NoMemory;
use ac_query::{Query, Version};
use std::alloc::Global;

/// A query, and the text and the version by which it was read.
#[derive(Drop)]
pub struct Question {
    pub query: Query,
    text: String,
    version: Version,
    ghost read: { asked_of query ≡ asked_by version (pairs_of (string_bytes text)) },
}

impl Question {
    /// A query with its text, which is copied.
    pub fn new(
        alloc: Global,
        query: Query,
        text: &str,
        version: Version,
    ) -> Result<Question, NoMemory>
        requires { asked_of query ≡ asked_by version (pairs_of text.now) }
        ensures { IfOk result (λ question. question.query ≡ query) }
    {
        let text = String::from_str(alloc, text)?;
        Ok(Question {
            query,
            text,
            version,
        })
    }

    /// The query, read once more. It was accepted before, so only want of memory can refuse it.
    pub fn again(&self, alloc: Global) -> Result<Query, NoMemory>
        ensures { IfOk result (λ query. asked_of query ≡ asked_of self.now.query) }
    {
        Query::read(alloc, self.text.as_str(), self.version).map_err(|_fault| NoMemory)
    }
}
