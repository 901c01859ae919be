//! The query of a question, and its token, by names.
ghost use Rattle.std.specs.Prelude.{◌≡◌, IfErr, IfOk, Ok, option_map, string_bytes};
ghost use Rattle.ac_run.specs.Naming.{TellsNames};
ghost use Rattle.ac_run.specs.Wanted.Named.{AreNamed};
ghost use Rattle.ac_run.specs.Wanted.Named as named;
ghost use Rattle.ac_session.specs.Questions.{asked_in};
ghost use Rattle.ac_session.specs.Turns.Named.{asked_with, asked_with_ids, query_in, query_told, token_of};

use super::Question;
use ac_run::{Job, NamesRefusal, Naming};
use std::alloc::Global;

/// A query and a token, with UUIDs in place of names.
#[derive(Drop)]
pub(crate) struct Texts {
    query: Option<String>,
    token: Option<String>,
}

impl<'a> Question<'a> {
    // Its query, where it has one.
    fn query(self) -> Option<&'a str>
        ensures { option_map (λ t. t.now) result ≡ query_in (asked_in self.entry) }
    {
        match self {
            Question::Job(job) => Some(job.query),
            Question::Fill { query }
            | Question::Place { query, .. }
            | Question::Claim { query, .. }
            | Question::Release { query, .. } => { Some(query) }
            _ => None,
        }
    }

    // Its token, where it has one.
    fn token(self) -> Option<&'a str>
        ensures { option_map (λ t. t.now) result ≡ token_of (asked_in self.entry) }
    {
        match self {
            Question::Job(job) => job.command.token(),
            Question::Claim { token, .. }
            | Question::Release { token, .. }
            | Question::Move { token, .. } => { Some(token) }
            _ => None,
        }
    }
}

// A query with UUIDs in place of names, where there is one.
fn query_told(
    alloc: Global,
    naming: &Naming<'_>,
    query: Option<&str>,
) -> Result<Option<String>, NamesRefusal>
    ensures text { IfOk result (λ text. (called : named.Naming) → AreNamed called naming.now
        → query_told called (option_map (λ t. t.now) query.entry)
        ≡ Ok (option_map string_bytes text)) }
    ensures fault { IfErr result (λ why. (called : named.Naming) → AreNamed called naming.now
        → TellsNames (query_told called (option_map (λ t. t.now) query.entry)) why) }
{
    let Some(query) = query else {
        return Ok(None);
    };
    match naming.query(alloc, query) {
        Ok(query) => Ok(Some(query)),
        Err(why) => Err(why),
    }
}

impl Texts {
    /// Those of a question.
    pub(crate) fn read(
        alloc: Global,
        question: Question<'_>,
        naming: &Naming<'_>,
    ) -> Result<Texts, NamesRefusal>
        ensures asked { IfOk result (λ texts. (called : named.Naming) → AreNamed called naming.now
            → asked_with_ids called (asked_in question.entry) ≡ Ok (asked_with
            (asked_in question.entry) (option_map string_bytes texts.query)
            (option_map string_bytes texts.token))) }
        ensures fault { IfErr result (λ why. (called : named.Naming) → AreNamed called naming.now
            → TellsNames (asked_with_ids called (asked_in question.entry)) why) }
    {
        let query = match query_told(alloc, naming, question.query()) {
            Ok(query) => query,
            Err(why) => return Err(why),
        };
        match naming.token(alloc, question.token()) {
            Ok(token) => Ok(Texts { query, token }),
            Err(why) => Err(why),
        }
    }

    /// The question with them.
    pub(crate) fn question<'b, 'a>(&'b self, question: &'b Question<'a>) -> Question<'b>
        ensures { asked_in result ≡ asked_with (asked_in question.now)
            (option_map string_bytes self.now.query) (option_map string_bytes self.now.token) }
    {
        let query = self.query.as_deref();
        let token = self.token.as_deref();
        match question {
            Question::Job(job) => Question::Job(Job {
                command: job.command.with_token(token),
                query: query.unwrap_or(job.query),
                ..*job
            }),
            Question::Fill { query: was } => Question::Fill {
                query: query.unwrap_or(*was),
            },
            Question::Place {
                query: was,
                name,
                host,
            } => Question::Place {
                query: query.unwrap_or(*was),
                name: *name,
                host: *host,
            },
            Question::Claim {
                query: was,
                token: given,
                name,
            } => Question::Claim {
                query: query.unwrap_or(*was),
                token: token.unwrap_or(*given),
                name: *name,
            },
            Question::Release {
                query: was,
                token: given,
            } => Question::Release {
                query: query.unwrap_or(*was),
                token: token.unwrap_or(*given),
            },
            Question::Move { name, token: given } => Question::Move {
                name: *name,
                token: token.unwrap_or(*given),
            },
            other => *other,
        }
    }
}
