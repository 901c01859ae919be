//! The texts of a job with UUIDs in place of names.
ghost use Rattle.std.specs.Prelude.{◌≡◌, IfErr, IfOk, None, OnOk, Ok, map, option_map, string_bytes};
ghost use Rattle.ac_cloud.specs.Cloud.CloudWorld.{providers_of};
ghost use Rattle.ac_report.specs.Called.{AreCalled, providers_called};
ghost use Rattle.ac_run.specs.Naming.{ExplainsNames, TellsNames, flavors_asked, names_refused, query_asked, task_by, task_with_ids, token_asked};
ghost use Rattle.ac_run.specs.Tasks.{task_of};
ghost use Rattle.ac_run.specs.Wanted.Named as named;
ghost use Rattle.ac_run.specs.Wanted.Named.{AreNamed};
ghost use Rattle.ac_tables.specs.Called.{called_said, called_shown};
ghost use Rattle.ac_tables.specs.Tables.Rows.{records_of};

use super::flavors::table_with_ids;
use super::query::{PairFault, query_with_ids};
use super::token::token_with_ids;
use super::{LookupFault, Naming};
use crate::job::Job;
use crate::refusal::NamesRefusal;
use ac_base::NoMemory;
use ac_report::Names;
use ac_tables::{BesideFault, Called, Cloud, read_called};
use std::alloc::Global;

/// The most bytes of a table of names: 64 MiB, as of every table.
const MOST_BYTES: usize = 67_108_864;

/// The names of aggregates that a table says.
#[tactic(auto, unfolding(crate::specs::Naming::names_refused))]
pub fn read_names(alloc: Global, text: &[u8]) -> Result<Vec<Called>, NamesRefusal>
    ensures called { IfOk result (λ called.
        map called_shown called.items ≡ called_said (records_of text.now)) }
    ensures fine { OnOk result (names_refused text.now ≡ None) }
    ensures fault { IfErr result (ExplainsNames (names_refused text.now)) }
{
    if text.len() > MOST_BYTES {
        return Err(NamesRefusal::TooLarge);
    }
    match read_called(alloc, text) {
        Ok(called) => Ok(called),
        Err(BesideFault::At { row, kind }) => Err(NamesRefusal::Record { row, kind }),
        Err(BesideFault::NoMemory) => Err(NamesRefusal::NoMemory),
    }
}

// The names of those that have these.
fn names_of<'a>(alloc: Global, called: &'a [Called]) -> Result<Names<'a>, NoMemory>
    ensures { IfOk result (AreCalled (map called_shown called.now)) }
{
    let mut names = Names::new(alloc);
    for one in called {
        names.add(one.id, &one.name)?;
    }
    Ok(names)
}

impl<'a> Naming<'a> {
    /// The names of the providers of a cloud, and of these aggregates.
    pub(crate) fn new(
        alloc: Global,
        cloud: &'a Cloud,
        called: &'a [Called],
    ) -> Result<Naming<'a>, NoMemory>
        ensures providers { IfOk result (λ naming.
            AreCalled (providers_called (providers_of cloud.now)) naming.providers) }
        ensures aggregates { IfOk result (λ naming.
            AreCalled (map called_shown called.now) naming.aggregates) }
    {
        Ok(Naming {
            providers: Names::of_providers(alloc, cloud)?,
            aggregates: names_of(alloc, called)?,
        })
    }

    /// The names of these providers, and of these aggregates.
    pub fn of(
        alloc: Global,
        providers: &'a [Called],
        aggregates: &'a [Called],
    ) -> Result<Naming<'a>, NoMemory>
        ensures providers { IfOk result (λ naming.
            AreCalled (map called_shown providers.now) naming.providers) }
        ensures aggregates { IfOk result (λ naming.
            AreCalled (map called_shown aggregates.now) naming.aggregates) }
    {
        Ok(Naming {
            providers: names_of(alloc, providers)?,
            aggregates: names_of(alloc, aggregates)?,
        })
    }

    /// A query with UUIDs in place of names.
    pub fn query(&self, alloc: Global, query: &str) -> Result<String, NamesRefusal>
        ensures text { IfOk result (λ text. (called : named.Naming) → AreNamed called self.now
            → query_asked called query.now ≡ Ok (string_bytes text)) }
        ensures fault { IfErr result (λ why. (called : named.Naming) → AreNamed called self.now
            → TellsNames (query_asked called query.now) why) }
    {
        match query_with_ids(alloc, self, query) {
            Ok(query) => Ok(query),
            Err(PairFault::Name(number, fault)) => Err(NamesRefusal::Pair(number, fault)),
            Err(PairFault::NoMemory) => Err(NamesRefusal::NoMemory),
        }
    }

    // A table of flavors with UUIDs in place of names, where there is one.
    fn flavors(&self, alloc: Global, text: Option<&[u8]>) -> Result<Option<Vec<u8>>, NamesRefusal>
        ensures text { IfOk result (λ table. (called : named.Naming) → AreNamed called self.now
            → flavors_asked called (option_map (λ t. t.now) text.entry)
            ≡ Ok (option_map (λ t. t.items) table)) }
        ensures fault { IfErr result (λ why. (called : named.Naming) → AreNamed called self.now
            → TellsNames (flavors_asked called (option_map (λ t. t.now) text.entry)) why) }
    {
        let Some(text) = text else {
            return Ok(None);
        };
        match table_with_ids(alloc, self, text) {
            Ok(table) => Ok(Some(table)),
            Err(PairFault::Name(row, fault)) => Err(NamesRefusal::Flavor(row, fault)),
            Err(PairFault::NoMemory) => Err(NamesRefusal::NoMemory),
        }
    }

    /// A token with UUIDs in place of names, where there is one.
    pub fn token(&self, alloc: Global, token: Option<&str>) -> Result<Option<String>, NamesRefusal>
        ensures text { IfOk result (λ text. (called : named.Naming) → AreNamed called self.now
            → token_asked called.providers (option_map (λ t. t.now) token.entry)
            ≡ Ok (option_map string_bytes text)) }
        ensures fault { IfErr result (λ why. (called : named.Naming) → AreNamed called self.now
            → TellsNames (token_asked called.providers (option_map (λ t. t.now) token.entry)) why) }
    {
        let Some(token) = token else {
            return Ok(None);
        };
        match token_with_ids(alloc, &self.providers, token) {
            Ok(token) => Ok(Some(token)),
            Err(LookupFault::Name(fault)) => Err(NamesRefusal::Token(fault)),
            Err(LookupFault::NoMemory) => Err(NamesRefusal::NoMemory),
        }
    }
}

/// The query of a job, its token, and its table of flavors, where it has them.
#[derive(Drop)]
pub(crate) struct Texts {
    query: String,
    token: Option<String>,
    flavors: Option<Vec<u8>>,
}

impl Texts {
    /// Those of a job.
    pub(crate) fn read(
        alloc: Global,
        job: &Job<'_>,
        naming: &Naming<'_>,
    ) -> Result<Texts, NamesRefusal>
        ensures task { IfOk result (λ texts. (called : named.Naming) → AreNamed called naming.now
            → task_with_ids called (task_of job.now) ≡ Ok (task_by (task_of job.now) texts)) }
        ensures fault { IfErr result (λ why. (called : named.Naming) → AreNamed called naming.now
            → TellsNames (task_with_ids called (task_of job.now)) why) }
    {
        let query = match naming.query(alloc, job.query) {
            Ok(query) => query,
            Err(why) => return Err(why),
        };
        let token = match naming.token(alloc, job.command.token()) {
            Ok(token) => token,
            Err(why) => return Err(why),
        };
        match naming.flavors(alloc, job.command.flavors()) {
            Ok(flavors) => Ok(Texts {
                query,
                token,
                flavors,
            }),
            Err(why) => Err(why),
        }
    }

    /// The job with them.
    pub(crate) fn job<'b, 'a>(&'b self, job: &'b Job<'a>) -> Job<'b>
        ensures { task_of result ≡ task_by (task_of job.now) self.now }
    {
        Job {
            command: job
                .command
                .with_token(self.token.as_deref())
                .with_flavors(self.flavors.as_deref()),
            query: self.query.as_str(),
            ..*job
        }
    }
}
