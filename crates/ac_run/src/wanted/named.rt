//! Names in place of UUIDs: what they stand for in a query and in a token.
ghost use Rattle.std.specs.Prelude.{◌≡◌, ℕ, List, IfErr, IfOk, Ok};
ghost use Rattle.ac_query.specs.Texts.{items_of};
ghost use Rattle.ac_report.specs.Called.{AreCalled, Called};
ghost use Rattle.ac_run.specs.Wanted.Named.{TellsName, ids_each, ids_listed};
ghost use Rattle.ac_run.specs.declared.wanted.named.LookupFault.TheVariants.{NoMemory as refused};

pub(crate) mod flavors;
pub(crate) mod query;
pub(crate) mod texts;
pub(crate) mod token;

use ac_base::{Id, NoMemory};
use ac_report::{NameFault, Names};
use std::alloc::{AllocError, AllocFailed, Global};

/// What names stand for in a query: those of providers, and those of aggregates.
#[derive(Drop)]
pub struct Naming<'a> {
    pub providers: Names<'a>,
    pub aggregates: Names<'a>,
}

/// Why names can't be read.
#[derive(Clone, Copy, Debug, PartialEq, Eq)]
pub enum LookupFault {
    /// One stands for nothing.
    Name(NameFault),
    /// A growth was refused.
    NoMemory,
}

impl From<NoMemory> for LookupFault {
    ghost from_gives = { λ _ told. told ≡ refused };

    fn from(_error: NoMemory) -> LookupFault {
        LookupFault::NoMemory
    }
}

impl From<AllocError> for LookupFault {
    ghost from_gives = { λ _ told. told ≡ refused };

    fn from(_error: AllocError) -> LookupFault {
        LookupFault::NoMemory
    }
}

impl<T: Drop> From<AllocFailed<T>> for LookupFault {
    ghost from_gives = { λ _ told. told ≡ refused };

    fn from(_error: AllocFailed<T>) -> LookupFault {
        LookupFault::NoMemory
    }
}

// The UUIDs of the names between the commas of a text.
fn ids_between(alloc: Global, names: &Names<'_>, text: &str) -> Result<Vec<Id>, LookupFault>
    ensures ids { IfOk result (λ ids. (called : Called) → AreCalled called names.now
        → ids_each called (items_of text.now) ≡ Ok ids.items) }
    ensures fault { IfErr result (λ fault. (called : Called) → AreCalled called names.now
        → TellsName (ids_each called (items_of text.now)) fault) }
{
    let mut ids = Vec::new(alloc);
    for item in text.split(',') {
        match names.find(item.as_bytes()) {
            Ok(id) => ids.push(id)?,
            Err(fault) => return Err(LookupFault::Name(fault)),
        }
    }
    Ok(ids)
}

// The UUIDs of a list of names: of the whole text, where that is a name; else of those between its commas.
fn ids_listed(alloc: Global, names: &Names<'_>, text: &str) -> Result<Vec<Id>, LookupFault>
    ensures ids { IfOk result (λ ids. (called : Called) → AreCalled called names.now
        → ids_listed called text.now ≡ Ok ids.items) }
    ensures fault { IfErr result (λ fault. (called : Called) → AreCalled called names.now
        → TellsName (ids_listed called text.now) fault) }
{
    match names.find(text.as_bytes()) {
        Ok(id) => {
            let mut ids = Vec::new(alloc);
            ids.push(id)?;
            Ok(ids)
        }
        Err(NameFault::Ambiguous) => Err(LookupFault::Name(NameFault::Ambiguous)),
        Err(NameFault::Unknown) => ids_between(alloc, names, text),
    }
}
