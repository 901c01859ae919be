//! Why a run has no answer.
ghost use Rattle.std.specs.Prelude.{◌≡◌};

pub(crate) mod details;
pub mod lines;

use ac_change::ChangeKind;
use ac_cloud::HostFault;
use ac_query::{QueryFault, TokenFault};
use ac_report::NameFault;
use ac_tables::{Table, TableKind};
use std::alloc::{AllocError, AllocFailed, Global};

/// Why the tables are no cloud.
#[derive(Debug, Drop)]
pub enum TablesRefusal {
    /// The bytes of a table can't be had.
    Unreadable(Table),
    /// A table has more bytes than it may.
    TooLarge(Table),
    /// What is wrong with a record of a table.
    Record {
        table: Table,
        row: u32,
        kind: TableKind,
    },
    /// Why changes of the cloud can't be made.
    Changes(ChangesRefusal),
    /// A growth was refused.
    NoMemory,
}

/// Why changes of a cloud can't be made. Lines are numbered from 1.
#[derive(Clone, Copy, Debug, PartialEq, Eq)]
pub enum ChangesRefusal {
    /// Their bytes can't be had.
    Unreadable,
    /// They have more bytes than a table may.
    TooLarge,
    /// What is wrong with a line.
    At { line: u64, kind: ChangeKind },
}

/// Why what is asked of a cloud has no answer.
#[derive(Debug, Drop)]
pub enum AskRefusal {
    /// What is wrong with the query.
    Query(QueryFault),
    /// What is wrong with the token.
    Token(TokenFault),
    /// Why no provider is named.
    Host(HostFault),
    /// What is wrong with the table of flavors.
    Flavors(FlavorsRefusal),
    /// Why an answer of the service can't be compared.
    Answer(AnswerRefusal),
    /// A growth was refused.
    NoMemory,
}

impl From<AllocError> for AskRefusal {
    ghost use Rattle.ac_run.specs.declared.refusal.AskRefusal.TheVariants.{NoMemory as refused};

    ghost from_gives = { λ _ told. told ≡ refused };

    fn from(_error: AllocError) -> AskRefusal {
        AskRefusal::NoMemory
    }
}

impl<T: Drop> From<AllocFailed<T>> for AskRefusal {
    ghost use Rattle.ac_run.specs.declared.refusal.AskRefusal.TheVariants.{NoMemory as refused};

    ghost from_gives = { λ _ told. told ≡ refused };

    fn from(_error: AllocFailed<T>) -> AskRefusal {
        AskRefusal::NoMemory
    }
}

/// What is wrong with a table of flavors. Records are numbered from 1, the header is the first.
#[derive(Debug, Drop)]
pub enum FlavorsRefusal {
    /// Its bytes can't be had.
    Unreadable,
    /// It has more bytes than it may.
    TooLarge,
    /// What is wrong with a record.
    Record { row: u32, kind: TableKind },
    /// The query of a record isn't UTF-8.
    NotText { row: u32 },
    /// What is wrong with the query of a record.
    Query { row: u32, fault: QueryFault },
}

/// Why names in place of UUIDs can't be read.
#[derive(Clone, Copy, Debug, PartialEq, Eq)]
pub enum NamesRefusal {
    /// The bytes of the table of names of aggregates can't be had.
    Unreadable,
    /// It has more bytes than it may.
    TooLarge,
    /// What is wrong with a record of it. Records are numbered from 1, the header is the first.
    Record { row: u32, kind: TableKind },
    /// Why a name in the pair of this number stands for nothing. Pairs are numbered from 1.
    Pair(u32, NameFault),
    /// Why a name in the query of a flavor stands for nothing, by the record of the flavor.
    Flavor(u32, NameFault),
    /// Why a name of the token stands for no provider.
    Token(NameFault),
    /// A growth was refused.
    NoMemory,
}

/// Why an answer of the service can't be compared.
#[derive(Clone, Copy, Debug, PartialEq, Eq)]
pub enum AnswerRefusal {
    /// Its bytes can't be had.
    Unreadable,
    /// It has more bytes than it may.
    TooLarge,
    /// It is no answer of the service.
    BadAnswer,
}

/// Why there is no answer.
#[derive(Debug, Drop)]
pub enum Refusal {
    Tables(TablesRefusal),
    Asked(AskRefusal),
    Names(NamesRefusal),
    /// The output can't be written.
    Output,
    /// The search made as many tries as it may.
    TooManyTries,
    /// A growth was refused.
    NoMemory,
}

/// Why there is no answer, and what stands behind that line; nothing where no more is told.
#[derive(Debug, Drop)]
pub struct Refused {
    pub refusal: Refusal,
    pub detail: Vec<u8>,
}

impl Refused {
    ghost use Rattle.ac_run.specs.Refusals.{IsRefusalWith, line_of, line_told, status_of, status_told};

    /// A refusal with nothing behind its line.
    pub fn of(alloc: Global, refusal: Refusal) -> Refused
        ensures line { line_told result ≡ line_of refusal }
        ensures status { status_told result ≡ status_of refusal }
    {
        Refused {
            refusal,
            detail: Vec::new(alloc),
        }
    }

    /// A refusal with this text behind its line. Where there was no memory for the text, want of memory is what is told.
    pub fn new(alloc: Global, refusal: Refusal, detail: Result<Vec<u8>, AllocError>) -> Refused
        ensures { IsRefusalWith refusal detail result }
    {
        match detail {
            Ok(detail) => Refused { refusal, detail },
            Err(AllocError) => Refused::of(alloc, Refusal::NoMemory),
        }
    }
}
