//! The words of a command line, read by `clap`.
ghost use Rattle.std.specs.Prelude.{◌≡◌, IfErr, IfOk, IsTrue, OnOk, [], map, option_map, string_bytes};
ghost use Rattle.ac_run.specs.Tasks.{changes_shown, detail_shown, paths_shown, task_of};
ghost use Rattle.ac_tables.specs.FiveTables.{table_in};
ghost use Rattle.ac_words.specs.Words.{Line, Says, Tells, call_shown, calls_answer, faults, file_called, is_tabled, is_taken, named, paths_kept, task_in};
ghost use Rattle.clap.specs.Words.{HasKind, Kinds};
ghost use Rattle.ac_words.specs.declared.words.WordFault.TheVariants.{NoMemory};

mod entries;
mod grammar;
mod help;
mod tables;

use crate::form::Form;
use ac_query::Version;
use ac_run::{Command, Job, Paths};
use ac_tables::{FiveTables, Table};
use clap::error::ErrorKind;
use std::alloc::{AllocError, Global};
use std::marker::Model;

// What a command line calls for.
#[derive(Clone, Copy)]
enum Call<'a> {
    // A command, with its query.
    Job(Command<'a>, &'a str),
    // The table of flavors at a path, and whether metrics are written of it.
    Plan(&'a str, bool),
    // The answer of the service at a path, and its query.
    Beside(&'a str, &'a str),
    // A session, whose questions are read later.
    Session,
}

/// The words of a command line that was accepted.
#[derive(Drop)]
pub struct Words<'a> {
    call: Call<'a>,
    version: Version,
    tries: Option<u64>,
    form: Form,
    changes: Option<&'a str>,
    names: bool,
    aggregate_names: Option<String>,
    detail: bool,
    paths: FiveTables<String>,
}

impl<'a> Model for Words<'a> {
    ghost Value = { Line };

    ghost view = { λ w. record {
      call = call_shown w.call;
      version = w.version;
      tries = w.tries;
      form = w.form;
      changes = option_map (λ t. t.now) w.changes;
      names = w.names;
      aggregate_names = option_map string_bytes w.aggregate_names;
      detail = w.detail;
      paths = paths_kept w.paths;
    } };
}

impl<'a> Words<'a> {
    /// The job that the words ask for, with these bytes of the file that is read beside the tables, with these changes, with this table of names of aggregates,
    /// and with these paths where more is told; none where they ask for a session.
    pub fn job<'b>(
        &'b self,
        file: &'b [u8],
        changes: Option<&'b [u8]>,
        names: Option<&'b [u8]>,
        detail: Option<&'b Paths<'b>>,
    ) -> Option<Job<'b>>
        ensures { option_map task_of result ≡ task_in self.now file.now
            (changes_shown changes.entry) (changes_shown names.entry) (detail_shown detail.entry) }
    {
        let (command, query) = match self.call {
            Call::Job(command, query) => (command, query),
            Call::Plan(_, metrics) => {
                let flavors = file;
                (Command::Capacity { flavors, metrics }, "")
            }
            Call::Beside(_, query) => (Command::Compare { answer: file }, query),
            Call::Session => return None,
        };
        Some(Job {
            command,
            query,
            version: self.version,
            tries: self.tries,
            changes,
            names,
            detail,
        })
    }

    /// The path of the file that is read beside the tables, where the words ask for one: a table of flavors, or an answer of the service.
    pub fn file(&self) -> Option<&str>
        ensures { option_map (λ path. path.now) result ≡ file_called self.now.call }
    {
        match self.call {
            Call::Plan(path, _) | Call::Beside(path, _) => Some(path),
            _ => None,
        }
    }

    /// Whether it is an answer of the service.
    pub fn has_answer(&self) -> bool
        ensures { result ≡ calls_answer self.now.call }
    {
        match self.call {
            Call::Beside(..) => true,
            _ => false,
        }
    }

    /// Whether they are about tables: how a query is read isn't, nor are the parameters.
    pub fn is_tabled(&self) -> bool
        ensures { result ≡ is_tabled self.now.call }
    {
        match self.call {
            Call::Job(Command::Query | Command::Parameters, _) => false,
            _ => true,
        }
    }

    /// The version that reads queries.
    pub fn version(&self) -> Version
        ensures { result ≡ self.now.version }
    {
        self.version
    }

    /// How many tries each search may make; without a number, as many as it takes.
    pub fn tries(&self) -> Option<u64>
        ensures { result ≡ self.now.tries }
    {
        self.tries
    }

    /// The form in which rows are written.
    pub fn form(&self) -> Form
        ensures { result ≡ self.now.form }
    {
        self.form
    }

    /// The path of the file of changes, where one was given.
    pub fn changes(&self) -> Option<&str>
        ensures { option_map (λ path. path.now) result ≡ self.now.changes }
    {
        self.changes
    }

    /// Whether names stand in place of UUIDs.
    pub fn names(&self) -> bool
        ensures { result ≡ self.now.names }
    {
        self.names
    }

    /// The path of the table of names of aggregates, where a folder of tables was given.
    pub fn aggregate_names(&self) -> Option<&str>
        ensures { option_map (λ path. path.now) result ≡ self.now.aggregate_names }
    {
        self.aggregate_names.as_deref()
    }

    /// Whether more is said: below the line of a fault what to do about it, of a verdict of what a rule is broken, and behind an answer where the service
    /// may answer otherwise.
    pub fn detail(&self) -> bool
        ensures { result ≡ self.now.detail }
    {
        self.detail
    }

    /// The path of a table's file, where one was given.
    pub fn path(&self, table: Table) -> Option<&str>
        ensures { option_map (λ path. path.now) result ≡ table_in self.now.paths table }
    {
        match table {
            Table::Providers => Some(self.paths.providers.as_str()),
            Table::Inventories => Some(self.paths.inventories.as_str()),
            Table::Usages => self.paths.usages.as_deref(),
            Table::Traits => self.paths.traits.as_deref(),
            Table::Aggregates => self.paths.aggregates.as_deref(),
        }
    }

    /// The paths of the tables' files.
    pub fn paths(&self) -> Paths<'_>
        ensures { paths_shown result ≡ self.now.paths }
    {
        FiveTables {
            providers: self.paths.providers.as_str(),
            inventories: self.paths.inventories.as_str(),
            usages: self.paths.usages.as_deref(),
            traits: self.paths.traits.as_deref(),
            aggregates: self.paths.aggregates.as_deref(),
        }
    }
}

/// Why words were not accepted.
#[derive(Debug, Drop)]
pub enum WordFault {
    /// They are refused: a text on what is wrong with them, as `clap` writes it.
    Refused(String),
    /// They ask for help: `clap`'s text of it.
    Help(String),
    /// They ask for the version: that of the program, and the logic in which it is proved.
    Version(String),
    /// A growth was refused.
    NoMemory,
}

impl From<AllocError> for WordFault {
    ghost from_gives = { λ _ fault. fault ≡ NoMemory };

    fn from(_error: AllocError) -> WordFault {
        WordFault::NoMemory
    }
}

// What the user is told of an error of `clap`.
fn fault_of(alloc: Global, error: &clap::Error) -> Result<WordFault, AllocError>
    ensures { (kinds : Kinds) → HasKind kinds error.now → IfOk result (Tells kinds) }
{
    match error.kind() {
        ErrorKind::OutOfMemory => Ok(WordFault::NoMemory),
        ErrorKind::DisplayHelp => Ok(WordFault::Help(error.to_string(alloc)?)),
        ErrorKind::DisplayVersion => Ok(WordFault::Version(error.to_string(alloc)?)),
        _ => Ok(WordFault::Refused(error.to_string(alloc)?)),
    }
}

/// Reads the words of a command line, of which the first is the program's own name.
pub fn read_words(alloc: Global, words: &[String]) -> Result<Words<'_>, WordFault>
    ensures entries { IfOk result (Says (named (map string_bytes words.now))) }
    ensures ok { OnOk result (faults (map string_bytes words.now) ≡ []) }
    ensures fault { IfErr result (Tells (faults (map string_bytes words.now))) }
    ensures taken { IsTrue (is_taken (map string_bytes words.now))
        → IfErr result (λ fault. fault ≡ NoMemory) }
{
    let grammar = grammar::program(alloc)?;
    match grammar.try_get_matches_from(words) {
        Ok(matches) => entries::words_of(alloc, &matches),
        Err(error) => Err(fault_of(alloc, &error)?),
    }
}
