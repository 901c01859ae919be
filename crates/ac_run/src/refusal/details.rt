//! What stands behind the line of a refusal where more is told: what is to be done.
ghost use Rattle.std.specs.Prelude.{◌≡◌, IfOk, None};
ghost use Rattle.ac_run.specs.Changing.{change_remedy};
ghost use Rattle.ac_run.specs.Details.{answer_remedy, asked_remedy, behind, changes_remedy, fault_remedy, names_remedy, path_in, reading_remedy};
ghost use Rattle.ac_run.specs.Flavors.{why_shown};
ghost use Rattle.ac_run.specs.Feeds.Draining.{texts_shown};
ghost use Rattle.ac_run.specs.Feeds.{too_large};
ghost use Rattle.ac_run.specs.Wanted.Given.{tables_in};
ghost use Rattle.ac_run.specs.declared.refusal.AskRefusal.TheVariants as AskRefusal;
ghost use Rattle.ac_run.specs.Tasks.{detail_shown, paths_shown, task_of};

use crate::inputs::Texts;
use crate::job::{Job, Paths};
use crate::ready::sources_of;
use crate::refusal::lines::push_query_line;
use crate::refusal::{
    AnswerRefusal, AskRefusal, ChangesRefusal, FlavorsRefusal, NamesRefusal, TablesRefusal,
};
use ac_base::ToWrite;
use ac_change::ChangeKind;
use ac_query::{Query, TokenFault};
use ac_remedies::{
    host_remedy, query_remedy, record_remedy, size_remedy, token_remedy, unread_remedy,
};
use ac_report::NameFault;
use ac_tables::Table;
use std::alloc::{AllocError, Global};

// The path of a table's file; empty where none was given.
fn path_of<'a>(paths: &Paths<'a>, table: Table) -> &'a str
    ensures { result.now ≡ path_in (paths_shown paths.now) table }
{
    match table {
        Table::Providers => paths.providers,
        Table::Inventories => paths.inventories,
        Table::Usages => paths.usages.unwrap_or(""),
        Table::Traits => paths.traits.unwrap_or(""),
        Table::Aggregates => paths.aggregates.unwrap_or(""),
    }
}

/// Of a table whose bytes can't be had.
pub(crate) fn reading_detail(
    alloc: Global,
    detail: Option<&Paths>,
    refusal: &TablesRefusal,
) -> Result<Vec<u8>, AllocError>
    ensures text { IfOk result (λ text.
        text.items ≡ behind (detail_shown detail.entry) (reading_remedy refusal.now)) }
{
    match (detail, refusal) {
        (Some(paths), TablesRefusal::Unreadable(table)) => {
            unread_remedy(alloc, path_of(paths, *table), None)
        }
        (Some(paths), TablesRefusal::TooLarge(table)) => size_remedy(alloc, path_of(paths, *table)),
        _ => Ok(Vec::new(alloc)),
    }
}

/// Of a fault of a record.
pub(crate) fn fault_detail(
    alloc: Global,
    detail: Option<&Paths>,
    texts: &Texts,
    refusal: &TablesRefusal,
) -> Result<Vec<u8>, AllocError>
    requires { too_large (texts_shown texts.now) ≡ None }
    ensures text { IfOk result (λ text. text.items ≡ behind (detail_shown detail.entry)
        (fault_remedy (tables_in (texts_shown texts.now)) refusal.now)) }
{
    match (detail, refusal) {
        (Some(paths), TablesRefusal::Record { table, row, kind }) => record_remedy(
            alloc,
            path_of(paths, *table),
            &sources_of(texts),
            *table,
            *row,
            *kind,
        ),
        _ => Ok(Vec::new(alloc)),
    }
}

// What is to be done about a fault of a change.
#[tactic(auto, unfolding(crate::specs::Changing::change_remedy))]
fn change_remedy(kind: ChangeKind) -> &'static [u8]
    ensures { result.now ≡ change_remedy kind }
{
    match kind {
        ChangeKind::BadLine => {
            b"  A line is disable HOST, enable HOST, remove HOST, add N like HOST, set WHERE CLASS FIELD VALUE, trait WHERE +NAME or aggregate WHERE +UUID, with - where it is to go; WHERE is a provider, * or in:AGGREGATE.\n"
        }
        ChangeKind::UnknownHost => b"  No provider has this UUID or name.\n",
        ChangeKind::AmbiguousHost => {
            b"  Several providers have this name; write the UUID of one.\n"
        }
        ChangeKind::ReservedOverTotal => b"  More would be reserved than there is.\n",
        ChangeKind::TooManyProviders => {
            b"  There would be more than 65536 providers, or no UUID is left behind the greatest.\n"
        }
    }
}

/// Of a fault of a change.
pub(crate) fn changes_detail(
    alloc: Global,
    detail: Option<&Paths>,
    refusal: &TablesRefusal,
) -> Result<Vec<u8>, AllocError>
    ensures text { IfOk result (λ text. text.items
        ≡ behind (detail_shown detail.entry) (λ _. changes_remedy refusal.now)) }
{
    match (detail, refusal) {
        (Some(_), TablesRefusal::Changes(ChangesRefusal::At { line: _, kind })) => {
            change_remedy(*kind).to_vec(alloc)
        }
        _ => Ok(Vec::new(alloc)),
    }
}

// What is to be done about names that can't be read.
#[tactic(auto, unfolding(crate::specs::Details::names_remedy))]
fn names_remedy(refusal: NamesRefusal) -> &'static [u8]
    ensures { result.now ≡ names_remedy refusal }
{
    match refusal {
        NamesRefusal::Record { .. } => {
            b"  Each record is the UUID of an aggregate and a name of it, behind the header uuid,name.\n"
        }
        NamesRefusal::Pair(_, NameFault::Unknown) | NamesRefusal::Flavor(_, NameFault::Unknown) => {
            b"  No provider has this name (in_tree), or no aggregate (member_of): their names stand in aggregate-names.csv.\n"
        }
        NamesRefusal::Token(NameFault::Unknown) => b"  No provider has this name.\n",
        NamesRefusal::Pair(_, NameFault::Ambiguous)
        | NamesRefusal::Flavor(_, NameFault::Ambiguous)
        | NamesRefusal::Token(NameFault::Ambiguous) => {
            b"  Several have this name; write the UUID of one.\n"
        }
        NamesRefusal::Unreadable | NamesRefusal::TooLarge | NamesRefusal::NoMemory => b"",
    }
}

/// Of names that can't be read.
pub(crate) fn names_detail(
    alloc: Global,
    detail: Option<&Paths>,
    refusal: NamesRefusal,
) -> Result<Vec<u8>, AllocError>
    ensures text { IfOk result (λ text. text.items
        ≡ behind (detail_shown detail.entry) (λ _. names_remedy refusal)) }
{
    match detail {
        Some(_) => names_remedy(refusal).to_vec(alloc),
        None => Ok(Vec::new(alloc)),
    }
}

// Of a token, whose query is read again, for its slots.
fn token_detail(alloc: Global, job: &Job, fault: TokenFault) -> Result<Vec<u8>, AllocError>
    ensures text { IfOk result (λ text.
        text.items ≡ asked_remedy (task_of job.now) (AskRefusal.Token fault)) }
{
    match Query::read(alloc, job.query, job.version) {
        Ok(query) => token_remedy(alloc, job.command.token().unwrap_or(""), &query, fault),
        Err(_) => Err(AllocError),
    }
}

// Of a table of flavors: the line of its query's fault.
fn flavors_detail(alloc: Global, refusal: &FlavorsRefusal) -> Result<Vec<u8>, AllocError>
    ensures text { IfOk result (λ text. text.items ≡ (why_shown refusal.now).detail) }
{
    let mut text = ToWrite::new(Vec::new(alloc));
    if let FlavorsRefusal::Query { row: _, fault } = refusal {
        // A vector refuses bytes for want of memory alone.
        push_query_line(&mut text, fault).map_err(|_| AllocError)?;
    }
    Ok(text.into_inner())
}

// Of an answer of the service.
#[tactic(auto, unfolding(crate::specs::Details::answer_remedy))]
fn answer_detail(alloc: Global, refusal: AnswerRefusal) -> Result<Vec<u8>, AllocError>
    ensures text { IfOk result (λ text. text.items ≡ answer_remedy refusal) }
{
    match refusal {
        AnswerRefusal::BadAnswer =>
            b"  It is to be the body that the service answers GET /allocation_candidates with: JSON, with allocation_requests of 1.34 or later.\n".to_vec(
                alloc,
            ),
        _ => Ok(Vec::new(alloc)),
    }
}

/// Of what is asked and refused.
pub(crate) fn asked_detail(
    alloc: Global,
    job: &Job,
    refusal: &AskRefusal,
) -> Result<Vec<u8>, AllocError>
    ensures text { IfOk result (λ text. text.items
        ≡ behind (task_of job.now).detail (λ _. asked_remedy (task_of job.now) refusal.now)) }
{
    if job.detail.is_none() {
        return Ok(Vec::new(alloc));
    }
    match refusal {
        AskRefusal::Query(fault) => query_remedy(alloc, job.query, job.version, fault),
        AskRefusal::Token(fault) => token_detail(alloc, job, *fault),
        AskRefusal::Host(fault) => host_remedy(alloc, job.command.host().unwrap_or(""), *fault),
        AskRefusal::Flavors(refusal) => flavors_detail(alloc, refusal),
        AskRefusal::Answer(refusal) => answer_detail(alloc, *refusal),
        AskRefusal::NoMemory => Ok(Vec::new(alloc)),
    }
}
