//! The lines of refusals, pushed piece by piece: they take no memory.
ghost use Rattle.std.specs.Prelude.{◌≡◌, ◌≤◌, ◌++◌};
ghost use Rattle.ac_query.specs.Shown.Faults.{fault_shown};
ghost use Rattle.ac_run.specs.Changing.{change_line, change_name};
ghost use Rattle.ac_run.specs.Flavors.{flavor_line, query_told, why_shown};
ghost use Rattle.ac_run.specs.Lines.{answer_line, called_line, group_line, line_at, name_fault, names_line, pair_line, record_line};
ghost use Rattle.ac_run.specs.Refusals.{changes_line, line_of, line_of_asked, line_of_tables, line_told, status_of, status_of_asked, status_of_names, status_told};
ghost use Rattle.ac_base.specs.Writing.{Pushes, TakesLine};

use crate::refusal::{
    AnswerRefusal, AskRefusal, ChangesRefusal, FlavorsRefusal, NamesRefusal, Refusal, Refused,
    TablesRefusal,
};
use ac_base::{Digits, Sink, WriteFailed, push_all, push_pieces};
use ac_change::ChangeKind;
use ac_cloud::HostFault;
use ac_query::{QueryFault, TokenFault};
use ac_report::NameFault;
use ac_tables::{Table, TableKind};
use itoa::Buffer;

// The line of what is wrong with a record of a table, by their names.
fn push_line_at<E: Sink>(
    err: &mut E,
    table: &[u8],
    row: u32,
    name: &[u8],
) -> Result<(), WriteFailed>
    ensures { Pushes E.taken E.failures err.old err.new result (line_at table.now row name.now) }
{
    push_pieces(
        err,
        &[
            table,
            b": record ",
            Digits::of(row).as_bytes(),
            b": ",
            name,
            b"\n",
        ],
    )
}

// The line of a fault of a record.
#[tactic(auto, unfolding(crate::specs::Lines::record_line))]
fn push_record_line<E: Sink>(
    err: &mut E,
    table: Table,
    row: u32,
    kind: TableKind,
) -> Result<(), WriteFailed>
    ensures { Pushes E.taken E.failures err.old err.new result (record_line table row kind) }
{
    push_line_at(err, table.name().as_bytes(), row, kind.name().as_bytes())
}

// The line of what is wrong with a pair.
#[tactic(auto, unfolding(crate::specs::Lines::pair_line))]
fn push_pair_line<E: Sink>(err: &mut E, number: u32, name: &[u8]) -> Result<(), WriteFailed>
    ensures { Pushes E.taken E.failures err.old err.new result (pair_line number name.now) }
{
    push_pieces(
        err,
        &[
            b"query: pair ",
            Digits::of(number).as_bytes(),
            b": ",
            name,
            b"\n",
        ],
    )
}

// The line of what is wrong with a group.
#[tactic(auto, unfolding(crate::specs::Lines::group_line))]
fn push_group_line<E: Sink>(err: &mut E, suffix: &[u8], name: &[u8]) -> Result<(), WriteFailed>
    ensures { Pushes E.taken E.failures err.old err.new result (group_line suffix.now name.now) }
{
    push_pieces(err, &[b"query: group \"", suffix, b"\": ", name, b"\n"])
}

/// The line of a fault of a query.
#[tactic(auto, unfolding(crate::specs::Lines::query_line, crate::specs::Lines::memory_line))]
pub(crate) fn push_query_line<E: Sink>(err: &mut E, fault: &QueryFault) -> Result<(), WriteFailed>
    ensures { Pushes E.taken E.failures err.old err.new result
        (query_told (fault_shown fault.now)) }
{
    match fault {
        QueryFault::QueryTooLong => push_whole(err, b"query: QueryTooLong\n"),
        QueryFault::UnknownParameter(number) => push_pair_line(err, *number, b"UnknownParameter"),
        QueryFault::Repeated(number) => push_pair_line(err, *number, b"Repeated"),
        QueryFault::BadValue(number) => push_pair_line(err, *number, b"BadValue"),
        QueryFault::Conflict(number) => push_pair_line(err, *number, b"Conflict"),
        QueryFault::NoResources => push_whole(err, b"query: NoResources\n"),
        QueryFault::GroupWithoutResources(None) => push_group_line(
            err,
            b"",
            b"GroupWithoutResources",
        ),
        QueryFault::GroupWithoutResources(Some(suffix)) => {
            push_group_line(err, suffix.text().as_bytes(), b"GroupWithoutResources")
        }
        QueryFault::UnknownSuffix(suffix) => {
            push_group_line(err, suffix.text().as_bytes(), b"UnknownSuffix")
        }
        QueryFault::PolicyMissing => push_whole(err, b"query: PolicyMissing\n"),
        QueryFault::TooManySlots => push_whole(err, b"query: TooManySlots\n"),
        QueryFault::NoMemory => push_whole(err, b"out of memory\n"),
    }
}

// A text that is at hand.
fn push_whole<E: Sink>(err: &mut E, text: &[u8]) -> Result<(), WriteFailed>
    ensures { Pushes E.taken E.failures err.old err.new result text.now }
{
    push_all(err, text)
}

// The name of what is wrong with a change.
#[tactic(auto, unfolding(crate::specs::Changing::change_name))]
fn change_name(kind: ChangeKind) -> &'static [u8]
    ensures { result.now ≡ change_name kind }
{
    match kind {
        ChangeKind::BadLine => b"BadLine",
        ChangeKind::UnknownHost => b"UnknownHost",
        ChangeKind::AmbiguousHost => b"AmbiguousHost",
        ChangeKind::ReservedOverTotal => b"ReservedOverTotal",
        ChangeKind::TooManyProviders => b"TooManyProviders",
    }
}

// The line of a fault of changes.
#[tactic(auto, unfolding(crate::specs::Changing::change_line))]
fn push_change_line<E: Sink>(err: &mut E, line: u64, kind: ChangeKind) -> Result<(), WriteFailed>
    ensures { Pushes E.taken E.failures err.old err.new result (change_line line kind) }
{
    let mut digits = Buffer::new();
    push_pieces(
        err,
        &[
            b"change: line ",
            digits.format(line).as_bytes(),
            b": ",
            change_name(kind),
            b"\n",
        ],
    )
}

// The line of changes that are refused.
#[tactic(auto, unfolding(crate::specs::Changing::changes_unread_line, crate::specs::Changing::changes_large_line))]
fn push_changes_line<E: Sink>(err: &mut E, refusal: ChangesRefusal) -> Result<(), WriteFailed>
    ensures { Pushes E.taken E.failures err.old err.new result (changes_line refusal) }
{
    match refusal {
        ChangesRefusal::Unreadable => push_whole(err, b"change: Unreadable\n"),
        ChangesRefusal::TooLarge => push_whole(err, b"change: TooLarge\n"),
        ChangesRefusal::At { line, kind } => push_change_line(err, line, kind),
    }
}

// Pushes the line of tables that are refused.
#[tactic(auto, unfolding(crate::specs::Lines::unreadable_line, crate::specs::Lines::too_large_line, crate::specs::Lines::memory_line))]
fn push_tables_line<E: Sink>(err: &mut E, refusal: &TablesRefusal) -> Result<(), WriteFailed>
    ensures { Pushes E.taken E.failures err.old err.new result (line_of_tables refusal.now) }
{
    match refusal {
        TablesRefusal::Unreadable(table) => {
            push_pieces(err, &[table.name().as_bytes(), b": Unreadable\n"])
        }
        TablesRefusal::TooLarge(table) => push_pieces(
            err,
            &[table.name().as_bytes(), b": TooLarge\n"],
        ),
        TablesRefusal::Record { table, row, kind } => push_record_line(err, *table, *row, *kind),
        TablesRefusal::Changes(refusal) => push_changes_line(err, *refusal),
        TablesRefusal::NoMemory => push_whole(err, b"out of memory\n"),
    }
}

// The line of a record of a table of flavors.
#[tactic(auto, unfolding(crate::specs::Flavors::flavor_line, crate::specs::Flavors::flavors_name))]
fn push_flavor_line<E: Sink>(err: &mut E, row: u32, name: &[u8]) -> Result<(), WriteFailed>
    ensures { Pushes E.taken E.failures err.old err.new result (flavor_line row name.now) }
{
    push_line_at(err, b"flavors", row, name)
}

// Pushes the line of a table of flavors that is refused.
#[tactic(auto, unfolding(crate::specs::Flavors::unread_line, crate::specs::Flavors::large_line, crate::specs::Flavors::query_name))]
fn push_flavors_line<E: Sink>(err: &mut E, refusal: &FlavorsRefusal) -> Result<(), WriteFailed>
    ensures { Pushes E.taken E.failures err.old err.new result (why_shown refusal.now).line }
{
    match refusal {
        FlavorsRefusal::Unreadable => push_whole(err, b"flavors: Unreadable\n"),
        FlavorsRefusal::TooLarge => push_whole(err, b"flavors: TooLarge\n"),
        FlavorsRefusal::Record { row, kind } => {
            push_flavor_line(err, *row, kind.name().as_bytes())
        }
        FlavorsRefusal::NotText { row } => push_flavor_line(err, *row, b"BadQuery"),
        FlavorsRefusal::Query { row, .. } => push_flavor_line(err, *row, b"BadQuery"),
    }
}

// The line of an answer of the service that is refused.
#[tactic(auto, unfolding(crate::specs::Lines::answer_line))]
fn push_answer_line<E: Sink>(err: &mut E, refusal: AnswerRefusal) -> Result<(), WriteFailed>
    ensures { Pushes E.taken E.failures err.old err.new result (answer_line refusal) }
{
    match refusal {
        AnswerRefusal::Unreadable => push_whole(err, b"answer: Unreadable\n"),
        AnswerRefusal::TooLarge => push_whole(err, b"answer: TooLarge\n"),
        AnswerRefusal::BadAnswer => push_whole(err, b"answer: BadAnswer\n"),
    }
}

// The name of why a name stands for nothing.
#[tactic(auto, unfolding(crate::specs::Lines::name_fault))]
fn name_fault(fault: NameFault) -> &'static [u8]
    ensures { result.now ≡ name_fault fault }
{
    match fault {
        NameFault::Unknown => b"UnknownName",
        NameFault::Ambiguous => b"AmbiguousName",
    }
}

// The line of a record of the table of names of aggregates.
#[tactic(auto, unfolding(crate::specs::Lines::aggregates_name, crate::specs::Lines::called_line))]
fn push_called_line<E: Sink>(err: &mut E, row: u32, name: &[u8]) -> Result<(), WriteFailed>
    ensures { Pushes E.taken E.failures err.old err.new result (called_line row name.now) }
{
    push_line_at(err, b"aggregate-names", row, name)
}

/// The line of names that can't be read.
#[tactic(auto, unfolding(crate::specs::Lines::memory_line, crate::specs::Lines::names_line))]
pub fn push_names_line<E: Sink>(err: &mut E, refusal: NamesRefusal) -> Result<(), WriteFailed>
    ensures { Pushes E.taken E.failures err.old err.new result (names_line refusal) }
{
    match refusal {
        NamesRefusal::Unreadable => push_whole(err, b"aggregate-names: Unreadable\n"),
        NamesRefusal::TooLarge => push_whole(err, b"aggregate-names: TooLarge\n"),
        NamesRefusal::Record { row, kind } => { push_called_line(err, row, kind.name().as_bytes()) }
        NamesRefusal::Pair(number, fault) => push_pair_line(err, number, name_fault(fault)),
        NamesRefusal::Flavor(row, fault) => push_line_at(err, b"flavors", row, name_fault(fault)),
        NamesRefusal::Token(fault) => push_pieces(err, &[b"token: ", name_fault(fault), b"\n"]),
        NamesRefusal::NoMemory => push_whole(err, b"out of memory\n"),
    }
}

/// Pushes the line of what is asked and refused.
#[tactic(auto, unfolding(crate::specs::Lines::token_line, crate::specs::Lines::host_line, crate::specs::Lines::memory_line))]
pub fn push_asked_line<E: Sink>(err: &mut E, refusal: &AskRefusal) -> Result<(), WriteFailed>
    ensures { Pushes E.taken E.failures err.old err.new result (line_of_asked refusal.now) }
{
    match refusal {
        AskRefusal::Query(fault) => push_query_line(err, fault),
        AskRefusal::Token(TokenFault::BadToken) => push_whole(err, b"token: BadToken\n"),
        AskRefusal::Token(TokenFault::WrongLength) => push_whole(err, b"token: WrongLength\n"),
        AskRefusal::Token(TokenFault::NoMemory) => push_whole(err, b"out of memory\n"),
        AskRefusal::Host(HostFault::Unknown) => push_whole(err, b"host: Unknown\n"),
        AskRefusal::Host(HostFault::Ambiguous) => push_whole(err, b"host: Ambiguous\n"),
        AskRefusal::Flavors(refusal) => push_flavors_line(err, refusal),
        AskRefusal::Answer(refusal) => push_answer_line(err, *refusal),
        AskRefusal::NoMemory => push_whole(err, b"out of memory\n"),
    }
}

// Pushes the line of a refusal.
#[tactic(auto, unfolding(crate::specs::Lines::memory_line, crate::specs::Lines::output_line, crate::specs::Lines::tries_line))]
fn push_line<E: Sink>(err: &mut E, refusal: &Refusal) -> Result<(), WriteFailed>
    ensures { Pushes E.taken E.failures err.old err.new result (line_of refusal.now) }
{
    match refusal {
        Refusal::Tables(refusal) => push_tables_line(err, refusal),
        Refusal::Asked(refusal) => push_asked_line(err, refusal),
        Refusal::Names(refusal) => push_names_line(err, *refusal),
        Refusal::Output => push_whole(err, b"output: WriteFailed\n"),
        Refusal::TooManyTries => push_whole(err, b"search: TooManyTries\n"),
        Refusal::NoMemory => push_whole(err, b"out of memory\n"),
    }
}

/// The status of what is asked and refused.
pub fn asked_status(refusal: &AskRefusal) -> u8
    ensures { result ≡ status_of_asked refusal.now }
{
    match refusal {
        AskRefusal::Query(_) | AskRefusal::Flavors(_) => 4,
        AskRefusal::Token(_) | AskRefusal::Host(_) | AskRefusal::Answer(_) => 5,
        AskRefusal::NoMemory => 7,
    }
}

/// The status of names that can't be read.
pub fn names_status(refusal: NamesRefusal) -> u8
    ensures { result ≡ status_of_names refusal }
{
    match refusal {
        NamesRefusal::Pair(..) | NamesRefusal::Flavor(..) => 4,
        NamesRefusal::Token(_) => 5,
        NamesRefusal::NoMemory => 7,
        NamesRefusal::Unreadable | NamesRefusal::TooLarge | NamesRefusal::Record { .. } => 3,
    }
}

// The status of a refusal.
fn status_of(refusal: &Refusal) -> u8
    ensures { result ≡ status_of refusal.now }
{
    match refusal {
        Refusal::Tables(TablesRefusal::NoMemory) => 7,
        Refusal::Tables(_) => 3,
        Refusal::Asked(refusal) => asked_status(refusal),
        Refusal::Names(refusal) => names_status(*refusal),
        Refusal::Output => 6,
        Refusal::TooManyTries => 8,
        Refusal::NoMemory => 7,
    }
}

// Pushes the line of a refusal, and then what stands behind it.
#[tactic(auto, using(ac_base::proofs::Leaving::behind))]
fn push_refused<E: Sink>(err: &mut E, refused: &Refused) -> Result<(), WriteFailed>
    ensures { Pushes E.taken E.failures err.old err.new result
        (line_of refused.now.refusal ++ refused.now.detail.items) }
{
    push_line(err, &refused.refusal)?;
    push_all(err, &refused.detail)
}

/// Tells why there is no answer, and answers its status. What the error sink doesn't take of the text is dropped.
pub fn tell<E: Sink>(err: &mut E, refused: &Refused) -> u8
    ensures line { TakesLine (E.taken err.old) (E.taken err.new) (E.failures err.old)
        (E.failures err.new) (line_told refused.now) }
    ensures status { result ≡ status_told refused.now }
    ensures failures { E.failures err.old ≤ E.failures err.new }
{
    let _ = push_refused(err, refused);
    status_of(&refused.refusal)
}
