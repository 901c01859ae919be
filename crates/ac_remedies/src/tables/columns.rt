//! The columns that a check of a table looks at, and the first of them that breaks it.
ghost use Rattle.std.specs.Prelude.{◌≡◌};
ghost use Rattle.csv.specs.Records.{fields_of};
ghost use Rattle.ac_remedies.specs.Tables.Columns.{columns_of, first_broken, is_bad_uuid, is_broken, key_columns, number_columns, uuid_columns};

use ac_base::{Id, read_count};
use ac_tables::{Column, Found, Table, TableKind, columns_needed};

// The columns of a table's UUIDs.
#[tactic(auto, unfolding(crate::specs::Tables::Columns::uuid_columns))]
fn uuid_columns(table: Table) -> &'static [Column]
    ensures { result.now ≡ uuid_columns table }
{
    match table {
        Table::Providers | Table::Aggregates => columns_needed(table),
        _ => &[Column::Owner],
    }
}

// The columns of a table's numbers.
#[tactic(auto, unfolding(crate::specs::Tables::Columns::number_columns))]
fn number_columns(table: Table) -> &'static [Column]
    ensures { result.now ≡ number_columns table }
{
    match table {
        Table::Inventories => &[
            Column::Total,
            Column::Reserved,
            Column::MinUnit,
            Column::MaxUnit,
            Column::StepSize,
        ],
        Table::Usages => &[Column::Usage],
        _ => &[],
    }
}

// The columns by which a second record of the same thing is known.
#[tactic(auto, unfolding(crate::specs::Tables::Columns::key_columns))]
fn key_columns(table: Table) -> &'static [Column]
    ensures { result.now ≡ key_columns table }
{
    match table {
        Table::Providers => &[Column::Uuid],
        Table::Inventories | Table::Usages => &[Column::Class],
        _ => &[],
    }
}

// The columns that a check of this kind looks at.
#[tactic(auto, unfolding(crate::specs::Tables::Columns::columns_of))]
pub(super) fn columns_of(table: Table, kind: TableKind) -> &'static [Column]
    ensures { result.now ≡ columns_of table kind }
{
    match kind {
        TableKind::MissingColumn | TableKind::DoubleColumn => columns_needed(table),
        TableKind::BadUuid => uuid_columns(table),
        TableKind::BadClass | TableKind::NoInventory => &[Column::Class],
        TableKind::BadTrait => &[Column::Name],
        TableKind::BadNumber => number_columns(table),
        TableKind::BadRatio => &[Column::Ratio],
        TableKind::ZeroStep => &[Column::StepSize],
        TableKind::ReservedOverTotal => &[Column::Reserved],
        TableKind::Duplicate => key_columns(table),
        TableKind::UnknownProvider => &[Column::Owner],
        TableKind::UnknownParent | TableKind::ParentCycle => &[Column::Parent],
        TableKind::WrongRoot => &[Column::Root],
        _ => &[],
    }
}

// Whether a field that must be a UUID isn't. That of a parent may say that there is none.
fn is_bad_uuid(column: Column, text: &[u8]) -> bool
    ensures { result ≡ is_bad_uuid column text.now }
{
    match column {
        Column::Parent if text.is_empty() || text == b"None".as_slice() => false,
        _ => Id::read(text).is_none(),
    }
}

// Whether a column breaks a check of this kind.
#[tactic(auto, unfolding(crate::specs::Tables::Columns::is_broken))]
fn is_broken(kind: TableKind, found: &Found, column: Column) -> bool
    ensures { result ≡ is_broken kind (fields_of found.now.header) (fields_of found.now.row)
        column }
{
    match kind {
        TableKind::MissingColumn => found.is_missing(column),
        TableKind::DoubleColumn => found.is_double(column),
        TableKind::BadUuid => is_bad_uuid(column, found.field(column)),
        TableKind::BadNumber => read_count(found.field(column)).is_none(),
        _ => true,
    }
}

// The first of these columns that does.
pub(super) fn first_broken(columns: &[Column], kind: TableKind, found: &Found) -> Option<Column>
    ensures { result ≡ first_broken columns.now kind
        (fields_of found.now.header) (fields_of found.now.row) }
{
    columns
        .iter()
        .copied()
        .find(|column| is_broken(kind, found, *column))
}
