//! Where in a table a fault stands: a column with its value, and whose record it is.
ghost use Rattle.std.specs.Prelude.{◌≡◌, ◌++◌, IfOk, OnOk};
ghost use Rattle.csv.specs.Records.{fields_of};
ghost use Rattle.ac_base.specs.Names.{class_bytes};
ghost use Rattle.ac_remedies.specs.Tables.Places.{broken_text, class_mark, class_text, column_place, field_text, header_text, missing_text, named_class, named_provider, owner_column, owner_text, place_text, provider_mark, provider_text, width_text};

use crate::quoted::{push_all, push_quoted};
use crate::tables::columns::{columns_of, first_broken};
use ac_base::{ClassName, Id, NoMemory};
use ac_tables::{Column, Found, Table, TableKind};
use csv::ByteRecord;
use std::alloc::{AllocError, Global};

// Puts a column of a record with its value behind a text.
#[tactic(auto, unfolding(crate::specs::Tables::Places::field_text))]
fn push_field(text: &mut Vec<u8>, found: &Found, column: Column) -> Result<(), AllocError>
    ensures { OnOk result (text.new.items ≡ text.old.items
        ++ field_text (fields_of found.now.header) (fields_of found.now.row) column) }
{
    push_all(text, &[b", ", column.name(), b" "])?;
    push_quoted(text, found.field(column))
}

// Puts how many fields a record and the header have behind a text.
#[tactic(auto, unfolding(crate::specs::Tables::Places::width_text))]
fn push_width(alloc: Global, text: &mut Vec<u8>, found: &Found) -> Result<(), AllocError>
    ensures { OnOk result (text.new.items ≡ text.old.items
        ++ width_text (fields_of found.now.header) (fields_of found.now.row)) }
{
    let fields = found.row.len();
    let header = found.header.len();
    let width = format!(in alloc; ", fields {fields}, header {header}")?;
    text.extend_from_slice(width.as_bytes())
}

// The column that says whose record it is.
#[tactic(auto, unfolding(crate::specs::Tables::Places::owner_column))]
fn owner_column(table: Table) -> Column
    ensures { result ≡ owner_column table }
{
    match table {
        Table::Providers => Column::Uuid,
        _ => Column::Owner,
    }
}

// Puts a provider behind a text.
#[tactic(auto, unfolding(crate::specs::Tables::Places::provider_mark))]
fn push_id(text: &mut Vec<u8>, id: Id) -> Result<(), AllocError>
    ensures { OnOk result (text.new.items ≡ text.old.items ++ provider_mark id) }
{
    push_all(text, &[b", provider ", &id.text()])
}

// Puts a class behind a text.
#[tactic(auto, unfolding(crate::specs::Tables::Places::class_mark))]
fn push_name(text: &mut Vec<u8>, class: &ClassName) -> Result<(), AllocError>
    ensures { OnOk result (text.new.items ≡ text.old.items
        ++ class_mark (class_bytes class.now)) }
{
    push_all(text, &[b", ", class.text().as_bytes()])
}

// Puts the provider that a column names behind a text.
#[tactic(auto, unfolding(crate::specs::Tables::Places::named_provider))]
fn push_named_provider(text: &mut Vec<u8>, found: &Found, column: Column) -> Result<(), AllocError>
    ensures { OnOk result (text.new.items ≡ text.old.items
        ++ named_provider (fields_of found.now.header) (fields_of found.now.row) column) }
{
    match Id::read(found.field(column)) {
        Some(id) => push_id(text, id),
        None => Ok(()),
    }
}

// Puts the class that a record names behind a text.
#[tactic(auto, unfolding(crate::specs::Tables::Places::named_class))]
fn push_named_class(alloc: Global, text: &mut Vec<u8>, found: &Found) -> Result<(), NoMemory>
    ensures { OnOk result (text.new.items ≡ text.old.items
        ++ named_class (fields_of found.now.header) (fields_of found.now.row)) }
{
    match ClassName::read(alloc, found.field(Column::Class))? {
        Some(class) => Ok(push_name(text, &class)?),
        None => Ok(()),
    }
}

// Puts the provider of a record behind a text, unless its column is told already.
#[tactic(auto, unfolding(crate::specs::Tables::Places::provider_text))]
fn push_provider(
    text: &mut Vec<u8>,
    table: Table,
    found: &Found,
    told: &[u8],
) -> Result<(), AllocError>
    ensures { OnOk result (text.new.items ≡ text.old.items
        ++ provider_text table (fields_of found.now.header) (fields_of found.now.row) told.now) }
{
    let owner = owner_column(table);
    if told == owner.name() {
        return Ok(());
    }
    push_named_provider(text, found, owner)
}

// Puts the class of a record behind a text, unless its column is told already.
#[tactic(auto, unfolding(crate::specs::Tables::Places::class_text))]
fn push_class(alloc: Global, text: &mut Vec<u8>, found: &Found, told: &[u8]) -> Result<(), NoMemory>
    ensures { OnOk result (text.new.items ≡ text.old.items
        ++ class_text (fields_of found.now.header) (fields_of found.now.row) told.now) }
{
    if told == Column::Class.name() {
        return Ok(());
    }
    push_named_class(alloc, text, found)
}

// Puts whose record it is behind a text, but for the column that is told already.
#[tactic(auto, unfolding(crate::specs::Tables::Places::owner_text))]
fn push_owner(
    alloc: Global,
    text: &mut Vec<u8>,
    table: Table,
    found: &Found,
    told: &[u8],
) -> Result<(), NoMemory>
    ensures { OnOk result (text.new.items ≡ text.old.items
        ++ owner_text table (fields_of found.now.header) (fields_of found.now.row) told.now) }
{
    push_provider(text, table, found, told)?;
    push_class(alloc, text, found, told)
}

// The fields of a header, with a comma between each two.
fn header_text(alloc: Global, header: &ByteRecord) -> Result<Vec<u8>, AllocError>
    ensures { IfOk result (λ text. text.items ≡ header_text (fields_of header.now)) }
{
    let mut fields = header.iter();
    let Some(first) = fields.next() else {
        return Ok(Vec::new(alloc));
    };
    let mut text = first.to_vec(alloc)?;
    for field in fields {
        push_all(&mut text, &[b",", field])?;
    }
    Ok(text)
}

// Puts a column that the header lacks behind a text, with the header.
#[tactic(auto, unfolding(crate::specs::Tables::Places::missing_text))]
fn push_missing(
    alloc: Global,
    text: &mut Vec<u8>,
    header: &ByteRecord,
    column: Column,
) -> Result<(), AllocError>
    ensures { OnOk result (text.new.items ≡ text.old.items
        ++ missing_text (fields_of header.now) column) }
{
    let header = header_text(alloc, header)?;
    push_all(text, &[b", ", column.name(), b", header "])?;
    push_quoted(text, &header)
}

// Puts a column of a record and whose record it is behind a text, with the total where the amount reserved is above it.
#[tactic(auto, unfolding(crate::specs::Tables::Places::broken_text))]
fn push_broken(
    alloc: Global,
    text: &mut Vec<u8>,
    table: Table,
    kind: TableKind,
    found: &Found,
    column: Column,
) -> Result<(), NoMemory>
    ensures { OnOk result (text.new.items ≡ text.old.items
        ++ broken_text table kind (fields_of found.now.header) (fields_of found.now.row) column) }
{
    match kind {
        TableKind::MissingColumn => Ok(push_missing(alloc, text, &found.header, column)?),
        TableKind::DoubleColumn => Ok(push_all(text, &[b", ", column.name()])?),
        TableKind::ReservedOverTotal => {
            push_field(text, found, column)?;
            push_field(text, found, Column::Total)?;
            push_owner(alloc, text, table, found, column.name())
        }
        _ => {
            push_field(text, found, column)?;
            push_owner(alloc, text, table, found, column.name())
        }
    }
}

// Puts where a fault stands behind a text, where it is of a column or of a record's key.
#[tactic(auto, unfolding(crate::specs::Tables::Places::column_place))]
fn push_column(
    alloc: Global,
    text: &mut Vec<u8>,
    table: Table,
    kind: TableKind,
    found: &Found,
) -> Result<(), NoMemory>
    ensures { OnOk result (text.new.items ≡ text.old.items
        ++ column_place table kind (fields_of found.now.header) (fields_of found.now.row)) }
{
    match first_broken(columns_of(table, kind), kind, found) {
        Some(column) => push_broken(alloc, text, table, kind, found, column),
        None => push_owner(alloc, text, table, found, b""),
    }
}

// Puts where in its table a fault stands behind a text.
#[tactic(auto, unfolding(crate::specs::Tables::Places::place_text))]
pub(super) fn push_place(
    alloc: Global,
    text: &mut Vec<u8>,
    table: Table,
    kind: TableKind,
    found: &Found,
) -> Result<(), NoMemory>
    ensures { OnOk result (text.new.items ≡ text.old.items
        ++ place_text table kind (fields_of found.now.header) (fields_of found.now.row)) }
{
    match kind {
        TableKind::NoHeader | TableKind::TooManyProviders => Ok(()),
        TableKind::Width => {
            push_width(alloc, text, found)?;
            push_owner(alloc, text, table, found, b"")
        }
        _ => push_column(alloc, text, table, kind, found),
    }
}
