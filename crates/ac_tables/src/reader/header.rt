//! The columns of a table, found by their names in the header.
ghost use Rattle.std.specs.Prelude.{◌≡◌, ◌≤◌, None, length, map, IfOk, IfErr, ◌∷◌};
ghost use Rattle.std.specs.List.{list_any};
ghost use Rattle.std.specs.Option.{unwrap_or};
ghost use Rattle.csv.specs.Records.{fields_of};
ghost use Rattle.ac_tables.specs.Tables.Checks.{first_failing, Tells, TellsKind};
ghost use Rattle.ac_tables.specs.Tables.Columns.{column, is_missing, is_double, header_checks, header_fault, header_kind};
ghost use Rattle.ac_tables.specs.Tables.Names.{name_of, names_needed};
ghost use Rattle.ac_tables.specs.Tables.Rows.{records_of, rows_left, IsReading};

use crate::columns::{Column, columns_needed};
use crate::fault::{RecordFault, Table, TableFault, TableKind, fault_at};
use crate::reader::records::{next_row, open_rows, text_at};
use csv::{ByteRecord, Reader};
use std::alloc::Global;

// The place of the first column of this name.
pub(crate) fn find_column(header: &ByteRecord, wanted: Column) -> Option<usize>
    ensures { result ≡ column (fields_of header.now) (name_of wanted) }
{
    let name = wanted.name();
    for place in 0..header.len() {
        if name == text_at(header, place) {
            return Some(place);
        }
    }
    None
}

// The place of a column that the header is known to have.
pub(crate) fn column_at(header: &ByteRecord, wanted: Column) -> usize
    ensures { result ≡ unwrap_or (column (fields_of header.now) (name_of wanted)) 0 }
{
    find_column(header, wanted).unwrap_or(0)
}

// Whether a column of this name is there twice.
pub(crate) fn is_double(header: &ByteRecord, wanted: Column) -> bool
    ensures { result ≡ is_double (fields_of header.now) (name_of wanted) }
{
    let name = wanted.name();
    let mut count = 0usize;
    for place in 0..header.len() {
        if name == text_at(header, place) {
            count += 1;
        }
    }
    count > 1
}

// Whether the header lacks one of these columns.
fn lacks_one(header: &ByteRecord, needed: &[Column]) -> bool
    ensures { result
        ≡ list_any (λ c. is_missing (fields_of header.now) (name_of c)) needed.now }
{
    needed
        .iter()
        .any(|wanted| find_column(header, *wanted).is_none())
}

// Whether one of these columns is there twice.
fn doubles_one(header: &ByteRecord, needed: &[Column]) -> bool
    ensures { result
        ≡ list_any (λ c. is_double (fields_of header.now) (name_of c)) needed.now }
{
    needed.iter().any(|wanted| is_double(header, *wanted))
}

// The first fault of a header that needs these columns.
fn find_fault(header: &ByteRecord, needed: &[Column]) -> Option<TableKind>
    ensures { result
        ≡ first_failing (header_checks (map name_of needed.now) (fields_of header.now)) }
{
    if lacks_one(header, needed) {
        return Some(TableKind::MissingColumn);
    }
    if doubles_one(header, needed) {
        return Some(TableKind::DoubleColumn);
    }
    None
}

// A reader of the records after the header, which has these columns and goes into `header`.
#[tactic(auto, unfolding(crate::specs::Tables::Columns::header_kind), using(crate::proofs::Gathered::RowsLeft::rest_few))]
pub(crate) fn open_with<'a>(
    alloc: Global,
    needed: &[Column],
    text: &'a [u8],
    header: &mut ByteRecord,
) -> Result<Reader<&'a [u8]>, RecordFault>
    ensures reading { IfOk result (λ reader. IsReading reader) }
    ensures rows { IfOk result (λ reader. records_of text.now
        ≡ fields_of header.new ∷ rows_left reader) }
    ensures ok { IfOk result (λ _.
        header_kind (map name_of needed.now) (records_of text.now) ≡ None) }
    ensures few { IfOk result (λ reader. length (rows_left reader) ≤ length text.now) }
    ensures fault { IfErr result (λ e.
        TellsKind (header_kind (map name_of needed.now) (records_of text.now)) e) }
{
    let mut reader = open_rows(alloc, text);
    if next_row(&mut reader, header)? {
        if let Some(kind) = find_fault(header, needed) {
            return Err(RecordFault::Kind(kind));
        }
        return Ok(reader);
    }
    Err(RecordFault::Kind(TableKind::NoHeader))
}

// The same of a table.
#[tactic(auto, unfolding(crate::specs::Tables::Columns::header_fault), using(crate::proofs::Gathered::Header::kind_told))]
pub(crate) fn open_table<'a>(
    alloc: Global,
    table: Table,
    text: &'a [u8],
    header: &mut ByteRecord,
) -> Result<Reader<&'a [u8]>, TableFault>
    ensures reading { IfOk result (λ reader. IsReading reader) }
    ensures rows { IfOk result (λ reader. records_of text.now
        ≡ fields_of header.new ∷ rows_left reader) }
    ensures ok { IfOk result (λ _.
        header_fault table (names_needed table) (records_of text.now) ≡ None) }
    ensures few { IfOk result (λ reader. length (rows_left reader) ≤ length text.now) }
    ensures fault { IfErr result (λ e.
        Tells (header_fault table (names_needed table) (records_of text.now)) e) }
{
    match open_with(alloc, columns_needed(table), text, header) {
        Ok(reader) => Ok(reader),
        Err(fault) => Err(fault_at(table, 1, fault)),
    }
}
