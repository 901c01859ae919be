//! A record of a table, read once more beside its header.
ghost use Rattle.std.specs.Prelude.{◌≡◌, ◌∷◌, [], IfOk};
ghost use Rattle.std.specs.Option.{option_map};
ghost use Rattle.csv.specs.Records.{fields_of};
ghost use Rattle.ac_tables.specs.Found.{beside_header, fields_found, records_in, row_at};
ghost use Rattle.ac_tables.specs.Source.{tables_of};
ghost use Rattle.ac_tables.specs.Tables.Columns.{is_double, is_missing, text_or_none};
ghost use Rattle.ac_tables.specs.Tables.Names.{name_of, names_needed};
ghost use Rattle.ac_tables.specs.Tables.Rows.{records_of};

use crate::columns::{Column, columns_needed};
use crate::fault::Table;
use crate::read::Sources;
use crate::reader::header::{find_column, is_double};
use crate::reader::records::{next_row, open_rows, text_at};
use ac_base::NoMemory;
use csv::ByteRecord;
use std::alloc::Global;

// The record of this number, where the text has it.
fn record_in(alloc: Global, text: &[u8], number: u32) -> Result<Option<ByteRecord>, NoMemory>
    ensures { IfOk result (λ row. option_map fields_of row
        ≡ row_at (records_of text.now) number) }
{
    let mut reader = open_rows(alloc, text);
    let mut row = ByteRecord::new(alloc);
    for _turn in 1..number {
        if !next_row(&mut reader, &mut row)? {
            return Ok(None);
        }
    }
    if next_row(&mut reader, &mut row)? {
        Ok(Some(row))
    } else {
        Ok(None)
    }
}

// The record of this number of a table that isn't there: its header is the only one.
fn absent_record(alloc: Global, table: Table, number: u32) -> Result<Option<ByteRecord>, NoMemory>
    ensures { IfOk result (λ row. option_map fields_of row
        ≡ row_at (names_needed table ∷ []) number) }
{
    if number > 1 {
        return Ok(None);
    }
    let mut header = ByteRecord::new(alloc);
    for column in columns_needed(table) {
        header.push_field(column.name())?;
    }
    Ok(Some(header))
}

// The record of this number, where the table has it.
#[tactic(auto, using(crate::proofs::FoundRows::source_rows))]
fn read_record(
    alloc: Global,
    src: &Sources,
    table: Table,
    number: u32,
) -> Result<Option<ByteRecord>, NoMemory>
    ensures { IfOk result (λ row. option_map fields_of row
        ≡ row_at (records_in (tables_of src.now) table) number) }
{
    match src.get(table) {
        Some(text) => record_in(alloc, text, number),
        None => absent_record(alloc, table, number),
    }
}

/// A record of a table beside the header.
#[derive(Drop)]
pub struct Found {
    pub header: ByteRecord,
    pub row: ByteRecord,
}

impl Found {
    /// The record of this number, where the table has it; a table that isn't there has its header alone.
    pub fn read(
        alloc: Global,
        src: &Sources,
        table: Table,
        number: u32,
    ) -> Result<Option<Found>, NoMemory>
        ensures { IfOk result (λ found. option_map fields_found found
            ≡ beside_header (records_in (tables_of src.now) table) number) }
    {
        let Some(header) = read_record(alloc, src, table, 1)? else {
            return Ok(None);
        };
        let Some(row) = read_record(alloc, src, table, number)? else {
            return Ok(None);
        };
        Ok(Some(Found { header, row }))
    }

    /// Whether the header lacks a column.
    pub fn is_missing(&self, wanted: Column) -> bool
        ensures { result ≡ is_missing (fields_of self.now.header) (name_of wanted) }
    {
        find_column(&self.header, wanted).is_none()
    }

    /// Whether a column is there twice.
    pub fn is_double(&self, wanted: Column) -> bool
        ensures { result ≡ is_double (fields_of self.now.header) (name_of wanted) }
    {
        is_double(&self.header, wanted)
    }

    /// The record's text in a column; empty where there is none.
    pub fn field(&self, wanted: Column) -> &[u8]
        ensures { result.now ≡ text_or_none (fields_of self.now.header) (name_of wanted)
            (fields_of self.now.row) }
    {
        match find_column(&self.header, wanted) {
            Some(place) => text_at(&self.row, place),
            None => b"",
        }
    }
}
