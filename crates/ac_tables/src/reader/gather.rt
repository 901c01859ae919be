//! Reading the rows of any table, up to the first that has a fault of its own.
ghost use Rattle.std.specs.Prelude.{◌≡◌, ◌≤◌, true, false, None, [], map, length, IfOk, IfErr, IfSome};
ghost use Rattle.csv.specs.Records.{fields_of};
ghost use Rattle.ac_tables.specs.Tables.Checks.{rows_fault, first_failing, Tells};
ghost use Rattle.ac_tables.specs.Tables.Columns.{table_checks, said_by};
ghost use Rattle.ac_tables.specs.Tables.{rows_given};
ghost use Rattle.ac_tables.specs.Tables.Names.{names_needed};
ghost use Rattle.ac_tables.specs.Drain.{most_bytes};
ghost use Rattle.ac_tables.specs.Reader.TableRows.{is_past, IsReadUpTo, IsLeastRepeat, IsTable};
ghost use Rattle.ac_tables.specs.Tables.Rows.{IsReading, rows_left, records_of};

use crate::fault::{RecordFault, Table, TableFault, TableKind, fault_at};
use crate::reader::header::open_table;
use crate::reader::record::{Record, Seen};
use crate::reader::records::next_row;
use crate::reader::row::{TableRow, first_repeat, put_in_order};
use ac_base::Names;
use ac_cloud::Expected;
use csv::{ByteRecord, Reader};
use std::alloc::Global;

// Whether so many records are more than the table may have.
fn is_past<T: Record>(count: usize) -> bool
    ensures { result ≡ is_past T.MOST count }
{
    match T::MOST {
        Some(most) => count > most,
        None => false,
    }
}

// The rows of the records that are left go into `rows`, up to the first that has a fault of its own, or to the first past
// the most. A row has its room before its record is judged, so a growth that is refused comes before that record's faults.
pub(crate) fn read_rows<T: Record>(
    alloc: Global,
    beside: &T::Beside,
    reader: &mut Reader<&[u8]>,
    header: &ByteRecord,
    rows: &mut Vec<TableRow<T::Key, T::Value>>,
) -> Result<(), RecordFault>
    requires none { rows.old.items ≡ [] }
    requires reading { IsReading reader.old }
    requires few { length (rows_left reader.old) ≤ most_bytes }
    ensures { IsReadUpTo (T.says (fields_of header.now)) (T.alone beside.now (fields_of header.now))
        (T.shown beside.now) (T.count beside.now) T.MOST (rows_left reader.old) rows.new.items
        result }
{
    let columns = T::columns(header);
    let mut row = ByteRecord::new(alloc);
    let mut seen = Seen {
        names: Names::new(alloc),
        expected: Expected::new(),
    };
    let mut number = 2u32;
    while !is_past::<T>(rows.len()) && next_row(reader, &mut row)? {
        rows.reserve(1)?;
        let (place, key, value) = T::read(alloc, &mut seen, beside, header, columns, &row)?;
        rows.push_reserved(TableRow {
            place,
            number,
            key,
            value,
        });
        number += 1;
    }
    Ok(())
}

// The first record whose key was there, where no two may have one.
fn forbidden_repeat<T: Record>(rows: &[TableRow<T::Key, T::Value>]) -> Option<u32>
    ensures least { T.UNIQUE ≡ true → IsLeastRepeat T.Key.cmp rows.now result }
    ensures unique { IfSome result (λ _. T.UNIQUE ≡ true) }
{
    if T::UNIQUE { first_repeat(rows) } else { None }
}

// The rows of the records that are left, in the order of providers and keys, or the first fault. A fault of a record that
// was read is told also where a growth after it was refused.
pub(crate) fn gather<T: Record>(
    alloc: Global,
    beside: &T::Beside,
    reader: &mut Reader<&[u8]>,
    header: &ByteRecord,
) -> Result<Vec<TableRow<T::Key, T::Value>>, TableFault>
    requires reading { IsReading reader.old }
    requires few { length (rows_left reader.old) ≤ most_bytes }
    ensures few { IfOk result (λ rows. length rows.items ≤ most_bytes) }
    ensures most { IfOk result (λ rows. is_past T.MOST (length rows.items) ≡ false) }
    ensures gathered { IfOk result (λ rows.
        IsTable T.Key.cmp (T.shown beside.now) (T.count beside.now) T.UNIQUE
        (map (T.says (fields_of header.now)) (rows_left reader.old)) rows.items) }
    ensures ok { IfOk result (λ _.
        rows_fault T.TABLE (T.says (fields_of header.now))
        (T.checks beside.now (fields_of header.now)) [] (rows_left reader.old) ≡ None) }
    ensures fault { IfErr result (λ e.
        Tells (rows_fault T.TABLE (T.says (fields_of header.now))
        (T.checks beside.now (fields_of header.now)) [] (rows_left reader.old)) e) }
{
    let mut rows = Vec::new(alloc);
    let ended = read_rows::<T>(alloc, beside, reader, header, &mut rows);
    let last = rows.len() as u32 + 1;
    put_in_order(alloc, &mut rows);
    if let Some(row) = forbidden_repeat::<T>(&rows) {
        return Err(TableFault::At {
            table: T::TABLE,
            row,
            kind: TableKind::Duplicate,
        });
    }
    if is_past::<T>(rows.len()) {
        return Err(TableFault::At {
            table: T::TABLE,
            row: last,
            kind: TableKind::TooManyProviders,
        });
    }
    match ended {
        Ok(()) => Ok(rows),
        Err(fault) => Err(fault_at(T::TABLE, last + 1, fault)),
    }
}

// The rows of a text in the order of providers and keys, or the first fault of the table.
#[tactic(auto, unfolding(crate::specs::Tables::Checks::rows_fault), using(crate::proofs::Gathered::Header::fault_of_header, crate::proofs::Gathered::Header::records_left))]
pub(crate) fn read_table<T: Record>(
    alloc: Global,
    beside: &T::Beside,
    text: &[u8],
) -> Result<Vec<TableRow<T::Key, T::Value>>, TableFault>
    requires { length text.now ≤ most_bytes }
    ensures few { IfOk result (λ rows. length rows.items ≤ most_bytes) }
    ensures most { IfOk result (λ rows. is_past T.MOST (length rows.items) ≡ false) }
    ensures rows { IfOk result (λ rows.
        IsTable T.Key.cmp (T.shown beside.now) (T.count beside.now) T.UNIQUE
        (said_by T.says (records_of text.now)) rows.items) }
    ensures ok { IfOk result (λ _.
        first_failing (table_checks T.TABLE (names_needed T.TABLE) T.says (T.checks beside.now)
        (records_of text.now)) ≡ None) }
    ensures fault { IfErr result (λ e.
        Tells (first_failing (table_checks T.TABLE (names_needed T.TABLE) T.says
        (T.checks beside.now) (records_of text.now))) e) }
{
    let mut header = ByteRecord::new(alloc);
    let mut reader = open_table(alloc, T::TABLE, text, &mut header)?;
    gather::<T>(alloc, beside, &mut reader, &header)
}

// The same of a table that may not be there, which has no records then.
#[tactic(auto, using(crate::proofs::Gathered::Header::no_rows))]
pub(crate) fn read_given<T: Record>(
    alloc: Global,
    beside: &T::Beside,
    text: Option<&[u8]>,
) -> Result<Vec<TableRow<T::Key, T::Value>>, TableFault>
    requires { IfSome text (λ t. length t.now ≤ most_bytes) }
    ensures few { IfOk result (λ rows. length rows.items ≤ most_bytes) }
    ensures rows { IfOk result (λ rows.
        IsTable T.Key.cmp (T.shown beside.now) (T.count beside.now) T.UNIQUE
        (said_by T.says (rows_given T.TABLE text.entry)) rows.items) }
    ensures ok { IfOk result (λ _.
        first_failing (table_checks T.TABLE (names_needed T.TABLE) T.says (T.checks beside.now)
        (rows_given T.TABLE text.entry)) ≡ None) }
    ensures fault { IfErr result (λ e.
        Tells (first_failing (table_checks T.TABLE (names_needed T.TABLE) T.says
        (T.checks beside.now) (rows_given T.TABLE text.entry))) e) }
{
    match text {
        Some(text) => read_table::<T>(alloc, beside, text),
        None => Ok(Vec::new(alloc)),
    }
}
