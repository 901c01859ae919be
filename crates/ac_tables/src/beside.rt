//! Reading a table that stands beside the five: its header, and its records up to the first that has a fault.
ghost use Rattle.std.specs.Prelude.{◌≡◌, ◌≤◌, IfErr, IfOk, List, None, OnOk, Option, length, map};
ghost use Rattle.std.specs.Option.{option_map};
ghost use Rattle.csv.specs.Records.{fields_of};
ghost use Rattle.ac_tables.specs.Beside.{TellsBeside, beside_fault, first_bad};
ghost use Rattle.ac_tables.specs.Drain.{most_bytes};
ghost use Rattle.ac_tables.specs.Tables.Checks.{Check, Row, TellsKind, first_failing};
ghost use Rattle.ac_tables.specs.Tables.Columns.{said_by};
ghost use Rattle.ac_tables.specs.Tables.Rows.{IsReading, records_of, rows_left};
ghost use Rattle.ac_tables.specs.declared.beside.BesideFault.TheVariants as fault;
ghost use Rattle.ac_tables.specs.declared.columns.Column.{Column};
ghost use Rattle.ac_tables.specs.declared.fault.TableKind.{TableKind};

use crate::columns::Column;
use crate::fault::{RecordFault, TableKind};
use crate::reader::header::open_with;
use crate::reader::records::next_row;
use ac_base::NoMemory;
use csv::{ByteRecord, Reader};
use std::alloc::{AllocFailed, Global};

/// The first fault of a table beside the five, or a refused growth.
#[derive(Clone, Copy, Debug, PartialEq, Eq)]
pub enum BesideFault {
    /// Records are numbered from 1, the header is the first.
    At { row: u32, kind: TableKind },
    /// A growth was refused; it says nothing of the table.
    NoMemory,
}

impl From<NoMemory> for BesideFault {
    ghost from_gives = { λ _ told. told ≡ fault.NoMemory };

    fn from(_error: NoMemory) -> BesideFault {
        BesideFault::NoMemory
    }
}

impl<T: Drop> From<AllocFailed<T>> for BesideFault {
    ghost from_gives = { λ _ told. told ≡ fault.NoMemory };

    fn from(_error: AllocFailed<T>) -> BesideFault {
        BesideFault::NoMemory
    }
}

// What a record of such a table says.
pub(crate) trait BesideRecord: Sized + Drop {
    // the needed columns, in the order in which they are checked
    ghost needed: { List Column };

    // the checks of a record behind a header
    ghost checks: { Row → Row → List Check };

    // what it says, and what is kept of that
    ghost Said: { Type 0 };

    ghost says: { Row → Row → Said };

    ghost shown: { Self → Said };

    fn columns() -> &'static [Column]
        ensures { result.now ≡ needed };

    // What a record says, or its first fault.
    fn read(alloc: Global, header: &ByteRecord, row: &ByteRecord) -> Result<Self, RecordFault>
        ensures ok { OnOk result
            (first_failing (checks (fields_of header.now) (fields_of row.now)) ≡ None) }
        ensures said { IfOk result (λ read. shown read
            ≡ says (fields_of header.now) (fields_of row.now)) }
        ensures fault { IfErr result (TellsKind
            (first_failing (checks (fields_of header.now) (fields_of row.now)))) };
}

// The fault of a record, told with its number, or a refused growth.
fn fault_at(row: u32, fault: RecordFault) -> BesideFault
    ensures { (first : Option TableKind) → TellsKind first fault
        → TellsBeside (option_map (λ kind. (row, kind)) first) result }
{
    match fault {
        RecordFault::Kind(kind) => BesideFault::At { row, kind },
        RecordFault::NoMemory => BesideFault::NoMemory,
    }
}

// What the records say that are left behind a header, or the first fault.
fn read_rest<T: BesideRecord>(
    alloc: Global,
    reader: &mut Reader<&[u8]>,
    header: &ByteRecord,
) -> Result<Vec<T>, BesideFault>
    requires reading { IsReading reader.old }
    requires few { length (rows_left reader.old) ≤ most_bytes }
    ensures said { IfOk result (λ all. map T.shown all.items
        ≡ map (T.says (fields_of header.now)) (rows_left reader.old)) }
    ensures few { IfOk result (λ all. length all.items ≤ most_bytes) }
    ensures ok { OnOk result
        (first_bad (T.checks (fields_of header.now)) 2 (rows_left reader.old) ≡ None) }
    ensures fault { IfErr result (TellsBeside
        (first_bad (T.checks (fields_of header.now)) 2 (rows_left reader.old))) }
{
    let mut all = Vec::new(alloc);
    let mut row = ByteRecord::new(alloc);
    let mut number = 2u32;
    while next_row(reader, &mut row)? {
        match T::read(alloc, header, &row) {
            Ok(said) => all.push(said)?,
            Err(fault) => return Err(fault_at(number, fault)),
        }
        number += 1;
    }
    Ok(all)
}

// What all records of a table say, or the first fault.
#[tactic(auto, unfolding(crate::specs::Beside::beside_fault))]
pub(crate) fn read_beside<T: BesideRecord>(
    alloc: Global,
    text: &[u8],
) -> Result<Vec<T>, BesideFault>
    requires { length text.now ≤ most_bytes }
    ensures said { IfOk result (λ all.
        map T.shown all.items ≡ said_by T.says (records_of text.now)) }
    ensures few { IfOk result (λ all. length all.items ≤ most_bytes) }
    ensures ok { OnOk result
        (beside_fault T.needed T.checks (records_of text.now) ≡ None) }
    ensures fault { IfErr result
        (TellsBeside (beside_fault T.needed T.checks (records_of text.now))) }
{
    let mut header = ByteRecord::new(alloc);
    match open_with(alloc, T::columns(), text, &mut header) {
        Ok(mut reader) => read_rest(alloc, &mut reader, &header),
        Err(fault) => Err(fault_at(1, fault)),
    }
}
