//! The table of flavors: their names, what each asks for, and how many of it are wanted.
ghost use Rattle.std.specs.Prelude.{◌≡◌, ◌≤◌, IfErr, IfOk, None, OnOk, length, map};
ghost use Rattle.csv.specs.Records.{fields_of};
ghost use Rattle.ac_tables.specs.Beside.{TellsBeside};
ghost use Rattle.ac_tables.specs.Drain.{most_bytes};
ghost use Rattle.ac_tables.specs.Flavors as spec;
ghost use Rattle.ac_tables.specs.Flavors.{flavor_checks, flavor_columns, flavor_said, flavor_shown, flavors_fault, flavors_said, wanted_in, wanted_value};
ghost use Rattle.ac_tables.specs.Tables.Rows.{records_of};

use crate::beside::{BesideFault, BesideRecord, read_beside};
use crate::columns::Column;
use crate::fault::{RecordFault, TableKind};
use crate::reader::header::{column_at, find_column};
use crate::reader::records::text_at;
use ac_base::read_count;
use csv::ByteRecord;
use std::alloc::Global;

/// A flavor.
#[derive(Debug, Drop)]
pub struct Flavor {
    pub name: Vec<u8>,
    /// The text of its query, as it stands in the table.
    pub query: Vec<u8>,
    /// How many of it are wanted.
    pub wanted: u32,
}

// How many of a flavor are wanted: one, where nothing is said.
fn wanted_value(text: &[u8]) -> Option<u32>
    ensures { result ≡ wanted_value text.now }
{
    if text.is_empty() {
        Some(1)
    } else {
        read_count(text)
    }
}

// How many a record wants of its flavor.
fn wanted_in(header: &ByteRecord, row: &ByteRecord) -> Option<u32>
    ensures { result ≡ wanted_in (fields_of header.now) (fields_of row.now) }
{
    match find_column(header, Column::Wanted) {
        Some(place) => wanted_value(text_at(row, place)),
        None => Some(1),
    }
}

impl BesideRecord for Flavor {
    ghost needed = { flavor_columns };

    ghost checks = { flavor_checks };

    ghost Said = { spec.Flavor };

    ghost says = { flavor_said };

    ghost shown = { flavor_shown };

    fn columns() -> &'static [Column] {
        &[Column::Flavor, Column::Query]
    }

    #[tactic(auto, unfolding(crate::specs::Flavors::flavor_checks, crate::specs::Flavors::flavor_said))]
    fn read(alloc: Global, header: &ByteRecord, row: &ByteRecord) -> Result<Flavor, RecordFault> {
        if row.len() != header.len() {
            return Err(RecordFault::Kind(TableKind::Width));
        }
        let Some(wanted) = wanted_in(header, row) else {
            return Err(RecordFault::Kind(TableKind::BadNumber));
        };
        Ok(Flavor {
            name: text_at(row, column_at(header, Column::Flavor)).to_vec(alloc)?,
            query: text_at(row, column_at(header, Column::Query)).to_vec(alloc)?,
            wanted,
        })
    }
}

/// Reads a table of flavors: those of all its records, or the first fault.
#[tactic(auto, unfolding(crate::specs::Flavors::flavors_fault, crate::specs::Flavors::flavors_said))]
pub fn read_flavors(alloc: Global, text: &[u8]) -> Result<Vec<Flavor>, BesideFault>
    requires { length text.now ≤ most_bytes }
    ensures flavors { IfOk result (λ flavors.
        map flavor_shown flavors.items ≡ flavors_said (records_of text.now)) }
    ensures few { IfOk result (λ flavors. length flavors.items ≤ most_bytes) }
    ensures ok { OnOk result (flavors_fault (records_of text.now) ≡ None) }
    ensures fault { IfErr result (TellsBeside (flavors_fault (records_of text.now))) }
{
    read_beside(alloc, text)
}
