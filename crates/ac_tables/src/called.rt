//! The table of names of aggregates.
ghost use Rattle.std.specs.Prelude.{◌≡◌, ◌≤◌, ℕ, IfErr, IfOk, List, None, OnOk, length, map};
ghost use Rattle.ac_tables.specs.Beside.{TellsBeside};
ghost use Rattle.ac_tables.specs.Called.{called_checks, called_columns, called_fault, called_said, called_shown, name_said};
ghost use Rattle.ac_tables.specs.Drain.{most_bytes};
ghost use Rattle.ac_tables.specs.Tables.Rows.{records_of};

use crate::beside::{BesideFault, BesideRecord, read_beside};
use crate::columns::Column;
use crate::fault::{RecordFault, TableKind};
use crate::reader::header::column_at;
use crate::reader::records::text_at;
use ac_base::Id;
use csv::ByteRecord;
use std::alloc::Global;

/// A name of an aggregate.
#[derive(Debug, Drop)]
pub struct Called {
    pub id: Id,
    pub name: Vec<u8>,
}

impl BesideRecord for Called {
    ghost needed = { called_columns };

    ghost checks = { called_checks };

    ghost Said = { ℕ × List ℕ };

    ghost says = { name_said };

    ghost shown = { called_shown };

    fn columns() -> &'static [Column] {
        &[Column::Uuid, Column::Name]
    }

    #[tactic(auto, unfolding(crate::specs::Called::called_checks, crate::specs::Called::name_said))]
    fn read(alloc: Global, header: &ByteRecord, row: &ByteRecord) -> Result<Called, RecordFault> {
        if row.len() != header.len() {
            return Err(RecordFault::Kind(TableKind::Width));
        }
        let Some(id) = Id::read(text_at(row, column_at(header, Column::Uuid))) else {
            return Err(RecordFault::Kind(TableKind::BadUuid));
        };
        let name = text_at(row, column_at(header, Column::Name)).to_vec(alloc)?;
        Ok(Called { id, name })
    }
}

/// Reads a table of names of aggregates: those of all its records, or the first fault.
#[tactic(auto, unfolding(crate::specs::Called::called_fault, crate::specs::Called::called_said))]
pub fn read_called(alloc: Global, text: &[u8]) -> Result<Vec<Called>, BesideFault>
    requires { length text.now ≤ most_bytes }
    ensures called { IfOk result (λ called.
        map called_shown called.items ≡ called_said (records_of text.now)) }
    ensures ok { OnOk result (called_fault (records_of text.now) ≡ None) }
    ensures fault { IfErr result (TellsBeside (called_fault (records_of text.now))) }
{
    read_beside(alloc, text)
}
