//! Fields that several tables have.
ghost use Rattle.std.specs.Prelude.{◌≡◌, None, IfOk, IfErr};
ghost use Rattle.csv.specs.Records.{fields_of};
ghost use Rattle.ac_base.specs.Names.{class_bytes};
ghost use Rattle.ac_tables.specs.Tables.Checks.{first_failing, TellsKind};
ghost use Rattle.ac_tables.specs.Tables.Columns.{id_in, text_in};
ghost use Rattle.ac_tables.specs.Reader.ColumnPlaces.{place_in};
ghost use Rattle.ac_tables.specs.Tables.InventoryTable.{provider_name, class_name, owner_checks, class_checks};

use crate::fault::{RecordFault, TableKind};
use crate::reader::records::text_at;
use ac_base::{ClassName, Id, Names};
use csv::ByteRecord;

// The provider to which a record belongs.
#[tactic(auto, unfolding(crate::specs::Tables::InventoryTable::owner_checks))]
pub(crate) fn read_owner(
    names: &mut Names,
    header: &ByteRecord,
    place: usize,
    row: &ByteRecord,
) -> Result<Id, RecordFault>
    requires { place ≡ place_in (fields_of header.now) provider_name }
    ensures ok { IfOk result (λ _.
        first_failing (owner_checks (fields_of header.now) (fields_of row.now)) ≡ None) }
    ensures id { IfOk result (λ id. id
        ≡ id_in (fields_of header.now) provider_name (fields_of row.now)) }
    ensures fault { IfErr result (λ e.
        TellsKind (first_failing (owner_checks (fields_of header.now) (fields_of row.now))) e) }
{
    if row.len() != header.len() {
        return Err(RecordFault::Kind(TableKind::Width));
    }
    match names.id(text_at(row, place)) {
        Some(id) => Ok(id),
        None => Err(RecordFault::Kind(TableKind::BadUuid)),
    }
}

// The class of a record.
#[tactic(auto, unfolding(crate::specs::Tables::InventoryTable::class_checks), using(crate::proofs::Records::NameFacts::named))]
pub(crate) fn read_class(
    names: &mut Names,
    header: &ByteRecord,
    place: usize,
    row: &ByteRecord,
) -> Result<ClassName, RecordFault>
    requires { place ≡ place_in (fields_of header.now) class_name }
    ensures ok { IfOk result (λ _.
        first_failing (class_checks (fields_of header.now) (fields_of row.now)) ≡ None) }
    ensures class { IfOk result (λ class. class_bytes class
        ≡ text_in (fields_of header.now) class_name (fields_of row.now)) }
    ensures fault { IfErr result (λ e.
        TellsKind (first_failing (class_checks (fields_of header.now) (fields_of row.now))) e) }
{
    match names.class(text_at(row, place))? {
        Some(class) => Ok(class),
        None => Err(RecordFault::Kind(TableKind::BadClass)),
    }
}
