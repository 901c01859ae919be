//! The table of aggregates: what a record of it says, and the aggregates of all providers.
ghost use Rattle.std.specs.Prelude.{◌≡◌, false, [], ◌∷◌, length, get_or, ◌≤◌, None, map, IfOk, IfErr, IfSome};
ghost use Rattle.csv.specs.Records.{fields_of};
ghost use Rattle.ac_tables.specs.Tables.Checks.{first_failing, TellsKind, Tells};
ghost use Rattle.ac_tables.specs.Tables.Columns.{id_in, bad_id};
ghost use Rattle.ac_tables.specs.Tables.ProviderTable.{uuid_name};
ghost use Rattle.ac_tables.specs.Tables.AggregateTable.{aggregate_said, AggregateRecord, aggregate_record_checks, aggregates_said, aggregates_fault};
ghost use Rattle.ac_tables.specs.Reader.ColumnPlaces.{place_in, aggregate_places};
ghost use Rattle.ac_tables.specs.Tables.InventoryTable.{provider_name};
ghost use Rattle.ac_tables.specs.Reader.RecordLaws.{aggregates_keyed, aggregates_apart};
ghost use Rattle.ac_tables.specs.Drain.{most_bytes};
ghost use Rattle.ac_cloud.specs.ListsOf.{lists_of};
ghost use Rattle.ac_tables.specs.Tables.{aggregates_of, rows_given};
ghost use Rattle.ac_tables.specs.declared.fault.Table.TheVariants as table;

use crate::columns::Column;
use crate::fault::{RecordFault, Table, TableFault, TableKind};
use crate::reader::fields::read_owner;
use crate::reader::gather::read_given;
use crate::reader::header::column_at;
use crate::reader::keys::keys_of;
use crate::reader::provider_rows::ProviderRows;
use crate::reader::record::{Record, Seen};
use crate::reader::records::text_at;
use crate::reader::row::keep_first;
use ac_base::Id;
use ac_cloud::{Ids, Lists};
use csv::ByteRecord;
use std::alloc::Global;

// Where the columns stand.
#[derive(Clone, Copy, Debug, PartialEq, Eq)]
pub(crate) struct AggregateColumns {
    provider: usize,
    aggregate: usize,
}

// The aggregate of a record.
fn read_aggregate(header: &ByteRecord, place: usize, row: &ByteRecord) -> Result<Id, RecordFault>
    requires { place ≡ place_in (fields_of header.now) uuid_name }
    ensures ok { IfOk result (λ _.
        first_failing (bad_id (fields_of header.now) uuid_name (fields_of row.now) ∷ []) ≡ None) }
    ensures id { IfOk result (λ id. id
        ≡ id_in (fields_of header.now) uuid_name (fields_of row.now)) }
    ensures fault { IfErr result (λ e. TellsKind
        (first_failing (bad_id (fields_of header.now) uuid_name (fields_of row.now) ∷ [])) e) }
{
    match Id::read(text_at(row, place)) {
        Some(id) => Ok(id),
        None => Err(RecordFault::Kind(TableKind::BadUuid)),
    }
}

// The table of aggregates.
pub(crate) struct AggregateTable;

impl Record for AggregateTable {
    type Beside = Ids;

    type Columns = AggregateColumns;

    type Key = Id;

    type Value = ();

    const TABLE: Table = Table::Aggregates;

    ghost TABLE = { table.Aggregates };

    const UNIQUE: bool = false;

    ghost UNIQUE = { false };

    const MOST: Option<usize> = None;

    ghost MOST = { None };

    ghost Said = { AggregateRecord };

    ghost says = { aggregate_said };

    ghost checks = { λ ids. aggregate_record_checks ids.ids.items };

    ghost alone = { λ ids header row. aggregate_record_checks ids.ids.items header [] row };

    ghost same = { λ _ _. false };

    ghost count = { λ ids. length ids.ids.items };

    ghost shown = { λ ids place key _. record { provider = get_or ids.ids.items place 0; aggregate = key } };

    ghost places = { aggregate_places };

    #[tactic(auto, unfolding(crate::specs::Reader::ColumnPlaces::aggregate_places))]
    fn columns(header: &ByteRecord) -> AggregateColumns {
        AggregateColumns {
            provider: column_at(header, Column::Owner),
            aggregate: column_at(header, Column::Uuid),
        }
    }

    #[tactic(auto, unfolding(crate::specs::Reader::ColumnPlaces::aggregate_places, crate::specs::Tables::AggregateTable::aggregate_record_checks, crate::specs::Tables::AggregateTable::aggregate_field_checks, crate::specs::Tables::AggregateTable::aggregate_said), using(crate::proofs::Records::KnownFacts::reading))]
    fn read(
        _alloc: Global,
        seen: &mut Seen,
        ids: &Ids,
        header: &ByteRecord,
        columns: AggregateColumns,
        row: &ByteRecord,
    ) -> Result<(u32, Id, ()), RecordFault> {
        let provider = read_owner(&mut seen.names, header, columns.provider, row)?;
        let aggregate = read_aggregate(header, columns.aggregate, row)?;
        match ids.find_near(&mut seen.expected, provider) {
            Some(place) => Ok((place as u32, aggregate, ())),
            None => Err(RecordFault::Kind(TableKind::UnknownProvider)),
        }
    }

    ghost keyed = { λ ids header. aggregates_keyed ids.ids.items header };

    ghost apart = { λ ids. aggregates_apart ids.ids.items };
}

// The aggregates of each provider, rising, each once, or the first fault of the table.
#[tactic(auto, unfolding(crate::specs::Tables::AggregateTable::aggregates_fault))]
pub(crate) fn read_aggregates(
    alloc: Global,
    ids: &Ids,
    text: Option<&[u8]>,
) -> Result<Lists<Id>, TableFault>
    requires { IfSome text (λ t. length t.now ≤ most_bytes) }
    ensures value { IfOk result (λ all. lists_of all
        ≡ map (aggregates_of (aggregates_said (rows_given table.Aggregates text.entry)))
        ids.now.ids.items) }
    ensures few { IfOk result (λ new. length new.items.items ≤ most_bytes) }
    ensures ok { IfOk result (λ _.
        aggregates_fault ids.now.ids.items (rows_given table.Aggregates text.entry) ≡ None) }
    ensures err { IfErr result (λ e.
        Tells (aggregates_fault ids.now.ids.items (rows_given table.Aggregates text.entry)) e) }
{
    let mut rows = read_given::<AggregateTable>(alloc, ids, text)?;
    keep_first(&mut rows);
    let own = ProviderRows::new(alloc, ids.len(), rows)?;
    Ok(keys_of(alloc, &own)?)
}
