//! The table of traits: what a record of it says, and the traits of all providers.
ghost use Rattle.std.specs.Prelude.{◌≡◌, None, IfOk, IfErr, IfSome, false, [], length, get_or, ◌≤◌, map};
ghost use Rattle.csv.specs.Records.{fields_of};
ghost use Rattle.ac_base.specs.Names.{trait_bytes};
ghost use Rattle.ac_tables.specs.Tables.Checks.{first_failing, TellsKind, Tells};
ghost use Rattle.ac_tables.specs.Tables.Columns.{text_in};
ghost use Rattle.ac_tables.specs.Reader.ColumnPlaces.{place_in, trait_places};
ghost use Rattle.ac_tables.specs.Tables.InventoryTable.{provider_name};
ghost use Rattle.ac_tables.specs.Tables.ProviderTable.{name_name};
ghost use Rattle.ac_tables.specs.Tables.TraitTable.{name_checks, TraitRecord, trait_said, trait_record_checks, traits_said, traits_fault};
ghost use Rattle.ac_tables.specs.Reader.RecordLaws.{traits_keyed, traits_apart};
ghost use Rattle.ac_tables.specs.Drain.{most_bytes};
ghost use Rattle.ac_cloud.specs.ListsOf.{lists_of};
ghost use Rattle.ac_tables.specs.Tables.{names_of, rows_given};
ghost use Rattle.ac_tables.specs.declared.fault.Table.TheVariants as table;

use crate::columns::Column;
use crate::fault::{RecordFault, Table, TableFault, TableKind};
use crate::reader::fields::read_owner;
use crate::reader::gather::read_given;
use crate::reader::header::column_at;
use crate::reader::keys::keys_of;
use crate::reader::provider_rows::ProviderRows;
use crate::reader::record::{Record, Seen};
use crate::reader::records::text_at;
use crate::reader::row::keep_first;
use ac_base::{Names, TraitName};
use ac_cloud::{Ids, Lists};
use csv::ByteRecord;
use std::alloc::Global;

// Where the columns stand.
#[derive(Clone, Copy, Debug, PartialEq, Eq)]
pub(crate) struct TraitColumns {
    provider: usize,
    name: usize,
}

// The trait of a record.
#[tactic(auto, unfolding(crate::specs::Tables::TraitTable::name_checks), using(crate::proofs::Records::NameFacts::named))]
fn read_name(
    names: &mut Names,
    header: &ByteRecord,
    place: usize,
    row: &ByteRecord,
) -> Result<TraitName, RecordFault>
    requires { place ≡ place_in (fields_of header.now) name_name }
    ensures ok { IfOk result (λ _.
        first_failing (name_checks (fields_of header.now) (fields_of row.now)) ≡ None) }
    ensures name { IfOk result (λ name. trait_bytes name
        ≡ text_in (fields_of header.now) name_name (fields_of row.now)) }
    ensures fault { IfErr result (λ e.
        TellsKind (first_failing (name_checks (fields_of header.now) (fields_of row.now))) e) }
{
    match names.trait_name(text_at(row, place))? {
        Some(name) => Ok(name),
        None => Err(RecordFault::Kind(TableKind::BadTrait)),
    }
}

// The table of traits.
pub(crate) struct TraitTable;

impl Record for TraitTable {
    type Beside = Ids;

    type Columns = TraitColumns;

    type Key = TraitName;

    type Value = ();

    const TABLE: Table = Table::Traits;

    ghost TABLE = { table.Traits };

    const UNIQUE: bool = false;

    ghost UNIQUE = { false };

    const MOST: Option<usize> = None;

    ghost MOST = { None };

    ghost Said = { TraitRecord };

    ghost says = { trait_said };

    ghost checks = { λ ids. trait_record_checks ids.ids.items };

    ghost alone = { λ ids header row. trait_record_checks ids.ids.items header [] row };

    ghost same = { λ _ _. false };

    ghost count = { λ ids. length ids.ids.items };

    ghost shown = { λ ids place key _. record { provider = get_or ids.ids.items place 0; name = trait_bytes key } };

    ghost places = { trait_places };

    #[tactic(auto, unfolding(crate::specs::Reader::ColumnPlaces::trait_places))]
    fn columns(header: &ByteRecord) -> TraitColumns {
        TraitColumns {
            provider: column_at(header, Column::Owner),
            name: column_at(header, Column::Name),
        }
    }

    #[tactic(auto, unfolding(crate::specs::Reader::ColumnPlaces::trait_places, crate::specs::Tables::TraitTable::trait_record_checks, crate::specs::Tables::TraitTable::trait_field_checks, crate::specs::Tables::TraitTable::trait_said), using(crate::proofs::Records::KnownFacts::reading))]
    fn read(
        _alloc: Global,
        seen: &mut Seen,
        ids: &Ids,
        header: &ByteRecord,
        columns: TraitColumns,
        row: &ByteRecord,
    ) -> Result<(u32, TraitName, ()), RecordFault> {
        let provider = read_owner(&mut seen.names, header, columns.provider, row)?;
        let name = read_name(&mut seen.names, header, columns.name, row)?;
        match ids.find_near(&mut seen.expected, provider) {
            Some(place) => Ok((place as u32, name, ())),
            None => Err(RecordFault::Kind(TableKind::UnknownProvider)),
        }
    }

    ghost keyed = { λ ids header. traits_keyed ids.ids.items header };

    ghost apart = { λ ids. traits_apart ids.ids.items };
}

// The traits of each provider in byte order, each once, or the first fault of the table.
#[tactic(auto, unfolding(crate::specs::Tables::TraitTable::traits_fault))]
pub(crate) fn read_traits(
    alloc: Global,
    ids: &Ids,
    text: Option<&[u8]>,
) -> Result<Lists<TraitName>, TableFault>
    requires { IfSome text (λ t. length t.now ≤ most_bytes) }
    ensures value { IfOk result (λ names. map (map trait_bytes) (lists_of names)
        ≡ map (names_of (traits_said (rows_given table.Traits text.entry))) ids.now.ids.items) }
    ensures few { IfOk result (λ new. length new.items.items ≤ most_bytes) }
    ensures ok { IfOk result (λ _.
        traits_fault ids.now.ids.items (rows_given table.Traits text.entry) ≡ None) }
    ensures err { IfErr result (λ e.
        Tells (traits_fault ids.now.ids.items (rows_given table.Traits text.entry)) e) }
{
    let mut rows = read_given::<TraitTable>(alloc, ids, text)?;
    keep_first(&mut rows);
    let own = ProviderRows::new(alloc, ids.len(), rows)?;
    Ok(keys_of(alloc, &own)?)
}
