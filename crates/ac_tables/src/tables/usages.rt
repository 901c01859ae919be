//! The table of usages: what a record of it says, and how much of their inventories the providers have used.
ghost use Rattle.std.specs.Prelude.{◌≡◌, None, IfOk, IfErr, IfSome, ◌<◌, ◌++◌, true, length, get_or, ◌≤◌, List, map};
ghost use Rattle.csv.specs.Records.{fields_of};
ghost use Rattle.ac_base.specs.Names.{class_bytes};
ghost use Rattle.ac_tables.specs.Tables.Checks.{first_failing, unless, Tells};
ghost use Rattle.ac_tables.specs.Tables.Columns.{id_in, text_in, number_in};
ghost use Rattle.ac_tables.specs.Reader.ColumnPlaces.{place_in, usage_places};
ghost use Rattle.ac_tables.specs.Tables.InventoryTable.{provider_name, class_name, InventoryRecord};
ghost use Rattle.ac_tables.specs.Tables.UsageTable.{usage_name, amount_checks, usage_field_checks, UsageRecord, usage_said, usage_row_checks, is_usage, usages_said, usages_fault};
ghost use Rattle.ac_tables.specs.Reader.InventoryRows.{inventory_records_shown, class_pair};
ghost use Rattle.ac_tables.specs.Reader.RecordLaws.{lone_checks, usages_keyed, keys_apart};
ghost use Rattle.std.specs.List.Sorted.{IsPermutation};
ghost use Rattle.ac_tables.specs.Drain.{most_bytes};
ghost use Rattle.ac_tables.specs.Reader.OwnRows.{own_rows};
ghost use Rattle.ac_tables.specs.Tables.{amounts_of, rows_given};
ghost use Rattle.ac_tables.specs.declared.fault.Table.TheVariants as table;

use crate::columns::Column;
use crate::fault::{RecordFault, Table, TableFault, TableKind};
use crate::reader::fields::{read_class, read_owner};
use crate::reader::gather::read_given;
use crate::reader::header::column_at;
use crate::reader::provider_rows::ProviderRows;
use crate::reader::record::{Record, Seen};
use crate::reader::records::text_at;
use crate::tables::inventories::Inventories;
use ac_base::{ClassName, read_count};
use csv::ByteRecord;
use std::alloc::Global;

// Where the columns stand.
#[derive(Clone, Copy, Debug, PartialEq, Eq)]
pub(crate) struct UsageColumns {
    provider: usize,
    class: usize,
    amount: usize,
}

// How much a record says to be used.
#[tactic(auto, unfolding(crate::specs::Tables::UsageTable::amount_checks))]
fn read_amount(header: &ByteRecord, place: usize, row: &ByteRecord) -> Result<u32, TableKind>
    requires { place ≡ place_in (fields_of header.now) usage_name }
    ensures { result
        ≡ unless (first_failing (amount_checks (fields_of header.now) (fields_of row.now)))
        (number_in (fields_of header.now) usage_name (fields_of row.now)) }
{
    match read_count(text_at(row, place)) {
        Some(amount) => Ok(amount),
        None => Err(TableKind::BadNumber),
    }
}

// The table of usages.
pub(crate) struct UsageTable;

impl Record for UsageTable {
    type Beside = Inventories;

    type Columns = UsageColumns;

    type Key = ClassName;

    type Value = u32;

    const TABLE: Table = Table::Usages;

    ghost TABLE = { table.Usages };

    const UNIQUE: bool = true;

    ghost UNIQUE = { true };

    const MOST: Option<usize> = None;

    ghost MOST = { None };

    ghost Said = { UsageRecord };

    ghost says = { usage_said };

    ghost checks = { λ b. usage_row_checks b.ids.ids.items (inventory_records_shown b.ids.ids.items b.rows.rows.items) };

    ghost alone = { λ b header row. usage_field_checks header row ++ lone_checks b.ids.ids.items (inventory_records_shown b.ids.ids.items b.rows.rows.items) (id_in header provider_name row) (text_in header class_name row) };

    ghost same = { λ v u. is_usage v.provider v.class u };

    ghost count = { λ b. length b.ids.ids.items };

    ghost shown = { λ b place key value. record { provider = get_or b.ids.ids.items place 0; class = class_bytes key; amount = value } };

    ghost places = { usage_places };

    #[tactic(auto, unfolding(crate::specs::Reader::ColumnPlaces::usage_places))]
    fn columns(header: &ByteRecord) -> UsageColumns {
        UsageColumns {
            provider: column_at(header, Column::Owner),
            class: column_at(header, Column::Class),
            amount: column_at(header, Column::Usage),
        }
    }

    #[tactic(auto, unfolding(crate::specs::Reader::ColumnPlaces::usage_places, crate::specs::Tables::UsageTable::usage_field_checks, crate::specs::Tables::UsageTable::usage_said), using(crate::proofs::Records::KnownFacts::reading, ac_cloud::proofs::Rising::one_of_place))]
    fn read(
        _alloc: Global,
        seen: &mut Seen,
        inventories: &Inventories,
        header: &ByteRecord,
        columns: UsageColumns,
        row: &ByteRecord,
    ) -> Result<(u32, ClassName, u32), RecordFault> {
        let provider = read_owner(&mut seen.names, header, columns.provider, row)?;
        let class = read_class(&mut seen.names, header, columns.class, row)?;
        let amount = read_amount(header, columns.amount, row)?;
        let Some(place) = inventories.ids.find_near(&mut seen.expected, provider) else {
            return Err(RecordFault::Kind(TableKind::UnknownProvider));
        };
        if inventories.lacks(place, &class) {
            return Err(RecordFault::Kind(TableKind::NoInventory));
        }
        Ok((place as u32, class, amount))
    }

    ghost keyed = { λ b header. usages_keyed b.ids.ids.items (inventory_records_shown b.ids.ids.items b.rows.rows.items) header };

    ghost apart = { λ b. keys_apart b.ids.ids.items b.ids.rising };
}

// What each provider has used of its classes, in their order, or the first fault of the table.
pub(crate) fn read_usages(
    alloc: Global,
    inventories: &Inventories,
    text: Option<&[u8]>,
) -> Result<ProviderRows<ClassName, u32>, TableFault>
    requires { IfSome text (λ t. length t.now ≤ most_bytes) }
    ensures value { IfOk result (λ used. map (map class_pair) (own_rows used)
        ≡ map (amounts_of (usages_said (rows_given table.Usages text.entry)))
        inventories.now.ids.ids.items) }
    ensures count { IfOk result (λ used. length used.rows.items
        ≡ length (usages_said (rows_given table.Usages text.entry))) }
    ensures length { IfOk result (λ used.
        length (own_rows used) ≡ length inventories.now.ids.ids.items) }
    ensures few { IfOk result (λ new. length new.rows.items ≤ most_bytes) }
    ensures ok { IfOk result (λ _. (records : List InventoryRecord)
        → IsPermutation records (inventory_records_shown inventories.now.ids.ids.items
        inventories.now.rows.rows.items) → usages_fault inventories.now.ids.ids.items records
        (rows_given table.Usages text.entry) ≡ None) }
    ensures err { IfErr result (λ e. (records : List InventoryRecord)
        → IsPermutation records (inventory_records_shown inventories.now.ids.ids.items
        inventories.now.rows.rows.items) → Tells (usages_fault inventories.now.ids.ids.items
        records (rows_given table.Usages text.entry)) e) }
{
    let rows = read_given::<UsageTable>(alloc, inventories, text)?;
    Ok(ProviderRows::new(alloc, inventories.ids.len(), rows)?)
}
