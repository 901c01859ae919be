//! The table of inventories: what a record of it says, and the inventories of all providers.
ghost use Rattle.std.specs.Prelude.{◌≡◌, None, IfOk, IfErr, ◌++◌, ◌==◌, true, length, get_or, ◌≤◌, ◌<◌, not, List, map};
ghost use Rattle.csv.specs.Records.{fields_of};
ghost use Rattle.ac_base.specs.Names.{class_bytes};
ghost use Rattle.ac_tables.specs.Tables.Checks.{first_failing, unless, Tells};
ghost use Rattle.ac_tables.specs.Tables.Columns.{id_in};
ghost use Rattle.ac_tables.specs.Tables.InventoryTable.{provider_name, class_name, numbers_said, number_checks, inventory_field_checks, InventoryRecord, inventory_said, inventory_record_checks, known_checks, is_inventory_of, inventories_said, inventories_fault};
ghost use Rattle.ac_tables.specs.Reader.ColumnPlaces.{inventory_places};
ghost use Rattle.ac_tables.specs.Reader.RecordLaws.{inventories_keyed, keys_apart};
ghost use Rattle.std.specs.List.{All, list_any};
ghost use Rattle.std.specs.List.Sorted.{IsPermutation, IsStrictlySortedBy};
ghost use Rattle.std.specs.Str.{bytes_eq};
ghost use Rattle.std.proofs.Props.{props};
ghost use Rattle.ac_base.specs.Texts.{text_cmp};
ghost use Rattle.ac_tables.specs.Drain.{most_bytes};
ghost use Rattle.ac_tables.specs.Reader.OwnRows.{own_rows};
ghost use Rattle.ac_tables.specs.Reader.InventoryRows.{AreInventories, class_pair, inventory_records_shown};
ghost use Rattle.ac_tables.specs.Tables.Rows.{records_of};
ghost use Rattle.ac_tables.specs.Tables.{inventories_of};
ghost use Rattle.ac_tables.specs.declared.fault.Table.TheVariants as table;

use crate::columns::Column;
use crate::fault::{RecordFault, Table, TableFault, TableKind};
use crate::reader::fields::{read_class, read_owner};
use crate::reader::gather::read_table;
use crate::reader::header::column_at;
use crate::reader::provider_rows::ProviderRows;
use crate::reader::record::{Record, Seen};
use crate::reader::records::text_at;
use crate::reader::row::TableRow;
use ac_base::{ClassName, Inventory, Ratio, read_count};
use ac_cloud::Ids;
use csv::ByteRecord;
use std::alloc::{AllocError, Global};

// Where the columns stand.
#[derive(Clone, Copy, Debug, PartialEq, Eq)]
pub(crate) struct InventoryColumns {
    provider: usize,
    class: usize,
    total: usize,
    reserved: usize,
    min_unit: usize,
    max_unit: usize,
    step_size: usize,
    ratio: usize,
}

// The inventory of a record, or the first fault of its fields.
#[tactic(auto, unfolding(crate::specs::Reader::ColumnPlaces::inventory_places, crate::specs::Tables::InventoryTable::numbers_said, crate::specs::Tables::InventoryTable::number_checks))]
fn read_inventory(
    header: &ByteRecord,
    columns: InventoryColumns,
    row: &ByteRecord,
) -> Result<Inventory, TableKind>
    requires { columns ≡ inventory_places (fields_of header.now) }
    ensures { result
        ≡ unless (first_failing (number_checks (fields_of header.now) (fields_of row.now)))
        (numbers_said (fields_of header.now) (fields_of row.now)) }
{
    let Some(total) = read_count(text_at(row, columns.total)) else {
        return Err(TableKind::BadNumber);
    };
    let Some(reserved) = read_count(text_at(row, columns.reserved)) else {
        return Err(TableKind::BadNumber);
    };
    let Some(min_unit) = read_count(text_at(row, columns.min_unit)) else {
        return Err(TableKind::BadNumber);
    };
    let Some(max_unit) = read_count(text_at(row, columns.max_unit)) else {
        return Err(TableKind::BadNumber);
    };
    let Some(step_size) = read_count(text_at(row, columns.step_size)) else {
        return Err(TableKind::BadNumber);
    };
    let Some(ratio) = Ratio::read(text_at(row, columns.ratio)) else {
        return Err(TableKind::BadRatio);
    };
    if step_size == 0 {
        return Err(TableKind::ZeroStep);
    }
    if reserved > total {
        return Err(TableKind::ReservedOverTotal);
    }
    match Inventory::new(total, reserved, min_unit, max_unit, step_size, ratio) {
        Some(inventory) => Ok(inventory),
        None => unreachable!(),
    }
}

// The table of inventories.
pub(crate) struct InventoryTable;

impl Record for InventoryTable {
    type Beside = Ids;

    type Columns = InventoryColumns;

    type Key = ClassName;

    type Value = Inventory;

    const TABLE: Table = Table::Inventories;

    ghost TABLE = { table.Inventories };

    const UNIQUE: bool = true;

    ghost UNIQUE = { true };

    const MOST: Option<usize> = None;

    ghost MOST = { None };

    ghost Said = { InventoryRecord };

    ghost says = { inventory_said };

    ghost checks = { λ ids. inventory_record_checks ids.ids.items };

    ghost alone = { λ ids header row. inventory_field_checks header row ++ known_checks ids.ids.items (id_in header provider_name row) };

    ghost same = { λ v h. is_inventory_of v.provider v.class h };

    ghost count = { λ ids. length ids.ids.items };

    ghost shown = { λ ids place key value. record { provider = get_or ids.ids.items place 0; class = class_bytes key; inventory = value } };

    ghost places = { inventory_places };

    #[tactic(auto, unfolding(crate::specs::Reader::ColumnPlaces::inventory_places))]
    fn columns(header: &ByteRecord) -> InventoryColumns {
        InventoryColumns {
            provider: column_at(header, Column::Owner),
            class: column_at(header, Column::Class),
            total: column_at(header, Column::Total),
            reserved: column_at(header, Column::Reserved),
            min_unit: column_at(header, Column::MinUnit),
            max_unit: column_at(header, Column::MaxUnit),
            step_size: column_at(header, Column::StepSize),
            ratio: column_at(header, Column::Ratio),
        }
    }

    #[tactic(auto, unfolding(crate::specs::Reader::ColumnPlaces::inventory_places, crate::specs::Tables::InventoryTable::inventory_field_checks, crate::specs::Tables::InventoryTable::inventory_said), using(crate::proofs::Records::KnownFacts::reading))]
    fn read(
        _alloc: Global,
        seen: &mut Seen,
        ids: &Ids,
        header: &ByteRecord,
        columns: InventoryColumns,
        row: &ByteRecord,
    ) -> Result<(u32, ClassName, Inventory), RecordFault> {
        let provider = read_owner(&mut seen.names, header, columns.provider, row)?;
        let class = read_class(&mut seen.names, header, columns.class, row)?;
        let inventory = read_inventory(header, columns, row)?;
        match ids.find_near(&mut seen.expected, provider) {
            Some(place) => Ok((place as u32, class, inventory)),
            None => Err(RecordFault::Kind(TableKind::UnknownProvider)),
        }
    }

    ghost keyed = { λ ids header. inventories_keyed ids.ids.items header };

    ghost apart = { λ ids. keys_apart ids.ids.items ids.rising };
}

// All providers, and the inventories of each in the order of their classes.
#[derive(Drop)]
pub(crate) struct Inventories {
    pub(crate) ids: Ids,
    pub(crate) rows: ProviderRows<ClassName, Inventory>,
    ghost sized: { length (own_rows rows) ≡ length ids.ids.items },
    ghost inside: { All (λ r. r.place < length ids.ids.items) rows.rows.items },
    ghost rise: { All (λ own. IsStrictlySortedBy text_cmp (map (λ r. class_bytes r.key) own)) (own_rows rows) } by { Prim.hlevel props },
}

// Whether one of these is of a class.
fn has_class(rows: &[TableRow<ClassName, Inventory>], class: &ClassName) -> bool
    requires { IsStrictlySortedBy text_cmp (map (λ r. class_bytes r.key) rows.now) }
    ensures { result ≡ list_any (λ r. bytes_eq (class_bytes r.key) (class_bytes class.now))
        rows.now }
{
    rows.binary_search_by(|row| row.key.cmp(class)).is_ok()
}

impl Inventories {
    fn new(
        alloc: Global,
        ids: Ids,
        rows: Vec<TableRow<ClassName, Inventory>>,
    ) -> Result<Inventories, AllocError>
        requires said { (said : List InventoryRecord)
            × AreInventories ids.ids.items said rows.items }
        requires few { length rows.items ≤ most_bytes }
        ensures ids { IfOk result (λ new. new.ids.ids.items ≡ ids.ids.items) }
        ensures rows { IfOk result (λ new. new.rows.rows.items ≡ rows.items) }
    {
        let rows = ProviderRows::new(alloc, ids.len(), rows)?;
        Ok(Inventories { ids, rows })
    }

    // Whether a provider has no inventory of a class.
    pub(crate) fn lacks(&self, place: usize, class: &ClassName) -> bool
        requires { place < length self.now.ids.ids.items }
        ensures { result ≡ not (list_any
            (is_inventory_of (get_or self.now.ids.ids.items place 0) (class_bytes class.now))
            (inventory_records_shown self.now.ids.ids.items self.now.rows.rows.items)) }
    {
        !has_class(self.rows.of(place), class)
    }

    // The inventories of a text, or the first fault of the table, where these are all providers.
    #[tactic(auto, unfolding(crate::specs::Tables::InventoryTable::inventories_fault))]
    pub(crate) fn read(alloc: Global, ids: Ids, text: &[u8]) -> Result<Inventories, TableFault>
        requires { length text.now ≤ most_bytes }
        ensures ids { IfOk result (λ new. new.ids.ids.items ≡ ids.ids.items) }
        ensures value { IfOk result (λ new. map (map class_pair) (own_rows new.rows)
            ≡ map (inventories_of (inventories_said (records_of text.now))) ids.ids.items) }
        ensures said { IfOk result (λ new.
            IsPermutation (inventories_said (records_of text.now))
            (inventory_records_shown ids.ids.items new.rows.rows.items)) }
        ensures few { IfOk result (λ new. length new.rows.rows.items ≤ most_bytes) }
        ensures ok { IfOk result (λ _. inventories_fault ids.ids.items (records_of text.now)
            ≡ None) }
        ensures err { IfErr result (λ e.
            Tells (inventories_fault ids.ids.items (records_of text.now)) e) }
    {
        let rows = read_table::<InventoryTable>(alloc, &ids, text)?;
        Ok(Inventories::new(alloc, ids, rows)?)
    }
}
