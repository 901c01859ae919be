//! A record of the table of providers.
ghost use Rattle.std.specs.Prelude.{◌≡◌, true, Some, IfOk, IfSome};
ghost use Rattle.std.specs.Option.{is_none};
ghost use Rattle.csv.specs.Records.{fields_of};
ghost use Rattle.ac_base.specs.Texts.{id_value};
ghost use Rattle.ac_tables.specs.Reader.ColumnPlaces.{place_in, provider_places};
ghost use Rattle.ac_tables.specs.Tables.Columns.{column, text_in, text_or_none};
ghost use Rattle.ac_tables.specs.Tables.ProviderTable.{says_none, parent_name, name_name, parent_value, is_bad_parent, ProviderRecord, is_at, provider_said, provider_field_checks, provider_record_checks};
ghost use Rattle.ac_tables.specs.Reader.ProviderLaws.{name_bytes, provider_shown, providers_keyed, providers_apart};
ghost use Rattle.ac_tables.specs.declared.fault.Table.TheVariants as table;

use crate::columns::Column;
use crate::fault::{RecordFault, Table, TableKind};
use crate::reader::header::{column_at, find_column};
use crate::reader::record::{Record, Seen};
use crate::reader::records::text_at;
use ac_base::{Id, Names};
use csv::ByteRecord;
use std::alloc::{AllocError, Global};

// Where the columns stand.
#[derive(Clone, Copy, Debug, PartialEq, Eq)]
pub(crate) struct ProviderColumns {
    id: usize,
    root: usize,
    parent: usize,
    name: Option<usize>,
}

fn says_none(text: &[u8]) -> bool
    ensures { result ≡ says_none text.now }
{
    text.is_empty() || text == b"None".as_slice()
}

// The parent that a record names, or that it names none; nothing where the field is bad.
fn read_parent(header: &ByteRecord, place: usize, row: &ByteRecord) -> Option<Option<Id>>
    requires { place ≡ place_in (fields_of header.now) parent_name }
    ensures bad { is_none result
        ≡ is_bad_parent (text_in (fields_of header.now) parent_name (fields_of row.now)) }
    ensures value { IfSome result (λ parent. parent
        ≡ parent_value (text_in (fields_of header.now) parent_name (fields_of row.now))) }
{
    let text = text_at(row, place);
    if says_none(text) {
        return Some(None);
    }
    let id = Id::read(text)?;
    Some(Some(id))
}

// The root that a record names: mostly its own id, or the root of the record before.
fn read_root(names: &mut Names, own: &[u8], id: Id, text: &[u8]) -> Option<Id>
    requires { id_value own.now ≡ Some id }
    ensures { result ≡ id_value text.now }
{
    if text == own {
        return Some(id);
    }
    names.id(text)
}

// What a record names beside its own id.
#[derive(Drop)]
pub(crate) struct Named {
    pub(crate) root: Id,
    pub(crate) parent: Option<Id>,
    name: Option<Vec<u8>>,
}

impl Named {
    // The provider's name; empty where it has none.
    pub(crate) fn name(&self) -> &[u8]
        ensures { result.now ≡ name_bytes self.now.name }
    {
        match &self.name {
            Some(name) => name.as_slice(),
            None => b"",
        }
    }
}

// The name of a record, where the table has names.
fn read_name(
    alloc: Global,
    header: &ByteRecord,
    place: Option<usize>,
    row: &ByteRecord,
) -> Result<Option<Vec<u8>>, AllocError>
    requires { place ≡ column (fields_of header.now) name_name }
    ensures { IfOk result (λ name. name_bytes name
        ≡ text_or_none (fields_of header.now) name_name (fields_of row.now)) }
{
    match place {
        Some(place) => Ok(Some(Vec::from_slice(alloc, text_at(row, place))?)),
        None => Ok(None),
    }
}

// The table of providers. Its rows go by their ids alone.
pub(crate) struct ProviderTable;

impl Record for ProviderTable {
    type Beside = ();

    type Columns = ProviderColumns;

    type Key = Id;

    type Value = Named;

    const TABLE: Table = Table::Providers;

    ghost TABLE = { table.Providers };

    const UNIQUE: bool = true;

    ghost UNIQUE = { true };

    const MOST: Option<usize> = Some(65_536);

    ghost MOST = { Some 65536 };

    ghost Said = { ProviderRecord };

    ghost says = { provider_said };

    ghost checks = { λ _. provider_record_checks };

    ghost alone = { λ _. provider_field_checks };

    ghost same = { λ v u. is_at v.id u };

    ghost count = { λ _. 1 };

    ghost shown = { λ _. provider_shown };

    ghost places = { provider_places };

    #[tactic(auto, unfolding(crate::specs::Reader::ColumnPlaces::provider_places))]
    fn columns(header: &ByteRecord) -> ProviderColumns {
        ProviderColumns {
            id: column_at(header, Column::Uuid),
            root: column_at(header, Column::Root),
            parent: column_at(header, Column::Parent),
            name: find_column(header, Column::Name),
        }
    }

    #[tactic(auto, unfolding(crate::specs::Reader::ColumnPlaces::provider_places, crate::specs::Tables::ProviderTable::provider_said, crate::specs::Tables::ProviderTable::provider_field_checks))]
    fn read(
        alloc: Global,
        seen: &mut Seen,
        _beside: &(),
        header: &ByteRecord,
        columns: ProviderColumns,
        row: &ByteRecord,
    ) -> Result<(u32, Id, Named), RecordFault> {
        if row.len() != header.len() {
            return Err(RecordFault::Kind(TableKind::Width));
        }
        let own = text_at(row, columns.id);
        let Some(id) = Id::read(own) else {
            return Err(RecordFault::Kind(TableKind::BadUuid));
        };
        let root = text_at(row, columns.root);
        let Some(root) = read_root(&mut seen.names, own, id, root) else {
            return Err(RecordFault::Kind(TableKind::BadUuid));
        };
        let Some(parent) = read_parent(header, columns.parent, row) else {
            return Err(RecordFault::Kind(TableKind::BadUuid));
        };
        let name = read_name(alloc, header, columns.name, row)?;
        Ok((0, id, Named { root, parent, name }))
    }

    ghost keyed = { λ _ header. providers_keyed header };

    ghost apart = { λ _. providers_apart };
}
