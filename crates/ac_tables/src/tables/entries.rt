//! Inventories beside how much of each is used.
ghost use Rattle.std.specs.Prelude.{◌≡◌, [], map, length, IfOk};
ghost use Rattle.std.specs.List.{All};
ghost use Rattle.std.specs.List.Sorted.{IsStrictlySortedBy};
ghost use Rattle.std.specs.Map.{lookup};
ghost use Rattle.std.specs.Option.{unwrap_or, option_map, option_copied};
ghost use Rattle.std.specs.Str.{bytes_eq};
ghost use Rattle.ac_base.specs.Names.{class_bytes};
ghost use Rattle.ac_base.specs.Texts.{text_cmp};
ghost use Rattle.ac_cloud.specs.Cloud.Entries.{entry_pair};
ghost use Rattle.ac_tables.specs.Reader.InventoryRows.{class_pair};
ghost use Rattle.ac_tables.specs.Reader.EntryLists.{with_used_lists};
ghost use Rattle.ac_tables.specs.Reader.OwnRows.{own_rows};
ghost use Rattle.ac_tables.specs.Tables.{with_used};
ghost use Rattle.ac_cloud.specs.ListsOf.{lists_of};

use crate::reader::provider_rows::ProviderRows;
use crate::reader::row::TableRow;
use ac_base::{ClassName, Inventory};
use ac_cloud::{Entry, Lists};
use std::alloc::{AllocError, Global};

// The usage of a class among those of a provider.
fn find_usage<'a>(
    usages: &'a [TableRow<ClassName, u32>],
    class: &ClassName,
) -> Option<&'a TableRow<ClassName, u32>>
    requires { IsStrictlySortedBy text_cmp (map (λ r. class_bytes r.key) usages.now) }
    ensures { option_map (λ r. r.value) (option_copied result)
        ≡ lookup (bytes_eq (class_bytes class.now)) (map class_pair usages.now) }
{
    match usages.binary_search_by(|row| row.key.cmp(class)) {
        Ok(place) => Some(&usages[place]),
        Err(_) => None,
    }
}

// How much of a class a provider has used.
fn amount_of(usages: &[TableRow<ClassName, u32>], class: &ClassName) -> u32
    requires { IsStrictlySortedBy text_cmp (map (λ r. class_bytes r.key) usages.now) }
    ensures { result ≡ unwrap_or (lookup (bytes_eq (class_bytes class.now))
        (map class_pair usages.now)) 0 }
{
    match find_usage(usages, class) {
        Some(row) => row.value,
        None => 0,
    }
}

// Adds an entry for each inventory of a provider, which has these usages.
fn add_entries(
    entries: &mut Vec<Entry>,
    inventories: &[TableRow<ClassName, Inventory>],
    usages: &[TableRow<ClassName, u32>],
) -> Result<(), AllocError>
    requires none { entries.old.items ≡ [] }
    requires rising { IsStrictlySortedBy text_cmp (map (λ r. class_bytes r.key) usages.now) }
    ensures { IfOk result (λ _. map entry_pair entries.new.items
        ≡ with_used (map class_pair usages.now) (map class_pair inventories.now)) }
{
    for row in inventories {
        let used = amount_of(usages, &row.key);
        entries.push(Entry::new(row.key.clone()?, row.value, u64::from(used)))?;
    }
    Ok(())
}

// What each provider has of its classes, and how much of it is used.
pub(crate) fn join(
    alloc: Global,
    inventories: &ProviderRows<ClassName, Inventory>,
    usages: &ProviderRows<ClassName, u32>,
) -> Result<Lists<Entry>, AllocError>
    requires sized { length (own_rows usages.now) ≡ length (own_rows inventories.now) }
    requires rising { All (λ rs. IsStrictlySortedBy text_cmp (map (λ r. class_bytes r.key) rs))
        (own_rows usages.now) }
    ensures length { IfOk result (λ entries.
        length (lists_of entries) ≡ length (own_rows inventories.now)) }
    ensures entries { IfOk result (λ entries. map (map entry_pair) (lists_of entries)
        ≡ with_used_lists (map (map class_pair) (own_rows usages.now))
        (map (map class_pair) (own_rows inventories.now))) }
{
    let mut lists = Lists::new(alloc)?;
    let mut entries = Vec::new(alloc);
    for place in 0..inventories.len() {
        add_entries(&mut entries, inventories.of(place), usages.of(place))?;
        lists.append(&mut entries)?;
    }
    Ok(lists)
}
