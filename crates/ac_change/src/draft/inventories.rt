//! Inventories of which a number changes.
ghost use Rattle.std.specs.Prelude.{◌≡◌, false, map, IfOk};
ghost use Rattle.std.specs.List.{list_any};
ghost use Rattle.std.specs.Str.{bytes_eq};
ghost use Rattle.ac_base.specs.Names.{class_bytes};
ghost use Rattle.ac_base.specs.Quantities.{checked_inventory};
ghost use Rattle.ac_cloud.specs.Cloud.Entries.{entry_pair};
ghost use Rattle.ac_change.specs.Changes.{entry_set, is_spoilt, numbers_set};
ghost use Rattle.ac_change.specs.Shown.{setting_shown};

use crate::changes::Setting;
use ac_base::{ClassName, Inventory, NoMemory};
use ac_cloud::Entry;
use std::alloc::Global;

// An inventory with another number, where it is one.
fn with_number(inventory: Inventory, to: Setting) -> Option<Inventory>
    ensures { result ≡ checked_inventory (numbers_set (setting_shown to) inventory) }
{
    let total = inventory.total();
    let reserved = inventory.reserved();
    let min_unit = inventory.min_unit();
    let max_unit = inventory.max_unit();
    let step_size = inventory.step_size();
    let ratio = inventory.ratio();
    match to {
        Setting::Total(n) => Inventory::new(n, reserved, min_unit, max_unit, step_size, ratio),
        Setting::Reserved(n) => Inventory::new(total, n, min_unit, max_unit, step_size, ratio),
        Setting::MinUnit(n) => Inventory::new(total, reserved, n, max_unit, step_size, ratio),
        Setting::MaxUnit(n) => Inventory::new(total, reserved, min_unit, n, step_size, ratio),
        Setting::StepSize(n) => Inventory::new(total, reserved, min_unit, max_unit, n, ratio),
        Setting::Ratio(n) => Inventory::new(total, reserved, min_unit, max_unit, step_size, n),
    }
}

// Whether an entry is of a class.
fn is_of(entry: &Entry, class: &ClassName) -> bool
    ensures { result ≡ bytes_eq (class_bytes class.now) (entry_pair entry.now).0 }
{
    class.text() == entry.class().text()
}

// Whether an entry of this class would be no inventory.
fn is_spoilt(entry: &Entry, class: &ClassName, to: Setting) -> bool
    ensures { result ≡ is_spoilt (class_bytes class.now) (setting_shown to) (entry_pair entry.now) }
{
    is_of(entry, class) && with_number(*entry.inventory(), to).is_none()
}

// Whether one of the entries would be.
pub(crate) fn spoils(entries: &[Entry], class: &ClassName, to: Setting) -> bool
    ensures { result ≡ list_any (is_spoilt (class_bytes class.now) (setting_shown to))
        (map entry_pair entries.now) }
{
    entries.iter().any(|entry| is_spoilt(entry, class, to))
}

// The inventory of an entry, with another number where it is of this class.
fn inventory_set(entry: &Entry, class: &ClassName, to: Setting) -> Inventory
    requires { is_spoilt (class_bytes class.now) (setting_shown to) (entry_pair entry.now)
        ≡ false }
    ensures { result ≡ (entry_set (class_bytes class.now) (setting_shown to)
        (entry_pair entry.now)).1.inventory }
{
    if !is_of(entry, class) {
        return *entry.inventory();
    }
    match with_number(*entry.inventory(), to) {
        Some(inventory) => inventory,
        None => unreachable!(),
    }
}

// The entry, with another number where it is of this class.
fn copy_set(entry: &Entry, class: &ClassName, to: Setting) -> Result<Entry, NoMemory>
    requires { is_spoilt (class_bytes class.now) (setting_shown to) (entry_pair entry.now)
        ≡ false }
    ensures { IfOk result (λ new. entry_pair new
        ≡ entry_set (class_bytes class.now) (setting_shown to) (entry_pair entry.now)) }
{
    let inventory = inventory_set(entry, class, to);
    Ok(Entry::new(entry.class().clone()?, inventory, entry.used()))
}

// All entries, that of this class with another number.
#[tactic(auto, using(crate::proofs::Lists::none_here))]
pub(crate) fn entries_set(
    alloc: Global,
    entries: &[Entry],
    class: &ClassName,
    to: Setting,
) -> Result<Vec<Entry>, NoMemory>
    requires { list_any (is_spoilt (class_bytes class.now) (setting_shown to))
        (map entry_pair entries.now) ≡ false }
    ensures { IfOk result (λ new. map entry_pair new.items
        ≡ map (entry_set (class_bytes class.now) (setting_shown to))
        (map entry_pair entries.now)) }
{
    let mut new = Vec::new(alloc);
    for entry in entries {
        new.push(copy_set(entry, class, to)?)?;
    }
    Ok(new)
}

// The same entries.
pub(crate) fn copy_entries(alloc: Global, entries: &[Entry]) -> Result<Vec<Entry>, NoMemory>
    ensures { IfOk result (λ copies. map entry_pair copies.items ≡ map entry_pair entries.now) }
{
    let mut copies = Vec::new(alloc);
    for entry in entries {
        copies.push(Entry::new(entry.class().clone()?, *entry.inventory(), entry.used()))?;
    }
    Ok(copies)
}
