//! Inventories of which too much is used, and those of which no amount can be placed.
ghost use Rattle.std.specs.Prelude.{◌≡◌, IfOk, option_map, string_bytes};
ghost use Rattle.ac_cloud.specs.Cloud.Entries.{entry_class, entry_value};
ghost use Rattle.ac_find.specs.Audit.{admits_some, never_fits, over_capacity, over_text, units_text};

use ac_base::{Inventory, NoMemory};
use ac_cloud::Entry;
use std::alloc::Global;

/// More of an inventory is used than its capacity.
#[tactic(auto, unfolding(crate::specs::Audit::over_text))]
pub(crate) fn over_capacity(alloc: Global, entry: &Entry) -> Result<Option<String>, NoMemory>
    ensures { IfOk result (λ detail. option_map string_bytes detail
        ≡ over_capacity (entry_class entry.now) (entry_value entry.now)) }
{
    let used = entry.used();
    let whole = entry.inventory().capacity();
    if used <= whole {
        return Ok(None);
    }
    let class = entry.class().text();
    Ok(Some(format!(in alloc; "{class}: {used} used of {whole}")?))
}

// Some amount of an inventory can be placed where nothing is used.
fn admits_some(inventory: &Inventory) -> bool
    ensures { result ≡ admits_some inventory.now }
{
    let most = inventory.capacity().min(u64::from(inventory.max_unit()));
    let least = u64::from(inventory.min_unit()).max(1);
    match most.checked_rem(u64::from(inventory.step_size())) {
        Some(rest) => least <= most - rest,
        None => false,
    }
}

/// No amount of an inventory can be placed, even where nothing of it is used.
#[tactic(auto, unfolding(crate::specs::Audit::units_text))]
pub(crate) fn never_fits(alloc: Global, entry: &Entry) -> Result<Option<String>, NoMemory>
    ensures { IfOk result (λ detail. option_map string_bytes detail
        ≡ never_fits (entry_class entry.now) (entry_value entry.now)) }
{
    let inventory = entry.inventory();
    if admits_some(inventory) {
        return Ok(None);
    }
    let class = entry.class().text();
    let least = inventory.min_unit();
    let most = inventory.max_unit();
    let step = inventory.step_size();
    let whole = inventory.capacity();
    Ok(Some(format!(in alloc;
        "{class}: min_unit {least}, max_unit {most}, step_size {step}, capacity {whole}"
    )?))
}
