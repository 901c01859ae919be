//! What a provider has of one resource class.
ghost use Rattle.std.specs.Prelude.{◌≡◌, ◌<◌, [], length, get_or, set};
ghost use Rattle.ac_base.specs.Names.{class_bytes};
ghost use Rattle.ac_cloud.specs.ListsOf.{lists_of};
ghost use Rattle.ac_cloud.specs.declared.cloud.entry.Entry.{Entry};

use crate::lists::Lists;
use ac_base::{ClassName, Inventory};

/// What a provider has of one resource class, and how much of it is used.
#[derive(Debug, Drop, PartialEq, Eq)]
pub struct Entry {
    class: ClassName,
    inventory: Inventory,
    used: u64,
}

impl Entry {
    ghost use Rattle.ac_cloud.specs.Cloud.Entries.{entry_class, entry_value, entry_with};

    /// Of an inventory of a class, of which so much is used.
    pub fn new(class: ClassName, inventory: Inventory, used: u64) -> Entry
        ensures { result ≡ entry_with class inventory used }
    {
        Entry {
            class,
            inventory,
            used,
        }
    }

    /// The resource class.
    pub fn class(&self) -> &ClassName
        ensures { class_bytes result.now ≡ entry_class self.now }
    {
        &self.class
    }

    /// The inventory.
    pub fn inventory(&self) -> &Inventory
        ensures { result.now ≡ (entry_value self.now).inventory }
    {
        &self.inventory
    }

    /// How much of it is used, 0 where the usages tell nothing of it; it may be more than the capacity.
    pub fn used(&self) -> u64
        ensures { result ≡ (entry_value self.now).used }
    {
        self.used
    }
}

#[tactic(auto, unfolding(crate::specs::ListBounds::AreLaidOut), using(crate::proofs::ListFacts::of_lists))]
impl Lists<Entry> {
    ghost use Rattle.ac_cloud.specs.Cloud.Entries.{entry_set};

    /// Sets how much is used of the entry at a place of a provider's list.
    pub(crate) fn set_used(&mut self, ix: usize, place: usize, used: u64)
        requires list { ix < length (lists_of self.old) }
        requires place { place < length (get_or (lists_of self.old) ix []) }
        ensures { (d : Entry) → lists_of self.new ≡ set (lists_of self.old) ix
            (set (get_or (lists_of self.old) ix []) place
            (entry_set used (get_or (get_or (lists_of self.old) ix []) place d))) }
    {
        let at = self.starts[ix] + place;
        self.items[at].used = used;
    }
}
