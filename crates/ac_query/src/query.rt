//! A query that was read.
ghost use Rattle.std.specs.Prelude.{◌≡◌, ◌<◌, ◌≤◌, map, length, sum_by, Some};
ghost use Rattle.std.specs.List.Sorted.{IsStrictlySortedBy};
ghost use Rattle.std.proofs.Props.{props};
ghost use Rattle.ac_base.specs.Names.{trait_bytes};
ghost use Rattle.ac_base.specs.Texts.{text_cmp};
ghost use Rattle.ac_query.specs.Asked.{slots_from};
ghost use Rattle.ac_query.specs.Faults.{entry_count};
ghost use Rattle.ac_query.specs.Shown.Groups.{group_entry};
ghost use Rattle.ac_query.specs.Shown.Slots.{slot_shown};

use crate::group::Group;
use crate::slot::Slot;
use ac_base::{Suffix, TraitName};
use std::collections::BTreeSet;

mod accessors;
mod read;
mod without;

/// What a query asks for: its groups and their slots, and what it asks of the whole.
#[derive(Drop)]
pub struct Query {
    groups: Vec<Group>,
    slots: Vec<Slot>,
    policy: Option<bool>,
    subtrees: Vec<BTreeSet<Suffix>>,
    root_required: Vec<TraitName>,
    root_forbidden: Vec<TraitName>,
    limit: Option<u32>,
    ghost required_rising: { IsStrictlySortedBy text_cmp (map trait_bytes root_required.items) } by { Prim.hlevel props },
    ghost forbidden_rising: { IsStrictlySortedBy text_cmp (map trait_bytes root_forbidden.items) } by { Prim.hlevel props },
    ghost some: { 0 < length slots.items },
    ghost few: { length slots.items ≤ 64 },
    ghost few_entries: { sum_by entry_count (map group_entry groups.items) ≤ 256 },
    ghost slotted: { map (slot_shown (map group_entry groups.items)) slots.items ≡ map (λ s. Some s) (slots_from 0 (map group_entry groups.items)) },
}
