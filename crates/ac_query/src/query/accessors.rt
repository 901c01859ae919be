//! What a query tells of itself.
ghost use Rattle.std.specs.Prelude.{◌≡◌, ◌<◌, ◌≤◌, map, length, sum_by, Some, IsSome};
ghost use Rattle.std.specs.List.{slice_get};
ghost use Rattle.std.specs.List.Sorted.{IsStrictlySortedBy};
ghost use Rattle.std.specs.Option.{option_map};
ghost use Rattle.ac_base.specs.Names.{trait_bytes};
ghost use Rattle.ac_base.specs.Texts.{text_cmp};
ghost use Rattle.ac_query.specs.Asked.{slots_of, is_isolated, in_subtree};
ghost use Rattle.ac_query.specs.Faults.{entry_count};
ghost use Rattle.ac_query.specs.Shown.{suffixes_shown};
ghost use Rattle.ac_query.specs.Shown.Groups.{need_class, need_entry, group_entry};
ghost use Rattle.ac_query.specs.Shown.Slots.{slot_group, slot_shown};
ghost use Rattle.ac_query.specs.Shown.Queries.{asked_of};

use super::Query;
use crate::group::{Group, Need};
use crate::slot::Slot;
use ac_base::{Suffix, TraitName};
use std::collections::BTreeSet;
use std::slice;

impl Query {
    /// The request groups: the unsuffixed one first, then suffixes in byte order. They need at most 256 classes together.
    pub fn groups(&self) -> &[Group]
        ensures groups { map group_entry result.now ≡ (asked_of self.now).groups }
        ensures few_entries { sum_by entry_count (asked_of self.now).groups ≤ 256 }
    {
        self.groups.as_slice()
    }

    /// The slots, 1 to 64: one for each class of the unsuffixed group, then one for each suffix.
    #[tactic(auto, using(crate::proofs::Slots::places_are))]
    pub fn slots(&self) -> &[Slot]
        ensures some { 0 < length result.now }
        ensures few { length result.now ≤ 64 }
        ensures groups { map slot_group result.now
            ≡ map (λ s. s.place) (slots_of (asked_of self.now)) }
    {
        self.slots.as_slice()
    }

    fn slot(&self, s: usize) -> Slot
        requires { s < length (slots_of (asked_of self.now)) }
        ensures shown { slot_shown (asked_of self.now).groups result
            ≡ slice_get (slots_of (asked_of self.now)) s }
        ensures there { IsSome (slot_shown (asked_of self.now).groups result) }
        ensures inside { result.group < length (asked_of self.now).groups }
    {
        self.slots[s]
    }

    /// What a slot needs: its one class, or all classes of its group, in byte order, each once.
    #[tactic(auto, using(crate::proofs::Values::NameSets::one_rises, crate::proofs::Slots::needs_whole, crate::proofs::Slots::shown_read, crate::proofs::Slots::slot_there))]
    pub fn slot_needs(&self, s: usize) -> &[Need]
        requires { s < length (slots_of (asked_of self.now)) }
        ensures needs { Some (map need_entry result.now)
            ≡ option_map (λ slot. slot.needs) (slice_get (slots_of (asked_of self.now)) s) }
        ensures rising { IsStrictlySortedBy text_cmp (map need_class result.now) }
    {
        let slot = self.slot(s);
        let needs = self.groups[slot.group].needs();
        match slot.class {
            Some(class) => slice::from_ref(&needs[class]),
            None => needs,
        }
    }

    /// How many candidates are wanted at most.
    pub fn limit(&self) -> Option<u32>
        ensures { result ≡ (asked_of self.now).limit }
    {
        self.limit
    }

    /// The policy, where one is given: whether suffixed groups with resources are to have different providers.
    pub fn policy(&self) -> Option<bool>
        ensures { result ≡ (asked_of self.now).policy }
    {
        self.policy
    }

    /// Whether suffixed groups with resources are to have different providers.
    pub fn isolate(&self) -> bool
        ensures { result ≡ is_isolated (asked_of self.now) }
    {
        self.policy.unwrap_or(false)
    }

    /// The traits that a root is to have, in byte order, each once.
    pub fn root_required(&self) -> &[TraitName]
        ensures names { map trait_bytes result.now ≡ (asked_of self.now).root_required }
        ensures rising { IsStrictlySortedBy text_cmp (map trait_bytes result.now) }
    {
        self.root_required.as_slice()
    }

    /// The traits that a root may not have, in byte order, each once.
    pub fn root_forbidden(&self) -> &[TraitName]
        ensures names { map trait_bytes result.now ≡ (asked_of self.now).root_forbidden }
        ensures rising { IsStrictlySortedBy text_cmp (map trait_bytes result.now) }
    {
        self.root_forbidden.as_slice()
    }

    /// The lists of `same_subtree`, each with its suffixes in byte order, each once.
    pub fn subtrees(&self) -> &[BTreeSet<Suffix>]
        ensures lists { map suffixes_shown result.now ≡ (asked_of self.now).subtrees }
        ensures count { length result.now ≡ length (asked_of self.now).subtrees }
    {
        self.subtrees.as_slice()
    }

    /// Whether list `k` of `same_subtree` names the group of a slot.
    pub fn in_subtree(&self, k: usize, s: usize) -> bool
        requires list { k < length (asked_of self.now).subtrees }
        requires slot { s < length (slots_of (asked_of self.now)) }
        ensures { result ≡ in_subtree (asked_of self.now) k s }
    {
        let slot = self.slot(s);
        match &self.groups[slot.group].suffix {
            Some(suffix) => self.subtrees[k].contains(suffix),
            None => false,
        }
    }
}
