//! Providers in slots: one provider in one slot, and a provider for each of the first slots of a query.

ghost use Rattle.std.specs.Prelude.{◌≡◌, ◌-◌, ◌<◌, ◌≤◌, length, map, slice_index};
ghost use Rattle.std.specs.Iterator.{YieldsFirstBy, at_most};
ghost use Rattle.std.specs.List.{All};
ghost use Rattle.ac_cloud.specs.Cloud.CloudWorld.{providers_of};
ghost use Rattle.ac_query.specs.Asked.{slots_of};
ghost use Rattle.ac_query.specs.Shown.Queries.{asked_of};

use crate::slots::{group_at, needs_at};
use ac_cloud::{Cloud, Provider};
use ac_query::{Group, Need, Query};

/// A slot of a query, and a provider of a cloud in it.
#[derive(Clone, Copy)]
pub struct Placed<'a> {
    pub cloud: &'a Cloud,
    pub query: &'a Query,
    pub slot: usize,
    pub provider: u32,
    ghost slot_inside: { slot < length (slots_of (asked_of query.now)) },
    ghost provider_inside: { provider < length (providers_of cloud.now) },
}

/// A provider of a cloud for each of the first slots of a query, or for all.
#[derive(Clone, Copy)]
pub struct Assignment<'a> {
    pub cloud: &'a Cloud,
    pub query: &'a Query,
    pub list: &'a [u32],
    ghost slots: { length list.now ≤ length (slots_of (asked_of query.now)) },
    ghost providers: { All (λ p. p < length (providers_of cloud.now)) list.now },
}

/// The slots of an assignment from a place on, each with its provider.
#[derive(Drop)]
pub(crate) struct Slots<'a> {
    whole: Assignment<'a>,
    next: usize,
}

impl<'a> Placed<'a> {
    ghost use Rattle.ac_query.specs.Shown.Groups.{group_entry, need_entry};
    ghost use Rattle.ac_rules.specs.Placed.{placed_at};
    ghost use Rattle.ac_rules.specs.Shown.Assignments.{placed_of};

    /// A provider of a cloud in a slot of a query.
    pub fn new(cloud: &'a Cloud, query: &'a Query, slot: usize, provider: u32) -> Placed<'a>
        requires slot { slot < length (slots_of (asked_of query.now)) }
        requires provider { provider < length (providers_of cloud.now) }
        ensures placed { placed_of result ≡ placed_at (asked_of query.now) slot provider }
        ensures cloud { result.cloud.now ≡ cloud.now }
        ensures query { result.query.now ≡ query.now }
    {
        Placed {
            cloud,
            query,
            slot,
            provider,
        }
    }

    /// The provider.
    pub fn its_provider(&self) -> Provider<'a>
        ensures cloud { result.cloud.now ≡ self.now.cloud.now }
        ensures place { result.ix ≡ self.now.provider }
    {
        Provider {
            cloud: self.cloud,
            ix: self.provider,
        }
    }

    /// The group of the slot.
    pub fn group(&self) -> &'a Group
        ensures { group_entry result.now
            ≡ ((placed_of self.now).slot.suffix, (placed_of self.now).slot.group) }
    {
        group_at(self.query, self.slot)
    }

    /// What the slot needs.
    pub fn needs(&self) -> &'a [Need]
        ensures { map need_entry result.now ≡ (placed_of self.now).slot.needs }
    {
        needs_at(self.query, self.slot)
    }
}

impl<'a> Assignment<'a> {
    ghost use Rattle.ac_rules.specs.Placed.{placed_at};
    ghost use Rattle.ac_rules.specs.Shown.Assignments.{assigned_of, all_in, placed_of, slots_left};

    /// The slot at a place, with its provider.
    pub fn slot(&self, s: usize) -> Placed<'a>
        requires { s < length self.now.list.now }
        ensures placed { placed_of result
            ≡ placed_at (asked_of self.now.query.now) s (slice_index self.now.list.now s) }
        ensures cloud { result.cloud.now ≡ self.now.cloud.now }
        ensures place { result.slot ≡ s }
    {
        Placed {
            cloud: self.cloud,
            query: self.query,
            slot: s,
            provider: self.list[s],
        }
    }

    /// Its slots in order, each with its provider.
    #[tactic(auto, using(crate::proofs::PlacedLemmas::placed_whole))]
    pub(crate) fn slots(&self) -> Slots<'a>
        ensures { slots_left result
            ≡ all_in (providers_of self.now.cloud.now) (assigned_of self.now) }
    {
        Slots {
            whole: *self,
            next: 0,
        }
    }
}

impl<'a> Iterator for Slots<'a> {
    ghost use Rattle.ac_rules.specs.Shown.Assignments.{shown, slots_left};

    type Item = Placed<'a>;

    ghost next_gives = { YieldsFirstBy shown slots_left };

    ghost remaining = { λ s. at_most (length s.whole.list.now - s.next) };

    #[tactic(auto, using(crate::proofs::PlacedLemmas::placed_more, crate::proofs::PlacedLemmas::placed_end))]
    fn next(&mut self) -> Option<Placed<'a>> {
        let slot = self.next;
        if slot >= self.whole.list.len() {
            return None;
        }
        self.next += 1;
        Some(Placed {
            cloud: self.whole.cloud,
            query: self.whole.query,
            slot,
            provider: self.whole.list[slot],
        })
    }
}
