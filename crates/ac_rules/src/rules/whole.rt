//! The rules of all slots together, beside Sums and Anchor.

ghost use Rattle.std.specs.Prelude.{◌≡◌, ◌<◌, ◌+◌, ◌||◌, length, map, drop, get_or, [], slice_index};
ghost use Rattle.std.specs.List.{list_all, list_any};
ghost use Rattle.std.specs.Option.{is_some};
ghost use Rattle.std.specs.List.Sorted.{IsStrictlySortedBy};
ghost use Rattle.ac_base.specs.Names.{trait_bytes};
ghost use Rattle.ac_base.specs.Texts.{text_cmp};
ghost use Rattle.ac_cloud.specs.Cloud.CloudWorld.{providers_of};
ghost use Rattle.ac_query.specs.Asked.{slots_of};
ghost use Rattle.ac_query.specs.Shown.Groups.{any_of_shown, suffix_of, group_asked};
ghost use Rattle.ac_query.specs.Shown.Queries.{asked_of};
ghost use Rattle.ac_rules.specs.Placed.{placed, placed_at};
ghost use Rattle.ac_rules.specs.Together.{is_brought, is_one_brought, are_brought, collective, are_apart, all_apart, isolate, listed, is_top, subtree};

use crate::assignment::Assignment;
use crate::rules::traits::has_any;
use crate::slots::{is_listed, is_set_apart, is_suffixed};
use ac_base::TraitName;
use ac_query::{AnyOf, Group};

impl<'a> Assignment<'a> {
    ghost use Rattle.ac_rules.specs.Shown.Assignments.{assigned_of};

    /// Whether the provider of some unsuffixed slot has a trait.
    #[tactic(auto, unfolding(crate::specs::Together::is_brought))]
    pub fn is_brought(&self, name: &TraitName) -> bool
        ensures { result ≡ is_brought (providers_of self.now.cloud.now) (assigned_of self.now)
            (trait_bytes name.now) }
    {
        self.slots().any(|x| !is_suffixed(x.query, x.slot) && x.its_provider().has_trait(name))
    }

    // Whether each of these traits is brought.
    fn are_all_brought(&self, names: &[TraitName]) -> bool
        ensures { result ≡ list_all (λ name.
            is_brought (providers_of self.now.cloud.now) (assigned_of self.now) name)
            (map trait_bytes names.now) }
    {
        names.iter().all(|name| self.is_brought(name))
    }

    /// Whether one of these traits, which rise, is brought.
    pub fn is_one_brought(&self, names: &[TraitName]) -> bool
        requires { IsStrictlySortedBy text_cmp (map trait_bytes names.now) }
        ensures { result ≡ is_one_brought (providers_of self.now.cloud.now) (assigned_of self.now)
            (map trait_bytes names.now) }
    {
        self.slots().any(|x| !is_suffixed(x.query, x.slot) && has_any(&x.its_provider(), names))
    }

    // Whether of each of these lists one trait is brought.
    fn is_one_of_each_brought(&self, lists: &[AnyOf]) -> bool
        ensures { result ≡ list_all (λ names.
            is_one_brought (providers_of self.now.cloud.now) (assigned_of self.now) names)
            (map any_of_shown lists.now) }
    {
        lists.iter().all(|list| self.is_one_brought(list.names()))
    }

    /// Whether a group is suffixed, or each of its required traits is brought, and of each any-of list one.
    pub fn keeps_group(&self, group: &Group) -> bool
        ensures { result ≡ (is_some (suffix_of group.now)
            || are_brought (providers_of self.now.cloud.now) (assigned_of self.now)
            (group_asked group.now)) }
    {
        group.suffix().is_some()
            || (self.are_all_brought(group.required())
                && self.is_one_of_each_brought(group.any_of()))
    }

    /// Collective: whether the providers of the unsuffixed slots have together what their group requires.
    #[tactic(auto, unfolding(crate::specs::Together::collective))]
    pub fn is_collective(&self) -> bool
        ensures { result
            ≡ collective (providers_of self.now.cloud.now) (asked_of self.now.query.now)
            (assigned_of self.now) }
    {
        self.query
            .groups()
            .iter()
            .all(|group| self.keeps_group(group))
    }

    /// Whether two slots don't both stand apart on one provider.
    #[tactic(auto, unfolding(crate::specs::Together::are_apart))]
    pub fn are_apart(&self, s: usize, t: usize) -> bool
        requires s { s < length self.now.list.now }
        requires t { t < length self.now.list.now }
        ensures { result ≡ are_apart
            (placed_at (asked_of self.now.query.now) s (slice_index self.now.list.now s))
            (placed_at (asked_of self.now.query.now) t (slice_index self.now.list.now t)) }
    {
        !(is_set_apart(self.query, s)
            && is_set_apart(self.query, t)
            && self.list[s] == self.list[t])
    }

    // Whether a slot and each one behind it don't both stand apart on one provider.
    #[tactic(auto, using(crate::proofs::PlacedLemmas::placed_more, crate::proofs::PlacedLemmas::placed_end))]
    fn is_apart_from_later(&self, s: usize) -> bool
        requires { s < length self.now.list.now }
        ensures { result ≡ list_all (λ y. are_apart
            (placed_at (asked_of self.now.query.now) s (slice_index self.now.list.now s)) y)
            (placed (drop (s + 1) (slots_of (asked_of self.now.query.now)))
            (drop (s + 1) self.now.list.now)) }
    {
        for t in s + 1..self.list.len() {
            if !self.are_apart(s, t) {
                return false;
            }
        }
        true
    }

    // Whether no two slots both stand apart on one provider.
    #[tactic(auto, using(crate::proofs::EachSlot::TogetherLemmas::apart_more, crate::proofs::PlacedLemmas::placed_end))]
    fn all_apart(&self) -> bool
        ensures { result ≡ all_apart (assigned_of self.now) }
    {
        for s in 0..self.list.len() {
            if !self.is_apart_from_later(s) {
                return false;
            }
        }
        true
    }

    /// Isolate: whether, where the query asks for it, different suffixed slots with classes have different providers.
    #[tactic(auto, unfolding(crate::specs::Together::isolate))]
    pub fn is_isolated(&self) -> bool
        ensures { result ≡ isolate (asked_of self.now.query.now) (assigned_of self.now) }
    {
        !self.query.isolate() || self.all_apart()
    }

    // Whether a provider is above all providers of the slots that a list of `same_subtree` names.
    #[tactic(auto, using(crate::proofs::PlacedLemmas::placed_more, crate::proofs::PlacedLemmas::placed_end), unfolding(crate::specs::Together::is_top))]
    fn is_top(&self, k: usize, top: u32) -> bool
        requires subtree { k < length (asked_of self.now.query.now).subtrees }
        requires provider { top < length (providers_of self.now.cloud.now) }
        ensures { result ≡ is_top (providers_of self.now.cloud.now)
            (listed (get_or (asked_of self.now.query.now).subtrees k []) (assigned_of self.now))
            top }
    {
        for (s, ix) in self.list.iter().enumerate() {
            if is_listed(self.query, k, s) && !self.cloud.is_ancestor(top, *ix) {
                return false;
            }
        }
        true
    }

    /// Whether one of the providers that a list of `same_subtree` names is above all of them.
    #[tactic(auto, using(crate::proofs::PlacedLemmas::placed_more, crate::proofs::PlacedLemmas::placed_end))]
    pub fn has_top(&self, k: usize) -> bool
        requires { k < length (asked_of self.now.query.now).subtrees }
        ensures { result ≡ list_any (λ a. is_top (providers_of self.now.cloud.now)
            (listed (get_or (asked_of self.now.query.now).subtrees k []) (assigned_of self.now)) a)
            (listed (get_or (asked_of self.now.query.now).subtrees k []) (assigned_of self.now)) }
    {
        for (s, ix) in self.list.iter().enumerate() {
            if is_listed(self.query, k, s) && self.is_top(k, *ix) {
                return true;
            }
        }
        false
    }

    /// Subtree: whether, of the providers that each list of `same_subtree` names, one is above all.
    #[tactic(auto, unfolding(crate::specs::Together::subtree))]
    pub fn has_tops(&self) -> bool
        ensures { result ≡ subtree (providers_of self.now.cloud.now) (asked_of self.now.query.now)
            (assigned_of self.now) }
    {
        for k in 0..self.query.subtrees().len() {
            if !self.has_top(k) {
                return false;
            }
        }
        true
    }
}
