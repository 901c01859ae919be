//! The four rules of a single slot and its provider.

ghost use Rattle.std.specs.Prelude.{◌≡◌, ◌<◌, ◌&&◌};
ghost use Rattle.std.specs.List.{list_any};
ghost use Rattle.ac_cloud.specs.World.{is_member, provider_at, root_provider};
ghost use Rattle.ac_cloud.specs.Cloud.CloudWorld.{providers_of};
ghost use Rattle.ac_cloud.specs.Providers.{provider_of};
ghost use Rattle.ac_query.specs.Shown.Groups.{need_entry, rule_shown};
ghost use Rattle.ac_rules.specs.Own.{inventory_of, admits, units_fit, traits_fit, counts_in, meets_rule, aggregates_fit, tree_fits, fits};

use crate::assignment::Placed;
use crate::rules::traits::{has_none, has_required};
use crate::slots::is_suffixed;
use ac_cloud::Provider;
use ac_query::{AggregateRule, Need};

/// Whether one of a rule's aggregates is the provider's own.
pub fn is_in_any(provider: &Provider, rule: &AggregateRule) -> bool
    ensures { result ≡ list_any (is_member (provider_of provider.now)) (rule_shown rule.now).ids }
{
    rule.names_any(provider.aggregates())
}

impl<'a> Placed<'a> {
    ghost use Rattle.ac_rules.specs.Shown.Assignments.{placed_of};

    /// Whether the provider has an inventory of the class whose units admit the amount.
    pub fn admits_need(&self, need: &Need) -> bool
        ensures { result
            ≡ admits (inventory_of (provider_at (providers_of self.now.cloud.now) self.now.provider)
            (need_entry need.now).0) (need_entry need.now).1 }
    {
        match self.its_provider().inventory(need.class()) {
            Some(inventory) => inventory.unit_ok(u64::from(need.amount())),
            None => false,
        }
    }

    /// Units: whether the provider has inventories whose units admit the amounts of the slot.
    #[tactic(auto, unfolding(crate::specs::Own::units_fit))]
    pub fn has_units(&self) -> bool
        ensures { result ≡ units_fit (providers_of self.now.cloud.now) (placed_of self.now) }
    {
        self.needs().iter().all(|need| self.admits_need(need))
    }

    /// SlotTraits: whether the provider has no forbidden trait, and in a suffixed group what is required.
    #[tactic(auto, unfolding(crate::specs::Own::traits_fit))]
    pub fn has_slot_traits(&self) -> bool
        ensures { result ≡ traits_fit (providers_of self.now.cloud.now) (placed_of self.now) }
    {
        let group = self.group();
        let provider = self.its_provider();
        has_none(&provider, group.forbidden())
            && (group.suffix().is_none() || has_required(&provider, group))
    }

    // Whether one of a rule's aggregates is its root's own.
    fn has_roots_of(&self, rule: &AggregateRule) -> bool
        ensures { result ≡ list_any (is_member (root_provider (providers_of self.now.cloud.now)
            (provider_at (providers_of self.now.cloud.now) self.now.provider)))
            (rule_shown rule.now).ids }
    {
        is_in_any(&self.its_provider().root(), rule)
    }

    // Whether one of a rule's aggregates counts as the provider's: it is its own, or in the unsuffixed group its root's.
    fn counts_in_any(&self, rule: &AggregateRule) -> bool
        ensures { result
            ≡ list_any (λ a. counts_in (providers_of self.now.cloud.now) (placed_of self.now) a)
            (rule_shown rule.now).ids }
    {
        is_in_any(&self.its_provider(), rule)
            || (!is_suffixed(self.query, self.slot) && self.has_roots_of(rule))
    }

    /// Whether a rule on aggregates is met.
    #[tactic(auto, unfolding(crate::specs::Own::meets_rule))]
    pub fn meets_rule(&self, rule: &AggregateRule) -> bool
        ensures { result ≡ meets_rule (providers_of self.now.cloud.now) (placed_of self.now)
            (rule_shown rule.now) }
    {
        self.counts_in_any(rule) != rule.forbids()
    }

    // Whether its group forbids an aggregate that is a provider's own.
    fn forbids_one_of(&self, provider: &Provider) -> bool
        ensures { result ≡ list_any
            (λ rule. rule.forbids && list_any (is_member (provider_of provider.now)) rule.ids)
            (placed_of self.now).slot.group.member_of }
    {
        self.group().forbids_any(provider.aggregates())
    }

    // Whether an aggregate that its group forbids counts as the provider's.
    fn is_in_forbidden(&self) -> bool
        ensures { result ≡ list_any (λ rule. rule.forbids && list_any
            (λ a. counts_in (providers_of self.now.cloud.now) (placed_of self.now) a) rule.ids)
            (placed_of self.now).slot.group.member_of }
    {
        let provider = self.its_provider();
        self.forbids_one_of(&provider)
            || (!is_suffixed(self.query, self.slot) && self.forbids_one_of(&provider.root()))
    }

    /// Aggregates: whether each rule of the slot's group is met. Those that forbid are asked at once.
    pub fn has_aggregates(&self) -> bool
        ensures { result ≡ aggregates_fit (providers_of self.now.cloud.now) (placed_of self.now) }
    {
        !self.is_in_forbidden()
            && self
                .group()
                .asking()
                .iter()
                .all(|rule| self.counts_in_any(rule))
    }

    /// Tree: whether the provider is in the tree that the slot's group names.
    #[tactic(auto, unfolding(crate::specs::Own::tree_fits))]
    pub fn is_in_tree(&self) -> bool
        ensures { result ≡ tree_fits (providers_of self.now.cloud.now) (placed_of self.now) }
    {
        match self.group().in_tree() {
            None => true,
            Some(id) => match self.cloud.index_of(id) {
                None => false,
                Some(named) => self.cloud.root(self.provider) == self.cloud.root(named),
            },
        }
    }

    /// Whether the provider meets the four rules of the slot alone.
    #[tactic(auto, unfolding(crate::specs::Own::fits))]
    pub fn fits(&self) -> bool
        ensures { result ≡ fits (providers_of self.now.cloud.now) (placed_of self.now) }
    {
        self.has_units() && self.has_slot_traits() && self.has_aggregates() && self.is_in_tree()
    }
}
