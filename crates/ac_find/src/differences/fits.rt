//! Providers in slots: whether they serve the slot, share with other trees, and by whose aggregates they meet its rules.
ghost use Rattle.std.specs.Prelude.{◌≡◌, ◌<◌, ◌&&◌, ◌||◌, length};
ghost use Rattle.std.specs.List.{list_all, list_any};
ghost use Rattle.ac_cloud.specs.Providers.{provider_of};
ghost use Rattle.ac_cloud.specs.World.{is_member, provider_at, root_provider};
ghost use Rattle.ac_cloud.specs.Cloud.CloudWorld.{providers_of};
ghost use Rattle.ac_query.specs.Asked.{slots_of};
ghost use Rattle.ac_query.specs.Shown.Groups.{group_asked, rule_shown};
ghost use Rattle.ac_query.specs.Shown.Queries.{asked_of};
ghost use Rattle.ac_rules.specs.Own.{fits};
ghost use Rattle.ac_rules.specs.Placed.{placed_at};
ghost use Rattle.ac_rules.specs.Shown.Assignments.{placed_of};
ghost use Rattle.ac_find.specs.Explained.{meets_room};
ghost use Rattle.ac_find.specs.Service.Differing.{are_met_by, fits_outside, fits_with_its_root, gives, gives_from_below, has_to_lend, is_lent, is_met_by, is_served_together, lends, lends_by_its_root, lends_out, lends_outside, serves_among_others, some_provider};

use crate::counts::{has_room_alone, serves};
use ac_cloud::{Cloud, Provider};
use ac_query::{AggregateRule, Group, Query};
use ac_rules::Placed;
use ac_rules::rules::own::is_in_any;

// Whether a provider is available in several trees.
fn lends_out(placed: &Placed) -> bool
    ensures { result ≡ lends_out (providers_of placed.now.cloud.now) placed.now.provider }
{
    placed.cloud.anchors(placed.provider).len() > 1
}

// Whether a provider shares with other trees, and serves its slot.
fn lends(placed: &Placed) -> bool
    ensures { result ≡ lends (providers_of placed.now.cloud.now) (placed_of placed.now) }
{
    lends_out(placed) && serves(placed)
}

/// Whether some sharing provider serves a slot.
#[tactic(auto, using(ac_cloud::proofs::Ranges::range_more, ac_cloud::proofs::Ranges::range_end))]
pub(crate) fn is_lent(cloud: &Cloud, query: &Query, s: usize) -> bool
    requires { s < length (slots_of (asked_of query.now)) }
    ensures { result ≡ is_lent (providers_of cloud.now) (asked_of query.now) s }
{
    (0..cloud.len()).any(|ix| lends(&Placed::new(cloud, query, s, ix)))
}

/// Whether some provider meets the rules of a slot.
#[tactic(auto, using(ac_cloud::proofs::Ranges::range_more, ac_cloud::proofs::Ranges::range_end))]
pub(crate) fn is_fitted(cloud: &Cloud, query: &Query, s: usize) -> bool
    requires { s < length (slots_of (asked_of query.now)) }
    ensures { result ≡ some_provider (providers_of cloud.now) (asked_of query.now) s
        (fits (providers_of cloud.now)) }
{
    (0..cloud.len()).any(|ix| Placed::new(cloud, query, s, ix).fits())
}

// Whether a provider serves its slot, and another one too.
fn serves_with(placed: &Placed, t: usize) -> bool
    requires { t < length (slots_of (asked_of placed.now.query.now)) }
    ensures { result ≡ (meets_room (providers_of placed.now.cloud.now) (placed_of placed.now)
        && meets_room (providers_of placed.now.cloud.now)
        (placed_at (asked_of placed.now.query.now) t placed.now.provider)) }
{
    serves(placed) && serves(&Placed::new(placed.cloud, placed.query, t, placed.provider))
}

/// Whether one provider serves both of two slots.
#[tactic(auto, using(ac_cloud::proofs::Ranges::range_more, ac_cloud::proofs::Ranges::range_end))]
pub(crate) fn is_served_together(cloud: &Cloud, query: &Query, s: usize, t: usize) -> bool
    requires s { s < length (slots_of (asked_of query.now)) }
    requires t { t < length (slots_of (asked_of query.now)) }
    ensures { result
        ≡ is_served_together (providers_of cloud.now) (asked_of query.now) s t }
{
    (0..cloud.len()).any(|ix| serves_with(&Placed::new(cloud, query, s, ix), t))
}

/// Whether a provider serves its slot, and has a parent or shares with other trees.
pub(crate) fn serves_among_others(placed: &Placed) -> bool
    ensures { result
        ≡ serves_among_others (providers_of placed.now.cloud.now) (placed_of placed.now) }
{
    serves(placed) && (placed.its_provider().has_parent() || lends_out(placed))
}

/// Whether a provider is outside the tree that its slot's group names, and meets the group's other rules.
pub(crate) fn fits_outside(placed: &Placed) -> bool
    ensures { result
        ≡ fits_outside (providers_of placed.now.cloud.now) (placed_of placed.now) }
{
    placed.has_units()
        && placed.has_slot_traits()
        && placed.has_aggregates()
        && !placed.is_in_tree()
}

// Whether a provider is in an aggregate of each rule of a group that asks for some.
fn is_in_asked(provider: &Provider, group: &Group) -> bool
    ensures { result ≡ list_all (λ rule. rule.forbids
        || list_any (is_member (provider_of provider.now)) rule.ids)
        (group_asked group.now).member_of }
{
    group.asking().iter().all(|rule| is_in_any(provider, rule))
}

// Whether a provider meets a rule by its own aggregates.
fn is_met_by(provider: &Provider, rule: &AggregateRule) -> bool
    ensures { result ≡ is_met_by (provider_of provider.now) (rule_shown rule.now) }
{
    is_in_any(provider, rule) != rule.forbids()
}

// Whether a provider meets each rule of a group by its own aggregates. Those that forbid are asked at once.
fn are_met_by(provider: &Provider, group: &Group) -> bool
    ensures { result ≡ are_met_by (provider_of provider.now) (group_asked group.now) }
{
    !group.forbids_any(provider.aggregates()) && is_in_asked(provider, group)
}

// Whether a provider meets each rule of its slot's group by its own aggregates.
fn is_met_itself(placed: &Placed) -> bool
    ensures { result ≡ are_met_by
        (provider_at (providers_of placed.now.cloud.now) placed.now.provider)
        (placed_of placed.now).slot.group }
{
    are_met_by(&placed.its_provider(), placed.group())
}

// Whether a provider's root meets each rule of a group by its own aggregates.
fn are_met_by_root(provider: &Provider, group: &Group) -> bool
    ensures { result ≡ are_met_by
        (root_provider (providers_of provider.now.cloud.now) (provider_of provider.now))
        (group_asked group.now) }
{
    are_met_by(&provider.root(), group)
}

// Whether the root of a slot's provider meets each rule of the slot's group by its own aggregates.
fn is_met_by_root(placed: &Placed) -> bool
    ensures { result ≡ are_met_by (root_provider (providers_of placed.now.cloud.now)
        (provider_at (providers_of placed.now.cloud.now) placed.now.provider))
        (placed_of placed.now).slot.group }
{
    are_met_by_root(&placed.its_provider(), placed.group())
}

/// Whether a provider gives its slot what this asks, whatever its traits.
pub(crate) fn gives(placed: &Placed) -> bool
    ensures { result ≡ gives (providers_of placed.now.cloud.now) (placed_of placed.now) }
{
    placed.has_units() && placed.has_aggregates() && has_room_alone(placed)
}

/// Whether a provider below a parent shares with other trees, gives its slot what this asks, and meets the rules on aggregates by its own.
pub(crate) fn gives_from_below(placed: &Placed) -> bool
    ensures { result ≡ gives_from_below (providers_of placed.now.cloud.now) (placed_of placed.now) }
{
    lends_out(placed)
        && placed.its_provider().has_parent()
        && gives(placed)
        && is_met_itself(placed)
}

/// Whether a sharing provider serves its slot, but meets the rules on aggregates only by its root.
pub(crate) fn lends_by_its_root(placed: &Placed) -> bool
    ensures { result
        ≡ lends_by_its_root (providers_of placed.now.cloud.now) (placed_of placed.now) }
{
    lends(placed) && !is_met_itself(placed)
}

/// Whether a provider meets the rules of its slot, but those on aggregates neither by its own alone nor by its root's alone.
#[tactic(auto, unfolding(crate::specs::Service::Differing::fits_with_its_root))]
pub(crate) fn fits_with_its_root(placed: &Placed) -> bool
    ensures { result
        ≡ fits_with_its_root (providers_of placed.now.cloud.now) (placed_of placed.now) }
{
    !is_met_itself(placed) && !is_met_by_root(placed) && placed.fits()
}

/// Whether a sharing provider has what its slot asks for, wherever it stands.
pub(crate) fn has_to_lend(placed: &Placed) -> bool
    ensures { result
        ≡ has_to_lend (providers_of placed.now.cloud.now) (placed_of placed.now) }
{
    lends_out(placed) && placed.has_units() && placed.has_slot_traits() && has_room_alone(placed)
}

/// Whether a sharing provider has what its slot asks for, and meets a rule by its own aggregates.
pub(crate) fn lends_outside(placed: &Placed, rule: &AggregateRule) -> bool
    ensures { result ≡ lends_outside (providers_of placed.now.cloud.now) (rule_shown rule.now)
        (placed_of placed.now) }
{
    has_to_lend(placed) && is_met_by(&placed.its_provider(), rule)
}
