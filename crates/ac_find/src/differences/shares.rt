//! Slots by which sharing providers, or providers below a root, make a difference.
ghost use Rattle.std.specs.Prelude.{◌≡◌, ◌<◌, ◌&&◌, ◌||◌, not, length};
ghost use Rattle.std.specs.List.{list_all, list_any};
ghost use Rattle.std.specs.Option.{is_some};
ghost use Rattle.ac_cloud.specs.Providers.{provider_of};
ghost use Rattle.ac_cloud.specs.World.{is_member, is_root};
ghost use Rattle.ac_cloud.specs.Cloud.CloudWorld.{providers_of};
ghost use Rattle.ac_query.specs.Asked.{slots_of};
ghost use Rattle.ac_query.specs.Shown.Groups.{rule_shown};
ghost use Rattle.ac_query.specs.Shown.Queries.{asked_of};
ghost use Rattle.ac_rules.specs.Placed.{slot_at};
ghost use Rattle.ac_find.specs.Service.Differing.{fits_with_its_root, forbids_a_root, gives_no_resources, has_root_in, has_to_lend, is_bare_slot, is_lent, is_suffixed, lends_beside_forbidden, lends_by_its_root, lends_in_tree, lends_outside, may_share, meets_in_halves, shares_whole_group, slot_places, some_provider, some_sharing};

use super::asks::has_suffix_before;
use super::fits::{fits_with_its_root, has_to_lend, is_lent, lends_by_its_root, lends_outside};
use ac_cloud::{Cloud, Provider};
use ac_query::{AggregateRule, Query};
use ac_rules::Placed;
use ac_rules::rules::own::is_in_any;
use ac_rules::slots::{count_slots, group_at, is_suffixed, needs_at};

/// Whether a slot asks for no resources.
pub(crate) fn is_bare_slot(query: &Query, s: usize) -> bool
    requires { s < length (slots_of (asked_of query.now)) }
    ensures { result ≡ is_bare_slot (asked_of query.now) s }
{
    needs_at(query, s).is_empty()
}

// Whether a slot's group names a tree.
fn names_a_tree(query: &Query, s: usize) -> bool
    requires { s < length (slots_of (asked_of query.now)) }
    ensures { result ≡ is_some (slot_at (asked_of query.now) s).group.in_tree }
{
    group_at(query, s).in_tree().is_some()
}

/// Whether a slot is one that the service may fill from another tree: without a suffix, and without `in_tree`.
pub(crate) fn may_share(query: &Query, s: usize) -> bool
    requires { s < length (slots_of (asked_of query.now)) }
    ensures { result ≡ may_share (asked_of query.now) s }
{
    !is_suffixed(query, s) && !names_a_tree(query, s)
}

// Whether some slot has no suffix.
#[tactic(auto, using(ac_cloud::proofs::Ranges::range_more, ac_cloud::proofs::Ranges::range_end))]
fn has_unsuffixed(query: &Query) -> bool
    ensures { result ≡ list_any (λ s. not (is_suffixed (asked_of query.now) s))
        (slot_places (asked_of query.now)) }
{
    (0..count_slots(query)).any(|s| !is_suffixed(query, s))
}

// Whether a slot has a suffix, or may be filled from another tree, and by some sharing provider.
fn is_left_to_share(cloud: &Cloud, query: &Query, s: usize) -> bool
    requires { s < length (slots_of (asked_of query.now)) }
    ensures { result ≡ (is_suffixed (asked_of query.now) s
        || (may_share (asked_of query.now) s
        && is_lent (providers_of cloud.now) (asked_of query.now) s)) }
{
    is_suffixed(query, s) || (may_share(query, s) && is_lent(cloud, query, s))
}

// Whether each slot has a suffix, or may be filled from another tree, and by some sharing provider.
#[tactic(auto, using(ac_cloud::proofs::Ranges::range_more, ac_cloud::proofs::Ranges::range_end))]
fn are_left_to_share(cloud: &Cloud, query: &Query) -> bool
    ensures { result ≡ list_all (λ s. is_suffixed (asked_of query.now) s
        || (may_share (asked_of query.now) s
        && is_lent (providers_of cloud.now) (asked_of query.now) s))
        (slot_places (asked_of query.now)) }
{
    (0..count_slots(query)).all(|s| is_left_to_share(cloud, query, s))
}

/// Whether there are both groups with a suffix and the one without, and for each slot of that one some sharing provider.
#[tactic(auto, unfolding(crate::specs::Service::Differing::shares_whole_group))]
pub(crate) fn shares_whole_group(cloud: &Cloud, query: &Query) -> bool
    ensures { result ≡ shares_whole_group (providers_of cloud.now) (asked_of query.now) }
{
    has_suffix_before(query, count_slots(query))
        && has_unsuffixed(query)
        && are_left_to_share(cloud, query)
}

// Whether some sharing provider serves a slot, but meets the rules on aggregates only by its root.
#[tactic(auto, using(ac_cloud::proofs::Ranges::range_more, ac_cloud::proofs::Ranges::range_end))]
fn is_lent_by_a_root(cloud: &Cloud, query: &Query, s: usize) -> bool
    requires { s < length (slots_of (asked_of query.now)) }
    ensures { result ≡ some_provider (providers_of cloud.now) (asked_of query.now) s
        (lends_by_its_root (providers_of cloud.now)) }
{
    (0..cloud.len()).any(|ix| lends_by_its_root(&Placed::new(cloud, query, s, ix)))
}

/// Whether some sharing provider serves a slot that the service may fill from another tree, but meets the rules on aggregates only by
/// its root.
#[tactic(auto, using(ac_cloud::proofs::Ranges::range_more, ac_cloud::proofs::Ranges::range_end))]
pub(crate) fn some_lends_by_its_root(cloud: &Cloud, query: &Query) -> bool
    ensures { result ≡ some_sharing (providers_of cloud.now) (asked_of query.now)
        (lends_by_its_root (providers_of cloud.now)) }
{
    (0..count_slots(query)).any(|s| may_share(query, s) && is_lent_by_a_root(cloud, query, s))
}

// Whether some provider meets the rules of a slot, but those on aggregates only together with its root.
#[tactic(auto, using(ac_cloud::proofs::Ranges::range_more, ac_cloud::proofs::Ranges::range_end))]
fn is_met_in_halves(cloud: &Cloud, query: &Query, s: usize) -> bool
    requires { s < length (slots_of (asked_of query.now)) }
    ensures { result ≡ some_provider (providers_of cloud.now) (asked_of query.now) s
        (fits_with_its_root (providers_of cloud.now)) }
{
    (0..cloud.len()).any(|ix| fits_with_its_root(&Placed::new(cloud, query, s, ix)))
}

/// Whether some provider meets the rules of a slot without a suffix, but those on aggregates only together with its root.
#[tactic(auto, using(ac_cloud::proofs::Ranges::range_more, ac_cloud::proofs::Ranges::range_end), unfolding(crate::specs::Service::Differing::meets_in_halves))]
pub(crate) fn meets_in_halves(cloud: &Cloud, query: &Query) -> bool
    ensures { result ≡ meets_in_halves (providers_of cloud.now) (asked_of query.now) }
{
    (0..count_slots(query)).any(|s| !is_suffixed(query, s) && is_met_in_halves(cloud, query, s))
}

// Whether a provider is a root in one of a rule's aggregates.
fn is_root_in(provider: &Provider, rule: &AggregateRule) -> bool
    ensures { result ≡ (is_root (providers_of provider.now.cloud.now) (provider_of provider.now).id
        && list_any (is_member (provider_of provider.now)) (rule_shown rule.now).ids) }
{
    is_in_any(provider, rule) && provider.is_root()
}

// Whether some root is in one of a rule's aggregates.
#[tactic(auto, using(ac_cloud::proofs::Ranges::range_more, ac_cloud::proofs::Ranges::range_end))]
fn has_root_in(cloud: &Cloud, rule: &AggregateRule) -> bool
    ensures { result ≡ has_root_in (providers_of cloud.now) (rule_shown rule.now).ids }
{
    (0..cloud.len()).any(|ix| is_root_in(&cloud.provider(ix), rule))
}

// Whether some sharing provider has what a slot asks for, and meets a rule by its own aggregates.
#[tactic(auto, using(ac_cloud::proofs::Ranges::range_more, ac_cloud::proofs::Ranges::range_end))]
fn is_lent_outside(cloud: &Cloud, query: &Query, s: usize, rule: &AggregateRule) -> bool
    requires { s < length (slots_of (asked_of query.now)) }
    ensures { result ≡ some_provider (providers_of cloud.now) (asked_of query.now) s
        (lends_outside (providers_of cloud.now) (rule_shown rule.now)) }
{
    (0..cloud.len()).any(|ix| lends_outside(&Placed::new(cloud, query, s, ix), rule))
}

// Whether a rule forbids aggregates that some root is in, and some sharing provider with what a slot asks for isn't.
fn forbids_a_root(cloud: &Cloud, query: &Query, s: usize, rule: &AggregateRule) -> bool
    requires { s < length (slots_of (asked_of query.now)) }
    ensures { result ≡ forbids_a_root (providers_of cloud.now) (asked_of query.now) s
        (rule_shown rule.now) }
{
    rule.forbids() && has_root_in(cloud, rule) && is_lent_outside(cloud, query, s, rule)
}

// Whether one of a slot's rules forbids aggregates that some root is in, and some sharing provider with what the slot asks for isn't.
fn is_beside_forbidden(cloud: &Cloud, query: &Query, s: usize) -> bool
    requires { s < length (slots_of (asked_of query.now)) }
    ensures { result
        ≡ list_any (forbids_a_root (providers_of cloud.now) (asked_of query.now) s)
        (slot_at (asked_of query.now) s).group.member_of }
{
    group_at(query, s)
        .member_of()
        .iter()
        .any(|rule| forbids_a_root(cloud, query, s, rule))
}

// Whether some sharing provider has what a slot asks for, wherever it stands.
#[tactic(auto, using(ac_cloud::proofs::Ranges::range_more, ac_cloud::proofs::Ranges::range_end))]
fn has_a_lender(cloud: &Cloud, query: &Query, s: usize) -> bool
    requires { s < length (slots_of (asked_of query.now)) }
    ensures { result ≡ some_provider (providers_of cloud.now) (asked_of query.now) s
        (has_to_lend (providers_of cloud.now)) }
{
    (0..cloud.len()).any(|ix| has_to_lend(&Placed::new(cloud, query, s, ix)))
}

// Whether one of a slot's rules forbids aggregates that some root is in, and some sharing provider with what the slot asks for isn't.
// Rules are gone through only where a sharing provider has that at all.
#[tactic(auto, using(crate::proofs::Service::SharesLemmas::lent_beside))]
fn is_lent_beside_forbidden(cloud: &Cloud, query: &Query, s: usize) -> bool
    requires { s < length (slots_of (asked_of query.now)) }
    ensures { result
        ≡ list_any (forbids_a_root (providers_of cloud.now) (asked_of query.now) s)
        (slot_at (asked_of query.now) s).group.member_of }
{
    has_a_lender(cloud, query, s) && is_beside_forbidden(cloud, query, s)
}

/// Whether of some slot that the service may fill from another tree a rule forbids aggregates that some root is in, and some sharing
/// provider with what the slot asks for isn't.
#[tactic(auto, using(ac_cloud::proofs::Ranges::range_more, ac_cloud::proofs::Ranges::range_end), unfolding(crate::specs::Service::Differing::lends_beside_forbidden))]
pub(crate) fn lends_beside_forbidden(cloud: &Cloud, query: &Query) -> bool
    ensures { result ≡ lends_beside_forbidden (providers_of cloud.now) (asked_of query.now) }
{
    (0..count_slots(query)).any(|s| may_share(query, s)
        && is_lent_beside_forbidden(cloud, query, s))
}

// Whether a slot has no suffix, and its group names a tree of which some sharing provider serves the slot.
fn is_lent_in_tree(cloud: &Cloud, query: &Query, s: usize) -> bool
    requires { s < length (slots_of (asked_of query.now)) }
    ensures { result ≡ (not (is_suffixed (asked_of query.now) s)
        && is_some (slot_at (asked_of query.now) s).group.in_tree
        && is_lent (providers_of cloud.now) (asked_of query.now) s) }
{
    !is_suffixed(query, s) && names_a_tree(query, s) && is_lent(cloud, query, s)
}

/// Whether some slot has no suffix, and its group names a tree of which some sharing provider serves the slot.
#[tactic(auto, using(ac_cloud::proofs::Ranges::range_more, ac_cloud::proofs::Ranges::range_end), unfolding(crate::specs::Service::Differing::lends_in_tree))]
pub(crate) fn lends_in_tree(cloud: &Cloud, query: &Query) -> bool
    ensures { result ≡ lends_in_tree (providers_of cloud.now) (asked_of query.now) }
{
    (0..count_slots(query)).any(|s| is_lent_in_tree(cloud, query, s))
}

// Whether some slot asks for no resources.
#[tactic(auto, using(ac_cloud::proofs::Ranges::range_more, ac_cloud::proofs::Ranges::range_end))]
fn has_bare_slot(query: &Query) -> bool
    ensures { result ≡ list_any (λ s. is_bare_slot (asked_of query.now) s)
        (slot_places (asked_of query.now)) }
{
    (0..count_slots(query)).any(|s| is_bare_slot(query, s))
}

// Whether some sharing provider serves a slot that asks for no resources.
#[tactic(auto, using(ac_cloud::proofs::Ranges::range_more, ac_cloud::proofs::Ranges::range_end))]
fn is_bare_lent(cloud: &Cloud, query: &Query) -> bool
    ensures { result ≡ list_any (λ s. is_bare_slot (asked_of query.now) s
        && is_lent (providers_of cloud.now) (asked_of query.now) s)
        (slot_places (asked_of query.now)) }
{
    (0..count_slots(query)).any(|s| is_bare_slot(query, s) && is_lent(cloud, query, s))
}

// Whether some sharing provider serves each slot with resources.
#[tactic(auto, using(ac_cloud::proofs::Ranges::range_more, ac_cloud::proofs::Ranges::range_end))]
fn are_others_lent(cloud: &Cloud, query: &Query) -> bool
    ensures { result ≡ list_all (λ s. is_bare_slot (asked_of query.now) s
        || is_lent (providers_of cloud.now) (asked_of query.now) s)
        (slot_places (asked_of query.now)) }
{
    (0..count_slots(query)).all(|s| is_bare_slot(query, s) || is_lent(cloud, query, s))
}

/// Whether there is a group without resources, and some sharing provider serves it, or one serves each slot with resources.
#[tactic(auto, unfolding(crate::specs::Service::Differing::gives_no_resources))]
pub(crate) fn gives_no_resources(cloud: &Cloud, query: &Query) -> bool
    ensures { result ≡ gives_no_resources (providers_of cloud.now) (asked_of query.now) }
{
    has_bare_slot(query) && (is_bare_lent(cloud, query) || are_others_lent(cloud, query))
}
