//! Slots by which amounts are mixed up, or a tree is ignored.
ghost use Rattle.std.specs.Prelude.{◌≡◌, ◌<◌, ◌&&◌, ◌||◌, not, length};
ghost use Rattle.std.specs.List.{list_all, list_any};
ghost use Rattle.ac_cloud.specs.Cloud.CloudWorld.{providers_of};
ghost use Rattle.ac_query.specs.Asked.{slots_of};
ghost use Rattle.ac_query.specs.Shown.Queries.{asked_of};
ghost use Rattle.ac_rules.specs.Own.{fits};
ghost use Rattle.ac_find.specs.Service.Differing.{fits_outside, has_choice, ignores_a_tree, is_bare_slot, is_fitted_outside, is_mixed_with, is_suffixed, mixes_classes, serves_among_others, slot_places, some_provider};

use super::asks::{have_common_class, names_a_tree};
use super::fits::{fits_outside, is_fitted, is_served_together, serves_among_others};
use super::shares::is_bare_slot;
use ac_cloud::Cloud;
use ac_query::Query;
use ac_rules::Placed;
use ac_rules::slots::{count_slots, group_at, is_suffixed, needs_at};

// Whether a slot has a suffix, asks for a class of another slot, and one provider serves both.
fn is_mixed_with(cloud: &Cloud, query: &Query, s: usize, t: usize) -> bool
    requires s { s < length (slots_of (asked_of query.now)) }
    requires t { t < length (slots_of (asked_of query.now)) }
    ensures { result ≡ is_mixed_with (providers_of cloud.now) (asked_of query.now) s t }
{
    is_suffixed(query, t)
        && have_common_class(needs_at(query, s), needs_at(query, t))
        && is_served_together(cloud, query, s, t)
}

// Whether some slot has a suffix, asks for a class of a slot, and one provider serves both.
#[tactic(auto, using(ac_cloud::proofs::Ranges::range_more, ac_cloud::proofs::Ranges::range_end))]
fn is_mixed(cloud: &Cloud, query: &Query, s: usize) -> bool
    requires { s < length (slots_of (asked_of query.now)) }
    ensures { result
        ≡ list_any (is_mixed_with (providers_of cloud.now) (asked_of query.now) s)
        (slot_places (asked_of query.now)) }
{
    (0..count_slots(query)).any(|t| is_mixed_with(cloud, query, s, t))
}

/// Whether a slot without a suffix and one with a suffix ask for one class, and one provider serves both.
#[tactic(auto, using(ac_cloud::proofs::Ranges::range_more, ac_cloud::proofs::Ranges::range_end))]
pub(crate) fn mixes_classes(cloud: &Cloud, query: &Query) -> bool
    ensures { result ≡ mixes_classes (providers_of cloud.now) (asked_of query.now) }
{
    (0..count_slots(query)).any(|s| !is_suffixed(query, s) && is_mixed(cloud, query, s))
}

// Whether some provider that has a parent, or shares with other trees, serves a slot.
#[tactic(auto, using(ac_cloud::proofs::Ranges::range_more, ac_cloud::proofs::Ranges::range_end))]
fn is_served_among_others(cloud: &Cloud, query: &Query, s: usize) -> bool
    requires { s < length (slots_of (asked_of query.now)) }
    ensures { result ≡ some_provider (providers_of cloud.now) (asked_of query.now) s
        (serves_among_others (providers_of cloud.now)) }
{
    (0..cloud.len()).any(|ix| serves_among_others(&Placed::new(cloud, query, s, ix)))
}

/// Whether some provider that has a parent, or shares with other trees, serves some slot.
#[tactic(auto, using(ac_cloud::proofs::Ranges::range_more, ac_cloud::proofs::Ranges::range_end))]
pub(crate) fn has_choice(cloud: &Cloud, query: &Query) -> bool
    ensures { result ≡ has_choice (providers_of cloud.now) (asked_of query.now) }
{
    (0..count_slots(query)).any(|s| is_served_among_others(cloud, query, s))
}

// Whether some provider is outside the tree that a slot's group names, and meets the group's other rules.
#[tactic(auto, using(ac_cloud::proofs::Ranges::range_more, ac_cloud::proofs::Ranges::range_end))]
fn some_fits_outside(cloud: &Cloud, query: &Query, s: usize) -> bool
    requires { s < length (slots_of (asked_of query.now)) }
    ensures { result ≡ some_provider (providers_of cloud.now) (asked_of query.now) s
        (fits_outside (providers_of cloud.now)) }
{
    (0..cloud.len()).any(|ix| fits_outside(&Placed::new(cloud, query, s, ix)))
}

// Whether a slot is that of a group without resources which names a tree, and some provider outside that meets its other rules.
fn is_fitted_outside(cloud: &Cloud, query: &Query, s: usize) -> bool
    requires { s < length (slots_of (asked_of query.now)) }
    ensures { result
        ≡ is_fitted_outside (providers_of cloud.now) (asked_of query.now) s }
{
    names_a_tree(group_at(query, s)) && some_fits_outside(cloud, query, s)
}

// Whether some slot is that of such a group.
#[tactic(auto, using(ac_cloud::proofs::Ranges::range_more, ac_cloud::proofs::Ranges::range_end))]
fn has_one_fitted_outside(cloud: &Cloud, query: &Query) -> bool
    ensures { result
        ≡ list_any (is_fitted_outside (providers_of cloud.now) (asked_of query.now))
        (slot_places (asked_of query.now)) }
{
    (0..count_slots(query)).any(|s| is_fitted_outside(cloud, query, s))
}

// Whether each slot with resources has a provider that meets its rules.
#[tactic(auto, using(ac_cloud::proofs::Ranges::range_more, ac_cloud::proofs::Ranges::range_end))]
fn are_others_fitted(cloud: &Cloud, query: &Query) -> bool
    ensures { result ≡ list_all (λ s. is_bare_slot (asked_of query.now) s
        || some_provider (providers_of cloud.now) (asked_of query.now) s
        (fits (providers_of cloud.now))) (slot_places (asked_of query.now)) }
{
    (0..count_slots(query)).all(|s| is_bare_slot(query, s) || is_fitted(cloud, query, s))
}

/// Whether some provider outside the tree that a group without resources names meets its other rules, and each slot with resources has one
/// that meets its own.
#[tactic(auto, unfolding(crate::specs::Service::Differing::ignores_a_tree))]
pub(crate) fn ignores_a_tree(cloud: &Cloud, query: &Query) -> bool
    ensures { result ≡ ignores_a_tree (providers_of cloud.now) (asked_of query.now) }
{
    has_one_fitted_outside(cloud, query) && are_others_fitted(cloud, query)
}
