//! Sharing providers below a parent, over which the service fails.
ghost use Rattle.std.specs.Prelude.{◌≡◌, ◌<◌, ◌||◌, length};
ghost use Rattle.std.specs.List.{list_all, list_any};
ghost use Rattle.ac_cloud.specs.Cloud.CloudWorld.{providers_of};
ghost use Rattle.ac_query.specs.Asked.{slots_of};
ghost use Rattle.ac_query.specs.Shown.Queries.{asked_of};
ghost use Rattle.ac_rules.specs.Shown.Assignments.{placed_of};
ghost use Rattle.ac_find.specs.Service.Differing.{fails_from_below, gives, is_suffixed, is_wanting, lends_from_below, root_gives, slot_places, some_provider, some_sharing};

use super::fits::{gives, gives_from_below};
use super::shares::may_share;
use ac_cloud::Cloud;
use ac_query::Query;
use ac_rules::Placed;
use ac_rules::slots::{count_slots, is_suffixed};

// Whether the root of a provider gives a slot what it asks.
fn root_gives(placed: &Placed, s: usize) -> bool
    requires { s < length (slots_of (asked_of placed.now.query.now)) }
    ensures { result ≡ root_gives (providers_of placed.now.cloud.now)
        (asked_of placed.now.query.now) s placed.now.provider }
{
    let root = placed.cloud.id(placed.cloud.root(placed.provider));
    match placed.cloud.index_of(root) {
        Some(place) => gives(&Placed::new(placed.cloud, placed.query, s, place)),
        None => false,
    }
}

// Whether a slot has no suffix, and neither a provider nor its root gives it what it asks.
fn is_wanting(placed: &Placed, s: usize) -> bool
    requires { s < length (slots_of (asked_of placed.now.query.now)) }
    ensures { result ≡ is_wanting (providers_of placed.now.cloud.now)
        (asked_of placed.now.query.now) placed.now.provider s }
{
    !is_suffixed(placed.query, s)
        && !gives(&Placed::new(placed.cloud, placed.query, s, placed.provider))
        && !root_gives(placed, s)
}

// Whether that holds of some slot.
#[tactic(auto, using(ac_cloud::proofs::Ranges::range_more, ac_cloud::proofs::Ranges::range_end))]
fn is_some_wanting(placed: &Placed) -> bool
    ensures { result ≡ list_any (is_wanting (providers_of placed.now.cloud.now)
        (asked_of placed.now.query.now) placed.now.provider)
        (slot_places (asked_of placed.now.query.now)) }
{
    (0..count_slots(placed.query)).any(|s| is_wanting(placed, s))
}

// Whether a sharing provider below a parent gives its slot what this asks, and neither it nor its root some slot without a suffix.
fn lends_from_below(placed: &Placed) -> bool
    ensures { result ≡ lends_from_below (providers_of placed.now.cloud.now)
        (asked_of placed.now.query.now) (placed_of placed.now) }
{
    gives_from_below(placed) && is_some_wanting(placed)
}

// Whether there is such a provider for a slot.
#[tactic(auto, using(ac_cloud::proofs::Ranges::range_more, ac_cloud::proofs::Ranges::range_end))]
fn is_lent_from_below(cloud: &Cloud, query: &Query, s: usize) -> bool
    requires { s < length (slots_of (asked_of query.now)) }
    ensures { result ≡ some_provider (providers_of cloud.now) (asked_of query.now) s
        (lends_from_below (providers_of cloud.now) (asked_of query.now)) }
{
    (0..cloud.len()).any(|ix| lends_from_below(&Placed::new(cloud, query, s, ix)))
}

// Whether there is one for a slot that the service may fill from another tree.
#[tactic(auto, using(ac_cloud::proofs::Ranges::range_more, ac_cloud::proofs::Ranges::range_end))]
fn some_lends_from_below(cloud: &Cloud, query: &Query) -> bool
    ensures { result ≡ some_sharing (providers_of cloud.now) (asked_of query.now)
        (lends_from_below (providers_of cloud.now) (asked_of query.now)) }
{
    (0..count_slots(query)).any(|s| may_share(query, s) && is_lent_from_below(cloud, query, s))
}

// Whether some provider gives a slot what it asks.
#[tactic(auto, using(ac_cloud::proofs::Ranges::range_more, ac_cloud::proofs::Ranges::range_end))]
fn is_given(cloud: &Cloud, query: &Query, s: usize) -> bool
    requires { s < length (slots_of (asked_of query.now)) }
    ensures { result ≡ some_provider (providers_of cloud.now) (asked_of query.now) s
        (gives (providers_of cloud.now)) }
{
    (0..cloud.len()).any(|ix| gives(&Placed::new(cloud, query, s, ix)))
}

// Whether some provider gives each slot without a suffix what it asks.
#[tactic(auto, using(ac_cloud::proofs::Ranges::range_more, ac_cloud::proofs::Ranges::range_end))]
fn are_given(cloud: &Cloud, query: &Query) -> bool
    ensures { result ≡ list_all (λ s. is_suffixed (asked_of query.now) s
        || some_provider (providers_of cloud.now) (asked_of query.now) s
        (gives (providers_of cloud.now))) (slot_places (asked_of query.now)) }
{
    (0..count_slots(query)).all(|s| is_suffixed(query, s) || is_given(cloud, query, s))
}

/// Whether a sharing provider below a parent gives a slot that the service may fill from another tree what it asks, and neither it nor its root
/// all others of that group, while some provider gives each.
#[tactic(auto, unfolding(crate::specs::Service::Differing::fails_from_below))]
pub(crate) fn fails_from_below(cloud: &Cloud, query: &Query) -> bool
    ensures { result ≡ fails_from_below (providers_of cloud.now) (asked_of query.now) }
{
    some_lends_from_below(cloud, query) && are_given(cloud, query)
}
