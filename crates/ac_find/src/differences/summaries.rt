//! Capacities that are others in floating point in the trees that summaries show whole.
ghost use Rattle.std.specs.Prelude.{◌≡◌, ◌<◌, ◌||◌, ℕ, false, IfOk, length, slice_index_or};
ghost use Rattle.ac_cloud.specs.Cloud.CloudWorld.{providers_of};
ghost use Rattle.ac_cloud.specs.World.{id_at, provider_at};
ghost use Rattle.ac_query.specs.Asked.{slots_of};
ghost use Rattle.ac_query.specs.Shown.Queries.{asked_of};
ghost use Rattle.ac_rules.specs.Shown.Assignments.{placed_of};
ghost use Rattle.ac_find.specs.Service.Differing.{has_other, has_other_below, is_summarized_otherwise, some_has_other, some_provider, summarizes_otherwise, tree_has_other};
ghost use Rattle.ac_find.specs.Service.Marks.{AreMarked};

use super::doubles::is_other;
use ac_cloud::Cloud;
use ac_query::Query;
use ac_rules::Placed;
use ac_rules::slots::count_slots;
use std::alloc::{AllocError, Global};

// Whether some inventory of a provider has another capacity in double precision.
#[tactic(auto, unfolding(crate::specs::Service::Differing::has_other))]
fn has_other(cloud: &Cloud, ix: u32) -> bool
    requires { ix < length (providers_of cloud.now) }
    ensures { result ≡ has_other (provider_at (providers_of cloud.now) ix) }
{
    cloud
        .entries(ix)
        .iter()
        .any(|entry| is_other(entry.inventory()))
}

// Whether some provider has such an inventory.
#[tactic(auto, using(ac_cloud::proofs::Ranges::range_more, ac_cloud::proofs::Ranges::range_end))]
fn some_has_other(cloud: &Cloud) -> bool
    ensures { result ≡ some_has_other (providers_of cloud.now) }
{
    (0..cloud.len()).any(|ix| has_other(cloud, ix))
}

// Marks the root of a provider that has such an inventory.
fn mark_root(cloud: &Cloud, ix: u32, marks: &mut [bool])
    requires long { length marks.old ≡ length (providers_of cloud.now) }
    requires provider { ix < length (providers_of cloud.now) }
    ensures long { length marks.new ≡ length marks.old }
    ensures marked { (r : ℕ) → r < length marks.old
        → slice_index_or marks.new r false ≡ (slice_index_or marks.old r false
        || has_other_below (providers_of cloud.now) (id_at (providers_of cloud.now) r) ix) }
{
    if has_other(cloud, ix) {
        marks[cloud.root(ix) as usize] = true;
    }
}

// Marks the roots of all these.
fn mark_roots(cloud: &Cloud, marks: &mut [bool])
    requires long { length marks.old ≡ length (providers_of cloud.now) }
    ensures long { length marks.new ≡ length marks.old }
    ensures marked { (r : ℕ) → r < length marks.old
        → slice_index_or marks.new r false ≡ (slice_index_or marks.old r false
        || tree_has_other (providers_of cloud.now) (id_at (providers_of cloud.now) r)) }
{
    for ix in 0..cloud.len() {
        mark_root(cloud, ix, marks);
    }
}

// A mark for each provider, at the roots of all these.
fn marked_roots(alloc: Global, cloud: &Cloud) -> Result<Vec<bool>, AllocError>
    ensures { IfOk result (λ marks. AreMarked (providers_of cloud.now) marks.items) }
{
    let mut marks = vec![in alloc; false; cloud.len() as usize]?;
    mark_roots(cloud, &mut marks);
    Ok(marks)
}

// Whether a provider meets the rules of its slot, and its root is marked.
fn is_summarized_otherwise(placed: &Placed, marks: &[bool]) -> bool
    requires { AreMarked (providers_of placed.now.cloud.now) marks.now }
    ensures { result ≡ is_summarized_otherwise (providers_of placed.now.cloud.now)
        (placed_of placed.now) }
{
    marks[placed.cloud.root(placed.provider) as usize] && placed.fits()
}

// Whether there is such a provider for a slot.
#[tactic(auto, using(ac_cloud::proofs::Ranges::range_more, ac_cloud::proofs::Ranges::range_end))]
fn slot_summarizes_otherwise(cloud: &Cloud, query: &Query, s: usize, marks: &[bool]) -> bool
    requires slot { s < length (slots_of (asked_of query.now)) }
    requires marks { AreMarked (providers_of cloud.now) marks.now }
    ensures { result ≡ some_provider (providers_of cloud.now) (asked_of query.now) s
        (is_summarized_otherwise (providers_of cloud.now)) }
{
    (0..cloud.len()).any(|ix| is_summarized_otherwise(&Placed::new(cloud, query, s, ix), marks))
}

// Whether there is one for some slot.
#[tactic(auto, using(ac_cloud::proofs::Ranges::range_more, ac_cloud::proofs::Ranges::range_end))]
fn some_summarizes_otherwise(cloud: &Cloud, query: &Query, marks: &[bool]) -> bool
    requires { AreMarked (providers_of cloud.now) marks.now }
    ensures { result ≡ summarizes_otherwise (providers_of cloud.now) (asked_of query.now) }
{
    (0..count_slots(query)).any(|s| slot_summarizes_otherwise(cloud, query, s, marks))
}

/// Whether for some slot some provider meets the rules whose tree has an inventory with another capacity in double precision.
#[tactic(auto, using(crate::proofs::Service::MarkLemmas::none_summarizes))]
pub(crate) fn summarizes_otherwise(
    alloc: Global,
    cloud: &Cloud,
    query: &Query,
) -> Result<bool, AllocError>
    ensures { IfOk result (λ otherwise.
        otherwise ≡ summarizes_otherwise (providers_of cloud.now) (asked_of query.now)) }
{
    // Most clouds have no such inventory: so no memory is taken for them.
    if !some_has_other(cloud) {
        return Ok(false);
    }
    let marks = marked_roots(alloc, cloud)?;
    Ok(some_summarizes_otherwise(cloud, query, &marks))
}
