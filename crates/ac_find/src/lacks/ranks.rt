//! How far somebody comes in a slot at each root, of the providers that are available in its tree.

ghost use Rattle.std.specs.Prelude.{◌≡◌, ◌<◌, ◌≤◌, ◌&&◌, ◌||◌, ℕ, IfOk, length, map, nat_lt, slice_index};
ghost use Rattle.ac_cloud.specs.Cloud.Anchors.{list_items};
ghost use Rattle.ac_cloud.specs.Cloud.CloudWorld.{providers_of, root_lists_of};
ghost use Rattle.ac_cloud.specs.World.{provider_at};
ghost use Rattle.ac_query.specs.Asked.{slots_of};
ghost use Rattle.ac_query.specs.Shown.Queries.{asked_of};
ghost use Rattle.ac_rules.specs.Placed.{slot_at};
ghost use Rattle.ac_rules.specs.Shown.Assignments.{placed_of};
ghost use Rattle.ac_prune.specs.Trees.Keys.{is_there};
ghost use Rattle.ac_find.specs.Furthest.{left_where, short_left};
ghost use Rattle.ac_find.specs.Shown.Furthest.{AreRanked, AreRankedBeside, AreSmall, place_in, rank, ranked};
ghost use Rattle.ac_find.specs.Shown.Lacking.{is_listed, tests_in};

use crate::counts::count_met;
use crate::details::first_short;
use ac_base::NoMemory;
use ac_cloud::Cloud;
use ac_query::Query;
use ac_rules::Placed;
use std::alloc::Global;

// What is left of the first class that is short, at a provider that passes so many tests, where room alone is wanting.
fn left_where(placed: &Placed, met: u32) -> u64
    ensures { result ≡ left_where met
        (provider_at (providers_of placed.now.cloud.now) placed.now.provider)
        (placed_of placed.now).slot.needs }
{
    if met != 5 {
        return 0;
    }
    match first_short(placed, placed.needs()) {
        Some(need) => placed.its_provider().left(need.class()),
        None => 0,
    }
}

// The tests that are passed, what is left, and the place, as one number.
fn ranked(met: u32, left: u64, place: u32) -> u128
    requires { met ≤ 6 }
    ensures { result ≡ ranked met left place }
{
    let behind = u128::from(left) * 4294967296 + u128::from(u32::MAX - place);
    u128::from(met) * 79228162514264337593543950336 + behind
}

// How far a provider comes: a greater number comes further, or as far at an earlier place.
fn rank(placed: &Placed) -> u128
    ensures rank { result ≡ rank (providers_of placed.now.cloud.now) (placed_of placed.now) }
    ensures small { short_left (providers_of placed.now.cloud.now) (placed_of placed.now)
        < 18446744073709551616 }
{
    let met = count_met(placed);
    ranked(met, left_where(placed, met), placed.provider)
}

/// How many tests are passed, by such a number.
pub(crate) fn tests_in(rank: u128) -> u128
    ensures { result ≡ tests_in rank }
{
    rank / 79228162514264337593543950336
}

/// At which place a provider comes so far; 0 is nobody's.
pub(crate) fn place_in(rank: u128) -> Option<u32>
    ensures { result ≡ place_in rank }
{
    if rank == 0 {
        return None;
    }
    Some(u32::MAX - (rank % 4294967296) as u32)
}

// Raises the number at each of some places, where it is less than this one.
fn raise(ranks: &mut [u128], places: &[u32], rank: u128)
    ensures { (k r : ℕ) → r < length ranks.old → nat_lt k (slice_index ranks.new r)
        ≡ (nat_lt k (slice_index ranks.old r) || (is_there places.now r && nat_lt k rank)) }
{
    for place in places {
        let at = *place as usize;
        if at < ranks.len() {
            ranks[at] = ranks[at].max(rank);
        }
    }
}

// Raises the number at each root of each list to the list's own.
fn raise_lists(ranks: &mut [u128], lists: &[Vec<u32>], listed: &[u128])
    requires { length listed.now ≡ length lists.now }
    ensures { (k r : ℕ) → r < length ranks.old → nat_lt k (slice_index ranks.new r)
        ≡ (nat_lt k (slice_index ranks.old r)
        || is_listed k (map list_items lists.now) listed.now r) }
{
    for (k, roots) in lists.iter().enumerate() {
        raise(ranks, roots, listed[k]);
    }
}

// How far somebody comes of those that have a list of roots together. How far one comes that has no list is noted at its own
// root.
fn rank_lists(
    alloc: Global,
    cloud: &Cloud,
    query: &Query,
    s: usize,
    ranks: &mut [u128],
) -> Result<Vec<u128>, NoMemory>
    requires slot { s < length (slots_of (asked_of query.now)) }
    requires count { length ranks.old ≡ length (providers_of cloud.now) }
    requires none { (r : ℕ) → slice_index ranks.old r ≡ 0 }
    ensures count { IfOk result (λ listed.
        length listed.items ≡ length (root_lists_of cloud.now)) }
    ensures small { IfOk result (λ _. AreSmall (providers_of cloud.now)
        (slot_at (asked_of query.now) s) (length (providers_of cloud.now))) }
    ensures ranks { IfOk result (λ listed. AreRankedBeside (providers_of cloud.now)
        (slot_at (asked_of query.now) s) (root_lists_of cloud.now) listed.items ranks.new) }
{
    let mut listed = vec![in alloc; 0u128; cloud.root_lists().len()]?;
    for ix in 0..cloud.len() {
        let placed = Placed {
            cloud,
            query,
            slot: s,
            provider: ix,
        };
        let rank = rank(&placed);
        match cloud.root_list(ix) {
            Some(list) => raise(&mut listed, &[list], rank),
            None => raise(ranks, cloud.anchors(ix), rank),
        }
    }
    Ok(listed)
}

/// How far somebody comes in a slot that is available in the tree of each root. It goes once over the providers, and once over
/// each list of roots, however many providers have it.
pub(crate) fn rank_roots(
    alloc: Global,
    cloud: &Cloud,
    query: &Query,
    s: usize,
) -> Result<Vec<u128>, NoMemory>
    requires { s < length (slots_of (asked_of query.now)) }
    ensures count { IfOk result (λ ranks. length ranks.items ≡ length (providers_of cloud.now)) }
    ensures small { IfOk result (λ _. AreSmall (providers_of cloud.now)
        (slot_at (asked_of query.now) s) (length (providers_of cloud.now))) }
    ensures ranks { IfOk result (λ ranks. AreRanked (providers_of cloud.now)
        (slot_at (asked_of query.now) s) ranks.items) }
{
    let mut ranks = vec![in alloc; 0u128; cloud.len() as usize]?;
    let listed = rank_lists(alloc, cloud, query, s, &mut ranks)?;
    raise_lists(&mut ranks, cloud.root_lists(), &listed);
    Ok(ranks)
}
