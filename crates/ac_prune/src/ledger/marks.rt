//! Marks in plain numbers: which providers are taken by slots that stand apart, and the roots at which a whole path is
//! available.

ghost use Rattle.std.specs.Prelude.{◌≡◌, ◌+◌, ◌-◌, ◌<◌, ◌^◌, ◌&&◌, ◌==◌, ℕ, length, map, slice_index, slice_index_or, true, false, if◌then◌else◌, IfOk};
ghost use Rattle.std.specs.List.{All, list_any, range_with_len};
ghost use Rattle.ac_cloud.specs.Cloud.CloudWorld.{providers_of};
ghost use Rattle.ac_cloud.specs.World.{is_available_at};
ghost use Rattle.ac_query.specs.Asked.{slots_of};
ghost use Rattle.ac_query.specs.Shown.Queries.{asked_of};
ghost use Rattle.ac_rules.specs.Placed.{slot_at};
ghost use Rattle.ac_rules.specs.Together.{takes_root};
ghost use Rattle.ac_prune.specs.Marks.{needs_own, turned};
ghost use Rattle.ac_prune.specs.Trees.Keys.{is_there};

use ac_base::NoMemory;
use ac_cloud::Cloud;
use ac_query::Query;
use ac_rules::rules::anchor::takes_root;
use ac_rules::slots::{count_slots, is_set_apart};
use std::alloc::Global;

// Whether a slot needs a provider for itself among its like.
fn needs_own(query: &Query, s: usize) -> bool
    requires { s < length (slots_of (asked_of query.now)) }
    ensures { result ≡ needs_own (asked_of query.now) (slot_at (asked_of query.now) s) }
{
    query.isolate() && is_set_apart(query, s)
}

/// Which slots need a provider for themselves among their like.
pub(crate) fn lone_slots(alloc: Global, query: &Query) -> Result<Vec<bool>, NoMemory>
    ensures { IfOk result (λ lone. lone.items
        ≡ map (needs_own (asked_of query.now)) (slots_of (asked_of query.now))) }
{
    let mut lone = Vec::new(alloc);
    for s in 0..count_slots(query) {
        lone.push(needs_own(query, s))?;
    }
    Ok(lone)
}

/// Which roots the query takes.
pub fn taken_roots(alloc: Global, cloud: &Cloud, query: &Query) -> Result<Vec<bool>, NoMemory>
    ensures { IfOk result (λ taken. taken.items
        ≡ map (takes_root (providers_of cloud.now) (asked_of query.now))
        (range_with_len 0 (length (providers_of cloud.now)))) }
{
    let taken = (0..cloud.len()).map(|root| takes_root(cloud, query, root));
    Ok(taken.collect(alloc)?)
}

/// Counts one more at a provider, where it is for a slot that needs one for itself.
pub(crate) fn mark(marks: &mut [u32], lone: bool, at: usize)
    requires within { at < length marks.old }
    requires room { slice_index marks.old at < 2 ^ 32 - 1 }
    ensures { (p : ℕ) → slice_index marks.new p
        ≡ slice_index marks.old p + (if lone && (at == p) then 1 else 0) }
{
    if lone {
        marks[at] += 1;
    }
}

/// Counts one less at a provider, where it is for a slot that needs one for itself.
pub(crate) fn unmark(marks: &mut [u32], lone: bool, at: usize)
    requires within { at < length marks.old }
    requires there { lone ≡ true → 0 < slice_index marks.old at }
    ensures { (p : ℕ) → slice_index marks.new p + (if lone && (at == p) then 1 else 0)
        ≡ slice_index marks.old p }
{
    if lone {
        marks[at] -= 1;
    }
}

// Whether so many are counted at a root of another provider, and one more is available there.
fn is_full(hits: &[u32], cloud: &Cloud, other: u32, ix: u32, depth: usize, root: u32) -> bool
    requires hits { length hits.now ≡ length (providers_of cloud.now) }
    requires provider { ix < length (providers_of cloud.now) }
    requires root { root < length (providers_of cloud.now) }
    requires other { is_available_at (providers_of cloud.now) other root ≡ true }
    ensures { result ≡ (slice_index hits.now root == depth)
        && is_available_at (providers_of cloud.now) ix root }
{
    hits[root as usize] as usize == depth && (ix == other || cloud.available(ix, root))
}

/// Counts one more provider at each of another's roots where it is available and so many before it are counted.
pub(crate) fn hit(hits: &mut [u32], cloud: &Cloud, roots: &[u32], other: u32, ix: u32, depth: usize)
    requires hits { length hits.old ≡ length (providers_of cloud.now) }
    requires roots { All (λ r. r < length (providers_of cloud.now)) roots.now }
    requires other { All (λ r. is_available_at (providers_of cloud.now) other r ≡ true) roots.now }
    requires provider { ix < length (providers_of cloud.now) }
    requires few { depth < 64 }
    ensures { (r : ℕ) → slice_index hits.new r
        ≡ turned (is_there roots.now r && is_available_at (providers_of cloud.now) ix r)
        depth (depth + 1) (slice_index hits.old r) }
{
    for root in roots {
        if is_full(hits, cloud, other, ix, depth, *root) {
            hits[*root as usize] += 1;
        }
    }
}

/// Counts so many again at each root of a list where one more is counted.
pub(crate) fn unhit(hits: &mut [u32], roots: &[u32], depth: usize)
    requires within { All (λ r. r < length hits.old) roots.now }
    requires few { depth < 64 }
    ensures { (r : ℕ) → slice_index hits.new r
        ≡ turned (is_there roots.now r) (depth + 1) depth (slice_index hits.old r) }
{
    for root in roots {
        let at = *root as usize;
        if hits[at] as usize == depth + 1 {
            hits[at] -= 1;
        }
    }
}

/// Whether one of another's roots is marked where a provider is available and so many before it are counted.
pub(crate) fn has_full(
    hits: &[u32],
    marks: &[bool],
    cloud: &Cloud,
    roots: &[u32],
    other: u32,
    ix: u32,
    depth: usize,
) -> bool
    requires hits { length hits.now ≡ length (providers_of cloud.now) }
    requires marks { length marks.now ≡ length (providers_of cloud.now) }
    requires roots { All (λ r. r < length (providers_of cloud.now)) roots.now }
    requires other { All (λ r. is_available_at (providers_of cloud.now) other r ≡ true) roots.now }
    requires provider { ix < length (providers_of cloud.now) }
    ensures { result ≡ list_any (λ r. slice_index_or marks.now r false
        && ((slice_index hits.now r == depth) && is_available_at (providers_of cloud.now) ix r))
        roots.now }
{
    roots.iter().any(|root| marks[*root as usize] && is_full(hits, cloud, other, ix, depth, *root))
}
