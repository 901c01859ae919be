//! What the providers of each root have together.

ghost use Rattle.std.specs.Prelude.{◌≡◌, ℕ, length, map, slice_index, IfOk};
ghost use Rattle.ac_cloud.specs.Cloud.CloudWorld.{providers_of, root_lists_of};
ghost use Rattle.ac_prune.specs.Loads.{IsAdded, AreBrought, AreSplit, AreLoads, AreReaching, AreLimited};

use ac_base::NoMemory;
use ac_cloud::Cloud;
use std::alloc::Global;

// Adds an amount at each root of a list; a sum stays where it can't rise.
fn add_at(loads: &mut [u64], roots: &[u32], amount: u64)
    ensures { IsAdded loads.old roots.now amount loads.new }
{
    for root in roots {
        let at = *root as usize;
        if at < loads.len() {
            loads[at] = loads[at].saturating_add(amount);
        }
    }
}

// Adds the sum of each list of roots at each of its roots.
fn add_lists(loads: &mut [u64], lists: &[Vec<u32>], sums: &[u64])
    requires { length sums.now ≡ length lists.now }
    ensures { AreBrought loads.old (map (λ v. v.items) lists.now) sums.now loads.new }
{
    for (k, roots) in lists.iter().enumerate() {
        add_at(loads, roots, sums[k]);
    }
}

// What the providers of each list of roots have together. What those have that have no list is added at their own root.
fn sums_by_list(
    alloc: Global,
    cloud: &Cloud,
    rooms: &[u64],
    loads: &mut [u64],
) -> Result<Vec<u64>, NoMemory>
    requires rooms { length rooms.now ≡ length (providers_of cloud.now) }
    requires loads { length loads.old ≡ length (providers_of cloud.now) }
    requires none { (r : ℕ) → slice_index loads.old r ≡ 0 }
    ensures count { IfOk result (λ sums. length sums.items ≡ length (root_lists_of cloud.now)) }
    ensures split { IfOk result (λ sums. AreSplit (providers_of cloud.now) rooms.now
        (root_lists_of cloud.now) sums.items loads.new) }
{
    let mut sums = vec![in alloc; 0u64; cloud.root_lists().len()]?;
    for ix in 0..cloud.len() {
        let room = rooms[ix as usize];
        match cloud.root_list(ix) {
            Some(list) => sums[list as usize] = sums[list as usize].saturating_add(room),
            None => add_at(loads, cloud.anchors(ix), room),
        }
    }
    Ok(sums)
}

// What the providers of each root have together; the greatest number where it is more. It goes once over the providers, and
// once over each list of roots, however many providers have it.
fn loads_by_root(alloc: Global, cloud: &Cloud, rooms: &[u64]) -> Result<Vec<u64>, NoMemory>
    requires { length rooms.now ≡ length (providers_of cloud.now) }
    ensures count { IfOk result (λ loads. length loads.items ≡ length (providers_of cloud.now)) }
    ensures loads { IfOk result (λ v. AreLoads (providers_of cloud.now) rooms.now v.items) }
{
    let mut loads = vec![in alloc; 0u64; cloud.len() as usize]?;
    let sums = sums_by_list(alloc, cloud, rooms, &mut loads)?;
    add_lists(&mut loads, cloud.root_lists(), &sums);
    Ok(loads)
}

// Drops the roots at which a load falls short of what is wanted.
fn keep_reaching(may: &mut [bool], loads: &[u64], wanted: u64)
    requires { length loads.now ≡ length may.old }
    ensures { AreReaching may.old loads.now wanted may.new }
{
    for (r, load) in loads.iter().enumerate() {
        if *load < wanted {
            may[r] = false;
        }
    }
}

/// Drops the roots whose providers don't have together what is wanted.
pub fn limit(
    alloc: Global,
    cloud: &Cloud,
    may: &mut [bool],
    rooms: &[u64],
    wanted: u64,
) -> Result<(), NoMemory>
    requires rooms { length rooms.now ≡ length (providers_of cloud.now) }
    requires may { length may.old ≡ length (providers_of cloud.now) }
    ensures { IfOk result (λ _.
        AreLimited (providers_of cloud.now) rooms.now wanted may.old may.new) }
{
    let loads = loads_by_root(alloc, cloud, rooms)?;
    keep_reaching(may, &loads, wanted);
    Ok(())
}
