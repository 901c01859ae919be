//! What the providers of each root have together, exactly.

ghost use Rattle.std.specs.Prelude.{◌≡◌, ℕ, length, map, slice_index, IfOk, OnOk};
ghost use Rattle.ac_cloud.specs.Cloud.CloudWorld.{providers_of, root_lists_of};
ghost use Rattle.ac_fill.specs.Found.{AreBrought, AreSplit, AreSums, IsAdded};

use ac_base::NoMemory;
use ac_cloud::Cloud;
use std::alloc::Global;

// Adds a number at each root of a list.
fn add_at(sums: &mut [u128], roots: &[u32], number: u128)
    ensures { IsAdded sums.old roots.now number sums.new }
{
    for root in roots {
        let at = *root as usize;
        if at < sums.len() {
            sums[at] = sums[at].saturating_add(number);
        }
    }
}

// Adds the sum of each list of roots at each of its roots.
fn add_lists(sums: &mut [u128], lists: &[Vec<u32>], of_lists: &[u128])
    requires { length of_lists.now ≡ length lists.now }
    ensures { AreBrought sums.old (map (λ v. v.items) lists.now) of_lists.now sums.new }
{
    for (k, roots) in lists.iter().enumerate() {
        add_at(sums, roots, of_lists[k]);
    }
}

// What the providers of each list of roots have together. What those have that have no list is added at their own root.
fn sums_by_list(
    alloc: Global,
    cloud: &Cloud,
    numbers: &[u64],
    sums: &mut [u128],
) -> Result<Vec<u128>, NoMemory>
    requires numbers { length numbers.now ≡ length (providers_of cloud.now) }
    requires sums { length sums.old ≡ length (providers_of cloud.now) }
    requires none { (r : ℕ) → slice_index sums.old r ≡ 0 }
    ensures count { IfOk result (λ of. length of.items ≡ length (root_lists_of cloud.now)) }
    ensures split { IfOk result (λ of. AreSplit (providers_of cloud.now) numbers.now
        (root_lists_of cloud.now) of.items sums.new) }
{
    let mut of_lists = vec![in alloc; 0u128; cloud.root_lists().len()]?;
    for ix in 0..cloud.len() {
        let number = u128::from(numbers[ix as usize]);
        match cloud.root_list(ix) {
            Some(list) => {
                of_lists[list as usize] = of_lists[list as usize].saturating_add(number);
            }
            None => add_at(sums, cloud.anchors(ix), number),
        }
    }
    Ok(of_lists)
}

// Adds what the providers of each root have together, where nothing is added yet.
fn add_all(alloc: Global, cloud: &Cloud, numbers: &[u64], sums: &mut [u128]) -> Result<(), NoMemory>
    requires numbers { length numbers.now ≡ length (providers_of cloud.now) }
    requires sums { length sums.old ≡ length (providers_of cloud.now) }
    requires none { (r : ℕ) → slice_index sums.old r ≡ 0 }
    ensures { OnOk result (AreSums (providers_of cloud.now) numbers.now sums.new) }
{
    let of_lists = sums_by_list(alloc, cloud, numbers, sums)?;
    add_lists(sums, cloud.root_lists(), &of_lists);
    Ok(())
}

/// What the providers of each root have together. It goes once over the providers, and once over each list of roots, however many
/// providers have it.
pub(crate) fn sums_by_root(
    alloc: Global,
    cloud: &Cloud,
    numbers: &[u64],
) -> Result<Vec<u128>, NoMemory>
    requires { length numbers.now ≡ length (providers_of cloud.now) }
    ensures count { IfOk result (λ sums. length sums.items ≡ length (providers_of cloud.now)) }
    ensures sums { IfOk result (λ v. AreSums (providers_of cloud.now) numbers.now v.items) }
{
    let mut sums = vec![in alloc; 0u128; cloud.len() as usize]?;
    add_all(alloc, cloud, numbers, &mut sums)?;
    Ok(sums)
}
