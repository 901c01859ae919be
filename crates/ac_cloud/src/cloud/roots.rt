//! Where the chains of parents lead, for all places of a forest at once.
ghost use Rattle.std.specs.Prelude.{◌≡◌, ◌≤◌, ◌<◌, ◌%◌, ℕ, length, get_or, IfOk};
ghost use Rattle.ac_cloud.specs.Trees.{climb, up, top};
ghost use Rattle.ac_cloud.specs.Cloud.Places.{parent_in, along, AreParents, ArePlaces};

use std::alloc::{AllocError, Global};

// One step from each place, where the number of steps that are left is odd.
fn follow_odd(mut places: Vec<u32>, step: &[u32], left: usize) -> Vec<u32>
    requires { ArePlaces (length step.now) places.items }
    ensures length { length result.items ≡ length places.items }
    ensures places { (i : ℕ) → i < length places.items
        → get_or result.items i 0 ≡ climb (along step.now) (left % 2) (get_or places.items i 0) }
{
    if left % 2 == 0 {
        return places;
    }
    for i in 0..places.len() {
        places[i] = step[places[i] as usize];
    }
    places
}

// Two steps at once.
fn doubled(alloc: Global, step: &[u32]) -> Result<Vec<u32>, AllocError>
    requires { ArePlaces (length step.now) step.now }
    ensures length { IfOk result (λ twice. length twice.items ≡ length step.now) }
    ensures steps { IfOk result (λ twice. (i : ℕ) → i < length step.now
        → get_or twice.items i 0 ≡ get_or step.now (get_or step.now i 0) 0) }
{
    let mut twice = Vec::new(alloc);
    for &place in step {
        twice.push(step[place as usize])?;
    }
    Ok(twice)
}

// One step up from each place: who has no parent stays.
fn steps_up(alloc: Global, parents: &[Option<u32>]) -> Result<Vec<u32>, AllocError>
    requires few { length parents.now ≤ 65536 }
    requires known { AreParents parents.now }
    ensures length { IfOk result (λ step. length step.items ≡ length parents.now) }
    ensures steps { IfOk result (λ step. (i : ℕ) → i < length parents.now
        → get_or step.items i 0 ≡ up (parent_in parents.now) i) }
{
    let mut step = Vec::new(alloc);
    for i in 0..parents.len() {
        step.push(parents[i].unwrap_or(i as u32))?;
    }
    Ok(step)
}

fn identity(alloc: Global, count: usize) -> Result<Vec<u32>, AllocError>
    requires { count ≤ 65536 }
    ensures length { IfOk result (λ all. length all.items ≡ count) }
    ensures places { IfOk result (λ all. (i : ℕ) → i < count → get_or all.items i 0 ≡ i) }
{
    let mut all = Vec::new(alloc);
    for i in 0..count {
        all.push(i as u32)?;
    }
    Ok(all)
}

/// Where each place's chain of parents has led after as many steps as there are places, by steps that double: n log n,
/// whatever the order of the places.
#[tactic(auto, using(crate::proofs::Trees::StepsUp::steps_inside, crate::proofs::Trees::StepsUp::climb_list))]
pub fn find_tops(alloc: Global, parents: &[Option<u32>]) -> Result<Vec<u32>, AllocError>
    requires few { length parents.now ≤ 65536 }
    requires known { AreParents parents.now }
    ensures length { IfOk result (λ tops. length tops.items ≡ length parents.now) }
    ensures tops { IfOk result (λ tops. (i : ℕ) → i < length parents.now
        → get_or tops.items i 0 ≡ top (parent_in parents.now) (length parents.now) i) }
{
    let mut step = steps_up(alloc, parents)?;
    let mut places = identity(alloc, parents.len())?;
    let mut left = parents.len();
    while left > 0 {
        places = follow_odd(places, &step, left);
        step = doubled(alloc, &step)?;
        left /= 2;
    }
    Ok(places)
}
