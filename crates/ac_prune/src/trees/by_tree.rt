//! Places by tree, by grove, or by part of the forest, of which the next one of a tree is found by binary search.

ghost use Rattle.std.specs.Prelude.{◌≡◌, ◌+◌, ◌-◌, ◌*◌, ◌<◌, ◌≤◌, ◌^◌, ◌++◌, ◌||◌, ℕ, List, true, false, length, map, IfOk, slice_index};
ghost use Rattle.std.specs.List.{All, list_any};
ghost use Rattle.ac_cloud.specs.Cloud.CloudWorld.{providers_of, root_lists_of};
ghost use Rattle.ac_cloud.specs.World.{Provider, is_available_at};
ghost use Rattle.ac_prune.specs.Trees.Keys.{key_of, is_there, IsLeastFrom, IsNextIn};

use crate::trees::groves::{Groves, grove_of};
use crate::tuning::MOST_PAIRS;
use ac_base::NoMemory;
use ac_cloud::Cloud;
use std::alloc::Global;

/// Places of choices, each under the number of a tree, a grove or a part, of which the next one under a number is found by binary
/// search.
#[derive(Drop)]
pub(crate) struct Places {
    // A tree, a grove or a part, and a place in it as one number; rising.
    keys: Vec<u64>,
    // Where to look first: by tree, grove or part, the first key under it or a later one. What is found there is checked.
    first: Vec<usize>,
    // How many choices there are.
    pub(crate) count: usize,
    ghost rising: { (i j : ℕ) → i ≤ j → j < length keys.items → slice_index keys.items i ≤ slice_index keys.items j },
    ghost few: { count ≤ 65536 },
}

// A tree and a place as one number, so that places are in order tree by tree.
fn key(tree: u32, place: usize) -> u64
    requires { place < 2 ^ 32 }
    ensures { result ≡ key_of tree place }
{
    u64::from(tree) * 4_294_967_296 + place as u64
}

// Adds a place under each of some trees or groves.
fn push_keys(keys: &mut Vec<u64>, numbers: &[u32], place: usize) -> Result<(), NoMemory>
    requires { place < 2 ^ 32 }
    ensures { IfOk result (λ _. keys.new.items
        ≡ keys.old.items ++ map (λ r. key_of r place) numbers.now) }
{
    for number in numbers {
        keys.push(key(*number, place))?;
    }
    Ok(())
}

// Whether of some numbers those before a place are below a bound, and the one at the place isn't.
fn begins_at(numbers: &[u64], bound: u64, at: usize) -> bool
    ensures within { result ≡ true → at ≤ length numbers.now }
    ensures below { result ≡ true → 0 < at → slice_index numbers.now (at - 1) < bound }
    ensures above { result ≡ true → at < length numbers.now → bound ≤ slice_index numbers.now at }
{
    if at > numbers.len() {
        return false;
    }
    if at > 0 && numbers[at - 1] >= bound {
        return false;
    }
    at == numbers.len() || numbers[at] >= bound
}

// The least of some numbers from a bound on; the greatest of all where there is none. It may stand at a place that is guessed.
fn least_from(numbers: &[u64], bound: u64, guess: usize) -> u64
    requires { (i j : ℕ) → i ≤ j → j < length numbers.now
        → slice_index numbers.now i ≤ slice_index numbers.now j }
    ensures { IsLeastFrom numbers.now bound result }
{
    if begins_at(numbers, bound, guess) {
        if guess < numbers.len() {
            return numbers[guess];
        }
        return u64::MAX;
    }
    match numbers.binary_search(&bound) {
        Ok(_) => bound,
        Err(at) if at < numbers.len() => numbers[at],
        Err(_) => u64::MAX,
    }
}

// By tree, or part, where the keys under it or a later one begin, up to the last that has some; the keys rise.
fn first_keys(alloc: Global, keys: &[u64]) -> Result<Vec<usize>, NoMemory> {
    let mut first = Vec::new(alloc);
    for (at, key) in keys.iter().enumerate() {
        let tree = (*key >> 32) as usize;
        if first.len() <= tree {
            first.resize(tree.saturating_add(1), at)?;
        }
    }
    Ok(first)
}

impl Places {
    ghost use Rattle.ac_prune.specs.Trees.{AreGroves, IsByGrove, IsByPart, IsByTree};

    // The places of so many choices, by their keys in any order.
    fn of_keys(alloc: Global, keys: Vec<u64>, count: usize) -> Result<Places, NoMemory>
        requires { count ≤ 65536 }
        ensures count { IfOk result (λ places. places.count ≡ count) }
        ensures kept { IfOk result (λ places. (x : ℕ) → is_there keys.items x ≡ true
            → is_there places.keys.items x ≡ true) }
    {
        let mut keys = keys;
        keys.sort_unstable();
        let first = first_keys(alloc, &keys)?;
        Ok(Places { keys, first, count })
    }

    // Where the keys under a tree, or a part, or a later one begin.
    fn first_of(&self, tree: usize) -> usize {
        match self.first.get(tree) {
            Some(at) => *at,
            None => self.keys.len(),
        }
    }

    // Where the least key from one on may stand: among those under its tree, or behind them.
    fn guess(&self, tree: u32, bound: u64) -> usize {
        let first = self.first_of(tree as usize);
        let end = self.first_of(tree as usize + 1);
        match self.keys.get(first..end) {
            Some(own) => first.saturating_add(own.partition_point(|key| *key < bound)),
            None => end,
        }
    }

    /// The places of some choices by their parts of the forest, a number for each provider.
    pub(crate) fn by_part(alloc: Global, choices: &[u32], parts: &[u32]) -> Result<Places, NoMemory>
        requires few { length choices.now ≤ 65536 }
        requires providers { All (λ p. p < length parts.now) choices.now }
        ensures { IfOk result (λ places. IsByPart choices.now parts.now places) }
    {
        let mut keys = Vec::new(alloc);
        for (place, ix) in choices.iter().enumerate() {
            keys.push(key(parts[*ix as usize], place))?;
        }
        let places = Places::of_keys(alloc, keys, choices.len())?;
        Ok(places)
    }

    /// The places of some choices by grove, by the groves of each provider.
    pub(crate) fn by_grove(
        alloc: Global,
        of_providers: &[Vec<u32>],
        choices: &[u32],
    ) -> Result<Places, NoMemory>
        requires few { length choices.now ≤ 65536 }
        requires providers { All (λ p. p < length of_providers.now) choices.now }
        ensures { IfOk result (λ places. IsByGrove of_providers.now choices.now places) }
    {
        let mut keys = Vec::new(alloc);
        for (place, ix) in choices.iter().enumerate() {
            push_keys(&mut keys, &of_providers[*ix as usize], place)?;
        }
        let places = Places::of_keys(alloc, keys, choices.len())?;
        Ok(places)
    }

    /// The least place from one on in a tree, or in a part; past the end where there is none.
    pub(crate) fn next_in(&self, tree: u32, from: usize) -> usize
        requires { from ≤ self.now.count }
        ensures { IsNextIn self.now.keys.items self.now.count tree from result }
    {
        let bound = key(tree, from);
        let least = least_from(&self.keys, bound, self.guess(tree, bound)) - key(tree, 0);
        least.min(self.count as u64) as usize
    }

    /// The places of some choices by tree, or by grove where they would be too many pairs.
    #[tactic(auto, using(crate::proofs::Roots::TreeLemmas::few_providers))]
    pub(crate) fn by_tree(
        alloc: Global,
        cloud: &Cloud,
        groves: &Groves,
        choices: &[u32],
    ) -> Result<Places, NoMemory>
        requires groves { AreGroves (root_lists_of cloud.now) groves.now }
        requires few { length choices.now ≤ length (providers_of cloud.now) }
        requires providers { All (λ p. p < length (providers_of cloud.now)) choices.now }
        ensures { IfOk result (λ places. IsByTree (providers_of cloud.now) choices.now
            groves.now.of_roots.items places) }
    {
        let mut pairs = 0u64;
        for ix in choices {
            pairs = pairs.saturating_add(cloud.anchors(*ix).len() as u64);
        }
        // Of how many trees a choice may be, to be kept in each: of any number, or of one.
        let most = if pairs <= MOST_PAIRS { usize::MAX } else { 1 };
        let mut keys = Vec::new(alloc);
        for (place, ix) in choices.iter().enumerate() {
            push_keys(&mut keys, groves.numbers(cloud, *ix, most), place)?;
        }
        let places = Places::of_keys(alloc, keys, choices.len())?;
        Ok(places)
    }

    /// The least place from one on whose choice may be available in one of some trees, by the grove of each; past the end where
    /// there is none.
    pub(crate) fn next_at(&self, groves: &[u32], trees: &[u32], from: usize) -> usize
        requires { from ≤ self.now.count }
        ensures kept { from ≤ result }
        ensures within { result ≤ self.now.count }
        ensures there { result < self.now.count
            → list_any (λ r. is_there self.now.keys.items (key_of r result)
            || is_there self.now.keys.items (key_of (slice_index groves.now r) result)) trees.now
            ≡ true }
        ensures passed { (all : List Provider) (choices : List ℕ)
            → IsByTree all choices groves.now self.now
            → (r i : ℕ) → is_there trees.now r ≡ true → r < length all → from ≤ i → i < result
            → is_available_at all (slice_index choices i) r ≡ false }
    {
        let mut least = self.count;
        for tree in trees {
            let in_tree = self.next_in(*tree, from);
            let in_grove = self.next_in(grove_of(groves, *tree), from);
            least = least.min(in_tree).min(in_grove);
        }
        least
    }

    /// The least place from one on in some groves; past the end where there is none.
    pub(crate) fn next_among(&self, groves: &[u32], from: usize) -> usize
        requires { from ≤ self.now.count }
        ensures kept { from ≤ result }
        ensures within { result ≤ self.now.count }
        ensures there { result < self.now.count
            → list_any (λ g. is_there self.now.keys.items (key_of g result)) groves.now ≡ true }
        ensures passed { (i : ℕ) → from ≤ i
            → list_any (λ g. is_there self.now.keys.items (key_of g i)) groves.now ≡ true
            → result ≤ i }
    {
        let mut least = self.count;
        for grove in groves {
            least = least.min(self.next_in(*grove, from));
        }
        least
    }
}
