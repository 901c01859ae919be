//! Groves: trees to which the same lists of roots belong, so that a choice of many trees stands under a few numbers.

ghost use Rattle.std.specs.Prelude.{◌≡◌, ◌<◌, ◌||◌, ℕ, true, length, slice_index, IfOk};
ghost use Rattle.ac_cloud.specs.Cloud.CloudWorld.{providers_of, root_lists_of};
ghost use Rattle.ac_cloud.specs.World.{anchors_of, is_available_at};
ghost use Rattle.ac_prune.specs.Trees.{HaveGroves, HaveAllGroves, AreGroves};
ghost use Rattle.ac_prune.specs.Trees.Keys.{is_there};

use crate::tuning::{MOST_GROVES, MOST_PAIRS};
use ac_base::NoMemory;
use ac_cloud::Cloud;
use std::alloc::Global;

/// The groves of a cloud: trees of which each list of roots has all or none are one grove, mostly.
#[derive(Drop)]
pub(crate) struct Groves {
    // By the place of a root the grove of its tree: a number past the places of all roots.
    pub(crate) of_roots: Vec<u32>,
    // For each list of roots the groves of its trees.
    pub(crate) of_lists: Vec<Vec<u32>>,
}

// Which list of roots was the last to split a grove, and into which grove its roots went.
#[derive(Clone, Copy)]
struct Split {
    list: usize,
    into: u32,
}

/// The grove of a tree; 0 past the last.
pub(crate) fn grove_of(of_roots: &[u32], root: u32) -> u32
    ensures { result ≡ slice_index of_roots.now root }
{
    match of_roots.get(root as usize) {
        Some(grove) => *grove,
        None => 0,
    }
}

// The grove into which a root of a list goes: a new one for all roots of the list that were in one grove, while there are few.
// Groves are numbered from a first one on, and each may have been split.
fn regroup(splits: &mut Vec<Split>, first: u32, grove: u32, list: usize) -> Result<u32, NoMemory> {
    let at = grove.saturating_sub(first) as usize;
    if at >= splits.len() {
        return Ok(grove);
    }
    if splits[at].list == list {
        return Ok(splits[at].into);
    }
    if splits.len() >= MOST_GROVES {
        return Ok(grove);
    }
    let into = first.saturating_add(splits.len() as u32);
    splits[at] = Split { list, into };
    splits.push(Split { list, into })?;
    Ok(into)
}

// The grove of each root: one of all, which is split list by list.
fn split_all(alloc: Global, cloud: &Cloud) -> Result<Vec<u32>, NoMemory> {
    let first = cloud.len();
    let mut of_roots = vec![in alloc; first; first as usize]?;
    let mut splits = Vec::new(alloc);
    splits.push(Split {
        list: usize::MAX,
        into: first,
    })?;
    for (list, roots) in cloud.root_lists().iter().enumerate() {
        for root in roots {
            let at = *root as usize;
            if at < of_roots.len() {
                of_roots[at] = regroup(&mut splits, first, of_roots[at], list)?;
            }
        }
    }
    Ok(of_roots)
}

// Adds a grove to those of a list, unless it is among them. Where it stands is looked up by its number, and checked: it may be
// where it stands among those of an earlier list.
fn push_once(groves: &mut Vec<u32>, places: &mut Vec<usize>, grove: u32) -> Result<(), NoMemory>
    ensures kept { IfOk result (λ _. (x : ℕ) → is_there groves.old.items x ≡ true
        → is_there groves.new.items x ≡ true) }
    ensures there { IfOk result (λ _. is_there groves.new.items grove ≡ true) }
{
    let at = grove as usize;
    if places.len() <= at {
        places.resize(at + 1, 0)?;
    }
    let place = places[at];
    if place < groves.len() && groves[place] == grove {
        return Ok(());
    }
    places[at] = groves.len();
    Ok(groves.push(grove)?)
}

// The groves of the roots of a list, each once.
fn groves_of(
    alloc: Global,
    of_roots: &[u32],
    places: &mut Vec<usize>,
    list: &[u32],
) -> Result<Vec<u32>, NoMemory>
    ensures { IfOk result (λ groves. HaveGroves of_roots.now list.now groves.items) }
{
    let mut groves = Vec::new(alloc);
    for root in list {
        push_once(&mut groves, places, grove_of(of_roots, *root))?;
    }
    Ok(groves)
}

impl Groves {
    // The groves of the lists of roots, by those of the roots.
    fn of(alloc: Global, cloud: &Cloud, of_roots: Vec<u32>) -> Result<Groves, NoMemory>
        ensures { IfOk result (λ groves. AreGroves (root_lists_of cloud.now) groves) }
    {
        let mut places = Vec::new(alloc);
        let mut of_lists = Vec::new(alloc);
        for list in cloud.root_lists() {
            of_lists.push(groves_of(alloc, &of_roots, &mut places, list)?)?;
        }
        Ok(Groves { of_roots, of_lists })
    }

    // Whether few pairs of a provider and a grove are kept, where all providers are choices.
    fn are_few(&self, cloud: &Cloud) -> bool
        requires { AreGroves (root_lists_of cloud.now) self.now }
    {
        let mut pairs = 0u64;
        for ix in 0..cloud.len() {
            if let Some(list) = cloud.root_list(ix) {
                pairs = pairs.saturating_add(self.of_lists[list as usize].len() as u64);
            }
        }
        pairs <= MOST_PAIRS
    }

    /// The groves of a cloud; one of all its trees where there would be too many.
    pub(crate) fn new(alloc: Global, cloud: &Cloud) -> Result<Groves, NoMemory>
        ensures { IfOk result (λ groves. AreGroves (root_lists_of cloud.now) groves) }
    {
        let groves = Groves::of(alloc, cloud, split_all(alloc, cloud)?)?;
        if groves.are_few(cloud) {
            return Ok(groves);
        }
        let one = vec![in alloc; cloud.len(); cloud.len() as usize]?;
        Groves::of(alloc, cloud, one)
    }

    /// The numbers under which a choice stands: its trees or, where these are more than so many, their groves.
    pub(crate) fn numbers<'a>(&'a self, cloud: &'a Cloud, ix: u32, most: usize) -> &'a [u32]
        requires groves { AreGroves (root_lists_of cloud.now) self.now }
        requires choice { ix < length (providers_of cloud.now) }
        ensures { (r : ℕ) → r < length (providers_of cloud.now)
            → is_available_at (providers_of cloud.now) ix r ≡ true
            → is_there result.now r || is_there result.now (slice_index self.now.of_roots.items r)
            ≡ true }
    {
        let trees = cloud.anchors(ix);
        if trees.len() <= most {
            return trees;
        }
        match cloud.root_list(ix) {
            Some(list) => &self.of_lists[list as usize],
            None => trees,
        }
    }

    // The groves of a provider's trees.
    fn of_provider(
        &self,
        alloc: Global,
        cloud: &Cloud,
        places: &mut Vec<usize>,
        ix: u32,
    ) -> Result<Vec<u32>, NoMemory>
        requires groves { AreGroves (root_lists_of cloud.now) self.now }
        requires provider { ix < length (providers_of cloud.now) }
        ensures { IfOk result (λ groves. HaveGroves self.now.of_roots.items
            (anchors_of (providers_of cloud.now) ix) groves.items) }
    {
        match cloud.root_list(ix) {
            Some(list) => {
                let mut groves = Vec::new(alloc);
                groves.extend_from_slice(&self.of_lists[list as usize])?;
                Ok(groves)
            }
            None => groves_of(alloc, &self.of_roots, places, cloud.anchors(ix)),
        }
    }

    /// The groves of each provider's trees.
    pub(crate) fn of_providers(
        &self,
        alloc: Global,
        cloud: &Cloud,
    ) -> Result<Vec<Vec<u32>>, NoMemory>
        requires { AreGroves (root_lists_of cloud.now) self.now }
        ensures { IfOk result (λ all. HaveAllGroves (providers_of cloud.now)
            self.now.of_roots.items all.items) }
    {
        let mut places = Vec::new(alloc);
        let mut all = Vec::new(alloc);
        for ix in 0..cloud.len() {
            all.push(self.of_provider(alloc, cloud, &mut places, ix)?)?;
        }
        Ok(all)
    }
}
