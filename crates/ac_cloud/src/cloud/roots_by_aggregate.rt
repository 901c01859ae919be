//! The roots of the providers of each aggregate.
ghost use Rattle.std.specs.Prelude.{◌==◌, ◌||◌, ◌&&◌, ◌≡◌, ◌<◌, ℕ, None, false, if◌then◌else◌, map, length, IfOk};
ghost use Rattle.std.specs.List.{list_any};
ghost use Rattle.std.specs.List.Sorted.{IsStrictlySortedBy};
ghost use Rattle.std.specs.Ordering.{nat_cmp};
ghost use Rattle.std.specs.BTreeMap.{get, is_at};
ghost use Rattle.ac_cloud.specs.Cloud.Anchors.{roots_in, is_met, is_among, meets, is_lone, wide, shared_ids, asked_at, list_of};
ghost use Rattle.ac_cloud.specs.ListsOf.{lists_of};

use crate::cloud::distinct_roots::distinct;
use crate::lists::Lists;
use ac_base::Id;
use std::alloc::{AllocError, Global};
use std::collections::BTreeMap;

// The roots of the providers of each aggregate, in the order in which they were gathered.
#[derive(Drop)]
pub(crate) struct Groups {
    pub(crate) map: BTreeMap<Id, Vec<u32>>,
}

impl Groups {
    fn new(alloc: Global) -> Groups
        ensures { (a r : ℕ) → is_met result.map a r ≡ false }
    {
        Groups {
            map: BTreeMap::new(alloc),
        }
    }

    // What was gathered of an aggregate, taken out.
    fn take(&mut self, alloc: Global, aggregate: Id) -> Vec<u32>
        ensures taken { result.items ≡ roots_in (get nat_cmp self.old.map aggregate) }
        ensures rest { (q : ℕ) → get nat_cmp self.new.map q
            ≡ (if is_at (nat_cmp aggregate) q then None else get nat_cmp self.old.map q) }
    {
        match self.map.remove(&aggregate) {
            Some(roots) => roots,
            None => Vec::new(alloc),
        }
    }

    // Adds a root to those of an aggregate.
    fn with(self, alloc: Global, aggregate: Id, root: u32) -> Result<Groups, AllocError>
        ensures { IfOk result (λ new. (a r : ℕ) → is_met new.map a r
            ≡ (is_met self.map a r || ((root == r) && (aggregate == a)))) }
    {
        let mut groups = self;
        let roots = groups.take(alloc, aggregate);
        groups.map.insert(aggregate, with_root(roots, root)?)?;
        Ok(groups)
    }

    // Adds a root to those of each aggregate of a list.
    fn with_all(self, alloc: Global, aggregates: &[Id], root: u32) -> Result<Groups, AllocError>
        ensures { IfOk result (λ new. (a r : ℕ) → is_met new.map a r
            ≡ (is_met self.map a r || ((root == r) && is_among a aggregates.now))) }
    {
        let mut groups = self;
        for aggregate in aggregates {
            groups = groups.with(alloc, *aggregate, root)?;
        }
        Ok(groups)
    }

    // The root of each provider, at each of its aggregates.
    pub(crate) fn gather(
        alloc: Global,
        roots: &[u32],
        aggregates: &Lists<Id>,
    ) -> Result<Groups, AllocError>
        requires { length (lists_of aggregates.now) ≡ length roots.now }
        ensures { IfOk result (λ groups. (a r : ℕ)
            → is_met groups.map a r ≡ meets roots.now (lists_of aggregates.now)
            (length roots.now) a r) }
    {
        let mut groups = Groups::new(alloc);
        for place in 0..roots.len() {
            groups = groups.with_all(alloc, aggregates.of(place), roots[place])?;
        }
        Ok(groups)
    }

    // The roots that were gathered of an aggregate.
    fn roots(&self, aggregate: &Id) -> &[u32]
        ensures { result.now ≡ roots_in (get nat_cmp self.now.map aggregate.now) }
    {
        match self.map.get(aggregate) {
            Some(roots) => roots.as_slice(),
            None => &[],
        }
    }

    // Whether an aggregate is of one tree.
    fn is_lone(&self, aggregate: &Id) -> bool
        ensures { result ≡ is_lone (roots_in (get nat_cmp self.now.map aggregate.now)) }
    {
        self.roots(aggregate).len() == 1
    }

    // The aggregates of a list that have members in several trees.
    fn wide(&self, alloc: Global, ids: &[Id]) -> Result<Vec<Id>, AllocError>
        ensures { IfOk result (λ list. list.items ≡ wide self.now.map ids.now) }
    {
        ids.iter()
            .copied()
            .filter(|id| !self.is_lone(id))
            .collect(alloc)
    }

    // The aggregates through which each provider may share with another tree.
    pub(crate) fn ask(
        &self,
        alloc: Global,
        sharing: &[bool],
        aggregates: &Lists<Id>,
    ) -> Result<Vec<Vec<Id>>, AllocError>
        requires { length sharing.now ≡ length (lists_of aggregates.now) }
        ensures length { IfOk result (λ asked. length asked.items ≡ length sharing.now) }
        ensures each { IfOk result (λ asked. (j : ℕ) → j < length sharing.now
            → list_of asked.items j ≡ asked_at self.now.map sharing.now
            (lists_of aggregates.now) j) }
    {
        let mut asked = Vec::new(alloc);
        for place in 0..sharing.len() {
            let ids = shared_ids(sharing[place], aggregates.of(place));
            asked.push(self.wide(alloc, ids)?)?;
        }
        Ok(asked)
    }

    // The roots of all aggregates of a list, one list of them behind the other.
    fn list(&self, alloc: Global, aggregates: &[Id]) -> Result<Vec<u32>, AllocError>
        ensures { IfOk result (λ list. (r : ℕ) → list_any (λ x. x == r) list.items
            ≡ list_any (λ a. is_met self.now.map a r) aggregates.now) }
    {
        let mut list = Vec::new(alloc);
        for aggregate in aggregates {
            list.extend_from_slice(self.roots(aggregate))?;
        }
        Ok(list)
    }

    // The roots of all aggregates of a list, rising. They may be kept, so they take no more room than they need.
    pub(crate) fn join(&self, alloc: Global, aggregates: &[Id]) -> Result<Vec<u32>, AllocError>
        ensures rising { IfOk result (λ list. IsStrictlySortedBy nat_cmp list.items) }
        ensures roots { IfOk result (λ list. (r : ℕ)
            → list_any (λ x. x == r) list.items
            ≡ list_any (λ a. is_met self.now.map a r) aggregates.now) }
    {
        let list = self.list(alloc, aggregates)?;
        let mut list = distinct(alloc, list)?;
        list.shrink_to_fit();
        Ok(list)
    }
}

// Adds a root to a list, unless it is the last one there.
fn with_root(roots: Vec<u32>, root: u32) -> Result<Vec<u32>, AllocError>
    ensures { IfOk result (λ new. (r : ℕ) → list_any (λ x. x == r) new.items
        ≡ (list_any (λ x. x == r) roots.items || (root == r))) }
{
    let mut all = roots;
    let count = all.len();
    if count > 0 && all[count - 1] == root {
        return Ok(all);
    }
    all.push(root)?;
    Ok(all)
}

// A provider's aggregates, where it shares.
fn shared_ids(shares: bool, ids: &[Id]) -> &[Id]
    ensures { result.now ≡ shared_ids shares ids.now }
{
    if shares { ids } else { &[] }
}
