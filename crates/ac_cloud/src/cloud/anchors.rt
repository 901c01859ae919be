//! The roots of the trees in which each provider is available.
ghost use Rattle.std.specs.Prelude.{◌≡◌, ◌≤◌, ◌<◌, ◌+◌, ◌++◌, ◌∷◌, ℕ, true, false, None, Some, [], map, length, get_or, IfOk, IfSome};
ghost use Rattle.std.specs.Option.{is_some};
ghost use Rattle.ac_cloud.specs.Cloud.Anchors.{is_met, meets, is_joining, joined, list_of, list_items, is_marked, AreAsked, AreJoined, IsAlone};
ghost use Rattle.ac_cloud.specs.ListsOf.{lists_of};
ghost use Rattle.ac_cloud.specs.Cloud.Places.{ArePlaces};

use crate::cloud::kept_lists::Kept;
use crate::cloud::roots_by_aggregate::Groups;
use crate::lists::Lists;
use ac_base::Id;
use std::alloc::{AllocError, Global};
use std::collections::BTreeMap;

// The roots that each provider reaches who may share with another tree: a list for several of them where it is the same.
#[derive(Drop)]
pub(crate) struct Anchors {
    pub(crate) lists: Vec<Vec<u32>>,
    pub(crate) places: Vec<Option<u32>>,
}

// The place of the list of an earlier provider that shares through the same aggregates.
fn find_alike(
    known: &BTreeMap<&[Id], u32>,
    asked: &[Vec<Id>],
    places: &[Option<u32>],
    ids: &[Id],
) -> Option<u32>
    requires { length places.now ≤ length asked.now }
    ensures { IfSome result (λ k. (j : ℕ) × (j < length places.now)
        × (get_or places.now j None ≡ Some k) × (list_of asked.now j ≡ ids.now)) }
{
    let other = *known.get(ids)? as usize;
    if other < places.len() && asked[other].as_slice() == ids {
        places[other]
    } else {
        None
    }
}

// The providers' roots and aggregates, and the roots of each aggregate.
#[derive(Drop)]
struct Members<'a> {
    roots: &'a [u32],
    aggregates: &'a Lists<Id>,
    asked: &'a [Vec<Id>],
    groups: &'a Groups,
    ghost few: { length roots.now ≤ 65536 },
    ghost inside: { ArePlaces (length roots.now) roots.now },
    ghost sized: { length (lists_of aggregates.now) ≡ length roots.now },
    ghost asks: { length asked.now ≡ length roots.now },
    ghost gathered: { (a r : ℕ) → is_met groups.now.map a r ≡ meets roots.now (lists_of aggregates.now) (length roots.now) a r },
}

impl<'a> Members<'a> {
    // The roots of the providers of some aggregates, rising.
    fn join(&self, alloc: Global, ids: &[Id]) -> Result<Vec<u32>, AllocError>
        ensures { IfOk result (λ list. list.items
            ≡ joined self.now.roots.now (lists_of self.now.aggregates.now) ids.now) }
    {
        let list = self.groups.join(alloc, ids)?;
        Ok(list)
    }

    // The place of the list of some aggregates, which is kept unless it is there.
    fn find_list(
        &self,
        alloc: Global,
        kept: Kept,
        alike: Option<u32>,
        ids: &[Id],
    ) -> Result<(Kept, u32), AllocError>
        requires few { length kept.lists.items < 65536 }
        requires alike { IfSome alike (λ k. (k < length kept.lists.items)
            × (list_of kept.lists.items k ≡ joined self.now.roots.now
            (lists_of self.now.aggregates.now) ids.now)) }
        ensures grown { IfOk result (λ new. length new.0.lists.items
            ≤ length kept.lists.items + 1) }
        ensures rest { IfOk result (λ new. length kept.lists.items ≤ length new.0.lists.items) }
        ensures inside { IfOk result (λ new. new.1 < length new.0.lists.items) }
        ensures here { IfOk result (λ new. list_of new.0.lists.items new.1
            ≡ joined self.now.roots.now (lists_of self.now.aggregates.now) ids.now) }
        ensures stay { IfOk result (λ new. (k : ℕ) → k < length kept.lists.items
            → list_of new.0.lists.items k ≡ list_of kept.lists.items k) }
    {
        match alike {
            Some(place) => Ok((kept, place)),
            None => {
                let list = self.join(alloc, ids)?;
                kept.keep(list)
            }
        }
    }

    // The place of the list of one more provider, where it has one.
    fn find_next(
        &self,
        alloc: Global,
        kept: Kept,
        known: &BTreeMap<&[Id], u32>,
        places: &[Option<u32>],
    ) -> Result<(Kept, Option<u32>), AllocError>
        requires more { length places.now < length self.now.roots.now }
        requires few { length kept.lists.items ≤ length places.now }
        requires joined { AreAsked self.now.roots.now (lists_of self.now.aggregates.now)
            (map list_items self.now.asked.now) kept.lists.items places.now }
        ensures grown { IfOk result (λ new. length new.0.lists.items
            ≤ length kept.lists.items + 1) }
        ensures joined { IfOk result (λ new.
            AreAsked self.now.roots.now (lists_of self.now.aggregates.now)
            (map list_items self.now.asked.now) new.0.lists.items (places.now ++ new.1 ∷ [])) }
        ensures marked { IfOk result (λ new. is_some new.1
            ≡ is_joining true (list_of self.now.asked.now (length places.now))) }
    {
        let ids = self.asked[places.len()].as_slice();
        if ids.is_empty() {
            return Ok((kept, None));
        }
        let alike = find_alike(known, self.asked, places, ids);
        let (kept, place) = self.find_list(alloc, kept, alike, ids)?;
        Ok((kept, Some(place)))
    }
}

// The lists of all providers, where these aggregates are asked of each.
fn find_lists(alloc: Global, members: &Members) -> Result<Anchors, AllocError>
    ensures length { IfOk result (λ anchors.
        length anchors.places.items ≡ length members.now.roots.now) }
    ensures joined { IfOk result (λ anchors.
        AreAsked members.now.roots.now (lists_of members.now.aggregates.now)
        (map list_items members.now.asked.now) anchors.lists.items anchors.places.items) }
    ensures marked { IfOk result (λ anchors.
        (j : ℕ) → j < length members.now.roots.now
        → is_some (get_or anchors.places.items j None)
        ≡ is_joining true (list_of members.now.asked.now j)) }
{
    let mut kept = Kept::new(alloc);
    let mut places = Vec::new(alloc);
    let mut known = BTreeMap::new(alloc);
    for i in 0..members.roots.len() {
        let (more, place) = members.find_next(alloc, kept, &known, &places)?;
        kept = more;
        places.push(place)?;
        if place.is_some() {
            known.insert(members.asked[i].as_slice(), i as u32)?;
        }
    }
    Ok(Anchors {
        lists: kept.lists,
        places,
    })
}

// Whether some provider shares.
fn shares_any(sharing: &[bool]) -> bool
    ensures { result ≡ false → (j : ℕ) → get_or sharing.now j false ≡ false }
{
    sharing.contains(&true)
}

// No lists, for so many providers.
fn no_lists(alloc: Global, count: usize) -> Result<Anchors, AllocError>
    ensures length { IfOk result (λ anchors. length anchors.places.items ≡ count) }
    ensures none { IfOk result (λ anchors. (j : ℕ) → get_or anchors.places.items j None ≡ None) }
{
    Ok(Anchors {
        lists: Vec::new(alloc),
        places: vec![in alloc; None; count]?,
    })
}

// The lists of all providers.
#[tactic(auto, using(crate::proofs::Places::WideAggregates::asked_alone))]
pub(crate) fn find_anchors(
    alloc: Global,
    roots: &[u32],
    sharing: &[bool],
    aggregates: &Lists<Id>,
) -> Result<Anchors, AllocError>
    requires few { length roots.now ≤ 65536 }
    requires inside { ArePlaces (length roots.now) roots.now }
    requires sharing { length sharing.now ≡ length roots.now }
    requires aggregates { length (lists_of aggregates.now) ≡ length roots.now }
    ensures length { IfOk result (λ anchors. length anchors.places.items ≡ length roots.now) }
    ensures joined { IfOk result (λ anchors.
        AreJoined roots.now (lists_of aggregates.now) anchors.lists.items anchors.places.items) }
    ensures marked { IfOk result (λ anchors.
        (j : ℕ) → j < length roots.now → is_some (get_or anchors.places.items j None) ≡ true
        → is_marked sharing.now (lists_of aggregates.now) j ≡ true) }
    ensures alone { IfOk result (λ anchors. (j : ℕ) → j < length roots.now
        → is_some (get_or anchors.places.items j None) ≡ false
        → is_marked sharing.now (lists_of aggregates.now) j ≡ true
        → IsAlone roots.now (lists_of aggregates.now) j) }
{
    if !shares_any(sharing) {
        return no_lists(alloc, roots.len());
    }
    let groups = Groups::gather(alloc, roots, aggregates)?;
    let asked = groups.ask(alloc, sharing, aggregates)?;
    let members = Members {
        roots,
        aggregates,
        asked: &asked,
        groups: &groups,
    };
    let anchors = find_lists(alloc, &members)?;
    Ok(anchors)
}
