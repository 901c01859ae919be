//! The cloud of a draft.
ghost use Rattle.std.specs.Prelude.{◌≡◌, ◌≤◌, ◌++◌, ◌∷◌, List, [], length, map, IfOk};
ghost use Rattle.std.specs.List.{sum_by};
ghost use Rattle.std.specs.Option.{option_and_then};
ghost use Rattle.ac_cloud.specs.Cloud.CloudWorld.{sizes_of, world_of};
ghost use Rattle.ac_cloud.specs.Cloud.Places.{rank};
ghost use Rattle.ac_cloud.specs.ListsOf.{lists_of};
ghost use Rattle.ac_change.specs.Changes.{counted, sizes_told, world_told};
ghost use Rattle.ac_change.specs.Columns.{AreColumns};
ghost use Rattle.ac_change.specs.Copies.{AreListed};
ghost use Rattle.ac_change.specs.Drafts.{AreWhole, all_held};
ghost use Rattle.ac_change.specs.declared.draft.held.Held.{Held as HeldShown};

use crate::draft::Draft;
use crate::draft::held::Held;
use ac_base::{Id, NoMemory, TraitName};
use ac_cloud::cloud::build::Parts;
use ac_cloud::cloud::roots::find_tops;
use ac_cloud::{Cloud, Counts, Entry, Ids, Lists};
use std::alloc::{AllocError, Global};

// What all providers have, list by list.
#[derive(Drop)]
struct Columns {
    entries: Lists<Entry>,
    traits: Lists<TraitName>,
    aggregates: Lists<Id>,
    names: Lists<u8>,
}

// The places of the parents.
fn find_parents(alloc: Global, ids: &Ids, list: &[Held]) -> Result<Vec<Option<u32>>, AllocError>
    ensures { IfOk result (λ parents. parents.items
        ≡ map (λ h. option_and_then (rank ids.now.ids.items) h.parent) list.now) }
{
    let mut parents = Vec::new(alloc);
    for held in list {
        parents.push(find_parent(ids, held.parent))?;
    }
    Ok(parents)
}

// The place of a parent.
fn find_parent(ids: &Ids, parent: Option<Id>) -> Option<u32>
    ensures { result ≡ option_and_then (rank ids.now.ids.items) parent }
{
    // Called for what it ensures: a place fits a u32.
    let _count = ids.len();
    let place = ids.find(parent?)?;
    Some(place as u32)
}

// The ids, which are listed in their order.
fn find_ids(alloc: Global, list: &[Held]) -> Result<Vec<Id>, AllocError>
    ensures { IfOk result (λ ids. ids.items ≡ map (λ h. h.id) list.now) }
{
    let mut ids = Vec::new(alloc);
    for held in list {
        ids.push(held.id)?;
    }
    Ok(ids)
}

// The places of so many providers, each of them its turn.
fn places(alloc: Global, count: usize) -> Result<Vec<u32>, AllocError>
    requires { count ≤ 65536 }
    ensures { IfOk result (λ turns. length turns.items ≡ count) }
{
    let mut turns = Vec::new(alloc);
    for place in 0..count {
        turns.push(place as u32)?;
    }
    Ok(turns)
}

// The ids of providers, by their places.
pub(super) fn ids_of(alloc: Global, list: &[Held]) -> Result<Ids, AllocError>
    requires { AreWhole list.now }
    ensures { IfOk result (λ ids. AreListed list.now ids.ids.items) }
{
    let ids = find_ids(alloc, list)?;
    let turns = places(alloc, ids.len())?;
    let ids = Ids::new(alloc, ids, turns)?;
    Ok(ids)
}

impl Columns {
    // None yet.
    fn new(alloc: Global) -> Result<Columns, AllocError>
        ensures { IfOk result (λ new. AreColumns [] new) }
    {
        Ok(Columns {
            entries: Lists::new(alloc)?,
            traits: Lists::new(alloc)?,
            aggregates: Lists::new(alloc)?,
            names: Lists::new(alloc)?,
        })
    }

    // With one provider more.
    fn with(mut self, held: Held) -> Result<Columns, AllocError>
        ensures { IfOk result (λ new. (before : List HeldShown) → AreColumns before self
            → AreColumns (before ++ held ∷ []) new) }
    {
        let Held {
            mut name,
            mut entries,
            mut traits,
            mut aggregates,
            ..
        } = held;
        self.entries.append(&mut entries)?;
        self.traits.append(&mut traits)?;
        self.aggregates.append(&mut aggregates)?;
        self.names.append(&mut name)?;
        Ok(self)
    }

    // Of all providers.
    fn of(alloc: Global, list: Vec<Held>) -> Result<Columns, AllocError>
        ensures { IfOk result (λ new. AreColumns list.items new) }
    {
        let mut columns = Columns::new(alloc)?;
        for held in list {
            columns = columns.with(held)?;
        }
        Ok(columns)
    }
}

// A count as it is told.
fn counted(count: usize) -> u32
    ensures { result ≡ counted count }
{
    if count < 4_294_967_296 {
        count as u32
    } else {
        4_294_967_295
    }
}

impl Draft {
    // The cloud of these providers.
    pub(crate) fn build(self, alloc: Global) -> Result<Cloud, NoMemory>
        ensures { IfOk result (λ cloud. world_of cloud ≡ world_told (all_held self.list.items)) }
    {
        let Draft { list } = self;
        let ids = ids_of(alloc, &list)?;
        let parents = find_parents(alloc, &ids, &list)?;
        let roots = find_tops(alloc, &parents)?;
        let Columns {
            entries,
            traits,
            aggregates,
            names,
        } = Columns::of(alloc, list)?;
        let counts = Counts {
            providers: ids.len() as u32,
            inventories: counted(entries.count()),
            usages: counted(entries.count()),
            traits: counted(traits.count()),
            aggregates: counted(aggregates.count()),
        };
        Ok(Cloud::build(
            alloc,
            Parts {
                ids,
                parents,
                roots,
                entries,
                traits,
                aggregates,
                names,
                counts,
            },
        )?)
    }
}
