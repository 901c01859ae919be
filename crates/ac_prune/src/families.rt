//! The lists of `same_subtree`: which slots each names, and in which parts of the forest their providers stand together.

ghost use Rattle.std.specs.Prelude.{◌≡◌, ◌<◌, ◌≤◌, List, [], true, false, length, map, get_or, slice_index, slice_index_or, IfOk};
ghost use Rattle.ac_prune.specs.Trees.{IsByPart, AreByPart};
ghost use Rattle.std.specs.List.{All};
ghost use Rattle.ac_query.specs.Asked.{Asked, slots_of, lists_suffix};
ghost use Rattle.ac_query.specs.Shown.Queries.{asked_of};
ghost use Rattle.ac_cloud.specs.World.{Provider};
ghost use Rattle.ac_rules.specs.Placed.{slot_at};
ghost use Rattle.ac_prune.specs.Left.Accounts.{providers_in, asked_in};

pub mod parts;

use crate::choices::Choices;
use crate::families::parts::parts_of;
use crate::front::Front;
use crate::look_ahead::LookAhead;
use crate::trees::by_tree::Places;
use crate::tuning::MOST_PLACES;
use ac_base::NoMemory;
use ac_query::Query;
use ac_rules::slots::{count_slots, is_listed};
use std::alloc::Global;

/// A list of `same_subtree`.
#[derive(Drop)]
pub(crate) struct Family {
    // For each slot whether the list names it.
    named: Vec<bool>,
    // The first slot that the list names; past the end where it names none.
    first: usize,
    // For each provider its part.
    parts: Vec<u32>,
    // For each slot that is named the places of its choices by part, where they aren't too many; none of the others.
    places: Vec<Places>,
}

// For each slot whether a list names it.
fn named_slots(alloc: Global, query: &Query, k: usize) -> Result<Vec<bool>, NoMemory>
    requires { k < length (asked_of query.now).subtrees }
    ensures { IfOk result (λ named. named.items
        ≡ map (λ s. lists_suffix (get_or (asked_of query.now).subtrees k []) s.suffix)
        (slots_of (asked_of query.now))) }
{
    let mut named = Vec::new(alloc);
    for s in 0..count_slots(query) {
        named.push(is_listed(query, k, s))?;
    }
    Ok(named)
}

// The first place that is marked; past the end where there is none.
fn first_marked(marks: &[bool]) -> usize
    ensures { result < length marks.now → slice_index_or marks.now result false ≡ true }
{
    for (place, mark) in marks.iter().enumerate() {
        if *mark {
            return place;
        }
    }
    marks.len()
}

// The places of a slot's choices by part, where they are wanted; none otherwise.
fn places_of(alloc: Global, wanted: bool, list: &[u32], parts: &[u32]) -> Result<Places, NoMemory>
    requires few { length list.now ≤ 65536 }
    requires providers { All (λ p. p < length parts.now) list.now }
    ensures { IfOk result (λ places. IsByPart list.now parts.now places) }
{
    if wanted {
        Places::by_part(alloc, list, parts)
    } else {
        Places::by_part(alloc, &[], parts)
    }
}

// The places of each slot's choices by part, where these aren't too many.
#[tactic(auto, using(crate::proofs::Roots::TreeLemmas::few_providers))]
fn all_places(
    alloc: Global,
    choices: &Choices,
    named: &[bool],
    parts: &[u32],
) -> Result<Vec<Places>, NoMemory>
    requires named { length named.now ≡ length (slots_of (asked_in choices.now.ledger.now)) }
    requires parts { length parts.now ≡ length (providers_in choices.now.ledger.now) }
    ensures { IfOk result (λ all. AreByPart (providers_in choices.now.ledger.now)
        (asked_in choices.now.ledger.now) parts.now all.items) }
{
    let mut count = 0usize;
    for (slot, is_named) in named.iter().enumerate() {
        if *is_named {
            count = count.saturating_add(choices.of_slot(slot).len());
        }
    }
    let few = count <= MOST_PLACES;
    let mut all = Vec::new(alloc);
    for (s, is_named) in named.iter().enumerate() {
        all.push(places_of(alloc, few && *is_named, choices.of_slot(s), parts)?)?;
    }
    Ok(all)
}

impl Family {
    ghost use Rattle.ac_prune.specs.Families.{IsFamily};

    /// The list at a place, by the choices of all slots.
    pub(crate) fn new(alloc: Global, choices: &Choices, k: usize) -> Result<Family, NoMemory>
        requires { k < length (asked_in choices.now.ledger.now).subtrees }
        ensures { IfOk result (λ family. IsFamily (providers_in choices.now.ledger.now)
            (asked_in choices.now.ledger.now) family) }
    {
        let parts = parts_of(alloc, choices, k)?;
        let named = named_slots(alloc, choices.ledger.query, k)?;
        let first = first_marked(&named);
        let places = all_places(alloc, choices, &named, &parts)?;
        Ok(Family {
            named,
            first,
            parts,
            places,
        })
    }
}

impl LookAhead for Family {
    ghost use Rattle.ac_prune.specs.Families.{IsFamily};

    ghost is_of = { IsFamily };

    // The next choice in the part of the path, where the list names the slot and one before it.
    fn next(&self, front: &Front, from: usize) -> usize {
        let s = front.path.len();
        if !self.named[s] || self.first >= s {
            return from;
        }
        let part = self.parts[front.path[self.first] as usize];
        let places = &self.places[s];
        if from < places.count {
            // A choice in that part is the next one: no need to search.
            if self.parts[front.choices[from] as usize] == part {
                return from;
            }
            places.next_in(part, from)
        } else {
            from
        }
    }

    // Whether the provider can stand with those of the path that the list names.
    fn may_follow(&self, front: &Front, provider: u32) -> bool {
        let s = front.path.len();
        if !self.named[s] {
            return true;
        }
        let part = self.parts[provider as usize];
        if self.first < s {
            let other = self.parts[front.path[self.first] as usize];
            return part == other;
        }
        (part as usize) < self.parts.len()
    }
}
