//! What is wanting at each root in the slot that it lacks a provider for: who comes furthest there, and a class that nobody has.

ghost use Rattle.std.specs.Prelude.{◌≡◌, ◌<◌, ◌+◌, IfOk, Some, None, false, length, map, replicate, if◌then◌else◌};
ghost use Rattle.std.specs.List.{list_any, range_with_len};
ghost use Rattle.ac_base.specs.Names.{class_bytes};
ghost use Rattle.ac_cloud.specs.Cloud.CloudWorld.{providers_of};
ghost use Rattle.ac_query.specs.Asked.{slots_of};
ghost use Rattle.ac_query.specs.Shown.Groups.{need_entry};
ghost use Rattle.ac_query.specs.Shown.Queries.{asked_of};
ghost use Rattle.ac_rules.specs.Placed.{slot_at};
ghost use Rattle.ac_find.specs.Explained.{has_inventory};
ghost use Rattle.ac_find.specs.Furthest.{class_of_nobody, furthest, wantings};
ghost use Rattle.ac_find.specs.Lacking.{lacks_of};
ghost use Rattle.ac_find.specs.Missing.{somebody_there_has_class};
ghost use Rattle.ac_find.specs.Shown.Furthest.{AreClasses, AreFound, AreWanting, having, is_of_slot, place_in};

use crate::lacks::Lack;
use crate::lacks::ranks::{place_in, rank_roots};
use ac_base::{ClassName, NoMemory};
use ac_cloud::Cloud;
use ac_prune::limit;
use ac_query::{Need, Query};
use ac_rules::slots::{count_slots, needs_at};
use std::alloc::Global;

/// What is wanting in a slot at a root.
#[derive(Clone, Copy, Debug, PartialEq, Eq)]
pub struct Wanting {
    /// The provider, by its place, that comes furthest in the slot's tests of those available in the root's tree: it passes most
    /// of them, or as many and has most left of what is short.
    pub provider: Option<u32>,
    /// The first of the slot's classes, by its place, of which none of them has an inventory.
    pub class: Option<usize>,
}

// At which places they are that come so far.
fn places_in(alloc: Global, ranks: &[u128]) -> Result<Vec<Option<u32>>, NoMemory>
    ensures { IfOk result (λ places. places.items ≡ map place_in ranks.now) }
{
    let places = ranks.iter().map(|rank| place_in(*rank));
    Ok(places.collect(alloc)?)
}

// Who comes furthest in a slot at each root.
fn furthest_of_slot(
    alloc: Global,
    cloud: &Cloud,
    query: &Query,
    s: usize,
) -> Result<Vec<Option<u32>>, NoMemory>
    requires { s < length (slots_of (asked_of query.now)) }
    ensures { IfOk result (λ places. places.items
        ≡ map (furthest (providers_of cloud.now) (slot_at (asked_of query.now) s))
        (range_with_len 0 (length (providers_of cloud.now)))) }
{
    let ranks = rank_roots(alloc, cloud, query, s)?;
    places_in(alloc, &ranks)
}

// 1 for each provider that has an inventory of a class, and else 0.
#[tactic(auto, unfolding(crate::specs::Explained::has_inventory))]
fn having(alloc: Global, cloud: &Cloud, class: &ClassName) -> Result<Vec<u64>, NoMemory>
    ensures { IfOk result (λ rooms.
        rooms.items ≡ having (providers_of cloud.now) (class_bytes class.now)) }
{
    let rooms = (0..cloud.len()).map(|ix| u64::from(cloud.inventory(ix, class).is_some()));
    Ok(rooms.collect(alloc)?)
}

/// At which roots somebody has an inventory of a class.
pub(crate) fn roots_with(
    alloc: Global,
    cloud: &Cloud,
    class: &ClassName,
) -> Result<Vec<bool>, NoMemory>
    ensures { IfOk result (λ marks. marks.items
        ≡ map (λ r. somebody_there_has_class (providers_of cloud.now) r (class_bytes class.now))
        (range_with_len 0 (length (providers_of cloud.now)))) }
{
    let rooms = having(alloc, cloud, class)?;
    let mut marks = vec![in alloc; true; cloud.len() as usize]?;
    limit(alloc, cloud, &mut marks, &rooms, 1)?;
    Ok(marks)
}

// A class that nobody has.
fn unless_had(class: usize, had: bool) -> Option<usize>
    ensures { result ≡ (if had then None else Some class) }
{
    if had { None } else { Some(class) }
}

// Notes a class at each root where nobody has it and somebody has each class before it.
fn note_class(classes: &mut [Option<usize>], class: usize, had: &[bool])
    requires { length had.now ≡ length classes.old }
    ensures { AreClasses classes.old class had.now classes.new }
{
    for (r, had) in had.iter().enumerate() {
        classes[r] = classes[r].or(unless_had(class, *had));
    }
}

// No class is noted yet.
fn no_classes(alloc: Global, cloud: &Cloud) -> Result<Vec<Option<usize>>, NoMemory>
    ensures { IfOk result (λ classes.
        classes.items ≡ replicate (length (providers_of cloud.now)) None) }
{
    Ok(vec![in alloc; None; cloud.len() as usize]?)
}

// The first class of a slot that nobody has at each root.
fn classes_of_nobody(
    alloc: Global,
    cloud: &Cloud,
    needs: &[Need],
) -> Result<Vec<Option<usize>>, NoMemory>
    ensures { IfOk result (λ classes. classes.items
        ≡ map (λ r. class_of_nobody (providers_of cloud.now) r (map need_entry needs.now))
        (range_with_len 0 (length (providers_of cloud.now)))) }
{
    let mut classes = no_classes(alloc, cloud)?;
    for (class, need) in needs.iter().enumerate() {
        let had = roots_with(alloc, cloud, need.class())?;
        note_class(&mut classes, class, &had);
    }
    Ok(classes)
}

// Whether a root lacks a provider for a slot.
fn is_of_slot(lacks: Option<Lack>, number: u32) -> bool
    ensures { result ≡ is_of_slot number lacks }
{
    match lacks {
        Some(Lack::Slot { slot, stage: _ }) => slot == number,
        _ => false,
    }
}

// Whether some root lacks a provider for a slot.
fn is_lacked(lacks: &[Option<Lack>], number: u32) -> bool
    ensures { result ≡ list_any (is_of_slot number) lacks.now }
{
    lacks.iter().any(|lacks| is_of_slot(*lacks, number))
}

// What is wanting at a root, if it lacks a provider for a slot, and else what is noted there.
fn noted(
    old: Option<Wanting>,
    lacks: Option<Lack>,
    number: u32,
    wanting: Wanting,
) -> Option<Wanting>
    ensures { result ≡ (if is_of_slot number lacks then Some wanting else old) }
{
    if is_of_slot(lacks, number) {
        Some(wanting)
    } else {
        old
    }
}

// Notes what is wanting at each root that lacks a provider for a slot.
fn note_wanting(
    found: &mut [Option<Wanting>],
    lacks: &[Option<Lack>],
    number: u32,
    places: &[Option<u32>],
    classes: &[Option<usize>],
)
    requires lacks { length lacks.now ≡ length found.old }
    requires places { length places.now ≡ length found.old }
    requires classes { length classes.now ≡ length found.old }
    ensures { AreWanting found.old lacks.now number places.now classes.now found.new }
{
    for r in 0..found.len() {
        let wanting = Wanting {
            provider: places[r],
            class: classes[r],
        };
        found[r] = noted(found[r], lacks[r], number, wanting);
    }
}

// Finds what is wanting at each root that lacks a provider for a slot.
fn find_of_slot(
    alloc: Global,
    cloud: &Cloud,
    query: &Query,
    lacks: &[Option<Lack>],
    s: usize,
    found: &mut [Option<Wanting>],
) -> Result<(), NoMemory>
    requires slot { s < length (slots_of (asked_of query.now)) }
    requires lacks { length lacks.now ≡ length (providers_of cloud.now) }
    requires found { length found.old ≡ length (providers_of cloud.now) }
    ensures { IfOk result (λ _. AreFound (providers_of cloud.now)
        (slot_at (asked_of query.now) s) (s + 1) lacks.now found.old found.new) }
{
    if !is_lacked(lacks, s as u32 + 1) {
        return Ok(());
    }
    let places = furthest_of_slot(alloc, cloud, query, s)?;
    let classes = classes_of_nobody(alloc, cloud, needs_at(query, s))?;
    note_wanting(found, lacks, s as u32 + 1, &places, &classes);
    Ok(())
}

// Nothing is noted yet.
fn nothing_noted(alloc: Global, cloud: &Cloud) -> Result<Vec<Option<Wanting>>, NoMemory>
    ensures { IfOk result (λ found.
        found.items ≡ replicate (length (providers_of cloud.now)) None) }
{
    Ok(vec![in alloc; None; cloud.len() as usize]?)
}

/// What is wanting at each root that lacks a provider for a slot, by what each provider lacks as a root. Nothing where no such
/// provider is lacking. It goes over the slots that are lacked alone, and once over the providers for each of their classes.
pub fn find_wanting(
    alloc: Global,
    cloud: &Cloud,
    query: &Query,
    lacks: &[Option<Lack>],
) -> Result<Vec<Option<Wanting>>, NoMemory>
    requires { lacks.now ≡ lacks_of (providers_of cloud.now) (asked_of query.now) }
    ensures { IfOk result (λ found.
        found.items ≡ wantings (providers_of cloud.now) (asked_of query.now)) }
{
    let mut found = nothing_noted(alloc, cloud)?;
    for s in 0..count_slots(query) {
        find_of_slot(alloc, cloud, query, lacks, s, &mut found)?;
    }
    Ok(found)
}
