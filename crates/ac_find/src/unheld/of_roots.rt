//! What isn't held at each root that lacks a trait which the group without a suffix requires.
ghost use Rattle.std.specs.Prelude.{◌≡◌, ◌<◌, ◌&&◌, IfOk, Some, None, [], get_or, length, map, nat_lt, replicate, string_bytes, if◌then◌else◌};
ghost use Rattle.std.specs.List.{list_any};
ghost use Rattle.std.specs.List.Sorted.{IsStrictlySortedBy};
ghost use Rattle.std.specs.Option.{is_none, option_map};
ghost use Rattle.ac_base.specs.Names.{trait_bytes};
ghost use Rattle.ac_base.specs.Texts.{text_cmp};
ghost use Rattle.ac_cloud.specs.Cloud.CloudWorld.{providers_of};
ghost use Rattle.ac_query.specs.Shown.Groups.{any_of_shown, group_asked};
ghost use Rattle.ac_query.specs.Shown.Queries.{asked_of};
ghost use Rattle.ac_find.specs.Details.{missing_text, none_of_text};
ghost use Rattle.ac_find.specs.Explained.{is_one_held};
ghost use Rattle.ac_find.specs.Lacking.{lacks_of};
ghost use Rattle.ac_find.specs.Unheld.{unheld_at, unheld_group_text, unheld_list, unheld_of_group, unheld_text, unheld_things, unheld_trait};
ghost use Rattle.ac_find.specs.Shown.Unheld.{AreMarked, AreTold, lacks_traits, open_roots, told_more};
ghost use Rattle.ac_find.specs.declared.unheld.of_roots.Unheld.TheVariants.{Trait, OneOf};

use super::unsuffixed_group;
use crate::counts::required::{Unsuffixed, are_few};
use crate::details::traits::{missing_text, none_of_text};
use crate::lacks::Lack;
use ac_base::{NoMemory, TraitName};
use ac_cloud::Cloud;
use ac_query::{AnyOf, Group, Query};
use std::alloc::Global;
use std::slice;

/// A thing that the group without a suffix requires.
#[derive(Clone, Copy, Debug, PartialEq, Eq)]
pub enum Unheld {
    /// A trait, by its place among those that are required.
    Trait(usize),
    /// One of a list of traits, by the place of the list.
    OneOf(usize),
}

// Whether a root lacks such a thing.
fn lacks_traits(lacks: Option<Lack>) -> bool
    ensures { result ≡ lacks_traits lacks }
{
    match lacks {
        Some(Lack::RequiredTraits) => true,
        _ => false,
    }
}

// Whether a root lacks such a thing, and nothing is told of it yet.
fn is_open(lacks: Option<Lack>, told: Option<Unheld>) -> bool
    ensures { result ≡ (lacks_traits lacks && is_none told) }
{
    lacks_traits(lacks) && told.is_none()
}

// The marks of the roots that lack such a thing, and of which nothing is told yet.
fn open_roots(
    alloc: Global,
    lacks: &[Option<Lack>],
    found: &[Option<Unheld>],
) -> Result<Vec<bool>, NoMemory>
    requires { length lacks.now ≡ length found.now }
    ensures { IfOk result (λ marks. marks.items ≡ open_roots lacks.now found.now) }
{
    let mut marks = Vec::new(alloc);
    for r in 0..found.len() {
        marks.push(is_open(lacks[r], found[r]))?;
    }
    Ok(marks)
}

// What is told of a root, with one thing more.
fn told_more(lacks: Option<Lack>, old: Option<Unheld>, more: Option<Unheld>) -> Option<Unheld>
    ensures { result ≡ told_more lacks old more }
{
    if lacks_traits(lacks) {
        old.or(more)
    } else {
        old
    }
}

// A thing that isn't held.
fn unless_held(thing: Unheld, held: bool) -> Option<Unheld>
    ensures { result ≡ (if held then None else Some thing) }
{
    if held { None } else { Some(thing) }
}

// Tells a thing of the roots at which it isn't held.
fn mark(found: &mut [Option<Unheld>], lacks: &[Option<Lack>], thing: Unheld, held: &[bool])
    requires lacks { length lacks.now ≡ length found.old }
    requires held { length held.now ≡ length found.old }
    ensures { AreMarked found.old lacks.now thing held.now found.new }
{
    for r in 0..found.len() {
        found[r] = told_more(lacks[r], found[r], unless_held(thing, held[r]));
    }
}

// Tells a thing of the roots at which none of its traits, which rise, is held.
fn tell_names(
    alloc: Global,
    serving: &Unsuffixed,
    names: &[TraitName],
    thing: Unheld,
    lacks: &[Option<Lack>],
    found: &mut [Option<Unheld>],
) -> Result<(), NoMemory>
    requires sorted { IsStrictlySortedBy text_cmp (map trait_bytes names.now) }
    requires lacks { length lacks.now ≡ length (providers_of serving.now.cloud.now) }
    requires found { length found.old ≡ length (providers_of serving.now.cloud.now) }
    ensures { IfOk result (λ _. AreTold (providers_of serving.now.cloud.now)
        (λ r. if is_one_held (providers_of serving.now.cloud.now) (asked_of serving.now.query.now) r
        (map trait_bytes names.now) then None else Some thing) lacks.now found.old found.new) }
{
    let mut held = open_roots(alloc, lacks, found)?;
    serving.limit_names(alloc, names, &mut held)?;
    mark(found, lacks, thing, &held);
    Ok(())
}

// A required trait, by its place.
fn trait_at(place: Option<usize>) -> Option<Unheld>
    ensures { result ≡ option_map (λ k. Trait k) place }
{
    let place = place?;
    Some(Unheld::Trait(place))
}

// What is told of a root with the first of these traits that isn't held there.
fn told_at(
    alloc: Global,
    serving: &Unsuffixed,
    root: u32,
    names: &[TraitName],
    lacks: Option<Lack>,
    told: Option<Unheld>,
) -> Result<Option<Unheld>, NoMemory>
    requires { root < length (providers_of serving.now.cloud.now) }
    ensures { IfOk result (λ new. new ≡ told_more lacks told (option_map (λ k. Trait k)
        (unheld_trait (providers_of serving.now.cloud.now) (asked_of serving.now.query.now) root
        (map trait_bytes names.now)))) }
{
    if !is_open(lacks, told) {
        return Ok(told);
    }
    Ok(trait_at(serving.at_root(alloc, root)?.first_unhad(names)))
}

// Tells the first of these traits that isn't held of each root, looked at one by one.
fn tell_few(
    alloc: Global,
    serving: &Unsuffixed,
    names: &[TraitName],
    lacks: &[Option<Lack>],
    found: &mut [Option<Unheld>],
) -> Result<(), NoMemory>
    requires lacks { length lacks.now ≡ length (providers_of serving.now.cloud.now) }
    requires found { length found.old ≡ length (providers_of serving.now.cloud.now) }
    ensures { IfOk result (λ _. AreTold (providers_of serving.now.cloud.now)
        (λ r. option_map (λ k. Trait k) (unheld_trait (providers_of serving.now.cloud.now)
        (asked_of serving.now.query.now) r (map trait_bytes names.now)))
        lacks.now found.old found.new) }
{
    for root in 0..serving.cloud.len() {
        let r = root as usize;
        found[r] = told_at(alloc, serving, root, names, lacks[r], found[r])?;
    }
    Ok(())
}

// Tells the first of these traits that isn't held of each root.
fn tell_traits(
    alloc: Global,
    serving: &Unsuffixed,
    names: &[TraitName],
    lacks: &[Option<Lack>],
    found: &mut [Option<Unheld>],
) -> Result<(), NoMemory>
    requires lacks { length lacks.now ≡ length (providers_of serving.now.cloud.now) }
    requires found { length found.old ≡ length (providers_of serving.now.cloud.now) }
    ensures { IfOk result (λ _. AreTold (providers_of serving.now.cloud.now)
        (λ r. option_map (λ k. Trait k) (unheld_trait (providers_of serving.now.cloud.now)
        (asked_of serving.now.query.now) r (map trait_bytes names.now)))
        lacks.now found.old found.new) }
{
    for (k, name) in names.iter().enumerate() {
        let open = open_roots(alloc, lacks, found)?;
        if are_few(&open) {
            return tell_few(alloc, serving, names, lacks, found);
        }
        let name = slice::from_ref(name);
        tell_names(alloc, serving, name, Unheld::Trait(k), lacks, found)?;
    }
    Ok(())
}

// Tells the first of these lists of which none is held of each root.
fn tell_lists(
    alloc: Global,
    serving: &Unsuffixed,
    lists: &[AnyOf],
    lacks: &[Option<Lack>],
    found: &mut [Option<Unheld>],
) -> Result<(), NoMemory>
    requires lacks { length lacks.now ≡ length (providers_of serving.now.cloud.now) }
    requires found { length found.old ≡ length (providers_of serving.now.cloud.now) }
    ensures { IfOk result (λ _. AreTold (providers_of serving.now.cloud.now)
        (λ r. option_map (λ k. OneOf k) (unheld_list (providers_of serving.now.cloud.now)
        (asked_of serving.now.query.now) r (map any_of_shown lists.now)))
        lacks.now found.old found.new) }
{
    for (k, list) in lists.iter().enumerate() {
        tell_names(alloc, serving, list.names(), Unheld::OneOf(k), lacks, found)?;
    }
    Ok(())
}

// Tells the first thing that isn't held of what a group requires of each root.
fn tell_group(
    alloc: Global,
    serving: &Unsuffixed,
    group: &Group,
    lacks: &[Option<Lack>],
    found: &mut [Option<Unheld>],
) -> Result<(), NoMemory>
    requires lacks { length lacks.now ≡ length (providers_of serving.now.cloud.now) }
    requires found { length found.old ≡ length (providers_of serving.now.cloud.now) }
    ensures { IfOk result (λ _. AreTold (providers_of serving.now.cloud.now)
        (λ r. unheld_of_group (providers_of serving.now.cloud.now) (asked_of serving.now.query.now)
        r (group_asked group.now)) lacks.now found.old found.new) }
{
    tell_traits(alloc, serving, group.required(), lacks, found)?;
    tell_lists(alloc, serving, group.any_of(), lacks, found)
}

// Tells the first thing that isn't held of what the group without a suffix requires, if there is one.
fn tell_unsuffixed(
    alloc: Global,
    cloud: &Cloud,
    query: &Query,
    lacks: &[Option<Lack>],
    found: &mut [Option<Unheld>],
) -> Result<(), NoMemory>
    requires lacks { length lacks.now ≡ length (providers_of cloud.now) }
    requires found { length found.old ≡ length (providers_of cloud.now) }
    ensures { IfOk result (λ _. AreTold (providers_of cloud.now)
        (unheld_at (providers_of cloud.now) (asked_of query.now))
        lacks.now found.old found.new) }
{
    match unsuffixed_group(query) {
        Some(group) => {
            let serving = Unsuffixed::new(alloc, cloud, query)?;
            tell_group(alloc, &serving, group, lacks, found)
        }
        None => Ok(()),
    }
}

// Whether some root lacks such a thing.
fn is_lacked(lacks: &[Option<Lack>]) -> bool
    ensures { result ≡ list_any lacks_traits lacks.now }
{
    lacks.iter().any(|lacks| lacks_traits(*lacks))
}

// The same, where some root lacks such a thing.
fn tell_lacked(
    alloc: Global,
    cloud: &Cloud,
    query: &Query,
    lacks: &[Option<Lack>],
    found: &mut [Option<Unheld>],
) -> Result<(), NoMemory>
    requires lacks { length lacks.now ≡ length (providers_of cloud.now) }
    requires found { length found.old ≡ length (providers_of cloud.now) }
    ensures { IfOk result (λ _. AreTold (providers_of cloud.now)
        (unheld_at (providers_of cloud.now) (asked_of query.now))
        lacks.now found.old found.new) }
{
    if !is_lacked(lacks) {
        return Ok(());
    }
    tell_unsuffixed(alloc, cloud, query, lacks, found)
}

// Nothing is told yet.
fn nothing_told(alloc: Global, cloud: &Cloud) -> Result<Vec<Option<Unheld>>, NoMemory>
    ensures { IfOk result (λ found.
        found.items ≡ replicate (length (providers_of cloud.now)) None) }
{
    Ok(vec![in alloc; None; cloud.len() as usize]?)
}

/// Of each root that lacks what the group without a suffix requires the first such thing, by what each provider lacks as a root;
/// nothing of others. It goes once over what is required, where some root lacks it.
pub fn find_unheld(
    alloc: Global,
    cloud: &Cloud,
    query: &Query,
    lacks: &[Option<Lack>],
) -> Result<Vec<Option<Unheld>>, NoMemory>
    requires { lacks.now ≡ lacks_of (providers_of cloud.now) (asked_of query.now) }
    ensures { IfOk result (λ found.
        found.items ≡ unheld_things (providers_of cloud.now) (asked_of query.now)) }
{
    let mut found = nothing_told(alloc, cloud)?;
    tell_lacked(alloc, cloud, query, lacks, &mut found)?;
    Ok(found)
}

// The words of a required trait at a place.
fn trait_text(alloc: Global, names: &[TraitName], k: usize) -> Result<String, NoMemory>
    ensures { IfOk result (λ text. string_bytes text
        ≡ (if nat_lt k (length names.now)
        then missing_text (get_or (map trait_bytes names.now) k []) else [])) }
{
    if k < names.len() {
        missing_text(alloc, &names[k])
    } else {
        Ok(String::new(alloc))
    }
}

// The words of a list at a place.
fn list_text(alloc: Global, lists: &[AnyOf], k: usize) -> Result<String, NoMemory>
    ensures { IfOk result (λ text. string_bytes text
        ≡ (if nat_lt k (length lists.now)
        then none_of_text (get_or (map any_of_shown lists.now) k []) else [])) }
{
    if k < lists.len() {
        none_of_text(alloc, lists[k].names())
    } else {
        Ok(String::new(alloc))
    }
}

fn unheld_group_text(
    alloc: Global,
    group: &Group,
    thing: Option<Unheld>,
) -> Result<String, NoMemory>
    ensures { IfOk result (λ text. string_bytes text
        ≡ unheld_group_text (group_asked group.now) thing) }
{
    match thing {
        Some(Unheld::Trait(k)) => trait_text(alloc, group.required(), k),
        Some(Unheld::OneOf(k)) => list_text(alloc, group.any_of(), k),
        None => Ok(String::new(alloc)),
    }
}

/// The words of a thing that the group without a suffix requires.
pub fn unheld_text(alloc: Global, query: &Query, thing: Option<Unheld>) -> Result<String, NoMemory>
    ensures { IfOk result (λ text. string_bytes text ≡ unheld_text (asked_of query.now) thing) }
{
    match unsuffixed_group(query) {
        Some(group) => unheld_group_text(alloc, group, thing),
        None => Ok(String::new(alloc)),
    }
}
