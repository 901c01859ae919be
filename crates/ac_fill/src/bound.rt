//! How many placements there can be at most, in whatever order they are made, and which class each root is short of.

ghost use Rattle.std.specs.Prelude.{◌≡◌, ◌<◌, ◌&&◌, false, length, map, slice_index_or, IfOk, OnOk};
ghost use Rattle.std.specs.List.{filter, range_with_len, sum_by};
ghost use Rattle.ac_base.specs.Names.{class_bytes};
ghost use Rattle.ac_cloud.specs.Cloud.CloudWorld.{providers_of};
ghost use Rattle.ac_prune.specs.Fitting.{fitting};
ghost use Rattle.ac_query.specs.Asked.{slots_of};
ghost use Rattle.ac_query.specs.Shown.Groups.{need_entry};
ghost use Rattle.ac_query.specs.Shown.Queries.{asked_of};
ghost use Rattle.ac_rules.specs.Placed.{slot_at};
ghost use Rattle.ac_rules.specs.Shown.Classes.{with_class, with_classes};
ghost use Rattle.ac_fill.specs.Bounds.{is_of, most_placed, shorts, slot_wants, wanted_classes};
ghost use Rattle.ac_fill.specs.Found.{IsSum, class_found, class_in, count_at, short_entry, shorts_at, times_found, times_in};

use crate::found::{Found, Rarest};
use ac_base::{ClassName, NoMemory};
use ac_cloud::Cloud;
use ac_query::Query;
use ac_rules::number_of;
use ac_rules::slots::{count_slots, needs_at};
use std::alloc::Global;

/// A class that roots are short of, and how many these are.
#[derive(Clone, Copy)]
pub struct Short<'a> {
    pub class: &'a ClassName,
    pub roots: usize,
}

/// How many placements there can be at most, and what the roots that fit are short of.
#[derive(Drop)]
pub struct Bound<'a> {
    pub most: u128,
    pub shorts: Vec<Short<'a>>,
}

// Adds a class, unless it is there.
fn push_class<'a>(classes: &mut Vec<&'a ClassName>, class: &'a ClassName) -> Result<(), NoMemory>
    ensures { OnOk result (map (λ c. class_bytes c.now) classes.new.items
        ≡ with_class (map (λ c. class_bytes c.now) classes.old.items) (class_bytes class.now)) }
{
    if number_of(classes, class) == classes.len() {
        classes.push(class)?;
    }
    Ok(())
}

// Adds the classes of which a slot asks an amount.
fn push_classes<'a>(
    classes: &mut Vec<&'a ClassName>,
    query: &'a Query,
    s: usize,
) -> Result<(), NoMemory>
    requires { s < length (slots_of (asked_of query.now)) }
    ensures { OnOk result (map (λ c. class_bytes c.now) classes.new.items
        ≡ with_classes (map (λ c. class_bytes c.now) classes.old.items)
        (map (λ want. want.need) (slot_wants (slot_at (asked_of query.now) s)))) }
{
    for need in needs_at(query, s) {
        if need.amount() > 0 {
            push_class(classes, need.class())?;
        }
    }
    Ok(())
}

// The classes of which slots ask an amount, each once, as they first come.
fn wanted_classes(alloc: Global, query: &Query) -> Result<Vec<&ClassName>, NoMemory>
    ensures { IfOk result (λ classes. map (λ c. class_bytes c.now) classes.items
        ≡ wanted_classes (asked_of query.now)) }
{
    let mut classes = Vec::new(alloc);
    for s in 0..count_slots(query) {
        push_classes(&mut classes, query, s)?;
    }
    Ok(classes)
}

// How often it is found; 0 where nothing is.
fn times_found(found: &Option<Found<'_>>) -> u128
    ensures { result ≡ times_found found.now }
{
    match found {
        Some(found) => found.times,
        None => 0,
    }
}

// Whether it is found of a class.
fn is_of(found: &Option<Found<'_>>, class: &ClassName) -> bool
    ensures { result ≡ is_of (class_bytes class.now) (class_found found.now) }
{
    match found {
        Some(found) => found.class == class,
        None => false,
    }
}

// What is found at the roots that fit, added up; the greatest number where it is more.
fn sum_at(roots: &[Option<Found<'_>>], fits: &[bool]) -> u128
    requires { length roots.now ≡ length fits.now }
    ensures { IsSum result (sum_by (times_in roots.now)
        (filter (λ r. slice_index_or fits.now r false) (range_with_len 0 (length fits.now)))) }
{
    let mut sum = 0u128;
    for (r, fits) in fits.iter().enumerate() {
        if *fits {
            sum = sum.saturating_add(times_found(&roots[r]));
        }
    }
    sum
}

// Whether a root fits, and a class is found there.
fn is_at(roots: &[Option<Found<'_>>], fits: &[bool], r: usize, class: &ClassName) -> bool
    requires roots { r < length roots.now }
    requires fits { r < length fits.now }
    ensures { result ≡ (slice_index_or fits.now r false
        && is_of (class_bytes class.now) (class_in roots.now r)) }
{
    fits[r] && is_of(&roots[r], class)
}

// At how many roots that fit a class is found.
fn count_at(roots: &[Option<Found<'_>>], fits: &[bool], class: &ClassName) -> usize
    requires { length roots.now ≡ length fits.now }
    ensures { result ≡ count_at roots.now fits.now (class_bytes class.now) }
{
    (0..fits.len())
        .filter(|r| is_at(roots, fits, *r, class))
        .count()
}

// The classes that are found at roots that fit, with how many these are.
fn shorts_at<'a>(
    alloc: Global,
    query: &'a Query,
    roots: &[Option<Found<'_>>],
    fits: &[bool],
) -> Result<Vec<Short<'a>>, NoMemory>
    requires { length roots.now ≡ length fits.now }
    ensures { IfOk result (λ shorts. map short_entry shorts.items
        ≡ shorts_at roots.now fits.now (wanted_classes (asked_of query.now))) }
{
    let mut shorts = Vec::new(alloc);
    for class in wanted_classes(alloc, query)?.iter() {
        let roots = count_at(roots, fits, class);
        if roots > 0 {
            shorts.push(Short { class, roots })?;
        }
    }
    Ok(shorts)
}

impl<'a> Bound<'a> {
    /// The bound on the placements of a query, by the roots that fit before the first one is made.
    pub fn new(
        alloc: Global,
        cloud: &Cloud,
        query: &'a Query,
        fits: &[bool],
    ) -> Result<Bound<'a>, NoMemory>
        requires { fits.now ≡ fitting (providers_of cloud.now) (asked_of query.now) }
        ensures most { IfOk result (λ b. b.most
            ≡ most_placed (providers_of cloud.now) (asked_of query.now)) }
        ensures shorts { IfOk result (λ b. map short_entry b.shorts.items
            ≡ shorts (providers_of cloud.now) (asked_of query.now)) }
    {
        let found = Rarest::new(alloc, cloud, query)?;
        let together = times_found(&found.together);
        Ok(Bound {
            most: together.min(sum_at(&found.roots, fits)),
            shorts: shorts_at(alloc, query, &found.roots, fits)?,
        })
    }
}
