//! What a query wants of which providers have together what is asked least often: all of them, and those of each root.

ghost use Rattle.std.specs.Prelude.{◌≡◌, ◌<◌, [], ◌∷◌, None, Some, length, map, replicate, IfOk, OnOk};
ghost use Rattle.std.specs.Option.{option_map};
ghost use Rattle.std.specs.List.{range_with_len, sum_by};
ghost use Rattle.ac_base.specs.Names.{class_bytes};
ghost use Rattle.ac_cloud.specs.Cloud.CloudWorld.{providers_of};
ghost use Rattle.ac_query.specs.Asked.{slots_of};
ghost use Rattle.ac_query.specs.Shown.Groups.{need_entry};
ghost use Rattle.ac_query.specs.Shown.Queries.{asked_of};
ghost use Rattle.ac_rules.specs.Placed.{slot_at};
ghost use Rattle.ac_rules.specs.Shown.Assignments.{placed_of};
ghost use Rattle.ac_fill.specs.Bounds.{slot_wants, times_at};
ghost use Rattle.ac_fill.specs.Found.{AreFound, AreRarer, Finds, found_in, rarer};

use crate::by_root::sums_by_root;
use ac_base::{ClassName, NoMemory};
use ac_cloud::Cloud;
use ac_query::{Need, Query};
use ac_rules::Placed;
use ac_rules::slots::{count_slots, needs_at};
use std::alloc::Global;

/// A class, and how often some providers have together what a slot asks of it.
#[derive(Clone, Copy)]
pub(crate) struct Found<'a> {
    pub(crate) class: &'a ClassName,
    pub(crate) times: u128,
}

/// The first class that is wanted of which all providers together, and those of each root, have what is asked least often.
#[derive(Drop)]
pub(crate) struct Rarest<'a> {
    pub(crate) together: Option<Found<'a>>,
    pub(crate) roots: Vec<Option<Found<'a>>>,
}

// How often a provider has what a slot asks of a class; never where a rule of the slot alone refuses it.
#[tactic(auto, using(crate::proofs::Claimed::left_units))]
fn times_at(placed: &Placed, need: &Need) -> u64
    requires { 0 < (need_entry need.now).1 }
    ensures { result ≡ times_at (providers_of placed.now.cloud.now)
        (record { slot = (placed_of placed.now).slot; need = need_entry need.now })
        placed.now.provider }
{
    if placed.fits() {
        placed.its_provider().left(need.class()) / u64::from(need.amount())
    } else {
        0
    }
}

// This of each provider.
fn times_of(
    alloc: Global,
    cloud: &Cloud,
    query: &Query,
    s: usize,
    need: &Need,
) -> Result<Vec<u64>, NoMemory>
    requires slot { s < length (slots_of (asked_of query.now)) }
    requires some { 0 < (need_entry need.now).1 }
    ensures { IfOk result (λ times. times.items ≡ map (times_at (providers_of cloud.now)
        (record { slot = slot_at (asked_of query.now) s; need = need_entry need.now }))
        (range_with_len 0 (length (providers_of cloud.now)))) }
{
    let times = (0..cloud.len()).map(|ix| times_at(&Placed::new(cloud, query, s, ix), need));
    Ok(times.collect(alloc)?)
}

// The sum of some numbers.
fn total(numbers: &[u64]) -> u128
    ensures { result ≡ sum_by (λ n. n) numbers.now }
{
    let mut total = 0u128;
    for number in numbers {
        total += u128::from(*number);
    }
    total
}

// The first of two that are found, unless the second is found less often.
fn rarer<'a>(found: Option<Found<'a>>, other: Found<'a>) -> Found<'a>
    ensures { Some (found_in result) ≡ rarer (option_map found_in found.entry)
        (found_in other.entry) }
{
    match found {
        Some(first) => {
            if other.times < first.times {
                other
            } else {
                first
            }
        }
        None => other,
    }
}

// The same at each root.
fn keep_rarer<'a>(roots: &mut Vec<Option<Found<'a>>>, class: &'a ClassName, sums: &[u128])
    requires { length sums.now ≡ length roots.old.items }
    ensures count { length roots.new.items ≡ length roots.old.items }
    ensures rarer { AreRarer roots.old.items (class_bytes class.now) sums.now roots.new.items }
{
    for (r, times) in sums.iter().enumerate() {
        let other = Found {
            class,
            times: *times,
        };
        roots[r] = Some(rarer(roots[r], other));
    }
}

impl<'a> Rarest<'a> {
    // Nothing is found yet.
    fn begin(alloc: Global, cloud: &Cloud) -> Result<Rarest<'a>, NoMemory>
        ensures together { IfOk result (λ f. f.together ≡ None) }
        ensures roots { IfOk result (λ f. f.roots.items
            ≡ replicate (length (providers_of cloud.now)) None) }
    {
        Ok(Rarest {
            together: None,
            roots: vec![in alloc; None; cloud.len() as usize]?,
        })
    }

    // Finds what a slot asks of a class.
    fn find(
        &mut self,
        alloc: Global,
        cloud: &Cloud,
        query: &Query,
        s: usize,
        need: &'a Need,
    ) -> Result<(), NoMemory>
        requires slot { s < length (slots_of (asked_of query.now)) }
        requires some { 0 < (need_entry need.now).1 }
        requires roots { length self.old.roots.items ≡ length (providers_of cloud.now) }
        ensures { OnOk result (Finds (providers_of cloud.now)
            ((record { slot = slot_at (asked_of query.now) s; need = need_entry need.now }) ∷ [])
            self.old self.new) }
    {
        let times = times_of(alloc, cloud, query, s, need)?;
        let sums = sums_by_root(alloc, cloud, &times)?;
        let together = Found {
            class: need.class(),
            times: total(&times),
        };
        self.together = Some(rarer(self.together, together));
        keep_rarer(&mut self.roots, need.class(), &sums);
        Ok(())
    }

    // Finds what a slot asks, class by class.
    fn find_slot(
        &mut self,
        alloc: Global,
        cloud: &Cloud,
        query: &'a Query,
        s: usize,
    ) -> Result<(), NoMemory>
        requires slot { s < length (slots_of (asked_of query.now)) }
        requires roots { length self.old.roots.items ≡ length (providers_of cloud.now) }
        ensures { OnOk result (Finds (providers_of cloud.now)
            (slot_wants (slot_at (asked_of query.now) s)) self.old self.new) }
    {
        for need in needs_at(query, s) {
            if need.amount() > 0 {
                self.find(alloc, cloud, query, s, need)?;
            }
        }
        Ok(())
    }

    /// Finds all that a query wants, slot by slot.
    pub(crate) fn new(
        alloc: Global,
        cloud: &Cloud,
        query: &'a Query,
    ) -> Result<Rarest<'a>, NoMemory>
        ensures { IfOk result (λ f. AreFound (providers_of cloud.now) (asked_of query.now) f) }
    {
        let mut found = Rarest::begin(alloc, cloud)?;
        for s in 0..count_slots(query) {
            found.find_slot(alloc, cloud, query, s)?;
        }
        Ok(found)
    }
}
