//! How many roots fit, and how many lack what, as `csv` writes it: a header, a row for those that fit, and one for each thing that is
//! lacking, first for what most roots lack.
ghost use Rattle.std.specs.Prelude.{◌≡◌, ◌++◌, ◌∷◌, ◌<◌, ◌≤◌, ◌^◌, ℕ, List, [], IfOk, length, map};
ghost use Rattle.std.specs.List.{All};
ghost use Rattle.ac_base.specs.Writing.Rows.{HasRows};
ghost use Rattle.ac_cloud.specs.Cloud.CloudWorld.{providers_of};
ghost use Rattle.ac_query.specs.Asked.{slots_of};
ghost use Rattle.ac_query.specs.Shown.Queries.{asked_of};
ghost use Rattle.ac_prune.specs.Fitting.{fitting};
ghost use Rattle.ac_find.specs.Lacking.{lack_at, lacks_of};
ghost use Rattle.ac_report.specs.Findings.HostSums.{count_lacks, counted, fits_row, lack_counts, lack_number, lack_text, lacks_of_roots, lacks_of_slot, possible_lacks, rows_falling, rows_of_count, stage_number, sum_row, sums_text};

use crate::findings::host_details::asks_of;
use crate::findings::lacks::{lack_name, slot_digits};
use crate::findings::within::{roots_told, roots_within};
use ac_base::NoMemory;
use ac_base::pieces::digits::Digits;
use ac_base::rows::{begin_rows, end_rows, write_row};
use ac_cloud::Cloud;
use ac_find::{Lack, Stage};
use ac_query::Query;
use ac_rules::slots::count_slots;
use csv::Writer;
use std::alloc::Global;

fn stage_number(stage: Stage) -> u32
    ensures said { result ≡ stage_number stage }
    ensures few { result < 6 }
{
    match stage {
        Stage::Inventory => 0,
        Stage::Units => 1,
        Stage::Traits => 2,
        Stage::Aggregates => 3,
        Stage::Tree => 4,
        Stage::Room => 5,
    }
}

// A number for what a root lacks: two roots lack the same where it is the same.
fn lack_number(lacks: Option<Lack>) -> u64
    ensures { result ≡ lack_number lacks }
{
    match lacks {
        None => 0,
        Some(Lack::RootTraits) => 1,
        Some(Lack::RequiredTraits) => 2,
        Some(Lack::Together) => 3,
        Some(Lack::Slot { slot, stage }) => 6 * u64::from(slot) + u64::from(stage_number(stage)),
    }
}

// What may be lacking of a slot.
fn lacks_of_slot(slot: u32) -> [Lack; 6]
    ensures { result ≡ lacks_of_slot slot }
{
    [
        Lack::Slot {
            slot,
            stage: Stage::Inventory,
        },
        Lack::Slot {
            slot,
            stage: Stage::Units,
        },
        Lack::Slot {
            slot,
            stage: Stage::Traits,
        },
        Lack::Slot {
            slot,
            stage: Stage::Aggregates,
        },
        Lack::Slot {
            slot,
            stage: Stage::Tree,
        },
        Lack::Slot {
            slot,
            stage: Stage::Room,
        },
    ]
}

// All that a root may lack of so many slots: first what is of no slot, in the order in which it is tested; then slot by slot.
fn possible_lacks(alloc: Global, slots: usize) -> Result<Vec<Lack>, NoMemory>
    requires { slots ≤ 64 }
    ensures { IfOk result (λ kinds. kinds.items ≡ possible_lacks slots) }
{
    let mut kinds = Vec::new(alloc);
    kinds.extend_from_slice(&[Lack::RootTraits, Lack::RequiredTraits, Lack::Together])?;
    for s in 0..slots {
        kinds.extend_from_slice(&lacks_of_slot(s as u32 + 1))?;
    }
    Ok(kinds)
}

// What each of some roots lacks.
fn lacks_at(
    alloc: Global,
    cloud: &Cloud,
    query: &Query,
    roots: &[u32],
    lacks: &[Option<Lack>],
) -> Result<Vec<Option<Lack>>, NoMemory>
    requires roots { All (λ r. r < length (providers_of cloud.now)) roots.now }
    requires lacks { lacks.now ≡ lacks_of (providers_of cloud.now) (asked_of query.now) }
    ensures { IfOk result (λ found. found.items
        ≡ map (lack_at (providers_of cloud.now) (asked_of query.now)) roots.now) }
{
    let mut found = Vec::new(alloc);
    for root in roots {
        found.push(lacks[*root as usize])?;
    }
    Ok(found)
}

// How many roots lack this.
fn count_lacks(found: &[Option<Lack>], lacks: Option<Lack>) -> u32
    requires { length found.now < 2 ^ 32 }
    ensures { result ≡ count_lacks found.now lacks }
{
    let number = lack_number(lacks);
    found
        .iter()
        .filter(|other| lack_number(**other) == number)
        .count() as u32
}

// Some things, each with the number of roots that lack it.
fn counted(
    alloc: Global,
    found: &[Option<Lack>],
    kinds: &[Lack],
) -> Result<Vec<(Lack, u32)>, NoMemory>
    requires { length found.now < 2 ^ 32 }
    ensures { IfOk result (λ sums. sums.items ≡ counted found.now kinds.now) }
{
    let sums = kinds
        .iter()
        .map(|kind| (*kind, count_lacks(found, Some(*kind))));
    Ok(sums.collect(alloc)?)
}

// Writes the row of those that fit.
fn write_fits(rows: &mut Writer<Vec<u8>>, count: u32) -> Result<(), NoMemory>
    ensures { IfOk result (λ _. (before : List (List (List ℕ))) → HasRows rows.old before
        → HasRows rows.new (before ++ fits_row count ∷ [])) }
{
    write_row(rows, &[Digits::of(count).as_bytes(), b"", b"fits", b""])
}

// Writes the row of what so many roots lack.
fn write_sum(
    alloc: Global,
    rows: &mut Writer<Vec<u8>>,
    query: &Query,
    sum: &(Lack, u32),
) -> Result<(), NoMemory>
    ensures { IfOk result (λ _. (before : List (List (List ℕ))) → HasRows rows.old before
        → HasRows rows.new (before ++ sum_row (asked_of query.now) sum.now ∷ [])) }
{
    let lacks = Some(sum.0);
    let asks = asks_of(alloc, query, lacks)?;
    write_row(
        rows,
        &[
            Digits::of(sum.1).as_bytes(),
            slot_digits(lacks).as_bytes(),
            lack_name(lacks),
            &asks,
        ],
    )
}

// Writes the rows of those of some things that so many roots lack.
fn write_of_count(
    alloc: Global,
    rows: &mut Writer<Vec<u8>>,
    query: &Query,
    sums: &[(Lack, u32)],
    count: u32,
) -> Result<(), NoMemory>
    ensures { IfOk result (λ _. (before : List (List (List ℕ))) → HasRows rows.old before
        → HasRows rows.new (before ++ rows_of_count (asked_of query.now) sums.now count)) }
{
    for sum in sums {
        if sum.1 == count {
            write_sum(alloc, rows, query, sum)?;
        }
    }
    Ok(())
}

// Writes the rows of some things, from those that so many roots lack down to those that one lacks.
fn write_falling(
    alloc: Global,
    rows: &mut Writer<Vec<u8>>,
    query: &Query,
    sums: &[(Lack, u32)],
    most: u32,
) -> Result<(), NoMemory>
    ensures { IfOk result (λ _. (before : List (List (List ℕ))) → HasRows rows.old before
        → HasRows rows.new (before ++ rows_falling (asked_of query.now) sums.now most)) }
{
    for i in 0..most {
        write_of_count(alloc, rows, query, sums, most - i)?;
    }
    Ok(())
}

// How many of some roots lack each thing: what each of these lacks, and the sums.
fn sums_of(
    alloc: Global,
    cloud: &Cloud,
    query: &Query,
    roots: &[u32],
    lacks: &[Option<Lack>],
) -> Result<(Vec<Option<Lack>>, Vec<(Lack, u32)>), NoMemory>
    requires roots { All (λ r. r < length (providers_of cloud.now)) roots.now }
    requires few { length roots.now < 2 ^ 32 }
    requires lacks { lacks.now ≡ lacks_of (providers_of cloud.now) (asked_of query.now) }
    ensures found { IfOk result (λ sums. sums.0.items
        ≡ lacks_of_roots (providers_of cloud.now) (asked_of query.now) roots.now) }
    ensures sums { IfOk result (λ sums. sums.1.items
        ≡ counted (lacks_of_roots (providers_of cloud.now) (asked_of query.now) roots.now)
        (possible_lacks (length (slots_of (asked_of query.now))))) }
    ensures few { IfOk result (λ sums. length sums.0.items < 2 ^ 32) }
{
    let found = lacks_at(alloc, cloud, query, roots, lacks)?;
    let kinds = possible_lacks(alloc, count_slots(query))?;
    let sums = counted(alloc, &found, &kinds)?;
    Ok((found, sums))
}

/// The text of `hosts --sum` of all roots, or of those of an aggregate alone, and of those that fit alone where only they are asked for, by which roots fit and
/// what each provider lacks as a root.
#[tactic(auto, unfolding(crate::specs::Findings::HostSums::sums_text))]
pub fn sums_text(
    alloc: Global,
    cloud: &Cloud,
    query: &Query,
    only_fitting: bool,
    within: Option<u128>,
    fits: &[bool],
    lacks: &[Option<Lack>],
) -> Result<Vec<u8>, NoMemory>
    requires fits { fits.now ≡ fitting (providers_of cloud.now) (asked_of query.now) }
    requires lacks { lacks.now ≡ lacks_of (providers_of cloud.now) (asked_of query.now) }
    ensures { IfOk result (λ text. text.items
        ≡ sums_text (providers_of cloud.now) (asked_of query.now) only_fitting within) }
{
    let roots = roots_told(alloc, cloud, query, only_fitting, within, fits)?;
    let (found, sums) = sums_of(alloc, cloud, query, &roots, lacks)?;
    let mut rows = begin_rows(alloc, &[b"hosts", b"slot", b"lacks", b"asks"])?;
    write_fits(&mut rows, count_lacks(&found, None))?;
    write_falling(alloc, &mut rows, query, &sums, found.len() as u32)?;
    end_rows(rows)
}

// What is lacking, as one text.
fn lack_text(alloc: Global, query: &Query, kind: Lack) -> Result<Vec<u8>, NoMemory>
    ensures { IfOk result (λ text. text.items ≡ lack_text (asked_of query.now) kind) }
{
    let mut text = lack_name(Some(kind)).to_vec(alloc)?;
    let asks = asks_of(alloc, query, Some(kind))?;
    if !asks.is_empty() {
        text.push(b' ')?;
        text.extend_from_slice(&asks)?;
    }
    Ok(text)
}

/// Each thing that roots lack, with the number of roots that lack it, by what each provider lacks as a root.
#[tactic(auto, unfolding(crate::specs::Findings::HostSums::lack_counts))]
pub fn lack_counts(
    alloc: Global,
    cloud: &Cloud,
    query: &Query,
    lacks: &[Option<Lack>],
) -> Result<Vec<(Vec<u8>, usize)>, NoMemory>
    requires { lacks.now ≡ lacks_of (providers_of cloud.now) (asked_of query.now) }
    ensures { IfOk result (λ counts. map (λ c. (c.0.items, c.1)) counts.items
        ≡ lack_counts (providers_of cloud.now) (asked_of query.now)) }
{
    let roots = roots_within(alloc, cloud, None)?;
    let (_found, sums) = sums_of(alloc, cloud, query, &roots, lacks)?;
    let mut counts = Vec::new(alloc);
    for (kind, count) in &sums {
        if *count > 0 {
            counts.push((lack_text(alloc, query, *kind)?, *count as usize))?;
        }
    }
    Ok(counts)
}
