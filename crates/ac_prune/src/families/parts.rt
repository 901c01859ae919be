//! The parts of the forest in which the providers of a list of `same_subtree` can stand together: each reaches down from a
//! provider that may be above all others of the list.

ghost use Rattle.std.specs.Prelude.{◌≡◌, ◌<◌, ℕ, [], true, length, get_or, slice_index, slice_index_or, IfOk};
ghost use Rattle.std.specs.List.{All};
ghost use Rattle.ac_query.specs.Asked.{slots_of, lists_suffix};
ghost use Rattle.ac_query.specs.Shown.Queries.{asked_of};
ghost use Rattle.ac_cloud.specs.Cloud.CloudWorld.{providers_of};
ghost use Rattle.ac_rules.specs.Placed.{slot_at};
ghost use Rattle.ac_prune.specs.Left.Accounts.{providers_in, asked_in};
ghost use Rattle.ac_prune.specs.Loads.{ArePartsIn};
ghost use Rattle.ac_prune.specs.Parts.{AreTops, AreMarked, IsLinked, AreLinked, KeepSeen};

use crate::choices::Choices;
use ac_base::NoMemory;
use ac_cloud::Cloud;
use ac_query::Query;
use ac_rules::slots::{count_slots, is_listed};
use std::alloc::Global;

// Marks each provider of a list.
fn mark_each(marks: &mut [bool], list: &[u32])
    requires { All (λ p. p < length marks.old) list.now }
    ensures { AreMarked marks.old list.now marks.new }
{
    for ix in list {
        marks[*ix as usize] = true;
    }
}

// Marks each choice of a slot, where a list names the slot.
fn mark_slot(marks: &mut [bool], query: &Query, k: usize, s: usize, list: &[u32])
    requires names { k < length (asked_of query.now).subtrees }
    requires slot { s < length (slots_of (asked_of query.now)) }
    requires list { All (λ p. p < length marks.old) list.now }
    ensures count { length marks.new ≡ length marks.old }
    ensures kept { (p : ℕ) → slice_index_or marks.old p true ≡ true
        → slice_index_or marks.new p true ≡ true }
    ensures marked { lists_suffix (get_or (asked_of query.now).subtrees k [])
        (slot_at (asked_of query.now) s).suffix ≡ true → (j : ℕ) → j < length list.now
        → slice_index_or marks.new (slice_index list.now j) true ≡ true }
{
    if is_listed(query, k, s) {
        mark_each(marks, list);
    }
}

// Marks each choice of the slots that a list names: one of them is above all others.
fn tops_of(alloc: Global, choices: &Choices, k: usize) -> Result<Vec<bool>, NoMemory>
    requires { k < length (asked_in choices.now.ledger.now).subtrees }
    ensures count { IfOk result (λ tops.
        length tops.items ≡ length (providers_in choices.now.ledger.now)) }
    ensures tops { IfOk result (λ tops.
        AreTops (providers_in choices.now.ledger.now) (asked_in choices.now.ledger.now)
        (get_or (asked_in choices.now.ledger.now).subtrees k []) tops.items) }
{
    let query = choices.ledger.query;
    let mut tops = vec![in alloc; false; choices.ledger.cloud.len() as usize]?;
    for s in 0..count_slots(query) {
        mark_slot(&mut tops, query, k, s, choices.of_slot(s));
    }
    Ok(tops)
}

// The part of a provider whose part isn't known yet: that of the first one above it of which it is known, or else the
// uppermost top on the way.
fn part_above(cloud: &Cloud, tops: &[bool], parts: &[u32], known: &[bool], ix: u32) -> u32
    requires provider { ix < length (providers_of cloud.now) }
    requires tops { length tops.now ≡ length (providers_of cloud.now) }
    requires parts { length parts.now ≡ length (providers_of cloud.now) }
    requires known { length known.now ≡ length (providers_of cloud.now) }
{
    let none = cloud.len();
    let mut at = ix;
    let mut part = none;
    for _ in 0..none {
        if known[at as usize] {
            return if parts[at as usize] < none {
                parts[at as usize]
            } else {
                part
            };
        }
        if tops[at as usize] {
            part = at;
        }
        match cloud.parent(at) {
            Some(parent) => at = parent,
            None => return part,
        }
    }
    part
}

// Puts a provider and those above it into a part, up to its top, unless they are known already.
fn put_up(cloud: &Cloud, parts: &mut [u32], known: &mut [bool], ix: u32, part: u32)
    requires provider { ix < length (providers_of cloud.now) }
    requires parts { length parts.old ≡ length (providers_of cloud.now) }
    requires known { length known.old ≡ length (providers_of cloud.now) }
{
    let mut at = ix;
    let mut part = part;
    for _ in 0..cloud.len() {
        if known[at as usize] {
            return;
        }
        known[at as usize] = true;
        parts[at as usize] = part;
        if at == part {
            part = cloud.len();
        }
        match cloud.parent(at) {
            Some(parent) => at = parent,
            None => return,
        }
    }
}

// The part of each provider, drawn up without a contract.
fn draft(alloc: Global, cloud: &Cloud, tops: &[bool]) -> Result<Vec<u32>, NoMemory>
    requires { length tops.now ≡ length (providers_of cloud.now) }
    ensures { IfOk result (λ parts. length parts.items ≡ length (providers_of cloud.now)) }
{
    let count = cloud.len() as usize;
    let mut parts = vec![in alloc; cloud.len(); count]?;
    let mut known = vec![in alloc; false; count]?;
    for ix in 0..cloud.len() {
        let part = part_above(cloud, tops, &parts, &known, ix);
        put_up(cloud, &mut parts, &mut known, ix, part);
    }
    Ok(parts)
}

// Whether a top has a part, and a provider whose parent has one is of that part.
fn is_linked(cloud: &Cloud, tops: &[bool], parts: &[u32], ix: u32) -> bool
    requires provider { ix < length (providers_of cloud.now) }
    requires tops { length tops.now ≡ length (providers_of cloud.now) }
    requires parts { length parts.now ≡ length (providers_of cloud.now) }
    ensures { result ≡ true → IsLinked (providers_of cloud.now) tops.now parts.now ix }
{
    let part = parts[ix as usize];
    if tops[ix as usize] && part >= cloud.len() {
        return false;
    }
    match cloud.parent(ix) {
        Some(parent) => parts[parent as usize] >= cloud.len() || parts[parent as usize] == part,
        None => true,
    }
}

// Whether each top has a part, and each provider whose parent has one is of that part.
fn are_linked(cloud: &Cloud, tops: &[bool], parts: &[u32]) -> bool
    requires tops { length tops.now ≡ length (providers_of cloud.now) }
    requires parts { length parts.now ≡ length (providers_of cloud.now) }
    ensures { result ≡ true → AreLinked (providers_of cloud.now) tops.now parts.now }
{
    for ix in 0..cloud.len() {
        if !is_linked(cloud, tops, parts, ix) {
            return false;
        }
    }
    true
}

// The parts of which each reaches down from a top; one part of all where the draft isn't right.
fn all_parts(alloc: Global, choices: &Choices, k: usize) -> Result<Vec<u32>, NoMemory>
    requires { k < length (asked_in choices.now.ledger.now).subtrees }
    ensures { IfOk result (λ parts. ArePartsIn choices.now.ledger.now k parts.items) }
{
    let cloud = choices.ledger.cloud;
    let tops = tops_of(alloc, choices, k)?;
    let parts = draft(alloc, cloud, &tops)?;
    if are_linked(cloud, &tops, &parts) {
        return Ok(parts);
    }
    Ok(vec![in alloc; 0u32; cloud.len() as usize]?)
}

// Marks the parts in which the providers of a list stand.
fn mark_parts(marks: &mut [bool], parts: &[u32], list: &[u32])
    requires { All (λ p. p < length parts.now) list.now }
    ensures count { length marks.new ≡ length marks.old }
    ensures marked { (j : ℕ) → j < length list.now
        → slice_index parts.now (slice_index list.now j) < length marks.old
        → slice_index_or marks.new (slice_index parts.now (slice_index list.now j)) true ≡ true }
{
    for ix in list {
        let part = parts[*ix as usize] as usize;
        if part < marks.len() {
            marks[part] = true;
        }
    }
}

// Drops the parts that have no mark.
fn keep_marked(parts: &mut [u32], marks: &[bool], none: u32)
    ensures count { length parts.new ≡ length parts.old }
    ensures kept { (p : ℕ) → p < length parts.old
        → slice_index_or marks.now (slice_index parts.old p) true ≡ true
        → slice_index parts.new p ≡ slice_index parts.old p }
{
    for i in 0..parts.len() {
        let part = parts[i] as usize;
        if part < marks.len() && !marks[part] {
            parts[i] = none;
        }
    }
}

// Keeps the parts in which some provider of a list stands.
fn keep_seen(alloc: Global, parts: &mut [u32], list: &[u32], none: u32) -> Result<(), NoMemory>
    requires { All (λ p. p < length parts.old) list.now }
    ensures { IfOk result (λ _. KeepSeen parts.old list.now parts.new) }
{
    let mut marks = vec![in alloc; false; parts.len()]?;
    mark_parts(&mut marks, parts, list);
    keep_marked(parts, &marks, none);
    Ok(())
}

// Keeps the parts in which some choice of a slot stands, where a list names the slot.
fn keep_slot(
    alloc: Global,
    choices: &Choices,
    k: usize,
    s: usize,
    parts: &mut [u32],
) -> Result<(), NoMemory>
    requires names { k < length (asked_in choices.now.ledger.now).subtrees }
    requires slot { s < length (slots_of (asked_in choices.now.ledger.now)) }
    requires parts { ArePartsIn choices.now.ledger.now k parts.old }
    ensures { IfOk result (λ _. ArePartsIn choices.now.ledger.now k parts.new) }
{
    if !is_listed(choices.ledger.query, k, s) {
        return Ok(());
    }
    keep_seen(alloc, parts, choices.of_slot(s), choices.ledger.cloud.len())
}

/// For each provider the part of the forest in which it may stand with the others that a list of `same_subtree` names, or
/// the number of all providers where it can't: some choice of a slot that the list names is above the whole part, and each
/// of these slots has a choice in it.
pub(crate) fn parts_of(alloc: Global, choices: &Choices, k: usize) -> Result<Vec<u32>, NoMemory>
    requires { k < length (asked_in choices.now.ledger.now).subtrees }
    ensures { IfOk result (λ parts. ArePartsIn choices.now.ledger.now k parts.items) }
{
    let mut parts = all_parts(alloc, choices, k)?;
    for s in 0..count_slots(choices.ledger.query) {
        keep_slot(alloc, choices, k, s, &mut parts)?;
    }
    Ok(parts)
}
