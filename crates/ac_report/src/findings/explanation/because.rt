//! Why there is no candidate, in one sentence: by the first number of the explanation that is 0.
ghost use Rattle.std.specs.Prelude.{◌≡◌, ◌+◌, ◌<◌, ◌≤◌, IfOk, IfSome, length, map, position};
ghost use Rattle.ac_cloud.specs.Cloud.CloudWorld.{providers_of};
ghost use Rattle.ac_query.specs.Asked.{slots_of};
ghost use Rattle.ac_query.specs.Shown.Groups.{group_asked, suffix_of};
ghost use Rattle.ac_query.specs.Shown.Queries.{asked_of};
ghost use Rattle.ac_find.specs.Apart.{AreSlots};
ghost use Rattle.ac_find.specs.Explained.{tree_counts};
ghost use Rattle.ac_find.specs.Shown.Explained.{slot_counted as counts_shown, slot_shown, trees_counted as trees_shown};
ghost use Rattle.ac_rules.specs.Placed.{slot_at};
ghost use Rattle.ac_report.specs.Findings.Explanation.{apart_reason, apart_told, each_slot_reason, failing, fallen_text, first_empty, kept_text, last_counted, other_asked, other_kept, reason, rules_failed, slot_reason, together_reason, trees_reason};
ghost use Rattle.ac_report.specs.Findings.Explanation.Shown.{found_shown};
ghost use Rattle.ac_base.specs.Writing.{Pushes};

use super::slot_rules::{push_aggregates, push_traits, push_tree};
use super::without::{FoundWithout, push_suffixes};
use super::{Told, push_asked};
use ac_base::pieces::digits::Digits;
use ac_base::pieces::push_pieces;
use ac_base::{NoMemory, Sink, WriteFailed, push_all};
use ac_cloud::Cloud;
use ac_find::{SlotCounts, SlotTold, TreeCounts, first_apart};
use ac_query::{Group, Query};
use ac_rules::slots::group_at;
use std::alloc::Global;

// What none of those does that the number before counts.
fn failing(counts: &SlotCounts) -> &'static [u8]
    ensures { result.now ≡ failing (counts_shown counts.now) }
{
    if counts.units == 0 {
        b" gives it"
    } else if counts.traits == 0 || counts.aggregates == 0 || counts.tree == 0 {
        b" meets"
    } else {
        b" has room for it"
    }
}

// The last number of a slot that isn't 0, or else how many providers there are.
fn last_counted(providers: u32, counts: &SlotCounts) -> u32
    ensures { result ≡ last_counted providers (counts_shown counts.now) }
{
    if counts.units == 0 {
        providers
    } else if counts.traits == 0 {
        counts.units
    } else if counts.aggregates == 0 {
        counts.traits
    } else if counts.tree == 0 {
        counts.aggregates
    } else {
        counts.tree
    }
}

// At which of the tests of a slot all fail.
#[tactic(auto, unfolding(crate::specs::Findings::Explanation::fallen_text))]
fn push_fallen<W: Sink>(out: &mut W, providers: u32, counts: &SlotCounts) -> Result<(), WriteFailed>
    ensures { Pushes W.taken W.failures out.old out.new result
        (fallen_text providers (counts_shown counts.now)) }
{
    push_pieces(
        out,
        &[
            b": none of ",
            Digits::of(last_counted(providers, counts)).as_bytes(),
            failing(counts),
        ],
    )
}

// The rules that none of them meets.
fn push_rules_failed<W: Sink>(
    out: &mut W,
    counts: &SlotCounts,
    group: &Group,
) -> Result<(), WriteFailed>
    ensures { Pushes W.taken W.failures out.old out.new result
        (rules_failed (counts_shown counts.now) (suffix_of group.now) (group_asked group.now)) }
{
    if counts.units == 0 {
        Ok(())
    } else if counts.traits == 0 {
        push_traits(out, group)
    } else if counts.aggregates == 0 {
        push_aggregates(out, group.member_of())
    } else if counts.tree == 0 {
        push_tree(out, group.in_tree())
    } else {
        Ok(())
    }
}

// The first slot that no provider serves, by its place.
fn first_empty(slots: &[SlotTold]) -> Option<usize>
    ensures first { result ≡ first_empty (map slot_shown slots.now) }
    ensures inside { IfSome result (λ s. s < length slots.now) }
{
    slots.iter().position(|told| told.counts.room == 0)
}

// A slot that no provider serves.
#[tactic(auto, using(ac_base::proofs::Leaving::behind))]
fn push_slot_reason<W: Sink>(
    out: &mut W,
    cloud: &Cloud,
    query: &Query,
    s: usize,
    counts: &SlotCounts,
) -> Result<(), WriteFailed>
    requires { s < length (slots_of (asked_of query.now)) }
    ensures { Pushes W.taken W.failures out.old out.new result
        (slot_reason (length (providers_of cloud.now)) (s + 1) (slot_at (asked_of query.now) s)
        (counts_shown counts.now)) }
{
    push_asked(out, b"because ", query, s)?;
    push_fallen(out, cloud.len(), counts)?;
    push_rules_failed(out, counts, group_at(query, s))?;
    push_all(out, b"\n")
}

// The later of two slots, unless it is the same.
fn push_other<W: Sink>(
    out: &mut W,
    query: &Query,
    earlier: usize,
    later: usize,
) -> Result<(), WriteFailed>
    requires { later < length (slots_of (asked_of query.now)) }
    ensures { Pushes W.taken W.failures out.old out.new result
        (other_asked (asked_of query.now) (earlier, later)) }
{
    if earlier == later {
        return Ok(());
    }
    push_asked(out, b" and ", query, later)
}

// A slot that no root serves, or two that none serves together.
#[tactic(auto, using(ac_base::proofs::Leaving::behind))]
fn push_apart<W: Sink>(
    out: &mut W,
    query: &Query,
    earlier: usize,
    later: usize,
) -> Result<(), WriteFailed>
    requires earlier { earlier < length (slots_of (asked_of query.now)) }
    requires later { later < length (slots_of (asked_of query.now)) }
    ensures { Pushes W.taken W.failures out.old out.new result
        (apart_reason (asked_of query.now) (earlier, later)) }
{
    push_asked(out, b"because no root has a provider for ", query, earlier)?;
    push_other(out, query, earlier, later)?;
    push_all(out, b"\n")
}

// Where no root serves each slot: the first that none serves, or the first two, if there are such.
fn push_each_slot<W: Sink>(
    out: &mut W,
    query: &Query,
    apart: Option<(usize, usize)>,
) -> Result<(), WriteFailed>
    requires { AreSlots (asked_of query.now) apart }
    ensures { Pushes W.taken W.failures out.old out.new result
        (each_slot_reason (asked_of query.now) apart) }
{
    match apart {
        None => push_all(out, b"because no root has a provider for each slot\n"),
        Some((earlier, later)) => push_apart(out, query, earlier, later),
    }
}

// That no providers go together, and what keeps them from it besides a `same_subtree`, if it is one thing alone.
fn other_kept(without: &FoundWithout) -> &'static [u8]
    ensures { result.now ≡ other_kept (found_shown without.now) }
{
    if without.policy.unwrap_or(false) {
        b"because no providers for the slots go together with group_policy=isolate"
    } else if without.required.unwrap_or(false) {
        b"because no providers for the slots go together with all required traits"
    } else {
        b"because no providers for the slots go together"
    }
}

// The first list of `same_subtree` without which there is a candidate, by its place.
fn first_kept(found: &[bool]) -> Option<usize>
    ensures first { result ≡ position (λ some. some) found.now }
    ensures inside { IfSome result (λ k. k < length found.now) }
{
    found.iter().position(|some| *some)
}

// That no providers go together, and what keeps them from it, if it is one thing alone.
fn push_kept<W: Sink>(out: &mut W, query: &Query, without: &FoundWithout) -> Result<(), WriteFailed>
    requires { length (found_shown without.now).subtrees ≤ length (asked_of query.now).subtrees }
    ensures { Pushes W.taken W.failures out.old out.new result
        (kept_text (asked_of query.now) (found_shown without.now)) }
{
    match first_kept(&without.subtrees) {
        None => push_all(out, other_kept(without)),
        Some(k) => push_suffixes(
            out,
            b"because no providers for the slots go together with same_subtree=",
            &query.subtrees()[k],
        ),
    }
}

// Where each slot is served, and what is required is held, at some root.
#[tactic(auto, using(ac_base::proofs::Leaving::behind))]
fn push_together<W: Sink>(
    out: &mut W,
    query: &Query,
    without: &FoundWithout,
) -> Result<(), WriteFailed>
    requires { length (found_shown without.now).subtrees ≤ length (asked_of query.now).subtrees }
    ensures { Pushes W.taken W.failures out.old out.new result
        (together_reason (asked_of query.now) (found_shown without.now)) }
{
    push_kept(out, query, without)?;
    push_all(out, b"\n")
}

// What no root has, where each slot is served by some provider.
fn push_trees_reason<W: Sink>(
    out: &mut W,
    told: &Told<'_>,
    without: &FoundWithout,
) -> Result<(), WriteFailed>
    requires { length (found_shown without.now).subtrees
        ≤ length (asked_of told.now.query.now).subtrees }
    ensures { Pushes W.taken W.failures out.old out.new result
        (trees_reason (asked_of told.now.query.now) (trees_shown told.now.trees.now)
        told.now.apart (found_shown without.now)) }
{
    if told.trees.root_traits == 0 {
        push_all(
            out,
            b"because no root has the traits that are asked of it\n",
        )
    } else if told.trees.each_slot == 0 {
        push_each_slot(out, told.query, told.apart)
    } else if told.trees.required_traits == 0 {
        push_all(out, b"because no root has all required traits\n")
    } else {
        push_together(out, told.query, without)
    }
}

/// Pushes why there is no candidate, by what is told of the slots and of the trees, and what was found without one thing.
pub(super) fn push_because<W: Sink>(
    out: &mut W,
    told: &Told<'_>,
    without: &FoundWithout,
) -> Result<(), WriteFailed>
    requires { length (found_shown without.now).subtrees
        ≤ length (asked_of told.now.query.now).subtrees }
    ensures { Pushes W.taken W.failures out.old out.new result
        (reason (providers_of told.now.cloud.now) (asked_of told.now.query.now)
        (found_shown without.now)) }
{
    match first_empty(told.slots) {
        Some(s) => push_slot_reason(out, told.cloud, told.query, s, &told.slots[s].counts),
        None => push_trees_reason(out, told, without),
    }
}

/// The first slot that no root serves, or the first two that none serves together, where none serves each slot.
pub fn find_apart(
    alloc: Global,
    cloud: &Cloud,
    query: &Query,
    trees: &TreeCounts,
) -> Result<Option<(usize, usize)>, NoMemory>
    requires { trees_shown trees.now ≡ tree_counts (providers_of cloud.now) (asked_of query.now) }
    ensures found { IfOk result (λ apart.
        apart ≡ apart_told (providers_of cloud.now) (asked_of query.now)) }
    ensures inside { IfOk result (λ apart. AreSlots (asked_of query.now) apart) }
{
    if trees.each_slot == 0 {
        first_apart(alloc, cloud, query)
    } else {
        Ok(None)
    }
}
