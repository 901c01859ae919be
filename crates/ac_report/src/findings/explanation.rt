//! How far a query comes, told without memory once it is found: a line for each slot, one for the trees, what nobody has, whether there is a candidate; where there is
//! none, whether there would be one without one of the things that are asked of several slots together, and why; and where the service may answer otherwise.

mod because;
mod differences;
mod nobody;
mod slot_rules;
mod without;

ghost use Rattle.std.specs.Prelude.{◌≡◌, ◌+◌, ◌<◌, ◌≤◌, ◌++◌, Err, IfOk, None, length, map};
ghost use Rattle.ac_cloud.specs.Cloud.CloudWorld.{providers_of};
ghost use Rattle.ac_query.specs.Asked.{slots_of};
ghost use Rattle.ac_query.specs.Shown.Groups.{need_entry};
ghost use Rattle.ac_query.specs.Shown.Queries.{asked_of};
ghost use Rattle.ac_find.specs.Apart.{AreSlots};
ghost use Rattle.ac_find.specs.Explained.{slot_told, tree_counts};
ghost use Rattle.ac_find.specs.Shown.Explained.{slot_counted as counts_shown, slot_shown, trees_counted as trees_shown};
ghost use Rattle.ac_rules.specs.Placed.{slot_at};
ghost use Rattle.ac_report.specs.Findings.Explanation.{apart_told, because_line, class_text, classes_text, explanation_status, left_at, left_mark, left_text, room_at, room_mark, room_text, slot_asked, slot_counted, slot_end, slot_line, slot_lines, slot_name, told_text, trees_line};
ghost use Rattle.ac_report.specs.Findings.Explanation.Candidates.{candidates_line, found_without, has_candidate, without_lines};
ghost use Rattle.ac_report.specs.Findings.Explanation.Differing.{differs_lines};
ghost use Rattle.ac_report.specs.Findings.Explanation.Shown.{found_shown};
ghost use Rattle.ac_base.specs.Writing.{Pushes};
ghost use Rattle.ac_search.specs.Shown.Walk.{MayStop};
ghost use Rattle.ac_search.specs.declared.fault.SearchFault.TheVariants as fault;
ghost use Rattle.std.proofs.Props.{props};

pub use self::because::find_apart;
use self::because::push_because;
pub use self::differences::differences_text;
use self::nobody::push_missing;
use self::without::push_without;
pub use self::without::{FoundWithout, find_without};
use crate::findings::asks::push_needs;
use crate::request::suffix_text;
use ac_base::pieces::digits::Digits;
use ac_base::pieces::push_pieces;
use ac_base::{Sink, WriteFailed, push_all};
use ac_cloud::Cloud;
use ac_find::{SlotCounts, SlotTold, TreeCounts};
use ac_query::{Need, Query};
use ac_rules::Source;
use ac_rules::slots::{group_at, needs_at};
use ac_search::{SearchFault, Walk};
use itoa::Buffer;
use std::alloc::Global;

// A slot by its number and the suffix of its group, behind a mark.
#[tactic(auto, unfolding(crate::specs::Findings::Explanation::slot_name))]
fn push_name<W: Sink>(out: &mut W, mark: &[u8], query: &Query, s: usize) -> Result<(), WriteFailed>
    requires { s < length (slots_of (asked_of query.now)) }
    ensures { Pushes W.taken W.failures out.old out.new result
        (slot_name mark.now (s + 1) (slot_at (asked_of query.now) s)) }
{
    push_pieces(
        out,
        &[
            mark,
            b"slot ",
            Digits::of(s as u32 + 1).as_bytes(),
            b" \"",
            suffix_text(group_at(query, s)).as_bytes(),
            b"\"",
        ],
    )
}

// How many have room for a class of a slot: the first stands behind a bracket.
#[tactic(auto, unfolding(crate::specs::Findings::Explanation::room_text))]
fn push_room<W: Sink>(out: &mut W, k: usize, need: &Need, room: u32) -> Result<(), WriteFailed>
    ensures { Pushes W.taken W.failures out.old out.new result
        (room_text (room_mark k) (need_entry need.now).0 room) }
{
    let mark = if k == 0 { b" (" } else { b", " };
    push_pieces(
        out,
        &[
            mark,
            need.class().text().as_bytes(),
            b" ",
            Digits::of(room).as_bytes(),
        ],
    )
}

// The most that is left of a class, behind a mark.
#[tactic(auto, unfolding(crate::specs::Findings::Explanation::left_text))]
fn push_left<W: Sink>(out: &mut W, mark: &[u8], left: u64) -> Result<(), WriteFailed>
    ensures { Pushes W.taken W.failures out.old out.new result (left_text mark.now left) }
{
    let mut digits = Buffer::new();
    push_pieces(
        out,
        &[mark, b"largest left ", digits.format(left).as_bytes()],
    )
}

// A bracket where nothing is told before, or a comma.
fn left_mark(rooms: &[u32]) -> &'static [u8]
    ensures { result.now ≡ left_mark rooms.now }
{
    if rooms.is_empty() { b" (" } else { b", " }
}

// How many have room for the class at a place, where that is told.
fn push_room_at<W: Sink>(
    out: &mut W,
    needs: &[Need],
    rooms: &[u32],
    k: usize,
) -> Result<(), WriteFailed>
    requires { k < length needs.now }
    ensures { Pushes W.taken W.failures out.old out.new result
        (room_at (map need_entry needs.now) rooms.now k) }
{
    if k < rooms.len() {
        push_room(out, k, &needs[k], rooms[k])?;
    }
    Ok(())
}

// The most that is left of the class at a place, where that is told.
fn push_left_at<W: Sink>(out: &mut W, told: &SlotTold, k: usize) -> Result<(), WriteFailed>
    ensures { Pushes W.taken W.failures out.old out.new result (left_at (slot_shown told.now) k) }
{
    if k < told.lefts.len() {
        push_left(out, left_mark(&told.rooms), told.lefts[k])?;
    }
    Ok(())
}

// What is told of the class of a slot at a place.
#[tactic(auto, using(ac_base::proofs::Leaving::behind))]
fn push_class<W: Sink>(
    out: &mut W,
    needs: &[Need],
    told: &SlotTold,
    k: usize,
) -> Result<(), WriteFailed>
    requires { k < length needs.now }
    ensures { Pushes W.taken W.failures out.old out.new result
        (class_text (map need_entry needs.now) (slot_shown told.now) k) }
{
    push_room_at(out, needs, &told.rooms, k)?;
    push_left_at(out, told, k)
}

// What is told of each class of a slot.
fn push_classes<W: Sink>(out: &mut W, needs: &[Need], told: &SlotTold) -> Result<(), WriteFailed>
    ensures { Pushes W.taken W.failures out.old out.new result
        (classes_text (map need_entry needs.now) (slot_shown told.now)) }
{
    for k in 0..needs.len() {
        push_class(out, needs, told, k)?;
    }
    Ok(())
}

// The end of a slot's line: a bracket, where classes are told.
fn slot_end(told: &SlotTold) -> &'static [u8]
    ensures { result.now ≡ slot_end (slot_shown told.now) }
{
    if told.rooms.is_empty() && told.lefts.is_empty() {
        b"\n"
    } else {
        b")\n"
    }
}

// How many of all providers meet what a slot asks.
#[tactic(auto, unfolding(crate::specs::Findings::Explanation::slot_counted))]
fn push_counts<W: Sink>(out: &mut W, providers: u32, counts: &SlotCounts) -> Result<(), WriteFailed>
    ensures { Pushes W.taken W.failures out.old out.new result
        (slot_counted providers (counts_shown counts.now)) }
{
    push_pieces(
        out,
        &[
            b": units ",
            Digits::of(counts.units).as_bytes(),
            b" of ",
            Digits::of(providers).as_bytes(),
            b", traits ",
            Digits::of(counts.traits).as_bytes(),
            b", aggregates ",
            Digits::of(counts.aggregates).as_bytes(),
            b", tree ",
            Digits::of(counts.tree).as_bytes(),
            b", room ",
            Digits::of(counts.room).as_bytes(),
        ],
    )
}

// A slot and what it asks, behind a mark.
#[tactic(auto, using(ac_base::proofs::Leaving::behind))]
fn push_asked<W: Sink>(out: &mut W, mark: &[u8], query: &Query, s: usize) -> Result<(), WriteFailed>
    requires { s < length (slots_of (asked_of query.now)) }
    ensures { Pushes W.taken W.failures out.old out.new result
        (slot_asked mark.now (s + 1) (slot_at (asked_of query.now) s)) }
{
    push_name(out, mark, query, s)?;
    push_needs(out, b" ", needs_at(query, s))
}

// What is told of a slot, behind what it asks.
#[tactic(auto, using(ac_base::proofs::Leaving::behind))]
fn push_told<W: Sink>(
    out: &mut W,
    providers: u32,
    needs: &[Need],
    told: &SlotTold,
) -> Result<(), WriteFailed>
    ensures { Pushes W.taken W.failures out.old out.new result
        (slot_counted providers (slot_shown told.now).counts
        ++ (classes_text (map need_entry needs.now) (slot_shown told.now)
        ++ slot_end (slot_shown told.now))) }
{
    push_counts(out, providers, &told.counts)?;
    push_classes(out, needs, told)?;
    push_all(out, slot_end(told))
}

// The line of a slot.
#[tactic(auto, using(ac_base::proofs::Leaving::behind))]
fn push_slot<W: Sink>(
    out: &mut W,
    cloud: &Cloud,
    query: &Query,
    s: usize,
    told: &SlotTold,
) -> Result<(), WriteFailed>
    requires { s < length (slots_of (asked_of query.now)) }
    ensures { Pushes W.taken W.failures out.old out.new result
        (slot_line (providers_of cloud.now) (s + 1) (slot_at (asked_of query.now) s)
        (slot_shown told.now)) }
{
    push_asked(out, b"", query, s)?;
    push_told(out, cloud.len(), needs_at(query, s), told)
}

// The lines of all slots.
fn push_slots<W: Sink>(
    out: &mut W,
    cloud: &Cloud,
    query: &Query,
    slots: &[SlotTold],
) -> Result<(), WriteFailed>
    requires { map slot_shown slots.now
        ≡ map (slot_told (providers_of cloud.now)) (slots_of (asked_of query.now)) }
    ensures { Pushes W.taken W.failures out.old out.new result
        (slot_lines (providers_of cloud.now) (asked_of query.now)) }
{
    for (s, told) in slots.iter().enumerate() {
        push_slot(out, cloud, query, s, told)?;
    }
    Ok(())
}

// The line of the trees.
#[tactic(auto, unfolding(crate::specs::Findings::Explanation::trees_line))]
fn push_trees<W: Sink>(out: &mut W, counts: &TreeCounts) -> Result<(), WriteFailed>
    ensures { Pushes W.taken W.failures out.old out.new result
        (trees_line (trees_shown counts.now)) }
{
    push_pieces(
        out,
        &[
            b"trees ",
            Digits::of(counts.roots).as_bytes(),
            b": root traits ",
            Digits::of(counts.root_traits).as_bytes(),
            b", each slot ",
            Digits::of(counts.each_slot).as_bytes(),
            b", required traits ",
            Digits::of(counts.required_traits).as_bytes(),
            b"\n",
        ],
    )
}

// The line that says whether there is a candidate.
#[tactic(auto, unfolding(crate::specs::Findings::Explanation::Candidates::candidates_line))]
fn candidates_line(found: bool) -> &'static [u8]
    ensures { result.now ≡ candidates_line found }
{
    if found {
        b"candidates: some\n"
    } else {
        b"candidates: none\n"
    }
}

/// What was found of a query before a candidate is searched for, and whether there is one.
#[derive(Clone, Copy)]
pub struct Told<'a> {
    pub cloud: &'a Cloud,
    pub query: &'a Query,
    pub slots: &'a [SlotTold],
    pub trees: &'a TreeCounts,
    /// The first slot that no root serves, or the first two that none serves together, where none serves each slot.
    pub apart: Option<(usize, usize)>,
    pub found: bool,
    /// Where the service may answer otherwise.
    pub differences: &'a [u8],
    ghost slots_told: { map slot_shown slots.now ≡ map (slot_told (providers_of cloud.now)) (slots_of (asked_of query.now)) },
    ghost trees_told: { trees_shown trees.now ≡ tree_counts (providers_of cloud.now) (asked_of query.now) },
    ghost apart_told: { apart ≡ apart_told (providers_of cloud.now) (asked_of query.now) },
    ghost apart_inside: { AreSlots (asked_of query.now) apart } by { Prim.hlevel props },
    ghost differences_told: { differences.now ≡ differs_lines (providers_of cloud.now) (asked_of query.now) found },
}

impl<'a> Told<'a> {
    // Why there is no candidate, where there is none.
    #[tactic(auto, unfolding(crate::specs::Findings::Explanation::because_line))]
    fn push_because<W: Sink>(&self, out: &mut W, without: &FoundWithout) -> Result<(), WriteFailed>
        requires few { length (found_shown without.now).subtrees
            ≤ length (asked_of self.now.query.now).subtrees }
        requires found { found_shown without.now ≡ found_without
            (providers_of self.now.cloud.now) (asked_of self.now.query.now) self.now.found }
        ensures { Pushes W.taken W.failures out.old out.new result
            (because_line (providers_of self.now.cloud.now) (asked_of self.now.query.now)
            self.now.found) }
    {
        if self.found {
            return Ok(());
        }
        push_because(out, self, without)
    }

    /// Pushes what stands behind the counts: whether there is a candidate without one thing, why there is none, and where the service may answer
    /// otherwise.
    #[tactic(auto, using(ac_base::proofs::Leaving::behind))]
    pub fn push_reasons<W: Sink>(
        &self,
        out: &mut W,
        without: &FoundWithout,
    ) -> Result<(), WriteFailed>
        requires few { length (found_shown without.now).subtrees
            ≤ length (asked_of self.now.query.now).subtrees }
        requires found { found_shown without.now ≡ found_without
            (providers_of self.now.cloud.now) (asked_of self.now.query.now) self.now.found }
        ensures { Pushes W.taken W.failures out.old out.new result
            (without_lines (asked_of self.now.query.now) (found_shown without.now)
            ++ (because_line (providers_of self.now.cloud.now) (asked_of self.now.query.now)
            self.now.found
            ++ differs_lines (providers_of self.now.cloud.now) (asked_of self.now.query.now)
            self.now.found)) }
    {
        push_without(out, self.query, without)?;
        self.push_because(out, without)?;
        push_all(out, self.differences)
    }

    /// Pushes the lines of the slots, that of the trees by their counts, what nobody has, and whether a candidate was found.
    #[tactic(auto, using(ac_base::proofs::Leaving::behind))]
    pub fn push_counts<W: Sink>(&self, out: &mut W) -> Result<(), WriteFailed>
        ensures { Pushes W.taken W.failures out.old out.new result
            (told_text (providers_of self.now.cloud.now) (asked_of self.now.query.now)
            self.now.found) }
    {
        push_slots(out, self.cloud, self.query, self.slots)?;
        push_trees(out, self.trees)?;
        push_missing(out, self.cloud, self.query)?;
        push_all(out, candidates_line(self.found))
    }
}

/// Whether there is a candidate. Where the counts say that no root has a provider for each slot and the traits that the group
/// without a suffix requires, there is none, and none is searched for. The search stops where it may make no more tries.
pub fn has_candidate(
    alloc: Global,
    cloud: &Cloud,
    query: &Query,
    trees: &TreeCounts,
    tries: Option<u64>,
) -> Result<bool, SearchFault>
    requires { trees_shown trees.now ≡ tree_counts (providers_of cloud.now) (asked_of query.now) }
    ensures found { IfOk result (λ found.
        found ≡ has_candidate (providers_of cloud.now) (asked_of query.now)) }
    ensures stopped { result ≡ Err fault.TooManyTries
        → MayStop tries (providers_of cloud.now) (asked_of query.now) None }
{
    if trees.required_traits == 0 {
        return Ok(false);
    }
    let mut walk = Walk::new(alloc, cloud, query, None)?.within(tries);
    let first = walk.next()?;
    Ok(first.is_some())
}

/// 0 where a candidate was found, 1 where there is none.
pub fn explanation_status(found: bool) -> u8
    ensures said { result ≡ explanation_status found }
    ensures few { result ≤ 1 }
{
    if found { 0 } else { 1 }
}
