//! Placements as lines: the token of each, or its names.

ghost use Rattle.std.specs.Prelude.{◌≡◌, ◌≢◌, ◌≤◌, ◌⊎◌, ◌∷◌, ℕ, List, IfOk, IfSome, OnOk, Some, Err, true, false, is_some, length, min};
ghost use Rattle.ac_cloud.specs.Cloud.CloudWorld.{providers_of};
ghost use Rattle.ac_query.specs.Shown.Queries.{asked_of};
ghost use Rattle.ac_report.specs.Outcomes.{WritesEach};
ghost use Rattle.ac_report.specs.Pages.{IsAssignment};
ghost use Rattle.ac_report.specs.Called.{AreCalled, line_by, providers_called};
ghost use Rattle.ac_report.specs.declared.fault.PageFault.TheVariants as fault;
ghost use Rattle.ac_rules.specs.Judge.{is_candidate};
ghost use Rattle.ac_rules.specs.Pages.{candidates};
ghost use Rattle.ac_rules.specs.Shown.Assignments.{assigned_of};
ghost use Rattle.ac_rules.specs.Together.{sums};
ghost use Rattle.ac_fill.specs.Ends.{AreAhead, Ends, PlacesAll, start_of};
ghost use Rattle.ac_fill.specs.Filled.{after, asks_units, filled};
ghost use Rattle.ac_fill.specs.Shown.{asked_in, with_taken, IsTakenOf};

use crate::takings::Takings;
use ac_base::{NoMemory, Sink};
use ac_cloud::Cloud;
use ac_query::Query;
use ac_report::lines::{is_over, one_less, push_piece, put_line_by};
use ac_report::{Names, PageFault};
use ac_rules::{Assignment, Source};
use std::alloc::{AllocError, Global};

/// How many placements were made, at most 4294967295, and what they took.
#[derive(Drop)]
pub struct Filled<'a> {
    pub count: u32,
    pub takings: Takings<'a>,
}

/// How far it has come.
#[derive(Drop)]
pub(crate) struct Filling<'a> {
    pub(crate) filled: Filled<'a>,
    // How many placements are still wanted; without a limit, all.
    pub(crate) wanted: Option<u32>,
    // The front of the list that was placed last for which there is no room any more.
    pub(crate) full: Vec<u32>,
}

impl<'a> Filling<'a> {
    ghost use Rattle.ac_fill.specs.Ends.{count_at, stand_of, takings_of, world_at, IsFull};
    ghost use Rattle.ac_fill.specs.Shown.{SumsFit};

    /// Where nothing is placed yet, and so many are wanted.
    pub(crate) fn begin(
        alloc: Global,
        cloud: &Cloud,
        query: &'a Query,
        wanted: Option<u32>,
    ) -> Result<Filling<'a>, NoMemory>
        ensures query { IfOk result (λ f. asked_in (takings_of f) ≡ asked_of query.now) }
        ensures fits { IfOk result (λ f. IsTakenOf (providers_of cloud.now) (takings_of f)) }
        ensures stand { IfOk result (λ f. stand_of (providers_of cloud.now) f
            ≡ start_of wanted (providers_of cloud.now)) }
    {
        let takings = Takings::new(alloc, cloud, query)?;
        Ok(Filling {
            filled: Filled { count: 0, takings },
            wanted,
            full: Vec::new(alloc),
        })
    }

    /// Whether one more placement of a list is wanted, and there is room for it.
    pub(crate) fn wants(&self, assignment: &Assignment<'_>) -> bool
        requires query { asked_of assignment.now.query.now ≡ asked_in (takings_of self.now) }
        requires slots { IsAssignment (providers_of assignment.now.cloud.now)
            (asked_in (takings_of self.now)) assignment.now.list.now }
        requires fits { IsTakenOf (providers_of assignment.now.cloud.now) (takings_of self.now) }
        ensures wanted { result ≡ true → self.now.wanted ≢ Some 0 }
        ensures room { result ≡ true
            → sums (world_at (providers_of assignment.now.cloud.now) self.now)
            (assigned_of assignment.now) ≡ true }
        ensures small { result ≡ true
            → SumsFit (providers_of assignment.now.cloud.now) (takings_of self.now)
            (assigned_of assignment.now) }
        ensures otherwise { result ≡ false → (self.now.wanted ≡ Some 0)
            ⊎ (sums (world_at (providers_of assignment.now.cloud.now) self.now)
            (assigned_of assignment.now) ≡ false) }
    {
        !is_over(self.wanted) && self.filled.takings.has_room(assignment)
    }

    /// Keeps the shortest front of a list for which there is no room.
    pub(crate) fn keep_front(&mut self, assignment: &Assignment<'_>) -> Result<(), AllocError>
        requires query { asked_of assignment.now.query.now ≡ asked_in (takings_of self.old) }
        requires fits { IsTakenOf (providers_of assignment.now.cloud.now) (takings_of self.old) }
        ensures filled { self.new.filled ≡ self.old.filled }
        ensures wanted { self.new.wanted ≡ self.old.wanted }
        ensures full { IfOk result (λ _.
            sums (world_at (providers_of assignment.now.cloud.now) self.old)
            (assigned_of assignment.now) ≡ false
            → IsFull (providers_of assignment.now.cloud.now) self.new) }
    {
        let front = self.filled.takings.full_front(assignment);
        self.full.clear();
        self.full.extend_from_slice(front)
    }

    // Writes a line for each placement of a list that there is room for, and that is wanted. It keeps a front of the list that has no room then.
    fn place<W: Sink>(
        &mut self,
        alloc: Global,
        text: &mut Vec<u8>,
        names: Option<&Names<'_>>,
        assignment: &Assignment<'_>,
        out: &mut W,
    ) -> Result<(), PageFault>
        requires names { IfSome names (λ names. AreCalled
            (providers_called (providers_of assignment.now.cloud.now)) names.now) }
        requires query { asked_of assignment.now.query.now ≡ asked_in (takings_of self.old) }
        requires list { IsAssignment (providers_of assignment.now.cloud.now)
            (asked_in (takings_of self.old)) assignment.now.list.now }
        requires candidate { is_candidate (providers_of assignment.now.cloud.now)
            (asked_in (takings_of self.old)) assignment.now.list.now ≡ true }
        requires fits { IsTakenOf (providers_of assignment.now.cloud.now) (takings_of self.old) }
        requires asks { asks_units (asked_in (takings_of self.old)) ≡ true }
        requires small { count_at self.old ≤ 4294967295 }
        ensures query { asked_in (takings_of self.new) ≡ asked_in (takings_of self.old) }
        ensures fits { IsTakenOf (providers_of assignment.now.cloud.now) (takings_of self.new) }
        ensures small { count_at self.new ≤ 4294967295 }
        ensures places { (rest : List (List ℕ))
            → AreAhead (world_at (providers_of assignment.now.cloud.now) self.old)
            (asked_in (takings_of self.old)) (assignment.now.list.now ∷ rest)
            → PlacesAll W.taken W.failures (is_some names.entry)
            (providers_of assignment.now.cloud.now) (asked_in (takings_of self.old))
            (stand_of (providers_of assignment.now.cloud.now) self.old)
            (stand_of (providers_of assignment.now.cloud.now) self.new) rest out.old out.new
            result }
        ensures full { OnOk result ((self.new.wanted ≡ Some 0 → ⊥)
            → IsFull (providers_of assignment.now.cloud.now) self.new) }
        ensures untried { result ≢ Err fault.TooManyTries }
    {
        'room: while self.wants(assignment) {
            put_line_by(alloc, text, assignment.cloud, names, assignment.list)?;
            push_piece(out, text)?;
            self.filled.takings.take(assignment.list);
            self.filled.count = self.filled.count.saturating_add(1);
            self.wanted = one_less(self.wanted);
        }
        self.keep_front(assignment)?;
        Ok(())
    }
}

// Writes a line for each placement.
fn write_placements<'a, S: Source, W: Sink>(
    alloc: Global,
    cloud: &Cloud,
    names: Option<&Names<'_>>,
    query: &'a Query,
    source: &mut S,
    out: &mut W,
) -> Result<Filled<'a>, PageFault>
    requires names { IfSome names (λ names.
        AreCalled (providers_called (providers_of cloud.now)) names.now) }
    requires whole { S.left source.old
        ≡ candidates (providers_of cloud.now) (asked_of query.now) }
    requires asks { asks_units (asked_of query.now) ≡ true }
    ensures ends { Ends W.taken W.failures (is_some names.entry) (providers_of cloud.now)
        (asked_of query.now) (start_of (asked_of query.now).limit (providers_of cloud.now))
        out.old out.new result }
    ensures stopped { result ≡ Err fault.TooManyTries → S.may_stop source.old }
{
    let mut filling = Filling::begin(alloc, cloud, query, query.limit())?;
    let mut text = Vec::new(alloc);
    'lists: while !is_over(filling.wanted) {
        match source.next()? {
            None => return Ok(filling.filled),
            Some(list) => {
                let assignment = Assignment { cloud, query, list };
                filling.place(alloc, &mut text, names, &assignment, out)?;
                source.skip(&filling.full);
            }
        }
    }
    Ok(filling.filled)
}

/// Places a query again and again, each time at the first candidate that the placements before it left, until there is none, or as often as the
/// query's limit says. It writes each placement as a line, of UUIDs or by names, in one pass of a source of all candidates. It answers how many
/// placements there were, and what they took.
pub fn write_filled<'a, S: Source, W: Sink>(
    alloc: Global,
    cloud: &Cloud,
    names: Option<&Names<'_>>,
    query: &'a Query,
    source: &mut S,
    out: &mut W,
) -> Result<Filled<'a>, PageFault>
    requires names { IfSome names (λ names.
        AreCalled (providers_called (providers_of cloud.now)) names.now) }
    requires whole { S.left source.old
        ≡ candidates (providers_of cloud.now) (asked_of query.now) }
    requires asks { asks_units (asked_of query.now) ≡ true }
    ensures writes { WritesEach W.taken W.failures (S.may_stop source.old) out.old out.new result
        (line_by (is_some names.entry) (providers_of cloud.now))
        (filled (asked_of query.now).limit (providers_of cloud.now) (asked_of query.now)) }
    ensures count { IfOk result (λ f. f.count ≡ min (length
        (filled (asked_of query.now).limit (providers_of cloud.now) (asked_of query.now)))
        4294967295) }
    ensures world { IfOk result (λ f. with_taken f.takings (providers_of cloud.now)
        ≡ after (providers_of cloud.now) (asked_of query.now)
        (filled (asked_of query.now).limit (providers_of cloud.now) (asked_of query.now))) }
    ensures fits { IfOk result (λ f. IsTakenOf (providers_of cloud.now) f.takings) }
{
    write_placements(alloc, cloud, names, query, source, out)
}
