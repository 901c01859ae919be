//! Placements that are counted, and not written: of each list as many at once as there is room for.

ghost use Rattle.std.specs.Prelude.{◌≡◌, ◌≢◌, ◌<◌, ◌≤◌, ◌∷◌, ℕ, List, IfOk, OnOk, Some, Err, true, length, min};
ghost use Rattle.ac_cloud.specs.Cloud.CloudWorld.{providers_of};
ghost use Rattle.ac_query.specs.Shown.Queries.{asked_of};
ghost use Rattle.ac_report.specs.Pages.{IsAssignment};
ghost use Rattle.ac_rules.specs.Judge.{is_candidate};
ghost use Rattle.ac_rules.specs.Pages.{candidates};
ghost use Rattle.ac_rules.specs.Shown.Assignments.{assigned_of};
ghost use Rattle.ac_rules.specs.Together.{sums};
ghost use Rattle.ac_search.specs.declared.fault.SearchFault.TheVariants as fault;
ghost use Rattle.ac_fill.specs.Ends.{AreAhead, CountsAll, CountsSome, IsFull, as_wanted, count_at, fewer, stand_of, takings_of, world_at};
ghost use Rattle.ac_fill.specs.Filled.{after, asks_units, filled, units_left};
ghost use Rattle.ac_fill.specs.Shown.{asked_in, with_taken, IsTakenOf};

use crate::placements::{Filled, Filling};
use ac_base::NoMemory;
use ac_cloud::Cloud;
use ac_query::Query;
use ac_report::lines::is_over;
use ac_rules::{Assignment, Source};
use ac_search::SearchFault;
use std::alloc::Global;

// As many of a number of placements as are wanted.
fn as_wanted(wanted: Option<u32>, times: u32) -> u32
    ensures { result ≡ as_wanted wanted times }
{
    match wanted {
        Some(count) => times.min(count),
        None => times,
    }
}

// How many placements are wanted behind so many.
fn fewer(wanted: Option<u32>, times: u32) -> Option<u32>
    ensures { result ≡ fewer wanted times }
{
    Some(wanted?.saturating_sub(times))
}

impl<'a> Filling<'a> {
    // Counts as many placements of a list as there is room for, and as are wanted.
    fn count_some(&mut self, assignment: &Assignment<'_>)
        requires query { asked_of assignment.now.query.now ≡ asked_in (takings_of self.old) }
        requires list { IsAssignment (providers_of assignment.now.cloud.now)
            (asked_in (takings_of self.old)) assignment.now.list.now }
        requires candidate { is_candidate (providers_of assignment.now.cloud.now)
            (asked_in (takings_of self.old)) assignment.now.list.now ≡ true }
        requires fits { IsTakenOf (providers_of assignment.now.cloud.now) (takings_of self.old) }
        requires asks { asks_units (asked_in (takings_of self.old)) ≡ true }
        requires wanted { self.old.wanted ≢ Some 0 }
        requires room { sums (world_at (providers_of assignment.now.cloud.now) self.old)
            (assigned_of assignment.now) ≡ true }
        ensures query { asked_in (takings_of self.new) ≡ asked_in (takings_of self.old) }
        ensures fits { IsTakenOf (providers_of assignment.now.cloud.now) (takings_of self.new) }
        ensures small { count_at self.new ≤ 4294967295 }
        ensures less { units_left (world_at (providers_of assignment.now.cloud.now) self.new)
            < units_left (world_at (providers_of assignment.now.cloud.now) self.old) }
        ensures counts { (rest : List (List ℕ))
            → AreAhead (world_at (providers_of assignment.now.cloud.now) self.old)
            (asked_in (takings_of self.old)) (assignment.now.list.now ∷ rest)
            → CountsSome (asked_in (takings_of self.old))
            (stand_of (providers_of assignment.now.cloud.now) self.old)
            (stand_of (providers_of assignment.now.cloud.now) self.new)
            (assignment.now.list.now ∷ rest) }
    {
        let room = self.filled.takings.times(assignment);
        let times = as_wanted(self.wanted, room);
        self.filled.takings.take_times(assignment.list, times);
        self.filled.count = self.filled.count.saturating_add(times);
        self.wanted = fewer(self.wanted, times);
    }

    // Counts all placements of a list that there is room for, and that are wanted. It keeps a front of the list that has no room then.
    fn count_list(&mut self, assignment: &Assignment<'_>) -> Result<(), NoMemory>
        requires query { asked_of assignment.now.query.now ≡ asked_in (takings_of self.old) }
        requires list { IsAssignment (providers_of assignment.now.cloud.now)
            (asked_in (takings_of self.old)) assignment.now.list.now }
        requires candidate { is_candidate (providers_of assignment.now.cloud.now)
            (asked_in (takings_of self.old)) assignment.now.list.now ≡ true }
        requires fits { IsTakenOf (providers_of assignment.now.cloud.now) (takings_of self.old) }
        requires asks { asks_units (asked_in (takings_of self.old)) ≡ true }
        requires small { count_at self.old ≤ 4294967295 }
        ensures query { asked_in (takings_of self.new) ≡ asked_in (takings_of self.old) }
        ensures fits { IsTakenOf (providers_of assignment.now.cloud.now) (takings_of self.new) }
        ensures small { count_at self.new ≤ 4294967295 }
        ensures counts { OnOk result ((rest : List (List ℕ))
            → AreAhead (world_at (providers_of assignment.now.cloud.now) self.old)
            (asked_in (takings_of self.old)) (assignment.now.list.now ∷ rest)
            → CountsAll (asked_in (takings_of self.old))
            (stand_of (providers_of assignment.now.cloud.now) self.old)
            (stand_of (providers_of assignment.now.cloud.now) self.new) rest) }
        ensures full { OnOk result ((self.new.wanted ≡ Some 0 → ⊥)
            → IsFull (providers_of assignment.now.cloud.now) self.new) }
    {
        'room: while self.wants(assignment) {
            self.count_some(assignment);
        }
        self.keep_front(assignment)?;
        Ok(())
    }
}

/// Places a query again and again as [`write_filled`](crate::write_filled) does, as often as is wanted, and writes nothing.
pub fn count_filled<'a, S: Source>(
    alloc: Global,
    cloud: &Cloud,
    query: &'a Query,
    wanted: Option<u32>,
    source: &mut S,
) -> Result<Filled<'a>, SearchFault>
    requires whole { S.left source.old
        ≡ candidates (providers_of cloud.now) (asked_of query.now) }
    requires asks { asks_units (asked_of query.now) ≡ true }
    ensures count { IfOk result (λ f. f.count ≡ min (length
        (filled wanted (providers_of cloud.now) (asked_of query.now))) 4294967295) }
    ensures world { IfOk result (λ f. with_taken f.takings (providers_of cloud.now)
        ≡ after (providers_of cloud.now) (asked_of query.now)
        (filled wanted (providers_of cloud.now) (asked_of query.now))) }
    ensures fits { IfOk result (λ f. IsTakenOf (providers_of cloud.now) f.takings) }
    ensures stopped { result ≡ Err fault.TooManyTries → S.may_stop source.old }
{
    let mut filling = Filling::begin(alloc, cloud, query, wanted)?;
    'lists: while !is_over(filling.wanted) {
        match source.next()? {
            None => return Ok(filling.filled),
            Some(list) => {
                let assignment = Assignment { cloud, query, list };
                filling.count_list(&assignment)?;
                source.skip(&filling.full);
            }
        }
    }
    Ok(filling.filled)
}
