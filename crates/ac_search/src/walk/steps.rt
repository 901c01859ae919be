//! Trying a provider behind the path of a walk, and taking it back.
ghost use Rattle.std.specs.Prelude.{◌≡◌, ◌<◌, ◌≤◌, length, true, false, suc, MatchOption, IsTrue, ◌↔◌, slice_set};
ghost use Rattle.std.specs.List.{All};
ghost use Rattle.ac_base.specs.Devices.{one_more};
ghost use Rattle.ac_query.specs.Asked.{slots_of};
ghost use Rattle.ac_query.specs.Shown.Queries.{asked_of};
ghost use Rattle.ac_cloud.specs.Cloud.CloudWorld.{providers_of};
ghost use Rattle.ac_prune.specs.Left.Accounts.{providers_in, asked_in};
ghost use Rattle.ac_rules.specs.Judge.{is_open};
ghost use Rattle.ac_rules.specs.Lists.{BeginsWith, PassesOver};
ghost use Rattle.ac_search.specs.Search.{IsStart, Enters, HasAt, least_at};
ghost use Rattle.ac_prune.specs.QuerySearch.{completes};
ghost use Rattle.ac_prune.specs.Search.{IsDead};
ghost use Rattle.ac_search.specs.Hosts.{stands};

use super::{Step, Walk};
use ac_cloud::Cloud;
use ac_query::Query;
use ac_rules::Assignment;

impl<'a> Walk<'a> {
    ghost use Rattle.ac_search.specs.Shown.Walk.{cloud_in, roots_in, search_in, place_in, slot_in, path_in, front_in, left_of, may_stop, IsSame};
    ghost use Rattle.ac_search.specs.Search.Steps.{Backs, IsNext, Goes, Skips, StepGives};

    // The next provider to try, where the slot has one more.
    pub(super) fn choice(&self) -> Option<u32>
        ensures { MatchOption result (length (slot_in self.now) ≤ place_in self.now)
            (IsNext self.now) }
    {
        let choices = &self.choices[self.depth];
        let place = self.places[self.depth];
        if place < choices.len() {
            Some(choices[place])
        } else {
            None
        }
    }

    // Writes the provider that is tried behind the path.
    fn put(&mut self, provider: u32)
        ensures same { IsSame self.old self.new }
        ensures whole { self.new.path.items
            ≡ slice_set self.old.path.items self.old.depth provider }
        ensures path { path_in self.new ≡ path_in self.old }
        ensures depth { self.new.depth ≡ self.old.depth }
        ensures place { place_in self.new ≡ place_in self.old }
        ensures probes { self.new.probes ≡ self.old.probes }
    {
        self.path[self.depth] = provider;
    }

    // Whether the path is open with the next choice behind it.
    fn stays_open(&self, provider: u32) -> bool
        requires { IsNext self.now provider }
        ensures { result ≡ is_open (providers_in self.now.ledger) (asked_in self.now.ledger)
            (front_in self.now) }
    {
        self.ledger.admits(&self.path[..self.depth], provider)
    }

    // Whether the path with the next choice behind it stands at a root that is looked at.
    fn stands(&self, provider: u32) -> bool
        requires { IsNext self.now provider }
        ensures { result ≡ stands (cloud_in self.now) (roots_in self.now) (front_in self.now) }
    {
        match &self.roots {
            Some(roots) => self
                .ledger
                .stands_at(roots, &self.path[..self.depth], provider),
            None => true,
        }
    }

    // Whether the path may lead on by the next choice.
    fn leads_on(&self, provider: u32) -> bool
        requires { IsNext self.now provider }
        ensures opens { result ≡ true → is_open (providers_in self.now.ledger)
            (asked_in self.now.ledger) (front_in self.now) ≡ true }
        ensures stands { result ≡ true
            → stands (cloud_in self.now) (roots_in self.now) (front_in self.now) ≡ true }
        ensures dead { result ≡ false → IsDead (search_in self.now) (front_in self.now) }
    {
        self.stays_open(provider) && self.stands(provider)
    }

    // Goes on to the next choice of the slot, after so many tries.
    pub(super) fn skip(&mut self, tries: u64)
        requires among { place_in self.old < length (slot_in self.old) }
        requires counted { tries ≡ one_more self.old.probes }
        ensures skips { Skips self.old self.new }
        ensures path { self.new.path.items ≡ self.old.path.items }
    {
        self.probes = tries;
        self.places[self.depth] += 1;
        self.seeking = false;
    }

    // Where the next slot begins behind the next choice, and whether the path is a front of the least list there.
    fn entry(&self, provider: u32) -> (usize, bool)
        requires next { IsNext self.now provider }
        requires short { suc self.now.depth < (search_in self.now).width }
        ensures { Enters (search_in self.now) self.now.least.items (front_in self.now)
            (suc self.now.depth) result.0 result.1 }
    {
        if self.seeking {
            if has_at(&self.least, self.depth, provider) {
                let next = self.depth + 1;
                let start = start_of(&self.choices[next], &self.least, next);
                return (start, true);
            }
        }
        (0, false)
    }

    // Goes down behind the next choice, after so many tries.
    fn place(&mut self, provider: u32, tries: u64)
        requires next { IsNext self.old provider }
        requires opens { is_open (providers_in self.old.ledger) (asked_in self.old.ledger)
            (front_in self.old) ≡ true }
        requires short { suc self.old.depth < (search_in self.old).width }
        requires counted { tries ≡ one_more self.old.probes }
        ensures goes { Goes self.old self.new }
        ensures probes { self.new.probes ≡ tries }
    {
        let depth = self.depth;
        let (start, seeking) = self.entry(provider);
        self.ledger.take(&self.path[..depth], provider);
        self.path[depth] = provider;
        self.places[depth + 1] = start;
        self.depth = depth + 1;
        self.seeking = seeking;
        self.probes = tries;
    }

    // Takes the last provider of the path back, and goes on to the next choice there.
    pub(super) fn take_back(&mut self)
        requires { 0 < self.old.depth }
        ensures { Backs self.old self.new }
    {
        let depth = self.depth - 1;
        self.ledger.give_back(&self.path[..depth], self.path[depth]);
        self.places[depth] += 1;
        self.depth = depth;
        self.seeking = false;
    }

    // Tests a provider behind the path, and counts the try. Choices that are passed over are counted by `pass_over`.
    pub(super) fn probe(&mut self, provider: u32) -> Step
        requires { IsNext self.old provider }
        ensures gives { StepGives result self.old self.new }
        ensures probes { self.new.probes ≡ one_more self.old.probes }
    {
        let tries = one_more(self.probes);
        if !self.leads_on(provider) {
            self.skip(tries);
            return Step::Went;
        }
        if self.depth + 1 < self.path.len() {
            self.place(provider, tries);
            return Step::Went;
        }
        self.put(provider);
        let complete = completes(self.ledger.cloud, self.ledger.query, self.path.as_slice());
        self.skip(tries);
        if complete { Step::Given } else { Step::Went }
    }

    // Leaves a slot whose choices are at their end.
    pub(super) fn leave(&mut self) -> Step
        requires { length (slot_in self.old) ≤ place_in self.old }
        ensures gives { StepGives result self.old self.new }
        ensures probes { self.new.probes ≡ self.old.probes }
    {
        if self.depth == 0 {
            return Step::Ended;
        }
        self.take_back();
        Step::Went
    }

    // Whether its path begins with a front, and isn't empty.
    fn is_behind(&self, front: &[u32]) -> bool
        ensures { result ≡ true
            → (0 < self.now.depth) × BeginsWith (path_in self.now) front.now }
    {
        self.depth > 0 && self.path[..self.depth].starts_with(front)
    }

    // Goes up until its path no longer begins with a front.
    pub(super) fn leave_front(&mut self, front: &[u32])
        ensures passes { PassesOver front.now (left_of self.old) (left_of self.new) }
        ensures stops { may_stop self.new → may_stop self.old }
    {
        'back: while self.is_behind(front) {
            self.take_back();
        }
    }
}

// Whether a list meets what isn't asked of its fronts.
fn completes(cloud: &Cloud, query: &Query, list: &[u32]) -> bool
    requires slots { length list.now ≤ length (slots_of (asked_of query.now)) }
    requires providers { All (λ p. p < length (providers_of cloud.now)) list.now }
    ensures { result ≡ completes (providers_of cloud.now) (asked_of query.now) list.now }
{
    let list = Assignment { cloud, query, list };
    list.is_collective() && list.has_tops()
}

// A count and one more; it stays where it can't rise.
pub(super) fn one_more(count: u64) -> u64
    ensures { result ≡ one_more count }
{
    count.saturating_add(1)
}

// Whether a list has a number at a place.
fn has_at(list: &[u32], place: usize, number: u32) -> bool
    ensures { IsTrue result ↔ HasAt list.now place number }
{
    place < list.len() && list[place] == number
}

// The first place of a list whose number isn't below the least.
fn first_from(list: &[u32], least: u32) -> usize
    ensures { IsStart list.now least result }
{
    for (i, number) in list.iter().enumerate() {
        if *number >= least {
            return i;
        }
    }
    list.len()
}

// Where the choices at a depth begin, while the path is a front of the least list.
pub(super) fn start_of(choices: &[u32], least: &[u32], depth: usize) -> usize
    ensures { IsStart choices.now (least_at least.now depth) result }
{
    if depth < least.len() {
        first_from(choices, least[depth])
    } else {
        0
    }
}
