//! The walk: candidates found slot by slot, leaving a path as soon as it can hold none.
ghost use Rattle.std.specs.Prelude.{◌≡◌, ◌<◌, length, map, take, slice_index, true, false, None, Some, IfOk, IfSome, OnErr};
ghost use Rattle.std.specs.List.{filter};
ghost use Rattle.std.proofs.Props.{props};
ghost use Rattle.std.specs.Bool.{MatchBool};
ghost use Rattle.std.specs.Option.{option_map};
ghost use Rattle.ac_cloud.specs.Cloud.CloudWorld.{providers_of};
ghost use Rattle.ac_query.specs.Asked.{slots_of};
ghost use Rattle.ac_query.specs.Shown.Queries.{asked_of};
ghost use Rattle.ac_query.specs.Tokens as tokens;
ghost use Rattle.ac_prune.specs.Left.Accounts.{providers_in, asked_in, Accounts};
ghost use Rattle.ac_rules.specs.Pages.{candidates, rest};
ghost use Rattle.ac_search.specs.Search.{IsSound};
ghost use Rattle.ac_prune.specs.Marks.{stand_at_marked};
ghost use Rattle.ac_prune.specs.QuerySearch.{choices_of};
ghost use Rattle.ac_search.specs.Hosts.{search_at, standing};
ghost use Rattle.ac_search.specs.Between.{least_of};
ghost use Rattle.ac_prune.specs.Tests.{AreTests, AreTests-prop};

mod leave;
mod pass;
mod steps;

use crate::least::least_of;
use ac_base::{Id, NoMemory};
use ac_cloud::Cloud;
use ac_prune::{Ledger, Lookout, all_choices};
use ac_query::{Query, Token};
use ac_rules::slots::count_slots;
use ac_rules::source::{Source, TooManyTries};
use std::alloc::Global;
use steps::start_of;

/// What one step came to.
#[derive(Clone, Copy)]
enum Step {
    /// The path is the next candidate.
    Given,
    /// There is more to try.
    Went,
    /// There is more to try, and it has made as many tries as it may.
    Stopped,
    /// Nothing is left to try.
    Ended,
}

/// Goes through the candidates over one path of providers, slot by slot, and leaves a path as soon as it isn't open.
#[derive(Drop)]
pub struct Walk<'a> {
    // What the providers of the path take of the cloud.
    ledger: Ledger<'a>,
    // The ids of the token, and the least list of places that comes after them.
    after: Option<Vec<Id>>,
    least: Vec<u32>,
    // The providers that each slot may have by its own rules.
    choices: Vec<Vec<u32>>,
    // The tests by which it looks ahead.
    lookout: Lookout,
    // Marks of the roots at which candidates are looked for; without them, they are at all.
    roots: Option<Vec<bool>>,
    // The providers so far, as many as the depth says, and where each stands among the choices of its slot.
    path: Vec<u32>,
    places: Vec<usize>,
    depth: usize,
    // Whether the path is a front of the least list.
    seeking: bool,
    probes: u64,
    // The most tries that it may make; without, as many as it takes.
    most: Option<u64>,
    ghost resumed: { least.items ≡ least_of (providers_in ledger) (length (slots_of (asked_in ledger))) (option_map (λ ids. ids.items) after) },
    ghost listed: { map (λ v. v.items) choices.items ≡ choices_of (providers_in ledger) (asked_in ledger) },
    ghost looking: { AreTests (providers_in ledger) (asked_in ledger) lookout } by { AreTests-prop (providers_in ledger) (asked_in ledger) lookout },
    ghost path_len: { length path.items ≡ length (slots_of (asked_in ledger)) },
    ghost places_len: { length places.items ≡ length (slots_of (asked_in ledger)) },
    ghost marked: { IfSome roots (λ marks. length marks.items ≡ length (providers_in ledger)) } by { Prim.hlevel props },
    ghost sound: { IsSound (search_at (providers_in ledger) (asked_in ledger) (option_map (λ marks. marks.items) roots)) least.items (take depth path.items) (take depth places.items) depth (slice_index places.items depth) seeking probes },
    ghost accounted: { Accounts ledger (take depth path.items) },
}

impl<'a> Walk<'a> {
    ghost use Rattle.ac_search.specs.Shown.Walk.{cloud_in, query_in, token_in, roots_in, probes_in, most_in, given_in, left_of, is_spent, StaysWithin};
    ghost use Rattle.ac_search.specs.Search.Steps.{StepGives, Goes, Advances, Finishes, Stops};

    /// Begins with the first candidate after the ids of a token, or with the first of all. It takes all its memory
    /// here; `next` takes none.
    pub fn new(
        alloc: Global,
        cloud: &'a Cloud,
        query: &'a Query,
        after: Option<&Token>,
    ) -> Result<Walk<'a>, NoMemory>
        ensures left { IfOk result (λ walk. ⟦<Walk<'a> as Source>⟧.left walk
            ≡ rest (providers_of cloud.now) (asked_of query.now)
            (option_map (λ t. tokens.ids_of t.now) after.entry)) }
        ensures cloud { IfOk result (λ walk. cloud_in walk ≡ providers_of cloud.now) }
        ensures query { IfOk result (λ walk. query_in walk ≡ asked_of query.now) }
        ensures token { IfOk result (λ walk. token_in walk
            ≡ option_map (λ t. tokens.ids_of t.now) after.entry) }
        ensures probes { IfOk result (λ walk. probes_in walk ≡ 0) }
        ensures most { IfOk result (λ walk. most_in walk ≡ None) }
        ensures last { IfOk result (λ walk. given_in walk ≡ None) }
    {
        Walk::begin(alloc, cloud, query, after, None)
    }

    /// It makes at most so many tries, and then stops; without a number, it makes as many as it takes.
    pub fn within(self, tries: Option<u64>) -> Walk<'a>
        ensures left { left_of result ≡ left_of self.entry }
        ensures cloud { cloud_in result ≡ cloud_in self.entry }
        ensures query { query_in result ≡ query_in self.entry }
        ensures token { token_in result ≡ token_in self.entry }
        ensures roots { roots_in result ≡ roots_in self.entry }
        ensures probes { probes_in result ≡ probes_in self.entry }
        ensures most { most_in result ≡ tries }
        ensures last { given_in result ≡ given_in self.entry }
    {
        let mut walk = self;
        walk.most = tries;
        walk
    }

    /// Begins with the first candidate that stands at one of some marked roots.
    pub(crate) fn at_roots(
        alloc: Global,
        cloud: &'a Cloud,
        query: &'a Query,
        roots: Vec<bool>,
    ) -> Result<Walk<'a>, NoMemory>
        requires { length roots.items ≡ length (providers_of cloud.now) }
        ensures left { IfOk result (λ walk. left_of walk
            ≡ filter (stand_at_marked (providers_of cloud.now) roots.items)
            (candidates (providers_of cloud.now) (asked_of query.now))) }
        ensures cloud { IfOk result (λ walk. cloud_in walk ≡ providers_of cloud.now) }
        ensures query { IfOk result (λ walk. query_in walk ≡ asked_of query.now) }
        ensures token { IfOk result (λ walk. token_in walk ≡ None) }
        ensures roots { IfOk result (λ walk. roots_in walk ≡ Some roots.items) }
    {
        Walk::begin(alloc, cloud, query, None, Some(roots))
    }

    /// Begins with the first list after the ids of a token that is looked for.
    pub(crate) fn begin(
        alloc: Global,
        cloud: &'a Cloud,
        query: &'a Query,
        after: Option<&Token>,
        roots: Option<Vec<bool>>,
    ) -> Result<Walk<'a>, NoMemory>
        requires { IfSome roots (λ marks. length marks.items ≡ length (providers_of cloud.now)) }
        ensures left { IfOk result (λ walk. left_of walk
            ≡ standing (providers_of cloud.now) (option_map (λ marks. marks.items) roots)
            (rest (providers_of cloud.now) (asked_of query.now)
            (option_map (λ t. tokens.ids_of t.now) after.entry))) }
        ensures cloud { IfOk result (λ walk. cloud_in walk ≡ providers_of cloud.now) }
        ensures query { IfOk result (λ walk. query_in walk ≡ asked_of query.now) }
        ensures token { IfOk result (λ walk. token_in walk
            ≡ option_map (λ t. tokens.ids_of t.now) after.entry) }
        ensures roots { IfOk result (λ walk. walk.roots ≡ roots) }
        ensures probes { IfOk result (λ walk. probes_in walk ≡ 0) }
        ensures most { IfOk result (λ walk. most_in walk ≡ None) }
        ensures last { IfOk result (λ walk. given_in walk ≡ None) }
    {
        let width = count_slots(query);
        let least = least_of(alloc, cloud, after, width)?;
        let after = ids_of(alloc, after)?;
        let ledger = Ledger::new(alloc, cloud, query)?;
        let choices = all_choices(alloc, &ledger)?;
        let lookout = Lookout::new(alloc, &ledger, &choices)?;
        let path = vec![in alloc; 0u32; width]?;
        let mut places = vec![in alloc; 0usize; width]?;
        places[0] = start_of(&choices[0], &least, 0);
        Ok(Walk {
            ledger,
            after,
            least,
            choices,
            lookout,
            roots,
            path,
            places,
            depth: 0,
            seeking: true,
            probes: 0,
            most: None,
        })
    }

    /// How many tries it has made: one for each choice that it has looked at, passed over or tested behind a path.
    pub fn probes(&self) -> u64
        ensures { result ≡ probes_in self.now }
    {
        self.probes
    }

    // Whether it has made as many tries as it may.
    fn is_spent(&self) -> bool
        ensures { result ≡ is_spent (most_in self.now) (probes_in self.now) }
    {
        match self.most {
            Some(most) => self.probes >= most,
            None => false,
        }
    }

    // Tries the next choice of its slot, if it may, or leaves the slot where it has none.
    fn step(&mut self) -> Step
        ensures gives { StepGives result self.old self.new }
        ensures within { StaysWithin self.old self.new }
    {
        match self.choice() {
            None => self.leave(),
            Some(provider) => {
                if self.is_spent() {
                    return Step::Stopped;
                }
                self.probe(provider)
            }
        }
    }

    // Goes on to the next candidate, where there is one.
    pub(crate) fn advance(&mut self) -> Result<bool, TooManyTries>
        ensures found { IfOk result (λ given.
            MatchBool given (Advances self.old self.new) (Finishes self.old self.new)) }
        ensures stopped { OnErr result (Stops self.old self.new) }
    {
        'steps: loop {
            self.pass();
            match self.step() {
                Step::Given => return Ok(true),
                Step::Ended => return Ok(false),
                Step::Stopped => return Err(TooManyTries),
                Step::Went => {}
            }
        }
    }
}

impl<'a> Source for Walk<'a> {
    ghost use Rattle.ac_search.specs.Shown.Walk.{left_of, may_stop, Moves};

    ghost left = { left_of };

    ghost may_stop = { may_stop };

    ghost moves = { Moves };

    fn next(&mut self) -> Result<Option<&[u32]>, TooManyTries> {
        if self.advance()? {
            Ok(Some(self.path.as_slice()))
        } else {
            Ok(None)
        }
    }

    fn skip(&mut self, front: &[u32]) {
        self.leave_front(front);
    }
}

// The ids of a token.
fn ids_of(alloc: Global, token: Option<&Token>) -> Result<Option<Vec<Id>>, NoMemory>
    ensures { IfOk result (λ ids. option_map (λ v. v.items) ids
        ≡ option_map (λ t. tokens.ids_of t.now) token.entry) }
{
    match token {
        Some(token) => Ok(Some(token.ids().to_vec(alloc)?)),
        None => Ok(None),
    }
}
