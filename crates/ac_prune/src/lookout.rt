//! All tests by which a walk looks ahead.
ghost use Rattle.std.specs.Prelude.{◌≡◌, ◌<◌, [], length, map, IfOk};
ghost use Rattle.std.specs.List.{All};
ghost use Rattle.ac_prune.specs.Left.Accounts.{providers_in, asked_in, Accounts};
ghost use Rattle.ac_prune.specs.Loads.{choices_in};
ghost use Rattle.ac_prune.specs.Tests.{AreTests, IsTest};

use crate::ahead::Ahead;
use crate::choices::Choices;
use crate::collective::Collective;
use crate::families::Family;
use crate::front::Front;
use crate::hosts::Hosts;
use crate::ledger::Ledger;
use crate::look_ahead::LookAhead;
use crate::trees::Trees;
use crate::trees::groves::Groves;
use crate::trees::wide::Wide;
use crate::tuning::MOST_TESTS;
use ac_base::NoMemory;
use std::alloc::Global;

/// One of the tests.
#[derive(Drop)]
pub(crate) enum Test {
    Ahead(Ahead),
    Trees(Trees),
    Wide(Wide),
    Hosts(Hosts),
    Collective(Collective),
    Family(Family),
}

impl LookAhead for Test {
    ghost is_of = { IsTest };

    fn next(&self, front: &Front, from: usize) -> usize {
        match self {
            Test::Ahead(test) => test.next(front, from),
            Test::Trees(test) => test.next(front, from),
            Test::Wide(test) => test.next(front, from),
            Test::Hosts(test) => test.next(front, from),
            Test::Collective(test) => test.next(front, from),
            Test::Family(test) => test.next(front, from),
        }
    }

    fn may_follow(&self, front: &Front, provider: u32) -> bool {
        match self {
            Test::Ahead(test) => test.may_follow(front, provider),
            Test::Trees(test) => test.may_follow(front, provider),
            Test::Wide(test) => test.may_follow(front, provider),
            Test::Hosts(test) => test.may_follow(front, provider),
            Test::Collective(test) => test.may_follow(front, provider),
            Test::Family(test) => test.may_follow(front, provider),
        }
    }
}

// Adds the test of a list of `same_subtree`, unless an equal list stands before it, or there are enough tests.
fn push_family(
    alloc: Global,
    tests: &mut Vec<Test>,
    choices: &Choices,
    k: usize,
) -> Result<(), NoMemory>
    requires list { k < length (asked_in choices.now.ledger.now).subtrees }
    requires tests { All (IsTest (providers_in choices.now.ledger.now)
        (asked_in choices.now.ledger.now)) tests.old.items }
    ensures { IfOk result (λ _. All (IsTest (providers_in choices.now.ledger.now)
        (asked_in choices.now.ledger.now)) tests.new.items) }
{
    let lists = choices.ledger.query.subtrees();
    if tests.len() >= MOST_TESTS || lists[..k].contains(&lists[k]) {
        return Ok(());
    }
    tests.push(Test::Family(Family::new(alloc, choices, k)?))?;
    Ok(())
}

/// All tests, in the order in which they are made.
#[derive(Drop)]
pub struct Lookout {
    tests: Vec<Test>,
}

impl Lookout {
    /// Of the cloud and the query of a ledger, before anything is placed, and of the choices of the slots.
    pub fn new(alloc: Global, ledger: &Ledger, choices: &[Vec<u32>]) -> Result<Lookout, NoMemory>
        requires choices { map (λ v. v.items) choices.now ≡ choices_in ledger.now }
        requires empty { Accounts ledger.now [] }
        ensures { IfOk result (λ lookout.
            AreTests (providers_in ledger.now) (asked_in ledger.now) lookout) }
    {
        let choices = Choices {
            ledger,
            lists: choices,
        };
        let mut tests = Vec::new(alloc);
        let groves = Groves::new(alloc, ledger.cloud)?;
        tests.push(Test::Ahead(Ahead::new(alloc, ledger, &groves)?))?;
        if let Some(wide) = Wide::new(alloc, &choices, &groves)? {
            tests.push(Test::Wide(wide))?;
        }
        tests.push(Test::Trees(Trees::new(alloc, &choices, groves)?))?;
        tests.push(Test::Hosts(Hosts::new(alloc, &choices)?))?;
        tests.push(Test::Collective(Collective::new(alloc, &choices)?))?;
        for k in 0..ledger.query.subtrees().len() {
            push_family(alloc, &mut tests, &choices, k)?;
        }
        Ok(Lookout { tests })
    }
}

impl LookAhead for Lookout {
    ghost is_of = { AreTests };

    fn next(&self, front: &Front, from: usize) -> usize {
        let mut place = from;
        for test in &self.tests {
            place = test.next(front, place);
        }
        place
    }

    fn may_follow(&self, front: &Front, provider: u32) -> bool {
        for test in &self.tests {
            if !test.may_follow(front, provider) {
                return false;
            }
        }
        true
    }
}
