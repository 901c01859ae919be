//! Which roots may host a candidate: what the providers of each root have together, counted once for all roots.

ghost use Rattle.std.specs.Prelude.{◌≡◌, ◌<◌, [], length, IfOk};
ghost use Rattle.std.specs.List.{All};
ghost use Rattle.ac_query.specs.Asked.{slots_of};
ghost use Rattle.ac_prune.specs.Left.Accounts.{asked_in, Accounts};
ghost use Rattle.ac_prune.specs.Ahead.{AreRoots};
ghost use Rattle.ac_prune.specs.Loads.{AreServing, MayHost};

mod column;
mod kinds;
mod loads;
mod mixed;

use crate::choices::Choices;
use crate::front::Front;
use crate::ledger::Ledger;
use crate::look_ahead::LookAhead;
use crate::tuning::MOST_STEPS;
use ac_base::NoMemory;
use ac_rules::slots::count_slots;
use column::Column;
pub(crate) use column::count_asking;
pub use loads::limit;
use std::alloc::Global;

/// How many tests of all roots may still be made, so that they don't take longer than the search that they shorten.
#[derive(Drop)]
pub(crate) struct Budget {
    tests: u64,
}

/// What is tested of the classes that the slots ask for.
#[derive(Clone, Copy)]
pub(crate) enum ClassTest {
    /// What all slots ask together.
    Sums,
    /// How many slots ask so much or more.
    Pieces,
    /// How many ask the greater and the lesser of two amounts, or more.
    Mixed,
    /// How many of the slots that have the same choices do.
    Kinds,
}

impl Budget {
    /// Whether one more test may be made; it is counted as made.
    pub(crate) fn take(&mut self) -> bool {
        let some = self.tests > 0;
        self.tests = self.tests.saturating_sub(1);
        some
    }
}

// 1 at each of some choices, 0 at the other providers.
fn serving(alloc: Global, count: usize, choices: &[u32]) -> Result<Vec<u64>, NoMemory>
    requires { All (λ p. p < count) choices.now }
    ensures count { IfOk result (λ rooms. length rooms.items ≡ count) }
    ensures rooms { IfOk result (λ rooms. AreServing choices.now rooms.items) }
{
    let mut rooms = vec![in alloc; 0u64; count]?;
    for ix in choices {
        rooms[*ix as usize] = 1;
    }
    Ok(rooms)
}

// Drops the roots at which no choice of a slot is available.
fn limit_slot(alloc: Global, choices: &Choices, s: usize, may: &mut [bool]) -> Result<(), NoMemory>
    requires slot { s < length (slots_of (asked_in choices.now.ledger.now)) }
    requires hosts { MayHost choices.now.ledger.now may.old }
    ensures { IfOk result (λ _. MayHost choices.now.ledger.now may.new) }
{
    let cloud = choices.ledger.cloud;
    let rooms = serving(alloc, cloud.len() as usize, choices.of_slot(s))?;
    limit(alloc, cloud, may, &rooms, 1)
}

// Drops the roots at which some slot has no choice available.
fn limit_slots(
    alloc: Global,
    choices: &Choices,
    budget: &mut Budget,
    may: &mut [bool],
) -> Result<(), NoMemory>
    requires { MayHost choices.now.ledger.now may.old }
    ensures { IfOk result (λ _. MayHost choices.now.ledger.now may.new) }
{
    for s in 0..count_slots(choices.ledger.query) {
        if !may.contains(&true) || !budget.take() {
            return Ok(());
        }
        limit_slot(alloc, choices, s, may)?;
    }
    Ok(())
}

// Drops the roots whose providers fail a test of some class, while there are any.
fn limit_classes(
    alloc: Global,
    choices: &Choices,
    test: ClassTest,
    budget: &mut Budget,
    may: &mut [bool],
) -> Result<(), NoMemory>
    requires empty { Accounts choices.now.ledger.now [] }
    requires hosts { MayHost choices.now.ledger.now may.old }
    ensures { IfOk result (λ _. MayHost choices.now.ledger.now may.new) }
{
    let ledger = choices.ledger;
    for (number, class) in ledger.classes.iter().enumerate() {
        if !may.contains(&true) || budget.tests == 0 {
            return Ok(());
        }
        // Where one slot alone asks for a class, its choices have told as much.
        if count_asking(&ledger.asks, number, 1) > 1 {
            Column::new(alloc, ledger, class)?.limit(alloc, choices, test, budget, may)?;
        }
    }
    Ok(())
}

// Drops the roots that fail some test, as far as the budget goes.
fn limit_all(alloc: Global, choices: &Choices, may: &mut [bool]) -> Result<(), NoMemory>
    requires empty { Accounts choices.now.ledger.now [] }
    requires hosts { MayHost choices.now.ledger.now may.old }
    ensures { IfOk result (λ _. MayHost choices.now.ledger.now may.new) }
{
    let ledger = choices.ledger;
    // A test goes over all providers, and over each list of roots.
    let mut steps = u64::from(ledger.cloud.len());
    for list in ledger.cloud.root_lists() {
        steps = steps.saturating_add(list.len() as u64);
    }
    let mut budget = Budget {
        tests: MOST_STEPS / steps.max(1),
    };
    limit_slots(alloc, choices, &mut budget, may)?;
    limit_classes(alloc, choices, ClassTest::Sums, &mut budget, may)?;
    limit_classes(alloc, choices, ClassTest::Pieces, &mut budget, may)?;
    limit_classes(alloc, choices, ClassTest::Mixed, &mut budget, may)?;
    limit_classes(alloc, choices, ClassTest::Kinds, &mut budget, may)
}

/// For each root whether it may host a candidate: the query takes it, some choice of each slot is available there, of each
/// class its providers have as much as all slots ask, of each amount that a slot asks they have as many pieces as slots ask so much
/// or more, the slots that ask one of two amounts can stand beside each other, and among the choices that some slots have in common
/// there are as many pieces as these ask. These are tested in this order. Where all tests would take too many steps, the last ones
/// aren't made: that is right too, only slower where no root can.
#[derive(Drop)]
pub(crate) struct Hosts {
    may: Vec<bool>,
}

impl Hosts {
    /// The roots that may host a candidate, by the choices of all slots, before anything is placed.
    pub(crate) fn new(alloc: Global, choices: &Choices) -> Result<Hosts, NoMemory>
        requires { Accounts choices.now.ledger.now [] }
        ensures { IfOk result (λ hosts. MayHost choices.now.ledger.now hosts.may.items) }
    {
        let mut may = Vec::new(alloc);
        may.extend_from_slice(&choices.ledger.taken)?;
        limit_all(alloc, choices, &mut may)?;
        Ok(Hosts { may })
    }
}

impl LookAhead for Hosts {
    ghost is_of = { λ all asked hosts. AreRoots all asked hosts.may.items };

    // Whether some root that may host a candidate has all of the path, and the provider too.
    fn may_follow(&self, front: &Front, provider: u32) -> bool {
        front.ledger.stands_at(&self.may, front.path, provider)
    }
}
