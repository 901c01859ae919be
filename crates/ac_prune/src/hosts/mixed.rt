//! Which roots have room for slots that ask one of two amounts of a class: where a provider has too little for two of the lesser beside
//! one of the greater, counting pieces of each alone tells less.

ghost use Rattle.std.specs.Prelude.{◌≡◌, ◌*◌, ◌<◌, ◌≤◌, length, IfOk};
ghost use Rattle.ac_prune.specs.Ahead.{load_of};
ghost use Rattle.ac_prune.specs.Left.{wanted};
ghost use Rattle.ac_prune.specs.Loads.{MayHost, pairs_of};
ghost use Rattle.ac_prune.specs.Loads.Mixed.{mixed_room, mixed_weight, AreMixed};

use super::Budget;
use super::column::Column;
use super::loads::limit;
use crate::ledger::rooms::{Ask, wanted};
use crate::tuning::MOST_AMOUNTS;
use ac_base::NoMemory;
use std::alloc::Global;

// How many of the lesser amount are as much as the greater, or more.
fn count_times(small: u64, large: u64) -> u64
    requires small { 0 < small }
    requires large { 0 < large }
    ensures some { 0 < result }
    ensures reach { large ≤ result * small }
    ensures few { result ≤ large }
{
    (large - 1) / small + 1
}

// What a slot weighs that asks so much: a piece for the lesser amount, so many for the greater.
fn weigh(amount: u64, small: u64, large: u64, times: u64) -> u64
    ensures { result ≡ mixed_weight small large times amount }
{
    if amount >= large {
        times
    } else if amount >= small {
        1
    } else {
        0
    }
}

// What all slots weigh, or less where it is more than can be told.
fn weigh_all(asks: &[Vec<Ask>], class: usize, small: u64, large: u64, times: u64) -> u64
    requires { 0 < times }
    ensures { result
        ≤ load_of (λ a. mixed_weight small large times (wanted a class)) (pairs_of asks.now) }
{
    let mut total = 0u64;
    for list in asks {
        total = total.saturating_add(weigh(wanted(list, class), small, large, times));
    }
    total
}

// What slots may weigh on a provider that has so much left.
fn bear(left: u64, small: u64, large: u64, times: u64) -> u64
    requires small { 0 < small }
    requires large { 0 < large }
    requires few { times ≤ large }
    ensures { result ≡ mixed_room small large times left }
{
    let whole = left / large * times;
    let rest = left % large / small;
    whole + rest
}

// What slots may weigh on each provider.
fn bear_all(
    alloc: Global,
    rooms: &[u64],
    small: u64,
    large: u64,
    times: u64,
) -> Result<Vec<u64>, NoMemory>
    requires small { 0 < small }
    requires large { 0 < large }
    requires few { times ≤ large }
    ensures count { IfOk result (λ mixed. length mixed.items ≡ length rooms.now) }
    ensures mixed { IfOk result (λ mixed. AreMixed rooms.now small large times mixed.items) }
{
    Ok(
        rooms
            .iter()
            .map(|room| bear(*room, small, large, times))
            .collect(alloc)?,
    )
}

impl<'l, 'a> Column<'l, 'a> {
    // Drops the roots whose providers can't bear the slots that ask one of two amounts, or more.
    fn limit_two(
        &self,
        alloc: Global,
        small: u64,
        large: u64,
        may: &mut [bool],
    ) -> Result<(), NoMemory>
        requires small { 0 < small }
        requires large { 0 < large }
        requires hosts { MayHost self.now.ledger.now may.old }
        ensures { IfOk result (λ _. MayHost self.now.ledger.now may.new) }
    {
        let times = count_times(small, large);
        let mixed = bear_all(alloc, &self.rooms, small, large, times)?;
        let wanted = weigh_all(&self.ledger.asks, self.number, small, large, times);
        limit(alloc, self.ledger.cloud, may, &mixed, wanted)
    }

    // Drops the roots whose providers can't bear the slots that ask some amount or a greater one, as far as the budget goes.
    fn limit_beside(
        &self,
        alloc: Global,
        small: u64,
        amounts: &[u64],
        budget: &mut Budget,
        may: &mut [bool],
    ) -> Result<(), NoMemory>
        requires { MayHost self.now.ledger.now may.old }
        ensures { IfOk result (λ _. MayHost self.now.ledger.now may.new) }
    {
        for large in amounts {
            if small > 0 && small < *large && budget.take() {
                self.limit_two(alloc, small, *large, may)?;
            }
        }
        Ok(())
    }

    /// Drops the roots whose providers can't bear the slots that ask one of some two amounts, or more.
    pub(super) fn limit_mixed(
        &self,
        alloc: Global,
        budget: &mut Budget,
        may: &mut [bool],
    ) -> Result<(), NoMemory>
        requires { MayHost self.now.ledger.now may.old }
        ensures { IfOk result (λ _. MayHost self.now.ledger.now may.new) }
    {
        let amounts = self.amounts(alloc)?;
        if amounts.len() > MOST_AMOUNTS {
            return Ok(());
        }
        for small in &amounts {
            self.limit_beside(alloc, *small, &amounts, budget, may)?;
        }
        Ok(())
    }
}
