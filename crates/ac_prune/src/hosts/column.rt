//! What is left of a class at each provider before anything is placed, and which roots have enough of it.

ghost use Rattle.std.specs.Prelude.{◌≡◌, ◌<◌, ◌≤◌, ℕ, [], length, slice_index, IfOk};
ghost use Rattle.ac_base.specs.Names.{class_bytes};
ghost use Rattle.ac_query.specs.Asked.{slots_of};
ghost use Rattle.ac_prune.specs.Left.Accounts.{providers_in, asked_in, texts_in, left_in, Accounts};
ghost use Rattle.ac_prune.specs.Ahead.{load_of};
ghost use Rattle.ac_rules.specs.Room.{class_number, IsKnown};
ghost use Rattle.ac_prune.specs.Left.{wanted};
ghost use Rattle.ac_prune.specs.Loads.{ArePieces, AreOnes, MayHost, pairs_of, is_much};
ghost use Rattle.ac_rules.specs.Placed.{slot_at};

use super::loads::limit;
use super::{Budget, ClassTest};
use crate::choices::Choices;
use crate::ledger::Ledger;
use crate::ledger::rooms::{Ask, wanted};
use ac_base::{ClassName, NoMemory};
use ac_rules::number_of;
use ac_rules::slots::count_slots;
use std::alloc::Global;

/// What is left of a class at each provider, beside the ledger of an empty path.
#[derive(Drop)]
pub(crate) struct Column<'l, 'a> {
    pub(super) ledger: &'l Ledger<'a>,
    class: &'a ClassName,
    // The number of the class among the classes of the ledger.
    pub(super) number: usize,
    pub(super) rooms: Vec<u64>,
    ghost empty: { Accounts ledger.now [] },
    ghost known: { IsKnown (texts_in ledger.now) (class_bytes class.now) },
    ghost numbered: { number ≡ class_number (texts_in ledger.now) (class_bytes class.now) },
    ghost as_many: { length rooms.items ≡ length (providers_in ledger.now) },
    ghost left: { (p : ℕ) → p < length (providers_in ledger.now) → slice_index rooms.items p ≡ left_in ledger.now p number },
}

// What each provider has left of the class of a number.
fn rooms_of(alloc: Global, ledger: &Ledger, number: usize) -> Result<Vec<u64>, NoMemory>
    requires { number < length (texts_in ledger.now) }
    ensures count { IfOk result (λ rooms. length rooms.items ≡ length (providers_in ledger.now)) }
    ensures rooms { IfOk result (λ rooms. (p : ℕ) → p < length (providers_in ledger.now)
        → slice_index rooms.items p ≡ left_in ledger.now p number) }
{
    let mut rooms = Vec::new(alloc);
    for ix in 0..ledger.cloud.len() {
        rooms.push(ledger.left(ix as usize, number))?;
    }
    Ok(rooms)
}

// What all slots ask of a class, or less where it is more than can be told.
fn wanted_of(asks: &[Vec<Ask>], class: usize) -> u64
    ensures { result ≤ load_of (λ a. wanted a class) (pairs_of asks.now) }
{
    let mut total = 0u64;
    for list in asks {
        total = total.saturating_add(wanted(list, class));
    }
    total
}

/// How many slots ask so much of a class or more.
pub(crate) fn count_asking(asks: &[Vec<Ask>], class: usize, amount: u64) -> u64
    ensures { result ≤ load_of (is_much class amount) (pairs_of asks.now) }
{
    let mut count = 0u64;
    for list in asks {
        if wanted(list, class) >= amount {
            count = count.saturating_add(1);
        }
    }
    count
}

// How many pieces of an amount each room has.
fn pieces(alloc: Global, rooms: &[u64], amount: u64) -> Result<Vec<u64>, NoMemory>
    requires { 0 < amount }
    ensures count { IfOk result (λ pieces. length pieces.items ≡ length rooms.now) }
    ensures pieces { IfOk result (λ pieces. ArePieces rooms.now amount pieces.items) }
{
    Ok(rooms.iter().map(|room| *room / amount).collect(alloc)?)
}

// Each room, but 1 at most.
fn at_most_one(alloc: Global, rooms: &[u64]) -> Result<Vec<u64>, NoMemory>
    ensures count { IfOk result (λ ones. length ones.items ≡ length rooms.now) }
    ensures ones { IfOk result (λ ones. AreOnes rooms.now ones.items) }
{
    Ok(rooms.iter().map(|room| (*room).min(1)).collect(alloc)?)
}

impl<'l, 'a> Column<'l, 'a> {
    ghost use Rattle.ac_prune.specs.Loads.Columns.{is_lone, count_of_lone};

    /// The column of a class that the query asks for.
    pub(crate) fn new(
        alloc: Global,
        ledger: &'l Ledger<'a>,
        class: &'a ClassName,
    ) -> Result<Column<'l, 'a>, NoMemory>
        requires empty { Accounts ledger.now [] }
        requires known { IsKnown (texts_in ledger.now) (class_bytes class.now) }
        ensures { IfOk result (λ column. column.ledger ≡ ledger.entry) }
    {
        let number = number_of(&ledger.classes, class);
        let rooms = rooms_of(alloc, ledger, number)?;
        Ok(Column {
            ledger,
            class,
            number,
            rooms,
        })
    }

    // Drops the roots whose providers have less of the class than all slots ask.
    fn limit_sum(&self, alloc: Global, may: &mut [bool]) -> Result<(), NoMemory>
        requires { MayHost self.now.ledger.now may.old }
        ensures { IfOk result (λ _. MayHost self.now.ledger.now may.new) }
    {
        let wanted = wanted_of(&self.ledger.asks, self.number);
        limit(alloc, self.ledger.cloud, may, &self.rooms, wanted)
    }

    // Drops the roots whose providers have fewer pieces of an amount than slots ask so much or more.
    fn limit_pieces(&self, alloc: Global, amount: u64, may: &mut [bool]) -> Result<(), NoMemory>
        requires some { 0 < amount }
        requires hosts { MayHost self.now.ledger.now may.old }
        ensures { IfOk result (λ _. MayHost self.now.ledger.now may.new) }
    {
        let pieces = pieces(alloc, &self.rooms, amount)?;
        let wanted = count_asking(&self.ledger.asks, self.number, amount);
        limit(alloc, self.ledger.cloud, may, &pieces, wanted)
    }

    // 1 where a slot that is to have a provider for itself asks so much or more, else 0.
    fn lone_asking(&self, amount: u64, s: usize) -> u64
        requires { s < length (slots_of (asked_in self.now.ledger.now)) }
        ensures { result ≤ is_lone self.now amount (slot_at (asked_in self.now.ledger.now) s) }
    {
        if self.ledger.lone[s] && wanted(&self.ledger.asks[s], self.number) >= amount {
            1
        } else {
            0
        }
    }

    // How many slots are to have a provider for themselves and ask so much or more.
    fn count_lone(&self, amount: u64) -> u64
        ensures { result ≤ count_of_lone self.now amount }
    {
        let mut count = 0u64;
        for s in 0..count_slots(self.ledger.query) {
            count = count.saturating_add(self.lone_asking(amount, s));
        }
        count
    }

    // Drops the roots that have fewer providers with so much than slots that are to have one for themselves ask for.
    fn limit_lone(&self, alloc: Global, amount: u64, may: &mut [bool]) -> Result<(), NoMemory>
        requires some { 0 < amount }
        requires hosts { MayHost self.now.ledger.now may.old }
        ensures { IfOk result (λ _. MayHost self.now.ledger.now may.new) }
    {
        let pieces = pieces(alloc, &self.rooms, amount)?;
        let ones = at_most_one(alloc, &pieces)?;
        limit(
            alloc,
            self.ledger.cloud,
            may,
            &ones,
            self.count_lone(amount),
        )
    }

    // The amounts that slots ask of the class, each once.
    pub(super) fn amounts(&self, alloc: Global) -> Result<Vec<u64>, NoMemory> {
        let mut amounts = Vec::new(alloc);
        for asks in &self.ledger.asks {
            let amount = wanted(asks, self.number);
            if !amounts.contains(&amount) {
                amounts.push(amount)?;
            }
        }
        Ok(amounts)
    }

    // Drops the roots that have too few pieces, or too few providers for lone slots, of some amount that a slot asks.
    fn limit_amounts(
        &self,
        alloc: Global,
        budget: &mut Budget,
        may: &mut [bool],
    ) -> Result<(), NoMemory>
        requires { MayHost self.now.ledger.now may.old }
        ensures { IfOk result (λ _. MayHost self.now.ledger.now may.new) }
    {
        for amount in self.amounts(alloc)? {
            if amount > 0 && budget.take() {
                self.limit_pieces(alloc, amount, may)?;
            }
            if amount > 0 && budget.take() {
                self.limit_lone(alloc, amount, may)?;
            }
        }
        Ok(())
    }

    /// Drops the roots whose providers fail a test of the class.
    pub(crate) fn limit(
        &self,
        alloc: Global,
        choices: &Choices,
        test: ClassTest,
        budget: &mut Budget,
        may: &mut [bool],
    ) -> Result<(), NoMemory>
        requires same { choices.now.ledger ≡ self.now.ledger }
        requires hosts { MayHost self.now.ledger.now may.old }
        ensures { IfOk result (λ _. MayHost self.now.ledger.now may.new) }
    {
        match test {
            ClassTest::Sums if budget.take() => self.limit_sum(alloc, may),
            ClassTest::Sums => Ok(()),
            ClassTest::Pieces => self.limit_amounts(alloc, budget, may),
            ClassTest::Mixed => self.limit_mixed(alloc, budget, may),
            ClassTest::Kinds => self.limit_kinds(alloc, choices, budget, may),
        }
    }
}
