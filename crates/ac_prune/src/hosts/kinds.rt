//! Slots that have the same choices, where others ask for the same class: whether a root has enough of these choices for them.

ghost use Rattle.std.specs.Prelude.{◌≡◌, ◌<◌, ◌≤◌, length, true, IfOk};
ghost use Rattle.std.specs.List.{All};
ghost use Rattle.ac_query.specs.Asked.{slots_of};
ghost use Rattle.ac_prune.specs.Left.Accounts.{providers_in, asked_in};
ghost use Rattle.ac_prune.specs.Loads.{MayHost};
ghost use Rattle.ac_prune.specs.Loads.Kinds.{piece};
ghost use Rattle.ac_prune.specs.Marks.{needs_own};
ghost use Rattle.ac_rules.specs.Placed.{slot_at};

use super::Budget;
use super::column::Column;
use super::loads::limit;
use crate::choices::Choices;
use crate::ledger::rooms::wanted;
use ac_base::NoMemory;
use ac_rules::slots::count_slots;
use std::alloc::Global;

// So many pieces, or one at most where each is for a slot that is to have a provider for itself.
fn piece(pieces: u64, lone: bool) -> u64
    ensures { result ≡ piece lone pieces }
{
    if lone { pieces.min(1) } else { pieces }
}

impl<'l, 'a> Column<'l, 'a> {
    ghost use Rattle.ac_prune.specs.Loads.Kinds.{ArePiecesAmong, asks_alike, count_alike};

    // How many pieces of an amount each of some choices has, and other providers none.
    fn pieces_among(
        &self,
        alloc: Global,
        choices: &[u32],
        amount: u64,
        lone: bool,
    ) -> Result<Vec<u64>, NoMemory>
        requires some { 0 < amount }
        requires low { All (λ p. p < length (providers_in self.now.ledger.now)) choices.now }
        ensures count { IfOk result (λ pieces.
            length pieces.items ≡ length (providers_in self.now.ledger.now)) }
        ensures pieces { IfOk result (λ pieces.
            ArePiecesAmong self.now.rooms.items choices.now amount lone pieces.items) }
    {
        let mut pieces = vec![in alloc; 0u64; self.rooms.len()]?;
        for ix in choices {
            let at = *ix as usize;
            pieces[at] = piece(self.rooms[at] / amount, lone);
        }
        Ok(pieces)
    }

    // Whether a slot is looked at: where a provider is wanted for each alone, one that is to have it.
    fn is_looked_at(&self, lone: bool, s: usize) -> bool
        requires { s < length (slots_of (asked_in self.now.ledger.now)) }
        ensures { result ≡ true → lone ≡ true → needs_own (asked_in self.now.ledger.now)
            (slot_at (asked_in self.now.ledger.now) s) ≡ true }
    {
        !lone || self.ledger.lone[s]
    }

    // 1 where a slot that is looked at has these choices and asks so much or more, else 0.
    fn asks_alike(&self, choices: &Choices, list: &[u32], amount: u64, lone: bool, s: usize) -> u64
        requires slot { s < length (slots_of (asked_in self.now.ledger.now)) }
        requires same { choices.now.ledger ≡ self.now.ledger }
        ensures { result ≤ asks_alike self.now list.now amount lone
            (slot_at (asked_in self.now.ledger.now) s) }
    {
        let asked = wanted(&self.ledger.asks[s], self.number);
        if asked < amount || !self.is_looked_at(lone, s) || choices.of_slot(s) != list {
            return 0;
        }
        1
    }

    // How many such slots there are.
    fn count_alike(&self, choices: &Choices, list: &[u32], amount: u64, lone: bool) -> u64
        requires same { choices.now.ledger ≡ self.now.ledger }
        ensures { result ≤ count_alike self.now list.now amount lone }
    {
        let mut count = 0u64;
        for s in 0..count_slots(self.ledger.query) {
            count = count.saturating_add(self.asks_alike(choices, list, amount, lone, s));
        }
        count
    }

    // Drops the roots that have fewer pieces among the choices of a slot than slots with these choices ask for.
    fn limit_alike(
        &self,
        alloc: Global,
        choices: &Choices,
        s: usize,
        amount: u64,
        lone: bool,
        may: &mut [bool],
    ) -> Result<(), NoMemory>
        requires slot { s < length (slots_of (asked_in self.now.ledger.now)) }
        requires same { choices.now.ledger ≡ self.now.ledger }
        requires some { 0 < amount }
        requires hosts { MayHost self.now.ledger.now may.old }
        ensures { IfOk result (λ _. MayHost self.now.ledger.now may.new) }
    {
        let list = choices.of_slot(s);
        let wanted = self.count_alike(choices, list, amount, lone);
        // Where there is one such slot, its choices have told as much.
        if wanted < 2 {
            return Ok(());
        }
        let pieces = self.pieces_among(alloc, list, amount, lone)?;
        limit(alloc, self.ledger.cloud, may, &pieces, wanted)
    }

    // Whether a slot is the first that asks so much of these choices, and others ask for the class with other choices.
    fn is_first(&self, choices: &Choices, s: usize, amount: u64) -> bool
        requires slot { s < length (slots_of (asked_in self.now.ledger.now)) }
        requires same { choices.now.ledger ≡ self.now.ledger }
    {
        let list = choices.of_slot(s);
        let mut others = false;
        for u in 0..count_slots(self.ledger.query) {
            let asked = wanted(&self.ledger.asks[u], self.number);
            let alike = asked > 0 && choices.of_slot(u) == list;
            if alike && asked == amount && u < s {
                return false;
            }
            others = others || (asked > 0 && !alike);
        }
        others
    }

    /// Drops the roots that have too few choices for slots that have the same, where others ask for the class too.
    pub(crate) fn limit_kinds(
        &self,
        alloc: Global,
        choices: &Choices,
        budget: &mut Budget,
        may: &mut [bool],
    ) -> Result<(), NoMemory>
        requires same { choices.now.ledger ≡ self.now.ledger }
        requires hosts { MayHost self.now.ledger.now may.old }
        ensures { IfOk result (λ _. MayHost self.now.ledger.now may.new) }
    {
        for s in 0..count_slots(self.ledger.query) {
            let amount = wanted(&self.ledger.asks[s], self.number);
            if amount > 0 && self.is_first(choices, s, amount) {
                if budget.take() {
                    self.limit_alike(alloc, choices, s, amount, false, may)?;
                }
                if budget.take() {
                    self.limit_alike(alloc, choices, s, amount, true, may)?;
                }
            }
        }
        Ok(())
    }
}
