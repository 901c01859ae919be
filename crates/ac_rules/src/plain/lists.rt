//! All lists of so many numbers, in order.
ghost use Rattle.std.specs.Prelude.{◌≡◌, ◌<◌, false, length, [], ◌∷◌, IfOk};
ghost use Rattle.std.specs.Bool.{MatchBool, OnTrue};
ghost use Rattle.std.specs.List.{All};
ghost use Rattle.ac_rules.specs.Lists.{all_lists};
ghost use Rattle.ac_rules.specs.Shown.Odometer.{has_ended};

use crate::plain::odometer::{Stage, count_up, start};
use ac_base::NoMemory;
use std::alloc::Global;

/// Goes through all lists of so many numbers below a bound, in order.
#[derive(Drop)]
pub(crate) struct AllLists {
    list: Vec<u32>,
    bound: u32,
    stage: Stage,
    ghost below: { has_ended stage ≡ false → All (λ p. p < bound) list.items },
}

impl AllLists {
    ghost use Rattle.ac_rules.specs.Shown.Lists.{list_of, bound_of, lists_left};

    /// Begins with the first list. It takes all its memory here.
    pub(crate) fn new(alloc: Global, width: usize, bound: u32) -> Result<AllLists, NoMemory>
        ensures left { IfOk result (λ lists. lists_left lists ≡ all_lists bound width) }
        ensures bound { IfOk result (λ lists. bound_of lists ≡ bound) }
        ensures width { IfOk result (λ lists. length (list_of lists) ≡ width) }
    {
        let list = vec![in alloc; 0u32; width]?;
        let stage = start(width, bound);
        Ok(AllLists { list, bound, stage })
    }

    /// Goes on to the next list, where there is one.
    #[tactic(auto, using(crate::proofs::Lists::OdometerLemmas::given_next, crate::proofs::Lists::OdometerLemmas::given_last, crate::proofs::Lists::OdometerLemmas::next_below))]
    pub(crate) fn step(&mut self) -> bool
        ensures given { MatchBool result (lists_left self.old
            ≡ list_of self.new ∷ lists_left self.new) ((lists_left self.old ≡ [])
            × (lists_left self.new ≡ [])) }
        ensures below { OnTrue result (All (λ p. p < bound_of self.new) (list_of self.new)) }
        ensures bound { bound_of self.new ≡ bound_of self.old }
        ensures width { length (list_of self.new) ≡ length (list_of self.old) }
    {
        match self.stage {
            Stage::Fresh => {
                self.stage = Stage::Given;
                true
            }
            Stage::Given => {
                if count_up(&mut self.list, self.bound) {
                    return true;
                }
                self.stage = Stage::Ended;
                false
            }
            Stage::Ended => false,
        }
    }

    /// The list that it has come to.
    pub(crate) fn list(&self) -> &[u32]
        ensures { result.now ≡ list_of self.now }
    {
        self.list.as_slice()
    }
}
