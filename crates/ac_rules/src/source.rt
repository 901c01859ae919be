//! What gives lists of providers, one after another.
ghost use Rattle.std.specs.Prelude.{◌≡◌, ℕ, List, Option, Result, IfOk, OnErr, ⊤};
ghost use Rattle.std.specs.Borrow.{sem};
ghost use Rattle.std.specs.Option.{option_copied};
ghost use Rattle.std.specs.Io.BufRead.{Rests};
ghost use Rattle.ac_rules.specs.Lists.{PassesOver, head_of, left_behind, lent};
ghost use Rattle.ac_rules.specs.declared.source.TooManyTries.{TooManyTries};

use thiserror::Error;

/// A source has made as many tries as it may.
#[derive(Clone, Copy, Debug, PartialEq, Eq, Error)]
#[error("too many tries")]
pub struct TooManyTries;

/// A source of lists of providers, which gives one after another and lends each.
pub trait Source {
    /// The lists that are left.
    ghost left: { Self → List (List ℕ) };

    /// That it may stop before they are at their end.
    ghost may_stop: { Self → Type 0 } = { λ _. ⊥ };

    /// What else a call does: from the source before, its answer, and the source afterwards.
    ghost moves: { Self → Result (Option (List ℕ)) TooManyTries → Self → Type 0 } = { λ _ _ _. ⊤ };

    /// Lends the first list that is left, which is then gone; `None` where none is left, now and from then on. Where it stops, nothing is gone.
    fn next(&mut self) -> Result<Option<&[u32]>, TooManyTries>
        ensures head { IfOk result (λ list. option_copied list ≡ head_of (left self.old)) }
        ensures stopped { OnErr result (may_stop self.old) }
        ensures* tail { sem 𝓛 (Rests Self.row self.entry (λ new.
            (left new ≡ left_behind result (left self.old)) × (may_stop new → may_stop self.old)
            × moves self.old (lent result) new)) };

    /// Passes over the lists that come next and begin as given: all of them, some, or none.
    fn skip(&mut self, front: &[u32])
        ensures passes { PassesOver front.now (left self.old) (left self.new) }
        ensures stops { may_stop self.new → may_stop self.old }
    {}
}
