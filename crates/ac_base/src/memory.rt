//! How devices over bytes in memory are told what to answer.
ghost use Rattle.std.specs.Prelude.{◌≡◌};
ghost use Rattle.ac_base.specs.Memory.{next_turn, later_turns};

/// How a call to a device over memory goes.
#[derive(Clone, Copy, Debug, PartialEq, Eq)]
pub enum Turn {
    /// At most so many bytes move; of a feed at least one does.
    Up(usize),
    /// The call is interrupted.
    Again,
    /// The device fails.
    Failed,
}

// The next turn, which is then gone: any number of bytes where none is left.
pub(crate) fn take_turn(turns: &mut &[Turn]) -> Turn
    ensures turn { result ≡ next_turn turns.old.now }
    ensures later { turns.new.now ≡ later_turns turns.old.now }
{
    match turns.split_first() {
        None => Turn::Up(usize::MAX),
        Some((turn, rest)) => {
            *turns = rest;
            *turn
        }
    }
}
