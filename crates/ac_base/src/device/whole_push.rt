//! Whole pieces pushed into a sink.
ghost use Rattle.std.specs.Prelude.{◌≡◌, OnOk, OnErr};
ghost use Rattle.ac_base.specs.Devices.{IsGivenUp};
ghost use Rattle.ac_base.specs.Writing.{Pushes};

use crate::device::{MOST_AGAIN, Push, Sink};

/// The device failed, or was interrupted more often in a row than is borne.
#[derive(Clone, Copy, Debug, PartialEq, Eq)]
pub struct WriteFailed;

/// Pushes a whole piece. After a fault the sink has taken a first part of it.
#[tactic(auto, using(crate::proofs::Leaving::leaves_start, crate::proofs::Leaving::leaves_keeps, crate::proofs::Leaving::leaves_takes, crate::proofs::Leaving::leaves_none, crate::proofs::Leaving::leaves_part))]
pub fn push_all<W: Sink>(out: &mut W, piece: &[u8]) -> Result<(), WriteFailed>
    ensures pushes { Pushes W.taken W.failures out.old out.new result piece.now }
    ensures unbroken { OnOk result (W.breaks out.new ≡ W.breaks out.old) }
    ensures given_up { OnErr result (IsGivenUp (W.breaks out.old) (W.breaks out.new)
        (W.failures out.old) (W.failures out.new)) }
{
    let mut rest = piece;
    let mut again = 0;
    while !rest.is_empty() {
        match out.push(rest) {
            Push::Took(0) | Push::Failed => return Err(WriteFailed),
            Push::Took(count) => {
                rest = &rest[count..];
                again = 0;
            }
            Push::Again => {
                if again == MOST_AGAIN {
                    return Err(WriteFailed);
                }
                again += 1;
            }
        }
    }
    Ok(())
}
