//! Texts in pieces, pushed whole into a sink.
ghost use Rattle.std.specs.List.{flat_map};
ghost use Rattle.ac_base.specs.Writing.Pieces.{marked};
ghost use Rattle.ac_base.specs.Writing.{Pushes};

pub mod digits;

use crate::device::Sink;
use crate::device::whole_push::{WriteFailed, push_all};

/// Pushes pieces one after the other, until one isn't taken whole. After a fault the sink has taken a first part of them.
pub fn push_pieces<W: Sink>(out: &mut W, pieces: &[&[u8]]) -> Result<(), WriteFailed>
    ensures { Pushes W.taken W.failures out.old out.new result
        (flat_map (λ piece. piece.now) pieces.now) }
{
    for piece in pieces {
        push_all(out, piece)?;
    }
    Ok(())
}

/// Pushes a text behind a mark.
#[tactic(auto, unfolding(crate::specs::Writing::Pieces::marked))]
pub fn push_marked<W: Sink>(out: &mut W, mark: &[u8], text: &[u8]) -> Result<(), WriteFailed>
    ensures { Pushes W.taken W.failures out.old out.new result (marked mark.now text.now) }
{
    push_pieces(out, &[mark, text])
}
