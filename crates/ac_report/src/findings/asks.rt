//! What a slot asks, as a text: its classes with their amounts.
ghost use Rattle.std.specs.Prelude.{◌≡◌, IfOk, map};
ghost use Rattle.ac_base.specs.Writing.{Pushes};
ghost use Rattle.ac_query.specs.Shown.Groups.{need_entry};
ghost use Rattle.ac_report.specs.Findings.Asks.{asks_text, need_text, needs_text};

use ac_base::pieces::digits::Digits;
use ac_base::pieces::push_pieces;
use ac_base::{NoMemory, Sink, ToWrite, WriteFailed};
use ac_query::Need;
use std::alloc::Global;

// A class with its amount, behind a mark.
#[tactic(auto, unfolding(crate::specs::Findings::Asks::need_text))]
fn push_need<W: Sink>(out: &mut W, mark: &[u8], need: &Need) -> Result<(), WriteFailed>
    ensures { Pushes W.taken W.failures out.old out.new result
        (need_text mark.now (need_entry need.now)) }
{
    push_pieces(
        out,
        &[
            mark,
            need.class().text().as_bytes(),
            b":",
            Digits::of(need.amount()).as_bytes(),
        ],
    )
}

/// Pushes all classes of a slot, the first behind a mark.
#[tactic(auto, using(crate::proofs::FoundTexts::ItemsWritten::item_part, ac_base::proofs::Leaving::behind), unfolding(crate::specs::Findings::Asks::needs_text))]
pub(super) fn push_needs<W: Sink>(
    out: &mut W,
    mark: &[u8],
    needs: &[Need],
) -> Result<(), WriteFailed>
    ensures { Pushes W.taken W.failures out.old out.new result
        (needs_text mark.now (map need_entry needs.now)) }
{
    let Some((first, others)) = needs.split_first() else {
        return Ok(());
    };
    push_need(out, mark, first)?;
    for need in others {
        push_need(out, b",", need)?;
    }
    Ok(())
}

/// All classes of a slot.
pub(super) fn asks_text(alloc: Global, needs: &[Need]) -> Result<Vec<u8>, NoMemory>
    ensures { IfOk result (λ text. text.items ≡ asks_text (map need_entry needs.now)) }
{
    let mut text = ToWrite::new(Vec::new(alloc));
    // A vector refuses bytes for want of memory alone.
    push_needs(&mut text, b"", needs).map_err(|_| NoMemory)?;
    Ok(text.into_inner())
}
