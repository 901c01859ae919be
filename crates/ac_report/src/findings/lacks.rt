//! What a root lacks, as rows tell it.
ghost use Rattle.std.specs.Prelude.{◌≡◌};
ghost use Rattle.ac_report.specs.Findings.HostRows.{lack_name, slot_shown, stage_name};
ghost use Rattle.ac_base.specs.Writing.Digits.{digits_shown};

use ac_base::pieces::digits::Digits;
use ac_find::{Lack, Stage};

/// The name of a test of a slot.
pub(crate) fn stage_name(stage: Stage) -> &'static [u8]
    ensures { result.now ≡ stage_name stage }
{
    match stage {
        Stage::Inventory => b"no inventory",
        Stage::Units => b"units",
        Stage::Traits => b"traits",
        Stage::Aggregates => b"aggregates",
        Stage::Tree => b"tree",
        Stage::Room => b"room",
    }
}

/// The name of what a root lacks.
pub(crate) fn lack_name(lacks: Option<Lack>) -> &'static [u8]
    ensures { result.now ≡ lack_name lacks }
{
    match lacks {
        None => b"",
        Some(Lack::RootTraits) => b"root traits",
        Some(Lack::Slot { slot: _, stage }) => stage_name(stage),
        Some(Lack::RequiredTraits) => b"required traits",
        Some(Lack::Together) => b"together",
    }
}

/// The digits of the slot that a root lacks a provider for.
pub(crate) fn slot_digits(lacks: Option<Lack>) -> Digits
    ensures { digits_shown result ≡ slot_shown lacks }
{
    match lacks {
        Some(Lack::Slot { slot, stage: _ }) => Digits::of(slot),
        _ => Digits::none(),
    }
}
