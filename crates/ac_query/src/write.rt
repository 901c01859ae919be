//! The text of a token.
ghost use Rattle.std.specs.Prelude.{◌≡◌, ◌++◌, IfOk, OnOk};
ghost use Rattle.std.specs.String.{string_bytes};
ghost use Rattle.ac_query.specs.Tokens.{part_text, ids_text};

use ac_base::{Id, NoMemory};
use std::alloc::Global;

/// Adds the part of a token at a place: every part but the first stands behind a comma.
pub(crate) fn push_part(text: &mut String, place: usize, id: Id) -> Result<(), NoMemory>
    ensures { OnOk result (string_bytes text.new ≡ string_bytes text.old ++ part_text place id) }
{
    if place > 0 {
        text.push(',')?;
    }
    let bytes = id.text();
    match std::str::from_utf8(&bytes) {
        Ok(written) => text.push_str(written)?,
        Err(_) => unreachable!(),
    }
    Ok(())
}

/// The text of a token: UUIDs in written form, joined by commas.
#[tactic(auto, using(crate::proofs::WrittenIds::next_part))]
pub fn write_ids(alloc: Global, ids: &[Id]) -> Result<String, NoMemory>
    ensures { IfOk result (λ text. string_bytes text ≡ ids_text ids.now) }
{
    let mut text = String::new(alloc);
    for (place, id) in ids.iter().enumerate() {
        push_part(&mut text, place, *id)?;
    }
    Ok(text)
}
