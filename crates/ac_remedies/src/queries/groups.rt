//! What is said of a group without resources, and of a suffix of no group.
ghost use Rattle.std.specs.Prelude.{◌≡◌, IfOk, string_bytes};
ghost use Rattle.std.specs.Option.{option_map};
ghost use Rattle.ac_base.specs.Names.{suffix_bytes};
ghost use Rattle.ac_remedies.specs.Queries.{bare_line, bare_text, stray_line, stray_text};

use crate::queries::lines::remedy_line;
use ac_base::Suffix;
use std::alloc::{AllocError, Global};

#[tactic(auto, unfolding(crate::specs::Queries::bare_text))]
fn bare_text(alloc: Global, suffix: &str) -> Result<String, AllocError>
    ensures { IfOk result (λ text. string_bytes text ≡ bare_text suffix.now) }
{
    format!(in alloc; "add resources{suffix}=CLASS:AMOUNT, or list {suffix} in a same_subtree")
}

/// The line of a group without resources.
pub(crate) fn bare_line(alloc: Global, suffix: &Option<Suffix>) -> Result<Vec<u8>, AllocError>
    ensures { IfOk result (λ line. line.items
        ≡ bare_line (option_map suffix_bytes suffix.now)) }
{
    match suffix {
        Some(suffix) => remedy_line(alloc, bare_text(alloc, suffix.text())?.as_bytes()),
        None => remedy_line(
            alloc,
            b"add resources=CLASS:AMOUNT, or write the suffix of a group with resources behind the names of the other parameters",
        ),
    }
}

#[tactic(auto, unfolding(crate::specs::Queries::stray_text))]
fn stray_text(alloc: Global, suffix: &str) -> Result<String, AllocError>
    ensures { IfOk result (λ text. string_bytes text ≡ stray_text suffix.now) }
{
    format!(in alloc;
        "add resources{suffix}=CLASS:AMOUNT, or take {suffix} off the list of same_subtree"
    )
}

/// The line of a suffix of no group.
pub(crate) fn stray_line(alloc: Global, suffix: &Suffix) -> Result<Vec<u8>, AllocError>
    ensures { IfOk result (λ line. line.items ≡ stray_line (suffix_bytes suffix.now)) }
{
    remedy_line(alloc, stray_text(alloc, suffix.text())?.as_bytes())
}
