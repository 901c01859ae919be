//! Lines: what a remedy is of, and the remedy.
ghost use Rattle.std.specs.Prelude.{◌≡◌, IfOk};
ghost use Rattle.ac_remedies.specs.Queries.{pair_line, quoted_line, remedy_line};

use crate::quoted::{push_all, push_each, push_quoted};
use std::alloc::{AllocError, Global};

/// A remedy as a line.
#[tactic(auto, unfolding(crate::specs::Queries::remedy_line))]
pub(crate) fn remedy_line(alloc: Global, remedy: &[u8]) -> Result<Vec<u8>, AllocError>
    ensures { IfOk result (λ line. line.items ≡ remedy_line remedy.now) }
{
    let mut line = Vec::new(alloc);
    push_all(&mut line, &[b"  ", remedy, b"\n"])?;
    Ok(line)
}

/// The line of a text, which stands in quotes.
#[tactic(auto, unfolding(crate::specs::Queries::quoted_line))]
pub(crate) fn quoted_line(alloc: Global, text: &str, remedy: &[u8]) -> Result<Vec<u8>, AllocError>
    ensures { IfOk result (λ line. line.items ≡ quoted_line text.now remedy.now) }
{
    let mut line = Vec::new(alloc);
    push_all(&mut line, &[b"  "])?;
    push_quoted(&mut line, text.as_bytes())?;
    push_all(&mut line, &[b": ", remedy, b"\n"])?;
    Ok(line)
}

/// The line of a pair: its name, and its value in quotes. The name is a parameter's, or every byte is escaped that a parameter's hasn't.
#[tactic(auto, unfolding(crate::specs::Queries::pair_line))]
pub(crate) fn pair_line(
    alloc: Global,
    name: &str,
    value: &str,
    remedy: &[u8],
) -> Result<Vec<u8>, AllocError>
    ensures { IfOk result (λ line. line.items ≡ pair_line (name.now, value.now) remedy.now) }
{
    let mut line = Vec::new(alloc);
    push_all(&mut line, &[b"  "])?;
    push_each(&mut line, name.as_bytes())?;
    push_all(&mut line, &[b"="])?;
    push_quoted(&mut line, value.as_bytes())?;
    push_all(&mut line, &[b": ", remedy, b"\n"])?;
    Ok(line)
}
