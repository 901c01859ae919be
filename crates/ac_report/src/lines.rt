//! A page as lines: the token of each candidate.
ghost use Rattle.std.specs.Prelude.{◌≡◌, ◌<◌, ◌++◌, ◌∷◌, ◌↔◌, ℕ, List, [], OnOk, IfSome, IsTrue, Some, is_some, length};
ghost use Rattle.std.specs.List.{All};
ghost use Rattle.ac_query.specs.Shown.Queries.{asked_of};
ghost use Rattle.ac_query.specs.Tokens.{ids_text, part_text};
ghost use Rattle.ac_rules.specs.Pages.{cut, ids_of};
ghost use Rattle.ac_cloud.specs.Cloud.CloudWorld.{providers_of};
ghost use Rattle.ac_report.specs.Called.{AreCalled, line_by, providers_called};
ghost use Rattle.ac_report.specs.Texts.{line};
ghost use Rattle.ac_report.specs.Outcomes.{Reads, WritesEach, one_less};
ghost use Rattle.ac_report.specs.Pages.{IsAssignment};

use crate::called::Names;
use crate::fault::PageFault;
use crate::named::named_line;
use ac_base::{Id, NoMemory, Sink, push_all};
use ac_cloud::Cloud;
use ac_query::Query;
use ac_rules::Source;
use std::alloc::Global;

/// Whether no further list is wanted, of so many that are.
pub fn is_over(wanted: Option<u32>) -> bool
    ensures { IsTrue result ↔ (wanted ≡ Some 0) }
{
    wanted == Some(0)
}

/// How many lists are wanted behind the next one.
pub fn one_less(wanted: Option<u32>) -> Option<u32>
    ensures { result ≡ one_less wanted }
{
    Some(wanted?.saturating_sub(1))
}

/// Pushes a piece.
pub fn push_piece<W: Sink>(out: &mut W, text: &[u8]) -> Result<(), PageFault>
    ensures { (piece : List ℕ → List ℕ) (x : List ℕ) → piece x ≡ text.now
        → WritesEach W.taken W.failures ⊥ out.old out.new result piece (x ∷ []) }
{
    push_all(out, text)?;
    Ok(())
}

// Adds the id at a place of a token: every one but the first stands behind a comma.
fn put_part(text: &mut Vec<u8>, place: usize, id: Id) -> Result<(), NoMemory>
    ensures { OnOk result (text.new.items ≡ text.old.items ++ part_text place id) }
{
    if place > 0 {
        text.push(b',')?;
    }
    text.extend_from_slice(&id.text())?;
    Ok(())
}

// Adds the ids of a list, joined by commas.
fn put_ids(text: &mut Vec<u8>, cloud: &Cloud, list: &[u32]) -> Result<(), NoMemory>
    requires { All (λ ix. ix < length (providers_of cloud.now)) list.now }
    ensures { OnOk result (text.new.items ≡ text.old.items
        ++ ids_text (ids_of (providers_of cloud.now) list.now)) }
{
    for (place, ix) in list.iter().enumerate() {
        put_part(text, place, cloud.id(*ix))?;
    }
    Ok(())
}

/// Makes a text the line of a list.
pub fn put_line(text: &mut Vec<u8>, cloud: &Cloud, list: &[u32]) -> Result<(), NoMemory>
    requires { All (λ ix. ix < length (providers_of cloud.now)) list.now }
    ensures { OnOk result (text.new.items ≡ line (providers_of cloud.now) list.now) }
{
    text.clear();
    put_ids(text, cloud, list)?;
    text.push(b'\n')?;
    Ok(())
}

/// Makes a text the line of a list: of UUIDs, or by names where they are given.
pub fn put_line_by(
    alloc: Global,
    text: &mut Vec<u8>,
    cloud: &Cloud,
    names: Option<&Names<'_>>,
    list: &[u32],
) -> Result<(), NoMemory>
    requires list { All (λ ix. ix < length (providers_of cloud.now)) list.now }
    requires names { IfSome names (λ names.
        AreCalled (providers_called (providers_of cloud.now)) names.now) }
    ensures { OnOk result (text.new.items
        ≡ line_by (is_some names.entry) (providers_of cloud.now) list.now) }
{
    match names {
        Some(names) => {
            *text = named_line(alloc, cloud, names, list)?;
            Ok(())
        }
        None => put_line(text, cloud, list),
    }
}

/// Writes a line for each list that is left, of UUIDs or by names, at most as many as the query's limit, and answers how many, at most 4294967295.
///
/// The next list is taken only once the line of the one before is pushed whole.
pub fn write_tokens<S: Source, W: Sink>(
    alloc: Global,
    cloud: &Cloud,
    names: Option<&Names<'_>>,
    query: &Query,
    source: &mut S,
    out: &mut W,
) -> Result<u32, PageFault>
    requires names { IfSome names (λ names.
        AreCalled (providers_called (providers_of cloud.now)) names.now) }
    requires lists { All (IsAssignment (providers_of cloud.now) (asked_of query.now))
        (S.left source.old) }
    ensures reads { Reads (asked_of query.now).limit 0 result (S.left source.old)
        (S.left source.new) }
    ensures writes { WritesEach W.taken W.failures (S.may_stop source.old) out.old out.new result
        (line_by (is_some names.entry) (providers_of cloud.now))
        (cut (asked_of query.now).limit (S.left source.old)) }
{
    let mut wanted = query.limit();
    let mut text = Vec::new(alloc);
    let mut count: u32 = 0;
    'lists: while !is_over(wanted) {
        match source.next()? {
            None => return Ok(count),
            Some(list) => put_line_by(alloc, &mut text, cloud, names, list)?,
        }
        push_piece(out, &text)?;
        wanted = one_less(wanted);
        count = count.saturating_add(1);
    }
    Ok(count)
}
