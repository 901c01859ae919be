//! What is told of an answer of the service beside lists: a line for each list that it hasn't, one
//! for each text that is no list's, and how many lists it has.
ghost use Rattle.std.specs.Prelude.{◌≡◌, ◌<◌, ◌≤◌, ◌+◌, ◌&&◌, not, ◌∷◌, [], ℕ, List, IfOk, OnOk, if◌then◌else◌, length, map, max, min, string_bytes};
ghost use Rattle.std.specs.BTreeSet.{insert_key};
ghost use Rattle.std.specs.List.{All, filter, fold};
ghost use Rattle.ac_base.specs.Sorted.{rising};
ghost use Rattle.ac_base.specs.Texts.{text_cmp};
ghost use Rattle.ac_cloud.specs.Cloud.CloudWorld.{providers_of};
ghost use Rattle.ac_query.specs.Shown.Queries.{asked_of};
ghost use Rattle.ac_report.specs.Outcomes.{WritesEach};
ghost use Rattle.ac_report.specs.Pages.{IsAssignment};
ghost use Rattle.ac_report.specs.Texts.{request_text};
ghost use Rattle.ac_run.specs.Compared.Answers.{texts_in};
ghost use Rattle.ac_run.specs.Compared.{count_known, here_line, is_among, is_whole, lines_here, lines_there, most_told, same_line, status_of, there_line, told_lines, told_status};

use super::ServiceAnswer;
use ac_base::{NoMemory, Sink};
use ac_cloud::Cloud;
use ac_query::Query;
use ac_report::lines::{push_piece, put_line};
use ac_report::{PageFault, request_text};
use ac_rules::Source;
use std::alloc::{AllocError, Global};
use std::collections::BTreeSet;

// How many lists were known, and the status by the lines that were written.
#[derive(Clone, Copy)]
struct Tally {
    same: u64,
    status: u8,
}

// The line of a list that the answer hasn't.
#[tactic(auto, unfolding(crate::specs::Compared::here_line))]
fn here_text(alloc: Global, cloud: &Cloud, list: &[u32]) -> Result<Vec<u8>, NoMemory>
    requires { All (λ ix. ix < length (providers_of cloud.now)) list.now }
    ensures { IfOk result (λ text. text.items ≡ here_line (providers_of cloud.now) list.now) }
{
    let mut line = Vec::new(alloc);
    put_line(&mut line, cloud, list)?;
    let mut text = Vec::new(alloc);
    text.extend_from_slice(b"only here: ")?;
    text.extend_from_slice(&line)?;
    Ok(text)
}

// The line of a text that is no list's.
#[tactic(auto, unfolding(crate::specs::Compared::there_line))]
fn there_text(alloc: Global, text: &str) -> Result<Vec<u8>, NoMemory>
    ensures { IfOk result (λ line. line.items ≡ there_line text.now) }
{
    let mut line = Vec::new(alloc);
    line.extend_from_slice(b"only the service: ")?;
    line.extend_from_slice(text.as_bytes())?;
    line.push(b'\n')?;
    Ok(line)
}

// The line that tells how many lists the answer has.
#[tactic(auto, unfolding(crate::specs::Compared::same_line))]
fn same_text(alloc: Global, count: u64) -> Result<String, AllocError>
    ensures { IfOk result (λ text. string_bytes text ≡ same_line count) }
{
    format!(in alloc; "the same: {count}\n")
}

// Texts as a set.
fn text_set<'a>(alloc: Global, texts: &'a Vec<String>) -> Result<BTreeSet<&'a str>, AllocError>
    ensures { IfOk result (λ set. map (λ t. t.now) set.keys
        ≡ rising text_cmp (map string_bytes texts.now.items)) }
{
    let mut set = BTreeSet::new(alloc);
    for text in texts {
        set.insert(text.as_str())?;
    }
    Ok(set)
}

// Whether a text is in a set.
fn has_text(set: &BTreeSet<&str>, text: &str) -> bool
    ensures { result ≡ is_among (map (λ t. t.now) set.now.keys) text.now }
{
    set.contains(text)
}

// Whether a text was met.
fn was_met(met: &BTreeSet<String>, text: &str) -> bool
    ensures { result ≡ is_among (map string_bytes met.now.keys) text.now }
{
    met.contains(text)
}

// Adds a text to those that were met.
fn meet(met: &mut BTreeSet<String>, text: String) -> Result<(), NoMemory>
    ensures { OnOk result (map string_bytes met.new.keys
        ≡ insert_key text_cmp (map string_bytes met.old.keys) (string_bytes text)) }
{
    met.insert(text)?;
    Ok(())
}

// Whether no limit may have kept a request out of an answer.
fn is_whole(query: &Query, answer: &ServiceAnswer) -> bool
    ensures { result ≡ is_whole (asked_of query.now).limit (length (texts_in answer.now)) }
{
    match query.limit() {
        None => true,
        Some(limit) => answer.texts.len() < limit as usize,
    }
}

// Writes the line of a list that the answer hasn't.
fn write_line<W: Sink>(
    alloc: Global,
    cloud: &Cloud,
    list: &[u32],
    out: &mut W,
) -> Result<(), PageFault>
    requires { All (λ ix. ix < length (providers_of cloud.now)) list.now }
    ensures { WritesEach W.taken W.failures ⊥ out.old out.new result (λ t. t)
        (here_line (providers_of cloud.now) list.now ∷ []) }
{
    let text = here_text(alloc, cloud, list)?;
    push_piece(out, &text)
}

// Writes the line of a list, unless its request is known or the answer isn't whole; answers whether
// it is known.
fn write_list<W: Sink>(
    alloc: Global,
    cloud: &Cloud,
    query: &Query,
    list: &[u32],
    known: &BTreeSet<&str>,
    whole: bool,
    met: &mut BTreeSet<String>,
    out: &mut W,
) -> Result<bool, PageFault>
    requires { IsAssignment (providers_of cloud.now) (asked_of query.now) list.now }
    ensures writes { WritesEach W.taken W.failures ⊥ out.old out.new result (λ t. t)
        (lines_here whole (is_among (map (λ t. t.now) known.now.keys)) (providers_of cloud.now)
        (asked_of query.now) (list.now ∷ [])) }
    ensures known { IfOk result (λ k. k ≡ is_among (map (λ t. t.now) known.now.keys)
        (request_text (providers_of cloud.now) (asked_of query.now) list.now)) }
    ensures met { IfOk result (λ k. map string_bytes met.new.keys
        ≡ (if k then insert_key text_cmp (map string_bytes met.old.keys)
        (request_text (providers_of cloud.now) (asked_of query.now) list.now)
        else map string_bytes met.old.keys)) }
{
    let text = request_text(alloc, cloud, query, list)?;
    if has_text(known, text.as_str()) {
        meet(met, text)?;
        return Ok(true);
    }
    if !whole {
        return Ok(false);
    }
    write_line(alloc, cloud, list, out)?;
    Ok(false)
}

// A count with one list more, if its request is known.
fn one_more(same: u64, known: bool) -> u64
    ensures { result ≡ min (same + (if known then 1 else 0)) most_told }
{
    if known {
        return same.saturating_add(1);
    }
    same
}

// The larger of two statuses.
fn larger(a: u8, b: u8) -> u8
    ensures { result ≡ max a b }
{
    a.max(b)
}

// A status with one list more: 1 where it has a line.
fn status_with(status: u8, whole: bool, known: bool) -> u8
    ensures { result ≡ max status (if whole && not known then 1 else 0) }
{
    if whole && !known {
        return larger(status, 1);
    }
    status
}

// Writes the lines of those lists that are left in a source and whose requests aren't known, where
// the answer is whole; and meets the requests that are known.
fn write_here<S: Source, W: Sink>(
    alloc: Global,
    cloud: &Cloud,
    query: &Query,
    known: &BTreeSet<&str>,
    whole: bool,
    met: &mut BTreeSet<String>,
    source: &mut S,
    out: &mut W,
) -> Result<Tally, PageFault>
    requires { All (IsAssignment (providers_of cloud.now) (asked_of query.now))
        (S.left source.old) }
    ensures writes { WritesEach W.taken W.failures (S.may_stop source.old) out.old out.new result
        (λ t. t) (lines_here whole (is_among (map (λ t. t.now) known.now.keys))
        (providers_of cloud.now) (asked_of query.now) (S.left source.old)) }
    ensures same { IfOk result (λ tally. tally.same
        ≡ min (count_known (is_among (map (λ t. t.now) known.now.keys)) (providers_of cloud.now)
        (asked_of query.now) (S.left source.old)) most_told) }
    ensures status { IfOk result (λ tally. tally.status
        ≡ status_of (lines_here whole (is_among (map (λ t. t.now) known.now.keys))
        (providers_of cloud.now) (asked_of query.now) (S.left source.old))) }
    ensures met { OnOk result (map string_bytes met.new.keys
        ≡ fold (insert_key text_cmp) (map string_bytes met.old.keys)
        (filter (is_among (map (λ t. t.now) known.now.keys))
        (map (request_text (providers_of cloud.now) (asked_of query.now)) (S.left source.old)))) }
{
    let mut same = 0;
    let mut status = 0;
    'lists: loop {
        match source.next()? {
            None => return Ok(Tally { same, status }),
            Some(list) => {
                let is_known = write_list(alloc, cloud, query, list, known, whole, met, out)?;
                same = one_more(same, is_known);
                status = status_with(status, whole, is_known);
            }
        }
    }
}

// Writes the line of a text that is no list's.
fn write_other<W: Sink>(alloc: Global, text: &str, out: &mut W) -> Result<(), PageFault>
    ensures { WritesEach W.taken W.failures ⊥ out.old out.new result (λ t. t)
        (there_line text.now ∷ []) }
{
    let line = there_text(alloc, text)?;
    push_piece(out, &line)
}

// Writes the line of a text, unless it was met; answers the status by that.
fn write_text<W: Sink>(
    alloc: Global,
    text: &str,
    met: &BTreeSet<String>,
    out: &mut W,
) -> Result<u8, PageFault>
    ensures writes { WritesEach W.taken W.failures ⊥ out.old out.new result (λ t. t)
        (lines_there (is_among (map string_bytes met.now.keys)) (text.now ∷ [])) }
    ensures status { IfOk result (λ status. status
        ≡ status_of (lines_there (is_among (map string_bytes met.now.keys)) (text.now ∷ []))) }
{
    if was_met(met, text) {
        return Ok(0);
    }
    write_other(alloc, text, out)?;
    Ok(1)
}

// Writes the lines of those texts that weren't met, and answers the status by them.
fn write_there<W: Sink>(
    alloc: Global,
    texts: &BTreeSet<&str>,
    met: &BTreeSet<String>,
    out: &mut W,
) -> Result<u8, PageFault>
    ensures writes { WritesEach W.taken W.failures ⊥ out.old out.new result (λ t. t)
        (lines_there (is_among (map string_bytes met.now.keys)) (map (λ t. t.now) texts.now.keys)) }
    ensures status { IfOk result (λ status. status
        ≡ status_of (lines_there (is_among (map string_bytes met.now.keys))
        (map (λ t. t.now) texts.now.keys))) }
{
    let mut status = 0;
    for text in texts.iter() {
        let more = write_text(alloc, text, met, out)?;
        status = larger(status, more);
    }
    Ok(status)
}

// Writes how many lists the answer has.
fn write_same<W: Sink>(alloc: Global, count: u64, out: &mut W) -> Result<(), PageFault>
    ensures { WritesEach W.taken W.failures ⊥ out.old out.new result (λ t. t)
        (same_line count ∷ []) }
{
    let text = same_text(alloc, count)?;
    push_piece(out, text.as_bytes())
}

/// Writes how an answer of the service differs from the lists that are left in a source.
///
/// There is a line for each list, in order, whose request the answer hasn't, unless a limit of the
/// query may have kept it out; then a line for each request that is no list's, in byte order, each
/// once; and how many lists the answer has, at most 18446744073709551615. Answers 0 where no line
/// tells a difference, else 1.
///
/// # Errors
/// Where the sink fails, a growth is refused, or the source stops.
pub fn write_compared<S: Source, W: Sink>(
    alloc: Global,
    cloud: &Cloud,
    query: &Query,
    answer: &ServiceAnswer,
    source: &mut S,
    out: &mut W,
) -> Result<u8, PageFault>
    requires { All (IsAssignment (providers_of cloud.now) (asked_of query.now))
        (S.left source.old) }
    ensures writes { WritesEach W.taken W.failures (S.may_stop source.old) out.old out.new result
        (λ t. t) (told_lines (providers_of cloud.now) (asked_of query.now) (S.left source.old)
        (texts_in answer.now)) }
    ensures status { IfOk result (λ status. status
        ≡ told_status (providers_of cloud.now) (asked_of query.now) (S.left source.old)
        (texts_in answer.now)) }
    ensures few { IfOk result (λ status. status ≤ 1) }
{
    let known = text_set(alloc, &answer.texts)?;
    let whole = is_whole(query, answer);
    let mut met = BTreeSet::new(alloc);
    let tally = write_here(alloc, cloud, query, &known, whole, &mut met, source, out)?;
    let status = write_there(alloc, &known, &met, out)?;
    write_same(alloc, tally.same, out)?;
    Ok(larger(tally.status, status))
}
