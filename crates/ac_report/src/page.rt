//! A page as a body of JSON: allocation requests, and the summaries of their trees.
ghost use Rattle.std.specs.Prelude.{◌≡◌, ◌<◌, ◌++◌, ◌∷◌, ◌||◌, ℕ, List, [], false, IfOk, OnOk, length, slice_index_or};
ghost use Rattle.std.specs.List.{All};
ghost use Rattle.serde_json.specs.Written.{comma_if};
ghost use Rattle.ac_cloud.specs.Cloud.CloudWorld.{providers_of};
ghost use Rattle.ac_cloud.specs.World.{id_at};
ghost use Rattle.ac_query.specs.Shown.Queries.{asked_of};
ghost use Rattle.ac_rules.specs.Pages.{cut};
ghost use Rattle.ac_report.specs.Marks.{IsMarked, body_pieces, has_root, is_summarized, requests, summaries};
ghost use Rattle.ac_report.specs.Outcomes.{Reads, Writes, WritesEach};
ghost use Rattle.ac_report.specs.Pages.{IsAssignment};
ghost use Rattle.ac_report.specs.Texts.{body, meets_root, pieces, shown_providers, summarized, summary_piece};

use crate::fault::PageFault;
use crate::lines::{is_over, one_less, push_piece};
use crate::request::request_text;
use crate::summary::{summary_member, without_braces};
use ac_base::{Sink, push_all};
use ac_cloud::Cloud;
use ac_query::Query;
use ac_rules::Source;
use std::alloc::{AllocError, Global};

// Pushes a text, after a comma where something stands before.
#[tactic(auto, using(ac_base::proofs::Leaving::behind))]
fn push_listed<W: Sink>(out: &mut W, later: bool, text: &[u8]) -> Result<(), PageFault>
    ensures { WritesEach W.taken W.failures ⊥ out.old out.new result (λ text. text)
        ((comma_if later ++ text.now) ∷ []) }
{
    if !later {
        push_all(out, text)?;
        return Ok(());
    }
    push_all(out, b",")?;
    push_all(out, text)?;
    Ok(())
}

// Marks at no root.
fn new_marks(alloc: Global, cloud: &Cloud) -> Result<Vec<bool>, AllocError>
    ensures { IfOk result (λ v. IsMarked (providers_of cloud.now) [] v.items) }
{
    vec![in alloc; false; cloud.len() as usize]
}

// Marks the root of a provider.
fn mark_root(cloud: &Cloud, ix: u32, marks: &mut [bool])
    requires long { length marks.old ≡ length (providers_of cloud.now) }
    requires provider { ix < length (providers_of cloud.now) }
    ensures long { length marks.new ≡ length marks.old }
    ensures marked { (r : ℕ) → r < length marks.old
        → slice_index_or marks.new r false ≡ (slice_index_or marks.old r false
        || has_root (providers_of cloud.now) (id_at (providers_of cloud.now) r) ix) }
{
    marks[cloud.root(ix) as usize] = true;
}

/// Marks the roots of a list's providers.
pub(crate) fn mark_roots(cloud: &Cloud, list: &[u32], marks: &mut [bool])
    requires long { length marks.old ≡ length (providers_of cloud.now) }
    requires providers { All (λ ix. ix < length (providers_of cloud.now)) list.now }
    ensures long { length marks.new ≡ length marks.old }
    ensures marked { (r : ℕ) → r < length marks.old
        → slice_index_or marks.new r false ≡ (slice_index_or marks.old r false
        || meets_root (providers_of cloud.now) (id_at (providers_of cloud.now) r) list.now) }
{
    for ix in list {
        mark_root(cloud, *ix, marks);
    }
}

// Writes the requests of the lists that are left, up to the limit, marks the roots of their providers, and answers how many.
fn write_requests<S: Source, W: Sink>(
    alloc: Global,
    cloud: &Cloud,
    query: &Query,
    source: &mut S,
    out: &mut W,
    marks: &mut [bool],
) -> Result<u32, PageFault>
    requires lists { All (IsAssignment (providers_of cloud.now) (asked_of query.now))
        (S.left source.old) }
    requires marks { IsMarked (providers_of cloud.now) [] marks.old }
    ensures reads { Reads (asked_of query.now).limit 0 result (S.left source.old)
        (S.left source.new) }
    ensures writes { WritesEach W.taken W.failures (S.may_stop source.old) out.old out.new result
        (λ text. text) (requests (providers_of cloud.now) (asked_of query.now) false
        (cut (asked_of query.now).limit (S.left source.old))) }
    ensures marks { OnOk result (IsMarked (providers_of cloud.now)
        (cut (asked_of query.now).limit (S.left source.old)) marks.new) }
{
    let mut wanted = query.limit();
    let mut count: u32 = 0;
    let mut later = false;
    'lists: while !is_over(wanted) {
        let text = match source.next()? {
            None => return Ok(count),
            Some(list) => {
                mark_roots(cloud, list, marks);
                request_text(alloc, cloud, query, list)?
            }
        };
        push_listed(out, later, text.as_bytes())?;
        later = true;
        wanted = one_less(wanted);
        count = count.saturating_add(1);
    }
    Ok(count)
}

// Writes a summary after its id, and after a comma where one stands before.
fn write_summary<W: Sink>(
    alloc: Global,
    cloud: &Cloud,
    ix: u32,
    traits: bool,
    later: bool,
    out: &mut W,
) -> Result<(), PageFault>
    requires { ix < length (providers_of cloud.now) }
    ensures { WritesEach W.taken W.failures ⊥ out.old out.new result (λ text. text)
        ((comma_if later ++ summary_piece (shown_providers traits (providers_of cloud.now)) ix)
        ∷ []) }
{
    let member = summary_member(alloc, cloud, ix, traits)?;
    push_listed(out, later, without_braces(&member))
}

// Whether the root of a provider is marked.
fn is_marked(cloud: &Cloud, marks: &[bool], ix: u32) -> bool
    requires marks { length marks.now ≡ length (providers_of cloud.now) }
    requires provider { ix < length (providers_of cloud.now) }
    ensures { (lists : List (List ℕ)) → IsMarked (providers_of cloud.now) lists marks.now
        → result ≡ is_summarized (providers_of cloud.now) lists ix }
{
    marks[cloud.root(ix) as usize]
}

// Writes the summaries of the providers whose root is marked.
fn write_summaries<W: Sink>(
    alloc: Global,
    cloud: &Cloud,
    marks: &[bool],
    traits: bool,
    out: &mut W,
) -> Result<(), PageFault>
    requires { length marks.now ≡ length (providers_of cloud.now) }
    ensures { (lists : List (List ℕ)) → IsMarked (providers_of cloud.now) lists marks.now
        → WritesEach W.taken W.failures ⊥ out.old out.new result (λ text. text)
        (summaries (shown_providers traits (providers_of cloud.now)) false
        (summarized (providers_of cloud.now) lists)) }
{
    let mut later = false;
    for ix in 0..cloud.len() {
        if !is_marked(cloud, marks, ix) {
            continue;
        }
        write_summary(alloc, cloud, ix, traits, later, out)?;
        later = true;
    }
    Ok(())
}

// Writes the body, with marks at no root.
fn write_parts<S: Source, W: Sink>(
    alloc: Global,
    cloud: &Cloud,
    query: &Query,
    traits: bool,
    source: &mut S,
    out: &mut W,
    marks: &mut [bool],
) -> Result<u32, PageFault>
    requires lists { All (IsAssignment (providers_of cloud.now) (asked_of query.now))
        (S.left source.old) }
    requires marks { IsMarked (providers_of cloud.now) [] marks.old }
    ensures reads { Reads (asked_of query.now).limit 0 result (S.left source.old)
        (S.left source.new) }
    ensures writes { WritesEach W.taken W.failures (S.may_stop source.old) out.old out.new result
        (λ text. text) (body_pieces traits (providers_of cloud.now) (asked_of query.now)
        (cut (asked_of query.now).limit (S.left source.old))) }
{
    push_piece(out, b"{\"allocation_requests\":[")?;
    let count = write_requests(alloc, cloud, query, source, out, marks)?;
    push_piece(out, b"],\"provider_summaries\":{")?;
    write_summaries(alloc, cloud, marks, traits, out)?;
    push_piece(out, b"}}\n")?;
    Ok(count)
}

/// Writes the JSON body of the lists that are left, at most as many as the query's limit, with the summaries of their providers' trees,
/// in which traits are told or not, and answers how many lists these are, at most 4294967295.
///
/// The next list is taken only once the request of the one before is pushed whole.
pub fn write_shown_page<S: Source, W: Sink>(
    alloc: Global,
    cloud: &Cloud,
    query: &Query,
    traits: bool,
    source: &mut S,
    out: &mut W,
) -> Result<u32, PageFault>
    requires { All (IsAssignment (providers_of cloud.now) (asked_of query.now))
        (S.left source.old) }
    ensures reads { Reads (asked_of query.now).limit 0 result (S.left source.old)
        (S.left source.new) }
    ensures writes { Writes W.taken W.failures (S.may_stop source.old) out.old out.new result
        (body (shown_providers traits (providers_of cloud.now)) (asked_of query.now)
        (cut (asked_of query.now).limit (S.left source.old))) (λ text. text)
        (pieces (shown_providers traits (providers_of cloud.now)) (asked_of query.now)
        (cut (asked_of query.now).limit (S.left source.old))) }
{
    let mut marks = new_marks(alloc, cloud)?;
    write_parts(alloc, cloud, query, traits, source, out, &mut marks)
}

/// Writes the JSON body of the lists that are left, at most as many as the query's limit, with the summaries of their providers' trees,
/// traits among them, and answers how many lists these are, at most 4294967295.
///
/// The next list is taken only once the request of the one before is pushed whole.
pub fn write_page<S: Source, W: Sink>(
    alloc: Global,
    cloud: &Cloud,
    query: &Query,
    source: &mut S,
    out: &mut W,
) -> Result<u32, PageFault>
    requires { All (IsAssignment (providers_of cloud.now) (asked_of query.now))
        (S.left source.old) }
    ensures reads { Reads (asked_of query.now).limit 0 result (S.left source.old)
        (S.left source.new) }
    ensures writes { Writes W.taken W.failures (S.may_stop source.old) out.old out.new result
        (body (providers_of cloud.now) (asked_of query.now)
        (cut (asked_of query.now).limit (S.left source.old))) (λ text. text)
        (pieces (providers_of cloud.now) (asked_of query.now)
        (cut (asked_of query.now).limit (S.left source.old))) }
{
    write_shown_page(alloc, cloud, query, true, source, out)
}
