//! Bodies, lines and rows of lists that a source in memory has left: how often it is asked, and what a sink that fails has taken.
ghost use Rattle.std.specs.Prelude.{◌≤◌, ◌<◌, drop, length, map};
ghost use Rattle.std.specs.Bool.{OnTrue};
ghost use Rattle.std.specs.List.{All};
ghost use Rattle.ac_query.specs.Shown.Queries.{asked_of};
ghost use Rattle.ac_cloud.specs.Cloud.CloudWorld.{providers_of};
ghost use Rattle.ac_report.specs.Pages.{IsAssignment};

use crate::clouds::{ONE, expanded, scene_of};
use ac_base::{MemSink, Sink, Turn};
use ac_query::Query;
use ac_report::{PageFault, write_list, write_page, write_tokens};
use ac_rules::{Source, TooManyTries};
use ac_tables::Cloud;
use std::alloc::{AllocError, Global};
use std::test::Fail;

mod refusals;

// A source of lists in memory, which counts its calls.
#[derive(Drop)]
struct Lists<'a> {
    lists: &'a [&'a [u32]],
    at: usize,
    calls: u32,
    ghost within: { at ≤ length lists.now },
}

impl<'a> Source for Lists<'a> {
    ghost left = { λ s. map (λ list. list.now) (drop s.at s.lists.now) };

    fn next(&mut self) -> Result<Option<&[u32]>, TooManyTries> {
        self.calls = self.calls.saturating_add(1);
        if self.at == self.lists.len() {
            return Ok(None);
        }
        let list = self.lists[self.at];
        self.at += 1;
        Ok(Some(list))
    }
}

// Whether all numbers of a list are below a count.
fn are_below(count: u32, list: &[u32]) -> bool
    ensures { OnTrue result (All (λ p. p < count) list.now) }
{
    list.iter().all(|ix| *ix < count)
}

fn is_assignment(cloud: &Cloud, query: &Query, list: &[u32]) -> bool
    ensures { OnTrue result (IsAssignment (providers_of cloud.now) (asked_of query.now) list.now) }
{
    list.len() == query.slots().len() && are_below(cloud.len(), list)
}

fn are_assignments(cloud: &Cloud, query: &Query, lists: &[&[u32]]) -> bool
    ensures { OnTrue result (All (IsAssignment (providers_of cloud.now) (asked_of query.now))
        (map (λ list. list.now) lists.now)) }
{
    for list in lists {
        if !is_assignment(cloud, query, list) {
            return false;
        }
    }
    true
}

#[derive(Clone, Copy)]
enum Writer {
    Page,
    Tokens,
    List,
}

fn write_by<S: Source, W: Sink>(
    alloc: Global,
    writer: Writer,
    cloud: &Cloud,
    query: &Query,
    source: &mut S,
    out: &mut W,
) -> Result<u32, PageFault>
    requires { All (IsAssignment (providers_of cloud.now) (asked_of query.now))
        (S.left source.old) }
{
    match writer {
        Writer::Page => write_page(alloc, cloud, query, source, out),
        Writer::Tokens => write_tokens(alloc, cloud, None, query, source, out),
        Writer::List => write_list(alloc, cloud, query, true, source, out),
    }
}

// What a writer answers, what its sink takes, and how often it asks the source.
#[derive(PartialEq, Drop)]
struct Written {
    answer: Result<u32, PageFault>,
    text: String,
    calls: u32,
}

fn write_lists(
    alloc: Global,
    writer: Writer,
    cloud: &Cloud,
    query: &Query,
    lists: &[&[u32]],
    turns: &[Turn],
) -> Result<Written, AllocError>
    requires { All (IsAssignment (providers_of cloud.now) (asked_of query.now))
        (map (λ list. list.now) lists.now) }
{
    let mut source = Lists {
        lists,
        at: 0,
        calls: 0,
    };
    let mut out = MemSink::new(vec![in alloc; 0; 4096]?, turns);
    let answer = write_by(alloc, writer, cloud, query, &mut source, &mut out);
    let text = String::from_utf8_lossy(alloc, out.taken())?;
    Ok(Written {
        answer,
        text,
        calls: source.calls,
    })
}

// What is written of lists on one provider, if they are assignments of the query.
fn run_writer(
    alloc: Global,
    writer: Writer,
    query: &str,
    lists: &[&[u32]],
    turns: &[Turn],
) -> Result<Option<Written>, AllocError> {
    let Some(scene) = scene_of(alloc, ONE, query, None)? else {
        return Ok(None);
    };
    if are_assignments(&scene.cloud, &scene.query, lists) {
        let written = write_lists(alloc, writer, &scene.cloud, &scene.query, lists, turns)?;
        return Ok(Some(written));
    }
    Ok(None)
}

// A writer, a query, the lists of its source and the turns of its sink; then its answer, what the sink has taken, and how often the source is asked.
type Case = (
    Writer,
    &'static str,
    &'static [&'static [u32]],
    &'static [Turn],
    Result<u32, PageFault>,
    &'static str,
    u32,
);

fn is_met(alloc: Global, case: &Case) -> Result<bool, AllocError> {
    let (writer, query, lists, turns, answer, text, calls) = *case;
    let text = expanded(alloc, text)?;
    let written = run_writer(alloc, writer, query, lists, turns)?;
    let wanted = Written {
        answer,
        text,
        calls,
    };
    Ok(written == Some(wanted))
}

const TWO: &str = "resources=VCPU:2";

const LIMITED: &str = "resources=VCPU:2&limit=1";

const ZERO: &[u32] = &[0];

const THOUSAND: &[&[u32]] = &[ZERO; 1000];

const AGAIN: &[Turn] = &[Turn::Again; 1000];

const ONCE_MORE: &[Turn] = &[Turn::Again; 1001];

const FAILS: Result<u32, PageFault> = Err(PageFault::WriteFailed);

// What is written of the only list on one provider.
const BODY: &str =
    "{\"allocation_requests\":[{\"allocations\":{\"@01\":{\"resources\":{\"VCPU\":2}}},\"mappings\":{\"\":[\"@01\"]}}],\"provider_summaries\":{\"@01\":{\"parent_provider_uuid\":null,\"resources\":{\"VCPU\":{\"capacity\":8,\"used\":0}},\"root_provider_uuid\":\"@01\",\"traits\":[]}}}\n";

const LINE: &str = "@01\n";

const ROW: &str =
    "#,allocation,resource provider,inventory used/capacity,traits,name\n1,VCPU=2,@01,VCPU=0/8,,\n";

const NO_BODY: &str = "{\"allocation_requests\":[],\"provider_summaries\":{}}\n";

// A sink that stops inside the second request, and one that stops inside the rows of the first list.
const IN_A_REQUEST: &[Turn] = &[
    Turn::Up(24),
    Turn::Up(1000),
    Turn::Up(1),
    Turn::Up(5),
    Turn::Failed,
];

const BODY_SO_FAR: &str =
    "{\"allocation_requests\":[{\"allocations\":{\"@01\":{\"resources\":{\"VCPU\":2}}},\"mappings\":{\"\":[\"@01\"]}},{\"all";

const IN_A_ROW: &[Turn] = &[Turn::Up(1000), Turn::Up(3), Turn::Failed];

const ROW_SO_FAR: &str = "#,allocation,resource provider,inventory used/capacity,traits,name\n1,V";

// A list is asked for only when the text of the one before has been pushed whole.
static CASES: [Case; 12] = [
    (Writer::Page, TWO, &[ZERO], &[], Ok(1), BODY, 2),
    (Writer::Page, TWO, &[], &[], Ok(0), NO_BODY, 1),
    (Writer::List, TWO, &[ZERO], &[], Ok(1), ROW, 2),
    (Writer::Tokens, TWO, &[ZERO], AGAIN, Ok(1), LINE, 2),
    (Writer::Tokens, TWO, &[ZERO], ONCE_MORE, FAILS, "", 1),
    (Writer::Page, LIMITED, THOUSAND, &[], Ok(1), BODY, 1),
    (Writer::Tokens, LIMITED, THOUSAND, &[], Ok(1), LINE, 1),
    (Writer::List, LIMITED, THOUSAND, &[], Ok(1), ROW, 1),
    (
        Writer::Page,
        TWO,
        THOUSAND,
        &[Turn::Up(10), Turn::Failed],
        FAILS,
        "{\"allocati",
        0,
    ),
    (
        Writer::Page,
        TWO,
        THOUSAND,
        IN_A_REQUEST,
        FAILS,
        BODY_SO_FAR,
        2,
    ),
    // The second line stops in the middle, and the next list isn't asked for.
    (
        Writer::Tokens,
        TWO,
        THOUSAND,
        &[Turn::Up(37), Turn::Up(1), Turn::Failed],
        FAILS,
        "@01\n0",
        2,
    ),
    (Writer::List, TWO, THOUSAND, IN_A_ROW, FAILS, ROW_SO_FAR, 1),
];

#[test]
fn lists_are_asked_for_one_at_a_time(rt: HostRuntime) -> Result<(), Fail> {
    for (number, case) in CASES.iter().enumerate() {
        assert!(rt; is_met(rt.alloc(), case)?, "case {number}");
    }
    Ok(())
}
