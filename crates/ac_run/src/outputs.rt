//! Small outputs: the counts of the tables, the verdict on a list, and how many placements there are.
ghost use Rattle.std.specs.Prelude.{◌≡◌, ◌≤◌, ◌∷◌, [], IfOk, codes, map, string_bytes};
ghost use Rattle.ac_cloud.specs.Cloud.CloudWorld.{sizes_of};
ghost use Rattle.ac_fill.specs.Found.{short_entry};
ghost use Rattle.ac_run.specs.Outputs.{broken_line, broken_name, counts, first_short, later_short, shorts_text, sum_text, verdict_status, verdict_text};
ghost use Rattle.ac_base.specs.Writing.Pieces.{newline, said};
ghost use Rattle.ac_base.specs.Writing.{Pushes};
ghost use Rattle.ac_run.specs.Answer.{written};
ghost use Rattle.ac_run.specs.Run.{Delivers};

pub(crate) mod compared;
pub(crate) mod parameters;
pub(crate) mod plain;
pub(crate) mod query_rows;

use ac_base::{Digits, NoMemory, Sink, WriteFailed, push_all, push_pieces};
use ac_fill::{Bound, Short};
use ac_report::PageFault;
use ac_rules::{Rule, Verdict};
use ac_tables::Counts;
use std::alloc::Global;

// A rule that is broken, by its number and its name.
#[tactic(auto, unfolding(crate::specs::Outputs::broken_name))]
fn broken_name(rule: Rule) -> &'static str
    ensures { result.now ≡ broken_name rule }
{
    match rule {
        Rule::Units => "no: rule 1 Units",
        Rule::SlotTraits => "no: rule 2 SlotTraits",
        Rule::Aggregates => "no: rule 3 Aggregates",
        Rule::Tree => "no: rule 4 Tree",
        Rule::Collective => "no: rule 5 Collective",
        Rule::Sums => "no: rule 6 Sums",
        Rule::Isolate => "no: rule 7 Isolate",
        Rule::Subtree => "no: rule 8 Subtree",
        Rule::Anchor => "no: rule 9 Anchor",
    }
}

// Pushes the line of a rule that is broken.
#[tactic(auto, unfolding(crate::specs::Outputs::broken_line))]
fn push_broken<W: Sink>(out: &mut W, rule: Rule) -> Result<(), WriteFailed>
    ensures { Pushes W.taken W.failures out.old out.new result (broken_line rule) }
{
    push_pieces(out, &[broken_name(rule).as_bytes(), b"\n"])
}

/// Pushes the line that tells a verdict.
#[tactic(auto, unfolding(crate::specs::Outputs::verdict_text))]
pub fn push_verdict<W: Sink>(out: &mut W, verdict: Verdict) -> Result<(), WriteFailed>
    ensures { Pushes W.taken W.failures out.old out.new result (verdict_text verdict) }
{
    match verdict {
        Verdict::Candidate => push_all(out, b"candidate\n"),
        Verdict::Broken(rule) => push_broken(out, rule),
    }
}

/// The line of a rule that is broken, with the first thing by which it is.
pub(crate) fn detailed_line(alloc: Global, rule: Rule, detail: &str) -> Result<String, NoMemory>
    ensures { IfOk result (λ line. string_bytes line
        ≡ said (broken_name rule ∷ codes ": " ∷ detail.now ∷ newline ∷ [])) }
{
    let name = broken_name(rule);
    Ok(format!(in alloc; "{name}: {detail}\n")?)
}

/// 0 where a list is a candidate, 1 where it breaks a rule.
pub(crate) fn verdict_status(verdict: Verdict) -> u8
    ensures said { result ≡ verdict_status verdict }
    ensures few { result ≤ 1 }
{
    match verdict {
        Verdict::Candidate => 0,
        Verdict::Broken(_) => 1,
    }
}

/// Pushes how much the tables told, a line for each.
#[tactic(auto, unfolding(crate::specs::Outputs::counts))]
pub(crate) fn push_counts<W: Sink>(out: &mut W, counted: &Counts) -> Result<(), WriteFailed>
    ensures { Pushes W.taken W.failures out.old out.new result (counts (sizes_of counted.now)) }
{
    push_pieces(
        out,
        &[
            b"providers ",
            Digits::of(counted.providers).as_bytes(),
            b"\ninventories ",
            Digits::of(counted.inventories).as_bytes(),
            b"\nusages ",
            Digits::of(counted.usages).as_bytes(),
            b"\ntraits ",
            Digits::of(counted.traits).as_bytes(),
            b"\naggregates ",
            Digits::of(counted.aggregates).as_bytes(),
            b"\n",
        ],
    )
}

// The first class that roots are short of, with how many these are.
#[tactic(auto, unfolding(crate::specs::Outputs::first_short))]
fn first_short(alloc: Global, short: &Short) -> Result<String, NoMemory>
    ensures { IfOk result (λ text. string_bytes text ≡ first_short (short_entry short.now)) }
{
    let class = short.class.text();
    let roots = short.roots;
    let hosts = if roots == 1 { "host" } else { "hosts" };
    Ok(format!(in alloc; ": short of {class} at {roots} {hosts}")?)
}

// A later one.
#[tactic(auto, unfolding(crate::specs::Outputs::later_short))]
fn later_short(alloc: Global, short: &Short) -> Result<String, NoMemory>
    ensures { IfOk result (λ text. string_bytes text ≡ later_short (short_entry short.now)) }
{
    let class = short.class.text();
    let roots = short.roots;
    Ok(format!(in alloc; ", {class} at {roots}")?)
}

// All that roots are short of.
fn shorts_text(alloc: Global, shorts: &[Short]) -> Result<String, NoMemory>
    ensures { IfOk result (λ text. string_bytes text
        ≡ shorts_text (map short_entry shorts.now)) }
{
    let Some((first, later)) = shorts.split_first() else {
        return Ok(String::new(alloc));
    };
    let mut text = first_short(alloc, first)?;
    for short in later {
        text.push_str(&later_short(alloc, short)?)?;
    }
    Ok(text)
}

/// How many placements there are, how many there can be at most, and what roots are short of.
#[tactic(auto, unfolding(crate::specs::Outputs::sum_text))]
pub(crate) fn sum_line(alloc: Global, least: u32, bound: &Bound) -> Result<String, NoMemory>
    ensures { IfOk result (λ line. string_bytes line
        ≡ sum_text least bound.now.most (map short_entry bound.now.shorts.items)) }
{
    let most = bound.most;
    let shorts = shorts_text(alloc, &bound.shorts)?;
    Ok(format!(in alloc; "at least {least}, at most {most}{shorts}\n")?)
}

/// Pushes a text that is at hand, and gives its status.
pub(crate) fn push_text<W: Sink>(out: &mut W, text: &[u8], status: u8) -> Result<u8, PageFault>
    requires { status ≤ 1 }
    ensures { Delivers (written text.now status) ⊥ result (W.taken out.old) (W.taken out.new)
        (W.failures out.old) (W.failures out.new) }
{
    push_all(out, text)?;
    Ok(status)
}
