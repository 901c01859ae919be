//! How many of each flavor a cloud can hold, as metrics in the text format of Prometheus.
ghost use Rattle.std.specs.Prelude.{◌≡◌, ◌++◌, ◌∷◌, [], IfOk, codes, map, option_map};
ghost use Rattle.std.specs.List.{flat_map};
ghost use Rattle.ac_base.specs.Writing.Pieces.{newline, said};
ghost use Rattle.ac_run.specs.Capacity.{label_byte, label_text, metric_head, metric_help, metric_line, metric_name, metric_text, metrics_text, sample, short_line, two_labels};
ghost use Rattle.ac_run.specs.Rooms.{room_shown, shortage_shown};

use crate::capacity::{Room, Shortage};
use ac_base::NoMemory;
use ac_report::shown_name;
use std::alloc::Global;

// A number of each flavor, in the order in which they are written.
#[derive(Clone, Copy)]
enum Metric {
    Hosts,
    AtLeast,
    AtMost,
    Wanted,
    ShortAt,
}

// All of them.
const METRICS: [Metric; 5] = [
    Metric::Hosts,
    Metric::AtLeast,
    Metric::AtMost,
    Metric::Wanted,
    Metric::ShortAt,
];

impl Metric {
    fn name(self) -> &'static [u8]
        ensures { result.now ≡ metric_name self }
    {
        match self {
            Metric::Hosts => b"ac_flavor_hosts",
            Metric::AtLeast => b"ac_flavor_at_least",
            Metric::AtMost => b"ac_flavor_at_most",
            Metric::Wanted => b"ac_flavor_wanted",
            Metric::ShortAt => b"ac_flavor_short_at",
        }
    }

    fn help(self) -> &'static [u8]
        ensures { result.now ≡ metric_help self }
    {
        match self {
            Metric::Hosts => b"Root providers at which the flavor fits.",
            Metric::AtLeast => b"Placements by first fit.",
            Metric::AtMost => b"Placements in any order at most.",
            Metric::Wanted => b"Placements that are wanted.",
            Metric::ShortAt => b"Root providers that are short of the label short_of.",
        }
    }
}

// Adds some pieces.
fn add(text: &mut Vec<u8>, pieces: &[&[u8]]) -> Result<(), NoMemory>
    ensures { IfOk result (λ _. text.new.items
        ≡ text.old.items ++ flat_map (λ piece. piece.now) pieces.now) }
{
    for piece in pieces {
        text.extend_from_slice(piece)?;
    }
    Ok(())
}

// Adds a byte of the value of a label.
fn add_byte(label: &mut Vec<u8>, byte: u8) -> Result<(), NoMemory>
    ensures { IfOk result (λ _. label.new.items ≡ label.old.items ++ label_byte byte) }
{
    if byte == b'"' || byte == b'\\' {
        label.push(b'\\')?;
    }
    label.push(byte)?;
    Ok(())
}

// The value of a label.
fn label_text(alloc: Global, name: &[u8]) -> Result<Vec<u8>, NoMemory>
    ensures { IfOk result (λ label. label.items ≡ label_text name.now) }
{
    let shown = shown_name(alloc, name)?;
    let mut label = Vec::new(alloc);
    for &byte in &shown {
        add_byte(&mut label, byte)?;
    }
    Ok(label)
}

// Adds the head of a metric.
#[tactic(auto, unfolding(crate::specs::Capacity::metric_head))]
fn add_head(text: &mut Vec<u8>, metric: Metric) -> Result<(), NoMemory>
    ensures { IfOk result (λ _. text.new.items
        ≡ text.old.items ++ metric_head (metric_name metric) (metric_help metric)) }
{
    let name = metric.name();
    let help = metric.help();
    add(
        text,
        &[
            b"# HELP ",
            name,
            b" ",
            help,
            b"\n# TYPE ",
            name,
            b" gauge\n",
        ],
    )
}

// Adds the line of a number, as it is written, behind the values of its labels.
fn add_number(
    text: &mut Vec<u8>,
    metric: &[u8],
    labels: &[u8],
    count: &[u8],
) -> Result<(), NoMemory>
    ensures { IfOk result (λ _. text.new.items ≡ text.old.items
        ++ said (metric.now ∷ codes "{flavor=\"" ∷ labels.now ∷ codes "\"} " ∷ count.now
        ∷ newline ∷ [])) }
{
    add(
        text,
        &[metric, b"{flavor=\"", labels, b"\"} ", count, b"\n"],
    )
}

// Adds the line of a number, behind the values of its labels.
#[tactic(auto, unfolding(crate::specs::Capacity::sample))]
fn add_sample(
    alloc: Global,
    text: &mut Vec<u8>,
    metric: Metric,
    labels: &[u8],
    count: u128,
) -> Result<(), NoMemory>
    ensures { IfOk result (λ _. text.new.items
        ≡ text.old.items ++ sample (metric_name metric) labels.now count) }
{
    let count = format!(in alloc; "{count}")?;
    add_number(text, metric.name(), labels, count.as_bytes())
}

// The values of two labels: of the flavor, and of what it is short of.
#[tactic(auto, unfolding(crate::specs::Capacity::two_labels))]
fn two_labels(alloc: Global, flavor: &[u8], short: &[u8]) -> Result<Vec<u8>, NoMemory>
    ensures { IfOk result (λ labels. labels.items ≡ two_labels flavor.now short.now) }
{
    let mut labels = Vec::new(alloc);
    add(&mut labels, &[flavor, b"\",short_of=\"", short])?;
    Ok(labels)
}

// Adds the line of a flavor that is short of something.
fn add_short(
    alloc: Global,
    text: &mut Vec<u8>,
    flavor: &[u8],
    shortage: Option<&Shortage>,
) -> Result<(), NoMemory>
    ensures { IfOk result (λ _. text.new.items ≡ text.old.items
        ++ short_line flavor.now (option_map (λ s. shortage_shown s.now) shortage.entry)) }
{
    let Some((short, count)) = shortage else {
        return Ok(());
    };
    let short = label_text(alloc, short)?;
    let labels = two_labels(alloc, flavor, &short)?;
    add_sample(alloc, text, Metric::ShortAt, &labels, *count as u128)
}

// Adds the line of a flavor.
fn add_line(alloc: Global, text: &mut Vec<u8>, metric: Metric, room: &Room) -> Result<(), NoMemory>
    ensures { IfOk result (λ _. text.new.items
        ≡ text.old.items ++ metric_line metric (room_shown room.now)) }
{
    let flavor = label_text(alloc, room.name)?;
    match metric {
        Metric::Hosts => add_sample(alloc, text, metric, &flavor, room.hosts as u128),
        Metric::AtLeast => add_sample(alloc, text, metric, &flavor, u128::from(room.at_least)),
        Metric::AtMost => add_sample(alloc, text, metric, &flavor, room.at_most),
        Metric::Wanted => add_sample(alloc, text, metric, &flavor, u128::from(room.wanted)),
        Metric::ShortAt => add_short(alloc, text, &flavor, room.shortage()),
    }
}

// Adds a metric: its head, and a line for each flavor.
fn add_metric(
    alloc: Global,
    text: &mut Vec<u8>,
    metric: Metric,
    rooms: &[Room],
) -> Result<(), NoMemory>
    ensures { IfOk result (λ _. text.new.items
        ≡ text.old.items ++ metric_text (map room_shown rooms.now) metric) }
{
    add_head(text, metric)?;
    for room in rooms {
        add_line(alloc, text, metric, room)?;
    }
    Ok(())
}

/// The metrics of all flavors.
#[tactic(auto, unfolding(crate::specs::Capacity::metrics_text))]
pub(super) fn metrics_text(alloc: Global, rooms: &[Room]) -> Result<Vec<u8>, NoMemory>
    ensures { IfOk result (λ text. text.items ≡ metrics_text (map room_shown rooms.now)) }
{
    let mut text = Vec::new(alloc);
    for metric in &METRICS {
        add_metric(alloc, &mut text, *metric, rooms)?;
    }
    Ok(text)
}
