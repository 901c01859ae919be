//! Changes as a text says them, and the cloud after them.
ghost use Rattle.std.specs.Prelude.{◌≡◌, ◌<◌, ◌++◌, [], None, Ok, get_or, length, map, IfErr, IfOk, OnOk};
ghost use Rattle.std.specs.Option.{option_to_list};
ghost use Rattle.std.specs.Result.{result_err};
ghost use Rattle.ac_cloud.specs.Cloud.CloudWorld.{world_of};
ghost use Rattle.ac_change.specs.Changes.{all_changed, changed, told_at, world_changed};
ghost use Rattle.ac_change.specs.Drafts.{all_held};
ghost use Rattle.ac_change.specs.Faults.{TellsLine};
ghost use Rattle.ac_change.specs.Lines.{changes_fault, changes_said, fault_at, said_at, words_of};
ghost use Rattle.ac_change.specs.Shown.{change_shown, line_shown};

use crate::changes::Line;
use crate::draft::Draft;
use crate::fault::{ChangeFault, ChangeKind, Failed};
use crate::reading::read_change;
use crate::reading::words::{is_passed, lines, words};
use ac_base::NoMemory;
use ac_cloud::Cloud;
use std::alloc::Global;

// The change of a line, unless it is passed over.
fn read_line(alloc: Global, number: u64, line: &[u8]) -> Result<Option<Line>, ChangeFault>
    ensures said { IfOk result (λ said.
        map line_shown (option_to_list said) ≡ said_at number (words_of line.now)) }
    ensures ok { OnOk result (fault_at number (words_of line.now) ≡ None) }
    ensures fault { IfErr result (TellsLine (fault_at number (words_of line.now))) }
{
    let words = words(alloc, line)?;
    if is_passed(&words) {
        return Ok(None);
    }
    match read_change(alloc, &words)? {
        Some(change) => Ok(Some(Line { number, change })),
        None => Err(ChangeFault::At {
            line: number,
            kind: ChangeKind::BadLine,
        }),
    }
}

// The line at a place.
fn line_at<'a>(lines: &'a [&'a [u8]], ix: usize) -> &'a [u8]
    requires { ix < length lines.now }
    ensures { result.now ≡ get_or (map (λ l. l.now) lines.now) ix [] }
{
    lines[ix]
}

// The changes with that of one line more.
fn with_line(changes: Vec<Line>, line: Option<Line>) -> Result<Vec<Line>, NoMemory>
    ensures { IfOk result (λ new. map line_shown new.items
        ≡ map line_shown changes.items ++ map line_shown (option_to_list line)) }
{
    let mut changes = changes;
    if let Some(line) = line {
        changes.push(line)?;
    }
    Ok(changes)
}

/// Reads changes, one a line: all of a text, or its first fault. Empty lines are passed over, and so are those that begin with `#`.
pub fn read_changes(alloc: Global, text: &[u8]) -> Result<Vec<Line>, ChangeFault>
    ensures changes { IfOk result (λ changes.
        map line_shown changes.items ≡ changes_said text.now) }
    ensures ok { OnOk result (changes_fault text.now ≡ None) }
    ensures fault { IfErr result (TellsLine (changes_fault text.now)) }
{
    let lines = lines(alloc, text)?;
    let mut changes = Vec::new(alloc);
    for ix in 0..lines.len() {
        let read = read_line(alloc, ix as u64 + 1, line_at(&lines, ix))?;
        changes = with_line(changes, read)?;
    }
    Ok(changes)
}

// A draft after the change of a line.
fn change_one(alloc: Global, draft: Draft, line: &Line) -> Result<Draft, ChangeFault>
    ensures new { IfOk result (λ new. told_at line.now.number
        (changed (all_held draft.list.items) (change_shown line.now.change))
        ≡ Ok (all_held new.list.items)) }
    ensures fault { IfErr result (TellsLine (result_err (told_at line.now.number
        (changed (all_held draft.list.items) (change_shown line.now.change))))) }
{
    match draft.changed(alloc, &line.change) {
        Ok(new) => Ok(new),
        Err(Failed::Kind(kind)) => Err(ChangeFault::At {
            line: line.number,
            kind,
        }),
        Err(Failed::NoMemory) => Err(ChangeFault::NoMemory),
    }
}

// A draft after the changes of all lines, or the first fault.
#[tactic(auto, using(crate::proofs::Followed::told))]
fn change_all(alloc: Global, draft: Draft, changes: &[Line]) -> Result<Draft, ChangeFault>
    ensures new { IfOk result (λ new.
        all_changed (all_held draft.list.items) (map line_shown changes.now)
        ≡ Ok (all_held new.list.items)) }
    ensures fault { IfErr result (TellsLine (result_err
        (all_changed (all_held draft.list.items) (map line_shown changes.now)))) }
{
    let mut draft = draft;
    for line in changes {
        draft = match change_one(alloc, draft, line) {
            Ok(new) => new,
            Err(fault) => return Err(fault),
        };
    }
    Ok(draft)
}

/// The cloud after all changes, each of what those before it leave; or the first fault. The cloud itself stays as it is.
pub fn change(alloc: Global, cloud: &Cloud, changes: &[Line]) -> Result<Cloud, ChangeFault>
    ensures world { IfOk result (λ new.
        world_changed (world_of cloud.now) (map line_shown changes.now) ≡ Ok (world_of new)) }
    ensures fault { IfErr result (TellsLine (result_err
        (world_changed (world_of cloud.now) (map line_shown changes.now)))) }
{
    let draft = Draft::of(alloc, cloud)?;
    match change_all(alloc, draft, changes) {
        Ok(draft) => Ok(draft.build(alloc)?),
        Err(fault) => Err(fault),
    }
}
