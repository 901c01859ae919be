//! How many of each flavor a cloud can hold, as `csv` writes it: a header, and a row for each flavor.
ghost use Rattle.std.specs.Prelude.{◌≡◌, ◌++◌, ◌∷◌, ℕ, [], IfOk, List, map, option_map, string_bytes};
ghost use Rattle.ac_base.specs.Writing.Rows.{HasRows};
ghost use Rattle.ac_run.specs.Capacity.{capacity_row, capacity_text, short_at, short_of};
ghost use Rattle.ac_run.specs.Rooms.{room_shown, shortage_shown};

use crate::capacity::{Room, Shortage};
use ac_base::rows::{begin_rows, end_rows, write_row};
use ac_base::{Digits, NoMemory};
use csv::Writer;
use std::alloc::Global;

// The name of what is short, or nothing.
fn short_of<'a>(shortage: Option<&'a Shortage>) -> &'a [u8]
    ensures { result.now ≡ short_of (option_map (λ s. shortage_shown s.now) shortage.entry) }
{
    match shortage {
        Some((name, _)) => name.as_slice(),
        None => b"",
    }
}

// At how many roots it is, or nothing.
fn short_at(alloc: Global, shortage: Option<&Shortage>) -> Result<String, NoMemory>
    ensures { IfOk result (λ text. string_bytes text
        ≡ short_at (option_map (λ s. shortage_shown s.now) shortage.entry)) }
{
    match shortage {
        Some((_, roots)) => Ok(format!(in alloc; "{roots}")?),
        None => Ok(String::new(alloc)),
    }
}

// Writes a row, of which these are the cells.
fn write_cells(
    rows: &mut Writer<Vec<u8>>,
    name: &[u8],
    hosts: &[u8],
    least: &[u8],
    most: &[u8],
    wanted: &[u8],
    short_of: &[u8],
    short_at: &[u8],
) -> Result<(), NoMemory>
    ensures { IfOk result (λ _. (before : List (List (List ℕ))) → HasRows rows.old before
        → HasRows rows.new (before ++ (name.now ∷ hosts.now ∷ least.now ∷ most.now ∷ wanted.now
        ∷ short_of.now ∷ short_at.now ∷ []) ∷ [])) }
{
    write_row(
        rows,
        &[name, hosts, least, most, wanted, short_of, short_at],
    )
}

// Writes the row of a flavor.
fn write_room(alloc: Global, rows: &mut Writer<Vec<u8>>, room: &Room) -> Result<(), NoMemory>
    ensures { IfOk result (λ _. (before : List (List (List ℕ))) → HasRows rows.old before
        → HasRows rows.new (before ++ capacity_row (room_shown room.now) ∷ [])) }
{
    let hosts = room.hosts;
    let hosts = format!(in alloc; "{hosts}")?;
    let most = room.at_most;
    let most = format!(in alloc; "{most}")?;
    let shortage = room.shortage();
    let roots = short_at(alloc, shortage)?;
    write_cells(
        rows,
        room.name,
        hosts.as_bytes(),
        Digits::of(room.at_least).as_bytes(),
        most.as_bytes(),
        Digits::of(room.wanted).as_bytes(),
        short_of(shortage),
        roots.as_bytes(),
    )
}

/// The rows of all flavors.
#[tactic(auto, unfolding(crate::specs::Capacity::capacity_text))]
pub(super) fn capacity_text(alloc: Global, rooms: &[Room]) -> Result<Vec<u8>, NoMemory>
    ensures { IfOk result (λ text. text.items ≡ capacity_text (map room_shown rooms.now)) }
{
    let mut rows = begin_rows(
        alloc,
        &[
            b"flavor",
            b"hosts",
            b"at_least",
            b"at_most",
            b"wanted",
            b"short_of",
            b"short_at",
        ],
    )?;
    for room in rooms {
        write_room(alloc, &mut rows, room)?;
    }
    end_rows(rows)
}
