//! The second line of a fault of a table: its path, where in it the fault stands, and what to do.
ghost use Rattle.std.specs.Prelude.{◌≡◌, ◌++◌, IfOk, OnOk, string_bytes};
ghost use Rattle.std.specs.Option.{option_map};
ghost use Rattle.ac_tables.specs.Source.{tables_of};
ghost use Rattle.ac_tables.specs.Found.{records_in};
ghost use Rattle.ac_remedies.specs.Tables.{line_of, place_in, record_remedy, size_remedy, unread_remedy, unread_text};

mod columns;
mod places;
mod remedies;

use crate::quoted::{push_all, push_each};
use crate::tables::places::push_place;
use crate::tables::remedies::remedy_text;
use ac_base::NoMemory;
use ac_tables::{Found, Sources, Table, TableKind};
use std::alloc::{AllocError, Global};

// Puts where in a table a fault stands behind a text; nothing where there is no such record.
#[tactic(auto, unfolding(crate::specs::Tables::place_in))]
fn push_place_in(
    alloc: Global,
    text: &mut Vec<u8>,
    src: &Sources,
    table: Table,
    row: u32,
    kind: TableKind,
) -> Result<(), NoMemory>
    ensures { OnOk result (text.new.items ≡ text.old.items
        ++ place_in (records_in (tables_of src.now) table) table row kind) }
{
    match Found::read(alloc, src, table, row)? {
        Some(found) => push_place(alloc, text, table, kind, &found),
        None => Ok(()),
    }
}

// The line of a path, of what stands behind it, and of what to do.
#[tactic(auto, unfolding(crate::specs::Tables::line_of))]
fn line_of(alloc: Global, path: &str, place: &[u8], remedy: &[u8]) -> Result<Vec<u8>, AllocError>
    ensures { IfOk result (λ text. text.items ≡ line_of path.now place.now remedy.now) }
{
    let mut text = Vec::new(alloc);
    text.extend_from_slice(b"  ")?;
    push_each(&mut text, path.as_bytes())?;
    push_all(&mut text, &[place, b": ", remedy, b"\n"])?;
    Ok(text)
}

/// The second line of a fault of a record: the table's path, the column at fault with its value, whose record it is, and what to
/// do. It has the path and what to do alone where the table has no such record.
#[tactic(auto, unfolding(crate::specs::Tables::record_remedy))]
pub fn record_remedy(
    alloc: Global,
    path: &str,
    src: &Sources,
    table: Table,
    row: u32,
    kind: TableKind,
) -> Result<Vec<u8>, AllocError>
    ensures text { IfOk result (λ text. text.items
        ≡ record_remedy path.now (tables_of src.now) table row kind) }
{
    let mut place = Vec::new(alloc);
    match push_place_in(alloc, &mut place, src, table, row, kind) {
        Ok(()) => line_of(alloc, path, &place, remedy_text(kind)),
        Err(NoMemory) => Err(AllocError),
    }
}

/// The second line of a table that is too large.
#[tactic(auto, unfolding(crate::specs::Tables::size_remedy, crate::specs::Tables::size_text))]
pub fn size_remedy(alloc: Global, path: &str) -> Result<Vec<u8>, AllocError>
    ensures text { IfOk result (λ text. text.items ≡ size_remedy path.now) }
{
    let remedy = b"more than 67108864 bytes; take out rows that no query asks for";
    line_of(alloc, path, b"", remedy)
}

// What to do about a table that can't be read, behind the reason that is known.
#[tactic(auto, unfolding(crate::specs::Tables::unread_text))]
fn unread_text(alloc: Global, reason: Option<&str>) -> Result<String, AllocError>
    ensures { IfOk result (λ text. string_bytes text
        ≡ unread_text (option_map (λ r. r.now) reason.entry)) }
{
    match reason {
        Some(reason) => format!(in alloc; "{reason}; give the path of a file that can be read"),
        None => {
            format!(in alloc;
                "reading failed, as it does of a folder; give the path of a file that can be read"
            )
        }
    }
}

/// The second line of a table that can't be read, for the reason that the system gave, where one is known.
#[tactic(auto, unfolding(crate::specs::Tables::unread_remedy))]
pub fn unread_remedy(alloc: Global, path: &str, reason: Option<&str>) -> Result<Vec<u8>, AllocError>
    ensures text { IfOk result (λ text. text.items
        ≡ unread_remedy path.now (option_map (λ r. r.now) reason.entry)) }
{
    let remedy = unread_text(alloc, reason)?;
    line_of(alloc, path, b"", remedy.as_bytes())
}
