//! Rows as a JSON list of objects.
ghost use Rattle.std.specs.Prelude.{◌≡◌, ◌++◌, IfOk, OnOk, false, map, string_bytes};
ghost use Rattle.serde_json.specs.Data.{object, put, string};
ghost use Rattle.serde_json.specs.View.{members_view};
ghost use Rattle.serde_json.specs.Written.{comma_if, compact_text, items_text};
ghost use Rattle.ac_cli.specs.Forms.{texts_shown};
ghost use Rattle.ac_cli.specs.Forms.Json.{json_text, row_object, row_objects};

use super::cell_in;
use ac_base::NoMemory;
use serde_json::{Map, Value};
use std::alloc::Global;

// Adds the cell of a column, under the column's name.
fn add_member(
    alloc: Global,
    members: &mut Map<String, Value>,
    column: &str,
    cell: &str,
) -> Result<(), NoMemory>
    ensures { OnOk result (members_view members.new.entries
        ≡ put column.now (string cell.now) (members_view members.old.entries)) }
{
    let name = String::from_str(alloc, column)?;
    let text = String::from_str(alloc, cell)?;
    members.insert(name, Value::String(text))?;
    Ok(())
}

// The members of a row.
#[tactic(auto, using(ac_cloud::proofs::Ranges::range_more, ac_cloud::proofs::Ranges::range_end))]
fn members_of(
    alloc: Global,
    header: &[String],
    row: &[String],
) -> Result<Map<String, Value>, NoMemory>
    ensures { IfOk result (λ members. object (members_view members.entries)
        ≡ row_object (map string_bytes header.now) (map string_bytes row.now)) }
{
    let mut members = Map::new(alloc);
    for i in 0..header.len() {
        add_member(alloc, &mut members, cell_in(header, i), cell_in(row, i))?;
    }
    Ok(members)
}

// The text of a row's object.
fn object_text(alloc: Global, header: &[String], row: &[String]) -> Result<Vec<u8>, NoMemory>
    ensures { IfOk result (λ text. text.items ≡ compact_text (row_object
        (map string_bytes header.now) (map string_bytes row.now))) }
{
    let object = Value::Object(members_of(alloc, header, row)?);
    Ok(object.to_vec(alloc)?)
}

// Adds the object of a row, behind a comma where something stands before.
fn put_object(
    alloc: Global,
    text: &mut Vec<u8>,
    later: bool,
    header: &[String],
    row: &[String],
) -> Result<(), NoMemory>
    ensures { OnOk result (text.new.items ≡ text.old.items ++ (comma_if later
        ++ compact_text (row_object (map string_bytes header.now) (map string_bytes row.now)))) }
{
    if later {
        text.push(b',')?;
    }
    text.extend_from_slice(&object_text(alloc, header, row)?)?;
    Ok(())
}

// Adds the objects of rows, and closes their list.
fn put_objects(
    alloc: Global,
    text: &mut Vec<u8>,
    header: &[String],
    rows: &[Vec<String>],
) -> Result<(), NoMemory>
    ensures { OnOk result (text.new.items ≡ text.old.items ++ items_text false
        (row_objects (map string_bytes header.now) (texts_shown rows.now))) }
{
    let mut later = false;
    for row in rows {
        put_object(alloc, text, later, header, row)?;
        later = true;
    }
    text.push(b']')?;
    Ok(())
}

/// The text of a list of objects, one for each row behind the first, which is the header.
pub fn json_text(alloc: Global, rows: &[Vec<String>]) -> Result<Vec<u8>, NoMemory>
    ensures { IfOk result (λ text. text.items ≡ json_text (texts_shown rows.now)) }
{
    let mut text = Vec::new(alloc);
    text.push(b'[')?;
    match rows.split_first() {
        Some((header, others)) => put_objects(alloc, &mut text, header, others)?,
        None => text.push(b']')?,
    }
    text.push(b'\n')?;
    Ok(text)
}
