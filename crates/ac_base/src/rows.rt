//! Rows as `csv` writes them.
ghost use Rattle.std.specs.Prelude.{◌≡◌, ◌++◌, ◌∷◌, ℕ, List, [], IfOk, map};
ghost use Rattle.std.specs.List.{flat_map};
ghost use Rattle.csv.specs.Writing.{default_writer, row_text};
ghost use Rattle.ac_base.specs.Writing.Rows.{HasRows};

use crate::name::NoMemory;
use csv::Writer;
use std::alloc::Global;

/// Writes a row behind those that are written.
pub fn write_row(rows: &mut Writer<Vec<u8>>, fields: &[&[u8]]) -> Result<(), NoMemory>
    ensures { IfOk result (λ _. (before : List (List (List ℕ))) → HasRows rows.old before
        → HasRows rows.new (before ++ map (λ field. field.now) fields.now ∷ [])) }
{
    // A vector refuses a row for want of memory alone.
    rows.write_fields(fields).map_err(|_| NoMemory)
}

/// No row yet.
pub fn no_rows(alloc: Global) -> Writer<Vec<u8>>
    ensures { HasRows result [] }
{
    Writer::from_writer(Vec::new(alloc))
}

/// A header, behind which rows are written.
pub fn begin_rows(alloc: Global, columns: &[&[u8]]) -> Result<Writer<Vec<u8>>, NoMemory>
    ensures { IfOk result (λ rows. HasRows rows (map (λ column. column.now) columns.now ∷ [])) }
{
    let mut rows = no_rows(alloc);
    write_row(&mut rows, columns)?;
    Ok(rows)
}

/// The text of all rows that are written.
pub fn end_rows(rows: Writer<Vec<u8>>) -> Result<Vec<u8>, NoMemory>
    ensures { (written : List (List (List ℕ))) → HasRows rows written
        → IfOk result (λ text. text.items ≡ flat_map (row_text default_writer) written) }
{
    rows.into_inner().map_err(|_| NoMemory)
}
