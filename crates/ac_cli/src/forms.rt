//! Rows in a form: the texts of their cells are read of comma-separated values, and written as a table or as JSON.
ghost use Rattle.std.specs.Prelude.{◌≡◌, [], IfOk, get_or, map, string_bytes};
ghost use Rattle.csv.specs.Records.{fields_of};
ghost use Rattle.ac_tables.specs.Tables.Rows.{records_of};
ghost use Rattle.ac_cli.specs.Forms.{cell_text, cell_texts, in_form, texts_shown};

mod json;
mod table;

use ac_base::NoMemory;
use ac_report::shown_name;
use ac_tables::{next_row, open_rows, text_at};
use ac_words::Form;
use csv::ByteRecord;
use json::json_text;
use std::alloc::Global;
use table::table_text;

// The text of a row at a place; empty where it has none there.
fn cell_in(row: &[String], i: usize) -> &str
    ensures { result.now ≡ get_or (map string_bytes row.now) i [] }
{
    match row.get(i) {
        Some(text) => text.as_str(),
        None => "",
    }
}

// The text of a cell: no byte of it moves a terminal's cursor.
fn cell_text(alloc: Global, cell: &[u8]) -> Result<String, NoMemory>
    ensures { IfOk result (λ text. string_bytes text ≡ cell_text cell.now) }
{
    let shown = shown_name(alloc, cell)?;
    Ok(String::from_utf8_lossy(alloc, &shown)?)
}

// The texts of the cells of a row.
fn texts_of(alloc: Global, row: &ByteRecord) -> Result<Vec<String>, NoMemory>
    ensures { IfOk result (λ texts. map string_bytes texts.items
        ≡ map cell_text (fields_of row.now)) }
{
    let mut texts = Vec::new(alloc);
    for i in 0..row.len() {
        texts.push(cell_text(alloc, text_at(row, i))?)?;
    }
    Ok(texts)
}

// The texts of all cells, row by row.
fn read_texts(alloc: Global, text: &[u8]) -> Result<Vec<Vec<String>>, NoMemory>
    ensures { IfOk result (λ rows. texts_shown rows.items ≡ cell_texts (records_of text.now)) }
{
    let mut reader = open_rows(alloc, text);
    let mut row = ByteRecord::new(alloc);
    let mut rows = Vec::new(alloc);
    while next_row(&mut reader, &mut row)? {
        rows.push(texts_of(alloc, &row)?)?;
    }
    Ok(rows)
}

/// The rows of a text of comma-separated values, in a form.
pub fn in_form(alloc: Global, form: Form, text: &[u8]) -> Result<Vec<u8>, NoMemory>
    ensures { IfOk result (λ written. written.items ≡ in_form form text.now) }
{
    match form {
        Form::Csv => Ok(text.to_vec(alloc)?),
        Form::Table => table_text(alloc, &read_texts(alloc, text)?),
        Form::Json => json_text(alloc, &read_texts(alloc, text)?),
    }
}
