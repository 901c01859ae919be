//! Rows as a table that is drawn with lines, each column as wide as a terminal needs.
ghost use Rattle.std.specs.Prelude.{◌≡◌, ◌++◌, IfOk, OnOk, map, replicate, string_bytes};
ghost use Rattle.std.specs.List.{flat_map};
ghost use Rattle.ac_cli.specs.Forms.{texts_shown};
ghost use Rattle.ac_cli.specs.Forms.Tables.{drawn, filled_cell, row_line, rule_line, table_text, widest, widths_of};

use super::cell_in;
use ac_base::NoMemory;
use std::alloc::Global;
use unicode_width::UnicodeWidthStr;

// The most columns of a terminal that a cell takes at a place.
fn widest(rows: &[Vec<String>], i: usize) -> usize
    ensures { result ≡ widest i (texts_shown rows.now) }
{
    let mut most = 0usize;
    for row in rows {
        most = most.max(cell_in(row, i).width());
    }
    most
}

// The same at each of so many places.
#[tactic(auto, using(ac_cloud::proofs::Ranges::range_more, ac_cloud::proofs::Ranges::range_end))]
fn widths_of(alloc: Global, count: usize, rows: &[Vec<String>]) -> Result<Vec<usize>, NoMemory>
    ensures { IfOk result (λ widths. widths.items ≡ widths_of count (texts_shown rows.now)) }
{
    let mut widths = Vec::new(alloc);
    for i in 0..count {
        widths.push(widest(rows, i))?;
    }
    Ok(widths)
}

// Adds a byte so many times.
fn put_times(text: &mut Vec<u8>, byte: u8, count: usize) -> Result<(), NoMemory>
    ensures { OnOk result (text.new.items ≡ text.old.items ++ replicate count byte) }
{
    for _turn in 0..count {
        text.push(byte)?;
    }
    Ok(())
}

// Adds a line between rows.
fn put_rule(text: &mut Vec<u8>, widths: &[usize]) -> Result<(), NoMemory>
    ensures { OnOk result (text.new.items ≡ text.old.items ++ rule_line widths.now) }
{
    text.push(b'+')?;
    for &width in widths {
        text.push(b'-')?;
        put_times(text, b'-', width)?;
        text.extend_from_slice(b"-+")?;
    }
    text.push(b'\n')?;
    Ok(())
}

// Adds a cell, filled up to this width.
fn put_cell(text: &mut Vec<u8>, wide: usize, cell: &str) -> Result<(), NoMemory>
    ensures { OnOk result (text.new.items ≡ text.old.items ++ filled_cell wide cell.now) }
{
    text.push(b' ')?;
    text.extend_from_slice(cell.as_bytes())?;
    put_times(text, b' ', wide.saturating_sub(cell.width()))?;
    text.extend_from_slice(b" |")?;
    Ok(())
}

// Adds a row.
#[tactic(auto, using(ac_cloud::proofs::Ranges::range_more, ac_cloud::proofs::Ranges::range_end))]
fn put_row(text: &mut Vec<u8>, widths: &[usize], row: &[String]) -> Result<(), NoMemory>
    ensures { OnOk result (text.new.items ≡ text.old.items
        ++ row_line widths.now (map string_bytes row.now)) }
{
    text.push(b'|')?;
    for i in 0..widths.len() {
        put_cell(text, widths[i], cell_in(row, i))?;
    }
    text.push(b'\n')?;
    Ok(())
}

// Adds rows.
fn put_rows(text: &mut Vec<u8>, widths: &[usize], rows: &[Vec<String>]) -> Result<(), NoMemory>
    ensures { OnOk result (text.new.items ≡ text.old.items
        ++ flat_map (row_line widths.now) (texts_shown rows.now)) }
{
    for row in rows {
        put_row(text, widths, row)?;
    }
    Ok(())
}

// Adds the header and the other rows, between lines.
fn put_table(
    text: &mut Vec<u8>,
    widths: &[usize],
    header: &[String],
    others: &[Vec<String>],
) -> Result<(), NoMemory>
    ensures { OnOk result (text.new.items ≡ text.old.items
        ++ drawn widths.now (map string_bytes header.now) (texts_shown others.now)) }
{
    put_rule(text, widths)?;
    put_row(text, widths, header)?;
    put_rule(text, widths)?;
    put_rows(text, widths, others)?;
    put_rule(text, widths)
}

/// The text of a table with these rows, of which the first is the header.
pub fn table_text(alloc: Global, rows: &[Vec<String>]) -> Result<Vec<u8>, NoMemory>
    ensures { IfOk result (λ text. text.items ≡ table_text (texts_shown rows.now)) }
{
    let mut text = Vec::new(alloc);
    if let Some((header, others)) = rows.split_first() {
        let widths = widths_of(alloc, header.len(), rows)?;
        put_table(&mut text, &widths, header, others)?;
    }
    Ok(text)
}
