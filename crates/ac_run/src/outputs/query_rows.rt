//! How a query is read: a row for each slot, as `csv` writes them, then a line for each parameter of the whole, and one for the query written plainly.
ghost use Rattle.std.specs.Prelude.{◌≡◌, ◌+◌, ◌++◌, ◌∷◌, ◌<◌, ℕ, List, [], IfOk, OnOk, length, map};
ghost use Rattle.std.specs.List.{flat_map};
ghost use Rattle.csv.specs.Writing.{default_writer, row_text};
ghost use Rattle.ac_base.specs.Writing.Rows.{HasRows};
ghost use Rattle.ac_query.specs.Asked.{slots_of};
ghost use Rattle.ac_query.specs.Shown.Queries.{asked_of};
ghost use Rattle.ac_rules.specs.Placed.{slot_at};
ghost use Rattle.ac_run.specs.Outputs.QueryRows.{parameter_line, query_columns, reading_text, slot_row, slot_rows};
ghost use Rattle.ac_run.specs.Outputs.Shown.{parameter_shown};

use crate::outputs::plain::values::{
    asked_values, joined, name_texts, need_texts, rule_values, tree_values,
};
use crate::outputs::plain::{Parameter, plain_query, whole_parameters};
use ac_base::rows::{begin_rows, end_rows, write_row};
use ac_base::{Digits, NoMemory};
use ac_query::Query;
use ac_report::suffix_text;
use ac_rules::slots::{count_slots, group_at, needs_at};
use csv::Writer;
use std::alloc::Global;

// Writes the row of a slot.
fn write_slot(
    alloc: Global,
    rows: &mut Writer<Vec<u8>>,
    query: &Query,
    s: usize,
) -> Result<(), NoMemory>
    requires { s < length (slots_of (asked_of query.now)) }
    ensures { IfOk result (λ _. (before : List (List (List ℕ))) → HasRows rows.old before
        → HasRows rows.new (before ++ slot_row (s + 1) (slot_at (asked_of query.now) s) ∷ [])) }
{
    let group = group_at(query, s);
    let needs = joined(alloc, ',', &need_texts(alloc, needs_at(query, s))?)?;
    let required = joined(alloc, ' ', &asked_values(alloc, group)?)?;
    let forbidden = joined(alloc, ',', &name_texts(alloc, group.forbidden())?)?;
    let aggregates = joined(alloc, ' ', &rule_values(alloc, group.member_of())?)?;
    let tree = joined(alloc, ' ', &tree_values(alloc, group.in_tree())?)?;
    write_row(
        rows,
        &[
            Digits::of(s as u32 + 1).as_bytes(),
            suffix_text(group).as_bytes(),
            needs.as_bytes(),
            required.as_bytes(),
            forbidden.as_bytes(),
            aggregates.as_bytes(),
            tree.as_bytes(),
        ],
    )
}

// The rows of all slots.
#[tactic(auto, using(crate::proofs::QueriesRead::next_slot))]
fn slots_text(alloc: Global, query: &Query) -> Result<Vec<u8>, NoMemory>
    ensures { IfOk result (λ text. text.items ≡ flat_map (row_text default_writer)
        (query_columns ∷ slot_rows 1 (slots_of (asked_of query.now)))) }
{
    let mut rows = begin_rows(
        alloc,
        &[
            b"slot",
            b"group",
            b"resources",
            b"required",
            b"forbidden",
            b"member_of",
            b"in_tree",
        ],
    )?;
    for s in 0..count_slots(query) {
        write_slot(alloc, &mut rows, query, s)?;
    }
    end_rows(rows)
}

// Adds the line of a parameter.
fn push_line(text: &mut Vec<u8>, name: &str, value: &str) -> Result<(), NoMemory>
    ensures { OnOk result (text.new.items ≡ text.old.items
        ++ parameter_line (name.now, value.now)) }
{
    text.extend_from_slice(name.as_bytes())?;
    text.extend_from_slice(b": ")?;
    text.extend_from_slice(value.as_bytes())?;
    text.extend_from_slice(b"\n")?;
    Ok(())
}

// Adds the lines of parameters.
fn push_lines(text: &mut Vec<u8>, list: &[Parameter]) -> Result<(), NoMemory>
    ensures { OnOk result (text.new.items ≡ text.old.items
        ++ flat_map parameter_line (map parameter_shown list.now)) }
{
    for pair in list {
        let (name, value) = pair;
        push_line(text, name, value)?;
    }
    Ok(())
}

/// How a query is read.
#[tactic(auto, unfolding(crate::specs::Outputs::QueryRows::reading_text))]
pub(crate) fn reading_text(alloc: Global, query: &Query) -> Result<Vec<u8>, NoMemory>
    ensures { IfOk result (λ text. text.items ≡ reading_text (asked_of query.now)) }
{
    let mut text = slots_text(alloc, query)?;
    push_lines(&mut text, &whole_parameters(alloc, query)?)?;
    push_line(&mut text, "query", &plain_query(alloc, query)?)?;
    Ok(text)
}
