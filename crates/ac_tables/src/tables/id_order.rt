//! The table of providers in the order of their ids.
ghost use Rattle.std.specs.Prelude.{◌≡◌, ◌<◌, ◌&&◌, ◌==◌, not, ℕ, false, Some, None, List, length, map, get_or, IfOk, IfErr};
ghost use Rattle.std.specs.Option.{option_and_then, is_some, is_none};
ghost use Rattle.ac_tables.specs.Reader.Listings.{IsListing, IsFirst};
ghost use Rattle.ac_tables.specs.Reader.ProviderLaws.{name_bytes};
ghost use Rattle.ac_cloud.specs.Cloud.Places.{rank};
ghost use Rattle.ac_cloud.specs.ListsOf.{lists_of};
ghost use Rattle.ac_tables.specs.Tables.ProviderTable.{ProviderRecord};
ghost use Rattle.ac_tables.specs.declared.reader.row.TableRow.{TableRow as ListingRow};
ghost use Rattle.ac_tables.specs.declared.tables.provider_record.Named.{Named as NamedShown};

use crate::fault::{Table, TableFault, TableKind};
use crate::reader::row::{TableRow, sooner};
use crate::tables::provider_record::Named;
use ac_base::Id;
use ac_cloud::{Expected, Ids, Lists};
use std::alloc::{AllocError, Global};

fn keys(alloc: Global, rows: &[TableRow<Id, Named>]) -> Result<Vec<Id>, AllocError>
    ensures { IfOk result (λ ids. ids.items ≡ map (λ (r : ListingRow ℕ NamedShown).
        r.key) rows.now) }
{
    rows.iter().map(|row| row.key).collect(alloc)
}

// The ids of the providers, rising.
pub(crate) fn find_ids(alloc: Global, rows: &[TableRow<Id, Named>]) -> Result<Ids, AllocError>
    requires { (said : List ProviderRecord) × IsListing said rows.now }
    ensures { IfOk result (λ ids. ids.ids.items ≡ map (λ r. r.key) rows.now) }
{
    let ids = keys(alloc, rows)?;
    // The turns in which the table lists its rows.
    let turns = rows
        .iter()
        .map(|row| row.number.saturating_sub(2))
        .collect(alloc)?;
    Ids::new(alloc, ids, turns)
}

// The names of the providers.
pub(crate) fn find_names(
    alloc: Global,
    rows: &[TableRow<Id, Named>],
) -> Result<Lists<u8>, AllocError>
    ensures { IfOk result (λ names. lists_of names
        ≡ map (λ (r : ListingRow ℕ NamedShown). name_bytes r.value.name) rows.now) }
{
    let mut names = Lists::new(alloc)?;
    for row in rows {
        names.push(row.value.name())?;
    }
    Ok(names)
}

// The place of the parent that a row names; it is looked for near the one that was named last.
fn find_parent(ids: &Ids, expected: &mut Expected, parent: Option<Id>) -> Option<u32>
    ensures { result ≡ option_and_then (rank ids.now.ids.items) parent }
{
    // Called for what it ensures: a place fits a u32.
    let _count = ids.len();
    let place = ids.find_near(expected, parent?)?;
    Some(place as u32)
}

// The places of the parents that are there.
pub(crate) fn find_parents(
    alloc: Global,
    ids: &Ids,
    rows: &[TableRow<Id, Named>],
) -> Result<Vec<Option<u32>>, AllocError>
    ensures { IfOk result (λ parents. parents.items
        ≡ map (λ r. option_and_then (rank ids.now.ids.items) r.value.parent) rows.now) }
{
    let mut expected = Expected::new();
    let mut parents = Vec::new(alloc);
    for row in rows {
        parents.push(find_parent(ids, &mut expected, row.value.parent))?;
    }
    Ok(parents)
}

// The rows that name a parent which isn't there.
pub(crate) fn mark_unknown(
    alloc: Global,
    rows: &[TableRow<Id, Named>],
    parents: &[Option<u32>],
) -> Result<Vec<bool>, AllocError>
    requires { length parents.now ≡ length rows.now }
    ensures length { IfOk result (λ marks. length marks.items ≡ length rows.now) }
    ensures marks { IfOk result (λ marks. (k : ℕ) (d : ListingRow ℕ NamedShown)
        → k < length rows.now → get_or marks.items k false
        ≡ (is_some (get_or rows.now k d).value.parent && is_none (get_or parents.now k None))) }
{
    let mut marks = Vec::new(alloc);
    for i in 0..rows.len() {
        marks.push(rows[i].value.parent.is_some() && parents[i].is_none())?;
    }
    Ok(marks)
}

// The rows above which the chain of parents doesn't end.
pub(crate) fn mark_endless(
    alloc: Global,
    parents: &[Option<u32>],
    tops: &[u32],
) -> Result<Vec<bool>, AllocError>
    requires { (k : ℕ) → k < length tops.now → get_or tops.now k 0 < length parents.now }
    ensures length { IfOk result (λ marks. length marks.items ≡ length tops.now) }
    ensures marks { IfOk result (λ marks. (k : ℕ) → k < length tops.now
        → get_or marks.items k false ≡ is_some (get_or parents.now (get_or tops.now k 0) None)) }
{
    let mut marks = Vec::new(alloc);
    for &top in tops {
        marks.push(parents[top as usize].is_some())?;
    }
    Ok(marks)
}

// The rows that name another root than the top of their tree.
pub(crate) fn mark_other_roots(
    alloc: Global,
    ids: &Ids,
    rows: &[TableRow<Id, Named>],
    tops: &[u32],
) -> Result<Vec<bool>, AllocError>
    requires sized { length tops.now ≡ length rows.now }
    requires inside { (k : ℕ) → k < length tops.now
        → get_or tops.now k 0 < length ids.now.ids.items }
    ensures length { IfOk result (λ marks. length marks.items ≡ length rows.now) }
    ensures marks { IfOk result (λ marks. (k : ℕ) (d : ListingRow ℕ NamedShown)
        → k < length rows.now → get_or marks.items k false
        ≡ not (get_or ids.now.ids.items (get_or tops.now k 0) 0 ==
        (get_or rows.now k d).value.root)) }
{
    let mut marks = Vec::new(alloc);
    for i in 0..rows.len() {
        marks.push(ids.ids[tops[i] as usize] != rows[i].value.root)?;
    }
    Ok(marks)
}

// The least record of a row that is marked.
fn first_marked(rows: &[TableRow<Id, Named>], marks: &[bool]) -> Option<u32>
    requires { length marks.now ≡ length rows.now }
    ensures { IsFirst rows.now marks.now result }
{
    let mut first: Option<u32> = None;
    for i in 0..rows.len() {
        if marks[i] {
            first = sooner(first, rows[i].number);
        }
    }
    first
}

// The fault of the first record whose row is marked.
pub(crate) fn check_marks(
    rows: &[TableRow<Id, Named>],
    marks: &[bool],
    kind: TableKind,
) -> Result<(), TableFault>
    requires { length marks.now ≡ length rows.now }
    ensures ok { IfOk result (λ _. IsFirst rows.now marks.now None) }
    ensures fault { IfErr result (λ e. (n : ℕ) × (e ≡ TableFault.At Table.Providers n kind)
        × IsFirst rows.now marks.now (Some n)) }
{
    match first_marked(rows, marks) {
        None => Ok(()),
        Some(row) => Err(TableFault::At {
            table: Table::Providers,
            row,
            kind,
        }),
    }
}
