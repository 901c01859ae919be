//! Cells of a row: what stands in them, joined by commas.
ghost use Rattle.std.specs.Prelude.{◌≡◌, ◌++◌, IfOk, OnOk, codes, length, map, string_bytes};
ghost use Rattle.std.specs.Fmt.{decimal};
ghost use Rattle.serde_json.specs.Written.{comma_if};
ghost use Rattle.ac_base.specs.Names.{trait_bytes};
ghost use Rattle.ac_cloud.specs.Cloud.Entries.{entry_pair};
ghost use Rattle.ac_query.specs.Asked.{slots_of};
ghost use Rattle.ac_query.specs.Shown.Queries.{asked_of};
ghost use Rattle.ac_rules.specs.Placed.{assigned};
ghost use Rattle.ac_report.specs.ListRows.{amount_text, holding_text, inventory_cell, joined_by_commas, traits_cell};

use crate::amounts::sum_on;
use ac_base::{NoMemory, TraitName};
use ac_cloud::Entry;
use ac_query::Query;
use std::alloc::Global;
use std::collections::BTreeSet;
use std::fmt::Write;

// Adds a comma, where something stands before.
fn put_comma(text: &mut String, later: bool) -> Result<(), NoMemory>
    ensures { OnOk result (string_bytes text.new ≡ string_bytes text.old ++ comma_if later) }
{
    if later {
        text.push(',')?;
    }
    Ok(())
}

// Adds a class with an amount.
fn put_amount(text: &mut String, later: bool, class: &str, amount: u64) -> Result<(), NoMemory>
    ensures { OnOk result (string_bytes text.new ≡ string_bytes text.old
        ++ (comma_if later ++ (class.now ++ (codes "=" ++ decimal amount)))) }
{
    put_comma(text, later)?;
    write!(text, "{class}={amount}")?;
    Ok(())
}

// Adds a class with how much of it is used, and how much there is.
fn put_holding(text: &mut String, later: bool, entry: &Entry) -> Result<(), NoMemory>
    ensures { OnOk result (string_bytes text.new ≡ string_bytes text.old
        ++ (comma_if later ++ holding_text (entry_pair entry.now))) }
{
    put_comma(text, later)?;
    let class = entry.class().text();
    let used = entry.used();
    let capacity = entry.inventory().capacity();
    write!(text, "{class}={used}/{capacity}")?;
    Ok(())
}

// Adds a name.
fn put_name(text: &mut String, later: bool, name: &str) -> Result<(), NoMemory>
    ensures { OnOk result (string_bytes text.new ≡ string_bytes text.old
        ++ (comma_if later ++ name.now)) }
{
    put_comma(text, later)?;
    text.push_str(name)?;
    Ok(())
}

// What is taken of a provider, by the classes that are needed of it.
pub(super) fn allocation_cell(
    alloc: Global,
    query: &Query,
    list: &[u32],
    provider: u32,
    classes: &BTreeSet<&str>,
) -> Result<String, NoMemory>
    requires { length list.now ≡ length (slots_of (asked_of query.now)) }
    ensures { IfOk result (λ text. string_bytes text ≡ joined_by_commas
        (map (amount_text (assigned (asked_of query.now) list.now) provider)
        (map (λ class. class.now) classes.now.keys))) }
{
    let mut text = String::new(alloc);
    let mut later = false;
    for class in classes {
        let sum = sum_on(query, list, provider, class);
        put_amount(&mut text, later, class, sum)?;
        later = true;
    }
    Ok(text)
}

// How much is used of each class that a provider has, and how much there is.
#[tactic(auto, unfolding(crate::specs::ListRows::inventory_cell))]
pub(super) fn inventory_cell(alloc: Global, entries: &[Entry]) -> Result<String, NoMemory>
    ensures { IfOk result (λ text. string_bytes text
        ≡ inventory_cell (map entry_pair entries.now)) }
{
    let mut text = String::new(alloc);
    let mut later = false;
    for entry in entries {
        put_holding(&mut text, later, entry)?;
        later = true;
    }
    Ok(text)
}

// The names of traits.
#[tactic(auto, unfolding(crate::specs::ListRows::traits_cell))]
pub(super) fn traits_cell(alloc: Global, traits: &[TraitName]) -> Result<String, NoMemory>
    ensures { IfOk result (λ text. string_bytes text ≡ traits_cell (map trait_bytes traits.now)) }
{
    let mut text = String::new(alloc);
    let mut later = false;
    for name in traits {
        put_name(&mut text, later, name.text())?;
        later = true;
    }
    Ok(text)
}
