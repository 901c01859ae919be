//! What is said of a value of resources: which of its items is wrong.
ghost use Rattle.std.specs.Prelude.{◌≡◌, ◌++◌, IfOk, OnOk, is_some};
ghost use Rattle.std.specs.Option.{option_map};
ghost use Rattle.ac_base.specs.Names.{class_bytes};
ghost use Rattle.ac_query.specs.Pairs.Values.{amount_value};
ghost use Rattle.ac_remedies.specs.Queries.Wanted.{class_in, first_wrong, named_wrong, wrong_text};

use crate::queries::tokens::count_items;
use crate::quoted::{push_all, push_quoted};
use ac_base::{ClassName, NoMemory, read_count};
use std::alloc::{AllocError, Global};
use std::collections::BTreeSet;

// Whether a text is a number of at least 1.
#[tactic(auto, unfolding(ac_query::specs::Pairs::Values::amount_value))]
fn is_amount(text: &str) -> bool
    ensures { result ≡ is_some (amount_value text.now) }
{
    match read_count(text.as_bytes()) {
        Some(count) => count != 0,
        None => false,
    }
}

// The class of an item `CLASS:AMOUNT`.
#[tactic(auto, unfolding(ac_query::specs::Pairs::Values::need_value))]
fn class_in(alloc: Global, item: &str) -> Result<Option<ClassName>, NoMemory>
    ensures { IfOk result (λ class. option_map class_bytes class ≡ class_in item.now) }
{
    match item.split_once(':') {
        Some((class, amount)) if is_amount(amount) => ClassName::read(alloc, class.as_bytes()),
        _ => Ok(None),
    }
}

// The first item of a value that isn't `CLASS:AMOUNT`, or whose class an earlier one has.
#[tactic(auto, unfolding(crate::specs::Queries::Wanted::wrong_after))]
fn first_wrong(alloc: Global, value: &str) -> Result<Option<&str>, NoMemory>
    ensures { IfOk result (λ found. option_map (λ item. item.now) found ≡ first_wrong value.now) }
{
    let mut classes = BTreeSet::new(alloc);
    for item in value.split(',') {
        let Some(class) = class_in(alloc, item)? else {
            return Ok(Some(item));
        };
        if !classes.insert(class)? {
            return Ok(Some(item));
        }
    }
    Ok(None)
}

// The item that is named: where a value has several, the first that is wrong.
fn named_wrong(alloc: Global, value: &str) -> Result<Option<&str>, AllocError>
    ensures { IfOk result (λ found. option_map (λ item. item.now) found ≡ named_wrong value.now) }
{
    if count_items(value) <= 1 {
        return Ok(None);
    }
    match first_wrong(alloc, value) {
        Ok(found) => Ok(found),
        Err(NoMemory) => Err(AllocError),
    }
}

/// Puts which item of a value of resources is wrong behind a text, where it has several.
#[tactic(auto, unfolding(crate::specs::Queries::Wanted::wrong_text))]
pub(crate) fn push_wrong(alloc: Global, text: &mut Vec<u8>, value: &str) -> Result<(), AllocError>
    ensures { OnOk result (text.new.items
        ≡ text.old.items ++ wrong_text (named_wrong value.now)) }
{
    match named_wrong(alloc, value)? {
        Some(item) => {
            push_quoted(text, item.as_bytes())?;
            push_all(text, &[b" is wrong: "])
        }
        None => Ok(()),
    }
}
