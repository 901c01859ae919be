//! What is said of a value of traits: the same in capitals, or the trait that is required and forbidden.
ghost use Rattle.std.specs.Prelude.{◌≡◌, IfOk, codes, map, unwrap_or};
ghost use Rattle.std.specs.Option.{option_map};
ghost use Rattle.ac_base.specs.Sorted.{rising};
ghost use Rattle.ac_base.specs.Texts.{is_name, text_cmp};
ghost use Rattle.ac_query.specs.Texts.{behind};
ghost use Rattle.ac_remedies.specs.Queries.Wanted.{are_traits, conflict_remedy, forbidden_in, in_capitals, is_marked, opposed, opposed_remedy, proposed};

use crate::quoted::{push_all, push_quoted};
use ac_base::TraitName;
use std::alloc::{AllocError, Global};
use std::collections::BTreeSet;

// The most bytes of traits that are proposed.
const MOST_PROPOSED: usize = 64;

// What an item names, behind `!` where it has one.
fn named(item: &str) -> &str
    ensures { result.now ≡ unwrap_or (behind (codes "!") item.now) item.now }
{
    match item.strip_prefix("!") {
        Some(name) => name,
        None => item,
    }
}

// Whether an item is the name of a trait, perhaps behind `!`.
fn is_marked(alloc: Global, item: &str) -> Result<bool, AllocError>
    ensures { IfOk result (λ is. is ≡ is_marked item.now) }
{
    match TraitName::read(alloc, named(item).as_bytes()) {
        Ok(found) => Ok(found.is_some()),
        Err(_) => Err(AllocError),
    }
}

// Whether each item of a list is.
#[tactic(auto, using(ac_query::proofs::Values::Pieces::next_part))]
fn are_traits(alloc: Global, list: &str) -> Result<bool, AllocError>
    ensures { IfOk result (λ are. are ≡ are_traits list.now) }
{
    for item in list.split(',') {
        if !is_marked(alloc, item)? {
            return Ok(false);
        }
    }
    Ok(true)
}

/// What is proposed in place of traits: the same in capitals, if those are traits and not too long to be read; else a word on lists.
#[tactic(auto, unfolding(crate::specs::Queries::Wanted::proposed))]
pub(crate) fn proposed(alloc: Global, value: &str) -> Result<Vec<u8>, AllocError>
    ensures { IfOk result (λ text. text.items ≡ proposed value.now) }
{
    let mut text = Vec::new(alloc);
    if value.len() <= MOST_PROPOSED {
        let capitals = value.to_ascii_uppercase(alloc)?;
        if are_traits(alloc, capitals.as_str())? {
            push_all(&mut text, &[b"; ", capitals.as_bytes(), b"?"])?;
            return Ok(text);
        }
    }
    push_all(
        &mut text,
        &[b", between commas, with ! before what is forbidden"],
    )?;
    Ok(text)
}

// The names that a list forbids.
fn forbidden_in(alloc: Global, list: &str) -> Result<BTreeSet<&str>, AllocError>
    ensures { IfOk result (λ names. map (λ name. name.now) names.keys
        ≡ rising text_cmp (forbidden_in list.now)) }
{
    let mut names = BTreeSet::new(alloc);
    for item in list.split(',') {
        if let Some(name) = item.strip_prefix("!") {
            names.insert(name)?;
        }
    }
    Ok(names)
}

// The first trait that is required and forbidden.
fn opposed(alloc: Global, list: &str) -> Result<Option<&str>, AllocError>
    ensures { IfOk result (λ found. option_map (λ name. name.now) found ≡ opposed list.now) }
{
    let names = forbidden_in(alloc, list)?;
    for item in list.split(',') {
        if names.contains(item) {
            return Ok(Some(item));
        }
    }
    Ok(None)
}

/// What is said of a value that requires and forbids a trait.
#[tactic(auto, unfolding(crate::specs::Queries::Wanted::opposed_remedy))]
pub(crate) fn conflict_remedy(alloc: Global, value: &str) -> Result<Vec<u8>, AllocError>
    ensures { IfOk result (λ text. text.items ≡ conflict_remedy value.now) }
{
    let mut text = Vec::new(alloc);
    match opposed(alloc, value)? {
        Some(name) => {
            push_quoted(&mut text, name.as_bytes())?;
            push_all(
                &mut text,
                &[b" is required and forbidden: leave one of the two out"],
            )?;
        }
        None => push_all(
            &mut text,
            &[b"a trait is required and forbidden: leave one of the two out"],
        )?,
    }
    Ok(text)
}
