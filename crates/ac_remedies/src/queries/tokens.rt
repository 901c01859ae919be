//! What is said of a token: the slots that want a UUID.
ghost use Rattle.std.specs.Prelude.{◌≡◌, ◌+◌, ◌++◌, IfOk, OnOk, length, map, string_bytes};
ghost use Rattle.std.specs.List.{flat_map};
ghost use Rattle.ac_query.specs.Asked.{slots_of};
ghost use Rattle.ac_query.specs.Shown.Groups.{group_entry, need_entry};
ghost use Rattle.ac_query.specs.Shown.Queries.{asked_of};
ghost use Rattle.ac_query.specs.Texts.{items_of};
ghost use Rattle.ac_remedies.specs.Queries.{counts_text, form_remedy, length_remedy};
ghost use Rattle.ac_remedies.specs.Queries.Slots.{class_text, group_text, slots_text, suffix_text};

use crate::quoted::push_all;
use ac_query::{Group, Need, Query};
use std::alloc::{AllocError, Global};

// The classes of a group without a suffix.
#[tactic(auto, unfolding(crate::specs::Queries::Slots::class_text))]
fn push_classes(text: &mut Vec<u8>, needs: &[Need]) -> Result<(), AllocError>
    ensures { OnOk result (text.new.items
        ≡ text.old.items ++ flat_map class_text (map need_entry needs.now)) }
{
    for need in needs {
        push_all(text, &[need.class().text().as_bytes(), b", "])?;
    }
    Ok(())
}

// The slots of a group.
#[tactic(auto, unfolding(crate::specs::Queries::Slots::suffix_text))]
fn push_group(text: &mut Vec<u8>, group: &Group) -> Result<(), AllocError>
    ensures { OnOk result (text.new.items
        ≡ text.old.items ++ group_text (group_entry group.now)) }
{
    match group.suffix() {
        Some(suffix) => push_all(text, &[b"\"", suffix.text().as_bytes(), b"\", "]),
        None => push_classes(text, group.needs()),
    }
}

// All slots, in order.
fn slots_text(alloc: Global, query: &Query) -> Result<Vec<u8>, AllocError>
    ensures { IfOk result (λ text. text.items ≡ slots_text (asked_of query.now)) }
{
    let mut text = Vec::new(alloc);
    for group in query.groups() {
        push_group(&mut text, group)?;
    }
    Ok(text)
}

/// How many items stand between the commas of a list.
pub(crate) fn count_items(list: &str) -> usize
    ensures { result ≡ length (items_of list.now) }
{
    list.as_bytes().iter().filter(|b| **b == b',').count() + 1
}

/// What is said of a token of which some part is no UUID.
#[tactic(auto, unfolding(crate::specs::Queries::form_remedy))]
pub(crate) fn form_remedy(alloc: Global, query: &Query) -> Result<Vec<u8>, AllocError>
    ensures { IfOk result (λ text. text.items ≡ form_remedy (slots_text (asked_of query.now))) }
{
    let mut text = Vec::new(alloc);
    let slots = slots_text(alloc, query)?;
    push_all(
        &mut text,
        &[
            b"UUIDs between commas: one for each of ",
            slots.as_slice(),
            b"in this order",
        ],
    )?;
    Ok(text)
}

// How many UUIDs a token has, and how many slots there are.
#[tactic(auto, unfolding(crate::specs::Queries::counts_text))]
fn counts_text(alloc: Global, has: usize, wants: usize) -> Result<String, AllocError>
    ensures { IfOk result (λ text. string_bytes text ≡ counts_text has wants) }
{
    format!(in alloc; "UUIDs {has}, slots {wants}: one for each of ")
}

/// What is said of a token of more UUIDs or fewer than there are slots.
#[tactic(auto, unfolding(crate::specs::Queries::length_remedy))]
pub(crate) fn length_remedy(
    alloc: Global,
    token: &str,
    query: &Query,
) -> Result<Vec<u8>, AllocError>
    ensures { IfOk result (λ text. text.items ≡ length_remedy (length (items_of token.now))
        (length (slots_of (asked_of query.now))) (slots_text (asked_of query.now))) }
{
    let mut text = Vec::new(alloc);
    let counts = counts_text(alloc, count_items(token), query.slots().len())?;
    let slots = slots_text(alloc, query)?;
    push_all(
        &mut text,
        &[counts.as_bytes(), slots.as_slice(), b"in this order"],
    )?;
    Ok(text)
}
