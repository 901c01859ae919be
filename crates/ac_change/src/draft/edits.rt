//! What an edit makes of the providers that it touches.
ghost use Rattle.std.specs.Prelude.{◌≡◌, ◌<◌, ◌&&◌, false, length, map, set, IfOk};
ghost use Rattle.std.specs.List.{list_any};
ghost use Rattle.std.specs.List.Sorted.{IsStrictlySortedBy};
ghost use Rattle.std.specs.Map.{keys_of};
ghost use Rattle.std.specs.Ordering.{nat_cmp};
ghost use Rattle.ac_base.specs.Names.{trait_bytes};
ghost use Rattle.ac_base.specs.Texts.{text_cmp};
ghost use Rattle.ac_cloud.specs.Cloud.Entries.{entry_pair};
ghost use Rattle.ac_change.specs.Changes.{edited, spoils};
ghost use Rattle.ac_cloud.specs.World.{provider_at};
ghost use Rattle.ac_change.specs.Drafts.{AreWhole, all_held, edited_held, roots_held};
ghost use Rattle.ac_change.specs.Held.{provider_held};
ghost use Rattle.ac_change.specs.Marked.{is_marked};
ghost use Rattle.ac_change.specs.Shown.{edit_shown};

use crate::changes::Edit;
use crate::draft::copies::copy;
use crate::draft::held::Held;
use crate::draft::hosts::find_id;
use crate::draft::inventories::{entries_set, spoils};
use crate::draft::members::{with_id, with_name, without_id, without_name};
use crate::draft::touched::Touched;
use ac_base::{Id, NoMemory, TraitName};
use ac_cloud::Entry;
use std::alloc::Global;

// The same provider with these entries.
fn with_entries(mut held: Held, entries: Vec<Entry>) -> Held
    requires { IsStrictlySortedBy text_cmp (keys_of (map entry_pair entries.items)) }
    ensures provider { provider_held result
        ≡ record (provider_held held) { entries = map entry_pair entries.items } }
    ensures root { result.root ≡ held.root }
{
    held.entries = entries;
    held
}

// The same provider with these traits.
fn with_traits(mut held: Held, traits: Vec<TraitName>) -> Held
    requires { IsStrictlySortedBy text_cmp (map trait_bytes traits.items) }
    ensures provider { provider_held result
        ≡ record (provider_held held) { traits = map trait_bytes traits.items } }
    ensures root { result.root ≡ held.root }
{
    held.traits = traits;
    held
}

// The same provider in these aggregates.
fn with_aggregates(mut held: Held, aggregates: Vec<Id>) -> Held
    requires { IsStrictlySortedBy nat_cmp aggregates.items }
    ensures provider { provider_held result
        ≡ record (provider_held held) { aggregates = aggregates.items } }
    ensures root { result.root ≡ held.root }
{
    held.aggregates = aggregates;
    held
}

// Whether an edit would leave a provider what is no inventory.
fn is_spoilt_by(held: &Held, edit: &Edit) -> bool
    ensures { result ≡ spoils (edit_shown edit.now) (provider_held held.now) }
{
    match edit {
        Edit::Sets(class, to) => spoils(&held.entries, class, *to),
        Edit::Gains(_) | Edit::Loses(_) | Edit::Joins(_) | Edit::Leaves(_) => false,
    }
}

// The provider after an edit.
fn edited(alloc: Global, held: Held, edit: &Edit) -> Result<Held, NoMemory>
    requires { spoils (edit_shown edit.now) (provider_held held) ≡ false }
    ensures provider { IfOk result (λ new.
        provider_held new ≡ edited (edit_shown edit.now) (provider_held held)) }
    ensures root { IfOk result (λ new. new.root ≡ held.root) }
{
    match edit {
        Edit::Gains(name) => {
            let traits = with_name(alloc, &held.traits, name)?;
            Ok(with_traits(held, traits))
        }
        Edit::Loses(name) => {
            let traits = without_name(alloc, &held.traits, name)?;
            Ok(with_traits(held, traits))
        }
        Edit::Joins(aggregate) => {
            let aggregates = with_id(alloc, &held.aggregates, *aggregate)?;
            Ok(with_aggregates(held, aggregates))
        }
        Edit::Leaves(aggregate) => {
            let aggregates = without_id(alloc, &held.aggregates, *aggregate)?;
            Ok(with_aggregates(held, aggregates))
        }
        Edit::Sets(class, to) => {
            let entries = entries_set(alloc, &held.entries, class, *to)?;
            Ok(with_entries(held, entries))
        }
    }
}

// Whether an edit touches a provider, and would leave it what is no inventory.
fn is_spoilt(held: &Held, touched: &Touched, edit: &Edit) -> bool
    ensures { result ≡ (is_marked touched.now held.now
        && spoils (edit_shown edit.now) (provider_held held.now)) }
{
    touched.is_marked(held) && is_spoilt_by(held, edit)
}

// The provider after an edit, if it is touched.
fn edited_one(alloc: Global, held: Held, touched: &Touched, edit: &Edit) -> Result<Held, NoMemory>
    requires { (is_marked touched.now held && spoils (edit_shown edit.now) (provider_held held))
        ≡ false }
    ensures provider { IfOk result (λ new.
        provider_held new ≡ edited_held touched.now (edit_shown edit.now) held) }
    ensures root { IfOk result (λ new. new.root ≡ held.root) }
{
    if touched.is_marked(&held) {
        edited(alloc, held, edit)
    } else {
        Ok(held)
    }
}

// Whether an edit would leave one of those whom it touches what is no inventory.
pub(crate) fn spoils_one(list: &[Held], touched: &Touched, edit: &Edit) -> bool
    ensures { result ≡ list_any (λ h. is_marked touched.now h
        && spoils (edit_shown edit.now) (provider_held h)) list.now }
{
    list.iter().any(|held| is_spoilt(held, touched, edit))
}

// All providers after an edit of the one at a place.
#[tactic(auto, unfolding(crate::specs::Drafts::all_held))]
fn edit_at(alloc: Global, list: Vec<Held>, ix: usize, edit: &Edit) -> Result<Vec<Held>, NoMemory>
    requires inside { ix < length list.items }
    requires fine { spoils (edit_shown edit.now) (provider_at (all_held list.items) ix) ≡ false }
    ensures providers { IfOk result (λ new. all_held new.items ≡ set (all_held list.items) ix
        (edited (edit_shown edit.now) (provider_at (all_held list.items) ix))) }
    ensures roots { IfOk result (λ new. roots_held new.items ≡ roots_held list.items) }
{
    let mut list = list;
    let held = copy(alloc, &list[ix])?;
    list[ix] = edited(alloc, held, edit)?;
    Ok(list)
}

// All providers after an edit of those whom it touches, looked for one by one.
#[tactic(auto, unfolding(crate::specs::Drafts::all_held))]
fn edit_each(
    alloc: Global,
    list: Vec<Held>,
    touched: &Touched,
    edit: &Edit,
) -> Result<Vec<Held>, NoMemory>
    requires { list_any (λ h. is_marked touched.now h
        && spoils (edit_shown edit.now) (provider_held h)) list.items ≡ false }
    ensures providers { IfOk result (λ new. all_held new.items
        ≡ map (edited_held touched.now (edit_shown edit.now)) list.items) }
    ensures roots { IfOk result (λ new. roots_held new.items ≡ roots_held list.items) }
{
    let mut new = Vec::new(alloc);
    for held in list {
        new.push(edited_one(alloc, held, touched, edit)?)?;
    }
    Ok(new)
}

// All providers after an edit of those whom it touches.
pub(crate) fn edit_all(
    alloc: Global,
    list: Vec<Held>,
    touched: &Touched,
    edit: &Edit,
) -> Result<Vec<Held>, NoMemory>
    requires whole { AreWhole list.items }
    requires fine { list_any (λ h. is_marked touched.now h
        && spoils (edit_shown edit.now) (provider_held h)) list.items ≡ false }
    ensures providers { IfOk result (λ new. all_held new.items
        ≡ map (edited_held touched.now (edit_shown edit.now)) list.items) }
    ensures roots { IfOk result (λ new. roots_held new.items ≡ roots_held list.items) }
{
    if let Touched::One(id) = touched
        && let Some(ix) = find_id(&list, *id)
    {
        return edit_at(alloc, list, ix, edit);
    }
    edit_each(alloc, list, touched, edit)
}
