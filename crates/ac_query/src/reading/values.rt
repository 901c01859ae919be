//! The values of parameters.
ghost use Rattle.std.specs.Prelude.{◌≡◌, ℕ, List, [], IfOk, map};
ghost use Rattle.std.specs.List.{fold};
ghost use Rattle.std.specs.Option.{option_map};
ghost use Rattle.std.specs.BTreeSet.{insert_key};
ghost use Rattle.std.specs.Ordering.{nat_cmp};
ghost use Rattle.ac_base.specs.Sorted.{rising};
ghost use Rattle.ac_query.specs.Pairs.Values.{amount_value, need_value, by_class, needs_value, traits_value, names_value, aggregates_value, rule_value, subtree_value, policy_value};
ghost use Rattle.ac_query.specs.Shown.{needs_shown, traits_shown, suffixes_shown};
ghost use Rattle.ac_query.specs.Shown.Groups.{need_entry, rule_shown, any_of_shown};

use crate::group::{AggregateRule, AnyOf, Need};
use crate::reading::amount::Amount;
use crate::reading::items::{Item, read_list};
use crate::reading::parameter::behind;
use crate::reading::traits::{Traits, names_in_order};
use ac_base::{ClassName, Id, NoMemory, Suffix, read_count};
use std::alloc::Global;
use std::collections::{BTreeMap, BTreeSet};

/// A number of at least 1.
#[tactic(auto, unfolding(crate::specs::Pairs::Values::amount_value))]
pub(crate) fn read_amount(text: &str) -> Option<Amount>
    ensures { option_map (λ a. a.count) result ≡ amount_value text.now }
{
    let count = read_count(text.as_bytes())?;
    if count == 0 {
        None
    } else {
        Some(Amount { count })
    }
}

impl Item for Need {
    ghost Shown = { List ℕ × ℕ };

    ghost shown = { need_entry };

    ghost value = { need_value };

    #[tactic(auto, unfolding(crate::specs::Pairs::Values::need_value))]
    fn read_item(alloc: Global, text: &str) -> Result<Option<Need>, NoMemory> {
        let Some((class, amount)) = text.split_once(':') else {
            return Ok(None);
        };
        let Some(class) = ClassName::read(alloc, class.as_bytes())? else {
            return Ok(None);
        };
        let Some(amount) = read_amount(amount) else {
            return Ok(None);
        };
        Ok(Some(Need { class, amount }))
    }
}

/// Amounts by class, where no class stands twice.
fn by_class(
    alloc: Global,
    needs: Vec<Need>,
) -> Result<Option<BTreeMap<ClassName, Amount>>, NoMemory>
    ensures { IfOk result (λ amounts. option_map needs_shown amounts
        ≡ by_class (map need_entry needs.items)) }
{
    let mut amounts = BTreeMap::new(alloc);
    for need in needs {
        if amounts.contains_key(&need.class) {
            return Ok(None);
        }
        amounts.insert(need.class, need.amount)?;
    }
    Ok(Some(amounts))
}

/// The amounts of a list: `CLASS:n,..`, each class once.
#[tactic(auto, unfolding(crate::specs::Pairs::Values::needs_value))]
pub(crate) fn read_needs(
    alloc: Global,
    text: &str,
) -> Result<Option<BTreeMap<ClassName, Amount>>, NoMemory>
    ensures { IfOk result (λ needs. option_map needs_shown needs ≡ needs_value text.now) }
{
    match read_list(alloc, text)? {
        Some(needs) => by_class(alloc, needs),
        None => Ok(None),
    }
}

/// The traits of a list: `TRAIT` or `!TRAIT`, one or more.
#[tactic(auto, unfolding(crate::specs::Pairs::Values::traits_value))]
pub(crate) fn read_traits(alloc: Global, text: &str) -> Result<Option<Traits>, NoMemory>
    ensures { IfOk result (λ traits. option_map traits_shown traits ≡ traits_value text.now) }
{
    match read_list(alloc, text)? {
        Some(list) => Ok(Some(Traits::of(alloc, list)?)),
        None => Ok(None),
    }
}

/// The keys of a list, in order, each once.
fn set_of<K: Ord + Drop>(alloc: Global, list: Vec<K>) -> Result<BTreeSet<K>, NoMemory>
    ensures { IfOk result (λ set. set.keys ≡ fold (insert_key K.cmp) [] list.items) }
{
    let mut set = BTreeSet::new(alloc);
    for key in list {
        set.insert(key)?;
    }
    Ok(set)
}

/// The traits of a list of which one is asked: `TRAIT,..`, one or more.
#[tactic(auto, unfolding(crate::specs::Pairs::Values::names_value))]
pub(crate) fn read_any_of(alloc: Global, text: &str) -> Result<Option<AnyOf>, NoMemory>
    ensures { IfOk result (λ list. option_map any_of_shown list ≡ names_value text.now) }
{
    match read_list(alloc, text)? {
        Some(list) => {
            let names = names_in_order(alloc, set_of(alloc, list)?)?;
            Ok(Some(AnyOf { names }))
        }
        None => Ok(None),
    }
}

/// The aggregates of a rule: `U` or `in:U,..`.
#[tactic(auto, unfolding(crate::specs::Pairs::Values::aggregates_value, crate::specs::Pairs::Values::ids_value))]
fn read_aggregates(alloc: Global, text: &str) -> Result<Option<Vec<Id>>, NoMemory>
    ensures { IfOk result (λ ids. option_map (λ v. v.items) ids ≡ aggregates_value text.now) }
{
    if let Some(list) = behind("in:", text) {
        return read_list(alloc, list);
    }
    let Some(id) = Id::read(text.as_bytes()) else {
        return Ok(None);
    };
    let mut ids = Vec::new(alloc);
    ids.push(id)?;
    Ok(Some(ids))
}

// The ids of a set, in order.
fn ids_of(alloc: Global, set: BTreeSet<Id>) -> Result<Vec<Id>, NoMemory>
    ensures { IfOk result (λ ids. ids.items ≡ set.keys) }
{
    let mut ids = Vec::new(alloc);
    for id in set {
        ids.push(id)?;
    }
    Ok(ids)
}

/// These ids in order, each once.
pub(crate) fn ids_in_order(alloc: Global, ids: &[Id]) -> Result<Vec<Id>, NoMemory>
    ensures { IfOk result (λ list. list.items ≡ rising nat_cmp ids.now) }
{
    let set = set_of(alloc, ids.to_vec(alloc)?)?;
    Ok(ids_of(alloc, set)?)
}

/// An aggregate rule: `U`, `in:U,..`, `!U` or `!in:U,..`.
#[tactic(auto, unfolding(crate::specs::Pairs::Values::rule_value))]
pub(crate) fn read_rule(alloc: Global, text: &str) -> Result<Option<AggregateRule>, NoMemory>
    ensures { IfOk result (λ rule. option_map rule_shown rule ≡ rule_value text.now) }
{
    let (forbids, plain) = match behind("!", text) {
        Some(plain) => (true, plain),
        None => (false, text),
    };
    match read_aggregates(alloc, plain)? {
        Some(ids) => Ok(Some(AggregateRule {
            forbids,
            in_order: ids_in_order(alloc, &ids)?,
            ids,
        })),
        None => Ok(None),
    }
}

/// The suffixes of a list: `S,..`, one or more.
#[tactic(auto, unfolding(crate::specs::Pairs::Values::subtree_value))]
pub(crate) fn read_subtree(alloc: Global, text: &str) -> Result<Option<BTreeSet<Suffix>>, NoMemory>
    ensures { IfOk result (λ suffixes. option_map suffixes_shown suffixes
        ≡ subtree_value text.now) }
{
    match read_list(alloc, text)? {
        Some(list) => Ok(Some(set_of(alloc, list)?)),
        None => Ok(None),
    }
}

/// Whether a policy is `isolate`; `none` is the other.
#[tactic(auto, unfolding(crate::specs::Pairs::Values::policy_value))]
pub(crate) fn read_policy(text: &str) -> Option<bool>
    ensures { result ≡ policy_value text.now }
{
    match text {
        "isolate" => Some(true),
        "none" => Some(false),
        _ => None,
    }
}
