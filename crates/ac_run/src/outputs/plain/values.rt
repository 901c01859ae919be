//! The values of a query's parameters, as a query writes them.
ghost use Rattle.std.specs.Prelude.{◌≡◌, ◌++◌, ◌<◌, [], IfOk, OnOk, map, string_bytes};
ghost use Rattle.std.specs.Fmt.{decimal};
ghost use Rattle.std.specs.List.{join_with_byte};
ghost use Rattle.std.specs.Option.{option_to_list};
ghost use Rattle.ac_base.specs.Names.{trait_bytes};
ghost use Rattle.ac_base.specs.Texts.{id_text};
ghost use Rattle.ac_query.specs.Asked.{Asked};
ghost use Rattle.ac_query.specs.Shown.{suffixes_shown};
ghost use Rattle.ac_query.specs.Shown.Groups.{any_of_shown, group_asked, need_entry, rule_shown};
ghost use Rattle.ac_query.specs.Shown.Queries.{asked_of};
ghost use Rattle.ac_query.specs.Texts.{has_text};
ghost use Rattle.ac_find.specs.Details.{forbids_mark, list_mark};
ghost use Rattle.ac_run.specs.Outputs.Plain.{choice_text, forbidden_text, is_torn, need_text, policy_text, rule_text, traits_value, traits_values, value_of};

use ac_base::{Id, NoMemory, Suffix, TraitName};
use ac_query::{AggregateRule, AnyOf, Group, Need, Query, write_ids};
use std::alloc::Global;
use std::collections::BTreeSet;

/// Texts with a mark between each two.
#[tactic(auto, using(ac_remedies::proofs::FieldsJoined::joined_on))]
pub(crate) fn joined(alloc: Global, mark: char, texts: &[String]) -> Result<String, NoMemory>
    requires { mark < 128 }
    ensures { IfOk result (λ text. string_bytes text
        ≡ join_with_byte mark (map string_bytes texts.now)) }
{
    let Some((first, later)) = texts.split_first() else {
        return Ok(String::new(alloc));
    };
    let mut joined = String::from_str(alloc, first)?;
    for text in later {
        joined.push(mark)?;
        joined.push_str(text)?;
    }
    Ok(joined)
}

// A value of these items, where there are any.
fn value_of(alloc: Global, items: &[String]) -> Result<Vec<String>, NoMemory>
    ensures { IfOk result (λ values. map string_bytes values.items
        ≡ value_of (map string_bytes items.now)) }
{
    let mut values = Vec::new(alloc);
    if !items.is_empty() {
        values.push(joined(alloc, ',', items)?)?;
    }
    Ok(values)
}

/// Classes, each with its amount.
pub(crate) fn need_texts(alloc: Global, needs: &[Need]) -> Result<Vec<String>, NoMemory>
    ensures { IfOk result (λ texts. map string_bytes texts.items
        ≡ map need_text (map need_entry needs.now)) }
{
    let mut texts = Vec::new(alloc);
    for need in needs {
        let class = need.class().text();
        let amount = need.amount();
        texts.push(format!(in alloc; "{class}:{amount}")?)?;
    }
    Ok(texts)
}

/// The names of traits.
pub(crate) fn name_texts(alloc: Global, traits: &[TraitName]) -> Result<Vec<String>, NoMemory>
    ensures { IfOk result (λ texts. map string_bytes texts.items
        ≡ map trait_bytes traits.now) }
{
    let mut texts = Vec::new(alloc);
    for name in traits {
        texts.push(String::from_str(alloc, name.text())?)?;
    }
    Ok(texts)
}

// Adds traits that are forbidden.
fn push_forbidden(
    alloc: Global,
    texts: &mut Vec<String>,
    traits: &[TraitName],
) -> Result<(), NoMemory>
    ensures { OnOk result (map string_bytes texts.new.items ≡ map string_bytes texts.old.items
        ++ map forbidden_text (map trait_bytes traits.now)) }
{
    for name in traits {
        let name = name.text();
        texts.push(format!(in alloc; "!{name}")?)?;
    }
    Ok(())
}

// Traits that are required and traits that are forbidden, in one value.
fn traits_value(
    alloc: Global,
    required: &[TraitName],
    forbidden: &[TraitName],
) -> Result<Vec<String>, NoMemory>
    ensures { IfOk result (λ values. map string_bytes values.items
        ≡ traits_value (map trait_bytes required.now) (map trait_bytes forbidden.now)) }
{
    let mut texts = name_texts(alloc, required)?;
    push_forbidden(alloc, &mut texts, forbidden)?;
    value_of(alloc, &texts)
}

// A group forbids a trait.
fn forbids_trait(group: &Group, name: &TraitName) -> bool
    ensures { result ≡ has_text (group_asked group.now).forbidden (trait_bytes name.now) }
{
    group.forbidden().binary_search(name).is_ok()
}

// A group requires a trait and forbids it.
fn is_torn(group: &Group) -> bool
    ensures { result ≡ is_torn (group_asked group.now) }
{
    group
        .required()
        .iter()
        .any(|name| forbids_trait(group, name))
}

// The traits of a group that one value can't say.
fn torn_values(alloc: Global, group: &Group) -> Result<Vec<String>, NoMemory>
    ensures { IfOk result (λ values. map string_bytes values.items
        ≡ traits_value (group_asked group.now).required []
        ++ traits_value [] (group_asked group.now).forbidden) }
{
    let mut values = traits_value(alloc, group.required(), &[])?;
    values.append(&mut traits_value(alloc, &[], group.forbidden())?)?;
    Ok(values)
}

// The traits of a group, in one value if that can say them.
fn traits_values(alloc: Global, group: &Group) -> Result<Vec<String>, NoMemory>
    ensures { IfOk result (λ values. map string_bytes values.items
        ≡ traits_values (group_asked group.now)) }
{
    if is_torn(group) {
        torn_values(alloc, group)
    } else {
        traits_value(alloc, group.required(), group.forbidden())
    }
}

// A list of traits of which one is asked.
fn choice_text(alloc: Global, list: &AnyOf) -> Result<String, NoMemory>
    ensures { IfOk result (λ text. string_bytes text ≡ choice_text (any_of_shown list.now)) }
{
    let names = joined(alloc, ',', &name_texts(alloc, list.names())?)?;
    Ok(format!(in alloc; "in:{names}")?)
}

// Adds each list of which one trait is asked.
fn push_choices(alloc: Global, values: &mut Vec<String>, lists: &[AnyOf]) -> Result<(), NoMemory>
    ensures { OnOk result (map string_bytes values.new.items ≡ map string_bytes values.old.items
        ++ map choice_text (map any_of_shown lists.now)) }
{
    for list in lists {
        values.push(choice_text(alloc, list)?)?;
    }
    Ok(())
}

/// Each trait or list of traits that a group requires.
pub(crate) fn asked_values(alloc: Global, group: &Group) -> Result<Vec<String>, NoMemory>
    ensures { IfOk result (λ values. map string_bytes values.items
        ≡ value_of (group_asked group.now).required
        ++ map choice_text (group_asked group.now).any_of) }
{
    let mut values = value_of(alloc, &name_texts(alloc, group.required())?)?;
    push_choices(alloc, &mut values, group.any_of())?;
    Ok(values)
}

/// What a group needs.
pub(crate) fn needs_values(alloc: Global, needs: &[Need]) -> Result<Vec<String>, NoMemory>
    ensures { IfOk result (λ values. map string_bytes values.items
        ≡ value_of (map need_text (map need_entry needs.now))) }
{
    value_of(alloc, &need_texts(alloc, needs)?)
}

/// What a group requires and forbids.
pub(crate) fn required_values(alloc: Global, group: &Group) -> Result<Vec<String>, NoMemory>
    ensures { IfOk result (λ values. map string_bytes values.items
        ≡ traits_values (group_asked group.now)
        ++ map choice_text (group_asked group.now).any_of) }
{
    let mut values = traits_values(alloc, group)?;
    push_choices(alloc, &mut values, group.any_of())?;
    Ok(values)
}

/// What a query requires of the root, and forbids.
pub(crate) fn root_values(alloc: Global, query: &Query) -> Result<Vec<String>, NoMemory>
    ensures { IfOk result (λ values. map string_bytes values.items
        ≡ traits_value (asked_of query.now).root_required (asked_of query.now).root_forbidden) }
{
    traits_value(alloc, query.root_required(), query.root_forbidden())
}

// What stands before the aggregates of a rule.
fn rule_mark(rule: &AggregateRule) -> &'static str
    ensures { result.now ≡ forbids_mark (rule_shown rule.now).forbids
        ++ list_mark (rule_shown rule.now).ids }
{
    match (rule.forbids(), rule.ids().len() > 1) {
        (true, true) => "!in:",
        (true, false) => "!",
        (false, true) => "in:",
        (false, false) => "",
    }
}

// A rule on aggregates.
fn rule_text(alloc: Global, rule: &AggregateRule) -> Result<String, NoMemory>
    ensures { IfOk result (λ text. string_bytes text ≡ rule_text (rule_shown rule.now)) }
{
    let mark = rule_mark(rule);
    let ids = write_ids(alloc, rule.ids())?;
    Ok(format!(in alloc; "{mark}{ids}")?)
}

/// Rules on aggregates.
pub(crate) fn rule_values(alloc: Global, rules: &[AggregateRule]) -> Result<Vec<String>, NoMemory>
    ensures { IfOk result (λ values. map string_bytes values.items
        ≡ map rule_text (map rule_shown rules.now)) }
{
    let mut values = Vec::new(alloc);
    for rule in rules {
        values.push(rule_text(alloc, rule)?)?;
    }
    Ok(values)
}

/// The tree that a group names, if it names one.
pub(crate) fn tree_values(alloc: Global, tree: Option<Id>) -> Result<Vec<String>, NoMemory>
    ensures { IfOk result (λ values. map string_bytes values.items
        ≡ map id_text (option_to_list tree)) }
{
    let mut values = Vec::new(alloc);
    if let Some(id) = tree {
        values.push(write_ids(alloc, &[id])?)?;
    }
    Ok(values)
}

// A list of suffixes.
fn suffixes_text(alloc: Global, suffixes: &BTreeSet<Suffix>) -> Result<String, NoMemory>
    ensures { IfOk result (λ text. string_bytes text
        ≡ join_with_byte 44 (suffixes_shown suffixes.now)) }
{
    let mut texts = Vec::new(alloc);
    for suffix in suffixes {
        texts.push(String::from_str(alloc, suffix.text())?)?;
    }
    joined(alloc, ',', &texts)
}

/// The lists of `same_subtree`.
pub(crate) fn subtree_values(
    alloc: Global,
    lists: &[BTreeSet<Suffix>],
) -> Result<Vec<String>, NoMemory>
    ensures { IfOk result (λ values. map string_bytes values.items
        ≡ map (λ names. join_with_byte 44 names) (map suffixes_shown lists.now)) }
{
    let mut values = Vec::new(alloc);
    for suffixes in lists {
        values.push(suffixes_text(alloc, suffixes)?)?;
    }
    Ok(values)
}

/// The policy, if there is one.
pub(crate) fn policy_values(alloc: Global, policy: Option<bool>) -> Result<Vec<String>, NoMemory>
    ensures { IfOk result (λ values. map string_bytes values.items
        ≡ map policy_text (option_to_list policy)) }
{
    let mut values = Vec::new(alloc);
    if let Some(isolates) = policy {
        let text = if isolates { "isolate" } else { "none" };
        values.push(String::from_str(alloc, text)?)?;
    }
    Ok(values)
}

/// The limit, if there is one.
pub(crate) fn limit_values(alloc: Global, limit: Option<u32>) -> Result<Vec<String>, NoMemory>
    ensures { IfOk result (λ values. map string_bytes values.items
        ≡ map decimal (option_to_list limit)) }
{
    let mut values = Vec::new(alloc);
    if let Some(limit) = limit {
        values.push(format!(in alloc; "{limit}")?)?;
    }
    Ok(values)
}
