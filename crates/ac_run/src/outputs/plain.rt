//! A query written plainly: its parameters, decoded and in one order, each with its value.
ghost use Rattle.std.specs.Prelude.{◌≡◌, ◌++◌, IfOk, OnOk, map, string_bytes};
ghost use Rattle.std.specs.List.{flat_map};
ghost use Rattle.ac_query.specs.Shown.Groups.{group_entry};
ghost use Rattle.ac_query.specs.Shown.Queries.{asked_of};
ghost use Rattle.ac_run.specs.Outputs.Plain.{all_parameters, given, group_parameters, pair_text, plain_query, whole_parameters};
ghost use Rattle.ac_run.specs.Outputs.Shown.{parameter_shown};

pub(crate) mod values;

use self::values::{
    joined, limit_values, needs_values, policy_values, required_values, root_values, rule_values,
    subtree_values, tree_values,
};
use ac_base::NoMemory;
use ac_query::{Group, Query};
use ac_report::suffix_text;
use std::alloc::Global;

/// A parameter of a query: its name and its value.
pub(crate) type Parameter = (String, String);

// Adds a parameter with each of these values; its name may have a suffix.
fn push_given(
    alloc: Global,
    list: &mut Vec<Parameter>,
    name: &str,
    suffix: &str,
    values: Vec<String>,
) -> Result<(), NoMemory>
    ensures { OnOk result (map parameter_shown list.new.items ≡ map parameter_shown list.old.items
        ++ given (name.now ++ suffix.now) (map string_bytes values.items)) }
{
    for value in values {
        list.push((format!(in alloc; "{name}{suffix}")?, value))?;
    }
    Ok(())
}

// Adds the parameters of a group.
fn push_group(alloc: Global, list: &mut Vec<Parameter>, group: &Group) -> Result<(), NoMemory>
    ensures { OnOk result (map parameter_shown list.new.items ≡ map parameter_shown list.old.items
        ++ group_parameters (group_entry group.now)) }
{
    let suffix = suffix_text(group);
    let needs = needs_values(alloc, group.needs())?;
    push_given(alloc, list, "resources", suffix, needs)?;
    let required = required_values(alloc, group)?;
    push_given(alloc, list, "required", suffix, required)?;
    let rules = rule_values(alloc, group.member_of())?;
    push_given(alloc, list, "member_of", suffix, rules)?;
    let tree = tree_values(alloc, group.in_tree())?;
    push_given(alloc, list, "in_tree", suffix, tree)
}

// Adds the parameters of the whole query.
fn push_whole(alloc: Global, list: &mut Vec<Parameter>, query: &Query) -> Result<(), NoMemory>
    ensures { OnOk result (map parameter_shown list.new.items ≡ map parameter_shown list.old.items
        ++ whole_parameters (asked_of query.now)) }
{
    let policy = policy_values(alloc, query.policy())?;
    push_given(alloc, list, "group_policy", "", policy)?;
    let subtrees = subtree_values(alloc, query.subtrees())?;
    push_given(alloc, list, "same_subtree", "", subtrees)?;
    let traits = root_values(alloc, query)?;
    push_given(alloc, list, "root_required", "", traits)?;
    let limit = limit_values(alloc, query.limit())?;
    push_given(alloc, list, "limit", "", limit)
}

/// The parameters of the whole query.
pub(crate) fn whole_parameters(alloc: Global, query: &Query) -> Result<Vec<Parameter>, NoMemory>
    ensures { IfOk result (λ list. map parameter_shown list.items
        ≡ whole_parameters (asked_of query.now)) }
{
    let mut list = Vec::new(alloc);
    push_whole(alloc, &mut list, query)?;
    Ok(list)
}

// Adds the parameters of groups.
fn push_groups(alloc: Global, list: &mut Vec<Parameter>, groups: &[Group]) -> Result<(), NoMemory>
    ensures { OnOk result (map parameter_shown list.new.items ≡ map parameter_shown list.old.items
        ++ flat_map group_parameters (map group_entry groups.now)) }
{
    for group in groups {
        push_group(alloc, list, group)?;
    }
    Ok(())
}

// Parameters, as they stand in a query.
fn pair_texts(alloc: Global, list: &[Parameter]) -> Result<Vec<String>, NoMemory>
    ensures { IfOk result (λ texts. map string_bytes texts.items
        ≡ map pair_text (map parameter_shown list.now)) }
{
    let mut texts = Vec::new(alloc);
    for pair in list {
        let (name, value) = pair;
        texts.push(format!(in alloc; "{name}={value}")?)?;
    }
    Ok(texts)
}

/// The query with all its parameters.
#[tactic(auto, unfolding(crate::specs::Outputs::Plain::plain_query))]
pub(crate) fn plain_query(alloc: Global, query: &Query) -> Result<String, NoMemory>
    ensures { IfOk result (λ text. string_bytes text ≡ plain_query (asked_of query.now)) }
{
    let mut list = Vec::new(alloc);
    push_groups(alloc, &mut list, query.groups())?;
    push_whole(alloc, &mut list, query)?;
    joined(alloc, '&', &pair_texts(alloc, &list)?)
}
