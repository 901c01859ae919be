//! What the group without a suffix requires, and no provider of its slots brings.
ghost use Rattle.std.specs.Prelude.{◌≡◌, IfOk, map, string_bytes};
ghost use Rattle.std.specs.Option.{option_map};
ghost use Rattle.ac_base.specs.Names.{trait_bytes};
ghost use Rattle.ac_cloud.specs.Cloud.CloudWorld.{providers_of};
ghost use Rattle.ac_query.specs.Shown.Groups.{any_of_shown, group_asked, group_entry};
ghost use Rattle.ac_query.specs.Shown.Queries.{asked_of};
ghost use Rattle.ac_rules.specs.Shown.Assignments.{assigned_of};
ghost use Rattle.ac_find.specs.Broken.{collective_detail, first_unbrought, first_unbrought_list, first_unserved_group, unbrought_detail, unbrought_list_detail};

use crate::details::traits::{missing_text, none_of_text};
use ac_base::{NoMemory, TraitName};
use ac_query::{AnyOf, Group};
use ac_rules::Assignment;
use std::alloc::Global;

// The first group without a suffix of which something isn't brought.
fn first_unserved_group<'a>(assignment: &Assignment<'a>) -> Option<&'a Group>
    ensures { option_map (λ group. group_entry group.now) result
        ≡ first_unserved_group (providers_of assignment.now.cloud.now)
        (asked_of assignment.now.query.now) (assigned_of assignment.now) }
{
    assignment
        .query
        .groups()
        .iter()
        .find(|group| !assignment.keeps_group(group))
}

// The first of some traits that isn't brought.
fn first_unbrought<'a>(assignment: &Assignment, names: &'a [TraitName]) -> Option<&'a TraitName>
    ensures { option_map (λ name. trait_bytes name.now) result
        ≡ first_unbrought (providers_of assignment.now.cloud.now) (assigned_of assignment.now)
        (map trait_bytes names.now) }
{
    names.iter().find(|name| !assignment.is_brought(name))
}

// The first of some lists of which no trait is brought.
fn first_unbrought_list<'a>(assignment: &Assignment, lists: &'a [AnyOf]) -> Option<&'a AnyOf>
    ensures { option_map (λ list. any_of_shown list.now) result
        ≡ first_unbrought_list (providers_of assignment.now.cloud.now) (assigned_of assignment.now)
        (map any_of_shown lists.now) }
{
    lists
        .iter()
        .find(|list| !assignment.is_one_brought(list.names()))
}

fn unbrought_list_detail(
    alloc: Global,
    assignment: &Assignment,
    group: &Group,
) -> Result<String, NoMemory>
    ensures { IfOk result (λ text. string_bytes text ≡ unbrought_list_detail
        (providers_of assignment.now.cloud.now) (assigned_of assignment.now)
        (group_asked group.now)) }
{
    match first_unbrought_list(assignment, group.any_of()) {
        Some(list) => none_of_text(alloc, list.names()),
        None => Ok(String::new(alloc)),
    }
}

fn unbrought_detail(
    alloc: Global,
    assignment: &Assignment,
    group: &Group,
) -> Result<String, NoMemory>
    ensures { IfOk result (λ text. string_bytes text ≡ unbrought_detail
        (providers_of assignment.now.cloud.now) (assigned_of assignment.now)
        (group_asked group.now)) }
{
    match first_unbrought(assignment, group.required()) {
        Some(name) => missing_text(alloc, name),
        None => unbrought_list_detail(alloc, assignment, group),
    }
}

/// The first required trait that isn't brought, else the first list of which none is.
pub(crate) fn collective_detail(alloc: Global, assignment: &Assignment) -> Result<String, NoMemory>
    ensures { IfOk result (λ text. string_bytes text
        ≡ collective_detail (providers_of assignment.now.cloud.now)
        (asked_of assignment.now.query.now) (assigned_of assignment.now)) }
{
    match first_unserved_group(assignment) {
        Some(group) => unbrought_detail(alloc, assignment, group),
        None => Ok(String::new(alloc)),
    }
}
