//! Which trait a provider lacks, and which it may not have.
ghost use Rattle.std.specs.Prelude.{◌≡◌, ◌++◌, IfOk, OnOk, map, string_bytes};
ghost use Rattle.std.specs.List.{join_with_byte};
ghost use Rattle.std.specs.Option.{option_map};
ghost use Rattle.ac_base.specs.Names.{trait_bytes};
ghost use Rattle.ac_cloud.specs.Providers.{provider_of};
ghost use Rattle.ac_cloud.specs.World.{provider_at};
ghost use Rattle.ac_cloud.specs.Cloud.CloudWorld.{providers_of};
ghost use Rattle.ac_query.specs.Shown.Groups.{any_of_shown, group_asked};
ghost use Rattle.ac_query.specs.Shown.Queries.{asked_of};
ghost use Rattle.ac_rules.specs.Shown.Assignments.{placed_of};
ghost use Rattle.ac_find.specs.Details.{choice_detail, disabled_note, first_had, first_missing, first_unserved, forbidden_detail, forbidden_text, missing_text, none_of_text, part_text, required_detail, root_detail, root_forbidden_detail, root_forbidden_text, traits_detail};

use crate::details::{more_text, told};
use ac_base::{NoMemory, TraitName};
use ac_cloud::Provider;
use ac_query::{AnyOf, Group, Query};
use ac_rules::Placed;
use ac_rules::rules::traits::has_any;
use std::alloc::Global;

/// A trait that is missing.
pub(crate) fn missing_text(alloc: Global, name: &TraitName) -> Result<String, NoMemory>
    ensures { IfOk result (λ text. string_bytes text ≡ missing_text (trait_bytes name.now)) }
{
    let name = name.text();
    Ok(format!(in alloc; "{name} missing")?)
}

fn forbidden_text(alloc: Global, name: &TraitName) -> Result<String, NoMemory>
    ensures { IfOk result (λ text. string_bytes text ≡ forbidden_text (trait_bytes name.now)) }
{
    let name = name.text();
    Ok(format!(in alloc; "{name} forbidden")?)
}

/// Adds a name of a list: each but the first stands behind a comma.
pub(crate) fn push_part(text: &mut String, place: usize, name: &str) -> Result<(), NoMemory>
    ensures { OnOk result (string_bytes text.new
        ≡ string_bytes text.old ++ part_text place name.now) }
{
    if place > 0 {
        text.push(',')?;
    }
    text.push_str(name)?;
    Ok(())
}

// Adds the names of a list, one behind another.
fn push_names(text: &mut String, names: &[TraitName]) -> Result<(), NoMemory>
    ensures { OnOk result (string_bytes text.new ≡ string_bytes text.old
        ++ join_with_byte 44 (map trait_bytes names.now)) }
{
    for (place, name) in names.iter().enumerate() {
        push_part(text, place, name.text())?;
    }
    Ok(())
}

/// Traits of which one is asked: the first of a long list.
#[tactic(auto, unfolding(crate::specs::Details::none_of_text))]
pub(crate) fn none_of_text(alloc: Global, names: &[TraitName]) -> Result<String, NoMemory>
    ensures { IfOk result (λ text. string_bytes text
        ≡ none_of_text (map trait_bytes names.now)) }
{
    let mut text = String::from_str(alloc, "none of ")?;
    push_names(&mut text, told(names))?;
    text.push_str(&more_text(alloc, names.len())?)?;
    Ok(text)
}

// The first of some traits that a provider hasn't.
fn first_missing<'a>(provider: &Provider, names: &'a [TraitName]) -> Option<&'a TraitName>
    ensures { option_map (λ name. trait_bytes name.now) result
        ≡ first_missing (provider_of provider.now) (map trait_bytes names.now) }
{
    names.iter().find(|name| !provider.has_trait(name))
}

// The first of some traits that a provider has.
fn first_had<'a>(provider: &Provider, names: &'a [TraitName]) -> Option<&'a TraitName>
    ensures { option_map (λ name. trait_bytes name.now) result
        ≡ first_had (provider_of provider.now) (map trait_bytes names.now) }
{
    names.iter().find(|name| provider.has_trait(name))
}

// The first of some lists none of whose traits a provider has.
fn first_unserved<'a>(provider: &Provider, lists: &'a [AnyOf]) -> Option<&'a AnyOf>
    ensures { option_map (λ list. any_of_shown list.now) result
        ≡ first_unserved (provider_of provider.now) (map any_of_shown lists.now) }
{
    lists.iter().find(|list| !has_any(provider, list.names()))
}

fn forbidden_detail(alloc: Global, provider: &Provider, group: &Group) -> Result<String, NoMemory>
    ensures { IfOk result (λ text. string_bytes text ≡ forbidden_detail
        (provider_of provider.now) (group_asked group.now)) }
{
    match first_had(provider, group.forbidden()) {
        Some(name) => forbidden_text(alloc, name),
        None => Ok(String::new(alloc)),
    }
}

fn choice_detail(alloc: Global, provider: &Provider, group: &Group) -> Result<String, NoMemory>
    ensures { IfOk result (λ text. string_bytes text ≡ choice_detail
        (provider_of provider.now) (group_asked group.now)) }
{
    match first_unserved(provider, group.any_of()) {
        Some(list) => none_of_text(alloc, list.names()),
        None => forbidden_detail(alloc, provider, group),
    }
}

fn required_detail(alloc: Global, provider: &Provider, group: &Group) -> Result<String, NoMemory>
    ensures { IfOk result (λ text. string_bytes text ≡ required_detail
        (provider_of provider.now) (group_asked group.now)) }
{
    match first_missing(provider, group.required()) {
        Some(name) => missing_text(alloc, name),
        None => choice_detail(alloc, provider, group),
    }
}

/// What is wrong with the provider's traits: in a suffixed group first what it requires; then, in each group, what it forbids.
pub fn traits_detail(alloc: Global, placed: &Placed) -> Result<String, NoMemory>
    ensures { IfOk result (λ text. string_bytes text ≡ traits_detail
        (provider_at (providers_of placed.now.cloud.now) placed.now.provider)
        (placed_of placed.now).slot.suffix (placed_of placed.now).slot.group) }
{
    let group = placed.group();
    if group.suffix().is_some() {
        required_detail(alloc, &placed.its_provider(), group)
    } else {
        forbidden_detail(alloc, &placed.its_provider(), group)
    }
}

// A host that is disabled has a trait of its own.
fn disabled_note(name: &str) -> &'static str
    ensures { result.now ≡ disabled_note name.now }
{
    match name {
        "COMPUTE_STATUS_DISABLED" => ": the host is disabled",
        _ => "",
    }
}

fn root_forbidden_text(alloc: Global, name: &TraitName) -> Result<String, NoMemory>
    ensures { IfOk result (λ text. string_bytes text
        ≡ root_forbidden_text (trait_bytes name.now)) }
{
    let name = name.text();
    let note = disabled_note(name);
    Ok(format!(in alloc; "{name} forbidden{note}")?)
}

fn root_forbidden_detail(alloc: Global, root: &Provider, query: &Query) -> Result<String, NoMemory>
    ensures { IfOk result (λ text. string_bytes text ≡ root_forbidden_detail
        (provider_of root.now) (asked_of query.now)) }
{
    match first_had(root, query.root_forbidden()) {
        Some(name) => root_forbidden_text(alloc, name),
        None => Ok(String::new(alloc)),
    }
}

/// What is wrong with the traits of a root: the first required one that it hasn't, else the first forbidden one that it has.
pub fn root_detail(alloc: Global, root: &Provider, query: &Query) -> Result<String, NoMemory>
    ensures { IfOk result (λ text. string_bytes text ≡ root_detail
        (provider_of root.now) (asked_of query.now)) }
{
    match first_missing(root, query.root_required()) {
        Some(name) => missing_text(alloc, name),
        None => root_forbidden_detail(alloc, root, query),
    }
}
