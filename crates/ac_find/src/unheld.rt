//! What the group without a suffix requires, and no provider that its slots may have holds at a root.
ghost use Rattle.std.specs.Prelude.{◌≡◌, ◌<◌, ◌&&◌, IfOk, length, map, string_bytes};
ghost use Rattle.std.specs.List.Sorted.{IsStrictlySortedBy};
ghost use Rattle.std.specs.Option.{option_map};
ghost use Rattle.ac_base.specs.Names.{trait_bytes};
ghost use Rattle.ac_base.specs.Texts.{text_cmp};
ghost use Rattle.ac_cloud.specs.World.{has_trait, provider_at};
ghost use Rattle.ac_cloud.specs.Cloud.CloudWorld.{providers_of};
ghost use Rattle.ac_query.specs.Shown.Groups.{any_of_shown, group_asked, group_entry};
ghost use Rattle.ac_query.specs.Shown.Queries.{asked_of};
ghost use Rattle.ac_find.specs.Explained.{is_held, is_one_held, serves_unsuffixed};
ghost use Rattle.ac_find.specs.Unheld.{first_unheld, first_unheld_list, unheld_detail, unheld_group_detail, unheld_list_detail, unsuffixed_group};

pub(crate) mod of_roots;

use crate::counts::required::Unsuffixed;
use crate::details::traits::{missing_text, none_of_text};
use ac_base::{NoMemory, TraitName};
use ac_cloud::Cloud;
use ac_query::{AnyOf, Group, Query};
use std::alloc::Global;

// Whether a provider serves a slot of the group, and has a trait.
fn holds(serving: &Unsuffixed, ix: u32, name: &TraitName) -> bool
    requires { ix < length (providers_of serving.now.cloud.now) }
    ensures { result
        ≡ (serves_unsuffixed (providers_of serving.now.cloud.now) (asked_of serving.now.query.now)
        ix && has_trait (provider_at (providers_of serving.now.cloud.now) ix)
        (trait_bytes name.now)) }
{
    serving.has(ix) && serving.cloud.provider(ix).has_trait(name)
}

// Whether a trait is held at a root by one of the providers that serve a slot of the group.
fn is_held(serving: &Unsuffixed, root: u32, name: &TraitName) -> bool
    requires { root < length (providers_of serving.now.cloud.now) }
    ensures { result ≡ is_held (providers_of serving.now.cloud.now)
        (asked_of serving.now.query.now) root (trait_bytes name.now) }
{
    let cloud = serving.cloud;
    (0..cloud.len()).any(|ix| cloud.available(ix, root) && holds(serving, ix, name))
}

// Whether one of these traits, which rise, is held there.
fn is_one_held(serving: &Unsuffixed, root: u32, names: &[TraitName]) -> bool
    requires root { root < length (providers_of serving.now.cloud.now) }
    requires rising { IsStrictlySortedBy text_cmp (map trait_bytes names.now) }
    ensures { result ≡ is_one_held (providers_of serving.now.cloud.now)
        (asked_of serving.now.query.now) root (map trait_bytes names.now) }
{
    let cloud = serving.cloud;
    (0..cloud.len()).any(|ix| cloud.available(ix, root) && serving.holds(ix, names))
}

// The first of some traits that isn't held.
fn first_unheld<'a>(
    serving: &Unsuffixed,
    root: u32,
    names: &'a [TraitName],
) -> Option<&'a TraitName>
    requires { root < length (providers_of serving.now.cloud.now) }
    ensures { option_map (λ name. trait_bytes name.now) result
        ≡ first_unheld (providers_of serving.now.cloud.now) (asked_of serving.now.query.now) root
        (map trait_bytes names.now) }
{
    names.iter().find(|name| !is_held(serving, root, name))
}

// The first of some lists of which no trait is held.
fn first_unheld_list<'a>(serving: &Unsuffixed, root: u32, lists: &'a [AnyOf]) -> Option<&'a AnyOf>
    requires { root < length (providers_of serving.now.cloud.now) }
    ensures { option_map (λ list. any_of_shown list.now) result
        ≡ first_unheld_list (providers_of serving.now.cloud.now) (asked_of serving.now.query.now)
        root (map any_of_shown lists.now) }
{
    lists
        .iter()
        .find(|list| !is_one_held(serving, root, list.names()))
}

fn unheld_list_detail(
    alloc: Global,
    serving: &Unsuffixed,
    root: u32,
    group: &Group,
) -> Result<String, NoMemory>
    requires { root < length (providers_of serving.now.cloud.now) }
    ensures { IfOk result (λ text. string_bytes text
        ≡ unheld_list_detail (providers_of serving.now.cloud.now) (asked_of serving.now.query.now)
        root (group_asked group.now)) }
{
    match first_unheld_list(serving, root, group.any_of()) {
        Some(list) => none_of_text(alloc, list.names()),
        None => Ok(String::new(alloc)),
    }
}

fn unheld_group_detail(
    alloc: Global,
    serving: &Unsuffixed,
    root: u32,
    group: &Group,
) -> Result<String, NoMemory>
    requires { root < length (providers_of serving.now.cloud.now) }
    ensures { IfOk result (λ text. string_bytes text
        ≡ unheld_group_detail (providers_of serving.now.cloud.now) (asked_of serving.now.query.now)
        root (group_asked group.now)) }
{
    match first_unheld(serving, root, group.required()) {
        Some(name) => missing_text(alloc, name),
        None => unheld_list_detail(alloc, serving, root, group),
    }
}

// The group without a suffix, where there is one.
fn unsuffixed_group(query: &Query) -> Option<&Group>
    ensures { option_map (λ group. group_entry group.now) result
        ≡ unsuffixed_group (asked_of query.now) }
{
    query.groups().iter().find(|group| group.suffix().is_none())
}

/// Of what the group without a suffix requires the first trait that isn't held at a root, else the first list of which none is.
pub fn unheld_detail(
    alloc: Global,
    cloud: &Cloud,
    query: &Query,
    root: u32,
) -> Result<String, NoMemory>
    requires { root < length (providers_of cloud.now) }
    ensures { IfOk result (λ text. string_bytes text
        ≡ unheld_detail (providers_of cloud.now) (asked_of query.now) root) }
{
    let serving = Unsuffixed::new(alloc, cloud, query)?;
    match unsuffixed_group(query) {
        Some(group) => unheld_group_detail(alloc, &serving, root, group),
        None => Ok(String::new(alloc)),
    }
}
