//! The allocation request of a candidate, as JSON.

mod parts;
mod serialize;

ghost use Rattle.std.specs.Prelude.{◌≡◌, IfOk, string_bytes};
ghost use Rattle.ac_query.specs.Laws.InOrder.{group_name};
ghost use Rattle.ac_query.specs.Shown.Groups.{group_entry};
ghost use Rattle.ac_query.specs.Shown.Queries.{asked_of};
ghost use Rattle.ac_rules.specs.Placed.{assigned};
ghost use Rattle.ac_cloud.specs.Cloud.CloudWorld.{providers_of};
ghost use Rattle.ac_report.specs.Pages.{IsAssignment};
ghost use Rattle.ac_report.specs.Requests.{allocations_tree, mappings_tree};
ghost use Rattle.ac_report.specs.Trees.{allocations, mappings};
ghost use Rattle.ac_report.specs.Texts.{request_text};

use crate::amounts::{all_hosts, classes_on, hosts_of};
use ac_base::NoMemory;
use ac_cloud::Cloud;
use ac_query::{Group, Query};
use parts::{Allocation, Hosts, Request};
use std::alloc::{AllocError, Global};
use std::collections::BTreeMap;

/// The suffix of a group; the one without has the empty text. Requests name the groups so in `mappings`.
pub fn suffix_text(group: &Group) -> &str
    ensures { result.now ≡ group_name (group_entry group.now) }
{
    match group.suffix() {
        Some(suffix) => suffix.text(),
        None => "",
    }
}

// What is taken of each provider of which something is needed.
fn allocations_of<'a>(
    alloc: Global,
    cloud: &Cloud,
    query: &'a Query,
    list: &'a [u32],
) -> Result<Vec<Allocation<'a>>, AllocError>
    requires { IsAssignment (providers_of cloud.now) (asked_of query.now) list.now }
    ensures { IfOk result (λ v. allocations_tree v.items
        ≡ allocations (providers_of cloud.now) (assigned (asked_of query.now) list.now)
        list.now) }
{
    let mut allocations = Vec::new(alloc);
    for provider in &all_hosts(alloc, list)? {
        let classes = classes_on(alloc, query, list, *provider)?;
        if classes.is_empty() {
            continue;
        }
        allocations.push(Allocation {
            query,
            list,
            provider: *provider,
            id: cloud.id(*provider),
            classes,
        })?;
    }
    Ok(allocations)
}

// Each group's suffix, and the providers of its slots.
fn mappings_of<'a>(
    alloc: Global,
    cloud: &'a Cloud,
    query: &'a Query,
    list: &[u32],
) -> Result<BTreeMap<&'a str, Hosts<'a>>, AllocError>
    requires { IsAssignment (providers_of cloud.now) (asked_of query.now) list.now }
    ensures { IfOk result (λ m. mappings_tree m.entries
        ≡ mappings (providers_of cloud.now) (asked_of query.now)
        (assigned (asked_of query.now) list.now)) }
{
    let mut members = BTreeMap::new(alloc);
    for (place, group) in query.groups().iter().enumerate() {
        let places = hosts_of(alloc, query, list, place)?;
        drop(members.insert(suffix_text(group), Hosts { cloud, places })?);
    }
    Ok(members)
}

/// The allocation request of a list of one provider for each slot, as compact JSON: what is taken of each provider, and the providers of each group.
pub fn request_text(
    alloc: Global,
    cloud: &Cloud,
    query: &Query,
    list: &[u32],
) -> Result<String, NoMemory>
    requires { IsAssignment (providers_of cloud.now) (asked_of query.now) list.now }
    ensures { IfOk result (λ s. string_bytes s
        ≡ request_text (providers_of cloud.now) (asked_of query.now) list.now) }
{
    let allocations = allocations_of(alloc, cloud, query, list)?;
    let mappings = mappings_of(alloc, cloud, query, list)?;
    // Each text and each whole number can be written as JSON, so only memory can be wanting.
    match serde_json::to_string(
        alloc,
        &Request {
            allocations,
            mappings,
        },
    ) {
        Ok(text) => Ok(text),
        Err(_) => Err(NoMemory),
    }
}
