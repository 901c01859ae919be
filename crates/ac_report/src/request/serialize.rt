//! An allocation request as JSON, part by part.
ghost use Rattle.std.specs.Prelude.{OnOk};
ghost use Rattle.serde_json.specs.Events.{SendsValue};
ghost use Rattle.ac_report.specs.Requests.{allocation_tree, allocations_tree, hosts_tree, mappings_tree, request_tree, resources_tree};

use super::parts::{Allocation, Hosts, Request};
use crate::amounts::sum_on;
use crate::ids::{send_id, send_name};
use serde::{Described, Serialize, Serializer};
use std::collections::BTreeMap;

// The classes that are needed of a provider, each with all that is needed of it.
fn send_resources<S: Serializer>(allocation: &Allocation<'_>, out: &mut S) -> Result<(), S::Error>
    ensures { OnOk result (SendsValue (resources_tree allocation.now)
        (S.written out.old) (S.written out.new)) }
{
    out.begin_map(Some(allocation.classes.len()))?;
    for class in &allocation.classes {
        out.key(class)?;
        out.u64(sum_on(
            allocation.query,
            allocation.list,
            allocation.provider,
            class,
        ))?;
    }
    out.end_map()
}

// What is taken of a provider.
#[tactic(auto, unfolding(crate::specs::Requests::allocation_tree))]
fn send_allocation<S: Serializer>(allocation: &Allocation<'_>, out: &mut S) -> Result<(), S::Error>
    ensures { OnOk result (SendsValue (allocation_tree allocation.now)
        (S.written out.old) (S.written out.new)) }
{
    out.begin_map(Some(1))?;
    out.key("resources")?;
    send_resources(allocation, out)?;
    out.end_map()
}

// What is taken of each provider, by its id.
fn send_allocations<S: Serializer>(
    allocations: &[Allocation<'_>],
    out: &mut S,
) -> Result<(), S::Error>
    ensures { OnOk result (SendsValue (allocations_tree allocations.now)
        (S.written out.old) (S.written out.new)) }
{
    out.begin_map(Some(allocations.len()))?;
    for allocation in allocations {
        send_name(allocation.id, out)?;
        send_allocation(allocation, out)?;
    }
    out.end_map()
}

// The ids of the providers of a group.
fn send_hosts<S: Serializer>(hosts: &Hosts<'_>, out: &mut S) -> Result<(), S::Error>
    ensures { OnOk result (SendsValue (hosts_tree hosts.now)
        (S.written out.old) (S.written out.new)) }
{
    out.begin_seq(Some(hosts.places.len()))?;
    for ix in &hosts.places {
        send_id(hosts.cloud.id(*ix), out)?;
    }
    out.end_seq()
}

// The ids of the providers of each group, by its suffix.
fn send_mappings<S: Serializer>(
    mappings: &BTreeMap<&str, Hosts<'_>>,
    out: &mut S,
) -> Result<(), S::Error>
    ensures { OnOk result (SendsValue (mappings_tree mappings.now.entries)
        (S.written out.old) (S.written out.new)) }
{
    out.begin_map(Some(mappings.len()))?;
    for (name, hosts) in mappings {
        out.key(name)?;
        send_hosts(hosts, out)?;
    }
    out.end_map()
}

impl<'a> Described for Request<'a> {
    ghost writes = { λ r. SendsValue (request_tree r) };
}

impl<'a> Serialize for Request<'a> {
    #[tactic(auto, unfolding(crate::specs::Requests::request_tree))]
    fn serialize<S: Serializer>(&self, out: &mut S) -> Result<(), S::Error> {
        out.begin_map(Some(2))?;
        out.key("allocations")?;
        send_allocations(&self.allocations, out)?;
        out.key("mappings")?;
        send_mappings(&self.mappings, out)?;
        out.end_map()
    }
}
