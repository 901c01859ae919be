//! Where the running service may answer otherwise: a line for each difference that may show.
ghost use Rattle.std.specs.Prelude.{◌≡◌, ◌++◌, IfOk, OnOk};
ghost use Rattle.ac_cloud.specs.Cloud.CloudWorld.{providers_of};
ghost use Rattle.ac_query.specs.Shown.Queries.{asked_of};
ghost use Rattle.ac_report.specs.Findings.Explanation.Differing.{adds, advice, differs_line, differs_lines, heading, may_show};

use ac_base::NoMemory;
use ac_cloud::Cloud;
use ac_find::{Difference, all_differences, applies};
use ac_query::Query;
use std::alloc::{AllocError, Global};

// The heading of docs/DIFFERENCES.md that a difference stands under.
#[tactic(auto, unfolding(crate::specs::Findings::Explanation::Differing::heading))]
fn heading(difference: Difference) -> &'static [u8]
    ensures { result.now ≡ heading difference }
{
    match difference {
        Difference::AmountsOfTwoGroups => b"amounts of two groups are mixed up",
        Difference::SharedDiskForOneTree => b"a shared disk for only one tree",
        Difference::SharingProviderWithParent => b"status 500 if the sharing provider has a parent",
        Difference::GroupThatOnlyForbids => b"a group that only forbids",
        Difference::TreeWithoutResources => b"the tree of a group without resources",
        Difference::PolicyNeeded => b"when a policy is needed",
        Difference::ConflictingTraits => b"a trait that is required and forbidden",
        Difference::IsolateWithoutResources => b"isolate and groups without resources",
        Difference::TwoMemberOf => b"two member_of, one met by the provider and one by its root",
        Difference::ForbiddenAggregateOfAnotherTree => b"a forbidden aggregate of another tree",
        Difference::MemberOfBelowRoot => b"member_of and a sharing provider below a root",
        Difference::InTreeAndSharing => b"in_tree and sharing",
        Difference::FloatingPoint => b"capacities in floating point",
        Difference::TreeOutsideSummaries => b"summaries of a tree that gives no resources",
    }
}

// What the service does otherwise, and what to do about it.
#[tactic(auto, unfolding(crate::specs::Findings::Explanation::Differing::advice))]
fn advice(difference: Difference) -> &'static [u8]
    ensures { result.now ≡ advice difference }
{
    match difference {
        Difference::AmountsOfTwoGroups => {
            b"the service gives wrong amounts and loses candidates; ask with group_policy=none, or for each class in one group"
        }
        Difference::SharedDiskForOneTree => {
            b"the service looks for the granular groups in one tree alone; ask for what is shared in a granular group, too"
        }
        Difference::SharingProviderWithParent => {
            b"the service fails with status 500; let the sharing provider be a root"
        }
        Difference::GroupThatOnlyForbids => {
            b"the service finds no provider for it; require a trait in it, or leave it out"
        }
        Difference::TreeWithoutResources => {
            b"the service ignores its in_tree; name the tree in a group with resources"
        }
        Difference::PolicyNeeded => {
            b"the service refuses the query with status 400; add group_policy"
        }
        Difference::ConflictingTraits => {
            b"the service refuses the query with status 400; leave one of them out"
        }
        Difference::IsolateWithoutResources => {
            b"the service wants a provider of its own for each group; ask with group_policy=none"
        }
        Difference::TwoMemberOf => {
            b"the service wants one of them to meet both; add the provider to both aggregates"
        }
        Difference::ForbiddenAggregateOfAnotherTree => {
            b"the service looks at the root of the tree that uses the provider; forbid it in a granular group"
        }
        Difference::MemberOfBelowRoot => {
            b"the service wants the sharing provider itself in the aggregate; add it there"
        }
        Difference::InTreeAndSharing => {
            b"the service lets the provider serve only its own tree; name the tree in a granular group"
        }
        Difference::FloatingPoint => {
            b"the service computes another capacity; choose a ratio in quarters, as 8.25"
        }
        Difference::TreeOutsideSummaries => {
            b"the service leaves that tree out of provider_summaries; look it up in /resource_providers"
        }
    }
}

// Adds the line of a difference.
#[tactic(auto, unfolding(crate::specs::Findings::Explanation::Differing::differs_line))]
fn add_line(text: &mut Vec<u8>, difference: Difference) -> Result<(), AllocError>
    ensures { OnOk result (text.new.items ≡ text.old.items ++ differs_line difference) }
{
    text.extend_from_slice(b"differs: ")?;
    text.extend_from_slice(heading(difference))?;
    text.extend_from_slice(b": ")?;
    text.extend_from_slice(advice(difference))?;
    text.extend_from_slice(b" (docs/DIFFERENCES.md)\n")
}

// Whether a difference adds candidates, or the service refuses the query or fails. All others take away.
fn adds(difference: Difference) -> bool
    ensures { result ≡ adds difference }
{
    matches!(
        difference,
        Difference::SharingProviderWithParent
            | Difference::TreeWithoutResources
            | Difference::PolicyNeeded
            | Difference::ConflictingTraits
    )
}

// Whether a difference may show, by whether there is a candidate.
fn may_show(
    alloc: Global,
    cloud: &Cloud,
    query: &Query,
    found: bool,
    difference: Difference,
) -> Result<bool, NoMemory>
    ensures { IfOk result (λ shows.
        shows ≡ may_show (providers_of cloud.now) (asked_of query.now) found difference) }
{
    if !found && !adds(difference) {
        return Ok(false);
    }
    applies(alloc, cloud, query, difference)
}

/// A line for each difference that may show in what the service answers to a query over a cloud, by whether there is a candidate.
pub fn differences_text(
    alloc: Global,
    cloud: &Cloud,
    query: &Query,
    found: bool,
) -> Result<Vec<u8>, NoMemory>
    ensures { IfOk result (λ text. text.items
        ≡ differs_lines (providers_of cloud.now) (asked_of query.now) found) }
{
    let mut text = Vec::new(alloc);
    for difference in all_differences() {
        if may_show(alloc, cloud, query, found, *difference)? {
            add_line(&mut text, *difference)?;
        }
    }
    Ok(text)
}
