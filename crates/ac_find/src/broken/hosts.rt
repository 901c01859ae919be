//! A list of `same_subtree` without a provider above all of it, and the root in whose tree all are available.
ghost use Rattle.std.specs.Prelude.{◌≡◌, ◌<◌, ◌&&◌, IfOk, IfSome, [], get_or, length, string_bytes};
ghost use Rattle.std.specs.Option.{option_map};
ghost use Rattle.ac_cloud.specs.World.{id_at, is_root};
ghost use Rattle.ac_cloud.specs.Cloud.CloudWorld.{providers_of};
ghost use Rattle.ac_query.specs.Shown.{suffixes_shown};
ghost use Rattle.ac_query.specs.Shown.Queries.{asked_of};
ghost use Rattle.ac_rules.specs.Shown.Assignments.{assigned_of};
ghost use Rattle.ac_rules.specs.Together.{hosts_all};
ghost use Rattle.ac_find.specs.Broken.{anchor_detail, first_host, first_topless, host_text, subtree_detail, subtree_text};

use super::id_text;
use crate::details::root_detail;
use crate::details::traits::push_part;
use ac_base::{NoMemory, Suffix};
use ac_cloud::Provider;
use ac_query::Query;
use ac_rules::Assignment;
use std::alloc::Global;
use std::collections::BTreeSet;

// The first list of `same_subtree` none of whose providers is above all of them.
fn first_topless(assignment: &Assignment) -> Option<usize>
    ensures first { option_map (λ k. get_or (asked_of assignment.now.query.now).subtrees k [])
        result ≡ first_topless (providers_of assignment.now.cloud.now)
        (asked_of assignment.now.query.now) (assigned_of assignment.now) }
    ensures inside { IfSome result (λ k.
        k < length (asked_of assignment.now.query.now).subtrees) }
{
    (0..assignment.query.subtrees().len()).find(|k| !assignment.has_top(*k))
}

// A list as the query writes it.
#[tactic(auto, unfolding(crate::specs::Broken::subtree_text))]
fn subtree_text(alloc: Global, suffixes: &BTreeSet<Suffix>) -> Result<String, NoMemory>
    ensures { IfOk result (λ text. string_bytes text
        ≡ subtree_text (suffixes_shown suffixes.now)) }
{
    // Called for what it ensures: there are few enough to be counted.
    let _count = suffixes.len();
    let mut text = String::from_str(alloc, "same_subtree=")?;
    for (place, suffix) in suffixes.iter().enumerate() {
        push_part(&mut text, place, suffix.text())?;
    }
    Ok(text)
}

/// The first list of `same_subtree` none of whose providers is above all of them.
pub(crate) fn subtree_detail(alloc: Global, assignment: &Assignment) -> Result<String, NoMemory>
    ensures { IfOk result (λ text. string_bytes text
        ≡ subtree_detail (providers_of assignment.now.cloud.now)
        (asked_of assignment.now.query.now) (assigned_of assignment.now)) }
{
    match first_topless(assignment) {
        Some(k) => subtree_text(alloc, &assignment.query.subtrees()[k]),
        None => Ok(String::new(alloc)),
    }
}

// Whether a provider is a root in whose tree every provider is available.
#[tactic(auto, using(ac_cloud::proofs::Roots::available_itself, ac_rules::proofs::EachSlot::AnchorLemmas::hosts_list))]
fn hosts_all(assignment: &Assignment, root: u32) -> bool
    requires { root < length (providers_of assignment.now.cloud.now) }
    ensures { result
        ≡ (is_root (providers_of assignment.now.cloud.now)
        (id_at (providers_of assignment.now.cloud.now) root)
        && hosts_all (providers_of assignment.now.cloud.now) (assigned_of assignment.now) root) }
{
    assignment.cloud.available(root, root) && assignment.is_available_at(root)
}

// The first root in whose tree every provider is available.
fn first_host(assignment: &Assignment) -> Option<u32>
    ensures first { result ≡ first_host (providers_of assignment.now.cloud.now)
        (assigned_of assignment.now) }
    ensures inside { IfSome result (λ root.
        root < length (providers_of assignment.now.cloud.now)) }
{
    (0..assignment.cloud.len()).find(|root| hosts_all(assignment, *root))
}

// A root, and what the query asks of it.
#[tactic(auto, unfolding(crate::specs::Broken::host_text))]
fn host_text(alloc: Global, root: &Provider, query: &Query) -> Result<String, NoMemory>
    ensures { IfOk result (λ text. string_bytes text
        ≡ host_text (providers_of root.now.cloud.now) (asked_of query.now) root.now.ix) }
{
    let id = id_text(alloc, root)?;
    let detail = root_detail(alloc, root, query)?;
    Ok(format!(in alloc; "on {id}, {detail}")?)
}

/// What the query asks of the first root in whose tree every provider is available, or that there is none.
pub(crate) fn anchor_detail(alloc: Global, assignment: &Assignment) -> Result<String, NoMemory>
    ensures { IfOk result (λ text. string_bytes text
        ≡ anchor_detail (providers_of assignment.now.cloud.now)
        (asked_of assignment.now.query.now) (assigned_of assignment.now)) }
{
    match first_host(assignment) {
        Some(ix) => {
            let root = Provider {
                cloud: assignment.cloud,
                ix,
            };
            host_text(alloc, &root, assignment.query)
        }
        None => Ok(String::from_str(alloc, "no root gives all of them")?),
    }
}
