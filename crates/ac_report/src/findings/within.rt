//! Which roots are told: all, or those of an aggregate; and of these all, or those that fit.
ghost use Rattle.std.specs.Prelude.{◌≡◌, ◌<◌, ◌^◌, ◌&&◌, IfOk, None, Some, false, length, map, slice_index_or};
ghost use Rattle.std.specs.List.{All, filter, range_with_len};
ghost use Rattle.ac_cloud.specs.World.{id_at, is_member, is_root};
ghost use Rattle.ac_cloud.specs.Cloud.CloudWorld.{providers_of};
ghost use Rattle.ac_prune.specs.Fitting.{fits_at, fitting};
ghost use Rattle.ac_query.specs.Shown.Queries.{asked_of};
ghost use Rattle.ac_report.specs.Findings.HostRows.{is_within, members_of, roots_told, roots_within};

use crate::page::mark_roots;
use ac_base::NoMemory;
use ac_cloud::Cloud;
use ac_find::is_member;
use ac_query::Query;
use std::alloc::Global;

// The providers that are members of an aggregate.
fn members_of(alloc: Global, cloud: &Cloud, aggregate: u128) -> Result<Vec<u32>, NoMemory>
    ensures { IfOk result (λ members.
        members.items ≡ members_of (providers_of cloud.now) aggregate) }
{
    let members = (0..cloud.len()).filter(|ix| is_member(&cloud.provider(*ix), aggregate));
    Ok(members.collect(alloc)?)
}

// Each provider is marked.
fn mark_all(alloc: Global, cloud: &Cloud) -> Result<Vec<bool>, NoMemory>
    ensures { IfOk result (λ marks. marks.items ≡ map (is_within (providers_of cloud.now) None)
        (range_with_len 0 (length (providers_of cloud.now)))) }
{
    Ok(vec![in alloc; true; cloud.len() as usize]?)
}

// Those are marked that are roots of an aggregate.
fn mark_roots_of(alloc: Global, cloud: &Cloud, aggregate: u128) -> Result<Vec<bool>, NoMemory>
    ensures { IfOk result (λ marks. marks.items
        ≡ map (is_within (providers_of cloud.now) (Some aggregate))
        (range_with_len 0 (length (providers_of cloud.now)))) }
{
    let members = members_of(alloc, cloud, aggregate)?;
    let mut marks = vec![in alloc; false; cloud.len() as usize]?;
    mark_roots(cloud, &members, &mut marks);
    Ok(marks)
}

// Which providers are told, if they are roots.
fn mark_within(alloc: Global, cloud: &Cloud, within: Option<u128>) -> Result<Vec<bool>, NoMemory>
    ensures { IfOk result (λ marks. marks.items ≡ map (is_within (providers_of cloud.now) within)
        (range_with_len 0 (length (providers_of cloud.now)))) }
{
    match within {
        Some(aggregate) => mark_roots_of(alloc, cloud, aggregate),
        None => mark_all(alloc, cloud),
    }
}

// Whether a provider is a root, and is marked.
fn is_marked_root(cloud: &Cloud, marks: &[bool], ix: u32) -> bool
    requires provider { ix < length (providers_of cloud.now) }
    requires marks { length marks.now ≡ length (providers_of cloud.now) }
    ensures { result ≡ (is_root (providers_of cloud.now) (id_at (providers_of cloud.now) ix)
        && slice_index_or marks.now ix false) }
{
    cloud.available(ix, ix) && marks[ix as usize]
}

/// The roots that are told, in the order of their UUIDs: all, or those of an aggregate.
pub(super) fn roots_within(
    alloc: Global,
    cloud: &Cloud,
    within: Option<u128>,
) -> Result<Vec<u32>, NoMemory>
    ensures roots { IfOk result (λ roots.
        roots.items ≡ roots_within (providers_of cloud.now) within) }
    ensures below { IfOk result (λ roots.
        All (λ r. r < length (providers_of cloud.now)) roots.items) }
    ensures few { IfOk result (λ roots. length roots.items < 2 ^ 32) }
{
    let marks = mark_within(alloc, cloud, within)?;
    let mut roots = Vec::new(alloc);
    for root in 0..cloud.len() {
        if is_marked_root(cloud, &marks, root) {
            roots.push(root)?;
        }
    }
    Ok(roots)
}

// Whether a root fits, by which of all do.
fn is_fitting(cloud: &Cloud, query: &Query, fits: &[bool], root: u32) -> bool
    requires root { root < length (providers_of cloud.now) }
    requires fits { fits.now ≡ fitting (providers_of cloud.now) (asked_of query.now) }
    ensures { result ≡ fits_at (providers_of cloud.now) (asked_of query.now) root }
{
    fits[root as usize]
}

// Those of some roots that fit.
fn fitting_of(
    alloc: Global,
    cloud: &Cloud,
    query: &Query,
    roots: &[u32],
    fits: &[bool],
) -> Result<Vec<u32>, NoMemory>
    requires roots { All (λ r. r < length (providers_of cloud.now)) roots.now }
    requires fits { fits.now ≡ fitting (providers_of cloud.now) (asked_of query.now) }
    ensures { IfOk result (λ kept. kept.items
        ≡ filter (fits_at (providers_of cloud.now) (asked_of query.now)) roots.now) }
{
    let mut kept = Vec::new(alloc);
    for root in roots {
        if is_fitting(cloud, query, fits, *root) {
            kept.push(*root)?;
        }
    }
    Ok(kept)
}

/// The roots that are told, in the order of their UUIDs: all, or those of an aggregate; and of these those alone that fit, where only they are asked for.
pub(super) fn roots_told(
    alloc: Global,
    cloud: &Cloud,
    query: &Query,
    only_fitting: bool,
    within: Option<u128>,
    fits: &[bool],
) -> Result<Vec<u32>, NoMemory>
    requires fits { fits.now ≡ fitting (providers_of cloud.now) (asked_of query.now) }
    ensures roots { IfOk result (λ roots. roots.items
        ≡ roots_told (providers_of cloud.now) (asked_of query.now) only_fitting within) }
    ensures below { IfOk result (λ roots.
        All (λ r. r < length (providers_of cloud.now)) roots.items) }
    ensures few { IfOk result (λ roots. length roots.items < 2 ^ 32) }
{
    let roots = roots_within(alloc, cloud, within)?;
    if only_fitting {
        fitting_of(alloc, cloud, query, &roots, fits)
    } else {
        Ok(roots)
    }
}
