//! The roots at which candidates stand: one walk, which leaves each root with the first candidate there.
ghost use Rattle.std.specs.Prelude.{◌≡◌, ◌==◌, ◌<◌, length, map, Err, None, IfOk, OnErr, OnOk};
ghost use Rattle.std.specs.List.{range_with_len};
ghost use Rattle.ac_cloud.specs.Cloud.CloudWorld.{providers_of};
ghost use Rattle.ac_query.specs.Shown.Queries.{asked_of};
ghost use Rattle.ac_prune.specs.Fitting.{fits_at, fitting};
ghost use Rattle.ac_search.specs.Shown.Hosts.{Settles, IsSettled};
ghost use Rattle.ac_search.specs.Shown.Walk.{cloud_in, query_in, may_stop, MayStop};
ghost use Rattle.ac_search.specs.declared.fault.SearchFault.TheVariants as fault;

use crate::fault::SearchFault;
use crate::walk::Walk;
use ac_base::NoMemory;
use ac_cloud::Cloud;
use ac_prune::taken_roots;
use ac_query::Query;
use ac_rules::TooManyTries;
use ac_rules::rules::anchor::takes_root;
use std::alloc::Global;

// Goes through the candidates that stand at a root that is looked at, until there is no such root, or none is left.
fn settle(walk: &mut Walk) -> Result<(), TooManyTries>
    requires { Settles walk.old }
    ensures cloud { OnOk result (cloud_in walk.new ≡ cloud_in walk.old) }
    ensures query { OnOk result (query_in walk.new ≡ query_in walk.old) }
    ensures settled { OnOk result (IsSettled walk.new) }
    ensures stopped { OnErr result (may_stop walk.old) }
{
    let mut first = 0;
    'candidates: loop {
        let given = walk.advance()?;
        if !given {
            return Ok(());
        }
        walk.leave_roots();
        walk.leave_path();
        match walk.next_root(first) {
            Some(root) => first = root,
            None => return Ok(()),
        }
    }
}

// One root alone, marked among all providers.
fn mark_alone(alloc: Global, cloud: &Cloud, root: u32) -> Result<Vec<bool>, NoMemory>
    ensures { IfOk result (λ marks. marks.items
        ≡ map (λ ix. ix == root) (range_with_len 0 (length (providers_of cloud.now)))) }
{
    let marks = (0..cloud.len()).map(|ix| ix == root);
    Ok(marks.collect(alloc)?)
}

/// Whether a root fits: the query takes it, and all providers of some candidate are available in its tree. The search looks at no other root,
/// and stops where it may make no more tries.
pub fn fits_root(
    alloc: Global,
    cloud: &Cloud,
    query: &Query,
    root: u32,
    tries: Option<u64>,
) -> Result<bool, SearchFault>
    requires { root < length (providers_of cloud.now) }
    ensures fits { IfOk result (λ fits.
        fits ≡ fits_at (providers_of cloud.now) (asked_of query.now) root) }
    ensures stopped { result ≡ Err fault.TooManyTries
        → MayStop tries (providers_of cloud.now) (asked_of query.now) None }
{
    if !takes_root(cloud, query, root) {
        return Ok(false);
    }
    let roots = mark_alone(alloc, cloud, root)?;
    let mut walk = Walk::at_roots(alloc, cloud, query, roots)?.within(tries);
    let fits = walk.advance()?;
    Ok(fits)
}

/// For each provider by its place, whether it is a root that fits: the query takes it, and all providers of some
/// candidate are available in its tree. The search at a root ends with its first candidate, and stops where it may make no more tries.
pub fn fitting_roots(
    alloc: Global,
    cloud: &Cloud,
    query: &Query,
    tries: Option<u64>,
) -> Result<Vec<bool>, SearchFault>
    ensures fits { IfOk result (λ fits.
        fits.items ≡ fitting (providers_of cloud.now) (asked_of query.now)) }
    ensures stopped { result ≡ Err fault.TooManyTries
        → MayStop tries (providers_of cloud.now) (asked_of query.now) None }
{
    let roots = taken_roots(alloc, cloud, query)?;
    let mut walk = Walk::at_roots(alloc, cloud, query, roots)?.within(tries);
    settle(&mut walk)?;
    let mut fits = Vec::new(alloc);
    for root in 0..cloud.len() {
        fits.push(walk.has_left(root))?;
    }
    Ok(fits)
}
