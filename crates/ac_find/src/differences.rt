//! Where the running service may answer otherwise than the rules: the differences of docs/DIFFERENCES.md, and which of them may concern a query.
ghost use Rattle.std.specs.Prelude.{◌≡◌, IfOk};
ghost use Rattle.ac_cloud.specs.Cloud.CloudWorld.{providers_of};
ghost use Rattle.ac_query.specs.Shown.Queries.{asked_of};
ghost use Rattle.ac_find.specs.Service.Differing.{all_differences, applies};

mod asks;
mod below;
mod doubles;
mod fits;
mod mixes;
mod shares;
mod steps;
mod summaries;

use self::asks::{
    has_bare_group, has_contradiction, has_forbidding_group, has_two_suffixes, is_policy_none,
};
use self::below::fails_from_below;
use self::mixes::{has_choice, ignores_a_tree, mixes_classes};
use self::shares::{
    gives_no_resources, lends_beside_forbidden, lends_in_tree, meets_in_halves, shares_whole_group,
    some_lends_by_its_root,
};
use self::steps::computes_otherwise;
use ac_base::NoMemory;
use ac_cloud::Cloud;
use ac_query::Query;
use std::alloc::Global;

/// A way in which Placement 8.0.0 answers otherwise than the rules: a heading of docs/DIFFERENCES.md.
#[derive(Clone, Copy, Debug, PartialEq, Eq)]
pub enum Difference {
    /// The group without a suffix and one with a suffix ask for one class, and their amounts are mixed up.
    AmountsOfTwoGroups,
    /// Sharing providers serve the whole group without a suffix, and the service remembers one of their trees.
    SharedDiskForOneTree,
    /// A sharing provider has a parent, and the service fails with status 500.
    SharingProviderWithParent,
    /// A group without resources only forbids, or only names a tree, and the service finds nobody for it.
    GroupThatOnlyForbids,
    /// The service ignores `in_tree` in a group without resources.
    TreeWithoutResources,
    /// The service refuses two groups with suffixes and no policy.
    PolicyNeeded,
    /// The service refuses a group that forbids what it requires.
    ConflictingTraits,
    /// With `isolate` the service wants a provider of its own for a group without resources.
    IsolateWithoutResources,
    /// Two `member_of` are met by a provider and its root, each by another one.
    TwoMemberOf,
    /// A root is in a forbidden aggregate, and a provider that shares with its tree isn't.
    ForbiddenAggregateOfAnotherTree,
    /// A sharing provider meets `member_of` only by its root.
    MemberOfBelowRoot,
    /// In the group without a suffix, `in_tree` ends sharing.
    InTreeAndSharing,
    /// In floating point a capacity is another.
    FloatingPoint,
    /// The summaries leave out the tree of a provider that gives no resources.
    TreeOutsideSummaries,
}

/// All differences, in the order of the page.
#[tactic(auto, unfolding(crate::specs::Service::Differing::all_differences))]
pub fn all_differences() -> &'static [Difference]
    ensures { result.now ≡ all_differences }
{
    &[
        Difference::AmountsOfTwoGroups,
        Difference::SharedDiskForOneTree,
        Difference::SharingProviderWithParent,
        Difference::GroupThatOnlyForbids,
        Difference::TreeWithoutResources,
        Difference::PolicyNeeded,
        Difference::ConflictingTraits,
        Difference::IsolateWithoutResources,
        Difference::TwoMemberOf,
        Difference::ForbiddenAggregateOfAnotherTree,
        Difference::MemberOfBelowRoot,
        Difference::InTreeAndSharing,
        Difference::FloatingPoint,
        Difference::TreeOutsideSummaries,
    ]
}

/// Whether a difference may concern a query over a cloud: without that, the service answers as the rules say, as far as this difference goes.
#[tactic(auto, unfolding(crate::specs::Service::Differing::applies))]
pub fn applies(
    alloc: Global,
    cloud: &Cloud,
    query: &Query,
    difference: Difference,
) -> Result<bool, NoMemory>
    ensures { IfOk result (λ concerned.
        concerned ≡ applies (providers_of cloud.now) (asked_of query.now) difference) }
{
    Ok(match difference {
        Difference::AmountsOfTwoGroups => {
            !is_policy_none(query) && mixes_classes(cloud, query) && has_choice(cloud, query)
        }
        Difference::SharedDiskForOneTree => shares_whole_group(cloud, query),
        Difference::SharingProviderWithParent => fails_from_below(cloud, query),
        Difference::GroupThatOnlyForbids => has_forbidding_group(query),
        Difference::TreeWithoutResources => ignores_a_tree(cloud, query),
        Difference::PolicyNeeded => query.policy().is_none() && has_two_suffixes(query),
        Difference::ConflictingTraits => has_contradiction(query),
        Difference::IsolateWithoutResources => {
            query.isolate() && has_two_suffixes(query) && has_bare_group(query)
        }
        Difference::TwoMemberOf => meets_in_halves(cloud, query),
        Difference::ForbiddenAggregateOfAnotherTree => lends_beside_forbidden(cloud, query),
        Difference::MemberOfBelowRoot => some_lends_by_its_root(cloud, query),
        Difference::InTreeAndSharing => lends_in_tree(cloud, query),
        Difference::FloatingPoint => computes_otherwise(alloc, cloud, query)?,
        Difference::TreeOutsideSummaries => gives_no_resources(cloud, query),
    })
}
