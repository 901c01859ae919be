//! The verdict on one list of providers.
ghost use Rattle.std.specs.Prelude.{◌≡◌, ◌<◌, length};
ghost use Rattle.std.specs.List.{All};
ghost use Rattle.ac_cloud.specs.Cloud.CloudWorld.{providers_of};
ghost use Rattle.ac_query.specs.Asked.{slots_of};
ghost use Rattle.ac_query.specs.Shown.Queries.{asked_of};
ghost use Rattle.ac_rules.specs.Judge.{judge, is_candidate};

use crate::assignment::Assignment;
use crate::verdict::{Rule, Verdict};
use ac_cloud::Cloud;
use ac_query::Query;

/// The verdict on one list of providers, a place for each slot: the first rule, in their order, that it breaks at any
/// place. It takes no memory.
#[tactic(auto, unfolding(crate::specs::Judge::judge, crate::specs::Judge::tests))]
pub fn verify(cloud: &Cloud, query: &Query, list: &[u32]) -> Verdict
    requires slots { length list.now ≡ length (slots_of (asked_of query.now)) }
    requires providers { All (λ p. p < length (providers_of cloud.now)) list.now }
    ensures { result ≡ judge (providers_of cloud.now) (asked_of query.now) list.now }
{
    let assignment = Assignment { cloud, query, list };
    if !assignment.has_units() {
        return Verdict::Broken(Rule::Units);
    }
    if !assignment.has_slot_traits() {
        return Verdict::Broken(Rule::SlotTraits);
    }
    if !assignment.has_aggregates() {
        return Verdict::Broken(Rule::Aggregates);
    }
    if !assignment.is_in_trees() {
        return Verdict::Broken(Rule::Tree);
    }
    if !assignment.is_collective() {
        return Verdict::Broken(Rule::Collective);
    }
    if !assignment.has_room() {
        return Verdict::Broken(Rule::Sums);
    }
    if !assignment.is_isolated() {
        return Verdict::Broken(Rule::Isolate);
    }
    if !assignment.has_tops() {
        return Verdict::Broken(Rule::Subtree);
    }
    if !assignment.has_anchor() {
        return Verdict::Broken(Rule::Anchor);
    }
    Verdict::Candidate
}

/// Whether a list of providers is a candidate.
#[tactic(auto, using(crate::proofs::EachSlot::JudgeLemmas::judged_candidate, crate::proofs::EachSlot::JudgeLemmas::judged_broken))]
pub fn is_candidate(cloud: &Cloud, query: &Query, list: &[u32]) -> bool
    requires slots { length list.now ≡ length (slots_of (asked_of query.now)) }
    requires providers { All (λ p. p < length (providers_of cloud.now)) list.now }
    ensures { result ≡ is_candidate (providers_of cloud.now) (asked_of query.now) list.now }
{
    match verify(cloud, query, list) {
        Verdict::Candidate => true,
        Verdict::Broken(_) => false,
    }
}
