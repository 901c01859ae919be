//! Where a walk stands: a path of providers, and the choices of the slot behind it.
ghost use Rattle.std.specs.Prelude.{◌≡◌, ◌<◌, ◌≤◌, ℕ, true, length, IfSome, MatchOption, slice_index};
ghost use Rattle.std.specs.List.{All};
ghost use Rattle.std.proofs.Props.{props};
ghost use Rattle.ac_query.specs.Asked.{slots_of};
ghost use Rattle.ac_cloud.specs.Cloud.CloudWorld.{providers_of};
ghost use Rattle.ac_cloud.specs.World.{anchors_of};
ghost use Rattle.ac_prune.specs.Left.Accounts.{providers_in, asked_in, Accounts};
ghost use Rattle.ac_prune.specs.QuerySearch.{search_of};
ghost use Rattle.ac_prune.specs.Search.{choices_at};
ghost use Rattle.ac_prune.specs.Trees.Keys.{is_there};

use crate::ledger::Ledger;
use crate::tuning::FEW;
use ac_cloud::Cloud;

/// A path of providers that isn't whole yet, and the choices of the slot behind it.
#[derive(Drop)]
pub struct Front<'f, 'a> {
    /// What the path takes.
    pub ledger: &'f Ledger<'a>,
    pub path: &'f [u32],
    pub choices: &'f [u32],
    /// The provider of the path to whose trees it is bound.
    pub bound: Option<u32>,
    ghost accounts: { Accounts ledger.now path.now },
    ghost short: { length path.now < length (slots_of (asked_in ledger.now)) },
    ghost providers: { All (λ p. p < length (providers_in ledger.now)) path.now },
    ghost listed: { choices.now ≡ choices_at (search_of (providers_in ledger.now) (asked_in ledger.now)) (length path.now) },
    ghost bounded: { IfSome bound (λ p. is_there path.now p ≡ true) } by { Prim.hlevel props },
}

/// The provider of a front that is available in the fewest trees, where these are few.
pub fn bound_by(cloud: &Cloud, front: &[u32]) -> Option<u32>
    requires { All (λ p. p < length (providers_of cloud.now)) front.now }
    ensures { MatchOption result ((i : ℕ) → i < length front.now
        → 128 < length (anchors_of (providers_of cloud.now) (slice_index front.now i)))
        (λ p. is_there front.now p ≡ true) }
{
    let mut best = None;
    let mut least = FEW + 1;
    for ix in front {
        let trees = cloud.anchors(*ix).len();
        if trees == 1 {
            return Some(*ix);
        }
        if trees < least {
            best = Some(*ix);
            least = trees;
        }
    }
    best
}
