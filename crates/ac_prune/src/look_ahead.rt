//! What a test must keep by which a walk looks ahead.
ghost use Rattle.std.specs.Prelude.{◌≡◌, ◌<◌, ◌≤◌, false, List, length};
ghost use Rattle.ac_query.specs.Asked.{Asked};
ghost use Rattle.ac_cloud.specs.World.{Provider};
ghost use Rattle.ac_prune.specs.Left.Accounts.{providers_in, asked_in};
ghost use Rattle.ac_prune.specs.Ahead.Fronts.{LeadsNowhere, LeadNowhere};

use crate::front::Front;

/// A test by which a walk looks ahead: what it passes over leads to no candidate. It may tell this of many choices at once, or
/// of a choice that is looked at.
pub trait LookAhead {
    /// It is of these providers, and of what a query asks.
    ghost is_of: { List Provider → Asked → Self → Type 0 };

    /// The next place from one on of a choice that may lead on, where that is told without a look at the choices before it;
    /// past the end where there is none.
    fn next(&self, front: &Front, from: usize) -> usize
        requires of { is_of (providers_in front.now.ledger.now) (asked_in front.now.ledger.now)
            self.now }
        requires from { from ≤ length front.now.choices.now }
        ensures from { from ≤ result }
        ensures within { result ≤ length front.now.choices.now }
        ensures dead { LeadNowhere front.now from result }
    {
        from
    }

    /// Whether a provider may lead on behind the path.
    fn may_follow(&self, front: &Front, provider: u32) -> bool
        requires of { is_of (providers_in front.now.ledger.now) (asked_in front.now.ledger.now)
            self.now }
        requires provider { provider < length (providers_in front.now.ledger.now) }
        ensures dead { result ≡ false → LeadsNowhere front.now provider }
    {
        true
    }
}
