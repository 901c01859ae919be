//! Claims: a candidate takes what its slots ask, and gives it back.

ghost use Rattle.std.specs.Prelude.{◌≡◌, ◌≢◌, ◌<◌, ◌∷◌, [], Some, true, false, length, map};
ghost use Rattle.std.specs.List.{All};
ghost use Rattle.ac_cloud.specs.Cloud.CloudWorld.{providers_of, root_lists_of, world_of};
ghost use Rattle.ac_query.specs.Asked.{slots_of};
ghost use Rattle.ac_query.specs.Shown.Groups.{need_entry};
ghost use Rattle.ac_query.specs.Shown.Queries.{asked_of};
ghost use Rattle.ac_rules.specs.Claims.{claimed, released, is_in_use, move_verdict, moved};
ghost use Rattle.ac_rules.specs.Judge.{judge};
ghost use Rattle.ac_rules.specs.Placed.{assigned};
ghost use Rattle.ac_rules.specs.Together.{sum_on};
ghost use Rattle.ac_rules.specs.Shown.Changes.{used_after, changed, asked_of_one, is_counted_in_use};
ghost use Rattle.ac_rules.specs.declared.verdict.Verdict.TheVariants.{Candidate};

use crate::assignment::Assignment;
use crate::judge::verify;
use crate::slots::needs_at;
use crate::verdict::Verdict;
use ac_base::Inventory;
use ac_cloud::Cloud;
use ac_query::{Need, Query};

/// Which way used amounts change.
#[derive(Clone, Copy)]
pub(crate) enum Change {
    /// What is asked is taken, as far as there is room for it.
    Claim,
    /// It is given back.
    Release,
    /// What was given back is taken again.
    Restore,
}

impl Change {
    // How much of an inventory is used afterwards.
    fn used_after(self, inventory: &Inventory, used: u64, amount: u64) -> u64
        ensures { result
            ≡ used_after self amount (record { inventory = inventory.now; used = used }) }
    {
        match self {
            Change::Claim => used + amount.min(inventory.capacity().saturating_sub(used)),
            Change::Release => used.saturating_sub(amount),
            Change::Restore => used + amount.min(u64::MAX - used),
        }
    }

    // Changes how much of one class of a provider is used.
    fn apply(self, cloud: &mut Cloud, ix: u32, need: &Need)
        requires { ix < length (providers_of cloud.old) }
        ensures providers { providers_of cloud.new
            ≡ changed self (asked_of_one ix (need_entry need.now ∷ [])) (providers_of cloud.old) }
        ensures sizes { (world_of cloud.new).sizes ≡ (world_of cloud.old).sizes }
        ensures root_lists { root_lists_of cloud.new ≡ root_lists_of cloud.old }
    {
        let class = need.class();
        if let Some(inventory) = cloud.inventory(ix, class) {
            let amount = u64::from(need.amount());
            let used = self.used_after(inventory, cloud.used(ix, class), amount);
            cloud.set_used(ix, class, used);
        }
    }

    // Changes how much is used of a provider of each class that a slot needs.
    fn apply_needs(self, cloud: &mut Cloud, ix: u32, needs: &[Need])
        requires { ix < length (providers_of cloud.old) }
        ensures providers { providers_of cloud.new
            ≡ changed self (asked_of_one ix (map need_entry needs.now)) (providers_of cloud.old) }
        ensures sizes { (world_of cloud.new).sizes ≡ (world_of cloud.old).sizes }
        ensures root_lists { root_lists_of cloud.new ≡ root_lists_of cloud.old }
    {
        for need in needs {
            self.apply(cloud, ix, need);
        }
    }

    // Changes how much is used of each slot's provider.
    fn apply_all(self, cloud: &mut Cloud, query: &Query, list: &[u32])
        requires slots { length list.now ≡ length (slots_of (asked_of query.now)) }
        requires providers { All (λ p. p < length (providers_of cloud.old)) list.now }
        ensures providers { providers_of cloud.new
            ≡ changed self (sum_on (assigned (asked_of query.now) list.now))
            (providers_of cloud.old) }
        ensures sizes { (world_of cloud.new).sizes ≡ (world_of cloud.old).sizes }
        ensures root_lists { root_lists_of cloud.new ≡ root_lists_of cloud.old }
    {
        for (s, ix) in list.iter().enumerate() {
            self.apply_needs(cloud, *ix, needs_at(query, s));
        }
    }
}

/// Takes what a list of providers is asked for, where it is a candidate; else it says which rule is broken, and nothing changes. It takes no memory.
pub fn claim(cloud: &mut Cloud, query: &Query, list: &[u32]) -> Verdict
    requires slots { length list.now ≡ length (slots_of (asked_of query.now)) }
    requires providers { All (λ p. p < length (providers_of cloud.old)) list.now }
    ensures verdict { result ≡ judge (providers_of cloud.old) (asked_of query.now) list.now }
    ensures claimed { result ≡ Candidate → providers_of cloud.new
        ≡ claimed (providers_of cloud.old) (assigned (asked_of query.now) list.now) }
    ensures otherwise { result ≢ Candidate → cloud.new ≡ cloud.old }
    ensures sizes { (world_of cloud.new).sizes ≡ (world_of cloud.old).sizes }
    ensures root_lists { root_lists_of cloud.new ≡ root_lists_of cloud.old }
{
    let verdict = verify(cloud, query, list);
    if let Verdict::Candidate = verdict {
        Change::Claim.apply_all(cloud, query, list);
    }
    verdict
}

/// Gives back what a list of providers was asked for, where so much is used of them, and says whether. Else nothing changes. No rule is asked, and
/// it takes no memory.
pub fn release(cloud: &mut Cloud, query: &Query, list: &[u32]) -> bool
    requires slots { length list.now ≡ length (slots_of (asked_of query.now)) }
    requires providers { All (λ p. p < length (providers_of cloud.old)) list.now }
    ensures in_use { result
        ≡ is_in_use (providers_of cloud.old) (assigned (asked_of query.now) list.now) }
    ensures counted { result
        ≡ is_counted_in_use (providers_of cloud.old) (assigned (asked_of query.now) list.now) }
    ensures released { result ≡ true → providers_of cloud.new
        ≡ released (providers_of cloud.old) (assigned (asked_of query.now) list.now) }
    ensures otherwise { result ≡ false → cloud.new ≡ cloud.old }
    ensures sizes { (world_of cloud.new).sizes ≡ (world_of cloud.old).sizes }
    ensures root_lists { root_lists_of cloud.new ≡ root_lists_of cloud.old }
{
    let in_use = Assignment { cloud, query, list }.is_in_use();
    if in_use {
        Change::Release.apply_all(cloud, query, list);
    }
    in_use
}

/// Gives back what a list of providers was asked for, and takes what another list is asked for instead, at once: where so much is used of the first, and
/// the other is a candidate then. Else nothing changes, and it says which rule is broken; nothing of rules where not so much is used. It takes no memory.
pub fn relocate(cloud: &mut Cloud, query: &Query, from: &[u32], to: &[u32]) -> Option<Verdict>
    requires from { length from.now ≡ length (slots_of (asked_of query.now)) }
    requires to { length to.now ≡ length (slots_of (asked_of query.now)) }
    requires providers { All (λ p. p < length (providers_of cloud.old)) from.now }
    requires others { All (λ p. p < length (providers_of cloud.old)) to.now }
    ensures verdict { result
        ≡ move_verdict (providers_of cloud.old) (asked_of query.now) from.now to.now }
    ensures moved { result ≡ Some Candidate → providers_of cloud.new
        ≡ moved (providers_of cloud.old) (asked_of query.now) from.now to.now }
    ensures otherwise { result ≢ Some Candidate → providers_of cloud.new ≡ providers_of cloud.old }
    ensures sizes { (world_of cloud.new).sizes ≡ (world_of cloud.old).sizes }
    ensures root_lists { root_lists_of cloud.new ≡ root_lists_of cloud.old }
{
    if !release(cloud, query, from) {
        return None;
    }
    let verdict = claim(cloud, query, to);
    if let Verdict::Broken(_) = verdict {
        Change::Restore.apply_all(cloud, query, from);
    }
    Some(verdict)
}
