//! The choices of each slot by grove, so that a path whose last provider is available in many trees, though by far not in all, passes
//! over the choices elsewhere.
ghost use Rattle.std.specs.Prelude.{◌<◌, length, IfOk, IfSome};
ghost use Rattle.std.specs.List.{All};
ghost use Rattle.ac_cloud.specs.Cloud.CloudWorld.{providers_of, root_lists_of};
ghost use Rattle.ac_prune.specs.Left.Accounts.{providers_in, asked_in};
ghost use Rattle.ac_prune.specs.Trees.{AllMeetInGroves, AreGroves, HaveAllGroves};

use crate::choices::Choices;
use crate::front::Front;
use crate::look_ahead::LookAhead;
use crate::trees::by_tree::Places;
use crate::trees::groves::Groves;
use crate::tuning::FEWEST;
use ac_base::NoMemory;
use ac_cloud::Cloud;
use ac_rules::slots::count_slots;
use std::alloc::Global;

/// The groves of each provider, and the choices of each slot by grove.
#[derive(Drop)]
pub(crate) struct Wide {
    // In how many trees a provider may be available, so that its groves tell much.
    most: usize,
    of_providers: Vec<Vec<u32>>,
    slots: Vec<Places>,
}

// A quarter of the trees of a cloud.
fn quarter(cloud: &Cloud) -> usize {
    (0..cloud.len()).filter(|ix| cloud.root(*ix) == *ix).count() / 4
}

// Whether a provider is available in many trees, though in no more than so many.
fn is_wide(cloud: &Cloud, ix: u32, most: usize) -> bool
    requires { ix < length (providers_of cloud.now) }
{
    let trees = cloud.anchors(ix).len();
    trees > FEWEST && trees <= most
}

// Whether some choice is.
fn has_wide(cloud: &Cloud, choices: &[u32], most: usize) -> bool
    requires { All (λ p. p < length (providers_of cloud.now)) choices.now }
{
    for ix in choices {
        if is_wide(cloud, *ix, most) {
            return true;
        }
    }
    false
}

impl Wide {
    /// The choices of all slots by grove, where one before the last has a choice that is available in many trees.
    #[tactic(auto, using(crate::proofs::Roots::GroveLemmas::meet, crate::proofs::Roots::TreeLemmas::few_providers))]
    pub(crate) fn new(
        alloc: Global,
        choices: &Choices,
        groves: &Groves,
    ) -> Result<Option<Wide>, NoMemory>
        requires { AreGroves (root_lists_of choices.now.ledger.now.cloud.now) groves.now }
        ensures { IfOk result (λ wide. IfSome wide (AllMeetInGroves
            (providers_in choices.now.ledger.now) (asked_in choices.now.ledger.now))) }
    {
        let ledger = choices.ledger;
        let count = count_slots(ledger.query);
        let most = quarter(ledger.cloud);
        if !(1..count).any(|s| has_wide(ledger.cloud, choices.of_slot(s - 1), most)) {
            return Ok(None);
        }
        let of_providers = groves.of_providers(alloc, ledger.cloud)?;
        let mut slots = Vec::new(alloc);
        for s in 0..count {
            slots.push(Places::by_grove(alloc, &of_providers, choices.of_slot(s))?)?;
        }
        Ok(Some(Wide {
            most,
            of_providers,
            slots,
        }))
    }
}

impl LookAhead for Wide {
    ghost is_of = { AllMeetInGroves };

    fn next(&self, front: &Front, from: usize) -> usize {
        let depth = front.path.len();
        if depth == 0 {
            return from;
        }
        let cloud = front.ledger.cloud;
        let ix = front.path[depth - 1];
        let groves = &self.of_providers[ix as usize];
        if groves.len() > FEWEST || !is_wide(cloud, ix, self.most) {
            return from;
        }
        // A choice in one of the provider's trees is the next one: no need to search.
        if from < front.choices.len() && cloud.available(ix, cloud.root(front.choices[from])) {
            return from;
        }
        self.slots[depth].next_among(groves, from)
    }
}
