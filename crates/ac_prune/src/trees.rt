//! The choices of each slot by tree, so that a path that is bound to a few trees passes over those of the others.
ghost use Rattle.std.specs.Prelude.{IfOk};
ghost use Rattle.ac_cloud.specs.Cloud.CloudWorld.{root_lists_of};
ghost use Rattle.ac_prune.specs.Left.Accounts.{providers_in, asked_in};
ghost use Rattle.ac_prune.specs.Trees.{AreGroves, AreByTree};

pub mod by_tree;
pub mod groves;
pub mod wide;

use crate::choices::Choices;
use crate::front::Front;
use crate::look_ahead::LookAhead;
use crate::trees::by_tree::Places;
use crate::trees::groves::Groves;
use crate::tuning::FEWEST;
use ac_base::NoMemory;
use ac_rules::slots::count_slots;
use std::alloc::Global;

/// The choices of each slot but the first by tree or by grove, and the grove of each tree; no choices of the first.
#[derive(Drop)]
pub(crate) struct Trees {
    groves: Vec<u32>,
    slots: Vec<Places>,
}

impl Trees {
    /// The choices of all slots but the first, by tree or by grove.
    pub(crate) fn new(alloc: Global, choices: &Choices, groves: Groves) -> Result<Trees, NoMemory>
        requires { AreGroves (root_lists_of choices.now.ledger.now.cloud.now) groves }
        ensures { IfOk result (λ trees. AreByTree (providers_in choices.now.ledger.now)
            (asked_in choices.now.ledger.now) trees.groves.items trees.slots.items) }
    {
        let ledger = choices.ledger;
        let mut slots = Vec::new(alloc);
        for s in 0..count_slots(ledger.query) {
            // No path stands before the first slot, so its choices aren't looked for by tree.
            let sought = if s > 0 { choices.of_slot(s) } else { &[] };
            slots.push(Places::by_tree(alloc, ledger.cloud, &groves, sought)?)?;
        }
        Ok(Trees {
            groves: groves.of_roots,
            slots,
        })
    }
}

// Whether the next of so many choices is looked up in so many trees: it takes no longer than trying those that stand between two
// of theirs, where each tree of the cloud has a few.
fn are_few(trees: usize, choices: usize) -> bool {
    trees <= FEWEST || trees.saturating_mul(trees) <= choices / 4
}

impl LookAhead for Trees {
    ghost is_of = { λ all asked trees. AreByTree all asked trees.groves.items trees.slots.items };

    fn next(&self, front: &Front, from: usize) -> usize {
        match front.bound {
            Some(ix) => {
                let cloud = front.ledger.cloud;
                // A choice in one of the provider's trees is the next one: no need to search.
                let beside = from < front.choices.len()
                    && cloud.available(ix, cloud.root(front.choices[from]));
                let trees = cloud.anchors(ix);
                if beside || !are_few(trees.len(), front.choices.len()) {
                    return from;
                }
                self.slots[front.path.len()].next_at(&self.groves, trees, from)
            }
            None => from,
        }
    }
}
