//! Whether what a tree has left can still host the slots behind a path that is bound to it.

ghost use Rattle.std.specs.Prelude.{◌≡◌, ◌+◌, ◌-◌, ◌/◌, ◌<◌, ◌≤◌, ◌^◌, ◌++◌, ℕ, List, true, length, min, IfOk};
ghost use Rattle.std.specs.List.{range_with_len};
ghost use Rattle.ac_base.specs.Names.{class_bytes};
ghost use Rattle.ac_cloud.specs.Cloud.CloudWorld.{providers_of, root_lists_of};
ghost use Rattle.ac_prune.specs.Left.Accounts.{providers_in, asked_in, texts_in, left_in};
ghost use Rattle.ac_prune.specs.Ahead.{load_of, hosts_of, IsHosted};
ghost use Rattle.ac_rules.specs.Room.{IsKnown};
ghost use Rattle.ac_prune.specs.Ahead.Fronts.{search_at};
ghost use Rattle.ac_prune.specs.Search.{IsDead};
ghost use Rattle.ac_prune.specs.Trees.{AreGroves, HasProviders};

use crate::front::Front;
use crate::hosts::count_asking;
use crate::ledger::Ledger;
use crate::ledger::rooms::{Ask, wanted};
use crate::look_ahead::LookAhead;
use crate::trees::by_tree::Places;
use crate::trees::groves::Groves;
use crate::tuning::{MOST_ASKS, MOST_HOSTS};
use ac_base::{ClassName, NoMemory};
use ac_cloud::Cloud;
use ac_rules::number_of;
use std::alloc::Global;

/// What is kept to look ahead along a path.
#[derive(Drop)]
pub(crate) struct Ahead {
    // The greatest depth whose slots ask other amounts of some class than the slot before them; 0 where there is none.
    last: usize,
    // The grove of each tree.
    groves: Vec<u32>,
    // The providers by tree or by grove; none where `last` is 0.
    trees: Places,
}

// The greatest depth whose slots ask other amounts of some class than the slot before them; 0 where there is none, or where
// the slots ask too many amounts.
fn last_mixed(asks: &[Vec<Ask>]) -> usize {
    let mut count = 0usize;
    for list in asks {
        count = count.saturating_add(list.len());
    }
    let mut last = 0;
    if count <= MOST_ASKS {
        for depth in 1..asks.len() {
            for ask in &asks[depth - 1] {
                for later in &asks[depth..] {
                    let amount = wanted(later, ask.class);
                    if amount > 0 && amount != u64::from(ask.amount) {
                        last = depth;
                    }
                }
            }
        }
    }
    last
}

// All providers, where they are wanted; none otherwise.
fn providers(alloc: Global, cloud: &Cloud, wanted: bool) -> Result<Vec<u32>, NoMemory>
    ensures few { IfOk result (λ places. length places.items ≤ length (providers_of cloud.now)) }
    ensures places { IfOk result (λ places. places.items ≡ range_with_len 0 (length places.items)) }
{
    let mut places = Vec::new(alloc);
    if !wanted {
        return Ok(places);
    }
    for ix in 0..cloud.len() {
        places.push(ix)?;
    }
    Ok(places)
}

impl Ahead {
    /// What the slots and the cloud of a ledger give to look ahead.
    pub(crate) fn new(alloc: Global, ledger: &Ledger, groves: &Groves) -> Result<Ahead, NoMemory>
        requires { AreGroves (root_lists_of ledger.now.cloud.now) groves.now }
        ensures { IfOk result (λ ahead. HasProviders (providers_in ledger.now) ahead) }
    {
        let last = last_mixed(&ledger.asks);
        let places = providers(alloc, ledger.cloud, last > 0)?;
        let trees = Places::by_tree(alloc, ledger.cloud, groves, &places)?;
        let mut of_roots = Vec::new(alloc);
        of_roots.extend_from_slice(&groves.of_roots)?;
        Ok(Ahead {
            last,
            groves: of_roots,
            trees,
        })
    }

    // How many pieces of an amount the providers at a root have left, or more; the greatest number where these are too many.
    fn pieces_left(&self, ledger: &Ledger, root: u32, class: usize, amount: u64) -> u64
        requires trees { HasProviders (providers_in ledger.now) self.now }
        requires whole { self.now.trees.count ≡ length (providers_in ledger.now) }
        requires root { root < length (providers_in ledger.now) }
        requires class { class < length ledger.now.classes.items }
        requires some { 0 < amount }
        ensures { min (load_of (λ p. left_in ledger.now p class / amount)
            (hosts_of (providers_in ledger.now) root)) (2 ^ 64 - 1) ≤ result }
    {
        let mut pieces = 0u64;
        let mut from = 0;
        for _ in 0..MOST_HOSTS {
            let ix = self.trees.next_at(&self.groves, &[root], from);
            if ix >= self.trees.count {
                return pieces;
            }
            pieces = pieces.saturating_add(ledger.left(ix, class) / amount);
            from = ix + 1;
        }
        u64::MAX
    }

    // Whether the providers at a root have fewer pieces of some amount of a class than the slots behind a path ask for.
    fn lacks(&self, front: &Front, root: u32, class: &ClassName) -> bool
        requires trees { HasProviders (providers_in front.now.ledger.now) self.now }
        requires whole { self.now.trees.count ≡ length (providers_in front.now.ledger.now) }
        requires root { root < length (providers_in front.now.ledger.now) }
        requires known { IsKnown (texts_in front.now.ledger.now) (class_bytes class.now) }
        requires some { 0 < length front.now.path.now }
        ensures { result ≡ true → (v : List ℕ) → IsHosted (providers_in front.now.ledger.now)
            (asked_in front.now.ledger.now) root (front.now.path.now ++ v) → ⊥ }
    {
        let ledger = front.ledger;
        let depth = front.path.len();
        let number = number_of(&ledger.classes, class);
        let mut last = wanted(&ledger.asks[depth - 1], number);
        if last == 0 {
            return false;
        }
        let later = &ledger.asks[depth..];
        for asks in later {
            let amount = wanted(asks, number);
            if amount > 0 && amount != last {
                let pieces = self.pieces_left(ledger, root, number, amount);
                if pieces < count_asking(later, number, amount) {
                    return true;
                }
            }
            last = amount;
        }
        false
    }

    // Whether the providers at a root lack pieces of some class in this way.
    fn lacks_any(&self, front: &Front, root: u32) -> bool
        requires trees { HasProviders (providers_in front.now.ledger.now) self.now }
        requires whole { self.now.trees.count ≡ length (providers_in front.now.ledger.now) }
        requires root { root < length (providers_in front.now.ledger.now) }
        requires some { 0 < length front.now.path.now }
        ensures { result ≡ true → (v : List ℕ) → IsHosted (providers_in front.now.ledger.now)
            (asked_in front.now.ledger.now) root (front.now.path.now ++ v) → ⊥ }
    {
        for class in &front.ledger.classes {
            if self.lacks(front, root, class) {
                return true;
            }
        }
        false
    }

    // Whether the tree to which the last provider of a path is bound has too little left for the slots behind the path.
    fn falls_short(&self, front: &Front) -> bool
        requires { HasProviders (providers_in front.now.ledger.now) self.now }
        ensures { result ≡ true → IsDead (search_at front.now) front.now.path.now }
    {
        let depth = front.path.len();
        if depth == 0
            || depth > self.last
            || self.trees.count != front.ledger.cloud.len() as usize
        {
            return false;
        }
        let roots = front.ledger.cloud.anchors(front.path[depth - 1]);
        roots.len() == 1 && self.lacks_any(front, roots[0])
    }
}

impl LookAhead for Ahead {
    ghost is_of = { λ all asked ahead. HasProviders all ahead };

    // The tree is looked at once for each path: before the first choice of the slot, when the path has just grown.
    fn next(&self, front: &Front, from: usize) -> usize {
        if from == 0 && self.falls_short(front) {
            front.choices.len()
        } else {
            from
        }
    }
}
