//! What the group without a suffix requires of its providers together: which providers have it, and up to which slot one may.

ghost use Rattle.std.specs.Prelude.{◌≡◌, ◌<◌, ◌+◌, ◌&&◌, map, length, true, slice_index_or, false, None, IfOk};
ghost use Rattle.std.specs.List.{All, Contains, list_any, range_with_len};
ghost use Rattle.std.specs.Option.{is_none};
ghost use Rattle.std.specs.List.Sorted.{IsStrictlySortedBy};
ghost use Rattle.ac_base.specs.Names.{trait_bytes};
ghost use Rattle.ac_base.specs.Texts.{text_cmp};
ghost use Rattle.ac_cloud.specs.Cloud.CloudWorld.{providers_of};
ghost use Rattle.ac_cloud.specs.World.{has_trait, provider_at};
ghost use Rattle.ac_query.specs.Asked.{slots_of};
ghost use Rattle.ac_query.specs.Shown.Groups.{any_of_shown, group_asked, group_entry, suffix_of};
ghost use Rattle.ac_rules.specs.Own.{has_any};
ghost use Rattle.ac_rules.specs.Placed.{slot_at};
ghost use Rattle.ac_prune.specs.Collective.{AreWanted, IsAsked, IsGroupOf, IsLast};
ghost use Rattle.ac_prune.specs.Left.Accounts.{providers_in, asked_in};
ghost use Rattle.ac_prune.specs.Loads.{choice_in};

use crate::choices::Choices;
use crate::front::Front;
use crate::look_ahead::LookAhead;
use crate::tuning::MOST_WANTED;
use ac_base::{NoMemory, TraitName};
use ac_cloud::Cloud;
use ac_query::{AnyOf, Group};
use ac_rules::rules::traits::has_any;
use ac_rules::slots::{count_slots, is_suffixed};
use std::alloc::Global;

/// A trait, or one of a list, that a provider of some slot without a suffix must have.
#[derive(Drop)]
pub(crate) struct Wanted {
    // For each provider whether it has it.
    gives: Vec<bool>,
    // How many slots there are up to the last without a suffix that has such a choice.
    last: usize,
}

/// All that is wanted so, or the first of it.
#[derive(Drop)]
pub(crate) struct Collective {
    wanted: Vec<Wanted>,
}

// For each provider whether it has a trait.
fn with_trait(alloc: Global, cloud: &Cloud, name: &TraitName) -> Result<Vec<bool>, NoMemory>
    ensures { IfOk result (λ gives. gives.items
        ≡ map (λ ix. has_trait (provider_at (providers_of cloud.now) ix) (trait_bytes name.now))
        (range_with_len 0 (length (providers_of cloud.now)))) }
{
    let gives = (0..cloud.len()).map(|ix| cloud.has_trait(ix, name));
    Ok(gives.collect(alloc)?)
}

// For each provider whether it has one of these traits, which rise.
fn with_any(alloc: Global, cloud: &Cloud, names: &[TraitName]) -> Result<Vec<bool>, NoMemory>
    requires { IsStrictlySortedBy text_cmp (map trait_bytes names.now) }
    ensures { IfOk result (λ gives. gives.items
        ≡ map (λ ix. has_any (provider_at (providers_of cloud.now) ix) (map trait_bytes names.now))
        (range_with_len 0 (length (providers_of cloud.now)))) }
{
    let gives = (0..cloud.len()).map(|ix| has_any(&cloud.provider(ix), names));
    Ok(gives.collect(alloc)?)
}

// Whether one of some providers gives what is wanted.
fn has_giver(list: &[u32], gives: &[bool]) -> bool
    requires { All (λ p. p < length gives.now) list.now }
    ensures { result ≡ list_any (λ p. slice_index_or gives.now p false) list.now }
{
    list.iter().any(|ix| gives[*ix as usize])
}

// Whether a slot without a suffix has a choice which gives what is wanted.
fn may_give(choices: &Choices, gives: &[bool], s: usize) -> bool
    requires slot { s < length (slots_of (asked_in choices.now.ledger.now)) }
    requires count { length gives.now ≡ length (providers_in choices.now.ledger.now) }
    ensures { result ≡ (is_none (slot_at (asked_in choices.now.ledger.now) s).suffix
        && list_any (λ p. slice_index_or gives.now p false) (choice_in choices.now.ledger.now s)) }
{
    !is_suffixed(choices.ledger.query, s) && has_giver(choices.of_slot(s), gives)
}

// How many slots there are up to the last without a suffix that has a choice which gives what is wanted.
fn last_giving(choices: &Choices, gives: &[bool]) -> usize
    requires { length gives.now ≡ length (providers_in choices.now.ledger.now) }
    ensures { IsLast (providers_in choices.now.ledger.now) (asked_in choices.now.ledger.now)
        gives.now result }
{
    let mut last = 0;
    for s in 0..count_slots(choices.ledger.query) {
        if may_give(choices, gives, s) {
            last = s + 1;
        }
    }
    last
}

impl Wanted {
    ghost use Rattle.ac_prune.specs.Collective.{IsWanted, Lacks};

    // What these providers give.
    fn new(choices: &Choices, gives: Vec<bool>) -> Wanted
        requires count { length gives.items ≡ length (providers_in choices.now.ledger.now) }
        requires asked { IsAsked (providers_in choices.now.ledger.now)
            (asked_in choices.now.ledger.now) gives.items }
        ensures { IsWanted (providers_in choices.now.ledger.now)
            (asked_in choices.now.ledger.now) result }
    {
        let last = last_giving(choices, &gives);
        Wanted { gives, last }
    }

    // A trait that a group without a suffix requires.
    fn of_trait(
        alloc: Global,
        choices: &Choices,
        group: &Group,
        name: &TraitName,
    ) -> Result<Wanted, NoMemory>
        requires group { IsGroupOf (asked_in choices.now.ledger.now) (group_entry group.now) }
        requires plain { suffix_of group.now ≡ None }
        requires among { Contains (group_asked group.now).required (trait_bytes name.now) }
        ensures { IfOk result (IsWanted (providers_in choices.now.ledger.now)
            (asked_in choices.now.ledger.now)) }
    {
        let gives = with_trait(alloc, choices.ledger.cloud, name)?;
        Ok(Wanted::new(choices, gives))
    }

    // A list of traits of which a group without a suffix requires one.
    fn of_list(
        alloc: Global,
        choices: &Choices,
        group: &Group,
        list: &AnyOf,
    ) -> Result<Wanted, NoMemory>
        requires group { IsGroupOf (asked_in choices.now.ledger.now) (group_entry group.now) }
        requires plain { suffix_of group.now ≡ None }
        requires among { Contains (group_asked group.now).any_of (any_of_shown list.now) }
        ensures { IfOk result (IsWanted (providers_in choices.now.ledger.now)
            (asked_in choices.now.ledger.now)) }
    {
        let gives = with_any(alloc, choices.ledger.cloud, list.names())?;
        Ok(Wanted::new(choices, gives))
    }

    // Whether neither a path nor a provider behind it gives what is wanted, and no later slot can.
    fn lacks(&self, path: &[u32], provider: u32) -> bool
        requires path { All (λ p. p < length self.now.gives.items) path.now }
        requires provider { provider < length self.now.gives.items }
        ensures { result ≡ true → Lacks self.now path.now provider }
    {
        self.last <= path.len() + 1
            && !self.gives[provider as usize]
            && !has_giver(path, &self.gives)
    }
}

impl Collective {
    // Adds what a group without a suffix requires, while there isn't too much.
    fn push_group(
        &mut self,
        alloc: Global,
        choices: &Choices,
        group: &Group,
    ) -> Result<(), NoMemory>
        requires group { IsGroupOf (asked_in choices.now.ledger.now) (group_entry group.now) }
        requires plain { suffix_of group.now ≡ None }
        requires wanted { AreWanted (providers_in choices.now.ledger.now)
            (asked_in choices.now.ledger.now) self.old }
        ensures { IfOk result (λ _. AreWanted (providers_in choices.now.ledger.now)
            (asked_in choices.now.ledger.now) self.new) }
    {
        for name in group.required() {
            if self.wanted.len() >= MOST_WANTED {
                return Ok(());
            }
            let wanted = Wanted::of_trait(alloc, choices, group, name)?;
            self.wanted.push(wanted)?;
        }
        for list in group.any_of() {
            if self.wanted.len() >= MOST_WANTED {
                return Ok(());
            }
            let wanted = Wanted::of_list(alloc, choices, group, list)?;
            self.wanted.push(wanted)?;
        }
        Ok(())
    }

    /// What the group without a suffix requires, by the choices of all slots.
    pub(crate) fn new(alloc: Global, choices: &Choices) -> Result<Collective, NoMemory>
        ensures { IfOk result (λ all. AreWanted (providers_in choices.now.ledger.now)
            (asked_in choices.now.ledger.now) all) }
    {
        let query = choices.ledger.query;
        let mut collective = Collective {
            wanted: Vec::new(alloc),
        };
        for group in query.groups() {
            if group.suffix().is_none() {
                collective.push_group(alloc, choices, group)?;
            }
        }
        Ok(collective)
    }
}

impl LookAhead for Collective {
    ghost is_of = { AreWanted };

    // Whether each thing that is wanted is given by the path, by the provider, or perhaps by a later slot.
    fn may_follow(&self, front: &Front, provider: u32) -> bool {
        for wanted in &self.wanted {
            if wanted.lacks(front.path, provider) {
                return false;
            }
        }
        true
    }
}
