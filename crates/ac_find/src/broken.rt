//! Of what a list of providers breaks a rule, in words: the first thing that does. Nothing where there is none.
ghost use Rattle.std.specs.Prelude.{◌≡◌, ◌<◌, IfOk, IfSome, length, string_bytes};
ghost use Rattle.ac_base.specs.Texts.{id_text};
ghost use Rattle.ac_cloud.specs.Providers.{provider_of};
ghost use Rattle.ac_cloud.specs.Cloud.CloudWorld.{providers_of};
ghost use Rattle.ac_query.specs.Shown.Queries.{asked_of};
ghost use Rattle.ac_rules.specs.Shown.Assignments.{assigned_of, placed_of};
ghost use Rattle.ac_find.specs.Broken.{broken_detail, first_misfit, in_list, keeps, misfit_detail, misfit_text, slot_detail};

mod crowded;
mod hosts;
mod rivals;
mod unserved;

use self::crowded::sums_detail;
use self::hosts::{anchor_detail, subtree_detail};
use self::rivals::isolate_detail;
use self::unserved::collective_detail;
use crate::details::{aggregates_detail, traits_detail, tree_detail, units_detail};
use ac_base::NoMemory;
use ac_cloud::Provider;
use ac_query::write_ids;
use ac_rules::{Assignment, Placed, Rule};
use std::alloc::Global;

// A provider's UUID.
pub(crate) fn id_text(alloc: Global, provider: &Provider) -> Result<String, NoMemory>
    ensures { IfOk result (λ text. string_bytes text ≡ id_text (provider_of provider.now).id) }
{
    write_ids(alloc, &[provider.id()])
}

// Whether a slot's provider keeps a rule; the other rules are of all slots together.
#[tactic(auto, unfolding(crate::specs::Broken::keeps))]
fn keeps(assignment: &Assignment, rule: Rule, s: usize) -> bool
    requires { s < length assignment.now.list.now }
    ensures { result ≡ keeps (providers_of assignment.now.cloud.now) (assigned_of assignment.now)
        rule (in_list (asked_of assignment.now.query.now) assignment.now.list.now s) }
{
    let placed = assignment.slot(s);
    match rule {
        Rule::Units => placed.has_units(),
        Rule::SlotTraits => placed.has_slot_traits(),
        Rule::Aggregates => placed.has_aggregates(),
        Rule::Tree => placed.is_in_tree(),
        Rule::Sums => assignment.has_room_at(&placed),
        Rule::Collective | Rule::Isolate | Rule::Subtree | Rule::Anchor => true,
    }
}

// The first slot whose provider doesn't keep a rule.
pub(crate) fn first_misfit(assignment: &Assignment, rule: Rule) -> Option<usize>
    ensures misfit { result ≡ first_misfit (providers_of assignment.now.cloud.now)
        (asked_of assignment.now.query.now) assignment.now.list.now rule }
    ensures inside { IfSome result (λ s. s < length assignment.now.list.now) }
{
    (0..assignment.list.len()).find(|s| !keeps(assignment, rule, *s))
}

// The words for that of which a provider breaks a rule of its slot; none for a rule of several slots.
#[tactic(auto, unfolding(crate::specs::Broken::misfit_detail))]
fn misfit_detail(alloc: Global, placed: &Placed, rule: Rule) -> Result<String, NoMemory>
    ensures { IfOk result (λ text. string_bytes text ≡ misfit_detail
        (providers_of placed.now.cloud.now) (placed_of placed.now) rule) }
{
    match rule {
        Rule::Units => units_detail(alloc, placed),
        Rule::SlotTraits => traits_detail(alloc, placed),
        Rule::Aggregates => aggregates_detail(alloc, placed),
        Rule::Tree => tree_detail(alloc, placed),
        Rule::Collective | Rule::Sums | Rule::Isolate | Rule::Subtree | Rule::Anchor => {
            Ok(String::new(alloc))
        }
    }
}

// The slot and the provider, and behind them that of which the provider breaks a rule. Slots are numbered from 1.
#[tactic(auto, unfolding(crate::specs::Broken::misfit_text))]
fn misfit_text(alloc: Global, placed: &Placed, rule: Rule) -> Result<String, NoMemory>
    ensures { IfOk result (λ text. string_bytes text ≡ misfit_text
        (providers_of placed.now.cloud.now) placed.now.slot (placed_of placed.now) rule) }
{
    let number = placed.slot + 1;
    let id = id_text(alloc, &placed.its_provider())?;
    let detail = misfit_detail(alloc, placed, rule)?;
    Ok(format!(in alloc; "slot {number} on {id}, {detail}")?)
}

// The words for the first slot whose provider breaks a rule; none where no slot does.
fn slot_detail(alloc: Global, assignment: &Assignment, rule: Rule) -> Result<String, NoMemory>
    ensures { IfOk result (λ text. string_bytes text
        ≡ slot_detail (providers_of assignment.now.cloud.now)
        (asked_of assignment.now.query.now) assignment.now.list.now rule) }
{
    match first_misfit(assignment, rule) {
        Some(s) => misfit_text(alloc, &assignment.slot(s), rule),
        None => Ok(String::new(alloc)),
    }
}

/// Of what a list of providers breaks a rule: the first slot, class, trait, list or root by which it does.
#[tactic(auto, unfolding(crate::specs::Broken::broken_detail))]
pub fn broken_detail(alloc: Global, assignment: &Assignment, rule: Rule) -> Result<String, NoMemory>
    ensures { IfOk result (λ text. string_bytes text
        ≡ broken_detail (providers_of assignment.now.cloud.now)
        (asked_of assignment.now.query.now) assignment.now.list.now rule) }
{
    match rule {
        Rule::Units | Rule::SlotTraits | Rule::Aggregates | Rule::Tree => {
            slot_detail(alloc, assignment, rule)
        }
        Rule::Collective => collective_detail(alloc, assignment),
        Rule::Sums => sums_detail(alloc, assignment),
        Rule::Isolate => isolate_detail(alloc, assignment),
        Rule::Subtree => subtree_detail(alloc, assignment),
        Rule::Anchor => anchor_detail(alloc, assignment),
    }
}
