//! Of what a provider has no room for all that the slots ask of it together.
ghost use Rattle.std.specs.Prelude.{◌≡◌, IfOk, map, string_bytes};
ghost use Rattle.std.specs.Option.{option_map};
ghost use Rattle.ac_base.specs.Names.{class_bytes};
ghost use Rattle.ac_cloud.specs.Cloud.CloudWorld.{providers_of};
ghost use Rattle.ac_query.specs.Shown.Groups.{need_entry};
ghost use Rattle.ac_query.specs.Shown.Queries.{asked_of};
ghost use Rattle.ac_rules.specs.Shown.Assignments.{assigned_of, placed_of};
ghost use Rattle.ac_find.specs.Broken.{class_text, crowded_detail, first_crowded, left_text, sum_text, sums_detail};

use super::{first_misfit, id_text};
use crate::details::none_text;
use ac_base::{ClassName, NoMemory};
use ac_cloud::Provider;
use ac_query::Need;
use ac_rules::{Assignment, Placed, Rule};
use std::alloc::Global;

// The first class of a slot for which its provider has no room for the sum of all slots on it.
fn first_crowded<'a>(assignment: &Assignment<'a>, placed: &Placed<'a>) -> Option<&'a Need>
    ensures { option_map (λ need. need_entry need.now) result ≡ first_crowded
        (providers_of placed.now.cloud.now) (assigned_of assignment.now) (placed_of placed.now) }
{
    placed
        .needs()
        .iter()
        .find(|need| !assignment.has_room_for(placed, need.class()))
}

// What is left of a capacity, with `max_unit`.
#[tactic(auto, unfolding(crate::specs::Broken::left_text))]
fn left_text(alloc: Global, left: u64, whole: u64, most: u32) -> Result<String, NoMemory>
    ensures { IfOk result (λ text. string_bytes text ≡ left_text left whole most) }
{
    Ok(format!(in alloc; "{left} of {whole} left, max_unit {most}")?)
}

// A class of a provider by its UUID, with what is left of it, and the sum that is asked.
#[tactic(auto, unfolding(crate::specs::Broken::sum_text))]
fn sum_text(alloc: Global, class: &str, id: &str, left: &str, sum: u128) -> Result<String, NoMemory>
    ensures { IfOk result (λ text. string_bytes text ≡ sum_text class.now id.now left.now sum) }
{
    Ok(format!(in alloc; "{class} on {id}, {left}, {sum} asked")?)
}

// A class of which a provider has too little: what is left of it and the sum that is asked, or that it has none.
fn class_text(
    alloc: Global,
    assignment: &Assignment,
    provider: &Provider,
    class: &ClassName,
) -> Result<String, NoMemory>
    ensures { IfOk result (λ text. string_bytes text ≡ class_text
        (providers_of provider.now.cloud.now) (assigned_of assignment.now) provider.now.ix
        (class_bytes class.now)) }
{
    let Some(inventory) = provider.inventory(class) else {
        return none_text(alloc, class.text());
    };
    let id = id_text(alloc, provider)?;
    let left = provider.left(class);
    let left = left_text(alloc, left, inventory.capacity(), inventory.max_unit())?;
    let sum = assignment.sum_on(provider.ix, class);
    sum_text(alloc, class.text(), &id, &left, sum)
}

fn crowded_detail(
    alloc: Global,
    assignment: &Assignment,
    placed: &Placed,
) -> Result<String, NoMemory>
    ensures { IfOk result (λ text. string_bytes text ≡ crowded_detail
        (providers_of placed.now.cloud.now) (assigned_of assignment.now) (placed_of placed.now)) }
{
    match first_crowded(assignment, placed) {
        Some(need) => class_text(alloc, assignment, &placed.its_provider(), need.class()),
        None => Ok(String::new(alloc)),
    }
}

/// The first slot, and of it the first class, for which the provider has no room for the sum of all slots on it.
pub(crate) fn sums_detail(alloc: Global, assignment: &Assignment) -> Result<String, NoMemory>
    ensures { IfOk result (λ text. string_bytes text
        ≡ sums_detail (providers_of assignment.now.cloud.now)
        (asked_of assignment.now.query.now) assignment.now.list.now) }
{
    match first_misfit(assignment, Rule::Sums) {
        Some(s) => crowded_detail(alloc, assignment, &assignment.slot(s)),
        None => Ok(String::new(alloc)),
    }
}
