//! Two slots that both stand apart on one provider.
ghost use Rattle.std.specs.Prelude.{◌≡◌, ◌<◌, IfOk, IfSome, length, string_bytes};
ghost use Rattle.ac_cloud.specs.Cloud.CloudWorld.{providers_of};
ghost use Rattle.ac_query.specs.Shown.Queries.{asked_of};
ghost use Rattle.ac_find.specs.Broken.{first_disputed, first_rival, isolate_detail, pair_text, rival_detail};

use super::id_text;
use ac_base::NoMemory;
use ac_rules::Assignment;
use std::alloc::Global;

// The first slot behind one that stands apart with it on one provider.
fn first_rival(assignment: &Assignment, s: usize) -> Option<usize>
    requires { s < length assignment.now.list.now }
    ensures first { result
        ≡ first_rival (asked_of assignment.now.query.now) assignment.now.list.now s }
    ensures inside { IfSome result (λ t. t < length assignment.now.list.now) }
{
    (s + 1..assignment.list.len()).find(|t| !assignment.are_apart(s, *t))
}

// The first slot behind which there is one.
fn first_disputed(assignment: &Assignment) -> Option<usize>
    ensures first { result
        ≡ first_disputed (asked_of assignment.now.query.now) assignment.now.list.now }
    ensures inside { IfSome result (λ s. s < length assignment.now.list.now) }
{
    (0..assignment.list.len()).find(|s| first_rival(assignment, *s).is_some())
}

#[tactic(auto, unfolding(crate::specs::Broken::pair_text))]
fn pair_text(alloc: Global, assignment: &Assignment, s: usize, t: usize) -> Result<String, NoMemory>
    requires s { s < length assignment.now.list.now }
    requires t { t < length assignment.now.list.now }
    ensures { IfOk result (λ text. string_bytes text ≡ pair_text
        (providers_of assignment.now.cloud.now) assignment.now.list.now s t) }
{
    let id = id_text(alloc, &assignment.slot(s).its_provider())?;
    let first = s + 1;
    let second = t + 1;
    Ok(format!(in alloc; "slots {first} and {second} on {id}")?)
}

fn rival_detail(alloc: Global, assignment: &Assignment, s: usize) -> Result<String, NoMemory>
    requires { s < length assignment.now.list.now }
    ensures { IfOk result (λ text. string_bytes text
        ≡ rival_detail (providers_of assignment.now.cloud.now) (asked_of assignment.now.query.now)
        assignment.now.list.now s) }
{
    match first_rival(assignment, s) {
        Some(t) => pair_text(alloc, assignment, s, t),
        None => Ok(String::new(alloc)),
    }
}

/// The first two slots, by the first and then by the second, that both stand apart on one provider.
pub(crate) fn isolate_detail(alloc: Global, assignment: &Assignment) -> Result<String, NoMemory>
    ensures { IfOk result (λ text. string_bytes text
        ≡ isolate_detail (providers_of assignment.now.cloud.now)
        (asked_of assignment.now.query.now) assignment.now.list.now) }
{
    match first_disputed(assignment) {
        Some(s) => rival_detail(alloc, assignment, s),
        None => Ok(String::new(alloc)),
    }
}
