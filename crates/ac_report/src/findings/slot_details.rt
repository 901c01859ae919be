//! What is wanting in a slot, in words: a class that nobody has, or of what a provider fails a test.
ghost use Rattle.std.specs.Prelude.{◌≡◌, ◌<◌, ℕ, IfOk, Some, [], length, string_bytes};
ghost use Rattle.std.specs.Option.{option_map_or};
ghost use Rattle.ac_cloud.specs.Cloud.CloudWorld.{providers_of};
ghost use Rattle.ac_query.specs.Asked.{slots_of};
ghost use Rattle.ac_query.specs.Shown.Groups.{need_entry};
ghost use Rattle.ac_query.specs.Shown.Queries.{asked_of};
ghost use Rattle.ac_rules.specs.Placed.{placed_at, slot_at};
ghost use Rattle.ac_rules.specs.Shown.Assignments.{placed_of};
ghost use Rattle.ac_report.specs.Findings.SlotDetails.{detail_of, failed_detail, nobody_text, slot_detail};

use ac_base::NoMemory;
use ac_cloud::Cloud;
use ac_find::details::{
    aggregates_detail, inventory_detail, room_detail, traits_detail, tree_detail, units_detail,
};
use ac_find::{Stage, Wanting, first_failed};
use ac_query::{Need, Query};
use ac_rules::Placed;
use ac_rules::slots::needs_at;
use std::alloc::Global;

/// A class that nobody has.
#[tactic(auto, unfolding(crate::specs::Findings::SlotDetails::nobody_text))]
pub(super) fn nobody_text(alloc: Global, need: &Need) -> Result<String, NoMemory>
    ensures { IfOk result (λ text. string_bytes text ≡ nobody_text (need_entry need.now).0) }
{
    let class = need.class().text();
    Ok(format!(in alloc; "{class}: nobody here")?)
}

/// Of what a provider fails that test of its slot; nothing where it fails none.
pub(super) fn detail_of(
    alloc: Global,
    placed: &Placed,
    failed: Option<Stage>,
) -> Result<String, NoMemory>
    ensures { IfOk result (λ text. string_bytes text ≡ detail_of
        (providers_of placed.now.cloud.now) (placed_of placed.now) failed) }
{
    match failed {
        None => Ok(String::new(alloc)),
        Some(Stage::Inventory) => inventory_detail(alloc, placed),
        Some(Stage::Units) => units_detail(alloc, placed),
        Some(Stage::Traits) => traits_detail(alloc, placed),
        Some(Stage::Aggregates) => aggregates_detail(alloc, placed),
        Some(Stage::Tree) => tree_detail(alloc, placed),
        Some(Stage::Room) => room_detail(alloc, placed),
    }
}

// Of what a provider fails the first test that it fails.
fn failed_detail(alloc: Global, placed: &Placed) -> Result<String, NoMemory>
    ensures { IfOk result (λ text. string_bytes text
        ≡ failed_detail (providers_of placed.now.cloud.now) (placed_of placed.now)) }
{
    detail_of(alloc, placed, first_failed(placed))
}

// The same of the provider that comes furthest, where there is one.
fn furthest_detail(
    alloc: Global,
    cloud: &Cloud,
    query: &Query,
    s: usize,
    provider: Option<u32>,
) -> Result<String, NoMemory>
    requires slot { s < length (slots_of (asked_of query.now)) }
    requires provider { (p : ℕ) → provider ≡ Some p → p < length (providers_of cloud.now) }
    ensures { IfOk result (λ text. string_bytes text ≡ option_map_or
        (λ p. failed_detail (providers_of cloud.now) (placed_at (asked_of query.now) s p))
        provider []) }
{
    match provider {
        Some(provider) => failed_detail(alloc, &Placed::new(cloud, query, s, provider)),
        None => Ok(String::new(alloc)),
    }
}

/// What is wanting in a slot at a root: the first class that nobody has there, else of what the provider fails its test that
/// comes furthest.
pub(super) fn slot_detail(
    alloc: Global,
    cloud: &Cloud,
    query: &Query,
    s: usize,
    wanting: &Wanting,
) -> Result<String, NoMemory>
    requires slot { s < length (slots_of (asked_of query.now)) }
    requires provider { (p : ℕ) → wanting.now.provider ≡ Some p
        → p < length (providers_of cloud.now) }
    requires class { (k : ℕ) → wanting.now.class ≡ Some k
        → k < length (slot_at (asked_of query.now) s).needs }
    ensures { IfOk result (λ text. string_bytes text
        ≡ slot_detail (providers_of cloud.now) (slot_at (asked_of query.now) s) wanting.now) }
{
    match wanting.class {
        Some(class) => nobody_text(alloc, &needs_at(query, s)[class]),
        None => furthest_detail(alloc, cloud, query, s, wanting.provider),
    }
}
