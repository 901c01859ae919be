//! What the slot asks that a root lacks a provider for, and what is wanting there.
ghost use Rattle.std.specs.Prelude.{◌≡◌, ◌<◌, ◌-◌, ℕ, IfOk, Some, [], length, map, string_bytes};
ghost use Rattle.std.specs.Option.{option_map_or};
ghost use Rattle.ac_cloud.specs.Cloud.CloudWorld.{providers_of};
ghost use Rattle.ac_query.specs.Asked.{slots_of};
ghost use Rattle.ac_query.specs.Shown.Groups.{need_entry};
ghost use Rattle.ac_query.specs.Shown.Queries.{asked_of};
ghost use Rattle.ac_rules.specs.Placed.{slot_at};
ghost use Rattle.ac_find.specs.Furthest.{wanting_where};
ghost use Rattle.ac_find.specs.Lacking.{lack_at};
ghost use Rattle.ac_find.specs.Unheld.{unheld_where};
ghost use Rattle.ac_find.specs.declared.furthest.Wanting.{Wanting};
ghost use Rattle.ac_report.specs.Findings.HostRows.{asks_of, host_detail};
ghost use Rattle.ac_report.specs.Findings.SlotDetails.{slot_detail};

use crate::findings::asks::asks_text;
use crate::findings::slot_details::slot_detail;
use ac_base::NoMemory;
use ac_cloud::Cloud;
use ac_find::details::root_detail;
use ac_find::{Lack, Unheld, Wanting, unheld_text};
use ac_query::{Need, Query};
use ac_rules::slots::{count_slots, needs_at};
use std::alloc::Global;

// What a slot needs, by its number; past the last slot nothing.
fn needs_of(query: &Query, number: u32) -> &[Need]
    ensures { map need_entry result.now ≡ (slot_at (asked_of query.now) (number - 1)).needs }
{
    let s = number.saturating_sub(1) as usize;
    if s < count_slots(query) {
        needs_at(query, s)
    } else {
        &[]
    }
}

/// What the slot asks that a root lacks a provider for; nothing where it lacks something else.
pub(super) fn asks_of(
    alloc: Global,
    query: &Query,
    lacks: Option<Lack>,
) -> Result<Vec<u8>, NoMemory>
    ensures { IfOk result (λ text. text.items ≡ asks_of (asked_of query.now) lacks) }
{
    match lacks {
        Some(Lack::Slot { slot, stage: _ }) => asks_text(alloc, needs_of(query, slot)),
        _ => Ok(Vec::new(alloc)),
    }
}

// What is wanting in a slot, where that is found.
fn wanting_detail(
    alloc: Global,
    cloud: &Cloud,
    query: &Query,
    s: usize,
    wanting: Option<Wanting>,
) -> Result<String, NoMemory>
    requires slot { s < length (slots_of (asked_of query.now)) }
    requires provider { (w : Wanting) (p : ℕ) → wanting ≡ Some w → w.provider ≡ Some p
        → p < length (providers_of cloud.now) }
    requires class { (w : Wanting) (k : ℕ) → wanting ≡ Some w → w.class ≡ Some k
        → k < length (slot_at (asked_of query.now) s).needs }
    ensures { IfOk result (λ text. string_bytes text ≡ option_map_or
        (λ w. slot_detail (providers_of cloud.now) (slot_at (asked_of query.now) s) w) wanting []) }
{
    match wanting {
        Some(wanting) => slot_detail(alloc, cloud, query, s, &wanting),
        None => Ok(String::new(alloc)),
    }
}

/// What is wanting in the slot that a root lacks a provider for, or which trait of the root is, or what isn't held of what the group
/// without a suffix requires, by what is found there.
pub(super) fn host_detail(
    alloc: Global,
    cloud: &Cloud,
    query: &Query,
    root: u32,
    lacks: Option<Lack>,
    wanting: Option<Wanting>,
    unheld: Option<Unheld>,
) -> Result<String, NoMemory>
    requires root { root < length (providers_of cloud.now) }
    requires lacks { lacks ≡ lack_at (providers_of cloud.now) (asked_of query.now) root }
    requires wanting { wanting
        ≡ wanting_where (providers_of cloud.now) (asked_of query.now) root lacks }
    requires unheld { unheld
        ≡ unheld_where (providers_of cloud.now) (asked_of query.now) root lacks }
    ensures { IfOk result (λ text. string_bytes text
        ≡ host_detail (providers_of cloud.now) (asked_of query.now) root lacks) }
{
    match lacks {
        Some(Lack::Slot { slot, stage: _ }) => {
            wanting_detail(alloc, cloud, query, slot as usize - 1, wanting)
        }
        Some(Lack::RootTraits) => root_detail(alloc, &cloud.provider(root), query),
        Some(Lack::RequiredTraits) => unheld_text(alloc, query, unheld),
        _ => Ok(String::new(alloc)),
    }
}
