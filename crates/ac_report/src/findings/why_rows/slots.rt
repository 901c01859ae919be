//! The rows of slots: the classes that nobody has in the tree of a root, and how far each provider comes there.
ghost use Rattle.std.specs.Prelude.{◌≡◌, ◌+◌, ◌&&◌, ◌++◌, ◌∷◌, ◌<◌, ℕ, List, [], IfOk, length, map};
ghost use Rattle.std.specs.List.{list_any};
ghost use Rattle.ac_base.specs.Writing.Rows.{HasRows};
ghost use Rattle.ac_cloud.specs.Providers.{provider_of};
ghost use Rattle.ac_cloud.specs.World.{is_available_at, provider_at};
ghost use Rattle.ac_cloud.specs.Cloud.CloudWorld.{providers_of};
ghost use Rattle.ac_query.specs.Asked.{slots_of};
ghost use Rattle.ac_query.specs.Shown.Groups.{need_entry};
ghost use Rattle.ac_query.specs.Shown.Queries.{asked_of};
ghost use Rattle.ac_rules.specs.Placed.{slot_at};
ghost use Rattle.ac_rules.specs.Shown.Assignments.{placed_of};
ghost use Rattle.ac_find.specs.Explained.{has_inventory};
ghost use Rattle.ac_report.specs.Findings.WhyRows.{has_a_class, nobody_row, nobody_rows, placed_row, provider_rows, rows_of_slots, slot_front, slot_rows, stage_shown};
ghost use Rattle.ac_report.specs.Findings.WhyRows.Shown.{front_shown};

use crate::findings::asks::asks_text;
use crate::findings::lacks::stage_name;
use crate::findings::slot_details::{detail_of, nobody_text};
use crate::findings::why_rows::row::{Front, write_fields, write_provider};
use crate::request::suffix_text;
use ac_base::NoMemory;
use ac_base::pieces::digits::Digits;
use ac_cloud::{Cloud, Provider};
use ac_find::{Stage, first_failed, has_inventory, somebody_there_has_class};
use ac_query::{Need, Query};
use ac_rules::Placed;
use ac_rules::slots::{count_slots, group_at, needs_at};
use csv::Writer;
use std::alloc::Global;

// Writes the row of a class of which nobody there has an inventory.
fn write_nobody(
    alloc: Global,
    rows: &mut Writer<Vec<u8>>,
    front: Front,
    need: &Need,
) -> Result<(), NoMemory>
    ensures { IfOk result (λ _. (before : List (List (List ℕ))) → HasRows rows.old before
        → HasRows rows.new (before
        ++ nobody_row (front_shown front.entry) (need_entry need.now).0 ∷ [])) }
{
    let text = nobody_text(alloc, need)?;
    let lacks = stage_name(Stage::Inventory);
    write_fields(rows, front, b"", b"", lacks, text.as_bytes())
}

// Writes the rows of the classes of which nobody there has an inventory.
fn write_nobodys(
    alloc: Global,
    rows: &mut Writer<Vec<u8>>,
    cloud: &Cloud,
    root: u32,
    front: Front,
    needs: &[Need],
) -> Result<(), NoMemory>
    requires { root < length (providers_of cloud.now) }
    ensures { IfOk result (λ _. (before : List (List (List ℕ))) → HasRows rows.old before
        → HasRows rows.new (before ++ nobody_rows (providers_of cloud.now) root
        (front_shown front.entry) (map need_entry needs.now))) }
{
    for need in needs {
        if !somebody_there_has_class(cloud, root, need) {
            write_nobody(alloc, rows, front, need)?;
        }
    }
    Ok(())
}

fn stage_shown(failed: Option<Stage>) -> &'static [u8]
    ensures { result.now ≡ stage_shown failed }
{
    match failed {
        None => b"",
        Some(stage) => stage_name(stage),
    }
}

// Writes the row of a provider in a slot, behind the front of the slot's rows.
fn write_placed(
    alloc: Global,
    rows: &mut Writer<Vec<u8>>,
    placed: &Placed,
    front: Front,
) -> Result<(), NoMemory>
    requires { front_shown front ≡ slot_front (placed.now.slot + 1) (placed_of placed.now).slot }
    ensures { IfOk result (λ _. (before : List (List (List ℕ))) → HasRows rows.old before
        → HasRows rows.new (before ++ placed_row (providers_of placed.now.cloud.now)
        (placed.now.slot + 1) (placed_of placed.now) ∷ [])) }
{
    let failed = first_failed(placed);
    let detail = detail_of(alloc, placed, failed)?;
    write_provider(
        alloc,
        rows,
        placed.cloud,
        placed.provider,
        front,
        stage_shown(failed),
        detail.as_bytes(),
    )
}

// Whether a provider has an inventory of one of these classes.
fn has_some_inventory(provider: &Provider, needs: &[Need]) -> bool
    ensures { result ≡ list_any (λ need. has_inventory (provider_of provider.now) need.0)
        (map need_entry needs.now) }
{
    needs.iter().any(|need| has_inventory(provider, need))
}

// Whether a provider has an inventory of a class that is needed; where none is needed, each provider does.
fn has_a_class(provider: &Provider, needs: &[Need]) -> bool
    ensures { result ≡ has_a_class (provider_of provider.now) (map need_entry needs.now) }
{
    needs.is_empty() || has_some_inventory(provider, needs)
}

// Whether a provider is looked at for its slot at a root.
fn is_looked_at(placed: &Placed, root: u32) -> bool
    requires { root < length (providers_of placed.now.cloud.now) }
    ensures { result
        ≡ (is_available_at (providers_of placed.now.cloud.now) placed.now.provider root
        && has_a_class (provider_at (providers_of placed.now.cloud.now) placed.now.provider)
        (placed_of placed.now).slot.needs) }
{
    placed.cloud.available(placed.provider, root)
        && has_a_class(&placed.its_provider(), placed.needs())
}

// Writes the rows of the providers that are looked at for a slot, behind the front of its rows.
fn write_providers(
    alloc: Global,
    rows: &mut Writer<Vec<u8>>,
    cloud: &Cloud,
    query: &Query,
    root: u32,
    s: usize,
    front: Front,
) -> Result<(), NoMemory>
    requires root { root < length (providers_of cloud.now) }
    requires slot { s < length (slots_of (asked_of query.now)) }
    requires front { front_shown front ≡ slot_front (s + 1) (slot_at (asked_of query.now) s) }
    ensures { IfOk result (λ _. (before : List (List (List ℕ))) → HasRows rows.old before
        → HasRows rows.new (before
        ++ provider_rows (providers_of cloud.now) (asked_of query.now) root s)) }
{
    for ix in 0..cloud.len() {
        let placed = Placed {
            cloud,
            query,
            slot: s,
            provider: ix,
        };
        if is_looked_at(&placed, root) {
            write_placed(alloc, rows, &placed, front)?;
        }
    }
    Ok(())
}

// Writes the rows of a slot.
fn write_slot(
    alloc: Global,
    rows: &mut Writer<Vec<u8>>,
    cloud: &Cloud,
    query: &Query,
    root: u32,
    s: usize,
) -> Result<(), NoMemory>
    requires root { root < length (providers_of cloud.now) }
    requires slot { s < length (slots_of (asked_of query.now)) }
    ensures { IfOk result (λ _. (before : List (List (List ℕ))) → HasRows rows.old before
        → HasRows rows.new (before
        ++ slot_rows (providers_of cloud.now) (asked_of query.now) root s)) }
{
    let needs = needs_at(query, s);
    let number = Digits::of(s as u32 + 1);
    let asks = asks_text(alloc, needs)?;
    let front = Front {
        slot: number.as_bytes(),
        suffix: suffix_text(group_at(query, s)).as_bytes(),
        asks: asks.as_slice(),
    };
    write_nobodys(alloc, rows, cloud, root, front, needs)?;
    write_providers(alloc, rows, cloud, query, root, s, front)
}

/// Writes the rows of all slots.
pub(super) fn write_slots(
    alloc: Global,
    rows: &mut Writer<Vec<u8>>,
    cloud: &Cloud,
    query: &Query,
    root: u32,
) -> Result<(), NoMemory>
    requires { root < length (providers_of cloud.now) }
    ensures { IfOk result (λ _. (before : List (List (List ℕ))) → HasRows rows.old before
        → HasRows rows.new (before
        ++ rows_of_slots (providers_of cloud.now) (asked_of query.now) root)) }
{
    for s in 0..count_slots(query) {
        write_slot(alloc, rows, cloud, query, root, s)?;
    }
    Ok(())
}
