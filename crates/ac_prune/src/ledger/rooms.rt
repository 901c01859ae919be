//! Rooms in plain numbers: what each provider can still give of each class that the slots ask for, a row for each provider.

ghost use Rattle.std.specs.Prelude.{◌≡◌, ◌+◌, ◌*◌, ◌<◌, ◌≤◌, ◌^◌, ◌++◌, ℕ, List, length, map, slice_index, IfOk};
ghost use Rattle.std.specs.List.{All, AllByRecursion};
ghost use Rattle.ac_base.specs.Names.{class_bytes};
ghost use Rattle.ac_cloud.specs.Cloud.CloudWorld.{providers_of};
ghost use Rattle.ac_query.specs.Asked.{slots_of};
ghost use Rattle.ac_query.specs.Shown.Groups.{need_entry};
ghost use Rattle.ac_query.specs.Shown.Queries.{asked_of};
ghost use Rattle.ac_rules.specs.Placed.{slot_at};
ghost use Rattle.ac_rules.specs.Room.{class_number, IsKnown};
ghost use Rattle.ac_prune.specs.Left.{ask_pair, numbered, wanted, wanted_at, has_each, room_on, AreRooms};

use ac_base::{ClassName, NoMemory};
use ac_cloud::Cloud;
use ac_query::{Need, Query};
use ac_rules::number_of;
use ac_rules::rules::sums::room_at;
use ac_rules::slots::{count_slots, needs_at};
use std::alloc::Global;

/// What a slot asks of a class, by the class's number.
#[derive(Clone, Copy)]
pub(crate) struct Ask {
    pub(crate) class: usize,
    pub(crate) amount: u32,
}

// What needs ask, class by class.
fn asks_of(alloc: Global, classes: &[&ClassName], needs: &[Need]) -> Result<Vec<Ask>, NoMemory>
    ensures { IfOk result (λ asks. map ask_pair asks.items
        ≡ map (numbered (map (λ c. class_bytes c.now) classes.now)) (map need_entry needs.now)) }
{
    let mut asks = Vec::new(alloc);
    for need in needs {
        let class = number_of(classes, need.class());
        asks.push(Ask {
            class,
            amount: need.amount(),
        })?;
    }
    Ok(asks)
}

/// What each slot asks.
pub(crate) fn all_asks(
    alloc: Global,
    query: &Query,
    classes: &[&ClassName],
) -> Result<Vec<Vec<Ask>>, NoMemory>
    ensures { IfOk result (λ all. map (λ asks. map ask_pair asks.items) all.items
        ≡ map (λ slot. map (numbered (map (λ c. class_bytes c.now) classes.now)) slot.needs)
        (slots_of (asked_of query.now))) }
{
    let mut all = Vec::new(alloc);
    for s in 0..count_slots(query) {
        all.push(asks_of(alloc, classes, needs_at(query, s))?)?;
    }
    Ok(all)
}

// Adds the room of a provider for each class.
fn push_row(
    rooms: &mut Vec<u64>,
    cloud: &Cloud,
    ix: u32,
    classes: &[&ClassName],
) -> Result<(), NoMemory>
    requires { ix < length (providers_of cloud.now) }
    ensures rooms { IfOk result (λ _. rooms.new.items ≡ rooms.old.items
        ++ map (λ c. room_on (providers_of cloud.now) ix (class_bytes c.now)) classes.now) }
    ensures small { IfOk result (λ _. (i : ℕ) → slice_index rooms.new.items i < 2 ^ 64) }
{
    for class in classes {
        rooms.push(room_at(&cloud.provider(ix), class).unwrap_or(0))?;
    }
    Ok(())
}

/// The room of each provider for each class, provider by provider.
pub(crate) fn all_rooms(
    alloc: Global,
    cloud: &Cloud,
    classes: &[&ClassName],
) -> Result<Vec<u64>, NoMemory>
    ensures count { IfOk result (λ rooms.
        length rooms.items ≡ length (providers_of cloud.now) * length classes.now) }
    ensures rooms { IfOk result (λ rooms. AreRooms (providers_of cloud.now)
        (map (λ c. class_bytes c.now) classes.now) (length classes.now) rooms.items) }
    ensures small { IfOk result (λ rooms. (i : ℕ) → slice_index rooms.items i < 2 ^ 64) }
{
    let mut rooms = Vec::new(alloc);
    for ix in 0..cloud.len() {
        push_row(&mut rooms, cloud, ix, classes)?;
    }
    Ok(rooms)
}

/// Whether a row of rooms has what each ask wants of its class.
pub(crate) fn has_each(rooms: &[u64], row: usize, asks: &[Ask]) -> bool
    requires { All (λ a. row + a.class < length rooms.now) asks.now }
    ensures { result ≡ has_each (λ k. slice_index rooms.now (row + k)) (map ask_pair asks.now) }
{
    for ask in asks {
        if rooms[row + ask.class] < u64::from(ask.amount) {
            return false;
        }
    }
    true
}

/// What asks want of a class, or less where it is more than can be told.
pub(crate) fn wanted(asks: &[Ask], class: usize) -> u64
    ensures { result ≤ wanted (map ask_pair asks.now) class }
{
    let mut total = 0u64;
    for ask in asks {
        if ask.class == class {
            total = total.saturating_add(u64::from(ask.amount));
        }
    }
    total
}

/// Takes of a row of rooms what asks want.
pub(crate) fn take(rooms: &mut [u64], row: usize, asks: &[Ask])
    requires within { All (λ a. row + a.class < length rooms.old) asks.now }
    requires room { All (λ a. wanted_at row asks.now (row + a.class)
        ≤ slice_index rooms.old (row + a.class)) asks.now }
    ensures { (i : ℕ) → slice_index rooms.new i + wanted_at row asks.now i
        ≡ slice_index rooms.old i }
{
    for ask in asks {
        rooms[row + ask.class] -= u64::from(ask.amount);
    }
}

/// Gives back to a row of rooms what asks want.
pub(crate) fn give_back(rooms: &mut [u64], row: usize, asks: &[Ask])
    requires within { All (λ a. row + a.class < length rooms.old) asks.now }
    requires room { All (λ a. slice_index rooms.old (row + a.class)
        + wanted_at row asks.now (row + a.class) < 2 ^ 64) asks.now }
    ensures { (i : ℕ) → slice_index rooms.new i
        ≡ slice_index rooms.old i + wanted_at row asks.now i }
{
    for ask in asks {
        rooms[row + ask.class] += u64::from(ask.amount);
    }
}
