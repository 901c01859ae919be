//! Sums: what all slots ask of each provider together.

ghost use Rattle.std.specs.Prelude.{◌≡◌, ◌<◌, ◌^◌, nat_le, map};
ghost use Rattle.ac_base.specs.Names.{class_bytes};
ghost use Rattle.ac_cloud.specs.Providers.{provider_of};
ghost use Rattle.ac_cloud.specs.World.{provider_at, used_of};
ghost use Rattle.ac_cloud.specs.Cloud.CloudWorld.{providers_of};
ghost use Rattle.ac_query.specs.Shown.Groups.{need_entry};
ghost use Rattle.ac_rules.specs.Claims.{uses_sums, is_in_use};
ghost use Rattle.ac_rules.specs.Own.{inventory_of};
ghost use Rattle.ac_rules.specs.Shown.Changes.{is_counted_in_use, is_counted_sum, uses_counted_sums};
ghost use Rattle.ac_rules.specs.Room.{room_in, less};
ghost use Rattle.ac_rules.specs.Together.{amount_of, sum_on, holds, holds_sums, sums};

use crate::assignment::{Assignment, Placed};
use crate::slots::{count_slots, needs_at};
use ac_base::ClassName;
use ac_cloud::Provider;
use ac_query::Need;

/// The most of a class that one assignment may take of a provider: `max_unit`, or what is left of the capacity.
/// `None` where it has none of the class, or more is used than there is.
pub fn room_at(provider: &Provider, class: &ClassName) -> Option<u64>
    ensures { result
        ≡ room_in (inventory_of (provider_of provider.now) (class_bytes class.now))
        (used_of (provider_of provider.now) (class_bytes class.now)) }
{
    let inventory = provider.inventory(class)?;
    let unused = inventory.capacity().checked_sub(provider.used(class))?;
    Some(unused.min(u64::from(inventory.max_unit())))
}

/// Whether a provider has room for an amount of a class.
pub fn has_room_of(provider: &Provider, need: &Need) -> bool
    ensures { result ≡ holds (provider_of provider.now)
        (need_entry need.now).0 (need_entry need.now).1 }
{
    match room_at(provider, need.class()) {
        Some(room) => u64::from(need.amount()) <= room,
        None => false,
    }
}

// What is left of a room after what the needs ask of a class; `None` where it doesn't suffice.
fn take_needs(needs: &[Need], class: &ClassName, room: u64) -> Option<u64>
    ensures { result ≡ less room (amount_of (map need_entry needs.now) (class_bytes class.now)) }
{
    let mut left = room;
    for need in needs {
        if need.class() == class {
            left = left.checked_sub(u64::from(need.amount()))?;
        }
    }
    Some(left)
}

// What needs ask of a class. A sum of so many amounts may be above 2^64, though not of a query that is accepted.
fn amount_of(needs: &[Need], class: &ClassName) -> u128
    ensures amount { result ≡ amount_of (map need_entry needs.now) (class_bytes class.now) }
    ensures small { result < 2 ^ 96 }
{
    let mut amount = 0;
    for need in needs {
        if need.class() == class {
            amount += u128::from(need.amount());
        }
    }
    amount
}

impl<'a> Assignment<'a> {
    ghost use Rattle.ac_rules.specs.Shown.Assignments.{assigned_of, placed_of};

    /// What all slots ask of a class on a provider.
    #[tactic(auto, using(crate::proofs::PlacedLemmas::placed_more, crate::proofs::PlacedLemmas::placed_end))]
    pub fn sum_on(&self, ix: u32, class: &ClassName) -> u128
        ensures { result ≡ sum_on (assigned_of self.now) ix (class_bytes class.now) }
    {
        // Called for what it ensures: there are few slots.
        let _count = count_slots(self.query);
        let mut sum = 0;
        for (s, provider) in self.list.iter().enumerate() {
            if *provider != ix {
                continue;
            }
            sum += amount_of(needs_at(self.query, s), class);
        }
        sum
    }

    // Whether a room suffices for what all slots ask of a class on a provider.
    #[tactic(auto, using(crate::proofs::PlacedLemmas::placed_more, crate::proofs::PlacedLemmas::placed_end))]
    fn suffices(&self, room: u64, ix: u32, class: &ClassName) -> bool
        ensures { result ≡ nat_le (sum_on (assigned_of self.now) ix (class_bytes class.now)) room }
    {
        let mut left = room;
        for (s, provider) in self.list.iter().enumerate() {
            if *provider != ix {
                continue;
            }
            match take_needs(needs_at(self.query, s), class, left) {
                Some(rest) => left = rest,
                None => return false,
            }
        }
        true
    }

    /// Whether the provider of a slot has room for what all slots ask of it of a class.
    pub fn has_room_for(&self, placed: &Placed<'a>, class: &ClassName) -> bool
        ensures { result ≡ holds
            (provider_at (providers_of placed.now.cloud.now) placed.now.provider)
            (class_bytes class.now)
            (sum_on (assigned_of self.now) placed.now.provider (class_bytes class.now)) }
    {
        match room_at(&placed.its_provider(), class) {
            Some(room) => self.suffices(room, placed.provider, class),
            None => false,
        }
    }

    /// Whether the provider of a slot has room for what all slots ask of it in the slot's classes.
    #[tactic(auto, unfolding(crate::specs::Together::holds_sums))]
    pub fn has_room_at(&self, placed: &Placed<'a>) -> bool
        ensures { result ≡ holds_sums (providers_of placed.now.cloud.now) (assigned_of self.now)
            (placed_of placed.now) }
    {
        placed
            .needs()
            .iter()
            .all(|need| self.has_room_for(placed, need.class()))
    }

    /// Sums: whether each provider has room for all that the slots ask of it.
    #[tactic(auto, unfolding(crate::specs::Together::sums))]
    pub fn has_room(&self) -> bool
        ensures { result ≡ sums (providers_of self.now.cloud.now) (assigned_of self.now) }
    {
        self.slots().all(|placed| self.has_room_at(&placed))
    }

    // Whether of the provider of a slot as much of a class is used as all slots ask of it.
    fn uses_sum(&self, placed: &Placed<'a>, class: &ClassName) -> bool
        ensures uses { result
            ≡ nat_le (sum_on (assigned_of self.now) placed.now.provider (class_bytes class.now))
            (used_of (provider_at (providers_of placed.now.cloud.now) placed.now.provider)
            (class_bytes class.now)) }
        ensures counted { result
            ≡ is_counted_sum (providers_of placed.now.cloud.now) (assigned_of self.now)
            placed.now.provider (class_bytes class.now) }
    {
        let used = placed.its_provider().used(class);
        self.suffices(used, placed.provider, class)
    }

    // Whether of the provider of a slot as much is used, in the slot's classes, as all slots ask of it.
    fn uses_sums(&self, placed: &Placed<'a>) -> bool
        ensures uses { result ≡ uses_sums (providers_of placed.now.cloud.now)
            (assigned_of self.now) (placed_of placed.now) }
        ensures counted { result ≡ uses_counted_sums (providers_of placed.now.cloud.now)
            (assigned_of self.now) (placed_of placed.now) }
    {
        placed
            .needs()
            .iter()
            .all(|need| self.uses_sum(placed, need.class()))
    }

    /// Whether of each provider as much is used as all slots ask of it.
    pub(crate) fn is_in_use(&self) -> bool
        ensures in_use { result ≡ is_in_use (providers_of self.now.cloud.now)
            (assigned_of self.now) }
        ensures counted { result ≡ is_counted_in_use (providers_of self.now.cloud.now)
            (assigned_of self.now) }
    {
        self.slots().all(|placed| self.uses_sums(&placed))
    }
}
