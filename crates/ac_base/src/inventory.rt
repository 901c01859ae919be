//! Inventories, and what they leave for a request.
ghost use Rattle.std.specs.Prelude.{◌≡◌, ◌≤◌};
ghost use Rattle.ac_base.specs.Quantities.{capacity, units, checked_inventory};

use crate::number::Ratio;
use std::marker::Model;

const GREATEST: u32 = 2_147_483_647;

/// What a provider has of one resource class (API reference of Placement, resource provider inventories).
#[derive(Clone, Copy, Debug, PartialEq, Eq)]
pub struct Inventory {
    total: u32,
    reserved: u32,
    min_unit: u32,
    max_unit: u32,
    step_size: u32,
    ratio: Ratio,
}

impl Model for Inventory {
    ghost use Rattle.ac_base.specs.Quantities.{InventoryNumbers, IsInventory};

    ghost Value = { InventoryNumbers };

    ghost view = { λ a. record {
      total = a.total;
      reserved = a.reserved;
      min_unit = a.min_unit;
      max_unit = a.max_unit;
      step_size = a.step_size;
      ratio = a.ratio;
    } };

    ghost invariant = { λ a. IsInventory (record {
      total = a.total;
      reserved = a.reserved;
      min_unit = a.min_unit;
      max_unit = a.max_unit;
      step_size = a.step_size;
      ratio = a.ratio;
    }) };

    ghost inverse = { λ s. record {
      total = s.total;
      reserved = s.reserved;
      min_unit = s.min_unit;
      max_unit = s.max_unit;
      step_size = s.step_size;
      ratio = s.ratio;
    } };
}

impl Inventory {
    /// `None` where a number is over 2147483647, more is reserved than there is, or the step is 0.
    pub fn new(
        total: u32,
        reserved: u32,
        min_unit: u32,
        max_unit: u32,
        step_size: u32,
        ratio: Ratio,
    ) -> Option<Inventory>
        ensures { result ≡ checked_inventory (record {
          total = total;
          reserved = reserved;
          min_unit = min_unit;
          max_unit = max_unit;
          step_size = step_size;
          ratio = ratio;
        }) }
    {
        let small = total <= GREATEST
            && min_unit <= GREATEST
            && max_unit <= GREATEST
            && step_size <= GREATEST;
        if small && reserved <= total && step_size >= 1 {
            Some(Inventory {
                total,
                reserved,
                min_unit,
                max_unit,
                step_size,
                ratio,
            })
        } else {
            None
        }
    }

    /// How much there is.
    pub fn total(&self) -> u32
        ensures { result ≡ self.now.total }
    {
        self.total
    }

    /// How much of it is kept back; it may be all.
    pub fn reserved(&self) -> u32
        ensures { result ≡ self.now.reserved }
    {
        self.reserved
    }

    /// The least amount that one request may take.
    pub fn min_unit(&self) -> u32
        ensures { result ≡ self.now.min_unit }
    {
        self.min_unit
    }

    /// The greatest amount that may be taken at once.
    pub fn max_unit(&self) -> u32
        ensures { result ≡ self.now.max_unit }
    {
        self.max_unit
    }

    /// What divides each amount.
    pub fn step_size(&self) -> u32
        ensures { result ≡ self.now.step_size }
    {
        self.step_size
    }

    /// By how much the class is overcommitted.
    pub fn ratio(&self) -> Ratio
        ensures { result ≡ self.now.ratio }
    {
        self.ratio
    }

    /// The whole part of what isn't reserved, times the ratio, computed exactly.
    pub fn capacity(&self) -> u64
        ensures value { result ≡ capacity self.now }
        ensures bound { result ≤ 2147483647000000 }
    {
        let free = u128::from(self.total - self.reserved);
        (free * u128::from(self.ratio.millionths()) / 1_000_000) as u64
    }

    /// Whether `min_unit`, `max_unit` and `step_size` admit an amount; capacity is no part of it.
    pub fn unit_ok(&self, amount: u64) -> bool
        ensures { result ≡ units self.now amount }
    {
        u64::from(self.min_unit) <= amount
            && amount <= u64::from(self.max_unit)
            && amount % u64::from(self.step_size) == 0
    }
}
