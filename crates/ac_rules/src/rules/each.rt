//! The rules of a single slot, at all slots of an assignment.

ghost use Rattle.std.specs.Prelude.{◌≡◌};
ghost use Rattle.std.specs.List.{list_all};
ghost use Rattle.ac_cloud.specs.Cloud.CloudWorld.{providers_of};
ghost use Rattle.ac_rules.specs.Own.{units_fit, traits_fit, aggregates_fit, tree_fits};

use crate::assignment::Assignment;

impl<'a> Assignment<'a> {
    ghost use Rattle.ac_rules.specs.Shown.Assignments.{assigned_of};

    /// Whether Units is kept at each slot.
    pub(crate) fn has_units(&self) -> bool
        ensures { result ≡ list_all (λ x. units_fit (providers_of self.now.cloud.now) x)
            (assigned_of self.now) }
    {
        self.slots().all(|placed| placed.has_units())
    }

    /// Whether SlotTraits is kept at each slot.
    pub(crate) fn has_slot_traits(&self) -> bool
        ensures { result ≡ list_all (λ x. traits_fit (providers_of self.now.cloud.now) x)
            (assigned_of self.now) }
    {
        self.slots().all(|placed| placed.has_slot_traits())
    }

    /// Whether Aggregates is kept at each slot.
    pub(crate) fn has_aggregates(&self) -> bool
        ensures { result ≡ list_all (λ x. aggregates_fit (providers_of self.now.cloud.now) x)
            (assigned_of self.now) }
    {
        self.slots().all(|placed| placed.has_aggregates())
    }

    /// Whether Tree is kept at each slot.
    pub(crate) fn is_in_trees(&self) -> bool
        ensures { result ≡ list_all (λ x. tree_fits (providers_of self.now.cloud.now) x)
            (assigned_of self.now) }
    {
        self.slots().all(|placed| placed.is_in_tree())
    }
}
