//! What holds of the counts of an explanation, of the roots that fit, of what is told of a broken rule, and of the service's own rules: a function's contract is a law, and no program calls it.

ghost use Rattle.ac_find.specs.Laws.{BrokenIsTold, CountsFall, LackNothing, MisfitIsTold, NoRootHas, NobodyHas, NobodyIsThere, NoneWithoutRoots, NoneWithoutTraits, PlacedFits, RootIsTold, RootTraitsZero, RootsFall, SlotZero, SomeFits};
ghost use Rattle.ac_find.specs.Service.Rules.{FloatsAgree, IsolateAgrees};

/// In a slot's line no number is greater than the one before it.
pub fn counts_fall()
    ensures { CountsFall }
{}

/// Nor is one in the line of trees.
pub fn roots_fall()
    ensures { RootsFall }
{}

/// Where no provider has what a slot asks, room included, there is no candidate.
#[tactic(auto, using(crate::proofs::NoneLemmas::slot_zero))]
pub fn slot_zero()
    ensures { SlotZero }
{}

/// Where the query takes no root, there is no candidate.
#[tactic(auto, using(crate::proofs::NoneLemmas::root_traits_zero))]
pub fn root_traits_zero()
    ensures { RootTraitsZero }
{}

/// Where no root has a provider for each slot, there is no candidate.
pub fn none_without_roots()
    ensures { NoneWithoutRoots }
{}

/// Where no root holds what the group without a suffix requires, beside a provider for each slot, there is no candidate.
pub fn none_without_traits()
    ensures { NoneWithoutTraits }
{}

/// Where nobody has something that a group asks, a class or a required trait, there is no candidate.
#[tactic(auto, using(crate::proofs::NobodyLaws::nobody_has))]
pub fn nobody_has()
    ensures { NobodyHas }
{}

/// Where nobody is in the aggregates that a slot's group asks for, or is the provider whose tree it asks for, there is no candidate.
#[tactic(auto, using(crate::proofs::NobodyLaws::nobody_is_there))]
pub fn nobody_is_there()
    ensures { NobodyIsThere }
{}

/// Where no root has a trait that is asked of it, there is no candidate.
#[tactic(auto, using(crate::proofs::NobodyLaws::no_root_has))]
pub fn no_root_has()
    ensures { NoRootHas }
{}

/// Some root fits exactly where there is a candidate.
pub fn some_fits()
    ensures { SomeFits }
{}

/// A root fits exactly where it lacks nothing.
pub fn lack_nothing()
    ensures { LackNothing }
{}

/// An inventory of which some amount can be placed isn't told as one that never fits.
#[tactic(auto, using(crate::proofs::AuditFacts::placed_fits))]
pub fn placed_fits()
    ensures { PlacedFits }
{}

/// Of the first rule that an assignment breaks something is told.
pub fn broken_is_told()
    ensures { BrokenIsTold }
{}

/// Behind a slot and its provider stands of what this one breaks a rule of its slot.
pub fn misfit_is_told()
    ensures { MisfitIsTold }
{}

/// Behind a root at which all providers are available stands what this one lacks.
pub fn root_is_told()
    ensures { RootIsTold }
{}

/// Where `isolate` and groups without resources don't meet, the service's `isolate` gives the same candidates.
pub fn isolate_agrees()
    ensures { IsolateAgrees }
{}

/// Where no capacity that matters is another one in floating point, the service's capacities give the same candidates.
pub fn floats_agree()
    ensures { FloatsAgree }
{}
