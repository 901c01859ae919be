//! What holds of placements: each function's contract is a law, and no program calls it.

ghost use Rattle.ac_fill.specs.Laws.{AcceptedAsk, ClaimUndoes, ClaimsCommute, FillsFirstFits, FillsInOrder, FillsUp, FillsWithin, LimitTakesFirst, NeverOverbooks, NoneIsLonger};

/// Each placement is the first candidate in the world that the ones before it left.
#[tactic(auto, using(crate::proofs::Ordered::fills_first_fits))]
pub fn fills_first_fits()
    ensures { FillsFirstFits }
{}

/// No placement stands before an earlier one, in the order of tokens.
#[tactic(auto, using(crate::proofs::Ordered::fills_in_order))]
pub fn fills_in_order()
    ensures { FillsInOrder }
{}

/// Without a limit, no candidate is left after all placements.
#[tactic(auto, using(crate::proofs::Ordered::fills_up))]
pub fn fills_up()
    ensures { FillsUp }
{}

/// The placements up to a limit are the first of those without one.
#[tactic(auto, using(crate::proofs::Ordered::limit_takes_first))]
pub fn limit_takes_first()
    ensures { LimitTakesFirst }
{}

/// Wherever a candidate takes anything, no more is used after its claim than the capacity.
#[tactic(auto, using(crate::proofs::Claimed::never_overbooks))]
pub fn never_overbooks()
    ensures { NeverOverbooks }
{}

/// Two claims leave the same world in either order.
#[tactic(auto, using(crate::proofs::Claimed::claims_commute))]
pub fn claims_commute()
    ensures { ClaimsCommute }
{}

/// What is released, and claimed again, leaves all as it was, if it was in use.
#[tactic(auto, using(crate::proofs::Claimed::claim_undoes))]
pub fn claim_undoes()
    ensures { ClaimUndoes }
{}

/// Each query that is accepted asks for an amount of a class, so placements take room, and end.
#[tactic(auto, using(crate::proofs::Accepted::accepted_ask))]
pub fn accepted_ask()
    ensures { AcceptedAsk }
{}

/// No list of placements is longer than the bound, whatever is chosen.
#[tactic(auto, using(crate::proofs::Bounded::none_is_longer))]
pub fn none_is_longer()
    ensures { NoneIsLonger }
{}

/// Placements by first fit are no more than the bound.
#[tactic(auto, using(crate::proofs::Bounded::fills_within))]
pub fn fills_within()
    ensures { FillsWithin }
{}
