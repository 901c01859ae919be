//! Laws of the definitions. Each function does nothing: its contract is the law.
ghost use Rattle.ac_query.specs.Laws.InOrder.{QueryInOrder};
ghost use Rattle.ac_query.specs.Laws.{AsksOnce, ListsMean, OrderHolds, SlotsNameGroups, TokenReads};

/// Where no pair has a fault, exactly one record is what the pairs ask for, and it is the one that is gathered.
pub fn asks_once()
    ensures { AsksOnce }
{}

/// Texts in byte order rise, and are those that they were made of.
pub fn order_holds()
    ensures { OrderHolds }
{}

/// A list has a value where each of its items has one: names, suffixes, and the traits that are required and those that are forbidden in byte
/// order, each once; ids as written; amounts by class, where no class stands twice.
pub fn lists_mean()
    ensures { ListsMean }
{}

/// The text of ids is read as these ids, in order.
pub fn token_reads()
    ensures { TokenReads }
{}

/// The place of a slot is that of its group.
#[tactic(auto, using(crate::proofs::SlotPlaces::slots_name_groups))]
pub fn slots_name_groups()
    ensures { SlotsNameGroups }
{}

/// What pairs ask for is in order: only the first group may have no suffix, suffixes are different and none is empty, each amount is at
/// least 1, and no class of a group stands twice. So it is of each query that is accepted.
#[tactic(auto, using(crate::proofs::Pairs::Ordered::query_in_order))]
pub fn query_in_order()
    ensures { QueryInOrder }
{}
