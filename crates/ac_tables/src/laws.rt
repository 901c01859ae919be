//! Laws of the definitions. Each function does nothing: its contract is the law.
ghost use Rattle.ac_tables.specs.Laws.{OrderHolds, ProvidersInOrder, UsagesReadBack};

pub use ac_cloud::laws::{chain_is_above, cloud_in_order, cloud_is_forest, top_is_root};

/// The providers that tables state stand in the order of their ids, which are numbers of 128 bits.
#[tactic(auto, using(crate::proofs::ProvidersStated::providers_in_order))]
pub fn providers_in_order()
    ensures { ProvidersInOrder }
{}

/// What is gathered in order, of ids, of names or by class, rises, and is just what it was gathered of.
#[tactic(auto, using(crate::proofs::Sorted::OrderFacts::order_holds))]
pub fn order_holds()
    ensures { OrderHolds }
{}

/// The table of usages that is written, read back, states how much is used of each class of each provider.
#[tactic(auto, using(crate::proofs::UsageRows::Read::usages_read_back))]
pub fn usages_read_back()
    ensures { UsagesReadBack }
{}
