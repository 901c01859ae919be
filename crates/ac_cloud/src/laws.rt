//! Laws of trees and of clouds. Each function does nothing: its contract is the law.
ghost use Rattle.ac_cloud.specs.Laws.{AmountsAlone, ChainIsAbove, CloudInOrder, CloudIsForest, TopIsRoot};

/// Where a chain of parents ends, it holds just the providers that are above: a list of parents leads to them.
pub fn chain_is_above()
    ensures { ChainIsAbove }
{}

/// Where a chain of parents ends, its top is the one root: above the provider, and without a parent.
pub fn top_is_root()
    ensures { TopIsRoot }
{}

/// The providers of each cloud stand in the order of their ids, which are numbers of 128 bits.
pub fn cloud_in_order()
    ensures { CloudInOrder }
{}

/// In each cloud every chain of parents ends. So the root of a provider is above it and has no parent, no other provider is both, and the chain of
/// its parents holds just those that are above it.
pub fn cloud_is_forest()
    ensures { CloudIsForest }
{}

/// Where other amounts are used, nothing else is changed: neither trees, nor where providers are available, nor what they have.
pub fn amounts_alone()
    ensures { AmountsAlone }
{}
