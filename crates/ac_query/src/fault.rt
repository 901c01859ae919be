//! Why a query is refused.
use ac_base::{NoMemory, Suffix};
use std::alloc::AllocError;

/// Why a query is refused: the first of these that is found, pair by pair and then of the whole.
///
/// A number is that of the pair, from 1. A group without a suffix is the unsuffixed one.
#[derive(Debug, Drop)]
pub enum QueryFault {
    /// The text has more than 65536 bytes.
    QueryTooLong,
    /// The name is no parameter.
    UnknownParameter(u32),
    /// The name was there before, and may be given once.
    Repeated(u32),
    /// The value doesn't have its parameter's form.
    BadValue(u32),
    /// The value requires and forbids one trait.
    Conflict(u32),
    /// No group has resources.
    NoResources,
    /// A group has no resources, and no `same_subtree` lists it.
    GroupWithoutResources(Option<Suffix>),
    /// A `same_subtree` lists a suffix of no group.
    UnknownSuffix(Suffix),
    /// More than one suffixed group has resources, and there is no `group_policy`.
    PolicyMissing,
    /// There are more than 64 slots, or more than 256 pairs of a group and a class.
    TooManySlots,
    /// A growth was refused.
    NoMemory,
}

impl From<NoMemory> for QueryFault {
    ghost use Rattle.std.specs.Prelude.{◌≡◌};
    ghost use Rattle.ac_query.specs.declared.fault.QueryFault.TheVariants.{NoMemory as refused};

    ghost from_gives = { λ _ e. e ≡ refused };

    fn from(_error: NoMemory) -> QueryFault {
        QueryFault::NoMemory
    }
}

impl From<AllocError> for QueryFault {
    ghost use Rattle.std.specs.Prelude.{◌≡◌};
    ghost use Rattle.ac_query.specs.declared.fault.QueryFault.TheVariants.{NoMemory as refused};

    ghost from_gives = { λ _ e. e ≡ refused };

    fn from(_error: AllocError) -> QueryFault {
        QueryFault::NoMemory
    }
}
