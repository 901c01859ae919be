//! Why a search has no answer.
use ac_base::NoMemory;
use ac_rules::TooManyTries;
use std::alloc::{AllocError, AllocFailed};
use thiserror::Error;

/// Why a search has no answer.
#[derive(Clone, Copy, Debug, PartialEq, Eq, Error)]
pub enum SearchFault {
    /// A growth was refused.
    #[error("out of memory")]
    NoMemory,
    /// It made as many tries as it may.
    #[error("too many tries")]
    TooManyTries,
}

impl From<NoMemory> for SearchFault {
    ghost use Rattle.std.specs.Prelude.{◌≡◌};
    ghost use Rattle.ac_search.specs.declared.fault.SearchFault.TheVariants as fault;

    ghost from_gives = { λ _ e. e ≡ fault.NoMemory };

    fn from(_error: NoMemory) -> SearchFault {
        SearchFault::NoMemory
    }
}

impl From<AllocError> for SearchFault {
    ghost use Rattle.std.specs.Prelude.{◌≡◌};
    ghost use Rattle.ac_search.specs.declared.fault.SearchFault.TheVariants as fault;

    ghost from_gives = { λ _ e. e ≡ fault.NoMemory };

    fn from(_error: AllocError) -> SearchFault {
        SearchFault::NoMemory
    }
}

impl<T: Drop> From<AllocFailed<T>> for SearchFault {
    ghost use Rattle.std.specs.Prelude.{◌≡◌};
    ghost use Rattle.ac_search.specs.declared.fault.SearchFault.TheVariants as fault;

    ghost from_gives = { λ _ e. e ≡ fault.NoMemory };

    fn from(_error: AllocFailed<T>) -> SearchFault {
        SearchFault::NoMemory
    }
}

impl From<TooManyTries> for SearchFault {
    ghost use Rattle.std.specs.Prelude.{◌≡◌};
    ghost use Rattle.ac_search.specs.declared.fault.SearchFault.TheVariants as fault;

    ghost from_gives = { λ _ e. e ≡ fault.TooManyTries };

    fn from(_error: TooManyTries) -> SearchFault {
        SearchFault::TooManyTries
    }
}
