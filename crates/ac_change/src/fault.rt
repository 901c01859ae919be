//! Why a change can't be read or made.
ghost use Rattle.std.specs.Prelude.{◌≡◌};

use ac_base::NoMemory;
use std::alloc::{AllocError, AllocFailed};
use thiserror::Error;

/// What is wrong with a change.
#[derive(Clone, Copy, Debug, PartialEq, Eq, Error)]
pub enum ChangeKind {
    /// The line states no change.
    #[error("BadLine")]
    BadLine,
    /// No provider has this UUID or name.
    #[error("UnknownHost")]
    UnknownHost,
    /// Several providers have this name.
    #[error("AmbiguousHost")]
    AmbiguousHost,
    /// More would be reserved of an inventory than there is.
    #[error("ReservedOverTotal")]
    ReservedOverTotal,
    /// There would be more providers than there may be, or no UUID is left for one of them.
    #[error("TooManyProviders")]
    TooManyProviders,
}

/// The first fault of some changes, or a refused growth.
#[derive(Clone, Copy, Debug, PartialEq, Eq, Error)]
pub enum ChangeFault {
    /// Lines are numbered from 1.
    #[error("change: line {line}: {kind}")]
    At { line: u64, kind: ChangeKind },
    /// A growth was refused; it says nothing of the changes.
    #[error("out of memory")]
    NoMemory,
}

// Why a change can't be made, before its line is told.
#[derive(Clone, Copy, Debug, PartialEq, Eq)]
pub(crate) enum Failed {
    Kind(ChangeKind),
    NoMemory,
}

impl From<AllocError> for Failed {
    ghost use Rattle.ac_change.specs.declared.fault.Failed.TheVariants.{NoMemory as refused};

    ghost from_gives = { λ _ told. told ≡ refused };

    fn from(_error: AllocError) -> Failed {
        Failed::NoMemory
    }
}

impl From<NoMemory> for Failed {
    ghost use Rattle.ac_change.specs.declared.fault.Failed.TheVariants.{NoMemory as refused};

    ghost from_gives = { λ _ told. told ≡ refused };

    fn from(_error: NoMemory) -> Failed {
        Failed::NoMemory
    }
}

impl<T: Drop> From<AllocFailed<T>> for Failed {
    ghost use Rattle.ac_change.specs.declared.fault.Failed.TheVariants.{NoMemory as refused};

    ghost from_gives = { λ _ told. told ≡ refused };

    fn from(_error: AllocFailed<T>) -> Failed {
        Failed::NoMemory
    }
}

impl From<NoMemory> for ChangeFault {
    ghost use Rattle.ac_change.specs.declared.fault.ChangeFault.TheVariants.{NoMemory as refused};

    ghost from_gives = { λ _ told. told ≡ refused };

    fn from(_error: NoMemory) -> ChangeFault {
        ChangeFault::NoMemory
    }
}

impl<T: Drop> From<AllocFailed<T>> for ChangeFault {
    ghost use Rattle.ac_change.specs.declared.fault.ChangeFault.TheVariants.{NoMemory as refused};

    ghost from_gives = { λ _ told. told ≡ refused };

    fn from(_error: AllocFailed<T>) -> ChangeFault {
        ChangeFault::NoMemory
    }
}

impl From<AllocError> for ChangeFault {
    ghost use Rattle.ac_change.specs.declared.fault.ChangeFault.TheVariants.{NoMemory as refused};

    ghost from_gives = { λ _ told. told ≡ refused };

    fn from(_error: AllocError) -> ChangeFault {
        ChangeFault::NoMemory
    }
}
