//! Why a page was not written whole.
use ac_base::{NoMemory, WriteFailed};
use ac_search::{SearchFault, TooManyTries};
use std::alloc::AllocError;
use thiserror::Error;

/// Why a page wasn't written whole.
#[derive(Clone, Copy, Debug, PartialEq, Eq, Error)]
pub enum PageFault {
    /// The sink failed.
    #[error("write failed")]
    WriteFailed,
    /// A growth was refused.
    #[error("out of memory")]
    NoMemory,
    /// The search made as many tries as it may.
    #[error("too many tries")]
    TooManyTries,
}

impl From<NoMemory> for PageFault {
    ghost use Rattle.std.specs.Prelude.{◌≡◌};
    ghost use Rattle.ac_report.specs.declared.fault.PageFault.TheVariants as fault;

    ghost from_gives = { λ _ e. e ≡ fault.NoMemory };

    fn from(_error: NoMemory) -> PageFault {
        PageFault::NoMemory
    }
}

impl From<AllocError> for PageFault {
    ghost use Rattle.std.specs.Prelude.{◌≡◌};
    ghost use Rattle.ac_report.specs.declared.fault.PageFault.TheVariants as fault;

    ghost from_gives = { λ _ e. e ≡ fault.NoMemory };

    fn from(_error: AllocError) -> PageFault {
        PageFault::NoMemory
    }
}

impl From<WriteFailed> for PageFault {
    ghost use Rattle.std.specs.Prelude.{◌≡◌};
    ghost use Rattle.ac_report.specs.declared.fault.PageFault.TheVariants as fault;

    ghost from_gives = { λ _ e. e ≡ fault.WriteFailed };

    fn from(_error: WriteFailed) -> PageFault {
        PageFault::WriteFailed
    }
}

impl From<TooManyTries> for PageFault {
    ghost use Rattle.std.specs.Prelude.{◌≡◌};
    ghost use Rattle.ac_report.specs.declared.fault.PageFault.TheVariants as fault;

    ghost from_gives = { λ _ e. e ≡ fault.TooManyTries };

    fn from(_error: TooManyTries) -> PageFault {
        PageFault::TooManyTries
    }
}

impl From<SearchFault> for PageFault {
    ghost use Rattle.std.specs.Prelude.{◌≡◌};
    ghost use Rattle.ac_report.specs.Outcomes.{fault_of};

    ghost from_gives = { λ fault e. e ≡ fault_of fault };

    fn from(fault: SearchFault) -> PageFault {
        match fault {
            SearchFault::NoMemory => PageFault::NoMemory,
            SearchFault::TooManyTries => PageFault::TooManyTries,
        }
    }
}
