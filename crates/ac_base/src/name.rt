//! Names of resource classes and of traits, and suffixes of request groups.
ghost use Rattle.std.specs.Prelude.{IsTrue};
ghost use Rattle.ac_base.specs.Texts.{is_name, is_suffix};
ghost use Rattle.std.specs.Rc.{rc_str_bytes};
ghost use Rattle.std.specs.String.{string_bytes};

use std::alloc::{AllocError, AllocFailed};
use std::rc::RcStr;
use thiserror::Error;

mod class_text;
mod shared;
mod suffix_text;
mod texts;
mod trait_text;

pub use shared::Names;

/// A growth was refused.
#[derive(Clone, Copy, Debug, PartialEq, Eq, Error)]
#[error("out of memory")]
pub struct NoMemory;

impl From<AllocError> for NoMemory {
    fn from(_error: AllocError) -> NoMemory {
        NoMemory
    }
}

impl<T: Drop> From<AllocFailed<T>> for NoMemory {
    fn from(_error: AllocFailed<T>) -> NoMemory {
        NoMemory
    }
}

/// The name of a resource class, as `VCPU`. Names compare and sort by their bytes.
#[derive(Debug, Drop, PartialEq, Eq, PartialOrd, Ord)]
pub struct ClassName {
    text: RcStr,
    ghost named: { IsTrue (is_name (rc_str_bytes text)) },
}

/// The name of a trait, as `HW_NUMA_ROOT`. Names compare and sort by their bytes.
#[derive(Debug, Drop, PartialEq, Eq, PartialOrd, Ord)]
pub struct TraitName {
    text: RcStr,
    ghost named: { IsTrue (is_name (rc_str_bytes text)) },
}

impl Clone for ClassName {
    ghost use Rattle.std.specs.Prelude.{◌≡◌};
    ghost use Rattle.ac_base.specs.Names.{class_bytes};

    ghost is_clone = { λ name other. class_bytes other ≡ class_bytes name };

    /// The same name, which shares its text.
    fn clone(&self) -> Result<ClassName, AllocError> {
        let text = self.text.clone()?;
        Ok(ClassName { text })
    }
}

impl Clone for TraitName {
    ghost use Rattle.std.specs.Prelude.{◌≡◌};
    ghost use Rattle.ac_base.specs.Names.{trait_bytes};

    ghost is_clone = { λ name other. trait_bytes other ≡ trait_bytes name };

    /// The same name, which shares its text.
    fn clone(&self) -> Result<TraitName, AllocError> {
        let text = self.text.clone()?;
        Ok(TraitName { text })
    }
}

/// The suffix of a request group, as `_NUMA` in `resources_NUMA`. Suffixes compare and sort by their bytes.
#[derive(Debug, Drop, PartialEq, Eq, PartialOrd, Ord)]
pub struct Suffix {
    text: String,
    ghost named: { IsTrue (is_suffix (string_bytes text)) },
}
