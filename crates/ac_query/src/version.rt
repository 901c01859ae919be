//! The versions of the API, as far as queries differ by them.
ghost use Rattle.std.specs.Prelude.{◌≡◌};
ghost use Rattle.ac_query.specs.Versions.{has_any_of};

/// The microversion of the API by which a query is read.
#[derive(Clone, Copy, Debug, PartialEq, Eq)]
pub enum Version {
    /// 1.36.
    V136,
    /// 1.36 with one thing of 1.39: `required` may be a list `in:A,B` of which one trait is asked, and may be repeated.
    V139,
}

impl Version {
    /// Whether `required` may be a list of which one trait is asked, and may be repeated.
    pub(crate) fn has_any_of(self) -> bool
        ensures { result ≡ has_any_of self }
    {
        match self {
            Version::V136 => false,
            Version::V139 => true,
        }
    }
}
