//! Whom an edit touches.
ghost use Rattle.std.specs.Prelude.{◌≡◌};
ghost use Rattle.ac_change.specs.Marked.{is_marked};

use crate::draft::held::Held;
use ac_base::Id;
use std::collections::BTreeSet;

// The provider of an id, all, or those of the trees of some roots.
#[derive(Drop)]
pub(crate) enum Touched {
    One(Id),
    Everyone,
    Trees(BTreeSet<Id>),
}

impl Touched {
    // Whether it is touched.
    pub(crate) fn is_marked(&self, held: &Held) -> bool
        ensures { result ≡ is_marked self.now held.now }
    {
        match self {
            Touched::One(id) => held.id == *id,
            Touched::Everyone => true,
            Touched::Trees(roots) => roots.contains(&held.root),
        }
    }
}
