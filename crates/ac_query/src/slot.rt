//! A slot of a query.
ghost use Rattle.std.specs.Prelude.{◌≡◌};
ghost use Rattle.ac_query.specs.Shown.Slots.{slot_group};

/// A slot of a query: one class of the unsuffixed group, or all classes of a suffixed one.
#[derive(Clone, Copy, Debug)]
pub struct Slot {
    pub(crate) group: usize,
    pub(crate) class: Option<usize>,
}

impl Slot {
    /// The place of its group among the groups of the query.
    pub fn group(&self) -> usize
        ensures { result ≡ slot_group self.now }
    {
        self.group
    }
}
