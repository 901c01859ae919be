//! What changes say.
use ac_base::{ClassName, Id, Ratio, TraitName};

/// Whom an edit touches.
#[derive(Debug, Drop)]
pub enum Scope {
    /// The provider that a text names, by its UUID or by a name that no other has.
    Host(Vec<u8>),
    /// The root of its tree.
    Root(Vec<u8>),
    /// All providers.
    Everyone,
    /// The members of an aggregate, and all providers of their trees.
    Members(Id),
}

/// A number of an inventory, and what it becomes.
#[derive(Clone, Copy, Debug, PartialEq, Eq)]
pub enum Setting {
    /// How much there is.
    Total(u32),
    /// How much of it is kept back.
    Reserved(u32),
    /// The least amount that one request may take.
    MinUnit(u32),
    /// The greatest amount that may be taken at once.
    MaxUnit(u32),
    /// What divides each amount.
    StepSize(u32),
    /// By how much the class is overcommitted.
    Ratio(Ratio),
}

/// What becomes of a provider.
#[derive(Debug, Drop)]
pub enum Edit {
    /// It has this trait.
    Gains(TraitName),
    /// It hasn't this trait.
    Loses(TraitName),
    /// It belongs to this aggregate.
    Joins(Id),
    /// It doesn't belong to this aggregate.
    Leaves(Id),
    /// Its inventory of this class, where it has one, has another number.
    Sets(ClassName, Setting),
}

/// A change of a cloud.
#[derive(Debug, Drop)]
pub enum Change {
    /// An edit of those whom it touches.
    Edit(Scope, Edit),
    /// The tree of the provider that a text names is gone, by its UUID or by a name that no other has.
    Remove(Vec<u8>),
    /// There are so many more trees like that of the provider that a text names, with nothing used.
    Add(u32, Vec<u8>),
}

/// A change, and the number of its line.
#[derive(Debug, Drop)]
pub struct Line {
    pub number: u64,
    pub change: Change,
}
