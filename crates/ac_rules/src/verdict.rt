//! The rules of a candidate, and what is said of a list.
/// The rules of a candidate, in their order.
#[derive(Clone, Copy, Debug, PartialEq, Eq)]
pub enum Rule {
    /// Each provider has inventories whose units admit the amounts of its slot.
    Units,
    /// No provider has a forbidden trait of its group; in a suffixed group it has all required ones.
    SlotTraits,
    /// Of the aggregates of each rule of its group, each provider is in one, or in none where the rule forbids them.
    Aggregates,
    /// Each provider is in the tree that its group names.
    Tree,
    /// The providers of the unsuffixed group have its required traits together.
    Collective,
    /// Each provider has room for all that the slots ask of it together.
    Sums,
    /// Under `isolate`, suffixed groups with resources have different providers.
    Isolate,
    /// In each list of `same_subtree` one provider is above all of them.
    Subtree,
    /// In the tree of some root that the query takes, every provider is available.
    Anchor,
}

/// What is said of one list of providers.
#[derive(Clone, Copy, Debug, PartialEq, Eq)]
pub enum Verdict {
    /// It meets all rules.
    Candidate,
    /// The first rule, in their order, that it breaks at any place.
    Broken(Rule),
}
