//! How far looking ahead goes. Each number was chosen so that a test takes less time than it saves; with any other the same
//! candidates are found.

/// How many amounts the slots may ask together, for `Ahead` to compare each with those of all later slots: this is done once
/// for a query, in their number squared.
pub(crate) const MOST_ASKS: usize = 128;

/// How many providers of a tree `Ahead` goes over: it does so at many places of a search, and a larger tree seldom lacks.
pub(crate) const MOST_HOSTS: usize = 64;

/// How many steps all tests of `Hosts` may take together, so that in a large cloud a search doesn't begin late: it may find a
/// candidate sooner than they all end.
pub(crate) const MOST_STEPS: u64 = 1 << 28;

/// How many amounts the slots may ask of a class, for `Hosts` to compare each two of them: it goes over all providers for each two.
pub(crate) const MOST_AMOUNTS: usize = 6;

/// To how many trees a path is bound at the most: the next choice is looked up in each of them.
pub(crate) const FEW: usize = 128;

/// In how many trees it is looked up whatever the choices. In more it may take longer than trying the choices between two of
/// theirs.
pub(crate) const FEWEST: usize = 8;

/// How many times the roots of the path's narrowest provider another must have, so that the ledger goes through those of the
/// narrowest instead: each may have to be looked up among the other's, which takes some sixteen steps.
pub(crate) const WIDER: usize = 32;

/// How many things that the group without a suffix requires of its providers together are looked at: a byte each for every
/// provider.
pub(crate) const MOST_WANTED: usize = 16;

/// How many tests there are: five, and one for each of 16 lists of `same_subtree`, since such a test costs memory for every provider; further
/// lists are judged when all slots have a provider, as all are.
pub(crate) const MOST_TESTS: usize = 21;

/// How many pairs of a choice and a tree in which it is available are kept for a slot, or of a choice and a grove: two megabytes
/// of them.
pub(crate) const MOST_PAIRS: u64 = 1 << 18;

/// How many groves are made; with as many, none is split any more. Each list makes one of its roots in each grove that it meets,
/// so that more would be too many pairs.
pub(crate) const MOST_GROVES: usize = 1 << 18;

/// How many choices of the slots that a list of `same_subtree` names are kept by part: two megabytes of them.
pub(crate) const MOST_PLACES: usize = 1 << 18;
