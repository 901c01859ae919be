//! Laws of changes. Each function does nothing: its contract is the law.
ghost use Rattle.ac_change.specs.Laws.{AddedGoesAgain, EditsKeepTrees, LosesWhatItGained, OtherTreesStay, OthersStay};

/// An edit leaves all trees as they are.
pub fn edits_keep_trees()
    ensures { EditsKeepTrees }
{}

/// An edit leaves a provider as it is that it doesn't touch.
pub fn others_stay()
    ensures { OthersStay }
{}

/// Where a tree is gone, what is left are trees, and each provider that is left has its parent and its root.
pub fn other_trees_stay()
    ensures { OtherTreesStay }
{}

/// A trait that is gained and then lost leaves the providers as they were, if none of those whom it touches had it: so does `enable` after `disable` of a
/// root that wasn't disabled.
pub fn loses_what_it_gained()
    ensures { LosesWhatItGained }
{}

/// Where there is one tree more like that of a root, and then the tree of the last provider is gone, all is as it was.
pub fn added_goes_again()
    ensures { AddedGoesAgain }
{}
