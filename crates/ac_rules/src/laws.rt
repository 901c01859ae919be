//! What holds of candidates and of their pages: each function's contract is a law, and no program calls it.

ghost use Rattle.std.specs.Prelude.{List};
ghost use Rattle.ac_query.specs.Asked.{Asked};
ghost use Rattle.ac_cloud.specs.World.{Provider};
ghost use Rattle.ac_rules.specs.Laws.{ClaimsAlone, ClaimsInUse, ClaimsNarrow, ReleaseUndoes, AreInOrder, PrefixOpen, PagesJoin, RestBegins, JudgesCandidates, SumsSayFull, IsolateSaysApart};

/// Each front of a candidate is open, so a search that leaves what isn't open loses none.
#[tactic(auto, using(crate::proofs::EachSlot::FrontLemmas::prefix_open))]
pub fn prefix_open()
    ensures { PrefixOpen }
{}

/// A page, and the one that goes on after its last list, are one page.
#[tactic(auto, using(crate::proofs::Lists::PageLemmas::pages_join))]
pub fn pages_join()
    ensures { PagesJoin }
{}

/// The candidates rise strictly by their ids, and what is left after a list of ids begins with the least candidate after it.
pub fn rest_begins()
    ensures { (all : List Provider) → AreInOrder all → (asked : Asked) → RestBegins all asked }
{}

/// The verdict is that no rule is broken exactly where a list is a candidate.
#[tactic(auto, using(crate::proofs::EachSlot::JudgeLemmas::judges_candidates))]
pub fn judges_candidates()
    ensures { JudgesCandidates }
{}

/// Sums is kept exactly where, wherever slots ask anything of a class on a provider, it has room for their sum.
#[tactic(auto, using(crate::proofs::EachSlot::FullLemmas::sums_say_full))]
pub fn sums_say_full()
    ensures { SumsSayFull }
{}

/// Isolate, where it is asked for, is kept exactly where every two suffixed slots with classes have different providers.
#[tactic(auto, using(crate::proofs::EachSlot::ApartLemmas::isolate_says_apart))]
pub fn isolate_says_apart()
    ensures { IsolateSaysApart }
{}

/// Each candidate after a claim was one before it, whatever the query asks.
pub fn claims_narrow()
    ensures { ClaimsNarrow }
{}

/// What is claimed and released again leaves all as it was.
pub fn release_undoes()
    ensures { ReleaseUndoes }
{}

/// A candidate that is claimed is in use, so it can be released.
pub fn claims_in_use()
    ensures { ClaimsInUse }
{}

/// Claims and releases change used amounts alone: no tree, nor where providers are available, nor what they have.
pub fn claims_alone()
    ensures { ClaimsAlone }
{}
