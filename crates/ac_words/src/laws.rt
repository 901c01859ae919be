//! A law of the definitions. The function does nothing: its contract is the law.
ghost use Rattle.ac_words.specs.Laws.{PathsAlone};

/// Nothing is dropped of a text that is accepted as a query by itself, and nothing of one without a mark; behind the path of a URL in a line such a text is the
/// query.
#[tactic(auto, using(crate::proofs::Marks::paths_alone))]
pub fn paths_alone()
    ensures { PathsAlone }
{}
