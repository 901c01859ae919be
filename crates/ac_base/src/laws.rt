//! Laws of the definitions. Each function does nothing: its contract is the law.
ghost use Rattle.ac_base.specs.Laws.{SixDecimals};
ghost use Rattle.ac_base.specs.Ratios.{OldRatiosKeep};

/// Each text that had a ratio in thousandths has one in millionths, 1000 times as many, and the same capacity with every total and
/// every reserved amount.
pub fn old_ratios_keep()
    ensures { OldRatiosKeep }
{}

/// A ratio's digits are a whole number of millionths exactly where at most six of those behind the point remain once the zeros at the
/// end are removed.
pub fn six_decimals()
    ensures { SixDecimals }
{}
