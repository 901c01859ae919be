//! Lists of numbers counted up, as an odometer counts.
ghost use Rattle.std.specs.Prelude.{◌≡◌, Some, None, length, replicate};
ghost use Rattle.std.specs.Bool.{MatchBool};
ghost use Rattle.ac_rules.specs.Shown.Odometer.{start, successor};

/// Where a walk through all lists stands.
#[derive(Clone, Copy, Debug, PartialEq, Eq)]
pub(crate) enum Stage {
    /// Its list is the next to be given.
    Fresh,
    /// Its list was given last.
    Given,
    /// There are no more lists.
    Ended,
}

/// Where a walk through the lists of so many numbers below a bound begins: at its end where there are none.
pub(crate) fn start(width: usize, bound: u32) -> Stage
    ensures { result ≡ start bound width }
{
    if bound == 0 && width > 0 {
        Stage::Ended
    } else {
        Stage::Fresh
    }
}

/// Sets a list to the next one of as many numbers below a bound, or to zeros where there is none.
pub(crate) fn count_up(list: &mut [u32], bound: u32) -> bool
    ensures { MatchBool result (successor bound list.old ≡ Some list.new)
        ((successor bound list.old ≡ None) × (list.new ≡ replicate (length list.old) 0)) }
{
    let Some((first, more)) = list.split_first_mut() else {
        return false;
    };
    if count_up(more, bound) {
        return true;
    }
    if *first < bound && *first + 1 < bound {
        *first += 1;
        true
    } else {
        *first = 0;
        false
    }
}
