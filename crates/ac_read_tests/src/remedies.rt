//! Second lines of faults, over the public calls that make them.

mod refusals;
