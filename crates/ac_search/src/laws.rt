//! The laws of `ac_rules`, handed on: a function's contract is a law, and no program calls it.

pub use ac_rules::laws::{
    isolate_says_apart, judges_candidates, pages_join, prefix_open, rest_begins, sums_say_full,
};
