//! An amount that is asked for.
ghost use Rattle.std.specs.Prelude.{◌<◌, ◌≤◌};

/// How much of a class is asked for: 1 to 2147483647.
#[derive(Clone, Copy, Debug)]
pub(crate) struct Amount {
    pub(crate) count: u32,
    ghost positive: { 0 < count },
    ghost small: { count ≤ 2147483647 },
}
