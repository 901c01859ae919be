//! Capacities in floating point, computed in whole numbers.
ghost use Rattle.std.specs.Prelude.{◌≡◌, ◌+◌, ◌*◌, ◌/◌, ◌^◌, ◌<◌, ◌≤◌};
ghost use Rattle.ac_base.specs.Texts.{greatest_ratio};
ghost use Rattle.ac_find.specs.Service.Differing.{is_other};
ghost use Rattle.ac_find.specs.Service.Doubles.{capacity_by, held, nearest, rounded, step};

use ac_base::{Inventory, Ratio};

// The whole number nearest to a fraction, and of two that are as near the even one.
#[tactic(auto, unfolding(crate::specs::Service::Doubles::nearest))]
fn nearest(a: u128, b: u128) -> u128
    requires positive { 0 < b }
    requires small { a < 2 ^ 127 }
    ensures value { result ≡ nearest a b }
    ensures near { result ≤ a / b + 1 }
{
    let whole = a / b;
    let rest = a % b;
    if rest < b - rest {
        whole
    } else if b - rest < rest {
        whole + 1
    } else {
        whole + whole % 2
    }
}

// The step from one number of so many binary digits to the next, where they have as many in all as `n` has.
#[tactic(auto, unfolding(crate::specs::Service::Doubles::step))]
fn step(digits: u32, n: u128) -> u128
    requires { 24 ≤ digits }
    ensures value { result ≡ step digits n }
    ensures positive { 0 < result }
    ensures near { result ≤ n + 1 }
    ensures small { result ≤ 2 ^ 104 }
{
    1u128 << (128 - n.leading_zeros()).saturating_sub(digits)
}

// A fraction, rounded to so many binary digits.
#[tactic(auto, unfolding(crate::specs::Service::Doubles::rounded))]
fn rounded(digits: u32, a: u128, b: u128) -> u128
    requires digits { 24 ≤ digits }
    requires a { a < 2 ^ 127 }
    requires positive { 0 < b }
    requires b { b ≤ 1000000 }
    ensures value { result ≡ rounded digits a b }
    ensures near { result ≤ 2 * (a / b) + 1 }
{
    let step = step(digits, a / b);
    nearest(a, b * step) * step
}

// A ratio as a number of so many binary digits, in units of 2 ^ -74.
#[tactic(auto, unfolding(crate::specs::Service::Doubles::held))]
fn held(digits: u32, ratio: Ratio) -> u128
    requires { 24 ≤ digits }
    ensures value { result ≡ held digits ratio }
    ensures bound { result < 2 ^ 95 }
{
    rounded(
        digits,
        u128::from(ratio.millionths()) * (1 << 74),
        1_000_000,
    )
}

/// The capacity by a ratio of so many binary digits, in floating point.
#[tactic(auto, unfolding(crate::specs::Service::Doubles::capacity_by))]
pub(crate) fn capacity_by(digits: u32, inventory: &Inventory) -> u64
    requires { 24 ≤ digits }
    ensures value { result ≡ capacity_by digits inventory.now }
    ensures small { result ≤ 2 ^ 54 }
{
    let free = u128::from(inventory.total().saturating_sub(inventory.reserved()));
    (rounded(53, free * held(digits, inventory.ratio()), 1) / (1 << 74)) as u64
}

/// Whether the capacity by a ratio in double precision is another.
pub(crate) fn is_other(inventory: &Inventory) -> bool
    ensures { result ≡ is_other inventory.now }
{
    capacity_by(53, inventory) != inventory.capacity()
}
