//! Counts, and allocation ratios in millionths.

ghost use Rattle.std.specs.Prelude.{◌≡◌, ℕ, ◌+◌, ◌≤◌, ◌<◌, ◌^◌, nat_lt, IfSome, position, length, drop, Some, if◌then◌else◌};
ghost use Rattle.std.specs.List.{list_all};
ghost use Rattle.ac_base.specs.Texts.{number, count_value, is_zero, is_point, ratio_value, greatest_ratio};
ghost use Rattle.ac_base.specs.Ratios.{fraction_value};

use std::marker::Model;

/// The greatest ratio, 1000000, in millionths.
const GREATEST_RATIO: u64 = 1_000_000_000_000;

// The value of 1 to `most` digits.
#[tactic(auto, unfolding(crate::specs::Texts::number))]
fn read_digits(text: &[u8], most: usize) -> Option<u64>
    requires { most ≤ 10 }
    ensures value { result ≡ number most text.now }
    ensures bound { IfSome result (λ v. v < 10 ^ most) }
{
    if text.is_empty() || text.len() > most {
        return None;
    }
    let mut value: u64 = 0;
    for &b in text {
        if !b.is_ascii_digit() {
            return None;
        }
        value = value * 10 + u64::from(b - b'0');
    }
    Some(value)
}

/// The value of 1 to 10 decimal digits, where it is at most 2147483647. No sign and no blank is taken.
#[tactic(auto, unfolding(crate::specs::Texts::count_value))]
pub fn read_count(text: &[u8]) -> Option<u32>
    ensures value { result ≡ count_value text.now }
    ensures bound { IfSome result (λ v. v ≤ 2147483647) }
{
    let value = read_digits(text, 10)?;
    if value <= 2_147_483_647 {
        Some(value as u32)
    } else {
        None
    }
}

// Where the point stands.
fn find_point(text: &[u8]) -> Option<usize>
    ensures place { result ≡ position is_point text.now }
    ensures within { IfSome result (λ i. i < length text.now) }
{
    text.iter().position(|b| *b == b'.')
}

fn all_zeros(text: &[u8]) -> bool
    ensures { result ≡ list_all is_zero text.now }
{
    text.iter().all(|b| *b == b'0')
}

// The digits behind a point, in millionths: behind the sixth all are 0.
#[tactic(auto, using(crate::proofs::Ratios::fraction_steps))]
fn read_fraction(text: &[u8]) -> Option<u64>
    ensures value { result ≡ fraction_value text.now }
    ensures bound { IfSome result (λ v. v < 10 ^ 12) }
{
    let (kept, rest) = text.split_at(text.len().min(6));
    if !all_zeros(rest) {
        return None;
    }
    let value = read_digits(kept, 6)?;
    Some(value * 10u64.pow(6 - kept.len() as u32))
}

// What stands behind a point at this place, in millionths; 0 at the end of a text that has none.
fn read_behind(text: &[u8], point: usize) -> Option<u64>
    ensures value { result ≡ (if nat_lt point (length text.now)
        then fraction_value (drop (point + 1) text.now) else Some 0) }
    ensures bound { IfSome result (λ v. v < 10 ^ 12) }
{
    if point < text.len() {
        read_fraction(&text[point + 1..])
    } else {
        Some(0)
    }
}

/// An allocation ratio, exact in millionths, from 0 to 1000000.
#[derive(Clone, Copy, Debug, PartialEq, Eq)]
pub struct Ratio {
    millionths: u64,
}

impl Model for Ratio {
    ghost Value = { ℕ };

    ghost view = { λ a. a.millionths };

    ghost invariant = { λ a. a.millionths ≤ greatest_ratio };

    ghost inverse = { λ n. record { millionths = n } };
}

impl Ratio {
    /// Reads 1 to 7 digits, perhaps with a point and one or more digits behind it, of which at most six remain
    /// once trailing zeros are removed; the value is at most 1000000. (Own choice: the service takes any float.)
    pub fn read(text: &[u8]) -> Option<Ratio>
        ensures { result ≡ ratio_value text.now }
    {
        let point = find_point(text).unwrap_or(text.len());
        let whole = read_digits(&text[..point], 7)?;
        let fraction = read_behind(text, point)?;
        let millionths = whole * 1_000_000 + fraction;
        if millionths <= GREATEST_RATIO {
            Some(Ratio { millionths })
        } else {
            None
        }
    }

    /// The ratio in millionths, 0 to 1000000000000.
    pub fn millionths(self) -> u64
        ensures value { result ≡ self }
        ensures bound { result ≤ greatest_ratio }
    {
        self.millionths
    }
}
