//! Feeds and sinks: where bytes come from and where they go.
ghost use Rattle.std.specs.Prelude.{◌≡◌, ℕ, ◌<◌, List, Option, length};
ghost use Rattle.ac_base.specs.Devices.{PullGives, PushTakes, breaks_after_pull, breaks_after_push, failures_after_pull, failures_after_push, is_pull_break, is_pull_failure, is_push_break, is_push_failure};

pub mod from_read;
pub mod mem_feed;
pub mod mem_sink;
pub mod to_write;
pub mod whole_push;

/// How many interrupted calls of a device in a row are borne.
pub const MOST_AGAIN: u32 = 1000;

/// What a feed answers.
#[derive(Clone, Copy, Debug, PartialEq, Eq)]
pub enum Pull {
    /// So many bytes; none at the end.
    Got(usize),
    /// The call was interrupted, and may be made again.
    Again,
    /// The device failed.
    Failed,
}

/// What a sink answers.
#[derive(Clone, Copy, Debug, PartialEq, Eq)]
pub enum Push {
    /// So many of the first bytes of the piece.
    Took(usize),
    /// The call was interrupted, and may be made again.
    Again,
    /// The device failed.
    Failed,
}

/// Where bytes come from.
pub trait Feed {
    /// The bytes that it still gives, where they are known.
    ghost remaining: { Self → Option (List ℕ) };

    /// How often it failed so far; the count stays at 18446744073709551615.
    ghost failures: { Self → ℕ };

    /// How often it broke so far: it failed, and wasn't just interrupted; the count stays at 18446744073709551615.
    ghost breaks: { Self → ℕ };

    /// Reads into the front of a buffer that isn't empty.
    fn pull(&mut self, buf: &mut [u8]) -> Pull
        requires { 0 < length buf.old }
        ensures bytes { PullGives (remaining self.old) (remaining self.new) result buf.new }
        ensures failures { failures self.new ≡ failures_after_pull (failures self.old) result }
        ensures breaks { breaks self.new ≡ breaks_after_pull (breaks self.old) result };
}

/// Where bytes go.
pub trait Sink {
    /// The bytes that it has taken, where they are known.
    ghost taken: { Self → Option (List ℕ) };

    /// How often it failed so far; the count stays at 18446744073709551615.
    ghost failures: { Self → ℕ };

    /// How often it broke so far: it failed, and wasn't just interrupted; the count stays at 18446744073709551615.
    ghost breaks: { Self → ℕ };

    /// Takes a first part of the piece. `Took(0)` of a piece that isn't empty is a failure.
    fn push(&mut self, piece: &[u8]) -> Push
        ensures bytes { PushTakes (taken self.old) (taken self.new) result piece.now }
        ensures failures { failures self.new ≡ failures_after_push
            (failures self.old) result piece.now }
        ensures breaks { breaks self.new ≡ breaks_after_push (breaks self.old) result piece.now };
}

// Whether an answer of `pull` counts as a break.
pub(crate) fn is_pull_break(answer: Pull) -> bool
    ensures { result ≡ is_pull_break answer }
{
    match answer {
        Pull::Got(_) | Pull::Again => false,
        Pull::Failed => true,
    }
}

// Whether an answer of `pull` counts as a failure.
pub(crate) fn is_pull_failure(answer: Pull) -> bool
    ensures { result ≡ is_pull_failure answer }
{
    match answer {
        Pull::Got(_) => false,
        Pull::Again | Pull::Failed => true,
    }
}

// Whether an answer of `push` counts as a break.
pub(crate) fn is_push_break(answer: Push, piece: &[u8]) -> bool
    ensures { result ≡ is_push_break answer piece.now }
{
    match answer {
        Push::Took(count) => count == 0 && !piece.is_empty(),
        Push::Again => false,
        Push::Failed => true,
    }
}

// Whether an answer of `push` counts as a failure.
pub(crate) fn is_push_failure(answer: Push, piece: &[u8]) -> bool
    ensures { result ≡ is_push_failure answer piece.now }
{
    answer == Push::Again || is_push_break(answer, piece)
}
