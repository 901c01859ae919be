//! A feed of bytes in memory, whose calls go as they are told.
ghost use Rattle.std.specs.Prelude.{◌≡◌, ◌<◌, Some, length};
ghost use Rattle.ac_base.specs.Devices.{PullGives, breaks_after_pull, failures_after_pull};
ghost use Rattle.ac_base.specs.Memory.{next_turn, later_turns, feed_answer};

use crate::device::{Feed, Pull};
use crate::memory::{Turn, take_turn};

/// A feed of bytes in memory. Call number n follows turn n; each call past the turns is `Up` without a limit.
#[derive(Drop)]
pub struct MemFeed<'a> {
    bytes: &'a [u8],
    turns: &'a [Turn],
    failures: u64,
    breaks: u64,
}

impl<'a> MemFeed<'a> {
    ghost use Rattle.ac_base.specs.Turns.{feed_bytes, feed_turns};

    /// A feed of these bytes, whose calls go as the turns say.
    pub fn new(bytes: &'a [u8], turns: &'a [Turn]) -> Self
        ensures remaining { ⟦<MemFeed<'a> as Feed>⟧.remaining result ≡ Some bytes.now }
        ensures bytes { feed_bytes result ≡ bytes.now }
        ensures failures { ⟦<MemFeed<'a> as Feed>⟧.failures result ≡ 0 }
        ensures breaks { ⟦<MemFeed<'a> as Feed>⟧.breaks result ≡ 0 }
        ensures turns { feed_turns result ≡ turns.now }
    {
        MemFeed {
            bytes,
            turns,
            failures: 0,
            breaks: 0,
        }
    }
}

impl<'a> Feed for MemFeed<'a> {
    ghost use Rattle.ac_base.specs.Turns.{feed_bytes, feed_turns};

    ghost remaining = { λ s. Some s.bytes.now };

    ghost failures = { λ s. s.failures };

    ghost breaks = { λ s. s.breaks };

    fn pull(&mut self, buf: &mut [u8]) -> Pull
        requires { 0 < length buf.old }
        ensures bytes { PullGives (Some (feed_bytes self.old))
            (Some (feed_bytes self.new)) result buf.new }
        ensures failures { self.new.failures ≡ failures_after_pull self.old.failures result }
        ensures breaks { self.new.breaks ≡ breaks_after_pull self.old.breaks result }
        ensures answer { result ≡ feed_answer (next_turn (feed_turns self.old)) (length buf.old)
            (length (feed_bytes self.old)) }
        ensures turns { feed_turns self.new ≡ later_turns (feed_turns self.old) }
    {
        match take_turn(&mut self.turns) {
            Turn::Up(most) => {
                let count = most.max(1).min(buf.len()).min(self.bytes.len());
                let (now, later) = self.bytes.split_at(count);
                buf[..count].copy_from_slice(now);
                self.bytes = later;
                Pull::Got(count)
            }
            Turn::Again => {
                self.failures = self.failures.saturating_add(1);
                Pull::Again
            }
            Turn::Failed => {
                self.failures = self.failures.saturating_add(1);
                self.breaks = self.breaks.saturating_add(1);
                Pull::Failed
            }
        }
    }
}
