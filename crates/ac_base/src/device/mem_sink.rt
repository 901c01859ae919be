//! A sink over bytes in memory, whose calls go as they are told.
ghost use Rattle.std.specs.Prelude.{◌≡◌, ◌+◌, ◌≤◌, Some, [], take, length, vec_len};
ghost use Rattle.ac_base.specs.Devices.{PushTakes, breaks_after_push, failures_after_push};
ghost use Rattle.ac_base.specs.Memory.{next_turn, later_turns, sink_answer};

use crate::device::{Push, Sink};
use crate::memory::{Turn, take_turn};

/// A sink over bytes in memory, which writes over the bytes of its room. Call number n follows turn n; each call past
/// the turns is `Up` without a limit, and an `Up` fails where a piece that isn't empty finds the room full.
#[derive(Drop)]
pub struct MemSink<'a> {
    room: Vec<u8>,
    used: usize,
    turns: &'a [Turn],
    failures: u64,
    breaks: u64,
    ghost in_room: { used ≤ vec_len room },
}

impl<'a> MemSink<'a> {
    ghost use Rattle.ac_base.specs.Turns.{sink_turns, sink_room};

    /// A sink that writes into this room, whose calls go as the turns say.
    pub fn new(room: Vec<u8>, turns: &'a [Turn]) -> Self
        ensures taken { ⟦<MemSink<'a> as Sink>⟧.taken result ≡ Some [] }
        ensures failures { ⟦<MemSink<'a> as Sink>⟧.failures result ≡ 0 }
        ensures breaks { ⟦<MemSink<'a> as Sink>⟧.breaks result ≡ 0 }
        ensures room { sink_room result ≡ vec_len room }
        ensures turns { sink_turns result ≡ turns.now }
    {
        MemSink {
            room,
            used: 0,
            turns,
            failures: 0,
            breaks: 0,
        }
    }

    /// What it has taken.
    pub fn taken(&self) -> &[u8]
        ensures { ⟦<MemSink<'a> as Sink>⟧.taken self.now ≡ Some result.now }
    {
        &self.room[..self.used]
    }
}

impl<'a> Sink for MemSink<'a> {
    ghost use Rattle.ac_base.specs.Turns.{sink_turns, sink_room};

    ghost taken = { λ s. Some (take s.used s.room.items) };

    ghost failures = { λ s. s.failures };

    ghost breaks = { λ s. s.breaks };

    fn push(&mut self, piece: &[u8]) -> Push
        ensures bytes { PushTakes (Some (take self.old.used self.old.room.items))
            (Some (take self.new.used self.new.room.items)) result piece.now }
        ensures failures { self.new.failures ≡ failures_after_push self.old.failures result
            piece.now }
        ensures breaks { self.new.breaks ≡ breaks_after_push self.old.breaks result piece.now }
        ensures answer { result ≡ sink_answer (next_turn (sink_turns self.old)) (length piece.now)
            (sink_room self.old) }
        ensures turns { sink_turns self.new ≡ later_turns (sink_turns self.old) }
        ensures size { self.new.used + sink_room self.new ≡ self.old.used + sink_room self.old }
    {
        match take_turn(&mut self.turns) {
            Turn::Up(most) => {
                let free = self.room.len() - self.used;
                if free == 0 && !piece.is_empty() {
                    self.failures = self.failures.saturating_add(1);
                    self.breaks = self.breaks.saturating_add(1);
                    return Push::Failed;
                }
                let count = most.min(piece.len()).min(free);
                let end = self.used + count;
                self.room[self.used..end].copy_from_slice(&piece[..count]);
                self.used = end;
                if count == 0 && !piece.is_empty() {
                    self.failures = self.failures.saturating_add(1);
                    self.breaks = self.breaks.saturating_add(1);
                }
                Push::Took(count)
            }
            Turn::Again => {
                self.failures = self.failures.saturating_add(1);
                Push::Again
            }
            Turn::Failed => {
                self.failures = self.failures.saturating_add(1);
                self.breaks = self.breaks.saturating_add(1);
                Push::Failed
            }
        }
    }
}
