//! A sink that gathers bytes before it hands them on.
ghost use Rattle.std.specs.Prelude.{◌≡◌, ◌-◌, ◌≤◌, ◌<◌, OnOk, OnErr, length, min, take, vec_len};
ghost use Rattle.std.specs.Io.KnownBytes.{Appends, Keeps};
ghost use Rattle.ac_base.specs.Devices.{IsGivenUp, Rises, breaks_after_push, failures_after_push};
ghost use Rattle.ac_base.specs.Gathered.{HandsOn, IsFirstPart, gathered};

use crate::device::whole_push::{WriteFailed, push_all};
use crate::device::{Push, Sink};

/// A sink that gathers what it takes in a room, and hands it on to another sink when the room is full. What it has taken
/// is what the other has, and then what is in the room. It fails where the other does: each push makes at most one there.
#[derive(Drop)]
pub struct Gathering<W> {
    sink: W,
    room: Vec<u8>,
    used: usize,
    ghost in_room: { used ≤ vec_len room },
    ghost has_room: { 0 < vec_len room },
}

impl<W: Sink> Gathering<W> {
    ghost use Rattle.ac_base.specs.Gathered.Below.{sink_below};

    /// A sink above another, with a room that isn't empty; its bytes are written over.
    pub fn new(sink: W, room: Vec<u8>) -> Self
        requires { 0 < vec_len room }
        ensures taken { Keeps (W.taken sink) (⟦<Gathering<W> as Sink>⟧.taken result) }
        ensures failures { ⟦<Gathering<W> as Sink>⟧.failures result ≡ W.failures sink }
        ensures breaks { ⟦<Gathering<W> as Sink>⟧.breaks result ≡ W.breaks sink }
        ensures below { sink_below result ≡ sink }
    {
        Gathering {
            sink,
            room,
            used: 0,
        }
    }

    /// Hands on all that is in the room, and gives the other sink back.
    pub fn finish(self) -> (Result<(), WriteFailed>, W)
        ensures ok { OnOk result.0 (Keeps (⟦<Gathering<W> as Sink>⟧.taken self)
            (W.taken result.1)) }
        ensures part { IsFirstPart (⟦<Gathering<W> as Sink>⟧.taken self) (W.taken result.1) }
        ensures rises { OnErr result.0 (Rises (⟦<Gathering<W> as Sink>⟧.failures self)
            (W.failures result.1)) }
        ensures failures { ⟦<Gathering<W> as Sink>⟧.failures self ≤ W.failures result.1 }
        ensures unbroken { OnOk result.0 (W.breaks result.1
            ≡ ⟦<Gathering<W> as Sink>⟧.breaks self) }
        ensures given_up { OnErr result.0 (IsGivenUp (⟦<Gathering<W> as Sink>⟧.breaks self)
            (W.breaks result.1) (⟦<Gathering<W> as Sink>⟧.failures self) (W.failures result.1)) }
    {
        let Gathering {
            mut sink,
            room,
            used,
        } = self;
        let handed = push_all(&mut sink, &room[..used]);
        (handed, sink)
    }

    /// Drops what is in the room, and gives the other sink back.
    pub fn into_inner(self) -> W
        ensures part { IsFirstPart (⟦<Gathering<W> as Sink>⟧.taken self) (W.taken result) }
        ensures failures { W.failures result ≡ ⟦<Gathering<W> as Sink>⟧.failures self }
        ensures breaks { W.breaks result ≡ ⟦<Gathering<W> as Sink>⟧.breaks self }
        ensures below { result ≡ sink_below self }
    {
        self.sink
    }

    // Hands on a first part of what is in the room, which is full.
    fn hand_on(&mut self) -> Push
        requires { self.old.used ≡ vec_len self.old.room }
        ensures taken { Keeps (⟦<Gathering<W> as Sink>⟧.taken self.old)
            (⟦<Gathering<W> as Sink>⟧.taken self.new) }
        ensures failures { ⟦<Gathering<W> as Sink>⟧.failures self.new
            ≡ failures_after_push (⟦<Gathering<W> as Sink>⟧.failures self.old) result
            self.old.room.items }
        ensures breaks { ⟦<Gathering<W> as Sink>⟧.breaks self.new
            ≡ breaks_after_push (⟦<Gathering<W> as Sink>⟧.breaks self.old) result
            self.old.room.items }
        ensures size { vec_len self.new.room ≡ vec_len self.old.room }
        ensures room { HandsOn result (vec_len self.old.room) self.new.used }
    {
        let answer = self.sink.push(&self.room);
        if let Push::Took(count) = answer {
            self.room.copy_within(count.., 0);
            self.used -= count;
        }
        answer
    }

    // Puts a first part of a piece into the room, as much as there is room for.
    fn fill(&mut self, piece: &[u8]) -> usize
        ensures taken { Appends (⟦<Gathering<W> as Sink>⟧.taken self.old)
            (⟦<Gathering<W> as Sink>⟧.taken self.new) (take result piece.now) }
        ensures failures { ⟦<Gathering<W> as Sink>⟧.failures self.new
            ≡ ⟦<Gathering<W> as Sink>⟧.failures self.old }
        ensures breaks { ⟦<Gathering<W> as Sink>⟧.breaks self.new
            ≡ ⟦<Gathering<W> as Sink>⟧.breaks self.old }
        ensures count { result ≡ min (length piece.now) (vec_len self.old.room - self.old.used) }
    {
        let count = piece.len().min(self.room.len() - self.used);
        let end = self.used + count;
        self.room[self.used..end].copy_from_slice(&piece[..count]);
        self.used = end;
        count
    }
}

impl<W: Sink> Sink for Gathering<W> {
    ghost taken = { λ s. gathered (W.taken s.sink) s.used s.room.items };

    ghost failures = { λ s. W.failures s.sink };

    ghost breaks = { λ s. W.breaks s.sink };

    fn push(&mut self, piece: &[u8]) -> Push {
        if self.used == self.room.len() {
            match self.hand_on() {
                Push::Took(0) | Push::Failed => return Push::Failed,
                Push::Again => return Push::Again,
                Push::Took(_) => {}
            }
        }
        Push::Took(self.fill(piece))
    }
}
