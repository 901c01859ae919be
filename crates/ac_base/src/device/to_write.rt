//! A sink over the writers of the standard library.
ghost use Rattle.std.specs.Prelude.{◌≡◌};
ghost use Rattle.ac_base.specs.Devices.{IsPushOf};

use crate::device::{Push, Sink, is_push_break, is_push_failure};
use std::io::{Error, ErrorKind, Write};

// `Again` for an interrupted call alone, `Failed` for every other error.
fn push_of(answer: Result<usize, Error>) -> Push
    ensures { IsPushOf answer result }
{
    match answer {
        Ok(count) => Push::Took(count),
        Err(error) if error.kind() == ErrorKind::Interrupted => Push::Again,
        Err(_) => Push::Failed,
    }
}

/// A sink over a writer: it has taken what its writer has.
#[derive(Drop)]
pub struct ToWrite<W> {
    writer: W,
    failures: u64,
    breaks: u64,
}

impl<W: Write> ToWrite<W> {
    /// A sink over this writer, that has not failed yet.
    pub fn new(writer: W) -> Self
        ensures taken { ⟦<ToWrite<W> as Sink>⟧.taken result ≡ W.contents writer }
        ensures failures { ⟦<ToWrite<W> as Sink>⟧.failures result ≡ 0 }
        ensures breaks { ⟦<ToWrite<W> as Sink>⟧.breaks result ≡ 0 }
    {
        ToWrite {
            writer,
            failures: 0,
            breaks: 0,
        }
    }

    /// Gives the writer back, which has taken what the sink has.
    pub fn into_inner(self) -> W
        ensures { W.contents result ≡ ⟦<ToWrite<W> as Sink>⟧.taken self }
    {
        self.writer
    }
}

impl<W: Write> Sink for ToWrite<W> {
    ghost taken = { λ s. W.contents s.writer };

    ghost failures = { λ s. s.failures };

    ghost breaks = { λ s. s.breaks };

    fn push(&mut self, piece: &[u8]) -> Push {
        let answer = push_of(self.writer.write(piece));
        if is_push_failure(answer, piece) {
            self.failures = self.failures.saturating_add(1);
        }
        if is_push_break(answer, piece) {
            self.breaks = self.breaks.saturating_add(1);
        }
        answer
    }
}
