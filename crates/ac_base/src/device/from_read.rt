//! A feed over the readers of the standard library.
ghost use Rattle.std.specs.Prelude.{◌≡◌};
ghost use Rattle.ac_base.specs.Devices.{IsPullOf};

use crate::device::{Feed, Pull, is_pull_break, is_pull_failure};
use std::io::{Error, ErrorKind, Read};

// `Again` for an interrupted call alone, `Failed` for every other error.
fn pull_of(answer: Result<usize, Error>) -> Pull
    ensures { IsPullOf answer result }
{
    match answer {
        Ok(count) => Pull::Got(count),
        Err(error) if error.kind() == ErrorKind::Interrupted => Pull::Again,
        Err(_) => Pull::Failed,
    }
}

/// A feed over a reader: it still gives what its reader gives.
#[derive(Drop)]
pub struct FromRead<R> {
    reader: R,
    failures: u64,
    breaks: u64,
}

impl<R: Read> FromRead<R> {
    /// A feed of what this reader still gives, that has not failed yet.
    pub fn new(reader: R) -> Self
        ensures remaining { ⟦<FromRead<R> as Feed>⟧.remaining result ≡ R.remaining reader }
        ensures failures { ⟦<FromRead<R> as Feed>⟧.failures result ≡ 0 }
        ensures breaks { ⟦<FromRead<R> as Feed>⟧.breaks result ≡ 0 }
    {
        FromRead {
            reader,
            failures: 0,
            breaks: 0,
        }
    }
}

impl<R: Read> Feed for FromRead<R> {
    ghost remaining = { λ s. R.remaining s.reader };

    ghost failures = { λ s. s.failures };

    ghost breaks = { λ s. s.breaks };

    fn pull(&mut self, buf: &mut [u8]) -> Pull {
        let answer = pull_of(self.reader.read(buf));
        if is_pull_failure(answer) {
            self.failures = self.failures.saturating_add(1);
        }
        if is_pull_break(answer) {
            self.breaks = self.breaks.saturating_add(1);
        }
        answer
    }
}
