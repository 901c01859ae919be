//! The bytes of a table.
ghost use Rattle.std.specs.Prelude.{◌≡◌, ◌≢◌, ◌≤◌, IfOk, Err, vec_len};
ghost use Rattle.ac_base.specs.Devices.{IsGivenUp, Rises};
ghost use Rattle.ac_tables.specs.Drain.{AllBytes, AreTooMany, most_bytes};

use ac_base::{Feed, MOST_AGAIN, Pull};
use std::alloc::{AllocError, Global};
use thiserror::Error;

/// Why a table could not be read.
#[derive(Clone, Copy, Debug, PartialEq, Eq, Error)]
pub enum ReadFault {
    /// The device failed, or was interrupted more often in a row than is borne.
    #[error("unreadable")]
    Unreadable,
    /// More bytes came than a table may have.
    #[error("too large")]
    TooLarge,
    /// A growth was refused.
    #[error("out of memory")]
    NoMemory,
}

impl From<AllocError> for ReadFault {
    ghost use Rattle.ac_tables.specs.declared.table_bytes.ReadFault.TheVariants.{NoMemory as refused};

    ghost from_gives = { λ _ fault. fault ≡ refused };

    fn from(_error: AllocError) -> ReadFault {
        ReadFault::NoMemory
    }
}

/// The most bytes of a table.
const MOST_BYTES: usize = 67_108_864;

/// How many bytes are asked for at once.
const PIECE: usize = 65_536;

/// Reads a feed to its end. A refusal loses what came, and says nothing of what the feed still gives.
#[tactic(auto, using(ac_base::proofs::Small::consumes_keeps))]
pub fn drain<R: Feed>(alloc: Global, feed: &mut R) -> Result<Vec<u8>, ReadFault>
    ensures bytes { IfOk result (λ bytes. AllBytes (R.remaining feed.old) bytes.items) }
    ensures limit { IfOk result (λ bytes. vec_len bytes ≤ most_bytes) }
    ensures too_large { result ≡ Err ReadFault.TooLarge → AreTooMany (R.remaining feed.old) }
    ensures unreadable { result ≡ Err ReadFault.Unreadable
        → Rises (R.failures feed.old) (R.failures feed.new) }
    ensures given_up { result ≡ Err ReadFault.Unreadable → IsGivenUp
        (R.breaks feed.old) (R.breaks feed.new) (R.failures feed.old) (R.failures feed.new) }
    ensures unbroken { result ≢ Err ReadFault.Unreadable → R.breaks feed.new ≡ R.breaks feed.old }
{
    let mut bytes = Vec::new(alloc);
    let mut piece = [0; PIECE];
    let mut again = 0;
    loop {
        match feed.pull(&mut piece) {
            Pull::Got(0) => return Ok(bytes),
            Pull::Got(count) => {
                again = 0;
                if count > MOST_BYTES - bytes.len() {
                    return Err(ReadFault::TooLarge);
                }
                bytes.extend_from_slice(&piece[..count])?;
            }
            Pull::Again => {
                if again == MOST_AGAIN {
                    return Err(ReadFault::Unreadable);
                }
                again += 1;
            }
            Pull::Failed => return Err(ReadFault::Unreadable),
        }
    }
}
