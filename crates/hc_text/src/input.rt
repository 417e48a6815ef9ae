//! Reading of a whole input, within a limit on its bytes and on the turns of reading.
ghost use Rattle.std.specs.Prelude.{◌≡◌, ◌≤◌, ◌<◌, IfErr, IfOk, IfSome, length, vec_len};
ghost use Rattle.hc_text.specs.declared.input.Unread.TheVariants.{TooLong};

use std::alloc::{AllocError, Global};
use std::io::{ErrorKind, Read};
use thiserror::Error;

/// The most bytes of an input: project text and commands together.
pub const MOST_INPUT: usize = 4_194_304;

/// The most turns of reading: one for each byte, and one that finds the end.
const MOST_TURNS: usize = MOST_INPUT + 1;

/// The most bytes that one turn reads.
const CHUNK: usize = 4096;

/// The reason for which an input was not read.
#[derive(Clone, Copy, Debug, PartialEq, Eq, Error)]
pub enum Unread {
    /// It has more bytes than `MOST_INPUT`.
    #[error("the input is too long")]
    TooLong,
    /// The reader failed for another cause than an interruption, or its end was not found within the turns.
    #[error("the input cannot be read")]
    Failed,
    /// An allocation failed.
    #[error("out of memory")]
    Memory,
}

impl From<AllocError> for Unread {
    ghost use Rattle.std.specs.Prelude.{◌≡◌};
    ghost use Rattle.hc_text.specs.declared.input.Unread.TheVariants.{Memory};

    ghost from_gives = { λ _ fault. fault ≡ Memory };

    fn from(_error: AllocError) -> Unread {
        Unread::Memory
    }
}

/// Reads all that a reader has left, at most `MOST_INPUT` bytes. It makes at most `MOST_INPUT` + 1 turns, whatever the reader
/// does; an interrupted turn is repeated and counts as one. Fails with one of these; then the bytes that were read are lost:
///
/// - `Unread::TooLong`: the input is longer.
/// - `Unread::Failed`: a read failed, or the turns ended before the input did.
/// - `Unread::Memory`: an allocation failed.
pub fn read_all<R: Read>(alloc: Global, input: &mut R) -> Result<Vec<u8>, Unread>
    ensures bytes { IfOk result (λ bytes. IfSome (R.remaining input.old) (λ all. bytes.items ≡ all)) }
    ensures within { IfOk result (λ bytes. vec_len bytes ≤ MOST_INPUT) }
    ensures too_long { IfErr result (λ fault. fault ≡ TooLong → IfSome (R.remaining input.old) (λ all. MOST_INPUT < length all)) }
{
    let mut bytes = Vec::new(alloc);
    let mut chunk = [0u8; CHUNK];
    for _ in 0..MOST_TURNS {
        match input.read(&mut chunk) {
            Ok(0) => return Ok(bytes),
            Ok(count) => {
                if count > MOST_INPUT - bytes.len() {
                    return Err(Unread::TooLong);
                }
                bytes.extend_from_slice(&chunk[..count])?;
            }
            Err(error) => {
                if error.kind() != ErrorKind::Interrupted {
                    return Err(Unread::Failed);
                }
            }
        }
    }
    Err(Unread::Failed)
}
