//! Writing of a text to its end, by the writer's own steps.
ghost use Rattle.std.specs.Prelude.{◌<◌, ℕ, length, take, OnErr, OnOk};
ghost use Rattle.std.specs.Io.KnownBytes.{Appends};

use std::io::{ErrorKind, Write};
use thiserror::Error;

/// The most interruptions in writing one text: as many as reading an input may have turns.
const MOST_INTERRUPTIONS: u32 = 4_194_305;

/// A write failed, wrote nothing, or was interrupted too often.
#[derive(Clone, Copy, Debug, PartialEq, Eq, Error)]
#[error("the output cannot be written")]
pub struct WriteFailed;

/// Writes all of a text. An interrupted write is repeated, at most 4,194,305 times in one text. Fails if a write fails for
/// another cause, writes nothing, or is interrupted once more; then a prefix of the text was written, and not all of it.
pub fn write_text<W: Write>(output: &mut W, text: &[u8]) -> Result<(), WriteFailed>
    ensures ok { OnOk result (Appends (W.contents output.old) (W.contents output.new) text.now) }
    ensures err { OnErr result ((n : ℕ) × (n < length text.now) × Appends (W.contents output.old) (W.contents output.new) (take n text.now)) }
{
    let mut written = 0;
    let mut left = MOST_INTERRUPTIONS;
    while written < text.len() {
        match output.write(&text[written..]) {
            Ok(0) => return Err(WriteFailed),
            Ok(count) => written += count,
            Err(error) => {
                if error.kind() != ErrorKind::Interrupted || left == 0 {
                    return Err(WriteFailed);
                }
                left -= 1;
            }
        }
    }
    Ok(())
}
