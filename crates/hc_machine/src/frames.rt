//! A frame, served in its place.

ghost use Rattle.std.specs.Prelude.{◌≡◌, ◌+◌, ◌<◌, ◌≤◌, All, is_none, length, true};
ghost use Rattle.std.specs.List.{list_all};
ghost use Rattle.hc_frames.specs.Arrived.{datagram_bytes, datagram_tails, fault_in, is_whole, region};
ghost use Rattle.hc_machine.specs.Frames.{frame_after, memory_after};

use crate::datagrams::{LENGTHS, serve_datagrams};
use crate::limits::MEMORY_BYTES;
use hc_frames::limits::{HEAD_BYTES, MAX_DATA};
use hc_frames::reading::{read_frame, word_at};

/// The first byte of the EtherCAT header, after the Ethernet header.
const HEADER_AT: usize = 14;

/// True if the reader reads a frame, so that slaves act on it.
pub fn is_readable(frame: &[u8]) -> bool
    ensures { result ≡ is_none (fault_in frame.now) }
{
    read_frame(frame).is_ok()
}

/// The offset at which the datagrams of a frame that is read end.
fn end_of_datagrams(frame: &[u8]) -> usize
    requires { is_none (fault_in frame.now) ≡ true }
    ensures end { result ≡ 16 + datagram_bytes frame.now }
    ensures within { result ≤ length frame.now }
    ensures bytes { All (λ b. b < 256) frame.now }
    ensures whole { list_all is_whole (datagram_tails (region frame.now)) ≡ true }
{
    HEAD_BYTES + usize::from(word_at(frame, HEADER_AT) % LENGTHS)
}

/// Serves a frame that the reader reads as a slave does, in the frame's place, over memory that the caller keeps: the 12,288
/// bytes of the slave's memory, and 1,486 bytes of room for the data of a datagram, whatever they hold. The frame is read after
/// it too. It does not allocate.
pub fn serve_frame(memory: &mut [u8], spare: &mut [u8], frame: &mut [u8])
    requires memory { length memory.old ≡ MEMORY_BYTES }
    requires spare { length spare.old ≡ MAX_DATA }
    requires readable { is_none (fault_in frame.old) ≡ true }
    ensures frame { frame.new ≡ frame_after memory.old frame.old }
    ensures memory { memory.new ≡ memory_after memory.old frame.old }
    ensures readable { is_none (fault_in frame.new) ≡ true }
{
    let end = end_of_datagrams(frame);
    serve_datagrams(memory, spare, &mut frame[HEAD_BYTES..end]);
}
