//! The command `write`.
ghost use Rattle.std.specs.Prelude.{◌≡◌, ◌≤◌, ◌+◌, ◌++◌, length, OnErr, OnOk, string_bytes};
ghost use Rattle.std.specs.String.{string_capacity, string_len};
ghost use Rattle.hc_events.specs.Steps.{SendsWrite};
ghost use Rattle.hc_program.specs.Answers.{event_text};
ghost use Rattle.hc_program.specs.Frames.{sent_line};
ghost use Rattle.hc_program.specs.Standings.{stepped};

use crate::refusals::push_refusal;
use crate::session::Session;
use hc_text::room::{MOST_DIGITS, add_bytes, add_number, add_text};
use std::alloc::AllocError;

/// The length of a frame that writes a register block of at most 16 bytes: zeros fill it up to the shortest frame.
pub(crate) const WRITE_FRAME: usize = 60;

/// The length of the longest line of such a frame: its words, the serial, two digits a byte, and the line feed.
const LONGEST_SENT: usize = 8 + MOST_DIGITS + 2 * WRITE_FRAME;

/// Sends the first owed register block and appends its frame, or the fault. It allocates for the line first. `AllocError` if an
/// allocation fails; then nothing was sent, and `out` may have a prefix of the line.
#[tactic(auto, unfolding(crate::specs::Answers::event_text))]
pub fn reply(session: &mut Session, out: &mut String) -> Result<(), AllocError>
    ensures text { OnOk result (string_bytes out.new ≡ string_bytes out.old ++ event_text session.old.history SendsWrite) }
    ensures next { OnOk result (session.new ≡ stepped session.old SendsWrite) }
    ensures unchanged { OnErr result (session.new ≡ session.old) }
{
    out.reserve(LONGEST_SENT)?;
    let serial = session.core().next_serial();
    let mut frame = [0u8; WRITE_FRAME];
    match session.next_write(&mut frame) {
        Ok(size) => {
            add_sent(serial, &frame[..size], out);
            Ok(())
        }
        Err(fault) => push_refusal(fault, out),
    }
}

/// Appends the line of a frame that is sent. The capacity must suffice.
#[tactic(auto, unfolding(crate::specs::Frames::frame_line))]
fn add_sent(serial: u64, frame: &[u8], out: &mut String)
    requires frame { length frame.now ≤ WRITE_FRAME }
    requires room { string_len out.old + LONGEST_SENT ≤ string_capacity out.old }
    ensures { string_bytes out.new ≡ string_bytes out.old ++ sent_line serial frame.now }
{
    add_text("sent ", out);
    add_number(serial, out);
    add_text(": ", out);
    add_bytes(frame, out);
    add_text("\n", out);
}
