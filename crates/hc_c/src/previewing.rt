//! Previews of frames with one datagram.
ghost use Rattle.std.specs.Prelude.{◌≡◌, ◌≢◌, ◌≤◌, ◌++◌, None, drop, length};
ghost use Rattle.hc_core.specs.Filled.{CanBeFilled};
ghost use Rattle.hc_events.specs.Calls.{preview};
ghost use Rattle.hc_events.specs.Sendings.{sent_frame_size};
ghost use Rattle.hc_events.specs.Steps.{sent_text};
ghost use Rattle.hc_c.specs.declared.numbers.TheConstants.{BUSY};
ghost use Rattle.hc_c.specs.Sends.{AnswersPreview};
ghost use Rattle.hc_c.specs.Handles.{HoldsAsBefore, IfAnswered, no_line_number};

use crate::handle::{Handle, with_line};
use crate::numbers::{DONE, NOTHING, ROOM};
use hc_core::keeping::Core;
use hc_events::sending::Sending;

/// Writes a frame to the front of a slice that is long enough.
fn fill_frame(core: &Core, frame: &Sending, out: &mut [u8])
    requires can { CanBeFilled core.now.history frame.now }
    requires room { sent_frame_size frame.now ≤ length out.old }
    ensures { out.new ≡ sent_text core.now.history frame.now ++ drop (sent_frame_size frame.now) out.old }
{
    let (front, _) = out.split_at_mut(frame.size());
    core.fill(frame, front);
}

/// Writes the frame of a datagram. Returns `DONE`, `NOTHING` if there is no such datagram, or `ROOM` if `out` is too short.
fn give_preview(core: &Core, task: u8, datagram: u8, out: &mut [u8], size: &mut usize) -> u8
    ensures answer { AnswersPreview core.now.history task datagram result size.old size.new out.old out.new }
    ensures untouched { result ≢ DONE → out.new ≡ out.old }
{
    let Some(frame) = core.preview(task, datagram) else {
        return NOTHING;
    };
    *size = frame.size();
    if out.len() < frame.size() {
        return ROOM;
    }
    fill_frame(core, &frame, out);
    DONE
}

/// Writes the frame of one datagram of a task alone, as it would be sent next, whether or not blocks are owed. Nothing is sent.
/// Returns `DONE`: the frame is at the front of `out`, and `size` is its length. It allocates nothing. Fails with one of these;
/// then `out` is unchanged, and so is `size` except with `ROOM`:
///
/// - `BUSY`, `CLOSED` or `MISUSED`.
/// - `NOTHING`: the task has no such datagram or is over 7, or no serial is left.
/// - `ROOM`: `out` is shorter than the frame. `size` is the length needed.
#[unsafe(no_mangle)]
pub extern "C" fn zangjulf_preview(
    handle: &mut Handle,
    task: u8,
    datagram: u8,
    out: &mut [u8],
    size: &mut usize,
) -> u8
    ensures answer { IfAnswered handle.old result (λ history. AnswersPreview history task datagram result size.old size.new out.old out.new) }
    ensures unchanged { HoldsAsBefore handle.old handle.new }
    ensures untouched { result ≢ DONE → out.new ≡ out.old }
    ensures busy { result ≡ BUSY → size.new ≡ size.old }
    ensures closed { handle.old.holding.value ≡ None → (result ≡ no_line_number handle.old.mark) × (size.new ≡ size.old) }
{
    with_line!(
        handle,
        |own| give_preview(&own.core, task, datagram, out, size)
    )
}
