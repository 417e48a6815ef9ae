//! Printed frames.
ghost use Rattle.std.specs.Prelude.{◌≡◌, ◌++◌, OnOk, string_bytes};
ghost use Rattle.hc_core.specs.Filled.{CanBeFilled};
ghost use Rattle.hc_events.specs.Steps.{sent_text};
ghost use Rattle.hc_program.specs.Frames.{frame_line};

use hc_core::keeping::Core;
use hc_events::sending::Sending;
use hc_text::printing::push_bytes;
use std::alloc::AllocError;

/// The length of the longest frame.
pub(crate) const LARGEST_FRAME: usize = 1514;

/// Appends the line of a frame of the present line after a word, as `sent 4: ff..`, with the values that its datagrams' output
/// variables have now. `AllocError` if an allocation fails; then `out` may have a prefix of the line.
pub fn push_frame(
    word: &str,
    core: &Core,
    frame: &Sending,
    out: &mut String,
) -> Result<(), AllocError>
    requires { CanBeFilled core.now.history frame.now }
    ensures { OnOk result (string_bytes out.new ≡ string_bytes out.old ++ frame_line word.now frame.now.serial (sent_text core.now.history frame.now)) }
{
    // its datagrams fit a frame, so it is at most as long as the longest
    let _ = frame.datagrams();
    let mut bytes = [0u8; LARGEST_FRAME];
    let bytes = &mut bytes[..frame.size()];
    core.fill(frame, bytes);
    push_line(word, frame.serial(), bytes, out)
}

/// Appends the line of a frame's bytes.
#[tactic(auto, unfolding(crate::specs::Frames::frame_line))]
fn push_line(word: &str, serial: u64, frame: &[u8], out: &mut String) -> Result<(), AllocError>
    ensures { OnOk result (string_bytes out.new ≡ string_bytes out.old ++ frame_line word.now serial frame.now) }
{
    out.push_str(word)?;
    write!(out, "{serial}: ")?;
    push_bytes(frame, out)?;
    out.push_str("\n")
}
