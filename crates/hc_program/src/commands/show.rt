//! The command `show`.
ghost use Rattle.std.specs.Prelude.{◌≡◌, ◌++◌, OnOk, string_bytes};
ghost use Rattle.hc_program.specs.Show.{show_text};

use crate::frames::push_frame;
use crate::refusals::push_refusal;
use hc_core::keeping::Core;
use hc_events::faults::CoreFault;
use hc_records::limits::TASKS;
use std::alloc::AllocError;

/// Appends the frame of a datagram as it would be sent next, `none` if the task has no such datagram or no serial is left, or
/// the refusal of a task over 7. `AllocError` if an allocation fails; then `out` may have a prefix of the line.
#[tactic(auto, unfolding(crate::specs::Show::show_text, crate::specs::Show::frame_or_none))]
pub fn reply(core: &Core, task: u8, number: u8, out: &mut String) -> Result<(), AllocError>
    ensures { OnOk result (string_bytes out.new ≡ string_bytes out.old ++ show_text core.now.history task number) }
{
    if task >= TASKS {
        return push_refusal(CoreFault::NoSuchTask, out);
    }
    match core.preview(task, number) {
        Some(frame) => push_frame("frame ", core, &frame, out),
        None => out.push_str("none\n"),
    }
}
