//! The command `send`.
ghost use Rattle.std.specs.Prelude.{◌≡◌, ◌++◌, All, OnErr, OnOk, string_bytes};
ghost use Rattle.std.specs.List.{flat_map};
ghost use Rattle.hc_core.specs.Filled.{CanBeFilled};
ghost use Rattle.hc_events.specs.Steps.{SendsTasks};
ghost use Rattle.hc_program.specs.Answers.{event_text};
ghost use Rattle.hc_program.specs.Frames.{proposed_line, proposed_text};
ghost use Rattle.hc_program.specs.Standings.{stepped};

use crate::frames::push_frame;
use crate::refusals::say_refusal;
use crate::session::Session;
use hc_core::keeping::Core;
use hc_events::sending::Sending;
use hc_events::together::Together;
use std::alloc::{AllocError, Global};

/// Sends tasks and appends their frames, `no frame` if they have no datagram, or the fault if the sending is refused. The
/// frames are sent when their lines are complete. `AllocError` if an allocation fails; then nothing was sent, and `out` may
/// have a prefix of the lines.
#[tactic(auto, unfolding(crate::specs::Answers::event_text))]
pub fn reply(
    alloc: Global,
    tasks: &Together,
    session: &mut Session,
    out: &mut String,
) -> Result<(), AllocError>
    ensures text { OnOk result (string_bytes out.new ≡ string_bytes out.old ++ event_text session.old.history (SendsTasks tasks.now)) }
    ensures next { OnOk result (session.new ≡ stepped session.old (SendsTasks tasks.now)) }
    ensures unchanged { OnErr result (session.new ≡ session.old) }
{
    let frames = match session.core().propose(alloc, tasks.as_slice()) {
        Ok(frames) => frames,
        Err(fault) => return say_refusal(fault, out),
    };
    push_frames(session.core(), &frames, out)?;
    session.commit(&frames);
    Ok(())
}

/// Appends the lines of frames of the present line, or `no frame` if there is none.
fn push_frames(core: &Core, frames: &[Sending], out: &mut String) -> Result<(), AllocError>
    requires { All (CanBeFilled core.now.history) frames.now }
    ensures { OnOk result (string_bytes out.new ≡ string_bytes out.old ++ proposed_text core.now.history frames.now) }
{
    if frames.is_empty() {
        return out.push_str("no frame\n");
    }
    push_sent(core, frames, out)
}

/// Appends the lines of frames of the present line.
fn push_sent(core: &Core, frames: &[Sending], out: &mut String) -> Result<(), AllocError>
    requires { All (CanBeFilled core.now.history) frames.now }
    ensures { OnOk result (string_bytes out.new ≡ string_bytes out.old ++ flat_map (proposed_line core.now.history) frames.now) }
{
    for frame in frames {
        push_frame("sent ", core, frame, out)?;
    }
    Ok(())
}
