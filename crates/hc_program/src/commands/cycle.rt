//! The command `cycle`.
ghost use Rattle.std.specs.Prelude.{◌≡◌, ◌++◌, ℕ, All, IfErr, IfOk, OnErr, OnOk, map, string_bytes, take};
ghost use Rattle.hc_core.specs.Filled.{CanBeFilled};
ghost use Rattle.hc_events.specs.Steps.{sent_text};
ghost use Rattle.hc_program.specs.Cycles.{arrivals_text, back_text, cycle_arrived, cycle_text, cycled};
ghost use Rattle.hc_program.specs.Stops.{StopsInCycle};

use super::arrive;
use crate::frames::LARGEST_FRAME;
use crate::refusals::say_refusal;
use crate::session::Session;
use crate::stops::RefusedGrowth;
use hc_core::keeping::Core;
use hc_events::sending::Sending;
use hc_events::together::Together;
use hc_rings::FrameBox;
use std::alloc::{AllocError, Global};
use std::sync::Wait;
use std::thread::Threads;

/// Returns a frame of the present line in a box, with the values that its datagrams' output variables have now.
fn boxed(alloc: Global, core: &Core, frame: &Sending) -> Result<FrameBox, AllocError>
    requires { CanBeFilled core.now.history frame.now }
    ensures { IfOk result (λ boxed. boxed ≡ sent_text core.now.history frame.now) }
{
    // its datagrams fit a frame, so it is at most as long as the longest
    let _ = frame.datagrams();
    let mut bytes = [0u8; LARGEST_FRAME];
    let bytes = &mut bytes[..frame.size()];
    core.fill(frame, bytes);
    FrameBox::of(alloc, bytes)
}

/// Returns these frames of the present line in boxes, with the values that their datagrams' output variables have now.
fn all_boxed(alloc: Global, core: &Core, frames: &[Sending]) -> Result<Vec<FrameBox>, AllocError>
    requires { All (CanBeFilled core.now.history) frames.now }
    ensures { IfOk result (λ all. all.items ≡ map (sent_text core.now.history) frames.now) }
{
    let mut all = Vec::new(alloc);
    for frame in frames {
        all.push(boxed(alloc, core, frame)?)?;
    }
    Ok(all)
}

/// Hands in frames one after another, and appends their outcomes. `AllocError` if an allocation fails; then the frames before
/// have arrived, and `out` may have a prefix of the lines.
fn take_all_in(
    alloc: Global,
    frames: &[FrameBox],
    session: &mut Session,
    out: &mut String,
) -> Result<(), AllocError>
    ensures text { OnOk result (string_bytes out.new ≡ string_bytes out.old ++ arrivals_text session.old.history frames.now) }
    ensures next { OnOk result (session.new ≡ cycle_arrived session.old frames.now) }
    ensures stops { OnErr result ((n : ℕ) × (session.new ≡ cycle_arrived session.old (take n frames.now))) }
{
    for frame in frames {
        arrive::reply(alloc, frame.bytes(), session, out)?;
    }
    Ok(())
}

/// Hands in frames one after another, and appends their outcomes, or `no frame` if there is none. `AllocError` if an allocation
/// fails; then the frames before have arrived, and `out` may have a prefix of the lines.
fn take_back(
    alloc: Global,
    frames: &[FrameBox],
    session: &mut Session,
    out: &mut String,
) -> Result<(), AllocError>
    ensures text { OnOk result (string_bytes out.new ≡ string_bytes out.old ++ back_text session.old.history frames.now) }
    ensures next { OnOk result (session.new ≡ cycle_arrived session.old frames.now) }
    ensures stops { OnErr result ((n : ℕ) × (session.new ≡ cycle_arrived session.old (take n frames.now))) }
{
    if frames.is_empty() {
        return out.push_str("no frame\n");
    }
    take_all_in(alloc, frames, session, out)
}

/// Sends tasks along the line, hands in the frames that return, and appends their outcomes: `no frame` if the tasks have no
/// datagram, or the fault if the sending is refused. The frames are built before they are sent. Returns a `RefusedGrowth` if an
/// allocation fails; then what was done before is done, and `out` may have a prefix of the lines.
#[tactic(auto, unfolding(crate::specs::Cycles::cycle_text, crate::specs::Cycles::cycled, crate::specs::Cycles::cycle_back, crate::specs::Cycles::cycle_frames))]
pub fn reply<R: Threads + Wait + Sync>(
    rt: &R,
    alloc: Global,
    tasks: &Together,
    session: &mut Session,
    out: &mut String,
) -> Result<(), RefusedGrowth>
    ensures text { OnOk result (string_bytes out.new ≡ string_bytes out.old ++ cycle_text session.old tasks.now) }
    ensures next { OnOk result (session.new ≡ cycled session.old tasks.now) }
    ensures stops { IfErr result (λ refused_growth. StopsInCycle session.old tasks.now refused_growth session.new) }
{
    let sendings = match session.core().propose(alloc, tasks.as_slice()) {
        Ok(sendings) => sendings,
        Err(fault) => return Ok(say_refusal(fault, out)?),
    };
    let frames = all_boxed(alloc, session.core(), &sendings)?;
    session.commit(&sendings);
    let back = session.pass(rt, alloc, frames)?;
    Ok(take_back(alloc, &back, session, out)?)
}
