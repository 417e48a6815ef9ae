//! One exchange of a task's process data: over a line that is programmed for it, or over a wire that carries the task.
ghost use Rattle.std.specs.Prelude.{◌≡◌, ◌+◌, ◌^◌, ◌≤◌, All, IfOk, OnErr, length, map};
ghost use Rattle.hc_bits.specs.Bits.{AreBytes};
ghost use Rattle.hc_records.specs.Line.{line};
ghost use Rattle.hc_segment.specs.Line.{frame_through, frames_through, machines_after, machines_after_frame};
ghost use Rattle.hc_machine.specs.declared.limits.TheConstants.{MEMORY_BYTES};
ghost use Rattle.hc_exchange.specs.Carrying.{AreCarryingTask};
ghost use Rattle.hc_exchange.specs.Exchanged.{IsExchangedByCarriers, IsExchangedIfCarrying, IsExchangedIfProgrammable};
ghost use Rattle.hc_exchange.specs.Holding.{IsExchangedWhenReady};
ghost use Rattle.hc_exchange.specs.Sent.{IsSent, IsSentOver};

use crate::programming::program;
use crate::sending::{frames_of, packed};
use hc_plan::plan::Plan;
use hc_segment::Segment;
use std::alloc::{AllocError, Global};

/// Each number of a byte slice is a byte. The call does nothing: its contract states this.
fn are_bytes(bytes: &[u8])
    ensures { AreBytes bytes.now }
{
    let _ = bytes;
}

/// Each machine has all its memory, and each number there is a byte. The call changes nothing. It is needed since a list's
/// value does not state the contents of its machines: each machine states its own.
fn hold_bytes(segment: &Segment)
    ensures bytes { All AreBytes segment.now }
    ensures sizes { All (λ memory. length memory ≡ MEMORY_BYTES) segment.now }
{
    for machine in segment.machines() {
        are_bytes(machine.memory());
    }
}

/// Passes a frame through the machines, in its place.
fn pass(segment: &mut Segment, frame: &mut Vec<u8>)
    ensures frame { frame.new.items ≡ frame_through segment.old frame.old.items }
    ensures machines { segment.new ≡ machines_after_frame segment.old frame.old.items }
{
    segment.process(frame.as_mut_slice());
}

/// Passes frames through the machines one after another, each in its place.
fn pass_all(segment: &mut Segment, frames: &mut [Vec<u8>])
    ensures frames { map (λ frame. frame.items) frames.new ≡ frames_through segment.old (map (λ frame. frame.items) frames.old) }
    ensures machines { segment.new ≡ machines_after segment.old (map (λ frame. frame.items) frames.old) }
{
    for frame in frames.iter_mut() {
        pass(segment, frame);
    }
}

/// Passes each frame of a list through the machines, in its place.
fn send_all(segment: &mut Segment, frames: &mut Vec<Vec<u8>>)
    ensures frames { map (λ frame. frame.items) frames.new.items ≡ frames_through segment.old (map (λ frame. frame.items) frames.old.items) }
    ensures machines { segment.new ≡ machines_after segment.old (map (λ frame. frame.items) frames.old.items) }
{
    pass_all(segment, frames.as_mut_slice());
}

/// Writes every block of the plan's line through the segment as [`program`](crate::program) does, then sends a task's datagrams
/// through it. Each is an LRW (ETG.1000.4, 5.4) in a frame of its own, with the serials after those of the writes. `outputs` is
/// the task's image of output bytes: each output variable is sent as it is there, bits after its end are 0, and its other bits
/// are ignored. Returns the frames as they come back, in their order. There are none for a task without datagrams, and for any
/// task but 0 to 7.
///
/// If the machines are the line's, in its order, with their station addresses and zeros in the FMMU blocks past their slaves'
/// areas, each frame is read, with the expected counter. Each input variable comes back as it was in its slave's memory, and
/// each output variable is in its slave's memory as in `outputs`. Of the rest of process memory nothing is changed but the gaps
/// of the task's output areas, which are 0.
///
/// # Errors
///
/// `AllocError` if an allocation failed: nothing was written then, and the machines are as they were.
pub fn exchange(
    alloc: Global,
    plan: &Plan,
    segment: &mut Segment,
    task: u8,
    outputs: &[u8],
) -> Result<Vec<Vec<u8>>, AllocError>
    ensures sent { IfOk result (λ frames. IsSent (line plan.now) task outputs.now segment.old (map (λ frame. frame.items) frames.items) segment.new) }
    ensures meant { IfOk result (λ frames. IsExchangedIfProgrammable (line plan.now) task outputs.now segment.old (map (λ frame. frame.items) frames.items) segment.new) }
    ensures unchanged { OnErr result (segment.new ≡ segment.old) }
{
    let places = plan.places();
    let packed = packed(alloc, places, task, outputs)?;
    let count = places.datagrams(task).len();
    let mut frames = frames_of(alloc, u64::from(plan.blocks()), task, count, &packed)?;
    hold_bytes(segment);
    program(plan, segment);
    send_all(segment, &mut frames);
    Ok(frames)
}

/// Sends a task's datagrams through the segment, each an LRW (ETG.1000.4, 5.4) in a frame of its own, and writes no register.
/// It is for a task whose own FMMU blocks are written while blocks of other tasks are not. The first frame has the serial
/// `serial`, at most 2^40 - 16, and each next frame the serial after. `outputs` is the task's image of output bytes: each
/// output variable is sent as it is there, bits after its end are 0, and its other bits are ignored. Returns the frames as they
/// come back, in their order. There are none for a task without datagrams, and for any task but 0 to 7.
///
/// The machines may be the line's alone, or others may stand anywhere between them. The premise is that each machine of the
/// line has the FMMU blocks of its areas in the task, and no other FMMU on the wire pairs a logical bit of the task's
/// datagrams. Then each frame is read, with the expected counter. Each input variable comes back as it was in its slave's
/// memory, and each output variable is in its slave's memory as in `outputs`. Of the rest of the slaves' process memory nothing
/// is changed but the gaps of the task's output areas, which are 0. The machines outside the line stay as they were, and the
/// wire carries the task after the exchange as before. No station address and no sync manager has a part in this: LRW names no
/// slave.
///
/// The premise holds for each task that is ready (`SendReady` of the core) over machines that hold what the record says of
/// their registers: see the laws of [`holding_laws`](crate::holding_laws).
///
/// # Errors
///
/// `AllocError` if an allocation failed: no frame was sent then, and the machines are as they were.
pub fn exchange_ready(
    alloc: Global,
    plan: &Plan,
    segment: &mut Segment,
    serial: u64,
    task: u8,
    outputs: &[u8],
) -> Result<Vec<Vec<u8>>, AllocError>
    requires serials { serial + 16 ≤ 2 ^ 40 }
    ensures sent { IfOk result (λ frames. IsSentOver (line plan.now) task serial outputs.now segment.old (map (λ frame. frame.items) frames.items) segment.new) }
    ensures meant { IfOk result (λ frames. IsExchangedByCarriers (line plan.now) task serial outputs.now segment.old (map (λ frame. frame.items) frames.items) segment.new) }
    ensures wire { IfOk result (λ frames. IsExchangedIfCarrying (line plan.now) task serial outputs.now segment.old (map (λ frame. frame.items) frames.items) segment.new) }
    ensures ready { IfOk result (λ frames. IsExchangedWhenReady (line plan.now) task serial outputs.now segment.old (map (λ frame. frame.items) frames.items) segment.new) }
    ensures stays { IfOk result (λ frames. AreCarryingTask (line plan.now) task segment.old → AreCarryingTask (line plan.now) task segment.new) }
    ensures unchanged { OnErr result (segment.new ≡ segment.old) }
{
    let places = plan.places();
    let packed = packed(alloc, places, task, outputs)?;
    let count = places.datagrams(task).len();
    let mut returned = frames_of(alloc, serial, task, count, &packed)?;
    send_all(segment, &mut returned);
    Ok(returned)
}
