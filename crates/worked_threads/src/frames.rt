//! Rings of frames.
ghost use Rattle.std.specs.Prelude.{◌≡◌, ◌≤◌, [], length, slice_set, IsTrue, OnOk};
ghost use Rattle.hc_rings.specs.Frames.{AreFrameEnds, SameFrameReceiver, SameFrameSender};
ghost use Rattle.worked_threads.specs.Frames.{PassesMarked};

use hc_rings::{FrameBox, FrameReceiver, FrameSender, LARGEST_FRAME, frame_ring};
use std::alloc::{AllocError, Global};
use std::test::Fail;

/// Sends a frame of these bytes. True if the ring takes it.
fn is_sent(alloc: Global, sender: &mut FrameSender, bytes: &[u8]) -> Result<bool, AllocError>
    requires { length bytes.now ≤ LARGEST_FRAME }
    ensures { OnOk result (SameFrameSender sender.old sender.new) }
{
    let frame = FrameBox::of(alloc, bytes)?;
    Ok(sender.send(frame).is_ok())
}

/// The frame of these bytes that a full ring hands back. None if the ring takes it.
fn refused(
    alloc: Global,
    sender: &mut FrameSender,
    bytes: &[u8],
) -> Result<Option<FrameBox>, AllocError>
    requires { length bytes.now ≤ LARGEST_FRAME }
    ensures { OnOk result (SameFrameSender sender.old sender.new) }
{
    let frame = FrameBox::of(alloc, bytes)?;
    Ok(sender.send(frame).err())
}

/// Takes the next frame. True if it has these bytes.
fn gives(receiver: &mut FrameReceiver, bytes: &[u8]) -> bool
    ensures { SameFrameReceiver receiver.old receiver.new }
{
    match receiver.take() {
        Some(frame) => frame.bytes() == bytes,
        None => false,
    }
}

/// Sends two frames into an empty ring. True if both are sent, and are then counted.
fn sends_two(
    alloc: Global,
    sender: &mut FrameSender,
    receiver: &mut FrameReceiver,
) -> Result<bool, AllocError>
    requires { AreFrameEnds sender.old receiver.old }
    ensures { OnOk result (AreFrameEnds sender.new receiver.new) }
{
    let was_empty = receiver.take().is_none();
    let sent = is_sent(alloc, sender, &[1, 2, 3])? && is_sent(alloc, sender, &[])?;
    Ok(was_empty && sent && receiver.beside(sender) == 2)
}

/// Takes the first frame, and sends the one that was handed back. True if all three come in order.
fn come_in_order(sender: &mut FrameSender, receiver: &mut FrameReceiver, back: FrameBox) -> bool
    requires { AreFrameEnds sender.old receiver.old }
{
    let first = gives(receiver, &[1, 2, 3]);
    let sent = sender.send(back).is_ok();
    let second = gives(receiver, &[]);
    let left = receiver.beside(sender);
    let third = gives(receiver, &[6; 1514]);
    first && sent && second && left == 1 && third && receiver.take().is_none()
}

/// True if two frames, and one that was handed back, go through a ring for two in order.
fn go_in_order(alloc: Global) -> Result<bool, AllocError> {
    let (mut sender, mut receiver) = frame_ring(alloc, 2)?;
    let two = sends_two(alloc, &mut sender, &mut receiver)?;
    Ok(match refused(alloc, &mut sender, &[4; 1514])? {
        Some(mut back) => {
            let is_same = back.bytes() == [4; 1514].as_slice();
            back.bytes_mut().fill(6);
            two && is_same && come_in_order(&mut sender, &mut receiver, back)
        }
        None => false,
    })
}

/// True if a ring without room hands a frame back, and nothing is left in it.
fn has_no_room(alloc: Global) -> Result<bool, AllocError> {
    let (mut sender, mut receiver) = frame_ring(alloc, 0)?;
    let is_back = match refused(alloc, &mut sender, &[8])? {
        Some(back) => back.bytes() == [8].as_slice(),
        None => false,
    };
    Ok(is_back && receiver.beside(&mut sender) == 0)
}

/// Marks a frame as one that was passed on: its source address becomes a locally administered one (IEEE 802.3).
fn mark(frame: &mut [u8])
    ensures { frame.new ≡ slice_set frame.old 6 2 }
{
    if frame.len() > 6 {
        frame[6] = 2;
    }
}

/// Takes a frame, marks it in its box and sends it on.
fn pass_on(from: &mut FrameReceiver, to: &mut FrameSender) -> bool
    ensures { IsTrue result → PassesMarked from.old from.new to.old to.new }
{
    let Some(mut frame) = from.take() else {
        return false;
    };
    mark(frame.bytes_mut());
    to.send(frame).is_ok()
}

/// Frames go through a ring in order. A full ring hands a frame back. None is passed on before one is there, and a passed frame
/// comes marked.
#[test]
fn frames_go_in_order(rt: HostRuntime) -> Result<(), Fail> {
    let alloc = rt.alloc();
    assert_eq!(rt; (go_in_order(alloc)?, has_no_room(alloc)?), (true, true));
    let (mut sender, mut between) = frame_ring(alloc, 1)?;
    let (mut further, mut receiver) = frame_ring(alloc, 1)?;
    let early = pass_on(&mut between, &mut further);
    let sent = is_sent(alloc, &mut sender, &[9; 8])?;
    let passed = pass_on(&mut between, &mut further);
    let marked = gives(&mut receiver, &[9, 9, 9, 9, 9, 9, 2, 9]);
    assert_eq!(rt; [early, sent, passed, marked], [false, true, true, true]);
    Ok(())
}
