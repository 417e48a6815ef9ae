//! Threads that pass frames on.
ghost use Rattle.std.specs.Prelude.{◌≡◌, ◌+◌, ◌<◌, ◌^◌, length, vec_len};
ghost use Rattle.std.specs.Thread.{IsSync};
ghost use Rattle.hc_lend.specs.Work.{HavePassed};
ghost use Rattle.hc_rings.specs.Frames.{SameFrameReceiver, SameFrameSender, frames_sent, frames_taken};
ghost use Rattle.hc_segment.specs.Flow.{Flows, Unused, FlowsPast};
ghost use Rattle.hc_segment.specs.Line.{frame_through, frames_through, machines_after, machines_after_frame};

use crate::rings::{Seam, send_waiting, take_waiting};
use crate::segment::Segment;
use hc_lend::Gate;
use hc_rings::{FrameBox, FrameReceiver, FrameSender};
use std::sync::Wait;
use std::thread::{Threads, join_mut};

/// Passes a frame through a segment in its box.
fn process_box(segment: &mut Segment, frame: &mut FrameBox)
    ensures frame { frame.new ≡ frame_through segment.old frame.old }
    ensures machines { segment.new ≡ machines_after_frame segment.old frame.old }
{
    segment.process(frame.bytes_mut());
}

/// Passes `count` frames through a segment, one after another, once the thread with this number has passed the gate.
fn serve<R: Wait, G: Gate>(
    rt: &R,
    _number: usize,
    segment: &mut Segment,
    from: &mut FrameReceiver,
    to: &mut FrameSender,
    count: usize,
    _gate: &G,
)
    requires unused { Unused from.old to.old }
    requires passed { G.passed _gate.now _number }
    ensures count { length (frames_taken from.new) ≡ count }
    ensures frames { frames_sent to.new ≡ frames_through segment.old (frames_taken from.new) }
    ensures machines { segment.new ≡ machines_after segment.old (frames_taken from.new) }
    ensures rings { SameFrameReceiver from.old from.new × SameFrameSender to.old to.new }
{
    for _ in 0..count {
        let mut frame = take_waiting(rt, from);
        process_box(segment, &mut frame);
        send_waiting(rt, to, frame);
    }
}

/// The work of one thread: it passes the gate, and then passes frames through its segment.
fn work<R: Wait, G: Gate>(
    rt: &R,
    number: usize,
    segment: &mut Segment,
    from: &mut FrameReceiver,
    to: &mut FrameSender,
    count: usize,
    gate: &G,
)
    requires { Unused from.old to.old }
    ensures count { length (frames_taken from.new) ≡ count }
    ensures frames { frames_sent to.new ≡ frames_through segment.old (frames_taken from.new) }
    ensures machines { segment.new ≡ machines_after segment.old (frames_taken from.new) }
    ensures rings { SameFrameReceiver from.old from.new × SameFrameSender to.old to.new }
    ensures passed { G.passed gate.now number }
{
    gate.begun(number);
    serve(rt, number, segment, from, to, count, gate);
}

/// Runs one thread for each segment, numbered from `number` on. The last one sends the frames that the segments make of those
/// that the first one takes.
pub(crate) fn flow<R: Threads + Wait + Sync, G: Gate + Sync>(
    rt: &R,
    number: usize,
    segments: &mut [Segment],
    seams: &mut Vec<Seam>,
    from: &mut FrameReceiver,
    to: &mut FrameSender,
    count: usize,
    gate: &G,
)
    requires fresh { Unused from.old to.old }
    requires seams { vec_len seams.old + 1 ≡ length segments.old }
    requires numbers { number + length segments.old < 2 ^ 64 }
    ensures flows { Flows count segments.old segments.new from.old from.new to.old to.new }
    ensures passed { HavePassed (G.passed gate.now) number (length segments.old) }
{
    let (first, rest) = segments.split_at_mut(1);
    let first = &mut first[0];
    let Some(seam) = seams.pop() else {
        work(rt, number, first, from, to, count, gate);
        return;
    };
    let Seam {
        mut sender,
        mut receiver,
    } = seam;
    let (out, into) = (&mut sender, &mut receiver);
    // if no thread can be made, the second closure runs first: the frames that leave this segment then wait in the seam
    join_mut(
        rt,
        &mut ||
            requires { IsSync R.row × IsSync G.row × Unused into.now to.now × (vec_len seams.now + 1 ≡ length rest.now)
                × (number + 1 + length rest.now < 2 ^ 64) }
            ensures { FlowsPast (G.passed gate.entry.now) (number + 1) count rest.entry.now rest.exit.now into.entry.now into.exit.now to.entry.now to.exit.now }
        { flow(rt, number + 1, rest, seams, into, to, count, gate) },
        &mut || work(rt, number, first, from, out, count, gate),
    );
    receiver.beside(&mut sender);
}
