//! A chain of segments, each in a thread of its own.
ghost use Rattle.std.specs.Prelude.{◌≡◌, ◌≤◌, [], length, map, vec_capacity, IfOk, MatchResult, OnOk};
ghost use Rattle.hc_lend.specs.Work.{HavePassed};
ghost use Rattle.hc_rings.specs.Frames.{SameFrameReceiver, SameFrameSender, frames_sent, frames_taken};
ghost use Rattle.hc_segment.specs.Line.{all_machines, frames_through, machines_after};

use crate::faults::ChainFault;
use crate::flow::flow;
use crate::rings::{Seam, seams_of, send_waiting, take_waiting};
use crate::segment::Segment;
use hc_lend::Gate;
use hc_rings::{FrameBox, FrameReceiver, FrameSender};
use std::alloc::Global;
use std::sync::Wait;
use std::thread::Threads;

/// Sends all frames, in order.
fn send_all<R: Wait>(rt: &R, to: &mut FrameSender, frames: Vec<FrameBox>)
    requires { frames_sent to.old ≡ [] }
    ensures sent { frames_sent to.new ≡ frames.items }
    ensures ring { SameFrameSender to.old to.new }
{
    for frame in frames {
        send_waiting(rt, to, frame);
    }
}

/// Takes `count` frames, in order.
fn take_all<R: Wait>(rt: &R, from: &mut FrameReceiver, count: usize, answer: &mut Vec<FrameBox>)
    requires fresh { frames_taken from.old ≡ [] }
    requires empty { answer.old.items ≡ [] }
    requires room { count ≤ vec_capacity answer.old }
    ensures taken { answer.new.items ≡ frames_taken from.new }
    ensures count { length answer.new.items ≡ count }
    ensures ring { SameFrameReceiver from.old from.new }
{
    for _ in 0..count {
        answer.push_reserved(take_waiting(rt, from));
    }
}

/// Passes the frames through all segments, each in a thread of its own, the first in this one. Without segments the frames come
/// back as they are. Each thread calls the gate once, with its segment's number, counted from 0, before it waits for its first
/// frame. Returns once all frames came out, in their order. Rings and the room for the answer are allocated before a thread is
/// started.
///
/// With more than 4,294,967,295 frames it would wait for ever, since its rings have room for no more than that.
///
/// A segment is served in this thread if the system makes none for it. No clause states that the threads run at once.
///
/// # Errors
///
/// `ChainFault` if an allocation failed: the machines are as they were, and the frames are dropped.
pub fn chain<R: Threads + Wait + Sync, G: Gate + Sync>(
    rt: &R,
    alloc: Global,
    segments: &mut [Segment],
    frames: Vec<FrameBox>,
    gate: &G,
) -> Result<Vec<FrameBox>, ChainFault>
    ensures frames { IfOk result (λ out. out.items ≡ frames_through (all_machines segments.old) frames.items) }
    ensures machines { MatchResult result (λ _. all_machines segments.new ≡ machines_after (all_machines segments.old) frames.items) (λ _. segments.new ≡ segments.old) }
    ensures segments { map length segments.new ≡ map length segments.old }
    ensures gate { OnOk result (HavePassed (G.passed gate.now) 0 (length segments.old)) }
{
    if segments.is_empty() {
        return Ok(frames);
    }
    let count = frames.len();
    // more frames than a ring can have room for would wait for each other
    let room = u32::try_from(count).unwrap_or(u32::MAX);
    let mut answer = Vec::with_capacity(alloc, count)?;
    let mut seams = seams_of(alloc, segments.len() - 1, room)?;
    let Seam {
        sender: mut entry,
        receiver: mut from,
    } = Seam::new(alloc, room)?;
    let Seam {
        sender: mut to,
        receiver: mut exit,
    } = Seam::new(alloc, room)?;
    send_all(rt, &mut entry, frames);
    flow(rt, 0, segments, &mut seams, &mut from, &mut to, count, gate);
    from.beside(&mut entry);
    take_all(rt, &mut exit, count, &mut answer);
    exit.beside(&mut to);
    Ok(answer)
}
