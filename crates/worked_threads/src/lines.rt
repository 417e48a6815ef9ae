//! Frames that go through a segment, step by step.
use crate::pieces::{Piece, are_placed, frame_of, is_placed, put};
use hc_segment::{Segment, SlaveMachine};
use std::alloc::{AllocError, Global};

/// Machines with these aliases.
pub fn segment_of(alloc: Global, aliases: &[u16]) -> Result<Segment, AllocError> {
    let mut machines = Vec::new(alloc);
    for alias in aliases {
        machines.push(SlaveMachine::new(alloc, *alias)?)?;
    }
    Ok(Segment::of(machines))
}

/// A step of a segment, with its result.
pub enum Step {
    /// Bytes are written into the memory of the machine at this position, from an address on.
    Put(usize, usize, &'static [u8]),
    /// Bytes are in the memory of the machine at this position, from an address on.
    Kept(usize, usize, &'static [u8]),
    /// A frame of one datagram with this command, address and data passes, and comes back with such an address, and with these
    /// data and working counter.
    Pass(u8, u32, &'static [u8], u32, &'static [u8]),
    /// A frame of these bytes passes, at most 64, and comes back with these pieces.
    Frame(&'static [u8], &'static [Piece]),
}

/// Writes into the memory of a machine. False if there is no such machine, or the bytes have no room in it.
pub fn put_in(segment: &mut Segment, position: usize, at: usize, bytes: &[u8]) -> bool {
    let machines = segment.machines_mut();
    position < machines.len() && put(machines[position].memory_mut(), at, bytes)
}

/// True if these bytes are in the memory of a machine.
pub fn is_unchanged(machines: &[SlaveMachine], position: usize, at: usize, bytes: &[u8]) -> bool {
    match machines.get(position) {
        Some(machine) => is_placed(machine.memory(), at, bytes),
        None => false,
    }
}

/// Passes a frame through the segment, or else through each of its machines.
fn pass(segment: &mut Segment, is_whole: bool, frame: &mut [u8]) {
    if is_whole {
        segment.process(frame);
        return;
    }
    for machine in segment.machines_mut().iter_mut() {
        machine.process(frame);
    }
}

/// Passes a frame of one datagram. True if it comes back with this address, and with these data and working counter.
fn is_passed(
    segment: &mut Segment,
    is_whole: bool,
    command: u8,
    addresses: (u32, u32),
    bytes: &[u8],
    back: &[u8],
) -> bool {
    if bytes.len() > 36 {
        return false;
    }
    let mut frame = frame_of(command, addresses.0, bytes);
    pass(segment, is_whole, &mut frame);
    is_placed(&frame, 18, &addresses.1.to_le_bytes()) && is_placed(&frame, 26, back)
}

/// Passes a frame. True if it comes back with these pieces.
fn comes_back(segment: &mut Segment, is_whole: bool, sent: &[u8], pieces: &[Piece]) -> bool {
    if sent.len() > 64 {
        return false;
    }
    let mut frame = [0; 64];
    frame[..sent.len()].copy_from_slice(sent);
    pass(segment, is_whole, &mut frame[..sent.len()]);
    are_placed(&frame[..sent.len()], pieces)
}

/// True if a step has its result.
fn is_met(segment: &mut Segment, is_whole: bool, step: &Step) -> bool {
    match step {
        Step::Put(position, at, bytes) => put_in(segment, *position, *at, *bytes),
        Step::Kept(position, at, bytes) => is_unchanged(segment.machines(), *position, *at, *bytes),
        Step::Pass(command, address, bytes, address_back, back) => is_passed(
            segment,
            is_whole,
            *command,
            (*address, *address_back),
            *bytes,
            *back,
        ),
        Step::Frame(sent, pieces) => comes_back(segment, is_whole, *sent, *pieces),
    }
}

/// The number of the first step with another result. None if there is none.
fn first_missed(segment: &mut Segment, is_whole: bool, steps: &[Step]) -> Option<usize> {
    for (number, step) in steps.iter().enumerate() {
        if !is_met(segment, is_whole, step) {
            return Some(number);
        }
    }
    None
}

/// The aliases of machines, and the steps of their segment.
pub type Run = (&'static [u16], &'static [Step]);

/// The numbers of the first run with another result and of its step, through the segment or else through each of its machines.
/// None if there is none.
fn first_wrong(
    alloc: Global,
    is_whole: bool,
    runs: &[Run],
) -> Result<Option<(usize, usize)>, AllocError> {
    for (number, run) in runs.iter().enumerate() {
        let mut segment = segment_of(alloc, run.0)?;
        if let Some(step) = first_missed(&mut segment, is_whole, run.1) {
            return Ok(Some((number, step)));
        }
    }
    Ok(None)
}

/// The numbers of the first wrong run and of its step, through the segment and through each of its machines.
pub fn first_wrongs(
    alloc: Global,
    runs: &[Run],
) -> Result<[Option<(usize, usize)>; 2], AllocError> {
    let whole = first_wrong(alloc, true, runs)?;
    Ok([whole, first_wrong(alloc, false, runs)?])
}
