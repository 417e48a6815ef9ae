//! Chains of one, two and four segments, whose threads run at once.
use crate::gates::{Counts, Holds, Meets, Open};
use crate::pieces::{frame_of, is_placed, put};
use hc_lend::Gate;
use hc_rings::FrameBox;
use hc_segment::{ChainFault, Segment, SlaveMachine, chain};
use std::alloc::{AllocError, Global};
use std::sync::Wait;
use std::test::Fail;
use std::thread::Threads;

/// Eight slaves in segments of `size`, 1 to 8. Each reads and writes its own byte of a datagram of eight bytes at logical address
/// 0x01000000.
fn segments_of(alloc: Global, size: u8) -> Result<Vec<Segment>, AllocError> {
    let mut segments = Vec::new(alloc);
    let mut machines = Vec::new(alloc);
    for place in 0..8 {
        let mut machine = SlaveMachine::new(alloc, u16::from(place))?;
        let block = [place, 0, 0, 1, 1, 0, 0, 7, 0, 0x10, 0, 3, 1, 0, 0, 0];
        put(machine.memory_mut(), 0x0600, &block);
        put(machine.memory_mut(), 0x1000, &[100 + place]);
        machines.push(machine)?;
        if machines.len() == usize::from(size) {
            segments.push(Segment::of(machines))?;
            machines = Vec::new(alloc);
        }
    }
    Ok(segments)
}

/// Frames of process data, alias reads and station writes.
fn frames_of(alloc: Global) -> Result<Vec<FrameBox>, AllocError> {
    let mut frames = Vec::new(alloc);
    for turn in 0..20 {
        let data = [turn, 1, 2, 3, 4, 5, 6, 7];
        let position = (65536 - u32::from(turn % 8)) % 65536;
        let read = frame_of(1, 0x0012_0000 + position, &[0, 0]);
        let write = frame_of(2, 0x0010_0000 + position, &[turn, 9]);
        frames.push(FrameBox::of(alloc, &frame_of(12, 0x0100_0000, &data))?)?;
        frames.push(FrameBox::of(alloc, &read)?)?;
        frames.push(FrameBox::of(alloc, &write)?)?;
        frames.push(FrameBox::of(alloc, &[turn; 40])?)?;
    }
    Ok(frames)
}

/// The bytes of frames and memories, one after another.
fn bytes_of(
    alloc: Global,
    frames: &[FrameBox],
    segments: &[Segment],
) -> Result<Vec<u8>, AllocError> {
    let mut bytes = Vec::new(alloc);
    for frame in frames {
        bytes.extend_from_slice(frame.bytes())?;
    }
    for segment in segments {
        for machine in segment.machines() {
            bytes.extend_from_slice(machine.memory())?;
        }
    }
    Ok(bytes)
}

/// The frames and memories that segments of this size leave, if each segment begins once the one before it is done.
fn left_in_turn<G: Gate>(alloc: Global, size: u8, gate: &G) -> Result<Vec<u8>, AllocError> {
    let mut segments = segments_of(alloc, size)?;
    let mut frames = frames_of(alloc)?;
    for (number, segment) in segments.iter_mut().enumerate() {
        gate.begun(number);
        for frame in frames.iter_mut() {
            segment.process(frame.bytes_mut());
        }
    }
    bytes_of(alloc, &frames, &segments)
}

/// The frames and memories that segments of this size leave in a chain.
fn left_in_chain<R: Threads + Wait + Sync, G: Gate + Sync>(
    rt: &R,
    alloc: Global,
    size: u8,
    gate: &G,
) -> Result<Vec<u8>, ChainFault> {
    let mut segments = segments_of(alloc, size)?;
    let frames = frames_of(alloc)?;
    let out = chain(rt, alloc, &mut segments, frames, gate)?;
    Ok(bytes_of(alloc, &out, &segments)?)
}

/// A chain of one, two or four segments leaves the frames and machines that one segment of eight slaves leaves.
#[test]
fn chains_are_one_segment(rt: HostRuntime) -> Result<(), Fail> {
    let alloc = rt.alloc();
    let wanted = left_in_turn(alloc, 8, &Open)?;
    for size in [8, 4, 2] {
        assert!(rt;
            left_in_chain(&rt, alloc, size, &Open)? == wanted,
            "segments of {size}"
        );
    }
    let mut four = segments_of(alloc, 4)?;
    let none = chain(&rt, alloc, &mut four, Vec::new(alloc), &Open)?;
    let all = chain(&rt, alloc, &mut [], frames_of(alloc)?, &Open)?;
    let counts = [
        segments_of(alloc, 8)?.len(),
        four.len(),
        segments_of(alloc, 2)?.len(),
    ];
    assert_eq!(rt; (counts, none.len(), all.len()), ([1, 2, 4], 0, 80));
    Ok(())
}

/// A body in which each segment begins once the one before it is done leaves the same frames and machines as `chain`. Only the
/// gate tells the two apart.
#[test]
fn segments_run_at_once(rt: HostRuntime) -> Result<(), Fail> {
    let alloc = rt.alloc();
    let (gate, gate_in_turn) = (Holds::of(0, 1), Holds::of(0, 1));
    let left = left_in_chain(&rt, alloc, 4, &gate)?;
    let left_in_turn = left_in_turn(alloc, 4, &gate_in_turn)?;
    let are_seen = (gate.has_seen(), gate_in_turn.has_seen());
    assert_eq!(rt; (are_seen, left == left_in_turn), ((true, false), true));
    Ok(())
}

/// Pairs of the four segments of a chain: the one that is held, and the one for which it is held.
const PAIRS: [(usize, usize); 12] = [
    (0, 1),
    (0, 2),
    (0, 3),
    (1, 0),
    (1, 2),
    (1, 3),
    (2, 0),
    (2, 1),
    (2, 3),
    (3, 0),
    (3, 1),
    (3, 2),
];

/// Whichever segment is held before its first frame, each other one has begun: all threads are there, and none of them waits
/// for a frame before it calls the gate.
#[test]
fn each_segment_begins_before_frames_come(rt: HostRuntime) -> Result<(), Fail> {
    let alloc = rt.alloc();
    let wanted = left_in_turn(alloc, 8, &Open)?;
    for (holder, other) in PAIRS {
        let gate = Holds::of(holder, other);
        let same = left_in_chain(&rt, alloc, 2, &gate)? == wanted;
        assert!(rt; same && gate.has_seen(), "{holder} for {other}");
    }
    let gate = Meets::of(4);
    let left = left_in_chain(&rt, alloc, 2, &gate)?;
    assert_eq!(rt; (gate.met(), left == wanted), (4, true));
    Ok(())
}

/// In a chain of four segments, and in one of eight, each segment calls the gate once, and nobody else does.
#[test]
fn each_segment_calls_the_gate_once(rt: HostRuntime) -> Result<(), Fail> {
    let alloc = rt.alloc();
    let (four, eight) = (Counts::of_none(), Counts::of_none());
    let left = left_in_chain(&rt, alloc, 2, &four)?;
    let same = left_in_chain(&rt, alloc, 1, &eight)? == left;
    assert_eq!(rt;
        (four.counts(), eight.counts(), same),
        ([1, 1, 1, 1, 0, 0, 0, 0], [1; 8], true)
    );
    Ok(())
}

/// True if each machine's mapped byte is one more than that of the machine before it. The first machine has this one.
fn bytes_ascend(segments: &[Segment], first: u8) -> bool {
    let mut wanted = first;
    for segment in segments {
        for machine in segment.machines() {
            if !is_placed(machine.memory(), 0x1000, &[wanted]) {
                return false;
            }
            wanted = wanted.wrapping_add(1);
        }
    }
    true
}

/// True if one frame of 64 bytes came out, with 100 and its place as each slave's byte. Each of the eight counts 1 for a read
/// and 2 for a write.
fn is_answered(out: &[FrameBox]) -> bool {
    match out {
        [frame] => {
            let wanted = [100, 101, 102, 103, 104, 105, 106, 107, 24, 0];
            frame.bytes().len() == 64 && is_placed(frame.bytes(), 26, &wanted)
        }
        _ => false,
    }
}

/// A chain whose allocation fails leaves the machines as they were. `ci/sweep.sh` makes each allocation of this test fail in
/// turn.
#[test]
fn machines_stay_where_a_chain_is_refused(rt: HostRuntime) -> Result<(), Fail> {
    let alloc = rt.alloc();
    let mut segments = segments_of(alloc, 4)?;
    let mut frames = Vec::new(alloc);
    let sent = frame_of(12, 0x0100_0000, &[1, 2, 3, 4, 5, 6, 7, 8]);
    frames.push(FrameBox::of(alloc, &sent)?)?;
    let is_whole = match chain(&rt, alloc, &mut segments, frames, &Open) {
        Ok(out) => is_answered(out.as_slice()) && bytes_ascend(&segments, 1),
        Err(fault) => fault.number() == 1 && bytes_ascend(&segments, 100),
    };
    assert!(rt; is_whole);
    Ok(())
}
