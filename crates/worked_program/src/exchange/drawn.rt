//! A hundred exchanges among the two thousand edits that `worked_lines` draws: one after each declaration and after every 22nd
//! edit, accepted or refused, until there are a hundred. Each is an exchange of all eight tasks in turn. Its frames and
//! memories are those of the plain body.
use crate::exchange::machines::machine_of;
use crate::exchange::model::{PROCESS, Wanted, exchanged, position};
use hc_exchange::exchange;
use hc_frames::reading::read_frame;
use hc_plan::plan::Plan;
use hc_records::project::Project;
use hc_segment::Segment;
use std::alloc::{AllocError, Global};
use std::test::Fail;
use worked_lines::drawn::{Answered, Drawing, Line, groups};

/// The next byte of a linear congruence.
fn drawn(state: &mut u64) -> u8 {
    *state = state
        .wrapping_mul(6_364_136_223_846_793_005)
        .wrapping_add(1_442_695_040_888_963_407);
    (*state >> 56) as u8
}

/// Returns `count` drawn bytes.
fn drawn_bytes(alloc: Global, state: &mut u64, count: usize) -> Result<Vec<u8>, AllocError> {
    let mut bytes = Vec::with_capacity(alloc, count)?;
    for _ in 0..count {
        bytes.push(drawn(state))?;
    }
    Ok(bytes)
}

/// The machines of the slaves that are present, in their order, with these process memories.
fn segment(alloc: Global, line: &Line, memories: &[u8]) -> Result<Segment, AllocError> {
    let mut machines = Vec::new(alloc);
    let mut rest = memories;
    for slave in 0..64_u16 {
        if line.present[usize::from(slave) / 4] && rest.len() >= PROCESS {
            let mut machine = machine_of(alloc, slave + 1)?;
            machine.write_memory(0x1000, &rest[..PROCESS]);
            machines.push(machine)?;
            rest = &rest[PROCESS..];
        }
    }
    Ok(Segment::of(machines))
}

/// True if the machines have exactly these process memories.
fn hold(segment: &Segment, memories: &[u8]) -> bool {
    let mut rest = memories;
    for machine in segment.machines() {
        if rest.len() < PROCESS || machine.memory().get(0x1000..) != rest.get(..PROCESS) {
            return false;
        }
        rest = &rest[PROCESS..];
    }
    rest.is_empty()
}

/// True if a frame brings one datagram, with this serial, address, data and counter.
fn brings(frame: &[u8], serial: u64, address: u32, data: Option<&[u8]>, counter: u16) -> bool {
    let Ok(read) = read_frame(frame) else {
        return false;
    };
    match read.get(0) {
        Some(part) => {
            read.serial() == serial
                && read.len() == 1
                && part.address == address
                && Some(part.bytes) == data
                && part.counter == counter
        }
        None => false,
    }
}

/// True if the frames bring the wanted datagrams of a task, with serials from the given one on.
fn bring(frames: &[Vec<u8>], task: u8, serial: u64, wanted: &Wanted) -> bool {
    let (mut rest, mut number) = (wanted.data.as_slice(), 0_u32);
    if frames.len() != wanted.datagrams.len() {
        return false;
    }
    for (frame, (bytes, counter)) in frames.iter().zip(&wanted.datagrams) {
        let address = 0x0100_0000_u32
            .saturating_mul(u32::from(task).saturating_add(1))
            .saturating_add(number.saturating_mul(2048));
        if !brings(
            frame,
            serial.saturating_add(u64::from(number)),
            address,
            rest.get(..*bytes),
            *counter,
        ) {
            return false;
        }
        rest = rest.get(*bytes..).unwrap_or(&[]);
        number = number.saturating_add(1);
    }
    rest.is_empty()
}

/// Exchanges a task. True if the frames and the process memories after it are those that the plain body computes, which are
/// then in `memories`.
fn is_right(
    alloc: Global,
    plan: &Plan,
    line: &Line,
    task: u8,
    state: &mut u64,
    memories: &mut [u8],
) -> Result<bool, AllocError> {
    let image = drawn_bytes(alloc, state, 4_000)?;
    let mut segment = segment(alloc, line, memories)?;
    let frames = exchange(alloc, plan, &mut segment, task, &image)?;
    let wanted = exchanged(line, alloc, task, &image, memories)?;
    let serial = (position(line, 64) as u64).saturating_mul(4);
    Ok(bring(&frames, task, serial, &wanted) && hold(&segment, memories))
}

/// True if an exchange of each task is right, one after another, from drawn process memories on.
fn are_right(alloc: Global, plan: &Plan, line: &Line, state: &mut u64) -> Result<bool, AllocError> {
    let slaves = position(line, 64);
    let mut memories = drawn_bytes(alloc, state, PROCESS.saturating_mul(slaves))?;
    for task in 0..8 {
        if !is_right(alloc, plan, line, task, state, &mut memories)? {
            return Ok(false);
        }
    }
    Ok(true)
}

/// The edits after which exchanges were right: the number of all, of accepted declarations, and of refused edits.
#[derive(Clone, Copy, Debug, Default, PartialEq, Eq)]
struct Count {
    all: u32,
    declared: u32,
    refused: u32,
}

impl Count {
    /// Returns the count with one more answer.
    fn with(self, answered: &Answered) -> Count {
        let declared = answered.is_declaration && answered.refused.is_none();
        Count {
            all: self.all.saturating_add(1),
            declared: self.declared.saturating_add(u32::from(declared)),
            refused: self
                .refused
                .saturating_add(u32::from(answered.refused.is_some())),
        }
    }
}

/// Runs the edits, with exchanges among them, until an exchange is not right or there are a hundred.
fn count_right(alloc: Global) -> Result<Count, Fail> {
    let mut plan = Plan::new(alloc, Project::checked(alloc, groups(alloc)?)?)?;
    let (mut drawing, mut state) = (Drawing::begin(), 20_261_126_u64);
    let mut count = Count::default();
    for number in 0..2000 {
        let answered = drawing.apply_next(alloc, &mut plan)?;
        if count.all < 100 && (answered.is_declaration || number % 22 == 0) {
            if !are_right(alloc, &plan, &drawing.line, &mut state)? {
                return Ok(count);
            }
            count = count.with(&answered);
        }
    }
    Ok(count)
}

/// A hundred exchanges between drawn edits leave the frames and memories of the plain body. More than ten of them follow a
/// refused edit, and twelve follow a declaration.
#[test]
fn exchanges_are_those_of_the_plain_body(rt: HostRuntime) -> Result<(), Fail> {
    let count = count_right(rt.alloc())?;
    assert_eq!(rt; (count.all, count.declared), (100, 12));
    assert!(rt; count.refused > 10);
    Ok(())
}
