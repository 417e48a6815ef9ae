//! Arriving frames: the call that takes one, and the outcomes that it reports.
ghost use Rattle.std.specs.Prelude.{◌≡◌, ◌≢◌, ◌<◌, All, None};
ghost use Rattle.hc_c.specs.Arrivals.{Arrives, LeavesAll};
ghost use Rattle.hc_c.specs.Counts.{all_judged};
ghost use Rattle.hc_c.specs.Handles.{IfServedBoth, no_line_number};
ghost use Rattle.hc_c.specs.Lists.{put_first};
ghost use Rattle.hc_c.specs.Returned.{IsInFrame, answered_as, answered_blocks, arrival_out, block_outcome_out, counted_as, expected_in, kind_by, part_outcome_out, parts_out};
ghost use Rattle.hc_c.specs.declared.numbers.TheConstants.{BUSY};

use crate::counting::Counts;
use crate::embedded::Embedded;
use crate::handle::{Handle, with_line};
use crate::numbers::DONE;
use hc_core::naming::{named_by, written_by};
use hc_events::answer::{Arrived, Outcome as CoreOutcome};
use hc_events::faults::CoreFault;
use hc_frames::limits::DATAGRAM_HEAD_BYTES;
use hc_frames::reading::{Part, Parts, read_frame};
use hc_places::table::Places;
use hc_registers::counters::WRITE_COUNT;

/// Outcome of a task's datagram: the working counter is right, and the task reads its data from now on.
pub const INPUTS: u8 = 1;

/// Outcome of a task's datagram: the working counter is wrong. The task reads what it read before.
pub const WRONG_COUNT: u8 = 2;

/// Outcome of a datagram that was sent again since, or of a register block whose slave was lost or cleared since. Nothing
/// changes.
pub const SENT_AGAIN: u8 = 3;

/// Outcome of a register block: its slave has it now. The block is confirmed.
pub const BLOCK_WRITTEN: u8 = 4;

/// Outcome of a register block: no slave took it. It stays owed.
pub const BLOCK_MISSED: u8 = 5;

/// The frame answers a frame of tasks.
pub const OF_TASKS: u8 = 1;

/// The frame answers a frame of register writes, of one block or of several.
pub const OF_BLOCKS: u8 = 2;

/// The frame answers nothing that is awaited.
pub const STALE: u8 = 3;

/// The outcome of one datagram of an arriving frame, in C.
#[repr(C)]
#[derive(Clone, Copy)]
pub struct Outcome {
    /// `INPUTS`, `WRONG_COUNT` or `SENT_AGAIN` for a task's datagram; `BLOCK_WRITTEN`, `BLOCK_MISSED` or `SENT_AGAIN` for a
    /// register block.
    kind: u8,
    /// The task, 0 to 7. Exception: 0 for a register block.
    task: u8,
    /// The datagram's number in the task, 0 to 15. Exception: 0 for a register block.
    datagram: u8,
    reserved: u8,
    /// The expected working counter.
    expected: u16,
    /// The working counter in the frame.
    got: u16,
    /// The offset of its data in the frame, in bytes from 0.
    at: u16,
    /// The length of its data, 1 to 1,486 bytes.
    length: u16,
    /// The station address of a register block's slave; 0 for a task's datagram.
    station: u16,
    /// The first register of a register block; 0 for a task's datagram.
    start: u16,
}

/// An arriving frame as a whole, in C.
#[repr(C)]
#[derive(Clone, Copy)]
pub struct Arrival {
    /// The serial in the frame. Unless the frame is stale, it is the serial of the frame that was sent.
    serial: u64,
    /// The number of datagrams, each of which has an outcome; 0 for a stale frame.
    datagrams: u16,
    /// `OF_TASKS`, `OF_BLOCKS` or `STALE`.
    kind: u8,
    reserved: [u8; 5],
}

/// Returns the kind of an outcome.
fn kind_by(outcome: &CoreOutcome) -> u8
    ensures { result ≡ kind_by outcome.now }
{
    match outcome {
        CoreOutcome::Inputs {
            task: _,
            datagram: _,
        } => INPUTS,
        CoreOutcome::WrongCount {
            expected: _,
            got: _,
        } => WRONG_COUNT,
        CoreOutcome::Stale => SENT_AGAIN,
        CoreOutcome::Done => BLOCK_WRITTEN,
        CoreOutcome::Missed => BLOCK_MISSED,
    }
}

/// Returns the expected working counter of a task's datagram; 0 if the task has no such datagram.
fn expected_in(places: &Places, task: u8, number: u8) -> u16
    ensures { result ≡ expected_in places.now (task, number) }
{
    match places.datagram(task, number) {
        Some(datagram) => datagram.expected,
        None => 0,
    }
}

/// Returns the C form of the outcome of a task's datagram.
fn part_out(places: &Places, outcome: &CoreOutcome, part: &Part<'_>) -> Outcome
    requires { IsInFrame part.now }
    ensures { result ≡ part_outcome_out places.now outcome.now part.now }
{
    let (task, datagram) = named_by(part);
    Outcome {
        kind: kind_by(outcome),
        task,
        datagram,
        reserved: 0,
        expected: expected_in(places, task, datagram),
        got: part.counter,
        at: (part.start + DATAGRAM_HEAD_BYTES) as u16,
        length: part.bytes.len() as u16,
        station: 0,
        start: 0,
    }
}

/// Returns the C form of the outcome of a register block.
fn block_out(outcome: &CoreOutcome, part: &Part<'_>) -> Outcome
    requires { IsInFrame part.now }
    ensures { result ≡ block_outcome_out outcome.now part.now }
{
    let (station, start) = written_by(part);
    Outcome {
        kind: kind_by(outcome),
        task: 0,
        datagram: 0,
        reserved: 0,
        expected: WRITE_COUNT,
        got: part.counter,
        at: (part.start + DATAGRAM_HEAD_BYTES) as u16,
        length: part.bytes.len() as u16,
        station,
        start,
    }
}

/// Writes the outcomes of register blocks to the front of `out`, as many as fit. A frame has at most 74 blocks, which bounds
/// the recursion.
fn put_blocks(outcomes: &[CoreOutcome], parts: Parts<'_>, out: &mut [Outcome])
    requires { All IsInFrame parts }
    ensures { out.new ≡ put_first (answered_blocks outcomes.now parts.entry) out.old }
{
    let Some((outcome, rest)) = outcomes.split_first() else {
        return;
    };
    let mut left = parts;
    let Some(part) = left.next() else {
        return;
    };
    let Some((first, others)) = out.split_first_mut() else {
        return;
    };
    *first = block_out(outcome, &part);
    put_blocks(rest, left, others);
}

/// Counts the outcomes of tasks' datagrams, and writes them to the front of `out`, as many as fit. A frame has at most 115
/// datagrams, which bounds the recursion.
fn put_outcomes(
    counts: &mut Counts,
    places: &Places,
    outcomes: &[CoreOutcome],
    parts: &mut Parts<'_>,
    out: &mut [Outcome],
)
    requires { All IsInFrame parts.old }
    ensures put { out.new ≡ put_first (parts_out places.now outcomes.now parts.old) out.old }
    ensures counted { counts.new ≡ all_judged counts.old (parts_out places.now outcomes.now parts.old) }
{
    let Some((outcome, rest)) = outcomes.split_first() else {
        return;
    };
    let Some(part) = parts.next() else {
        return;
    };
    let own = part_out(places, outcome, &part);
    counts.count_arrival(own.kind, own.task, own.datagram);
    let Some((first, others)) = out.split_first_mut() else {
        put_outcomes(counts, places, rest, parts, &mut []);
        return;
    };
    *first = own;
    put_outcomes(counts, places, rest, parts, others);
}

/// Writes the outcomes of an arriving frame to the front of `out`, as many as fit, and counts those of tasks' datagrams.
fn put_arrived(
    counts: &mut Counts,
    places: &Places,
    arrived: Arrived,
    outcomes: &[CoreOutcome],
    parts: Parts<'_>,
    out: &mut [Outcome],
)
    requires { All IsInFrame parts }
    ensures put { out.new ≡ put_first (answered_as arrived places.now outcomes.now parts.entry) out.old }
    ensures counted { counts.new ≡ all_judged counts.old (counted_as arrived places.now outcomes.now parts.entry) }
{
    match arrived {
        Arrived::Answered => {
            let mut left = parts;
            put_outcomes(counts, places, outcomes, &mut left, out);
        }
        Arrived::Written => put_blocks(outcomes, parts, out),
        Arrived::WriteDone => put_blocks(&[CoreOutcome::Done], parts, out),
        Arrived::WriteMissed => put_blocks(&[CoreOutcome::Missed], parts, out),
        Arrived::Stale => {}
    }
}

/// Returns the C form of an arriving frame whose list of outcomes in the core has `count` items.
fn arrival_out(arrived: Arrived, count: usize, serial: u64) -> Arrival
    requires { count < 65536 }
    ensures { result ≡ arrival_out arrived count serial }
{
    let (datagrams, kind) = match arrived {
        Arrived::Answered => (count as u16, OF_TASKS),
        Arrived::Written => (count as u16, OF_BLOCKS),
        Arrived::WriteDone => (1, OF_BLOCKS),
        Arrived::WriteMissed => (1, OF_BLOCKS),
        Arrived::Stale => (0, STALE),
    };
    Arrival {
        serial,
        datagrams,
        kind,
        reserved: [0; 5],
    }
}

/// Hands an arriving frame to the core, and reports its outcomes.
fn arrive(own: &mut Embedded, bytes: &[u8], outcomes: &mut [Outcome], arrival: &mut Arrival) -> u8
    ensures answer { Arrives own.old own.new bytes.now result outcomes.old outcomes.new arrival.old arrival.new }
    ensures busy { result ≢ BUSY }
{
    let frame = match read_frame(bytes) {
        Ok(frame) => frame,
        Err(fault) => return CoreFault::from(fault).number(),
    };
    let spare = &mut own.spare;
    let list = &mut spare.outcomes;
    let Ok(arrived) = own.core.arrive_discarding(bytes, &frame, list) else {
        unreachable!()
    };
    let found = list.as_slice();
    let places = own.core.plan().places();
    *arrival = arrival_out(arrived, found.len(), frame.serial());
    put_arrived(
        &mut own.counts,
        places,
        arrived,
        found,
        frame.parts(),
        outcomes,
    );
    DONE
}

/// Takes an arriving frame: any bytes, without the check sequence. Returns `DONE` for each frame that can be read;
/// `arrival.kind` says what the frame answers (frames of ETG.1000.4, 5.3 and 5.4; this project's profile):
///
/// - `OF_TASKS`: a frame of tasks. `outcomes` begins with the outcome of each datagram, in the frame's order, and each is
///   counted.
/// - `OF_BLOCKS`: a frame of register writes. `outcomes` begins with the outcome of each block.
/// - `STALE`: nothing that is awaited. `arrival.datagrams` is 0, and `outcomes` is unchanged.
///
/// Outcomes that do not fit are left out; a frame has at most 115. It allocates nothing. Fails with the first of these; then
/// nothing has changed and nothing is written:
///
/// - `BUSY`, `CLOSED` or `MISUSED`.
/// - `Short` to `IndexMismatch`, 20 to 27: the bytes are no frame that can be read.
#[unsafe(no_mangle)]
pub extern "C" fn zangjulf_arrive(
    handle: &mut Handle,
    bytes: &[u8],
    outcomes: &mut [Outcome],
    arrival: &mut Arrival,
) -> u8
    ensures answer { IfServedBoth handle.old handle.new result (λ old new. Arrives old new bytes.now result outcomes.old outcomes.new arrival.old arrival.new) }
    ensures held { handle.new.mark ≡ handle.old.mark }
    ensures busy { result ≡ BUSY → LeavesAll handle.old handle.new outcomes.old outcomes.new arrival.old arrival.new }
    ensures closed { handle.old.holding.value ≡ None → (result ≡ no_line_number handle.old.mark) × (outcomes.new ≡ outcomes.old) × (arrival.new ≡ arrival.old) }
{
    with_line!(handle, |own| arrive(own, bytes, outcomes, arrival))
}
