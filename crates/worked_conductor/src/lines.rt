//! One axis, its conductor and its seats.
ghost use Rattle.std.specs.Prelude.{◌≡◌, ◌∷◌, All, IfOk, IfSome, List, map};
ghost use Rattle.hc_publish.specs.Seats.{SeatIsAtOpening};
ghost use Rattle.hc_conductor.specs.Conducting.{conductor_origin};
ghost use Rattle.hc_conductor.specs.Seats.{seat_of, sender};
ghost use Rattle.hc_conductor.specs.Together.{EachRing, LostNoBuffer};
ghost use Rattle.hc_conductor.specs.declared.seat.TaskSeat.{TaskSeat};

use hc_conductor::conductor::Conductor;
use hc_conductor::open;
use hc_conductor::seat::TaskSeat;
use hc_events::answer::{Answer, Outcome};
use hc_publish::faults::OpenFault;
use std::alloc::Global;
use std::sync::Wait;
use worked_views::projects::{AXIS, project_of};

/// The bytes of each frame of this line: no datagram fills more than the shortest frame.
pub const FRAME: usize = 60;

/// The line at its opening, or the fault.
pub fn opening<R: Wait>(rt: &R, alloc: Global) -> Result<(Conductor, Vec<TaskSeat>), OpenFault>
    ensures { IfOk result (λ opened. EachRing LostNoBuffer (map sender opened.1.items) opened.0.rings) }
{
    match project_of(alloc, &[AXIS]) {
        Some(project) => open(rt, alloc, project),
        None => Err(OpenFault::Memory),
    }
}

/// The line at its opening.
pub fn opened<R: Wait>(rt: &R, alloc: Global) -> Option<(Conductor, Vec<TaskSeat>)>
    ensures { IfSome result (λ opened. All (SeatIsAtOpening (conductor_origin opened.0)) (map seat_of opened.1.items)) }
{
    opened_line(rt, alloc, AXIS)
}

/// A line at its opening.
pub fn opened_line<R: Wait>(rt: &R, alloc: Global, line: &str) -> Option<(Conductor, Vec<TaskSeat>)>
    ensures { IfSome result (λ opened. All (SeatIsAtOpening (conductor_origin opened.0)) (map seat_of opened.1.items)) }
{
    match open(rt, alloc, project_of(alloc, &[line])?) {
        Ok(opened) => Some(opened),
        Err(_) => None,
    }
}

/// The seats of tasks 0 and 1.
pub fn first_two(seats: Vec<TaskSeat>) -> Option<(TaskSeat, TaskSeat)>
    ensures { IfSome result (λ two. (rest : List TaskSeat) × (seats.items ≡ two.0 ∷ two.1 ∷ rest)) }
{
    let mut seats = seats.into_iter();
    let first = seats.next()?;
    let second = seats.next()?;
    Some((first, second))
}

/// Writes the first owed block, which its slave answers. True if the write is done. The working counter is after 26 bytes of
/// headers and the block, whose length the datagram gives.
fn is_written(alloc: Global, conductor: &mut Conductor) -> bool
    ensures { conductor_origin conductor.new ≡ conductor_origin conductor.old }
{
    let mut frame = [0; FRAME];
    let Ok(FRAME) = conductor.next_write(&mut frame) else {
        return false;
    };
    let counter = 26 + usize::from(frame[22]);
    if counter >= FRAME {
        return false;
    }
    frame[counter] = 1;
    matches!(conductor.arrive(alloc, &frame), Answer::WriteDone)
}

/// Writes `blocks` owed blocks. True if each write is done.
pub fn are_written(alloc: Global, conductor: &mut Conductor, blocks: u32) -> bool
    ensures { conductor_origin conductor.new ≡ conductor_origin conductor.old }
{
    for _ in 0..blocks {
        if !is_written(alloc, conductor) {
            return false;
        }
    }
    true
}

/// Writes the four blocks of the axis: a sync manager's and an FMMU's for each area. True if each write is done.
pub fn is_programmed(alloc: Global, conductor: &mut Conductor) -> bool
    ensures { conductor_origin conductor.new ≡ conductor_origin conductor.old }
{
    are_written(alloc, conductor, 4)
}

/// Sends task 0. True if the axis' answer to its frame is good: a byte of outputs, two of inputs, 0xa34, and the counter 3,
/// which is 2 for the outputs and 1 for the inputs.
pub fn is_answered(alloc: Global, conductor: &mut Conductor) -> bool
    ensures { conductor_origin conductor.new ≡ conductor_origin conductor.old }
{
    let mut frame = [0; FRAME];
    let Ok(frames) = conductor.send(alloc, &[0], &mut frame) else {
        return false;
    };
    if frames.len() != 1 {
        return false;
    }
    frame[26] = 2;
    frame[27] = 0x34;
    frame[28] = 0x0a;
    frame[29] = 3;
    let Answer::Answered(outcomes) = conductor.arrive(alloc, &frame) else {
        return false;
    };
    matches!(
        outcomes.as_slice(),
        [Outcome::Inputs {
            task: 0,
            datagram: 0,
        }]
    )
}
