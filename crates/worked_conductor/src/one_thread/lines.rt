//! One axis, and its master.
use hc_conductor::one_thread::master::Master;
use hc_conductor::one_thread::open;
use hc_events::answer::{Answer, Outcome};
use hc_publish::faults::OpenFault;
use std::alloc::Global;
use std::sync::Wait;
use worked_views::projects::{AXIS, project_of};

/// The bytes of each frame of this line: no datagram fills more than the shortest frame.
pub const FRAME: usize = 60;

/// The line at its opening, or the fault.
pub fn opening<R: Wait>(rt: &R, alloc: Global) -> Result<Master, OpenFault> {
    match project_of(alloc, &[AXIS]) {
        Some(project) => open(rt, alloc, project),
        None => Err(OpenFault::Memory),
    }
}

/// The line at its opening.
pub fn opened<R: Wait>(rt: &R, alloc: Global) -> Option<Master> {
    opening(rt, alloc).ok()
}

/// Writes the first owed block into a frame, and counts it as its slave does. True if there is such a write. The working
/// counter is after 26 bytes of headers and the block, whose length the datagram gives.
pub fn is_written(master: &mut Master, frame: &mut [u8; FRAME]) -> bool {
    let Ok(FRAME) = master.next_write(frame) else {
        return false;
    };
    let counter = 26 + usize::from(frame[22]);
    if counter >= FRAME {
        return false;
    }
    frame[counter] = 1;
    true
}

/// Makes the axis' answer of a frame: two bytes of inputs, 0xa34, and the counter 3, which is 2 for the outputs and 1 for the
/// inputs. True if one frame was sent with this byte of outputs.
fn is_answered(frames: usize, outputs: u8, frame: &mut [u8; FRAME]) -> bool {
    let is_right = frames == 1 && frame[26] == outputs;
    frame[27] = 0x34;
    frame[28] = 0x0a;
    frame[29] = 3;
    is_right
}

/// Sends task 0, and makes the axis' answer of the frame. True if one frame was sent with this byte of outputs.
pub fn is_sent(alloc: Global, master: &mut Master, outputs: u8, frame: &mut [u8; FRAME]) -> bool {
    match master.send(alloc, &[0], frame) {
        Ok(frames) => is_answered(frames.len(), outputs, frame),
        Err(_) => false,
    }
}

/// Sends task 0 as a ready task, and makes the axis' answer of the frame. True if one frame was sent with this byte of outputs.
pub fn is_ready_sent(
    alloc: Global,
    master: &mut Master,
    outputs: u8,
    frame: &mut [u8; FRAME],
) -> bool {
    match master.send_ready(alloc, &[0], frame) {
        Ok(frames) => is_answered(frames.len(), outputs, frame),
        Err(_) => false,
    }
}

/// True if an arrival is reported as inputs of the axis' datagram.
pub fn are_inputs(answer: &Answer) -> bool {
    let Answer::Answered(outcomes) = answer else {
        return false;
    };
    matches!(
        outcomes.as_slice(),
        [Outcome::Inputs {
            task: 0,
            datagram: 0,
        }]
    )
}
