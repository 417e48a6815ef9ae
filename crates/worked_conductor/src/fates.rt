//! Cycles with answers that are lost, come twice, or come late, and with an edit every hundred cycles.

use crate::lines::{FRAME, are_written};
use crate::working::{STEPS, byte_of, moment_of};
use hc_conductor::conductor::Conductor;
use hc_events::answer::{Answer, Outcome};
use hc_records::edit::Edit;
use hc_records::limits::TASKS;
use std::alloc::Global;
use std::sync::Wait;

/// Cycles from one edit to the next.
const CYCLES: u32 = 100;

/// The offset of the datagram's data in a frame.
const DATA: usize = 26;

/// The fate of an answer.
#[derive(Clone, Copy)]
enum Fate {
    /// The answer comes before anything else is sent.
    InTime,
    /// The answer never comes.
    Lost,
    /// The answer comes in time, and once more.
    Twice,
    /// The answer comes in the next cycle, before anything is sent there.
    Late,
    /// The answer comes in the next cycle, after its task was sent again.
    TooLate,
}

/// An answer that comes in the next cycle.
#[derive(Clone, Copy)]
struct Late {
    frame: [u8; FRAME],
    task: u8,
    too_late: bool,
}

/// The state of a master beside its conductor: the number drawn last, an answer that is late, and the number of posts taken.
#[derive(Clone, Copy)]
pub struct Master {
    drawn: u64,
    late: Option<Late>,
    taken: u64,
}

impl Master {
    /// Nothing was drawn from this seed, nothing is late, and nothing was taken.
    pub fn of(seed: u64) -> Master {
        Master {
            drawn: seed,
            late: None,
            taken: 0,
        }
    }

    /// The number of posts taken, accepted or refused.
    pub fn taken(&self) -> u64 {
        self.taken
    }

    /// Draws the fate of an answer.
    fn fate(&mut self) -> Fate {
        let mut drawn = self.drawn;
        drawn ^= drawn << 13;
        drawn ^= drawn >> 7;
        drawn ^= drawn << 17;
        self.drawn = drawn;
        match drawn % 16 {
            0 => Fate::Lost,
            1 => Fate::Twice,
            2 => Fate::Late,
            3 => Fate::TooLate,
            _ => Fate::InTime,
        }
    }

    /// Takes the tasks' posts.
    pub fn take_posts(&mut self, conductor: &mut Conductor) {
        let taken = conductor.take_posts();
        let all = u64::from(taken.accepted).wrapping_add(u64::from(taken.refused));
        self.taken = self.taken.wrapping_add(all);
    }
}

/// A frame arrives. Some if it brings the inputs of the wanted task, or is stale if no task is wanted.
fn come(alloc: Global, conductor: &mut Conductor, frame: &[u8], wanted: Option<u8>) -> Option<()> {
    let came = match conductor.arrive(alloc, frame) {
        Answer::Stale => None,
        Answer::Answered(outcomes) => match outcomes.as_slice() {
            [Outcome::Inputs { task, datagram: 0 }] => Some(*task),
            _ => return None,
        },
        _ => return None,
    };
    if came == wanted { Some(()) } else { None }
}

/// Makes the slaves' answer of a task's frame: each byte of its inputs is the step's, and its counter the expected one.
pub fn answer(conductor: &Conductor, task: u8, step: u8, frame: &mut [u8]) -> Option<()> {
    let plan = conductor.core().plan();
    let datagram = plan.places().datagram(task, 0)?;
    let (outputs, _) = plan.places().part(task);
    let end = DATA + usize::from(datagram.length);
    let inputs = frame.get_mut(DATA + usize::from(outputs)..end)?;
    inputs.fill(byte_of(plan.epoch(), step));
    let [low, _] = datagram.expected.to_le_bytes();
    *frame.get_mut(end)? = low;
    Some(())
}

/// Sends a task. Its answer has this fate.
fn exchange(
    alloc: Global,
    conductor: &mut Conductor,
    master: &mut Master,
    task: u8,
    step: u8,
    fate: Fate,
) -> Option<()> {
    let mut frame = [0; FRAME];
    if conductor.send(alloc, &[task], &mut frame).is_err() {
        return None;
    }
    answer(conductor, task, step, &mut frame)?;
    match fate {
        Fate::InTime => come(alloc, conductor, &frame, Some(task)),
        Fate::Lost => Some(()),
        Fate::Twice => {
            come(alloc, conductor, &frame, Some(task))?;
            come(alloc, conductor, &frame, None)
        }
        Fate::Late | Fate::TooLate => {
            let too_late = matches!(fate, Fate::TooLate);
            master.late = Some(Late {
                frame,
                task,
                too_late,
            });
            Some(())
        }
    }
}

/// Sends all tasks. The fates of the answers are drawn.
fn exchange_all(
    alloc: Global,
    conductor: &mut Conductor,
    master: &mut Master,
    step: u8,
) -> Option<()> {
    for task in 0..TASKS {
        let fate = master.fate();
        exchange(alloc, conductor, master, task, step, fate)?;
    }
    Some(())
}

/// Sends all tasks. All answers come in time.
fn exchange_last(alloc: Global, conductor: &mut Conductor, master: &mut Master) -> Option<()> {
    for task in 0..TASKS {
        exchange(alloc, conductor, master, task, STEPS - 1, Fate::InTime)?;
    }
    Some(())
}

/// Connects or disconnects the feeder, in turn, and writes all owed blocks.
fn edited(alloc: Global, conductor: &mut Conductor) -> Option<()> {
    let edit = if conductor.core().plan().epoch() % 2 == 0 {
        Edit::Connect(200)
    } else {
        Edit::Disconnect(200)
    };
    let Answer::Edited { .. } = conductor.edit(alloc, &edit) else {
        return None;
    };
    let owed = conductor.core().owed();
    are_written(alloc, conductor, owed).then_some(())
}

/// Plays a cycle. An edit comes first if an epoch's hundred cycles are over.
fn play<R: Wait>(
    rt: &R,
    alloc: Global,
    conductor: &mut Conductor,
    master: &mut Master,
    cycle: u32,
) -> Option<()> {
    let number = cycle % CYCLES;
    let begins = number == 0 && cycle > 0;
    if begins {
        edited(alloc, conductor)?;
    }
    let late = master.late.take();
    if let Some(late) = late {
        if !late.too_late {
            let wanted = if begins { None } else { Some(late.task) };
            come(alloc, conductor, &late.frame, wanted)?;
        }
    }
    master.take_posts(conductor);
    exchange_all(alloc, conductor, master, (number / 4) as u8)?;
    if let Some(late) = late {
        if late.too_late {
            come(alloc, conductor, &late.frame, None)?;
        }
    }
    conductor.publish(rt, alloc).ok()
}

/// Plays the cycles with these numbers. The first edit comes after a hundred cycles.
pub fn play_all<R: Wait>(
    rt: &R,
    alloc: Global,
    conductor: &mut Conductor,
    master: &mut Master,
    first: u32,
    after_it: u32,
) -> Option<()> {
    for cycle in first..after_it {
        play(rt, alloc, conductor, master, cycle)?;
    }
    Some(())
}

/// Plays a last cycle, in which all answers come in time, and returns its moment.
pub fn play_last<R: Wait>(
    rt: &R,
    alloc: Global,
    conductor: &mut Conductor,
    master: &mut Master,
) -> Option<u64> {
    exchange_last(alloc, conductor, master)?;
    conductor.publish(rt, alloc).ok()?;
    Some(moment_of(conductor.core().plan().epoch(), Some(STEPS - 1)))
}
