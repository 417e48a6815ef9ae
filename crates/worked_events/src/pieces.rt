//! The calls of a core beside events: sendings in pieces, the parts of their tasks, previews, reads, lists of events, and posts
//! and writes that do not allocate. Every byte was worked out by hand.
ghost use Rattle.std.specs.Prelude.{◌≤◌, All, length};
ghost use Rattle.hc_frames.specs.declared.limits.TheConstants.{SETUP_SERIAL};
ghost use Rattle.hc_events.specs.Steps.{step_of};
ghost use Rattle.hc_core.specs.Filled.{CanBeFilled};
ghost use Rattle.hc_core.specs.Serving.{IsAsked};

use crate::asked::Asked::{Comes, Read, Send};
use crate::asked::{Row, Text, Wanted, are_texts, first_wrong, is_text, is_wanted};
use crate::driven::{Driven, are_sent_together};
use crate::lines::opened_axis;
use crate::several::FOUR;
use crate::shared::{FIRST, FIRST_INPUTS, SECOND, SECOND_INPUTS, TO_TASK_1};
use crate::stages::Stage::{Blocks, Rows};
use crate::stages::{Stage, first_wrong_at};
use crate::texts::back;
use hc_core::keeping::Core;
use hc_core::writing::SentWrites;
use hc_events::answer::Answer;
use hc_events::event::Event;
use hc_events::faults::CoreFault;
use hc_events::sending::Sending;
use hc_frames::Command::Fpwr;
use hc_records::edit::Edit;
use hc_records::items::Items;
use std::alloc::{AllocError, Global};
use std::test::Fail;

/// The text of a frame, written over other bytes.
fn filled(alloc: Global, core: &Core, frame: &Sending) -> Result<Items<u8>, AllocError>
    requires { CanBeFilled core.now.history frame.now }
{
    let mut text = Vec::from_elem(alloc, 0xaa, frame.size())?;
    core.fill(frame, &mut text);
    Ok(Items::of(text))
}

/// The texts of frames.
fn all_filled(alloc: Global, core: &Core, frames: &[Sending]) -> Result<Vec<Items<u8>>, AllocError>
    requires { All (CanBeFilled core.now.history) frames.now }
{
    let mut texts = Vec::new(alloc);
    for frame in frames {
        texts.push(filled(alloc, core, frame)?)?;
    }
    Ok(texts)
}

/// A task's part of frames, written over other bytes.
fn part(alloc: Global, core: &Core, frames: &[Sending], task: u8) -> Result<Vec<u8>, AllocError>
    requires frames { All (CanBeFilled core.now.history) frames.now }
    requires few { length frames.now ≤ SETUP_SERIAL }
{
    let mut part = Vec::from_elem(alloc, 0xaa, core.part_size(frames, task))?;
    core.fill_part(frames, task, &mut part);
    Ok(part)
}

/// True if the parts of two tasks have these sizes, and one after the other make up this frame.
fn are_parts(
    alloc: Global,
    core: &Core,
    frames: &[Sending],
    tasks: (u8, u8),
    sizes: (usize, usize),
    text: &Text,
) -> Result<bool, AllocError>
    requires frames { All (CanBeFilled core.now.history) frames.now }
    requires few { length frames.now ≤ SETUP_SERIAL }
{
    let mut first = part(alloc, core, frames, tasks.0)?;
    let mut second = part(alloc, core, frames, tasks.1)?;
    let found = (first.len(), second.len());
    first.append(&mut second)?;
    Ok(found == sizes && is_text(first.as_slice(), text))
}

/// The frame of 14 and 13 bytes that the two tasks share: the first datagram says that another follows.
const SHARED_TEXT: Text = (
    6,
    0x1b,
    b"\x0c\x06\0\0\0\x01\x02\x80\0\0\0\0\0\0\x0c\x06\0\0\0\x02\x01\0\0\0\x02",
    19,
);

/// True if the frames are the shared one, as a whole and by the parts of the two tasks. The first part has the 16 bytes of the
/// frame's head and the 14 of the first datagram. The second part has the 13 of the second datagram and the 17 zeros that fill
/// 60 bytes.
fn are_shared(alloc: Global, core: &Core, frames: &[Sending]) -> Result<bool, AllocError>
    requires frames { All (CanBeFilled core.now.history) frames.now }
    requires few { length frames.now ≤ SETUP_SERIAL }
{
    let texts = all_filled(alloc, core, frames)?;
    let parted = are_parts(alloc, core, frames, (0, 1), (30, 30), &SHARED_TEXT)?;
    Ok(parted && are_texts(&texts, &[SHARED_TEXT]))
}

/// Proposes the two tasks, fills their frame and commits it. True if it is the shared frame, and the proposal by itself used no
/// serial.
fn is_sent_in_pieces(alloc: Global, core: &mut Core) -> Result<bool, CoreFault> {
    let tasks = [0, 1];
    if !are_sent_together(&tasks) {
        return Ok(false);
    }
    let frames = core.propose(alloc, &tasks)?;
    let shared = frames.len() == 1 && core.next_serial() == 6 && are_shared(alloc, core, &frames)?;
    core.commit(&frames);
    Ok(shared)
}

/// The stages before the sending in pieces.
const BEFORE: &[Stage] = &[Blocks(4), Rows(TO_TASK_1), Blocks(2)];

/// The rows after the sending: its answer is awaited, and the next frame has the next serial.
const AFTER: &[Row] = &[
    (
        Comes(6, &[FIRST, SECOND]),
        Wanted::Answered(&[FIRST_INPUTS, SECOND_INPUTS]),
    ),
    (Read(0), Wanted::Image(1, &[Some(b"\x34\x0a")])),
    (
        Send(&[0]),
        Wanted::Sent(&[(7, 0x0e, b"\x0c\x07\0\0\0\x01\x02\0\0\0", 34)]),
    ),
];

/// Sends the tasks in pieces, and returns the first row of `AFTER` that does not hold. `AFTER.len()` if the tasks were not
/// sent. None if all rows hold.
fn first_wrong_after(alloc: Global, driven: &mut Driven) -> Result<Option<usize>, CoreFault> {
    let wrong = first_wrong_at(driven, alloc, BEFORE)?;
    if wrong.is_some() || !is_sent_in_pieces(alloc, &mut driven.core)? {
        return Ok(Some(AFTER.len()));
    }
    Ok(first_wrong(driven, alloc, AFTER)?)
}

/// The first wrong step of sending in pieces, from the axis' opening on.
fn wrong_in_pieces(alloc: Global) -> Result<Option<usize>, Fail> {
    let mut driven = opened_axis(alloc)?;
    Ok(first_wrong_after(alloc, &mut driven)?)
}

/// Tasks that are proposed, filled part by part and committed are sent as one frame, and its answer is awaited.
#[test]
fn tasks_are_sent_in_pieces(rt: HostRuntime) -> Result<(), Fail> {
    assert_eq!(rt; wrong_in_pieces(rt.alloc())?, None);
    Ok(())
}

/// The fault of a proposal.
fn unproposed(alloc: Global, core: &Core, tasks: &[u8]) -> Option<CoreFault> {
    if !are_sent_together(tasks) {
        return None;
    }
    core.propose(alloc, tasks).err()
}

/// The faults of proposals at the axis' opening: its four blocks are owed, and there are eight tasks.
fn unproposed_at_opening(alloc: Global) -> Result<[Option<CoreFault>; 3], Fail> {
    let driven = opened_axis(alloc)?;
    Ok([
        unproposed(alloc, &driven.core, &[0]),
        unproposed(alloc, &driven.core, &[7]),
        unproposed(alloc, &driven.core, &[0, 8]),
    ])
}

/// A proposal is refused with `Unprogrammed` while blocks are owed, and with `NoSuchTask` for a task over 7.
#[test]
fn nothing_is_proposed_while_blocks_are_owed(rt: HostRuntime) -> Result<(), Fail> {
    let owed = Some(CoreFault::Unprogrammed(4));
    assert_eq!(rt;
        unproposed_at_opening(rt.alloc())?,
        [owed, owed, Some(CoreFault::NoSuchTask)]
    );
    Ok(())
}

/// A datagram, by its task and its number, and the frame that its preview shows, if there is one.
type Shown = (u8, u8, Option<Text>);

/// Previews while blocks are owed. The axis' datagram has the first serial and the posted outputs. Task 0 has no other
/// datagram, task 1 has none, and there is no task 8.
const SHOWN: &[Shown] = &[
    (0, 0, Some((0, 0x0f, b"\x0c\0\0\0\0\x01\x03\0\0\0\x02", 33))),
    (0, 1, None),
    (1, 0, None),
    (8, 0, None),
];

/// True if the preview of a datagram is this frame, or none.
fn is_shown(alloc: Global, core: &Core, shown: &Shown) -> Result<bool, AllocError> {
    let Some(frame) = core.preview(shown.0, shown.1) else {
        return Ok(shown.2.is_none());
    };
    let text = filled(alloc, core, &frame)?;
    Ok(match &shown.2 {
        Some(wanted) => is_text(text.as_slice(), wanted),
        None => false,
    })
}

/// The number of the first datagram with another preview. None if there is none.
fn first_unshown(alloc: Global, core: &Core) -> Result<Option<usize>, AllocError> {
    let mut number = 0_usize;
    for shown in SHOWN {
        if !is_shown(alloc, core, shown)? {
            return Ok(Some(number));
        }
        number = number.saturating_add(1);
    }
    Ok(None)
}

/// The result of a post. The call states nothing of it, or of the core.
fn post(core: &mut Core, task: u8, epoch: u32, bytes: &[u8]) -> Result<(), CoreFault> {
    core.post(task, epoch, bytes)
}

/// The answers to posts of a task and an epoch, in the order of their refusals: there is no task 8, the epoch is 0,
/// and the task has one byte of outputs.
fn posted(core: &mut Core) -> [Result<(), CoreFault>; 4] {
    [
        post(core, 8, 1, &[2, 0]),
        post(core, 0, 1, &[2, 0]),
        post(core, 0, 0, &[2, 0]),
        post(core, 0, 0, &[2]),
    ]
}

/// The results of the posts, and the first datagram with another preview after them.
fn posted_and_shown(alloc: Global) -> Result<([Result<(), CoreFault>; 4], Option<usize>), Fail> {
    let mut driven = opened_axis(alloc)?;
    let posted = posted(&mut driven.core);
    let unshown = first_unshown(alloc, &driven.core)?;
    Ok((posted, unshown))
}

const POSTED: [Result<(), CoreFault>; 4] = [
    Err(CoreFault::NoSuchTask),
    Err(CoreFault::StalePost),
    Err(CoreFault::PostLength),
    Ok(()),
];

/// A preview shows a task's datagram with the next serial and the posted outputs, also while blocks are owed.
#[test]
fn a_posted_datagram_is_shown(rt: HostRuntime) -> Result<(), Fail> {
    assert_eq!(rt; posted_and_shown(rt.alloc())?, (POSTED, None));
    Ok(())
}

/// The frame that writes the first block, the sync manager's of the outputs: start address, length, control and activation.
const FIRST_WRITE: Text = (
    0,
    0x14,
    b"\x05\0\xe9\x03\x10\x08\x08\0\0\0\0\x11\x01\0\x64\0\x01\0",
    26,
);

/// Writes a block into bytes of 0xaa. Returns the result, and true if the frame of the first block is at their front and the
/// other bytes are as they were. A write that fails leaves all bytes as they were.
fn written(core: &mut Core, out: &mut [u8]) -> (Result<usize, CoreFault>, bool) {
    out.fill(0xaa);
    let answer = core.write_into(out);
    let (front, after_it) = out.split_at(if answer.is_ok() { 60.min(out.len()) } else { 0 });
    let holds = answer.is_err() || is_text(front, &FIRST_WRITE);
    (answer, holds && after_it.iter().all(|byte| *byte == 0xaa))
}

/// Two writes, the first into too few bytes; then the number of owed blocks and the next serial.
type Written = ([(Result<usize, CoreFault>, bool); 2], u32, u64);

/// The two writes at the axis' opening.
fn written_at_opening(alloc: Global) -> Result<Written, Fail> {
    let mut driven = opened_axis(alloc)?;
    let short = written(&mut driven.core, &mut [0; 59]);
    let long = written(&mut driven.core, &mut [0; 64]);
    Ok(([short, long], driven.core.owed(), driven.core.next_serial()))
}

/// A frame has at least 60 bytes. A write that fails for want of room uses no serial. A block that was sent is owed until it is
/// answered.
#[test]
fn a_block_is_written_into_a_slice(rt: HostRuntime) -> Result<(), Fail> {
    let wanted = [(Err(CoreFault::Room(60)), true), (Ok(60), true)];
    assert_eq!(rt; written_at_opening(rt.alloc())?, (wanted, 4, 1));
    Ok(())
}

/// Writes all blocks into bytes of 0xaa. Returns the result, and true if their frame is at the front and the other bytes are as
/// they were. A write that fails leaves all bytes as they were.
fn all_written(core: &mut Core, out: &mut [u8]) -> (Result<SentWrites, CoreFault>, bool) {
    out.fill(0xaa);
    let answer = core.write_all_into(out);
    let size = match answer {
        Ok(sent) => sent.size,
        Err(_) => 0,
    };
    let (front, after_it) = out.split_at(size.min(out.len()));
    let holds = answer.is_err() || is_text(front, &FOUR);
    (answer, holds && after_it.iter().all(|byte| *byte == 0xaa))
}

/// Two frames of writes, the first into too few bytes; then the number of owed blocks and the next serial.
type AllWritten = ([(Result<SentWrites, CoreFault>, bool); 2], u32, u64);

/// The two frames of writes at the axis' opening.
fn all_written_at_opening(alloc: Global) -> Result<AllWritten, Fail> {
    let mut driven = opened_axis(alloc)?;
    let short = all_written(&mut driven.core, &mut [0; 111]);
    let long = all_written(&mut driven.core, &mut [0; 120]);
    Ok(([short, long], driven.core.owed(), driven.core.next_serial()))
}

/// Four blocks need 112 bytes. A shorter slice does not get a frame of fewer blocks: the call fails, and no serial is used.
#[test]
fn all_blocks_are_written_into_a_slice(rt: HostRuntime) -> Result<(), Fail> {
    let sent = SentWrites {
        size: 112,
        blocks: 4,
    };
    let wanted = [(Err(CoreFault::Room(112)), true), (Ok(sent), true)];
    assert_eq!(rt; all_written_at_opening(rt.alloc())?, (wanted, 4, 1));
    Ok(())
}

/// The result of a write once no block is owed.
fn unwritten(alloc: Global) -> Result<Result<usize, CoreFault>, Fail> {
    let mut driven = opened_axis(alloc)?;
    let _ = first_wrong_at(&mut driven, alloc, &[Blocks(4)])?;
    Ok(driven.core.write_into(&mut [0; 64]))
}

/// A write is refused with `NothingOwed` once no block is owed.
#[test]
fn no_block_is_left_to_write(rt: HostRuntime) -> Result<(), Fail> {
    assert_eq!(rt; unwritten(rt.alloc())?, Err(CoreFault::NothingOwed));
    Ok(())
}

/// The answers to two events, asked as a list.
fn answers(
    alloc: Global,
    core: &mut Core,
    first: Event<'_>,
    second: Event<'_>,
) -> Result<Vec<Answer>, AllocError>
    requires first { IsAsked (step_of first) }
    requires second { IsAsked (step_of second) }
{
    core.run(alloc, &[first, second])
}

/// True if the answers are these, in order.
fn are_wanted(answers: &[Answer], wanted: &[Wanted]) -> bool {
    if answers.len() != wanted.len() {
        return false;
    }
    for (answer, one) in answers.iter().zip(wanted) {
        if !is_wanted(answer, one) {
            return false;
        }
    }
    true
}

/// Asks for a write, and for a sending. True if the first of four blocks is written, and no task is sent meanwhile.
fn runs_a_write(alloc: Global, core: &mut Core) -> Result<bool, AllocError> {
    let both = answers(alloc, core, Event::SendWrite, Event::SendTasks(&[0]))?;
    let wanted = [
        Wanted::WriteSent(FIRST_WRITE),
        Wanted::Refused(CoreFault::Unprogrammed(4)),
    ];
    Ok(are_wanted(&both, &wanted))
}

/// Hands in the answer to the write, and a post. True if both are accepted.
fn runs_an_arrival(alloc: Global, core: &mut Core) -> Result<bool, AllocError> {
    let came = back(alloc, 0, &[(Fpwr, 0x0810_03e9, &[0; 8], 1)])?;
    let post = Event::Post {
        task: 0,
        epoch: 0,
        bytes: &[2],
    };
    let both = answers(alloc, core, Event::Arrive(came.as_slice()), post)?;
    Ok(are_wanted(&both, &[Wanted::WriteDone, Wanted::Posted]))
}

/// Moves the outputs to task 1, and reads task 0. True if the edit is accepted, and no inputs are read.
fn runs_an_edit(alloc: Global, core: &mut Core) -> Result<bool, AllocError> {
    let edit = Edit::Move {
        station: 1001,
        area: 0,
        task: 1,
    };
    let both = answers(alloc, core, Event::Edit(&edit), Event::Read(0))?;
    let wanted = [Wanted::Edited(1, 2, 2), Wanted::Image(1, &[None])];
    Ok(are_wanted(&both, &wanted))
}

/// True if a core is as these events one by one would leave it: three blocks are owed, one serial is used, the present epoch is
/// 1, and no inputs of it are read.
fn is_left(alloc: Global, core: &Core) -> Result<bool, AllocError> {
    let read = core.read(alloc, 0)?;
    Ok(
        is_wanted(&read, &Wanted::Image(1, &[None]))
            && (core.owed(), core.next_serial(), core.plan().epoch()) == (3, 1, 1),
    )
}

/// True if lists of events of six kinds have their answers, and leave the core as the events one by one would.
fn runs(alloc: Global, core: &mut Core) -> Result<bool, AllocError> {
    Ok(
        runs_a_write(alloc, core)?
            && runs_an_arrival(alloc, core)?
            && runs_an_edit(alloc, core)?
            && is_left(alloc, core)?,
    )
}

/// Returns whether lists of events of six kinds are answered as they should be, from the axis' opening on.
fn is_run(alloc: Global) -> Result<bool, Fail> {
    let mut driven = opened_axis(alloc)?;
    Ok(runs(alloc, &mut driven.core)?)
}

/// A list of events is answered, and leaves the core, as the events one by one would. Six kinds of events are tested.
#[test]
fn lists_of_events_are_answered(rt: HostRuntime) -> Result<(), Fail> {
    assert!(rt; is_run(rt.alloc())?);
    Ok(())
}
