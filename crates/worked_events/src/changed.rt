//! Every cut of an answer, and every answer with another value in one byte.
use crate::answers::{ANSWERED, ARRIVAL, INDEX_ALONE, POSTED, THREE_EPOCHS};
use crate::asked::Asked::{Post, Remap, Send};
use crate::asked::{Row, Wanted, answer, first_wrong, holds, is_wanted};
use crate::driven::Driven;
use crate::lines::{opened_axis, write_all};
use crate::stages::Stage::{Blocks, Rows};
use crate::stages::{Stage, first_wrong_at, is_sent};
use hc_events::answer::{Answer, Outcome};
use hc_events::event::Event;
use hc_events::faults::CoreFault;
use hc_records::items::Items;
use std::alloc::{AllocError, Global};
use std::test::Fail;

/// The bytes of the answer: 16 of the frame's head, 10 of the datagram's, 3 of data, and 2 of the counter.
const SIZE: usize = 31;

/// The meaning of a changed answer.
#[derive(Clone, Copy, PartialEq, Eq)]
enum Meaning {
    /// The frame cannot be read.
    Refused(CoreFault),
    /// The frame answers no sending.
    Stale,
    /// The frame is the answer, with its data.
    Inputs,
    /// The frame is the answer, with this counter.
    WrongCount(u16),
}

/// The meaning of an answer with another value of a byte, by the fields of the frame. The destination, the source's first byte
/// and the interrupt are free. The last of the source's bytes is also the index, so they differ. Another length does not fit
/// the bytes that came, and another type is found before that. Another known command, and another address, are another
/// sending's. Two bits of the length say that the frame circulates, and that more follows.
fn meaning_of(at: usize, value: u8) -> Meaning {
    match at {
        0..=6 | 24 | 25 => Meaning::Inputs,
        7..=10 | 18..=21 => Meaning::Stale,
        11 | 17 => Meaning::Refused(CoreFault::IndexMismatch),
        12 | 13 => Meaning::Refused(CoreFault::NotEtherCat),
        15 if (0x11..=0x17).contains(&value) => Meaning::Refused(CoreFault::BadLength),
        15 => Meaning::Refused(CoreFault::BadType),
        16 if value == 1 || value == 2 || value == 5 => Meaning::Stale,
        16 => Meaning::Refused(CoreFault::UnknownCommand),
        23 if value == 0x40 || value == 0xc0 => Meaning::Refused(CoreFault::Circulating),
        23 if value == 0x80 => Meaning::Refused(CoreFault::MoreFollows),
        26..=28 => Meaning::Inputs,
        29 => Meaning::WrongCount(u16::from(value)),
        30 => Meaning::WrongCount(3 + 256 * u16::from(value)),
        _ => Meaning::Refused(CoreFault::BadLength),
    }
}

/// True if each other value of this byte leaves an answer to the sending.
fn leaves_an_answer(at: usize) -> bool {
    matches!(at, 0..=6 | 24..=30)
}

/// Task 0 gets the outputs 2, and is sent with the serial 4.
const SENT: &[Row] = &[
    (Post(0, 0, &[2]), Wanted::Posted),
    (
        Send(&[0]),
        Wanted::Sent(&[(4, 0x0f, b"\x0c\x04\0\0\0\x01\x03\0\0\0\x02", 33)]),
    ),
];

/// The stages that lead to the awaited answer.
const AWAITING: &[Stage] = &[Blocks(4), Rows(SENT)];

/// True if an answer has exactly this outcome.
fn is_one(answer: &Answer, outcome: Outcome) -> bool {
    match answer {
        Answer::Answered(outcomes) => outcomes.as_slice() == [outcome].as_slice(),
        _ => false,
    }
}

/// True if the answer to a frame has this meaning.
fn is_answered_so(answer: &Answer, meaning: Meaning) -> bool {
    match meaning {
        Meaning::Refused(fault) => matches!(answer, Answer::Refused(found) if *found == fault),
        Meaning::Stale => matches!(answer, Answer::Stale),
        Meaning::Inputs => is_wanted(answer, &ANSWERED),
        Meaning::WrongCount(got) => is_one(answer, Outcome::WrongCount { expected: 3, got }),
    }
}

/// True if a slot has these data, or none.
fn has(slot: &Option<Items<u8>>, data: Option<&[u8]>) -> bool {
    match (slot, data) {
        (Some(bytes), Some(data)) => bytes.as_slice() == data,
        (None, None) => true,
        _ => false,
    }
}

/// True if an answer is an image of one slot with these data, or none.
fn shows(answer: &Answer, data: Option<&[u8]>) -> bool {
    match answer {
        Answer::Image { epoch: _, slots } => match slots.as_slice() {
            [slot] => has(slot, data),
            _ => false,
        },
        _ => false,
    }
}

/// True if task 0 reads these data, or none.
fn reads(driven: &mut Driven, alloc: Global, data: Option<&[u8]>) -> Result<bool, AllocError> {
    Ok(shows(&driven.put(alloc, Event::Read(0))?, data))
}

/// Hands in a frame. True if the answer to it has this meaning.
fn is_answered(
    driven: &mut Driven,
    alloc: Global,
    frame: &[u8],
    meaning: Meaning,
) -> Result<bool, AllocError> {
    Ok(is_answered_so(&driven.put(alloc, Event::Arrive(frame))?, meaning))
}

/// True if nothing is read, no block is owed, and the next serial is 5.
fn awaits_still(driven: &mut Driven, alloc: Global) -> Result<bool, AllocError> {
    Ok(reads(driven, alloc, None)? && driven.core.owed() == 0 && driven.core.next_serial() == 5)
}

/// Hands in a frame that is no answer. True if it has this meaning, and leaves the core as it was.
fn is_left_out(
    driven: &mut Driven,
    alloc: Global,
    frame: &[u8],
    meaning: Meaning,
) -> Result<bool, AllocError> {
    Ok(is_answered(driven, alloc, frame, meaning)? && awaits_still(driven, alloc)?)
}

/// The answer to a serial, with another value of a byte. The serial's bytes are 10 and 11, the index is 17.
fn changed(serial: u64, at: usize, value: u8) -> [u8; SIZE] {
    let [low, high, _, _, _, _, _, _] = serial.to_le_bytes();
    let mut frame = [0; SIZE];
    let mut own = 0_usize;
    for byte in ARRIVAL {
        if own < SIZE {
            frame[own] = *byte;
        }
        own = own.saturating_add(1);
    }
    frame[10] = high;
    frame[11] = low;
    frame[17] = low;
    if at < SIZE {
        frame[at] = value;
    }
    frame
}

/// Remaps the inputs to their present PDO. True if an epoch begins, and no span is recut and no block moves.
fn is_edited(driven: &mut Driven, alloc: Global) -> Result<bool, AllocError> {
    let edited = answer(driven, alloc, Remap(1001, 1, &[0x1a00]))?;
    Ok(matches!(
        edited,
        Answer::Edited {
            epoch: _,
            recut: 0,
            moved: 0
        }
    ))
}

/// Begins an epoch, in which nothing is read yet, and sends the task. True if both succeed.
fn begins_anew(driven: &mut Driven, alloc: Global) -> Result<bool, AllocError> {
    Ok(is_edited(driven, alloc)? && is_sent(driven, alloc)?)
}

/// Hands in a frame that is the answer. True if it has this meaning, and its data are read then if its counter is good, and
/// none otherwise.
fn is_taken(
    driven: &mut Driven,
    alloc: Global,
    frame: &[u8],
    meaning: Meaning,
) -> Result<bool, AllocError> {
    let data = match meaning {
        Meaning::Inputs => frame.get(26..29),
        _ => None,
    };
    Ok(is_answered(driven, alloc, frame, meaning)? && reads(driven, alloc, data)?)
}

/// True if the answer with another value of a byte has its meaning. A frame that answers nothing has the serial 4, and leaves
/// the core as it was. One that answers has a serial and an epoch of its own.
fn holds_of(driven: &mut Driven, alloc: Global, at: usize, value: u8) -> Result<bool, AllocError> {
    if !leaves_an_answer(at) {
        return is_left_out(driven, alloc, &changed(4, at, value), meaning_of(at, value));
    }
    let serial = driven.core.next_serial();
    Ok(
        begins_anew(driven, alloc)?
            && is_taken(
                driven,
                alloc,
                &changed(serial, at, value),
                meaning_of(at, value),
            )?,
    )
}

/// The number of a byte's other values that hold.
fn held(driven: &mut Driven, alloc: Global, at: usize, old: u8) -> Result<u32, AllocError> {
    let mut held = 0_u32;
    for value in 0..=255_u8 {
        if value != old && holds_of(driven, alloc, at, value)? {
            held = held.saturating_add(1);
        }
    }
    Ok(held)
}

/// True if the unchanged frame has its meaning after all other values: it is the answer, or it is stale if an epoch began
/// since.
fn ends_well(driven: &mut Driven, alloc: Global, at: usize) -> Result<bool, AllocError> {
    let meaning = if leaves_an_answer(at) {
        Meaning::Stale
    } else {
        Meaning::Inputs
    };
    is_answered(driven, alloc, ARRIVAL, meaning)
}

/// The number of a byte's other values that hold on a line that awaits the answer. It is 0 if the line does not await it, or
/// the unchanged frame after them all has another meaning.
fn held_of(driven: &mut Driven, alloc: Global, at: usize, old: u8) -> Result<u32, AllocError> {
    if first_wrong_at(driven, alloc, AWAITING)?.is_some() {
        return Ok(0);
    }
    let held = held(driven, alloc, at, old)?;
    Ok(if ends_well(driven, alloc, at)? {
        held
    } else {
        0
    })
}

/// The number of a byte's other values that hold on an axis, from its opening on.
fn held_at(alloc: Global, at: usize, old: u8) -> Result<u32, Fail> {
    let mut driven = opened_axis(alloc)?;
    Ok(held_of(&mut driven, alloc, at, old)?)
}

/// The first byte with fewer than 255 other values that hold. None if there is none.
fn first_unheld(alloc: Global) -> Result<Option<usize>, Fail> {
    let mut at = 0_usize;
    for byte in ARRIVAL {
        if held_at(alloc, at, *byte)? != 255 {
            return Ok(Some(at));
        }
        at = at.saturating_add(1);
    }
    Ok(None)
}

/// Each of the 7,905 answers with another value in one of 31 bytes has its meaning.
#[test]
fn every_changed_answer(rt: HostRuntime) -> Result<(), Fail> {
    assert_eq!(rt; ARRIVAL.len(), SIZE);
    assert_eq!(rt; first_unheld(rt.alloc())?, None);
    Ok(())
}

/// The fault of an answer of which only `size` bytes came. The shortest datagram ends with the byte 27.
fn cut_fault(size: usize) -> CoreFault {
    if size < 28 {
        CoreFault::Short
    } else {
        CoreFault::BadLength
    }
}

/// The first bytes of the answer.
fn cut(size: usize) -> &'static [u8] {
    ARRIVAL.split_at(size.min(ARRIVAL.len())).0
}

/// True if each cut of the awaited answer is refused and leaves the core as it was, and the whole answer is taken afterwards.
fn cuts_hold(driven: &mut Driven, alloc: Global) -> Result<bool, AllocError> {
    for size in 0..SIZE {
        let meaning = Meaning::Refused(cut_fault(size));
        if !is_left_out(driven, alloc, cut(size), meaning)? {
            return Ok(false);
        }
    }
    ends_well(driven, alloc, SIZE)
}

/// True if each cut is refused and the whole answer is taken, on a line from its opening on.
fn cuts_hold_of(driven: &mut Driven, alloc: Global) -> Result<bool, AllocError> {
    let wrong = first_wrong_at(driven, alloc, AWAITING)?;
    Ok(wrong.is_none() && cuts_hold(driven, alloc)?)
}

/// True if each cut is refused and the whole answer is taken, on an axis from its opening on.
fn cuts_hold_of_axis(alloc: Global) -> Result<bool, Fail> {
    let mut driven = opened_axis(alloc)?;
    Ok(cuts_hold_of(&mut driven, alloc)?)
}

/// Each cut of an awaited answer is refused and changes nothing, and the whole answer is taken afterwards.
#[test]
fn every_cut_answer(rt: HostRuntime) -> Result<(), Fail> {
    assert!(rt; cuts_hold_of_axis(rt.alloc())?);
    Ok(())
}

/// True if each cut of the answer is refused.
fn refuses_cuts(driven: &mut Driven, alloc: Global) -> Result<bool, AllocError> {
    for size in 0..SIZE {
        let meaning = Meaning::Refused(cut_fault(size));
        if !is_answered(driven, alloc, cut(size), meaning)? {
            return Ok(false);
        }
    }
    Ok(true)
}

/// True if each unreadable answer with another value of this byte is refused.
fn refuses_at(driven: &mut Driven, alloc: Global, at: usize) -> Result<bool, AllocError> {
    for value in 0..=255_u8 {
        let meaning = meaning_of(at, value);
        let frame = changed(4, at, value);
        if matches!(meaning, Meaning::Refused(_)) && frame.as_slice() != ARRIVAL {
            if !is_answered(driven, alloc, &frame, meaning)? {
                return Ok(false);
            }
        }
    }
    Ok(true)
}

/// True if each unreadable answer is refused: those with another value of a byte, and the cuts.
fn refuses_all(driven: &mut Driven, alloc: Global) -> Result<bool, AllocError> {
    for at in 0..SIZE {
        if !refuses_at(driven, alloc, at)? {
            return Ok(false);
        }
    }
    refuses_cuts(driven, alloc)
}

/// The number of the first row that has another answer, or before which an unreadable frame is not refused. None if there is
/// none.
fn first_disturbed(
    driven: &mut Driven,
    alloc: Global,
    rows: &[Row],
) -> Result<Option<usize>, AllocError> {
    let mut number = 0_usize;
    for row in rows {
        if !refuses_all(driven, alloc)? || !holds(driven, alloc, row)? {
            return Ok(Some(number));
        }
        number = number.saturating_add(1);
    }
    Ok(None)
}

/// Writes every block of a line, and returns the first row that is disturbed then.
fn first_disturbed_written(
    driven: &mut Driven,
    alloc: Global,
    rows: &[Row],
) -> Result<Option<usize>, AllocError> {
    write_all(driven, alloc)?;
    first_disturbed(driven, alloc, rows)
}

/// The first row that is disturbed on an axis with every block written.
fn first_disturbed_of(alloc: Global, rows: &[Row]) -> Result<Option<usize>, Fail> {
    let mut driven = opened_axis(alloc)?;
    Ok(first_disturbed_written(&mut driven, alloc, rows)?)
}

/// Frames that cannot be read are refused between posts, sendings and answers, and change none of the answers.
#[test]
fn refused_frames_come_between_answers(rt: HostRuntime) -> Result<(), Fail> {
    assert_eq!(rt; first_disturbed_of(rt.alloc(), POSTED)?, None);
    Ok(())
}

/// Frames that cannot be read are refused between edits, and change none of the answers over three epochs.
#[test]
fn refused_frames_come_between_edits(rt: HostRuntime) -> Result<(), Fail> {
    assert_eq!(rt; first_disturbed_of(rt.alloc(), THREE_EPOCHS)?, None);
    Ok(())
}

/// Sends 257 frames, with all unreadable frames before each of them. True if these are refused, and each sending is accepted.
fn sends_disturbed(driven: &mut Driven, alloc: Global) -> Result<bool, AllocError> {
    for _ in 0..257 {
        if !refuses_all(driven, alloc)? || !is_sent(driven, alloc)? {
            return Ok(false);
        }
    }
    Ok(true)
}

/// Writes every block of a line, and sends the disturbed frames. True if they are sent, and only the last one is answered then.
fn last_is_answered(driven: &mut Driven, alloc: Global) -> Result<bool, AllocError> {
    write_all(driven, alloc)?;
    let sent = sends_disturbed(driven, alloc)?;
    Ok(sent && first_wrong(driven, alloc, INDEX_ALONE)? == None)
}

/// Returns whether the last frame alone is answered on an axis with every block written.
fn last_disturbed_is_answered(alloc: Global) -> Result<bool, Fail> {
    let mut driven = opened_axis(alloc)?;
    Ok(last_is_answered(&mut driven, alloc)?)
}

/// Frames that cannot be read are refused between many sendings, and the last sending is still answered.
#[test]
fn refused_frames_come_between_sendings(rt: HostRuntime) -> Result<(), Fail> {
    assert!(rt; last_disturbed_is_answered(rt.alloc())?);
    Ok(())
}
