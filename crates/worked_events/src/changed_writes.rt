//! Every answer to a frame of three register writes with another value in one byte.
use crate::asked::Back;
use crate::driven::Driven;
use crate::lines::{opened_axis, write_one};
use crate::texts::back;
use hc_events::answer::Outcome::{Done, Missed};
use hc_events::answer::{Answer, Outcome};
use hc_events::event::Event;
use hc_events::faults::CoreFault;
use hc_frames::Command::Fpwr;
use std::alloc::{AllocError, Global};
use std::test::Fail;

/// The bytes of the answer: 16 of the frame's head, and datagrams of 28, 20 and 28.
const SIZE: usize = 92;

/// The last three of the axis' four blocks, as they come back well.
const THREE: &[Back] = &[
    (Fpwr, 0x0600_03e9, &[0; 16], 1),
    (Fpwr, 0x0818_03e9, &[0; 8], 1),
    (Fpwr, 0x0610_03e9, &[0; 16], 1),
];

/// The meaning of a changed answer.
#[derive(Clone, Copy, PartialEq, Eq)]
enum Meaning {
    /// The frame cannot be read, for this fault.
    Refused(CoreFault),
    /// The frame cannot be read, or answers no sending: with another length the bytes after it have other meanings.
    LeftOut,
    /// The frame answers no sending.
    Stale,
    /// The frame is the answer, and each slave took its block.
    AllDone,
    /// The frame is the answer, and the block with this number, from 0, was not taken.
    OneMissed(usize),
}

/// The meaning of a datagram with another value of a byte, by its fields: command, index, four bytes of address, two of length,
/// two of interrupt, data, two of working counter.
fn field_answered(datagram: usize, at: usize, data: usize, value: u8) -> Meaning {
    match at {
        0 if value == 1 || value == 2 || value == 12 => Meaning::Stale,
        0 => Meaning::Refused(CoreFault::UnknownCommand),
        1 => Meaning::Refused(CoreFault::IndexMismatch),
        2..=5 => Meaning::Stale,
        6 | 7 => Meaning::LeftOut,
        8 | 9 => Meaning::AllDone,
        _ if at < data.saturating_add(10) => Meaning::AllDone,
        _ => Meaning::OneMissed(datagram),
    }
}

/// The meaning of an answer with another value of a byte of the frame. The destination and the source's first byte are free.
/// The last of the source's other bytes is also each datagram's index. EtherType, length and type come then. A length of 28 or
/// 48 ends with the first or the second datagram, which promises that another follows.
fn meaning_of(at: usize, value: u8) -> Meaning {
    match at {
        0..=6 => Meaning::AllDone,
        7..=10 => Meaning::Stale,
        11 => Meaning::Refused(CoreFault::IndexMismatch),
        12 | 13 => Meaning::Refused(CoreFault::NotEtherCat),
        14 if value == 28 || value == 48 => Meaning::Refused(CoreFault::MoreFollows),
        14 => Meaning::Refused(CoreFault::BadLength),
        15 if (0x11..=0x17).contains(&value) => Meaning::Refused(CoreFault::BadLength),
        15 => Meaning::Refused(CoreFault::BadType),
        16..=43 => field_answered(0, at.saturating_sub(16), 16, value),
        44..=63 => field_answered(1, at.saturating_sub(44), 8, value),
        _ => field_answered(2, at.saturating_sub(64), 16, value),
    }
}

/// True if the answer has these outcomes.
fn is_written(answer: &Answer, wanted: &[Outcome]) -> bool {
    match answer {
        Answer::Written(outcomes) => outcomes.as_slice() == wanted,
        _ => false,
    }
}

/// The outcomes if the block with this number was not taken.
fn with_missed(number: usize) -> [Outcome; 3] {
    match number {
        0 => [Missed, Done, Done],
        1 => [Done, Missed, Done],
        _ => [Done, Done, Missed],
    }
}

/// True if the answer to a frame has this meaning.
fn is_answered_so(answer: &Answer, meaning: Meaning) -> bool {
    match meaning {
        Meaning::Refused(fault) => matches!(answer, Answer::Refused(found) if *found == fault),
        Meaning::LeftOut => matches!(answer, Answer::Refused(_) | Answer::Stale),
        Meaning::Stale => matches!(answer, Answer::Stale),
        Meaning::AllDone => is_written(answer, &[Done; 3]),
        Meaning::OneMissed(number) => is_written(answer, &with_missed(number)),
    }
}

/// The number of blocks that are owed after an answer with this meaning.
fn owed_after(meaning: Meaning) -> u32 {
    match meaning {
        Meaning::AllDone => 0,
        Meaning::OneMissed(_) => 1,
        _ => 3,
    }
}

/// True if a frame with this meaning is the awaited answer.
fn is_answer(meaning: Meaning) -> bool {
    matches!(meaning, Meaning::AllDone | Meaning::OneMissed(_))
}

/// Forgets the axis, writes its first block, and sends the other three in one frame. Returns the frame's serial. None if one of
/// these calls has another answer.
fn sent_three(driven: &mut Driven, alloc: Global) -> Result<Option<u64>, AllocError> {
    let forgotten = driven.put(alloc, Event::Forget(1001))?;
    if !matches!(forgotten, Answer::Forgotten) || !write_one(driven, alloc)? {
        return Ok(None);
    }
    let serial = driven.core.next_serial();
    Ok(match driven.put(alloc, Event::SendWrites)? {
        Answer::WritesSent(_) => Some(serial),
        _ => None,
    })
}

/// The answer to a serial, with another value of a byte. The answer itself if it has no such byte.
fn changed(alloc: Global, serial: u64, at: usize, value: u8) -> Result<Vec<u8>, AllocError> {
    let mut frame = back(alloc, serial, THREE)?;
    if at < frame.len() {
        frame[at] = value;
    }
    Ok(frame)
}

/// Hands in the answer with another value of a byte. True if it has its meaning, and leaves the right number of blocks owed.
fn holds_of(
    driven: &mut Driven,
    alloc: Global,
    serial: u64,
    at: usize,
    value: u8,
) -> Result<bool, AllocError> {
    let frame = changed(alloc, serial, at, value)?;
    let answer = driven.put(alloc, Event::Arrive(frame.as_slice()))?;
    let meaning = meaning_of(at, value);
    Ok(is_answered_so(&answer, meaning) && driven.core.owed() == owed_after(meaning))
}

/// The serial of a frame that waits for its answer. It is the given one, or that of a new frame if none is given.
fn awaited(
    driven: &mut Driven,
    alloc: Global,
    sent: Option<u64>,
) -> Result<Option<u64>, AllocError> {
    match sent {
        Some(serial) => Ok(Some(serial)),
        None => sent_three(driven, alloc),
    }
}

/// The number of a byte's other values that hold.
fn held(driven: &mut Driven, alloc: Global, at: usize, old: u8) -> Result<u32, AllocError> {
    let mut held = 0_u32;
    let mut sent = None;
    for value in 0..=255_u8 {
        if value != old {
            let Some(serial) = awaited(driven, alloc, sent)? else {
                return Ok(0);
            };
            if holds_of(driven, alloc, serial, at, value)? {
                held = held.saturating_add(1);
            }
            sent = if is_answer(meaning_of(at, value)) {
                None
            } else {
                Some(serial)
            };
        }
    }
    Ok(held)
}

/// The byte of an answer with an index; 0 after its end.
fn byte_of(frame: &[u8], at: usize) -> u8 {
    match frame.get(at) {
        Some(byte) => *byte,
        None => 0,
    }
}

/// True if each other value of a byte holds, on an axis from its opening on. The unchanged bytes of the serial and the index
/// are those of serial 1, since the first block has serial 0.
fn holds_at(alloc: Global, at: usize) -> Result<bool, Fail> {
    let mut driven = opened_axis(alloc)?;
    let old = byte_of(back(alloc, 1, THREE)?.as_slice(), at);
    Ok(held(&mut driven, alloc, at, old)? == 255)
}

/// The first byte with fewer than 255 other values that hold. None if there is none.
fn first_unheld(alloc: Global) -> Result<Option<usize>, Fail> {
    for at in 0..SIZE {
        if !holds_at(alloc, at)? {
            return Ok(Some(at));
        }
    }
    Ok(None)
}

/// Each of the 23,460 answers with another value in one of 92 bytes has its meaning.
#[test]
fn every_changed_answer_to_writes(rt: HostRuntime) -> Result<(), Fail> {
    assert_eq!(rt; back(rt.alloc(), 1, THREE)?.len(), SIZE);
    assert_eq!(rt; first_unheld(rt.alloc())?, None);
    Ok(())
}
