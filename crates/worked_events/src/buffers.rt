//! Memory that a core uses again. The buffers of good answers that come back hold the data of later answers, and 128 are kept.
//! A list that is handed in holds the next changes. One list holds the frames of each sending.
use crate::driven::Driven;
use crate::lines::{opened_axis, write_all};
use hc_events::answer::{Answer, Outcome};
use hc_events::change::Change;
use hc_events::event::Event;
use hc_records::items::Items;
use std::alloc::{AllocError, Global};
use std::test::Fail;

/// The capacity, in bytes, of the buffers that come back: the axis has 3 bytes, so no answer takes as much by itself.
const RETURNED: usize = 4_096;

/// The byte of a frame with one datagram of 3 data bytes that holds the low byte of its working counter.
const COUNTER: usize = 29;

/// Sends the axis's task, brings the frame back as the slave would, and returns whether the answer was good.
fn exchange(driven: &mut Driven, alloc: Global) -> Result<bool, AllocError> {
    let Answer::Sent(frames) = driven.put(alloc, Event::SendTasks(&[0]))? else {
        return Ok(false);
    };
    for text in frames.into_vec() {
        let mut frame = text.into_vec();
        if COUNTER < frame.len() {
            frame[COUNTER] = 3;
        }
        let answer = driven.put(alloc, Event::Arrive(frame.as_slice()))?;
        let Answer::Answered(outcomes) = answer else {
            return Ok(false);
        };
        if !matches!(
            outcomes.as_slice(),
            [Outcome::Inputs {
                task: 0,
                datagram: 0
            }]
        ) {
            return Ok(false);
        }
    }
    Ok(true)
}

/// The number of changes that hold their data in a buffer that came back.
fn returned_among(changes: Vec<Change>) -> usize {
    let mut returned = 0_usize;
    for change in changes {
        if let Change::Good(good) = change {
            if good.into_bytes().into_vec().capacity() >= RETURNED {
                returned = returned.saturating_add(1);
            }
        }
    }
    returned
}

/// Exchanges the task `answers` times, and returns the number of answers whose data are in a buffer that came back. None if an
/// answer was not good.
fn in_returned_buffers(
    driven: &mut Driven,
    alloc: Global,
    answers: usize,
) -> Result<Option<usize>, AllocError> {
    for _ in 0..answers {
        if !exchange(driven, alloc)? {
            return Ok(None);
        }
    }
    Ok(Some(returned_among(driven.core.take_changes(alloc))))
}

/// Hands the core this many buffers.
fn give_back(driven: &mut Driven, alloc: Global, buffers: usize) -> Result<(), AllocError> {
    for _ in 0..buffers {
        let buffer = Vec::with_capacity(alloc, RETURNED)?;
        driven.core.give_back(Items::of(buffer));
    }
    Ok(())
}

/// An answer allocates its own memory if no buffer came back. Of 130 buffers that come back 128 are kept, and each holds the
/// data of one answer.
#[test]
fn answers_use_the_buffers_that_came_back(rt: HostRuntime) -> Result<(), Fail> {
    let alloc = rt.alloc();
    let mut driven = opened_axis(alloc)?;
    write_all(&mut driven, alloc)?;
    assert_eq!(rt; in_returned_buffers(&mut driven, alloc, 2)?, Some(0));
    give_back(&mut driven, alloc, 130)?;
    assert_eq!(rt; in_returned_buffers(&mut driven, alloc, 100)?, Some(100));
    assert_eq!(rt; in_returned_buffers(&mut driven, alloc, 30)?, Some(28));
    Ok(())
}

/// A list of changes that is handed in holds the next changes: its memory is not exchanged for other memory.
#[test]
fn changes_use_the_list_that_was_handed_in(rt: HostRuntime) -> Result<(), Fail> {
    let alloc = rt.alloc();
    let mut driven = opened_axis(alloc)?;
    write_all(&mut driven, alloc)?;
    drop(
        driven
            .core
            .take_changes_into(Vec::with_capacity(alloc, 200)?),
    );
    let is_good = exchange(&mut driven, alloc)?;
    let changes = driven.core.take_changes(alloc);
    assert_eq!(rt;
        (is_good, changes.len(), changes.capacity() >= 200),
        (true, 1, true)
    );
    Ok(())
}

/// Sends the axis's task `times` times. True if each sending was answered with its frame.
fn send_often(driven: &mut Driven, alloc: Global, times: usize) -> Result<bool, AllocError> {
    for _ in 0..times {
        if !matches!(driven.put(alloc, Event::SendTasks(&[0]))?, Answer::Sent(_)) {
            return Ok(false);
        }
    }
    Ok(true)
}

/// Each sending allocates twice: the list of its texts and the text of its frame. All sendings use one list of frames.
/// `ci/sweep.sh` compares the allocations of four sendings with those of ten.
#[test]
fn four_sendings(rt: HostRuntime) -> Result<(), Fail> {
    let alloc = rt.alloc();
    let mut driven = opened_axis(alloc)?;
    write_all(&mut driven, alloc)?;
    assert!(rt; send_often(&mut driven, alloc, 4)?);
    Ok(())
}

/// Ten sendings, whose allocations `ci/sweep.sh` compares with those of four: twelve more.
#[test]
fn ten_sendings(rt: HostRuntime) -> Result<(), Fail> {
    let alloc = rt.alloc();
    let mut driven = opened_axis(alloc)?;
    write_all(&mut driven, alloc)?;
    assert!(rt; send_often(&mut driven, alloc, 10)?);
    Ok(())
}
