//! Tasks that share frames: the axis whose outputs were moved to task 1, and wide areas.
use crate::asked::Asked::{Comes, Move, Post, Read, Send};
use crate::asked::{Back, Row, Wanted};
use crate::driven::Driven;
use crate::lines::{AXIS, opened_wide, write_all};
use crate::stages::Stage::{Blocks, Rows};
use crate::stages::{Case, first_wrong_case};
use hc_events::answer::Outcome::{Inputs, Stale, WrongCount};
use hc_events::answer::{Answer, Outcome};
use hc_events::event::Event;
use hc_frames::Command::Lrw;
use std::alloc::{AllocError, Global};
use std::test::Fail;

/// The datagram of task 0, the axis' inputs alone, answered well: a slave reads it.
pub const FIRST: Back = (Lrw, 0x0100_0000, b"\x34\x0a", 1);

/// The datagram of task 1, its outputs, answered well: a slave writes it.
pub const SECOND: Back = (Lrw, 0x0200_0000, b"\x02", 2);

/// The datagram of task 1, its outputs, which no slave has written.
const UNWRITTEN: Back = (Lrw, 0x0200_0000, b"\x02", 1);

/// The outcome of the first datagram of task 0 with a good counter.
pub const FIRST_INPUTS: Outcome = Inputs {
    task: 0,
    datagram: 0,
};

/// The outcome of the first datagram of task 1 with a good counter.
pub const SECOND_INPUTS: Outcome = Inputs {
    task: 1,
    datagram: 0,
};

/// The rows that lead to the two tasks. The two moved blocks are written after them, with the serials 4 and 5.
pub const TO_TASK_1: &[Row] = &[
    (Post(0, 0, &[2]), Wanted::Posted),
    (Move(1001, 0, 1), Wanted::Edited(1, 2, 2)),
];

/// The two tasks share a frame of 14 and 13 bytes, 0x1b together; the first datagram says by bit 15 of its length
/// that another follows. After the outputs are the counter's 2 bytes and 17 zeros up to 60. Each datagram has a
/// counter of its own.
const TOGETHER: &[Row] = &[
    (
        Send(&[0, 1]),
        Wanted::Sent(&[(
            6,
            0x1b,
            b"\x0c\x06\0\0\0\x01\x02\x80\0\0\0\0\0\0\x0c\x06\0\0\0\x02\x01\0\0\0\x02",
            19,
        )]),
    ),
    (
        Comes(6, &[FIRST, UNWRITTEN]),
        Wanted::Answered(&[
            FIRST_INPUTS,
            WrongCount {
                expected: 2,
                got: 1,
            },
        ]),
    ),
    (Read(0), Wanted::Image(1, &[Some(b"\x34\x0a")])),
    (Read(1), Wanted::Image(1, &[None])),
];

/// A datagram that was sent again is stale in the older frame, and the other one is not. A frame whose datagrams are exchanged,
/// left out or repeated answers nothing and uses up nothing.
const SENT_AGAIN: &[Row] = &[
    (
        Send(&[0, 1]),
        Wanted::Sent(&[(
            7,
            0x1b,
            b"\x0c\x07\0\0\0\x01\x02\x80\0\0\0\0\0\0\x0c\x07\0\0\0\x02\x01\0\0\0\x02",
            19,
        )]),
    ),
    (
        Send(&[0]),
        Wanted::Sent(&[(8, 0x0e, b"\x0c\x08\0\0\0\x01\x02\0\0\0", 34)]),
    ),
    (Comes(7, &[SECOND, FIRST]), Wanted::Stale),
    (Comes(7, &[SECOND]), Wanted::Stale),
    (Comes(7, &[FIRST]), Wanted::Stale),
    (Comes(7, &[FIRST, SECOND, SECOND]), Wanted::Stale),
    (Read(1), Wanted::Image(1, &[None])),
    (
        Comes(7, &[FIRST, SECOND]),
        Wanted::Answered(&[Stale, SECOND_INPUTS]),
    ),
    (Comes(8, &[FIRST]), Wanted::Answered(&[FIRST_INPUTS])),
    (Comes(7, &[FIRST, SECOND]), Wanted::Stale),
];

/// The datagrams are in the order in which the tasks are given, in the frame and in its answer.
const TURNED: &[Row] = &[
    (
        Send(&[1, 0]),
        Wanted::Sent(&[(
            9,
            0x1b,
            b"\x0c\x09\0\0\0\x02\x01\x80\0\0\x02\0\0\x0c\x09\0\0\0\x01\x02\0\0\0",
            21,
        )]),
    ),
    (Comes(9, &[FIRST, SECOND]), Wanted::Stale),
    (
        Comes(9, &[SECOND, FIRST]),
        Wanted::Answered(&[SECOND_INPUTS, FIRST_INPUTS]),
    ),
];

/// Two frames are answered in the reverse of the order in which they were sent. A frame whose datagrams were all sent again is
/// stale as a whole.
const EXCHANGED: &[Row] = &[
    (
        Send(&[0]),
        Wanted::Sent(&[(10, 0x0e, b"\x0c\x0a\0\0\0\x01\x02\0\0\0", 34)]),
    ),
    (
        Send(&[1]),
        Wanted::Sent(&[(11, 0x0d, b"\x0c\x0b\0\0\0\x02\x01\0\0\0\x02", 33)]),
    ),
    (Comes(11, &[SECOND]), Wanted::Answered(&[SECOND_INPUTS])),
    (Comes(10, &[FIRST]), Wanted::Answered(&[FIRST_INPUTS])),
    (
        Send(&[1]),
        Wanted::Sent(&[(12, 0x0d, b"\x0c\x0c\0\0\0\x02\x01\0\0\0\x02", 33)]),
    ),
    (
        Send(&[1, 0]),
        Wanted::Sent(&[(
            13,
            0x1b,
            b"\x0c\x0d\0\0\0\x02\x01\x80\0\0\x02\0\0\x0c\x0d\0\0\0\x01\x02\0\0\0",
            21,
        )]),
    ),
    (Comes(12, &[SECOND]), Wanted::Stale),
    (
        Comes(13, &[SECOND, FIRST]),
        Wanted::Answered(&[SECOND_INPUTS, FIRST_INPUTS]),
    ),
];

/// The stages of tasks that share frames, one after another.
pub const SHARED: &[Case] = &[(
    AXIS,
    &[
        Blocks(4),
        Rows(TO_TASK_1),
        Blocks(2),
        Rows(TOGETHER),
        Rows(SENT_AGAIN),
        Rows(TURNED),
        Rows(EXCHANGED),
    ],
)];

/// Two tasks share a frame, and each of its datagrams is answered by its own counter.
#[test]
fn tasks_share_a_frame(rt: HostRuntime) -> Result<(), Fail> {
    assert_eq!(rt; first_wrong_case(rt.alloc(), SHARED)?, None);
    Ok(())
}

/// A frame's size, and the two bytes of its EtherCAT header.
type Sized = (usize, u8, u8);

/// True if an answer has frames of these sizes and with these headers.
fn are_sized(answer: &Answer, sizes: &[Sized]) -> bool {
    let Answer::Sent(frames) = answer else {
        return false;
    };
    if frames.len() != sizes.len() {
        return false;
    }
    for (frame, sized) in frames.as_slice().iter().zip(sizes) {
        let bytes = frame.as_slice();
        if bytes.len() != sized.0
            || bytes.get(14) != Some(&sized.1)
            || bytes.get(15) != Some(&sized.2)
        {
            return false;
        }
    }
    true
}

/// Slaves with outputs, by task and number of bytes; the tasks that are sent; and their frames.
type Wide = (&'static [(u8, u16)], &'static [u8], &'static [Sized]);

/// Writes every block, and sends the tasks. True if their frames have these sizes and headers.
fn sends_in(
    driven: &mut Driven,
    alloc: Global,
    tasks: &[u8],
    sizes: &[Sized],
) -> Result<bool, AllocError> {
    write_all(driven, alloc)?;
    Ok(are_sized(&driven.put(alloc, Event::SendTasks(tasks))?, sizes))
}

/// True if a row's tasks are sent in its frames.
fn is_sent_in(alloc: Global, row: &Wide) -> Result<bool, Fail> {
    let mut driven = opened_wide(alloc, row.0)?;
    Ok(sends_in(&mut driven, alloc, row.1, row.2)?)
}

/// Two tasks of 737 bytes each, with 12 beside them, have the 1,498 bytes that a header can give, 0x5da, and the type
/// in the highest four bits. With a byte more each has a frame of its own, of 750 = 0x2ee and 749 = 0x2ed.
///
/// A datagram joins no other frame than the one just before it, though an older one has room: 712 bytes are 0x2c8,
/// 1,012 are 0x3f4, and 1,424 are 0x590. A task may have several datagrams, or none.
const WIDE: &[Wide] = &[
    (&[(0, 737), (1, 737)], &[0, 1], &[(1514, 0xda, 0x15)]),
    (
        &[(0, 738), (1, 737)],
        &[0, 1],
        &[(766, 0xee, 0x12), (765, 0xed, 0x12)],
    ),
    (
        &[(0, 700), (1, 1000), (2, 700)],
        &[0, 1, 2],
        &[(728, 0xc8, 0x12), (1028, 0xf4, 0x13), (728, 0xc8, 0x12)],
    ),
    (
        &[(0, 700), (1, 1000), (2, 700)],
        &[0, 2, 1],
        &[(1440, 0x90, 0x15), (1028, 0xf4, 0x13)],
    ),
    (
        &[(3, 1486), (3, 1)],
        &[3],
        &[(1514, 0xda, 0x15), (60, 0x0d, 0x10)],
    ),
    (&[(3, 1486)], &[0], &[]),
];

/// The number of the first row whose tasks are not sent in its frames. None if there is none.
fn first_unsent(alloc: Global) -> Result<Option<usize>, Fail> {
    let mut number = 0_usize;
    for row in WIDE {
        if !is_sent_in(alloc, row)? {
            return Ok(Some(number));
        }
        number = number.saturating_add(1);
    }
    Ok(None)
}

/// A datagram joins the frame of the one before it if both fit, and begins a frame otherwise.
#[test]
fn wide_tasks_share_frames_with_their_neighbours(rt: HostRuntime) -> Result<(), Fail> {
    assert_eq!(rt; first_unsent(rt.alloc())?, None);
    Ok(())
}
