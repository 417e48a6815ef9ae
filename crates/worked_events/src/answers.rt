//! The answers to an axis' task, once its four blocks are written, with the serials 0 to 3.
use crate::asked::Asked::{Arrive, Comes, Post, Read, Remap, Send};
use crate::asked::{Back, Row, Wanted};
use crate::lines::AXIS;
use crate::stages::Stage::{Blocks, Rows, Sends};
use crate::stages::{Case, first_wrong_case};
use hc_events::answer::Outcome::{Inputs, WrongCount};
use hc_events::faults::CoreFault;
use hc_frames::Command::{Fpwr, Lrw};
use std::test::Fail;

/// The axis' datagram of 3 bytes: a byte of outputs, and two of inputs. The slave writes and reads it, which counts
/// 2 and 1.
const GOOD: Back = (Lrw, 0x0100_0000, b"\0\x34\x0a", 3);

/// An answer to the serial 4, as it comes without padding.
pub const ARRIVAL: &[u8] =
    b"\xff\xff\xff\xff\xff\xff\x02\0\0\0\0\x04\x88\xa4\x0f\x10\x0c\x04\0\0\0\x01\x03\0\0\0\x02\x34\x0a\x03\0";

/// With nothing posted the task is sent with data of zeros, so after the 10 bytes of the datagram's head there are
/// 34 zeros up to 60 bytes. The answer is good once; another counter, also a higher one, leaves what was read.
pub const UNPOSTED: &[Row] = &[
    (
        Send(&[0]),
        Wanted::Sent(&[(4, 0x0f, b"\x0c\x04\0\0\0\x01\x03\0\0\0", 34)]),
    ),
    (
        Comes(4, &[GOOD]),
        Wanted::Answered(&[Inputs {
            task: 0,
            datagram: 0,
        }]),
    ),
    (Comes(4, &[GOOD]), Wanted::Stale),
    (Read(0), Wanted::Image(0, &[Some(b"\0\x34\x0a")])),
    (
        Send(&[0]),
        Wanted::Sent(&[(5, 0x0f, b"\x0c\x05\0\0\0\x01\x03\0\0\0", 34)]),
    ),
    (
        Comes(5, &[(Lrw, 0x0100_0000, b"\0\x55\x55", 4)]),
        Wanted::Answered(&[WrongCount {
            expected: 3,
            got: 4,
        }]),
    ),
    (Read(0), Wanted::Image(0, &[Some(b"\0\x34\x0a")])),
    (Send(&[8]), Wanted::Refused(CoreFault::NoSuchTask)),
    (Send(&[0, 8]), Wanted::Refused(CoreFault::NoSuchTask)),
    (Read(8), Wanted::Refused(CoreFault::NoSuchTask)),
];

/// A post of one byte, as many as the task has outputs, is sent in the datagram's first byte, before two of inputs,
/// the counter and 29 zeros. What is read are the data of the good answer, and those still after one with the
/// counter 2; a good one for the same frame comes too late then.
pub const POSTED: &[Row] = &[
    (Post(0, 0, &[2, 0]), Wanted::Refused(CoreFault::PostLength)),
    (Post(0, 0, &[2]), Wanted::Posted),
    (
        Send(&[0]),
        Wanted::Sent(&[(4, 0x0f, b"\x0c\x04\0\0\0\x01\x03\0\0\0\x02", 33)]),
    ),
    (Read(0), Wanted::Image(0, &[None])),
    (
        Arrive(ARRIVAL),
        Wanted::Answered(&[Inputs {
            task: 0,
            datagram: 0,
        }]),
    ),
    (Arrive(ARRIVAL), Wanted::Stale),
    (Read(0), Wanted::Image(0, &[Some(b"\x02\x34\x0a")])),
    (
        Send(&[0]),
        Wanted::Sent(&[(5, 0x0f, b"\x0c\x05\0\0\0\x01\x03\0\0\0\x02", 33)]),
    ),
    (
        Comes(5, &[(Lrw, 0x0100_0000, b"\x02\x55\x55", 2)]),
        Wanted::Answered(&[WrongCount {
            expected: 3,
            got: 2,
        }]),
    ),
    (Read(0), Wanted::Image(0, &[Some(b"\x02\x34\x0a")])),
    (
        Comes(5, &[(Lrw, 0x0100_0000, b"\x02\x66\x66", 3)]),
        Wanted::Stale,
    ),
    (Read(0), Wanted::Image(0, &[Some(b"\x02\x34\x0a")])),
];

/// Remaps to what is assigned already change no width and no block, and begin an epoch all the same: a frame that is
/// under way answers nothing any more, and what was read is gone.
pub const THREE_EPOCHS: &[Row] = &[
    (Remap(1001, 1, &[0x1a00]), Wanted::Edited(1, 0, 0)),
    (Remap(1001, 1, &[0x1a00]), Wanted::Edited(2, 0, 0)),
    (Remap(1001, 1, &[0x1a00]), Wanted::Edited(3, 0, 0)),
    (
        Send(&[0]),
        Wanted::Sent(&[(4, 0x0f, b"\x0c\x04\0\0\0\x01\x03\0\0\0", 34)]),
    ),
    (Remap(1001, 1, &[0x1a00]), Wanted::Edited(4, 0, 0)),
    (Comes(4, &[GOOD]), Wanted::Stale),
    (Read(0), Wanted::Image(4, &[None])),
    (
        Send(&[0]),
        Wanted::Sent(&[(5, 0x0f, b"\x0c\x05\0\0\0\x01\x03\0\0\0", 34)]),
    ),
    (
        Comes(5, &[GOOD]),
        Wanted::Answered(&[Inputs {
            task: 0,
            datagram: 0,
        }]),
    ),
    (Read(0), Wanted::Image(4, &[Some(b"\0\x34\x0a")])),
    (Remap(1001, 1, &[0x1a00]), Wanted::Edited(5, 0, 0)),
    (Read(0), Wanted::Image(5, &[None])),
];

/// The bytes of an answer answer nothing before the sending, and answer it afterwards; the serial of alias reads and
/// station writes, 2^40 - 1, is no sending's. Another command or address of the same length answers nothing either,
/// and uses up nothing.
const FOREIGN: &[Row] = &[
    (Arrive(ARRIVAL), Wanted::Stale),
    (
        Send(&[0]),
        Wanted::Sent(&[(4, 0x0f, b"\x0c\x04\0\0\0\x01\x03\0\0\0", 34)]),
    ),
    (Comes(0xff_ffff_ffff, &[GOOD]), Wanted::Stale),
    (Comes(5, &[GOOD]), Wanted::Stale),
    (
        Comes(4, &[(Fpwr, 0x0100_0000, b"\0\x34\x0a", 3)]),
        Wanted::Stale,
    ),
    (
        Comes(4, &[(Lrw, 0x0100_0800, b"\0\x34\x0a", 3)]),
        Wanted::Stale,
    ),
    (
        Comes(4, &[(Lrw, 0x0100_0000, b"\0\x34\x0a\0", 3)]),
        Wanted::Stale,
    ),
    (Read(0), Wanted::Image(0, &[None])),
    (
        Arrive(ARRIVAL),
        Wanted::Answered(&[Inputs {
            task: 0,
            datagram: 0,
        }]),
    ),
    (Read(0), Wanted::Image(0, &[Some(b"\x02\x34\x0a")])),
];

/// The answer to the only datagram of task 0.
pub const ANSWERED: Wanted = Wanted::Answered(&[Inputs {
    task: 0,
    datagram: 0,
}]);

/// The index is the serial's low byte: with 257 frames the answer to the serial 4 has the index of the awaited
/// serial 260, and is stale, since the datagram was sent again since.
pub const INDEX_ALONE: &[Row] = &[
    (Comes(4, &[GOOD]), Wanted::Stale),
    (Comes(260, &[GOOD]), ANSWERED),
];

/// A thousand sendings without an answer have the serials 4 to 1003; the last one is answered, and none before it.
/// The next one has the serial 1004 = 0x3ec.
const LAST_OF_MANY: &[Row] = &[
    (Comes(1002, &[GOOD]), Wanted::Stale),
    (Comes(1003, &[GOOD]), ANSWERED),
    (Comes(1003, &[GOOD]), Wanted::Stale),
    (
        Send(&[0]),
        Wanted::Sent(&[(1004, 0x0f, b"\x0c\xec\0\0\0\x01\x03\0\0\0", 34)]),
    ),
];

/// The lines of these rows, each from the axis' opening on.
const ANSWERS: &[Case] = &[
    (AXIS, &[Blocks(4), Rows(UNPOSTED)]),
    (AXIS, &[Blocks(4), Rows(POSTED)]),
    (AXIS, &[Blocks(4), Rows(THREE_EPOCHS)]),
    (AXIS, &[Blocks(4), Rows(FOREIGN)]),
    (AXIS, &[Blocks(4), Sends(257), Rows(INDEX_ALONE)]),
    (AXIS, &[Blocks(4), Sends(1000), Rows(LAST_OF_MANY)]),
];

/// A good answer to a sending is read once. Stale answers, other counters and other frames change nothing that is read.
#[test]
fn an_answer_is_read_once(rt: HostRuntime) -> Result<(), Fail> {
    assert_eq!(rt; first_wrong_case(rt.alloc(), ANSWERS)?, None);
    Ok(())
}
