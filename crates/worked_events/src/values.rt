//! The values of output variables as they are sent: the posted values, at the variables' present places.
use crate::asked::Asked::{Comes, Connect, Disconnect, Move, Post, Read, Remap, Send, Write};
use crate::asked::{Row, Wanted};
use crate::lines::AXIS;
use crate::stages::Stage::{Blocks, Prepared, Rows};
use crate::stages::{Case, first_wrong_case};
use hc_events::answer::Outcome::Inputs;
use hc_events::faults::CoreFault;
use hc_frames::Command::{Fpwr, Lrw};
use std::test::Fail;

/// The axis' outputs, posted as 2, move to task 1, whose first datagram has the logical address 0x0200_0000. Both tasks have
/// other widths, so the one span of each is recut. Both FMMUs' blocks have other bytes, since the inputs now begin their
/// datagram. The value goes with the variable. It is 0 once the variable had no place in between, though the blocks, which were
/// not written meanwhile, are known as they were.
const MOVED: &[Row] = &[
    (Post(0, 0, &[2]), Wanted::Posted),
    (Post(0, 0, &[2, 0]), Wanted::Refused(CoreFault::PostLength)),
    (Post(8, 0, &[2]), Wanted::Refused(CoreFault::NoSuchTask)),
    (
        Send(&[0]),
        Wanted::Sent(&[(4, 0x0f, b"\x0c\x04\0\0\0\x01\x03\0\0\0\x02", 33)]),
    ),
    (Move(1001, 0, 1), Wanted::Edited(1, 2, 2)),
    (Post(1, 0, &[2]), Wanted::Refused(CoreFault::StalePost)),
    (Post(1, 0, &[2, 0]), Wanted::Refused(CoreFault::StalePost)),
    (Send(&[1]), Wanted::Refused(CoreFault::Unprogrammed(2))),
    (
        Write,
        Wanted::WriteSent((
            5,
            0x1c,
            b"\x05\x05\xe9\x03\0\x06\x10\0\0\0\0\0\0\x02\x01\0\0\x01\0\x11\0\x02\x01\0\0\0",
            18,
        )),
    ),
    (
        Comes(5, &[(Fpwr, 0x0600_03e9, &[0; 16], 1)]),
        Wanted::WriteDone,
    ),
    (
        Write,
        Wanted::WriteSent((
            6,
            0x1c,
            b"\x05\x06\xe9\x03\x10\x06\x10\0\0\0\0\0\0\x01\x02\0\0\x03\x80\x11\0\x01\x01\0\0\0",
            18,
        )),
    ),
    (
        Comes(6, &[(Fpwr, 0x0610_03e9, &[0; 16], 1)]),
        Wanted::WriteDone,
    ),
    (
        Send(&[1]),
        Wanted::Sent(&[(7, 0x0d, b"\x0c\x07\0\0\0\x02\x01\0\0\0\x02", 33)]),
    ),
    (
        Comes(7, &[(Lrw, 0x0200_0000, b"\x03", 2)]),
        Wanted::Answered(&[Inputs {
            task: 1,
            datagram: 0,
        }]),
    ),
    (Read(1), Wanted::Image(1, &[Some(b"\x03")])),
    (Remap(1001, 0, &[]), Wanted::Edited(2, 1, 2)),
    (Remap(1001, 0, &[0x1600]), Wanted::Edited(3, 1, 2)),
    (
        Send(&[1]),
        Wanted::Sent(&[(8, 0x0d, b"\x0c\x08\0\0\0\x02\x01\0\0\0", 34)]),
    ),
];

/// The value is moved before it was ever sent. A post of the epoch before is refused.
const POSTED_AND_MOVED: &[Row] = &[
    (Post(0, 0, &[2]), Wanted::Posted),
    (Move(1001, 0, 1), Wanted::Edited(1, 2, 2)),
    (Post(1, 0, &[2]), Wanted::Refused(CoreFault::StalePost)),
    (Send(&[1]), Wanted::Refused(CoreFault::Unprogrammed(2))),
];

/// Task 1 sends the byte of outputs alone, and task 0 the two of inputs.
const SENT_APART: &[Row] = &[
    (
        Send(&[1]),
        Wanted::Sent(&[(6, 0x0d, b"\x0c\x06\0\0\0\x02\x01\0\0\0\x02", 33)]),
    ),
    (
        Send(&[0]),
        Wanted::Sent(&[(7, 0x0e, b"\x0c\x07\0\0\0\x01\x02\0\0\0", 34)]),
    ),
];

/// The axis in a group of its own.
const TOOL: &str = r#"
group = [
  { alias = 100, slave = [
    { station = 1001, area = [
      { sm = 2, dir = "out", phys = 0x1100, task = 0, assigned = [0x1600], pdo = [
        { index = 0x1600, entries = [[1, 2]] },
      ] },
      { sm = 3, dir = "in", phys = 0x1180, task = 0, assigned = [0x1a00], pdo = [
        { index = 0x1a00, entries = [[2, 12]] },
      ] },
    ] },
  ] },
]
"#;

/// Without the tool no task has a datagram, and nothing is owed. It comes with four blocks.
const COMES: &[Row] = &[
    (Send(&[0]), Wanted::Sent(&[])),
    (Read(0), Wanted::Image(0, &[])),
    (Write, Wanted::Refused(CoreFault::NothingOwed)),
    (Connect(7), Wanted::Refused(CoreFault::UnknownAlias)),
    (Connect(0), Wanted::Refused(CoreFault::AlreadyPresent)),
    (Disconnect(100), Wanted::Refused(CoreFault::NotPresent)),
    (Connect(100), Wanted::Edited(1, 1, 4)),
    (Connect(100), Wanted::Refused(CoreFault::AlreadyPresent)),
    (Disconnect(0), Wanted::Refused(CoreFault::Mandatory)),
];

/// The reports of prepared edits before the tool is connected.
const ASKED_BEFORE: &[Row] = &[
    (Connect(7), Wanted::Refused(CoreFault::UnknownAlias)),
    (Connect(100), Wanted::Edited(1, 1, 4)),
];

/// The tool's task is sent, and answered.
const ANSWERED: &[Row] = &[
    (Post(0, 1, &[2]), Wanted::Posted),
    (
        Send(&[0]),
        Wanted::Sent(&[(4, 0x0f, b"\x0c\x04\0\0\0\x01\x03\0\0\0\x02", 33)]),
    ),
    (
        Comes(4, &[(Lrw, 0x0100_0000, b"\x02\x34\x0a", 3)]),
        Wanted::Answered(&[Inputs {
            task: 0,
            datagram: 0,
        }]),
    ),
];

/// The reports of prepared edits of each kind. The outputs' two blocks and the place of the inputs move if the outputs lose
/// their PDO, and both FMMUs if the outputs get another task.
const ASKED_THEN: &[Row] = &[
    (Connect(100), Wanted::Refused(CoreFault::AlreadyPresent)),
    (
        Remap(1002, 0, &[]),
        Wanted::Refused(CoreFault::UnknownStation),
    ),
    (Remap(1001, 0, &[]), Wanted::Edited(2, 1, 3)),
    (Move(1001, 0, 1), Wanted::Edited(2, 2, 2)),
    (Disconnect(100), Wanted::Edited(2, 1, 0)),
];

/// No prepared edit was carried out, so the data that were read are still read. When the tool is disconnected, they are gone.
/// When it is connected again, its four blocks are owed again.
const COMES_AGAIN: &[Row] = &[
    (Read(0), Wanted::Image(1, &[Some(b"\x02\x34\x0a")])),
    (Disconnect(100), Wanted::Edited(2, 1, 0)),
    (Read(0), Wanted::Image(2, &[])),
    (Send(&[0]), Wanted::Sent(&[])),
    (Post(0, 2, &[2]), Wanted::Refused(CoreFault::PostLength)),
    (Post(0, 2, &[]), Wanted::Posted),
    (Connect(100), Wanted::Edited(3, 1, 4)),
    (Send(&[0]), Wanted::Refused(CoreFault::Unprogrammed(4))),
    (Read(0), Wanted::Image(3, &[None])),
];

/// The outputs are 0 again.
const ZERO_AGAIN: &[Row] = &[(
    Send(&[0]),
    Wanted::Sent(&[(9, 0x0f, b"\x0c\x09\0\0\0\x01\x03\0\0\0", 34)]),
)];

/// Two slaves with a byte of outputs each.
const TWO_BYTES: &str = r#"
slave = [
  { station = 1001, area = [
    { sm = 2, dir = "out", phys = 0x1100, task = 0, assigned = [0x1600], pdo = [
      { index = 0x1600, entries = [[1, 8]] },
    ] },
  ] },
  { station = 1002, area = [
    { sm = 2, dir = "out", phys = 0x1100, task = 0, assigned = [0x1600], pdo = [
      { index = 0x1600, entries = [[2, 8]] },
    ] },
  ] },
]
"#;

/// The first slave's byte is in task 1 for a while, and then in task 0 again: the post of task 0 in between says
/// nothing of it, the post of task 1 does. Each move touches both tasks, of one span each, and moves both FMMUs:
/// one to another task, the other by a byte.
const THERE_AND_BACK: &[Row] = &[
    (Post(0, 0, &[0x11, 0x22]), Wanted::Posted),
    (Move(1001, 0, 1), Wanted::Edited(1, 2, 2)),
    (Post(0, 1, &[0x33]), Wanted::Posted),
    (Move(1001, 0, 0), Wanted::Edited(2, 2, 2)),
    (
        Send(&[0]),
        Wanted::Sent(&[(4, 0x0e, b"\x0c\x04\0\0\0\x01\x02\0\0\0\x11\x33", 32)]),
    ),
    (Move(1001, 0, 1), Wanted::Edited(3, 2, 2)),
    (Post(1, 3, &[0x44]), Wanted::Posted),
    (Post(0, 3, &[0x55]), Wanted::Posted),
    (Move(1001, 0, 0), Wanted::Edited(4, 2, 2)),
    (
        Send(&[0]),
        Wanted::Sent(&[(5, 0x0e, b"\x0c\x05\0\0\0\x01\x02\0\0\0\x44\x55", 32)]),
    ),
];

/// A slave with two PDOs of 4 bits in its outputs.
const TWO_PDOS: &str = r#"
slave = [
  { station = 1001, area = [
    { sm = 2, dir = "out", phys = 0x1000, task = 0, assigned = [0x1600, 0x1601], pdo = [
      { index = 0x1600, entries = [[1, 4]] },
      { index = 0x1601, entries = [[3, 4]] },
    ] },
  ] },
]
"#;

/// The values 1 and 2 change their places with the PDOs, which changes no block. Without the first PDO the area is narrower, so
/// its span is recut and the last bit in the FMMU's block is another. The second value stays, and the first one is 0 when its
/// PDO is assigned again.
const EXCHANGED: &[Row] = &[
    (Post(0, 0, &[0x21]), Wanted::Posted),
    (
        Send(&[0]),
        Wanted::Sent(&[(2, 0x0d, b"\x0c\x02\0\0\0\x01\x01\0\0\0\x21", 33)]),
    ),
    (Remap(1001, 0, &[0x1601, 0x1600]), Wanted::Edited(1, 0, 0)),
    (
        Send(&[0]),
        Wanted::Sent(&[(3, 0x0d, b"\x0c\x03\0\0\0\x01\x01\0\0\0\x12", 33)]),
    ),
    (Remap(1001, 0, &[0x1601]), Wanted::Edited(2, 1, 1)),
    (
        Write,
        Wanted::WriteSent((
            4,
            0x1c,
            b"\x05\x04\xe9\x03\0\x06\x10\0\0\0\0\0\0\x01\x01\0\0\x03\0\x10\0\x02\x01\0\0\0",
            18,
        )),
    ),
    (
        Comes(4, &[(Fpwr, 0x0600_03e9, &[0; 16], 1)]),
        Wanted::WriteDone,
    ),
    (
        Send(&[0]),
        Wanted::Sent(&[(5, 0x0d, b"\x0c\x05\0\0\0\x01\x01\0\0\0\x02", 33)]),
    ),
    (Remap(1001, 0, &[0x1600, 0x1601]), Wanted::Edited(3, 1, 1)),
    (
        Write,
        Wanted::WriteSent((
            6,
            0x1c,
            b"\x05\x06\xe9\x03\0\x06\x10\0\0\0\0\0\0\x01\x01\0\0\x07\0\x10\0\x02\x01\0\0\0",
            18,
        )),
    ),
    (
        Comes(6, &[(Fpwr, 0x0600_03e9, &[0; 16], 1)]),
        Wanted::WriteDone,
    ),
    (
        Send(&[0]),
        Wanted::Sent(&[(7, 0x0d, b"\x0c\x07\0\0\0\x01\x01\0\0\0\x20", 33)]),
    ),
];

/// Outputs of 3 bits and 11 bits with a gap of 2 bits between them, and a byte of inputs.
const GAPS: &str = r#"
slave = [
  { station = 1001, area = [
    { sm = 2, dir = "out", phys = 0x1100, task = 0, assigned = [0x1600], pdo = [
      { index = 0x1600, entries = [[1, 3], [0, 2], [2, 11]] },
    ] },
    { sm = 3, dir = "in", phys = 0x1180, task = 0, assigned = [0x1a00], pdo = [
      { index = 0x1a00, entries = [[9, 8]] },
    ] },
  ] },
]
"#;

/// The gap is never sent as posted, and the bytes that come back for the inputs are not sent out again. The slave reads and
/// writes: a counter of 3.
const GAP: &[Row] = &[
    (
        Post(0, 0, &[0xff, 0xff, 0xff]),
        Wanted::Refused(CoreFault::PostLength),
    ),
    (Post(0, 0, &[0xff, 0xff]), Wanted::Posted),
    (
        Send(&[0]),
        Wanted::Sent(&[(4, 0x0f, b"\x0c\x04\0\0\0\x01\x03\0\0\0\xe7\xff", 32)]),
    ),
    (
        Comes(4, &[(Lrw, 0x0100_0000, b"\xff\xff\xa5", 3)]),
        Wanted::Answered(&[Inputs {
            task: 0,
            datagram: 0,
        }]),
    ),
    (
        Send(&[0]),
        Wanted::Sent(&[(5, 0x0f, b"\x0c\x05\0\0\0\x01\x03\0\0\0\xe7\xff", 32)]),
    ),
    (Read(0), Wanted::Image(0, &[Some(b"\xff\xff\xa5")])),
];

/// The lines of these rows, each from its opening on. Each time the tool is connected, its four blocks are written.
pub const LINES: &[Case] = &[
    (AXIS, &[Blocks(4), Rows(MOVED)]),
    (
        AXIS,
        &[
            Blocks(4),
            Rows(POSTED_AND_MOVED),
            Blocks(2),
            Rows(SENT_APART),
        ],
    ),
    (
        TOOL,
        &[
            Prepared(ASKED_BEFORE),
            Rows(COMES),
            Blocks(4),
            Rows(ANSWERED),
            Prepared(ASKED_THEN),
            Rows(COMES_AGAIN),
            Blocks(4),
            Rows(ZERO_AGAIN),
        ],
    ),
    (TWO_BYTES, &[Blocks(4), Rows(THERE_AND_BACK)]),
    (TWO_PDOS, &[Blocks(2), Rows(EXCHANGED)]),
    (GAPS, &[Blocks(4), Rows(GAP)]),
];

/// The value of an output variable is sent at the variable's present place. An event whose allocation failed has changed
/// nothing, and is put to the core again.
#[test]
fn values_are_sent_where_their_variables_are(rt: HostRuntime) -> Result<(), Fail> {
    assert_eq!(rt; first_wrong_case(rt.alloc(), LINES)?, None);
    Ok(())
}
