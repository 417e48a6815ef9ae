//! Slaves that lost their registers are forgotten.
use crate::answers::ARRIVAL;
use crate::asked::Asked::{Arrive, Comes, Connect, Disconnect, Forget, Post, Read, Send, Write};
use crate::asked::{Row, Wanted};
use crate::lines::AXIS;
use crate::stages::Stage::{Blocks, Rows};
use crate::stages::{Case, first_wrong_case};
use crate::writes::TOOL_CHANGER;
use hc_events::answer::Outcome::Inputs;
use hc_events::faults::CoreFault;
use hc_frames::Command::Fpwr;
use std::test::Fail;

/// The axis is forgotten while its frame is under way: the frame is answered as before and its data are read, but no
/// task is sent before the four blocks are written again. A write that is under way when it is forgotten once more
/// confirms nothing.
const WITH_A_FRAME: &[Row] = &[
    (Post(0, 0, &[2]), Wanted::Posted),
    (
        Send(&[0]),
        Wanted::Sent(&[(4, 0x0f, b"\x0c\x04\0\0\0\x01\x03\0\0\0\x02", 33)]),
    ),
    (Forget(1002), Wanted::Refused(CoreFault::UnknownStation)),
    (Forget(1001), Wanted::Forgotten),
    (
        Arrive(ARRIVAL),
        Wanted::Answered(&[Inputs {
            task: 0,
            datagram: 0,
        }]),
    ),
    (Read(0), Wanted::Image(0, &[Some(b"\x02\x34\x0a")])),
    (Send(&[0]), Wanted::Refused(CoreFault::Unprogrammed(4))),
    (
        Write,
        Wanted::WriteSent((
            5,
            0x14,
            b"\x05\x05\xe9\x03\x10\x08\x08\0\0\0\0\x11\x01\0\x64\0\x01\0",
            26,
        )),
    ),
    (Forget(1001), Wanted::Forgotten),
    (Comes(5, &[(Fpwr, 0x0810_03e9, &[0; 8], 1)]), Wanted::Stale),
    (Send(&[0]), Wanted::Refused(CoreFault::Unprogrammed(4))),
];

/// The blocks were written with the serials 6 to 9. The epoch is the one before, what was read is read, and the
/// outputs have the value that was posted before the axis was forgotten.
const GOES_ON: &[Row] = &[
    (Read(0), Wanted::Image(0, &[Some(b"\x02\x34\x0a")])),
    (
        Send(&[0]),
        Wanted::Sent(&[(10, 0x0f, b"\x0c\x0a\0\0\0\x01\x03\0\0\0\x02", 33)]),
    ),
    (Post(0, 0, &[3]), Wanted::Posted),
];

/// The tool is connected. Before that it is not in the line.
const TOOL_COMES: &[Row] = &[
    (Forget(1002), Wanted::Refused(CoreFault::Absent)),
    (Connect(5), Wanted::Edited(1, 1, 3)),
];

/// The tool goes and comes a second time, and its first block is sent.
const TOOL_IS_WRITTEN: &[Row] = &[
    (Disconnect(5), Wanted::Edited(2, 1, 1)),
    (Connect(5), Wanted::Edited(3, 1, 3)),
    (Send(&[0]), Wanted::Refused(CoreFault::Unprogrammed(2))),
    (
        Write,
        Wanted::WriteSent((
            7,
            0x14,
            b"\x05\x07\xea\x03\x10\x08\x08\0\0\0\0\x11\x01\0\x64\0\x01\0",
            26,
        )),
    ),
    (Forget(1001), Wanted::Forgotten),
    (Send(&[0]), Wanted::Refused(CoreFault::Unprogrammed(6))),
];

/// The write to the tool is confirmed although the axis was forgotten in between; the axis' first block is then the
/// first owed one.
const TOOL_IS_CONFIRMED: &[Row] = &[
    (
        Comes(7, &[(Fpwr, 0x0810_03ea, &[0; 8], 1)]),
        Wanted::WriteDone,
    ),
    (Send(&[0]), Wanted::Refused(CoreFault::Unprogrammed(5))),
    (Write, Wanted::WriteSent((8, 0x14, FIRST_OF_AXIS, 26))),
];

/// The axis' first block with the serial 8.
const FIRST_OF_AXIS: &[u8] = b"\x05\x08\xe9\x03\x10\x08\x08\0\0\0\0\x11\x01\0\x64\0\x01\0";

/// A write that is sent after the axis was forgotten takes the place of the tool's.
const TOOL_IS_LATE: &[Row] = &[
    (Write, Wanted::WriteSent((8, 0x14, FIRST_OF_AXIS, 26))),
    (Comes(7, &[(Fpwr, 0x0810_03ea, &[0; 8], 1)]), Wanted::Stale),
    (
        Comes(8, &[(Fpwr, 0x0810_03e9, &[0; 8], 1)]),
        Wanted::WriteDone,
    ),
    (Send(&[0]), Wanted::Refused(CoreFault::Unprogrammed(5))),
];

/// The lines of these rows, each from its opening on.
const LINES: &[Case] = &[
    (
        AXIS,
        &[Blocks(4), Rows(WITH_A_FRAME), Blocks(4), Rows(GOES_ON)],
    ),
    (
        TOOL_CHANGER,
        &[
            Blocks(4),
            Rows(TOOL_COMES),
            Blocks(3),
            Rows(TOOL_IS_WRITTEN),
            Rows(TOOL_IS_CONFIRMED),
        ],
    ),
    (
        TOOL_CHANGER,
        &[
            Blocks(4),
            Rows(TOOL_COMES),
            Blocks(3),
            Rows(TOOL_IS_WRITTEN),
            Rows(TOOL_IS_LATE),
        ],
    ),
];

/// A forgotten slave owes all its blocks again, and an earlier write to it confirms nothing.
#[test]
fn forgotten_slaves_are_written_again(rt: HostRuntime) -> Result<(), Fail> {
    assert_eq!(rt; first_wrong_case(rt.alloc(), LINES)?, None);
    Ok(())
}
