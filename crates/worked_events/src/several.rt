//! The register blocks of an axis are written in frames of several.
use crate::asked::Asked::{Comes, Connect, Forget, Send, Write, Writes};
use crate::asked::{Back, Row, Text, Wanted};
use crate::lines::AXIS;
use crate::stages::Stage::{Blocks, Rows};
use crate::stages::{Case, first_wrong_case};
use crate::writes::TOOL_CHANGER;
use hc_events::answer::Outcome::{Done, Missed, Stale};
use hc_events::faults::CoreFault;
use hc_frames::Command::Fpwr;
use std::test::Fail;

/// The axis' four blocks in one frame with the serial 0: the datagrams of the single writes, one after another, and in
/// the length of each but the last 0x80, since another follows. With 12 bytes beside the data they have 20, 28, 20 and 28
/// bytes. Zeros are the last counter alone.
pub const FOUR: Text = (
    0,
    0x60,
    b"\x05\0\xe9\x03\x10\x08\x08\x80\0\0\0\x11\x01\0\x64\0\x01\0\0\0\
      \x05\0\xe9\x03\0\x06\x10\x80\0\0\0\0\0\x01\x01\0\0\x01\0\x11\0\x02\x01\0\0\0\0\0\
      \x05\0\xe9\x03\x18\x08\x08\x80\0\0\x80\x11\x02\0\x20\0\x01\0\0\0\
      \x05\0\xe9\x03\x10\x06\x10\0\0\0\x01\0\0\x01\x02\0\0\x03\x80\x11\0\x01\x01\0\0\0",
    2,
);

/// The four blocks' datagrams as they come back, each with the counter 1.
const FOUR_BACK: &[Back] = &[
    (Fpwr, 0x0810_03e9, &[0; 8], 1),
    (Fpwr, 0x0600_03e9, &[0; 16], 1),
    (Fpwr, 0x0818_03e9, &[0; 8], 1),
    (Fpwr, 0x0610_03e9, &[0; 16], 1),
];

/// The four blocks are written in one frame, which is answered once. No task is sent before.
const IN_ONE_FRAME: &[Row] = &[
    (Writes, Wanted::WritesSent(FOUR)),
    (Send(&[0]), Wanted::Refused(CoreFault::Unprogrammed(4))),
    (
        Comes(0, FOUR_BACK),
        Wanted::Written(&[Done, Done, Done, Done]),
    ),
    (Comes(0, FOUR_BACK), Wanted::Stale),
    (Writes, Wanted::Refused(CoreFault::NothingOwed)),
    (
        Send(&[0]),
        Wanted::Sent(&[(1, 0x0f, b"\x0c\x01\0\0\0\x01\x03\0\0\0", 34)]),
    ),
];

/// The first block is written alone, and the three others in one frame with the serial 1.
const THREE_LEFT: &[Row] = &[
    (
        Write,
        Wanted::WriteSent((
            0,
            0x14,
            b"\x05\0\xe9\x03\x10\x08\x08\0\0\0\0\x11\x01\0\x64\0\x01\0",
            26,
        )),
    ),
    (
        Comes(0, &[(Fpwr, 0x0810_03e9, &[0; 8], 1)]),
        Wanted::WriteDone,
    ),
    (
        Writes,
        Wanted::WritesSent((
            1,
            0x4c,
            b"\x05\x01\xe9\x03\0\x06\x10\x80\0\0\0\0\0\x01\x01\0\0\x01\0\x11\0\x02\x01\0\0\0\0\0\
              \x05\x01\xe9\x03\x18\x08\x08\x80\0\0\x80\x11\x02\0\x20\0\x01\0\0\0\
              \x05\x01\xe9\x03\x10\x06\x10\0\0\0\x01\0\0\x01\x02\0\0\x03\x80\x11\0\x01\x01\0\0\0",
            2,
        )),
    ),
];

/// Frames with a datagram less, and with two of them in another order, answer nothing and use up nothing. Each block is
/// done by its own counter: the second's is 0, so it is owed still, and the frame that writes it is a single write's. Its
/// counter is 2 then, which is no confirmation either.
const ONE_MISSED: &[Row] = &[
    (
        Comes(
            1,
            &[
                (Fpwr, 0x0600_03e9, &[0; 16], 1),
                (Fpwr, 0x0818_03e9, &[0; 8], 1),
            ],
        ),
        Wanted::Stale,
    ),
    (
        Comes(
            1,
            &[
                (Fpwr, 0x0818_03e9, &[0; 8], 1),
                (Fpwr, 0x0600_03e9, &[0; 16], 1),
                (Fpwr, 0x0610_03e9, &[0; 16], 1),
            ],
        ),
        Wanted::Stale,
    ),
    (
        Comes(
            1,
            &[
                (Fpwr, 0x0600_03e9, &[0; 16], 1),
                (Fpwr, 0x0818_03e9, &[0; 8], 0),
                (Fpwr, 0x0610_03e9, &[0; 16], 1),
            ],
        ),
        Wanted::Written(&[Done, Missed, Done]),
    ),
    (
        Writes,
        Wanted::WriteSent((
            2,
            0x14,
            b"\x05\x02\xe9\x03\x18\x08\x08\0\0\0\x80\x11\x02\0\x20\0\x01\0",
            26,
        )),
    ),
    (
        Comes(2, &[(Fpwr, 0x0818_03e9, &[0; 8], 2)]),
        Wanted::WriteMissed,
    ),
    (Send(&[0]), Wanted::Refused(CoreFault::Unprogrammed(1))),
];

/// A single write after the frame takes the first block out of it, and leaves the others.
const ONE_BESIDE: &[Row] = &[
    (Writes, Wanted::WritesSent(FOUR)),
    (
        Write,
        Wanted::WriteSent((
            1,
            0x14,
            b"\x05\x01\xe9\x03\x10\x08\x08\0\0\0\0\x11\x01\0\x64\0\x01\0",
            26,
        )),
    ),
    (
        Comes(0, FOUR_BACK),
        Wanted::Written(&[Stale, Done, Done, Done]),
    ),
    (Send(&[0]), Wanted::Refused(CoreFault::Unprogrammed(1))),
    (
        Comes(1, &[(Fpwr, 0x0810_03e9, &[0; 8], 1)]),
        Wanted::WriteDone,
    ),
    (Writes, Wanted::Refused(CoreFault::NothingOwed)),
];

/// The axis is forgotten while its frame is under way, which confirms nothing then.
const FORGOTTEN: &[Row] = &[
    (Writes, Wanted::WritesSent(FOUR)),
    (Forget(1001), Wanted::Forgotten),
    (Comes(0, FOUR_BACK), Wanted::Stale),
    (Send(&[0]), Wanted::Refused(CoreFault::Unprogrammed(4))),
];

/// The tool comes, and its two blocks are owed after the block of the axis' input, which gave way by a byte. One
/// frame carries the blocks of both slaves, and each is confirmed by its own counter.
const TOOL_COMES: &[Row] = &[
    (Connect(5), Wanted::Edited(1, 1, 3)),
    (
        Writes,
        Wanted::WritesSent((
            4,
            0x4c,
            b"\x05\x04\xe9\x03\x10\x06\x10\x80\0\0\x02\0\0\x01\x01\0\0\x07\x80\x11\0\x01\x01\0\0\0\0\0\
              \x05\x04\xea\x03\x10\x08\x08\x80\0\0\0\x11\x01\0\x64\0\x01\0\0\0\
              \x05\x04\xea\x03\0\x06\x10\0\0\0\x01\0\0\x01\x01\0\0\x07\0\x11\0\x02\x01\0\0\0",
            2,
        )),
    ),
    (
        Comes(
            4,
            &[
                (Fpwr, 0x0610_03e9, &[0; 16], 1),
                (Fpwr, 0x0810_03ea, &[0; 8], 1),
                (Fpwr, 0x0600_03ea, &[0; 16], 0),
            ],
        ),
        Wanted::Written(&[Done, Done, Missed]),
    ),
    (Send(&[0]), Wanted::Refused(CoreFault::Unprogrammed(1))),
];

/// The lines of these rows, each from its opening on.
const LINES: &[Case] = &[
    (AXIS, &[Rows(IN_ONE_FRAME)]),
    (AXIS, &[Rows(THREE_LEFT), Rows(ONE_MISSED)]),
    (AXIS, &[Rows(ONE_BESIDE)]),
    (AXIS, &[Rows(FORGOTTEN)]),
    (TOOL_CHANGER, &[Blocks(4), Rows(TOOL_COMES)]),
];

/// One frame writes several owed blocks, and each block is confirmed by its own counter.
#[test]
fn one_frame_writes_several_blocks(rt: HostRuntime) -> Result<(), Fail> {
    assert_eq!(rt; first_wrong_case(rt.alloc(), LINES)?, None);
    Ok(())
}
