//! The register blocks of an axis are written.
use crate::asked::Asked::{Comes, Connect, Disconnect, Remap, Send, Write};
use crate::asked::{Row, Wanted};
use crate::lines::AXIS;
use crate::stages::Stage::{Blocks, Rows};
use crate::stages::{Case, first_wrong_case};
use hc_events::faults::CoreFault;
use hc_frames::Command::{Apwr, Fpwr, Lrw};
use std::test::Fail;

/// The four register blocks of the axis are written, the first owed one each time: for each area its sync
/// manager's block, then its FMMU's. A frame has 10 bytes before the 8 or 16 bytes of a block and 2 after: the
/// command 5, the serial as index, the station 1001 = 0x03e9, the block's register and its length. The block of a
/// sync manager: physical start address, 1 or 2 bytes, control 0x64 for outputs and 0x20 for inputs, status,
/// activate. An FMMU's: logical start address, bytes, first and last bit, physical start address and bit, 1 for
/// reading or 2 for writing, activate. The inputs, 12 bits, are after the one byte of outputs. Zeros fill 60
/// bytes: after 16 and 10 bytes and the block's 8 there are 26, and 18 after 16. No task is sent before the
/// fourth answer, and then nothing is owed.
const WRITES: &[Row] = &[
    (Send(&[0]), Wanted::Refused(CoreFault::Unprogrammed(4))),
    (
        Write,
        Wanted::WriteSent((
            0,
            0x14,
            b"\x05\0\xe9\x03\x10\x08\x08\0\0\0\0\x11\x01\0\x64\0\x01\0",
            26,
        )),
    ),
    (
        Comes(0, &[(Fpwr, 0x0810_03e9, &[0; 8], 1)]),
        Wanted::WriteDone,
    ),
    (
        Write,
        Wanted::WriteSent((
            1,
            0x1c,
            b"\x05\x01\xe9\x03\0\x06\x10\0\0\0\0\0\0\x01\x01\0\0\x01\0\x11\0\x02\x01\0\0\0",
            18,
        )),
    ),
    (
        Comes(1, &[(Fpwr, 0x0600_03e9, &[0; 16], 1)]),
        Wanted::WriteDone,
    ),
    (
        Write,
        Wanted::WriteSent((
            2,
            0x14,
            b"\x05\x02\xe9\x03\x18\x08\x08\0\0\0\x80\x11\x02\0\x20\0\x01\0",
            26,
        )),
    ),
    (
        Comes(2, &[(Fpwr, 0x0818_03e9, &[0; 8], 1)]),
        Wanted::WriteDone,
    ),
    (Write, Wanted::WriteSent((3, 0x1c, LAST_BLOCK, 18))),
    (Send(&[0]), Wanted::Refused(CoreFault::Unprogrammed(1))),
];

/// The last write is answered, and the task is sent with the next serial, 4.
const LAST_ANSWER: &[Row] = &[
    (
        Comes(3, &[(Fpwr, 0x0610_03e9, &[0; 16], 1)]),
        Wanted::WriteDone,
    ),
    (Write, Wanted::Refused(CoreFault::NothingOwed)),
    (
        Send(&[0]),
        Wanted::Sent(&[(4, 0x0f, b"\x0c\x04\0\0\0\x01\x03\0\0\0", 34)]),
    ),
];

/// The datagram that writes the axis' last block, with the serial 3.
const LAST_BLOCK: &[u8] =
    b"\x05\x03\xe9\x03\x10\x06\x10\0\0\0\x01\0\0\x01\x02\0\0\x03\x80\x11\0\x01\x01\0\0\0";

/// The last write is answered with the counter 0, so its block stays owed and is sent again with the serial 4,
/// and once more with 5. An answer to an older write of it, with whatever counter, is stale.
const MISSED: &[Row] = &[
    (
        Comes(3, &[(Fpwr, 0x0610_03e9, &[0; 16], 0)]),
        Wanted::WriteMissed,
    ),
    (Write, Wanted::WriteSent((4, 0x1c, AGAIN, 18))),
    (Write, Wanted::WriteSent((5, 0x1c, ONCE_MORE, 18))),
    (Comes(4, &[(Fpwr, 0x0610_03e9, &[0; 16], 1)]), Wanted::Stale),
    (Send(&[0]), Wanted::Refused(CoreFault::Unprogrammed(1))),
];

/// The datagram of the block with the serial 4, and with 5.
const AGAIN: &[u8] =
    b"\x05\x04\xe9\x03\x10\x06\x10\0\0\0\x01\0\0\x01\x02\0\0\x03\x80\x11\0\x01\x01\0\0\0";

const ONCE_MORE: &[u8] =
    b"\x05\x05\xe9\x03\x10\x06\x10\0\0\0\x01\0\0\x01\x02\0\0\x03\x80\x11\0\x01\x01\0\0\0";

/// The newest write's answer confirms it, once.
const CONFIRMED: &[Row] = &[
    (
        Comes(5, &[(Fpwr, 0x0610_03e9, &[0; 16], 1)]),
        Wanted::WriteDone,
    ),
    (Comes(5, &[(Fpwr, 0x0610_03e9, &[0; 16], 1)]), Wanted::Stale),
    (Write, Wanted::Refused(CoreFault::NothingOwed)),
];

/// A frame with the write's serial and another command, station, register or length answers nothing and uses up
/// nothing. An answer with the counter 2 is no confirmation, and uses the answer up.
const FOREIGN: &[Row] = &[
    (Comes(3, &[(Apwr, 0x0610_03e9, &[0; 16], 1)]), Wanted::Stale),
    (Comes(3, &[(Lrw, 0x0610_03e9, &[0; 16], 1)]), Wanted::Stale),
    (Comes(3, &[(Fpwr, 0x0610_03ea, &[0; 16], 1)]), Wanted::Stale),
    (Comes(3, &[(Fpwr, 0x0600_03e9, &[0; 16], 1)]), Wanted::Stale),
    (Comes(3, &[(Fpwr, 0x0610_03e9, &[0; 8], 1)]), Wanted::Stale),
    (
        Comes(3, &[(Fpwr, 0x0610_03e9, &[0; 16], 2)]),
        Wanted::WriteMissed,
    ),
    (Comes(3, &[(Fpwr, 0x0610_03e9, &[0; 16], 1)]), Wanted::Stale),
    (Send(&[0]), Wanted::Refused(CoreFault::Unprogrammed(1))),
];

/// Once a write is sent nothing is known of its block, even if an older write of it was confirmed with the bytes that the line
/// has again. Without inputs the sync manager's block has length 0 and is not activated, and it is written so. With inputs
/// again the FMMU's block is known as before, and the sync manager's is not. The answer comes too late, since an edit was
/// accepted in between. Each remap changes the width of one area, so its task's one span is recut, and both blocks of the area
/// have other bytes.
const UNDER_WAY: &[Row] = &[
    (Remap(1001, 1, &[]), Wanted::Edited(1, 1, 2)),
    (
        Write,
        Wanted::WriteSent((
            4,
            0x14,
            b"\x05\x04\xe9\x03\x18\x08\x08\0\0\0\x80\x11\0\0\x20\0\0\0",
            26,
        )),
    ),
    (Remap(1001, 1, &[0x1a00]), Wanted::Edited(2, 1, 2)),
    (Comes(4, &[(Fpwr, 0x0818_03e9, &[0; 8], 1)]), Wanted::Stale),
    (
        Write,
        Wanted::WriteSent((
            5,
            0x14,
            b"\x05\x05\xe9\x03\x18\x08\x08\0\0\0\x80\x11\x02\0\x20\0\x01\0",
            26,
        )),
    ),
    (Send(&[0]), Wanted::Refused(CoreFault::Unprogrammed(1))),
    (
        Comes(5, &[(Fpwr, 0x0818_03e9, &[0; 8], 1)]),
        Wanted::WriteDone,
    ),
    (Write, Wanted::Refused(CoreFault::NothingOwed)),
];

/// An axis with a byte of outputs and a byte of inputs, and its tool with a byte of outputs.
pub const TOOL_CHANGER: &str = r#"
slave = [
  { station = 1001, area = [
    { sm = 2, dir = "out", phys = 0x1100, task = 0, assigned = [0x1600], pdo = [
      { index = 0x1600, entries = [[0, 8]] },
    ] },
    { sm = 3, dir = "in", phys = 0x1180, task = 0, assigned = [0x1a00], pdo = [
      { index = 0x1a00, entries = [[0, 8]] },
    ] },
  ] },
]
group = [
  { alias = 5, slave = [
    { station = 1002, area = [
      { sm = 2, dir = "out", phys = 0x1100, task = 0, assigned = [0x1600], pdo = [
        { index = 0x1600, entries = [[0, 8]] },
      ] },
    ] },
  ] },
]
"#;

/// The tool comes: its two blocks are owed, and the FMMU block of the axis' input, which gives way by a byte.
const TOOL_COMES: &[Row] = &[
    (Connect(5), Wanted::Edited(1, 1, 3)),
    (Send(&[0]), Wanted::Refused(CoreFault::Unprogrammed(3))),
];

/// The axis' output area is emptied: its own two blocks change, and the FMMU blocks of all that is after it. Its PDO
/// comes back while the write of its first block is under way: every other block is known to have what it now needs.
/// The tool goes, and the input moves up by a byte; it comes again, and the input is where it was, but nothing is
/// known of the tool.
const EMPTIED: &[Row] = &[
    (Remap(1001, 0, &[]), Wanted::Edited(2, 1, 4)),
    (Send(&[0]), Wanted::Refused(CoreFault::Unprogrammed(4))),
    (
        Write,
        Wanted::WriteSent((
            7,
            0x14,
            b"\x05\x07\xe9\x03\x10\x08\x08\0\0\0\0\x11\0\0\x64\0\0\0",
            26,
        )),
    ),
    (Remap(1001, 0, &[0x1600]), Wanted::Edited(3, 1, 4)),
    (Send(&[0]), Wanted::Refused(CoreFault::Unprogrammed(1))),
    (Disconnect(5), Wanted::Edited(4, 1, 1)),
    (Send(&[0]), Wanted::Refused(CoreFault::Unprogrammed(2))),
    (Connect(5), Wanted::Edited(5, 1, 3)),
    (Send(&[0]), Wanted::Refused(CoreFault::Unprogrammed(3))),
];

/// The lines of these rows, each from its opening on.
const LINES: &[Case] = &[
    (AXIS, &[Rows(WRITES), Rows(LAST_ANSWER)]),
    (AXIS, &[Rows(WRITES), Rows(MISSED), Rows(CONFIRMED)]),
    (AXIS, &[Rows(WRITES), Rows(FOREIGN)]),
    (AXIS, &[Blocks(4), Rows(UNDER_WAY)]),
    (
        TOOL_CHANGER,
        &[Blocks(4), Rows(TOOL_COMES), Blocks(3), Rows(EMPTIED)],
    ),
];

/// A block is owed until its newest write is answered with counter 1, and owed again once an edit changes it.
#[test]
fn blocks_are_owed_until_they_are_confirmed(rt: HostRuntime) -> Result<(), Fail> {
    assert_eq!(rt; first_wrong_case(rt.alloc(), LINES)?, None);
    Ok(())
}
