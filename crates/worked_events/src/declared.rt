//! A group is declared while an axis runs, and connected later.
use crate::asked::Asked::{Comes, Connect, Declare, Post, Read, Send, Write};
use crate::asked::{Row, Wanted};
use crate::lines::AXIS;
use crate::stages::Stage::{Blocks, Rows};
use crate::stages::{Case, first_wrong_case};
use hc_events::faults::CoreFault;
use hc_frames::Command::Lrw;
use std::test::Fail;

/// A tool with a byte of outputs.
const TOOL: &str = r#"
group = [
  { alias = 5, slave = [
    { station = 1002, area = [
      { sm = 2, dir = "out", phys = 0x1100, task = 0, assigned = [0x1600], pdo = [
        { index = 0x1600, entries = [[3, 8]] },
      ] },
    ] },
  ] },
]
"#;

/// Another group, with a slave at the axis' station address.
const TWIN: &str = r#"
group = [
  { alias = 6, slave = [
    { station = 1001, area = [] },
  ] },
]
"#;

/// The frame that is under way is answered too late, since another epoch has begun, in which nothing was read. The posted value
/// is sent on, and no block is owed: the axis is known as before. Then the tool is connected: its two blocks are owed, and the
/// FMMU block of the axis' input, which gives way by a byte.
const DECLARED: &[Row] = &[
    (Post(0, 0, &[2]), Wanted::Posted),
    (
        Send(&[0]),
        Wanted::Sent(&[(4, 0x0f, b"\x0c\x04\0\0\0\x01\x03\0\0\0\x02", 33)]),
    ),
    (Declare(TOOL), Wanted::Edited(1, 0, 0)),
    (
        Comes(4, &[(Lrw, 0x0100_0000, &[2, 0x34, 0x0a], 3)]),
        Wanted::Stale,
    ),
    (Read(0), Wanted::Image(1, &[None])),
    (Write, Wanted::Refused(CoreFault::NothingOwed)),
    (
        Send(&[0]),
        Wanted::Sent(&[(5, 0x0f, b"\x0c\x05\0\0\0\x01\x03\0\0\0\x02", 33)]),
    ),
    (Declare(TOOL), Wanted::Refused(CoreFault::AliasTaken)),
    (Declare(TWIN), Wanted::Refused(CoreFault::StationTaken)),
    (Connect(5), Wanted::Edited(2, 1, 3)),
    (Send(&[0]), Wanted::Refused(CoreFault::Unprogrammed(3))),
];

/// The axis, programmed.
const LINES: &[Case] = &[(AXIS, &[Blocks(4), Rows(DECLARED)])];

/// A group that is declared while an axis runs begins an epoch, and no block is owed. Blocks are owed once the group is
/// connected.
#[test]
fn a_declared_group_leaves_what_runs(rt: HostRuntime) -> Result<(), Fail> {
    assert_eq!(rt; first_wrong_case(rt.alloc(), LINES)?, None);
    Ok(())
}
