//! Runs that edit the line.
use crate::printed::{ONE_IN_GROUP, ONE_SLAVE};
use crate::rows::{Run, first_wrong};
use std::test::Fail;

/// A slave with one input area of two PDOs of 4 bits.
const TWO_PDOS: &str = r#"[[slave]]
station = 1001
[[slave.area]]
sm = 3
dir = "in"
phys = 0x1000
task = 0
assigned = [0x1a00, 0x1a01]
pdo = [{ index = 0x1a00, entries = [[2, 4]] }, { index = 0x1a01, entries = [[3, 4]] }]
"#;

/// A slave with one output bit in task 1.
const ONE_BIT_IN_TASK_1: &str = r#"[[slave]]
station = 17
[[slave.area]]
sm = 0
dir = "out"
phys = 0x1000
task = 1
assigned = [1]
pdo = [{ index = 1, entries = [[0, 1]] }]
"#;

/// Connects and disconnects a group, the mandatory one and one that is not declared.
const COMES_AND_GOES: &str = "%%
connect 100
connect 100
disconnect 100
disconnect 100
disconnect 0
connect 0
connect 7
";

/// The output of connecting and disconnecting.
const COMES_AND_GOES_TEXT: &str = "epoch 1 recut 1 moved 4
refused 2 AlreadyPresent
epoch 2 recut 1 moved 0
refused 3 NotPresent
refused 4 Mandatory
refused 2 AlreadyPresent
refused 1 UnknownAlias
";

/// An area without PDOs has no bits.
const NO_BITS: &str = "%%\nremap 1001 1\nregs 1001\nlayout\n";

/// The output for the area without PDOs: its FMMU block is zeros.
const NO_BITS_TEXT: &str = "epoch 1 recut 1 moved 2
sm 2 at 0x0810: 00 11 01 00 64 00 01 00
fmmu 0 at 0x0600: 00 00 00 01 01 00 00 01 00 11 00 02 01 00 00 00
sm 3 at 0x0818: 80 11 00 00 20 00 00 00
fmmu 1 at 0x0610: 00 00 00 00 00 00 00 00 00 00 00 00 00 00 00 00
epoch 1
task 0 parts 1 0
datagram 0 address 0x01000000 length 1 expected 2
";

/// An area moves to another task.
const MOVED: &str = "%%\nmove 1001 0 1\nlayout\n";

/// The output of the move: the outputs are in task 1.
const MOVED_TEXT: &str = "epoch 1 recut 2 moved 2
epoch 1
task 0 parts 0 2
datagram 0 address 0x01000000 length 2 expected 1
task 1 parts 1 0
datagram 0 address 0x02000000 length 1 expected 2
";

/// A remap to the assigned PDOs begins an epoch, and changes nothing else.
const SAME: &str = "%%\nremap 1001 1 0x1a00\nremap 1001 1 0x1a00\nremap 1001 1 6656\n";

/// The output of the remaps: three epochs, and no span recut or block moved.
const SAME_TEXT: &str =
    "epoch 1 recut 0 moved 0\nepoch 2 recut 0 moved 0\nepoch 3 recut 0 moved 0\n";

/// PDOs are in the order of a remap.
const TURNED: &str = "%%\nplace 3\nremap 1001 0 0x1a01 0x1a00\nplace 3\nplace 2\n";

/// The output of the remap: the two variables change places.
const TURNED_TEXT: &str = "var 3 task 0 datagram 0 bit 4 bits 4 dir in
epoch 1 recut 0 moved 0
var 3 task 0 datagram 0 bit 0 bits 4 dir in
var 2 task 0 datagram 0 bit 4 bits 4 dir in
";

/// Refused edits, which change nothing.
const REFUSED: &str = "%%
remap 9 0
remap 1001 5
move 1001 0 8
remap 1001 1 1
remap 1001 1 0x1a00 0x1a00
layout
";

/// The output of the refused edits, and the layout as it was.
const REFUSED_TEXT: &str = "refused 5 UnknownStation
refused 7 NoSuchArea
refused 8 NoSuchTask
refused 9 UnknownPdo
refused 10 RepeatedPdo
epoch 0
task 0 parts 1 2
datagram 0 address 0x01000000 length 3 expected 3
";

/// An absent slave is not edited.
const ABSENT: &str = "%%\nremap 1001 0\nmove 1001 0 1\nlayout\n";

/// The output of the edits of an absent slave.
const ABSENT_TEXT: &str = "refused 6 Absent\nrefused 6 Absent\nepoch 0\n";

/// A group of a slave with areas that have nothing assigned.
const NOTHING_ASSIGNED: &str = r#"[[group]]
alias = 100
[[group.slave]]
station = 1001
[[group.slave.area]]
sm = 0
dir = 'out'
phys = 0x1000
task = 0
assigned = []
pdo = [{ index = 1, entries = [[0, 2]] }]
[[group.slave.area]]
sm = 1
dir = 'in'
phys = 0x1800
task = 0
assigned = []
pdo = [{ index = 2, entries = [[0, 12]] }]
"#;

/// The blocks of the slave with one bit in task 1.
const REGISTERS_IN_TASK_1: &str = "\
sm 0 at 0x0800: 00 10 01 00 64 00 01 00
fmmu 0 at 0x0600: 00 00 00 02 01 00 00 00 00 10 00 02 01 00 00 00
";

/// Runs with edits. A move that needs a seventeenth datagram is refused, and leaves the line as it was.
const RUNS: &[Run] = &[
    (&[ONE_IN_GROUP, COMES_AND_GOES], 0, &[COMES_AND_GOES_TEXT]),
    (&[ONE_SLAVE, NO_BITS], 0, &[NO_BITS_TEXT]),
    (&[ONE_SLAVE, MOVED], 0, &[MOVED_TEXT]),
    (&[ONE_SLAVE, SAME], 0, &[SAME_TEXT]),
    (&[TWO_PDOS, TURNED], 0, &[TURNED_TEXT]),
    (&[ONE_SLAVE, REFUSED], 0, &[REFUSED_TEXT]),
    (&[ONE_IN_GROUP, ABSENT], 0, &[ABSENT_TEXT]),
    (
        &[NOTHING_ASSIGNED, "%%\nconnect 100\nlayout\n"],
        0,
        &["epoch 1 recut 0 moved 4\nepoch 1\n"],
    ),
    (
        &[
            "<slaves 1 16 0 11888>",
            ONE_BIT_IN_TASK_1,
            "%%\nmove 17 0 0\nmove 17 0 2\n",
        ],
        0,
        &["refused 12 TooManyDatagrams 0\nepoch 1 recut 2 moved 1\n"],
    ),
    (
        &[
            "<slaves 1 16 2 11888>",
            ONE_BIT_IN_TASK_1,
            "%%\nmove 17 0 2\nregs 17\nmove 17 0 3\n",
        ],
        0,
        &[
            "refused 12 TooManyDatagrams 2\n",
            REGISTERS_IN_TASK_1,
            "epoch 1 recut 2 moved 1\n",
        ],
    ),
];

/// Runs that edit the line print the text that was worked out by hand. A seventeenth datagram is refused.
#[test]
fn edits_change_the_line(rt: HostRuntime) -> Result<(), Fail> {
    assert_eq!(rt; first_wrong(&rt, rt.alloc(), RUNS)?, None);
    Ok(())
}
