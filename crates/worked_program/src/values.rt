//! Posted values, which are sent at the places of their variables and move with them.
use crate::printed::ONE_SLAVE;
use crate::rows::{Run, first_wrong};
use std::test::Fail;

/// A post for an earlier epoch is refused. An accepted value is kept when its variable moves to another task, and lost when the
/// variable loses its place.
const EPOCHS: &str = "%%
name
program
post 0 1=2
take
post 0 1=3
remap 1001 1 0x1a00
take
cycle 0
view 0 2
move 1001 0 1
view 0 2
show 1 0
post 1 1=1 1=3
take
show 1 0
remap 1001 0
remap 1001 0 0x1600
show 1 0
program
";

/// The output of posts over several epochs.
const EPOCHS_TEXT: &[&str] = &[
    "named 1
written 4 owed 0
posted
taken 1 refused 0
posted
epoch 1 recut 0 moved 0
taken 0 refused 1
inputs 0 0
epoch 1 var 2 value 0
epoch 2 recut 2 moved 2
refused 4 NotAnswered
",
    "frame 5: ffffffffffff02000000000588a40d100c05000000020100000002<zeros 33>\n",
    "posted\ntaken 1 refused 0\n",
    "frame 5: ffffffffffff02000000000588a40d100c05000000020100000003<zeros 33>\n",
    "epoch 3 recut 1 moved 2\nepoch 4 recut 1 moved 2\n",
    "frame 5: ffffffffffff02000000000588a40d100c05000000020100000000<zeros 33>\n",
    "written 2 owed 0\n",
];

/// A variable of 64 bits that begins at bit 5, after one of a bit and gaps; another one is the first of the task's second
/// datagram.
const WIDE: &str = r#"[[slave]]
station = 1
[[slave.area]]
sm = 0
dir = "out"
phys = 0x1000
task = 3
assigned = [9, 7]
pdo = [{ index = 7, entries = [[0, 3], [21, 64]] }, { index = 9, entries = [[23, 1], [0, 1]] }]
[[slave.area]]
sm = 1
dir = "out"
phys = 0x2000
task = 3
assigned = [8, 1, 2, 3]
pdo = [{ index = 8, entries = [[24, 8]] }, <pdos 11816>]
"#;

/// Posts of values of some of the variables, and of none.
const WIDE_VALUES: &str = "%%
post 3 21=18446744073709551615 23=1
take
show 3 0
post 3 21=0x8000000000000001 24=0xFF
take
show 3 0
show 3 1
post 3
take
show 3 0
show 3 1
";

/// The output of these posts, with the task's two datagrams.
const WIDE_TEXT: &[&str] = &[
    "posted\ntaken 1 refused 0\n",
    "frame 0: ffffffffffff02000000000088a415100c000000000409000000e1ffffffffffffff1f<zeros 25>\n",
    "posted\ntaken 1 refused 0\n",
    "frame 0: ffffffffffff02000000000088a415100c000000000409000000200000000000000010<zeros 25>\n",
    "frame 0: ffffffffffff02000000000088a4d2150c0000080004c6050000ff<zeros 1479>\n",
    "posted\ntaken 1 refused 0\n",
    "frame 0: ffffffffffff02000000000088a415100c000000000409000000<zeros 34>\n",
    "frame 0: ffffffffffff02000000000088a4d2150c0000080004c6050000<zeros 1480>\n",
];

const RUNS: &[Run] = &[
    (&[ONE_SLAVE, EPOCHS], 0, EPOCHS_TEXT),
    (&[WIDE, WIDE_VALUES], 0, WIDE_TEXT),
];

/// A posted value goes with its variable to another task, and is lost when the variable loses its place.
#[test]
fn values_go_with_their_variables(rt: HostRuntime) -> Result<(), Fail> {
    assert_eq!(rt; first_wrong(&rt, rt.alloc(), RUNS)?, None);
    Ok(())
}
