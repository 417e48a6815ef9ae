//! Runs with the commands that print.
use crate::printed::{FIRST_COMMANDS, FIRST_TEXT, ONE_SLAVE};
use crate::rows::{Run, first_wrong};
use std::test::Fail;

/// Two slaves whose areas of 3 bits share bytes.
const SHARED_BYTES: &str = r#"[[slave]]
station = 1
[[slave.area]]
sm = 0
dir = "out"
phys = 0x1000
task = 0
assigned = [1]
pdo = [{ index = 1, entries = [[0, 3]] }]
[[slave.area]]
sm = 1
dir = "out"
phys = 0x1010
task = 0
assigned = [1]
pdo = [{ index = 1, entries = [[0, 3]] }]
"#;

/// An input area of 1 bit for the first of the two slaves.
const ONE_BIT: &str = r#"[[slave.area]]
sm = 2
dir = "in"
phys = 0x1020
task = 0
assigned = [1]
pdo = [{ index = 1, entries = [[0, 1]] }]
"#;

/// The second of the two slaves.
const SECOND_SLAVE: &str = r#"[[slave]]
station = 2
[[slave.area]]
sm = 0
dir = "out"
phys = 0x1000
task = 0
assigned = [1]
pdo = [{ index = 1, entries = [[0, 3]] }]
"#;

/// The output of `layout` and `regs` for these two slaves.
const SHARED_TEXT: &str = "epoch 0
task 0 parts 2 0
datagram 0 address 0x01000000 length 2 expected 4
sm 0 at 0x0800: 00 10 01 00 64 00 01 00
fmmu 0 at 0x0600: 00 00 00 01 01 00 00 02 00 10 00 02 01 00 00 00
sm 1 at 0x0808: 10 10 01 00 64 00 01 00
fmmu 1 at 0x0610: 00 00 00 01 01 00 03 05 10 10 00 02 01 00 00 00
sm 0 at 0x0800: 00 10 01 00 64 00 01 00
fmmu 0 at 0x0600: 00 00 00 01 02 00 06 00 00 10 00 02 01 00 00 00
";

/// A mandatory slave without areas, and a group that is absent.
const ABSENT_GROUP: &str =
    "slave = [{ station = 5 }]\ngroup = [{ alias = 100, slave = [{ station = 6 }] }]\n";

/// Three PDOs: two are assigned, the later one first, and one is in a group that is absent.
const SOME_ASSIGNED: &str = r#"[[slave]]
station = 1
[[slave.area]]
sm = 0
dir = "out"
phys = 0x1000
task = 3
assigned = [9, 7]
[[slave.area.pdo]]
index = 7
entries = [[0, 3], [21, 64]]
[[slave.area.pdo]]
index = 8
entries = [[22, 8]]
[[slave.area.pdo]]
index = 9
entries = [[23, 1], [0, 1]]
[[group]]
alias = 100
[[group.slave]]
station = 2
[[group.slave.area]]
sm = 0
dir = "in"
phys = 0x1000
task = 3
assigned = [7]
pdo = [{ index = 7, entries = [[24, 1]] }]
"#;

/// Refused commands; the run goes on after them.
const REFUSED: &str =
    "%%\nregs 5\nregs 6\nregs 7\nregs 0\nshow 8 0\nshow 255 255\nshow 7 15\nshow 0 16\nlayout\n";

/// The output of the refused commands, and of `layout` after them.
const REFUSED_TEXT: &str = "refused 6 Absent
refused 5 UnknownStation
refused 5 UnknownStation
refused 8 NoSuchTask
refused 8 NoSuchTask
none
none
epoch 0
";

/// The places of two variables, and of three numbers without one.
const PLACES: &str = "var 1 task 0 datagram 0 bit 0 bits 2 dir out
var 2 task 0 datagram 0 bit 8 bits 12 dir in
none
none
none
";

/// Variables after earlier bits, and some that are not assigned or present.
const LATER_PLACES: &str = "var 21 task 3 datagram 0 bit 5 bits 64 dir out
none
var 23 task 3 datagram 0 bit 0 bits 1 dir out
none
";

/// The layout of outputs of 1,485 bytes, one byte and one bit.
const ONE_BIT_MORE: &str = "epoch 0
task 0 parts 1487 0
datagram 0 address 0x01000000 length 1486 expected 4
datagram 1 address 0x01000800 length 1 expected 2
";

const RUNS: &[Run] = &[
    (&[ONE_SLAVE, FIRST_COMMANDS], 0, &[FIRST_TEXT]),
    (
        &[SHARED_BYTES, SECOND_SLAVE, "%%\nlayout\nregs 1\nregs 2\n"],
        0,
        &[SHARED_TEXT],
    ),
    (
        &[SHARED_BYTES, ONE_BIT, SECOND_SLAVE, "%%\nlayout\n"],
        0,
        &["epoch 0\ntask 0 parts 2 1\ndatagram 0 address 0x01000000 length 3 expected 5\n"],
    ),
    (&["%%\nlayout\n"], 0, &["epoch 0\n"]),
    (
        &[
            "<slaves 1 1 0 11880><slaves 2 2 0 8><slaves 3 3 0 1>",
            "%%\nlayout\nshow 0 0\nshow 0 1\n",
        ],
        0,
        &[
            ONE_BIT_MORE,
            "frame 0: ffffffffffff02000000000088a4da150c0000000001ce05<zeros 1490>\n",
            "frame 0: ffffffffffff02000000000088a40d100c00000800010100<zeros 36>\n",
        ],
    ),
    (&[ABSENT_GROUP, REFUSED], 0, &[REFUSED_TEXT]),
    (
        &[
            ONE_SLAVE,
            "%%\nplace 1\nplace 0x2\nplace 3\nplace 0\nplace 4294967295\n",
        ],
        0,
        &[PLACES],
    ),
    (
        &[
            SOME_ASSIGNED,
            "%%\nplace 21\nplace 22\nplace 23\nplace 24\n",
        ],
        0,
        &[LATER_PLACES],
    ),
];

/// Runs of each printing command print the text that was worked out by hand, and go on after refused commands.
#[test]
fn commands_print_what_they_ask_for(rt: HostRuntime) -> Result<(), Fail> {
    assert_eq!(rt; first_wrong(&rt, rt.alloc(), RUNS)?, None);
    Ok(())
}
