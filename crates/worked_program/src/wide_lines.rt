//! Runs that edit lines of wide slaves, so that areas go from one datagram to another.
use crate::rows::{Run, first_wrong};
use std::test::Fail;

/// Output areas of 100, 700 and 1,400 bytes of a group's slave.
const OUT_100: &str = r#"[[group.slave.area]]
sm = 0
dir = 'out'
phys = 0x1000
task = 0
assigned = [1, 2, 3]
pdo = [<pdos 800>]
"#;

const OUT_700: &str = r#"[[group.slave.area]]
sm = 0
dir = 'out'
phys = 0x1000
task = 0
assigned = [1, 2, 3]
pdo = [<pdos 5600>]
"#;

const OUT_1400: &str = r#"[[group.slave.area]]
sm = 0
dir = 'out'
phys = 0x1000
task = 0
assigned = [1, 2, 3]
pdo = [<pdos 11200>]
"#;

/// Input areas of 100 and 1,400 bytes.
const IN_100: &str = r#"[[group.slave.area]]
sm = 1
dir = 'in'
phys = 0x1800
task = 0
assigned = [1, 2, 3]
pdo = [<pdos 800>]
"#;

const IN_1400: &str = r#"[[group.slave.area]]
sm = 1
dir = 'in'
phys = 0x1800
task = 0
assigned = [1, 2, 3]
pdo = [<pdos 11200>]
"#;

/// Later slaves fall into lower datagrams.
const FALLEN: &str = "epoch 1 recut 1 moved 2
epoch 2 recut 5 moved 14
epoch 2
task 0 parts 6300 0
datagram 0 address 0x01000000 length 1400 expected 4
datagram 1 address 0x01000800 length 1400 expected 4
datagram 2 address 0x01001000 length 700 expected 2
datagram 3 address 0x01001800 length 1400 expected 2
datagram 4 address 0x01002000 length 1400 expected 4
epoch 3 recut 2 moved 7
epoch 3
task 0 parts 5600 0
datagram 0 address 0x01000000 length 1400 expected 4
datagram 1 address 0x01000800 length 1400 expected 4
datagram 2 address 0x01001000 length 1400 expected 2
datagram 3 address 0x01001800 length 1400 expected 4
sm 0 at 0x0800: 00 10 78 05 64 00 01 00
fmmu 0 at 0x0600: 00 10 00 01 78 05 00 07 00 10 00 02 01 00 00 00
";

/// A slave with two PDOs, of 300 and 400 bytes.
const TWO_PDOS: &str = r#"[[slave]]
station = 2
[[slave.area]]
sm = 0
dir = 'out'
phys = 0x1000
task = 0
assigned = [0x1600, 0x1601]
pdo = [{ index = 0x1600, entries = [<entries 2400>] }, { index = 0x1601, entries = [<entries 3200>] }]
"#;

/// A slave joins the datagram before.
const JOINED: &str = "epoch 0
task 0 parts 2400 0
datagram 0 address 0x01000000 length 1000 expected 2
datagram 1 address 0x01000800 length 1400 expected 4
epoch 1 recut 2 moved 3
epoch 1
task 0 parts 2000 0
datagram 0 address 0x01000000 length 1300 expected 4
datagram 1 address 0x01000800 length 700 expected 2
sm 0 at 0x0800: 00 10 2c 01 64 00 01 00
fmmu 0 at 0x0600: e8 03 00 01 2c 01 00 07 00 10 00 02 01 00 00 00
";

/// Inputs are after the common end of outputs.
const INPUTS_AFTER: &str = "epoch 1 recut 1 moved 4
epoch 2 recut 6 moved 9
epoch 2
task 0 parts 4300 1500
datagram 0 address 0x01000000 length 100 expected 2
datagram 1 address 0x01000800 length 1400 expected 2
datagram 2 address 0x01001000 length 1400 expected 2
datagram 3 address 0x01001800 length 1400 expected 2
datagram 4 address 0x01002000 length 100 expected 1
datagram 5 address 0x01002800 length 1400 expected 1
epoch 3 recut 2 moved 4
epoch 3
task 0 parts 4200 1400
datagram 0 address 0x01000000 length 1400 expected 2
datagram 1 address 0x01000800 length 1400 expected 2
datagram 2 address 0x01001000 length 1400 expected 2
datagram 3 address 0x01001800 length 1400 expected 1
";

/// The output of `layout` for sixteen slaves of 1,400 bytes.
const SIXTEEN_DATAGRAMS: &str = "epoch 0
task 0 parts 22400 0
datagram 0 address 0x01000000 length 1400 expected 2
datagram 1 address 0x01000800 length 1400 expected 2
datagram 2 address 0x01001000 length 1400 expected 2
datagram 3 address 0x01001800 length 1400 expected 2
datagram 4 address 0x01002000 length 1400 expected 2
datagram 5 address 0x01002800 length 1400 expected 2
datagram 6 address 0x01003000 length 1400 expected 2
datagram 7 address 0x01003800 length 1400 expected 2
datagram 8 address 0x01004000 length 1400 expected 2
datagram 9 address 0x01004800 length 1400 expected 2
datagram 10 address 0x01005000 length 1400 expected 2
datagram 11 address 0x01005800 length 1400 expected 2
datagram 12 address 0x01006000 length 1400 expected 2
datagram 13 address 0x01006800 length 1400 expected 2
datagram 14 address 0x01007000 length 1400 expected 2
datagram 15 address 0x01007800 length 1400 expected 2
";

/// A slave with three PDOs, which are a bit wider than a datagram together.
const TOO_WIDE: &str = r#"[[slave]]
station = 1
[[slave.area]]
sm = 0
dir = 'out'
phys = 0x1000
task = 0
assigned = [1]
pdo = [<pdos 11889>]
"#;

/// An area is not made wider than a datagram.
const NOT_WIDER: &str = "refused 11 AreaTooBig
epoch 1 recut 1 moved 2
epoch 1
task 0 parts 975 0
datagram 0 address 0x01000000 length 975 expected 2
";

const RUNS: &[Run] = &[
    (
        &[
            "[[group]]\nalias = 10\n[[group.slave]]\nstation = 1\n",
            OUT_700,
            "[[group]]\nalias = 20\n[[group.slave]]\nstation = 2\n",
            OUT_700,
            "[[group.slave]]\nstation = 3\n",
            OUT_700,
            "[[group.slave]]\nstation = 4\n",
            OUT_700,
            "[[group.slave]]\nstation = 5\n",
            OUT_700,
            "[[group.slave]]\nstation = 6\n",
            OUT_1400,
            "[[group.slave]]\nstation = 7\n",
            OUT_700,
            "[[group.slave]]\nstation = 8\n",
            OUT_700,
            "%%\nconnect 10\nconnect 20\nlayout\ndisconnect 10\nlayout\nregs 6\n",
        ],
        0,
        &[FALLEN],
    ),
    (
        &[
            "<slaves 1 1 0 8000>",
            TWO_PDOS,
            "<slaves 3 3 0 5600>",
            "%%\nlayout\nremap 2 0 0x1600\nlayout\nregs 2\n",
        ],
        0,
        &[JOINED],
    ),
    (
        &[
            "[[group]]\nalias = 10\n[[group.slave]]\nstation = 1\n",
            OUT_100,
            IN_100,
            "[[group]]\nalias = 20\n[[group.slave]]\nstation = 2\n",
            OUT_1400,
            IN_1400,
            "[[group.slave]]\nstation = 3\n",
            OUT_1400,
            "[[group.slave]]\nstation = 4\n",
            OUT_1400,
            "%%\nconnect 10\nconnect 20\nlayout\ndisconnect 10\nlayout\n",
        ],
        0,
        &[INPUTS_AFTER],
    ),
    (
        &[
            "<slaves 1 16 0 11200>",
            "[[group]]\nalias = 10\n[[group.slave]]\nstation = 17\n",
            OUT_1400,
            "%%\nconnect 10\nlayout\n",
        ],
        0,
        &["refused 12 TooManyDatagrams 0\n", SIXTEEN_DATAGRAMS],
    ),
    (
        &[TOO_WIDE, "%%\nremap 1 0 1 2 3\nremap 1 0 3 2\nlayout\n"],
        0,
        &[NOT_WIDER],
    ),
];

/// Edits of wide slaves move areas from one datagram to another, as worked out by hand.
#[test]
fn areas_go_from_datagram_to_datagram(rt: HostRuntime) -> Result<(), Fail> {
    assert_eq!(rt; first_wrong(&rt, rt.alloc(), RUNS)?, None);
    Ok(())
}
