//! Projects that are read, compared field by field.
use super::listing;
use hc_project::read_project;
use hc_records::faults::ProjectFault;
use std::alloc::Global;
use std::test::Fail;

/// One slave with an output and an input area.
const SMALL: &str = r#"[[slave]]
station = 1001
[[slave.area]]
sm = 2
dir = "out"
phys = 0x1100
task = 0
assigned = [0x1600]
[[slave.area.pdo]]
index = 0x1600
entries = [[1, 2]]
[[slave.area]]
sm = 3
dir = "in"
phys = 0x1180
task = 0
assigned = [0x1a00]
[[slave.area.pdo]]
index = 0x1a00
entries = [[2, 12]]
"#;

/// One slave with an output and an input area, as inline arrays of inline tables. Its keys are in another order, with keys that
/// are ignored at every level, also a key of another level and one of another case.
const INLINE: &str = r#"
title = "a small line"
groups = 5
slave = [{ name = "axis", alias = 7, area = [
  { pdo = [{ entries = [[1, 2]], name = "out", index = 5632 }], assigned = [5632], task = 0,
    phys = 4352, dir = "out", sm = 2, Sm = "three", bits = [] },
  { sm = 3, dir = "in", phys = 0x11_80, task = 0b0, assigned = [0o15000],
    pdo = [{ index = 0x1A00, entries = [[+2, 12]], bits = 99 }] },
], station = 1_001 }]
group = []
[vendor]
slave = 5
"#;

const SMALL_LISTING: &str = "group 0
  slave 1001
    area sm 2 out phys 0x1100 task 0 assigned 0x1600
      pdo 0x1600 entries 1:2
    area sm 3 in phys 0x1180 task 0 assigned 0x1a00
      pdo 0x1a00 entries 2:12
";

/// A text with nothing in it, and texts with nothing that is known.
const EMPTY: [&str; 5] = [
    "",
    "\n# nothing\n",
    "slave = []\ngroup = []\n",
    "[line]\nslave = 1\n",
    "Slave = 1\n",
];

/// The text of `examples/tool_changer.toml`, repeated here so that the tests read no file.
const TOOL_CHANGER: &str = r#"# A machine with a tool changer and a docking place.
#
# Always there: a coupler, two axes and the machine's own inputs and outputs.
# Tools of the changer, one at a time or none: a gripper (alias 100), a screwdriver (alias 101), a touch probe (alias 102).
# At the docking place: a feeder module (alias 200).
#
# Task 0 is the motion task, task 1 carries what may be slower.
# `name` is no key of this format and is ignored, as every other key that it doesn't know.

allow = ["SharedTask"] # read by tools/lint: the tools share both tasks with the machine, to show what a change moves

[[slave]]
name = "coupler"
station = 1001

[[slave]]
name = "axis X"
station = 1002

[[slave.area]]
sm = 2
dir = "out"
phys = 0x1100
task = 0
assigned = [0x1600]
pdo = [
  { index = 0x1600, entries = [[1, 16], [2, 32]] }, # control word, target position
  { index = 0x1601, entries = [[3, 16], [4, 32]] }, # control word, target velocity
]

[[slave.area]]
sm = 3
dir = "in"
phys = 0x1180
task = 0
assigned = [0x1a00]
pdo = [
  { index = 0x1a00, entries = [[11, 16], [12, 32]] },           # status word, position
  { index = 0x1a01, entries = [[13, 16], [14, 32], [15, 16]] }, # status word, velocity, torque
]

[[slave]]
name = "axis Y"
station = 1003

[[slave.area]]
sm = 2
dir = "out"
phys = 0x1100
task = 0
assigned = [0x1601, 0x1600]
pdo = [
  { index = 0x1600, entries = [[21, 16], [22, 32]] },
  { index = 0x1601, entries = [[23, 8], [0, 8]] }, # mode of operation, 8 bits of nothing
]

[[slave.area]]
sm = 3
dir = "in"
phys = 0x1180
task = 0
assigned = [0x1a00]
pdo = [{ index = 0x1a00, entries = [[31, 16], [32, 32]] }]

[[slave]]
name = "inputs and outputs of the machine"
station = 1004

[[slave.area]]
sm = 0
dir = "out"
phys = 0x1000
task = 1
assigned = [0x1600, 0x1601, 0x1602, 0x1603]

[[slave.area.pdo]]
index = 0x1600
entries = [[41, 1]]

[[slave.area.pdo]]
index = 0x1601
entries = [[42, 1]]

[[slave.area.pdo]]
index = 0x1602
entries = [[43, 1]]

[[slave.area.pdo]]
index = 0x1603
entries = [[44, 1]]

[[slave.area]]
sm = 1
dir = "in"
phys = 0x1080
task = 1
assigned = [0x1a00]

[[slave.area.pdo]]
index = 0x1a00
entries = [[51, 1], [52, 1], [53, 1], [0, 5]]

[[group]]
name = "gripper"
alias = 100

[[group.slave]]
station = 2001

[[group.slave.area]]
sm = 2
dir = "out"
phys = 0x1100
task = 1
assigned = [0x1600]
pdo = [{ index = 0x1600, entries = [[101, 1], [102, 1], [0, 6]] }] # close, open

[[group.slave.area]]
sm = 3
dir = "in"
phys = 0x1180
task = 1
assigned = [0x1a00]
pdo = [{ index = 0x1a00, entries = [[111, 1], [112, 1], [0, 6], [113, 16]] }] # closed, open, pressure

[[group]]
name = "screwdriver"
alias = 101

[[group.slave]]
name = "spindle"
station = 2101

[[group.slave.area]]
sm = 2
dir = "out"
phys = 0x1100
task = 0
assigned = [0x1600]
pdo = [{ index = 0x1600, entries = [[201, 16], [202, 16]] }] # control word, target torque

[[group.slave.area]]
sm = 3
dir = "in"
phys = 0x1180
task = 0
assigned = [0x1a00]
pdo = [{ index = 0x1a00, entries = [[211, 16], [212, 32], [213, 16]] }] # status word, angle, torque

[[group.slave]]
name = "screw presence"
station = 2102

[[group.slave.area]]
sm = 3
dir = "in"
phys = 0x1180
task = 1
assigned = [0x1a01]
pdo = [
  { index = 0x1a00, entries = [[214, 16]] },         # distance, fine
  { index = 0x1a01, entries = [[215, 12], [0, 4]] }, # distance, coarse
]

[[group]]
name = "touch probe"
alias = 102

[[group.slave]]
station = 2201

[[group.slave.area]]
sm = 3
dir = "in"
phys = 0x1180
task = 0
assigned = [0x1a00]
pdo = [{ index = 0x1a00, entries = [[221, 1], [222, 1], [0, 6]] }] # touched, ready

[[group]]
name = "feeder module"
alias = 200

[[group.slave]]
name = "coupler of the module"
station = 3001

[[group.slave]]
name = "conveyor"
station = 3002

[[group.slave.area]]
sm = 2
dir = "out"
phys = 0x1800
task = 1
assigned = [0x1600]
pdo = [{ index = 0x1600, entries = [[301, 16], [302, 16]] }] # control word, target speed

[[group.slave.area]]
sm = 3
dir = "in"
phys = 0x1c00
task = 1
assigned = []
pdo = [{ index = 0x1a00, entries = [[311, 16], [312, 16]] }] # status word, speed: not read at first
"#;

const TOOL_CHANGER_LISTING: &str = "group 0
  slave 1001
  slave 1002
    area sm 2 out phys 0x1100 task 0 assigned 0x1600
      pdo 0x1600 entries 1:16 2:32
      pdo 0x1601 entries 3:16 4:32
    area sm 3 in phys 0x1180 task 0 assigned 0x1a00
      pdo 0x1a00 entries 11:16 12:32
      pdo 0x1a01 entries 13:16 14:32 15:16
  slave 1003
    area sm 2 out phys 0x1100 task 0 assigned 0x1601 0x1600
      pdo 0x1600 entries 21:16 22:32
      pdo 0x1601 entries 23:8 0:8
    area sm 3 in phys 0x1180 task 0 assigned 0x1a00
      pdo 0x1a00 entries 31:16 32:32
  slave 1004
    area sm 0 out phys 0x1000 task 1 assigned 0x1600 0x1601 0x1602 0x1603
      pdo 0x1600 entries 41:1
      pdo 0x1601 entries 42:1
      pdo 0x1602 entries 43:1
      pdo 0x1603 entries 44:1
    area sm 1 in phys 0x1080 task 1 assigned 0x1a00
      pdo 0x1a00 entries 51:1 52:1 53:1 0:5
group 100
  slave 2001
    area sm 2 out phys 0x1100 task 1 assigned 0x1600
      pdo 0x1600 entries 101:1 102:1 0:6
    area sm 3 in phys 0x1180 task 1 assigned 0x1a00
      pdo 0x1a00 entries 111:1 112:1 0:6 113:16
group 101
  slave 2101
    area sm 2 out phys 0x1100 task 0 assigned 0x1600
      pdo 0x1600 entries 201:16 202:16
    area sm 3 in phys 0x1180 task 0 assigned 0x1a00
      pdo 0x1a00 entries 211:16 212:32 213:16
  slave 2102
    area sm 3 in phys 0x1180 task 1 assigned 0x1a01
      pdo 0x1a00 entries 214:16
      pdo 0x1a01 entries 215:12 0:4
group 102
  slave 2201
    area sm 3 in phys 0x1180 task 0 assigned 0x1a00
      pdo 0x1a00 entries 221:1 222:1 0:6
group 200
  slave 3001
  slave 3002
    area sm 2 out phys 0x1800 task 1 assigned 0x1600
      pdo 0x1600 entries 301:16 302:16
    area sm 3 in phys 0x1c00 task 1 assigned
      pdo 0x1a00 entries 311:16 312:16
";

/// True if a text has this listing.
fn is_read(alloc: Global, text: &str, wanted: &str) -> Result<bool, ProjectFault> {
    Ok(listing(alloc, text)?.as_str() == wanted)
}

/// The first text with another listing than that of an empty project. None if there is none.
fn filled<'a>(alloc: Global, texts: &[&'a str]) -> Result<Option<&'a str>, ProjectFault> {
    for text in texts {
        if !is_read(alloc, *text, "group 0\n")? {
            return Ok(Some(*text));
        }
    }
    Ok(None)
}

/// Project texts are read with every field, whatever the order of keys and form of tables; unknown keys are ignored.
#[test]
fn texts_with_every_field(rt: HostRuntime) -> Result<(), Fail> {
    assert!(rt; is_read(rt.alloc(), SMALL, SMALL_LISTING)?);
    assert!(rt; is_read(rt.alloc(), INLINE, SMALL_LISTING)?);
    assert!(rt; is_read(rt.alloc(), TOOL_CHANGER, TOOL_CHANGER_LISTING)?);
    assert_eq!(rt; filled(rt.alloc(), &EMPTY)?, None);
    Ok(())
}

/// The text of a line is read, or fails with `Memory` and with no other fault. `ci/sweep.sh` makes each allocation of this test
/// fail in turn.
#[test]
fn project_or_memory(rt: HostRuntime) {
    match read_project(rt.alloc(), TOOL_CHANGER.as_bytes()) {
        Ok(project) => assert_eq!(rt; project.groups().len(), 5),
        Err(fault) => assert_eq!(rt; fault, ProjectFault::Memory),
    }
}
