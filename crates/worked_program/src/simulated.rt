//! Runs along the simulated line.
use crate::printed::{ONE_IN_GROUP, ONE_SLAVE};
use crate::rows::{Run, first_wrong};
use std::test::Fail;

/// A group that is connected again has fresh machines.
const COMES_AGAIN: &str = "%%
connect 100
name
program
disconnect 100
connect 100
cycle 0
program
name
program
cycle 0
scan
";

/// The output for the group that is connected again.
const COMES_AGAIN_TEXT: &str = "epoch 1 recut 1 moved 4
named 1
written 4 owed 0
epoch 2 recut 1 moved 0
epoch 3 recut 1 moved 4
refused 17 Unprogrammed 4
written 0 owed 4
named 1
written 4 owed 0
inputs 0 0
slot 0 alias 100
";

/// Inputs are brought from a machine's memory. An FMMU that is not active carries nothing.
const MEMORIES: &str = "%%
name
program
poke 1001 0x1180 340a
cycle 0
read 0
peek 1001 0x1100 1
peek 1001 0x1180 2
poke 1001 0x060c 00
cycle 0
poke 1001 0x061c 00
cycle 0
read 0
cycle 1
cycle 8
";

/// The output of the exchanges, with the working counters after each FMMU was switched off.
const MEMORIES_TEXT: &str = "named 1
written 4 owed 0
poked
inputs 0 0
epoch 0
slot 0 00340a
mem 0x1100: 00
mem 0x1180: 34 0a
poked
wrong count 3 1
poked
wrong count 3 0
epoch 0
slot 0 00340a
no frame
refused 8 NoSuchTask
";

/// Station addresses and aliases that are written over. No write is confirmed while the first slave has another station
/// address, also if it is the second one's.
const OVERWRITTEN: &str = "%%
scan
name
poke 1 0x0010 0700
program
poke 1 0x0010 0200
program
poke 1 0x0010 0100
program
cycle 0
poke 2 0x0012 0301
scan
program
";

/// The output: all four blocks are written once the first slave has its address again.
const OVERWRITTEN_TEXT: &str = "slot 0 alias 0
slot 1 alias 0
named 2
poked
written 0 owed 4
poked
written 0 owed 4
poked
written 4 owed 0
inputs 0 0
poked
slot 0 alias 0
slot 1 alias 259
written 0 owed 0
";

/// Two slaves with an output of a byte each.
const TWO_SLAVES: &str = "<slaves 1 2 0 8>";

/// Two groups, of one slave and of three.
const TWO_GROUPS: &str = "slave = [{ station = 5 }]
group = [{ alias = 10, slave = [{ station = 11 }] }, { alias = 20, slave = [{ station = 21 }, { station = 22 }, { station = 23 }] }]
";

/// The other slaves keep their memory over an edit, wherever in the line a group is connected or disconnected.
const UNCHANGED: &str = "%%
peek 21 0x1000 1
peek 24 0x1000 1
connect 20
poke 5 0x1000 01
poke 22 0x1000 ab
scan
connect 10
scan
peek 22 0x1000 1
peek 11 0x1000 2
poke 11 0x1000 cd
disconnect 20
scan
peek 11 0x1000 1
connect 20
peek 22 0x1000 1
peek 5 0x1000 1
disconnect 10
scan
name
";

/// The output of the edits, with the memories of the slaves.
const UNCHANGED_TEXT: &str = "refused 6 Absent
refused 5 UnknownStation
epoch 1 recut 0 moved 0
poked
poked
slot 0 alias 0
slot 1 alias 20
slot 2 alias 0
slot 3 alias 0
epoch 2 recut 0 moved 0
slot 0 alias 0
slot 1 alias 10
slot 2 alias 20
slot 3 alias 0
slot 4 alias 0
mem 0x1000: ab
mem 0x1000: 00 00
poked
epoch 3 recut 0 moved 0
slot 0 alias 0
slot 1 alias 10
mem 0x1000: cd
epoch 4 recut 0 moved 0
mem 0x1000: 00
mem 0x1000: 01
epoch 5 recut 0 moved 0
slot 0 alias 0
slot 1 alias 20
slot 2 alias 0
slot 3 alias 0
named 4
";

/// The last byte of a machine's memory.
const LAST_BYTE: &str =
    "%%\npoke 1001 0x2fff 7F\npeek 1001 12287 1\npeek 1001 0x2ffe 2\npoke 7 0 00\n";

/// The output for the last byte, and for a station that is not declared.
const LAST_BYTE_TEXT: &str = "poked\nmem 0x2fff: 7f\nmem 0x2ffe: 00 7f\nrefused 5 UnknownStation\n";

const RUNS: &[Run] = &[
    (&[ONE_IN_GROUP, COMES_AGAIN], 0, &[COMES_AGAIN_TEXT]),
    (&[ONE_SLAVE, MEMORIES], 0, &[MEMORIES_TEXT]),
    (&[TWO_SLAVES, OVERWRITTEN], 0, &[OVERWRITTEN_TEXT]),
    (&[TWO_GROUPS, UNCHANGED], 0, &[UNCHANGED_TEXT]),
    (&[ONE_SLAVE, LAST_BYTE], 0, &[LAST_BYTE_TEXT]),
    (
        &["%%\nscan\nname\nprogram\ncycle 0 7\n"],
        0,
        &["named 0\nwritten 0 owed 0\nno frame\n"],
    ),
];

/// Runs along the simulated line print the text that was worked out by hand. Slaves keep their memory over an edit, and groups
/// that are connected again are fresh.
#[test]
fn frames_go_along_the_line(rt: HostRuntime) -> Result<(), Fail> {
    assert_eq!(rt; first_wrong(&rt, rt.alloc(), RUNS)?, None);
    Ok(())
}
