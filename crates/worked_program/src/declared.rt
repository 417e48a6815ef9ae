//! Runs in which groups are declared.
use crate::printed::ONE_IN_GROUP;
use crate::rows::{Run, first_wrong};
use std::test::Fail;

/// A feeder is declared: its lines up to the station address, and the others with the mark that ends them.
const FEEDER: &str = "declare\n[[group]]\nalias = 200\n[[group.slave]]\nstation = 2001\n";

const FEEDER_AREA: &str = r#"[[group.slave.area]]
sm = 2
dir = "out"
phys = 0x1000
task = 0
assigned = [5]
pdo = [{ index = 5, entries = [[3, 8]] }]
%%
"#;

/// The output for the feeder. A declared group is after the others, and absent until it is connected. Its alias, its station
/// and its variable are taken.
const FEEDER_TEXT: &str = "epoch 1 recut 1 moved 4
epoch 2 recut 0 moved 0
none
slot 0 alias 100
epoch 3 recut 1 moved 3
epoch 3
task 0 parts 2 2
datagram 0 address 0x01000000 length 4 expected 5
var 3 task 0 datagram 0 bit 8 bits 8 dir out
slot 0 alias 100
slot 1 alias 200
refused 31 AliasTaken
refused 32 StationTaken
refused 33 VariableTaken
epoch 3
";

/// Documents that declare no group. Most have a higher fault beside the one that is reported.
const NO_GROUPS: &[&str] = &[
    "%%\ndeclare\ngroup = [\n%%\ndeclare\ndeclare\n%%\n",
    "declare\ngroup = [{ slave = [{ station = 0 }] }]\n%%\n",
    "declare\ngroup = [{ alias = 0, slave = [{ station = 7 }, { station = 7 }] }]\n%%\n",
    "declare\ngroup = [{ alias = 7, slave = [{ station = 7 }] }, { alias = 7, slave = [{ station = 7 }] }]\n%%\n",
    "declare\ngroup = [{ alias = 6, slave = [{ station = 7 }] }, { alias = 7, slave = [{ station = 7 }] }]\n%%\n",
    "declare\n[[group]]\nalias = 7\n[[group.slave]]\nstation = 7\narea = [\n",
    "{ sm = 1, dir = 'in', phys = 0x1000, task = 0, assigned = [], pdo = [{ index = 5, entries = [[3, 9]] }] },\n",
    "{ sm = 1, dir = 'in', phys = 0x1001, task = 0, assigned = [], pdo = [{ index = 5, entries = [[3, 8]] }] }]\n%%\n",
    "declare\n[[group]]\nalias = 7\n[[group.slave]]\nstation = 7\narea = [\n",
    "{ sm = 1, dir = 'in', phys = 0x1000, task = 0, assigned = [], pdo = [{ index = 5, entries = [[3, 9]] }] },\n",
    "{ sm = 2, dir = 'in', phys = 0x1001, task = 0, assigned = [], pdo = [{ index = 5, entries = [[3, 8]] }] }]\n%%\n",
    "declare\n[[group]]\nalias = 7\n[[group.slave]]\nstation = 7\narea = [\n",
    "{ sm = 1, dir = 'in', phys = 0x1000, task = 0, assigned = [6], pdo = [{ index = 5, entries = [[3, 8]] }] },\n",
    "{ sm = 2, dir = 'in', phys = 0x1001, task = 0, assigned = [], pdo = [{ index = 5, entries = [[3, 8]] }] }]\n%%\n",
    "declare\n[[group]]\nalias = 7\n[[group.slave]]\nstation = 7\narea = [\n",
    "{ sm = 1, dir = 'in', phys = 0x1000, task = 0, assigned = [1, 2, 3, 4], pdo = [<pdos 11889>] }]\n%%\n",
    "declare\n[[group]]\nalias = 7\n[[group.slave]]\nstation = 7\narea = [\n",
    "{ sm = 1, dir = 'in', phys = 0x1000, task = 0, assigned = [1, 2, 3], pdo = [<pdos 11889>] }]\n%%\n",
    "declare\nslave = [{ station = 7 }]\n%%\n",
    "declare\nslave = [{ station = 7 }]\ngroup = [{ alias = 7, slave = [{ station = 8 }] }]\n%%\n",
    "declare\ngroup = [{ alias = 7, slave = [{ station = 7 }] }, { alias = 8, slave = [{ station = 8 }] }]\n%%\n",
    "declare\n%%\nlayout\n",
];

/// The output for these documents. The run goes on, and nothing is declared.
const NO_GROUPS_TEXT: &str = "declare fault 1 NotToml
declare fault 1 NotToml
declare fault 2 MissingField
declare fault 3 OutOfRange
declare fault 4 RepeatedAlias
declare fault 5 RepeatedStation
declare fault 6 RepeatedSyncManager
declare fault 7 OverlappingAreas
declare fault 8 RepeatedVariable
declare fault 9 UnknownPdo
declare fault 10 AreaTooBig
declare fault 12 NotOneGroup
declare fault 12 NotOneGroup
declare fault 12 NotOneGroup
declare fault 12 NotOneGroup
epoch 0
";

/// The commands that declare a group of two slaves without areas, and their output.
const PAIR: &str =
    "declare\n[[group]]\nalias = 700\n[[group.slave]]\nstation = 3000\n[[group.slave]]\nstation = 3001\n%%\n";

const ACCEPTED: &str = "epoch 1 recut 0 moved 0\n";

/// The output of `layout` and `regs` for a line whose last slave has 8 bits of outputs.
const LAST_SLAVE: &str = "epoch 0
task 0 parts 1 0
datagram 0 address 0x01000000 length 1 expected 2
sm 0 at 0x0800: 00 10 01 00 64 00 01 00
fmmu 0 at 0x0600: 00 00 00 01 01 00 00 07 00 10 00 02 01 00 00 00
";

const RUNS: &[Run] = &[
    (
        &[
            ONE_IN_GROUP,
            "%%\nconnect 100\n",
            FEEDER,
            FEEDER_AREA,
            "place 3\nscan\nconnect 200\nlayout\nplace 3\nscan\n",
            FEEDER,
            FEEDER_AREA,
            "declare\n[[group]]\nalias = 201\n[[group.slave]]\nstation = 2001\n",
            FEEDER_AREA,
            "declare\n[[group]]\nalias = 201\n[[group.slave]]\nstation = 2002\n",
            FEEDER_AREA,
            "read 7\n",
        ],
        0,
        &[FEEDER_TEXT],
    ),
    (NO_GROUPS, 0, &[NO_GROUPS_TEXT]),
    // without its closing line a declaration is no command, whatever its text
    (
        &["%%\nlayout\ndeclare"],
        2,
        &["epoch 0\nline 3: bad command\n"],
    ),
    (
        &["%%\ndeclare\ngroup = [\nlayout\n"],
        2,
        &["line 2: bad command\n"],
    ),
    (
        &[
            ONE_IN_GROUP,
            "%%\n",
            FEEDER,
            " %%\n%% \n%%%\n%%\n\r\ndeclare\n",
        ],
        2,
        &["declare fault 1 NotToml\nline 30: bad command\n"],
    ),
    // a declaration has no other word
    (&["%%\ndeclare 7\n%%\n"], 2, &["line 2: bad command\n"]),
    (
        &["%%\ndeclare declare\n%%\n"],
        2,
        &["line 2: bad command\n"],
    ),
    // the lines of a document are counted, and its closing line too
    (
        &["%%\n", PAIR, "foo\n"],
        2,
        &[ACCEPTED, "line 10: bad command\n"],
    ),
    (
        &["%%\ndeclare\n\n\n%%\n\nfoo\n"],
        2,
        &["declare fault 12 NotOneGroup\nline 7: bad command\n"],
    ),
    (
        &["%%\r\n  declare \r\n[[group]]\r\nalias = 7\r\n[[group.slave]]\r\nstation = 7\r\n%%"],
        0,
        &[ACCEPTED],
    ),
];

/// The most slaves and groups, and one more.
const LIMITS: &[Run] = &[
    (
        &[
            "<slaves 1 2047 0 0><slaves 2048 2048 0 8>%%\nlayout\nregs 2048\n",
            PAIR,
            "read 7\n",
        ],
        0,
        &[LAST_SLAVE, "refused 35 TooManySlaves\nepoch 0\n"],
    ),
    (
        &["<slaves 1 2049 0 0>%%\nlayout\n"],
        3,
        &["project fault 3 OutOfRange\n"],
    ),
    (
        &[
            "<slaves 1 2046 0 0>%%\n",
            PAIR,
            "connect 700\ndeclare\n<groups 4000 4000>%%\nregs 3001\nread 7\n",
        ],
        0,
        &[
            ACCEPTED,
            "epoch 2 recut 0 moved 0\nrefused 35 TooManySlaves\nepoch 2\n",
        ],
    ),
    (
        &[
            "<groups 1 510>%%\ndeclare\n<groups 511 511>%%\ndeclare\n<groups 512 512>%%\nconnect 511\n",
        ],
        0,
        &[
            ACCEPTED,
            "refused 34 TooManyGroups\nepoch 2 recut 0 moved 0\n",
        ],
    ),
    (
        &["<groups 1 512>%%\nlayout\n"],
        3,
        &["project fault 3 OutOfRange\n"],
    ),
];

/// Runs that declare groups print the text that was worked out by hand. Text that declares no group is refused and changes
/// nothing.
#[test]
fn groups_are_declared(rt: HostRuntime) -> Result<(), Fail> {
    assert_eq!(rt; first_wrong(&rt, rt.alloc(), RUNS)?, None);
    Ok(())
}

/// Slaves and groups are declared up to their limits, and one more is refused.
#[test]
fn slaves_and_groups_are_declared_up_to_the_limits(rt: HostRuntime) -> Result<(), Fail> {
    assert_eq!(rt; first_wrong(&rt, rt.alloc(), LIMITS)?, None);
    Ok(())
}
