//! Lines that are no command, faults of project text and opening, and lines and words that are parted in every way.
use crate::printed::{ONE_SLAVE, ends_as};
use crate::rows::{Run, first_wrong, written};
use std::alloc::Global;
use std::sync::Wait;
use std::test::Fail;
use std::thread::Threads;

/// Lines that are no command.
const NO_COMMANDS: &[&str] = &[
    "foo",
    "Layout",
    "LAYOUT",
    "layouts",
    "%%",
    "\tlayout",
    "layout\t",
    "layout\r",
    "layout 1",
    "regs",
    "regs 1 2",
    "regs x",
    "regs 65536",
    "regs 0x10000",
    "regs 0x",
    "regs x10",
    "regs 0X10",
    "regs 0xg",
    "regs -1",
    "regs +1",
    "regs 1_0",
    "regs 12a",
    "regs 1.0",
    "regs 99999999999999999999",
    "show",
    "show 0",
    "show 0 0 0",
    "show 256 0",
    "show 0 256",
    "show a 0",
    "show 0 g",
    "show 8 x",
    "place",
    "place 1 2",
    "place x",
    "place 4294967296",
    "place 0x100000000",
    "places 1",
    "send",
    "send x",
    "send 256",
    "send -1",
    "send 0 x",
    "send 0 0",
    "send 0 0x0",
    "send 8 8",
    "send 0 1 0",
    "send 0 1 2 3 4 5 6 7 8",
    "Send 0",
    "write 0",
    "write 1001 0",
    "writes",
    "arrive",
    "arrive f",
    "arrive fff",
    "arrive 0xff",
    "arrive fg",
    "arrive g0",
    "arrive ff ff",
    "arrive ff,",
    "read",
    "read x",
    "read 256",
    "read 0 0",
    "read 0x",
    "take 0",
    "take 0 1",
    "takes",
    "view",
    "view 0",
    "view x 2",
    "view 256 2",
    "view 0 x",
    "view 0 4294967296",
    "view 8 x",
    "view 0 2 2",
    "views 0 2",
    "post",
    "post x",
    "post 256",
    "post -1",
    "post 0 1",
    "post 0 1=",
    "post 0 =2",
    "post 0 =",
    "post 0 1 = 2",
    "post 0 1= 2",
    "post 0 1==2",
    "post 0 1=2=3",
    "post 0 1=2=",
    "post 0 =1=2",
    "post 0 1=2 x",
    "post 0 1=2 1",
    "post 0 x=2",
    "post 0 1=x",
    "post 0 1=-1",
    "post 0 1=0x",
    "post 0 0X1=2",
    "post 0 4294967296=2",
    "post 0 1=18446744073709551616",
    "post 8 x",
    "post 8 1=",
    "Post 0 1=2",
    "posts 0 1=2",
    "connect",
    "connect 1 2",
    "connect x",
    "connect 65536",
    "disconnect",
    "disconnect 1 2",
    "disconnect 65536",
    "remap",
    "remap 1001",
    "remap 65536 0",
    "remap 1001 256",
    "remap 1001 0 x",
    "remap 1001 0 0x1a00 65536",
    "move 1001 0",
    "move 1001 256 0",
    "move 1001 0 256",
    "move 1001 0 0 0",
    "scan 0",
    "scans",
    "name 1001",
    "program 1001",
    "cycle",
    "cycle x",
    "cycle 256",
    "cycle 0 0x0",
    "cycle 8 8",
    "cycle 0 1 2 3 4 5 6 7 8",
    "poke 1001 0x1100",
    "poke 1001 0x1100 02 03",
    "poke 65536 0x1100 02",
    "poke 1001 65536 02",
    "poke 1001 0x1100 2",
    "poke 1001 0x1100 0x02",
    "poke x 0x1100 02",
    "poke 1001 x 02",
    "poke 1001 0x3000 02",
    "poke 1001 0x2fff 0203",
    "poke 7 0x3000 02",
    "peek 1001 0x1100",
    "peek 1001 0x1100 1 1",
    "peek 65536 0x1100 1",
    "peek 1001 65536 1",
    "peek 1001 0x1100 0",
    "peek 1001 0x1100 1487",
    "peek 1001 0x1100 x",
    "peek 1001 0x3000 1",
    "peek 1001 0x2fff 2",
    "peek 7 0x2fff 2",
];

/// The first of these lines that is not refused as a bad command after `layout`. None if there is none.
fn first_command<R: Threads + Wait + Sync>(
    rt: &R,
    alloc: Global,
) -> Result<Option<&'static str>, Fail> {
    for line in NO_COMMANDS {
        let input = written(alloc, &["%%\nlayout\n\n", *line])?;
        if !ends_as(
            rt,
            alloc,
            input.as_bytes(),
            2,
            "epoch 0\nline 4: bad command\n",
        )? {
            return Ok(Some(*line));
        }
    }
    Ok(None)
}

/// None of the lines that are no command is taken for one.
#[test]
fn lines_that_are_no_command(rt: HostRuntime) -> Result<(), Fail> {
    assert_eq!(rt; first_command(&rt, rt.alloc())?, None);
    Ok(())
}

/// Four answers to `layout`.
const FOUR: &str = "epoch 0\nepoch 0\nepoch 0\nepoch 0\n";

/// Commands of an empty line: every task together, tasks over 7, and bytes that are no frame.
const EMPTY_LINE: &str = "%%
layout
send 0
send 7 6 5 4 3 2 1 0
send 0x07 2
send 0 8
send 255
write
arrive 00
arrive fFfF
read 0
read 0xff
";

/// The output of these commands.
const EMPTY_LINE_TEXT: &str = "epoch 0
no frame
no frame
no frame
refused 8 NoSuchTask
refused 8 NoSuchTask
refused 18 NothingOwed
refused 20 Short
refused 20 Short
epoch 0
refused 8 NoSuchTask
";

/// Project texts with their faults, an area that is a bit too wide, a task with seventeen datagrams, inputs without a
/// mark, a line that is counted over the whole input, and lines and words.
const RUNS: &[Run] = &[
    (
        &["slave = ", "\n%%\nfoo\n"],
        3,
        &["project fault 1 NotToml\n"],
    ),
    (&["%\n", "\n%%\nfoo\n"], 3, &["project fault 1 NotToml\n"]),
    (
        &["slave = [{}]", "\n%%\nfoo\n"],
        3,
        &["project fault 2 MissingField\n"],
    ),
    (
        &["slave = 1", "\n%%\nfoo\n"],
        3,
        &["project fault 2 MissingField\n"],
    ),
    (
        &["slave = [{ station = 0 }]", "\n%%\nfoo\n"],
        3,
        &["project fault 3 OutOfRange\n"],
    ),
    (
        &[
            "group = [{ alias = 1, slave = [{ station = 1 }] }, { alias = 1, slave = [{ station = 2 }] }]",
            "\n%%\nfoo\n",
        ],
        3,
        &["project fault 4 RepeatedAlias\n"],
    ),
    (
        &["slave = [{ station = 1 }, { station = 1 }]", "\n%%\nfoo\n"],
        3,
        &["project fault 5 RepeatedStation\n"],
    ),
    (
        &[
            "slave = [{ station = 1, area = [{ sm = 0, dir = 'in', phys = 4096, task = 0, assigned = [] }, { sm = 0, dir = 'in', phys = 4096, task = 0, assigned = [] }] }]",
            "\n%%\nfoo\n",
        ],
        3,
        &["project fault 6 RepeatedSyncManager\n"],
    ),
    (
        &[
            "slave = [{ station = 1, area = [{ sm = 0, dir = 'in', phys = 4096, task = 0, assigned = [], pdo = [{ index = 1, entries = [[1, 1], [1, 1]] }] }] }]",
            "\n%%\nfoo\n",
        ],
        3,
        &["project fault 8 RepeatedVariable\n"],
    ),
    (
        &[
            "slave = [{ station = 1, area = [{ sm = 0, dir = 'in', phys = 4096, task = 0, assigned = [7] }] }]",
            "\n%%\nfoo\n",
        ],
        3,
        &["project fault 9 UnknownPdo\n"],
    ),
    (
        &["<slaves 1 1 0 11889>", "%%\nlayout\n"],
        3,
        &["project fault 10 AreaTooBig\n"],
    ),
    (
        &["<slaves 1 17 0 11200>", "%%\nfoo\n"],
        3,
        &["open fault 1 TooManyDatagrams 0\n"],
    ),
    (&[], 0, &[]),
    (&["slave = []"], 0, &[]),
    (&["# %%\n %%\nx = 1\n"], 3, &["project fault 1 NotToml\n"]),
    (
        &[ONE_SLAVE, "%%\nshow 0 1\nshow 1\nlayout\n"],
        2,
        &["none\nline 23: bad command\n"],
    ),
    (&[EMPTY_LINE], 0, &[EMPTY_LINE_TEXT]),
    (&["%%\r\nlayout\r\nlayout\r\nlayout\nlayout"], 0, &[FOUR]),
    (
        &["%%\n  layout\nlayout   \n\n   \n\r\n layout \nlayout\n"],
        0,
        &[FOUR],
    ),
    (
        &["%%\nshow  00  0x0\nshow 0X0 0\n"],
        2,
        &["none\nline 3: bad command\n"],
    ),
    (
        &["%%\nshow 000000000000000000000000008 0xfF\n"],
        0,
        &["refused 8 NoSuchTask\n"],
    ),
    (&["%%"], 0, &[]),
    (&["%%\n"], 0, &[]),
    (&["%%\r\n\r\n"], 0, &[]),
];

/// Lines and words are parted as the format says, and project text that is not UTF-8 is refused with `NotToml`.
#[test]
fn lines_and_words(rt: HostRuntime) -> Result<(), Fail> {
    assert_eq!(rt; first_wrong(&rt, rt.alloc(), RUNS)?, None);
    let input = b"# \xff\n%%\nlayout\n";
    assert!(rt; ends_as(&rt, rt.alloc(), input, 3, "project fault 1 NotToml\n")?);
    Ok(())
}
