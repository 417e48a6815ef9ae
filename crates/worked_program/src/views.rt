//! Views of tasks after the master's calls, and posts that are taken.
use crate::printed::{ONE_IN_GROUP, ONE_SLAVE};
use crate::rows::{Run, first_wrong};
use std::test::Fail;

/// Each refusal of a view in its order, and values, which come with good answers alone.
const VALUES: &str = "%%
view 0 2
view 0 1
view 1 1
view 1 2
view 0 3
view 0 0
view 8 0
view 0xff 4294967295
take
name
program
poke 1001 0x1180 340a
view 0 2
cycle 0
view 0 2
  view   0x00  0x2
poke 1001 0x1180 ffff
view 0 2
cycle 0
view 0 2
poke 1001 0x060c 00
cycle 0
view 0 2
remap 1001 1 0x1a00
view 0 2
";

/// The output of these views.
const VALUES_TEXT: &str = "refused 4 NotAnswered
refused 2 IsOutput
refused 2 IsOutput
refused 3 OtherTask
refused 1 NoSuchVariable
refused 1 NoSuchVariable
refused 8 NoSuchTask
refused 8 NoSuchTask
taken 0 refused 0
named 1
written 4 owed 0
poked
refused 4 NotAnswered
inputs 0 0
epoch 0 var 2 value 2612
epoch 0 var 2 value 2612
poked
epoch 0 var 2 value 2612
inputs 0 0
epoch 0 var 2 value 4095
poked
wrong count 3 1
epoch 0 var 2 value 4095
epoch 1 recut 0 moved 0
refused 4 NotAnswered
";

/// The inputs of a frame that arrives are viewed too, and a stale frame changes nothing.
const ARRIVED: &str = "%%
name
program
send 0
view 0 2
arrive ffffffffffff02000000000488a40f100c04000000010300000002340a0300
view 0 2
arrive ffffffffffff02000000000488a40f100c04000000010300000002ffff0300
view 0 2
";

/// The output for the two arrivals.
const ARRIVED_TEXT: &str = "named 1
written 4 owed 0
sent 4: ffffffffffff02000000000488a40f100c04000000010300000000000000000000000000000000000000000000000000000000000000000000000000
refused 4 NotAnswered
inputs 0 0
epoch 0 var 2 value 2612
stale
epoch 0 var 2 value 2612
";

/// A variable appears with its group, moves to another task with its area, and disappears with its group.
const COMES_AND_GOES: &str = "%%
view 0 2
connect 100
view 0 2
name
program
poke 1001 0x1180 0100
cycle 0
view 0 2
move 1001 1 3
view 0 2
view 3 2
program
cycle 3
view 3 2
disconnect 100
view 3 2
";

/// The output for the group's variable.
const COMES_AND_GOES_TEXT: &str = "refused 1 NoSuchVariable
epoch 1 recut 1 moved 4
refused 4 NotAnswered
named 1
written 4 owed 0
poked
inputs 0 0
epoch 1 var 2 value 1
epoch 2 recut 2 moved 1
refused 3 OtherTask
refused 4 NotAnswered
written 1 owed 0
inputs 3 0
epoch 2 var 2 value 1
epoch 3 recut 2 moved 0
refused 1 NoSuchVariable
";

const RUNS: &[Run] = &[
    (&[ONE_SLAVE, VALUES], 0, &[VALUES_TEXT]),
    (&[ONE_SLAVE, ARRIVED], 0, &[ARRIVED_TEXT]),
    (&[ONE_IN_GROUP, COMES_AND_GOES], 0, &[COMES_AND_GOES_TEXT]),
    (
        &["%%\nview 7 1\nview 8 1\ntake\n"],
        0,
        &["refused 1 NoSuchVariable\nrefused 8 NoSuchTask\ntaken 0 refused 0\n"],
    ),
];

/// Tasks view the values of good answers once they are published, and the refusals in their order.
#[test]
fn tasks_view_what_is_published(rt: HostRuntime) -> Result<(), Fail> {
    assert_eq!(rt; first_wrong(&rt, rt.alloc(), RUNS)?, None);
    Ok(())
}
