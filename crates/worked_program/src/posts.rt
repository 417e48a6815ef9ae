//! Runs with posts.
use crate::printed::ONE_SLAVE;
use crate::rows::{Run, first_wrong};
use std::test::Fail;

/// Four posts of a task wait, and no fifth one.
const FOUR_WAIT: &str = "%%
post 0 1=2
post 0 1=2
post 0 1=2
post 0 1=2
post 0 1=2
post 0 1=4
take
post 0 1=4
post 0 2=1
post 1 1=0
post 0 1=3
take
take
";

/// The output of five posts, and of posts that are refused.
const FOUR_WAIT_TEXT: &str = "posted
posted
posted
posted
refused 5 NoSpare
refused 4 TooWide
taken 4 refused 0
refused 4 TooWide
refused 2 IsInput
refused 3 OtherTask
posted
taken 1 refused 0
taken 0 refused 0
";

/// Posted values are sent along the line, and the inputs that come back are viewed.
const EXCHANGED: &str = "%%
name
program
poke 1001 0x1180 340a
post 0 1=2
take
cycle 0
view 0 2
peek 1001 0x1100 1
post 0 1=1 1=2
post 0 1=3 1=1
take
cycle 0
peek 1001 0x1100 1
post 0
take
cycle 0
peek 1001 0x1100 1
";

/// The output of these exchanges. If a variable is named twice, its last value counts. An output that is not named is 0.
const EXCHANGED_TEXT: &str = "named 1
written 4 owed 0
poked
posted
taken 1 refused 0
inputs 0 0
epoch 0 var 2 value 2612
mem 0x1100: 02
posted
posted
taken 2 refused 0
inputs 0 0
mem 0x1100: 01
posted
taken 1 refused 0
inputs 0 0
mem 0x1100: 00
";

/// A post waits over an edit, and is for the epoch before it.
const OVER_EDITS: &str = "%%
post 0 1=2
remap 1001 1 0x1a00
post 0 1=2
take
remap 1001 0
post 0 1=2
post 0
remap 1001 0 0x1600
take
";

/// The output of posts before and after edits: those for an earlier epoch are refused.
const OVER_EDITS_TEXT: &str = "posted
epoch 1 recut 0 moved 0
posted
taken 1 refused 1
epoch 2 recut 1 moved 3
refused 1 NoSuchVariable
posted
epoch 3 recut 1 moved 3
taken 0 refused 1
";

/// Posts with several faults. A task over 7 is reported before all others, then the first value that is refused, by its first
/// fault. The largest numbers are tried too.
const JUDGED: &str = "%%
post 8 1=2
post 255 9=1
post 0 0=1
post 0 9=1 1=4
post 0 1=4 9=1
post 0 1=2 9=1
post 0 2=4096
post 1 2=1
post 1 1=4
post 0 1=4 1=1
post 0 4294967295=18446744073709551615
post 0 1=18446744073709551615
post 0 0xffffffff=0
post  0x7
post 0   0x1=0x03  1=0000
take
";

/// The output of the posts with faults.
const JUDGED_TEXT: &str = "refused 8 NoSuchTask
refused 8 NoSuchTask
refused 1 NoSuchVariable
refused 1 NoSuchVariable
refused 4 TooWide
refused 1 NoSuchVariable
refused 2 IsInput
refused 2 IsInput
refused 3 OtherTask
refused 4 TooWide
refused 1 NoSuchVariable
refused 4 TooWide
refused 1 NoSuchVariable
posted
posted
taken 2 refused 0
";

const RUNS: &[Run] = &[
    (&[ONE_SLAVE, FOUR_WAIT], 0, &[FOUR_WAIT_TEXT]),
    (&[ONE_SLAVE, EXCHANGED], 0, &[EXCHANGED_TEXT]),
    (&[ONE_SLAVE, OVER_EDITS], 0, &[OVER_EDITS_TEXT]),
    (&[ONE_SLAVE, JUDGED], 0, &[JUDGED_TEXT]),
    (
        &["%%\npost 0\npost 7\npost 0 1=0\ntake\n"],
        0,
        &["posted\nposted\nrefused 1 NoSuchVariable\ntaken 2 refused 0\n"],
    ),
];

/// Runs with posts print the text that was worked out by hand: refusals, posts that wait over an edit, and four posts at most.
#[test]
fn tasks_post(rt: HostRuntime) -> Result<(), Fail> {
    assert_eq!(rt; first_wrong(&rt, rt.alloc(), RUNS)?, None);
    Ok(())
}
