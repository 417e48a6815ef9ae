//! A run in which a task posts and views, over readers and writers that fail.
use crate::breaks::{reads_failed, writes_cut, writes_falter};
use crate::printed::{ONE_SLAVE, joined};
use std::test::Fail;

/// A value goes out to the slave, and one comes in.
const BOTH_WAYS: &str = "%%
name
program
poke 1001 0x1180 340a
post 0 1=2
take
cycle 0
view 0 2
peek 1001 0x1100 1
";

/// The output of the run.
const BOTH_WAYS_TEXT: &str = "named 1
written 4 owed 0
poked
posted
taken 1 refused 0
inputs 0 0
epoch 0 var 2 value 2612
mem 0x1100: 02
";

/// A run in which a task posts ends when a read fails, at whichever call.
#[test]
fn each_read_of_a_posting_run_fails_once(rt: HostRuntime) -> Result<(), Fail> {
    let text = joined(rt.alloc(), ONE_SLAVE, BOTH_WAYS)?;
    assert!(rt; reads_failed(&rt, rt.alloc(), text.as_str())? == 20);
    Ok(())
}

/// A run in which a task posts ends with status 4 when a write fails, at whichever call, after it printed the beginning of its
/// output.
#[test]
fn each_write_of_a_posting_run_fails_in_turn(rt: HostRuntime) -> Result<(), Fail> {
    let text = joined(rt.alloc(), ONE_SLAVE, BOTH_WAYS)?;
    assert!(rt; writes_cut(&rt, rt.alloc(), text.as_str(), BOTH_WAYS_TEXT)? == 160);
    Ok(())
}

/// One failed write ends a run in which a task posts.
#[test]
fn a_failed_write_of_a_posting_run_is_not_tried_again(rt: HostRuntime) -> Result<(), Fail> {
    let text = joined(rt.alloc(), ONE_SLAVE, BOTH_WAYS)?;
    assert!(rt; writes_falter(&rt, rt.alloc(), text.as_str(), BOTH_WAYS_TEXT)? == 80);
    Ok(())
}
