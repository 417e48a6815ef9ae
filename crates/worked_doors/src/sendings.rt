//! The frame of a datagram before it is sent.
use crate::opened::axis_plan;
use hc_sendings::proposing::preview;
use std::test::Fail;

/// A preview has the given serial and the size of the smallest frame. A task without a datagram has none.
#[test]
fn a_datagram_is_previewed(rt: HostRuntime) -> Result<(), Fail> {
    let plan = axis_plan(rt.alloc())?;
    let frame = preview(&plan, 7, 0, 0).ok_or("the task has no datagram")?;
    assert_eq!(rt; (frame.serial(), frame.size()), (7, 60));
    assert!(rt; preview(&plan, 7, 1, 0).is_none());
    Ok(())
}
