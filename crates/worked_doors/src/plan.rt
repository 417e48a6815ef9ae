//! A plan and its edits.
use crate::opened::axis_plan;
use hc_records::{Edit, EditFault};
use std::test::Fail;

/// A tool that is connected brings its two register blocks, and a second connection is refused.
#[test]
fn a_tool_is_connected(rt: HostRuntime) -> Result<(), Fail> {
    let alloc = rt.alloc();
    let mut plan = axis_plan(alloc)?;
    let report = plan.apply(alloc, &Edit::Connect(100))?;
    assert_eq!(rt; (report.epoch, report.moved), (1, 2));
    assert_eq!(rt; (plan.blocks(), plan.station(1)), (4, Some(2001)));
    let again = plan.apply(alloc, &Edit::Connect(100));
    assert_eq!(rt; again.err(), Some(EditFault::AlreadyPresent));
    Ok(())
}
