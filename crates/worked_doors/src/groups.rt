//! Declared groups and their index.
use crate::opened::axis_plan;
use hc_groups::Index;
use std::test::Fail;

/// The tool is declared, and its slave is not in the line.
#[test]
fn groups_have_an_index(rt: HostRuntime) -> Result<(), Fail> {
    let plan = axis_plan(rt.alloc())?;
    let index = Index::new(rt.alloc(), plan.groups())?;
    let groups = index.of(plan.groups());
    assert_eq!(rt; groups.group(100), Some(1));
    assert!(rt; groups.is_declared_station(2001));
    assert_eq!(rt; groups.position(2001), None);
    Ok(())
}
