//! The register blocks that are owed.
use crate::opened::axis_plan;
use hc_owed::Owed;
use std::test::Fail;

/// At the opening both blocks of the axis are owed, its sync manager first.
#[test]
fn blocks_are_owed(rt: HostRuntime) -> Result<(), Fail> {
    let plan = axis_plan(rt.alloc())?;
    let owed = Owed::new(rt.alloc(), &plan)?;
    assert_eq!(rt; owed.count(), 2);
    let first = owed.first(&plan).ok_or("nothing is owed")?;
    assert_eq!(rt; (first.block.station, first.block.number), (1001, 0));
    Ok(())
}
