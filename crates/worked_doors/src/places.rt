//! The table of a line.
use crate::opened::axis_plan;
use std::test::Fail;

/// Task 0 has one datagram of 1 byte, and task 1 none.
#[test]
fn a_line_has_a_table(rt: HostRuntime) -> Result<(), Fail> {
    let plan = axis_plan(rt.alloc())?;
    let places = plan.places();
    assert_eq!(rt; places.part(0), (1, 0));
    let datagram = places.datagram(0, 0).ok_or("no datagram")?;
    assert_eq!(rt;
        (datagram.address, datagram.length, datagram.expected),
        (0x0100_0000, 1, 2)
    );
    assert_eq!(rt; places.datagram(1, 0).is_none(), true);
    Ok(())
}
