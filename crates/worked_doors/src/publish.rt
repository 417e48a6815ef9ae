//! A task's seat views the changes that the core's thread publishes.
use crate::opened::axis_plan;
use hc_publish::open;
use std::test::Fail;

/// Before the first change a seat views the plan at its opening.
#[test]
fn a_seat_views_the_opening(rt: HostRuntime) -> Result<(), Fail> {
    let plan = axis_plan(rt.alloc())?;
    let (publisher, seats) = open(&rt, rt.alloc(), &plan)?;
    let mut epochs = [9; 8];
    for (seat, shown) in seats.into_iter().zip(&mut epochs) {
        if let Ok(view) = seat.view() {
            *shown = view.epoch();
            view.leave();
        }
    }
    publisher.finish(&rt);
    assert_eq!(rt; epochs, [0; 8]);
    Ok(())
}
