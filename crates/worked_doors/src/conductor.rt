//! A conductor and the seats of its tasks.
use crate::opened::AXIS;
use hc_conductor::open;
use hc_project::read_project;
use hc_records::Edit;
use std::test::Fail;

/// Each task views the epoch that the conductor published.
#[test]
fn an_edit_is_published(rt: HostRuntime) -> Result<(), Fail> {
    let alloc = rt.alloc();
    let (mut conductor, seats) = open(&rt, alloc, read_project(alloc, AXIS.as_bytes())?)?;
    conductor.edit(alloc, &Edit::Connect(100));
    let published = conductor.publish(&rt, alloc);
    let mut epochs = [9; 8];
    for (seat, shown) in seats.into_iter().zip(&mut epochs) {
        if let Ok(view) = seat.view() {
            *shown = view.epoch();
            view.leave();
        }
    }
    conductor.finish(&rt);
    published?;
    assert_eq!(rt; epochs, [1; 8]);
    Ok(())
}
