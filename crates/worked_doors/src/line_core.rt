//! The core of a line.
use crate::opened::AXIS;
use hc_core::Core;
use hc_events::{Answer, CoreFault, Event};
use hc_project::read_project;
use std::test::Fail;

/// Before its register blocks are written no task is sent.
#[test]
fn a_core_answers_events(rt: HostRuntime) -> Result<(), Fail> {
    let alloc = rt.alloc();
    let mut core = Core::new(alloc, read_project(alloc, AXIS.as_bytes())?)?;
    let answer = core.step(alloc, Event::SendTasks(&[0]));
    assert!(rt; matches!(answer, Answer::Refused(CoreFault::Unprogrammed(2))));
    core.write_into(&mut [0; 60])?;
    assert_eq!(rt; core.next_serial(), 1);
    Ok(())
}
