//! A frame passes slaves in a row.
use hc_frames::building::build_alias_read;
use hc_machine::SlaveMachine;
use hc_segment::Segment;
use std::test::Fail;

/// The second slave adds its alias, and counts 1.
#[test]
fn slaves_stand_in_a_row(rt: HostRuntime) -> Result<(), Fail> {
    let mut machines = Vec::new(rt.alloc());
    machines.push(SlaveMachine::new(rt.alloc(), 100)?)?;
    machines.push(SlaveMachine::new(rt.alloc(), 200)?)?;
    let mut segment = Segment::of(machines);
    let mut frame = [0; 60];
    build_alias_read(&mut frame, 1)?;
    segment.process(&mut frame);
    assert_eq!(rt; &frame[26..30], [200, 0, 1, 0].as_slice());
    Ok(())
}
