//! A frame passes a slave machine.
use hc_frames::building::build_alias_read;
use hc_machine::SlaveMachine;
use std::test::Fail;

/// The slave adds its alias and counts 1.
#[test]
fn a_slave_serves_a_frame(rt: HostRuntime) -> Result<(), Fail> {
    let mut machine = SlaveMachine::new(rt.alloc(), 200)?;
    let mut frame = [0; 60];
    build_alias_read(&mut frame, 0)?;
    machine.process(&mut frame);
    assert_eq!(rt; &frame[26..30], [200, 0, 1, 0].as_slice());
    Ok(())
}
