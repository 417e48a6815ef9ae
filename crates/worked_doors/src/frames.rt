//! A frame is written and read.
use hc_frames::building::build_blank_lrw;
use hc_frames::{FrameFault, Room, read_frame};
use std::test::Fail;

/// A frame is at least 60 bytes long, and is read as it was written.
#[test]
fn a_frame_is_written_and_read(rt: HostRuntime) -> Result<(), Fail> {
    let mut frame = [0; 60];
    assert_eq!(rt; build_blank_lrw(&mut frame, 7, 0x0100_0000, 4)?, 60);
    assert_eq!(rt; read_frame(&frame)?.serial(), 7);
    let cut = build_blank_lrw(&mut frame[..59], 7, 0x0100_0000, 4);
    assert_eq!(rt; cut, Err(Room(60)));
    assert_eq!(rt; read_frame(&frame[..27]).err(), Some(FrameFault::Short));
    Ok(())
}
