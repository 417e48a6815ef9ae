//! Frames of tasks as events name them.
use hc_events::Sending;
use hc_events::together::Together;

/// Two datagrams share a frame, and tasks that are sent together are named once.
#[test]
fn datagrams_share_a_frame(rt: HostRuntime) {
    let mut frame = Sending::of(7, (0, 0), 100);
    if frame.has_room(50) {
        frame.join((1, 0), 50);
    }
    assert_eq!(rt; (frame.serial(), frame.size()), (7, 190));
    assert_eq!(rt; frame.datagrams(), [(0, 0), (1, 0)].as_slice());
    assert!(rt; Together::of(&[0, 1]).is_some());
    assert!(rt; Together::of(&[0, 0]).is_none());
}
