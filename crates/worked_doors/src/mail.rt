//! A mailbox for the newest content.
use hc_mail::opening::open;
use hc_mail::post::TaskPost;
use std::test::Fail;

/// Of two posts the receiver sees the newer one.
#[test]
fn the_newest_post_is_seen(rt: HostRuntime) -> Result<(), Fail> {
    let (mut sender, mut receiver) = open::<TaskPost>(rt.alloc(), 4, 0)?;
    sender.write(7, &[1]);
    sender.send();
    sender.write(8, &[2, 3]);
    assert_eq!(rt; sender.send(), 2);
    receiver.look();
    let post = receiver.content();
    assert_eq!(rt; (post.epoch(), post.bytes()), (8, [2, 3].as_slice()));
    Ok(())
}
