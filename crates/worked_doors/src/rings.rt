//! A post goes from a task to the owner of the core.
use hc_rings::post_ring;
use std::test::Fail;

/// The task's post is taken, and its buffer given back.
#[test]
fn a_post_is_taken(rt: HostRuntime) -> Result<(), Fail> {
    let (mut sender, mut receiver) = post_ring(rt.alloc())?;
    sender.outputs(7, 3)?.fill(0xff);
    sender.post_held()?;
    let post = receiver.take().ok_or("no post was taken")?;
    assert_eq!(rt; (post.epoch(), post.bytes()), (7, [0xff; 3].as_slice()));
    receiver.give_back(post);
    Ok(())
}
