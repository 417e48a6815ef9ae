//! A receiver at the end of a ring. It is proved here that each `take` before the end finds a post.
ghost use Rattle.std.specs.Prelude.{◌≡◌, IfSome};
ghost use Rattle.hc_rings.specs.Ring.{taken, posted, ArePostEnds, EndCameAfter};
ghost use Rattle.hc_rings.specs.Finished.{all_posted, IsEndOf};

use crate::posting::{post, takes};
use hc_rings::{PostReceiver, PostSender, PostsEnd, post_ring};
use std::alloc::{AllocError, Global};
use std::test::Fail;

/// Takes the posts that are left once the sender is gone, and returns their number. It is proved that each `take` finds a post,
/// and that the taken posts are then all that were posted.
pub fn take_what_is_left(receiver: &mut PostReceiver) -> Option<u32>
    ensures { IfSome result (λ _. EndCameAfter receiver.new (taken receiver.new)) }
{
    let count = receiver.finish()?;
    for _ in 0..count {
        match receiver.take() {
            Some(buffer) => receiver.give_back(buffer),
            None => unreachable!(),
        }
    }
    Some(count)
}

/// The numbers of posts that are left at the opening, after two posts, and after a taking. None if a post or the taking fails.
fn left_beside(alloc: Global) -> Result<Option<[u32; 3]>, AllocError> {
    let (mut sender, mut receiver) = post_ring(alloc)?;
    let opening = receiver.beside(&mut sender);
    if !post(&mut sender, 3, &[3, 3, 3]) || !post(&mut sender, 4, &[4, 4, 4]) {
        return Ok(None);
    }
    let posted = receiver.beside(&mut sender);
    if !takes(&mut receiver, 3, &[3, 3, 3]) {
        return Ok(None);
    }
    Ok(Some([opening, posted, receiver.beside(&mut sender)]))
}

/// Takes the posts that are left once the sender has finished, and returns their number. It is proved that each `take` finds a
/// post, and that the taken posts are then all that were posted.
fn take_up_to(receiver: &mut PostReceiver, end: &mut PostsEnd) -> u32
    requires { IsEndOf end.old receiver.old }
    ensures { taken receiver.new ≡ all_posted end.old }
{
    let count = receiver.finish_after(end);
    while receiver.finish_after(end) > 0 {
        match receiver.take() {
            Some(buffer) => receiver.give_back(buffer),
            None => unreachable!(),
        }
    }
    count
}

/// Finishes the sender, takes the posts that are left, and returns their number. It is proved that the taken posts are then all
/// that were posted.
fn finish_and_take(sender: PostSender, receiver: &mut PostReceiver) -> Option<u32>
    requires { ArePostEnds sender receiver.old }
    ensures { IfSome result (λ _. taken receiver.new ≡ posted sender) }
{
    let mut end = sender.finish()?;
    Some(take_up_to(receiver, &mut end))
}

/// The number of posts that a finished sender leaves of three, if the first is taken and a buffer is held. None if they cannot
/// be posted, or the end is not seen.
fn left_by_finished(alloc: Global) -> Result<Option<u32>, AllocError> {
    let (mut sender, mut receiver) = post_ring(alloc)?;
    let first = post(&mut sender, 0, &[2, 2, 2]);
    let second = post(&mut sender, 1, &[2, 2, 2]);
    let third = post(&mut sender, 2, &[2, 2, 2]);
    let is_taken = takes(&mut receiver, 0, &[2, 2, 2]);
    let is_held = sender.hold(9, 1).is_ok();
    let left = finish_and_take(sender, &mut receiver);
    let is_begun = first && second && third && is_taken && is_held;
    let is_ended = receiver.take().is_none() && receiver.finish() == Some(0);
    Ok(if is_begun && is_ended { left } else { None })
}

/// Both ends know the number of posts that are left: beside one another, and after the sender has finished. A sender without a
/// receiver cannot finish.
#[test]
fn the_ends_say_what_is_left(rt: HostRuntime) -> Result<(), Fail> {
    let alloc = rt.alloc();
    let (sender, receiver) = post_ring(alloc)?;
    drop(receiver);
    let finishes_alone = sender.finish().is_some();
    let found = (left_beside(alloc)?, left_by_finished(alloc)?);
    assert_eq!(rt;
        (found, finishes_alone),
        ((Some([0, 2, 1]), Some(2)), false)
    );
    Ok(())
}
