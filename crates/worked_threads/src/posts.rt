//! Posts that go through a ring.
use crate::ends::take_what_is_left;
use crate::posting::Step::{Begin, Held, NoSpare, Post, PostFour, PostHeld, Take};
use crate::posting::Taking::{self, Four, Left, Nothing};
use crate::posting::{Step, all_come, all_done};
use hc_rings::{LARGEST_IMAGE, PostFault, post_ring};
use std::test::Fail;

/// The steps of both ends of a ring; the receiver's calls once the sender is dropped; and the number of posts that are then
/// left.
type Run = (&'static [Step], &'static [Taking], u32);

const RUNS: [Run; 8] = [
    // a dropped sender leaves its posts
    (
        &[
            Take(Left(None)),
            Post(7, [1, 2, 3]),
            Post(8, [4, 5, 6]),
            Take(Left(None)),
        ],
        &[
            Left(Some(2)),
            Taking::Post(7, [1, 2, 3]),
            Left(Some(1)),
            Taking::Post(8, [4, 5, 6]),
            Nothing,
            Left(Some(0)),
        ],
        0,
    ),
    // a buffer that is held as the sender is dropped is no post
    (
        &[Post(7, [1, 2, 3]), Begin(8, 3, 6)],
        &[
            Left(Some(1)),
            Taking::Post(7, [1, 2, 3]),
            Nothing,
            Left(Some(0)),
        ],
        0,
    ),
    // a held buffer is no post, also if nothing was posted
    (&[Begin(7, 3, 6)], &[Nothing, Left(Some(0))], 0),
    // a take may meet the end first
    (
        &[Post(1, [1, 1, 1])],
        &[Taking::Post(1, [1, 1, 1]), Nothing, Left(Some(0))],
        0,
    ),
    // a full ring is finished too
    (
        &[
            Post(0, [9, 9, 9]),
            Take(Taking::Post(0, [9, 9, 9])),
            Post(1, [9, 9, 9]),
            Take(Taking::Post(1, [9, 9, 9])),
            Post(2, [9, 9, 9]),
            Post(3, [9, 9, 9]),
            Post(4, [9, 9, 9]),
            Post(5, [9, 9, 9]),
        ],
        &[Left(Some(4)), Taking::Post(2, [9, 9, 9])],
        3,
    ),
    // four buffers go round
    (
        &[
            PostFour([0, 0, 0]),
            NoSpare,
            Take(Four([0, 0, 0])),
            Take(Nothing),
            PostFour([1, 0, 0]),
            NoSpare,
            Take(Four([1, 0, 0])),
            Take(Nothing),
            PostFour([2, 0, 0]),
            NoSpare,
            Take(Four([2, 0, 0])),
            Take(Nothing),
        ],
        &[],
        0,
    ),
    // held buffers are posted
    (
        &[
            Held(Err(PostFault::NoBuffer)),
            PostHeld(0, [1, 2, 0]),
            PostHeld(1, [1, 2, 1]),
            PostHeld(2, [1, 2, 2]),
            PostHeld(3, [1, 2, 3]),
            NoSpare,
            Held(Err(PostFault::NoBuffer)),
            Take(Taking::Post(0, [1, 2, 0])),
            Take(Taking::Post(1, [1, 2, 1])),
            Take(Taking::Post(2, [1, 2, 2])),
            Take(Taking::Post(3, [1, 2, 3])),
            Take(Nothing),
        ],
        &[],
        0,
    ),
    // a held buffer is begun anew
    (
        &[
            Begin(7, LARGEST_IMAGE, 255),
            Begin(7, LARGEST_IMAGE, 255),
            Begin(7, LARGEST_IMAGE, 255),
            Begin(7, LARGEST_IMAGE, 255),
            Begin(7, LARGEST_IMAGE, 255),
            Begin(7, LARGEST_IMAGE, 255),
            Begin(8, 3, 6),
            Held(Ok(())),
            Take(Taking::Post(8, [6, 6, 6])),
        ],
        &[],
        0,
    ),
];

/// Posts come out of a ring as they were posted, in order, also after the sender is dropped. As many as the row says are left
/// then, and no more.
#[test]
fn posts_come_as_they_were_posted(rt: HostRuntime) -> Result<(), Fail> {
    for (number, (steps, takings, left)) in RUNS.iter().enumerate() {
        let (mut sender, mut receiver) = post_ring(rt.alloc())?;
        let are_done = all_done(&mut sender, &mut receiver, *steps);
        drop(sender);
        let are_left = all_come(&mut receiver, *takings)
            && take_what_is_left(&mut receiver) == Some(*left)
            && receiver.take().is_none();
        assert!(rt; are_done && are_left, "run {number}");
    }
    Ok(())
}
