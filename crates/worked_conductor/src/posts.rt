//! Results of a task's posts, sendings and answers with its seat beside them: rows worked out by hand.
use crate::lines::{first_two, opened};
use crate::posting::{Unposted, accepted, post};
use crate::rows::Moment;
use crate::steps::Step::{Come, Lend, Move, Post, Publish, Read, Remap, See, Send, Take, Write};
use crate::steps::{Came, Step, first_wrong};
use hc_conductor::taking::Taken;
use hc_rings::PostFault;
use std::alloc::Global;
use std::sync::Wait;

/// The frame of task 0 with serial 4, to which a byte of 2 was posted.
const SENT: &[u8] =
    b"\xff\xff\xff\xff\xff\xff\x02\0\0\0\0\x04\x88\xa4\x0f\x10\x0c\x04\0\0\0\x01\x03\0\0\0\x02";

/// The answer to the frame of task 0 with serial 4: inputs of 0xa34 and the expected working counter, cut after the counter.
const ANSWER: &[u8] =
    b"\xff\xff\xff\xff\xff\xff\x02\0\0\0\0\x04\x88\xa4\x0f\x10\x0c\x04\0\0\0\x01\x03\0\0\0\x02\x34\x0a\x03\0";

/// The answer to the frame of task 0 with serial 5, with the working counter 2.
const MISCOUNTED: &[u8] =
    b"\xff\xff\xff\xff\xff\xff\x02\0\0\0\0\x05\x88\xa4\x0f\x10\x0c\x05\0\0\0\x01\x03\0\0\0\x02\x55\x05\x02\0";

/// The frame of task 0 with serial 4, before anything was posted.
const BLANK: &[u8] =
    b"\xff\xff\xff\xff\xff\xff\x02\0\0\0\0\x04\x88\xa4\x0f\x10\x0c\x04\0\0\0\x01\x03\0\0\0";

/// The frame of task 1 with serial 6, which carries the byte that was posted to task 0.
const MOVED: &[u8] =
    b"\xff\xff\xff\xff\xff\xff\x02\0\0\0\0\x06\x88\xa4\x0d\x10\x0c\x06\0\0\0\x02\x01\0\0\0\x02";

/// Steps in a row.
const ROWS: [&[Step]; 5] = [
    // a post is sent, its answer is read, and neither a second one nor a wrong one is
    &[
        Write(4),
        Lend(2),
        Post(Ok(())),
        Take(1, 0),
        Send(0, SENT),
        Come(ANSWER, Came::Inputs),
        Come(ANSWER, Came::Stale),
        Publish,
        See(Moment {
            epoch: 0,
            data: Some(b"\x02\x34\x0a"),
            values: &[(2, Ok(2612))],
        }),
        Send(
            0,
            b"\xff\xff\xff\xff\xff\xff\x02\0\0\0\0\x05\x88\xa4\x0f\x10\x0c\x05\0\0\0\x01\x03\0\0\0\x02",
        ),
        Come(MISCOUNTED, Came::WrongCount(3, 2)),
        Read(0, Some(b"\x02\x34\x0a")),
    ],
    // after an edit the answer to what was sent before it is not shown
    &[
        Write(4),
        Remap(1),
        Remap(2),
        Remap(3),
        Send(0, BLANK),
        Remap(4),
        Come(ANSWER, Came::Stale),
        Read(4, None),
        Publish,
        See(Moment {
            epoch: 4,
            data: None,
            values: &[(2, Err(4))],
        }),
    ],
    // a value moves with its variable, and a post for the epoch before is refused
    &[
        Write(4),
        Lend(2),
        Post(Ok(())),
        Take(1, 0),
        Lend(1),
        Move(1, 2, 2),
        Post(Ok(())),
        Take(0, 1),
        Write(2),
        Send(1, MOVED),
    ],
    // outputs keep the epoch for which they were lent, whatever is viewed since
    &[
        Lend(2),
        Remap(1),
        Publish,
        See(Moment {
            epoch: 1,
            data: None,
            values: &[(2, Err(4))],
        }),
        Post(Ok(())),
        Take(0, 1),
        Lend(1),
        Post(Ok(())),
        Take(1, 0),
    ],
    // lent again they are for the epoch then viewed last
    &[
        Post(Err(PostFault::NoBuffer)),
        Lend(2),
        Remap(1),
        Publish,
        See(Moment {
            epoch: 1,
            data: None,
            values: &[],
        }),
        Lend(3),
        Post(Ok(())),
        Post(Err(PostFault::NoBuffer)),
        Take(1, 0),
        Take(0, 0),
    ],
];

/// The number of the first step with another result, from the axis' opening on. The number of steps if there is none.
fn wrong_step<R: Wait>(rt: &R, alloc: Global, steps: &[Step]) -> Option<usize> {
    let Some((mut conductor, seats)) = opened(rt, alloc) else {
        return None;
    };
    let wrong = match first_two(seats) {
        Some((seat, _other)) => Some(first_wrong(rt, alloc, &mut conductor, seat, steps)),
        None => None,
    };
    conductor.finish(rt);
    wrong
}

/// Each step of posts, sendings and answers has the result that was worked out by hand.
#[test]
fn steps_come_as_worked_out(rt: HostRuntime) {
    for steps in ROWS {
        assert_eq!(rt; wrong_step(&rt, rt.alloc(), steps), Some(steps.len()));
    }
}

/// The results of five posts, of taking them, of one more post, and of taking it.
type Five = (
    [Result<(), Unposted>; 5],
    Taken,
    Result<(), Unposted>,
    Taken,
);

/// Posts five times, takes what waits, posts again and takes again; the result of each step from the axis' opening on.
fn five_posts<R: Wait>(rt: &R, alloc: Global) -> Option<Five> {
    let (mut conductor, seats) = opened(rt, alloc)?;
    let Some((mut seat, _other)) = first_two(seats) else {
        conductor.finish(rt);
        return None;
    };
    let first = post(&mut seat, 2);
    let second = post(&mut seat, 2);
    let third = post(&mut seat, 2);
    let fourth = post(&mut seat, 2);
    let fifth = post(&mut seat, 2);
    let taken = conductor.take_posts();
    let again = post(&mut seat, 3);
    let last = conductor.take_posts();
    conductor.finish(rt);
    Some(([first, second, third, fourth, fifth], taken, again, last))
}

/// Of five posts the last one finds no buffer; once they are taken another one does.
#[test]
fn four_posts_wait(rt: HostRuntime) {
    let five = [Ok(()), Ok(()), Ok(()), Ok(()), Err(Unposted::NoSpare)];
    assert_eq!(rt;
        five_posts(&rt, rt.alloc()),
        Some((five, accepted(4), Ok(()), accepted(1)))
    );
}
