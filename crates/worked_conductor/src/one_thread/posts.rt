//! Results of posts in one thread: rows worked out by hand.
use crate::one_thread::steps::Step::{Exchange, Post, Publish, Remap, Take, Write};
use crate::one_thread::steps::{Step, wrong_step};
use hc_conductor::one_thread::refusals::PostRefusal::{
    IsInput, NoSpare, NoSuchVariable, OtherTask, TooWide,
};
use hc_conductor::one_thread::settings::Setting;

/// The 2 output bits of the axis, and one value that is too wide for them.
const ZERO: Setting = Setting {
    variable: 1,
    value: 0,
};

const ONE: Setting = Setting {
    variable: 1,
    value: 1,
};

const TWO: Setting = Setting {
    variable: 1,
    value: 2,
};

const THREE: Setting = Setting {
    variable: 1,
    value: 3,
};

const FOUR: Setting = Setting {
    variable: 1,
    value: 4,
};

/// The axis' input, one value that is too wide for it, and two numbers that are no variable's.
const INPUT: Setting = Setting {
    variable: 2,
    value: 1,
};

const WIDE_INPUT: Setting = Setting {
    variable: 2,
    value: 4096,
};

const UNKNOWN: Setting = Setting {
    variable: 9,
    value: 1,
};

const BLANK: Setting = Setting {
    variable: 0,
    value: 1,
};

/// Steps in a row.
const ROWS: [&[Step]; 6] = [
    // four posts wait, and no fifth one
    &[
        Post(0, &[TWO], Ok(())),
        Post(0, &[TWO], Ok(())),
        Post(0, &[TWO], Ok(())),
        Post(0, &[TWO], Ok(())),
        Post(0, &[TWO], Err(NoSpare)),
        Take(4, 0),
        Post(0, &[FOUR], Err(TooWide)),
        Post(0, &[INPUT], Err(IsInput)),
        Post(1, &[ZERO], Err(OtherTask)),
        Post(0, &[THREE], Ok(())),
        Take(1, 0),
        Take(0, 0),
    ],
    // a post is for the epoch that is shown
    &[
        Post(0, &[TWO], Ok(())),
        Remap(1),
        Post(0, &[TWO], Ok(())),
        Publish,
        Take(0, 2),
        Post(0, &[TWO], Ok(())),
        Take(1, 0),
    ],
    // of several refusals of one value the first, and of several values the first that is refused
    &[
        Post(0, &[UNKNOWN, FOUR], Err(NoSuchVariable)),
        Post(0, &[FOUR, UNKNOWN], Err(TooWide)),
        Post(0, &[TWO, BLANK], Err(NoSuchVariable)),
        Post(0, &[WIDE_INPUT], Err(IsInput)),
        Post(1, &[INPUT], Err(IsInput)),
        Post(1, &[FOUR], Err(OtherTask)),
        Take(0, 0),
    ],
    // a refused value is answered before a missing buffer, and takes none
    &[
        Post(0, &[FOUR], Err(TooWide)),
        Post(0, &[], Ok(())),
        Post(0, &[], Ok(())),
        Post(0, &[FOUR], Err(TooWide)),
        Post(0, &[], Ok(())),
        Post(0, &[], Ok(())),
        Post(0, &[FOUR], Err(TooWide)),
        Post(0, &[], Err(NoSpare)),
        Post(7, &[], Ok(())),
        Take(5, 0),
    ],
    // of a variable that is named twice the last value is posted, and each is judged
    &[
        Write(4),
        Post(0, &[ONE, TWO], Ok(())),
        Take(1, 0),
        Exchange(2),
        Post(0, &[THREE, ONE], Ok(())),
        Take(1, 0),
        Exchange(1),
        Post(0, &[FOUR, ONE], Err(TooWide)),
        Take(0, 0),
        Exchange(1),
    ],
    // posts are taken in order, and an output that is not named is 0
    &[
        Write(4),
        Post(0, &[THREE], Ok(())),
        Post(0, &[TWO], Ok(())),
        Exchange(0),
        Take(2, 0),
        Exchange(2),
        Post(0, &[], Ok(())),
        Take(1, 0),
        Exchange(0),
    ],
];

/// Each post in one thread has the result that was worked out by hand.
#[test]
fn posts_come_as_worked_out(rt: HostRuntime) {
    for steps in ROWS {
        assert_eq!(rt; wrong_step(&rt, rt.alloc(), steps), Some(steps.len()));
    }
}
