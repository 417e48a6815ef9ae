//! Results of views and publishings in one thread: rows worked out by hand.
use crate::one_thread::steps::Step::{
    Exchange, ExchangeReady, Forget, Publish, Remap, Take, View, Wait, Write,
};
use crate::one_thread::steps::{Step, wrong_step};

/// Steps in a row.
const ROWS: [&[Step]; 4] = [
    // a view shows what was published last
    &[
        View(0, 2, 0, Err(4)),
        View(0, 1, 0, Err(2)),
        View(0, 9, 0, Err(1)),
        View(0, 0, 0, Err(1)),
        View(1, 2, 0, Err(3)),
        Write(4),
        Take(0, 0),
        Exchange(0),
        View(0, 2, 0, Err(4)),
        Publish,
        View(0, 2, 0, Ok(2612)),
        View(7, 2, 0, Err(3)),
        Publish,
        View(0, 2, 0, Ok(2612)),
    ],
    // an edit is shown from the next publishing on, and nothing is answered in its epoch yet
    &[
        Write(4),
        Exchange(0),
        Publish,
        Remap(1),
        View(0, 2, 0, Ok(2612)),
        Publish,
        View(0, 2, 1, Err(4)),
        Exchange(0),
        View(0, 2, 1, Err(4)),
        Publish,
        View(0, 2, 1, Ok(2612)),
    ],
    // a slave that is forgotten is written again; nothing of it is shown, and its task goes on in its epoch
    &[
        Write(4),
        Exchange(0),
        Publish,
        Forget,
        Publish,
        View(0, 2, 0, Ok(2612)),
        Write(4),
        Exchange(0),
        Publish,
        View(0, 2, 0, Ok(2612)),
    ],
    // as a ready task, task 0 waits for the axis' four blocks until they are written
    &[
        Wait(4),
        Write(4),
        ExchangeReady(0),
        Publish,
        View(0, 2, 0, Ok(2612)),
        Forget,
        Wait(4),
        Write(4),
        ExchangeReady(0),
        Publish,
        View(0, 2, 0, Ok(2612)),
    ],
];

/// Each view and publishing in one thread has the result that was worked out by hand.
#[test]
fn steps_come_as_worked_out(rt: HostRuntime) {
    for steps in ROWS {
        assert_eq!(rt; wrong_step(&rt, rt.alloc(), steps), Some(steps.len()));
    }
}
