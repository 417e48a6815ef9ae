//! The owner's ends of the seats that only look, by their numbers.
ghost use Rattle.std.specs.Prelude.{◌≡◌, ◌<◌, IfOk, None, replicate};
ghost use Rattle.hc_records.specs.declared.limits.TheConstants.{TASKS};
ghost use Rattle.hc_c.specs.SeatRoom.{image_room};

use hc_mail::image::TaskImage;
use hc_mail::sender::Sender;
use std::alloc::{AllocError, Global};
use std::marker::Model;

/// The owner's end of a seat that only looks: it sends the images of a task.
#[derive(Drop)]
pub struct LookerEnd {
    pub images: Sender<TaskImage>,
    pub task: u8,
    ghost shows_images: { images.own.room ≡ image_room },
    ghost of_task: { task < TASKS },
}

/// The ends by their numbers, as many as the line was opened with. A number without a seat has none. Contracts see the list.
#[derive(Drop)]
pub struct Lookers {
    pub(crate) ends: Vec<Option<LookerEnd>>,
}

impl Model for Lookers {
    ghost use Rattle.std.specs.Prelude.{List, Option};
    ghost use Rattle.hc_c.specs.declared.seat.lookers.LookerEnd.{LookerEnd};

    ghost Value = { List (Option LookerEnd) };

    ghost view = { λ lookers. lookers.ends.items };
}

impl Lookers {
    /// Returns `count` numbers without a seat. `AllocError` if an allocation fails.
    pub fn new(alloc: Global, count: u32) -> Result<Lookers, AllocError>
        ensures { IfOk result (λ lookers. lookers ≡ replicate count None) }
    {
        let mut ends = Vec::with_capacity(alloc, count as usize)?;
        for _ in 0..count {
            ends.push(None)?;
        }
        Ok(Lookers { ends })
    }
}
