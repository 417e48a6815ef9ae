//! Places of new seats among the owner's ends.
ghost use Rattle.std.specs.Prelude.{◌≡◌, ◌<◌, ◌∷◌, [], IfOk, None, Some, length, set, slice_index_or};
ghost use Rattle.hc_records.specs.declared.limits.TheConstants.{TASKS};
ghost use Rattle.hc_mail.specs.declared.image.LineState.TheVariants.{Replaced};
ghost use Rattle.hc_c.specs.SeatImages.{ShowsEnd, ShowsLookers};
ghost use Rattle.hc_c.specs.Seats.{no_seats};

use crate::seat::ends::{OwnerEnd, OwnerEnds};
use crate::seat::lookers::{LookerEnd, Lookers};
use crate::seat::showing::{show_end, show_looker};
use hc_core::keeping::Core;
use hc_mail::image::LineState;
use std::alloc::{AllocError, Global};
use std::mem;

impl OwnerEnds {
    /// Returns no seats, and `lookers` numbers for seats that only look. `AllocError` if an allocation fails.
    pub fn new(alloc: Global, lookers: u32) -> Result<OwnerEnds, AllocError>
        ensures { IfOk result (λ ends. ends ≡ no_seats lookers) }
    {
        Ok(OwnerEnds {
            by_task: [None, None, None, None, None, None, None, None],
            used: 0,
            lookers: Lookers::new(alloc, lookers)?,
        })
    }

    /// Places an end as that of a task's seat, and returns the one that it replaces. The replaced seat is shown a last image,
    /// which says so. The task's last sending begins with the serial `first`.
    pub fn place(&mut self, core: &Core, task: u8, first: u64, owner: OwnerEnd) -> Option<OwnerEnd>
        requires { task < TASKS }
        ensures placed { self.new.by_task ≡ set self.old.by_task task (Some owner) }
        ensures lookers { self.new.lookers ≡ self.old.lookers }
        ensures shown { ShowsEnd core.now.history task first Replaced (slice_index_or self.old.by_task task None) result }
    {
        self.used = self.used.max(task + 1);
        let mut was = mem::replace(&mut self.by_task[usize::from(task)], Some(owner));
        if let Some(end) = &mut was {
            show_end(core, task, first, LineState::Replaced, end);
        }
        was
    }

    /// Places an end of a seat that only looks at a number, and returns the one that it replaces. The replaced seat is shown a
    /// last image, which says so.
    pub fn place_looker(
        &mut self,
        core: &Core,
        sent_from: &[u64; 8],
        number: usize,
        owner: LookerEnd,
    ) -> Option<LookerEnd>
        requires { number < length self.old.lookers }
        ensures placed { self.new.lookers ≡ set self.old.lookers number (Some owner) }
        ensures seats { self.new.by_task ≡ self.old.by_task }
        ensures shown { ShowsLookers core.now.history sent_from.now Replaced (slice_index_or self.old.lookers number None ∷ []) (result ∷ []) }
    {
        self.lookers.place(core, sent_from, number, owner)
    }
}

impl Lookers {
    /// Places an end at a number, and returns the one that it replaces. The replaced seat is shown a last image, which says so.
    pub fn place(
        &mut self,
        core: &Core,
        sent_from: &[u64; 8],
        number: usize,
        owner: LookerEnd,
    ) -> Option<LookerEnd>
        requires { number < length self.old }
        ensures placed { self.new ≡ set self.old number (Some owner) }
        ensures shown { ShowsLookers core.now.history sent_from.now Replaced (slice_index_or self.old number None ∷ []) (result ∷ []) }
    {
        let mut was = mem::replace(&mut self.ends[number], Some(owner));
        if let Some(end) = &mut was {
            show_looker(core, sent_from, LineState::Replaced, end);
        }
        was
    }

    /// Returns how many numbers there are for seats that only look.
    pub fn count(&self) -> usize
        ensures { result ≡ length self.now }
    {
        self.ends.len()
    }
}
