//! Taking of the tasks' posts.
ghost use Rattle.std.specs.Prelude.{◌≡◌, [], replicate};
ghost use Rattle.hc_records.specs.declared.limits.TheConstants.{TASKS};
ghost use Rattle.hc_events.specs.Steps.{entries_after_all};
ghost use Rattle.hc_conductor.specs.Conducting.{SameChanges};
ghost use Rattle.hc_conductor.specs.Taking.{CountsPosts, events_of_all};
ghost use Rattle.hc_conductor.specs.Mastering.{master_history, waiting};

use crate::one_thread::master::Master;
use crate::taking::Taken;

impl Master {
    /// Takes all posts that wait, and hands each to the core for its epoch: the tasks ascending, each task's posts in order. A
    /// post for another epoch than the present one is refused, and changes nothing. It allocates nothing.
    pub fn take(&mut self) -> Taken
        ensures entries { master_history self.new ≡ entries_after_all (master_history self.old) (events_of_all 0 (waiting self.old)) }
        ensures counts { CountsPosts (master_history self.old) (events_of_all 0 (waiting self.old)) result }
        ensures none { waiting self.new ≡ replicate TASKS [] }
        ensures changes { SameChanges self.old.conductor self.new.conductor }
    {
        self.conductor.take_all_posts(&mut self.seats)
    }
}
