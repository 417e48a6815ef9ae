//! The ready tasks, and the slaves that hold up the others.
ghost use Rattle.std.specs.Prelude.{◌≡◌, ◌<◌};
ghost use Rattle.hc_records.specs.declared.limits.TheConstants.{TASKS};
ghost use Rattle.hc_events.specs.Ready.{held_by, ready_mask};

use crate::keeping::Core;

impl Core {
    /// Returns the ready tasks as a number: bit t is 1 if task t is ready, so that `send_ready_into` does not refuse it for
    /// waiting. It takes the time of eight tasks, and allocates nothing (this project's profile).
    pub fn ready(&self) -> u8
        ensures { result ≡ ready_mask self.now.history }
    {
        self.readiness.ready().bits()
    }

    /// Returns the station address of the slave with an index, from 0, among those that hold up a task, 0 to 7. First come the
    /// slaves of the line that have an owed register block which concerns the task, in line order. After them come the slaves
    /// outside the line with a register that may name it, in declared order, except those off the wire. `None` if they are
    /// fewer: a ready task has none. It takes the time of the declared slaves, and allocates nothing (this project's profile).
    pub fn held_by(&self, task: u8, n: u32) -> Option<u16>
        requires { task < TASKS }
        ensures { result ≡ held_by self.now.history task n }
    {
        let index = self.readiness.held_by(task, n)?;
        self.owed.station(usize::from(index))
    }
}
