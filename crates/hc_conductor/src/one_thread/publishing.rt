//! Publishing to the tasks of this thread.
ghost use Rattle.std.specs.Prelude.{◌≡◌, OnErr, OnOk};
ghost use Rattle.hc_conductor.specs.Conducting.{PublishesAll};
ghost use Rattle.hc_conductor.specs.Mastering.{master_history, master_shown, waiting};

use crate::one_thread::learning::learn_all;
use crate::one_thread::master::Master;
use std::alloc::{AllocError, Global};
use std::sync::Wait;

impl Master {
    /// Publishes all changes of the core's events so far, and each seat learns them. After `Ok` the published list gives all
    /// updates of the core's record, so the tasks' views show what the core's reads return. `AllocError` if an allocation
    /// fails: what is shown is unchanged, no change is lost or published twice, and the next call continues. It waits for
    /// nobody, since no view lives in this thread.
    pub fn publish<R: Wait>(&mut self, rt: &R, alloc: Global) -> Result<(), AllocError>
        ensures record { master_history self.new ≡ master_history self.old }
        ensures waiting { waiting self.new ≡ waiting self.old }
        ensures publishes { OnOk result (PublishesAll self.new.conductor) }
        ensures unchanged { OnErr result (master_shown self.new ≡ master_shown self.old) }
    {
        self.conductor.publish(rt, alloc)?;
        learn_all(&self.conductor, &mut self.seats);
        Ok(())
    }

    /// Ends the master; it has no other end. It allocates nothing. Waiting posts and changes are dropped.
    pub fn finish<R: Wait>(self, rt: &R) {
        let Master {
            conductor,
            seats: _,
        } = self;
        conductor.finish(rt);
    }
}
