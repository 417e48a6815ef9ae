//! Posts: the outputs that tasks set.
ghost use Rattle.std.specs.Prelude.{◌≡◌, ◌∷◌, ◌<◌, ◌==◌, IfErr, None, OnErr, OnOk, Some, length, not};
ghost use Rattle.hc_records.specs.declared.limits.TheConstants.{TASKS};
ghost use Rattle.hc_records.specs.Image.{output_length, task_places};
ghost use Rattle.hc_records.specs.Lists.{lowest};
ghost use Rattle.hc_events.specs.Accepted.{IsPost};
ghost use Rattle.hc_events.specs.Entries.{Posted};
ghost use Rattle.hc_events.specs.Points.{epoch_of, line_of};
ghost use Rattle.hc_events.specs.Steps.{is_stale_epoch, post_faults, post_steady_faults};

use crate::keeping::Core;
use hc_events::faults::CoreFault;
use hc_records::limits::TASKS;
use hc_records::task::Task;

impl Core {
    /// True if there are as many bytes as a task, 0 to 7, has output bytes in the present epoch.
    fn fits_outputs(&self, task: u8, bytes: &[u8]) -> bool
        requires { task < TASKS }
        ensures { result ≡ (length bytes.now == output_length (task_places task (line_of self.now.history))) }
    {
        bytes.len() == usize::from(self.plan.places().part(task).0)
    }

    /// True if an epoch is not the present one.
    fn is_other_epoch(&self, epoch: u32) -> bool
        ensures { result ≡ not (epoch == epoch_of self.now.history) }
    {
        epoch != self.plan().epoch()
    }

    /// True if an epoch is below that of the last edit that changed a task, 0 to 7, or above the present one.
    fn is_stale_epoch(&self, task: u8, epoch: u32) -> bool
        requires { task < TASKS }
        ensures { result ≡ is_stale_epoch self.now.history task epoch }
    {
        epoch < self.task_epoch(task) || epoch > self.plan().epoch()
    }

    /// Records a post that has no fault. Its values are sent from then on.
    fn take_post(&mut self, task: u8, bytes: &[u8])
        requires { IsPost (line_of self.old.history) task bytes.now }
        ensures { self.new ≡ record self.old { history = Posted task bytes.now ∷ self.old.history } }
    {
        self.outputs.post(self.plan.places(), Task(task), bytes);
        self.history = self.history.posted(task, bytes);
    }

    /// A task, 0 to 7, posts its outputs for the present epoch: as many bytes as it has output bytes. Each output variable of
    /// the task has its bits in the bytes as its value from now on. It allocates nothing (this project's profile). It fails with
    /// the first of these that holds, and nothing changes:
    ///
    /// - `NoSuchTask`: the task is over 7.
    /// - `StalePost`: the epoch is not the present one.
    /// - `PostLength`: there are more or fewer bytes than the task has output bytes.
    pub fn post(&mut self, task: u8, epoch: u32, bytes: &[u8]) -> Result<(), CoreFault>
        ensures accepted { OnOk result (lowest (post_faults self.old.history task epoch bytes.now) ≡ None) }
        ensures entries { OnOk result (self.new ≡ record self.old { history = Posted task bytes.now ∷ self.old.history }) }
        ensures refused { IfErr result (λ fault. lowest (post_faults self.old.history task epoch bytes.now) ≡ Some fault) }
        ensures unchanged { OnErr result (self.new ≡ self.old) }
    {
        if task >= TASKS {
            return Err(CoreFault::NoSuchTask);
        }
        if self.is_other_epoch(epoch) {
            return Err(CoreFault::StalePost);
        }
        if !self.fits_outputs(task, bytes) {
            return Err(CoreFault::PostLength);
        }
        self.take_post(task, bytes);
        Ok(())
    }

    /// A task, 0 to 7, posts its outputs for any epoch from the last accepted edit that changed the task to the present one. So
    /// an edit that does not change the task leaves a post valid that was made before the edit. Each output variable of the task
    /// has its bits in the bytes as its value from now on. It allocates nothing (this project's profile). It fails with
    /// the first of these that holds, and nothing changes:
    ///
    /// - `NoSuchTask`: the task is over 7.
    /// - `StalePost`: the epoch is below `task_epoch` of the task, or above the present epoch.
    /// - `PostLength`: there are more or fewer bytes than the task has output bytes.
    pub fn post_steady(&mut self, task: u8, epoch: u32, bytes: &[u8]) -> Result<(), CoreFault>
        ensures accepted { OnOk result (lowest (post_steady_faults self.old.history task epoch bytes.now) ≡ None) }
        ensures entries { OnOk result (self.new ≡ record self.old { history = Posted task bytes.now ∷ self.old.history }) }
        ensures refused { IfErr result (λ fault. lowest (post_steady_faults self.old.history task epoch bytes.now) ≡ Some fault) }
        ensures unchanged { OnErr result (self.new ≡ self.old) }
    {
        if task >= TASKS {
            return Err(CoreFault::NoSuchTask);
        }
        if self.is_stale_epoch(task, epoch) {
            return Err(CoreFault::StalePost);
        }
        if !self.fits_outputs(task, bytes) {
            return Err(CoreFault::PostLength);
        }
        self.take_post(task, bytes);
        Ok(())
    }
}
