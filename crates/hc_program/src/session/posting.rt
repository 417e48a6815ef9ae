//! Posts of tasks in a run.
ghost use Rattle.std.specs.Prelude.{◌≡◌, ◌≢◌, ◌<◌, IfErr, None, OnErr, OnOk, Some};
ghost use Rattle.hc_records.specs.declared.limits.TheConstants.{TASKS};
ghost use Rattle.hc_conductor.specs.declared.one_thread.refusals.PostRefusal.TheVariants as why;
ghost use Rattle.hc_program.specs.Postings.{post_judged, with_posted};

use super::Session;
use hc_conductor::one_thread::refusals::PostRefusal;
use hc_events::laws::changes_show_all;
use hc_records::setting::Setting;
use std::alloc::Global;

impl Session {
    /// Posts values for output variables of a task, 0 to 7, at their places in what was published last and for its epoch. Fails
    /// with one of these; then nothing is posted:
    ///
    /// - The reason of the first value that is refused; otherwise `NoSpare` if four posts of the task wait.
    /// - `NoEntry`: the task's seat gets no view.
    /// - `Memory`: an allocation failed.
    pub(crate) fn post(
        &mut self,
        alloc: Global,
        task: u8,
        settings: &[Setting],
    ) -> Result<(), PostRefusal>
        requires { task < TASKS }
        ensures next { OnOk result (self.new ≡ with_posted self.old task settings.now) }
        ensures accepted { OnOk result (post_judged self.old task settings.now ≡ None) }
        ensures refused { IfErr result (λ refusal. refusal ≢ why.NoEntry → refusal ≢ why.Memory → post_judged self.old task settings.now ≡ Some refusal) }
        ensures unchanged { OnErr result (self.new ≡ self.old) }
    {
        // the shown state is the table of the line that was published last
        changes_show_all();
        self.master.post(alloc, task, settings)
    }
}
