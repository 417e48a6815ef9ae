//! The session: the state of a run between its lines.
ghost use Rattle.std.specs.Prelude.{◌≡◌, ◌<◌, IfErr, IfOk, None, OnErr, OnOk, Some, length};
ghost use Rattle.hc_records.specs.declared.limits.TheConstants.{TASKS};
ghost use Rattle.hc_records.specs.Lists.{lowest};
ghost use Rattle.hc_core.specs.Proposed.{IsProposal};
ghost use Rattle.hc_core.specs.Written.{HoldsWrite};
ghost use Rattle.hc_events.specs.Calls.{MayAnswer, write_into_faults};
ghost use Rattle.hc_events.specs.Steps.{Arrives, Edits, SendsWrite, with_sent};
ghost use Rattle.hc_conductor.specs.Taking.{CountsPosts};
ghost use Rattle.hc_conductor.specs.Mastering.{master_history};
ghost use Rattle.hc_conductor.specs.Viewing.{IsViewAfter};
ghost use Rattle.hc_program.specs.Sessions.{MasterIsAtOpening};
ghost use Rattle.hc_program.specs.Standings.{opened_session_state, session_published, stepped, session_with_history};
ghost use Rattle.hc_program.specs.Takings.{posts_taken, session_taken};

mod machines;
mod posting;

use hc_conductor::one_thread::master::Master;
use hc_conductor::one_thread::refusals::NoEntry;
use hc_conductor::one_thread::viewing::Viewed;
use hc_conductor::taking::Taken;
use hc_core::keeping::Core;
use hc_events::answer::Answer;
use hc_events::faults::CoreFault;
use hc_events::sending::Sending;
use hc_publish::laws::shows_what_is_read;
use hc_records::edit::Edit;
use hc_segment::SimulatedLine;
use std::alloc::{AllocError, Global};
use std::marker::Model;
use std::snapshot::Snapshot;
use std::sync::Wait;

/// The conductor of the project with the seats of its tasks, and the simulated line along which its frames go. It is not
/// `Drop`: end it by `finish`. Contracts see the state of its run.
pub(crate) struct Session {
    master: Master,
    line: SimulatedLine,
    // the core as it was when everything was last published
    seen: Snapshot<Core>,
}

impl Model for Session {
    ghost use Rattle.hc_program.specs.Sessions.{IsSoundSession, session_state_in};
    ghost use Rattle.hc_program.specs.Standings.{SessionState};

    ghost Value = { SessionState };

    ghost view = { session_state_in };

    ghost invariant = { IsSoundSession };
}

impl Session {
    /// Returns a session with a master at its opening and fresh machines. `AllocError` if an allocation fails; then the master
    /// is ended.
    pub(crate) fn begin<R: Wait>(
        rt: &R,
        alloc: Global,
        master: Master,
    ) -> Result<Session, AllocError>
        requires { MasterIsAtOpening master }
        ensures { IfOk result (λ session. session ≡ opened_session_state (master_history master)) }
    {
        match SimulatedLine::opened(alloc, master.core().plan().groups()) {
            Ok(line) => {
                let seen = Snapshot::of(master.core());
                Ok(Session { master, line, seen })
            }
            Err(refused) => {
                master.finish(rt);
                Err(refused)
            }
        }
    }

    /// Returns the core for reading.
    pub(crate) fn core(&self) -> &Core
        ensures { result.now.history ≡ self.now.history }
    {
        self.master.core()
    }

    /// Edits the line. The answer and the record are those of the core's `step`; the machines are unchanged.
    pub(crate) fn edit(&mut self, alloc: Global, edit: &Edit) -> Answer
        ensures answer { MayAnswer self.old.history (Edits edit.now) result self.new.history }
        ensures rest { self.new ≡ session_with_history self.old self.new.history }
    {
        self.master.edit(alloc, edit)
    }

    /// Hands in an arriving frame, any bytes. The answer and the record are those of the core's `step`.
    pub(crate) fn arrive(&mut self, alloc: Global, bytes: &[u8]) -> Answer
        ensures answer { MayAnswer self.old.history (Arrives bytes.now) result self.new.history }
        ensures rest { self.new ≡ session_with_history self.old self.new.history }
    {
        self.master.arrive(alloc, bytes)
    }

    /// Sends the first owed register block, and returns the length of its frame, which is at the front of `out`, or the fault;
    /// then nothing has changed. It allocates nothing.
    pub(crate) fn next_write(&mut self, out: &mut [u8]) -> Result<usize, CoreFault>
        ensures written { IfOk result (HoldsWrite self.old.history out.old out.new) }
        ensures accepted { OnOk result (lowest (write_into_faults self.old.history (length out.old)) ≡ None) }
        ensures next { OnOk result (self.new ≡ stepped self.old SendsWrite) }
        ensures refused { IfErr result (λ fault. lowest (write_into_faults self.old.history (length out.old)) ≡ Some fault) }
        ensures unchanged { OnErr result (self.new ≡ self.old) }
    {
        self.master.next_write(out)
    }

    /// Sends all frames of the present proposal. It allocates nothing.
    pub(crate) fn commit(&mut self, frames: &[Sending])
        requires { IsProposal self.old.history frames.now }
        ensures { self.new ≡ session_with_history self.old (with_sent self.old.history frames.now) }
    {
        self.master.commit(frames);
    }

    /// Hands all posts that wait to the core. It allocates nothing.
    pub(crate) fn take(&mut self) -> Taken
        ensures next { self.new ≡ session_taken self.old }
        ensures counts { CountsPosts self.old.history (posts_taken self.old) result }
    {
        self.master.take()
    }

    /// Views the variable with a number as a task, 0 to 7, in what was published last: the epoch, and the variable's value or
    /// the reason for which the task gets none. The number 0 is no variable's. It allocates nothing. Fails with `NoEntry` if
    /// the task's seat gets no view.
    pub(crate) fn view(&mut self, task: u8, number: u32) -> Result<Viewed, NoEntry>
        requires { task < TASKS }
        ensures viewed { IfOk result (IsViewAfter self.old.seen task number) }
        ensures same { self.new ≡ self.old }
    {
        // the shown state is that of the record that was published last
        shows_what_is_read();
        self.master.view(task, number)
    }

    /// Publishes everything that the core accepted so far, and each seat learns it. `AllocError` if an allocation fails: the
    /// tasks' views are unchanged, and the next publishing continues.
    pub(crate) fn publish<R: Wait>(&mut self, rt: &R, alloc: Global) -> Result<(), AllocError>
        ensures next { OnOk result (self.new ≡ session_published self.old) }
        ensures unchanged { OnErr result (self.new ≡ self.old) }
    {
        self.master.publish(rt, alloc)?;
        // the record is one that events lead to
        let _ = self.master.core().plan();
        self.seen = Snapshot::of(self.master.core());
        Ok(())
    }

    /// Ends the session; it has no other end. Posts that wait are dropped.
    pub(crate) fn finish<R: Wait>(self, rt: &R) {
        let Session {
            master,
            line: _,
            seen: _,
        } = self;
        master.finish(rt);
    }
}
