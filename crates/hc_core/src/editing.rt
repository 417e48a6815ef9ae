//! Edits: `prepare` works an edit out, and `carry_out` applies it.
ghost use Rattle.std.specs.Prelude.{◌≡◌, ◌≢◌, ◌∷◌, IfErr, IfOk, IfSome, Err, Ok, OnErr, OnOk};
ghost use Rattle.hc_records.specs.declared.faults.EditFault.TheVariants.{Memory};
ghost use Rattle.hc_records.specs.Edits.{edited, state_after};
ghost use Rattle.hc_groups.specs.Edits.{own_fault};
ghost use Rattle.hc_events.specs.declared.answer.Answer.TheVariants as answer;
ghost use Rattle.hc_events.specs.Entries.{Edited};
ghost use Rattle.hc_events.specs.Points.{state_of};
ghost use Rattle.hc_events.specs.Ready.{waiting_after};
ghost use Rattle.hc_events.specs.Steps.{edit_answer};
ghost use Rattle.hc_core.specs.Prepared.{CanBeCarriedOut};

use crate::changed::{changed_tasks, empty_tasks, raise_epochs};
use crate::declaring::{follow, foretell};
use crate::keeping::Core;
use crate::prepared::{CoreEdit, PlannedEdit, add_swap, edit_memory};
use hc_events::answer::Answer;
use hc_owed::task_set::TaskSet;
use hc_plan::report::Report;
use hc_records::edit::Edit;
use hc_records::faults::EditFault;
use std::alloc::Global;
use std::snapshot::Snapshot;

/// Returns the answer to an accepted edit, with the epoch, `recut` and `moved` of its report.
fn judged_answer(report: &Report) -> Answer
    ensures { result ≡ answer.Edited report.now.epoch report.now.recut report.now.moved }
{
    Answer::Edited {
        epoch: report.epoch,
        recut: report.recut,
        moved: report.moved,
    }
}

impl Core {
    /// Works an edit out for the core as it is; nothing changes. The result tells the edit's cost and the tasks that will wait.
    /// `carry_out` applies it, as long as nothing else was accepted and no change was taken. All memory of the edit is
    /// allocated here. Fails with the lowest fault whose condition holds, or with `Memory` if an allocation fails. A fault that
    /// the edit has by itself, one of 1 to 11, is reported even if memory is short.
    pub fn prepare(&mut self, alloc: Global, edit: &Edit) -> Result<CoreEdit, EditFault>
        ensures made { IfOk result (λ core_edit. core_edit.core ≡ self.old) }
        ensures edit { IfOk result (λ core_edit. core_edit.edit.report.swap.edit ≡ edit.now) }
        ensures accepted { OnOk result (edited (state_of self.old.history) edit.now ≡ Ok (state_after (state_of self.old.history) edit.now)) }
        ensures refused { IfErr result (λ fault. fault ≢ Memory → edited (state_of self.old.history) edit.now ≡ Err fault) }
        ensures own { IfSome (own_fault (state_of self.old.history).groups edit.now) (λ fault. result ≡ Err fault) }
        ensures unchanged { self.new ≡ self.old }
    {
        let planned = self.plan_edit(alloc, edit)?;
        let waiting = self.will_wait(&planned);
        let core = Snapshot::of(&*self);
        Ok(CoreEdit {
            planned,
            will_wait: waiting.bits(),
            core,
        })
    }

    /// Carries out an edit that was prepared for the core as it is. A new epoch begins: no frame is awaited, and no datagram
    /// has data of the epoch. The tasks that the edit changes have no steady data; every other task keeps its own. Output
    /// variables that keep a place keep their values, and every other value is 0. The blocks that it moved are owed unless
    /// their slaves are known to have their bytes, and no slave of a declared group is in the line. It cannot fail, and it
    /// allocates nothing.
    pub fn carry_out(&mut self, core_edit: CoreEdit) -> Answer
        requires { core_edit.core ≡ self.old }
        ensures answer { result ≡ edit_answer (state_of self.old.history) (state_after (state_of self.old.history) core_edit.edit.report.swap.edit) }
        ensures entries { self.new ≡ record self.old { history = Edited core_edit.edit.report.swap.edit ∷ self.old.history } }
    {
        let CoreEdit {
            planned,
            will_wait: _,
            core: _,
        } = core_edit;
        self.carry(planned)
    }

    /// Plans an edit and carries it out. Fails with the lowest fault whose condition holds, or with `Memory` if an allocation
    /// fails; nothing has changed then. A fault that the edit has by itself, one of 1 to 11, is reported even if memory is
    /// short. The tasks that will wait are not computed, since no caller of it asks for them.
    pub(crate) fn edit(&mut self, alloc: Global, edit: &Edit) -> Result<Answer, EditFault>
        ensures answer { IfOk result (λ returned. returned ≡ edit_answer (state_of self.old.history) (state_after (state_of self.old.history) edit.now)) }
        ensures accepted { OnOk result (edited (state_of self.old.history) edit.now ≡ Ok (state_after (state_of self.old.history) edit.now)) }
        ensures refused { IfErr result (λ fault. fault ≢ Memory → edited (state_of self.old.history) edit.now ≡ Err fault) }
        ensures own { IfSome (own_fault (state_of self.old.history).groups edit.now) (λ fault. result ≡ Err fault) }
        ensures entries { OnOk result (self.new ≡ record self.old { history = Edited edit.now ∷ self.old.history }) }
        ensures unchanged { OnErr result (self.new ≡ self.old) }
    {
        let planned = self.plan_edit(alloc, edit)?;
        Ok(self.carry(planned))
    }

    /// Plans an edit of the core as it is, with all memory for carrying it out; nothing changes. Fails with the lowest fault
    /// whose condition holds, or with `Memory` if an allocation fails. A fault that the edit has by itself, one of 1 to 11, is
    /// reported even if memory is short.
    fn plan_edit(&mut self, alloc: Global, edit: &Edit) -> Result<PlannedEdit, EditFault>
        ensures planned { IfOk result (CanBeCarriedOut self.old) }
        ensures edit { IfOk result (λ planned. planned.edit.report.swap.edit ≡ edit.now) }
        ensures accepted { OnOk result (edited (state_of self.old.history) edit.now ≡ Ok (state_after (state_of self.old.history) edit.now)) }
        ensures refused { IfErr result (λ fault. fault ≢ Memory → edited (state_of self.old.history) edit.now ≡ Err fault) }
        ensures own { IfSome (own_fault (state_of self.old.history).groups edit.now) (λ fault. result ≡ Err fault) }
        ensures unchanged { self.new ≡ self.old }
    {
        let prepared = self.plan.prepare(alloc, edit)?;
        let (moves, slaves, room) = edit_memory(
            alloc,
            self.plan.places(),
            &self.owed,
            &self.readiness,
            &self.changes,
            edit,
            &prepared.report().swap,
        )?;
        Ok(PlannedEdit {
            edit: prepared,
            moves,
            slaves,
            room,
        })
    }

    /// The tasks that will wait once a planned edit is carried out and each slave that came with it is cleared.
    fn will_wait(&self, planned: &PlannedEdit) -> TaskSet
        requires { CanBeCarriedOut self.now planned.now }
        ensures { result.bits ≡ waiting_after self.now.history planned.now.edit.report.swap.edit }
    {
        foretell(&self.owed, &self.readiness, &planned.edit, &planned.slaves)
    }

    /// Carries an edit out that was planned for the core as it is.
    fn carry(&mut self, planned: PlannedEdit) -> Answer
        requires { CanBeCarriedOut self.old planned }
        ensures answer { result ≡ edit_answer (state_of self.old.history) (state_after (state_of self.old.history) planned.edit.report.swap.edit) }
        ensures entries { self.new ≡ record self.old { history = Edited planned.edit.report.swap.edit ∷ self.old.history } }
    {
        let PlannedEdit {
            edit,
            moves,
            slaves,
            room,
        } = planned;
        self.awaited.clear();
        let blocks = follow(&mut self.owed, &mut self.readiness, &edit, slaves);
        let changed = changed_tasks(self.plan.places(), &edit, blocks);
        empty_tasks(&mut self.inputs, &mut self.ages, changed);
        self.outputs.change(moves, &edit.report().swap);
        let report = self.plan.carry_out(edit);
        raise_epochs(&mut self.epochs, report.epoch, changed);
        let returned = judged_answer(&report);
        self.history = self.history.edited(report.swap.edit());
        add_swap(&mut self.changes, room, report.swap);
        returned
    }
}
