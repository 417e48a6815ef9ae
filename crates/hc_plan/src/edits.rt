//! The edits of a plan: each is worked out before anything changes, and then carried out.
ghost use Rattle.std.specs.Prelude.{◌≡◌, false, MatchOption};
ghost use Rattle.hc_records.specs.declared.edit.Edit.TheVariants.{Declare};
ghost use Rattle.hc_records.specs.Edits.{declares};

use crate::applying::work_out;
use crate::bitless::moves_no_bits;
use crate::declaring::{Declaration, declared_report};
use crate::line_widths::apply_known_widths;
use crate::plan::Plan;
use crate::prepared::{PreparedEdit, gone_with};
use crate::report::Report;
use crate::work::{LineWork, Work};
use hc_changes::edited_line::EditedLine;
use hc_groups::prepared::Prepared;
use hc_records::edit::Edit;
use hc_records::faults::EditFault;
use hc_records::limits::LAST_EPOCH;
use hc_records::records::Group;
use hc_registers::ranked::RankedBlock;
use std::alloc::{AllocError, Global};
use std::marker::Brand;
use std::snapshot::Snapshot;
use std::sync::ledger::Blank;

/// Returns the group that an edit declares, or none.
fn declared_group(edit: &Edit) -> Option<&Group>
    ensures { MatchOption result (declares edit.now ≡ false) (λ group. edit.now ≡ Declare group.now) }
{
    match edit {
        Edit::Declare(group) => Some(group),
        Edit::Connect(_) | Edit::Disconnect(_) | Edit::Remap { .. } | Edit::Move { .. } => None,
    }
}

impl Plan {
    ghost use Rattle.std.specs.Prelude.{◌≡◌, ◌≢◌, false, Err, IfErr, IfOk, IfSome, Ok, OnErr, OnOk, length};
    ghost use Rattle.hc_records.specs.declared.faults.EditFault.TheVariants.{Memory};
    ghost use Rattle.std.specs.List.{zip};
    ghost use Rattle.hc_records.specs.declared.edit.Edit.TheVariants.{Declare};
    ghost use Rattle.hc_records.specs.Edits.{declares, edited, state_after_all};
    ghost use Rattle.hc_groups.specs.Edits.{own_fault};
    ghost use Rattle.hc_groups.specs.Changes.{changed_groups};
    ghost use Rattle.hc_plan.specs.declared.work.Work.TheVariants.{NewLine, NewTask};
    ghost use Rattle.hc_plan.specs.inner.Prepared.{CanCarry, MovesNoBits, groups_left_by};
    ghost use Rattle.hc_plan.specs.Prepared.{IsPrepared};
    ghost use Rattle.hc_plan.specs.Reports.{AreAnswers, ReportsEdit, carried_out};

    /// Works out the effect of an edit on the plan, and allocates the memory for carrying it out; the plan is as it was. Fails
    /// with the lowest fault whose condition holds, or with `Memory` if an allocation fails. A fault that the edit has by
    /// itself, one of 1 to 11, is judged before the first allocation.
    pub fn prepare(&mut self, alloc: Global, edit: &Edit) -> Result<PreparedEdit, EditFault>
        ensures made { IfOk result (λ prepared. prepared.old ≡ self.old) }
        ensures edit { IfOk result (λ prepared. prepared.report.swap.edit ≡ edit.now) }
        ensures accepted { IfOk result (λ prepared. edited self.old edit.now ≡ Ok prepared.new) }
        ensures prepared { IfOk result IsPrepared }
        ensures refused { IfErr result (λ fault. fault ≢ Memory → edited self.old edit.now ≡ Err fault) }
        ensures own { IfSome (own_fault self.old.groups edit.now) (λ fault. result ≡ Err fault) }
        ensures unchanged { self.new ≡ self.old }
    {
        match declared_group(edit) {
            Some(group) => self.prepare_group(alloc, edit, group),
            None if moves_no_bits(&self.indexed(), edit) => self.prepare_task(alloc, edit),
            None => self.prepare_change(alloc, edit),
        }
    }

    /// Prepares an edit that moves an area without bits: the line stays configured as it is, so no tree is turned.
    fn prepare_task(&self, alloc: Global, edit: &Edit) -> Result<PreparedEdit, EditFault>
        requires { MovesNoBits self.now.groups edit.now }
        ensures made { IfOk result (λ prepared. prepared.old ≡ self.now) }
        ensures edit { IfOk result (λ prepared. prepared.report.swap.edit ≡ edit.now) }
        ensures accepted { IfOk result (λ prepared. edited self.now edit.now ≡ Ok prepared.new) }
        ensures prepared { IfOk result IsPrepared }
        ensures refused { IfErr result (λ fault. fault ≢ Memory → edited self.now edit.now ≡ Err fault) }
        ensures own { IfSome (own_fault self.now.groups edit.now) (λ fault. result ≡ Err fault) }
    {
        let groups = self.index.of(self.groups.as_slice());
        let change = Prepared::of(alloc, &groups, edit)?;
        if self.epoch == LAST_EPOCH {
            return Err(EditFault::EpochsSpent);
        }
        let report = declared_report(alloc, edit, self.groups.as_slice(), self.epoch)?;
        let was = Snapshot::of(self);
        Ok(PreparedEdit {
            was,
            report,
            blocks: Vec::new(alloc),
            work: Work::NewTask(change),
        })
    }

    /// Prepares an edit that declares a group: the line stays as it is, so no tree is turned.
    fn prepare_group(
        &self,
        alloc: Global,
        edit: &Edit,
        group: &Group,
    ) -> Result<PreparedEdit, EditFault>
        requires { edit.now ≡ Declare group.now }
        ensures made { IfOk result (λ prepared. prepared.old ≡ self.now) }
        ensures edit { IfOk result (λ prepared. prepared.report.swap.edit ≡ edit.now) }
        ensures accepted { IfOk result (λ prepared. edited self.now edit.now ≡ Ok prepared.new) }
        ensures prepared { IfOk result IsPrepared }
        ensures refused { IfErr result (λ fault. fault ≢ Memory → edited self.now edit.now ≡ Err fault) }
        ensures own { IfSome (own_fault self.now.groups edit.now) (λ fault. result ≡ Err fault) }
    {
        if self.epoch == LAST_EPOCH {
            return Err(EditFault::EpochsSpent);
        }
        let declaration = Declaration::of(
            alloc,
            &self.groups,
            &self.index,
            &self.cuts,
            &self.blocks,
            group,
        )?;
        let report = declared_report(alloc, edit, self.groups.as_slice(), self.epoch)?;
        let was = Snapshot::of(self);
        Ok(PreparedEdit {
            was,
            report,
            blocks: Vec::new(alloc),
            work: Work::NewGroup(declaration),
        })
    }

    /// Prepares an edit that declares no group. The trees of the line's tasks are turned to the new line and back.
    fn prepare_change(&mut self, alloc: Global, edit: &Edit) -> Result<PreparedEdit, EditFault>
        requires { declares edit.now ≡ false }
        ensures made { IfOk result (λ prepared. prepared.old ≡ self.old) }
        ensures edit { IfOk result (λ prepared. prepared.report.swap.edit ≡ edit.now) }
        ensures accepted { IfOk result (λ prepared. edited self.old edit.now ≡ Ok prepared.new) }
        ensures prepared { IfOk result IsPrepared }
        ensures refused { IfErr result (λ fault. fault ≢ Memory → edited self.old edit.now ≡ Err fault) }
        ensures own { IfSome (own_fault self.old.groups edit.now) (λ fault. result ≡ Err fault) }
        ensures unchanged { self.new ≡ self.old }
    {
        let groups = self.index.of(self.groups.as_slice());
        let change = Prepared::of(alloc, &groups, edit)?;
        let edited_line = EditedLine::of(&groups, &change);
        let worked = work_out::<Brand>(
            alloc,
            edit,
            &edited_line,
            self.epoch,
            &mut self.cuts,
            &self.places,
            &self.blocks,
            Blank::new(1),
        )?;
        drop(edited_line);
        drop(groups);
        Ok(PreparedEdit {
            was: Snapshot::of(&*self),
            report: worked.report,
            blocks: worked.blocks,
            work: Work::NewLine(LineWork {
                change,
                starts: worked.starts,
                rows: worked.room,
            }),
        })
    }

    /// Carries out a prepared edit in the plan that it was worked out on, which has not changed since. The plan then has the new
    /// line, and the returned report has the differences. It cannot fail, and it allocates nothing.
    pub fn carry_out(&mut self, prepared: PreparedEdit) -> Report
        requires { prepared.old ≡ self.old }
        ensures plan { self.new ≡ prepared.new }
        ensures report { result ≡ prepared.report }
    {
        let PreparedEdit {
            was: _,
            report,
            blocks,
            work,
        } = prepared;
        self.carry_work(work, &report, blocks.as_slice());
        self.epoch = report.epoch;
        report
    }

    /// Carries out the work of a prepared edit; the epoch stays.
    fn carry_work(&mut self, work: Work, report: &Report, blocks: &[RankedBlock])
        requires { CanCarry self.old report.now work blocks.now }
        ensures { self.new ≡ record self.old { groups = groups_left_by work self.old.groups } }
    {
        match work {
            Work::NewLine(line) => self.change_line(line, report, blocks),
            Work::NewTask(change) => self.change_task(change, report, blocks),
            Work::NewGroup(declaration) => declaration.carry_out(
                &mut self.groups,
                &mut self.index,
                &mut self.cuts,
                &mut self.blocks,
            ),
        }
    }

    /// Carries out an edit that changes the line; the epoch stays.
    fn change_line(&mut self, work: LineWork, report: &Report, blocks: &[RankedBlock])
        requires { CanCarry self.old report.now (NewLine work) blocks.now }
        ensures { self.new ≡ record self.old { groups = changed_groups work.change self.old.groups } }
    {
        let LineWork {
            change,
            starts,
            rows,
        } = work;
        let groups = self.index.of(self.groups.as_slice());
        let edited_line = EditedLine::of(&groups, &change);
        apply_known_widths(&mut self.cuts, &edited_line, &starts);
        drop(edited_line);
        drop(groups);
        self.blocks.change(gone_with(&change), blocks);
        self.index.follow(self.groups.as_slice(), &change);
        change.carry_out(&mut self.groups);
        self.places.carry_out(&report.swap, rows);
    }

    /// Carries out an edit that leaves the line configured as it is; the epoch stays.
    fn change_task(&mut self, change: Prepared, report: &Report, blocks: &[RankedBlock])
        requires { CanCarry self.old report.now (NewTask change) blocks.now }
        ensures { self.new ≡ record self.old { groups = changed_groups change self.old.groups } }
    {
        self.blocks.change(gone_with(&change), blocks);
        self.index.follow(self.groups.as_slice(), &change);
        change.carry_out(&mut self.groups);
    }

    /// Carries out an edit: the plan then has the new line, and the returned report has the differences. Fails with the lowest
    /// fault whose condition holds, or with `Memory` if an allocation fails; the plan is then as it was. A fault that the edit
    /// has by itself, one of 1 to 11, is judged before the first allocation.
    pub fn apply(&mut self, alloc: Global, edit: &Edit) -> Result<Report, EditFault>
        ensures accepted { OnOk result (edited self.old edit.now ≡ Ok self.new) }
        ensures report { IfOk result (ReportsEdit self.old edit.now self.new) }
        ensures refused { IfErr result (λ fault. fault ≢ Memory → edited self.old edit.now ≡ Err fault) }
        ensures own { IfSome (own_fault self.old.groups edit.now) (λ fault. result ≡ Err fault) }
        ensures unchanged { OnErr result (self.new ≡ self.old) }
    {
        let prepared = self.prepare(alloc, edit)?;
        Ok(self.carry_out(prepared))
    }

    /// Carries out edits in their order, as `apply` does each, and returns their results. The list of results is allocated
    /// first: after `AllocError` no edit was carried out, and the plan is as it was.
    pub fn run(
        &mut self,
        alloc: Global,
        edits: &[Edit],
    ) -> Result<Vec<Result<Report, EditFault>>, AllocError>
        ensures count { IfOk result (λ answers. length answers.items ≡ length edits.now) }
        ensures answers { IfOk result (λ answers. AreAnswers self.old (zip edits.now answers.items) self.new) }
        ensures state { IfOk result (λ answers. self.new ≡ state_after_all self.old (carried_out (zip edits.now answers.items))) }
        ensures unchanged { OnErr result (self.new ≡ self.old) }
    {
        let mut answers = Vec::with_capacity(alloc, edits.len())?;
        for edit in edits {
            let answer = self.apply(alloc, edit);
            answers.push_reserved(answer);
        }
        Ok(answers)
    }
}
