//! `PreparedEdit`: an edit of a plan that is worked out before anything changes. A caller that stores more of a line than its
//! plan reads the moved blocks, allocates all memory that it needs, and then lets the plan carry out the edit.
ghost use Rattle.std.specs.Prelude.{◌≡◌};
ghost use Rattle.hc_plan.specs.Gone.{gone_of};

use crate::plan::Plan;
use crate::report::Report;
use crate::work::Work;
use hc_groups::prepared::Prepared;
use hc_registers::ranked::{Gone, RankedBlock};
use std::marker::Model;
use std::snapshot::Snapshot;

/// An edit worked out on a plan, with all memory for carrying it out there. Contracts see the state
/// before it and the one that it makes, its report, the slaves that leave the line, and the blocks that move.
/// The plan is as it was until it carries the edit out.
#[derive(Drop)]
pub struct PreparedEdit {
    // the plan that it was worked out on
    pub(crate) was: Snapshot<Plan>,
    pub(crate) report: Report,
    pub(crate) blocks: Vec<RankedBlock>,
    pub(crate) work: Work,
}

impl Model for PreparedEdit {
    ghost use Rattle.hc_plan.specs.Prepared.{IsPrepared, PreparedEdit};
    ghost use Rattle.hc_plan.specs.inner.Prepared.{IsWorkReady, prepared_of};

    ghost Value = { PreparedEdit };

    ghost view = { λ it. prepared_of it.was.value it.work it.report it.blocks.items };

    ghost invariant = { λ it. IsPrepared (prepared_of it.was.value it.work it.report it.blocks.items) × IsWorkReady it.was.value it.report it.work };
}

/// No slave leaves.
const NONE_GONE: Gone = Gone { rank: 1, slaves: 0 };

/// The slaves that leave the line with a change.
pub(crate) fn gone_with(change: &Prepared) -> Gone
    ensures { result ≡ gone_of change.now }
{
    match change {
        Prepared::Presence(change) if !change.present => Gone {
            rank: change.first,
            slaves: change.slaves,
        },
        _ => NONE_GONE,
    }
}

impl PreparedEdit {
    ghost use Rattle.std.specs.Prelude.{◌≡◌};
    ghost use Rattle.hc_plan.specs.Prepared.{IsPrepared};

    /// Returns the report that carrying out the edit will return.
    pub fn report(&self) -> &Report
        ensures report { result.now ≡ self.now.report }
        ensures prepared { IsPrepared self.now }
    {
        &self.report
    }

    /// Returns the blocks that move, with their new bytes, in line and block order: those that the report names. It allocates
    /// nothing.
    pub fn blocks(&self) -> &[RankedBlock]
        ensures blocks { result.now ≡ self.now.blocks }
        ensures prepared { IsPrepared self.now }
    {
        self.blocks.as_slice()
    }

    /// Returns the slaves that leave the line: those of a group that the edit disconnects, none with any other edit. It
    /// allocates nothing.
    pub fn gone(&self) -> Gone
        ensures gone { result ≡ self.now.gone }
        ensures prepared { IsPrepared self.now }
    {
        match &self.work {
            Work::NewLine(line) => gone_with(&line.change),
            Work::NewTask(change) => gone_with(change),
            Work::NewGroup(_) => NONE_GONE,
        }
    }
}
