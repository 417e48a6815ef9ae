//! `open_line`: the opening of a line. Its tasks are cut from nothing, and its table is made from them.
ghost use Rattle.std.specs.Prelude.{◌≡◌, IfErr, IfOk, None, OnOk};
ghost use Rattle.hc_records.specs.Edits.{over_limit_task};
ghost use Rattle.hc_records.specs.Line.{groups_of, line_from};
ghost use Rattle.hc_records.specs.Project.{lowest_fault};
ghost use Rattle.hc_places.specs.Layout.{NamesOverLimit};
ghost use Rattle.hc_places.specs.Opened.{AreOpened};
ghost use Rattle.hc_places.specs.Table.{table_of};
ghost use Rattle.hc_cuts.specs.Areas.{areas_by_rank};
ghost use Rattle.hc_cuts.specs.TaskCuts.{line_cuts};

use crate::datagrams::task_table;
use crate::table::Places;
use crate::variables::add_found;
use hc_bitsum::steps::Steps;
use hc_cuts::areas::{SlaveAreas, areas_by_rank};
use hc_cuts::tasks::LineCuts;
use hc_records::faults::EditFault;
use hc_records::limits::TASKS;
use hc_records::records::Declared;
use hc_records::task::Task;
use std::alloc::{AllocError, Global};
use std::sync::ledger::{Blank, Ledger};

/// A line at its opening: the trees of its tasks, and the places of its datagrams and variables.
#[derive(Drop)]
pub struct OpenedLine {
    /// The trees of the tasks.
    pub cuts: LineCuts,
    /// The datagrams and the variables.
    pub places: Places,
}

/// Returns the table of a line from the areas of its slaves by rank and the tasks that were opened for them. Fails with
/// `AllocError` if an allocation fails.
fn opened_places(
    alloc: Global,
    slaves: &[SlaveAreas],
    cuts: &LineCuts,
) -> Result<Places, AllocError>
    requires { AreOpened slaves.now cuts.now }
    ensures { (opened : AreOpened slaves.now cuts.now) → IfOk result (λ places. places ≡ table_of (line_from 1 opened.groups)) }
{
    let mut tables = Vec::with_capacity(alloc, usize::from(TASKS))?;
    let mut rows = Vec::new(alloc);
    for task in 0..TASKS {
        let places = cuts.places(alloc, Task(task))?;
        tables.push_reserved(task_table(Task(task), places.as_slice()));
        add_found(&mut rows, Task(task), slaves, places.as_slice())?;
    }
    Places::of(tables, rows)
}

/// Configures the line of declared groups from nothing, and goes over the areas of each datagram from a boundary of its task to
/// the next. The groups are a project's: no fault's condition holds. Fails with `TooManyDatagrams` and the lowest task that
/// needs more than 16 datagrams, or with `Memory` if an allocation fails.
pub fn open_line<L: Ledger>(
    alloc: Global,
    groups: &[Declared],
    blank: Blank,
) -> Result<OpenedLine, EditFault>
    requires name { blank.name ≡ L.name }
    requires parts { blank.parts ≡ L.parts }
    requires one { L.parts ≡ 1 }
    requires project { lowest_fault (groups_of groups.now) ≡ None }
    ensures cuts { IfOk result (λ line. line.cuts ≡ line_cuts (areas_by_rank groups.now)) }
    ensures places { IfOk result (λ line. line.places ≡ table_of (line_from 1 groups.now)) }
    ensures accepted { OnOk result (over_limit_task (line_from 1 groups.now) ≡ None) }
    ensures refused { IfErr result (NamesOverLimit (line_from 1 groups.now)) }
{
    let mut steps: Steps<L> = Steps::start(blank);
    let slaves = areas_by_rank(alloc, groups)?;
    let cuts = LineCuts::open(alloc, slaves.as_slice(), &mut steps)?;
    let places = opened_places(alloc, slaves.as_slice(), &cuts)?;
    Ok(OpenedLine { cuts, places })
}
