//! `Swap`: the change from the table of one epoch to that of the next.
ghost use Rattle.std.specs.Prelude.{◌≡◌, ◌==◌, ℕ, OnOk, find};
ghost use Rattle.hc_places.specs.Swap.{AreOnce, ChangesAscend};

use crate::table::{Place, TaskTable};
use hc_records::edit::Edit;
use hc_records::items::{Copied, Items};
use hc_records::records::VarId;
use hc_records::task::Task;
use std::alloc::{AllocError, Global};
use std::marker::Model;

/// A task whose table differs, and its new table.
pub type ChangedTask = (Task, TaskTable);

/// A variable that is elsewhere, appears or goes. Contracts see its number, and its new place or none.
#[derive(Debug, Drop)]
pub struct ChangedRow {
    variable: VarId,
    place: Option<Place>,
    // the number of rows with lower numbers in the table that changes
    row: usize,
}

impl Model for ChangedRow {
    ghost use Rattle.hc_places.specs.Swap.{ChangedRow};

    ghost Value = { ChangedRow };

    ghost view = { λ changed. (changed.variable, changed.place) };
}

impl ChangedRow {
    ghost use Rattle.std.specs.Prelude.{◌≡◌};

    /// Returns the change of a variable to its new place, or to none if it goes. `row` is the number of rows with lower numbers
    /// in the table that changes: with it the variable's old row is found without a search. With any other number the row is
    /// searched for, and nothing else changes.
    pub fn of(variable: VarId, place: Option<Place>, row: usize) -> ChangedRow
        ensures { result ≡ (variable, place) }
    {
        ChangedRow {
            variable,
            place,
            row,
        }
    }

    /// The variable.
    pub fn variable(&self) -> VarId
        ensures { result ≡ self.now.0 }
    {
        self.variable
    }

    /// Its new place; none if it goes.
    pub fn place(&self) -> Option<Place>
        ensures { result ≡ self.now.1 }
    {
        self.place
    }

    /// Returns the number of rows with lower numbers in the table that changes, as the maker of the change gave it. It may be
    /// wrong.
    pub(crate) fn row(&self) -> usize {
        self.row
    }
}

/// The changes of an edit to the table of a line: the tasks whose tables differ, at most 8, and the new places of the variables
/// that are elsewhere, appear or go.
#[derive(Debug)]
pub struct Swap {
    edit: Edit,
    pub(crate) tasks: Items<ChangedTask>,
    pub(crate) rows: Vec<ChangedRow>,
}

impl Drop for Swap {
    fn drop(self) {
        let Swap {
            edit: _,
            tasks: _,
            rows: _,
        } = self;
    }
}

impl Model for Swap {
    ghost use Rattle.hc_places.specs.Swap.{IsInOrder, Swap};

    ghost Value = { Swap };

    ghost view = { λ swap. record { edit = swap.edit; change = record { tasks = swap.tasks; rows = swap.rows.items } } };

    ghost invariant = { λ swap. IsInOrder (record { tasks = swap.tasks; rows = swap.rows.items }) };
}

/// Sorts changed rows, each variable once, by their numbers. Fails with `AllocError` if the sort's allocation fails.
fn sort_changes(rows: &mut Vec<ChangedRow>) -> Result<(), AllocError>
    requires { AreOnce rows.old.items }
    ensures ascends { OnOk result (ChangesAscend rows.new.items) }
    ensures same { OnOk result ((variable : ℕ) → find (λ changed. changed.0 == variable) rows.new.items ≡ find (λ changed. changed.0 == variable) rows.old.items) }
{
    rows.sort_by_key(|row| row.variable().number())
}

impl Swap {
    ghost use Rattle.std.specs.Prelude.{◌≡◌, IfOk};
    ghost use Rattle.hc_places.specs.Swap.{AreOnce, ChangesAscend, LeadsAsSaid, changed_places};

    /// Returns the swap of an edit, with these changed tasks, in the order of their numbers, and these changed variables, each
    /// once and in any order; the variables are sorted here. If the tasks and the variables are the differences between two
    /// tables, the swap leads from the one to the other. Fails with `AllocError` if an allocation fails.
    pub fn of(
        alloc: Global,
        edit: &Edit,
        tasks: Vec<ChangedTask>,
        rows: Vec<ChangedRow>,
    ) -> Result<Swap, AllocError>
        requires tasks { ChangesAscend tasks.items }
        requires once { AreOnce rows.items }
        ensures edit { IfOk result (λ swap. swap.edit ≡ edit.now) }
        ensures leads { IfOk result (LeadsAsSaid (record { tasks = tasks.items; rows = rows.items })) }
    {
        let mut rows = rows;
        sort_changes(&mut rows)?;
        Ok(Swap {
            edit: edit.copied(alloc)?,
            tasks: Items::of(tasks),
            rows,
        })
    }

    /// The edit that asks for the swap.
    pub fn edit(&self) -> &Edit
        ensures { result.now ≡ self.now.edit }
    {
        &self.edit
    }

    /// The tasks whose tables differ, each once, in the order of their numbers, with their new tables.
    pub fn tasks(&self) -> &[ChangedTask]
        ensures tasks { result.now ≡ self.now.change.tasks }
        ensures ascends { ChangesAscend self.now.change.tasks }
    {
        self.tasks.as_slice()
    }

    /// The variables that are elsewhere, appear or go, each once, in the order of their numbers, with
    /// their new places; none for one that goes.
    pub fn changes(&self) -> &[ChangedRow]
        ensures rows { result.now ≡ self.now.change.rows }
        ensures ascends { ChangesAscend self.now.change.rows }
    {
        self.rows.as_slice()
    }

    /// Returns the number of variables that are elsewhere, appear or go. Each counts once, so there are no more than numbers of
    /// variables, 4,294,967,295.
    pub fn places(&self) -> u32
        ensures { result ≡ changed_places self.now }
    {
        let rows = self.changes();
        let (Some(first), Some(last)) = (rows.first(), rows.last()) else {
            return 0;
        };
        // the rows ascend, so their first and last number bound how many there are
        prove!(rows.len() <= 1 + (last.variable().number() - first.variable().number()) as usize);
        rows.len() as u32
    }
}
