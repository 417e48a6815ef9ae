//! `Places`: the table of a line, in which tasks look up their datagrams and their variables.
ghost use Rattle.std.specs.Prelude.{◌≡◌, ◌≤◌, ◌==◌, ◌↔◌, IsTrue, false, find, length, nat_lt, OnOk, option_map, true};
ghost use Rattle.std.specs.List.Sorted.{IsNonDecreasingBy, IsPartitionPoint};
ghost use Rattle.hc_places.specs.Table.{by_number};

use arrayvec::ArrayVec;
use hc_records::items::{Copied, Items};
use hc_records::limits::TASKS;
use hc_records::records::{Dir, VarId};
use hc_records::task::Task;
use std::alloc::{AllocError, Global};
use std::marker::Model;

/// The place of a variable.
#[derive(Clone, Copy, Debug, PartialEq, Eq)]
pub struct Place {
    /// The task whose datagrams carry it, 0 to 7.
    pub task: u8,
    /// The number of its datagram in the task, 0 to 15.
    pub datagram: u8,
    /// Its first bit in the datagram's data, counted from the least significant bit of byte 0; the last
    /// one is at most 11,887.
    pub bit: u16,
    /// Its bits, 1 to 64.
    pub bits: u8,
    /// The direction of its area.
    pub dir: Dir,
}

impl Model for Place {
    ghost use Rattle.hc_records.specs.Image.{VariablePlace};
    ghost use Rattle.hc_places.specs.Ranges.{IsPlace};

    ghost Value = { VariablePlace };

    ghost view = { λ place. record { task = place.task; datagram = place.datagram; bit = place.bit; bits = place.bits; dir = place.dir } };

    ghost invariant = { λ place. IsPlace (record { task = place.task; datagram = place.datagram; bit = place.bit; bits = place.bits; dir = place.dir }) };

    ghost inverse = { λ place. record { task = place.task; datagram = place.datagram; bit = place.bit; bits = place.bits; dir = place.dir } };
}

/// A datagram of a task. Those of a table have 1 to 1,486 bytes, which lie within the first 23,776 of
/// the task's image.
#[derive(Clone, Copy, Debug, Default, PartialEq, Eq)]
pub struct Datagram {
    /// Its logical address.
    pub address: u32,
    /// The bytes of its data.
    pub length: u16,
    /// The working counter that it comes back with when every slave of the line has processed it.
    pub expected: u16,
    /// The offset of its data in the task's image: the bytes of the task's earlier datagrams.
    pub offset: u16,
}

/// The datagrams of a task, and the numbers of output and input bytes of its image.
#[derive(Debug, Drop)]
pub struct TaskTable {
    pub(crate) datagrams: ArrayVec<Datagram, 16>,
    pub(crate) outputs: u16,
    pub(crate) inputs: u16,
}

impl Model for TaskTable {
    ghost use Rattle.std.specs.Prelude.{All};
    ghost use Rattle.hc_places.specs.Ranges.{IsDatagram};
    ghost use Rattle.hc_places.specs.Table.{TaskTable};

    ghost Value = { TaskTable };

    ghost view = { λ task. record { datagrams = task.datagrams.items; outputs = task.outputs; inputs = task.inputs } };

    ghost invariant = { λ task. All IsDatagram task.datagrams.items };
}

/// A variable and its place.
pub(crate) type VariableRow = (VarId, Place);

/// The datagrams and the parts of the tasks, and the place of each variable of a line.
#[derive(Debug)]
pub struct Places {
    pub(crate) tasks: Items<TaskTable>,
    pub(crate) variables: Vec<VariableRow>,
}

impl Drop for Places {
    fn drop(self) {
        let Places {
            tasks: _,
            variables: _,
        } = self;
    }
}

impl Model for Places {
    ghost use Rattle.hc_places.specs.Table.{IsTable, Table};

    ghost Value = { Table };

    ghost view = { λ places. record { tasks = places.tasks; variables = places.variables.items } };

    ghost invariant = { λ places. IsTable (record { tasks = places.tasks; variables = places.variables.items }) };
}

/// True if two datagrams are the same.
fn same_datagram(a: &Datagram, b: &Datagram) -> bool
    ensures { IsTrue result ↔ (a.now ≡ b.now) }
{
    *a == *b
}

/// True if two lists of datagrams are the same.
fn same_datagrams(these: &[Datagram], those: &[Datagram]) -> bool
    ensures { IsTrue result ↔ (these.now ≡ those.now) }
{
    if these.len() != those.len() {
        return false;
    }
    for i in 0..these.len() {
        if !same_datagram(&these[i], &those[i]) {
            return false;
        }
    }
    true
}

impl TaskTable {
    ghost use Rattle.std.specs.Prelude.{◌≡◌, ◌≤◌, ◌↔◌, All, IsTrue, length};
    ghost use Rattle.hc_records.specs.declared.limits.TheConstants.{MOST_DATAGRAMS};
    ghost use Rattle.hc_places.specs.Ranges.{IsDatagram};

    /// The task's datagrams in the order of their numbers, at most 16.
    pub fn datagrams(&self) -> &[Datagram]
        ensures datagrams { result.now ≡ self.now.datagrams }
        ensures few { length result.now ≤ MOST_DATAGRAMS }
        ensures ranges { All IsDatagram result.now }
    {
        self.datagrams.as_slice()
    }

    /// True if two tables are the same.
    pub(crate) fn is_same(&self, other: &TaskTable) -> bool
        ensures { IsTrue result ↔ (self.now ≡ other.now) }
    {
        self.outputs == other.outputs
            && self.inputs == other.inputs
            && same_datagrams(self.datagrams.as_slice(), other.datagrams.as_slice())
    }

    /// Returns a table that equals this one. It allocates nothing.
    pub(crate) fn duplicate(&self) -> TaskTable
        ensures { result ≡ self.now }
    {
        let mut datagrams = ArrayVec::new();
        for datagram in self.datagrams.as_slice() {
            datagrams.push(*datagram);
        }
        TaskTable {
            datagrams,
            outputs: self.outputs,
            inputs: self.inputs,
        }
    }
}

impl Copied for TaskTable {
    fn copied(&self, _alloc: Global) -> Result<TaskTable, AllocError> {
        Ok(self.duplicate())
    }
}

/// Sorts rows by their numbers; those of one number stay in their order. Fails with `AllocError` if the sort's allocation
/// fails.
fn sort_rows(rows: &mut Vec<VariableRow>) -> Result<(), AllocError>
    ensures sorted { OnOk result (rows.new.items ≡ by_number rows.old.items) }
    ensures order { OnOk result (IsNonDecreasingBy (λ row. row.0) rows.new.items) }
{
    rows.sort_by_key(|row| row.0.number())
}

/// Returns the number of rows with a lower number than a variable's.
pub(crate) fn count_below(rows: &[VariableRow], variable: VarId) -> usize
    requires { IsNonDecreasingBy (λ row. row.0) rows.now }
    ensures bound { result ≤ length rows.now }
    ensures below { IsPartitionPoint (λ row. nat_lt row.0 variable ≡ true) (λ row. nat_lt row.0 variable ≡ false) rows.now result }
{
    rows.partition_point(|row| row.0.number() < variable.number())
}

/// Returns the place of a variable among rows in the order of their numbers, of which `below` have a lower one; none if it has
/// no row.
pub(crate) fn place_at(rows: &[VariableRow], below: usize, variable: VarId) -> Option<Place>
    requires ascends { IsNonDecreasingBy (λ row. row.0) rows.now }
    requires below { IsPartitionPoint (λ row. nat_lt row.0 variable ≡ true) (λ row. nat_lt row.0 variable ≡ false) rows.now below }
    ensures { result ≡ option_map (λ row. row.1) (find (λ row. row.0 == variable) rows.now) }
{
    let row = *rows.get(below)?;
    if row.0 == variable { Some(row.1) } else { None }
}

/// Returns the place of a variable among rows in the order of their numbers; none if it has no row.
fn find_place(rows: &[VariableRow], variable: VarId) -> Option<Place>
    requires { IsNonDecreasingBy (λ row. row.0) rows.now }
    ensures { result ≡ option_map (λ row. row.1) (find (λ row. row.0 == variable) rows.now) }
{
    place_at(rows, count_below(rows, variable), variable)
}

impl Places {
    ghost use Rattle.std.specs.Prelude.{◌≡◌, ◌≤◌, All, IfOk, IfSome, Some, length, slice_get};
    ghost use Rattle.hc_records.specs.declared.limits.TheConstants.{MOST_DATAGRAMS, TASKS};
    ghost use Rattle.hc_places.specs.Ranges.{IsDatagram};
    ghost use Rattle.hc_places.specs.Table.{IsTable, RowsAscend, by_number, datagram_in, datagrams_in, part_in, place_in};

    /// Returns the table of tasks and of rows in any order, which are sorted; no variable has two. Fails with `AllocError` if
    /// the sort's allocation fails.
    pub(crate) fn of(tasks: Vec<TaskTable>, rows: Vec<VariableRow>) -> Result<Places, AllocError>
        requires eight { length tasks.items ≡ TASKS }
        requires ascends { RowsAscend (by_number rows.items) }
        ensures { IfOk result (λ places. places ≡ record { tasks = tasks.items; variables = by_number rows.items }) }
    {
        let mut variables = rows;
        sort_rows(&mut variables)?;
        Ok(Places {
            tasks: Items::of(tasks),
            variables,
        })
    }

    /// Each table has eight tasks, and each variable once, in the order of their numbers. The call does nothing: its contract
    /// states this.
    pub fn is_table(&self)
        ensures { IsTable self.now }
    {
        let _ = &self.variables;
    }

    /// Returns the place of a variable; none if the table has no row of it.
    pub fn place(&self, variable: VarId) -> Option<Place>
        ensures { result ≡ place_in self.now variable }
    {
        find_place(self.variables(), variable)
    }

    /// The variables that have a place, each once, in the order of their numbers, with their places.
    pub fn variables(&self) -> &[(VarId, Place)]
        ensures rows { result.now ≡ self.now.variables }
        ensures ascends { RowsAscend self.now.variables }
    {
        self.variables.as_slice()
    }

    /// Returns the datagrams of a task in the order of their numbers, at most 16; none if there is no such task.
    pub fn datagrams(&self, task: u8) -> &[Datagram]
        ensures datagrams { result.now ≡ datagrams_in self.now task }
        ensures few { length result.now ≤ MOST_DATAGRAMS }
        ensures ranges { All IsDatagram result.now }
    {
        match self.tasks.as_slice().get(usize::from(task)) {
            Some(task) => task.datagrams.as_slice(),
            None => &[],
        }
    }

    /// Returns the datagram of a task with a number; none if the task has fewer, or if there is no such task.
    pub fn datagram(&self, task: u8, number: u8) -> Option<Datagram>
        ensures datagram { result ≡ datagram_in self.now task number }
        ensures ranges { IfSome result IsDatagram }
    {
        let task = self.tasks.as_slice().get(usize::from(task))?;
        task.datagrams.get(usize::from(number)).copied()
    }

    /// Returns the bytes of the outputs, which come first, and of the inputs of a task's image; 0 and 0 if there is no such
    /// task.
    pub fn part(&self, task: u8) -> (u16, u16)
        ensures { result ≡ part_in self.now task }
    {
        match self.tasks.as_slice().get(usize::from(task)) {
            Some(task) => (task.outputs, task.inputs),
            None => (0, 0),
        }
    }

    /// Returns a copy of the table of a task. It allocates nothing.
    pub fn task(&self, task: Task) -> TaskTable
        ensures { slice_get self.now.tasks task ≡ Some result }
    {
        self.tasks.as_slice()[task.as_index()].duplicate()
    }

    /// Returns a copy that equals this table. Fails with `AllocError` if an allocation fails.
    pub fn copied(&self, alloc: Global) -> Result<Places, AllocError>
        ensures { IfOk result (λ copy. copy ≡ self.now) }
    {
        Ok(Places {
            tasks: self.tasks.copied(alloc)?,
            variables: Vec::from_slice(alloc, self.variables())?,
        })
    }
}
