//! A copy of what tasks read, to which changes are applied.
ghost use Rattle.std.specs.Prelude.{◌≡◌, ◌+◌, ◌*◌, ◌≤◌, length};
ghost use Rattle.hc_publish.specs.Values.{number_at};

use crate::history::History;
use crate::view_faults::ViewFault;
use hc_bits::get_bits;
use hc_bits::laws::reading_takes_list;
use hc_events::change::{Change, GoodAnswer};
use hc_images::inputs::Inputs;
use hc_places::swap::Swap;
use hc_places::table::{Datagram, Place, Places};
use hc_plan::plan::Plan;
use hc_records::limits::{MOST_DATAGRAMS, TASKS};
use hc_records::records::{Dir, VarId};
use hc_records::task::Task;
use std::alloc::{AllocError, Global};
use std::marker::Model;
use std::snapshot::Snapshot;

/// The table of a line's places, its epoch, and the data of each datagram in this epoch, or none. Contracts see the groups of
/// the opened project and the changes that were applied since; everything else follows from these.
pub struct Shown {
    alloc: Global,
    opened: Snapshot<Plan>,
    history: History,
    places: Places,
    epoch: u32,
    inputs: Inputs,
}

impl Drop for Shown {
    fn drop(self) {
        let Shown {
            alloc: _,
            opened: _,
            history: _,
            places: _,
            epoch: _,
            inputs: _,
        } = self;
    }
}

impl Model for Shown {
    ghost use Rattle.hc_publish.specs.ChangesSince.{ChangesSince};
    ghost use Rattle.hc_publish.specs.Shown.{CopiesFollow, answered_in};

    ghost Value = { ChangesSince };

    ghost view = { answered_in };

    ghost invariant = { CopiesFollow };
}

/// Returns the value of a variable from its datagram's data, which hold its place.
fn read_number(bytes: &[u8], place: Place) -> u64
    requires { place.bit + place.bits ≤ 8 * length bytes.now }
    ensures { result ≡ number_at bytes.now place }
{
    // relates the number to its single bits
    reading_takes_list();
    get_bits(bytes, usize::from(place.bit), usize::from(place.bits))
}

impl Shown {
    ghost use Rattle.std.specs.Prelude.{◌≡◌, ◌++◌, ◌∷◌, [], IfOk, IfSome, IsOk, MatchResult, min};
    ghost use Rattle.std.specs.Option.{option_copied};
    ghost use Rattle.hc_records.specs.declared.limits.TheConstants.{LAST_EPOCH};
    ghost use Rattle.hc_records.specs.Line.{groups_of};
    ghost use Rattle.hc_places.specs.Swap.{KeepRows};
    ghost use Rattle.hc_places.specs.Ranges.{IsDatagram};
    ghost use Rattle.hc_places.specs.Table.{datagram_in, part_in, place_in};
    ghost use Rattle.hc_events.specs.declared.change.Change.TheVariants as change;
    ghost use Rattle.hc_publish.specs.ChangesSince.{IsLegal, IsOpening, TakesNoMemory, data_shown, epoch_shown, just_answered, table_shown, with_change};
    ghost use Rattle.hc_publish.specs.Values.{value_shown};

    /// Returns the copy of a plan at its opening: the places of its line, epoch 0, and no datagram with data. It has the
    /// capacity for the longest data of every datagram that a line can have. `AllocError` if an allocation fails.
    pub fn of(alloc: Global, plan: &Plan) -> Result<Shown, AllocError>
        requires { IsOpening plan.now }
        ensures { IfOk result (λ shown. shown ≡ just_answered (groups_of plan.now.groups)) }
    {
        let places = plan.places().copied(alloc)?;
        let inputs = Inputs::new(alloc)?;
        Ok(Shown {
            alloc,
            opened: Snapshot::of(plan),
            history: History::Opened,
            places,
            epoch: 0,
            inputs,
        })
    }

    /// Applies a swap: the next epoch with its places, in which no datagram has data. It allocates first. `AllocError` if an
    /// allocation fails; then nothing has changed.
    fn take_swap(&mut self, swap: &Swap) -> Result<(), AllocError>
        ensures taken { MatchResult result (λ _. self.new ≡ with_change self.old (change.Swapped swap.now)) (λ _. self.new ≡ self.old) }
        ensures succeeds { KeepRows (table_shown self.old).variables swap.now.change.rows → IsOk result }
    {
        let room = self.places.room_for(self.alloc, swap)?;
        self.places.carry_out(swap, room);
        self.epoch = self.epoch.saturating_add(1);
        self.inputs.clear();
        self.history.add_swap(swap);
        Ok(())
    }

    /// Applies a good answer: its data are those of its datagram from now on. It allocates nothing.
    fn take_good(&mut self, good: &GoodAnswer)
        ensures { self.new ≡ with_change self.old (change.Good good.now) }
    {
        self.inputs
            .put(Task(good.task()), good.datagram(), good.bytes());
        self.history.add_good(good);
    }

    /// Applies a change after the earlier ones; the change need not be legal. A swap changes the copy in place, at the cost of
    /// what differs; a good answer costs its bytes. It allocates only for a swap that makes a variable appear or go.
    /// `AllocError` if an allocation fails; then nothing has changed.
    pub fn take_in(&mut self, change: &Change) -> Result<(), AllocError>
        ensures taken { MatchResult result (λ _. self.new ≡ with_change self.old change.now) (λ _. self.new ≡ self.old) }
        ensures succeeds { TakesNoMemory self.old change.now → IsOk result }
    {
        match change {
            Change::Swapped(swap) => self.take_swap(swap),
            Change::Good(good) => {
                self.take_good(good);
                Ok(())
            }
        }
    }

    /// Returns the epoch: the number of applied swaps, which in a legal list is the number of accepted edits. It stays at the
    /// last epoch.
    pub fn epoch(&self) -> u32
        ensures value { result ≡ min (epoch_shown self.now) LAST_EPOCH }
        ensures legal { IsLegal self.now → result ≡ epoch_shown self.now }
    {
        self.epoch
    }

    /// Returns the sizes of a task's image in bytes, first the outputs, then the inputs; 0 and 0 for a task over 7.
    pub fn part(&self, task: u8) -> (u16, u16)
        ensures { result ≡ part_in (table_shown self.now) task }
    {
        self.places.part(task)
    }

    /// Returns the datagram of a task with a number, or `None` if the task has fewer or is over 7.
    pub fn datagram(&self, task: u8, number: u8) -> Option<Datagram>
        ensures datagram { result ≡ datagram_in (table_shown self.now) task number }
        ensures ranges { IfSome result IsDatagram }
    {
        self.places.datagram(task, number)
    }

    /// Returns the place of a variable, or `None` if the line has no place for it. It allocates nothing.
    pub fn place(&self, variable: VarId) -> Option<Place>
        ensures { result ≡ place_in (table_shown self.now) variable }
    {
        self.places.place(variable)
    }

    /// Lends the data of a task's datagram: those of its last good answer in this epoch. `None` if it has no good answer in
    /// this epoch, or no line has such a task or datagram. It allocates nothing.
    pub fn data(&self, task: u8, datagram: u8) -> Option<&[u8]>
        ensures { option_copied result ≡ data_shown self.now task datagram }
    {
        if task < TASKS && usize::from(datagram) < MOST_DATAGRAMS {
            self.inputs.data(Task(task), datagram)
        } else {
            None
        }
    }

    /// Returns the value of an input variable for a task, from its bits in its datagram's data, the first one the least
    /// significant. It is below 2 to the power of the variable's bits. It allocates nothing. Fails with the first of these:
    ///
    /// - `NoSuchVariable`: the line has no place for the variable.
    /// - `IsOutput`: it is an output.
    /// - `OtherTask`: it lies in another task.
    /// - `NotAnswered`: its datagram has no data.
    pub fn value(&self, task: u8, variable: VarId) -> Result<u64, ViewFault>
        requires { IsLegal self.now }
        ensures { result ≡ value_shown self.now task variable }
    {
        let Some(place) = self.places.place(variable) else {
            return Err(ViewFault::NoSuchVariable);
        };
        if place.dir == Dir::Out {
            return Err(ViewFault::IsOutput);
        }
        if place.task != task {
            return Err(ViewFault::OtherTask);
        }
        match self.data(place.task, place.datagram) {
            Some(bytes) => Ok(read_number(bytes, place)),
            None => Err(ViewFault::NotAnswered),
        }
    }
}
