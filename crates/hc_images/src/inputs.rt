//! The data of all datagrams that a line can have.
ghost use Rattle.std.specs.Prelude.{◌≡◌, ◌+◌, ◌<◌, ◌≤◌, ℕ, None, length, slice_index_or};
ghost use Rattle.hc_images.specs.Image.{HasAllSlots};
ghost use Rattle.hc_images.specs.inner.Used.{NoneAfter};

use crate::slot::Slot;
use hc_records::items::Items;
use hc_records::limits::{MOST_DATAGRAMS, TASKS};
use hc_records::slots::{SLOTS, slot_number};
use hc_records::task::Task;
use std::alloc::{AllocError, Global};
use std::marker::Model;

/// Takes the data from `count` slots in a row.
fn clear_slots(slots: &mut [Slot], from: usize, count: usize)
    requires { from + count ≤ length slots.old }
    ensures size { length slots.new ≡ length slots.old }
    ensures cleared { (n : ℕ) → from ≤ n → n < from + count → slice_index_or slots.new n None ≡ None }
    ensures others { (n : ℕ) → slice_index_or slots.old n None ≡ None → slice_index_or slots.new n None ≡ None }
    ensures before { (n : ℕ) → n < from → slice_index_or slots.new n None ≡ slice_index_or slots.old n None }
    ensures after_it { (n : ℕ) → from + count ≤ n → slice_index_or slots.new n None ≡ slice_index_or slots.old n None }
{
    for i in from..from + count {
        slots[i].clear();
    }
}

/// Takes the data from every slot. Only the first datagrams of each task may have data, as many as `used` says.
fn clear_used(slots: &mut [Slot], used: &mut [u8; 8])
    requires whole { HasAllSlots slots.old }
    requires used { NoneAfter used.old slots.old }
    ensures size { HasAllSlots slots.new }
    ensures none { (n : ℕ) → slice_index_or slots.new n None ≡ None }
{
    for task in 0..usize::from(TASKS) {
        let count = usize::from(used[task]).min(MOST_DATAGRAMS);
        clear_slots(slots, MOST_DATAGRAMS * task, count);
        used[task] = 0;
    }
}

/// The data of each datagram that a line can have: those that were put last since its task was cleared, or none. It has the
/// capacity for the longest data of each from the start, about 190,000 bytes, so only `new` and `read` allocate.
#[derive(Debug)]
pub struct Inputs {
    slots: Vec<Slot>,
    // the number of first datagrams of each task that may have data
    used: [u8; 8],
}

impl Drop for Inputs {
    fn drop(self) {
        let Inputs { slots: _, used: _ } = self;
    }
}

impl Model for Inputs {
    ghost use Rattle.std.specs.Prelude.{◌≡◌, length};
    ghost use Rattle.hc_images.specs.Image.{DatagramImage, HasAllSlots};
    ghost use Rattle.hc_images.specs.inner.Used.{NoneAfter};

    ghost Value = { DatagramImage };

    ghost view = { λ inputs. inputs.slots.items };

    ghost invariant = { λ inputs. HasAllSlots inputs.slots.items × NoneAfter inputs.used inputs.slots.items };
}

impl Inputs {
    ghost use Rattle.std.specs.Prelude.{◌≡◌, ◌<◌, ◌≤◌, IfOk, length};
    ghost use Rattle.hc_records.specs.declared.limits.TheConstants.{MOST_DATAGRAMS, MOST_DATAGRAM_BYTES};
    ghost use Rattle.std.specs.Option.{option_copied};
    ghost use Rattle.hc_images.specs.Image.{Empties, HasNone, Renews, data_of, data_of_first};

    /// Returns an image in which no datagram has data. `AllocError` if an allocation fails; of all other calls only `read`
    /// allocates.
    pub fn new(alloc: Global) -> Result<Inputs, AllocError>
        ensures { IfOk result (λ inputs. HasNone inputs) }
    {
        let mut slots = Vec::with_capacity(alloc, SLOTS)?;
        for _ in 0..SLOTS {
            slots.push(Slot::new())?;
        }
        Ok(Inputs {
            slots,
            used: [0; 8],
        })
    }

    /// Takes the data from every datagram. It allocates nothing, and goes no further in each task than the last datagram with
    /// data.
    pub fn clear(&mut self)
        ensures { HasNone self.new }
    {
        clear_used(self.slots.as_mut_slice(), &mut self.used);
    }

    /// Takes the data from a task's datagrams; those of every other task keep theirs. It allocates nothing, and goes no further
    /// than the last datagram of the task with data.
    pub fn clear_task(&mut self, task: Task)
        ensures { Empties self.old self.new task }
    {
        let at = task.as_index();
        let count = usize::from(self.used[at]).min(MOST_DATAGRAMS);
        clear_slots(self.slots.as_mut_slice(), MOST_DATAGRAMS * at, count);
        self.used[at] = 0;
    }

    /// Stores the data of a good answer as those of its datagram, at most 1,486 bytes. The datagram's number in the task is 0
    /// to 15. Every other datagram keeps its data. It allocates nothing.
    pub fn put(&mut self, task: Task, number: u8, bytes: &[u8])
        requires number { number < MOST_DATAGRAMS }
        requires few { length bytes.now ≤ MOST_DATAGRAM_BYTES }
        ensures { Renews self.old self.new task number bytes.now }
    {
        self.slots[slot_number(task.number(), number)].put(bytes);
        let used = &mut self.used[task.as_index()];
        *used = (*used).max(number + 1);
    }

    /// Lends the data of a datagram: those that were put last since its task was cleared, or `None`. Its number in the task is
    /// 0 to 15. It allocates nothing.
    pub fn data(&self, task: Task, number: u8) -> Option<&[u8]>
        requires { number < MOST_DATAGRAMS }
        ensures { option_copied result ≡ data_of self.now task number }
    {
        self.slots[slot_number(task.number(), number)].data()
    }

    /// Returns a copy of the data, or none, of each of a task's first datagrams, at most 16. The number of a line's task is
    /// that of its places. `AllocError` if an allocation fails.
    pub fn read(
        &self,
        alloc: Global,
        task: Task,
        count: u8,
    ) -> Result<Items<Option<Items<u8>>>, AllocError>
        requires { count ≤ MOST_DATAGRAMS }
        ensures { IfOk result (λ slots. slots ≡ data_of_first self.now task count) }
    {
        let mut data = Vec::with_capacity(alloc, usize::from(count))?;
        for number in 0..count {
            data.push(self.slots[slot_number(task.number(), number)].read(alloc)?)?;
        }
        Ok(Items::of(data))
    }
}
