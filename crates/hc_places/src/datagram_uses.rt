//! `DatagramUse`: the bytes and counters of a datagram, from which the table of a task is put together.
ghost use Rattle.std.specs.Prelude.{◌≡◌, ◌<◌, ◌≤◌, All, find};
ghost use Rattle.hc_records.specs.Image.{inside};
ghost use Rattle.hc_records.specs.Keys.{same_dir};
ghost use Rattle.hc_records.specs.Laws.{LiesInside};
ghost use Rattle.hc_records.specs.declared.limits.TheConstants.{MOST_DATAGRAM_BYTES};
ghost use Rattle.hc_records.specs.declared.records.Dir.TheVariants.{In};
ghost use Rattle.hc_places.specs.DatagramUses.{datagram_use_length};
ghost use Rattle.hc_places.specs.DatagramUses.{counted_inside};

use crate::table::{Datagram, Places, TaskTable};
use arrayvec::ArrayVec;
use hc_cuts::packing::Placed;
use hc_records::records::Dir;
use hc_records::task::Task;
use hc_registers::counters::added_count;
use hc_registers::fmmu::logical_address;

/// The use of a datagram by areas: its bytes, its expected working counter, and the number of its bytes before its first input.
/// The bytes are 1 to 1,486, or 0 if there is no such datagram. The datagram comes back with the expected counter when every
/// slave of the line has processed it. If it has no input, all its bytes come before the first one.
#[derive(Clone, Copy, Default)]
pub struct DatagramUse {
    pub length: u16,
    pub expected: u16,
    pub outputs: u16,
}

/// The length of a datagram in bytes, up to its last used one.
fn datagram_length(areas: &[Placed], number: u16) -> u16
    requires { All LiesInside areas.now }
    ensures value { result ≡ datagram_use_length (inside number areas.now) }
    ensures low { result ≤ MOST_DATAGRAM_BYTES }
{
    let mut end = 0;
    for area in areas {
        if area.datagram() == number {
            end = end.max(area.bit() + area.bits());
        }
    }
    (end + 7) / 8
}

/// The working counter that a datagram comes back with when every slave of the line has processed it.
fn expected_counter(areas: &[Placed], number: u16) -> u16
    requires { counted_inside number areas.now < 65536 }
    ensures { result ≡ counted_inside number areas.now }
{
    let mut count = 0;
    let mut before = None;
    for area in areas {
        if area.datagram() == number {
            count += added_count(before, area.key());
            before = Some(area.key());
        }
    }
    count
}

/// The first input area of a datagram.
fn first_input(areas: &[Placed], number: u16) -> Option<Placed>
    ensures { result ≡ find (λ area. same_dir area.key.dir In) (inside number areas.now) }
{
    areas
        .iter()
        .find(|area| area.datagram() == number && area.key().dir == Dir::In)
        .copied()
}

impl DatagramUse {
    ghost use Rattle.std.specs.Prelude.{◌≡◌, ◌<◌, All};
    ghost use Rattle.hc_records.specs.Laws.{LiesInside};
    ghost use Rattle.hc_places.specs.DatagramUses.{IsDatagramUse, datagram_use_in};
    ghost use Rattle.hc_places.specs.DatagramUses.{counted_inside};

    /// Returns the use of the datagram with a number by areas, which may lie in other datagrams too.
    pub fn of(areas: &[Placed], number: u16) -> DatagramUse
        requires inside { All LiesInside areas.now }
        requires counted { counted_inside number areas.now < 65536 }
        ensures value { result ≡ datagram_use_in areas.now number }
        ensures low { IsDatagramUse result }
    {
        let length = datagram_length(areas, number);
        DatagramUse {
            length,
            expected: expected_counter(areas, number),
            outputs: match first_input(areas, number) {
                Some(area) => area.bit() / 8,
                None => length,
            },
        }
    }
}

impl TaskTable {
    ghost use Rattle.std.specs.Prelude.{◌≡◌, ◌+◌, ◌*◌, ◌<◌, ◌≤◌, length};
    ghost use Rattle.hc_records.specs.declared.limits.TheConstants.{MOST_DATAGRAM_BYTES, MOST_DATAGRAMS};
    ghost use Rattle.hc_places.specs.DatagramUses.{IsDatagramUse, datagram_use_in_table, no_datagrams, with_datagram_use};

    /// The table of a task that has no datagram.
    pub fn empty() -> TaskTable
        ensures { result ≡ no_datagrams }
    {
        TaskTable {
            datagrams: ArrayVec::new(),
            outputs: 0,
            inputs: 0,
        }
    }

    /// Adds a datagram with at least one byte after the others of a task. There are fewer than 16 others, with at most 1,486
    /// bytes each.
    pub fn add(&mut self, task: Task, datagram_use: DatagramUse)
        requires few { length self.old.datagrams < MOST_DATAGRAMS }
        requires short { self.old.outputs + self.old.inputs ≤ length self.old.datagrams * MOST_DATAGRAM_BYTES }
        requires some { 1 ≤ datagram_use.length }
        requires datagram_use { IsDatagramUse datagram_use }
        ensures { self.new ≡ with_datagram_use task self.old datagram_use }
    {
        self.datagrams.push(Datagram {
            address: logical_address(task, self.datagrams.len() as u16),
            length: datagram_use.length,
            expected: datagram_use.expected,
            offset: self.outputs + self.inputs,
        });
        self.outputs += datagram_use.outputs;
        self.inputs += datagram_use.length - datagram_use.outputs;
    }

    /// Returns the use of the datagram with a number; all 0 if there is none.
    fn datagram_use(&self, number: u16) -> DatagramUse
        ensures value { result ≡ datagram_use_in_table self.now number }
        ensures low { IsDatagramUse result }
    {
        match self.datagrams.get(usize::from(number)) {
            Some(datagram) => DatagramUse {
                length: datagram.length,
                expected: datagram.expected,
                outputs: self
                    .outputs
                    .saturating_sub(datagram.offset)
                    .min(datagram.length),
            },
            None => DatagramUse::default(),
        }
    }
}

impl Places {
    ghost use Rattle.std.specs.Prelude.{◌≡◌};
    ghost use Rattle.hc_places.specs.DatagramUses.{IsDatagramUse, datagram_use_answered};

    /// Returns the use of a datagram of a task; all 0 if the task has fewer, or if there is no such task.
    pub fn datagram_use(&self, task: u8, number: u16) -> DatagramUse
        ensures value { result ≡ datagram_use_answered self.now task number }
        ensures low { IsDatagramUse result }
    {
        match self.tasks.as_slice().get(usize::from(task)) {
            Some(task) => task.datagram_use(number),
            None => DatagramUse::default(),
        }
    }
}
