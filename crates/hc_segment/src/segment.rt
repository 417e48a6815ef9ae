//! A segment of a line: machines that frames meet in order.
ghost use Rattle.std.specs.Prelude.{◌≡◌, All, is_none, length, true};
ghost use Rattle.std.specs.Borrow.{sem};
ghost use Rattle.hc_frames.specs.Arrived.{fault_in};
ghost use Rattle.hc_machine.specs.declared.limits.TheConstants.{MEMORY_BYTES};
ghost use Rattle.hc_segment.specs.Lending.{LendsMachines};
ghost use Rattle.hc_segment.specs.Line.{frame_through, machines_after_frame};

use hc_machine::{SlaveMachine, is_readable};
use std::marker::Model;

/// Machines in their order on the line. Contracts see them as the list of their memories.
#[derive(Drop)]
pub struct Segment {
    machines: Vec<SlaveMachine>,
}

impl Model for Segment {
    ghost use Rattle.std.specs.Prelude.{ℕ, List};

    ghost Value = { List (List ℕ) };

    ghost view = { λ segment. segment.machines.items };
}

/// Passes a frame that is read through machines one after another.
fn pass(machines: &mut [SlaveMachine], frame: &mut [u8])
    requires { is_none (fault_in frame.old) ≡ true }
    ensures frame { frame.new ≡ frame_through machines.old frame.old }
    ensures machines { machines.new ≡ machines_after_frame machines.old frame.old }
    ensures readable { is_none (fault_in frame.new) ≡ true }
{
    for machine in machines.iter_mut() {
        machine.process_readable(frame);
    }
}

impl Segment {
    /// The segment of these machines, in this order. It does not allocate.
    pub fn of(machines: Vec<SlaveMachine>) -> Segment
        ensures { result ≡ machines.items }
    {
        Segment { machines }
    }

    /// Passes a frame through the machines, one after another, in the frame's place. A frame that the reader reads can be read
    /// after them too. It does not allocate.
    pub fn process(&mut self, frame: &mut [u8])
        ensures frame { frame.new ≡ frame_through self.old frame.old }
        ensures machines { self.new ≡ machines_after_frame self.old frame.old }
        ensures readable { is_none (fault_in frame.old) ≡ true → is_none (fault_in frame.new) ≡ true }
    {
        // a frame that is read is read after each machine too
        if is_readable(frame) {
            pass(self.machines.as_mut_slice(), frame);
        }
    }

    /// The machines, in their order, each with its 12,288 bytes of memory. It takes a step for each of them, and does not
    /// allocate.
    pub fn machines(&self) -> &[SlaveMachine]
        ensures value { result.now ≡ self.now }
        ensures sizes { All (λ m. length m ≡ MEMORY_BYTES) self.now }
    {
        let machines = self.machines.as_slice();
        // a list's value does not state its machines' sizes: each machine states its own
        for machine in machines {
            let _bytes = machine.memory();
        }
        machines
    }

    /// Lends the machines for writing, in their order. It does not allocate.
    pub fn machines_mut(&mut self) -> &mut [SlaveMachine]
        ensures* written { sem 𝓛 (LendsMachines self.entry result) }
        ensures machines { result.now ≡ self.old }
    {
        self.machines.as_mut_slice()
    }

    /// Gives the machines back. It does not allocate.
    pub fn into_machines(self) -> Vec<SlaveMachine>
        ensures { result.items ≡ self }
    {
        let Segment { machines } = self;
        machines
    }
}
