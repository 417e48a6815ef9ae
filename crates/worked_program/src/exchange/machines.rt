//! The machines of a plan's line, and bytes in their memories.
use hc_plan::plan::Plan;
use hc_segment::{Segment, SlaveMachine};
use std::alloc::{AllocError, Global};

/// Bytes of the machine at a position of the line, from a register on.
pub type Piece = (usize, u16, &'static [u8]);

/// A machine with a station address.
pub fn machine_of(alloc: Global, station: u16) -> Result<SlaveMachine, AllocError> {
    let mut machine = SlaveMachine::new(alloc, 0)?;
    machine.write_memory(0x0010, &station.to_le_bytes());
    Ok(machine)
}

/// Writes bytes to a memory from a register on, if they have room.
fn put(machine: &mut SlaveMachine, register: u16, bytes: &[u8]) {
    let at = usize::from(register);
    if at <= 12_288 && bytes.len() <= 12_288 - at {
        machine.write_memory(at, bytes);
    }
}

/// The machines of a plan's line in its order, with their station addresses and with these bytes; all else is 0.
pub fn segment_of(alloc: Global, plan: &Plan, pieces: &[Piece]) -> Result<Segment, AllocError> {
    let mut machines = Vec::new(alloc);
    for position in 0..64 {
        let Some(station) = plan.station(position) else {
            break;
        };
        let mut machine = machine_of(alloc, station)?;
        for (at, register, bytes) in pieces {
            if *at == position as usize {
                put(&mut machine, *register, *bytes);
            }
        }
        machines.push(machine)?;
    }
    Ok(Segment::of(machines))
}

/// True if bytes have the wanted ones at this offset.
pub fn is_placed(bytes: &[u8], at: usize, wanted: &[u8]) -> bool {
    match bytes.get(at..) {
        Some(rest) => rest.starts_with(wanted),
        None => false,
    }
}

/// True if these bytes are in the machines' memories.
pub fn are_placed(segment: &Segment, pieces: &[Piece]) -> bool {
    let machines = segment.machines();
    for (position, register, wanted) in pieces {
        let Some(machine) = machines.get(*position) else {
            return false;
        };
        if !is_placed(machine.memory(), usize::from(*register), *wanted) {
            return false;
        }
    }
    true
}
