//! A task's data go through a programmed line.
use crate::opened::axis_plan;
use hc_exchange::exchange;
use hc_machine::SlaveMachine;
use hc_segment::Segment;
use std::alloc::Global;
use std::test::Fail;

/// A slave with station address 1001.
fn axis_machine(alloc: Global) -> Result<SlaveMachine, Fail> {
    let mut machine = SlaveMachine::new(alloc, 0)?;
    machine.write_memory(0x0010, &1001_u16.to_le_bytes());
    Ok(machine)
}

/// Both output bits reach the slave's memory.
#[test]
fn outputs_reach_a_slave(rt: HostRuntime) -> Result<(), Fail> {
    let plan = axis_plan(rt.alloc())?;
    let mut machines = Vec::new(rt.alloc());
    machines.push(axis_machine(rt.alloc())?)?;
    let mut segment = Segment::of(machines);
    let frames = exchange(rt.alloc(), &plan, &mut segment, 0, &[0b11])?;
    assert_eq!(rt; frames.len(), 1);
    let machine = segment.into_machines().pop().ok_or("no machine")?;
    assert_eq!(rt; machine.memory()[0x1100], 0b11);
    Ok(())
}
