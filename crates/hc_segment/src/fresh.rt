//! Machines that no frame has met.
ghost use Rattle.std.specs.Prelude.{◌≡◌, [], ◌++◌, IfOk, OnOk};
ghost use Rattle.hc_segment.specs.Machines.{fresh, fresh_machines, machines_of, opened_machines};

use hc_machine::SlaveMachine;
use hc_records::records::{Declared, Group};
use std::alloc::{AllocError, Global};

/// A machine with an alias that no frame has met yet. `AllocError` if the allocation of its memory failed.
#[tactic(auto, unfolding(crate::specs::Machines::fresh))]
fn fresh(alloc: Global, alias: u16) -> Result<SlaveMachine, AllocError>
    ensures { IfOk result (λ machine. machine ≡ fresh alias) }
{
    SlaveMachine::new(alloc, alias)
}

/// A fresh machine for each slave of a group: its alias is in the first, the others have 0.
pub(crate) fn fresh_machines(alloc: Global, group: &Group) -> Result<Vec<SlaveMachine>, AllocError>
    ensures { IfOk result (λ machines. machines.items ≡ fresh_machines group.now) }
{
    let mut machines = Vec::new(alloc);
    let mut alias = group.alias;
    for _slave in group.slaves.as_slice() {
        machines.push(fresh(alloc, alias)?)?;
        alias = 0;
    }
    Ok(machines)
}

/// Adds the machines of a declared group, if it is present.
fn push_machines(
    alloc: Global,
    declared: &Declared,
    machines: &mut Vec<SlaveMachine>,
) -> Result<(), AllocError>
    ensures { OnOk result (machines.new.items ≡ machines.old.items ++ machines_of declared.now) }
{
    if declared.present {
        let mut more = fresh_machines(alloc, &declared.group)?;
        machines.append(&mut more)?;
    }
    Ok(())
}

/// The machines of the groups that are present, all fresh.
pub(crate) fn opened_machines(
    alloc: Global,
    groups: &[Declared],
) -> Result<Vec<SlaveMachine>, AllocError>
    ensures { IfOk result (λ machines. machines.items ≡ opened_machines groups.now) }
{
    let mut machines = Vec::new(alloc);
    for declared in groups {
        push_machines(alloc, declared, &mut machines)?;
    }
    Ok(machines)
}
