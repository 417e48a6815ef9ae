//! The group of each declared slave, present or not.
ghost use Rattle.std.specs.Prelude.{◌≡◌, ◌++◌, ◌<◌, IfOk, OnOk, length, map};
ghost use Rattle.hc_records.specs.declared.records.Slave.{Slave};
ghost use Rattle.hc_records.specs.Line.{IsCounted};
ghost use Rattle.hc_groups.specs.Index.{owners_from};

use hc_records::records::{Declared, Slave};
use std::alloc::{AllocError, Global};

/// Appends the number of a group, once for each of its slaves.
fn add_owners(all: &mut Vec<u16>, group: u16, slaves: &[Slave]) -> Result<(), AllocError>
    ensures { OnOk result (all.new.items ≡ all.old.items ++ map (λ (_ : Slave). group) slaves.now) }
{
    for _slave in slaves {
        all.push(group)?;
    }
    Ok(())
}

/// Returns the number of the group of each declared slave, in declared order. `AllocError` if an allocation fails.
pub(crate) fn owners(alloc: Global, groups: &[Declared]) -> Result<Vec<u16>, AllocError>
    requires { length groups.now < 65536 }
    ensures { IfOk result (λ all. all.items ≡ owners_from 0 groups.now) }
{
    let mut all = Vec::new(alloc);
    let mut group = 0;
    for declared in groups {
        add_owners(&mut all, group, declared.group.slaves.as_slice())?;
        group += 1;
    }
    Ok(all)
}
