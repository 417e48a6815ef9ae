//! Projects: declared groups in which every value is in its range and every name occurs once.
ghost use Rattle.std.specs.Prelude.{◌≡◌, ◌≢◌, Err, None, Some, IfErr, IfOk, IsTrue, OnOk};
ghost use Rattle.hc_records.specs.Edits.{smallest_project};
ghost use Rattle.hc_records.specs.Limits.{IsProjectInside};
ghost use Rattle.hc_records.specs.Project.{has_outside, lowest_fault};
ghost use Rattle.hc_records.specs.declared.faults.ProjectFault.TheVariants.{Memory, OutOfRange};

use crate::conditions::judge;
use crate::faults::ProjectFault;
use crate::items::{Copied, Items};
use crate::records::Group;
use std::alloc::{AllocError, Global};
use std::marker::Model;

/// Declared groups, the mandatory one first, for which no fault's condition holds.
#[derive(Debug, Drop)]
pub struct Project {
    groups: Items<Group>,
}

impl Model for Project {
    ghost use Rattle.std.specs.Prelude.{◌≡◌, List, None};
    ghost use Rattle.hc_records.specs.declared.records.Group.{Group};

    ghost Value = { List Group };

    ghost use Rattle.hc_records.specs.Project.{lowest_fault};

    ghost view = { λ project. project.groups };

    ghost invariant = { λ project. lowest_fault project.groups ≡ None };
}

impl Project {
    /// Returns the project of declared groups. Fails with the lowest fault whose condition holds over all of them, from
    /// `OutOfRange` to `AreaTooBig`, or with `Memory` if an allocation fails; then the groups are dropped. `OutOfRange` is
    /// judged before any allocation.
    pub fn checked(alloc: Global, groups: Items<Group>) -> Result<Project, ProjectFault>
        ensures project { IfOk result (λ project. project ≡ groups) }
        ensures accepted { OnOk result (lowest_fault groups ≡ None) }
        ensures refused { IfErr result (λ fault. fault ≢ Memory → lowest_fault groups ≡ Some fault) }
        ensures outside { IsTrue (has_outside groups) → result ≡ Err OutOfRange }
    {
        judge(alloc, groups.as_slice())?;
        Ok(Project { groups })
    }

    /// Returns the declared groups, the mandatory one first.
    pub fn groups(&self) -> &[Group]
        ensures value { result.now ≡ self.now }
        ensures project { lowest_fault self.now ≡ None }
        ensures inside { IsProjectInside self.now }
    {
        self.groups.as_slice()
    }

    /// Returns the declared groups, and ends the project.
    pub fn into_groups(self) -> Items<Group>
        ensures value { result ≡ self }
        ensures project { lowest_fault self ≡ None }
    {
        let Project { groups } = self;
        groups
    }
}

/// Returns an empty mandatory group, and a copy of a group after it.
fn alone(alloc: Global, group: &Group) -> Result<Vec<Group>, AllocError>
    ensures { IfOk result (λ groups. groups.items ≡ smallest_project group.now) }
{
    let mut groups = Vec::with_capacity(alloc, 2)?;
    groups.push_reserved(Group {
        alias: 0,
        slaves: Items::new(alloc),
    });
    groups.push_reserved(group.copied(alloc)?);
    Ok(groups)
}

impl Group {
    /// Returns a copy of the group, if it may be in a project: no fault's condition holds for it beside an empty mandatory
    /// group. The group is unchanged. Fails with the lowest fault from `OutOfRange` to `AreaTooBig` whose condition holds, or
    /// with `Memory` if an allocation fails.
    pub fn checked(&self, alloc: Global) -> Result<Group, ProjectFault>
        ensures copy { IfOk result (λ copy. copy ≡ self.now) }
        ensures accepted { OnOk result (lowest_fault (smallest_project self.now) ≡ None) }
        ensures refused { IfErr result (λ fault. fault ≢ Memory → lowest_fault (smallest_project self.now) ≡ Some fault) }
    {
        let mut both = alone(alloc, self)?;
        judge(alloc, both.as_slice())?;
        let Some(copy) = both.pop() else {
            unreachable!()
        };
        Ok(copy)
    }
}
