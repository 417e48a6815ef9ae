//! Groups become a project.
use hc_records::items::Items;
use hc_records::{Group, Project, ProjectFault};
use std::test::Fail;

/// A project has the mandatory group at least.
#[test]
fn groups_become_a_project(rt: HostRuntime) -> Result<(), Fail> {
    let alloc = rt.alloc();
    let mut groups = Items::new(alloc);
    let slaves = Items::new(alloc);
    groups.push(Group { alias: 0, slaves })?;
    let project = Project::checked(alloc, groups)?;
    assert_eq!(rt; project.groups().len(), 1);
    let refused = Project::checked(alloc, Items::new(alloc));
    assert_eq!(rt; refused.err(), Some(ProjectFault::OutOfRange));
    Ok(())
}
