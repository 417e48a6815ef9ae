//! Projects that are made of groups, without a text.
use hc_records::faults::ProjectFault;
use hc_records::items::{Copied, Items, Same};
use hc_records::project::Project;
use hc_records::records::{Area, Dir, Group, Pdo, Slave, VarId};
use std::alloc::{AllocError, Global};
use std::test::Fail;

/// A slave with an output area of one variable, 8 bits wide.
fn slave(alloc: Global, station: u16) -> Result<Slave, AllocError> {
    let mut entries = Items::new(alloc);
    entries.push((VarId::new(u32::from(station)), 8))?;
    let mut offered = Items::new(alloc);
    offered.push(Pdo {
        index: 0x1600,
        entries,
    })?;
    let mut areas = Items::new(alloc);
    areas.push(Area {
        sm: 2,
        dir: Dir::Out,
        phys: 0x1100,
        offered,
        assigned: Items::of(Vec::from_slice(alloc, &[0x1600])?),
        task: 0,
    })?;
    Ok(Slave { station, areas })
}

/// Groups with these aliases, each of one slave.
fn groups_of(alloc: Global, aliases: &[u16]) -> Result<Items<Group>, AllocError> {
    let mut groups = Items::new(alloc);
    let mut station = 1_u16;
    for alias in aliases {
        let mut slaves = Items::new(alloc);
        slaves.push(slave(alloc, station)?)?;
        groups.push(Group {
            alias: *alias,
            slaves,
        })?;
        station = station.saturating_add(1);
    }
    Ok(groups)
}

/// The aliases of groups, and the fault of their project: the first group alone has the alias 0.
const ROWS: [(&[u16], Option<ProjectFault>); 5] = [
    (&[], Some(ProjectFault::OutOfRange)),
    (&[1], Some(ProjectFault::OutOfRange)),
    (&[0, 0], Some(ProjectFault::OutOfRange)),
    (&[0, 100, 100], Some(ProjectFault::RepeatedAlias)),
    (&[0, 100], None),
];

/// The fault of a project of such groups.
fn judged(alloc: Global, aliases: &[u16]) -> Result<Option<ProjectFault>, AllocError> {
    Ok(Project::checked(alloc, groups_of(alloc, aliases)?).err())
}

/// A project is accepted only if its first group, and no other, has alias 0.
#[test]
fn the_first_group_is_the_mandatory_one(rt: HostRuntime) -> Result<(), Fail> {
    for (aliases, fault) in &ROWS {
        assert_eq!(rt; judged(rt.alloc(), *aliases)?, *fault);
    }
    Ok(())
}

/// True if a project gives back the groups of which it was made.
fn is_given_back(alloc: Global) -> Result<bool, Fail> {
    let groups = groups_of(alloc, &[0, 100])?;
    let copy = groups.copied(alloc)?;
    let project = Project::checked(alloc, groups)?;
    Ok(project.into_groups().is_same(&copy))
}

/// A project gives back the groups that it was made of.
#[test]
fn copies_are_the_same(rt: HostRuntime) -> Result<(), Fail> {
    assert!(rt; is_given_back(rt.alloc())?);
    Ok(())
}

/// True if a checked copy of a group is the same. Fails with the group's fault if it may not be declared.
fn is_copied(alloc: Global, group: &Group) -> Result<bool, ProjectFault> {
    Ok(group.checked(alloc)?.is_same(group))
}

/// A group with its slaves twice.
fn doubled(alloc: Global, group: &Group) -> Result<Group, AllocError> {
    let mut slaves = group.slaves.copied(alloc)?;
    for slave in group.slaves.as_slice() {
        slaves.push(slave.copied(alloc)?)?;
    }
    Ok(Group {
        alias: group.alias,
        slaves,
    })
}

/// A group with alias 0 cannot be declared. A tool's group is copied as it is, and refused with `RepeatedStation` once its
/// slaves are doubled.
#[test]
fn groups_are_judged_alone(rt: HostRuntime) -> Result<(), Fail> {
    for mandatory in groups_of(rt.alloc(), &[0])?.as_slice() {
        assert_eq!(rt;
            is_copied(rt.alloc(), mandatory).err(),
            Some(ProjectFault::OutOfRange)
        );
    }
    for tool in groups_of(rt.alloc(), &[100])?.as_slice() {
        assert!(rt; is_copied(rt.alloc(), tool)?);
        let twice = doubled(rt.alloc(), tool)?;
        assert_eq!(rt;
            is_copied(rt.alloc(), &twice).err(),
            Some(ProjectFault::RepeatedStation)
        );
    }
    Ok(())
}

/// A list of the first `count` numbers, which are pushed one by one, each into memory that was allocated before.
fn grown(alloc: Global, count: u16) -> Result<Items<u16>, AllocError> {
    let mut list = Items::new(alloc);
    for number in 0..count {
        let room = list.room_for(alloc, 1)?;
        list.push_into(room, number);
    }
    Ok(list)
}

/// A list that grows one by one in reserved memory has all its items, in order.
#[test]
fn lists_grow_into_their_room(rt: HostRuntime) -> Result<(), Fail> {
    let list = grown(rt.alloc(), 9)?;
    assert!(rt; list.as_slice() == [0, 1, 2, 3, 4, 5, 6, 7, 8].as_slice());
    Ok(())
}
