//! Groups that are declared while the line runs.
ghost use Rattle.std.specs.Prelude.{◌<◌};

use crate::opened::{group_of, plan_of};
use crate::steps::Step::{At, Connect, Datagrams, Declare, Disconnect, Part};
use crate::steps::{Step, first_wrong_of};
use hc_plan::plan::Plan;
use hc_records::edit::Edit;
use hc_records::faults::{EditFault, ProjectFault};
use hc_records::records::Dir;
use std::alloc::{AllocError, Global};
use std::test::Fail;

/// A gripper in a group of its own, with 2 bits of outputs and 12 of inputs.
const GRIPPER: &str = r#"
group = [
  { alias = 100, slave = [
    { station = 1001, area = [
      { sm = 2, dir = "out", phys = 0x1100, task = 0, assigned = [0x1600], pdo = [{ index = 0x1600, entries = [[1, 2]] }] },
      { sm = 3, dir = "in", phys = 0x1180, task = 0, assigned = [0x1a00], pdo = [{ index = 0x1a00, entries = [[2, 12]] }] },
    ] },
  ] },
]
"#;

/// A feeder with 8 bits of outputs.
const FEEDER: &str = r#"
group = [
  { alias = 200, slave = [
    { station = 2001, area = [
      { sm = 2, dir = "out", phys = 0x1000, task = 0, assigned = [5], pdo = [{ index = 5, entries = [[3, 8]] }] },
    ] },
  ] },
]
"#;

/// The feeder under another alias.
const OTHER_ALIAS: &str = r#"
group = [
  { alias = 201, slave = [
    { station = 2001, area = [
      { sm = 2, dir = "out", phys = 0x1000, task = 0, assigned = [5], pdo = [{ index = 5, entries = [[3, 8]] }] },
    ] },
  ] },
]
"#;

/// The feeder under another alias, and with another station address too.
const OTHER_STATION: &str = r#"
group = [
  { alias = 201, slave = [
    { station = 2002, area = [
      { sm = 2, dir = "out", phys = 0x1000, task = 0, assigned = [5], pdo = [{ index = 5, entries = [[3, 8]] }] },
    ] },
  ] },
]
"#;

/// A group that offers one of the gripper's variables.
const OFFERS_THE_GRIPPERS: &str = r#"
group = [
  { alias = 300, slave = [
    { station = 3001, area = [
      { sm = 0, dir = "in", phys = 0x1000, task = 7, assigned = [], pdo = [{ index = 5, entries = [[9, 8], [2, 1]] }] },
    ] },
  ] },
]
"#;

/// The four blocks of the gripper.
const FOUR: &[(u16, u8)] = &[(1001, 0), (1001, 1), (1001, 2), (1001, 3)];

/// A declared group is absent until it is connected, and is after the others then. Its alias, stations and variables are taken
/// from its declaration on, present or not.
const DECLARED: &[Step] = &[
    Connect(100, Ok((1, 1, 2, FOUR))),
    Declare(FEEDER, Ok((2, 0, 0, &[]))),
    At(3, None),
    Datagrams(0, &[(0x0100_0000, 3, 3, 0)]),
    Connect(200, Ok((3, 1, 2, &[(1001, 3), (2001, 0), (2001, 1)]))),
    Datagrams(0, &[(0x0100_0000, 4, 5, 0)]),
    Part(0, (2, 2)),
    At(3, Some((0, 0, 8, 8, Dir::Out))),
    Declare(FEEDER, Err(EditFault::AliasTaken)),
    Declare(OTHER_ALIAS, Err(EditFault::StationTaken)),
    Declare(OTHER_STATION, Err(EditFault::VariableTaken)),
    Disconnect(100, Ok((4, 1, 3, &[(2001, 1)]))),
    Declare(OFFERS_THE_GRIPPERS, Err(EditFault::VariableTaken)),
    Connect(300, Err(EditFault::UnknownAlias)),
];

/// A declared group is absent until it is connected. Its alias, stations and variables are taken from its declaration on.
#[test]
fn a_declared_group_comes_when_it_is_connected(rt: HostRuntime) -> Result<(), Fail> {
    assert_eq!(rt; first_wrong_of(rt.alloc(), GRIPPER, DECLARED)?, None);
    Ok(())
}

/// A project of `count` mandatory slaves without areas.
fn bare_slaves(alloc: Global, count: u16) -> Result<String, AllocError> {
    let mut text = String::new(alloc);
    for station in 1..=count {
        write!(text, "[[slave]]\nstation = {station}\n")?;
    }
    Ok(text)
}

/// Groups with these aliases, each of a slave without areas whose station address is 10,000 higher.
fn bare_groups(alloc: Global, first: u16, last: u16) -> Result<String, AllocError>
    requires { last < 10000 }
{
    let mut text = String::new(alloc);
    for alias in first..=last {
        let station = 10_000 + alias;
        write!(
            text,
            "[[group]]\nalias = {alias}\n[[group.slave]]\nstation = {station}\n"
        )?;
    }
    Ok(text)
}

/// The fault of declaring such a group with an alias. None if it is declared.
fn fault_of(plan: &mut Plan, alloc: Global, alias: u16) -> Result<Option<EditFault>, Fail>
    requires { alias < 10000 }
{
    let text = bare_groups(alloc, alias, alias)?;
    let edit = Edit::Declare(group_of(alloc, text.as_str())?);
    Ok(plan.apply(alloc, &edit).err())
}

/// The last of 2,048 slaves is declared, and comes, and no other one is declared after it.
#[test]
fn as_many_slaves_are_declared_as_a_line_may_have(rt: HostRuntime) -> Result<(), Fail> {
    let alloc = rt.alloc();
    let mut plan = plan_of(alloc, bare_slaves(alloc, 2047)?.as_str())?;
    assert_eq!(rt; fault_of(&mut plan, alloc, 1)?, None);
    assert!(rt; plan.apply(alloc, &Edit::Connect(1)).is_ok());
    assert_eq!(rt; plan.station(2047), Some(10_001));
    assert_eq!(rt;
        fault_of(&mut plan, alloc, 2)?,
        Some(EditFault::TooManySlaves)
    );
    Ok(())
}

/// The last of 512 groups is declared, and no other one after it.
#[test]
fn as_many_groups_are_declared_as_a_line_may_have(rt: HostRuntime) -> Result<(), Fail> {
    let alloc = rt.alloc();
    let mut plan = plan_of(alloc, bare_groups(alloc, 1, 510)?.as_str())?;
    assert_eq!(rt; fault_of(&mut plan, alloc, 511)?, None);
    assert_eq!(rt;
        fault_of(&mut plan, alloc, 512)?,
        Some(EditFault::TooManyGroups)
    );
    Ok(())
}

/// A group that is not valid by itself is refused with its own fault, before its alias, stations and variables are compared
/// with those that are taken.
#[test]
fn a_group_is_judged_by_itself_first(rt: HostRuntime) -> Result<(), Fail> {
    let alloc = rt.alloc();
    let mut plan = plan_of(alloc, GRIPPER)?;
    let mut group = group_of(alloc, FEEDER)?;
    group.alias = 0;
    let answer = plan.apply(alloc, &Edit::Declare(group)).err();
    assert_eq!(rt; answer, Some(EditFault::BadGroup(ProjectFault::OutOfRange)));
    Ok(())
}
