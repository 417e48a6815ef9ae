//! Slaves and blocks that a plan looks up after edits.
use crate::opened::plan_of;
use hc_groups::index::Index;
use hc_plan::plan::Plan;
use hc_records::edit::Edit;
use hc_records::faults::EditFault;
use std::alloc::{AllocError, Global};
use std::test::Fail;

/// A line whose station addresses do not ascend, with slaves of none to three areas: two mandatory ones, and groups of two, of
/// one and of one.
const MIXED: &str = r#"
slave = [
  { station = 40, area = [
    { sm = 2, dir = "out", phys = 0x1100, task = 0, assigned = [0x1600], pdo = [{ index = 0x1600, entries = [[1, 2]] }] },
  ] },
  { station = 7 },
]
group = [
  { alias = 100, slave = [
    { station = 65535, area = [
      { sm = 2, dir = "out", phys = 0x1100, task = 0, assigned = [0x1600], pdo = [{ index = 0x1600, entries = [[2, 5]] }] },
      { sm = 3, dir = "in", phys = 0x1180, task = 1, assigned = [0x1a00], pdo = [{ index = 0x1a00, entries = [[3, 12]] }] },
    ] },
    { station = 2, area = [
      { sm = 3, dir = "in", phys = 0x1000, task = 0, assigned = [0x1a00], pdo = [
        { index = 0x1a00, entries = [[4, 4]] },
        { index = 0x1a01, entries = [[0, 4], [5, 4]] },
      ] },
    ] },
  ] },
  { alias = 200, slave = [{ station = 30 }] },
  { alias = 300, slave = [
    { station = 9, area = [
      { sm = 0, dir = "out", phys = 0x1000, task = 0, assigned = [1], pdo = [{ index = 1, entries = [[6, 3]] }] },
      { sm = 1, dir = "out", phys = 0x1010, task = 2, assigned = [1], pdo = [{ index = 1, entries = [[7, 3]] }] },
      { sm = 3, dir = "in", phys = 0x1020, task = 0, assigned = [1], pdo = [{ index = 1, entries = [[8, 1]] }] },
    ] },
  ] },
]
"#;

/// A group, true if it is connected and false if disconnected, the station addresses of the line after it, and the number of
/// their blocks.
type Row = (u16, bool, &'static [u16], u32);

const ROWS: &[Row] = &[
    (300, true, &[40, 7, 9], 8),
    (100, true, &[40, 7, 65535, 2, 9], 14),
    (200, true, &[40, 7, 65535, 2, 30, 9], 14),
    (100, false, &[40, 7, 30, 9], 8),
    (300, false, &[40, 7, 30], 2),
    (100, true, &[40, 7, 65535, 2, 30], 8),
];

/// True if a plan finds exactly these slaves, in this order.
fn finds_slaves(plan: &Plan, stations: &[u16]) -> bool {
    let mut position = 0_u32;
    for station in stations {
        if plan.station(position) != Some(*station) || plan.position(*station) != Ok(position) {
            return false;
        }
        position = position.saturating_add(1);
    }
    plan.station(position).is_none() && plan.position(8) == Err(EditFault::UnknownStation)
}

/// Carries out a row's edit. True if the plan then finds the row's slaves and blocks.
fn finds_after(plan: &mut Plan, alloc: Global, row: &Row) -> Result<bool, EditFault> {
    let edit = if row.1 {
        Edit::Connect(row.0)
    } else {
        Edit::Disconnect(row.0)
    };
    plan.apply(alloc, &edit)?;
    Ok(finds_slaves(plan, row.2) && plan.blocks() == row.3 && plan.nth_block(row.3).is_none())
}

/// After each edit of a mixed line its plan finds the right slaves, in order, and their blocks.
#[test]
fn a_mixed_line_is_found_after_each_edit(rt: HostRuntime) -> Result<(), Fail> {
    let mut plan = plan_of(rt.alloc(), MIXED)?;
    for row in ROWS {
        assert!(rt; finds_after(&mut plan, rt.alloc(), row)?);
    }
    Ok(())
}

/// The number of the group with an alias among a plan's groups, by an index made of them.
fn group_of(alloc: Global, plan: &Plan, alias: u16) -> Result<Option<usize>, AllocError> {
    let groups = plan.groups();
    let index = Index::new(alloc, groups)?;
    Ok(index.of(groups).group(alias))
}

/// A declared group is found by its alias. An alias that no group has finds none.
#[test]
fn a_group_is_found_by_its_alias(rt: HostRuntime) -> Result<(), Fail> {
    let plan = plan_of(rt.alloc(), MIXED)?;
    let wanted = [
        (0, Some(0)),
        (100, Some(1)),
        (300, Some(3)),
        (99, None),
        (400, None),
    ];
    for (alias, number) in &wanted {
        assert_eq!(rt; group_of(rt.alloc(), &plan, *alias)?, *number);
    }
    Ok(())
}
