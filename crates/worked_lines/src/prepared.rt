//! Edits that are prepared and dropped, and then carried out.
use crate::drawn::remap;
use crate::opened::plan_of;
use crate::steps::has_block;
use hc_plan::plan::Plan;
use hc_plan::prepared::PreparedEdit;
use hc_records::edit::Edit;
use hc_registers::ranked::{Gone, RankedBlock};
use std::alloc::Global;
use std::test::Fail;

/// A slave in the mandatory group, and one in a group that is connected and disconnected.
const TWO_GROUPS: &str = r#"
slave = [
  { station = 1001, area = [
    { sm = 2, dir = "out", phys = 0x1100, task = 0, assigned = [0x1600], pdo = [{ index = 0x1600, entries = [[1, 2]] }] },
    { sm = 3, dir = "in", phys = 0x1180, task = 0, assigned = [0x1a00], pdo = [{ index = 0x1a00, entries = [[2, 12]] }] },
  ] },
]
group = [
  { alias = 100, slave = [
    { station = 1002, area = [
      { sm = 2, dir = "out", phys = 0x1100, task = 0, assigned = [0x1600], pdo = [{ index = 0x1600, entries = [[3, 9]] }] },
    ] },
  ] },
]
"#;

/// No slave leaves.
const NONE: Gone = Gone { rank: 1, slaves: 0 };

/// True if a plan has these blocks.
fn has_blocks(plan: &Plan, blocks: &[RankedBlock]) -> bool {
    for moved in blocks {
        let block = &moved.found.block;
        if !has_block(
            plan,
            moved.found.station,
            moved.found.number,
            block.register(),
            block.bytes(),
        ) {
            return false;
        }
    }
    true
}

/// Carries out an edit that was prepared. True if it has the prepared report, and the plan then has the prepared blocks.
fn is_done(
    plan: &mut Plan,
    alloc: Global,
    edit: &Edit,
    prepared: &PreparedEdit,
) -> Result<bool, Fail> {
    let foretold = format!(in alloc; "{:?}", prepared.report())?;
    let report = plan.apply(alloc, edit)?;
    Ok(format!(in alloc; "{report:?}")? == foretold && has_blocks(plan, prepared.blocks()))
}

/// Prepares an edit, and then carries it out. True if the preparing names these slaves as leaving and leaves the plan as it
/// was, and the edit is carried out as prepared.
fn is_prepared(plan: &mut Plan, alloc: Global, edit: &Edit, gone: Gone) -> Result<bool, Fail> {
    let before = format!(in alloc; "{plan:?}")?;
    let prepared = plan.prepare(alloc, edit)?;
    let is_left = format!(in alloc; "{plan:?}")? == before;
    Ok(is_left && prepared.gone() == gone && is_done(plan, alloc, edit, &prepared)?)
}

/// An edit that is prepared and dropped leaves its plan as it was, and can be carried out afterwards.
#[test]
fn a_prepared_edit_leaves_its_plan(rt: HostRuntime) -> Result<(), Fail> {
    let alloc = rt.alloc();
    let mut plan = plan_of(alloc, TWO_GROUPS)?;
    let moved = Edit::Move {
        station: 1002,
        area: 0,
        task: 1,
    };
    let went = Gone { rank: 2, slaves: 1 };
    assert!(rt; is_prepared(&mut plan, alloc, &Edit::Connect(100), NONE)?);
    assert!(rt; is_prepared(&mut plan, alloc, &remap(alloc, 1001, 1, &[])?, NONE)?);
    assert!(rt; is_prepared(&mut plan, alloc, &moved, NONE)?);
    assert!(rt; is_prepared(&mut plan, alloc, &Edit::Disconnect(100), went)?);
    Ok(())
}
