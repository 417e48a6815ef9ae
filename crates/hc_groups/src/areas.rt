//! Slaves with one area changed.
ghost use Rattle.std.specs.Prelude.{◌≡◌, IfOk, if◌then◌else◌};
ghost use Rattle.hc_records.specs.Lists.{changed_at};
ghost use Rattle.hc_groups.specs.Edits.{changed_area};

use hc_records::items::{Copied, Items};
use hc_records::records::Area;
use std::alloc::{AllocError, Global};

/// The change of an area.
#[derive(Drop)]
pub enum AreaChange<'a> {
    /// These PDOs are assigned, in this order.
    Pdos(&'a Items<u16>),
    /// It is in this task.
    Task(u8),
}

/// The area that an edit changes, and its change.
#[derive(Drop)]
pub struct AreaEdit<'a> {
    /// The station address of its slave.
    pub station: u16,
    /// The index of the area in the slave's record, from 0.
    pub area: u8,
    /// The change of the area.
    pub change: AreaChange<'a>,
}

/// A copy of an area with these PDOs assigned.
fn reassigned(alloc: Global, area: &Area, pdos: &Items<u16>) -> Result<Area, AllocError>
    ensures { IfOk result (λ after. after ≡ record area.now { assigned = pdos.now }) }
{
    Ok(Area {
        sm: area.sm,
        dir: area.dir,
        phys: area.phys,
        offered: area.offered.copied(alloc)?,
        assigned: pdos.copied(alloc)?,
        task: area.task,
    })
}

/// A copy of an area in a task.
fn moved(alloc: Global, area: &Area, task: u8) -> Result<Area, AllocError>
    ensures { IfOk result (λ after. after ≡ record area.now { task = task }) }
{
    let mut after = area.copied(alloc)?;
    after.task = task;
    Ok(after)
}

/// A copy of an area with a change.
fn changed(alloc: Global, area: &Area, change: &AreaChange) -> Result<Area, AllocError>
    ensures { IfOk result (λ after. after ≡ changed_area change.now area.now) }
{
    match change {
        AreaChange::Pdos(pdos) => reassigned(alloc, area, pdos),
        AreaChange::Task(task) => moved(alloc, area, *task),
    }
}

/// Returns a copy of an area, changed if it is the one of the edit.
fn area_after(
    alloc: Global,
    area: &Area,
    is_changed: bool,
    change: &AreaChange,
) -> Result<Area, AllocError>
    ensures { IfOk result (λ after. after ≡ (if is_changed then changed_area change.now area.now else area.now)) }
{
    if is_changed {
        changed(alloc, area, change)
    } else {
        area.copied(alloc)
    }
}

/// Returns the areas of a slave with the one of the edit changed; unchanged if there is no such area. `AllocError` if an
/// allocation fails.
pub fn areas_after(
    alloc: Global,
    areas: &[Area],
    edit: &AreaEdit,
) -> Result<Items<Area>, AllocError>
    ensures { IfOk result (λ after. after ≡ changed_at edit.now.area (changed_area edit.now.change) areas.now) }
{
    let mut after = Items::new(alloc);
    for i in 0..areas.len() {
        let is_changed = i == usize::from(edit.area);
        after.push(area_after(alloc, &areas[i], is_changed, &edit.change)?)?;
    }
    Ok(after)
}
