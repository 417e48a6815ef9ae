//! `changed_rows`: the variables that are elsewhere, appear or go with an edit.
ghost use Rattle.std.specs.Prelude.{◌≡◌, ◌++◌, ◌==◌, All, IfOk, OnOk, map, None};
ghost use Rattle.std.specs.List.{list_any};
ghost use Rattle.hc_records.specs.Project.{entry_names};
ghost use Rattle.hc_changes.specs.Rows.{IsInside, area_variables_of, assigned_variables, candidate_rows, changed_rows, gone_rows, gone_variables, is_new_row, moved_rows, rows_of, rows_of_gone};

use crate::maybe_moved_areas::MaybeMoved;
use hc_cuts::line_change::LineChange;
use hc_places::swap::ChangedRow;
use hc_places::table::{Place, Places};
use hc_places::variables::add_area;
use hc_records::assignment::offered_entries;
use hc_records::records::{Area, Entry, VarId};
use hc_records::task::Task;
use std::alloc::{AllocError, Global};

/// Adds the variables of a candidate with their places; none if the candidate has no place. Fails with `AllocError` if an
/// allocation fails.
fn add_candidate(rows: &mut Vec<(VarId, Place)>, candidate: &MaybeMoved) -> Result<(), AllocError>
    requires { IsInside candidate.now }
    ensures { OnOk result (rows.new.items ≡ rows.old.items ++ rows_of candidate.now) }
{
    match candidate.place {
        Some(placed) => add_area(rows, Task(candidate.area.task), candidate.area, placed),
        None => Ok(()),
    }
}

/// The variables of candidates with their places.
fn candidate_rows(
    alloc: Global,
    candidates: &[MaybeMoved],
) -> Result<Vec<(VarId, Place)>, AllocError>
    requires { All IsInside candidates.now }
    ensures { IfOk result (λ rows. rows.items ≡ candidate_rows candidates.now) }
{
    let mut rows = Vec::new(alloc);
    for candidate in candidates {
        add_candidate(&mut rows, candidate)?;
    }
    Ok(rows)
}

/// True if a variable has another place in a table than this one, or none. It is looked up near the one before it.
fn is_new(old: &Places, near: &mut usize, variable: VarId, place: Place) -> bool
    ensures { result ≡ is_new_row old.now (variable, place) }
{
    old.place_near(near, variable) != Some(place)
}

/// Adds the variables that have another place in a table than their new one, or none. Fails with `AllocError` if an allocation
/// fails.
fn add_moved(
    rows: &mut Vec<ChangedRow>,
    old: &Places,
    found: &[(VarId, Place)],
) -> Result<(), AllocError>
    ensures { OnOk result (rows.new.items ≡ rows.old.items ++ moved_rows old.now found.now) }
{
    let mut near = 0;
    for row in found {
        let (variable, place) = *row;
        if is_new(old, &mut near, variable, place) {
            rows.push(ChangedRow::of(variable, Some(place), near))?;
        }
    }
    Ok(())
}

/// Adds the variables of entries.
fn add_entry_variables(variables: &mut Vec<VarId>, entries: &[Entry]) -> Result<(), AllocError>
    ensures { OnOk result (variables.new.items ≡ variables.old.items ++ entry_names entries.now) }
{
    for entry in entries {
        if let Some(variable) = entry.0 {
            variables.push(variable)?;
        }
    }
    Ok(())
}

/// Adds the variables that an area's assigned PDOs carry.
fn add_area_variables(variables: &mut Vec<VarId>, area: &Area) -> Result<(), AllocError>
    ensures { OnOk result (variables.new.items ≡ variables.old.items ++ area_variables_of area.now) }
{
    for index in area.assigned.as_slice() {
        let entries = offered_entries(area.offered.as_slice(), *index);
        add_entry_variables(variables, entries)?;
    }
    Ok(())
}

/// The variables that a slave's areas carry.
fn slave_variables(alloc: Global, areas: &[Area]) -> Result<Vec<VarId>, AllocError>
    ensures { IfOk result (λ variables. variables.items ≡ assigned_variables areas.now) }
{
    let mut variables = Vec::new(alloc);
    for area in areas {
        add_area_variables(&mut variables, area)?;
    }
    Ok(variables)
}

/// True if a variable is among others.
fn is_among(variable: VarId, variables: &[VarId]) -> bool
    ensures { result ≡ list_any (λ other. other == variable) variables.now }
{
    variables.iter().any(|other| *other == variable)
}

/// Adds the variables of `before` that are not in `after`, each with the index of its row in a table.
fn add_gone(
    rows: &mut Vec<ChangedRow>,
    old: &Places,
    before: &[VarId],
    after: &[VarId],
) -> Result<(), AllocError>
    ensures { OnOk result (rows.new.items ≡ rows.old.items ++ rows_of_gone before.now after.now) }
{
    let mut near = 0;
    for variable in before {
        if !is_among(*variable, after) {
            let _was = old.place_near(&mut near, *variable);
            rows.push(ChangedRow::of(*variable, None, near))?;
        }
    }
    Ok(())
}

/// Adds the variables that a slave's areas carried and carry no longer.
fn add_slave(
    alloc: Global,
    rows: &mut Vec<ChangedRow>,
    old: &Places,
    before: &[Area],
    after: &[Area],
) -> Result<(), AllocError>
    ensures { OnOk result (rows.new.items ≡ rows.old.items ++ map (λ variable. (variable, None)) (gone_variables (before.now, after.now))) }
{
    let carried = slave_variables(alloc, before)?;
    let carries = slave_variables(alloc, after)?;
    add_gone(rows, old, &carried, &carries)
}

/// Adds the variables that the areas of the changed slaves carried and carry no longer, slave by slave.
fn add_slaves(
    alloc: Global,
    rows: &mut Vec<ChangedRow>,
    old: &Places,
    change: &LineChange,
) -> Result<(), AllocError>
    ensures { OnOk result (rows.new.items ≡ rows.old.items ++ gone_rows change.now) }
{
    for i in 0..change.slaves() {
        add_slave(
            alloc,
            rows,
            old,
            change.areas_before(i),
            change.areas_after(i),
        )?;
    }
    Ok(())
}

/// Returns the changes of an edit to the places of a line's variables, from its candidates, the differences in the line, and
/// the table of the line before the edit. First come the candidates' variables that had another place or none, each with its
/// new place. After them come the variables that the changed slaves carried and carry no longer, without a place. For an edit's
/// own candidates these are the variables that are elsewhere, appear or go with the edit, each once. Each candidate's place
/// lies in one of 16 datagrams. Fails with `AllocError` if an allocation fails.
pub fn changed_rows(
    alloc: Global,
    old: &Places,
    candidates: &[MaybeMoved],
    change: &LineChange,
) -> Result<Vec<ChangedRow>, AllocError>
    requires inside { All IsInside candidates.now }
    ensures { IfOk result (λ rows. rows.items ≡ changed_rows old.now candidates.now change.now) }
{
    let found = candidate_rows(alloc, candidates)?;
    let mut rows = Vec::new(alloc);
    add_moved(&mut rows, old, &found)?;
    add_slaves(alloc, &mut rows, old, change)?;
    Ok(rows)
}
