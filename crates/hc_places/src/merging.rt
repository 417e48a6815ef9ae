//! Rows and changes, both in the order of their variables' numbers: they are merged into memory with room for all, or rows are
//! counted and overwritten in place.
ghost use Rattle.std.specs.Prelude.{◌≡◌, ◌+◌, ◌≤◌, ◌<◌, ◌++◌, ◌↔◌, [], IsTrue, false, length, map, option_to_list, true, vec_capacity};
ghost use Rattle.std.specs.List.{AllWithin};
ghost use Rattle.hc_places.specs.inner.Overwritten.{AreBelow, EndsLower, NextIsNotLower, rows_overwritten, row_with};
ghost use Rattle.hc_places.specs.Swap.{ChangesAscend, KeepRows, keeps_row, new_row};
ghost use Rattle.hc_places.specs.Table.{RowsAscend};
ghost use Rattle.hc_places.specs.inner.Walk.{merges, walked};

use crate::swap::ChangedRow;
use crate::table::{VariableRow, count_below};
use hc_records::records::VarId;

/// The new row of a changed variable, if any.
fn new_row(changed: &ChangedRow) -> Option<VariableRow>
    ensures { option_to_list result ≡ new_row changed.now }
{
    let place = changed.place()?;
    Some((changed.variable(), place))
}

/// Returns the row that is left of the variable with the lowest number, if any, and the changes and the rows after it.
fn next_row<'a>(
    changed: &'a [ChangedRow],
    old: &'a [VariableRow],
) -> (Option<VariableRow>, &'a [ChangedRow], &'a [VariableRow])
    ensures rows { option_to_list result.0 ++ walked merges result.2.now result.1.now ≡ walked merges old.now changed.now }
    ensures fewer { 0 < length changed.now + length old.now → length result.1.now + length result.2.now < length changed.now + length old.now }
{
    match (changed, old) {
        ([], []) => (None, changed, old),
        ([change, others @ ..], []) => (new_row(change), others, old),
        ([], [row, rows @ ..]) => (Some(*row), changed, rows),
        ([change, others @ ..], [row, rows @ ..]) => {
            if change.variable().number() < row.0.number() {
                (new_row(change), others, old)
            } else if row.0.number() < change.variable().number() {
                (Some(*row), changed, rows)
            } else {
                (new_row(change), others, rows)
            }
        }
    }
}

/// Merges a table's rows and changes into memory with room for all.
pub(crate) fn merge(
    into: Vec<VariableRow>,
    changed: &[ChangedRow],
    old: &[VariableRow],
) -> Vec<VariableRow>
    requires empty { into.items ≡ [] }
    requires room { length (walked merges old.now changed.now) ≤ vec_capacity into }
    ensures items { result.items ≡ walked merges old.now changed.now }
    ensures capacity { vec_capacity result ≡ vec_capacity into }
{
    let mut rows = into;
    let mut changes = changed;
    let mut before = old;
    while !changes.is_empty() || !before.is_empty() {
        let (row, others, befores) = next_row(changes, before);
        if let Some(row) = row {
            rows.push_reserved(row);
        }
        changes = others;
        before = befores;
    }
    rows
}

/// Returns the number of rows with a lower number than a variable's. It suits few such rows: it doubles a range of rows until
/// the range reaches the variable.
pub(crate) fn count_near(rows: &[VariableRow], variable: VarId) -> usize
    requires { RowsAscend rows.now }
    ensures bound { result ≤ length rows.now }
    ensures below { AreBelow rows.now variable result }
{
    if rows.is_empty() || variable.number() <= rows[0].0.number() {
        return 0;
    }
    let mut reach = 1;
    while reach < rows.len() && rows[reach].0.number() < variable.number() {
        reach += reach.min(rows.len() - reach);
    }
    count_below(&rows[..reach], variable)
}

/// Returns the number of rows with a lower number than a variable's. The first `front` rows are known to be such rows.
pub(crate) fn count_from(rows: &[VariableRow], front: usize, variable: VarId) -> usize
    requires ascends { RowsAscend rows.now }
    requires front { front ≤ length rows.now }
    requires lower { AllWithin (λ row. row.0 < variable) rows.now 0 front }
    ensures bound { result ≤ length rows.now }
    ensures below { AreBelow rows.now variable result }
{
    front + count_near(&rows[front..], variable)
}

/// True if the last of so many rows has a lower number than a variable's, or if there are none.
fn ends_lower(rows: &[VariableRow], count: usize, variable: VarId) -> bool
    requires { count ≤ length rows.now }
    ensures { result ≡ true → EndsLower rows.now variable count }
{
    if count == 0 {
        return true;
    }
    rows[count - 1].0.number() < variable.number()
}

/// True if the row after so many has a lower number than a variable's.
fn goes_on_lower(rows: &[VariableRow], count: usize, variable: VarId) -> bool
    ensures { result ≡ false → NextIsNotLower rows.now variable count }
{
    match rows.get(count) {
        Some(row) => row.0.number() < variable.number(),
        None => false,
    }
}

/// True if exactly so many rows have a lower number than a variable's.
fn is_count_below(rows: &[VariableRow], count: usize, variable: VarId) -> bool
    requires { RowsAscend rows.now }
    ensures { result ≡ true → (count ≤ length rows.now) × AreBelow rows.now variable count }
{
    if rows.len() < count {
        return false;
    }
    if !ends_lower(rows, count, variable) {
        return false;
    }
    !goes_on_lower(rows, count, variable)
}

/// True if the row with an index is the variable's.
fn is_row_of(rows: &[VariableRow], index: usize, variable: VarId) -> bool
    requires { RowsAscend rows.now }
    ensures { result ≡ true → (index ≤ length rows.now) × AreBelow rows.now variable index }
{
    match rows.get(index) {
        Some(row) => row.0 == variable,
        None => false,
    }
}

/// Returns the number of rows with a lower number than a changed variable's. It is the number that the change has, if that is
/// right; otherwise it is searched for after the first `front` rows, which are known to be lower.
#[inline(always)]
pub(crate) fn find_row(rows: &[VariableRow], front: usize, changed: &ChangedRow) -> usize
    requires ascends { RowsAscend rows.now }
    requires front { front ≤ length rows.now }
    requires lower { AllWithin (λ row. row.0 < changed.now.0) rows.now 0 front }
    ensures bound { result ≤ length rows.now }
    ensures below { AreBelow rows.now changed.now.0 result }
{
    let row = changed.row();
    let variable = changed.variable();
    if is_row_of(rows, row, variable) || is_count_below(rows, row, variable) {
        row
    } else {
        count_from(rows, front, variable)
    }
}

/// Returns the number of rows with no higher number than a variable's, of which `below` have a lower one.
pub(crate) fn count_with(rows: &[VariableRow], below: usize, variable: VarId) -> usize
    requires ascends { RowsAscend rows.now }
    requires bound { below ≤ length rows.now }
    requires below { AreBelow rows.now variable below }
    ensures bound { result ≤ length rows.now }
    ensures low { AllWithin (λ row. row.0 ≤ variable) rows.now 0 result }
    ensures high { AllWithin (λ row. variable < row.0) rows.now result (length rows.now) }
{
    if below < rows.len() && rows[below].0 == variable {
        below + 1
    } else {
        below
    }
}

/// True if a changed variable has a row, which is after those of lower numbers, and keeps it.
pub(crate) fn keeps_row(rows: &[VariableRow], at: usize, changed: &ChangedRow) -> bool
    requires ascends { RowsAscend rows.now }
    requires below { AreBelow rows.now changed.now.0 at }
    ensures { result ≡ keeps_row rows.now changed.now }
{
    let Some(row) = rows.get(at) else {
        return false;
    };
    row.0 == changed.variable() && changed.place().is_some()
}

/// True if each changed variable has a row and keeps it.
#[inline(always)]
pub(crate) fn keep_rows(rows: &[VariableRow], changed: &[ChangedRow]) -> bool
    requires ascends { RowsAscend rows.now }
    requires changes { ChangesAscend changed.now }
    ensures { IsTrue result ↔ KeepRows rows.now changed.now }
{
    let mut front = 0;
    for change in changed {
        let at = find_row(rows, front, change);
        if !keeps_row(rows, at, change) {
            return false;
        }
        front = count_with(rows, at, change.variable());
    }
    true
}

/// Puts a changed variable's new place, if any, into its row, if any, which is after those of lower numbers.
fn overwrite_row(rows: &mut Vec<VariableRow>, at: usize, changed: &ChangedRow)
    requires ascends { RowsAscend rows.old.items }
    requires below { AreBelow rows.old.items changed.now.0 at }
    ensures { rows.new.items ≡ map (row_with changed.now) rows.old.items }
{
    let Some(place) = changed.place() else {
        return;
    };
    if at < rows.len() && rows[at].0 == changed.variable() {
        rows[at] = (changed.variable(), place);
    }
}

/// Puts the new places of changed variables into their rows. No row is added or removed.
#[inline(always)]
pub(crate) fn overwrite(rows: &mut Vec<VariableRow>, changed: &[ChangedRow])
    requires ascends { RowsAscend rows.old.items }
    requires changes { ChangesAscend changed.now }
    ensures { rows.new.items ≡ rows_overwritten changed.now rows.old.items }
{
    let mut front = 0;
    for change in changed {
        let at = find_row(rows.as_slice(), front, change);
        front = count_with(rows.as_slice(), at, change.variable());
        overwrite_row(rows, at, change);
    }
}
