//! Changes to a table's rows of which some add or remove rows. The rows from the first such change to the last are merged aside
//! and put back, and the others are overwritten in place.
ghost use Rattle.std.specs.Prelude.{◌≡◌, ◌+◌, ◌-◌, ◌≤◌, ◌++◌, [], IsTrue, drop, length, slice_range, take, vec_capacity};
ghost use Rattle.std.specs.List.{AllWithin};
ghost use Rattle.hc_places.specs.Swap.{ChangesAscend, keeps_row, merged};
ghost use Rattle.hc_places.specs.Table.{RowsAscend};

use crate::merging::{count_near, count_with, find_row, keeps_row, merge, overwrite};
use crate::swap::ChangedRow;
use crate::table::VariableRow;

/// Returns the number of changes before the first that adds or removes a row, and the number up to and with the last such
/// change; 0 and 0 if there is none.
fn find_middle(rows: &[VariableRow], changed: &[ChangedRow]) -> (usize, usize)
    requires ascends { RowsAscend rows.now }
    requires changes { ChangesAscend changed.now }
    ensures order { result.0 ≤ result.1 }
    ensures bound { result.1 ≤ length changed.now }
    ensures front { AllWithin (λ change. IsTrue (keeps_row rows.now change)) changed.now 0 result.0 }
    ensures after_it { AllWithin (λ change. IsTrue (keeps_row rows.now change)) changed.now result.1 (length changed.now) }
{
    let mut lower = 0;
    let mut first = 0;
    let mut end = 0;
    for i in 0..changed.len() {
        let change = &changed[i];
        let at = find_row(rows, lower, change);
        lower = count_with(rows, at, change.variable());
        if !keeps_row(rows, at, change) {
            first = if end == 0 { i } else { first };
            end = i + 1;
        }
    }
    (first, end)
}

/// Returns the number of rows with lower numbers than all changes, and the number with no higher number than the last change.
fn find_rows(rows: &[VariableRow], changed: &[ChangedRow]) -> (usize, usize)
    requires ascends { RowsAscend rows.now }
    requires changes { ChangesAscend changed.now }
    ensures order { result.0 ≤ result.1 }
    ensures bound { result.1 ≤ length rows.now }
    ensures parts { merged changed.now rows.now ≡ take result.0 rows.now ++ (merged changed.now (slice_range rows.now result.0 result.1) ++ drop result.1 rows.now) }
{
    let (Some(first), Some(last)) = (changed.first(), changed.last()) else {
        return (0, 0);
    };
    let low = count_near(rows, first.variable());
    let after_it = &rows[low..];
    let last = last.variable();
    (
        low,
        low + count_with(after_it, count_near(after_it, last), last),
    )
}

/// Shifts the rows after the first `high` up by the length of `more`. The capacity suffices.
fn widen(rows: &mut Vec<VariableRow>, high: usize, more: &[VariableRow])
    requires bound { high ≤ length rows.old.items }
    requires room { length rows.old.items + length more.now ≤ vec_capacity rows.old }
    ensures size { length rows.new.items ≡ length rows.old.items + length more.now }
    ensures front { take high rows.new.items ≡ take high rows.old.items }
    ensures after_it { drop (high + length more.now) rows.new.items ≡ drop high rows.old.items }
{
    let count = rows.len();
    append(rows, more);
    rows.copy_within(high..count, high + more.len());
}

/// Adds rows after others. The capacity suffices.
fn append(rows: &mut Vec<VariableRow>, more: &[VariableRow])
    requires room { length rows.old.items + length more.now ≤ vec_capacity rows.old }
    ensures { rows.new.items ≡ rows.old.items ++ more.now }
{
    for row in more {
        rows.push_reserved(*row);
    }
}

/// Removes the rows after the first `low`, up to the first `high`.
fn narrow(rows: &mut Vec<VariableRow>, low: usize, high: usize)
    requires order { low ≤ high }
    requires bound { high ≤ length rows.old.items }
    ensures { rows.new.items ≡ take low rows.old.items ++ drop high rows.old.items }
{
    let count = rows.len();
    rows.copy_within(high..count, low);
    rows.truncate(count - (high - low));
}

/// Shifts the rows after the first `high`, so that as many rows as `new` has lie between them and the first `low`.
fn make_place(rows: &mut Vec<VariableRow>, low: usize, high: usize, new: &[VariableRow])
    requires order { low ≤ high }
    requires bound { high ≤ length rows.old.items }
    requires room { length rows.old.items + length new.now ≤ vec_capacity rows.old + (high - low) }
    ensures size { low + length new.now ≤ length rows.new.items }
    ensures front { take low rows.new.items ≡ take low rows.old.items }
    ensures after_it { drop (low + length new.now) rows.new.items ≡ drop high rows.old.items }
{
    let old = high - low;
    if old < new.len() {
        widen(rows, high, &new[old..]);
    } else if new.len() < old {
        narrow(rows, low + new.len(), high);
    }
}

/// Writes new rows over those after the first `low`.
fn lay(rows: &mut [VariableRow], low: usize, new: &[VariableRow])
    requires { low + length new.now ≤ length rows.old }
    ensures { rows.new ≡ take low rows.old ++ (new.now ++ drop (low + length new.now) rows.old) }
{
    rows[low..low + new.len()].copy_from_slice(new);
}

/// Replaces the rows after the first `low`, up to the first `high`, with new ones. The capacity suffices.
fn replace_rows(rows: &mut Vec<VariableRow>, low: usize, high: usize, new: &[VariableRow])
    requires order { low ≤ high }
    requires bound { high ≤ length rows.old.items }
    requires room { length rows.old.items + length new.now ≤ vec_capacity rows.old + (high - low) }
    ensures { rows.new.items ≡ take low rows.old.items ++ (new.now ++ drop high rows.old.items) }
{
    make_place(rows, low, high, new);
    lay(rows.as_mut_slice(), low, new);
}

/// Changes rows, with the help of memory that has room for all. If the rows' own capacity has room for one more for each
/// change, the rows from the first change to the last are merged in that memory and put back. Otherwise all rows are merged
/// there, and stay there.
fn merge_rows(rows: &mut Vec<VariableRow>, changed: &[ChangedRow], into: Vec<VariableRow>)
    requires ascends { RowsAscend rows.old.items }
    requires changes { ChangesAscend changed.now }
    requires empty { into.items ≡ [] }
    requires room { length (merged changed.now rows.old.items) ≤ vec_capacity into }
    ensures { rows.new.items ≡ merged changed.now rows.old.items }
{
    if changed.len() <= rows.capacity() - rows.len() {
        let (low, high) = find_rows(rows.as_slice(), changed);
        let new = merge(into, changed, &rows[low..high]);
        replace_rows(rows, low, high, new.as_slice());
    } else {
        *rows = merge(into, changed, rows.as_slice());
    }
}

/// Changes rows, with the help of memory that has room for all. The changes before the first that adds or removes a row, and
/// after the last such change, overwrite their rows; those between are merged.
pub(crate) fn change_middle(
    rows: &mut Vec<VariableRow>,
    changed: &[ChangedRow],
    into: Vec<VariableRow>,
)
    requires ascends { RowsAscend rows.old.items }
    requires changes { ChangesAscend changed.now }
    requires empty { into.items ≡ [] }
    requires room { length (merged changed.now rows.old.items) ≤ vec_capacity into }
    ensures { rows.new.items ≡ merged changed.now rows.old.items }
{
    let (first, end) = find_middle(rows.as_slice(), changed);
    overwrite(rows, &changed[..first]);
    overwrite(rows, &changed[end..]);
    merge_rows(rows, &changed[first..end], into);
}
