//! Look-ups of variables one after another, each near the one before, and of changed variables by the rows that the changes
//! report.
ghost use Rattle.std.specs.Prelude.{◌≡◌, ◌≤◌, length};
ghost use Rattle.hc_places.specs.inner.Overwritten.{AreBelow};
ghost use Rattle.hc_places.specs.Table.{RowsAscend};

use crate::merging::{count_from, find_row};
use crate::swap::ChangedRow;
use crate::table::{Place, Places, VariableRow, count_below, place_at};
use hc_records::records::VarId;

/// Returns the number of rows with a lower number than a variable's. It searches after the first `near` rows if all of these
/// have a lower number, otherwise among all rows.
fn count_beside(rows: &[VariableRow], near: usize, variable: VarId) -> usize
    requires { RowsAscend rows.now }
    ensures bound { result ≤ length rows.now }
    ensures below { AreBelow rows.now variable result }
{
    if 0 < near && near <= rows.len() && rows[near - 1].0.number() < variable.number() {
        return count_from(rows, near, variable);
    }
    count_below(rows, variable)
}

impl Places {
    ghost use Rattle.std.specs.Prelude.{◌≡◌};
    ghost use Rattle.hc_places.specs.Table.{place_in};

    /// Returns the place of a variable, as `place` does. `near` is the row of the variable that was looked up before, or any
    /// other number, and is afterwards the row of this one. Variables that are looked up in the order of their numbers are
    /// found in few steps each. It allocates nothing.
    pub fn place_near(&self, near: &mut usize, variable: VarId) -> Option<Place>
        ensures { result ≡ place_in self.now variable }
    {
        let rows = self.variables();
        let at = count_beside(rows, *near, variable);
        *near = at;
        place_at(rows, at, variable)
    }

    /// Returns the place of a changed variable, as `place` does. In the table that the change was made for it needs no search.
    /// It allocates nothing.
    pub fn old_place(&self, changed: &ChangedRow) -> Option<Place>
        ensures { result ≡ place_in self.now changed.now.0 }
    {
        let rows = self.variables();
        place_at(rows, find_row(rows, 0, changed), changed.variable())
    }
}
