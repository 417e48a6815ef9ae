//! Laws that follow from the definitions of the table and of a swap. Each function does nothing, and its contract is a law.
//! Nobody calls it.
ghost use Rattle.hc_places.specs.Swap.{ChangedVariablesDiffer, ChangedVariablesOccurOnce, PlacesSayTables, SwapsKeepTheOrder, SwapsMoveTheirVariables, SwapsReplaceTheirTasks};
ghost use Rattle.hc_places.specs.Table.{TablesHavePlaces};

/// In the table of a line each variable has its place in the line, and one without a place there has
/// none.
pub fn tables_have_places()
    ensures { TablesHavePlaces }
{}

/// A variable is among the changed ones of two tables exactly if its place differs. This includes a variable that appears or
/// goes.
pub fn changed_variables_differ()
    ensures { ChangedVariablesDiffer }
{}

/// Each changed variable of two tables is counted once, if both tables have each variable once, in the order of their numbers.
pub fn changed_variables_occur_once()
    ensures { ChangedVariablesOccurOnce }
{}

/// In the table that a swap leads to, a variable that the swap names has the place that the swap says, or none if the swap says
/// none. Every other variable has the place that it had. The table before the swap is any table that has each variable once, in
/// the order of their numbers.
pub fn swaps_move_their_variables()
    ensures { SwapsMoveTheirVariables }
{}

/// The table that a swap leads to, from one that has each variable once, in the order of their numbers,
/// has them so again.
pub fn swaps_keep_the_order()
    ensures { SwapsKeepTheOrder }
{}

/// In the table that a swap leads to, a task that the swap names has the table that the swap says. Every other task has the
/// table that it had, and no task comes or goes. The table before the swap is any table.
pub fn swaps_replace_their_tasks()
    ensures { SwapsReplaceTheirTasks }
{}

/// Two tables that each have every variable once, in the order of their numbers, are equal if their tasks are equal and each
/// variable has the same place, or none, in both. By this and the three laws above, a swap can lead to one table only.
pub fn places_say_tables()
    ensures { PlacesSayTables }
{}
