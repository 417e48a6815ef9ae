//! Laws that follow from the definitions. Each function does nothing, and its contract is a law. Nobody calls it.
ghost use Rattle.hc_groups.specs.Laws.{AcceptedEditsKeepProjects};

/// An accepted edit leaves the declared groups of a project as groups of a project: no fault's condition holds for them.
pub fn accepted_edits_keep_projects()
    ensures { AcceptedEditsKeepProjects }
{}
