//! Laws that follow from the definitions in `specs/`. Each function does nothing, and its contract is a law that holds for
//! every tree, number or project. Nobody calls it.
ghost use Rattle.hc_project.specs.Laws.{AreasReadTheirKeys, DocumentsReadTheirKeys, GroupsReadTheirKeys, PdosReadTheirKeys, ProjectsReadBack, RangesAreJudgedWhole, SlavesReadTheirKeys};

/// Every project can be written as a document: its groups, slaves, areas, PDOs and entries, as tables and arrays under the keys
/// of the format in their order, are read as exactly this project. So the format reaches every project, no key is read under
/// another's name, and nothing is dropped or reordered. Its numbers are those that the records hold: 16 bits for an alias, a
/// station address or an index, 32 for a variable.
pub fn projects_read_back()
    ensures { ProjectsReadBack }
{}

/// A number of a project's text is judged twice, first by what its place in a record holds, then by the range of every project.
/// Together these refuse exactly the integers outside that range, negative ones too.
pub fn ranges_are_judged_whole()
    ensures { RangesAreJudgedWhole }
{}

/// Other keys are ignored: two documents that hold the same at `slave` and `group` are read the same,
/// whatever else is in them.
pub fn documents_read_their_keys()
    ensures { DocumentsReadTheirKeys }
{}

/// Two tables that hold the same at `alias` and `slave` are read as the same group, with the same faults.
pub fn groups_read_their_keys()
    ensures { GroupsReadTheirKeys }
{}

/// Two tables that hold the same at `station` and `area` are read as the same slave, with the same faults.
pub fn slaves_read_their_keys()
    ensures { SlavesReadTheirKeys }
{}

/// Two tables that hold the same at `sm`, `dir`, `phys`, `task`, `assigned` and `pdo` are read as the same area, with the
/// same faults.
pub fn areas_read_their_keys()
    ensures { AreasReadTheirKeys }
{}

/// Two tables that hold the same at `index` and `entries` are read as the same PDO, with the same faults.
pub fn pdos_read_their_keys()
    ensures { PdosReadTheirKeys }
{}
