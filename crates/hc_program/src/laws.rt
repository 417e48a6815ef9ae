//! Laws that follow from the definitions in `specs/`. Each function does nothing, and its contract is a law. Nobody calls it.
ghost use Rattle.hc_program.specs.Laws.{ProgrammingEnds, SlavesHaveMachines};

/// Writing owed blocks along the line ends when no block is owed, when no serial is left, or after a write that failed.
pub fn programming_ends()
    ensures { ProgrammingEnds }
{}

/// Throughout a run each slave of the line has a machine, so `poke` and `peek` never fail for want of one.
pub fn slaves_have_machines()
    ensures { SlavesHaveMachines }
{}
