//! Laws that follow from the definitions of specs. Each function here does nothing, and its contract is a law. Nobody calls it.
ghost use Rattle.hc_core.specs.Laws.{PartsAreTheProposal, PiecesAreTheEvent, ProposalsAreFew};

/// The frames of a present proposal can be filled, and so can the parts of their tasks. The frames' texts, as `fill` writes
/// them, are the answer to the event that sends their tasks. `commit` leaves the same history as this event.
pub fn pieces_are_the_event()
    ensures { PiecesAreTheEvent }
{}

/// The parts of tasks in their present proposal, as `fill_part` writes them, joined in the order of the tasks,
/// are its frames, as `fill` writes them, one after another.
pub fn parts_are_the_proposal()
    ensures { PartsAreTheProposal }
{}

/// A present proposal has at most 128 frames, if no task of the line needs more than 16 datagrams. This is true of the line of
/// every plan.
pub fn proposals_are_few()
    ensures { ProposalsAreFew }
{}
