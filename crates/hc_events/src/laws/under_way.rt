//! Laws of register blocks that are under way. Each function does nothing, and its contract is a law that holds for every
//! record. Nobody calls it.
ghost use Rattle.hc_events.specs.UnderWayLaws.{FurtherIsAsAtFirst, FurtherLeavesAwaited, GoodAnswersEndOwing, OlderAnswersLeaveKnown, UnderWayIsOwed};

/// If no owed block is under way, a further frame is answered and recorded as a frame of the first owed blocks.
pub fn further_is_as_at_first()
    ensures { FurtherIsAsAtFirst }
{}

/// A further frame leaves each frame that is awaited, if no slave was lost since that frame: its answer may still come, and has
/// the same outcome for each datagram.
pub fn further_leaves_awaited()
    ensures { FurtherLeavesAwaited }
{}

/// An arrival that answers an older frame than a block's last one leaves what is known of the block.
pub fn older_answers_leave_known()
    ensures { OlderAnswersLeaveKnown }
{}

/// A block that is under way is owed.
pub fn under_way_is_owed()
    ensures { UnderWayIsOwed }
{}

/// In a project's line a block whose own datagram came back good is owed no longer, whatever other frames are under way.
pub fn good_answers_end_owing()
    ensures { GoodAnswersEndOwing }
{}
