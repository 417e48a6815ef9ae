//! Laws that follow from the definitions of a configuration. Each function does nothing, and its contract is a law. Nobody
//! calls it.
ghost use Rattle.hc_plan.specs.Laws.{BlocksAreConfigured, UnmovedBlocksStay};

/// The look-up of a block agrees with the blocks of the line, if the slaves have distinct station addresses, as those of a
/// project have. A slave with a station address has a block with a number exactly if this block is in the line with this
/// station address and number.
pub fn blocks_are_configured()
    ensures { BlocksAreConfigured }
{}

/// A block of the new line that the report of an edit does not name was a block of the old line. It had the same bytes at the
/// same register of the same slave, and the slave had no other block at that register.
pub fn unmoved_blocks_stay()
    ensures { UnmovedBlocksStay }
{}
