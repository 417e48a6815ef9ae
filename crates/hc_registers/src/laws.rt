//! Laws that follow from the definitions of the blocks and of the working counter. Each function does nothing, and its contract
//! is a law. Nobody calls it.
ghost use Rattle.hc_registers.specs.Laws.{AscendingKeysAreCounted, BlocksAreApart, FmmusAreRead, SyncManagersAreRead};

/// The fields of an area's sync manager block are read as they were written: its start address, its
/// length in bytes, its control and its activation; its status and its PDI control are 0.
pub fn sync_managers_are_read()
    ensures { SyncManagersAreRead }
{}

/// The fields of a mapped area's FMMU block are read as they were written.
pub fn fmmus_are_read()
    ensures { FmmusAreRead }
{}

/// The sync manager and FMMU blocks of a slave of a project take no register in common, so each
/// register that is written belongs to one of them.
pub fn blocks_are_apart()
    ensures { BlocksAreApart }
{}

/// The expected working counter of a datagram can be counted in one pass over its areas, if their keys ascend strictly, and so
/// do the ranks of the line's slaves, which include each area's slave. An output area adds 2 and an input area 1. Exception: an
/// area adds 0 if the area before it has the same slave and direction.
pub fn ascending_keys_are_counted()
    ensures { AscendingKeysAreCounted }
{}
