//! Laws that follow from the definitions of `specs/`: each function here does nothing, and its contract is a law. Nobody calls
//! it.
ghost use Rattle.hc_segment.specs.Laws.{LinesAreSegments, RowsAreJoined, SentTextsComeBack};

/// Frames after two rows of machines are those after the second row of those after the first, and each machine is as its
/// own row leaves it. So, row by row, each machine meets the frames in order, as the machines before it passed them on.
pub fn rows_are_joined()
    ensures { RowsAreJoined }
{}

/// The frames that leave a line of segments, and the machines after them, are those of one segment of all machines.
pub fn lines_are_segments()
    ensures { LinesAreSegments }
{}

/// A sending's frame comes back as a returned text of it, whatever machines it went through and whatever bytes are after
/// it: the reader reads it, with the sending's serial, commands and sizes.
pub fn sent_texts_come_back()
    ensures { SentTextsComeBack }
{}
