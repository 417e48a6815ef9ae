//! Laws that follow from the definitions in `specs/`. Each function does nothing, and its contract is a law. Nobody calls it.
ghost use Rattle.hc_frames.specs.Filled.{FilledFrame};
ghost use Rattle.hc_frames.specs.Laws.{BlankDatagramsAreFilled, BlankFramesAreFilled, BuiltFramesAreRead, CarriedFramesAreRead, FramesHaveOneReading, FramesHaveTheirSize, PartsAreReplaced, ReadableFramesAreCarried, ReturnedFramesAreRead, SentFramesAreReturned, TextsAreJoined};

/// After all loans of an opened frame the slice holds the frame of its datagrams with the data that were left in their parts,
/// and after it the old bytes.
pub fn opened_frames_are_filled()
    ensures { FilledFrame }
{}

/// A datagram of zeros with other data in their place, from its byte 10 on, is the datagram with these data.
pub fn blank_datagrams_are_filled()
    ensures { BlankDatagramsAreFilled }
{}

/// A frame with a datagram of zeros, with other data in their place, is the frame with these data. They begin 26 bytes, and the
/// datagrams before it, after the frame's first byte.
pub fn blank_frames_are_filled()
    ensures { BlankFramesAreFilled }
{}

/// The bytes of two lists of datagrams in a row are those of the first, each followed by more, then those of the second, which
/// has at least one.
pub fn texts_are_joined()
    ensures { TextsAreJoined }
{}

/// A frame has 16 bytes more than its datagrams, and at least 60.
pub fn frames_have_their_size()
    ensures { FramesHaveTheirSize }
{}

/// A frame is read as it was written: for every destination and every first source byte, with any bytes or none after its
/// datagrams.
pub fn carried_frames_are_read()
    ensures { CarriedFramesAreRead }
{}

/// A returned frame of a sending that a frame can carry is readable. It gives the sending's serial, commands and numbers of
/// data bytes, the data and working counters that came back, and the sending's addresses if none is a position's. Interrupt
/// fields and working counters that came back are numbers of 16 bits; everything else follows from the sending.
pub fn returned_frames_are_read()
    ensures { ReturnedFramesAreRead }
{}

/// A frame as sent, followed by any bytes or none, is a returned frame of its sending.
pub fn sent_frames_are_returned()
    ensures { SentFramesAreReturned }
{}

/// A frame as sent, which each builder writes, is read as it was built, with any bytes or none after it.
pub fn built_frames_are_read()
    ensures { BuiltFramesAreRead }
{}

/// No frame can be read in two ways.
pub fn frames_have_one_reading()
    ensures { FramesHaveOneReading }
{}

/// A readable frame has the bytes of its content, with its own destination, first source byte and bytes after its datagrams. It
/// can be written anew with other fields, and is then read with these.
pub fn readable_frames_are_carried()
    ensures { ReadableFramesAreCarried }
{}

/// A readable frame with another datagram of as many data bytes in place of one is read with that datagram, and otherwise as
/// before. Address, data and working counter can be changed in the frame.
pub fn parts_are_replaced()
    ensures { PartsAreReplaced }
{}
