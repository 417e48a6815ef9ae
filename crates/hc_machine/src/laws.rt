//! Laws that follow from the definitions of `specs/`, so that a reader can trust them and a caller can use them: each function
//! here does nothing, and its contract is a law. Nobody calls it.
ghost use Rattle.hc_machine.specs.Laws.{AliasStays, CountersRise, FmmusAreTheirPairs, LogicalCountsSayPairs, ReadBitsComeFromMemory, ReturnedTextsComeBack, ServedFramesAreRead, SizesStay, UnmappedDatagramsPass, UnreadBitsStay, UnwrittenBitsStay, WrittenBitsComeFromData};

/// An FMMU has exactly the pairs that its block says: the k-th logical bit with the k-th memory bit, from the start bit of the
/// first byte to the stop bit of the last, as far as memory goes. It has none if it is not active, if its length is 0, or if
/// the last bit lies below the first.
pub fn fmmus_are_their_pairs()
    ensures { FmmusAreTheirPairs }
{}

/// A bit of a logical datagram becomes the memory bit that was paired with it by the lowest FMMU that reads it.
pub fn read_bits_come_from_memory()
    ensures { ReadBitsComeFromMemory }
{}

/// A bit of a logical datagram that no FMMU reads stays.
pub fn unread_bits_stay()
    ensures { UnreadBitsStay }
{}

/// A memory bit outside the alias becomes the bit that came in at the logical bit that is paired with it by the lowest
/// FMMU that writes it.
pub fn written_bits_come_from_data()
    ensures { WrittenBitsComeFromData }
{}

/// A memory bit that no write FMMU pairs with a bit of the datagram stays.
pub fn unwritten_bits_stay()
    ensures { UnwrittenBitsStay }
{}

/// A logical datagram that no active FMMU meets passes: its data, its working counter and the memory stay.
pub fn unmapped_datagrams_pass()
    ensures { UnmappedDatagramsPass }
{}

/// A logical datagram's working counter rises by 1 if an FMMU pairs a bit of it for reading, and by 2 if one pairs a bit of it
/// for writing, each once however many bits and FMMUs there are. A bit written into the alias counts though the alias stays.
pub fn logical_counts_say_pairs()
    ensures { LogicalCountsSayPairs }
{}

/// A working counter rises by 0 to 3, and wraps at 65,536.
pub fn counters_rise()
    ensures { CountersRise }
{}

/// A slave passes on as many bytes of data in each datagram as came, and as many bytes of a frame.
pub fn sizes_stay()
    ensures { SizesStay }
{}

/// No frame changes the configured station alias, nor how many bytes memory has.
pub fn alias_stays()
    ensures { AliasStays }
{}

/// A returned text of a sending is a returned text of it after one more slave: its commands, sizes and addresses stay, but a
/// position is counted up.
pub fn returned_texts_come_back()
    ensures { ReturnedTextsComeBack }
{}

/// A frame that the reader reads is read after a slave too.
pub fn served_frames_are_read()
    ensures { ServedFramesAreRead }
{}
