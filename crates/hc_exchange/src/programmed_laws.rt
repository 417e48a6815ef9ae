//! Laws of the register blocks of a line, and of their meaning to the slaves: each function here does nothing, and its contract
//! is a law. Nobody calls it.
ghost use Rattle.hc_exchange.specs.PairLaws.{AreasWithBitsAreMapped, BlocksGoOneWay, BlocksPairTheirAreas, LinesPairTheirAreas, NoLogicalBitTwice, NoMemoryBitTwice, PairsAreOneToOne, UnmappedAreasPairNothing};
ghost use Rattle.hc_exchange.specs.TogetherLaws.{JointFramesProgramAlike};
ghost use Rattle.hc_exchange.specs.WritingLaws.{ProgrammedSlavesPairTheirAreas, WritingKeepsBytes, WritingKeepsTheCount, WritingProgramsTheLine};

/// The pairs that the slave machine reads from the FMMU block of a mapped area are exactly these: the k-th bit of the area in
/// its datagram with the k-th bit of its memory, for each k below the area's width in bits.
pub fn blocks_pair_their_areas()
    ensures { BlocksPairTheirAreas }
{}

/// The FMMU block of an area of 0 bits pairs nothing.
pub fn unmapped_areas_pair_nothing()
    ensures { UnmappedAreasPairNothing }
{}

/// The FMMU block of an input area is read through and never written through, an output area's the other way round.
pub fn blocks_go_one_way()
    ensures { BlocksGoOneWay }
{}

/// A block pairs a logical bit with one memory bit, and a memory bit with one logical bit.
pub fn pairs_are_one_to_one()
    ensures { PairsAreOneToOne }
{}

/// Each area of a line that has a bit is mapped at its place in its task's datagrams, and no other area is.
pub fn areas_with_bits_are_mapped()
    ensures { AreasWithBitsAreMapped }
{}

/// The pairs of the FMMU blocks of a line, slave by slave, are exactly those of its mapped areas.
pub fn lines_pair_their_areas()
    ensures { LinesPairTheirAreas }
{}

/// No logical bit is in the pairs of two blocks of a line.
pub fn no_logical_bit_twice()
    ensures { NoLogicalBitTwice }
{}

/// No memory bit of a slave is in the pairs of two of its blocks.
pub fn no_memory_bit_twice()
    ensures { NoMemoryBitTwice }
{}

/// The machines of a line, after an FPWR of each of its blocks in line and block order, have their slaves' blocks at their
/// registers, and zeros in the FMMU blocks past them. No byte below the FMMU blocks, where the station address and the alias
/// are, and none of process memory is changed.
pub fn writing_programs_the_line()
    ensures { WritingProgramsTheLine }
{}

/// The writes of a line's blocks leave as many machines as before.
pub fn writing_keeps_the_count()
    ensures { WritingKeepsTheCount }
{}

/// The sixteen FMMUs of a programmed slave pair exactly the bits of its areas, at their places in the datagrams.
pub fn programmed_slaves_pair_their_areas()
    ensures { ProgrammedSlavesPairTheirAreas }
{}

/// If each number of the machines' memories is a byte, each is a byte after the writes of the line's blocks too.
pub fn writing_keeps_bytes()
    ensures { WritingKeepsBytes }
{}

/// Blocks that are written by one frame, each by a datagram of its own, leave the machines of a line as frames of one write
/// each do, in the same order.
pub fn joint_frames_program_alike()
    ensures { JointFramesProgramAlike }
{}
