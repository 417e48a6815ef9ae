//! Laws of process data over a programmed line: each function here does nothing, and its contract is a law. Nobody calls it.
ghost use Rattle.hc_exchange.specs.CarryingLaws.{InputsAreBroughtBack, LinesStayProgrammed, OtherBitsComeBack, OtherMemoryStays, OutputsArrive, WrittenLinesAreProgrammed};
ghost use Rattle.hc_exchange.specs.FrameLaws.{CountersAreExpected, LogicalFramesPass, SharedFramesPass};
ghost use Rattle.hc_exchange.specs.Sequences.{AllInputsAreBroughtBack, AllOtherMemoryStays, AllOutputsArrive, SequencesKeepTheLine};
ghost use Rattle.hc_exchange.specs.Variables.{VariablesAreCarried};

/// After the machines of a programmed line, each bit of a logical datagram that is an input's is the bit of its slave's memory
/// as it was before the datagram.
pub fn inputs_are_brought_back()
    ensures { InputsAreBroughtBack }
{}

/// Through a programmed line, each bit of the data that is no input's comes back as it was sent.
pub fn other_bits_come_back()
    ensures { OtherBitsComeBack }
{}

/// After a datagram through a programmed line, each memory bit that an output area pairs with a bit of the data is the bit that
/// was sent.
pub fn outputs_arrive()
    ensures { OutputsArrive }
{}

/// After a datagram through a programmed line, each bit of a slave's memory that no output area pairs with a bit of the data is
/// as it was.
pub fn other_memory_stays()
    ensures { OtherMemoryStays }
{}

/// A datagram through a programmed line comes back with as many bytes as were sent, and each machine is programmed as before,
/// so the next datagram meets a programmed line too.
pub fn lines_stay_programmed()
    ensures { LinesStayProgrammed }
{}

/// The frame of one logical datagram is read after machines: with its serial and its address, and with the data that the
/// machines make of it one after another. Its working counter is the sum of what they add, modulo 65,536.
pub fn logical_frames_pass()
    ensures { LogicalFramesPass }
{}

/// Logical datagrams that share a frame come back after machines as they do each in a frame of its own, one after another, and
/// leave the machines as they then do.
pub fn shared_frames_pass()
    ensures { SharedFramesPass }
{}

/// The machines of a programmed line add to the working counter of a task's datagram exactly the datagram's expected counter.
pub fn counters_are_expected()
    ensures { CountersAreExpected }
{}

/// Each variable with a place is in an area of a slave. Its bits at the place are paired with as many bits of the slave's
/// memory, which begin after the first bit of the area's by the widths of the entries before it.
pub fn variables_are_carried()
    ensures { VariablesAreCarried }
{}

/// The machines of a line after an FPWR of each of its blocks are programmed.
pub fn written_lines_are_programmed()
    ensures { WrittenLinesAreProgrammed }
{}

/// Datagrams one after another, each in a frame of its own: each input's bit of each datagram comes back as it was in its slave's
/// memory before the first of them.
pub fn all_inputs_are_brought_back()
    ensures { AllInputsAreBroughtBack }
{}

/// If no two of the datagrams that are sent through a programmed line have a logical bit in common, each output's bit of each of
/// them is in its slave's memory after the last.
pub fn all_outputs_arrive()
    ensures { AllOutputsArrive }
{}

/// After datagrams through a programmed line, each bit of a slave's memory that no output area pairs with a bit of their data is
/// as it was before the first.
pub fn all_other_memory_stays()
    ensures { AllOtherMemoryStays }
{}

/// A programmed line is still programmed after datagrams one after another.
pub fn sequences_keep_the_line()
    ensures { SequencesKeepTheLine }
{}
