//! Laws of the datagrams that the machines of a wire carry, whatever their other FMMUs pair: each function here does nothing,
//! and its contract is a law. Nobody calls it.
ghost use Rattle.hc_exchange.specs.AskedLaws.{AllAskedInputsAreBroughtBack, AllAskedOutputsArrive, AskedInputsAreBroughtBack, AskedOutputsArrive, HoldsForTasks, LessAskedCarries, LinesStayCarrying, MemoryBesideAllAskedStays, MemoryBesideAskedStays, OtherAskedBitsComeBack, ProgrammedLinesCarry, SequencesKeepCarrying, TaskCountersAreExpected};
ghost use Rattle.hc_exchange.specs.TaskBlocks.{FreshMachinesPass, TaskBlocksCarry, WritingCarriesTheTask};
ghost use Rattle.hc_exchange.specs.WireLaws.{OutsidersPassDatagrams, WiresStayCarrying};

/// The machines of a programmed line carry any logical bits: their FMMUs pair each one with its area's memory bit, and pair no
/// others.
pub fn programmed_lines_carry()
    ensures { HoldsForTasks ProgrammedLinesCarry }
{}

/// Machines that carry some logical bits carry each choice of them.
pub fn less_asked_carries()
    ensures { LessAskedCarries }
{}

/// Machines that carry each bit of a logical datagram bring its inputs back. Each bit of the data that is an input's becomes
/// the bit of its slave's memory as it was before the datagram, whatever the machines' other FMMUs pair.
pub fn asked_inputs_are_brought_back()
    ensures { HoldsForTasks AskedInputsAreBroughtBack }
{}

/// Through machines that carry each bit of a logical datagram, each bit of the data that is no input's comes back as it was
/// sent.
pub fn other_asked_bits_come_back()
    ensures { HoldsForTasks OtherAskedBitsComeBack }
{}

/// If machines carry each bit of a logical datagram, then a slave's memory after it has the sent bit wherever an output area
/// pairs a memory bit with a bit of the data.
pub fn asked_outputs_arrive()
    ensures { HoldsForTasks AskedOutputsArrive }
{}

/// If machines carry each bit of a logical datagram, then each bit of a slave's memory that no output area pairs with a bit of
/// the data stays as it was, registers included.
pub fn memory_beside_asked_stays()
    ensures { HoldsForTasks MemoryBesideAskedStays }
{}

/// If machines carry each bit of a logical datagram, as many bytes come back as were sent, and the machines carry the bits
/// after it as before.
pub fn lines_stay_carrying()
    ensures { HoldsForTasks LinesStayCarrying }
{}

/// Machines that carry a task add to the working counter of each of its datagrams the expected counter, whatever their other
/// FMMUs pair.
pub fn task_counters_are_expected()
    ensures { TaskCountersAreExpected }
{}

/// Logical datagrams go one after another, each in a frame of its own, through machines that carry each of their bits. Each
/// input's bit of each datagram comes back as it was in its slave's memory before the first of them.
pub fn all_asked_inputs_are_brought_back()
    ensures { HoldsForTasks AllAskedInputsAreBroughtBack }
{}

/// If no two of some logical datagrams have a logical bit in common and machines carry each of their bits, each output's bit of
/// each datagram is in its slave's memory after the last.
pub fn all_asked_outputs_arrive()
    ensures { HoldsForTasks AllAskedOutputsArrive }
{}

/// If machines carry each bit of some logical datagrams, each bit of a slave's memory that no output area pairs with a bit of
/// their data is after the last as it was before the first.
pub fn memory_beside_all_asked_stays()
    ensures { HoldsForTasks MemoryBesideAllAskedStays }
{}

/// Machines that carry each bit of some logical datagrams carry the bits after the datagrams too.
pub fn sequences_keep_carrying()
    ensures { HoldsForTasks SequencesKeepCarrying }
{}

/// Machines outside the line that pair no bit of a logical datagram do nothing to it, wherever on the wire they are. It comes
/// back with the data and the counter of the line's machines alone, and they stay as they were.
pub fn outsiders_pass_datagrams()
    ensures { HoldsForTasks OutsidersPassDatagrams }
{}

/// A wire that carries each bit of a logical datagram carries the bits after the datagram too.
pub fn wires_stay_carrying()
    ensures { HoldsForTasks WiresStayCarrying }
{}

/// Machines carry a task if each has the FMMU blocks of its slave's areas in the task, and none of its other FMMUs pairs a
/// logical bit of the task's datagrams. Blocks of other tasks need not be written.
pub fn task_blocks_carry()
    ensures { TaskBlocksCarry }
{}

/// A machine without an active FMMU has its slave's part of each task without an area of the slave. So a tool that was just
/// docked passes the other tasks, even before it has a station address.
pub fn fresh_machines_pass()
    ensures { FreshMachinesPass }
{}

/// After an FPWR of each of some of the line's blocks, in line and block order and the task's among them, the machines carry the
/// task. Before the writes each slave with an area in the task holds its station address, each other slave holds its own or none
/// of the line's, and no other FMMU than the task's areas' pairs a logical bit of the task.
pub fn writing_carries_the_task()
    ensures { WritingCarriesTheTask }
{}
