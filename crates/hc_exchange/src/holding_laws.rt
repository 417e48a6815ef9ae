//! Laws of the registers that slave machines hold by a record, and of the tasks that they carry: each function here does
//! nothing, and its contract is a law. Nobody calls it.
ghost use Rattle.hc_exchange.specs.Holding.{ReadyTasksAreCarried, RecordsAreConfigurable};
ghost use Rattle.hc_exchange.specs.ReadyFrames.{ReadyFramesComeBackGood};
ghost use Rattle.hc_exchange.specs.Runs.{EntriesKeepRegisters, RunsHoldRegisters, TakenWritesAreHeld};

/// The line of each record can be configured, if the project's line at its opening can.
pub fn records_are_configurable()
    ensures { RecordsAreConfigurable }
{}

/// Machines of a wire that hold what a record says of their registers carry each task that is ready. Each slave of the line has
/// the FMMU blocks of its areas in the task, and no other FMMU on the wire pairs a logical bit of the task. Blocks of other
/// tasks may be owed, and tools outside the line may still be plugged.
pub fn ready_tasks_are_carried()
    ensures { ReadyTasksAreCarried }
{}

/// Machines that took the writes of a record hold what the record says. Each block's known bytes are at its register, and each
/// FMMU that is not unknown holds zeros or one of the contents that it may have.
pub fn taken_writes_are_held()
    ensures { TakenWritesAreHeld }
{}

/// Each accepted entry of a record keeps what the machines of the line took of its writes, under these premises. Frames pass
/// each slave in the order in which they were handed to the line: all machines of the wire, or the first ones. A frame comes
/// back only if it passed all machines. A slave that was cleared has zeros in its FMMUs. One that lost its registers has zeros
/// there, or what it had. With an edit, a slave that stays in the line keeps its memory, and a new one has its station address
/// and zeros in the FMMUs past its areas. A machine outside the line pairs nothing, or is a declared slave still plugged.
pub fn entries_keep_registers()
    ensures { EntriesKeepRegisters }
{}

/// After each entry of a record the machines of the wire hold what the record says, from the opening on, under the premises of
/// `entries_keep_registers`.
pub fn runs_hold_registers()
    ensures { RunsHoldRegisters }
{}

/// A frame of ready tasks comes back good from a wire that holds what the record says. It is read, each of its datagrams has
/// the expected working counter, and the data are what the line's machines alone make of them. Blocks of other tasks may be
/// owed, and tools outside the line may still be plugged.
pub fn ready_frames_come_back_good()
    ensures { ReadyFramesComeBackGood }
{}
