//! Laws of ready tasks and of registers' possible contents. Each function does nothing, and its contract is a law that holds
//! for every record. Nobody calls it.
ghost use Rattle.hc_events.specs.ReadyLaws.{BothEventsSendAlike, ClearedSlavesHoldUpTheirOwn, KnownIsHeld, MasksSayTheirTasks, NamedTasksAreServed, ReadyFramesAreFound, ReadyStaysReady, ReadyTasksHaveNoHolder, ReadyWhereNothingIsOwed, SlavesOutsideHoldStill, SlavesOutsideHoldUpTheirTasks, UntouchedStaysReady};

/// A task is ready if nothing is owed and no register of a slave outside the line concerns it.
pub fn ready_where_nothing_is_owed()
    ensures { ReadyWhereNothingIsOwed }
{}

/// If nothing is owed and no register of a slave outside the line concerns one of the tasks, both events that send
/// tasks have the same answer and leave the same record.
pub fn both_events_send_alike()
    ensures { BothEventsSendAlike }
{}

/// After an accepted sending of ready tasks each frame of the answer is the sending with its own serial.
pub fn ready_frames_are_found()
    ensures { ReadyFramesAreFound }
{}

/// If bytes are known of a register block of a slave in the line, these bytes are all that its register may hold.
pub fn known_is_held()
    ensures { KnownIsHeld }
{}

/// In a project's line the FMMU block of an area names no task but the one that the area is in. If the area has 0 bits, it
/// names none.
pub fn named_tasks_are_served()
    ensures { NamedTasksAreServed }
{}

/// If an accepted edit leaves the register blocks of a task's areas, and the task was ready before it, the task is ready
/// once each slave that came with the edit is cleared.
pub fn untouched_stays_ready()
    ensures { UntouchedStaysReady }
{}

/// In a project's line a ready task stays ready as long as no edit is accepted and no slave with an area in the task is
/// forgotten: register writes of other slaves, missed and late answers, and other slaves that are forgotten, cleared or
/// unplugged do not make it wait.
pub fn ready_stays_ready()
    ensures { ReadyStaysReady }
{}

/// In a project's line, until the next edit, a slave that was cleared holds up no task but those of its own areas: it may never
/// answer, its blocks may be written again and again, and it may be lost.
pub fn cleared_slaves_hold_up_their_own()
    ensures { ClearedSlavesHoldUpTheirOwn }
{}

/// A slave outside the line that is not unplugged keeps a task waiting if one of the contents of its registers names the
/// task.
pub fn slaves_outside_hold_up_their_tasks()
    ensures { SlavesOutsideHoldUpTheirTasks }
{}

/// The registers of a slave outside the line keep their contents until the slave is cleared, unplugged or connected.
pub fn slaves_outside_hold_still()
    ensures { SlavesOutsideHoldStill }
{}

/// A task is ready exactly if no slave holds it up.
pub fn ready_tasks_have_no_holder()
    ensures { ReadyTasksHaveNoHolder }
{}

/// In tasks as a number bit t is 1 if task t passes the test, else 0.
pub fn masks_say_their_tasks()
    ensures { MasksSayTheirTasks }
{}
