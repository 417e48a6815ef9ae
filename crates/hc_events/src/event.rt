//! Events of the core.
use hc_records::edit::Edit;

/// One step of the core. Only what the record of `specs/Entries` says of it is stored.
#[derive(Clone, Copy, Debug)]
pub enum Event<'a> {
    /// A user edits the line.
    Edit(&'a Edit),
    /// A task posts its outputs.
    Post {
        /// The task, 0 to 7; a higher one is refused.
        task: u8,
        /// The epoch in which the task saw the places of its variables.
        epoch: u32,
        /// The output bytes of the task's image, as many as the task has in that epoch.
        bytes: &'a [u8],
    },
    /// The process data of these tasks are sent, in this order: 1 to 8 distinct ones, which is the
    /// caller's condition. One over 7 is refused.
    SendTasks(&'a [u8]),
    /// The first owed register block is sent.
    SendWrite,
    /// The first owed register blocks are sent in one frame, in their order: as many as the frame holds.
    SendWrites,
    /// A frame arrives: any bytes.
    Arrive(&'a [u8]),
    /// A task, 0 to 7, reads its input image; a higher one is refused.
    Read(u8),
    /// The slave with this station address may have lost its registers: none of its register blocks is confirmed any more.
    /// Refused if no declared slave has the address, or the slave is not in the line.
    Forget(u16),
    /// The process data of these tasks are sent, in this order, if each of them is ready: 1 to 8 distinct ones, which
    /// is the caller's condition. One over 7 is refused. Register blocks that concern other tasks may be owed.
    SendReady(&'a [u8]),
    /// The FMMUs of the slave with this station address are zeros, and no register write that was sent to it earlier can still
    /// reach it. If the slave is in the line, its register blocks are owed again. Refused if no declared slave has the address.
    Cleared(u16),
    /// The slave with this station address is off the wire: it holds up no task until its group is connected again. Refused if
    /// no declared slave has the address, or the slave is in the line.
    Unplugged(u16),
    /// A task posts its outputs for any epoch since an edit changed the task. Edits that do not change the task leave the
    /// post valid (this project's profile).
    PostSteady {
        /// The task, 0 to 7; a higher one is refused.
        task: u8,
        /// The epoch in which the task saw the places of its variables. It is refused if it is below the epoch of the last
        /// edit that changed the task, or above the present epoch.
        epoch: u32,
        /// The output bytes of the task's image, as many as the task has now.
        bytes: &'a [u8],
    },
    /// The first owed register blocks that are not under way are sent in one frame, in their order: as many as the frame
    /// holds. A block is under way as long as the answer to its last write may still come. Refused if no block is owed, or
    /// if each owed block is under way (this project's profile).
    SendFurther,
}
