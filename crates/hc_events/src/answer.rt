//! Answers of the core.
use crate::faults::CoreFault;
use hc_records::items::Items;

/// The outcome of one datagram of an arriving frame, for the sending that the frame answers.
#[derive(Clone, Copy, Debug, PartialEq, Eq)]
pub enum Outcome {
    /// The datagram has its expected working counter, and the task reads its data from now on.
    Inputs {
        /// The task, 0 to 7.
        task: u8,
        /// The datagram's number in the task, 0 to 15.
        datagram: u8,
    },
    /// The datagram has a wrong working counter, and nothing changed.
    WrongCount {
        /// The working counter of a datagram that every slave has processed.
        expected: u16,
        /// The working counter in the frame.
        got: u16,
    },
    /// The datagram is out of date, and nothing changed: it was sent again since. A register write is also out of date if its
    /// slave was forgotten since, or if another slave was forgotten since and a register write was sent after that.
    Stale,
    /// The register block's datagram has working counter 1: the block is confirmed.
    Done,
    /// The register block's datagram has another working counter: the block stays owed.
    Missed,
}

/// The answer to an arriving frame, with the outcomes of its datagrams in a list beside it.
#[derive(Clone, Copy, Debug, PartialEq, Eq)]
pub enum Arrived {
    /// The frame answers frames of tasks, and the list has the outcome of each datagram, in the frame's order.
    Answered,
    /// The frame answers a register write, with working counter 1: the block is confirmed.
    WriteDone,
    /// The frame answers a register write, with another working counter: the block stays owed.
    WriteMissed,
    /// The frame answers no sending, or each datagram of that sending is out of date (`Outcome::Stale`): nothing changed.
    Stale,
    /// The frame answers a frame of several register writes, and the list has the outcome of each block, in the frame's order:
    /// `Done`, `Missed` or `Stale`.
    Written,
}

impl Arrived {
    ghost use Rattle.std.specs.Prelude.{◌≡◌};
    ghost use Rattle.hc_events.specs.Outcomes.{arrived_answer};

    /// Returns the answer, with the outcomes of the list. It allocates nothing.
    pub fn answer(self, outcomes: Vec<Outcome>) -> Answer
        ensures { result ≡ arrived_answer self outcomes.items }
    {
        match self {
            Arrived::Answered => Answer::Answered(Items::of(outcomes)),
            Arrived::WriteDone => Answer::WriteDone,
            Arrived::WriteMissed => Answer::WriteMissed,
            Arrived::Stale => Answer::Stale,
            Arrived::Written => Answer::Written(Items::of(outcomes)),
        }
    }
}

/// The answer to an event.
#[derive(Debug, Drop)]
pub enum Answer {
    /// The edit was accepted.
    Edited {
        /// The epoch that begins with it.
        epoch: u32,
        /// The number of spans of touched tasks that are not settled.
        recut: u32,
        /// The number of register blocks of the new line that differ from the old line's: the old line has no block with these
        /// bytes at this register of this slave.
        moved: u32,
    },
    /// The post was accepted.
    Posted,
    /// The frames to be sent, one after another; none if the tasks have no datagram.
    Sent(Items<Items<u8>>),
    /// The frame of a register write to be sent.
    WriteSent(Items<u8>),
    /// The frame of several register writes to be sent.
    WritesSent(Items<u8>),
    /// The frame answers frames of tasks: the outcome of each datagram, in the frame's order.
    Answered(Items<Outcome>),
    /// The frame answers a register write, with working counter 1: the block is confirmed.
    WriteDone,
    /// The frame answers a register write, with another working counter: the block stays owed.
    WriteMissed,
    /// The frame answers a frame of several register writes: the outcome of each block, in the frame's order, `Done`, `Missed`
    /// or `Stale`.
    Written(Items<Outcome>),
    /// The frame answers no sending, or each datagram of that sending is out of date (`Outcome::Stale`): nothing changed.
    Stale,
    /// The image of a task.
    Image {
        /// The epoch in which the places of the data hold.
        epoch: u32,
        /// For each datagram of the task the data of its last good answer in that epoch, if there is one.
        slots: Items<Option<Items<u8>>>,
    },
    /// The slave's registers are forgotten: all its blocks are owed again.
    Forgotten,
    /// The slave's FMMUs are zero: it holds up no task but those of its own areas.
    Cleared,
    /// The slave is off the wire: it holds up no task until its group is connected again.
    Unplugged,
    /// The event was refused, and nothing changed.
    Refused(CoreFault),
}
