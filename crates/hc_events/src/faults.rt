//! Faults of events. A fault's number is part of the program's printed words and never changes.
ghost use Rattle.std.specs.Prelude.{◌≡◌};
ghost use Rattle.hc_events.specs.Faults.{core_fault_number};

use hc_frames::building::Room;
use hc_frames::reading::FrameFault;
use hc_records::faults::{EditFault, ProjectFault};
use std::alloc::AllocError;
use thiserror::Error;

/// The reason for which an event is refused.
#[derive(Clone, Copy, Debug, PartialEq, Eq, Error)]
pub enum CoreFault {
    /// No group has the alias.
    #[error("no group has the alias")]
    UnknownAlias,
    /// The group is in the line already. An event that unplugs a slave is refused with it if the slave is in the line.
    #[error("the group is present already")]
    AlreadyPresent,
    /// The group is not in the line.
    #[error("the group is not present")]
    NotPresent,
    /// The mandatory group cannot be disconnected.
    #[error("the mandatory group stays")]
    Mandatory,
    /// No declared slave has the station address.
    #[error("no slave has the station address")]
    UnknownStation,
    /// The slave's group is not in the line.
    #[error("the slave is not present")]
    Absent,
    /// The slave has no such area.
    #[error("the slave has no such area")]
    NoSuchArea,
    /// Tasks are numbered 0 to 7.
    #[error("there is no such task")]
    NoSuchTask,
    /// The area does not offer a PDO with the index.
    #[error("the area does not offer the PDO")]
    UnknownPdo,
    /// An index occurs twice.
    #[error("a PDO is named twice")]
    RepeatedPdo,
    /// The PDOs have more bits than a datagram.
    #[error("the area would be wider than a datagram")]
    AreaTooBig,
    /// The task would have more than 16 datagrams.
    #[error("task {0} would have too many datagrams")]
    TooManyDatagrams(u8),
    /// The last epoch is reached.
    #[error("no epoch is left")]
    EpochsSpent,
    /// The post was made for the places of another epoch.
    #[error("the post is of another epoch")]
    StalePost,
    /// The post does not have as many bytes as the task has outputs.
    #[error("the post has another length")]
    PostLength,
    /// This many register blocks are owed, and no task is sent before they are written.
    #[error("{0} register blocks are owed")]
    Unprogrammed(u32),
    /// No register block is owed.
    #[error("no register block is owed")]
    NothingOwed,
    /// Fewer serials are left than the sendings need.
    #[error("no serial is left")]
    SerialsSpent,
    /// The frame has fewer bytes than the shortest one.
    #[error("the frame is too short")]
    Short,
    /// The frame has another EtherType.
    #[error("the frame is no EtherCAT frame")]
    NotEtherCat,
    /// The frame's EtherCAT header has another type.
    #[error("the frame has another type")]
    BadType,
    /// The frame's lengths do not fit one another.
    #[error("the frame has a wrong length")]
    BadLength,
    /// A datagram has come round a second time.
    #[error("a datagram is circulating")]
    Circulating,
    /// The last datagram says that another one follows.
    #[error("more datagrams would follow")]
    MoreFollows,
    /// A datagram has a command that is not used.
    #[error("a datagram has an unknown command")]
    UnknownCommand,
    /// A datagram's index is not that of the frame's serial.
    #[error("a datagram has the index of another serial")]
    IndexMismatch,
    /// An allocation failed.
    #[error("out of memory")]
    Memory,
    /// The slice is shorter than the frame, which needs this many bytes.
    #[error("{0} bytes are needed")]
    Room(usize),
    /// The declared group is no project's group: this is the fault of the project of it and an empty mandatory group.
    #[error("the group is no group: {0}")]
    BadGroup(ProjectFault),
    /// A declared group has the alias.
    #[error("a declared group has the alias")]
    AliasTaken,
    /// A declared slave has one of the station addresses.
    #[error("a declared slave has the station address")]
    StationTaken,
    /// A declared slave offers one of the variables.
    #[error("a declared slave offers the variable")]
    VariableTaken,
    /// More than 512 groups would be declared.
    #[error("too many groups would be declared")]
    TooManyGroups,
    /// More than 2,048 slaves would be declared.
    #[error("too many slaves would be declared")]
    TooManySlaves,
    /// The task waits, so it is not sent: register blocks of the line that concern it are owed, or registers of slaves
    /// that are outside the line and may be on the wire name it, or may name it.
    #[error("task {task} waits for {blocks} register blocks and {outside} registers outside the line")]
    Waits {
        /// The first task in the given order that waits, 0 to 7.
        task: u8,
        /// The number of owed register blocks of the line that concern it.
        blocks: u32,
        /// The number of registers of slaves outside the line that concern it.
        outside: u32,
    },
    /// Each owed register block is under way: the answer to its last write may still come.
    #[error("every owed register block is under way")]
    UnderWay,
}

impl CoreFault {
    /// Returns the fault's number, 1 to 37; 14 is no fault's number.
    pub fn number(self) -> u8
        ensures { result ≡ core_fault_number self }
    {
        match self {
            CoreFault::UnknownAlias => 1,
            CoreFault::AlreadyPresent => 2,
            CoreFault::NotPresent => 3,
            CoreFault::Mandatory => 4,
            CoreFault::UnknownStation => 5,
            CoreFault::Absent => 6,
            CoreFault::NoSuchArea => 7,
            CoreFault::NoSuchTask => 8,
            CoreFault::UnknownPdo => 9,
            CoreFault::RepeatedPdo => 10,
            CoreFault::AreaTooBig => 11,
            CoreFault::TooManyDatagrams(_) => 12,
            CoreFault::EpochsSpent => 13,
            CoreFault::StalePost => 15,
            CoreFault::PostLength => 16,
            CoreFault::Unprogrammed(_) => 17,
            CoreFault::NothingOwed => 18,
            CoreFault::SerialsSpent => 19,
            CoreFault::Short => 20,
            CoreFault::NotEtherCat => 21,
            CoreFault::BadType => 22,
            CoreFault::BadLength => 23,
            CoreFault::Circulating => 24,
            CoreFault::MoreFollows => 25,
            CoreFault::UnknownCommand => 26,
            CoreFault::IndexMismatch => 27,
            CoreFault::Memory => 28,
            CoreFault::Room(_) => 29,
            CoreFault::BadGroup(_) => 30,
            CoreFault::AliasTaken => 31,
            CoreFault::StationTaken => 32,
            CoreFault::VariableTaken => 33,
            CoreFault::TooManyGroups => 34,
            CoreFault::TooManySlaves => 35,
            CoreFault::Waits { .. } => 36,
            CoreFault::UnderWay => 37,
        }
    }
}

impl From<EditFault> for CoreFault {
    ghost use Rattle.std.specs.Prelude.{◌≡◌};
    ghost use Rattle.hc_events.specs.Faults.{edit_refusal};

    ghost from_gives = { λ fault refusal. refusal ≡ edit_refusal fault };

    fn from(fault: EditFault) -> CoreFault {
        match fault {
            EditFault::UnknownAlias => CoreFault::UnknownAlias,
            EditFault::AlreadyPresent => CoreFault::AlreadyPresent,
            EditFault::NotPresent => CoreFault::NotPresent,
            EditFault::Mandatory => CoreFault::Mandatory,
            EditFault::UnknownStation => CoreFault::UnknownStation,
            EditFault::Absent => CoreFault::Absent,
            EditFault::NoSuchArea => CoreFault::NoSuchArea,
            EditFault::NoSuchTask => CoreFault::NoSuchTask,
            EditFault::UnknownPdo => CoreFault::UnknownPdo,
            EditFault::RepeatedPdo => CoreFault::RepeatedPdo,
            EditFault::AreaTooBig => CoreFault::AreaTooBig,
            EditFault::TooManyDatagrams(task) => CoreFault::TooManyDatagrams(task),
            EditFault::EpochsSpent => CoreFault::EpochsSpent,
            EditFault::Memory => CoreFault::Memory,
            EditFault::BadGroup(fault) => CoreFault::BadGroup(fault),
            EditFault::AliasTaken => CoreFault::AliasTaken,
            EditFault::StationTaken => CoreFault::StationTaken,
            EditFault::VariableTaken => CoreFault::VariableTaken,
            EditFault::TooManyGroups => CoreFault::TooManyGroups,
            EditFault::TooManySlaves => CoreFault::TooManySlaves,
        }
    }
}

impl From<FrameFault> for CoreFault {
    ghost use Rattle.std.specs.Prelude.{◌≡◌};
    ghost use Rattle.hc_events.specs.Faults.{frame_refusal};

    ghost from_gives = { λ fault refusal. refusal ≡ frame_refusal fault };

    fn from(fault: FrameFault) -> CoreFault {
        match fault {
            FrameFault::Short => CoreFault::Short,
            FrameFault::NotEtherCat => CoreFault::NotEtherCat,
            FrameFault::BadType => CoreFault::BadType,
            FrameFault::BadLength => CoreFault::BadLength,
            FrameFault::Circulating => CoreFault::Circulating,
            FrameFault::MoreFollows => CoreFault::MoreFollows,
            FrameFault::UnknownCommand => CoreFault::UnknownCommand,
            FrameFault::IndexMismatch => CoreFault::IndexMismatch,
        }
    }
}

impl From<Room> for CoreFault {
    ghost use Rattle.std.specs.Prelude.{◌≡◌};
    ghost use Rattle.hc_events.specs.declared.faults.CoreFault.TheVariants as fault;

    ghost from_gives = { λ room refusal. refusal ≡ fault.Room room.0 };

    fn from(room: Room) -> CoreFault {
        CoreFault::Room(room.0)
    }
}

impl From<AllocError> for CoreFault {
    ghost use Rattle.std.specs.Prelude.{◌≡◌};
    ghost use Rattle.hc_events.specs.declared.faults.CoreFault.TheVariants.{Memory};

    ghost from_gives = { λ _ fault. fault ≡ Memory };

    fn from(_error: AllocError) -> CoreFault {
        CoreFault::Memory
    }
}
