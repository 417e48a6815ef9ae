//! Faults of projects and edits. A fault's number is part of the program's printed words and never changes.
ghost use Rattle.std.specs.Prelude.{◌≡◌};
ghost use Rattle.hc_records.specs.ProjectFault.{project_fault_number};
ghost use Rattle.hc_records.specs.EditFault.{edit_fault_number};

use std::alloc::AllocError;
use thiserror::Error;

/// The reason for which a project is refused.
#[derive(Clone, Copy, Debug, PartialEq, Eq, Error)]
pub enum ProjectFault {
    /// The text is no TOML document.
    #[error("the text is no TOML document")]
    NotToml,
    /// A needed key is absent, or a value is of another kind.
    #[error("a needed key is absent or a value is of another kind")]
    MissingField,
    /// A number, a list's length or the memory that an area may take is outside its range.
    #[error("a value is outside its range")]
    OutOfRange,
    /// Two groups have one alias.
    #[error("two groups have one alias")]
    RepeatedAlias,
    /// Two slaves have one station address.
    #[error("two slaves have one station address")]
    RepeatedStation,
    /// Two areas of a slave have one sync manager.
    #[error("two areas of a slave have one sync manager")]
    RepeatedSyncManager,
    /// Two areas of a slave may take the same byte of its memory.
    #[error("two areas of a slave overlap")]
    OverlappingAreas,
    /// A variable is in two entries.
    #[error("a variable stands in two entries")]
    RepeatedVariable,
    /// An assigned PDO is not offered or is assigned twice, or two offered PDOs have one index.
    #[error("an assigned PDO is not one offered PDO")]
    UnknownPdo,
    /// The assigned PDOs of an area have more bits than a datagram.
    #[error("an area is wider than a datagram")]
    AreaTooBig,
    /// An allocation failed.
    #[error("out of memory")]
    Memory,
    /// The text of a group has a mandatory slave, or not exactly one group.
    #[error("the text has a mandatory slave or not exactly one group")]
    NotOneGroup,
}

impl ProjectFault {
    /// Returns the fault's number, 1 to 12.
    pub fn number(self) -> u8
        ensures { result ≡ project_fault_number self }
    {
        match self {
            ProjectFault::NotToml => 1,
            ProjectFault::MissingField => 2,
            ProjectFault::OutOfRange => 3,
            ProjectFault::RepeatedAlias => 4,
            ProjectFault::RepeatedStation => 5,
            ProjectFault::RepeatedSyncManager => 6,
            ProjectFault::OverlappingAreas => 7,
            ProjectFault::RepeatedVariable => 8,
            ProjectFault::UnknownPdo => 9,
            ProjectFault::AreaTooBig => 10,
            ProjectFault::Memory => 11,
            ProjectFault::NotOneGroup => 12,
        }
    }
}

impl From<AllocError> for ProjectFault {
    ghost use Rattle.std.specs.Prelude.{◌≡◌};
    ghost use Rattle.hc_records.specs.declared.faults.ProjectFault.TheVariants.{Memory};

    ghost from_gives = { λ _ fault. fault ≡ Memory };

    fn from(_error: AllocError) -> ProjectFault {
        ProjectFault::Memory
    }
}

/// The reason for which an edit of the line is refused.
#[derive(Clone, Copy, Debug, PartialEq, Eq, Error)]
pub enum EditFault {
    /// No group has the alias.
    #[error("no group has the alias")]
    UnknownAlias,
    /// The group is in the line already.
    #[error("the group is present already")]
    AlreadyPresent,
    /// The group is not in the line.
    #[error("the group is not present")]
    NotPresent,
    /// The mandatory group cannot be disconnected.
    #[error("the mandatory group stays")]
    Mandatory,
    /// No declared slave has the station address.
    #[error("no slave has the station address")]
    UnknownStation,
    /// The slave's group is not in the line.
    #[error("the slave is not present")]
    Absent,
    /// The slave has no such area.
    #[error("the slave has no such area")]
    NoSuchArea,
    /// Tasks are numbered 0 to 7.
    #[error("there is no such task")]
    NoSuchTask,
    /// The area does not offer a PDO with the index.
    #[error("the area does not offer the PDO")]
    UnknownPdo,
    /// An index occurs twice.
    #[error("a PDO is named twice")]
    RepeatedPdo,
    /// The PDOs have more bits than a datagram.
    #[error("the area would be wider than a datagram")]
    AreaTooBig,
    /// The task would have more than 16 datagrams.
    #[error("task {0} would have too many datagrams")]
    TooManyDatagrams(u8),
    /// The last epoch is reached.
    #[error("no epoch is left")]
    EpochsSpent,
    /// An allocation failed.
    #[error("out of memory")]
    Memory,
    /// The declared group has this fault by itself.
    #[error("the group can't be declared: {0}")]
    BadGroup(ProjectFault),
    /// A group with the alias is declared already.
    #[error("the alias is declared already")]
    AliasTaken,
    /// A slave with one of the station addresses is declared already.
    #[error("a station address is declared already")]
    StationTaken,
    /// A declared slave offers one of the variables already.
    #[error("a variable is declared already")]
    VariableTaken,
    /// There would be more groups than a project may have.
    #[error("there would be too many groups")]
    TooManyGroups,
    /// There would be more slaves than a project may have.
    #[error("there would be too many slaves")]
    TooManySlaves,
}

impl EditFault {
    /// Returns the fault's number, 1 to 14, and 30 to 35 for a declared group's.
    pub fn number(self) -> u8
        ensures { result ≡ edit_fault_number self }
    {
        match self {
            EditFault::UnknownAlias => 1,
            EditFault::AlreadyPresent => 2,
            EditFault::NotPresent => 3,
            EditFault::Mandatory => 4,
            EditFault::UnknownStation => 5,
            EditFault::Absent => 6,
            EditFault::NoSuchArea => 7,
            EditFault::NoSuchTask => 8,
            EditFault::UnknownPdo => 9,
            EditFault::RepeatedPdo => 10,
            EditFault::AreaTooBig => 11,
            EditFault::TooManyDatagrams(_) => 12,
            EditFault::EpochsSpent => 13,
            EditFault::Memory => 14,
            EditFault::BadGroup(_) => 30,
            EditFault::AliasTaken => 31,
            EditFault::StationTaken => 32,
            EditFault::VariableTaken => 33,
            EditFault::TooManyGroups => 34,
            EditFault::TooManySlaves => 35,
        }
    }
}

impl From<AllocError> for EditFault {
    ghost use Rattle.std.specs.Prelude.{◌≡◌};
    ghost use Rattle.hc_records.specs.declared.faults.EditFault.TheVariants.{Memory};

    ghost from_gives = { λ _ fault. fault ≡ Memory };

    fn from(_error: AllocError) -> EditFault {
        EditFault::Memory
    }
}
