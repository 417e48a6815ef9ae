//! Edits of a running line.
use crate::items::{Copied, Items};
use crate::records::Group;
use std::alloc::{AllocError, Global};

/// An edit of the line.
#[derive(Debug, Drop)]
pub enum Edit {
    /// Connects the group with this alias.
    Connect(u16),
    /// Disconnects the group with this alias.
    Disconnect(u16),
    /// Assigns these PDOs, in this order, to an area of a present slave.
    Remap {
        /// The slave's configured station address.
        station: u16,
        /// The area's index in the slave's record, from 0.
        area: u8,
        /// The indexes of the PDOs.
        pdos: Items<u16>,
    },
    /// Moves an area of a present slave to a task.
    Move {
        /// The slave's configured station address.
        station: u16,
        /// The area's index in the slave's record, from 0.
        area: u8,
        /// The task, 0 to 7.
        task: u8,
    },
    /// Declares a group after the others. It is absent until it is connected.
    Declare(Group),
}

impl Copied for Edit {
    fn copied(&self, alloc: Global) -> Result<Edit, AllocError> {
        Ok(match self {
            Edit::Connect(alias) => Edit::Connect(*alias),
            Edit::Disconnect(alias) => Edit::Disconnect(*alias),
            Edit::Remap {
                station,
                area,
                pdos,
            } => Edit::Remap {
                station: *station,
                area: *area,
                pdos: pdos.copied(alloc)?,
            },
            Edit::Move {
                station,
                area,
                task,
            } => Edit::Move {
                station: *station,
                area: *area,
                task: *task,
            },
            Edit::Declare(group) => Edit::Declare(group.copied(alloc)?),
        })
    }
}
