//! The records of a project: groups of slaves that are connected and disconnected together, their process data areas, and the
//! PDOs that an area offers.
ghost use Rattle.std.specs.Prelude.{◌≡◌, ◌<◌};
ghost use Rattle.hc_records.specs.Variables.{variable_of};

use crate::items::{Copied, Items, Same};
use std::alloc::{AllocError, Global};
use std::marker::Model;

/// A direction of process data, as the master sees it.
#[derive(Clone, Copy, Debug, PartialEq, Eq, PartialOrd, Ord)]
pub enum Dir {
    /// From the master to the slave.
    Out,
    /// From the slave to the master.
    In,
}

/// The name of a process variable, 1 to 4,294,967,295. In project text 0 is no variable but a gap.
#[derive(Clone, Copy, Debug, PartialEq, Eq, PartialOrd, Ord)]
pub struct VarId(u32);

impl Model for VarId {
    ghost use Rattle.std.specs.Prelude.{ℕ, ◌<◌};

    ghost Value = { ℕ };

    ghost view = { λ id. id.0 };

    ghost invariant = { λ id. 0 < id.0 };

    ghost inverse = { λ n. record { 0 = n } };
}

impl VarId {
    /// Returns the variable with a number, or `None` for 0.
    pub fn new(number: u32) -> Option<VarId>
        ensures { result ≡ variable_of number }
    {
        if number == 0 {
            return None;
        }
        Some(VarId(number))
    }

    /// Returns the variable's number, 1 or more.
    pub fn number(self) -> u32
        ensures value { result ≡ self }
        ensures above_zero { 0 < result }
    {
        self.0
    }
}

/// An entry of a PDO: its variable, none for a gap, and its width, 1 to 64 bits.
pub type Entry = (Option<VarId>, u8);

/// A process data object that an area offers.
#[derive(Debug, Drop)]
pub struct Pdo {
    /// Its index in the slave's object dictionary.
    pub index: u16,
    /// Its entries, in the order of their bits.
    pub entries: Items<Entry>,
}

/// A process data area of a slave: one direction at one sync manager.
#[derive(Debug, Drop)]
pub struct Area {
    /// The sync manager's number, 0 to 15.
    pub sm: u8,
    /// The direction of its process data.
    pub dir: Dir,
    /// Its first byte in the slave's memory, 0x1000 to 0x2FFF.
    pub phys: u16,
    /// The PDOs that can be assigned.
    pub offered: Items<Pdo>,
    /// The indexes of the PDOs that are assigned, in the order of their bits.
    pub assigned: Items<u16>,
    /// The cyclic task that carries the area, 0 to 7.
    pub task: u8,
}

/// A slave.
#[derive(Debug, Drop)]
pub struct Slave {
    /// Its configured station address, 1 to 65,535.
    pub station: u16,
    /// Its process data areas.
    pub areas: Items<Area>,
}

/// Slaves that are connected and disconnected together: a tool, a docked module, or the mandatory ones.
#[derive(Debug, Drop)]
pub struct Group {
    /// The configured station alias of its first slave, 1 to 65,535; 0 for the mandatory group.
    pub alias: u16,
    /// Its slaves, in the order of the line.
    pub slaves: Items<Slave>,
}

/// A declared group of a state, and whether it is present.
#[derive(Debug, Drop)]
pub struct Declared {
    /// The group, with the assignments and tasks that it has now or will return with.
    pub group: Group,
    /// True if its slaves are in the line.
    pub present: bool,
}

impl Copied for Entry {
    fn copied(&self, _alloc: Global) -> Result<Self, AllocError> {
        Ok(*self)
    }
}

impl Same for Entry {
    fn is_same(&self, other: &Self) -> bool {
        *self == *other
    }
}

impl Copied for Pdo {
    fn copied(&self, alloc: Global) -> Result<Pdo, AllocError> {
        Ok(Pdo {
            index: self.index,
            entries: self.entries.copied(alloc)?,
        })
    }
}

impl Same for Pdo {
    fn is_same(&self, other: &Pdo) -> bool {
        self.index == other.index && self.entries.is_same(&other.entries)
    }
}

impl Copied for Area {
    fn copied(&self, alloc: Global) -> Result<Area, AllocError> {
        Ok(Area {
            sm: self.sm,
            dir: self.dir,
            phys: self.phys,
            offered: self.offered.copied(alloc)?,
            assigned: self.assigned.copied(alloc)?,
            task: self.task,
        })
    }
}

impl Same for Area {
    fn is_same(&self, other: &Area) -> bool {
        self.sm == other.sm
            && self.dir == other.dir
            && self.phys == other.phys
            && self.offered.is_same(&other.offered)
            && self.assigned.is_same(&other.assigned)
            && self.task == other.task
    }
}

impl Copied for Slave {
    fn copied(&self, alloc: Global) -> Result<Slave, AllocError> {
        Ok(Slave {
            station: self.station,
            areas: self.areas.copied(alloc)?,
        })
    }
}

impl Same for Slave {
    fn is_same(&self, other: &Slave) -> bool {
        self.station == other.station && self.areas.is_same(&other.areas)
    }
}

impl Copied for Group {
    fn copied(&self, alloc: Global) -> Result<Group, AllocError> {
        Ok(Group {
            alias: self.alias,
            slaves: self.slaves.copied(alloc)?,
        })
    }
}

impl Same for Group {
    fn is_same(&self, other: &Group) -> bool {
        self.alias == other.alias && self.slaves.is_same(&other.slaves)
    }
}
