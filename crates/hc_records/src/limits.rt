//! The limits of a project, in one place, each with its source.

/// The most slaves that a project declares, over all its groups (this project's profile).
pub const MOST_SLAVES: usize = 2048;

/// The most groups of a project, the mandatory one included (this project's profile).
pub const MOST_GROUPS: usize = 512;

/// The most process data areas of a slave (this project's profile).
pub const MOST_AREAS: usize = 8;

/// The most PDOs that an area offers, and the most that are assigned (this project's profile).
pub const MOST_PDOS: usize = 32;

/// The most entries of a PDO (this project's profile).
pub const MOST_ENTRIES: usize = 64;

/// The most bits of an entry, as many as a variable's value holds (this project's profile).
pub const MOST_ENTRY_BITS: u8 = 64;

/// The most data bytes of a datagram: the 1,500 bytes of an Ethernet frame's data without the EtherCAT header (2), the
/// datagram's header (10) and its working counter (2) (ETG.1000.4, 5.3 and 5.4).
pub const MOST_DATAGRAM_BYTES: u16 = 1486;

/// The most bits of an area, which is never split over datagrams: those of the longest datagram,
/// 11,888.
pub const MOST_AREA_BITS: u32 = 8 * MOST_DATAGRAM_BYTES as u32;

/// The cyclic tasks, numbered from 0 (this project's profile).
pub const TASKS: u8 = 8;

/// The most datagrams of a task (this project's profile).
pub const MOST_DATAGRAMS: usize = 16;

/// The highest sync manager number of an area (ETG.1000.4, 6.7: 16 channels).
pub const LAST_SYNC_MANAGER: u8 = 15;

/// The first byte of a slave's memory that an area may take, after all registers (this project's
/// profile).
pub const MEMORY_START: u16 = 0x1000;

/// The byte after the last one of a slave's memory that an area may take (this project's profile).
pub const MEMORY_END: u16 = 0x3000;

/// The last epoch: an epoch is counted in 32 bits (this project's profile).
pub const LAST_EPOCH: u32 = u32::MAX;
