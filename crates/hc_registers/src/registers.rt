//! The registers of the FMMU and sync manager blocks (ETG.1000.4, 6.6 and 6.7).

/// The register of a slave's first FMMU block.
pub const FMMU_BLOCKS: u16 = 0x0600;

/// The length of an FMMU block in bytes.
pub const FMMU_BLOCK_BYTES: u16 = 16;

/// The register of a slave's first sync manager block.
pub const SYNC_MANAGER_BLOCKS: u16 = 0x0800;

/// The length of a sync manager block in bytes.
pub const SYNC_MANAGER_BLOCK_BYTES: u16 = 8;
