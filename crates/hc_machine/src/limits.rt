//! The numbers of a slave machine.

/// The bytes of a slave's memory: registers and process memory, 0x0000 to 0x2FFF (this project's profile).
pub const MEMORY_BYTES: usize = 12_288;

/// The bits of a slave's memory.
pub const MEMORY_BITS: usize = 98_304;

/// The FMMUs of a slave (ETG.1000.4, 6.6: 16 at most).
pub const FMMUS: usize = 16;

/// The byte of an FMMU's block that activates it (ETG.1000.4, 6.6).
pub const ACTIVATE_BYTE: usize = 12;
