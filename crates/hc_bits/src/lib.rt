//! Runs of bits in slices of bytes: read, replaced and copied. The core packs and reads process data by these calls, and the
//! slave machine moves mapped bits by them.
//!
//! Bits are counted from the least significant bit of the slice's first byte: bit `k` is bit `k % 8` of byte `k / 8`, as the
//! start and stop bits of an FMMU count them (ETG.1000.4, 6.6). A run is the `n` bits from bit `at` on. No call fails, and none
//! allocates.
#![tactic(auto)]

mod byte;
pub mod laws;
mod run;
mod word;

pub use run::{copy_bits, get_bits, put_bits};
