//! A logical memory read and write (ETG.1000.4, LRW): the pairs of each FMMU that the datagram meets go as one run of bits. The
//! FMMUs are laid from the last to the first, so that the lower number decides if two meet.

ghost use Rattle.std.specs.Prelude.{◌≡◌, ℕ, ◌+◌, ◌-◌, ◌*◌, ◌^◌, ◌<◌, ◌≤◌, length, take, [], ◌∷◌, All, filter, if◌then◌else◌};
ghost use Rattle.std.specs.List.{list_any};
ghost use Rattle.hc_bits.specs.Bits.{bit_of};
ghost use Rattle.hc_machine.specs.Fmmus.{fmmus_of, IsInMemory};
ghost use Rattle.hc_machine.specs.Memory.{bytes_with};
ghost use Rattle.hc_machine.specs.Logical.{bit_read, bit_written, logical_count, logical_data, logical_memory, fmmu_meets, mixes_any, reads_any};

use crate::fmmu::{Fmmu, add_all_mapped, meets};
use crate::limits::MEMORY_BYTES;
use crate::memory::{alias_of, put_back};
use arrayvec::ArrayVec;
use hc_bits::copy_bits;
use hc_frames::limits::MAX_DATA;

/// Puts the memory bits that one FMMU reads into the data of a datagram at logical bit `from`.
fn read_one(fmmu: &Fmmu, memory: &[u8], from: usize, bytes: &mut [u8])
    requires in_memory { IsInMemory fmmu.now }
    requires memory { length memory.now ≡ MEMORY_BYTES }
    requires short { length bytes.old ≤ MAX_DATA }
    requires fits { from < 2 ^ 40 }
    ensures { (k : ℕ) → k < 8 * length bytes.old →
        bit_of bytes.new k ≡ bit_read (fmmu.now ∷ []) (bit_of memory.now) (from + k) (bit_of bytes.old k) }
{
    let start = fmmu.logical.max(from);
    let stop = (fmmu.logical + fmmu.width).min(from + 8 * bytes.len());
    if fmmu.reads && start < stop {
        let at = fmmu.memory + (start - fmmu.logical);
        copy_bits(memory, at, bytes, start - from, stop - start);
    }
}

/// Puts the memory bits that are read into the data of a datagram at logical bit `from`.
fn read_bits(fmmus: &[Fmmu], memory: &[u8], from: usize, bytes: &mut [u8])
    requires in_memory { All IsInMemory fmmus.now }
    requires memory { length memory.now ≡ MEMORY_BYTES }
    requires short { length bytes.old ≤ MAX_DATA }
    requires fits { from < 2 ^ 40 }
    ensures { (k : ℕ) → k < 8 * length bytes.old →
        bit_of bytes.new k ≡ bit_read fmmus.now (bit_of memory.now) (from + k) (bit_of bytes.old k) }
{
    for k in 0..fmmus.len() {
        read_one(&fmmus[fmmus.len() - 1 - k], memory, from, bytes);
    }
}

/// Puts the bits that one FMMU writes of the data of a datagram at logical bit `from` into memory.
fn write_one(fmmu: &Fmmu, bytes: &[u8], from: usize, memory: &mut [u8])
    requires in_memory { IsInMemory fmmu.now }
    requires memory { length memory.old ≡ MEMORY_BYTES }
    requires short { length bytes.now ≤ MAX_DATA }
    requires fits { from < 2 ^ 40 }
    ensures { (m : ℕ) → bit_of memory.new m
        ≡ bit_written (fmmu.now ∷ []) (bit_of bytes.now) from (8 * length bytes.now) m (bit_of memory.old m) }
{
    let start = fmmu.logical.max(from);
    let stop = (fmmu.logical + fmmu.width).min(from + 8 * bytes.len());
    if fmmu.writes && start < stop {
        let to = fmmu.memory + (start - fmmu.logical);
        copy_bits(bytes, start - from, memory, to, stop - start);
    }
}

/// Puts the bits that are written of the data of a datagram at logical bit `from` into memory.
fn write_bits(fmmus: &[Fmmu], bytes: &[u8], from: usize, memory: &mut [u8])
    requires in_memory { All IsInMemory fmmus.now }
    requires memory { length memory.old ≡ MEMORY_BYTES }
    requires short { length bytes.now ≤ MAX_DATA }
    requires fits { from < 2 ^ 40 }
    ensures { (m : ℕ) → bit_of memory.new m
        ≡ bit_written fmmus.now (bit_of bytes.now) from (8 * length bytes.now) m (bit_of memory.old m) }
{
    for k in 0..fmmus.len() {
        write_one(&fmmus[fmmus.len() - 1 - k], bytes, from, memory);
    }
}

/// True if one of the `n` logical bits from `from` on is read.
fn reads_any(fmmus: &[Fmmu], from: usize, n: usize) -> bool
    requires in_memory { All IsInMemory fmmus.now }
    requires fits { from + n < 2 ^ 41 }
    ensures { result ≡ reads_any from n fmmus.now }
{
    for fmmu in fmmus {
        if fmmu.reads && meets(fmmu, from, n) {
            return true;
        }
    }
    false
}

/// Puts the memory bits that are read into the data, by the FMMUs that the datagram meets; seen as the bytes that they
/// leave.
fn read_data(fmmus: &[Fmmu], memory: &[u8], from: usize, bytes: &mut [u8])
    requires mapped { fmmus.now ≡ filter (fmmu_meets from (8 * length bytes.old)) (fmmus_of memory.now) }
    requires in_memory { All IsInMemory fmmus.now }
    requires memory { length memory.now ≡ MEMORY_BYTES }
    requires short { length bytes.old ≤ MAX_DATA }
    requires fits { from < 2 ^ 40 }
    ensures bits { (k : ℕ) → k < 8 * length bytes.old → bit_of bytes.new k ≡ bit_read fmmus.now (bit_of memory.now) (from + k) (bit_of bytes.old k) }
    ensures data { bytes.new ≡ bytes_with (length bytes.old) (λ k. bit_read (fmmus_of memory.now) (bit_of memory.now) (from + k) (bit_of bytes.old k)) }
{
    read_bits(fmmus, memory, from, bytes);
}

/// Puts the bits that are written into memory, by the FMMUs that the datagram meets; seen as the bytes that they leave.
fn write_data(fmmus: &[Fmmu], bytes: &[u8], from: usize, memory: &mut [u8])
    requires mapped { fmmus.now ≡ filter (fmmu_meets from (8 * length bytes.now)) (fmmus_of memory.old) }
    requires in_memory { All IsInMemory fmmus.now }
    requires memory { length memory.old ≡ MEMORY_BYTES }
    requires short { length bytes.now ≤ MAX_DATA }
    requires fits { from < 2 ^ 40 }
    ensures { memory.new ≡ bytes_with (length memory.old) (λ m. bit_written (fmmus_of memory.old) (bit_of bytes.now) from (8 * length bytes.now) m (bit_of memory.old m)) }
{
    write_bits(fmmus, bytes, from, memory);
}

/// Puts bytes at the head of a slice.
fn keep(spare: &mut [u8], bytes: &[u8])
    requires { length bytes.now ≤ length spare.old }
    ensures { take (length bytes.now) spare.new ≡ bytes.now }
{
    spare[..bytes.len()].copy_from_slice(bytes);
}

/// True if a logical bit is both read and written.
fn mixes_any(fmmus: &[Fmmu]) -> bool
    requires in_memory { All IsInMemory fmmus.now }
    ensures { result ≡ mixes_any fmmus.now }
{
    for fmmu in fmmus {
        if fmmu.writes && reads_any(fmmus, fmmu.logical, fmmu.width) {
            return true;
        }
    }
    false
}

/// Puts the memory bits that are read into the data, and the data bits that came in into memory, by the FMMUs that the datagram
/// meets. The data that came in are kept in `spare` if these FMMUs both read and write a logical bit.
fn exchange_data(fmmus: &[Fmmu], memory: &mut [u8], spare: &mut [u8], from: usize, bytes: &mut [u8])
    requires mapped { fmmus.now ≡ filter (fmmu_meets from (8 * length bytes.old)) (fmmus_of memory.old) }
    requires in_memory { All IsInMemory fmmus.now }
    requires memory { length memory.old ≡ MEMORY_BYTES }
    requires spare { length spare.old ≡ MAX_DATA }
    requires short { length bytes.old ≤ MAX_DATA }
    requires fits { from < 2 ^ 40 }
    ensures data { bytes.new ≡ bytes_with (length bytes.old) (λ k. bit_read (fmmus_of memory.old) (bit_of memory.old) (from + k) (bit_of bytes.old k)) }
    ensures memory { memory.new ≡ bytes_with (length memory.old) (λ m. bit_written (fmmus_of memory.old) (bit_of bytes.old) from (8 * length bytes.old) m (bit_of memory.old m)) }
{
    if mixes_any(fmmus) {
        let size = bytes.len();
        keep(spare, bytes);
        read_data(fmmus, memory, from, bytes);
        write_data(fmmus, &spare[..size], from, memory);
        return;
    }
    read_data(fmmus, memory, from, bytes);
    write_data(fmmus, bytes, from, memory);
}

/// True if one of the FMMUs reads.
fn any_reads(fmmus: &[Fmmu]) -> bool
    ensures { result ≡ list_any (λ f. f.reads) fmmus.now }
{
    fmmus.iter().any(|fmmu| fmmu.reads)
}

/// True if one of the FMMUs writes.
fn any_writes(fmmus: &[Fmmu]) -> bool
    ensures { result ≡ list_any (λ f. f.writes) fmmus.now }
{
    fmmus.iter().any(|fmmu| fmmu.writes)
}

/// The number that the FMMUs of a datagram add to the working counter: 1 if one reads, and 2 if one writes.
fn count_of(fmmus: &[Fmmu]) -> u16
    ensures value { result ≡ (if list_any (λ f. f.reads) fmmus.now then 1 else 0) + (if list_any (λ f. f.writes) fmmus.now then 2 else 0) }
    ensures small { result ≤ 3 }
{
    let read = if any_reads(fmmus) { 1 } else { 0 };
    let written = if any_writes(fmmus) { 2 } else { 0 };
    read + written
}

/// Serves a datagram at a logical address, and returns the number that it adds to the working counter. `spare` has room for the
/// data that came in.
pub(crate) fn serve_logical(
    memory: &mut [u8],
    spare: &mut [u8],
    address: u32,
    bytes: &mut [u8],
) -> u16
    requires memory { length memory.old ≡ MEMORY_BYTES }
    requires spare { length spare.old ≡ MAX_DATA }
    requires short { length bytes.old ≤ MAX_DATA }
    ensures data { bytes.new ≡ logical_data memory.old (8 * address) bytes.old }
    ensures memory { memory.new ≡ logical_memory memory.old (8 * address) bytes.old }
    ensures count { result ≡ logical_count memory.old (8 * address) (length bytes.old) }
    ensures small { result ≤ 3 }
{
    let from = 8 * address as usize;
    let n = 8 * bytes.len();
    let mut mapped = ArrayVec::new();
    add_all_mapped(&mut mapped, memory, from, n);
    let fmmus = mapped.as_slice();
    let alias = alias_of(memory);
    exchange_data(fmmus, memory, spare, from, bytes);
    put_back(memory, alias);
    count_of(fmmus)
}
