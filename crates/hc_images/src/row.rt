//! The bytes of one datagram.
ghost use Rattle.std.specs.Prelude.{◌≡◌, ◌+◌, ◌++◌, ◌*◌, ◌^◌, ◌<◌, ◌≤◌, ℕ, drop, length, min};
ghost use Rattle.std.specs.Int.{bit_at};
ghost use Rattle.hc_bits.specs.Bits.{AreBytes, bit_of, ReplacesRun};

use hc_bits::{get_bits, put_bits};
use std::alloc::{AllocError, Global};
use std::marker::Model;
use std::mem;

/// The bytes of a datagram, in memory of their own.
#[derive(Debug, Drop)]
pub(crate) struct DatagramBytes {
    bytes: Vec<u8>,
}

impl Model for DatagramBytes {
    ghost use Rattle.std.specs.Prelude.{ℕ, List};

    ghost Value = { List ℕ };

    ghost view = { λ row. row.bytes.items };
}

/// Replaces the first bytes; the others stay.
fn put_front(own: &mut [u8], bytes: &[u8])
    requires { length bytes.now ≤ length own.old }
    ensures { own.new ≡ bytes.now ++ drop (length bytes.now) own.old }
{
    own[..bytes.len()].copy_from_slice(bytes);
}

/// Replaces each byte by the one of `bytes` at its index with the bits of the mask alone, or by 0 after their end.
fn copy_masked(own: &mut [u8], mask: &[u8], bytes: &[u8])
    requires { length mask.now ≡ length own.old }
    ensures bits { (k : ℕ) → bit_of own.new k ≡ min (bit_of bytes.now k) (bit_of mask.now k) }
    ensures bytes { AreBytes own.new }
{
    let count = own.len().min(bytes.len());
    let (front, rest) = own.split_at_mut(count);
    for index in 0..count {
        front[index] = bytes[index] & mask[index];
    }
    rest.fill(0);
}

/// Returns a number of `bits` ones, from 1 to 64.
fn ones(bits: u8) -> u64
    requires some { 1 ≤ bits }
    requires most { bits ≤ 64 }
    ensures below { result < 2 ^ bits }
    ensures ones { (k : ℕ) → k < bits → bit_at result k ≡ 1 }
{
    u64::MAX >> (64 - bits)
}

/// Returns the lowest `bits` bits of a value, from 1 to 64.
fn lowest(value: u64, bits: u8) -> u64
    requires some { 1 ≤ bits }
    requires most { bits ≤ 64 }
    ensures below { result < 2 ^ bits }
    ensures bits { (k : ℕ) → k < bits → bit_at result k ≡ bit_at value k }
{
    value & ones(bits)
}

/// Writes the lowest bits of a value, 1 to 64, from a bit on.
fn put_run(bytes: &mut [u8], at: usize, bits: u8, value: u64)
    requires some { 1 ≤ bits }
    requires most { bits ≤ 64 }
    requires within { at + bits ≤ 8 * length bytes.old }
    ensures put { ReplacesRun bytes.old bytes.new at bits (bit_at value) }
    ensures bytes { AreBytes bytes.new }
{
    put_bits(bytes, at, usize::from(bits), lowest(value, bits));
}

impl DatagramBytes {
    ghost use Rattle.std.specs.Prelude.{◌≡◌, ◌+◌, ◌++◌, ◌*◌, ◌<◌, ◌≤◌, ℕ, [], IfOk, drop, length, min, replicate};
    ghost use Rattle.std.specs.Int.{bit_at};
    ghost use Rattle.hc_bits.specs.Bits.{AreBytes, bit_of, ReplacesRun};
    ghost use Rattle.hc_records.specs.declared.limits.TheConstants.{MOST_ENTRY_BITS};
    ghost use Rattle.hc_images.specs.Pieces.{resized};

    /// Returns zeros. `AllocError` if an allocation fails; none needs no allocation.
    pub(crate) fn zeros(alloc: Global, size: u16) -> Result<DatagramBytes, AllocError>
        ensures { IfOk result (λ row. row ≡ replicate size 0) }
    {
        Ok(DatagramBytes {
            bytes: vec![in alloc; 0; usize::from(size)]?,
        })
    }

    /// Returns the bytes.
    pub(crate) fn as_slice(&self) -> &[u8]
        ensures { result.now ≡ self.now }
    {
        self.bytes.as_slice()
    }

    /// Moves its bytes to the front of more zeros, whose memory it then has.
    fn grow(&mut self, zeros: &mut DatagramBytes)
        requires { length self.old ≤ length zeros.old }
        ensures { self.new ≡ self.old ++ drop (length self.old) zeros.old }
    {
        put_front(&mut zeros.bytes, &self.bytes);
        mem::swap(&mut self.bytes, &mut zeros.bytes);
    }

    /// Changes the length: bytes after it go, and new ones are zeros. If the datagram gets longer, `zeros` has as many bytes as
    /// it gets, and their memory is used.
    pub(crate) fn resize(&mut self, size: u16, zeros: &mut DatagramBytes)
        requires { length self.old < size → zeros.old ≡ replicate size 0 }
        ensures { self.new ≡ resized size self.old }
    {
        let size = usize::from(size);
        if size <= self.bytes.len() {
            self.bytes.truncate(size);
        } else {
            self.grow(zeros);
        }
    }

    /// Removes the bytes; their memory stays.
    pub(crate) fn clear(&mut self)
        ensures { self.new ≡ [] }
    {
        self.bytes.clear();
    }

    /// Returns 1 to 64 bits from a bit on, as a number.
    pub(crate) fn value(&self, at: u16, bits: u8) -> u64
        requires most { bits ≤ MOST_ENTRY_BITS }
        requires within { at + bits ≤ 8 * length self.now }
        ensures { (k : ℕ) → k < bits → bit_at result k ≡ bit_of self.now (at + k) }
    {
        get_bits(self.bytes.as_slice(), usize::from(at), usize::from(bits))
    }

    /// Writes the lowest bits of a value, 1 to 64, from a bit on.
    pub(crate) fn put(&mut self, at: u16, bits: u8, value: u64)
        requires some { 1 ≤ bits }
        requires most { bits ≤ MOST_ENTRY_BITS }
        requires within { at + bits ≤ 8 * length self.old }
        ensures put { ReplacesRun self.old self.new at bits (bit_at value) }
        ensures size { length self.new ≡ length self.old }
        ensures bytes { AreBytes self.new }
    {
        put_run(self.bytes.as_mut_slice(), usize::from(at), bits, value);
    }

    /// Copies the bits of the mask from bytes, from their first on; every other bit becomes 0.
    pub(crate) fn post(&mut self, mask: &DatagramBytes, bytes: &[u8])
        requires { length mask.now ≡ length self.old }
        ensures bits { (k : ℕ) → bit_of self.new k ≡ min (bit_of bytes.now k) (bit_of mask.now k) }
        ensures size { length self.new ≡ length self.old }
        ensures bytes { AreBytes self.new }
    {
        copy_masked(self.bytes.as_mut_slice(), mask.as_slice(), bytes);
    }
}
