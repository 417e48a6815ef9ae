//! Runs of bits in bytes that C stores: posts and images.
ghost use Rattle.std.specs.Prelude.{◌≡◌, ◌≢◌, ℕ, ◌+◌, ◌<◌, ◌≤◌, ◌^◌, if◌then◌else◌, length};
ghost use Rattle.std.specs.Int.{bit_at};
ghost use Rattle.hc_bits.specs.Bits.{ReplacesRun, bit_of};
ghost use Rattle.hc_c.specs.Runs.{is_run, is_too_wide, put_number};

use crate::numbers::{DONE, MISUSED, TOO_WIDE};
use hc_bits::{get_bits, put_bits};

/// Returns whether 1 to 64 bits from a bit on lie within a number of bytes.
pub fn is_run(bytes: usize, bit: usize, bits: u8) -> bool
    ensures { result ≡ is_run bytes bit bits }
{
    let first = bit / 8;
    if bits < 1 || bits > 64 || first >= bytes {
        return false;
    }
    let left = bytes - first;
    left > 8 || bit % 8 + usize::from(bits) <= 8 * left
}

/// Returns whether a value needs more bits than `bits`, at most 64.
pub fn is_too_wide(value: u64, bits: u8) -> bool
    requires { bits ≤ 64 }
    ensures { result ≡ is_too_wide value bits }
{
    bits < 64 && value >= 1 << bits
}

/// Reads 1 to 64 bits of a slice from bit `bit` on as a number whose least significant bit is the first one. Bits are counted
/// from the least significant bit of the first byte. Returns `DONE`. Fails with `MISUSED` if `bits` is not 1 to 64 or the bits
/// do not lie within the slice; then `value` is unchanged.
#[unsafe(no_mangle)]
pub extern "C" fn zangjulf_get_bits(bytes: &[u8], bit: usize, bits: u8, value: &mut u64) -> u8
    ensures number { result ≡ (if is_run (length bytes.now) bit bits then DONE else MISUSED) }
    ensures fits { result ≡ DONE → value.new < 2 ^ bits }
    ensures bits { result ≡ DONE → (k : ℕ) → k < bits → bit_at value.new k ≡ bit_of bytes.now (bit + k) }
    ensures unwritten { result ≢ DONE → value.new ≡ value.old }
{
    if !is_run(bytes.len(), bit, bits) {
        return MISUSED;
    }
    *value = get_bits(bytes, bit, usize::from(bits));
    DONE
}

/// Writes a value into 1 to 64 bits of a slice from bit `bit` on, its least significant bit first. All other bits stay. Returns
/// `DONE`. Fails with the first of these; then the slice is unchanged:
///
/// - `MISUSED`: `bits` is not 1 to 64, or the bits do not lie within the slice.
/// - `TOO_WIDE`: the value needs more bits.
#[unsafe(no_mangle)]
pub extern "C" fn zangjulf_put_bits(bytes: &mut [u8], bit: usize, bits: u8, value: u64) -> u8
    ensures number { result ≡ put_number (length bytes.old) bit bits value }
    ensures bits { result ≡ DONE → ReplacesRun bytes.old bytes.new bit bits (bit_at value) }
    ensures untouched { result ≢ DONE → bytes.new ≡ bytes.old }
{
    if !is_run(bytes.len(), bit, bits) {
        return MISUSED;
    }
    if is_too_wide(value, bits) {
        return TOO_WIDE;
    }
    put_bits(bytes, bit, usize::from(bits), value);
    DONE
}
