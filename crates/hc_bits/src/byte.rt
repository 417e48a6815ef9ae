//! Runs of bits within one byte. The runs over several bytes are made from them.

ghost use Rattle.std.specs.Prelude.{◌≡◌, ℕ, ◌+◌, ◌-◌, ◌^◌, ◌<◌, ◌≤◌};
ghost use Rattle.std.specs.Int.{bit_at};

/// A byte whose `n` lowest bits are ones, for `n` from 1 to 8.
fn ones(n: usize) -> u8
    requires some { 0 < n }
    requires within { n ≤ 8 }
    ensures { result ≡ 2 ^ n - 1 }
{
    u8::MAX >> (8 - n)
}

/// The `n` bits of `byte` from bit `at` on, for `n` from 1 to 8.
pub(crate) fn part_of(byte: u8, at: usize, n: usize) -> u8
    requires some { 0 < n }
    requires within { at + n ≤ 8 }
    ensures fits { result < 2 ^ n }
    ensures bits { (k : ℕ) → k < n → bit_at result k ≡ bit_at byte (at + k) }
{
    byte >> at & ones(n)
}

/// `byte` with the `n` bits from bit `at` on replaced by those of `part`, for `n` from 1 to 8.
pub(crate) fn with_part(byte: u8, at: usize, n: usize, part: u8) -> u8
    requires some { 0 < n }
    requires within { at + n ≤ 8 }
    requires fits { part < 2 ^ n }
    ensures inside { (k : ℕ) → k < n → bit_at result (at + k) ≡ bit_at part k }
    ensures before { (k : ℕ) → k < at → bit_at result k ≡ bit_at byte k }
    ensures after { (k : ℕ) → at + n ≤ k → k < 8 → bit_at result k ≡ bit_at byte k }
{
    let mask = ones(n) << at;
    byte & !mask | part << at
}
