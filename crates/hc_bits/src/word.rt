//! Runs of bits within one word of 64 bits.

ghost use Rattle.std.specs.Prelude.{◌≡◌, ℕ, ◌+◌, ◌-◌, ◌^◌, ◌<◌, ◌≤◌};
ghost use Rattle.std.specs.Int.{bit_at};

/// The bits of a word.
pub(crate) const WORD: usize = 64;

/// A word whose `n` lowest bits are ones, for `n` from 1 to 64.
fn ones(n: usize) -> u64
    requires some { 0 < n }
    requires within { n ≤ 64 }
    ensures { result ≡ 2 ^ n - 1 }
{
    u64::MAX >> (WORD - n)
}

/// The `n` lowest bits of `word`, for `n` from 1 to 64.
pub(crate) fn lowest(word: u64, n: usize) -> u64
    requires some { 0 < n }
    requires within { n ≤ 64 }
    ensures fits { result < 2 ^ n }
    ensures bits { (k : ℕ) → k < n → bit_at result k ≡ bit_at word k }
{
    word & ones(n)
}

/// `word` with the `n` bits from bit `at` on replaced by those of `part`, for `n` from 1 to 64.
pub(crate) fn with_run(word: u64, at: usize, n: usize, part: u64) -> u64
    requires some { 0 < n }
    requires within { at + n ≤ 64 }
    requires fits { part < 2 ^ n }
    ensures inside { (k : ℕ) → k < n → bit_at result (at + k) ≡ bit_at part k }
    ensures before { (k : ℕ) → k < at → bit_at result k ≡ bit_at word k }
    ensures after { (k : ℕ) → at + n ≤ k → k < 64 → bit_at result k ≡ bit_at word k }
{
    let mask = ones(n) << at;
    word & !mask | part << at
}
