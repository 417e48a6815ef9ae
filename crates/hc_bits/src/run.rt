//! Runs of bits over any number of bytes. Inside, a place is a byte and a bit of it: the number of a slice's
//! last bit need not fit a `usize`.

ghost use Rattle.std.specs.Prelude.{◌≡◌, ℕ, ◌+◌, ◌*◌, ◌^◌, ◌<◌, ◌≤◌, length};
ghost use Rattle.std.specs.Int.{bit_at};
ghost use Rattle.hc_bits.specs.Bits.{bit_of, ReplacesRun};

use crate::byte::{part_of, with_part};
use crate::word::{WORD, lowest, with_run};

/// The `n` bits from bit `at` of byte `first` on.
fn get_from(bytes: &[u8], first: usize, at: usize, n: usize) -> u64
    requires word { n ≤ 64 }
    requires in_byte { at < 8 }
    requires within { 8 * first + at + n ≤ 8 * length bytes.now }
    ensures fits { result < 2 ^ n }
    ensures bits { (k : ℕ) → k < n → bit_at result k ≡ bit_of bytes.now (8 * first + at + k) }
{
    let mut value = 0;
    let mut done = 0;
    while done < n {
        let place = at + done;
        let count = (n - done).min(8 - place % 8);
        let part = part_of(bytes[first + place / 8], place % 8, count);
        value |= u64::from(part) << done;
        done += count;
    }
    value
}

/// Puts the `n` bits of `value` from bit `at` of byte `first` on.
fn put_from(bytes: &mut [u8], first: usize, at: usize, n: usize, value: u64)
    requires word { n ≤ 64 }
    requires in_byte { at < 8 }
    requires within { 8 * first + at + n ≤ 8 * length bytes.old }
    requires fits { value < 2 ^ n }
    ensures { ReplacesRun bytes.old bytes.new (8 * first + at) n (bit_at value) }
{
    let mut done = 0;
    while done < n {
        let place = at + done;
        let count = (n - done).min(8 - place % 8);
        let part = part_of((value >> done & 0xff) as u8, 0, count);
        let byte = &mut bytes[first + place / 8];
        *byte = with_part(*byte, place % 8, count, part);
        done += count;
    }
}

/// The 64 bits from byte `first` on.
fn whole_word(bytes: &[u8], first: usize) -> u64
    requires { first + 8 ≤ length bytes.now }
    ensures { (k : ℕ) → k < 64 → bit_at result k ≡ bit_of bytes.now (8 * first + k) }
{
    let mut word = [0; 8];
    word.copy_from_slice(&bytes[first..first + 8]);
    u64::from_le_bytes(word)
}

/// Returns the 64 bits from bit `at` of byte `first` on, if they do not begin with a byte.
fn word_at(bytes: &[u8], first: usize, at: usize) -> u64
    requires some { 0 < at }
    requires in_byte { at < 8 }
    requires within { first + 8 < length bytes.now }
    ensures { (k : ℕ) → k < 64 → bit_at result k ≡ bit_of bytes.now (8 * first + at + k) }
{
    let low = whole_word(bytes, first);
    let high = u64::from(bytes[first + 8]);
    low >> at | high << (WORD - at)
}

/// The 64 bits from bit `at` of byte `first` on.
fn any_word(bytes: &[u8], first: usize, at: usize) -> u64
    requires in_byte { at < 8 }
    requires within { first + 8 < length bytes.now }
    ensures { (k : ℕ) → k < 64 → bit_at result k ≡ bit_of bytes.now (8 * first + at + k) }
{
    if at == 0 {
        whole_word(bytes, first)
    } else {
        word_at(bytes, first, at)
    }
}

/// Writes a word into the eight bytes from `first` on.
fn put_word(bytes: &mut [u8], first: usize, word: u64)
    requires { first + 8 ≤ length bytes.old }
    ensures { ReplacesRun bytes.old bytes.new (8 * first) 64 (bit_at word) }
{
    bytes[first..first + 8].copy_from_slice(&word.to_le_bytes());
}

/// Copies `count` whole bytes.
fn copy_bytes(from: &[u8], first: usize, to: &mut [u8], first2: usize, count: usize)
    requires from_within { first + count ≤ length from.now }
    requires to_within { first2 + count ≤ length to.old }
    ensures { ReplacesRun to.old to.new (8 * first2) (8 * count) (λ k. bit_of from.now (8 * first + k)) }
{
    to[first2..first2 + count].copy_from_slice(&from[first..first + count]);
}

/// Copies `count` words from bit `at` of byte `first` on, if that is not a byte's first bit.
fn copy_words(from: &[u8], first: usize, at: usize, to: &mut [u8], first2: usize, count: usize)
    requires some { 0 < at }
    requires in_byte { at < 8 }
    requires from_within { 8 * first + at + 64 * count ≤ 8 * length from.now }
    requires to_within { first2 + 8 * count ≤ length to.old }
    ensures { ReplacesRun to.old to.new (8 * first2) (64 * count) (λ k. bit_of from.now (8 * first + at + k)) }
{
    for i in 0..count {
        let word = word_at(from, first + 8 * i, at);
        put_word(to, first2 + 8 * i, word);
    }
}

/// Returns the eight bits from bit `at` of byte `first` on, if they do not begin with a byte.
fn octet_at(bytes: &[u8], first: usize, at: usize) -> u8
    requires some { 0 < at }
    requires in_byte { at < 8 }
    requires within { first + 1 < length bytes.now }
    ensures { (k : ℕ) → k < 8 → bit_at result k ≡ bit_of bytes.now (8 * first + at + k) }
{
    bytes[first] >> at | bytes[first + 1] << (8 - at)
}

/// Copies `count` times eight bits from bit `at` of byte `first` on, if that is not a byte's first bit.
fn copy_octets(from: &[u8], first: usize, at: usize, to: &mut [u8], first2: usize, count: usize)
    requires some { 0 < at }
    requires in_byte { at < 8 }
    requires from_within { 8 * first + at + 8 * count ≤ 8 * length from.now }
    requires to_within { first2 + count ≤ length to.old }
    ensures { ReplacesRun to.old to.new (8 * first2) (8 * count) (λ k. bit_of from.now (8 * first + at + k)) }
{
    for i in 0..count {
        to[first2 + i] = octet_at(from, first + i, at);
    }
}

/// Copies into whole bytes from `first2` on, as long as eight bits or more of the `n` are left, and returns the number of bytes
/// that it wrote.
fn copy_most(from: &[u8], first: usize, at: usize, to: &mut [u8], first2: usize, n: usize) -> usize
    requires in_byte { at < 8 }
    requires from_within { 8 * first + at + n ≤ 8 * length from.now }
    requires to_within { 8 * first2 + n ≤ 8 * length to.old }
    ensures within { 8 * result ≤ n }
    ensures few_left { n < 8 * result + 8 }
    ensures bits { ReplacesRun to.old to.new (8 * first2) (8 * result) (λ k. bit_of from.now (8 * first + at + k)) }
{
    if at == 0 {
        let count = n / 8;
        copy_bytes(from, first, to, first2, count);
        count
    } else {
        let words = n / WORD;
        copy_words(from, first, at, to, first2, words);
        let done = 8 * words;
        copy_octets(from, first + done, at, to, first2 + done, n / 8 - done);
        n / 8
    }
}

/// Returns the `n` bits of `bytes` from bit `at` on, as a number: the run's first bit is its least significant.
///
/// `n` is 0 to 64, and the run lies in the slice. The call cannot fail; for no bits the number is 0.
pub fn get_bits(bytes: &[u8], at: usize, n: usize) -> u64
    requires word { n ≤ 64 }
    requires within { at + n ≤ 8 * length bytes.now }
    ensures fits { result < 2 ^ n }
    ensures bits { (k : ℕ) → k < n → bit_at result k ≡ bit_of bytes.now (at + k) }
{
    let first = at / 8;
    let place = at % 8;
    if 0 < n && first + 8 < bytes.len() {
        return lowest(any_word(bytes, first, place), n);
    }
    get_from(bytes, first, place, n)
}

/// Replaces the `n` bits of `bytes` from bit `at` on by those of `value`, the least significant first. Every other bit stays.
///
/// `n` is 0 to 64, the run lies in the slice, and `value` is below 2 to the power of `n`. The call cannot fail; with no bits it
/// changes nothing.
pub fn put_bits(bytes: &mut [u8], at: usize, n: usize, value: u64)
    requires word { n ≤ 64 }
    requires within { at + n ≤ 8 * length bytes.old }
    requires fits { value < 2 ^ n }
    ensures { ReplacesRun bytes.old bytes.new at n (bit_at value) }
{
    let first = at / 8;
    let place = at % 8;
    if 0 < n && place + n <= WORD && first + 8 <= bytes.len() {
        let word = with_run(whole_word(bytes, first), place, n, value);
        put_word(bytes, first, word);
    } else {
        put_from(bytes, first, place, n, value);
    }
}

/// Replaces the `n` bits of `to` from bit `at2` on by the `n` bits of `from` from bit `at` on. Every other bit stays.
///
/// Both runs lie in their slices, and `n` has no other bound. The call cannot fail. If both runs begin at the same bit of a
/// byte, their whole bytes are copied as memory; otherwise they are copied by words of 64 bits and by bytes.
pub fn copy_bits(from: &[u8], at: usize, to: &mut [u8], at2: usize, n: usize)
    requires from_within { at + n ≤ 8 * length from.now }
    requires to_within { at2 + n ≤ 8 * length to.old }
    ensures { ReplacesRun to.old to.new at2 n (λ k. bit_of from.now (at + k)) }
{
    // at most one whole byte
    if n < 16 {
        put_bits(to, at2, n, get_bits(from, at, n));
        return;
    }
    // up to the first whole byte of `to`
    let head = (8 - at2 % 8) % 8;
    put_bits(to, at2, head, get_bits(from, at, head));
    let place = at % 8 + head;
    let first = at / 8 + place / 8;
    let first2 = at2.div_ceil(8);
    let count = copy_most(from, first, place % 8, to, first2, n - head);
    let rest = n - head - 8 * count;
    let last = get_from(from, first + count, place % 8, rest);
    put_from(to, first2 + count, 0, rest, last);
}
