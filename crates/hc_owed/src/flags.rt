//! `Flags`: a list of bits in words of 64. The first set bit is found word by word, and the number of set bits is stored.
ghost use Rattle.std.specs.Prelude.{◌≡◌, ℕ, ◌+◌, ◌-◌, ◌*◌, ◌/◌, ◌^◌, ◌<◌, ◌≤◌, ◌==◌, ◌≢◌, ◌++◌, length, replicate, MatchOption};
ghost use Rattle.std.specs.Int.{bit_at};
ghost use Rattle.std.specs.Int.RustNames.{count_ones};
ghost use Rattle.hc_owed.specs.Flags.{IsClearFrom, IsLowestFrom, IsLowestIn, SetsFlag, one};

use hc_records::room::Room;
use std::alloc::{AllocError, Global};
use std::marker::Model;

/// The bits of a word.
const WORD_BITS: usize = 64;

/// Returns 1 for a flag that is set, otherwise 0.
fn one(flag: bool) -> usize
    ensures { result ≡ one flag }
{
    if flag { 1 } else { 0 }
}

/// The word with the bit at a place, counted from the lowest, set or cleared.
fn with_bit(word: u64, place: usize, set: bool) -> u64
    requires { place < 64 }
    ensures here { (bit_at result place == 1) ≡ set }
    ensures others { (i : ℕ) → i < 64 → i ≢ place → bit_at result i ≡ bit_at word i }
{
    let bit = 1_u64 << place;
    if set { word | bit } else { word & !bit }
}

/// Sets or clears the bit with a number.
fn set_bit(words: &mut [u64], n: usize, set: bool)
    requires { n < 64 * length words.old }
    ensures { SetsFlag words.old words.new n set }
{
    let at = n / WORD_BITS;
    words[at] = with_bit(words[at], n % WORD_BITS, set);
}

/// Returns the place of the lowest bit that is set in a word; none for 0.
fn lowest_place(word: u64) -> Option<usize>
    ensures { MatchOption result (word ≡ 0) (IsLowestIn word) }
{
    if word == 0 {
        return None;
    }
    Some(word.trailing_zeros() as usize)
}

/// Returns the place of the lowest bit that is set in a word, from a place on; none if no bit is set from there on.
fn lowest_from(word: u64, first: usize) -> Option<usize>
    requires { first < 64 }
    ensures { MatchOption result (IsClearFrom word first) (IsLowestFrom word first) }
{
    match lowest_place(word >> first) {
        Some(place) => Some(first + place),
        None => None,
    }
}

/// Returns the number of bits that are set in a word.
fn ones_in(word: u64) -> usize
    ensures count { result ≡ count_ones word }
    ensures word { word < 2 ^ 64 }
{
    word.count_ones() as usize
}

/// Lengthens a list to `count` words if it is shorter, in memory that was allocated before. The new words are 0.
fn lengthen(words: &mut Vec<u64>, room: Room<u64>, count: usize)
    requires { count ≤ room }
    ensures { words.new.items ≡ words.old.items ++ replicate (count - length words.old.items) 0 }
{
    let old = words.len();
    if count <= old {
        return;
    }
    room.widen(words, count - old);
    let _longer = words.resize(count, 0);
}

/// Returns the number of words that hold so many bits.
fn word_count(bits: usize) -> usize
    requires { bits < 2 ^ 32 }
    ensures { result ≡ (bits + 63) / 64 }
{
    (bits + WORD_BITS - 1) / WORD_BITS
}

/// A list of flags, each a bit. Adding flags never allocates: `with_room` and `room_for` allocate before.
#[derive(Debug, Drop)]
pub(crate) struct Flags {
    words: Vec<u64>,
    len: usize,
    // the number of flags that are set
    count: usize,
}

impl Model for Flags {
    ghost use Rattle.std.specs.Prelude.{◌≡◌, ◌*◌, ◌^◌, ◌<◌, ◌≤◌, vec_len};
    ghost use Rattle.hc_owed.specs.Flags.{Flags, flags_from, set_count};

    ghost Value = { Flags };

    ghost view = { λ flags. record { list = flags_from flags.words.items flags.len 0; room = 64 * vec_len flags.words } };

    ghost invariant = { λ flags. (flags.len ≤ 64 * vec_len flags.words) × (vec_len flags.words < 2 ^ 32) × (flags.count ≡ set_count (flags_from flags.words.items flags.len 0)) };
}

impl Flags {
    ghost use Rattle.std.specs.Prelude.{◌≡◌, ◌+◌, ◌*◌, ◌≤◌, ◌<◌, ◌^◌, [], ◌∷◌, ◌++◌, drop, false, length, position, replicate, slice_get, IfOk, IfSome, Some};
    ghost use Rattle.std.specs.List.{position_from};
    ghost use Rattle.hc_records.specs.Lists.{changed_at};
    ghost use Rattle.hc_owed.specs.Flags.{nth_set, set_count};

    /// Returns an empty list with a capacity of `room` flags, fewer than 2^32. Fails with `AllocError` if an allocation fails.
    pub(crate) fn with_room(alloc: Global, room: usize) -> Result<Flags, AllocError>
        requires { room < 2 ^ 32 }
        ensures empty { IfOk result (λ flags. flags.list ≡ []) }
        ensures room { IfOk result (λ flags. room ≤ flags.room) }
    {
        let count = word_count(room);
        let mut words = Vec::with_capacity(alloc, count)?;
        for _ in 0..count {
            words.push(0)?;
        }
        Ok(Flags {
            words,
            len: 0,
            count: 0,
        })
    }

    /// Allocates memory for `more` further flags, for `add_cleared`. Fails with `AllocError` if an allocation fails.
    pub(crate) fn room_for(&self, alloc: Global, more: usize) -> Result<Room<u64>, AllocError>
        requires { length self.now.list + more < 2 ^ 32 }
        ensures { IfOk result (λ room. length self.now.list + more ≤ 64 * room) }
    {
        let longer = word_count(self.len + more).saturating_sub(self.words.len());
        Room::for_more(alloc, &self.words, longer)
    }

    /// Makes the capacity suffice for `more` flags after the others, in memory that was allocated before. The list stays.
    fn widen(&mut self, room: Room<u64>, more: usize)
        requires few { length self.old.list + more < 2 ^ 32 }
        requires room { length self.old.list + more ≤ 64 * room }
        ensures list { self.new.list ≡ self.old.list }
        ensures room { length self.new.list + more ≤ self.new.room }
    {
        let count = word_count(self.len + more);
        lengthen(&mut self.words, room, count);
    }

    /// Adds `more` flags that are not set, in memory that was allocated before. It cannot fail.
    pub(crate) fn add_cleared(&mut self, room: Room<u64>, more: usize)
        requires few { length self.old.list + more < 2 ^ 32 }
        requires room { length self.old.list + more ≤ 64 * room }
        ensures { self.new.list ≡ self.old.list ++ replicate more false }
    {
        self.widen(room, more);
        for _ in 0..more {
            self.push(false);
        }
    }

    /// Returns the number of flags that are set.
    pub(crate) fn count(&self) -> usize
        ensures { result ≡ set_count self.now.list }
    {
        self.count
    }

    /// Adds a flag after the others.
    pub(crate) fn push(&mut self, flag: bool)
        requires { length self.old.list < self.old.room }
        ensures { self.new ≡ record self.old { list = self.old.list ++ flag ∷ [] } }
    {
        set_bit(&mut self.words, self.len, flag);
        self.len += 1;
        self.count += one(flag);
    }

    /// Sets the flag at an index.
    pub(crate) fn set(&mut self, n: usize, flag: bool)
        requires { n < length self.old.list }
        ensures { self.new ≡ record self.old { list = changed_at n (λ _. flag) self.old.list } }
    {
        let was = self.get(n);
        set_bit(&mut self.words, n, flag);
        self.count = self.count - one(was) + one(flag);
    }

    /// Returns the flag at an index.
    pub(crate) fn get(&self, n: usize) -> bool
        requires { n < length self.now.list }
        ensures { slice_get self.now.list n ≡ Some result }
    {
        let word = self.words[n / WORD_BITS];
        word >> (n % WORD_BITS) & 1 == 1
    }

    /// Returns the start of the search for the set flag with number `index`, from 0: the first flag of its word, and the number
    /// of set flags of this word before it. The earlier words are counted, and not looked at flag by flag.
    fn words_skipped(&self, index: usize) -> (usize, usize)
        ensures { nth_set result.1 result.0 (drop result.0 self.now.list) ≡ nth_set index 0 self.now.list }
    {
        let mut left = index;
        for i in 0..self.words.len() {
            let ones = ones_in(self.words[i]);
            if left < ones {
                return (WORD_BITS * i, left);
            }
            left -= ones;
        }
        (WORD_BITS * self.words.len(), left)
    }

    /// Returns the index of the set flag with number `index`, from 0, among the flags that are set; none if fewer are set. It
    /// counts the words before the flag's own, and looks at each flag of that one.
    pub(crate) fn nth(&self, index: usize) -> Option<usize>
        ensures value { result ≡ nth_set index 0 self.now.list }
        ensures low { IfSome result (λ n. n < length self.now.list) }
    {
        let (from, skipped) = self.words_skipped(index);
        let mut left = skipped;
        for n in from..self.len {
            if self.get(n) {
                if left == 0 {
                    return Some(n);
                }
                left -= 1;
            }
        }
        None
    }

    /// Returns the index of the first flag that is set; none if none is.
    pub(crate) fn first(&self) -> Option<usize>
        ensures value { result ≡ position (λ flag. flag) self.now.list }
        ensures low { IfSome result (λ n. n < length self.now.list) }
    {
        for i in 0..self.words.len() {
            if let Some(place) = lowest_place(self.words[i]) {
                let n = WORD_BITS * i + place;
                return if n < self.len { Some(n) } else { None };
            }
        }
        None
    }

    /// Returns the index of the first flag that is set, from an index on; none if none is set from there on.
    pub(crate) fn next_from(&self, from: usize) -> Option<usize>
        ensures value { result ≡ position_from (λ flag. flag) from (drop from self.now.list) }
        ensures low { IfSome result (λ n. n < length self.now.list) }
    {
        for i in from / WORD_BITS..self.words.len() {
            let first = from.saturating_sub(WORD_BITS * i);
            if let Some(place) = lowest_from(self.words[i], first) {
                let n = WORD_BITS * i + place;
                return if n < self.len { Some(n) } else { None };
            }
        }
        None
    }
}
