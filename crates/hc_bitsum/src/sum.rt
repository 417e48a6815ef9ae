//! `Sum`: the bits that a run of areas takes in a datagram.
ghost use Rattle.std.specs.Prelude.{◌≡◌, ◌+◌, ◌^◌, ◌<◌, ◌≤◌, ℕ};
ghost use Rattle.hc_records.specs.declared.limits.TheConstants.{MOST_AREA_BITS};
ghost use Rattle.hc_bitsum.specs.Sums.{EndsBelow, end_from, filled_by_run, ends_by, sums_joined, start_at, sum_of_area};

use crate::borders::{byte_border, is_turning};
use crate::filled::Filled;
use hc_records::records::Dir;

/// The sum of a run of areas.
#[derive(Clone, Copy, Debug, PartialEq, Eq)]
pub enum Sum {
    /// No area with a width.
    Empty,
    /// The directions of the first and the last area, and for each of the 8 bits of byte 0 the bit after the run if it starts
    /// there.
    Run {
        first: Dir,
        last: Dir,
        ends: [u32; 8],
    },
}

/// Returns the bit at which a run starts: the first byte border at or after a bit if the run begins a byte, otherwise the bit
/// itself.
pub(crate) fn start_at(turns: bool, bit: u32) -> u32
    requires { bit < 2 ^ 31 }
    ensures { result ≡ start_at turns bit }
{
    if turns { byte_border(bit) } else { bit }
}

/// The bit after a run with these ends that starts at a bit.
fn end_from(ends: &[u32; 8], bit: u32) -> u32
    requires { end_from ends.now bit < 2 ^ 32 }
    ensures { result ≡ end_from ends.now bit }
{
    bit / 8 * 8 + ends[(bit % 8) as usize]
}

/// The bit after two runs that follow one another from a bit on.
fn end_of_both(ends: &[u32; 8], turns: bool, laters: &[u32; 8], bit: u32) -> u32
    requires first { end_from ends.now bit < 2 ^ 31 }
    requires both { end_from laters.now (start_at turns (end_from ends.now bit)) < 2 ^ 31 }
    ensures { result ≡ end_from laters.now (start_at turns (end_from ends.now bit)) }
{
    end_from(laters, start_at(turns, end_from(ends, bit)))
}

/// The ends of two runs in a row.
fn ends_of_both(ends: &[u32; 8], turns: bool, laters: &[u32; 8]) -> [u32; 8]
    requires first { (bit : ℕ) → bit < 8 → end_from ends.now bit < 2 ^ 31 }
    requires both { (bit : ℕ) → bit < 8 → end_from laters.now (start_at turns (end_from ends.now bit)) < 2 ^ 31 }
    ensures { result ≡ ends_by (λ bit. end_from laters.now (start_at turns (end_from ends.now bit))) }
{
    let mut both = [0; 8];
    for bit in 0..8 {
        both[bit] = end_of_both(ends, turns, laters, bit as u32);
    }
    both
}

impl Sum {
    /// The sum of no area: joined to another, it changes nothing.
    pub const EMPTY: Sum = Sum::Empty;

    /// The sum of one area, of a width of at most 11,888 bits; an area of no bits takes no place.
    pub fn of(dir: Dir, bits: u16) -> Sum
        requires { bits ≤ MOST_AREA_BITS }
        ensures { result ≡ sum_of_area dir bits }
    {
        if bits == 0 {
            return Sum::Empty;
        }
        let bits = u32::from(bits);
        let ends = if bits < 8 {
            [
                bits,
                bits + 1,
                bits + 2,
                bits + 3,
                bits + 4,
                bits + 5,
                bits + 6,
                bits + 7,
            ]
        } else {
            let later = bits + 8;
            [bits, later, later, later, later, later, later, later]
        };
        Sum::Run {
            first: dir,
            last: dir,
            ends,
        }
    }

    /// Returns the sum of this run and then another. Every end of both is below bit 2^31, as it is for at most 32,768 areas.
    pub fn join(self, later: Sum) -> Sum
        requires own { EndsBelow (2 ^ 31) self }
        requires both { EndsBelow (2 ^ 31) (sums_joined self later) }
        ensures { result ≡ sums_joined self later }
    {
        match self {
            Sum::Empty => later,
            Sum::Run { first, last, ends } => match later {
                Sum::Empty => self,
                Sum::Run {
                    first: next,
                    last: end,
                    ends: laters,
                } => {
                    let turns = is_turning(last, next);
                    Sum::Run {
                        first,
                        last: end,
                        ends: ends_of_both(&ends, turns, &laters),
                    }
                }
            },
        }
    }

    /// Returns the filling of a datagram once this run is added.
    pub(crate) fn ended(&self, filled: Filled) -> Filled
        requires here { filled.bit < 2 ^ 31 }
        requires there { (filled_by_run self.now filled).bit < 2 ^ 32 }
        ensures { result ≡ filled_by_run self.now filled }
    {
        match self {
            Sum::Empty => filled,
            Sum::Run { first, last, ends } => {
                let start = start_at(is_turning(filled.last, *first), filled.bit);
                Filled {
                    bit: end_from(ends, start),
                    last: *last,
                }
            }
        }
    }
}
