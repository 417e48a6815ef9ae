//! `Filled`: the filling of a datagram.
ghost use Rattle.std.specs.Prelude.{◌≡◌, ◌+◌, ◌^◌, ◌<◌, ℕ};
ghost use Rattle.hc_bitsum.specs.Filling.{filled_with_area};
ghost use Rattle.hc_bitsum.specs.Search.{datagram_begun};
ghost use Rattle.hc_bitsum.specs.Slots.{key_at};
ghost use Rattle.hc_bitsum.specs.Sums.{filled_by_run};

use crate::borders::is_turning;
use crate::sum::{Sum, start_at};
use hc_records::records::Dir;

/// The filling of a datagram: its first free bit, and the direction of the area before that bit.
#[derive(Clone, Copy, Debug, PartialEq, Eq)]
pub struct Filled {
    /// The first free bit, counted from the least significant bit of byte 0.
    pub bit: u32,
    /// The direction of the area before that bit.
    pub last: Dir,
}

impl Filled {
    /// Returns a datagram in which a run begins at a bit. Nothing before the run makes a first input begin a byte.
    pub fn begun(bit: u32) -> Filled
        ensures { result ≡ datagram_begun bit }
    {
        Filled { bit, last: Dir::In }
    }

    /// Returns the filling once a run of areas is added.
    pub fn after(self, run: &Sum) -> Filled
        requires here { self.bit < 2 ^ 31 }
        requires there { (filled_by_run run.now self).bit < 2 ^ 32 }
        ensures { result ≡ filled_by_run run.now self }
    {
        run.ended(self)
    }

    /// Returns the filling once an area with a width in bits is added; an area of no bits changes nothing.
    pub(crate) fn after_area(self, dir: Dir, bits: u16) -> Filled
        requires { self.bit < 2 ^ 31 }
        ensures { (place : ℕ) → result ≡ filled_with_area self (key_at dir place, bits) }
    {
        if bits == 0 {
            return self;
        }
        let begins_byte = bits >= 8 || is_turning(self.last, dir);
        Filled {
            bit: start_at(begins_byte, self.bit) + u32::from(bits),
            last: dir,
        }
    }
}
