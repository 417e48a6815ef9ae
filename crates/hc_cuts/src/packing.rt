//! The packing of a task's list, an area at a time (this project's profile). The plain cut and the places are computed by it.
ghost use Rattle.std.specs.Prelude.{◌≡◌, ◌+◌, ◌<◌, ◌≤◌};
ghost use Rattle.hc_records.specs.Packing.{empty_front};
ghost use Rattle.hc_records.specs.declared.limits.TheConstants.{MOST_AREA_BITS};

use hc_bitsum::borders::{byte_border, is_turning};
use hc_bitsum::filled::Filled;
use hc_records::keys::Key;
use hc_records::limits::MOST_AREA_BITS;
use hc_records::records::Dir;
use std::marker::Model;

/// An area, its width in bits, and the datagram and the bit at which it begins. It ends within the longest datagram.
#[derive(Clone, Copy, Debug)]
pub struct Placed {
    key: Key,
    bits: u16,
    datagram: u16,
    bit: u16,
}

impl Model for Placed {
    ghost use Rattle.std.specs.Prelude.{◌+◌, ◌≤◌};
    ghost use Rattle.hc_records.specs.Packing.{Placed};
    ghost use Rattle.hc_records.specs.declared.limits.TheConstants.{MOST_AREA_BITS};

    ghost Value = { Placed };

    ghost view = { λ area. record { key = area.key; bits = area.bits; datagram = area.datagram; bit = area.bit } };

    ghost invariant = { λ area. area.bit + area.bits ≤ MOST_AREA_BITS };

    ghost inverse = { λ area. record { key = area.key; bits = area.bits; datagram = area.datagram; bit = area.bit } };
}

/// The datagram that is being filled: its number, its first free bit, and the direction of the area
/// before that bit, which lies within the longest datagram or at its end.
#[derive(Clone, Copy)]
pub struct Front {
    datagram: u16,
    bit: u16,
    last: Dir,
}

impl Model for Front {
    ghost use Rattle.std.specs.Prelude.{◌≤◌};
    ghost use Rattle.hc_records.specs.Packing.{Front};
    ghost use Rattle.hc_records.specs.declared.limits.TheConstants.{MOST_AREA_BITS};

    ghost Value = { Front };

    ghost view = { λ front. record { datagram = front.datagram; bit = front.bit; last = front.last } };

    ghost invariant = { λ front. front.bit ≤ MOST_AREA_BITS };

    ghost inverse = { λ front. record { datagram = front.datagram; bit = front.bit; last = front.last } };
}

impl Placed {
    ghost use Rattle.std.specs.Prelude.{◌≡◌, ◌+◌, ◌≤◌};
    ghost use Rattle.hc_records.specs.Packing.{front_with};
    ghost use Rattle.hc_records.specs.declared.limits.TheConstants.{MOST_AREA_BITS};

    /// Returns the area's key.
    pub fn key(self) -> Key
        ensures { result ≡ self.key }
    {
        self.key
    }

    /// Returns the area's width in bits.
    pub fn bits(self) -> u16
        ensures { result ≡ self.bits }
    {
        self.bits
    }

    /// Returns the number of its datagram, from 0.
    pub fn datagram(self) -> u16
        ensures { result ≡ self.datagram }
    {
        self.datagram
    }

    /// Returns its first bit in that datagram.
    pub fn bit(self) -> u16
        ensures value { result ≡ self.bit }
        ensures inside { result + self.bits ≤ MOST_AREA_BITS }
    {
        self.bit
    }

    /// Returns the datagram that is being filled, after the area is in it.
    pub fn after_it(self) -> Front
        ensures { result ≡ front_with self }
    {
        Front {
            datagram: self.datagram,
            bit: self.bit + self.bits,
            last: self.key.dir,
        }
    }
}

impl Front {
    ghost use Rattle.std.specs.Prelude.{◌≡◌, ◌+◌, ◌<◌, ◌≤◌};
    ghost use Rattle.hc_records.specs.Packing.{beginning, empty_front, fits, placed_at};
    ghost use Rattle.hc_cuts.specs.Walk.{blank_datagram, filled_datagram};
    ghost use Rattle.hc_records.specs.declared.limits.TheConstants.{MOST_AREA_BITS};

    /// Returns the empty first datagram.
    pub fn opening() -> Front
        ensures { result ≡ empty_front }
    {
        Front::blank(0)
    }

    /// Returns the datagram with a number, before any area is in it.
    pub(crate) fn blank(datagram: u16) -> Front
        ensures { result ≡ blank_datagram datagram }
    {
        Front {
            datagram,
            bit: 0,
            last: Dir::Out,
        }
    }

    /// Returns the datagram with a number, filled so far.
    pub(crate) fn filled(datagram: u16, filled: Filled) -> Front
        requires { filled.bit ≤ MOST_AREA_BITS }
        ensures { result ≡ filled_datagram datagram filled }
    {
        Front {
            datagram,
            bit: filled.bit as u16,
            last: filled.last,
        }
    }

    /// Returns the bit at which an area would begin.
    fn beginning(self, key: Key, bits: u16) -> u16
        ensures value { result ≡ beginning self (key, bits) }
        ensures low { result ≤ MOST_AREA_BITS }
    {
        if bits >= 8 || is_turning(self.last, key.dir) {
            byte_border(u32::from(self.bit)) as u16
        } else {
            self.bit
        }
    }

    /// Returns whether an area of at most 11,888 bits would end within the datagram.
    pub fn fits(self, key: Key, bits: u16) -> bool
        requires { bits ≤ MOST_AREA_BITS }
        ensures { result ≡ fits self (key, bits) }
    {
        u32::from(self.beginning(key, bits) + bits) <= MOST_AREA_BITS
    }

    /// Returns the place of an area of at most 11,888 bits: in this datagram if it fits, else at bit 0 of a new one.
    pub fn place(self, key: Key, bits: u16) -> Placed
        requires narrow { bits ≤ MOST_AREA_BITS }
        requires few { self.datagram < 65535 }
        ensures { result ≡ placed_at self (key, bits) }
    {
        if self.fits(key, bits) {
            Placed {
                key,
                bits,
                datagram: self.datagram,
                bit: self.beginning(key, bits),
            }
        } else {
            Placed {
                key,
                bits,
                datagram: self.datagram + 1,
                bit: 0,
            }
        }
    }
}
