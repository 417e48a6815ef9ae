//! Keys of areas, in the order of a task's list.
ghost use Rattle.std.specs.Prelude.{◌≡◌};
ghost use Rattle.hc_records.specs.Keys.{is_before, same_key};

use crate::records::Dir;

/// The key of an area: outputs before inputs, then by the slave's rank, then by the area's index in the slave's record.
#[derive(Clone, Copy, Debug, PartialEq, Eq, PartialOrd, Ord)]
pub struct Key {
    /// The area's direction.
    pub dir: Dir,
    /// The slave's rank: its number among all declared slaves, present or not, from 1.
    pub rank: u16,
    /// The area's index in the slave's record, from 0.
    pub area: u8,
}

impl Key {
    /// Below the key of every area, whose ranks are 1 or more.
    pub const START: Key = Key {
        dir: Dir::Out,
        rank: 0,
        area: 0,
    };

    /// Above the key of every area of a project.
    pub const END: Key = Key {
        dir: Dir::In,
        rank: u16::MAX,
        area: u8::MAX,
    };

    /// Returns whether this key comes before another.
    pub fn is_before(self, other: Key) -> bool
        ensures { result ≡ is_before self other }
    {
        self < other
    }

    /// True if this key and another are the same: one direction, one rank and one area.
    pub fn is_same(self, other: Key) -> bool
        ensures { result ≡ same_key self other }
    {
        self == other
    }
}

impl Default for Key {
    ghost use Rattle.std.specs.Prelude.{◌≡◌};
    ghost use Rattle.hc_records.specs.declared.keys.TheConstants.Key.{START};

    ghost is_default = { λ key. key ≡ START };

    /// The lowest key, `START`.
    fn default() -> Key {
        Key::START
    }
}
