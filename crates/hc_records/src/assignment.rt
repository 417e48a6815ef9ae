//! The assignment of PDOs to an area: the offered PDOs and the width of a list of indexes. Widths are counted in bits up to one
//! more than a datagram holds, so that no sum overflows.
ghost use Rattle.std.specs.Prelude.{◌≡◌, min};
ghost use Rattle.std.specs.List.{flat_map};
ghost use Rattle.hc_records.specs.Area.{entry_bits, entries_at};
ghost use Rattle.hc_records.specs.Lists.{has_repeat};
ghost use Rattle.hc_records.specs.Project.{offered_bits};

use crate::conditions::scan::{Relation, some_pair};
use crate::limits::MOST_AREA_BITS;
use crate::records::{Area, Entry, Pdo};

/// One bit more than the widest area: widths are counted up to it.
pub const WIDTH_CAP: u32 = MOST_AREA_BITS + 1;

/// Two equal indexes.
struct SameNumber;

impl Relation<u16> for SameNumber {
    ghost use Rattle.std.specs.Prelude.{◌==◌};

    ghost relation = { λ earlier later. later == earlier };

    fn holds(earlier: &u16, later: &u16) -> bool {
        *later == *earlier
    }
}

/// Returns whether an index occurs twice in a list.
pub fn repeats(indexes: &[u16]) -> bool
    ensures { result ≡ has_repeat indexes.now }
{
    some_pair::<u16, SameNumber>(indexes)
}

/// Returns the bits of entries, or `WIDTH_CAP` if there are more.
fn capped_bits(entries: &[Entry]) -> u32
    ensures { result ≡ min WIDTH_CAP (entry_bits entries.now) }
{
    let mut total = 0u32;
    for entry in entries {
        total = (total + u32::from(entry.1)).min(WIDTH_CAP);
    }
    total
}

/// Returns the entries of the offered PDO with an index, or an empty slice if it is not offered.
pub fn offered_entries(offered: &[Pdo], index: u16) -> &[Entry]
    ensures { result.now ≡ entries_at offered.now index }
{
    for pdo in offered {
        if pdo.index == index {
            return pdo.entries.as_slice();
        }
    }
    &[]
}

/// Returns the sum of the bits of the offered PDOs with these indexes, or `WIDTH_CAP` if it is more. An index that is not
/// offered has no bits.
fn assigned_bits(offered: &[Pdo], indexes: &[u16]) -> u32
    ensures { result ≡ min WIDTH_CAP (entry_bits (flat_map (entries_at offered.now) indexes.now)) }
{
    let mut total = 0u32;
    for index in indexes {
        total = (total + capped_bits(offered_entries(offered, *index))).min(WIDTH_CAP);
    }
    total
}

/// Returns the bits of all offered PDOs, or `WIDTH_CAP` if there are more.
fn all_bits(offered: &[Pdo]) -> u32
    ensures { result ≡ min WIDTH_CAP (offered_bits offered.now) }
{
    let mut total = 0u32;
    for pdo in offered {
        total = (total + capped_bits(pdo.entries.as_slice())).min(WIDTH_CAP);
    }
    total
}

impl Area {
    ghost use Rattle.std.specs.Prelude.{◌≡◌, ◌≤◌, min};
    ghost use Rattle.hc_records.specs.Area.{has_unknown, offers, width};
    ghost use Rattle.hc_records.specs.Project.{reach};
    ghost use Rattle.hc_records.specs.declared.limits.TheConstants.{MOST_AREA_BITS, MOST_DATAGRAM_BYTES};

    /// Returns whether the area offers a PDO with an index.
    pub fn offers(&self, index: u16) -> bool
        ensures { result ≡ offers self.now index }
    {
        self.offered.as_slice().iter().any(|pdo| pdo.index == index)
    }

    /// True if one of these PDO indexes is not among those that the area offers.
    pub fn has_unknown(&self, indexes: &[u16]) -> bool
        ensures { result ≡ has_unknown indexes.now self.now }
    {
        indexes.iter().any(|index| !self.offers(*index))
    }

    /// Returns the width in bits with these PDOs assigned in place of the present ones, or `WIDTH_CAP` if it is more. An index
    /// that is not offered has no bits.
    pub fn width_with(&self, indexes: &[u16]) -> u32
        ensures { result ≡ min WIDTH_CAP (width (record self.now { assigned = indexes.now })) }
    {
        assigned_bits(self.offered.as_slice(), indexes)
    }

    /// Returns the width in bits, 0 to 11,888: the bits of the assigned PDOs' entries. An area of a project meets the
    /// condition.
    pub fn width(&self) -> u16
        requires { width self.now ≤ MOST_AREA_BITS }
        ensures { result ≡ width self.now }
    {
        self.width_with(self.assigned.as_slice()) as u16
    }

    /// Returns the number of bytes of its slave's memory that the area may take, 0 to 1,486: those of the bits of all its
    /// offered PDOs, or of the widest area if these are more.
    pub fn reach(&self) -> u32
        ensures value { result ≡ reach self.now }
        ensures low { result ≤ MOST_DATAGRAM_BYTES }
    {
        all_bits(self.offered.as_slice())
            .min(MOST_AREA_BITS)
            .div_ceil(8)
    }
}
