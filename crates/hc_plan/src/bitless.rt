//! Areas without bits. They have no place in a datagram, so that a move of one leaves the line configured as it is.
ghost use Rattle.std.specs.Prelude.{◌≡◌, IsTrue, Some, find};
ghost use Rattle.hc_records.specs.Line.{Member, is_at, line_from};
ghost use Rattle.hc_plan.specs.inner.Prepared.{HasNoBits, MovesNoBits};

use hc_groups::index::Indexed;
use hc_records::edit::Edit;
use hc_records::records::Area;

/// True if the area at an index has no bits, or if there is no such area.
fn is_bitless(areas: &[Area], index: u8) -> bool
    ensures { IsTrue result → HasNoBits index areas.now }
{
    match areas.get(usize::from(index)) {
        Some(area) => area.width_with(area.assigned.as_slice()) == 0,
        None => true,
    }
}

/// True if the slave with a station address is in the line, and its area at an index has no bits or does not exist.
fn has_no_bits(groups: &Indexed<'_>, station: u16, area: u8) -> bool
    ensures { IsTrue result → (member : Member) × (find (is_at station) (line_from 1 groups.now) ≡ Some member) × HasNoBits area member.slave.areas }
{
    match groups.slave_at(station) {
        Some(member) => is_bitless(member.slave().areas.as_slice(), area),
        None => false,
    }
}

/// True if an edit moves an area of a slave of the line, and this area has no bits or does not exist.
pub(crate) fn moves_no_bits(groups: &Indexed<'_>, edit: &Edit) -> bool
    ensures { IsTrue result → MovesNoBits groups.now edit.now }
{
    match edit {
        Edit::Move { station, area, .. } => has_no_bits(groups, *station, *area),
        _ => false,
    }
}
