//! `MaybeMoved`: an area of a new line that may be configured in another way than in the old one.
use hc_cuts::packing::Placed;
use hc_records::records::Area;
use std::marker::Model;

/// An area that may be configured in another way: one of a slave that changes, or one in a datagram that is not kept up to it.
#[derive(Drop)]
pub struct MaybeMoved<'a> {
    /// The station address of its slave.
    pub station: u16,
    /// The rank of its slave: declared slaves are counted from 1.
    pub rank: u16,
    /// Its index in its slave's record.
    pub index: u8,
    /// The area as it is after the edit.
    pub area: &'a Area,
    /// Its place after the edit; none if it has 0 bits.
    pub place: Option<Placed>,
}

impl<'a> Model for MaybeMoved<'a> {
    ghost use Rattle.hc_changes.specs.MaybeMovedAreas.{MaybeMoved};

    ghost Value = { MaybeMoved };

    ghost view = { λ found. record { station = found.station; rank = found.rank; index = found.index; area = found.area.now; place = found.place } };
}
