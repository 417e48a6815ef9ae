//! `Report`: the differences that an accepted edit made.
use hc_places::swap::Swap;
use hc_records::items::Items;

/// The differences between the line before an accepted edit and the line after it.
#[derive(Debug, Drop)]
pub struct Report {
    /// The epoch that begins with the edit.
    pub epoch: u32,
    /// The number of spans of touched tasks that are not settled; an emptied task counts one.
    pub recut: u32,
    /// The number of moved blocks: blocks of the new line that were not blocks with the same bytes at the same register of the
    /// same slave in the old line.
    pub moved: u32,
    /// The swap that turns the table of the old line into the new line's.
    pub swap: Swap,
    /// The moved blocks, in line order and block order: each by its slave's station address and its
    /// number in the slave's order, from 0.
    pub blocks: Items<(u16, u8)>,
}
