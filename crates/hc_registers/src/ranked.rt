//! `RankedBlock` and `Gone`: the blocks of a line, and the slaves that leave it, by rank.
ghost use Rattle.std.specs.Prelude.{◌≡◌, ◌≤◌};
ghost use Rattle.hc_registers.specs.RankPlaces.{place};

use crate::blocks::LineBlock;
use std::marker::Model;

/// The place of the block with a number of the slave with a rank.
fn place(rank: u16, number: u8) -> usize
    requires { 1 ≤ rank }
    ensures { result ≡ place rank number }
{
    16 * (usize::from(rank) - 1) + usize::from(number)
}

/// A block of a line, with the rank of its slave.
#[derive(Debug, Drop)]
pub struct RankedBlock {
    /// The rank of its slave: declared slaves are counted from 1, present or not.
    pub rank: u16,
    /// The block.
    pub found: LineBlock,
}

impl Model for RankedBlock {
    ghost use Rattle.hc_registers.specs.Ranked.{RankedBlock};

    ghost Value = { RankedBlock };

    ghost view = { λ it. record { rank = it.rank; found = it.found } };
}

/// The slaves that leave a line with an edit: so many, from a rank on.
#[derive(Clone, Copy, Debug, PartialEq, Eq)]
pub struct Gone {
    /// The rank of the first of them, from 1.
    pub rank: u16,
    /// The number of these slaves; 0 if none leaves.
    pub slaves: u16,
}

impl RankedBlock {
    ghost use Rattle.std.specs.Prelude.{◌≡◌, ◌≤◌};
    ghost use Rattle.hc_registers.specs.RankDifferences.{block_place};

    /// The block's place, from 0.
    pub fn place(&self) -> usize
        requires { 1 ≤ self.now.rank }
        ensures { result ≡ block_place self.now }
    {
        place(self.rank, self.found.number)
    }
}

impl Gone {
    ghost use Rattle.std.specs.Prelude.{◌≡◌, ◌≤◌};
    ghost use Rattle.hc_registers.specs.RankDifferences.{first_gone};

    /// The first of the places of the slaves that leave, from 0.
    pub fn first_place(&self) -> usize
        requires { 1 ≤ self.now.rank }
        ensures { result ≡ first_gone self.now }
    {
        16 * (usize::from(self.rank) - 1)
    }
}
