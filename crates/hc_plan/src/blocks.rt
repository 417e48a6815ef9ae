//! Look-ups of the register blocks of a line: a slave is found by the index, and its blocks are stored by its rank.
ghost use Rattle.std.specs.Prelude.{◌≡◌};
ghost use Rattle.hc_records.specs.Line.{line_from};
ghost use Rattle.hc_plan.specs.Configuration.{block_at, block_of_rank, line_block_at};
ghost use Rattle.hc_plan.specs.RegisterBlocks.{AreBlocksOf};

use crate::register_blocks::RegisterBlocks;
use hc_groups::index::Indexed;
use hc_registers::blocks::Block;
pub use hc_registers::blocks::LineBlock;

/// Returns the block with a number, from 0, in the order of the slave with a station address; none if the line has no such
/// slave, or the slave has no such block.
pub(crate) fn block_at(
    groups: &Indexed<'_>,
    blocks: &RegisterBlocks,
    station: u16,
    number: u8,
) -> Option<Block>
    requires { AreBlocksOf groups.now blocks.now }
    ensures { result ≡ block_at (line_from 1 groups.now) station number }
{
    let slave = groups.slave_at(station)?;
    blocks.of_slave(slave.rank(), number)
}

/// Returns the block with a number, from 0, in the order of the slave with a rank, with its slave's station address; none if
/// the line has no such slave, or the slave has no such block.
pub(crate) fn block_of_rank(
    groups: &Indexed<'_>,
    blocks: &RegisterBlocks,
    rank: u16,
    number: u8,
) -> Option<LineBlock>
    requires { AreBlocksOf groups.now blocks.now }
    ensures { result ≡ block_of_rank (line_from 1 groups.now) rank number }
{
    let slave = groups.slave_of_rank(rank)?;
    let block = blocks.of_slave(slave.rank(), number)?;
    Some(LineBlock {
        station: slave.slave().station,
        number,
        block,
    })
}

/// Returns the block with a number, from 0, in line and block order, with its slave's station address; none if the line has
/// fewer blocks.
pub(crate) fn nth_block(
    groups: &Indexed<'_>,
    blocks: &RegisterBlocks,
    n: u32,
) -> Option<(u16, Block)>
    requires { AreBlocksOf groups.now blocks.now }
    ensures { result ≡ line_block_at (line_from 1 groups.now) n }
{
    let (owner, number) = groups.block_owner(n)?;
    let block = blocks.of_slave(owner.rank(), number)?;
    Some((owner.slave().station, block))
}
