//! The register blocks of a line at its opening, by the places that a layout has for its areas. `register_blocks`
//! stores them.
ghost use Rattle.std.specs.Prelude.{◌≡◌, ◌*◌, ◌<◌, Some, length, slice_get};
ghost use Rattle.hc_records.specs.Line.{line_from};
ghost use Rattle.hc_places.specs.Layout.{placed_in};
ghost use Rattle.hc_plan.specs.Configuration.{block_of_rank};
ghost use Rattle.hc_plan.specs.RegisterBlocks.{blocks_by_rank};
ghost use Rattle.hc_plan.specs.inner.Blocks.{IsLayoutOf, IsMappedSlave, IsWritable, area_block_in, slave_blocks_in};

use crate::area_blocks::two_blocks;
use crate::placed_line::PlacedLine;
use hc_groups::index::Indexed;
use hc_records::keys::Key;
use hc_records::records::{Area, Slave};
use hc_records::task::Task;
use hc_registers::blocks::{Block, LineBlock};

/// Returns one of the two blocks of the area at an index of a slave with a rank: the sync manager block for an even number, the
/// FMMU block for an odd one.
fn area_block(layout: &PlacedLine, rank: u16, index: u8, area: &Area, number: u8) -> Block
    requires { IsWritable index area.now (placed_in layout.now area.now.task (record { dir = area.now.dir; rank = rank; area = index })) }
    ensures { result ≡ area_block_in layout.now rank number (index, area.now) }
{
    let key = Key {
        dir: area.dir,
        rank,
        area: index,
    };
    let place = layout.placed(Task(area.task), key);
    let (manager, fmmu) = two_blocks(index, area, place);
    if number % 2 == 0 { manager } else { fmmu }
}

/// The block with a number, from 0, in the order of a slave of the line with a rank.
fn slave_block(layout: &PlacedLine, rank: u16, slave: &Slave, number: u8) -> Option<Block>
    requires mapped { IsMappedSlave layout.now (record { rank = rank; slave = slave.now }) }
    ensures { result ≡ slice_get (slave_blocks_in layout.now (record { rank = rank; slave = slave.now })) number }
{
    let areas = slave.areas.as_slice();
    let index = number / 2;
    if usize::from(index) >= areas.len() {
        return None;
    }
    let area = &areas[usize::from(index)];
    Some(area_block(layout, rank, index, area, number))
}

/// The block with a number, from 0, in the order of the slave with a rank, with its slave's station address.
fn made_block(groups: &Indexed<'_>, layout: &PlacedLine, rank: u16, number: u8) -> Option<LineBlock>
    requires layout { IsLayoutOf groups.now layout.now }
    ensures { result ≡ block_of_rank (line_from 1 groups.now) rank number }
{
    let slave = groups.slave_of_rank(rank)?;
    let block = slave_block(layout, slave.rank(), slave.slave(), number)?;
    Some(LineBlock {
        station: slave.slave().station,
        number,
        block,
    })
}

/// Returns the line's block at a place; none if the place is empty.
pub(crate) fn block_at_place(
    groups: &Indexed<'_>,
    layout: &PlacedLine,
    place: usize,
) -> Option<Block>
    requires layout { IsLayoutOf groups.now layout.now }
    requires inside { place < length (blocks_by_rank groups.now) }
    requires low { place < 16 * 65535 }
    ensures { slice_get (blocks_by_rank groups.now) place ≡ Some result }
{
    let rank = (place / 16 + 1) as u16;
    let number = (place % 16) as u8;
    match made_block(groups, layout, rank, number) {
        Some(found) => Some(found.block),
        None => None,
    }
}
