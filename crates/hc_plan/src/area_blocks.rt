//! The two register blocks of an area, by its place in the line.
ghost use Rattle.std.specs.Prelude.{◌≡◌};
ghost use Rattle.hc_registers.specs.Blocks.{mapping_at};
ghost use Rattle.hc_plan.specs.inner.Blocks.{IsWritable, two_blocks};

use hc_cuts::packing::Placed;
use hc_records::records::Area;
use hc_records::task::Task;
use hc_registers::blocks::Block;
use hc_registers::fmmu::{Mapping, logical_address};

/// Returns the mapping of an area that has a place in a task: the logical address of its datagram, and its first bit there.
fn mapping(task: Task, placed: Placed) -> Mapping
    ensures { result ≡ mapping_at task placed }
{
    Mapping {
        address: logical_address(task, placed.datagram()),
        bit: placed.bit(),
    }
}

/// Returns the sync manager block and the FMMU block of the area at an index of its slave's record. Its place gives its width,
/// so that no PDO is read.
pub(crate) fn two_blocks(index: u8, area: &Area, place: Option<Placed>) -> (Block, Block)
    requires { IsWritable index area.now place }
    ensures { result ≡ two_blocks index area.now place }
{
    match place {
        Some(placed) => {
            let manager = Block::sized_sync_manager(area, placed.bits());
            let mapping = mapping(Task(area.task), placed);
            (
                manager,
                Block::mapped_fmmu(index, area, placed.bits(), mapping),
            )
        }
        None => (
            Block::sized_sync_manager(area, 0),
            Block::fmmu(index, area, None),
        ),
    }
}
