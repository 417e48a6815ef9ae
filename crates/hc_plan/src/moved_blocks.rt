//! The register blocks that an edit moves: those of its candidates that are not stored at their places.
ghost use Rattle.std.specs.Prelude.{◌≡◌, ◌∷◌, ◌≤◌, ◌++◌, [], IfOk, OnOk, filter};
ghost use Rattle.hc_records.specs.Line.{line_from};
ghost use Rattle.hc_registers.specs.Ranked.{moved_ranked};
ghost use Rattle.hc_changes.specs.EditedLine.{maybe_moved_areas_of};
ghost use Rattle.hc_plan.specs.RegisterBlocks.{blocks_by_rank};
ghost use Rattle.hc_plan.specs.inner.MovedBlocks.{IsWritableArea, block_with, blocks_moved, is_moved};

use crate::area_blocks::two_blocks;
use crate::register_blocks::RegisterBlocks;
use hc_changes::edited_line::EditedLine;
use hc_changes::maybe_moved_areas::MaybeMoved;
use hc_registers::blocks::{Block, LineBlock};
use hc_registers::ranked::RankedBlock;
use std::alloc::{AllocError, Global};

/// A block of a candidate, by its number in the slave's order, with the slave's rank.
fn ranked(candidate: &MaybeMoved, number: u8, block: Block) -> RankedBlock
    ensures { result ≡ block_with candidate.now number block }
{
    RankedBlock {
        rank: candidate.rank,
        found: LineBlock {
            station: candidate.station,
            number,
            block,
        },
    }
}

/// Adds a block of the new line if it moved.
fn add_block(
    blocks: &mut Vec<RankedBlock>,
    stored: &RegisterBlocks,
    block: RankedBlock,
) -> Result<(), AllocError>
    requires { 1 ≤ block.rank }
    ensures { OnOk result (blocks.new.items ≡ blocks.old.items ++ filter (is_moved stored.now) (block ∷ [])) }
{
    if !stored.has(&block) {
        blocks.push(block)?;
    }
    Ok(())
}

/// Adds those of the two blocks of a candidate that moved.
fn add_moved(
    blocks: &mut Vec<RankedBlock>,
    stored: &RegisterBlocks,
    candidate: &MaybeMoved,
) -> Result<(), AllocError>
    requires { IsWritableArea candidate.now }
    ensures { OnOk result (blocks.new.items ≡ blocks.old.items ++ blocks_moved stored.now candidate.now) }
{
    let (manager, fmmu) = two_blocks(candidate.index, candidate.area, candidate.place);
    let number = 2 * candidate.index;
    add_block(blocks, stored, ranked(candidate, number, manager))?;
    add_block(blocks, stored, ranked(candidate, number + 1, fmmu))
}

/// Returns the register blocks that an edit moves, with their new bytes, in line and block order, from the line after the edit,
/// the stored blocks of the line before it, and the candidates. A block moved if the slave with that station address had no
/// block with the same bytes at the same register in the line before. Fails with `AllocError` if an allocation fails.
pub(crate) fn moved_blocks(
    alloc: Global,
    edited_line: &EditedLine,
    stored: &RegisterBlocks,
    candidates: &[MaybeMoved],
) -> Result<Vec<RankedBlock>, AllocError>
    requires stored { stored.now ≡ blocks_by_rank edited_line.now.old }
    requires candidates { candidates.now ≡ maybe_moved_areas_of edited_line.now }
    ensures { IfOk result (λ blocks. blocks.items ≡ moved_ranked (line_from 1 edited_line.now.old) (line_from 1 edited_line.now.new)) }
{
    // says that an edit leads from a project's groups to a project's
    let _ = edited_line.groups();
    let mut blocks = Vec::new(alloc);
    for candidate in candidates {
        add_moved(&mut blocks, stored, candidate)?;
    }
    Ok(blocks)
}
