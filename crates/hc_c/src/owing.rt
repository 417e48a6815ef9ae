//! The owed register blocks, one by one.
ghost use Rattle.std.specs.Prelude.{◌≡◌, ◌≢◌, None, slice_get};
ghost use Rattle.hc_core.specs.Firsts.{HasBlockBytes};
ghost use Rattle.hc_events.specs.Owed.{owed_blocks};
ghost use Rattle.hc_c.specs.Owings.{first_block_out, block_out};
ghost use Rattle.hc_c.specs.Handles.{GivesFound, HoldsAsBefore, IfAnswered, no_line_number};

use crate::handle::{Handle, with_line};
use crate::numbers::{DONE, NOTHING};
use hc_core::keeping::Core;
use hc_plan::blocks::LineBlock;

/// An owed register block, in C.
#[repr(C)]
#[derive(Clone, Copy)]
pub struct OwedBlock {
    /// The station address of its slave.
    station: u16,
    /// Its first register.
    start: u16,
    /// The number of its bytes, 8 or 16.
    size: u8,
    reserved: [u8; 3],
}

/// Returns the C form of a block.
fn block_out(block: &LineBlock) -> OwedBlock
    requires { HasBlockBytes block.now.block }
    ensures { result ≡ block_out block.now }
{
    OwedBlock {
        station: block.station,
        start: block.block.register(),
        size: block.block.bytes().len() as u8,
        reserved: [0; 3],
    }
}

/// Returns the C form of the first owed block; zeros if none is owed.
pub fn first_block_out(core: &Core) -> OwedBlock
    ensures { result ≡ first_block_out (owed_blocks core.now.history) }
{
    match core.owed_block(0) {
        Some(block) => block_out(&block),
        None => OwedBlock {
            station: 0,
            start: 0,
            size: 0,
            reserved: [0; 3],
        },
    }
}

/// Reads the owed register block with an index, from 0, in the order in which blocks are written: line order, and each slave's
/// blocks in its own order. Returns `DONE`. It allocates nothing. Fails with one of these; then `block` is unchanged:
///
/// - `BUSY`, `CLOSED` or `MISUSED`.
/// - `NOTHING`: fewer blocks are owed.
#[unsafe(no_mangle)]
pub extern "C" fn zangjulf_owed_block(handle: &mut Handle, index: u32, block: &mut OwedBlock) -> u8
    ensures answer { IfAnswered handle.old result (λ history. GivesFound (slice_get (owed_blocks history) index) block_out result block.new) }
    ensures unchanged { HoldsAsBefore handle.old handle.new }
    ensures untouched { result ≢ DONE → block.new ≡ block.old }
    ensures closed { handle.old.holding.value ≡ None → (result ≡ no_line_number handle.old.mark) × (block.new ≡ block.old) }
{
    with_line!(handle, |own| match own.core.owed_block(index) {
        Some(found) => {
            *block = block_out(&found);
            DONE
        }
        None => NOTHING,
    })
}
