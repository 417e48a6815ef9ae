//! Register writes.
ghost use Rattle.std.specs.Prelude.{◌≡◌, ◌≢◌, ◌<◌, None, length};
ghost use Rattle.hc_records.specs.Lists.{lowest};
ghost use Rattle.hc_core.specs.Written.{HoldsFurther, HoldsWrite, HoldsWrites};
ghost use Rattle.hc_events.specs.Calls.{further_into_faults, write_all_into_faults, write_into_faults, write_size};
ghost use Rattle.hc_events.specs.Owed.{owed_blocks};
ghost use Rattle.hc_events.specs.Steps.{SendsFurther, SendsWrite, SendsWrites};
ghost use Rattle.hc_c.specs.Embedded.{embedded_after};
ghost use Rattle.hc_c.specs.Numbers.{IsNumberOf, refusal_number};
ghost use Rattle.hc_c.specs.Owings.{first_block_out, further_frame_size, owed_frame_size};
ghost use Rattle.hc_c.specs.declared.numbers.TheConstants.{MEMORY, ROOM};
ghost use Rattle.hc_c.specs.Handles.{Becomes, HoldsAsBefore, IfAnswered, IfAnsweredWith, no_line_number};

use crate::handle::{Handle, with_line};
use crate::numbers::DONE;
use crate::owing::{OwedBlock, first_block_out};
use crate::too_short::refuse;
use crate::widths::in_32_bits;
use hc_core::writing::SentWrites;
use std::alloc::Global;

/// A register write that was sent, in C.
#[repr(C)]
#[derive(Clone, Copy)]
pub struct Write {
    /// The length of its frame, 60 bytes.
    size: u32,
    /// The block that it writes.
    block: OwedBlock,
}

/// Sends the first owed register block in a frame of its own, with the next serial. Returns `DONE`: the frame is at the front
/// of `out`, and `write` has its length and the block. It allocates nothing. Fails with the first of these; then nothing has
/// changed:
///
/// - `BUSY`, `CLOSED` or `MISUSED`.
/// - `NothingOwed`, 18: no block is owed.
/// - `SerialsSpent`, 19: no serial is left.
/// - `ROOM`: `out` is too short. `write.size` is the length needed; the rest of `write` is unchanged.
#[tactic(auto, using(crate::proofs::Rooms::write_needs, crate::proofs::FrameSizes::write_small, crate::proofs::FrameSizes::write_need_small))]
#[unsafe(no_mangle)]
pub extern "C" fn zangjulf_next_write(handle: &mut Handle, out: &mut [u8], write: &mut Write) -> u8
    ensures answer { IfAnswered handle.old result (λ history. result ≡ refusal_number (lowest (write_into_faults history (length out.old)))) }
    ensures written { IfAnsweredWith DONE handle.old result (λ history. HoldsWrite history out.old out.new write.new.size) }
    ensures block { IfAnsweredWith DONE handle.old result (λ history. write.new.block ≡ first_block_out (owed_blocks history)) }
    ensures entries { result ≡ DONE → Becomes handle.old handle.new (embedded_after SendsWrite) }
    ensures needed { IfAnsweredWith ROOM handle.old result (λ history. write.new ≡ record write.old { size = write_size (owed_blocks history) }) }
    ensures unwritten { result ≢ DONE → result ≢ ROOM → write.new ≡ write.old }
    ensures unchanged { result ≢ DONE → HoldsAsBefore handle.old handle.new }
    ensures untouched { result ≢ DONE → out.new ≡ out.old }
    ensures closed { handle.old.holding.value ≡ None → (result ≡ no_line_number handle.old.mark) × (write.new ≡ write.old) }
{
    with_line!(handle, |own| {
        let block = first_block_out(&own.core);
        match own.core.write_into(out) {
            Ok(size) => {
                *write = Write {
                    size: in_32_bits(size),
                    block,
                };
                DONE
            }
            Err(fault) => refuse(fault, &mut write.size),
        }
    })
}

/// A frame of register writes that was sent, in C.
#[repr(C)]
#[derive(Clone, Copy)]
pub struct Writes {
    /// The length of the frame, 60 to 1,514 bytes.
    size: u32,
    /// The number of its register blocks, 1 to 74.
    blocks: u32,
}

/// Returns the C form of a frame of register writes.
fn writes_out(sent: SentWrites) -> Writes
    requires size { sent.size < 4294967296 }
    requires blocks { sent.blocks < 4294967296 }
    ensures { result ≡ record { size = sent.size; blocks = sent.blocks } }
{
    Writes {
        size: in_32_bits(sent.size),
        blocks: in_32_bits(sent.blocks),
    }
}

/// Sends the first owed register blocks in one frame, with the next serial and in the order in which they are owed: as many as
/// a frame holds, whatever the length of `out`. A frame of one block is that of `zangjulf_next_write` (ETG.1000.4, 5.3 and 5.4;
/// this project's profile). Returns `DONE`: the frame is at the front of `out`, and `writes` has its length and the number of
/// its blocks. It allocates nothing. Fails with the first of these; then nothing has changed:
///
/// - `BUSY`, `CLOSED` or `MISUSED`.
/// - `NothingOwed`, 18: no block is owed.
/// - `SerialsSpent`, 19: no serial is left.
/// - `ROOM`: `out` is too short. `writes.size` is the length needed, and `writes.blocks` is unchanged.
#[tactic(auto, using(crate::proofs::Rooms::writes_need, crate::proofs::FrameSizes::writes_need_small))]
#[unsafe(no_mangle)]
pub extern "C" fn zangjulf_next_writes(
    handle: &mut Handle,
    out: &mut [u8],
    writes: &mut Writes,
) -> u8
    ensures answer { IfAnswered handle.old result (λ history. result ≡ refusal_number (lowest (write_all_into_faults history (length out.old)))) }
    ensures written { IfAnsweredWith DONE handle.old result (λ history. HoldsWrites history out.old out.new (record { size = writes.new.size; blocks = writes.new.blocks })) }
    ensures entries { result ≡ DONE → Becomes handle.old handle.new (embedded_after SendsWrites) }
    ensures needed { IfAnsweredWith ROOM handle.old result (λ history. writes.new ≡ record writes.old { size = owed_frame_size history }) }
    ensures unwritten { result ≢ DONE → result ≢ ROOM → writes.new ≡ writes.old }
    ensures unchanged { result ≢ DONE → HoldsAsBefore handle.old handle.new }
    ensures untouched { result ≢ DONE → out.new ≡ out.old }
    ensures closed { handle.old.holding.value ≡ None → (result ≡ no_line_number handle.old.mark) × (writes.new ≡ writes.old) }
{
    with_line!(handle, |own| match own.core.write_all_into(out) {
        Ok(sent) => {
            *writes = writes_out(sent);
            DONE
        }
        Err(fault) => refuse(fault, &mut writes.size),
    })
}

/// Sends the first owed register blocks that are not under way in one frame, with the next serial and in the order in which
/// they are owed: as many as a frame holds, whatever the length of `out`. A block is under way as long as the answer to its
/// last write may still come. Earlier frames stay under way, and each answer counts for its own blocks. Exception: once a slave
/// was lost or cleared, the next frame of register writes of any call takes the place of all earlier ones, and no answer to
/// those counts any more.
///
/// Returns `DONE`: the frame is at the front of `out`, and `writes` has its length and the number of its blocks (ETG.1000.4,
/// 5.3 and 5.4; this project's profile). It allocates only if none of the slots for such frames is free at the call; there are
/// two slots from the opening on, and one more after each allocation. Fails with the first of these; then nothing has changed:
///
/// - `BUSY`, `CLOSED` or `MISUSED`.
/// - `NothingOwed`, 18: no block is owed.
/// - `UnderWay`, 37: each owed block is under way.
/// - `SerialsSpent`, 19: no serial is left.
/// - `ROOM`: `out` is too short. `writes.size` is the length needed, and `writes.blocks` is unchanged.
/// - `MEMORY`: an allocation failed.
#[tactic(auto, using(crate::proofs::Rooms::further_needs, crate::proofs::FrameSizes::further_need_small, crate::proofs::FrameSizes::room_other))]
#[unsafe(no_mangle)]
pub extern "C" fn zangjulf_further_writes(
    alloc: Global,
    handle: &mut Handle,
    out: &mut [u8],
    writes: &mut Writes,
) -> u8
    ensures answer { IfAnswered handle.old result (λ history. result ≢ MEMORY → result ≡ refusal_number (lowest (further_into_faults history (length out.old)))) }
    ensures early { IfAnswered handle.old result (λ history. IsNumberOf (lowest (further_into_faults history (length out.old))) result) }
    ensures written { IfAnsweredWith DONE handle.old result (λ history. HoldsFurther history out.old out.new (record { size = writes.new.size; blocks = writes.new.blocks })) }
    ensures entries { result ≡ DONE → Becomes handle.old handle.new (embedded_after SendsFurther) }
    ensures needed { IfAnsweredWith ROOM handle.old result (λ history. writes.new ≡ record writes.old { size = further_frame_size history }) }
    ensures unwritten { result ≢ DONE → result ≢ ROOM → writes.new ≡ writes.old }
    ensures unchanged { result ≢ DONE → HoldsAsBefore handle.old handle.new }
    ensures untouched { result ≢ DONE → out.new ≡ out.old }
    ensures closed { handle.old.holding.value ≡ None → (result ≡ no_line_number handle.old.mark) × (writes.new ≡ writes.old) }
{
    with_line!(handle, |own| {
        match own.core.write_further_into(alloc, out) {
            Ok(sent) => {
                *writes = writes_out(sent);
                DONE
            }
            Err(fault) => refuse(fault, &mut writes.size),
        }
    })
}
