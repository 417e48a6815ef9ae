//! The command `regs`.
ghost use Rattle.std.specs.Prelude.{◌≡◌, ◌++◌, OnOk, string_bytes};
ghost use Rattle.hc_records.specs.Line.{line};
ghost use Rattle.hc_program.specs.Regs.{block_name, block_text, blocks_text, numbered_block_text, regs_text};

use crate::refusals::push_refusal;
use hc_events::faults::CoreFault;
use hc_plan::plan::Plan;
use hc_records::limits::MOST_AREAS;
use hc_registers::blocks::Block;
use hc_registers::registers::{
    FMMU_BLOCK_BYTES, FMMU_BLOCKS, SYNC_MANAGER_BLOCK_BYTES, SYNC_MANAGER_BLOCKS,
};
use hc_text::printing::{push_register, push_spaced_bytes};
use std::alloc::AllocError;

/// The most blocks of a slave: two for each area.
const MOST_BLOCKS: u8 = 2 * MOST_AREAS as u8;

/// Appends the blocks of the slave of the line with a station address, or the fault. `AllocError` if an allocation fails; then
/// `out` may have a prefix of the lines.
#[tactic(auto, unfolding(crate::specs::Regs::regs_text))]
pub fn reply(plan: &Plan, station: u16, out: &mut String) -> Result<(), AllocError>
    ensures { OnOk result (string_bytes out.new ≡ string_bytes out.old ++ regs_text plan.now station) }
{
    match plan.position(station) {
        Ok(_) => push_blocks(plan, station, out),
        Err(fault) => push_refusal(CoreFault::from(fault), out),
    }
}

/// Appends the lines of all register blocks of a slave, in order.
#[tactic(auto, unfolding(crate::specs::Regs::blocks_text))]
fn push_blocks(plan: &Plan, station: u16, out: &mut String) -> Result<(), AllocError>
    ensures { OnOk result (string_bytes out.new ≡ string_bytes out.old ++ blocks_text (line plan.now) station) }
{
    for number in 0..MOST_BLOCKS {
        push_numbered(plan, station, number, out)?;
    }
    Ok(())
}

/// Appends the line of the block with a number, if the slave has one.
fn push_numbered(plan: &Plan, station: u16, number: u8, out: &mut String) -> Result<(), AllocError>
    ensures { OnOk result (string_bytes out.new ≡ string_bytes out.old ++ numbered_block_text (line plan.now) station number) }
{
    match plan.block(station, number) {
        Some(block) => push_block(&block, out),
        None => Ok(()),
    }
}

/// Appends the line of a register block: its sync manager or FMMU, its register and its bytes.
#[tactic(auto, unfolding(crate::specs::Regs::block_text))]
fn push_block(block: &Block, out: &mut String) -> Result<(), AllocError>
    ensures { OnOk result (string_bytes out.new ≡ string_bytes out.old ++ block_text block.now) }
{
    push_block_name(block.register(), out)?;
    out.push_str(" at ")?;
    push_register(block.register(), out)?;
    out.push_str(":")?;
    push_spaced_bytes(block.bytes(), out)?;
    out.push_str("\n")
}

/// Appends the sync manager or the FMMU whose block begins at a register.
fn push_block_name(register: u16, out: &mut String) -> Result<(), AllocError>
    ensures { OnOk result (string_bytes out.new ≡ string_bytes out.old ++ block_name register) }
{
    if register >= SYNC_MANAGER_BLOCKS {
        let number = (register - SYNC_MANAGER_BLOCKS) / SYNC_MANAGER_BLOCK_BYTES;
        write!(out, "sm {number}")
    } else {
        let number = register.saturating_sub(FMMU_BLOCKS) / FMMU_BLOCK_BYTES;
        write!(out, "fmmu {number}")
    }
}
