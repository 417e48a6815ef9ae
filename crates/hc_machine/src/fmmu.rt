//! An FMMU as its pairs of logical bits and memory bits (ETG.1000.4, 6.6).

ghost use Rattle.std.specs.Prelude.{◌≡◌, ◌+◌, ◌^◌, ◌<◌, ◌≤◌, [], ◌∷◌, ◌++◌, cond, filter, length, All, true};
ghost use Rattle.hc_machine.specs.Fmmus.{end_logical, fmmu_block_at, fmmu_of, fmmus_of, is_active, IsInMemory};
ghost use Rattle.hc_machine.specs.Logical.{fmmu_meets};

use crate::limits::{ACTIVATE_BYTE, FMMUS, MEMORY_BITS, MEMORY_BYTES};
use arrayvec::ArrayVec;
use hc_registers::fmmu::{
    fmmu_type, length, logical_start_address, logical_start_bit, logical_stop_bit,
    physical_start_address, physical_start_bit,
};
use hc_registers::registers::{FMMU_BLOCK_BYTES, FMMU_BLOCKS};

/// The pairs of an FMMU: logical bit `logical + k` with memory bit `memory + k`, for each `k` below `width`.
#[derive(Clone, Copy, Default)]
pub(crate) struct Fmmu {
    /// The first logical bit.
    pub(crate) logical: usize,
    /// The memory bit that is paired with it.
    pub(crate) memory: usize,
    /// The number of pairs.
    pub(crate) width: usize,
    /// The master reads through it.
    pub(crate) reads: bool,
    /// The master writes through it.
    pub(crate) writes: bool,
}

/// A copy of the block of FMMU `i`.
fn block_at(memory: &[u8], i: usize) -> [u8; 16]
    requires memory { length memory.now ≡ MEMORY_BYTES }
    requires number { i < FMMUS }
    ensures { result ≡ fmmu_block_at memory.now i }
{
    let at = usize::from(FMMU_BLOCKS) + usize::from(FMMU_BLOCK_BYTES) * i;
    let mut block = [0; 16];
    block.copy_from_slice(&memory[at..at + 16]);
    block
}

/// The logical bit after the stop bit of a block's last byte; 0 if the block has no bytes.
fn end_logical(block: &[u8; 16]) -> usize
    ensures { result ≡ end_logical block.now }
{
    let start = logical_start_address(block) as usize;
    match usize::from(length(block)) {
        0 => 0,
        bytes => 8 * (start + bytes - 1) + usize::from(logical_stop_bit(block) % 8) + 1,
    }
}

/// The FMMU of a block that is active.
fn fmmu_of(block: &[u8; 16]) -> Fmmu
    requires { is_active block.now ≡ true }
    ensures value { result ≡ fmmu_of block.now }
    ensures in_memory { IsInMemory result }
{
    let start = logical_start_address(block) as usize;
    let logical = 8 * start + usize::from(logical_start_bit(block) % 8);
    let end = end_logical(block);
    let first = 8 * usize::from(physical_start_address(block))
        + usize::from(physical_start_bit(block) % 8);
    let memory = first.min(MEMORY_BITS);
    Fmmu {
        logical,
        memory,
        width: end.saturating_sub(logical).min(MEMORY_BITS - memory),
        reads: fmmu_type(block) % 2 == 1,
        writes: fmmu_type(block) / 2 % 2 == 1,
    }
}

/// True if an FMMU pairs one of the `n` logical bits from `from` on.
pub(crate) fn meets(fmmu: &Fmmu, from: usize, n: usize) -> bool
    requires in_memory { IsInMemory fmmu.now }
    requires fits { from + n < 2 ^ 41 }
    ensures { result ≡ fmmu_meets from n fmmu.now }
{
    fmmu.logical.max(from) < (fmmu.logical + fmmu.width).min(from + n)
}

/// Adds FMMU `i`, as it is in memory, if it pairs one of the `n` logical bits from `from` on.
fn add_mapped(mapped: &mut ArrayVec<Fmmu, 16>, memory: &[u8], i: usize, from: usize, n: usize)
    requires memory { length memory.now ≡ MEMORY_BYTES }
    requires number { i < FMMUS }
    requires room { length mapped.old.items < 16 }
    requires all_in_memory { All IsInMemory mapped.old.items }
    requires fits { from + n < 2 ^ 41 }
    ensures value { mapped.new.items ≡ mapped.old.items ++ cond (fmmu_meets from n (fmmu_of (fmmu_block_at memory.now i))) (fmmu_of (fmmu_block_at memory.now i) ∷ []) [] }
    ensures room { length mapped.new.items ≤ length mapped.old.items + 1 }
    ensures in_memory { All IsInMemory mapped.new.items }
{
    // most are not active: this byte alone of their block is read
    if memory[usize::from(FMMU_BLOCKS) + usize::from(FMMU_BLOCK_BYTES) * i + ACTIVATE_BYTE] % 2
        != 1
    {
        return;
    }
    let fmmu = fmmu_of(&block_at(memory, i));
    if meets(&fmmu, from, n) {
        mapped.push(fmmu);
    }
}

/// Adds the FMMUs that pair one of the `n` logical bits from `from` on to an empty list, in the order of their numbers.
pub(crate) fn add_all_mapped(mapped: &mut ArrayVec<Fmmu, 16>, memory: &[u8], from: usize, n: usize)
    requires none { mapped.old.items ≡ [] }
    requires memory { length memory.now ≡ MEMORY_BYTES }
    requires fits { from + n < 2 ^ 41 }
    ensures value { mapped.new.items ≡ filter (fmmu_meets from n) (fmmus_of memory.now) }
    ensures in_memory { All IsInMemory mapped.new.items }
{
    for i in 0..FMMUS {
        add_mapped(mapped, memory, i, from, n);
    }
}
