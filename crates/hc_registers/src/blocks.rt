//! `Block` and `LineBlock`: blocks as they are written, bytes at a register.
ghost use Rattle.std.specs.Prelude.{◌≡◌, ◌+◌, ◌*◌, ◌<◌, ◌≤◌, take};
ghost use Rattle.std.specs.Option.{ForSome};
ghost use Rattle.hc_records.specs.Area.{width};
ghost use Rattle.hc_records.specs.declared.limits.TheConstants.{LAST_SYNC_MANAGER, MOST_AREA_BITS, MOST_AREAS};
ghost use Rattle.hc_registers.specs.declared.registers.TheConstants.{FMMU_BLOCKS, FMMU_BLOCK_BYTES};

use crate::fmmu::{Mapping, fmmu_block, mapped_block};
use crate::registers::{
    FMMU_BLOCK_BYTES, FMMU_BLOCKS, SYNC_MANAGER_BLOCK_BYTES, SYNC_MANAGER_BLOCKS,
};
use crate::sync_manager::sized_block;
use hc_records::records::Area;
use std::marker::Model;

/// The bytes of a sync manager or FMMU block, and the register at which they begin.
#[derive(Clone, Debug, Drop)]
pub struct Block {
    register: u16,
    // 8 or 16
    length: u8,
    // those after its length are 0
    bytes: [u8; 16],
}

impl Model for Block {
    ghost use Rattle.std.specs.Prelude.{◌≤◌, take};
    ghost use Rattle.hc_registers.specs.Blocks.{RegisterBlock};

    ghost Value = { RegisterBlock };

    ghost view = { λ block. record { register = block.register; bytes = take block.length block.bytes } };

    ghost invariant = { λ block. block.length ≤ 16 };
}

/// A block of the line that a slave is configured with.
#[derive(Debug, Drop)]
pub struct LineBlock {
    /// The station address of its slave.
    pub station: u16,
    /// Its number in the slave's order, from 0.
    pub number: u8,
    /// Its register and its bytes.
    pub block: Block,
}

impl Model for LineBlock {
    ghost use Rattle.hc_registers.specs.Blocks.{LineBlock};

    ghost Value = { LineBlock };

    ghost view = { λ found. record { station = found.station; number = found.number; block = found.block } };
}

/// Eight bytes and as many zeros.
fn with_zeros(bytes: &[u8; 8]) -> [u8; 16]
    ensures { take 8 result ≡ bytes.now }
{
    let [a, b, c, d, e, f, g, h] = *bytes;
    [a, b, c, d, e, f, g, h, 0, 0, 0, 0, 0, 0, 0, 0]
}

/// The FMMU block of these bytes for the area at an index of its slave's record.
fn fmmu_of(index: u8, bytes: [u8; 16]) -> Block
    requires { index < MOST_AREAS }
    ensures { result ≡ record { register = FMMU_BLOCKS + FMMU_BLOCK_BYTES * index; bytes = bytes } }
{
    Block {
        register: FMMU_BLOCKS + FMMU_BLOCK_BYTES * u16::from(index),
        length: 16,
        bytes,
    }
}

impl Block {
    ghost use Rattle.std.specs.Prelude.{◌≡◌, ◌<◌, ◌≤◌, Some};
    ghost use Rattle.std.specs.Option.{ForSome};
    ghost use Rattle.hc_records.specs.Area.{width};
    ghost use Rattle.hc_records.specs.declared.limits.TheConstants.{LAST_SYNC_MANAGER, MOST_AREA_BITS, MOST_AREAS};
    ghost use Rattle.hc_registers.specs.Blocks.{IsMappable, fmmu_block, sync_manager_block};

    /// Returns the sync manager block of an area whose width in bits the caller knows: the area's PDOs are not read for it.
    pub fn sized_sync_manager(area: &Area, bits: u16) -> Block
        requires width { width area.now ≤ MOST_AREA_BITS }
        requires number { area.now.sm ≤ LAST_SYNC_MANAGER }
        requires bits { bits ≡ width area.now }
        ensures { result ≡ sync_manager_block area.now }
    {
        let bytes = sized_block(area, bits);
        Block {
            register: SYNC_MANAGER_BLOCKS + SYNC_MANAGER_BLOCK_BYTES * u16::from(area.sm),
            length: 8,
            bytes: with_zeros(&bytes),
        }
    }

    /// Returns the FMMU block of the area at an index of its slave's record, 16 bytes. An area of 0 bits is not mapped.
    pub fn fmmu(index: u8, area: &Area, mapping: Option<Mapping>) -> Block
        requires index { index < MOST_AREAS }
        requires mapping { ForSome mapping (IsMappable area.now) }
        ensures { result ≡ fmmu_block index area.now mapping }
    {
        fmmu_of(index, fmmu_block(area, mapping))
    }

    /// Returns the FMMU block of a mapped area whose width in bits the caller knows: the area's PDOs are not read for it.
    pub fn mapped_fmmu(index: u8, area: &Area, bits: u16, mapping: Mapping) -> Block
        requires index { index < MOST_AREAS }
        requires bits { bits ≡ width area.now }
        requires mapping { IsMappable area.now mapping }
        ensures { result ≡ fmmu_block index area.now (Some mapping) }
    {
        fmmu_of(index, mapped_block(area, bits, mapping))
    }

    /// Returns a copy of the block. It allocates nothing, as the block has its bytes in itself.
    pub fn copied(&self) -> Block
        ensures { result ≡ self.now }
    {
        Block {
            register: self.register,
            length: self.length,
            bytes: self.bytes,
        }
    }

    /// Returns the register at which the block begins.
    pub fn register(&self) -> u16
        ensures { result ≡ self.now.register }
    {
        self.register
    }

    /// The block's bytes.
    pub fn bytes(&self) -> &[u8]
        ensures { result.now ≡ self.now.bytes }
    {
        &self.bytes[..usize::from(self.length)]
    }
}
