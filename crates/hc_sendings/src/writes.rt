//! The register blocks of an awaited write (`AwaitedBlock`), and a frame of them (`Write`).
ghost use Rattle.std.specs.Prelude.{◌≡◌, ◌≤◌, length, map, vec_capacity};
ghost use Rattle.std.specs.List.{list_any};
ghost use Rattle.hc_sendings.specs.Waiting.{awaited_block, block_forgotten, is_newest_of, is_same, written_again};

use crate::write_frames::PlacedBlock;
use hc_events::sending::FRAME_BLOCKS;
use std::alloc::{AllocError, Global};
use std::marker::Model;

/// A register block of a write that was sent.
#[derive(Clone, Copy, Debug, Default, PartialEq, Eq)]
pub struct AwaitedBlock {
    /// The place of the block, by which its write is confirmed.
    pub place: u32,
    /// The station address of its slave.
    pub station: u16,
    /// Its number in the slave's order, from 0.
    pub number: u8,
    /// The address that it was sent with: the station in the low word, the register in the high word.
    pub address: u32,
    /// The number of data bytes that it was sent with.
    pub length: usize,
    /// True if no later write of the block was sent, and its slave was not forgotten since.
    pub last_sent: bool,
}

/// True if both are writes of one block.
fn is_same(block: &AwaitedBlock, other: &AwaitedBlock) -> bool
    ensures { result ≡ is_same block.now other.now }
{
    block.station == other.station && block.number == other.number
}

/// True if a block is one of these.
fn is_among(block: &AwaitedBlock, placed: &[PlacedBlock]) -> bool
    ensures { result ≡ list_any (λ other. is_same block.now (awaited_block other)) placed.now }
{
    placed.iter().any(|other| is_same(block, &other.awaited()))
}

/// Returns a block of an older write as it is after a write of these blocks: no longer the newest if it is among them.
fn written_again(block: &AwaitedBlock, again: &[PlacedBlock]) -> AwaitedBlock
    ensures { result ≡ written_again (map awaited_block again.now) block.now }
{
    AwaitedBlock {
        last_sent: block.last_sent && !is_among(block, again),
        ..*block
    }
}

/// Returns a block of a write as it is after the slave with a station address was forgotten: not the newest if it is the slave's.
fn forgotten(block: &AwaitedBlock, station: u16) -> AwaitedBlock
    ensures { result ≡ block_forgotten station block.now }
{
    AwaitedBlock {
        last_sent: block.last_sent && block.station != station,
        ..*block
    }
}

/// Marks the blocks of an older write that are among these as no longer the newest, since these are sent again. It is a
/// function of its own in the built code too, since mostly no older write is awaited.
#[inline(never)]
fn write_again(blocks: &mut [AwaitedBlock], again: &[PlacedBlock])
    ensures { blocks.new ≡ map (written_again (map awaited_block again.now)) blocks.old }
{
    for block in blocks.iter_mut() {
        *block = written_again(block, again);
    }
}

/// Marks the blocks of the slave with a station address, which was forgotten, as no longer the newest.
fn forget_blocks(blocks: &mut [AwaitedBlock], station: u16)
    ensures { blocks.new ≡ map (block_forgotten station) blocks.old }
{
    for block in blocks.iter_mut() {
        *block = forgotten(block, station);
    }
}

/// True if one of the blocks is the newest.
pub(crate) fn any_last_sent(blocks: &[AwaitedBlock]) -> bool
    ensures { result ≡ list_any (λ block. block.last_sent) blocks.now }
{
    blocks.iter().any(|block| block.last_sent)
}

/// True if this is the newest write of the block with a station address and a number.
fn is_newest_of(block: &AwaitedBlock, station: u16, number: u8) -> bool
    ensures { result ≡ is_newest_of station number block.now }
{
    block.station == station && block.number == number && block.last_sent
}

/// True if the newest write of the block with a station address and a number is among these.
fn any_newest_of(blocks: &[AwaitedBlock], station: u16, number: u8) -> bool
    ensures { result ≡ list_any (is_newest_of station number) blocks.now }
{
    blocks
        .iter()
        .any(|block| is_newest_of(block, station, number))
}

/// Replaces the blocks of a list, whose capacity suffices, with these blocks.
fn put_blocks(blocks: &mut Vec<AwaitedBlock>, placed: &[PlacedBlock])
    requires { length placed.now ≤ vec_capacity blocks.old }
    ensures blocks { blocks.new.items ≡ map awaited_block placed.now }
    ensures room { vec_capacity blocks.new ≡ vec_capacity blocks.old }
{
    blocks.clear();
    // one block needs no loop
    if let [only] = placed {
        blocks.push_reserved(only.awaited());
        return;
    }
    for block in placed {
        blocks.push_reserved(block.awaited());
    }
}

/// A frame of register writes as long as it is awaited: its serial, and its blocks in order, at most 74. Each block has at
/// least 8 bytes, 20 with its header and its working counter, and 1,498 bytes follow the EtherCAT header (ETG.1000.4, 5.3 and
/// 5.4). Contracts see a list of this frame if it is awaited, otherwise an empty one. Its memory is allocated when it is made.
#[derive(Debug, Drop)]
pub(crate) struct Write {
    serial: u64,
    is_awaited: bool,
    blocks: Vec<AwaitedBlock>,
}

impl Model for Write {
    ghost use Rattle.std.specs.Prelude.{◌≤◌, [], ◌∷◌, if◌then◌else◌, List, length, vec_capacity};
    ghost use Rattle.hc_events.specs.declared.sending.TheConstants.{FRAME_BLOCKS};
    ghost use Rattle.hc_sendings.specs.Waiting.{AwaitedWrite};

    ghost Value = { List AwaitedWrite };

    ghost view = { λ write. if write.is_awaited then record { serial = write.serial; blocks = write.blocks.items } ∷ [] else [] };

    ghost invariant = { λ write. (length write.blocks.items ≤ FRAME_BLOCKS) × (FRAME_BLOCKS ≤ vec_capacity write.blocks) };
}

impl Write {
    ghost use Rattle.std.specs.List.{list_any};
    ghost use Rattle.std.specs.Prelude.{◌≡◌, ◌==◌, ◌≤◌, [], ◌∷◌, IfOk, IfSome, filter, find, length, map, not, option_map};
    ghost use Rattle.hc_events.specs.declared.sending.TheConstants.{FRAME_BLOCKS};
    ghost use Rattle.hc_sendings.specs.Waiting.{awaited_block, carries_newest, is_awaited, left_after, left_forgotten, with_written};

    /// Returns a slot in which no frame is awaited. Fails with `AllocError` if the allocation fails.
    pub(crate) fn none(alloc: Global) -> Result<Write, AllocError>
        ensures { IfOk result (λ write. write ≡ []) }
    {
        Ok(Write {
            serial: 0,
            is_awaited: false,
            blocks: Vec::with_capacity(alloc, FRAME_BLOCKS)?,
        })
    }

    /// True if no frame is awaited.
    pub(crate) fn is_none(&self) -> bool
        ensures { result ≡ (length self.now == 0) }
    {
        !self.is_awaited
    }

    /// Ends the frame.
    pub(crate) fn clear(&mut self)
        ensures { self.new ≡ [] }
    {
        self.is_awaited = false;
    }

    /// Stores a write of these blocks, which is awaited from then on.
    pub(crate) fn put(&mut self, serial: u64, placed: &[PlacedBlock])
        requires { length placed.now ≤ FRAME_BLOCKS }
        ensures { self.new ≡ record { serial = serial; blocks = map awaited_block placed.now } ∷ [] }
    {
        put_blocks(&mut self.blocks, placed);
        self.serial = serial;
        self.is_awaited = true;
    }

    /// Returns the blocks in order, if the awaited frame has this serial.
    pub(crate) fn find(&self, serial: u64) -> Option<&[AwaitedBlock]>
        ensures blocks { option_map (λ blocks. blocks.now) result ≡ option_map (λ write. write.blocks) (find (λ write. write.serial == serial) self.now) }
        ensures few { IfSome result (λ blocks. length blocks.now ≤ FRAME_BLOCKS) }
    {
        if self.is_awaited && self.serial == serial {
            Some(self.blocks.as_slice())
        } else {
            None
        }
    }

    /// True if it carries the newest write of the block with a station address and a number.
    pub(crate) fn carries(&self, station: u16, number: u8) -> bool
        ensures { result ≡ list_any (carries_newest station number) self.now }
    {
        self.is_awaited && any_newest_of(self.blocks.as_slice(), station, number)
    }

    /// Marks the blocks among these as no longer the newest, since these are sent again. The frame ends if it is the newest
    /// write of no other block.
    #[inline(always)]
    pub(crate) fn write_again(&mut self, again: &[PlacedBlock])
        ensures { self.new ≡ filter is_awaited (map (with_written (map awaited_block again.now)) self.old) }
    {
        if self.is_awaited {
            write_again(&mut self.blocks, again);
            self.is_awaited = any_last_sent(&self.blocks);
        }
    }

    /// Applies the sending of a later frame with these blocks. The frame ends if it is the newest write of no other block, or
    /// if a slave was forgotten since the last write (`is_over`).
    pub(crate) fn retire(&mut self, is_over: bool, again: &[PlacedBlock])
        ensures { self.new ≡ left_after (map awaited_block again.now) is_over self.old }
    {
        if is_over {
            self.clear();
        } else {
            self.write_again(again);
        }
    }

    /// Marks the blocks of the slave with a station address, which was forgotten, as no longer the newest. The frame ends if it
    /// is the newest write of no block of another slave.
    pub(crate) fn forget(&mut self, station: u16)
        ensures { self.new ≡ left_forgotten station self.old }
    {
        if self.is_awaited {
            forget_blocks(&mut self.blocks, station);
            self.is_awaited = any_last_sent(&self.blocks);
        }
    }

    /// Ends the frame if it has this serial, since it was answered.
    pub(crate) fn end(&mut self, serial: u64)
        ensures { self.new ≡ filter (λ write. not (write.serial == serial)) self.old }
    {
        if self.serial == serial {
            self.is_awaited = false;
        }
    }
}
