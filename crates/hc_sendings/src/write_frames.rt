//! `WriteFrame`: a frame of register writes, with the owed blocks that share it. The core fills it with the first owed blocks,
//! or with the first ones whose newest write is not awaited. It then writes the frame, and hands its blocks to `Awaited`.
ghost use Rattle.std.specs.Prelude.{◌≡◌, ◌+◌, ◌≤◌, length, map, replicate};
ghost use Rattle.hc_frames.specs.FrameText.{sent_datagrams_text};
ghost use Rattle.hc_frames.specs.declared.limits.TheConstants.{MAX_ETHERCAT};
ghost use Rattle.hc_sendings.specs.WriteFrames.{placed_bytes, placed_datagram};

use crate::writes::AwaitedBlock;
use hc_events::sending::FRAME_BLOCKS;
use hc_frames::building::{Room, build_head, build_write_datagram};
use hc_frames::limits::{BESIDE_DATA_BYTES, HEAD_BYTES, LEAST_FRAME, MAX_ETHERCAT};
use hc_plan::blocks::LineBlock;
use hc_records::items::Items;
use std::alloc::{AllocError, Global};
use std::marker::Model;

/// A block of the line, with its place, by which its write is confirmed.
#[derive(Debug, Drop)]
pub struct PlacedBlock {
    /// Its place among the blocks of all declared slaves: sixteen for each slave by rank, one for each block number.
    pub place: u32,
    /// The block.
    pub block: LineBlock,
}

impl PlacedBlock {
    ghost use Rattle.std.specs.Prelude.{◌≡◌, ◌+◌, length};
    ghost use Rattle.hc_sendings.specs.Waiting.{awaited_block};

    /// Its bytes.
    fn bytes(&self) -> &[u8]
        ensures { result.now ≡ self.now.block.block.bytes }
    {
        self.block.block.bytes()
    }

    /// Returns the block as its write is awaited once it was sent.
    pub(crate) fn awaited(&self) -> AwaitedBlock
        ensures { result ≡ awaited_block self.now }
    {
        let station = self.block.station;
        AwaitedBlock {
            place: self.place,
            station,
            number: self.block.number,
            address: u32::from(station) + 65536 * u32::from(self.block.block.register()),
            length: self.bytes().len(),
            last_sent: true,
        }
    }
}

/// Writes the datagrams of blocks one after another into a slice of their exact size. A frame has at most 74, which bounds the
/// recursion.
fn write_datagrams(out: &mut [u8], serial: u64, blocks: &[PlacedBlock])
    requires exact { length out.old ≡ placed_bytes blocks.now }
    requires size { 2 + placed_bytes blocks.now ≤ MAX_ETHERCAT }
    ensures { out.new ≡ sent_datagrams_text serial (map placed_datagram blocks.now) }
{
    if let [first, rest @ ..] = blocks {
        let bytes = first.bytes();
        let (text, others) = out.split_at_mut(BESIDE_DATA_BYTES + bytes.len());
        let register = first.block.block.register();
        build_write_datagram(
            text,
            serial,
            first.block.station,
            register,
            bytes,
            !rest.is_empty(),
        );
        write_datagrams(others, serial, rest);
    }
}

/// Fills the 44 bytes after the head of a frame of the least size with zeros, before its datagrams are written. The padding then
/// needs no fill of its own, and a fill of constant size needs no function call. A longer frame stays as it is.
#[inline(always)]
fn clear_least(rest: &mut [u8])
    ensures size { length rest.new ≡ length rest.old }
    ensures zeros { length rest.old ≡ 44 → rest.new ≡ replicate 44 0 }
{
    if rest.len() == usize::from(LEAST_FRAME) - HEAD_BYTES {
        rest.fill(0);
    }
}

/// The owed blocks, in order, that share a frame. Its capacity is the 74 blocks that a frame holds at most.
#[derive(Debug, Drop)]
pub struct WriteFrame {
    // the bytes of its datagrams, with their headers and their counters
    bytes: u16,
    blocks: Vec<PlacedBlock>,
}

impl Model for WriteFrame {
    ghost use Rattle.std.specs.Prelude.{◌≤◌, vec_capacity};
    ghost use Rattle.hc_events.specs.declared.sending.TheConstants.{FRAME_BLOCKS};
    ghost use Rattle.hc_sendings.specs.WriteFrames.{WriteFrame, IsShared};

    ghost Value = { WriteFrame };

    ghost view = { λ frame. record { bytes = frame.bytes; blocks = frame.blocks.items } };

    ghost invariant = { λ frame. IsShared frame.bytes frame.blocks.items × (FRAME_BLOCKS ≤ vec_capacity frame.blocks) };
}

impl WriteFrame {
    ghost use Rattle.std.specs.Prelude.{◌≡◌, ◌+◌, ◌^◌, ◌<◌, ◌≤◌, IfOk, length, true};
    ghost use Rattle.hc_frames.specs.declared.limits.TheConstants.{MAX_DATA};
    ghost use Rattle.hc_frames.specs.Builds.{Builds};
    ghost use Rattle.hc_frames.specs.Sizes.{frame_bytes};
    ghost use Rattle.hc_events.specs.Sendings.{has_room};
    ghost use Rattle.hc_events.specs.declared.sending.TheConstants.{FRAME_BLOCKS};
    ghost use Rattle.hc_sendings.specs.WriteFrames.{LEAST_BLOCK, block_joined, no_blocks, placed_text};

    /// Returns a frame without blocks, with all the memory that it will need. Fails with `AllocError` if the allocation fails.
    pub fn new(alloc: Global) -> Result<WriteFrame, AllocError>
        ensures { IfOk result (λ frame. frame ≡ no_blocks) }
    {
        Ok(WriteFrame {
            bytes: 0,
            blocks: Vec::with_capacity(alloc, FRAME_BLOCKS)?,
        })
    }

    /// Removes all blocks. It allocates nothing.
    pub fn clear(&mut self)
        ensures { self.new ≡ no_blocks }
    {
        self.blocks.clear();
        self.bytes = 0;
    }

    /// True if a block with so many bytes, at most 1,486, can join the frame: the frame then has at most the 1,500 bytes that
    /// may follow the Ethernet header.
    pub fn has_room(&self, length: u16) -> bool
        requires { length ≤ MAX_DATA }
        ensures { result ≡ has_room self.now.bytes length }
    {
        2 + self.bytes + BESIDE_DATA_BYTES as u16 + length <= MAX_ETHERCAT
    }

    /// Adds a block of at least 8 bytes to the frame after its others. The caller has asked `has_room` first. It
    /// allocates nothing.
    pub fn join(&mut self, block: PlacedBlock)
        requires least { LEAST_BLOCK ≤ length block.block.block.bytes }
        requires room { has_room self.old.bytes (length block.block.block.bytes) ≡ true }
        ensures { self.new ≡ block_joined block self.old }
    {
        self.bytes += BESIDE_DATA_BYTES as u16 + block.bytes().len() as u16;
        self.blocks.push_reserved(block);
    }

    /// Its blocks, in order: 74 at most.
    pub fn blocks(&self) -> &[PlacedBlock]
        ensures blocks { result.now ≡ self.now.blocks }
        ensures few { length result.now ≤ FRAME_BLOCKS }
    {
        self.blocks.as_slice()
    }

    /// The bytes of the whole frame, 60 to 1,514.
    pub fn size(&self) -> usize
        ensures { result ≡ frame_bytes self.now.bytes }
    {
        let bytes = HEAD_BYTES + usize::from(self.bytes);
        bytes.max(usize::from(LEAST_FRAME))
    }

    /// Writes the frame into a slice of its exact size. `serial` is below 2^40.
    #[inline(always)]
    pub fn write(&self, out: &mut [u8], serial: u64)
        requires exact { length out.old ≡ frame_bytes self.now.bytes }
        requires serial { serial < 2 ^ 40 }
        ensures { out.new ≡ placed_text serial self.now.blocks }
    {
        let (head, rest) = out.split_at_mut(HEAD_BYTES);
        clear_least(rest);
        let (texts, _) = rest.split_at_mut(usize::from(self.bytes));
        build_head(head, serial, self.bytes);
        write_datagrams(texts, serial, self.blocks.as_slice());
    }

    /// Writes the frame to the start of `out`, and returns its size in bytes. `serial` is below 2^40. Fails with `Room` and the
    /// size needed if `out` is shorter; `out` is then as it was. It allocates nothing.
    #[inline(always)]
    pub fn write_into(&self, out: &mut [u8], serial: u64) -> Result<usize, Room>
        requires serial { serial < 2 ^ 40 }
        ensures { Builds out.old out.new result (placed_text serial self.now.blocks) (frame_bytes self.now.bytes) }
    {
        let size = self.size();
        if out.len() < size {
            return Err(Room(size));
        }
        self.write(&mut out[..size], serial);
        Ok(size)
    }

    /// Returns the frame's bytes in newly allocated memory. Fails with `AllocError` if the allocation fails.
    pub fn text(&self, alloc: Global, serial: u64) -> Result<Items<u8>, AllocError>
        requires serial { serial < 2 ^ 40 }
        ensures { IfOk result (λ text. text ≡ placed_text serial self.now.blocks) }
    {
        let mut text = Vec::from_elem(alloc, 0, self.size())?;
        self.write(&mut text, serial);
        Ok(Items::of(text))
    }
}
