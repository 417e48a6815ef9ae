//! `Awaited`: the sent frames that may still be answered.
ghost use Rattle.std.specs.Prelude.{◌≡◌, ◌==◌, ◌<◌, ◌≤◌, [], ◌∷◌, ◌++◌, ◌+◌, ◌⊎◌, false, true, All, AllPairs, Contains, IfSome, IsTrue, filter, find, if◌then◌else◌, length, map, nat_lt, option_map, vec_capacity, vec_len};
ghost use Rattle.std.specs.List.Sorted.{IsPartitionPoint};
ghost use Rattle.hc_events.specs.Sendings.{Named};
ghost use Rattle.hc_sendings.specs.Stored.{IsLast, SerialsAreBelow, awaited_of, awaited_frames, frame_emptied, frames_without, stored_frame, last_sent_after, last_sent_of, frame_by};
ghost use Rattle.hc_sendings.specs.Waiting.{IsTaskDatagram, is_still_awaited};

use crate::further_writes::FurtherWrites;
use crate::last_sent::LastSent;
use crate::last_writes::LastWrites;
use crate::stored::StoredFrame;
use crate::write_frames::PlacedBlock;
use crate::writes::AwaitedBlock;
use hc_events::sending::Sending;
use hc_records::slots::SLOTS;
use std::alloc::{AllocError, Global};
use std::marker::Model;

/// The most datagrams of a frame: each has 13 bytes at least, and 1,498 bytes follow the EtherCAT header (ETG.1000.4, 5.3 and
/// 5.4).
pub const FRAME_DATAGRAMS: usize = 115;

/// The most frames of the first owed register blocks that are awaited: a frame of several blocks, and the write of one that
/// was sent after it. Each later one carries all that is awaited of them.
pub const AWAITED_WRITES: usize = 2;

/// The frames of tasks and the register writes that are awaited. Contracts see a `Waiting`. It has the frames in the order in
/// which they were sent, and tells for each datagram if this is its newest frame. It has the writes of the first owed blocks
/// and those of further ones, each in their order, and tells for each block if this is its newest write. It tells if a slave
/// was forgotten since the last write. A frame that is the newest of no datagram is awaited no longer, so there are at most as
/// many as datagrams, 128. A write that is the newest of no block is awaited no longer.
#[derive(Debug)]
pub struct Awaited {
    pub(crate) last_sent: LastSent,
    // in the order of their serials; some may be the newest of no datagram
    pub(crate) frames: Vec<StoredFrame>,
    pub(crate) writes: LastWrites,
    pub(crate) further: FurtherWrites,
    pub(crate) forgotten: bool,
}

impl Drop for Awaited {
    fn drop(self) {
        let Awaited {
            last_sent: _,
            frames: _,
            writes: _,
            further: _,
            forgotten: _,
        } = self;
    }
}

impl Model for Awaited {
    ghost use Rattle.std.specs.Prelude.{◌≤◌, vec_capacity};
    ghost use Rattle.hc_sendings.specs.Stored.{AreStored, awaited_frames};
    ghost use Rattle.hc_sendings.specs.Waiting.{Waiting};
    ghost use Rattle.hc_records.specs.declared.slots.TheConstants.{SLOTS};

    ghost Value = { Waiting };

    ghost view = { λ awaited. record { frames = awaited_frames awaited.last_sent awaited.frames.items; writes = awaited.writes; further = awaited.further; forgotten = awaited.forgotten } };

    ghost invariant = { λ awaited. AreStored awaited.last_sent awaited.frames.items × (SLOTS ≤ vec_capacity awaited.frames) };
}

/// Notes each frame as the newest of its datagrams. If several frames have a datagram, the last of them is its newest.
fn note_all(last_sent: &mut LastSent, frames: &[Sending])
    requires { All (λ frame. All IsTaskDatagram frame.datagrams) frames.now }
    ensures noted { (named : Named) → IsTaskDatagram named → last_sent_of last_sent.new named ≡ last_sent_after named (last_sent_of last_sent.old named) frames.now }
    ensures places { length last_sent.new ≡ length last_sent.old }
{
    for frame in frames {
        last_sent.note(frame.serial(), frame.datagrams());
    }
}

/// True if a frame is the newest of one of its datagrams at least.
pub(crate) fn is_still_awaited(last_sent: &LastSent, frame: &StoredFrame) -> bool
    ensures { result ≡ is_still_awaited (frame_by last_sent.now frame.now) }
{
    last_sent.is_any(frame.serial(), frame.datagrams())
}

/// Removes the frames that are the newest of no datagram.
fn keep_awaited(frames: &mut Vec<StoredFrame>, last_sent: &LastSent)
    ensures frames { frames.new.items ≡ filter (λ frame. is_still_awaited (frame_by last_sent.now frame)) frames.old.items }
    ensures room { vec_capacity frames.new ≡ vec_capacity frames.old }
{
    frames.retain(|frame| is_still_awaited(last_sent, frame));
}

/// True if the stored frames may stay when more come: the first stored one was not answered, and the serial of the last stored
/// one is below that of the first one to come. True too if no frame is stored, or if none comes.
fn may_stay(frames: &[StoredFrame], more: &[Sending]) -> bool
    requires stored { AllPairs (λ a b. a.serial < b.serial) frames.now }
    requires come { AllPairs (λ a b. a.serial < b.serial) more.now }
    ensures { IsTrue result → All (λ old. All (λ next. old.serial < next.serial) more.now) frames.now }
{
    if frames.is_empty() || more.is_empty() {
        return true;
    }
    if frames[0].datagrams().is_empty() {
        return false;
    }
    frames[frames.len() - 1].serial() < more[0].serial()
}

/// Removes the frames that are the newest of no datagram, so that few are searched. Exception: all stay if the first of them
/// was not answered and the frames to come have higher serials. Once those are noted, none of the stored frames can become the
/// newest of a datagram again.
fn make_way(frames: &mut Vec<StoredFrame>, last_sent: &LastSent, more: &[Sending])
    requires stored { AllPairs (λ a b. a.serial < b.serial) frames.old.items }
    requires come { AllPairs (λ a b. a.serial < b.serial) more.now }
    ensures frames { (frames.new.items ≡ awaited_of last_sent.now frames.old.items) ⊎ ((frames.new.items ≡ frames.old.items) × SerialsAreBelow more.now frames.old.items) }
    ensures room { vec_capacity frames.new ≡ vec_capacity frames.old }
{
    if !may_stay(frames, more) {
        keep_awaited(frames, last_sent);
    }
}

/// Removes the frames that are the newest of no datagram, unless the capacity has room for `more` frames.
fn make_room(frames: &mut Vec<StoredFrame>, last_sent: &LastSent, more: usize)
    ensures frames { (frames.new.items ≡ awaited_of last_sent.now frames.old.items) ⊎ ((frames.new.items ≡ frames.old.items) × (vec_len frames.old + more ≤ vec_capacity frames.old)) }
    ensures room { vec_capacity frames.new ≡ vec_capacity frames.old }
{
    if frames.capacity() - frames.len() < more {
        keep_awaited(frames, last_sent);
    }
}

/// Stores a frame after the others; the capacity suffices. It is made in place.
fn push_frame(frames: &mut Vec<StoredFrame>, frame: &Sending)
    requires { vec_len frames.old < vec_capacity frames.old }
    ensures frames { frames.new.items ≡ frames.old.items ++ stored_frame frame.now ∷ [] }
    ensures room { vec_capacity frames.new ≡ vec_capacity frames.old }
{
    let place = frames.len();
    frames.push_reserved(StoredFrame::new(frame.serial()));
    frames[place].fill(frame.datagrams());
}

/// Stores a frame after the others, if it is the newest of a datagram; the capacity then suffices.
fn add_awaited(frames: &mut Vec<StoredFrame>, last_sent: &LastSent, frame: &Sending)
    requires { is_still_awaited (frame_by last_sent.now (stored_frame frame.now)) ≡ true → vec_len frames.old < vec_capacity frames.old }
    ensures frames { frames.new.items ≡ frames.old.items ++ (if is_still_awaited (frame_by last_sent.now (stored_frame frame.now)) then stored_frame frame.now ∷ [] else []) }
    ensures room { vec_capacity frames.new ≡ vec_capacity frames.old }
{
    if last_sent.is_any(frame.serial(), frame.datagrams()) {
        push_frame(frames, frame);
    }
}

/// Stores those of the frames that are the newest of a datagram after the others; the capacity suffices.
fn add_all(frames: &mut Vec<StoredFrame>, last_sent: &LastSent, more: &[Sending])
    requires { length (frames.old.items ++ filter (λ frame. is_still_awaited (frame_by last_sent.now frame)) (map stored_frame more.now)) ≤ vec_capacity frames.old }
    ensures frames { frames.new.items ≡ frames.old.items ++ filter (λ frame. is_still_awaited (frame_by last_sent.now frame)) (map stored_frame more.now) }
    ensures room { vec_capacity frames.new ≡ vec_capacity frames.old }
{
    for frame in more {
        add_awaited(frames, last_sent, frame);
    }
}

/// Returns the number of frames with a lower serial.
fn count_below(frames: &[StoredFrame], serial: u64) -> usize
    requires { AllPairs (λ a b. a.serial < b.serial) frames.now }
    ensures { IsPartitionPoint (λ frame. nat_lt frame.serial serial ≡ true) (λ frame. nat_lt frame.serial serial ≡ false) frames.now result }
{
    frames.partition_point(|frame| frame.serial() < serial)
}

/// Returns the frame with a serial, if it is the newest of a datagram.
pub(crate) fn find_frame<'a>(
    last_sent: &LastSent,
    frames: &'a [StoredFrame],
    serial: u64,
) -> Option<&'a StoredFrame>
    requires { AllPairs (λ a b. a.serial < b.serial) frames.now }
    ensures found { option_map (λ frame. frame_by last_sent.now frame.now) result ≡ find (λ frame. frame.serial == serial) (awaited_frames last_sent.now frames.now) }
    ensures awaited_still { IfSome result (λ frame. is_still_awaited (frame_by last_sent.now frame.now) ≡ true) }
    ensures among { IfSome result (λ frame. Contains frames.now frame.now) }
{
    let frame = frames.get(count_below(frames, serial))?;
    if frame.serial() == serial && is_still_awaited(last_sent, frame) {
        Some(frame)
    } else {
        None
    }
}

/// Removes the datagrams of the frame with a serial, if it is stored.
fn empty(frames: &mut Vec<StoredFrame>, serial: u64)
    requires { AllPairs (λ a b. a.serial < b.serial) frames.old.items }
    ensures frames { frames.new.items ≡ map (frame_emptied serial) frames.old.items }
    ensures room { vec_capacity frames.new ≡ vec_capacity frames.old }
{
    let place = count_below(frames.as_slice(), serial);
    if place < frames.len() && frames[place].serial() == serial {
        frames[place].clear();
    }
}

/// True if the last frame has a serial.
fn is_last(frames: &[StoredFrame], serial: u64) -> bool
    ensures { IsTrue result → IsLast serial frames.now }
{
    if frames.is_empty() {
        return false;
    }
    frames[frames.len() - 1].serial() == serial
}

/// Ends the frame with a serial, if it is stored: the last frame is removed, any other loses its datagrams.
fn end_frame(frames: &mut Vec<StoredFrame>, serial: u64)
    requires { AllPairs (λ a b. a.serial < b.serial) frames.old.items }
    ensures frames { (frames.new.items ≡ map (frame_emptied serial) frames.old.items) ⊎ (frames.new.items ≡ frames_without serial frames.old.items) }
    ensures room { vec_capacity frames.new ≡ vec_capacity frames.old }
{
    if is_last(frames.as_slice(), serial) {
        frames.truncate(frames.len() - 1);
    } else {
        empty(frames, serial);
    }
}

impl Awaited {
    ghost use Rattle.std.specs.Prelude.{◌≡◌, ◌==◌, ◌<◌, ◌≤◌, ◌*◌, All, IfOk, IfSome, OnErr, OnOk, length, map, option_map};
    ghost use Rattle.hc_records.specs.declared.limits.TheConstants.{MOST_DATAGRAMS, TASKS};
    ghost use Rattle.hc_events.specs.declared.sending.TheConstants.{FRAME_BLOCKS};
    ghost use Rattle.hc_sendings.specs.declared.awaited.TheConstants.{AWAITED_WRITES};
    ghost use Rattle.hc_sendings.specs.Judging.{blocks_with, found_write};
    ghost use Rattle.hc_sendings.specs.Waiting.{ComeAfter, IsTaskDatagram, all_sent, awaited_block, ended, forgot, is_newest_awaited, left_after, nothing, older_writes, wrote, wrote_further};

    /// Returns a state in which nothing is awaited, with all its memory. Exception: `write_further` allocates if none of
    /// its two slots for frames of further blocks is free. Fails with `AllocError` if an allocation fails.
    pub fn new(alloc: Global) -> Result<Awaited, AllocError>
        ensures { IfOk result (λ awaited. awaited ≡ nothing) }
    {
        Ok(Awaited {
            last_sent: LastSent::new(alloc)?,
            frames: Vec::with_capacity(alloc, SLOTS)?,
            writes: LastWrites::new(alloc)?,
            further: FurtherWrites::new(alloc)?,
            forgotten: false,
        })
    }

    /// Ends all frames and writes, as an accepted edit does. It allocates nothing.
    pub fn clear(&mut self)
        ensures { self.new ≡ nothing }
    {
        self.frames.clear();
        self.writes.clear();
        self.further.clear();
        self.forgotten = false;
    }

    /// Records frames of tasks that are sent, in this order. Each is the newest of its datagrams. Frames before it that are
    /// left without one are awaited no longer, so that at most 128 are awaited: 16 datagrams of each of the eight tasks. The
    /// serials ascend, above those of the awaited frames. It allocates nothing.
    #[inline(always)]
    pub fn send(&mut self, frames: &[Sending])
        requires named { All (λ frame. All IsTaskDatagram frame.datagrams) frames.now }
        requires after_it { ComeAfter self.old frames.now }
        ensures sent { self.new ≡ all_sent self.old frames.now }
        ensures few { length self.new.frames ≤ TASKS * MOST_DATAGRAMS }
    {
        make_way(&mut self.frames, &self.last_sent, frames);
        note_all(&mut self.last_sent, frames);
        make_room(&mut self.frames, &self.last_sent, frames.len());
        add_all(&mut self.frames, &self.last_sent, frames);
    }

    /// Ends the writes of first owed blocks that are the newest of no other block, once these blocks are sent. It ends all of
    /// them if a slave was forgotten since the last write.
    #[inline(always)]
    fn retire(&mut self, again: &[PlacedBlock])
        ensures { self.new ≡ record self.old { writes = older_writes (map awaited_block again.now) self.old } }
    {
        if self.forgotten {
            self.writes.clear();
        } else {
            self.writes.write_again(again);
        }
    }

    /// Records one frame of the first owed register blocks, at most 74, which is awaited from then on. An older write stays
    /// awaited only for its other blocks. Exception: no older write does if a slave was forgotten since the last write. The
    /// caller ensures that at most one older write of first owed blocks stays awaited. It allocates nothing.
    #[inline(always)]
    pub fn write(&mut self, serial: u64, blocks: &[PlacedBlock])
        requires few { length blocks.now ≤ FRAME_BLOCKS }
        requires room { length (older_writes (map awaited_block blocks.now) self.old) < AWAITED_WRITES }
        ensures { self.new ≡ wrote serial (map awaited_block blocks.now) self.old }
    {
        self.retire(blocks);
        self.writes.push(serial, blocks);
        self.further.retire(self.forgotten, blocks);
        self.forgotten = false;
    }

    /// Records one frame of further register blocks, at most 74, which is awaited from then on. An older write stays awaited
    /// only for its other blocks. Exception: no older write does if a slave was forgotten since the last write. Memory for two
    /// further frames is allocated at the opening, and is used again. It allocates only for one more, if all of these are
    /// awaited when it is called. Fails with `AllocError` if an allocation fails; nothing has changed then.
    pub fn write_further(
        &mut self,
        alloc: Global,
        serial: u64,
        blocks: &[PlacedBlock],
    ) -> Result<(), AllocError>
        requires few { length blocks.now ≤ FRAME_BLOCKS }
        ensures sent { OnOk result (self.new ≡ wrote_further serial (map awaited_block blocks.now) self.old) }
        ensures unchanged { OnErr result (self.new ≡ self.old) }
    {
        self.further.send(alloc, self.forgotten, serial, blocks)?;
        self.retire(blocks);
        self.forgotten = false;
        Ok(())
    }

    /// Forgets the slave with a station address: no write of its blocks is awaited any more. Frames of tasks and writes of
    /// other blocks stay. It allocates nothing.
    pub fn forget(&mut self, station: u16)
        ensures { self.new ≡ forgot station self.old }
    {
        self.writes.forget(station);
        self.further.forget(station);
        self.forgotten = true;
    }

    /// Ends the frame or the write with a serial, which was answered. Nothing changes if there is none. It allocates nothing.
    pub fn end(&mut self, serial: u64)
        ensures { self.new ≡ ended serial self.old }
    {
        end_frame(&mut self.frames, serial);
        self.writes.end(serial);
        self.further.end(serial);
    }

    /// Returns the blocks of the awaited write with a serial, in its order: at most 74; none if no such write is awaited.
    #[inline(always)]
    pub(crate) fn find_write(&self, serial: u64) -> Option<&[AwaitedBlock]>
        ensures blocks { option_map (λ blocks. blocks.now) result ≡ option_map (λ write. write.blocks) (found_write serial self.now) }
        ensures few { IfSome result (λ blocks. length blocks.now ≤ FRAME_BLOCKS) }
    {
        match self.further.find(serial) {
            Some(blocks) => Some(blocks),
            None => self.writes.find(serial),
        }
    }

    /// True if the newest write of the block with a station address and a number is awaited. It takes the time of all blocks
    /// that are awaited.
    pub fn is_newest_awaited(&self, station: u16, number: u8) -> bool
        ensures { result ≡ is_newest_awaited station number self.now }
    {
        self.further.carries(station, number) || self.writes.carries(station, number)
    }

    /// Returns the blocks of the awaited write with a serial, in its order: at most 74. Empty if no such write is awaited.
    pub fn written(&self, serial: u64) -> &[AwaitedBlock]
        ensures blocks { result.now ≡ blocks_with serial self.now }
        ensures few { length result.now ≤ FRAME_BLOCKS }
    {
        match self.find_write(serial) {
            Some(blocks) => blocks,
            None => &[],
        }
    }
}
