//! Register writes in one frame: the first owed block, as many of the first owed blocks as the frame holds, or the first ones
//! that are not under way.
ghost use Rattle.std.specs.Prelude.{◌≡◌, ◌≢◌, ◌==◌, ◌∷◌, Err, IfErr, IfOk, IfSome, None, OnErr, OnOk, Some, length, not};
ghost use Rattle.hc_records.specs.Lists.{lowest};
ghost use Rattle.hc_events.specs.Calls.{further_into_faults, write_all_into_faults, write_into_faults};
ghost use Rattle.hc_events.specs.Entries.{Wrote};
ghost use Rattle.hc_events.specs.Owed.{owed_blocks};
ghost use Rattle.hc_events.specs.Points.{next_serial};
ghost use Rattle.hc_events.specs.Steps.{SendsFurther, SendsWrite, SendsWrites, answer_to, entries_after, further_faults, write_faults};
ghost use Rattle.hc_events.specs.UnderWay.{further_blocks, is_under_way};
ghost use Rattle.hc_events.specs.WriteFrames.{writes_text};
ghost use Rattle.hc_events.specs.declared.faults.CoreFault.TheVariants.{Memory};
ghost use Rattle.hc_core.specs.Written.{HoldsBlocks, HoldsFurther, HoldsWrite, HoldsWrites, IsMost, first_blocks, first_into_faults, sent_answer};

use crate::areas::mark_areas;
use crate::choosing::{choose_first, choose_further, mark_sent, next_further};
use crate::keeping::Core;
use hc_events::answer::Answer;
use hc_events::faults::CoreFault;
use hc_events::sending::FRAME_BLOCKS;
use hc_frames::limits::{LEAST_FRAME, MAX_ETHERCAT, SETUP_SERIAL};
use hc_records::items::Items;
use std::alloc::Global;

/// A frame of register writes that was sent.
#[derive(Clone, Copy, Debug, PartialEq, Eq)]
pub struct SentWrites {
    /// The bytes of the frame, 60 to 1,514.
    pub size: usize,
    /// The number of blocks that it writes, 1 to 74.
    pub blocks: usize,
}

/// Returns the answer to a frame of owed blocks: `WriteSent` for one block, `WritesSent` for several.
fn sent_answer(text: Items<u8>, blocks: usize) -> Answer
    ensures { result ≡ sent_answer text blocks }
{
    if blocks == 1 {
        Answer::WriteSent(text)
    } else {
        Answer::WritesSent(text)
    }
}

impl Core {
    /// Checks that a register write can be sent. Fails with `NothingOwed` if no block is owed, otherwise with `SerialsSpent` if
    /// no serial is left.
    fn can_write(&self) -> Result<(), CoreFault>
        ensures accepted { OnOk result (lowest (write_faults self.now.history (owed_blocks self.now.history)) ≡ None) }
        ensures refused { IfErr result (λ fault. lowest (write_faults self.now.history (owed_blocks self.now.history)) ≡ Some fault) }
    {
        if self.owed.count() == 0 {
            return Err(CoreFault::NothingOwed);
        }
        if self.serial >= SETUP_SERIAL {
            return Err(CoreFault::SerialsSpent);
        }
        Ok(())
    }

    /// Sends the first owed blocks, one or as many as a frame holds, in one frame with the next serial. The frame is at the
    /// start of `out`. It allocates nothing. It is inlined, so that one block's write has no loop over blocks.
    #[inline(always)]
    fn write_first(&mut self, most: usize, out: &mut [u8]) -> Result<SentWrites, CoreFault>
        requires { IsMost most }
        ensures written { IfOk result (HoldsBlocks self.old.history (first_blocks most self.old.history) out.old out.new) }
        ensures accepted { OnOk result (lowest (first_into_faults most self.old.history (length out.old)) ≡ None) }
        ensures entries { OnOk result (self.new ≡ record self.old { history = Wrote (first_blocks most self.old.history) ∷ self.old.history }) }
        ensures refused { IfErr result (λ fault. lowest (first_into_faults most self.old.history (length out.old)) ≡ Some fault) }
        ensures unchanged { OnErr result (self.new ≡ self.old) }
        ensures untouched { OnErr result (out.new ≡ out.old) }
    {
        self.can_write()?;
        self.writes.clear();
        choose_first(&mut self.writes, &self.owed, &self.plan, most);
        let size = self.writes.write_into(out, self.serial)?;
        self.history = self.history.wrote(&self.writes);
        self.awaited.write(self.serial, self.writes.blocks());
        mark_sent(&mut self.owed, self.writes.blocks());
        mark_areas(&mut self.readiness, self.writes.blocks());
        self.serial += 1;
        Ok(SentWrites {
            size,
            blocks: self.writes.blocks().len(),
        })
    }

    /// Sends the first owed blocks, one or as many as a frame holds, in one frame with the next serial, in newly allocated
    /// memory. Returns its text and the number of its blocks. Fails as `write` does.
    fn write_text(&mut self, alloc: Global, most: usize) -> Result<(Items<u8>, usize), CoreFault>
        requires { IsMost most }
        ensures text { IfOk result (λ sent. sent.0 ≡ writes_text (next_serial self.old.history) (first_blocks most self.old.history)) }
        ensures count { IfOk result (λ sent. sent.1 ≡ length (first_blocks most self.old.history)) }
        ensures accepted { OnOk result (lowest (write_faults self.old.history (owed_blocks self.old.history)) ≡ None) }
        ensures entries { OnOk result (self.new ≡ record self.old { history = Wrote (first_blocks most self.old.history) ∷ self.old.history }) }
        ensures refused { IfErr result (λ fault. fault ≢ Memory → lowest (write_faults self.old.history (owed_blocks self.old.history)) ≡ Some fault) }
        ensures early { IfSome (lowest (write_faults self.old.history (owed_blocks self.old.history))) (λ fault. result ≡ Err fault) }
        ensures unchanged { OnErr result (self.new ≡ self.old) }
    {
        self.can_write()?;
        self.writes.clear();
        choose_first(&mut self.writes, &self.owed, &self.plan, most);
        let text = self.writes.text(alloc, self.serial)?;
        self.history = self.history.wrote(&self.writes);
        self.awaited.write(self.serial, self.writes.blocks());
        mark_sent(&mut self.owed, self.writes.blocks());
        mark_areas(&mut self.readiness, self.writes.blocks());
        self.serial += 1;
        Ok((text, self.writes.blocks().len()))
    }

    /// Sends the first owed block with the next serial, in newly allocated memory. Fails with `NothingOwed` if no block is
    /// owed; otherwise with `SerialsSpent` if no serial is left; otherwise with `Memory` if an allocation fails. After a
    /// failure nothing has changed.
    pub(crate) fn write(&mut self, alloc: Global) -> Result<Answer, CoreFault>
        ensures answer { IfOk result (λ returned. returned ≡ answer_to self.old.history SendsWrite) }
        ensures entries { OnOk result (self.new ≡ record self.old { history = entries_after self.old.history SendsWrite }) }
        ensures refused { IfErr result (λ fault. fault ≢ Memory → lowest (write_faults self.old.history (owed_blocks self.old.history)) ≡ Some fault) }
        ensures early { IfSome (lowest (write_faults self.old.history (owed_blocks self.old.history))) (λ fault. result ≡ Err fault) }
        ensures unchanged { OnErr result (self.new ≡ self.old) }
    {
        self.can_write()?;
        let mut text = Vec::from_elem(alloc, 0, usize::from(LEAST_FRAME))?;
        self.write_into(&mut text)?;
        Ok(Answer::WriteSent(Items::of(text)))
    }

    /// Sends the first owed blocks in one frame, as many as it holds, with the next serial. Fails as `write` does.
    pub(crate) fn write_all(&mut self, alloc: Global) -> Result<Answer, CoreFault>
        ensures answer { IfOk result (λ returned. returned ≡ answer_to self.old.history SendsWrites) }
        ensures entries { OnOk result (self.new ≡ record self.old { history = entries_after self.old.history SendsWrites }) }
        ensures refused { IfErr result (λ fault. fault ≢ Memory → lowest (write_faults self.old.history (owed_blocks self.old.history)) ≡ Some fault) }
        ensures early { IfSome (lowest (write_faults self.old.history (owed_blocks self.old.history))) (λ fault. result ≡ Err fault) }
        ensures unchanged { OnErr result (self.new ≡ self.old) }
    {
        let (text, blocks) = self.write_text(alloc, FRAME_BLOCKS)?;
        Ok(sent_answer(text, blocks))
    }

    /// Sends the first owed block with the next serial. Its frame is at the start of `out`, and its size is returned. Fails
    /// with the first of these: `NothingOwed` if no block is owed; `SerialsSpent` if no serial is left; `Room` with the bytes
    /// needed if `out` is too short. After a failure nothing has changed, and nothing is sent. It allocates nothing.
    #[inline(always)]
    pub fn write_into(&mut self, out: &mut [u8]) -> Result<usize, CoreFault>
        ensures written { IfOk result (HoldsWrite self.old.history out.old out.new) }
        ensures accepted { OnOk result (lowest (write_into_faults self.old.history (length out.old)) ≡ None) }
        ensures entries { OnOk result (self.new ≡ record self.old { history = entries_after self.old.history SendsWrite }) }
        ensures refused { IfErr result (λ fault. lowest (write_into_faults self.old.history (length out.old)) ≡ Some fault) }
        ensures unchanged { OnErr result (self.new ≡ self.old) }
        ensures untouched { OnErr result (out.new ≡ out.old) }
    {
        let sent = self.write_first(1, out)?;
        Ok(sent.size)
    }

    /// Sends the first owed blocks in one frame with the next serial, in the order in which they are owed: as many as the frame
    /// holds, whatever the length of `out`. The frame is at the start of `out`; its size and the number of its blocks are
    /// returned. A frame of one block is the frame that `write_into` sends. Blocks stay owed until a good answer comes, so that
    /// a call before the answer sends them again. It allocates nothing (ETG.1000.4, 5.3 and 5.4; this project's profile). It
    /// fails with the first of these that holds; nothing has changed then, and `out` is as it was:
    ///
    /// - `NothingOwed`: no block is owed.
    /// - `SerialsSpent`: no serial is left.
    /// - `Room`: `out` is shorter than the frame; the fault has the size needed.
    pub fn write_all_into(&mut self, out: &mut [u8]) -> Result<SentWrites, CoreFault>
        ensures written { IfOk result (HoldsWrites self.old.history out.old out.new) }
        ensures accepted { OnOk result (lowest (write_all_into_faults self.old.history (length out.old)) ≡ None) }
        ensures entries { OnOk result (self.new ≡ record self.old { history = entries_after self.old.history SendsWrites }) }
        ensures refused { IfErr result (λ fault. lowest (write_all_into_faults self.old.history (length out.old)) ≡ Some fault) }
        ensures unchanged { OnErr result (self.new ≡ self.old) }
        ensures untouched { OnErr result (out.new ≡ out.old) }
    {
        self.write_first(FRAME_BLOCKS, out)
    }

    /// True if an owed block is not under way.
    fn has_further(&self) -> bool
        ensures { result ≡ not (length (further_blocks self.now.history) == 0) }
    {
        next_further(&self.owed, &self.plan, &self.awaited, 0).is_some()
    }

    /// Checks that further register blocks can be sent. Fails with the first of these: `NothingOwed` if no block is owed;
    /// `UnderWay` if each owed block is under way; `SerialsSpent` if no serial is left.
    fn can_write_further(&self) -> Result<(), CoreFault>
        ensures accepted { OnOk result (lowest (further_faults self.now.history) ≡ None) }
        ensures refused { IfErr result (λ fault. lowest (further_faults self.now.history) ≡ Some fault) }
    {
        if self.owed() == 0 {
            return Err(CoreFault::NothingOwed);
        }
        if !self.has_further() {
            return Err(CoreFault::UnderWay);
        }
        if self.serial >= SETUP_SERIAL {
            return Err(CoreFault::SerialsSpent);
        }
        Ok(())
    }

    /// Sends the first owed blocks that are not under way in one frame with the next serial, in the order in which they are
    /// owed. The frame has as many blocks as it holds, whatever the length of `out`. A block is under way as long as the answer
    /// to its last write may still come; `write_all_into` sends it again. The frame is at the start of `out`; its size and the
    /// number of its blocks are returned.
    ///
    /// Earlier frames stay under way, and each answer counts for its own blocks. Exception: if a slave was forgotten since the
    /// last write, no answer to an earlier write counts any more (ETG.1000.4, 5.3 and 5.4; this project's profile).
    ///
    /// It fails with the first of these that holds; nothing has changed then, and `out` is as it was:
    ///
    /// - `NothingOwed`: no block is owed.
    /// - `UnderWay`: each owed block is under way.
    /// - `SerialsSpent`: no serial is left.
    /// - `Room`: `out` is shorter than the frame; the fault has the size needed.
    /// - `Memory`: an allocation failed.
    ///
    /// Memory for two frames of this call is allocated at the opening, and is used again. It allocates only for one more, if
    /// all of these frames are under way when it is called.
    pub fn write_further_into(
        &mut self,
        alloc: Global,
        out: &mut [u8],
    ) -> Result<SentWrites, CoreFault>
        ensures written { IfOk result (HoldsFurther self.old.history out.old out.new) }
        ensures accepted { OnOk result (lowest (further_into_faults self.old.history (length out.old)) ≡ None) }
        ensures entries { OnOk result (self.new ≡ record self.old { history = entries_after self.old.history SendsFurther }) }
        ensures refused { IfErr result (λ fault. fault ≢ Memory → lowest (further_into_faults self.old.history (length out.old)) ≡ Some fault) }
        ensures early { IfSome (lowest (further_into_faults self.old.history (length out.old))) (λ fault. result ≡ Err fault) }
        ensures unchanged { OnErr result (self.new ≡ self.old) }
        ensures untouched { OnErr result (out.new ≡ out.old) }
    {
        self.can_write_further()?;
        self.writes.clear();
        choose_further(
            &mut self.writes,
            &self.owed,
            &self.plan,
            &self.awaited,
            0,
            FRAME_BLOCKS,
        );
        let size = self.writes.size();
        if out.len() < size {
            return Err(CoreFault::Room(size));
        }
        self.awaited
            .write_further(alloc, self.serial, self.writes.blocks())?;
        self.writes.write(&mut out[..size], self.serial);
        self.history = self.history.wrote(&self.writes);
        mark_sent(&mut self.owed, self.writes.blocks());
        mark_areas(&mut self.readiness, self.writes.blocks());
        self.serial += 1;
        Ok(SentWrites {
            size,
            blocks: self.writes.blocks().len(),
        })
    }

    /// Sends further owed blocks in one frame as `write_further_into` does, in newly allocated memory. Fails as that does, but
    /// never with `Room`.
    pub(crate) fn write_further(&mut self, alloc: Global) -> Result<Answer, CoreFault>
        ensures answer { IfOk result (λ returned. returned ≡ answer_to self.old.history SendsFurther) }
        ensures entries { OnOk result (self.new ≡ record self.old { history = entries_after self.old.history SendsFurther }) }
        ensures refused { IfErr result (λ fault. fault ≢ Memory → lowest (further_faults self.old.history) ≡ Some fault) }
        ensures early { IfSome (lowest (further_faults self.old.history)) (λ fault. result ≡ Err fault) }
        ensures unchanged { OnErr result (self.new ≡ self.old) }
    {
        self.can_write_further()?;
        let mut text = Vec::from_elem(alloc, 0, 14 + usize::from(MAX_ETHERCAT))?;
        let sent = self.write_further_into(alloc, &mut text)?;
        text.truncate(sent.size);
        Ok(sent_answer(Items::of(text), sent.blocks))
    }

    /// True if the block with this number of the slave with this station address is under way: the answer to its last write may
    /// still come. It takes the time of all blocks that are under way, and it allocates nothing.
    pub fn is_under_way(&self, station: u16, number: u8) -> bool
        ensures { result ≡ is_under_way self.now.history station number }
    {
        self.awaited.is_newest_awaited(station, number)
    }
}
