//! `propose_within` and `send_into`: the sending of tasks into an arena, one slice of the caller's that holds their frames one
//! after another.
ghost use Rattle.std.specs.Prelude.{◌≡◌, ◌≢◌, ◌+◌, ◌<◌, ◌≤◌, ◌*◌, [], All, ◌++◌, Err, IfErr, IfOk, IfSome, None, OnErr, OnOk, Some, drop, length, sum_by, vec_capacity};
ghost use Rattle.std.specs.List.{flat_map};
ghost use Rattle.hc_records.specs.declared.limits.TheConstants.{MOST_DATAGRAMS, TASKS};
ghost use Rattle.hc_records.specs.Lists.{lowest};
ghost use Rattle.hc_frames.specs.declared.limits.TheConstants.{SETUP_SERIAL};
ghost use Rattle.hc_events.specs.declared.faults.CoreFault.TheVariants.{Memory};
ghost use Rattle.hc_events.specs.Calls.{AreSentTogether, frames_size, send_into_faults};
ghost use Rattle.hc_events.specs.Owed.{owed_blocks};
ghost use Rattle.hc_events.specs.Sendings.{sent_frame_size};
ghost use Rattle.hc_events.specs.Steps.{SendsTasks, entries_after, proposal, sent_text, task_faults};
ghost use Rattle.hc_sendings.specs.Refusals.{early_faults};
ghost use Rattle.hc_core.specs.Filled.{CanBeFilled};
ghost use Rattle.hc_core.specs.Proposed.{IsProposal};

use crate::keeping::Core;
use hc_events::faults::CoreFault;
use hc_events::sending::Sending;

/// The most bytes that a frame has, as every Ethernet frame without its check sequence (ETG.1000.4, 5.3).
pub const LARGEST_FRAME: usize = 1514;

/// The bytes of a frame.
fn size_of(frame: &Sending) -> usize
    ensures bytes { result ≡ sent_frame_size frame.now }
    ensures most { result ≤ LARGEST_FRAME }
{
    let _ = frame.datagrams();
    frame.size()
}

/// Returns the bytes of all frames together. The recursion is as deep as the list: a proposal has at most 128 frames.
pub(crate) fn size_of_all(frames: &[Sending]) -> usize
    requires { length frames.now ≤ SETUP_SERIAL }
    ensures bytes { result ≡ sum_by sent_frame_size frames.now }
    ensures most { result ≤ LARGEST_FRAME * length frames.now }
{
    match frames {
        [] => 0,
        [frame, rest @ ..] => size_of(frame) + size_of_all(rest),
    }
}

/// Fills frames one after another into a slice of their exact size. The recursion is as deep as the list: a proposal has at
/// most 128 frames.
fn fill_all(core: &Core, frames: &[Sending], out: &mut [u8])
    requires can { All (CanBeFilled core.now.history) frames.now }
    requires exact { length out.old ≡ sum_by sent_frame_size frames.now }
    ensures { out.new ≡ flat_map (sent_text core.now.history) frames.now }
{
    let Some((frame, rest)) = frames.split_first() else {
        return;
    };
    let (first, others) = out.split_at_mut(frame.size());
    core.fill(frame, first);
    fill_all(core, rest, others);
}

/// Fills frames one after another at the start of an arena. `size` is the bytes of all of them, and the arena has at least as
/// many.
pub(crate) fn fill_front(core: &Core, frames: &[Sending], size: usize, arena: &mut [u8])
    requires can { All (CanBeFilled core.now.history) frames.now }
    requires size { size ≡ sum_by sent_frame_size frames.now }
    requires room { size ≤ length arena.old }
    ensures { arena.new ≡ flat_map (sent_text core.now.history) frames.now ++ drop size arena.old }
{
    let (front, _) = arena.split_at_mut(size);
    fill_all(core, frames, front);
}

impl Core {
    /// Proposes frames as `propose_into` does, if an arena of `room` bytes holds all of them, and returns their bytes. It sends
    /// nothing. The list is emptied first and stays empty after a failure; its capacity never falls. It fails with the first of
    /// these that holds:
    ///
    /// - `NoSuchTask`: a number is over 7.
    /// - `Unprogrammed`: register blocks are owed; the fault has their number.
    /// - `SerialsSpent`: too few serials are left.
    /// - `Room`: the arena is too short; the fault has the bytes needed.
    ///
    /// It fails with `Memory` if an allocation fails, and only if neither of the first two holds.
    pub fn propose_within(
        &self,
        tasks: &[u8],
        room: usize,
        frames: &mut Vec<Sending>,
    ) -> Result<usize, CoreFault>
        requires { AreSentTogether tasks.now }
        ensures frames { OnOk result (frames.new.items ≡ proposal self.now.history tasks.now) }
        ensures present { OnOk result (IsProposal self.now.history frames.new.items) }
        ensures filled { OnOk result (All (CanBeFilled self.now.history) frames.new.items) }
        ensures few { OnOk result (length frames.new.items ≤ SETUP_SERIAL) }
        ensures size { IfOk result (λ size. size ≡ sum_by sent_frame_size frames.new.items) }
        ensures fits { IfOk result (λ size. size ≤ room) }
        ensures most { IfOk result (λ size. size ≤ LARGEST_FRAME * length frames.new.items) }
        ensures accepted { OnOk result (lowest (task_faults self.now.history tasks.now) ≡ None) }
        ensures refused { IfErr result (λ fault. fault ≢ Memory → lowest (send_into_faults self.now.history tasks.now room) ≡ Some fault) }
        ensures early { IfSome (lowest (early_faults (length (owed_blocks self.now.history)) tasks.now)) (λ fault. result ≡ Err fault) }
        ensures room { IfErr result (λ fault. fault ≡ Memory → vec_capacity frames.old < MOST_DATAGRAMS * TASKS) }
        ensures capacity { vec_capacity frames.old ≤ vec_capacity frames.new }
        ensures none { OnErr result (frames.new.items ≡ []) }
    {
        self.propose_into(tasks, frames)?;
        let needed = size_of_all(frames.as_slice());
        if room < needed {
            frames.clear();
            return Err(CoreFault::Room(needed));
        }
        Ok(needed)
    }

    /// Sends 1 to 8 distinct tasks. Their frames are at the start of the arena one after another, each of its own size, and in
    /// the list in that order. Returns the bytes of all frames; after them the arena is as it was. The earlier content of the
    /// list is dropped. It fails with the first of these that holds:
    ///
    /// - `NoSuchTask`: a number is over 7.
    /// - `Unprogrammed`: register blocks are owed; the fault has their number.
    /// - `SerialsSpent`: too few serials are left.
    /// - `Room`: the arena is too short; the fault has the bytes needed.
    ///
    /// It fails with `Memory` if an allocation fails, and only if neither of the first two holds. After a failure nothing is
    /// sent, nothing has changed, the arena is as it was, and the list is empty. A list with a capacity of 128 frames, 16 for
    /// each of the eight tasks, needs no allocation; its capacity never falls (this project's profile).
    pub fn send_into(
        &mut self,
        tasks: &[u8],
        arena: &mut [u8],
        frames: &mut Vec<Sending>,
    ) -> Result<usize, CoreFault>
        requires { AreSentTogether tasks.now }
        ensures size { IfOk result (λ size. size ≡ frames_size self.old.history tasks.now) }
        ensures frames { OnOk result (frames.new.items ≡ proposal self.old.history tasks.now) }
        ensures sent { OnOk result (arena.new ≡ flat_map (sent_text self.old.history) (proposal self.old.history tasks.now) ++ drop (frames_size self.old.history tasks.now) arena.old) }
        ensures accepted { OnOk result (lowest (send_into_faults self.old.history tasks.now (length arena.old)) ≡ None) }
        ensures entries { OnOk result (self.new ≡ record self.old { history = entries_after self.old.history (SendsTasks tasks.now) }) }
        ensures refused { IfErr result (λ fault. fault ≢ Memory → lowest (send_into_faults self.old.history tasks.now (length arena.old)) ≡ Some fault) }
        ensures early { IfSome (lowest (early_faults (length (owed_blocks self.old.history)) tasks.now)) (λ fault. result ≡ Err fault) }
        ensures room { IfErr result (λ fault. fault ≡ Memory → vec_capacity frames.old < MOST_DATAGRAMS * TASKS) }
        ensures capacity { vec_capacity frames.old ≤ vec_capacity frames.new }
        ensures unchanged { OnErr result (self.new ≡ self.old) }
        ensures untouched { OnErr result (arena.new ≡ arena.old) }
        ensures none { OnErr result (frames.new.items ≡ []) }
    {
        let size = self.propose_within(tasks, arena.len(), frames)?;
        fill_front(self, frames.as_slice(), size, arena);
        self.commit(frames.as_slice());
        Ok(size)
    }
}
