//! `Awaited::judge`: the judgement of an arrival by the frame or write that is awaited with its serial.
ghost use Rattle.std.specs.Prelude.{◌≡◌, ◌==◌, ◌<◌, ◌≤◌, List, [], ◌∷◌, All, IfOk, None, OnErr, Some, if◌then◌else◌, length, map, vec_capacity};
ghost use Rattle.hc_records.specs.Line.{line};
ghost use Rattle.hc_registers.specs.declared.counters.TheConstants.{WRITE_COUNT};
ghost use Rattle.hc_places.specs.Table.{datagram_of};
ghost use Rattle.hc_events.specs.declared.answer.Outcome.{Outcome};
ghost use Rattle.hc_events.specs.Accepted.{IsInLine};
ghost use Rattle.hc_events.specs.Answering.{Good, Wrong, has_head};
ghost use Rattle.hc_events.specs.Heads.{data_head};
ghost use Rattle.hc_events.specs.Outcomes.{arrived_answer};
ghost use Rattle.hc_events.specs.Sendings.{Named};
ghost use Rattle.hc_events.specs.Steps.{outcome_for, judged_answer, write_answer};
ghost use Rattle.hc_sendings.specs.declared.awaited.TheConstants.{FRAME_DATAGRAMS};
ghost use Rattle.hc_sendings.specs.Waiting.{IsTaskDatagram};
ghost use Rattle.hc_events.specs.declared.sending.TheConstants.{FRAME_BLOCKS};
ghost use Rattle.hc_sendings.specs.Judging.{block_due, frame_due, judge_due, judged_due};
ghost use Rattle.hc_sendings.specs.Stored.{frame_by};
ghost use Rattle.hc_sendings.specs.Walk.{head_of, outcomes_in, whole_or_none};

use crate::awaited::{Awaited, find_frame};
use crate::last_sent::LastSent;
use crate::stored::StoredFrame;
use crate::writes::{AwaitedBlock, any_last_sent};
use hc_events::answer::{Arrived, Outcome};
use hc_events::sending::Named;
use hc_frames::Command;
use hc_frames::reading::{Part, Returned};
use hc_places::table::Datagram;
use hc_plan::plan::Plan;
use hc_registers::counters::WRITE_COUNT;
use std::alloc::AllocError;

/// Returns the judgement of a register write of one block that came back with this working counter: `WriteDone` if it is that
/// of a write, otherwise `WriteMissed`.
fn sent_write_answer(counter: u16) -> Arrived
    ensures { (none : List Outcome) → arrived_answer result none ≡ write_answer (if counter == WRITE_COUNT then Good else Wrong) }
{
    if counter == WRITE_COUNT {
        Arrived::WriteDone
    } else {
        Arrived::WriteMissed
    }
}

impl AwaitedBlock {
    ghost use Rattle.std.specs.Prelude.{◌≡◌};
    ghost use Rattle.hc_events.specs.Answering.{has_head};
    ghost use Rattle.hc_events.specs.Steps.{outcome_for};
    ghost use Rattle.hc_sendings.specs.Judging.{block_due, judge_due, written_head};

    /// True if a datagram came back with the block's command, address and length.
    fn is_of(&self, part: &Part<'_>) -> bool
        ensures { result ≡ has_head (written_head self.now) part.now.carried }
    {
        part.command == Command::Fpwr
            && part.address == self.address
            && part.bytes.len() == self.length
    }

    /// Returns the outcome of the block's datagram, which came back with its head: `Stale` if the block was sent again since or
    /// its slave was forgotten, otherwise `Done` or `Missed` by its working counter.
    fn judge(&self, part: &Part<'_>) -> Outcome
        ensures { result ≡ outcome_for (judge_due (block_due self.now, part.now.carried)) }
    {
        if !self.last_sent {
            return Outcome::Stale;
        }
        if part.counter == WRITE_COUNT {
            Outcome::Done
        } else {
            Outcome::Missed
        }
    }
}

/// Returns the judgement of an arrival with the serial of a write of one block.
fn judge_one(block: &AwaitedBlock, arrival: &Returned<'_>) -> Arrived
    ensures { (none : List Outcome) → arrived_answer result none ≡ judged_answer (judged_due arrival.now (block_due block.now ∷ [])) }
{
    let mut parts = arrival.parts();
    let Some(part) = parts.next() else {
        return Arrived::Stale;
    };
    if parts.next().is_some() || !block.is_of(&part) || !block.last_sent {
        return Arrived::Stale;
    }
    sent_write_answer(part.counter)
}

/// Puts the outcomes of a write's blocks, which came back as this arrival, into an empty list, in one walk over both. Returns
/// true if all are there, and false if a datagram is missing or left over, or came back with another command, address or
/// length. Fails with `AllocError` if an allocation fails.
#[inline(never)]
fn judge_blocks(
    blocks: &[AwaitedBlock],
    arrival: &Returned<'_>,
    outcomes: &mut Vec<Outcome>,
) -> Result<bool, AllocError>
    requires few { length blocks.now ≤ FRAME_BLOCKS }
    requires empty { outcomes.old.items ≡ [] }
    ensures outcomes { IfOk result (λ whole. (if whole then Some outcomes.new.items else None) ≡ outcomes_in (map block_due blocks.now) arrival.now.parts) }
    ensures room { OnErr result (vec_capacity outcomes.old < FRAME_DATAGRAMS) }
    ensures capacity { vec_capacity outcomes.old ≤ vec_capacity outcomes.new }
    ensures none { OnErr result (outcomes.new.items ≡ []) }
{
    outcomes.reserve(blocks.len())?;
    let mut came = arrival.parts();
    for block in blocks {
        let Some(part) = came.next() else {
            return Ok(false);
        };
        if !block.is_of(&part) {
            return Ok(false);
        }
        outcomes.push_reserved(block.judge(&part));
    }
    Ok(came.next().is_none())
}

/// Returns the judgement of an arrival with the serial of a write of these blocks, as `Awaited::judge` does.
#[inline(always)]
fn judge_write(
    blocks: &[AwaitedBlock],
    arrival: &Returned<'_>,
    outcomes: &mut Vec<Outcome>,
) -> Result<Arrived, AllocError>
    requires few { length blocks.now ≤ FRAME_BLOCKS }
    requires empty { outcomes.old.items ≡ [] }
    ensures answer { IfOk result (λ arrived. arrived_answer arrived outcomes.new.items ≡ judged_answer (judged_due arrival.now (map block_due blocks.now))) }
    ensures room { OnErr result (vec_capacity outcomes.old < FRAME_DATAGRAMS) }
    ensures capacity { vec_capacity outcomes.old ≤ vec_capacity outcomes.new }
    ensures none { OnErr result (outcomes.new.items ≡ []) }
{
    if blocks.len() == 1 {
        return Ok(judge_one(&blocks[0], arrival));
    }
    if judge_blocks(blocks, arrival, outcomes)? && any_last_sent(blocks) {
        Ok(Arrived::Written)
    } else {
        Ok(Arrived::Stale)
    }
}

/// True if a datagram came back with the command, the address and the length of this one.
fn is_of(part: &Part<'_>, sent: Datagram) -> bool
    ensures { (named : Named) → result ≡ has_head (head_of named sent) part.now.carried }
{
    part.command == Command::Lrw
        && part.address == sent.address
        && part.bytes.len() == usize::from(sent.length)
}

/// Returns the outcome of a datagram that came back with its head: `Stale` if it was sent again since, otherwise `Inputs` or
/// `WrongCount` by its working counter.
fn judge(datagram: Named, sent: Datagram, is_last_sent: bool, part: &Part<'_>) -> Outcome
    ensures { result ≡ outcome_for (judge_due (record { head = head_of datagram sent; last_sent = is_last_sent }, part.now.carried)) }
{
    if !is_last_sent {
        return Outcome::Stale;
    }
    if part.counter != sent.expected {
        return Outcome::WrongCount {
            expected: sent.expected,
            got: part.counter,
        };
    }
    Outcome::Inputs {
        task: datagram.0,
        datagram: datagram.1,
    }
}

/// Returns the datagram of the plan's line, if it came back with its command, its address and its length.
fn sent_datagram(plan: &Plan, datagram: Named, part: &Part<'_>) -> Option<Datagram>
    requires named { IsTaskDatagram datagram }
    requires in_line { IsInLine (line plan.now) datagram }
    ensures { result ≡ (if has_head (data_head (line plan.now) datagram) part.now.carried then Some (datagram_of (line plan.now) datagram.0 datagram.1) else None) }
{
    let sent = plan.places().datagram(datagram.0, datagram.1)?;
    if is_of(part, sent) { Some(sent) } else { None }
}

/// Puts the outcomes of a frame's datagrams, which came back as this arrival, into an empty list, in one walk over both.
/// Returns true if all are there, and false if a datagram is missing or left over, or came back with another command, address
/// or length. Fails with `AllocError` if an allocation fails.
#[inline(always)]
fn judge_parts(
    plan: &Plan,
    last_sent: &LastSent,
    frame: &StoredFrame,
    arrival: &Returned<'_>,
    outcomes: &mut Vec<Outcome>,
) -> Result<bool, AllocError>
    requires named { All IsTaskDatagram frame.now.datagrams }
    requires in_line { All (IsInLine (line plan.now)) frame.now.datagrams }
    requires empty { outcomes.old.items ≡ [] }
    ensures outcomes { IfOk result (λ whole. whole_or_none whole outcomes.new.items ≡ outcomes_in (frame_due (line plan.now) (frame_by last_sent.now frame.now)) arrival.now.parts) }
    ensures room { OnErr result (vec_capacity outcomes.old < FRAME_DATAGRAMS) }
    ensures capacity { vec_capacity outcomes.old ≤ vec_capacity outcomes.new }
    ensures none { OnErr result (outcomes.new.items ≡ []) }
{
    outcomes.reserve(frame.datagrams().len())?;
    let mut parts = arrival.parts();
    for datagram in frame.datagrams() {
        let Some(part) = parts.next() else {
            return Ok(false);
        };
        let Some(sent) = sent_datagram(plan, *datagram, &part) else {
            return Ok(false);
        };
        let is_last_sent = last_sent.is(frame.serial(), *datagram);
        outcomes.push_reserved(judge(*datagram, sent, is_last_sent, &part));
    }
    Ok(parts.next().is_none())
}

impl Awaited {
    ghost use Rattle.std.specs.Prelude.{◌≡◌, ◌<◌, ◌≤◌, [], IfOk, OnErr, vec_capacity};
    ghost use Rattle.hc_records.specs.Line.{line};
    ghost use Rattle.hc_events.specs.Outcomes.{arrived_answer};
    ghost use Rattle.hc_events.specs.Steps.{judged_answer};
    ghost use Rattle.hc_sendings.specs.declared.awaited.TheConstants.{FRAME_DATAGRAMS};
    ghost use Rattle.hc_sendings.specs.Waiting.{AllAreInLine};
    ghost use Rattle.hc_sendings.specs.Judging.{judged_in};

    /// Judges an arrival by the frame or write that is awaited with its serial. The awaited frames are of the plan's line. The
    /// results are:
    ///
    /// - `Stale`: nothing is awaited with its serial, or a datagram is missing or left over, or came back with another command,
    ///   address or length.
    /// - `WriteDone` and `WriteMissed`: it answers a register write of one block, by its working counter.
    /// - `Answered`: it answers a frame of tasks.
    /// - `Written`: it answers a write of several blocks.
    ///
    /// With `Answered` and `Written` the list, which is empty before, has the outcome of each datagram in the frame's order:
    /// stale if it was sent again since or its slave was forgotten, otherwise good or wrong by its working counter. It
    /// allocates only if the list's capacity is less than the frame's datagrams, at most 115. Fails with `AllocError` if the
    /// allocation fails; the list is then empty. Its capacity never falls.
    #[inline(always)]
    pub fn judge(
        &self,
        plan: &Plan,
        arrival: &Returned<'_>,
        outcomes: &mut Vec<Outcome>,
    ) -> Result<Arrived, AllocError>
        requires in_line { AllAreInLine (line plan.now) self.now }
        requires empty { outcomes.old.items ≡ [] }
        ensures answer { IfOk result (λ arrived. arrived_answer arrived outcomes.new.items ≡ judged_answer (judged_in (line plan.now) self.now arrival.now)) }
        ensures room { OnErr result (vec_capacity outcomes.old < FRAME_DATAGRAMS) }
        ensures capacity { vec_capacity outcomes.old ≤ vec_capacity outcomes.new }
        ensures none { OnErr result (outcomes.new.items ≡ []) }
    {
        if let Some(blocks) = self.find_write(arrival.serial()) {
            return judge_write(blocks, arrival, outcomes);
        }
        let found = find_frame(&self.last_sent, self.frames.as_slice(), arrival.serial());
        let Some(frame) = found else {
            return Ok(Arrived::Stale);
        };
        if judge_parts(plan, &self.last_sent, frame, arrival, outcomes)? {
            Ok(Arrived::Answered)
        } else {
            Ok(Arrived::Stale)
        }
    }
}
