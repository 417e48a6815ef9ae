//! The choice of the owed register blocks that a frame carries, and their state when the frame is sent and when it is answered.
//! `writing` and `arriving` call it.
ghost use Rattle.std.specs.Prelude.{◌≡◌, [], ◌∷◌};
ghost use Rattle.hc_owed.specs.RegisterState.{register_state_of};
ghost use Rattle.hc_owed.specs.Laws.{owed_from};
ghost use Rattle.hc_core.specs.Chosen.{CanConfirm, CanMark, GivesNext, IsChosenFrom, KeepsBlocks, further_from, known_done, known_if, known_sent};

use hc_events::answer::Outcome;
use hc_owed::owed::Owed;
use hc_plan::plan::Plan;
use hc_sendings::awaited::Awaited;
use hc_sendings::write_frames::{PlacedBlock, WriteFrame};
use hc_sendings::writes::AwaitedBlock;

/// Returns the first owed block at a place or after it, with its place. None if nothing is owed from there on.
fn next_block(owed: &Owed, plan: &Plan, place: u32) -> Option<PlacedBlock>
    ensures { (kept : KeepsBlocks owed.now plan.now) → GivesNext (owed_from kept.known kept.state) kept.state place result }
{
    let found = owed.next_from(plan, place)?;
    Some(PlacedBlock {
        place: found.place,
        block: found.block,
    })
}

/// Adds the first owed blocks from a place on to a frame, in their order and each with its place: as many as fit, and at most
/// `most`. A frame has at most 74 blocks, which bounds the recursion.
fn choose(frame: &mut WriteFrame, owed: &Owed, plan: &Plan, place: u32, most: usize)
    requires { KeepsBlocks owed.now plan.now }
    ensures { (kept : KeepsBlocks owed.now plan.now) → IsChosenFrom (owed_from kept.known kept.state) kept.state place most frame.old frame.new }
{
    if most == 0 {
        return;
    }
    let Some(next) = next_block(owed, plan, place) else {
        return;
    };
    if !frame.has_room(next.block.block.bytes().len() as u16) {
        return;
    }
    let after = next.place + 1;
    frame.join(next);
    choose(frame, owed, plan, after, most - 1);
}

/// Adds the first owed block alone to a frame, if a block is owed and the frame has room for it.
#[inline(always)]
fn choose_one(frame: &mut WriteFrame, owed: &Owed, plan: &Plan)
    requires { KeepsBlocks owed.now plan.now }
    ensures { (kept : KeepsBlocks owed.now plan.now) → IsChosenFrom (owed_from kept.known kept.state) kept.state 0 1 frame.old frame.new }
{
    if let Some(next) = next_block(owed, plan, 0) {
        if frame.has_room(next.block.block.bytes().len() as u16) {
            frame.join(next);
        }
    }
}

/// Adds the first owed blocks to a frame, in their order: as many as fit, and at most `most`.
#[inline(always)]
pub(crate) fn choose_first(frame: &mut WriteFrame, owed: &Owed, plan: &Plan, most: usize)
    requires { KeepsBlocks owed.now plan.now }
    ensures { (kept : KeepsBlocks owed.now plan.now) → IsChosenFrom (owed_from kept.known kept.state) kept.state 0 most frame.old frame.new }
{
    if most == 1 {
        choose_one(frame, owed, plan);
    } else {
        choose(frame, owed, plan, 0, most);
    }
}

/// Returns the first owed block at a place or after it that is not under way, with its place. None if there is none from there
/// on.
pub(crate) fn next_further(
    owed: &Owed,
    plan: &Plan,
    awaited: &Awaited,
    place: u32,
) -> Option<PlacedBlock>
    requires { KeepsBlocks owed.now plan.now }
    ensures { (kept : KeepsBlocks owed.now plan.now) → GivesNext (further_from kept.known kept.state awaited.now) kept.state place result }
{
    let mut from = place;
    while let Some(next) = next_block(owed, plan, from) {
        if !awaited.is_newest_awaited(next.block.station, next.block.number) {
            return Some(next);
        }
        from = next.place + 1;
    }
    None
}

/// Adds the first owed blocks from a place on that are not under way to a frame, in their order and each with its place: as
/// many as fit, and at most `most`. A frame has at most 74 blocks, which bounds the recursion.
pub(crate) fn choose_further(
    frame: &mut WriteFrame,
    owed: &Owed,
    plan: &Plan,
    awaited: &Awaited,
    place: u32,
    most: usize,
)
    requires { KeepsBlocks owed.now plan.now }
    ensures { (is : KeepsBlocks owed.now plan.now) → IsChosenFrom (further_from is.known is.state awaited.now) is.state place most frame.old frame.new }
{
    if most == 0 {
        return;
    }
    let Some(next) = next_further(owed, plan, awaited, place) else {
        return;
    };
    if !frame.has_room(next.block.block.bytes().len() as u16) {
        return;
    }
    let after = next.place + 1;
    frame.join(next);
    choose_further(frame, owed, plan, awaited, after, most - 1);
}

/// Marks blocks as sent: until their answer nothing is known of their registers, and they stay owed. There are at most 74,
/// which bounds the recursion.
fn mark_each(owed: &mut Owed, blocks: &[PlacedBlock])
    requires { CanMark owed.old blocks.now }
    ensures { (can : CanMark owed.old blocks.now) → owed.new ≡ register_state_of (known_sent blocks.now can.known) can.state }
{
    if let Some((first, rest)) = blocks.split_first() {
        owed.sent(first.place);
        mark_each(owed, rest);
    }
}

/// Marks the blocks of a frame as sent. One block needs no loop.
#[inline(always)]
pub(crate) fn mark_sent(owed: &mut Owed, blocks: &[PlacedBlock])
    requires { CanMark owed.old blocks.now }
    ensures { (can : CanMark owed.old blocks.now) → owed.new ≡ register_state_of (known_sent blocks.now can.known) can.state }
{
    if let Some((block, later)) = blocks.split_first() {
        owed.sent(block.place);
        if !later.is_empty() {
            mark_each(owed, later);
        }
    }
}

/// Confirms a block if its write is done: its slave has the block's bytes, and the block is no longer owed.
fn confirm_if(owed: &mut Owed, plan: &Plan, block: &AwaitedBlock, outcome: Outcome)
    requires { CanConfirm owed.old plan.now (block.now ∷ []) }
    ensures { (can : CanConfirm owed.old plan.now (block.now ∷ [])) → owed.new ≡ register_state_of (known_if can.state block.now outcome can.known) can.state }
{
    match outcome {
        Outcome::Done => owed.confirmed(plan, block.place),
        Outcome::Inputs {
            task: _,
            datagram: _,
        } => {}
        Outcome::WrongCount {
            expected: _,
            got: _,
        } => {}
        Outcome::Stale => {}
        Outcome::Missed => {}
    }
}

/// Confirms the blocks of a frame that was answered, each by its own outcome. There are at most 74, which bounds the recursion.
pub(crate) fn confirm(owed: &mut Owed, plan: &Plan, blocks: &[AwaitedBlock], outcomes: &[Outcome])
    requires { CanConfirm owed.old plan.now blocks.now }
    ensures { (can : CanConfirm owed.old plan.now blocks.now) → owed.new ≡ register_state_of (known_done can.state blocks.now outcomes.now can.known) can.state }
{
    if let Some((block, later)) = blocks.split_first() {
        if let Some((outcome, others)) = outcomes.split_first() {
            confirm_if(owed, plan, block, *outcome);
            confirm(owed, plan, later, others);
        }
    }
}
