//! Posts that the owner takes from the seats.
ghost use Rattle.std.specs.Prelude.{◌≡◌, ◌≢◌, ◌+◌, ◌^◌, ◌<◌, ◌≤◌, IfSome, None, false, length};
ghost use Rattle.hc_records.specs.declared.limits.TheConstants.{TASKS};
ghost use Rattle.hc_events.specs.Steps.{answer_to, entries_after};
ghost use Rattle.hc_c.specs.Handles.{HoldsAsBefore, no_line_number};
ghost use Rattle.hc_c.specs.SeatEnds.{has_seat_from};
ghost use Rattle.hc_c.specs.TakenPosts.{TakesAll, TakesEnd, TakesFrom, TakesPosts, posting_of, is_posted};
ghost use Rattle.hc_c.specs.declared.numbers.TheConstants.{BUSY};

use crate::handle::{Handle, with_line};
use crate::numbers::DONE;
use crate::seat::ends::OwnerEnd;
use hc_core::keeping::Core;
use hc_mail::post::TaskPost;
use hc_records::limits::TASKS;

/// The tasks whose post was taken, in C: bit t stands for task t.
#[repr(C)]
#[derive(Clone, Copy)]
pub struct TakenPosts {
    /// The tasks whose post was accepted.
    accepted: u8,
    /// The tasks whose post was refused, which changed nothing.
    refused: u8,
    /// 0.
    reserved: [u8; 6],
}

/// Hands a task's post to the core, and returns whether it was accepted.
fn is_accepted(core: &mut Core, task: u8, post: &TaskPost) -> bool
    ensures core { core.new ≡ record core.old { history = entries_after core.old.history (posting_of task post.now) } }
    ensures answer { is_posted (answer_to core.old.history (posting_of task post.now)) ≡ result }
{
    match core.post_steady(task, post.epoch(), post.bytes()) {
        Ok(()) => true,
        Err(_) => false,
    }
}

/// Hands the newest post of a task's seat to the core, unless it was taken before. Returns whether it was accepted, and whether
/// it was refused.
fn take_newest(core: &mut Core, task: u8, end: &mut OwnerEnd) -> (bool, bool)
    ensures { TakesFrom task core.old core.new end.old end.new result }
{
    if end.posts.look() {
        let accepted = is_accepted(core, task, end.posts.content());
        end.is_refused = !accepted;
        return (accepted, !accepted);
    }
    (false, false)
}

/// Hands the newest post of a task's seat to the core, if the task has a seat and the seat a post that waits.
fn take_end(core: &mut Core, task: u8, end: &mut Option<OwnerEnd>) -> (bool, bool)
    ensures { TakesEnd task core.old core.new end.old end.new result }
{
    match end {
        Some(end) => take_newest(core, task, end),
        None => (false, false),
    }
}

/// Hands the newest post of each task's seat from a number on to the core; tasks beyond the list have no seat. Returns the
/// tasks whose posts were accepted, and those whose were refused. There are at most eight, which bounds the recursion.
fn take_all(core: &mut Core, task: u8, count: u8, ends: &mut [Option<OwnerEnd>]) -> (u8, u8)
    requires tasks { task + length ends.old ≤ TASKS }
    requires none { has_seat_from count ends.old ≡ false }
    ensures taken { TakesAll task core.old core.new ends.old ends.new result.0 result.1 }
    ensures below { (result.0 < 2 ^ length ends.old) × (result.1 < 2 ^ length ends.old) }
    ensures none { has_seat_from count ends.new ≡ false }
{
    if count == 0 {
        return (0, 0);
    }
    let Some((first, rest)) = ends.split_first_mut() else {
        return (0, 0);
    };
    let (accepted, refused) = take_end(core, task, first);
    let others = take_all(core, task + 1, count - 1, rest);
    (
        u8::from(accepted) + 2 * others.0,
        u8::from(refused) + 2 * others.1,
    )
}

/// Takes the newest post of each task's seat that waits, and hands it to the core as `zangjulf_post` does, task 0's first. A
/// post made before the last edit that changed its task is refused, and changes nothing. A post that is made during this call
/// may be left for the next one. It allocates nothing and waits for nobody. Returns `DONE`, and `taken` says which tasks' posts
/// were accepted and which refused. Fails with one of these; then `taken` is unchanged:
///
/// - `CLOSED` or `MISUSED`: no line is open, or the handle was never zeroed.
/// - `BUSY`: another call with the handle runs.
#[unsafe(no_mangle)]
pub extern "C" fn zangjulf_take_posts(handle: &mut Handle, taken: &mut TakenPosts) -> u8
    ensures answer { IfSome handle.old.holding.value (λ _. result ≢ BUSY → result ≡ DONE) }
    ensures taken { result ≡ DONE → IfSome handle.old.holding.value (λ old. IfSome handle.new.holding.value (TakesPosts taken.new old)) }
    ensures unchanged { result ≢ DONE → HoldsAsBefore handle.old handle.new × (taken.new ≡ taken.old) }
    ensures closed { handle.old.holding.value ≡ None → result ≡ no_line_number handle.old.mark }
{
    with_line!(handle, |own| {
        let (accepted, refused) = take_all(&mut own.core, 0, own.ends.used, &mut own.ends.by_task);
        *taken = TakenPosts {
            accepted,
            refused,
            reserved: [0; 6],
        };
        DONE
    })
}
