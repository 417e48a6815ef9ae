//! `propose_into` and `preview`: the frames of the next sending, which use no serial yet.
ghost use Rattle.std.specs.Prelude.{◌≡◌, ◌≢◌, ◌<◌, ◌≤◌, ◌+◌, ◌*◌, [], All, Err, IfErr, IfSome, None, OnErr, OnOk, Some, length, ◌&&◌, nat_lt, vec_capacity};
ghost use Rattle.std.specs.List.{list_any};
ghost use Rattle.hc_records.specs.Line.{line};
ghost use Rattle.hc_records.specs.Lists.{lowest};
ghost use Rattle.hc_frames.specs.declared.limits.TheConstants.{SETUP_SERIAL};
ghost use Rattle.hc_records.specs.declared.limits.TheConstants.{MOST_DATAGRAMS, TASKS};
ghost use Rattle.hc_events.specs.declared.faults.CoreFault.TheVariants.{Memory, SerialsSpent};
ghost use Rattle.hc_events.specs.Accepted.{IsInLine};
ghost use Rattle.hc_events.specs.Calls.{AreSentTogether};
ghost use Rattle.hc_events.specs.Sendings.{sendings_of};
ghost use Rattle.hc_events.specs.Steps.{is_no_task, serials_left};
ghost use Rattle.hc_sendings.specs.Refusals.{early_faults, sending_faults};
ghost use Rattle.hc_sendings.specs.Previews.{preview_in};

use crate::framing::put_frames;
use hc_events::faults::CoreFault;
use hc_events::sending::Sending;
use hc_frames::limits::SETUP_SERIAL;
use hc_plan::plan::Plan;
use hc_records::limits::TASKS;

/// True if one of these numbers is over 7, so that no task has it.
fn names_no_task(tasks: &[u8]) -> bool
    ensures { result ≡ list_any is_no_task tasks.now }
{
    tasks.iter().any(|task| !(*task < TASKS))
}

/// Checks tasks before any frame is planned. Fails with `NoSuchTask` if a number is over 7, otherwise with `Unprogrammed` if
/// register blocks are owed, `owed` of them.
fn refuse_early(owed: u32, tasks: &[u8]) -> Result<(), CoreFault>
    ensures passed { OnOk result (lowest (early_faults owed tasks.now) ≡ None) }
    ensures refused { IfErr result (λ fault. lowest (early_faults owed tasks.now) ≡ Some fault) }
{
    if names_no_task(tasks) {
        return Err(CoreFault::NoSuchTask);
    }
    if owed > 0 {
        return Err(CoreFault::Unprogrammed(owed));
    }
    Ok(())
}

/// Puts the frames of tasks into an empty list. Fails with `SerialsSpent` if too few serials are left, or with `Memory` if an
/// allocation fails.
#[inline(always)]
fn plan_frames(
    plan: &Plan,
    serial: u64,
    tasks: &[u8],
    frames: &mut Vec<Sending>,
) -> Result<(), CoreFault>
    requires serial { serial ≤ SETUP_SERIAL }
    requires few { length tasks.now ≤ TASKS }
    requires empty { frames.old.items ≡ [] }
    ensures frames { OnOk result (frames.new.items ≡ sendings_of (line plan.now) serial tasks.now) }
    ensures in_line { OnOk result (All (λ frame. All (IsInLine (line plan.now)) frame.datagrams) frames.new.items) }
    ensures left { OnOk result (serial + length frames.new.items ≤ SETUP_SERIAL) }
    ensures refused { IfErr result (λ fault. fault ≢ Memory → (fault ≡ SerialsSpent) × (SETUP_SERIAL < serial + length (sendings_of (line plan.now) serial tasks.now))) }
    ensures room { IfErr result (λ fault. fault ≡ Memory → vec_capacity frames.old < MOST_DATAGRAMS * TASKS) }
    ensures capacity { vec_capacity frames.old ≤ vec_capacity frames.new }
{
    put_frames(plan, serial, tasks, frames)?;
    if SETUP_SERIAL < serial + frames.len() as u64 {
        return Err(CoreFault::SerialsSpent);
    }
    Ok(())
}

/// Proposes the frames in which 1 to 8 distinct tasks are sent by a plan, with serials from `serial` on, which is at most the
/// serial of alias reads and station writes. The datagrams are in the tasks' order; each joins the frame before it if that has
/// room, otherwise it begins a frame. There is no frame if the tasks have no datagram. The datagrams are the line's, and the
/// serials are below the serial of alias reads and station writes.
///
/// The frames are put into a list that is used again. Its earlier content is dropped, it is empty after a failure, and its
/// capacity never falls. It allocates only if that capacity is less than the datagrams of the tasks: with a capacity of 128, 16
/// for each of the eight tasks, it allocates nothing (this project's profile). It fails with the first of these that holds:
///
/// - `NoSuchTask`: a number is over 7.
/// - `Unprogrammed`: register blocks are owed, `owed` of them.
/// - `SerialsSpent`: the frames need more serials than are left.
///
/// It fails with `Memory` if an allocation fails, and only if neither of the first two holds.
#[inline(always)]
pub fn propose_into(
    plan: &Plan,
    serial: u64,
    owed: u32,
    tasks: &[u8],
    frames: &mut Vec<Sending>,
) -> Result<(), CoreFault>
    requires serial { serial ≤ SETUP_SERIAL }
    requires together { AreSentTogether tasks.now }
    ensures frames { OnOk result (frames.new.items ≡ sendings_of (line plan.now) serial tasks.now) }
    ensures in_line { OnOk result (All (λ frame. All (IsInLine (line plan.now)) frame.datagrams) frames.new.items) }
    ensures left { OnOk result (serial + length frames.new.items ≤ SETUP_SERIAL) }
    ensures accepted { OnOk result (lowest (sending_faults (line plan.now) serial owed tasks.now) ≡ None) }
    ensures refused { IfErr result (λ fault. fault ≢ Memory → lowest (sending_faults (line plan.now) serial owed tasks.now) ≡ Some fault) }
    ensures early { IfSome (lowest (early_faults owed tasks.now)) (λ fault. result ≡ Err fault) }
    ensures room { IfErr result (λ fault. fault ≡ Memory → vec_capacity frames.old < MOST_DATAGRAMS * TASKS) }
    ensures capacity { vec_capacity frames.old ≤ vec_capacity frames.new }
    ensures none { OnErr result (frames.new.items ≡ []) }
{
    frames.clear();
    refuse_early(owed, tasks)?;
    let planned = plan_frames(plan, serial, tasks, frames);
    if planned.is_err() {
        frames.clear();
    }
    planned
}

/// True if a task with `count` datagrams has the datagram with this number, and a serial is left.
fn is_sendable(serial: u64, count: usize, number: u8) -> bool
    requires { serial ≤ SETUP_SERIAL }
    ensures { result ≡ (nat_lt number count && serials_left serial 1) }
{
    usize::from(number) < count && serial < SETUP_SERIAL
}

/// Returns the frame of one datagram of a task alone, as it would be sent next by a plan, even if blocks are owed. Its serial
/// is the next one, which is at most the serial of alias reads and station writes. None if the task has no such datagram, if
/// there is no such task, or if no serial is left. It allocates nothing.
pub fn preview(plan: &Plan, serial: u64, task: u8, number: u8) -> Option<Sending>
    requires { serial ≤ SETUP_SERIAL }
    ensures { result ≡ preview_in (line plan.now) serial task number }
{
    let datagrams = plan.places().datagrams(task);
    if !is_sendable(serial, datagrams.len(), number) {
        return None;
    }
    let length = datagrams[usize::from(number)].length;
    Some(Sending::of(serial, (task, number), length))
}
