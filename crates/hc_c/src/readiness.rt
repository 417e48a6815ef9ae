//! Ready tasks, and the slaves that hold up the others.
ghost use Rattle.std.specs.Prelude.{◌≡◌, ◌≢◌, IfSome, None};
ghost use Rattle.hc_events.specs.Ready.{ready_mask};
ghost use Rattle.hc_c.specs.Embedded.{embedded_history};
ghost use Rattle.hc_c.specs.Handles.{GivesFound, HoldsAsBefore, IfAnswered, no_line_number};
ghost use Rattle.hc_c.specs.Readiness.{holder_of};
ghost use Rattle.hc_c.specs.declared.numbers.TheConstants.{BUSY};

use crate::handle::{Handle, with_line};
use crate::numbers::{DONE, NOTHING};
use hc_core::keeping::Core;
use hc_records::limits::TASKS;

/// Reads which tasks are ready: bit t is 1 if task t is ready. Returns `DONE`. It allocates nothing. Fails with `BUSY`,
/// `CLOSED` or `MISUSED`.
#[unsafe(no_mangle)]
pub extern "C" fn zangjulf_ready(handle: &mut Handle, tasks: &mut u8) -> u8
    ensures answer { IfSome handle.old.holding.value (λ old. result ≢ BUSY → (result ≡ DONE) × (tasks.new ≡ ready_mask (embedded_history old))) }
    ensures unchanged { HoldsAsBefore handle.old handle.new }
    ensures busy { result ≡ BUSY → tasks.new ≡ tasks.old }
    ensures closed { handle.old.holding.value ≡ None → (result ≡ no_line_number handle.old.mark) × (tasks.new ≡ tasks.old) }
{
    with_line!(handle, |own| {
        *tasks = own.core.ready();
        DONE
    })
}

/// Returns the slave with a number, from 0, among those that hold up a task; none for a task over 7.
fn holder(core: &Core, task: u8, number: u32) -> Option<u16>
    ensures { result ≡ holder_of core.now.history task number }
{
    if task >= TASKS {
        return None;
    }
    core.held_by(task, number)
}

/// Reads the station address of the slave with a number, from 0, among those that hold up a task: first those of the line, in
/// line order, then those outside it, in declared order. Returns `DONE`. It allocates nothing. Fails with one of these; then
/// `station` is unchanged:
///
/// - `BUSY`, `CLOSED` or `MISUSED`.
/// - `NOTHING`: fewer slaves hold up the task, or it is over 7.
#[unsafe(no_mangle)]
pub extern "C" fn zangjulf_held_by(
    handle: &mut Handle,
    task: u8,
    number: u32,
    station: &mut u16,
) -> u8
    ensures answer { IfAnswered handle.old result (λ history. GivesFound (holder_of history task number) (λ found. found) result station.new) }
    ensures unchanged { HoldsAsBefore handle.old handle.new }
    ensures untouched { result ≢ DONE → station.new ≡ station.old }
    ensures closed { handle.old.holding.value ≡ None → (result ≡ no_line_number handle.old.mark) × (station.new ≡ station.old) }
{
    with_line!(handle, |own| match holder(&own.core, task, number) {
        Some(found) => {
            *station = found;
            DONE
        }
        None => NOTHING,
    })
}
