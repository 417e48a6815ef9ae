//! Slaves whose FMMUs are zeros, and slaves that are off the wire.
ghost use Rattle.std.specs.Prelude.{◌≡◌, ◌≢◌, None};
ghost use Rattle.hc_records.specs.Lists.{lowest};
ghost use Rattle.hc_events.specs.Entries.{Unplugged};
ghost use Rattle.hc_events.specs.Steps.{Clears, clear_faults, unplug_faults};
ghost use Rattle.hc_c.specs.Embedded.{embedded_after, embedded_with_entry};
ghost use Rattle.hc_c.specs.Handles.{Becomes, HoldsAsBefore, IfAnswered, no_line_number};
ghost use Rattle.hc_c.specs.Numbers.{refusal_number};

use crate::handle::{Handle, with_line};
use crate::numbers::DONE;

/// Notes that the FMMUs of the declared slave with a station address are zeros now, and that no write sent to it earlier can
/// still reach it. Its registers hold up no task any more. If the slave is in the line its register blocks are owed again, and
/// answers to earlier writes confirm nothing. Returns `DONE`. It allocates nothing. Fails with one of these; then nothing has
/// changed:
///
/// - `BUSY`, `CLOSED` or `MISUSED`.
/// - `UnknownStation`, 5: no declared slave has the address.
#[unsafe(no_mangle)]
pub extern "C" fn zangjulf_cleared(handle: &mut Handle, station: u16) -> u8
    ensures answer { IfAnswered handle.old result (λ history. result ≡ refusal_number (lowest (clear_faults history station))) }
    ensures cleared { result ≡ DONE → Becomes handle.old handle.new (embedded_after (Clears station)) }
    ensures unchanged { result ≢ DONE → HoldsAsBefore handle.old handle.new }
    ensures closed { handle.old.holding.value ≡ None → result ≡ no_line_number handle.old.mark }
{
    with_line!(handle, |own| match own.core.cleared(station) {
        Ok(()) => DONE,
        Err(fault) => fault.number(),
    })
}

/// Notes that the declared slave with a station address is off the wire. It holds up no task until its group is connected
/// again. Returns `DONE`. It allocates nothing. Fails with the first of these; then nothing has changed:
///
/// - `BUSY`, `CLOSED` or `MISUSED`.
/// - `UnknownStation`, 5: no declared slave has the address.
/// - `AlreadyPresent`, 2: the slave is in the line.
#[unsafe(no_mangle)]
pub extern "C" fn zangjulf_unplugged(handle: &mut Handle, station: u16) -> u8
    ensures answer { IfAnswered handle.old result (λ history. result ≡ refusal_number (lowest (unplug_faults history station))) }
    ensures unplugged { result ≡ DONE → Becomes handle.old handle.new (embedded_with_entry (Unplugged station)) }
    ensures unchanged { result ≢ DONE → HoldsAsBefore handle.old handle.new }
    ensures closed { handle.old.holding.value ≡ None → result ≡ no_line_number handle.old.mark }
{
    with_line!(handle, |own| match own.core.unplugged(station) {
        Ok(()) => DONE,
        Err(fault) => fault.number(),
    })
}
