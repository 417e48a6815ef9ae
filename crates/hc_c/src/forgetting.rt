//! Slaves that may have lost their registers.
ghost use Rattle.std.specs.Prelude.{◌≡◌, ◌≢◌, None};
ghost use Rattle.hc_records.specs.Lists.{lowest};
ghost use Rattle.hc_events.specs.Entries.{Forgot};
ghost use Rattle.hc_events.specs.Steps.{forget_faults};
ghost use Rattle.hc_c.specs.Embedded.{embedded_with_entry};
ghost use Rattle.hc_c.specs.Numbers.{refusal_number};
ghost use Rattle.hc_c.specs.Handles.{Becomes, HoldsAsBefore, IfAnswered, no_line_number};

use crate::handle::{Handle, with_line};
use crate::numbers::DONE;

/// Notes that the slave with a station address may have lost its registers, for example by losing power. Its register blocks
/// are owed again, and answers to earlier writes confirm nothing. Returns `DONE`. It allocates nothing. Fails with the first of
/// these; then nothing has changed:
///
/// - `BUSY`, `CLOSED` or `MISUSED`.
/// - `UnknownStation`, 5: no declared slave has the address.
/// - `Absent`, 6: the slave is not in the line.
#[unsafe(no_mangle)]
pub extern "C" fn zangjulf_slave_lost(handle: &mut Handle, station: u16) -> u8
    ensures answer { IfAnswered handle.old result (λ history. result ≡ refusal_number (lowest (forget_faults history station))) }
    ensures lost { result ≡ DONE → Becomes handle.old handle.new (embedded_with_entry (Forgot station)) }
    ensures unchanged { result ≢ DONE → HoldsAsBefore handle.old handle.new }
    ensures closed { handle.old.holding.value ≡ None → result ≡ no_line_number handle.old.mark }
{
    with_line!(handle, |own| match own.core.forget(station) {
        Ok(()) => DONE,
        Err(fault) => fault.number(),
    })
}
