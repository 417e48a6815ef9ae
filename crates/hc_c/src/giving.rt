//! Numbers of a line: epoch, next serial, owed register blocks.
ghost use Rattle.std.specs.Prelude.{◌≡◌, ◌≢◌, IfSome, None, length};
ghost use Rattle.hc_events.specs.Owed.{owed_blocks};
ghost use Rattle.hc_events.specs.Points.{epoch_of, next_serial};
ghost use Rattle.hc_c.specs.Handles.{HoldsAsBefore, no_line_number};
ghost use Rattle.hc_c.specs.Embedded.{embedded_history};
ghost use Rattle.hc_c.specs.declared.numbers.TheConstants.{BUSY};

use crate::handle::{Handle, with_line};
use crate::numbers::DONE;

/// Reads the epoch, which is the number of accepted edits. Returns `DONE`. Fails with `BUSY`, `CLOSED` or `MISUSED`.
#[unsafe(no_mangle)]
pub extern "C" fn zangjulf_epoch(handle: &mut Handle, epoch: &mut u32) -> u8
    ensures answer { IfSome handle.old.holding.value (λ old. result ≢ BUSY → (result ≡ DONE) × (epoch.new ≡ epoch_of (embedded_history old))) }
    ensures unchanged { HoldsAsBefore handle.old handle.new }
    ensures busy { result ≡ BUSY → epoch.new ≡ epoch.old }
    ensures closed { handle.old.holding.value ≡ None → (result ≡ no_line_number handle.old.mark) × (epoch.new ≡ epoch.old) }
{
    with_line!(handle, |own| {
        *epoch = own.core.plan().epoch();
        DONE
    })
}

/// Reads the serial of the next frame, which is the number of frames sent before it. Returns `DONE`. Fails with `BUSY`,
/// `CLOSED` or `MISUSED`.
#[unsafe(no_mangle)]
pub extern "C" fn zangjulf_next_serial(handle: &mut Handle, serial: &mut u64) -> u8
    ensures answer { IfSome handle.old.holding.value (λ old. result ≢ BUSY → (result ≡ DONE) × (serial.new ≡ next_serial (embedded_history old))) }
    ensures unchanged { HoldsAsBefore handle.old handle.new }
    ensures busy { result ≡ BUSY → serial.new ≡ serial.old }
    ensures closed { handle.old.holding.value ≡ None → (result ≡ no_line_number handle.old.mark) × (serial.new ≡ serial.old) }
{
    with_line!(handle, |own| {
        *serial = own.core.next_serial();
        DONE
    })
}

/// Reads the number of owed register blocks of the present line. Returns `DONE`. Fails with `BUSY`, `CLOSED` or `MISUSED`.
#[unsafe(no_mangle)]
pub extern "C" fn zangjulf_owed(handle: &mut Handle, count: &mut u32) -> u8
    ensures answer { IfSome handle.old.holding.value (λ old. result ≢ BUSY → (result ≡ DONE) × (count.new ≡ length (owed_blocks (embedded_history old)))) }
    ensures unchanged { HoldsAsBefore handle.old handle.new }
    ensures busy { result ≡ BUSY → count.new ≡ count.old }
    ensures closed { handle.old.holding.value ≡ None → (result ≡ no_line_number handle.old.mark) × (count.new ≡ count.old) }
{
    with_line!(handle, |own| {
        *count = own.core.owed();
        DONE
    })
}
