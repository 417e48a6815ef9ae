//! The share of a slave in an expected working counter.
ghost use Rattle.std.specs.Prelude.{◌≡◌, ◌≢◌, None};
ghost use Rattle.hc_c.specs.Shares.{slave_share};
ghost use Rattle.hc_c.specs.Handles.{GivesFound, HoldsAsBefore, IfAnswered, no_line_number};

use crate::handle::{Handle, with_line};
use crate::numbers::{DONE, NOTHING};
use hc_core::keeping::Core;

/// Returns the share of the slave with a station address in the working counter of a datagram of the present line.
fn slave_share(core: &Core, task: u8, datagram: u8, station: u16) -> Option<u16>
    ensures { result ≡ slave_share core.now.history task datagram station }
{
    core.plan().counter_share(task, datagram, station)
}

/// Reads the share of the slave with a station address in the expected working counter of a task's datagram: 2 if the datagram
/// carries outputs of the slave, plus 1 if it carries inputs (ETG.1000.4, 5.4). The shares of all slaves of the line add up to
/// the expected counter. Returns `DONE`. It allocates nothing. Fails with one of these; then `expected` is unchanged:
///
/// - `BUSY`, `CLOSED` or `MISUSED`.
/// - `NOTHING`: the task has no such datagram or is over 7, or the slave is not in the line.
#[unsafe(no_mangle)]
pub extern "C" fn zangjulf_expected_of(
    handle: &mut Handle,
    task: u8,
    datagram: u8,
    station: u16,
    expected: &mut u16,
) -> u8
    ensures answer { IfAnswered handle.old result (λ history. GivesFound (slave_share history task datagram station) (λ found. found) result expected.new) }
    ensures unchanged { HoldsAsBefore handle.old handle.new }
    ensures untouched { result ≢ DONE → expected.new ≡ expected.old }
    ensures closed { handle.old.holding.value ≡ None → (result ≡ no_line_number handle.old.mark) × (expected.new ≡ expected.old) }
{
    with_line!(
        handle,
        |own| match slave_share(&own.core, task, datagram, station) {
            Some(found) => {
                *expected = found;
                DONE
            }
            None => NOTHING,
        }
    )
}
