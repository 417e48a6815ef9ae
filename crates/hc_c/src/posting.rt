//! Posts of tasks.
ghost use Rattle.std.specs.Prelude.{◌≡◌, ◌≢◌, None};
ghost use Rattle.hc_records.specs.Lists.{lowest};
ghost use Rattle.hc_events.specs.Entries.{Posted};
ghost use Rattle.hc_events.specs.Steps.{post_steady_faults};
ghost use Rattle.hc_c.specs.Embedded.{embedded_with_entry};
ghost use Rattle.hc_c.specs.Numbers.{refusal_number};
ghost use Rattle.hc_c.specs.Handles.{Becomes, HoldsAsBefore, IfAnswered, no_line_number};

use crate::handle::{Handle, with_line};
use crate::numbers::DONE;

/// Posts the outputs of a task, 0 to 7, for an epoch: as many bytes as the task has outputs (this project's profile). The bytes
/// are sent from now on. Returns `DONE`. It allocates nothing. Fails with the first of these; then nothing has changed:
///
/// - `BUSY`, `CLOSED` or `MISUSED`.
/// - `NoSuchTask`, 8: the task is over 7.
/// - `STALE_POST`, 15: the epoch is before the last edit that changed the task, or above the present one.
/// - `PostLength`, 16: there are more or fewer bytes than the task has outputs.
#[unsafe(no_mangle)]
pub extern "C" fn zangjulf_post(handle: &mut Handle, task: u8, epoch: u32, bytes: &[u8]) -> u8
    ensures answer { IfAnswered handle.old result (λ history. result ≡ refusal_number (lowest (post_steady_faults history task epoch bytes.now))) }
    ensures posted { result ≡ DONE → Becomes handle.old handle.new (embedded_with_entry (Posted task bytes.now)) }
    ensures unchanged { result ≢ DONE → HoldsAsBefore handle.old handle.new }
    ensures closed { handle.old.holding.value ≡ None → result ≡ no_line_number handle.old.mark }
{
    with_line!(
        handle,
        |own| match own.core.post_steady(task, epoch, bytes) {
            Ok(()) => DONE,
            Err(fault) => fault.number(),
        }
    )
}
