//! Groups that are declared while the line runs.
ghost use Rattle.std.specs.Prelude.{◌≡◌, None, is_some};
ghost use Rattle.hc_project.specs.Text.{group_in};
ghost use Rattle.hc_c.specs.Groups.{Declares};
ghost use Rattle.hc_c.specs.declared.numbers.TheConstants.{BUSY};
ghost use Rattle.hc_c.specs.Handles.{HoldsAsBefore, IfServedBoth, no_line_number};

use crate::editing::{Cost, serve};
use crate::embedded::Embedded;
use crate::handle::{Handle, with_line};
use crate::numbers::{MEMORY, PROJECT};
use hc_project::read_group;
use hc_records::edit::Edit;
use hc_records::faults::ProjectFault;
use std::alloc::Global;

/// Declares the group of a text, unless C only asks. Returns `DONE`, the fault of the edit, or the fault of the text.
fn serve_text(own: &mut Embedded, alloc: Global, text: &[u8], asks: bool, cost: &mut Cost) -> u8
    ensures { Declares (group_in text.now) own.old own.new asks result cost.old cost.new }
{
    match read_group(alloc, text) {
        Ok(group) => serve(own, alloc, &Edit::Declare(group), asks, cost),
        Err(ProjectFault::Memory) => MEMORY,
        Err(fault) => PROJECT + fault.number(),
    }
}

/// Declares the group of a text, after the declared ones; it is absent from the line. With `asks` nothing is declared, and only
/// the answer is returned. The text is a project with exactly one group and no mandatory slave. Returns `DONE`, and `cost` has
/// the epoch that begins with the edit. Fails with one of these; then nothing has changed and `cost` is unchanged:
///
/// - `BUSY`, `CLOSED` or `MISUSED`.
/// - 201 to 210, the lowest fault of the text, or after these 212 if it is a project but not of one group. The text is judged
///   first.
/// - The lowest that holds of `EpochsSpent`, 13, and `AliasTaken` to `TooManySlaves`, 31 to 35.
/// - `MEMORY`: an allocation failed.
#[unsafe(no_mangle)]
pub extern "C" fn zangjulf_declare(
    alloc: Global,
    handle: &mut Handle,
    text: &[u8],
    asks: bool,
    cost: &mut Cost,
) -> u8
    ensures serves { IfServedBoth handle.old handle.new result (λ old new. Declares (group_in text.now) old new asks result cost.old cost.new) }
    ensures held { handle.new.mark ≡ handle.old.mark }
    ensures busy { result ≡ BUSY → HoldsAsBefore handle.old handle.new × (cost.new ≡ cost.old) }
    ensures closed { handle.old.holding.value ≡ None → (result ≡ no_line_number handle.old.mark) × (cost.new ≡ cost.old) }
{
    with_line!(handle, |own| serve_text(own, alloc, text, asks, cost))
}
