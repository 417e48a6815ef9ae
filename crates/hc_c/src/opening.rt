//! Opening and closing a handle.
ghost use Rattle.std.specs.Prelude.{◌≡◌, ◌≢◌, ◌⊎◌, IfErr, IfOk, IfSome, IsSome, None, OnOk, Some, false, true};
ghost use Rattle.hc_records.specs.Edits.{over_limit_task};
ghost use Rattle.hc_records.specs.Line.{line, opened};
ghost use Rattle.hc_project.specs.Text.{project_in};
ghost use Rattle.hc_c.specs.Handles.{HoldsAsBefore, no_line_number};
ghost use Rattle.hc_c.specs.Opening.{at_opening, may_open, opened_by, opening_number, over_limit_in};
ghost use Rattle.hc_c.specs.SeatImages.{EachTold};
ghost use Rattle.hc_c.specs.declared.numbers.TheConstants.{BUSY};
ghost use Rattle.hc_mail.specs.declared.image.LineState.TheVariants.{Closed};

use crate::counting::Counts;
use crate::embedded::Embedded;
use crate::handle::Handle;
use crate::handle::calls::{Calls, Entered};
use crate::numbers::{DONE, MEMORY, MISUSED, OVER_LIMIT, PROJECT};
use crate::seat::ends::OwnerEnds;
use crate::seat::showing::show_ends;
use crate::spare::Spare;
use hc_core::keeping::Core;
use hc_mail::image::LineState;
use hc_project::read_project;
use hc_records::faults::{EditFault, ProjectFault};
use hc_records::project::Project;
use std::alloc::Global;

/// The size of the options in this version, in bytes.
pub const OPTIONS_BYTES: u32 = 8;

/// The most seats of a line that only look.
pub const MOST_LOOKERS: u32 = 64;

/// The options of an opening.
#[repr(C)]
#[derive(Clone, Copy)]
pub struct Options {
    /// The size of this struct in bytes. It tells a version of the library which fields its caller knows.
    size: u32,
    /// The number of seats that only look which the line may have, at most 64.
    lookers: u32,
}

/// Returns whether a handle with a mark may be opened with these options.
fn may_open(mark: u64, options: &Options) -> bool
    ensures { result ≡ may_open mark options.now }
{
    mark == 0 && options.size == OPTIONS_BYTES && options.lookers <= MOST_LOOKERS
}

/// Opens a project in a box. Otherwise returns the number to return: `OVER_LIMIT` with the lowest task that needs more than 16
/// datagrams, or `MEMORY`.
fn open_project(
    alloc: Global,
    project: Project,
    lookers: u32,
    task: &mut u8,
) -> Result<Box<Embedded>, u8>
    ensures opened { IfOk result (λ own. own.value ≡ at_opening lookers project) }
    ensures accepted { OnOk result (over_limit_task (line (opened project)) ≡ None) }
    ensures refused { IfErr result (λ number. ((number ≡ MEMORY) × (task.new ≡ task.old)) ⊎ ((number ≡ OVER_LIMIT) × (over_limit_task (line (opened project)) ≡ Some task.new))) }
    ensures unwritten { OnOk result (task.new ≡ task.old) }
{
    let core = match Core::new(alloc, project) {
        Ok(core) => core,
        Err(EditFault::TooManyDatagrams(crowded)) => {
            *task = crowded;
            return Err(OVER_LIMIT);
        }
        Err(_) => return Err(MEMORY),
    };
    let Ok(counts) = Counts::new(alloc) else {
        return Err(MEMORY);
    };
    let Ok(spare) = Spare::new(alloc) else {
        return Err(MEMORY);
    };
    let Ok(ends) = OwnerEnds::new(alloc, lookers) else {
        return Err(MEMORY);
    };
    let line = Embedded {
        core,
        sent_from: [0; 8],
        counts,
        ends,
        spare,
        calls: Calls::none(),
    };
    match Box::new(alloc, line) {
        Ok(own) => Ok(own),
        Err(_) => Err(MEMORY),
    }
}

/// Opens the project of a text. Only the mandatory group is present, and nothing has happened yet. Returns `DONE`. It allocates
/// the line's memory. Fails with one of these; then the handle is unchanged:
///
/// - `MISUSED`: the handle is open or was never zeroed, the options have another size than 8, or ask for more than 64 seats
///   that only look.
/// - 201 to 210: the lowest fault of the project whose condition holds.
/// - `OVER_LIMIT`: a task of the opening line needs more than 16 datagrams, and `task` is the lowest such. With any other
///   answer `task` is unchanged.
/// - `MEMORY`: an allocation failed.
#[unsafe(no_mangle)]
pub extern "C" fn zangjulf_open(
    alloc: Global,
    handle: &mut Handle,
    options: &Options,
    text: &[u8],
    task: &mut u8,
) -> u8
    ensures answer { may_open handle.old.mark options.now ≡ true → result ≢ MEMORY → result ≡ opening_number (project_in text.now) }
    ensures misused { may_open handle.old.mark options.now ≡ false → result ≡ MISUSED }
    ensures opened { result ≡ DONE → handle.new.holding.value ≡ opened_by options.now.lookers (project_in text.now) }
    ensures open { result ≡ DONE → IsSome handle.new.holding.value }
    ensures crowded { result ≡ OVER_LIMIT → over_limit_in (project_in text.now) ≡ Some task.new }
    ensures unwritten { result ≢ OVER_LIMIT → task.new ≡ task.old }
    ensures unchanged { result ≢ DONE → HoldsAsBefore handle.old handle.new }
{
    if !may_open(handle.mark, options) {
        return MISUSED;
    }
    let project = match read_project(alloc, text) {
        Ok(project) => project,
        Err(ProjectFault::Memory) => return MEMORY,
        Err(fault) => return PROJECT + fault.number(),
    };
    match open_project(alloc, project, options.lookers, task) {
        Ok(own) => {
            *handle = Handle::of(own);
            DONE
        }
        Err(number) => number,
    }
}

/// Shows each seat of a line a last image, which says that the line is closed.
fn show_closed(own: &mut Embedded)
    ensures { EachTold Closed own.new.ends }
{
    show_ends(&own.core, &own.sent_from, LineState::Closed, &mut own.ends);
}

/// Shows each seat of a handle's line a last image, in the call that closes the line. The handle must hold a line.
fn tell_closed(handle: &mut Handle, entered: &Entered)
    requires { IsSome handle.old.holding.value }
    ensures last { IfSome handle.new.holding.value (λ line. EachTold Closed line.ends) }
    ensures open { IsSome handle.new.holding.value }
{
    show_closed(handle.holding.line(entered));
}

/// Closes a line and frees its memory. Each seat is shown a last image, which says that the line is closed. Returns `DONE`, and
/// the handle may be opened again. Fails with one of these; then the handle is unchanged:
///
/// - `CLOSED`: no line is open.
/// - `MISUSED`: the handle was never zeroed.
/// - `BUSY`: another call with the handle runs.
#[unsafe(no_mangle)]
pub extern "C" fn zangjulf_close(alloc: Global, handle: &mut Handle) -> u8
    ensures answer { IfSome handle.old.holding.value (λ _. result ≢ BUSY → result ≡ DONE) }
    ensures closes { result ≡ DONE → (handle.new.mark ≡ 0) × (handle.new.holding.value ≡ None) }
    ensures unchanged { result ≢ DONE → HoldsAsBefore handle.old handle.new }
    ensures closed { handle.old.holding.value ≡ None → result ≡ no_line_number handle.old.mark }
{
    let Some(entered) = handle.enter() else {
        return handle.refusal();
    };
    tell_closed(handle, &entered);
    let own = handle.take(alloc);
    entered.end_with(own);
    DONE
}
