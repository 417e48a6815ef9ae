//! The command `view`.
ghost use Rattle.std.specs.Prelude.{◌≡◌, ◌++◌, IfErr, OnOk, Result, string_bytes};
ghost use Rattle.hc_program.specs.Stops.{Unviewed};
ghost use Rattle.hc_program.specs.Views.{value_text, view_fault_name, view_fault_text, view_text, viewed_text};

use crate::refusals::push_refusal;
use crate::session::Session;
use crate::stops::Stop;
use hc_conductor::one_thread::viewing::Viewed;
use hc_events::faults::CoreFault;
use hc_publish::view_faults::ViewFault;
use hc_records::limits::TASKS;
use std::alloc::AllocError;

/// Appends a task's view of a variable: the epoch and the value, or the fault, or the refusal of a task over 7. Returns a
/// `Stop` if an allocation fails or the task's seat gets no view; then `out` may have a prefix of the line.
#[tactic(auto, unfolding(crate::specs::Views::view_text))]
pub fn reply(task: u8, variable: u32, session: &mut Session, out: &mut String) -> Result<(), Stop>
    ensures text { OnOk result (string_bytes out.new ≡ string_bytes out.old ++ view_text session.old.seen task variable) }
    ensures next { OnOk result (session.new ≡ session.old) }
    ensures stops { IfErr result (λ stop. Unviewed session.old stop session.new) }
{
    if task >= TASKS {
        return Ok(push_refusal(CoreFault::NoSuchTask, out)?);
    }
    let viewed = session.view(task, variable)?;
    Ok(push_viewed(viewed, variable, out)?)
}

/// Appends the epoch and the value of a view, or the fault.
fn push_viewed(viewed: Viewed, variable: u32, out: &mut String) -> Result<(), AllocError>
    ensures { OnOk result (string_bytes out.new ≡ string_bytes out.old ++ viewed_text viewed.epoch variable viewed.value) }
{
    match viewed.value {
        Ok(value) => push_value(viewed.epoch, variable, value, out),
        Err(fault) => push_view_fault(fault, out),
    }
}

/// Appends the line of a viewed variable: the epoch, its number and its value.
#[tactic(auto, unfolding(crate::specs::Views::value_text))]
fn push_value(epoch: u32, variable: u32, value: u64, out: &mut String) -> Result<(), AllocError>
    ensures { OnOk result (string_bytes out.new ≡ string_bytes out.old ++ value_text epoch variable value) }
{
    write!(out, "epoch {epoch} var {variable} value {value}\n")
}

/// Appends the line of a refused view, as `refused 4 NotAnswered`.
#[tactic(auto, unfolding(crate::specs::Views::view_fault_text))]
fn push_view_fault(fault: ViewFault, out: &mut String) -> Result<(), AllocError>
    ensures { OnOk result (string_bytes out.new ≡ string_bytes out.old ++ view_fault_text fault) }
{
    let number = fault.number();
    write!(out, "refused {number} ")?;
    push_view_fault_name(fault, out)?;
    out.push_str("\n")
}

/// Appends the name of the fault for which a task has no value.
fn push_view_fault_name(fault: ViewFault, out: &mut String) -> Result<(), AllocError>
    ensures { OnOk result (string_bytes out.new ≡ string_bytes out.old ++ view_fault_name fault) }
{
    match fault {
        ViewFault::NoSuchVariable => out.push_str("NoSuchVariable"),
        ViewFault::IsOutput => out.push_str("IsOutput"),
        ViewFault::OtherTask => out.push_str("OtherTask"),
        ViewFault::NotAnswered => out.push_str("NotAnswered"),
    }
}
