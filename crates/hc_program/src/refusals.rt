//! Printed faults.
ghost use Rattle.std.specs.Prelude.{◌≡◌, ◌≢◌, ◌++◌, OnOk, string_bytes};
ghost use Rattle.hc_events.specs.declared.faults.CoreFault.TheVariants.{BadGroup, Memory};
ghost use Rattle.hc_records.specs.declared.faults.ProjectFault.TheVariants as project;
ghost use Rattle.hc_program.specs.Refusals.{bad_command_text, core_fault_name, declare_fault_text, project_fault_name, project_fault_text, project_fault_words, refusal_text};

use hc_events::faults::CoreFault;
use hc_records::faults::ProjectFault;
use std::alloc::AllocError;

/// Appends the name of a project text's fault.
fn push_project_fault_name(fault: ProjectFault, out: &mut String) -> Result<(), AllocError>
    ensures { OnOk result (string_bytes out.new ≡ string_bytes out.old ++ project_fault_name fault) }
{
    match fault {
        ProjectFault::NotToml => out.push_str("NotToml"),
        ProjectFault::MissingField => out.push_str("MissingField"),
        ProjectFault::OutOfRange => out.push_str("OutOfRange"),
        ProjectFault::RepeatedAlias => out.push_str("RepeatedAlias"),
        ProjectFault::RepeatedStation => out.push_str("RepeatedStation"),
        ProjectFault::RepeatedSyncManager => out.push_str("RepeatedSyncManager"),
        ProjectFault::OverlappingAreas => out.push_str("OverlappingAreas"),
        ProjectFault::RepeatedVariable => out.push_str("RepeatedVariable"),
        ProjectFault::UnknownPdo => out.push_str("UnknownPdo"),
        ProjectFault::AreaTooBig => out.push_str("AreaTooBig"),
        ProjectFault::Memory => out.push_str("Memory"),
        ProjectFault::NotOneGroup => out.push_str("NotOneGroup"),
    }
}

/// Appends the line of a project's fault, as `project fault 3 OutOfRange`. `AllocError` if an allocation fails; then `out` may
/// have a prefix of the line.
pub fn push_project_fault(fault: ProjectFault, out: &mut String) -> Result<(), AllocError>
    ensures { OnOk result (string_bytes out.new ≡ string_bytes out.old ++ project_fault_text fault) }
{
    out.push_str("project fault ")?;
    push_project_fault_words(fault, out)
}

/// Appends the line of a document that declares no group, as `declare fault 12 NotOneGroup`. `AllocError` if an allocation
/// fails; then `out` may have a prefix of the line.
fn push_declare_fault(fault: ProjectFault, out: &mut String) -> Result<(), AllocError>
    ensures { OnOk result (string_bytes out.new ≡ string_bytes out.old ++ declare_fault_text fault) }
{
    out.push_str("declare fault ")?;
    push_project_fault_words(fault, out)
}

/// Appends the line of a document that declares no group. `AllocError` for the fault `Memory`, whose line the run writes
/// (`memory_refusal`), and if an allocation fails.
pub fn say_declare_fault(fault: ProjectFault, out: &mut String) -> Result<(), AllocError>
    ensures text { OnOk result (string_bytes out.new ≡ string_bytes out.old ++ declare_fault_text fault) }
    ensures other { OnOk result (fault ≢ project.Memory) }
{
    if let ProjectFault::Memory = fault {
        return Err(AllocError);
    }
    push_declare_fault(fault, out)
}

/// Appends the fault's number and name, and the end of the line.
#[tactic(auto, unfolding(crate::specs::Refusals::project_fault_words))]
fn push_project_fault_words(fault: ProjectFault, out: &mut String) -> Result<(), AllocError>
    ensures { OnOk result (string_bytes out.new ≡ string_bytes out.old ++ project_fault_words fault) }
{
    let number = fault.number();
    write!(out, "{number} ")?;
    push_project_fault_name(fault, out)?;
    out.push_str("\n")
}

/// Appends the name of the fault of a group that is none by itself, and the number of that fault.
fn push_bad_group(fault: ProjectFault, out: &mut String) -> Result<(), AllocError>
    ensures { OnOk result (string_bytes out.new ≡ string_bytes out.old ++ core_fault_name (BadGroup fault)) }
{
    let number = fault.number();
    write!(out, "BadGroup {number}")
}

/// Appends the name of a core's fault, and after it the task, the number of owed blocks or the size in bytes that the fault
/// has.
fn push_core_fault_name(fault: CoreFault, out: &mut String) -> Result<(), AllocError>
    ensures { OnOk result (string_bytes out.new ≡ string_bytes out.old ++ core_fault_name fault) }
{
    match fault {
        CoreFault::UnknownAlias => out.push_str("UnknownAlias"),
        CoreFault::AlreadyPresent => out.push_str("AlreadyPresent"),
        CoreFault::NotPresent => out.push_str("NotPresent"),
        CoreFault::Mandatory => out.push_str("Mandatory"),
        CoreFault::UnknownStation => out.push_str("UnknownStation"),
        CoreFault::Absent => out.push_str("Absent"),
        CoreFault::NoSuchArea => out.push_str("NoSuchArea"),
        CoreFault::NoSuchTask => out.push_str("NoSuchTask"),
        CoreFault::UnknownPdo => out.push_str("UnknownPdo"),
        CoreFault::RepeatedPdo => out.push_str("RepeatedPdo"),
        CoreFault::AreaTooBig => out.push_str("AreaTooBig"),
        CoreFault::TooManyDatagrams(task) => write!(out, "TooManyDatagrams {task}"),
        CoreFault::EpochsSpent => out.push_str("EpochsSpent"),
        CoreFault::StalePost => out.push_str("StalePost"),
        CoreFault::PostLength => out.push_str("PostLength"),
        CoreFault::Unprogrammed(owed) => write!(out, "Unprogrammed {owed}"),
        CoreFault::NothingOwed => out.push_str("NothingOwed"),
        CoreFault::SerialsSpent => out.push_str("SerialsSpent"),
        CoreFault::Short => out.push_str("Short"),
        CoreFault::NotEtherCat => out.push_str("NotEtherCat"),
        CoreFault::BadType => out.push_str("BadType"),
        CoreFault::BadLength => out.push_str("BadLength"),
        CoreFault::Circulating => out.push_str("Circulating"),
        CoreFault::MoreFollows => out.push_str("MoreFollows"),
        CoreFault::UnknownCommand => out.push_str("UnknownCommand"),
        CoreFault::IndexMismatch => out.push_str("IndexMismatch"),
        CoreFault::Memory => out.push_str("Memory"),
        CoreFault::Room(needed) => write!(out, "Room {needed}"),
        CoreFault::BadGroup(fault) => push_bad_group(fault, out),
        CoreFault::AliasTaken => out.push_str("AliasTaken"),
        CoreFault::StationTaken => out.push_str("StationTaken"),
        CoreFault::VariableTaken => out.push_str("VariableTaken"),
        CoreFault::TooManyGroups => out.push_str("TooManyGroups"),
        CoreFault::TooManySlaves => out.push_str("TooManySlaves"),
        CoreFault::Waits {
            task,
            blocks,
            outside,
        } => write!(out, "Waits {task} {blocks} {outside}"),
        CoreFault::UnderWay => out.push_str("UnderWay"),
    }
}

/// Appends the line of a refused command, as `refused 12 TooManyDatagrams 0`. `AllocError` if an allocation fails; then `out`
/// may have a prefix of the line.
#[tactic(auto, unfolding(crate::specs::Refusals::refusal_text))]
pub fn push_refusal(fault: CoreFault, out: &mut String) -> Result<(), AllocError>
    ensures { OnOk result (string_bytes out.new ≡ string_bytes out.old ++ refusal_text fault) }
{
    let number = fault.number();
    write!(out, "refused {number} ")?;
    push_core_fault_name(fault, out)?;
    out.push_str("\n")
}

/// Appends the line of a refused command. `AllocError` for the fault `Memory`, whose line the run writes (`memory_refusal`),
/// and if an allocation fails.
pub fn say_refusal(fault: CoreFault, out: &mut String) -> Result<(), AllocError>
    ensures text { OnOk result (string_bytes out.new ≡ string_bytes out.old ++ refusal_text fault) }
    ensures other { OnOk result (fault ≢ Memory) }
{
    if let CoreFault::Memory = fault {
        return Err(AllocError);
    }
    push_refusal(fault, out)
}

/// Returns the line of a command for which an allocation failed. It is a constant, so no allocation is needed.
#[tactic(auto, unfolding(crate::specs::Refusals::refusal_text))]
pub fn memory_refusal() -> &'static [u8]
    ensures { result.now ≡ refusal_text Memory }
{
    b"refused 28 Memory\n"
}

/// Appends the line about a line that is no command, as `line 9: bad command`. `AllocError` if an allocation fails; then `out`
/// may have a prefix of the line.
#[tactic(auto, unfolding(crate::specs::Refusals::bad_command_text))]
pub fn push_bad_command(number: u32, out: &mut String) -> Result<(), AllocError>
    ensures { OnOk result (string_bytes out.new ≡ string_bytes out.old ++ bad_command_text number) }
{
    write!(out, "line {number}: bad command\n")
}
