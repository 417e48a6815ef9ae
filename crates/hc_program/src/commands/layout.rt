//! The command `layout`.
ghost use Rattle.std.specs.Prelude.{◌≡◌, ◌++◌, ◌<◌, OnOk, string_bytes};
ghost use Rattle.hc_program.specs.Layout.{datagram_text, datagrams_text, layout_text, numbered_text, task_part_text, table_text, task_text};

use hc_places::table::{Datagram, Places};
use hc_plan::plan::Plan;
use hc_records::limits::{MOST_DATAGRAMS, TASKS};
use hc_text::printing::push_address;
use std::alloc::AllocError;

/// Appends the epoch, and the datagrams of each task that has one. `AllocError` if an allocation fails; then `out` may have a
/// prefix of the lines.
#[tactic(auto, unfolding(crate::specs::Layout::layout_text))]
pub fn reply(plan: &Plan, out: &mut String) -> Result<(), AllocError>
    ensures { OnOk result (string_bytes out.new ≡ string_bytes out.old ++ layout_text plan.now) }
{
    let epoch = plan.epoch();
    write!(out, "epoch {epoch}\n")?;
    push_table(plan.places(), out)
}

/// Appends the lines of all eight tasks. `AllocError` if an allocation fails.
#[tactic(auto, unfolding(crate::specs::Layout::table_text))]
fn push_table(places: &Places, out: &mut String) -> Result<(), AllocError>
    ensures { OnOk result (string_bytes out.new ≡ string_bytes out.old ++ table_text places.now) }
{
    for task in 0..TASKS {
        push_task(places, task, out)?;
    }
    Ok(())
}

/// Appends the lines of a task, if it has a datagram.
#[tactic(auto, unfolding(crate::specs::Layout::task_text))]
fn push_task(places: &Places, task: u8, out: &mut String) -> Result<(), AllocError>
    ensures { OnOk result (string_bytes out.new ≡ string_bytes out.old ++ task_text places.now task) }
{
    if places.datagram(task, 0).is_none() {
        return Ok(());
    }
    push_part(task, places.part(task), out)?;
    push_datagrams(places, task, out)
}

/// Appends the line with the sizes of a task's outputs and inputs, in bytes.
fn push_part(task: u8, part: (u16, u16), out: &mut String) -> Result<(), AllocError>
    ensures { OnOk result (string_bytes out.new ≡ string_bytes out.old ++ task_part_text task part) }
{
    let (outputs, inputs) = part;
    write!(out, "task {task} parts {outputs} {inputs}\n")
}

/// Appends the lines of a task's datagrams, in order.
#[tactic(auto, unfolding(crate::specs::Layout::datagrams_text))]
fn push_datagrams(places: &Places, task: u8, out: &mut String) -> Result<(), AllocError>
    ensures { OnOk result (string_bytes out.new ≡ string_bytes out.old ++ datagrams_text places.now task) }
{
    for number in 0..MOST_DATAGRAMS as u8 {
        push_numbered(places, task, number, out)?;
    }
    Ok(())
}

/// Appends the line of the datagram with a number, if the task has one.
fn push_numbered(places: &Places, task: u8, number: u8, out: &mut String) -> Result<(), AllocError>
    ensures { OnOk result (string_bytes out.new ≡ string_bytes out.old ++ numbered_text places.now task number) }
{
    match places.datagram(task, number) {
        Some(datagram) => push_datagram(number, datagram, out),
        None => Ok(()),
    }
}

/// Appends the line of a datagram: its number, logical address, length in bytes and expected working counter.
#[tactic(auto, unfolding(crate::specs::Layout::datagram_text))]
fn push_datagram(number: u8, datagram: Datagram, out: &mut String) -> Result<(), AllocError>
    ensures { OnOk result (string_bytes out.new ≡ string_bytes out.old ++ datagram_text number datagram) }
{
    write!(out, "datagram {number} address ")?;
    push_address(datagram.address, out)?;
    let length = datagram.length;
    let expected = datagram.expected;
    write!(out, " length {length} expected {expected}\n")
}
