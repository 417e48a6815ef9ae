//! The command `read`.
ghost use Rattle.std.specs.Prelude.{◌≡◌, ◌++◌, OnOk, string_bytes};
ghost use Rattle.hc_events.specs.Steps.{Reads};
ghost use Rattle.hc_program.specs.Answers.{data_text, image_text, slot_text, slots_text, event_text};

use crate::refusals::push_refusal;
use hc_core::keeping::Core;
use hc_events::answer::Answer;
use hc_records::items::Items;
use hc_text::printing::push_bytes;
use std::alloc::{AllocError, Global};

/// Appends the image of a task: the epoch, and each datagram's data or `none`; or the refusal of a task over 7. `AllocError` if
/// an allocation fails; then `out` may have a prefix of the lines.
#[tactic(auto, unfolding(crate::specs::Answers::event_text))]
pub fn reply(alloc: Global, task: u8, core: &Core, out: &mut String) -> Result<(), AllocError>
    ensures { OnOk result (string_bytes out.new ≡ string_bytes out.old ++ event_text core.now.history (Reads task)) }
{
    match core.read(alloc, task)? {
        Answer::Image { epoch, slots } => push_image(epoch, slots.as_slice(), out),
        Answer::Refused(fault) => push_refusal(fault, out),
        _ => unreachable!(),
    }
}

/// Appends the line of the epoch, and the lines of a task's datagrams.
#[tactic(auto, unfolding(crate::specs::Answers::image_text))]
fn push_image(epoch: u32, slots: &[Option<Items<u8>>], out: &mut String) -> Result<(), AllocError>
    ensures { OnOk result (string_bytes out.new ≡ string_bytes out.old ++ image_text epoch slots.now) }
{
    write!(out, "epoch {epoch}\n")?;
    push_slots(slots, out)
}

/// Appends the lines of a task's datagrams.
fn push_slots(slots: &[Option<Items<u8>>], out: &mut String) -> Result<(), AllocError>
    ensures { OnOk result (string_bytes out.new ≡ string_bytes out.old ++ slots_text 0 slots.now) }
{
    let mut number = 0usize;
    for slot in slots {
        push_slot(number, slot, out)?;
        number += 1;
    }
    Ok(())
}

/// Appends the line of a datagram: its number, and its data or `none`.
#[tactic(auto, unfolding(crate::specs::Answers::slot_text))]
fn push_slot(number: usize, slot: &Option<Items<u8>>, out: &mut String) -> Result<(), AllocError>
    ensures { OnOk result (string_bytes out.new ≡ string_bytes out.old ++ slot_text number slot.now) }
{
    write!(out, "slot {number} ")?;
    push_data(slot, out)?;
    out.push_str("\n")
}

/// Appends the data of a datagram, or `none`.
fn push_data(slot: &Option<Items<u8>>, out: &mut String) -> Result<(), AllocError>
    ensures { OnOk result (string_bytes out.new ≡ string_bytes out.old ++ data_text slot.now) }
{
    match slot {
        Some(bytes) => push_bytes(bytes.as_slice(), out),
        None => out.push_str("none"),
    }
}
