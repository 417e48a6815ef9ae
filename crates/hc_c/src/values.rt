//! Values of variables, by their numbers, in bytes that C stores.
ghost use Rattle.std.specs.Prelude.{◌≡◌, ◌≢◌, ◌≤◌, None};
ghost use Rattle.hc_events.specs.Steps.{is_stale_epoch};
ghost use Rattle.hc_c.specs.Values.{GetsValue, PutsValue, GetsAt, PutsAt};
ghost use Rattle.hc_c.specs.Handles.{HoldsAsBefore, IfAnswered, no_line_number};

use crate::handle::{Handle, with_line};
use crate::looking::{image_bit_of, place_at};
use crate::numbers::{DONE, IS_INPUT, NOTHING, ROOM, STALE_POST, TOO_WIDE};
use crate::runs::{is_run, is_too_wide};
use hc_bits::{get_bits, put_bits};
use hc_core::keeping::Core;
use hc_places::table::Place as LinePlace;
use hc_records::records::Dir;

/// Returns whether an epoch is below the epoch of the last edit that changed a variable's task, or above the present one.
fn is_stale(core: &Core, place: LinePlace, epoch: u32) -> bool
    ensures { result ≡ is_stale_epoch core.now.history place.task epoch }
{
    epoch < core.task_epoch(place.task) || core.plan().epoch() < epoch
}

/// Writes a value to a variable's place in its task's outputs.
fn put_at(place: LinePlace, stale: bool, bit: usize, value: u64, outputs: &mut [u8]) -> u8
    requires { place.bits ≤ 64 }
    ensures { PutsValue place stale bit value result outputs.old outputs.new }
{
    if stale {
        return STALE_POST;
    }
    if place.dir == Dir::In {
        return IS_INPUT;
    }
    if is_too_wide(value, place.bits) {
        return TOO_WIDE;
    }
    if !is_run(outputs.len(), bit, place.bits) {
        return ROOM;
    }
    put_bits(outputs, bit, usize::from(place.bits), value);
    DONE
}

/// Reads the value of a variable from its task's image.
fn get_at(place: LinePlace, stale: bool, bit: usize, image: &[u8], value: &mut u64) -> u8
    ensures { GetsValue place stale bit image.now result value.old value.new }
{
    if stale {
        return STALE_POST;
    }
    if !is_run(image.len(), bit, place.bits) {
        return ROOM;
    }
    *value = get_bits(image, bit, usize::from(place.bits));
    DONE
}

/// Writes a value to a variable's place in the present line.
fn put_value(core: &Core, variable: u32, epoch: u32, value: u64, outputs: &mut [u8]) -> u8
    ensures { PutsAt core.now.history variable epoch value result outputs.old outputs.new }
{
    let Some(place) = place_at(core, variable) else {
        return NOTHING;
    };
    let bit = image_bit_of(core, place) as usize;
    put_at(place, is_stale(core, place, epoch), bit, value, outputs)
}

/// Reads the value of a variable with a place in the present line.
fn get_value(core: &Core, variable: u32, epoch: u32, image: &[u8], value: &mut u64) -> u8
    ensures { GetsAt core.now.history variable epoch image.now result value.old value.new }
{
    let Some(place) = place_at(core, variable) else {
        return NOTHING;
    };
    let bit = image_bit_of(core, place) as usize;
    get_at(place, is_stale(core, place, epoch), bit, image, value)
}

/// Writes the value of an output variable into outputs that its task is to post for an epoch, at the place that the variable
/// has in the present line. All other bits stay. Returns `DONE`. It allocates nothing. Fails with the first of these; then the
/// slice is unchanged:
///
/// - `BUSY`, `CLOSED` or `MISUSED`.
/// - `NOTHING`: the present line has no place for the variable.
/// - `STALE_POST`: the epoch is before the last edit that changed the variable's task, or above the present one.
/// - `IS_INPUT`: the variable is an input.
/// - `TOO_WIDE`: the value needs more bits than the variable has.
/// - `ROOM`: the slice ends before the place does.
#[unsafe(no_mangle)]
pub extern "C" fn zangjulf_put_value(
    handle: &mut Handle,
    variable: u32,
    epoch: u32,
    value: u64,
    outputs: &mut [u8],
) -> u8
    ensures answer { IfAnswered handle.old result (λ history. PutsAt history variable epoch value result outputs.old outputs.new) }
    ensures unchanged { HoldsAsBefore handle.old handle.new }
    ensures untouched { result ≢ DONE → outputs.new ≡ outputs.old }
    ensures closed { handle.old.holding.value ≡ None → result ≡ no_line_number handle.old.mark }
{
    with_line!(
        handle,
        |own| put_value(&own.core, variable, epoch, value, outputs)
    )
}

/// Reads the value of a variable from an image of its task that was read in an epoch (`zangjulf_read`), at the place that the
/// variable has in the present line. The image's `has` tells whether the variable's datagram has data. Returns `DONE`. It
/// allocates nothing. Fails with the first of these; then `value` is unchanged:
///
/// - `BUSY`, `CLOSED` or `MISUSED`.
/// - `NOTHING`: the present line has no place for the variable.
/// - `STALE_POST`: the epoch is before the last edit that changed the variable's task, or above the present one.
/// - `ROOM`: the slice ends before the place does.
#[unsafe(no_mangle)]
pub extern "C" fn zangjulf_get_value(
    handle: &mut Handle,
    variable: u32,
    epoch: u32,
    image: &[u8],
    value: &mut u64,
) -> u8
    ensures answer { IfAnswered handle.old result (λ history. GetsAt history variable epoch image.now result value.old value.new) }
    ensures unchanged { HoldsAsBefore handle.old handle.new }
    ensures unwritten { result ≢ DONE → value.new ≡ value.old }
    ensures closed { handle.old.holding.value ≡ None → result ≡ no_line_number handle.old.mark }
{
    with_line!(
        handle,
        |own| get_value(&own.core, variable, epoch, image, value)
    )
}
