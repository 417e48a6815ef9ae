//! The command `place`.
ghost use Rattle.std.specs.Prelude.{◌≡◌, ◌++◌, OnOk, string_bytes};
ghost use Rattle.hc_records.specs.Line.{line};
ghost use Rattle.hc_program.specs.Place.{bits_text, dir_name, numbered_place, place_text, variable_text};

use hc_places::table::Place;
use hc_plan::plan::Plan;
use hc_records::records::{Dir, VarId};
use std::alloc::AllocError;

/// Appends the place of the variable with a number, or `none` if the line has no place for it; 0 is no variable's number.
/// `AllocError` if an allocation fails; then `out` may have a prefix of the line.
#[tactic(auto, unfolding(crate::specs::Place::place_text))]
pub fn reply(plan: &Plan, number: u32, out: &mut String) -> Result<(), AllocError>
    ensures { OnOk result (string_bytes out.new ≡ string_bytes out.old ++ place_text plan.now number) }
{
    match numbered_place(plan, number) {
        Some(place) => push_place(number, place, out),
        None => out.push_str("none\n"),
    }
}

/// Returns the place of the variable with a number.
fn numbered_place(plan: &Plan, number: u32) -> Option<Place>
    ensures { result ≡ numbered_place number (line plan.now) }
{
    match VarId::new(number) {
        Some(variable) => plan.places().place(variable),
        None => None,
    }
}

/// Appends the line of a variable: its number, task, datagram and bits.
#[tactic(auto, unfolding(crate::specs::Place::variable_text))]
fn push_place(number: u32, place: Place, out: &mut String) -> Result<(), AllocError>
    ensures { OnOk result (string_bytes out.new ≡ string_bytes out.old ++ variable_text number place) }
{
    let task = place.task;
    let datagram = place.datagram;
    write!(out, "var {number} task {task} datagram {datagram}")?;
    push_bits(place, out)
}

/// Appends the bits in the datagram.
#[tactic(auto, unfolding(crate::specs::Place::bits_text))]
fn push_bits(place: Place, out: &mut String) -> Result<(), AllocError>
    ensures { OnOk result (string_bytes out.new ≡ string_bytes out.old ++ bits_text place) }
{
    let bit = place.bit;
    let bits = place.bits;
    write!(out, " bit {bit} bits {bits} dir ")?;
    push_dir(place.dir, out)?;
    out.push_str("\n")
}

/// Appends a direction, as `out` or `in`.
fn push_dir(dir: Dir, out: &mut String) -> Result<(), AllocError>
    ensures { OnOk result (string_bytes out.new ≡ string_bytes out.old ++ dir_name dir) }
{
    match dir {
        Dir::Out => out.push_str("out"),
        Dir::In => out.push_str("in"),
    }
}
