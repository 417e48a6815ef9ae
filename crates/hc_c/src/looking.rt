//! Look-ups of the present line's configuration.
ghost use Rattle.std.specs.Prelude.{◌≡◌, ◌≢◌, ◌≤◌, ◌++◌, None, drop, length};
ghost use Rattle.hc_events.specs.Points.{line_of, state_of};
ghost use Rattle.hc_plan.specs.Configuration.{position_of, station_at};
ghost use Rattle.hc_c.specs.declared.numbers.TheConstants.{BUSY};
ghost use Rattle.hc_c.specs.Looks.{GivesBlock, GivesPosition, datagram_at, image_bit_of, task_part_bytes, place_numbered, datagram_out, place_out, places_out, place_or_zeros, places_number, sizes_out, AnswersBlock};
ghost use Rattle.hc_c.specs.Handles.{GivesFound, HoldsAsBefore, IfAnswered, IfAnsweredWith, no_line_number};

use crate::handle::{Handle, with_line};
use crate::numbers::{DONE, MISUSED, NOTHING, ROOM};
use hc_core::keeping::Core;
use hc_events::faults::CoreFault;
use hc_places::table::{Datagram as LineDatagram, Place as LinePlace};
use hc_records::records::{Dir, VarId};
use hc_registers::blocks::Block as LineBlock;

/// The place of a variable, in C.
#[repr(C)]
#[derive(Clone, Copy)]
pub struct Place {
    /// The task, 0 to 7.
    task: u8,
    /// The number of its datagram in the task, 0 to 15.
    datagram: u8,
    /// The number of its bits, 1 to 64.
    bits: u8,
    /// True if it is an input, which the slave sends.
    is_input: bool,
    /// Its first bit in the datagram's data, counted from the least significant bit of byte 0.
    bit: u16,
    /// Its first bit in its task's image, counted likewise: in the outputs that the task posts, and in the image that it reads.
    image_bit: u32,
}

/// A datagram of a task, in C.
#[repr(C)]
#[derive(Clone, Copy)]
pub struct Datagram {
    /// Its logical address.
    address: u32,
    /// The length of its data, 1 to 1,486 bytes.
    length: u16,
    /// Its expected working counter.
    expected: u16,
    /// The offset of its data in the task's image, in bytes.
    offset: u16,
}

/// The sizes of a task's image, in C.
#[repr(C)]
#[derive(Clone, Copy)]
pub struct ImageSizes {
    /// The bytes of its outputs, which come first.
    outputs: u16,
    /// The bytes of its inputs.
    inputs: u16,
}

/// A register block, in C.
#[repr(C)]
#[derive(Clone, Copy)]
pub struct Block {
    /// Its first register.
    start: u16,
    /// The number of its bytes, 8 or 16.
    size: usize,
}

/// Returns the place of a variable in the present line.
pub fn place_at(core: &Core, number: u32) -> Option<LinePlace>
    ensures { result ≡ place_numbered core.now.history number }
{
    match VarId::new(number) {
        Some(variable) => core.plan().places().place(variable),
        None => None,
    }
}

/// Returns the datagram of a task with a number in the present line.
fn datagram_at(core: &Core, task: u8, number: u8) -> Option<LineDatagram>
    ensures { result ≡ datagram_at core.now.history task number }
{
    core.plan().places().datagram(task, number)
}

/// Returns the bytes of a task's outputs and inputs in the present line.
pub fn part_at(core: &Core, task: u8) -> (u16, u16)
    ensures { result ≡ task_part_bytes core.now.history task }
{
    core.plan().places().part(task)
}

/// Returns the first bit of a place of the present line in its task's image.
#[tactic(auto, unfolding(crate::specs::Looks::image_bit_of, crate::specs::Looks::datagram_at))]
pub fn image_bit_of(core: &Core, place: LinePlace) -> u32
    ensures { result ≡ image_bit_of core.now.history place }
{
    let offset = match datagram_at(core, place.task, place.datagram) {
        Some(datagram) => datagram.offset,
        None => 0,
    };
    8 * u32::from(offset) + u32::from(place.bit)
}

/// Returns the C form of a place of the present line.
fn place_out(core: &Core, place: LinePlace) -> Place
    ensures { result ≡ place_out core.now.history place }
{
    Place {
        task: place.task,
        datagram: place.datagram,
        bits: place.bits,
        is_input: match place.dir {
            Dir::Out => false,
            Dir::In => true,
        },
        bit: place.bit,
        image_bit: image_bit_of(core, place),
    }
}

/// Returns the C form of a datagram.
fn datagram_out(datagram: LineDatagram) -> Datagram
    ensures { result ≡ datagram_out datagram }
{
    Datagram {
        address: datagram.address,
        length: datagram.length,
        expected: datagram.expected,
        offset: datagram.offset,
    }
}

/// Reads the place of a variable, 1 to 4,294,967,295. Returns `DONE`. It allocates nothing. Fails with one of these; then
/// `place` is unchanged:
///
/// - `BUSY`, `CLOSED` or `MISUSED`.
/// - `NOTHING`: the present line has no place for the variable.
#[unsafe(no_mangle)]
pub extern "C" fn zangjulf_place(handle: &mut Handle, variable: u32, place: &mut Place) -> u8
    ensures answer { IfAnswered handle.old result (λ history. GivesFound (place_numbered history variable) (place_out history) result place.new) }
    ensures unchanged { HoldsAsBefore handle.old handle.new }
    ensures untouched { result ≢ DONE → place.new ≡ place.old }
    ensures closed { handle.old.holding.value ≡ None → (result ≡ no_line_number handle.old.mark) × (place.new ≡ place.old) }
{
    with_line!(handle, |own| match place_at(&own.core, variable) {
        Some(found) => {
            *place = place_out(&own.core, found);
            DONE
        }
        None => NOTHING,
    })
}

/// Returns the C form of a variable's place; zeros if the present line has none.
fn place_or_zeros(core: &Core, variable: u32) -> Place
    ensures { result ≡ place_or_zeros core.now.history variable }
{
    match place_at(core, variable) {
        Some(found) => place_out(core, found),
        None => Place {
            task: 0,
            datagram: 0,
            bits: 0,
            is_input: false,
            bit: 0,
            image_bit: 0,
        },
    }
}

/// Writes the C form of the places of variables to the front of a slice.
fn put_places(core: &Core, variables: &[u32], places: &mut [Place])
    requires { length variables.now ≤ length places.old }
    ensures { places.new ≡ places_out core.now.history variables.now ++ drop (length variables.now) places.old }
{
    for i in 0..variables.len() {
        places[i] = place_or_zeros(core, variables[i]);
    }
}

/// Reads the places of several variables, in their order, to the front of `places`. A variable without a place in the present
/// line has zeros there; `bits` is 0 for no other one. Returns `DONE`. It allocates nothing. Fails with one of these; then
/// `places` is unchanged:
///
/// - `BUSY`, `CLOSED` or `MISUSED`.
/// - `MISUSED`: `places` is shorter than `variables`.
#[unsafe(no_mangle)]
pub extern "C" fn zangjulf_places(
    handle: &mut Handle,
    variables: &[u32],
    places: &mut [Place],
) -> u8
    ensures answer { IfAnswered handle.old result (λ _. result ≡ places_number (length variables.now) (length places.old)) }
    ensures places { IfAnsweredWith DONE handle.old result (λ history. places.new ≡ places_out history variables.now ++ drop (length variables.now) places.old) }
    ensures unchanged { HoldsAsBefore handle.old handle.new }
    ensures untouched { result ≢ DONE → places.new ≡ places.old }
    ensures closed { handle.old.holding.value ≡ None → result ≡ no_line_number handle.old.mark }
{
    with_line!(handle, |own| {
        if places.len() < variables.len() {
            MISUSED
        } else {
            put_places(&own.core, variables, places);
            DONE
        }
    })
}

/// Reads a datagram of a task, 0 to 7, by its number from 0. Returns `DONE`. It allocates nothing. Fails with one of these;
/// then `found` is unchanged:
///
/// - `BUSY`, `CLOSED` or `MISUSED`.
/// - `NOTHING`: the task has fewer datagrams, or is over 7.
#[unsafe(no_mangle)]
pub extern "C" fn zangjulf_datagram(
    handle: &mut Handle,
    task: u8,
    datagram: u8,
    found: &mut Datagram,
) -> u8
    ensures answer { IfAnswered handle.old result (λ history. GivesFound (datagram_at history task datagram) datagram_out result found.new) }
    ensures unchanged { HoldsAsBefore handle.old handle.new }
    ensures untouched { result ≢ DONE → found.new ≡ found.old }
    ensures closed { handle.old.holding.value ≡ None → (result ≡ no_line_number handle.old.mark) × (found.new ≡ found.old) }
{
    with_line!(handle, |own| match datagram_at(&own.core, task, datagram) {
        Some(row) => {
            *found = datagram_out(row);
            DONE
        }
        None => NOTHING,
    })
}

/// Reads the sizes of a task's image; 0 and 0 for a task over 7. Returns `DONE`. Fails with `BUSY`, `CLOSED` or `MISUSED`.
#[unsafe(no_mangle)]
pub extern "C" fn zangjulf_image_sizes(handle: &mut Handle, task: u8, sizes: &mut ImageSizes) -> u8
    ensures answer { IfAnswered handle.old result (λ history. (result ≡ DONE) × (sizes.new ≡ sizes_out (task_part_bytes history task))) }
    ensures unchanged { HoldsAsBefore handle.old handle.new }
    ensures busy { result ≡ BUSY → sizes.new ≡ sizes.old }
    ensures closed { handle.old.holding.value ≡ None → (result ≡ no_line_number handle.old.mark) × (sizes.new ≡ sizes.old) }
{
    with_line!(handle, |own| {
        let (outputs, inputs) = part_at(&own.core, task);
        *sizes = ImageSizes { outputs, inputs };
        DONE
    })
}

/// Reads the station address of the slave at a position of the present line, counted from 0. Returns `DONE`. It allocates
/// nothing. Fails with one of these; then `station` is unchanged:
///
/// - `BUSY`, `CLOSED` or `MISUSED`.
/// - `NOTHING`: the line is shorter.
#[unsafe(no_mangle)]
pub extern "C" fn zangjulf_station(handle: &mut Handle, position: u32, station: &mut u16) -> u8
    ensures answer { IfAnswered handle.old result (λ history. GivesFound (station_at (line_of history) position) (λ found. found) result station.new) }
    ensures unchanged { HoldsAsBefore handle.old handle.new }
    ensures untouched { result ≢ DONE → station.new ≡ station.old }
    ensures closed { handle.old.holding.value ≡ None → (result ≡ no_line_number handle.old.mark) × (station.new ≡ station.old) }
{
    with_line!(handle, |own| match own.core.plan().station(position) {
        Some(found) => {
            *station = found;
            DONE
        }
        None => NOTHING,
    })
}

/// Reads the position in the present line, counted from 0, of the slave with a station address. Returns `DONE`. It allocates
/// nothing. Fails with the first of these; then `position` is unchanged:
///
/// - `BUSY`, `CLOSED` or `MISUSED`.
/// - `UnknownStation`, 5: no declared slave has the address.
/// - `Absent`, 6: the slave is not in the line.
#[unsafe(no_mangle)]
pub extern "C" fn zangjulf_position(handle: &mut Handle, station: u16, position: &mut u32) -> u8
    ensures answer { IfAnswered handle.old result (λ history. GivesPosition (position_of (state_of history) station) result position.new) }
    ensures unchanged { HoldsAsBefore handle.old handle.new }
    ensures untouched { result ≢ DONE → position.new ≡ position.old }
    ensures closed { handle.old.holding.value ≡ None → (result ≡ no_line_number handle.old.mark) × (position.new ≡ position.old) }
{
    with_line!(handle, |own| match own.core.plan().position(station) {
        Ok(found) => {
            *position = found;
            DONE
        }
        Err(fault) => CoreFault::from(fault).number(),
    })
}

/// Writes the bytes of a register block. Returns `DONE`, or `ROOM` if `out` is too short.
fn give_block(found: &LineBlock, out: &mut [u8], block: &mut Block) -> u8
    ensures { GivesBlock found.now result block.new out.old out.new }
{
    let bytes = found.bytes();
    *block = Block {
        start: found.register(),
        size: bytes.len(),
    };
    if out.len() < bytes.len() {
        return ROOM;
    }
    out[..bytes.len()].copy_from_slice(bytes);
    DONE
}

/// Reads a register block of the slave with a station address by its number, from 0. The blocks of a slave are numbered area by
/// area in record order, each area's sync manager before its FMMU. Returns `DONE`: the bytes of the block are at the front of
/// `out`. It allocates nothing. Fails with one of these; then `out` is unchanged, and so is `block` except with `ROOM`:
///
/// - `BUSY`, `CLOSED` or `MISUSED`.
/// - `NOTHING`: the slave is not in the line, or has fewer blocks.
/// - `ROOM`: `out` has fewer than `block.size` bytes.
#[unsafe(no_mangle)]
pub extern "C" fn zangjulf_block(
    handle: &mut Handle,
    station: u16,
    number: u8,
    out: &mut [u8],
    block: &mut Block,
) -> u8
    ensures answer { IfAnswered handle.old result (λ history. AnswersBlock history station number result block.old block.new out.old out.new) }
    ensures unchanged { HoldsAsBefore handle.old handle.new }
    ensures untouched { result ≢ DONE → out.new ≡ out.old }
    ensures busy { result ≡ BUSY → block.new ≡ block.old }
    ensures closed { handle.old.holding.value ≡ None → (result ≡ no_line_number handle.old.mark) × (block.new ≡ block.old) }
{
    with_line!(handle, |own| match own.core.plan().block(station, number) {
        Some(found) => give_block(&found, out, block),
        None => NOTHING,
    })
}
