//! `zangjulf_locate`: the reason why a text is no project, and its place.
ghost use Rattle.std.specs.Prelude.{◌≡◌, ◌≢◌};
ghost use Rattle.hc_c.specs.Locations.{Locates, index_or_none, key_item, key_number, location_out, position_out, located_out};

use crate::numbers::{DONE, MEMORY, PROJECT};
use hc_project::{Found, Key, Location as ProjectLocation, Place, locate};
use hc_records::faults::ProjectFault;
use std::alloc::Global;

/// The index that means none.
pub const NOWHERE: usize = usize::MAX;

/// A place in a project's text, in C. Indexes count from 0 in the order of the text. An index is `NOWHERE` if the place lies in
/// no such thing.
#[repr(C)]
#[derive(Clone, Copy)]
pub struct LocatedPlace {
    /// The group, counted from 1 as the text declares them; 0 is the top of the document.
    group: usize,
    /// The slave, by its index in its array.
    slave: usize,
    /// The area, by its index in the slave.
    area: usize,
    /// The PDO that the area offers, by its index.
    pdo: usize,
    /// The item of an array, if the key means one.
    item: usize,
    /// The group's alias; 0 at the top, or if it cannot be read.
    alias: u16,
    /// The slave's station address; 0 if the place lies in no slave, or if it cannot be read.
    station: u16,
    /// The key at the place, 0 to 17.
    key: u8,
}

/// The location of a text's fault, in C.
#[repr(C)]
#[derive(Clone, Copy)]
pub struct Location {
    /// For a text that is no TOML document the line, counted from 1; otherwise 0.
    line: usize,
    /// For a text that is no TOML document the column, in characters from 1; otherwise 0.
    column: usize,
    /// For any other fault its first place in the text.
    place: LocatedPlace,
    /// For two things that may not be together the earlier one; otherwise as `place`.
    first: LocatedPlace,
}

/// Returns an index, or `NOWHERE` for none.
fn index_or_none(index: Option<usize>) -> usize
    ensures { result ≡ index_or_none index }
{
    match index {
        Some(index) => index,
        None => NOWHERE,
    }
}

/// Returns the number of a key.
fn key_number(key: Key) -> u8
    ensures { result ≡ key_number key }
{
    match key {
        Key::Whole => 0,
        Key::Groups => 1,
        Key::Alias => 2,
        Key::Slaves => 3,
        Key::Station => 4,
        Key::Areas => 5,
        Key::Sm => 6,
        Key::Dir => 7,
        Key::Phys => 8,
        Key::Task => 9,
        Key::Assigned => 10,
        Key::AssignedAt(_) => 11,
        Key::Pdos => 12,
        Key::Index => 13,
        Key::Entries => 14,
        Key::Entry(_) => 15,
        Key::Variable(_) => 16,
        Key::Bits(_) => 17,
    }
}

/// Returns the item that a key means, or `NOWHERE`.
fn key_item(key: Key) -> usize
    ensures { result ≡ key_item key }
{
    match key {
        Key::AssignedAt(item) | Key::Entry(item) | Key::Variable(item) | Key::Bits(item) => item,
        _ => NOWHERE,
    }
}

/// Returns the C form of a place.
fn located_out(place: Place) -> LocatedPlace
    ensures { result ≡ located_out place }
{
    LocatedPlace {
        group: place.group,
        slave: index_or_none(place.slave),
        area: index_or_none(place.area),
        pdo: index_or_none(place.pdo),
        item: key_item(place.key),
        alias: place.alias,
        station: place.station,
        key: key_number(place.key),
    }
}

/// Returns the C form of the places of a fault.
fn location_out(located_place: ProjectLocation) -> Location
    ensures { result ≡ location_out located_place }
{
    let place = located_out(located_place.place);
    let first = match located_place.first {
        Some(first) => located_out(first),
        None => place,
    };
    Location {
        line: 0,
        column: 0,
        place,
        first,
    }
}

/// Returns the C form of a line and a column.
fn position_out(line: usize, column: usize) -> Location
    ensures { result ≡ position_out line column }
{
    let top = LocatedPlace {
        group: 0,
        slave: NOWHERE,
        area: NOWHERE,
        pdo: NOWHERE,
        item: NOWHERE,
        alias: 0,
        station: 0,
        key: 0,
    };
    Location {
        line,
        column,
        place: top,
        first: top,
    }
}

/// Tells why and where a text is no project, as `zangjulf_open` judges it. It allocates, and frees what it allocated. Returns
/// one of these; `location` is written only with a fault:
///
/// - `DONE`: the text is a project. `zangjulf_open` may still fail with `OVER_LIMIT`.
/// - 201 to 210: the lowest fault of the text. `location` has the first place at which its condition holds.
/// - `MEMORY`: an allocation failed.
#[unsafe(no_mangle)]
pub extern "C" fn zangjulf_locate(alloc: Global, text: &[u8], location: &mut Location) -> u8
    ensures answer { result ≢ MEMORY → Locates text.now result location.old location.new }
    ensures unwritten { result ≡ MEMORY → location.new ≡ location.old }
{
    match locate(alloc, text) {
        Ok(None) => DONE,
        Ok(Some(Found::InText { line, column })) => {
            *location = position_out(line, column);
            PROJECT + ProjectFault::NotToml.number()
        }
        Ok(
            Some(
                Found::InProject {
                    fault,
                    location: located_place,
                },
            ),
        ) => {
            *location = location_out(located_place);
            PROJECT + fault.number()
        }
        Err(_) => MEMORY,
    }
}
