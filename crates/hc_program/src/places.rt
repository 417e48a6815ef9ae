//! Printed places of a project's text.
ghost use Rattle.std.specs.Prelude.{◌≡◌, ◌++◌, OnOk, string_bytes};
ghost use Rattle.hc_program.specs.Places.{place_alias_text, array_text, first_text, group_text, item_text, key_name, key_text, path_text, project_place_text, separator, location_text, station_text};

use hc_project::{Key, Location, Place};
use std::alloc::AllocError;

/// Appends a full stop if something is before it.
fn separator(is_after: bool) -> &'static str
    ensures { result.now ≡ separator is_after }
{
    if is_after { "." } else { "" }
}

/// Appends the group of a place; nothing at the top.
#[tactic(auto, unfolding(crate::specs::Places::group_text))]
fn push_group(group: usize, out: &mut String) -> Result<(), AllocError>
    ensures { OnOk result (string_bytes out.new ≡ string_bytes out.old ++ group_text group) }
{
    if group == 0 {
        return Ok(());
    }
    let index = group - 1;
    write!(out, "group[{index}]")
}

/// Appends an item of an array; nothing if the place lies in none.
#[tactic(auto, unfolding(crate::specs::Places::array_text))]
fn push_array(
    is_after: bool,
    name: &str,
    index: Option<usize>,
    out: &mut String,
) -> Result<(), AllocError>
    ensures { OnOk result (string_bytes out.new ≡ string_bytes out.old ++ array_text is_after name.now index) }
{
    match index {
        Some(index) => {
            let dot = separator(is_after);
            write!(out, "{dot}{name}[{index}]")
        }
        None => Ok(()),
    }
}

/// Appends an array's name with an index in brackets, and the text that follows.
fn push_item(name: &str, index: usize, rest: &str, out: &mut String) -> Result<(), AllocError>
    ensures { OnOk result (string_bytes out.new ≡ string_bytes out.old ++ item_text name.now index rest.now) }
{
    write!(out, "{name}[{index}]{rest}")
}

/// Appends a key, with an index if it names an item; nothing for the whole table.
fn push_key_name(key: Key, out: &mut String) -> Result<(), AllocError>
    ensures { OnOk result (string_bytes out.new ≡ string_bytes out.old ++ key_name key) }
{
    match key {
        Key::Whole => Ok(()),
        Key::Groups => out.push_str("group"),
        Key::Alias => out.push_str("alias"),
        Key::Slaves => out.push_str("slave"),
        Key::Station => out.push_str("station"),
        Key::Areas => out.push_str("area"),
        Key::Sm => out.push_str("sm"),
        Key::Dir => out.push_str("dir"),
        Key::Phys => out.push_str("phys"),
        Key::Task => out.push_str("task"),
        Key::Assigned => out.push_str("assigned"),
        Key::AssignedAt(index) => push_item("assigned", index, "", out),
        Key::Pdos => out.push_str("pdo"),
        Key::Index => out.push_str("index"),
        Key::Entries => out.push_str("entries"),
        Key::Entry(index) => push_item("entries", index, "", out),
        Key::Variable(index) => push_item("entries", index, "[0]", out),
        Key::Bits(index) => push_item("entries", index, "[1]", out),
    }
}

/// Appends the name of a place's key; nothing for the table itself.
#[tactic(auto, unfolding(crate::specs::Places::key_text))]
fn push_key(is_after: bool, key: Key, out: &mut String) -> Result<(), AllocError>
    ensures { OnOk result (string_bytes out.new ≡ string_bytes out.old ++ key_text is_after key) }
{
    if let Key::Whole = key {
        return Ok(());
    }
    out.push_str(separator(is_after))?;
    push_key_name(key, out)
}

/// Appends the keys and indexes of a place.
#[tactic(auto, unfolding(crate::specs::Places::path_text))]
fn push_path(place: Place, out: &mut String) -> Result<(), AllocError>
    ensures { OnOk result (string_bytes out.new ≡ string_bytes out.old ++ path_text place) }
{
    let in_group = place.group != 0;
    push_group(place.group, out)?;
    push_array(in_group, "slave", place.slave, out)?;
    push_array(true, "area", place.area, out)?;
    push_array(true, "pdo", place.pdo, out)?;
    push_key(in_group || place.slave.is_some(), place.key, out)
}

/// Appends the alias of a place's group, in decimal; nothing for 0, which is the top or an alias that cannot be read.
#[tactic(auto, unfolding(crate::specs::Places::place_alias_text))]
fn push_alias(alias: u16, out: &mut String) -> Result<(), AllocError>
    ensures { OnOk result (string_bytes out.new ≡ string_bytes out.old ++ place_alias_text alias) }
{
    if alias == 0 {
        return Ok(());
    }
    write!(out, " alias {alias}")
}

/// Appends the station address of a place's slave, in decimal; nothing for 0, if there is no slave or its address cannot be
/// read.
#[tactic(auto, unfolding(crate::specs::Places::station_text))]
fn push_station(station: u16, out: &mut String) -> Result<(), AllocError>
    ensures { OnOk result (string_bytes out.new ≡ string_bytes out.old ++ station_text station) }
{
    if station == 0 {
        return Ok(());
    }
    write!(out, " station {station}")
}

/// Appends a place, with its group's alias and its slave's station address if they are known.
#[tactic(auto, unfolding(crate::specs::Places::project_place_text))]
fn push_place(place: Place, out: &mut String) -> Result<(), AllocError>
    ensures { OnOk result (string_bytes out.new ≡ string_bytes out.old ++ project_place_text place) }
{
    push_path(place, out)?;
    push_alias(place.alias, out)?;
    push_station(place.station, out)
}

/// Appends the place of the earlier of two things.
fn push_first(first: Option<Place>, out: &mut String) -> Result<(), AllocError>
    ensures { OnOk result (string_bytes out.new ≡ string_bytes out.old ++ first_text first) }
{
    match first {
        Some(place) => {
            out.push_str(" first ")?;
            push_place(place, out)
        }
        None => Ok(()),
    }
}

/// Appends the line of a place, as `at slave[1].station station 7 first slave[0].station station 7`. `AllocError` if an
/// allocation fails; then `out` may have a prefix of the line.
#[tactic(auto, unfolding(crate::specs::Places::location_text))]
pub fn push_location(location: Location, out: &mut String) -> Result<(), AllocError>
    ensures { OnOk result (string_bytes out.new ≡ string_bytes out.old ++ location_text location) }
{
    out.push_str("at ")?;
    push_place(location.place, out)?;
    push_first(location.first, out)?;
    out.push_str("\n")
}
