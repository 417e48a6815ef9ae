//! The levels of a project's text, from the entry of a PDO up to the document. A value that is no table has no keys, so a
//! needed one is absent. Unknown keys are never read. The keys of a table are read in the order of docs/use/PROJECT_TEXT.md,
//! since a parsed table does not record their order; the items of an array are read in the order of the text.
ghost use Rattle.std.specs.Prelude.{◌≡◌, ◌<◌, ◌+◌, ◌∷◌, nat_lt, IfOk, option_map};
ghost use Rattle.toml.specs.View.{items_view, view};
ghost use Rattle.hc_records.specs.Project.{reach};
ghost use Rattle.hc_project.specs.declared.places.Key.TheVariants as key;
ghost use Rattle.hc_project.specs.Arrays.{optional_array};
ghost use Rattle.hc_project.specs.Levels.{area, assigned_index, declared_groups, entry, group, groups, pdo, slave};
ghost use Rattle.hc_project.specs.Places.{document, with_key};

use crate::arrays::{Readable, array_in, over, read_needed, read_optional};
use crate::places::{Key, Place};
use crate::reading::{Read, Reading, SyntaxFaults};
use crate::values::{read_byte, read_direction, read_double_word, read_word};
use hc_records::items::Items;
use hc_records::limits::{
    LAST_SYNC_MANAGER, MEMORY_END, MEMORY_START, MOST_AREAS, MOST_ENTRIES, MOST_ENTRY_BITS,
    MOST_GROUPS, MOST_PDOS, MOST_SLAVES, TASKS,
};
use hc_records::records::{Area, Entry, Group, Pdo, Slave, VarId};
use std::alloc::{AllocError, Global};
use toml::Value;

/// The index of an assigned PDO.
impl Readable for u16 {
    ghost reads = { assigned_index };

    fn read(_alloc: Global, most: usize, place: Place, index: usize, value: &Value) -> Read<u16> {
        let here = place.with_key(Key::AssignedAt(index));
        let number = read_word(0, u16::MAX, here, Some(value));
        Ok(Reading {
            value: number.value,
            syntax_faults: over(most, index, here).both(number.syntax_faults),
        })
    }
}

impl Readable for Entry {
    ghost reads = { entry };

    fn read(_alloc: Global, most: usize, place: Place, index: usize, value: &Value) -> Read<Entry> {
        let here = place.with_key(Key::Entry(index));
        let variable = read_double_word(place.with_key(Key::Variable(index)), value.get(0usize));
        let bits = read_byte(
            1,
            MOST_ENTRY_BITS,
            place.with_key(Key::Bits(index)),
            value.get(1usize),
        );
        Ok(Reading {
            value: (VarId::new(variable.value), bits.value),
            syntax_faults: SyntaxFaults::joined(&[
                over(most, index, here),
                variable.syntax_faults,
                bits.syntax_faults,
                SyntaxFaults::missing_if(value.get(2usize).is_some(), here),
            ]),
        })
    }
}

impl Readable for Pdo {
    ghost reads = { pdo };

    fn read(alloc: Global, most: usize, place: Place, index: usize, value: &Value) -> Read<Pdo> {
        let here = place.in_pdo(index);
        let number = read_word(0, u16::MAX, here.with_key(Key::Index), value.get("index"));
        let entries = read_needed::<Entry>(
            alloc,
            MOST_ENTRIES,
            here,
            Key::Entries,
            value.get("entries"),
        )?;
        Ok(Reading {
            syntax_faults: SyntaxFaults::joined(&[
                over(most, index, here),
                number.syntax_faults,
                entries.syntax_faults,
            ]),
            value: Pdo {
                index: number.value,
                entries: entries.value,
            },
        })
    }
}

/// An area's reach, which begins at its first byte, ends after the memory.
fn is_past_memory(area: &Area) -> bool
    ensures { result ≡ nat_lt MEMORY_END (area.now.phys + reach area.now) }
{
    u32::from(MEMORY_END) < u32::from(area.phys) + area.reach()
}

impl Readable for Area {
    ghost reads = { area };

    fn read(alloc: Global, most: usize, place: Place, index: usize, value: &Value) -> Read<Area> {
        let here = place.in_area(index);
        let sm = read_byte(
            0,
            LAST_SYNC_MANAGER,
            here.with_key(Key::Sm),
            value.get("sm"),
        );
        let dir = read_direction(here.with_key(Key::Dir), value.get("dir"));
        let at_phys = here.with_key(Key::Phys);
        let phys = read_word(MEMORY_START, MEMORY_END - 1, at_phys, value.get("phys"));
        let task = read_byte(0, TASKS - 1, here.with_key(Key::Task), value.get("task"));
        let assigned = read_needed::<u16>(
            alloc,
            MOST_PDOS,
            here,
            Key::Assigned,
            value.get("assigned"),
        )?;
        let offered = read_optional::<Pdo>(alloc, MOST_PDOS, here, Key::Pdos, value.get("pdo"))?;
        let area = Area {
            sm: sm.value,
            dir: dir.value,
            phys: phys.value,
            offered: offered.value,
            assigned: assigned.value,
            task: task.value,
        };
        Ok(Reading {
            syntax_faults: SyntaxFaults::joined(&[
                over(most, index, here),
                sm.syntax_faults,
                dir.syntax_faults,
                phys.syntax_faults,
                SyntaxFaults::outside_if(is_past_memory(&area), at_phys),
                task.syntax_faults,
                assigned.syntax_faults,
                offered.syntax_faults,
            ]),
            value: area,
        })
    }
}

impl Readable for Slave {
    ghost reads = { slave };

    fn read(alloc: Global, most: usize, place: Place, index: usize, value: &Value) -> Read<Slave> {
        let unread = place.in_slave(index, 0).with_key(Key::Station);
        let station = read_word(1, u16::MAX, unread, value.get("station"));
        let here = place.in_slave(index, station.value);
        let areas = read_optional::<Area>(alloc, MOST_AREAS, here, Key::Areas, value.get("area"))?;
        Ok(Reading {
            syntax_faults: SyntaxFaults::joined(&[
                over(most, index, here),
                station.syntax_faults,
                areas.syntax_faults,
            ]),
            value: Slave {
                station: station.value,
                areas: areas.value,
            },
        })
    }
}

/// Reads an optional group by its index, with the number of slaves that fit.
fn read_group(alloc: Global, room: usize, index: usize, value: &Value) -> Read<Group>
    requires { index < usize.MAX }
    ensures { IfOk result (λ reading. reading ≡ group room index (view value.now)) }
{
    let unread = Place::document()
        .in_group(index + 1, 0)
        .with_key(Key::Alias);
    let alias = read_word(1, u16::MAX, unread, value.get("alias"));
    let here = Place::document().in_group(index + 1, alias.value);
    let slaves = read_needed::<Slave>(alloc, room, here, Key::Slaves, value.get("slave"))?;
    let is_empty = slaves.value.len() == 0;
    Ok(Reading {
        syntax_faults: SyntaxFaults::joined(&[
            over(MOST_GROUPS - 1, index, here),
            alias.syntax_faults,
            slaves.syntax_faults,
            SyntaxFaults::outside_if(is_empty, here.with_key(Key::Slaves)),
        ]),
        value: Group {
            alias: alias.value,
            slaves: slaves.value,
        },
    })
}

/// Reads the optional groups, with the number of slaves that fit together.
fn read_each_group(alloc: Global, room: usize, values: &[Value]) -> Read<Items<Group>>
    ensures { IfOk result (λ reading. reading ≡ groups room 0 (items_view values.now)) }
{
    let mut items = Items::new(alloc);
    let mut syntax_faults = SyntaxFaults::none();
    let mut left = room;
    for index in 0..values.len() {
        let reading = read_group(alloc, left, index, &values[index])?;
        left = left.saturating_sub(reading.value.slaves.len());
        syntax_faults = syntax_faults.both(reading.syntax_faults);
        items.push(reading.value)?;
    }
    Ok(Reading {
        value: items,
        syntax_faults,
    })
}

/// Reads the array `group`, which may be absent.
fn read_others(alloc: Global, room: usize, found: Option<&Value>) -> Read<Items<Group>>
    ensures { IfOk result (λ reading. reading
        ≡ optional_array (groups room 0) (with_key document key.Groups) (option_map (λ v. view v.now) found.entry)) }
{
    if found.is_none() {
        return Ok(Reading::right(Items::new(alloc)));
    }
    match array_in(found) {
        Some(array) => read_each_group(alloc, room, array.as_slice()),
        None => Ok(Reading::missing(Place::document().with_key(Key::Groups), Items::new(alloc))),
    }
}

/// The groups, with one more in front.
fn with_first(first: Group, others: Items<Group>) -> Result<Items<Group>, AllocError>
    ensures { IfOk result (λ groups. groups ≡ first ∷ others) }
{
    let mut groups = others.into_vec();
    groups.insert(0, first)?;
    Ok(Items::of(groups))
}

/// Reads the declared groups of a document, the mandatory one first. `AllocError` if an allocation fails.
pub fn read_groups(alloc: Global, document: &Value) -> Read<Items<Group>>
    ensures { IfOk result (λ reading. reading ≡ declared_groups (view document.now)) }
{
    let top = Place::document();
    let mandatory = read_optional::<Slave>(
        alloc,
        MOST_SLAVES,
        top,
        Key::Slaves,
        document.get("slave"),
    )?;
    let room = MOST_SLAVES.saturating_sub(mandatory.value.len());
    let others = read_others(alloc, room, document.get("group"))?;
    let syntax_faults = mandatory.syntax_faults.both(others.syntax_faults);
    let first = Group {
        alias: 0,
        slaves: mandatory.value,
    };
    Ok(Reading {
        value: with_first(first, others.value)?,
        syntax_faults,
    })
}
