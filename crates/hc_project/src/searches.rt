//! Searches for the faults from `RepeatedAlias` to `AreaTooBig` in the groups that were read: each finds the first place at
//! which the fault's condition holds.
ghost use Rattle.std.specs.Prelude.{◌≡◌, ◌++◌, ◌<◌, ◌≤◌, ◌==◌, ℕ, Option, length, nat_lt, IfOk, OnOk, option_map};
ghost use Rattle.hc_project.specs.declared.places.Place.{Place};
ghost use Rattle.hc_project.specs.declared.places.Location.{Location};
ghost use Rattle.hc_records.specs.Area.{width};
ghost use Rattle.hc_project.specs.Places.{first_from};
ghost use Rattle.hc_project.specs.Repeated.{alias_at, area_unknown, offered_variables, area_wide, areas_overlapping, assigned_unknown, assigned_wide, each_at, entry_variable, extent, extent_at, first_repeat, group_at, group_variables, in_areas, in_slaves, index_of, manager_at, managers_repeated, offered_at, pdo_variables, group_slave_place, slave_variables, slave_station, stations_at};

use crate::places::{Key, Location, Place};
use crate::reading::first_some;
use crate::repeats::{
    Added, Extent, Listed, Numbers, Search, add_each, first_meeting, first_repeat,
};
use hc_records::limits::MOST_AREA_BITS;
use hc_records::records::{Area, Entry, Group, Pdo, Slave};
use std::alloc::{AllocError, Global};
use std::marker::PhantomData;

/// The place of a group; the mandatory one has number 0.
fn group_at(index: usize, group: &Group) -> Place
    ensures { result ≡ group_at index group.now }
{
    Place::document().in_group(index, group.alias)
}

/// The place of a slave.
fn slave_at(place: Place, index: usize, slave: &Slave) -> Place
    ensures { result ≡ group_slave_place place index slave.now }
{
    place.in_slave(index, slave.station)
}

/// The aliases of groups.
pub struct Aliases;

impl Listed<Group> for Aliases {
    ghost lists = { alias_at };

    fn add(list: &mut Numbers, _place: Place, index: usize, item: &Group) -> Added {
        let place = group_at(index, item).with_key(Key::Alias);
        list.push((place, u32::from(item.alias)))?;
        Ok(())
    }
}

/// The station addresses of slaves.
pub struct Stations;

impl Listed<Slave> for Stations {
    ghost lists = { slave_station };

    fn add(list: &mut Numbers, place: Place, index: usize, item: &Slave) -> Added {
        let here = slave_at(place, index, item).with_key(Key::Station);
        list.push((here, u32::from(item.station)))?;
        Ok(())
    }
}

impl Listed<Group> for Stations {
    ghost lists = { stations_at };

    fn add(list: &mut Numbers, _place: Place, index: usize, item: &Group) -> Added {
        add_each::<Slave, Stations>(list, group_at(index, item), item.slaves.as_slice())
    }
}

/// The variables of the entries that areas offer.
pub struct Variables;

impl Listed<Entry> for Variables {
    ghost lists = { entry_variable };

    fn add(list: &mut Numbers, place: Place, index: usize, item: &Entry) -> Added {
        if let Some(variable) = item.0 {
            list.push((place.with_key(Key::Variable(index)), variable.number()))?;
        }
        Ok(())
    }
}

impl Listed<Pdo> for Variables {
    ghost lists = { pdo_variables };

    fn add(list: &mut Numbers, place: Place, index: usize, item: &Pdo) -> Added {
        add_each::<Entry, Variables>(list, place.in_pdo(index), item.entries.as_slice())
    }
}

impl Listed<Area> for Variables {
    ghost lists = { offered_variables };

    fn add(list: &mut Numbers, place: Place, index: usize, item: &Area) -> Added {
        add_each::<Pdo, Variables>(list, place.in_area(index), item.offered.as_slice())
    }
}

impl Listed<Slave> for Variables {
    ghost lists = { slave_variables };

    fn add(list: &mut Numbers, place: Place, index: usize, item: &Slave) -> Added {
        add_each::<Area, Variables>(list, slave_at(place, index, item), item.areas.as_slice())
    }
}

impl Listed<Group> for Variables {
    ghost lists = { group_variables };

    fn add(list: &mut Numbers, _place: Place, index: usize, item: &Group) -> Added {
        add_each::<Slave, Variables>(list, group_at(index, item), item.slaves.as_slice())
    }
}

/// The sync managers of areas.
pub struct Managers;

impl Listed<Area> for Managers {
    ghost lists = { manager_at };

    fn add(list: &mut Numbers, place: Place, index: usize, item: &Area) -> Added {
        list.push((place.in_area(index).with_key(Key::Sm), u32::from(item.sm)))?;
        Ok(())
    }
}

/// The indexes of offered PDOs.
pub struct Offered;

impl Listed<Pdo> for Offered {
    ghost lists = { offered_at };

    fn add(list: &mut Numbers, place: Place, index: usize, item: &Pdo) -> Added {
        list.push((
            place.in_pdo(index).with_key(Key::Index),
            u32::from(item.index),
        ))?;
        Ok(())
    }
}

/// The first number that was before, among those of an array's items.
pub fn find_repeat<T, L: Listed<T>>(alloc: Global, place: Place, items: &[T]) -> Search
    ensures { IfOk result (λ found. found ≡ first_repeat (each_at (L.lists place) 0 items.now)) }
{
    let mut list = Vec::new(alloc);
    add_each::<T, L>(&mut list, place, items)?;
    first_repeat(alloc, &list)
}

/// A search in a record.
pub trait Sought<T> {
    /// The first place, by the record's index in the array that is at a place.
    ghost finds: { Place → ℕ → T → Option Location };

    /// Finds the first place, or fails with `AllocError`.
    fn find(alloc: Global, place: Place, index: usize, item: &T) -> Search
        ensures { IfOk result (λ found. found ≡ finds place index item.now) };
}

/// Searches items in their order, and returns the first place that is found. Fails with `AllocError` if an allocation fails.
#[tactic(auto, unfolding(crate::specs::Places::first_some))]
pub fn first_in<T, S: Sought<T>>(alloc: Global, place: Place, items: &[T]) -> Search
    ensures { IfOk result (λ found. found ≡ first_from (S.finds place) 0 items.now) }
{
    for index in 0..items.len() {
        let found = S::find(alloc, place, index, &items[index])?;
        if found.is_some() {
            return Ok(found);
        }
    }
    Ok(None)
}

/// A search in each slave of a group, or in each area of a slave.
pub struct Within<S> {
    sought: PhantomData<S>,
}

impl<S: Sought<Slave>> Sought<Group> for Within<S> {
    ghost finds = { in_slaves S.finds };

    fn find(alloc: Global, _place: Place, index: usize, item: &Group) -> Search {
        first_in::<Slave, S>(alloc, group_at(index, item), item.slaves.as_slice())
    }
}

impl<S: Sought<Area>> Sought<Slave> for Within<S> {
    ghost finds = { in_areas S.finds };

    fn find(alloc: Global, place: Place, index: usize, item: &Slave) -> Search {
        first_in::<Area, S>(alloc, slave_at(place, index, item), item.areas.as_slice())
    }
}

/// Two areas of a slave at one sync manager.
pub struct RepeatedManagers;

impl Sought<Slave> for RepeatedManagers {
    ghost finds = { managers_repeated };

    fn find(alloc: Global, place: Place, index: usize, item: &Slave) -> Search {
        find_repeat::<Area, Managers>(alloc, slave_at(place, index, item), item.areas.as_slice())
    }
}

/// The bytes of its slave's memory that an area may take: the first address, and how many.
fn extent_of(area: &Area) -> Extent
    ensures { result ≡ extent area.now }
{
    Extent {
        start: area.phys,
        bytes: area.reach() as u16,
    }
}

/// The memory that each area may take.
fn extents(alloc: Global, place: Place, areas: &[Area]) -> Result<Vec<(Place, Extent)>, AllocError>
    ensures { IfOk result (λ list. list.items ≡ each_at (extent_at place) 0 areas.now) }
{
    let mut list = Vec::new(alloc);
    for index in 0..areas.len() {
        list.push((place.in_area(index), extent_of(&areas[index])))?;
    }
    Ok(list)
}

/// Two areas of a slave that overlap.
pub struct OverlappingAreas;

impl Sought<Slave> for OverlappingAreas {
    ghost finds = { areas_overlapping };

    fn find(alloc: Global, place: Place, index: usize, item: &Slave) -> Search {
        let list = extents(alloc, slave_at(place, index, item), item.areas.as_slice())?;
        Ok(first_meeting(&list))
    }
}

/// Returns the index of a number's first occurrence; none if it does not occur.
#[tactic(auto, unfolding(crate::specs::Places::first_some))]
fn index_of(numbers: &[u16], number: u16) -> Option<usize>
    ensures { result ≡ index_of number numbers.now }
{
    for index in 0..numbers.len() {
        if number == numbers[index] {
            return Some(index);
        }
    }
    None
}

/// Returns the place of an assigned index that is not offered or occurred before.
fn find_at_assigned(area: &Area, place: Place, index: usize, number: u16) -> Option<Location>
    requires { index ≤ length area.now.assigned }
    ensures { result ≡ assigned_unknown area.now place index number }
{
    let here = place.with_key(Key::AssignedAt(index));
    if !area.offers(number) {
        return Some(Location::single(here));
    }
    let before = &area.assigned.as_slice()[..index];
    match index_of(before, number) {
        Some(earlier) => Some(Location::pair(place.with_key(Key::AssignedAt(earlier)), here)),
        None => None,
    }
}

/// Returns the first assigned index that is not offered or occurred before.
#[tactic(auto, unfolding(crate::specs::Places::first_some))]
fn find_in_assigned(place: Place, area: &Area) -> Option<Location>
    ensures { result ≡ first_from (assigned_unknown area.now place) 0 area.now.assigned }
{
    let assigned = area.assigned.as_slice();
    for index in 0..assigned.len() {
        let found = find_at_assigned(area, place, index, assigned[index]);
        if found.is_some() {
            return found;
        }
    }
    None
}

/// Returns the place of an area whose assigned PDOs are not offered PDOs, each once.
pub struct UnknownPdos;

impl Sought<Area> for UnknownPdos {
    ghost finds = { area_unknown };

    fn find(alloc: Global, place: Place, index: usize, item: &Area) -> Search {
        let here = place.in_area(index);
        let offered = find_repeat::<Pdo, Offered>(alloc, here, item.offered.as_slice())?;
        Ok(first_some(find_in_assigned(here, item), offered))
    }
}

/// An area has more bits than a datagram with these PDOs assigned.
fn is_wide_with(area: &Area, indexes: &[u16]) -> bool
    ensures { result ≡ nat_lt MOST_AREA_BITS (width (record area.now { assigned = indexes.now })) }
{
    MOST_AREA_BITS < area.width_with(indexes)
}

/// Returns the place of an assigned index, if the area has more bits than a datagram with it.
fn find_at_wide(area: &Area, place: Place, index: usize, number: u16) -> Option<Location>
    requires { index < length area.now.assigned }
    ensures { result ≡ assigned_wide area.now place index number }
{
    if is_wide_with(area, &area.assigned.as_slice()[..index + 1]) {
        Some(Location::single(place.with_key(Key::AssignedAt(index))))
    } else {
        None
    }
}

/// The first assigned index that brings an area over a datagram's bits.
#[tactic(auto, unfolding(crate::specs::Places::first_some))]
fn find_wide(place: Place, area: &Area) -> Option<Location>
    ensures { result ≡ first_from (assigned_wide area.now place) 0 area.now.assigned }
{
    let assigned = area.assigned.as_slice();
    for index in 0..assigned.len() {
        let found = find_at_wide(area, place, index, assigned[index]);
        if found.is_some() {
            return found;
        }
    }
    None
}

/// An area whose assigned PDOs have more bits than a datagram.
pub struct WideAreas;

impl Sought<Area> for WideAreas {
    ghost finds = { area_wide };

    fn find(_alloc: Global, place: Place, index: usize, item: &Area) -> Search {
        Ok(find_wide(place.in_area(index), item))
    }
}
