//! Repeated numbers in a list of numbers with their places, and runs of memory that overlap.
ghost use Rattle.std.specs.Prelude.{◌≡◌, ◌++◌, ◌==◌, ℕ, List, false, true, find, option_map, IfOk, OnOk};
ghost use Rattle.std.specs.List.{list_any};
ghost use Rattle.hc_project.specs.declared.places.Place.{Place};
ghost use Rattle.hc_project.specs.Repeated.{each_at, first_related, first_repeat, extents_meet};

use crate::places::{Location, Place};
use std::alloc::{AllocError, Global};
use std::collections::BTreeSet;

/// A run of a slave's memory.
#[derive(Clone, Copy, Debug, PartialEq, Eq)]
pub struct Extent {
    /// Its first byte.
    pub start: u16,
    /// The number of its bytes, at most those of the longest datagram.
    pub bytes: u16,
}

/// Numbers with their places, in the order of the text.
pub type Numbers = Vec<(Place, u32)>;

/// Numbers are added, or an allocation failed.
pub type Added = Result<(), AllocError>;

/// The place that a search finds, none if there is none, or `AllocError` if an allocation fails.
pub type Search = Result<Option<Location>, AllocError>;

/// A record with numbers that go to a list, with their places.
pub trait Listed<T> {
    /// Its numbers, by its index in the array that is at a place.
    ghost lists: { Place → ℕ → T → List (Place × ℕ) };

    /// Appends its numbers to a list. `AllocError` if an allocation fails.
    fn add(list: &mut Numbers, place: Place, index: usize, item: &T) -> Added
        ensures { OnOk result (list.new.items ≡ list.old.items ++ lists place index item.now) };
}

/// Adds the numbers of each item of an array.
pub fn add_each<T, L: Listed<T>>(list: &mut Numbers, place: Place, items: &[T]) -> Added
    ensures { OnOk result (list.new.items ≡ list.old.items ++ each_at (L.lists place) 0 items.now) }
{
    for index in 0..items.len() {
        L::add(list, place, index, &items[index])?;
    }
    Ok(())
}

/// Returns the place of the first such number.
fn place_of_number(list: &[(Place, u32)], number: u32) -> Option<Place>
    ensures { result ≡ option_map (λ x. x.0) (find (λ x. number == x.1) list.now) }
{
    for (place, other) in list {
        if number == *other {
            return Some(*place);
        }
    }
    None
}

/// Returns the place of a number among those before it, which are not searched if it is new.
#[tactic(auto, using(crate::proofs::Earlier::none_found))]
fn earlier_place(is_new: bool, before: &[(Place, u32)], number: u32) -> Option<Place>
    requires { is_new ≡ true → list_any (λ x. number == x.1) before.now ≡ false }
    ensures { result ≡ option_map (λ x. x.0) (find (λ x. number == x.1) before.now) }
{
    if is_new {
        None
    } else {
        place_of_number(before, number)
    }
}

/// Returns the first number that occurred before, by a set of those seen.
#[tactic(auto, unfolding(crate::specs::Places::first_some))]
pub fn first_repeat(alloc: Global, list: &[(Place, u32)]) -> Search
    ensures { IfOk result (λ found. found ≡ first_repeat list.now) }
{
    let mut seen = BTreeSet::new(alloc);
    for index in 0..list.len() {
        let (place, number) = list[index];
        let is_new = seen.insert(number)?;
        if let Some(first) = earlier_place(is_new, &list[..index], number) {
            return Ok(Some(Location::pair(first, place)));
        }
    }
    Ok(None)
}

/// Two runs have a byte in common.
fn do_meet(a: Extent, b: Extent) -> bool
    ensures { result ≡ extents_meet a b }
{
    let a_end = u32::from(a.start) + u32::from(a.bytes);
    let b_end = u32::from(b.start) + u32::from(b.bytes);
    0 < a.bytes && 0 < b.bytes && u32::from(a.start) < b_end && u32::from(b.start) < a_end
}

/// Returns the place of the first run that overlaps another.
fn place_of_meeting(list: &[(Place, Extent)], extent: Extent) -> Option<Place>
    ensures { result ≡ option_map (λ x. x.0) (find (λ x. extents_meet x.1 extent) list.now) }
{
    for (place, other) in list {
        if do_meet(*other, extent) {
            return Some(*place);
        }
    }
    None
}

/// The first run that an earlier one meets.
#[tactic(auto, unfolding(crate::specs::Places::first_some))]
pub fn first_meeting(list: &[(Place, Extent)]) -> Option<Location>
    ensures { result ≡ first_related extents_meet list.now }
{
    for index in 0..list.len() {
        let (place, extent) = list[index];
        if let Some(first) = place_of_meeting(&list[..index], extent) {
            return Some(Location::pair(first, place));
        }
    }
    None
}
