//! The arrays of a project's text: every item is read as a value alone would be. Each level reads its lists by these.
ghost use Rattle.std.specs.Prelude.{◌≡◌, ℕ, IfOk, option_and_then, option_map};
ghost use Rattle.toml.specs.Data.{Data, as_array};
ghost use Rattle.toml.specs.View.{array_view, items_view, view};
ghost use Rattle.hc_project.specs.declared.reading.Reading.{Reading};
ghost use Rattle.hc_project.specs.declared.places.Place.{Place};
ghost use Rattle.hc_project.specs.Arrays.{each, needed_array, optional_array, over};
ghost use Rattle.hc_project.specs.Places.{with_key};

use crate::places::{Key, Place};
use crate::reading::{Read, Reading, SyntaxFaults};
use hc_records::items::Items;
use std::alloc::{AllocError, Global};
use toml::Value;
use toml::value::Array;

/// An item of an array that can be read.
pub trait Readable: Drop {
    /// The reading of a value of the tree, with the most items of its array, the place of its table and its index.
    ghost reads: { ℕ → Place → ℕ → Data → Reading Self };

    /// Reads a value. `AllocError` if an allocation fails.
    fn read(alloc: Global, most: usize, place: Place, index: usize, value: &Value) -> Read<Self>
        ensures { IfOk result (λ reading. reading ≡ reads most place index (view value.now)) };
}

/// Returns the fault of an item that is over its array's limit, if this many are before it.
pub fn over(most: usize, index: usize, place: Place) -> SyntaxFaults
    ensures { result ≡ over most index place }
{
    SyntaxFaults::outside_if(index >= most, place)
}

/// Returns the array at a key, or `None` if it is absent or another kind.
pub fn array_in(found: Option<&Value>) -> Option<&Array>
    ensures { option_map (λ v. array_view v.now) result
        ≡ option_and_then as_array (option_map (λ v. view v.now) found.entry) }
{
    match found {
        Some(value) => value.as_array(),
        None => None,
    }
}

/// Reads every item.
fn read_each<T: Readable>(
    alloc: Global,
    most: usize,
    place: Place,
    values: &[Value],
) -> Read<Items<T>>
    ensures { IfOk result (λ reading. reading ≡ each (T.reads most place) 0 (items_view values.now)) }
{
    let mut items = Items::new(alloc);
    let mut syntax_faults = SyntaxFaults::none();
    for index in 0..values.len() {
        let reading = T::read(alloc, most, place, index, &values[index])?;
        syntax_faults = syntax_faults.both(reading.syntax_faults);
        items.push(reading.value)?;
    }
    Ok(Reading {
        value: items,
        syntax_faults,
    })
}

/// Reads a needed array of at most `most` items at a key of a table.
pub fn read_needed<T: Readable>(
    alloc: Global,
    most: usize,
    place: Place,
    key: Key,
    found: Option<&Value>,
) -> Read<Items<T>>
    ensures { IfOk result (λ reading. reading
        ≡ needed_array (each (T.reads most place) 0) (with_key place key) (option_map (λ v. view v.now) found.entry)) }
{
    match array_in(found) {
        Some(array) => read_each::<T>(alloc, most, place, array.as_slice()),
        None => Ok(Reading::missing(place.with_key(key), Items::new(alloc))),
    }
}

/// Reads an array of at most `most` items at a key of a table. If the key is absent, the array is empty.
pub fn read_optional<T: Readable>(
    alloc: Global,
    most: usize,
    place: Place,
    key: Key,
    found: Option<&Value>,
) -> Read<Items<T>>
    ensures { IfOk result (λ reading. reading
        ≡ optional_array (each (T.reads most place) 0) (with_key place key) (option_map (λ v. view v.now) found.entry)) }
{
    match found {
        Some(_) => read_needed::<T>(alloc, most, place, key, found),
        None => Ok(Reading::right(Items::new(alloc))),
    }
}
