//! The numbers and words of a project's text, each at its place. The levels call these with what a key holds.
ghost use Rattle.std.specs.Prelude.{◌≡◌, ◌≤◌, option_and_then, option_copied, option_map};
ghost use Rattle.toml.specs.Data.{as_integer, as_str};
ghost use Rattle.toml.specs.View.{view};
ghost use Rattle.hc_project.specs.Values.{byte, direction, direction_of, double_word, held_number, lies_outside, number, word};

use crate::places::Place;
use crate::reading::{Reading, SyntaxFaults};
use hc_records::records::Dir;
use toml::Value;

/// Returns the integer at a key, or `None` if it is absent or another kind.
fn integer_in(found: Option<&Value>) -> Option<i64>
    ensures { result ≡ option_and_then as_integer (option_map (λ v. view v.now) found.entry) }
{
    match found {
        Some(value) => value.as_integer(),
        None => None,
    }
}

/// Returns the string at a key, or `None` if it is absent or another kind.
fn string_in(found: Option<&Value>) -> Option<&str>
    ensures { option_copied result
        ≡ option_and_then as_str (option_map (λ v. view v.now) found.entry) }
{
    match found {
        Some(value) => value.as_str(),
        None => None,
    }
}

/// A needed integer from a low end to a high one. The value is 0 if the integer is negative or over `most`.
fn read_number(most: u32, low: u32, high: u32, place: Place, found: Option<&Value>) -> Reading<u32>
    ensures value { result ≡ number most low high place (option_map (λ v. view v.now) found.entry) }
    ensures small { result.value ≤ most }
{
    match integer_in(found) {
        Some(integer) => Reading {
            value: held_number(most, integer),
            syntax_faults: SyntaxFaults::outside_if(lies_outside(low, high, integer), place),
        },
        None => Reading::missing(place, 0),
    }
}

/// An integer lies outside a range.
fn lies_outside(low: u32, high: u32, integer: i64) -> bool
    ensures { result ≡ lies_outside low high integer }
{
    integer < i64::from(low) || i64::from(high) < integer
}

/// Returns an integer as a record holds it that holds numbers up to `most`: 0 for one that it cannot hold.
fn held_number(most: u32, integer: i64) -> u32
    ensures value { result ≡ held_number most integer }
    ensures small { result ≤ most }
{
    if 0 <= integer && integer <= i64::from(most) {
        integer as u32
    } else {
        0
    }
}

/// A needed integer that is held in 8 bits, from a low end to a high one.
pub fn read_byte(low: u8, high: u8, place: Place, found: Option<&Value>) -> Reading<u8>
    ensures { result ≡ byte low high place (option_map (λ v. view v.now) found.entry) }
{
    let read = read_number(255, low.into(), high.into(), place, found);
    Reading {
        value: read.value as u8,
        syntax_faults: read.syntax_faults,
    }
}

/// A needed integer that is held in 16 bits, from a low end to a high one.
pub fn read_word(low: u16, high: u16, place: Place, found: Option<&Value>) -> Reading<u16>
    ensures { result ≡ word low high place (option_map (λ v. view v.now) found.entry) }
{
    let read = read_number(0xffff, low.into(), high.into(), place, found);
    Reading {
        value: read.value as u16,
        syntax_faults: read.syntax_faults,
    }
}

/// A needed integer of 32 bits, 0 to 4,294,967,295.
pub fn read_double_word(place: Place, found: Option<&Value>) -> Reading<u32>
    ensures { result ≡ double_word place (option_map (λ v. view v.now) found.entry) }
{
    read_number(u32::MAX, 0, u32::MAX, place, found)
}

/// The direction of a word, "out" or "in".
fn direction_of(place: Place, text: &str) -> Reading<Dir>
    ensures { result ≡ direction_of place (Some text.now) }
{
    if text == "out" {
        Reading::right(Dir::Out)
    } else if text == "in" {
        Reading::right(Dir::In)
    } else {
        Reading {
            value: Dir::Out,
            syntax_faults: SyntaxFaults::outside_if(true, place),
        }
    }
}

/// A needed string, "out" or "in".
pub fn read_direction(place: Place, found: Option<&Value>) -> Reading<Dir>
    ensures { result ≡ direction place (option_map (λ v. view v.now) found.entry) }
{
    match string_in(found) {
        Some(text) => direction_of(place, text),
        None => Reading::missing(place, Dir::Out),
    }
}
