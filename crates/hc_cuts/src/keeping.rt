//! The datagrams of a task that an edit leaves as they are: each carries the areas that it carried, at the same bits.
ghost use Rattle.std.specs.Prelude.{◌≡◌, ◌&&◌, ◌++◌, ◌∷◌, List, false, not, slice_get};
ghost use Rattle.std.specs.Option.{option_map_or};
ghost use Rattle.hc_records.specs.Boundaries.{meets_hull};
ghost use Rattle.hc_records.specs.Keys.{is_before, same_key};
ghost use Rattle.hc_records.specs.TaskList.{Keyed};
ghost use Rattle.hc_records.specs.declared.keys.Key.{Key};
ghost use Rattle.hc_records.specs.declared.keys.TheConstants.Key.{END};
ghost use Rattle.hc_cuts.specs.Keeping.{is_unchanged, is_unchanged_by, is_unchanged_up_to, is_unchanged_up_to_by, AreKnownOfTask, HoldsBefore};
ghost use Rattle.hc_cuts.specs.Repair.{meets_either};

use crate::cuts::end_of;
use crate::hulls::Hulls;
use crate::repair::meets_either;
use hc_records::keys::Key;

/// Returns whether the datagram with a number began at a key, by the keys at which datagrams began.
fn began_at(starts: &[Key], number: usize, key: Key) -> bool
    ensures { result ≡ option_map_or (same_key key) (slice_get starts.now number) false }
{
    match starts.get(number) {
        Some(start) => key.is_same(*start),
        None => false,
    }
}

/// Returns whether a datagram began at the key at which its span does, which meets no hull.
fn is_unchanged_span(old_starts: &[Key], hulls: &Hulls, number: usize, span: (Key, Key)) -> bool
    ensures { result ≡ option_map_or (same_key span.0) (slice_get old_starts.now number) false && not (meets_either hulls.now span) }
{
    began_at(old_starts, number, span.0) && !meets_either(hulls, span)
}

/// Returns whether a datagram stays, by these hulls.
fn is_unchanged_by(old_starts: &[Key], new_starts: &[Key], hulls: &Hulls, number: usize) -> bool
    ensures { result ≡ is_unchanged_by hulls.now old_starts.now new_starts.now number }
{
    if number >= new_starts.len() {
        return false;
    }
    let span = (new_starts[number], end_of(new_starts, number));
    is_unchanged_span(old_starts, hulls, number, span)
}

/// Returns whether an edit leaves the datagram of a task with a number, from 0: it began at the key at which it begins now, and
/// the areas up to the next boundary meet no hull of the touched keys. The starts are those of the task's list before the edit
/// and after it, the keys at which their datagrams begin; a list without areas has `Key::START` alone. A datagram that does not
/// exist does not stay. It allocates nothing.
pub fn is_unchanged(old_starts: &[Key], new_starts: &[Key], hulls: &Hulls, number: u16) -> bool
    ensures { (old new : List Keyed) → AreKnownOfTask old new old_starts.now new_starts.now hulls.now → result ≡ is_unchanged old new number }
{
    is_unchanged_by(old_starts, new_starts, hulls, usize::from(number))
}

/// Returns the first key that makes an interval from a key on meet a hull; `Key::END` if none does.
fn first_met(hull: Option<(Key, Key)>, start: Key) -> Key
    ensures { HoldsBefore result (λ key. not (meets_hull hull (start, key))) }
{
    match hull {
        Some((first, last)) if !last.is_before(start) => first,
        _ => Key::END,
    }
}

/// Returns the lower of two keys.
fn lower(one: Key, other: Key) -> Key
    ensures { (key : Key) → is_before key result ≡ (is_before key one && is_before key other) }
{
    if one.is_before(other) { one } else { other }
}

/// Returns the first key that makes an interval from another one on meet either hull; `Key::END` if none does.
fn first_met_of_either(hulls: &Hulls, start: Key) -> Key
    ensures { HoldsBefore result (λ key. not (meets_either hulls.now (start, key))) }
{
    lower(
        first_met(hulls.outputs, start),
        first_met(hulls.inputs, start),
    )
}

/// Returns the key before which the areas of a datagram stay, by these hulls.
fn unchanged_until_by(old_starts: &[Key], new_starts: &[Key], hulls: &Hulls, number: usize) -> Key
    ensures { HoldsBefore result (is_unchanged_up_to_by hulls.now old_starts.now new_starts.now number) }
{
    match new_starts.get(number) {
        Some(start) if began_at(old_starts, number, *start) => {
            first_met_of_either(hulls, *start)
        }
        _ => Key::START,
    }
}

/// Returns the key before which the areas of a datagram of a task stay at their places, by the number of the datagram, from 0.
/// If it began at the key at which it begins now, this is the first of its keys that makes the interval from there on meet a
/// hull of the touched keys, or `Key::END` if none does. If it began elsewhere or does not exist, it is `Key::START`. Starts
/// and hulls are those of `is_unchanged`. It allocates nothing.
pub fn unchanged_until(old_starts: &[Key], new_starts: &[Key], hulls: &Hulls, number: u16) -> Key
    ensures { (old new : List Keyed) → AreKnownOfTask old new old_starts.now new_starts.now hulls.now → HoldsBefore result (is_unchanged_up_to old new number) }
{
    unchanged_until_by(old_starts, new_starts, hulls, usize::from(number))
}
