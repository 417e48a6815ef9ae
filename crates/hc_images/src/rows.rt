//! The bytes of all datagrams that a line can have: made for a table, and changed by an edit.
ghost use Rattle.std.specs.Prelude.{◌≡◌, ◌+◌, ◌*◌, ◌<◌, ◌≤◌, ℕ, [], IfOk, IfSome, OnOk, Some, length, option_and_then, slice_index_or};
ghost use Rattle.std.specs.Int.{bit_at};
ghost use Rattle.std.specs.Option.{MatchOption};
ghost use Rattle.hc_records.specs.declared.limits.TheConstants.{MOST_DATAGRAMS, TASKS};
ghost use Rattle.hc_places.specs.Swap.{ChangesAscend};
ghost use Rattle.hc_images.specs.Packed.{Carries, IsLaidOut, length_in, slot_bytes};
ghost use Rattle.hc_images.specs.Pieces.{PlacesAreApart, AddsRoom, AreBlank, Fit, HasRoomToGrow, HasTaskRoom, ReadsEach, Resizes, ResizesEach, WritesAt, WritesEach, byte_count, table_data_length, of_changed, of_list, output_of, ReadsAt};

use crate::row::DatagramBytes;
use hc_places::swap::{ChangedRow, ChangedTask};
use hc_places::table::{Place, Places, TaskTable};
use hc_records::limits::{MOST_DATAGRAMS, TASKS};
use hc_records::records::Dir;
use hc_records::slots::{SLOTS, slot_number};
use hc_records::task::Task;
use std::alloc::{AllocError, Global};

/// Returns the number of bytes of a datagram in a table; 0 if the task has no such datagram.
fn length_in(places: &Places, task: u8, number: u8) -> u16
    ensures length { result ≡ length_in places.now task number }
    ensures most { result ≤ 1486 }
{
    match places.datagram(task, number) {
        Some(datagram) => datagram.length,
        None => 0,
    }
}

/// Returns rows of zeros for the datagrams of a table. `AllocError` if an allocation fails.
pub(crate) fn blank_rows(alloc: Global, places: &Places) -> Result<Vec<DatagramBytes>, AllocError>
    ensures { IfOk result (λ rows. AreBlank places.now rows.items) }
{
    let mut rows = Vec::with_capacity(alloc, SLOTS)?;
    for slot in 0..SLOTS {
        let length = length_in(
            places,
            (slot / MOST_DATAGRAMS) as u8,
            (slot % MOST_DATAGRAMS) as u8,
        );
        let row = DatagramBytes::zeros(alloc, length)?;
        rows.push(row)?;
    }
    Ok(rows)
}

/// Returns a place, if there is one and it is an output variable's.
pub(crate) fn output(place: Option<Place>) -> Option<Place>
    ensures { result ≡ option_and_then output_of place }
{
    let place = place?;
    if place.dir == Dir::Out {
        Some(place)
    } else {
        None
    }
}

/// Writes the lowest bits of a value at a place.
fn put_at(rows: &mut [DatagramBytes], place: Place, value: u64)
    requires all { length rows.old ≡ MOST_DATAGRAMS * TASKS }
    requires within { place.bit + place.bits ≤ 8 * length (slot_bytes rows.old place.task place.datagram) }
    ensures { WritesAt (Some place) (bit_at value) rows.old rows.new }
{
    rows[slot_number(place.task, place.datagram)].put(place.bit, place.bits, value);
}

/// Returns the bits at a place, as a number.
fn value_at(rows: &[DatagramBytes], place: Place) -> u64
    requires all { length rows.now ≡ MOST_DATAGRAMS * TASKS }
    requires within { place.bit + place.bits ≤ 8 * length (slot_bytes rows.now place.task place.datagram) }
    ensures { ReadsAt rows.now place result }
{
    rows[slot_number(place.task, place.datagram)].value(place.bit, place.bits)
}

/// Writes the lowest bits of a value at a place, if there is one.
fn put(rows: &mut [DatagramBytes], place: Option<Place>, value: u64)
    requires all { length rows.old ≡ MOST_DATAGRAMS * TASKS }
    requires within { IfSome place (λ place. place.bit + place.bits ≤ 8 * length (slot_bytes rows.old place.task place.datagram)) }
    ensures { WritesAt place (bit_at value) rows.old rows.new }
{
    if let Some(place) = place {
        put_at(rows, place, value);
    }
}

/// Takes up the bits at a place, which are 0 from then on; if there is no place, returns the value that is given.
fn take(rows: &mut [DatagramBytes], place: Option<Place>, lacking: u64) -> u64
    requires all { length rows.old ≡ MOST_DATAGRAMS * TASKS }
    requires within { IfSome place (λ place. place.bit + place.bits ≤ 8 * length (slot_bytes rows.old place.task place.datagram)) }
    ensures writes { WritesAt place (bit_at 0) rows.old rows.new }
    ensures value { MatchOption place (result ≡ lacking) (λ place. ReadsAt rows.old place result) }
{
    let Some(place) = place else {
        return lacking;
    };
    let value = value_at(rows, place);
    put_at(rows, place, 0);
    value
}

/// Sets the bits of a table's output variables to ones, in bytes that are all 0.
fn mark(rows: &mut [DatagramBytes], places: &Places)
    requires laid { IsLaidOut places.now }
    requires blank { AreBlank places.now rows.old }
    ensures carries { Carries places.now (λ variable k. 1) rows.new }
    ensures all { length rows.new ≡ MOST_DATAGRAMS * TASKS }
{
    for (_, place) in places.variables() {
        put(rows, output(Some(*place)), u64::MAX);
    }
}

/// Makes the masks of a table from bytes that are all 0.
pub(crate) fn make_masks(rows: &mut Vec<DatagramBytes>, places: &Places)
    requires laid { IsLaidOut places.now }
    requires blank { AreBlank places.now rows.old.items }
    ensures carries { Carries places.now (λ variable k. 1) rows.new.items }
    ensures all { length rows.new.items ≡ MOST_DATAGRAMS * TASKS }
{
    mark(rows.as_mut_slice(), places);
}

/// Takes up the values at places; for a missing place the value that is given.
pub(crate) fn take_up(
    rows: &mut [DatagramBytes],
    places: &[Option<Place>],
    lacking: u64,
    values: &mut [u64],
)
    requires all { length rows.old ≡ MOST_DATAGRAMS * TASKS }
    requires values { length values.old ≡ length places.now }
    requires fit { Fit (length places.now) (of_list places.now) rows.old }
    requires apart { PlacesAreApart (length places.now) (of_list places.now) }
    ensures writes { WritesEach (length places.now) (of_list places.now) (λ i. bit_at 0) rows.old rows.new }
    ensures reads { ReadsEach (length places.now) (of_list places.now) rows.old lacking values.new }
    ensures values { length values.new ≡ length places.now }
{
    for i in 0..places.len() {
        values[i] = take(rows, places[i], lacking);
    }
}

/// Writes the values of changed variables at the new places of the outputs among them.
pub(crate) fn put_down(rows: &mut [DatagramBytes], changed: &[ChangedRow], values: &[u64])
    requires all { length rows.old ≡ MOST_DATAGRAMS * TASKS }
    requires values { length values.now ≡ length changed.now }
    requires fit { Fit (length changed.now) (of_changed changed.now) rows.old }
    requires apart { PlacesAreApart (length changed.now) (of_changed changed.now) }
    ensures { WritesEach (length changed.now) (of_changed changed.now) (λ i. bit_at (slice_index_or values.now i 0)) rows.old rows.new }
{
    for i in 0..changed.len() {
        put(rows, output(changed[i].place()), values[i]);
    }
}

/// Returns the number of bytes of a datagram in the table of its task; 0 if the task has no such datagram.
fn length_of(table: &TaskTable, number: usize) -> u16
    ensures length { result ≡ table_data_length table.now number }
    ensures most { result ≤ 1486 }
{
    match table.datagrams().get(number) {
        Some(datagram) => datagram.length,
        None => 0,
    }
}

/// Returns a number of bytes if a datagram has fewer in a table; else 0.
fn growth(places: &Places, task: Task, number: u8, size: u16) -> u16
    ensures { length_in places.now task number < size → result ≡ size }
{
    if length_in(places, task.number(), number) < size {
        size
    } else {
        0
    }
}

/// Adds zeros for each datagram of a task's table that gets longer than it is in `places`, as many bytes as it gets, and none
/// for any other. `AllocError` if an allocation fails.
fn push_room(
    alloc: Global,
    room: &mut Vec<DatagramBytes>,
    places: &Places,
    task: Task,
    table: &TaskTable,
) -> Result<(), AllocError>
    ensures { OnOk result (AddsRoom (length table.now.datagrams) (length_in places.now) task table.now room.old.items room.new.items) }
{
    for number in 0..table.datagrams().len() {
        let size = growth(places, task, number as u8, length_of(table, number));
        let zeros = DatagramBytes::zeros(alloc, size)?;
        room.push(zeros)?;
    }
    Ok(())
}

/// Returns zeros for the datagrams of changed tasks that get longer than in a table, changed task by changed task. `AllocError`
/// if an allocation fails.
pub(crate) fn room_for(
    alloc: Global,
    places: &Places,
    changed: &[ChangedTask],
) -> Result<Vec<DatagramBytes>, AllocError>
    ensures { IfOk result (λ room. HasRoomToGrow (length changed.now) (length_in places.now) changed.now room.items) }
{
    let mut room = Vec::with_capacity(alloc, MOST_DATAGRAMS)?;
    for (task, table) in changed {
        push_room(alloc, &mut room, places, *task, table)?;
    }
    Ok(room)
}

/// Gives the datagrams of a task the lengths of its table. Those that get longer use the memory of zeros, which are in `room`
/// from `at` on.
fn resize_task(
    rows: &mut [DatagramBytes],
    task: Task,
    table: &TaskTable,
    room: &mut [DatagramBytes],
    at: usize,
)
    requires all { length rows.old ≡ MOST_DATAGRAMS * TASKS }
    requires room { at + length table.now.datagrams ≤ length room.old }
    requires zeros { HasTaskRoom (byte_count rows.old) task table.now at room.old }
    ensures resizes { Resizes task table.now rows.old rows.new }
    ensures rest { (n : ℕ) → at + length table.now.datagrams ≤ n → slice_index_or room.new n [] ≡ slice_index_or room.old n [] }
    ensures size { length room.new ≡ length room.old }
{
    let datagrams = table.datagrams();
    for number in 0..MOST_DATAGRAMS {
        let row = slot_number(task.number(), number as u8);
        match datagrams.get(number) {
            Some(datagram) => rows[row].resize(datagram.length, &mut room[at + number]),
            None => rows[row].clear(),
        }
    }
}

/// Gives the datagrams of changed tasks the lengths of their new tables, in memory of `room` if they get longer.
pub(crate) fn resize(
    rows: &mut [DatagramBytes],
    changed: &[ChangedTask],
    room: &mut [DatagramBytes],
)
    requires all { length rows.old ≡ MOST_DATAGRAMS * TASKS }
    requires ascends { ChangesAscend changed.now }
    requires room { HasRoomToGrow (length changed.now) (byte_count rows.old) changed.now room.old }
    ensures { ResizesEach (length changed.now) changed.now rows.old rows.new }
{
    let mut at = 0;
    for (task, table) in changed {
        resize_task(rows, *task, table, room, at);
        at += table.datagrams().len();
    }
}
