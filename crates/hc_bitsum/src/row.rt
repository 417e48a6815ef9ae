//! A row: the widths of the 8 areas of a slave in one direction, which are gone over one by one.
ghost use Rattle.std.specs.Prelude.{◌≡◌, ◌+◌, ◌*◌, ◌^◌, ◌<◌, ◌≤◌, ℕ, drop, nat_lt, slice_index};
ghost use Rattle.hc_records.specs.declared.limits.TheConstants.{MOST_AREA_BITS};
ghost use Rattle.hc_records.specs.Keys.{is_before};
ghost use Rattle.hc_bitsum.specs.Rows.{IsRow, row_areas};
ghost use Rattle.hc_bitsum.specs.Search.{IsInRoom, scan};
ghost use Rattle.hc_bitsum.specs.Slots.{key_at};
ghost use Rattle.hc_bitsum.specs.Sums.{area_end, ends_by, sum_of};

use crate::filled::Filled;
use crate::steps::Steps;
use crate::sum::{Sum, start_at};
use hc_records::keys::Key;
use hc_records::records::Dir;
use std::sync::ledger::Ledger;

/// The widths of a slave's areas in bits.
pub(crate) type AreaWidths = [u16; 8];

/// The result of a search: the key of the first area that would end past the room, or the filling of the datagram after all of
/// them.
#[derive(Clone, Copy)]
pub(crate) enum Fit {
    Found(Key),
    Through(Filled),
}

impl Fit {
    ghost use Rattle.std.specs.Prelude.{◌≡◌};
    ghost use Rattle.hc_bitsum.specs.Search.{key_or_end};

    /// The key that was found, or `Key::END`.
    pub(crate) fn key_or_end(self) -> Key
        ensures { result ≡ key_or_end self }
    {
        match self {
            Fit::Found(key) => key,
            Fit::Through(_) => Key::END,
        }
    }
}

/// The key at a place of a direction, from 0: 8 areas for each slave.
pub(crate) fn key_at(dir: Dir, place: u32) -> Key
    requires { place < 2 ^ 15 }
    ensures { result ≡ key_at dir place }
{
    Key {
        dir,
        rank: (place / 8 + 1) as u16,
        area: (place % 8) as u8,
    }
}

/// Returns the number of places of a direction, among the first `places`, that have a key before another key.
pub(crate) fn places_before(dir: Dir, key: Key, places: u32) -> u32
    requires { places ≤ 2 ^ 15 }
    ensures within { result ≤ places }
    ensures parts { (place : ℕ) → place < places → is_before (key_at dir place) key ≡ nat_lt place result }
{
    if dir != key.dir {
        return if dir == Dir::Out { places } else { 0 };
    }
    if key.rank == 0 {
        return 0;
    }
    let before = 8 * (u32::from(key.rank) - 1) + u32::from(key.area).min(8);
    before.min(places)
}

/// The ends of a run with an area of its direction after it.
fn ends_after(ends: &[u32; 8], bits: u32) -> [u32; 8]
    requires low { (bit : ℕ) → bit < 8 → slice_index ends.now bit < 2 ^ 30 }
    requires narrow { bits ≤ MOST_AREA_BITS }
    ensures { result ≡ ends_by (λ bit. area_end bits (slice_index ends.now bit)) }
{
    let mut after_it = [0; 8];
    for bit in 0..8 {
        after_it[bit] = start_at(bits >= 8, ends[bit]) + bits;
    }
    after_it
}

/// The sum of a row's areas.
pub(crate) fn row_sum(dir: Dir, row: &AreaWidths) -> Sum
    requires { IsRow row.now }
    ensures { (place : ℕ) → result ≡ sum_of (row_areas dir place row.now) }
{
    let mut ends = [0, 1, 2, 3, 4, 5, 6, 7];
    let mut is_run = false;
    for bits in row {
        if *bits > 0 {
            ends = ends_after(&ends, u32::from(*bits));
            is_run = true;
        }
    }
    if is_run {
        Sum::Run {
            first: dir,
            last: dir,
            ends,
        }
    } else {
        Sum::Empty
    }
}

/// Fills a datagram with the areas of a row from one of them on, as long as each ends within the room,
/// in bits. `place` is the place of the row's first area in its direction. Each area that is read is a step.
pub(crate) fn fit_row<L: Ledger>(
    dir: Dir,
    row: &AreaWidths,
    place: u32,
    from: usize,
    filled: Filled,
    room: u32,
    steps: &mut Steps<L>,
) -> Fit
    requires row { IsRow row.now }
    requires place { place + 8 ≤ 2 ^ 15 }
    requires from { from < 8 }
    requires here { filled.bit ≤ room }
    requires room { room < 2 ^ 30 }
    ensures fit { result ≡ scan room filled (drop from (row_areas dir place row.now)) }
    ensures end { IsInRoom room result }
    ensures least { steps.old + 1 ≤ steps.new }
    ensures most { steps.new ≤ steps.old + 8 }
{
    let mut so_far = filled;
    for area in from..8 {
        steps.tick();
        let end = so_far.after_area(dir, row[area]);
        if end.bit > room {
            return Fit::Found(key_at(dir, place + area as u32));
        }
        so_far = end;
    }
    Fit::Through(so_far)
}
