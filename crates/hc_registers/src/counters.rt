//! The working counter that a datagram comes back with when every slave of the line has processed it
//! (ETG.1000.4, 5.4: a slave whose inputs are read adds 1, one whose outputs are written 2, one with both 3).
ghost use Rattle.std.specs.Prelude.{◌≡◌, ◌≤◌, length, sum_by};
ghost use Rattle.std.specs.List.{list_any};
ghost use Rattle.hc_records.specs.Image.{counter_share, area_is_of};
ghost use Rattle.hc_records.specs.declared.limits.TheConstants.{MOST_SLAVES};
ghost use Rattle.hc_registers.specs.Counting.{added_share, weight};

use hc_records::keys::Key;
use hc_records::records::Dir;

/// True if a slave has an area of a direction among those of a datagram.
fn has_area(keys: &[Key], rank: u16, dir: Dir) -> bool
    ensures { result ≡ list_any (area_is_of rank dir) keys.now }
{
    keys.iter().any(|key| key.rank == rank && key.dir == dir)
}

/// Returns the number, 0 to 3, that a slave adds: 2 for its outputs and 1 for its inputs, however many of them there are.
fn share(keys: &[Key], rank: u16) -> u16
    ensures value { result ≡ counter_share keys.now rank }
    ensures low { result ≤ 3 }
{
    let writes = if has_area(keys, rank, Dir::Out) { 2 } else { 0 };
    let reads = if has_area(keys, rank, Dir::In) { 1 } else { 0 };
    writes + reads
}

/// Returns the expected working counter of a datagram whose areas have these keys, over a line whose slaves have these ranks,
/// at most 2,048 of them. Each slave adds 2 if an output area of it lies in the datagram, and 1 if an input area does.
pub fn expected_count(keys: &[Key], ranks: &[u16]) -> u16
    requires { length ranks.now ≤ MOST_SLAVES }
    ensures { result ≡ sum_by (counter_share keys.now) ranks.now }
{
    let mut total = 0;
    for rank in ranks {
        total += share(keys, *rank);
    }
    total
}

/// Returns the number that an area of a direction adds to the working counter: 2 for outputs, 1 for inputs.
fn weight(dir: Dir) -> u16
    ensures value { result ≡ weight dir }
    ensures low { result ≤ 2 }
{
    match dir {
        Dir::Out => 2,
        Dir::In => 1,
    }
}

/// Returns the number that the area with a key adds to the working counter of its datagram, after the area before it if there
/// is one. It is 2 for outputs and 1 for inputs, and 0 if both areas are of one slave and direction. The sum of these numbers
/// over a datagram's areas, whose keys ascend, is the datagram's expected counter, as `expected_count` returns it.
pub fn added_count(before: Option<Key>, key: Key) -> u16
    ensures value { result ≡ added_share before key }
    ensures low { result ≤ 2 }
{
    match before {
        Some(before) if before.rank == key.rank && before.dir == key.dir => 0,
        _ => weight(key.dir),
    }
}

/// The working counter of a register write that its slave has accepted.
pub const WRITE_COUNT: u16 = 1;
