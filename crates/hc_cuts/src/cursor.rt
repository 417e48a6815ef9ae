//! Cursors: how far a datagram of a task is filled before a key. If many areas of a task are placed in the order of its list,
//! each fill continues from the one before it.
ghost use Rattle.std.specs.Prelude.{◌≡◌, ◌+◌, ◌<◌, length, slice_index_or, true};
ghost use Rattle.hc_records.specs.declared.keys.TheConstants.Key.{END};
ghost use Rattle.hc_records.specs.Keys.{is_before, is_within};

use crate::cuts::end_of;
use crate::packing::{Front, Placed};
use hc_bitsum::filled::Filled;
use hc_bitsum::tree::SumTree;
use hc_records::keys::Key;
use hc_records::records::Dir;

/// Returns the number of the datagram that carries a key, from the keys at which datagrams begin: the last of them that does
/// not come after it. Each step halves the rest.
fn carrier(starts: &[Key], key: Key) -> usize
    requires some { 0 < length starts.now }
    requires first { is_within (slice_index_or starts.now 0 END) key ≡ true }
    ensures within { result < length starts.now }
    ensures begun { is_within (slice_index_or starts.now result END) key ≡ true }
    ensures next { result + 1 < length starts.now → is_before key (slice_index_or starts.now (result + 1) END) ≡ true }
{
    let mut begun = 0;
    let mut left = starts.len();
    while left > 1 {
        let half = left / 2;
        if key.is_before(starts[begun + half]) {
            left = half;
        } else {
            begun += half;
            left -= half;
        }
    }
    begun
}

/// A key, the number of the datagram that carries it, and how far that is filled before the key. It holds for one task, as long
/// as the task's areas and boundaries stay as they are.
#[derive(Clone, Copy)]
pub struct Cursor {
    key: Key,
    datagram: u16,
    filled: Filled,
}

impl Cursor {
    ghost use Rattle.std.specs.Prelude.{◌≡◌, ◌+◌, ◌<◌, ◌≤◌, ◌∷◌, ◌++◌, [], IsTrue, List, length, slice_index_or, true};
    ghost use Rattle.hc_records.specs.Boundaries.{boundaries};
    ghost use Rattle.hc_records.specs.Keys.{is_before, is_within};
    ghost use Rattle.hc_records.specs.TaskList.{Keyed};
    ghost use Rattle.hc_records.specs.declared.keys.TheConstants.Key.{END};
    ghost use Rattle.hc_records.specs.declared.limits.TheConstants.{MOST_DATAGRAMS};
    ghost use Rattle.hc_bitsum.specs.Tree.{HoldsTaskList};
    ghost use Rattle.hc_cuts.specs.Cursors.{IsCursorOf};
    ghost use Rattle.hc_cuts.specs.Place.{place_of};

    /// Returns a cursor before the first area of any task. It allocates nothing.
    pub fn start() -> Cursor
        ensures { (starts : List Key) → (list : List Keyed) → starts ++ END ∷ [] ≡ boundaries list → IsCursorOf starts list result }
    {
        Cursor::at_front(Key::START, 0)
    }

    /// Returns a cursor at the first key of the datagram with a number.
    fn at_front(key: Key, datagram: u16) -> Cursor
        ensures in_task { (starts : List Key) → (list : List Keyed) → datagram < length starts → slice_index_or starts datagram END ≡ key → IsCursorOf starts list result }
        ensures key { result.key ≡ key }
        ensures datagram { result.datagram ≡ datagram }
    {
        Cursor {
            key,
            datagram,
            filled: Filled {
                bit: 0,
                last: Dir::Out,
            },
        }
    }

    /// Returns whether a key lies in the cursor's datagram, at the cursor's key or after it.
    fn leads_to(self, starts: &[Key], key: Key) -> bool
        requires { self.datagram < length starts.now }
        ensures low { IsTrue result → is_within self.key key ≡ true }
        ensures high { IsTrue result → is_before key (slice_index_or (starts.now ++ END ∷ []) (self.datagram + 1) END) ≡ true }
    {
        let end = end_of(starts, usize::from(self.datagram));
        !key.is_before(self.key) && key.is_before(end)
    }

    /// Returns a cursor from which the filling continues to a key: this one if it leads there, else one at the front of the
    /// datagram that carries the key.
    fn before(self, starts: &[Key], key: Key) -> Cursor
        requires within { self.datagram < length starts.now }
        requires few { length starts.now ≤ MOST_DATAGRAMS }
        requires first { is_within (slice_index_or starts.now 0 END) key ≡ true }
        ensures in_task { (list : List Keyed) → IsCursorOf starts.now list self → IsCursorOf starts.now list result }
        ensures low { is_within result.key key ≡ true }
        ensures next { result.datagram + 1 < length starts.now → is_before key (slice_index_or starts.now (result.datagram + 1) END) ≡ true }
    {
        if self.leads_to(starts, key) {
            return self;
        }
        let datagram = carrier(starts, key);
        Cursor::at_front(starts[datagram], datagram as u16)
    }

    /// Returns the place of the area of a task with a key, by the keys at which the task's datagrams begin, and moves to the
    /// key. `None` if the task has no such area; then the cursor stays.
    #[inline(always)]
    pub(crate) fn place(&mut self, task: &SumTree, starts: &[Key], key: Key) -> Option<Placed>
        requires holds { HoldsTaskList task.now }
        requires all { starts.now ++ END ∷ [] ≡ boundaries task.now.list }
        requires few { length starts.now ≤ MOST_DATAGRAMS }
        requires stood { IsCursorOf starts.now task.now.list self.old }
        ensures place { result ≡ place_of key task.now.list }
        ensures in_task { IsCursorOf starts.now task.now.list self.new }
    {
        let bits = task.bits(key);
        if bits == 0 {
            return None;
        }
        let from = self.before(starts, key);
        let filled = task.filled_between(from.key, key, from.filled);
        *self = Cursor {
            key,
            datagram: from.datagram,
            filled,
        };
        Some(Front::filled(from.datagram, filled).place(key, bits))
    }
}
