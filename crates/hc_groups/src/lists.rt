//! Lists that grow in memory that was reserved.
ghost use Rattle.std.specs.Prelude.{◌≡◌, ◌+◌, ◌-◌, ◌<◌, ◌≤◌, ◌++◌, ◌∷◌, [], length, replicate, slice_index};

use hc_records::room::Room;

/// Appends a number several times, in memory that was reserved.
pub(crate) fn fill(list: &mut Vec<u16>, room: Room<u16>, more: usize, number: u16)
    requires { length list.old.items + more ≤ room }
    ensures { list.new.items ≡ list.old.items ++ replicate more number }
{
    room.widen(list, more);
    let count = list.len() + more;
    let _filled = list.resize(count, number);
}

/// Appends numbers, in memory that was reserved.
pub(crate) fn append(list: &mut Vec<u32>, room: Room<u32>, more: &[u32])
    requires { length list.old.items + length more.now ≤ room }
    ensures { list.new.items ≡ list.old.items ++ more.now }
{
    room.widen(list, more.len());
    let _longer = list.extend_from_slice(more);
}

/// Appends a list, in memory that was reserved.
pub(crate) fn add_list(lists: &mut Vec<Vec<u32>>, room: Room<Vec<u32>>, list: Vec<u32>)
    requires { length lists.old.items + 1 ≤ room }
    ensures { lists.new.items ≡ lists.old.items ++ list ∷ [] }
{
    room.widen(lists, 1);
    lists.push_reserved(list);
}

/// Appends the sum after an element with a weight to sums, in memory that was reserved.
pub(crate) fn add_sum(sums: &mut Vec<u32>, room: Room<u32>, count: u32)
    requires some { 0 < length sums.old.items }
    requires low { slice_index sums.old.items (length sums.old.items - 1) + count < 4294967296 }
    requires room { length sums.old.items + 1 ≤ room }
    ensures { sums.new.items ≡ sums.old.items ++ (slice_index sums.old.items (length sums.old.items - 1) + count) ∷ [] }
{
    let sum = sums[sums.len() - 1] + count;
    room.widen(sums, 1);
    sums.push_reserved(sum);
}
