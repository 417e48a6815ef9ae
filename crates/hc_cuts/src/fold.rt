//! The boundaries of a task's list by packing it from the front.
ghost use Rattle.std.specs.Prelude.{◌≡◌, ◌+◌, ◌<◌, ◌≤◌, ◌++◌, All, IfOk, OnErr, OnOk, length};
ghost use Rattle.hc_records.specs.Image.{datagram_count};
ghost use Rattle.hc_records.specs.Laws.{IsPackable, cuts_from};
ghost use Rattle.hc_records.specs.Packing.{empty_front, packed};
ghost use Rattle.hc_records.specs.declared.limits.TheConstants.{MOST_DATAGRAMS};
ghost use Rattle.hc_cuts.specs.Firsts.{IsOverLimit, first_keys};

use crate::packing::Front;
use arrayvec::ArrayVec;
use hc_records::keys::Key;
use thiserror::Error;

/// A task's list would need more than 16 datagrams.
#[derive(Clone, Copy, Debug, PartialEq, Eq, Error)]
#[error("too many datagrams")]
pub struct TooManyDatagrams;

/// Appends the keys of the areas at which a later datagram begins, while one is being filled.
fn add_cuts(
    keys: &mut ArrayVec<Key, 16>,
    first: Front,
    areas: &[(Key, u16)],
) -> Result<(), TooManyDatagrams>
    requires packable { All IsPackable areas.now }
    requires begun { first.datagram + 1 ≡ length keys.old.items }
    requires few { length keys.old.items ≤ MOST_DATAGRAMS }
    ensures added { OnOk result (keys.new.items ≡ keys.old.items ++ cuts_from first areas.now) }
    ensures few { OnOk result (length keys.new.items ≤ MOST_DATAGRAMS) }
    ensures refused { OnErr result (MOST_DATAGRAMS < length (keys.old.items ++ cuts_from first areas.now)) }
{
    let mut front = first;
    for area in areas {
        let (key, bits) = *area;
        if !front.fits(key, bits) {
            if keys.is_full() {
                return Err(TooManyDatagrams);
            }
            keys.push(key);
        }
        front = front.place(key, bits).after_it();
    }
    Ok(())
}

/// Returns the keys at which the datagrams of a task's list begin, in its order: at most 16. The list has the task's keys with
/// their widths, 1 to 11,888 bits. Fails with `TooManyDatagrams` exactly if packing gives more than 16.
pub fn fold_cuts(list: &[(Key, u16)]) -> Result<ArrayVec<Key, 16>, TooManyDatagrams>
    requires { All IsPackable list.now }
    ensures keys { IfOk result (λ keys. keys.items ≡ first_keys list.now) }
    ensures few { OnOk result (datagram_count (packed empty_front list.now) ≤ MOST_DATAGRAMS) }
    ensures refused { OnErr result (IsOverLimit list.now) }
{
    let mut keys = ArrayVec::new();
    if list.is_empty() {
        return Ok(keys);
    }
    let (key, bits) = list[0];
    keys.push(key);
    let front = Front::opening().place(key, bits).after_it();
    add_cuts(&mut keys, front, &list[1..])?;
    Ok(keys)
}
