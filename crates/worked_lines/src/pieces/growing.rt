//! A task whose slaves become more, one at a time, while its areas get other widths. After each of 2,000 edits that are drawn
//! from a fixed seed, its boundaries equal those of the plain fold over its list.
ghost use Rattle.std.specs.Prelude.{◌≡◌, ◌+◌, ◌<◌, ◌≤◌, ◌∷◌, ◌++◌, [], All, IfOk, IsTrue, OnOk};
ghost use Rattle.hc_records.specs.Boundaries.{boundaries};
ghost use Rattle.hc_records.specs.Laws.{IsPackable};
ghost use Rattle.hc_records.specs.declared.keys.TheConstants.Key.{END};
ghost use Rattle.hc_bitsum.specs.Tree.{HoldsTaskList};

use crate::pieces::repairs::{Width, set_all};
use hc_bitsum::steps::Steps;
use hc_cuts::cuts::Cuts;
use hc_cuts::fold::fold_cuts;
use hc_records::keys::Key;
use hc_records::records::Dir;
use std::alloc::{AllocError, Global};
use std::marker::Brand;
use std::sync::ledger::{Blank, Ledger};
use std::test::Fail;

/// The highest number of slaves.
const MOST: u16 = 128;

/// The bits of each area, 0 if its slave is not there: an output area of each slave, then an input area of each.
type Widths = [u16; 256];

/// The bits that an edit gives an area: so few that 16 datagrams hold them all.
const BITS: [u16; 8] = [0, 1, 7, 8, 12, 100, 350, 600];

/// The next number of a linear congruence.
fn drawn(state: &mut u64) -> usize {
    *state = state
        .wrapping_mul(6_364_136_223_846_793_005)
        .wrapping_add(1_442_695_040_888_963_407);
    (*state >> 33) as usize
}

/// The task's list: the areas that have a width.
fn list_of(alloc: Global, widths: &Widths) -> Result<Vec<(Key, u16)>, AllocError>
    ensures { IfOk result (λ list. All IsPackable list.items) }
{
    let mut list = Vec::new(alloc);
    let mut place = 0_u16;
    for width in widths {
        let bits = *width;
        let dir = if place < MOST { Dir::Out } else { Dir::In };
        let rank = place % MOST + 1;
        if bits > 0 && bits <= 11_888 {
            list.push((Key { dir, rank, area: 0 }, bits))?;
        }
        place = place.saturating_add(1);
    }
    Ok(list)
}

/// True if the boundaries are those of the fold over the list.
fn are_folded(starts: &[Key], list: &[(Key, u16)]) -> bool
    requires { All IsPackable list.now }
{
    let Ok(keys) = fold_cuts(list) else {
        return false;
    };
    match (starts, keys.as_slice()) {
        ([first, later @ ..], [_, others @ ..]) => *first == Key::START && later == others,
        ([first], []) => *first == Key::START,
        _ => false,
    }
}

/// Sets the width of an area of one of `slaves` slaves, and repairs the boundaries. True if 16 datagrams hold the task.
fn repaired<L: Ledger>(cuts: &mut Cuts, slaves: u16, area: Width, blank: Blank) -> bool
    requires name { blank.name ≡ L.name }
    requires parts { blank.parts ≡ L.parts }
    requires one { L.parts ≡ 1 }
    requires slaves { cuts.old.tree.slaves ≡ slaves }
    requires holds { HoldsTaskList cuts.old.tree }
    requires cut { cuts.old.starts ++ END ∷ [] ≡ boundaries cuts.old.tree.list }
    ensures slaves { cuts.new.tree.slaves ≡ slaves }
    ensures holds { HoldsTaskList cuts.new.tree }
    ensures cut { IsTrue result → cuts.new.starts ++ END ∷ [] ≡ boundaries cuts.new.tree.list }
{
    let mut steps: Steps<L> = Steps::start(blank);
    let hulls = set_all(cuts, slaves, &[area]);
    cuts.repair(&hulls, &mut steps).is_ok()
}

/// Sets the width of an area, repairs the boundaries, and returns whether 16 datagrams hold the task. Nobody reads the steps.
fn holds(cuts: &mut Cuts, slaves: u16, area: Width) -> bool
    requires slaves { cuts.old.tree.slaves ≡ slaves }
    requires holds { HoldsTaskList cuts.old.tree }
    requires cut { cuts.old.starts ++ END ∷ [] ≡ boundaries cuts.old.tree.list }
    ensures slaves { cuts.new.tree.slaves ≡ slaves }
    ensures holds { HoldsTaskList cuts.new.tree }
    ensures cut { IsTrue result → cuts.new.starts ++ END ∷ [] ≡ boundaries cuts.new.tree.list }
{
    repaired::<Brand>(cuts, slaves, area, Blank::new(1))
}

/// Gives an area of one of `slaves` slaves the bits that a number draws. True if 16 datagrams hold the task.
fn edited(cuts: &mut Cuts, widths: &mut Widths, slaves: u16, number: usize) -> bool
    requires some { 0 < slaves }
    requires few { slaves ≤ 128 }
    requires slaves { cuts.old.tree.slaves ≡ slaves }
    requires holds { HoldsTaskList cuts.old.tree }
    requires cut { cuts.old.starts ++ END ∷ [] ≡ boundaries cuts.old.tree.list }
    ensures slaves { cuts.new.tree.slaves ≡ slaves }
    ensures holds { HoldsTaskList cuts.new.tree }
    ensures cut { IsTrue result → cuts.new.starts ++ END ∷ [] ≡ boundaries cuts.new.tree.list }
{
    let bits = BITS[number / 16 % 8];
    let place = number / 128 % usize::from(slaves);
    let rank = place as u16 + 1;
    if number / 8 % 2 == 0 {
        widths[place] = bits;
        holds(cuts, slaves, (Dir::Out, rank, bits))
    } else {
        widths[usize::from(MOST) + place] = bits;
        holds(cuts, slaves, (Dir::In, rank, bits))
    }
}

/// Admits one more slave than `slaves`, in the tree that the task has or in a wider one. True if it is a wider one.
fn is_widened(alloc: Global, cuts: &mut Cuts, slaves: u16) -> Result<bool, AllocError>
    requires few { slaves < 128 }
    requires slaves { cuts.old.tree.slaves ≡ slaves }
    requires cut { cuts.old.starts ++ END ∷ [] ≡ boundaries cuts.old.tree.list }
    ensures slaves { OnOk result (cuts.new.tree.slaves ≡ slaves + 1) }
    ensures holds { OnOk result (HoldsTaskList cuts.new.tree) }
    ensures cut { OnOk result (cuts.new.starts ++ END ∷ [] ≡ boundaries cuts.new.tree.list) }
{
    let has_room = cuts.has_room(slaves + 1);
    if has_room {
        cuts.admit(slaves + 1);
    } else {
        *cuts = cuts.widened(alloc, slaves + 1)?;
    }
    Ok(!has_room)
}

/// The number of slaves that a task of two has after 2,000 edits, and how many times its tree was replaced by a wider one. None
/// if 16 datagrams did not hold it, or its boundaries were not those of the fold.
fn grown(alloc: Global) -> Result<Option<(u16, u16)>, AllocError> {
    let mut cuts = Cuts::new(alloc, 2)?;
    let mut widths = [0; 256];
    let mut slaves = 2_u16;
    let mut wider = 0_u16;
    let mut state = 20_261_126_u64;
    for _ in 0..2000 {
        let number = drawn(&mut state);
        if number % 8 == 0 && slaves < MOST {
            if is_widened(alloc, &mut cuts, slaves)? {
                wider = wider.saturating_add(1);
            }
            slaves += 1;
        } else if !edited(&mut cuts, &mut widths, slaves, number) {
            return Ok(None);
        }
        if !are_folded(cuts.starts(), &list_of(alloc, &widths)?) {
            return Ok(None);
        }
    }
    Ok(Some((slaves, wider)))
}

/// A task grows from 2 to 128 slaves over 2,000 edits, its tree is replaced by a wider one six times, and its boundaries always
/// equal the fold.
#[test]
fn a_task_takes_in_slaves_between_edits(rt: HostRuntime) -> Result<(), Fail> {
    // from 2 slaves on the tree is too narrow for 3, 5, 9, 17, 33 and 65 of them
    assert_eq!(rt; grown(rt.alloc())?, Some((128, 6)));
    Ok(())
}
