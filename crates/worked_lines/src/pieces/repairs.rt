//! Tasks whose boundaries are repaired after edits, with spans that were counted by hand.
ghost use Rattle.std.specs.Prelude.{◌≡◌, ◌∷◌, ◌++◌, [], IsTrue};
ghost use Rattle.hc_records.specs.Boundaries.{boundaries};
ghost use Rattle.hc_records.specs.declared.keys.TheConstants.Key.{END};
ghost use Rattle.hc_bitsum.specs.Tree.{HoldsTaskList};
ghost use Rattle.hc_cuts.specs.Repair.{DifferInside};

use hc_bitsum::steps::Steps;
use hc_cuts::cuts::Cuts;
use hc_cuts::hulls::Hulls;
use hc_records::keys::Key;
use hc_records::records::Dir;
use hc_records::records::Dir::{In, Out};
use std::alloc::{AllocError, Global};
use std::marker::Brand;
use std::sync::ledger::{Blank, Ledger};
use std::test::Fail;

/// A direction, the rank of a slave, and the bits of its first area of that direction.
pub type Width = (Dir, u16, u16);

/// Sets widths of some of `slaves` slaves, and returns the hulls of their keys.
pub fn set_all(cuts: &mut Cuts, slaves: u16, areas: &[Width]) -> Hulls
    requires slaves { cuts.old.tree.slaves ≡ slaves }
    requires holds { HoldsTaskList cuts.old.tree }
    ensures slaves { cuts.new.tree.slaves ≡ slaves }
    ensures holds { HoldsTaskList cuts.new.tree }
    ensures starts { cuts.new.starts ≡ cuts.old.starts }
    ensures inside { DifferInside result cuts.old.tree.list cuts.new.tree.list }
{
    let mut hulls = Hulls::none();
    for area in areas {
        let (dir, rank, bits) = *area;
        if 1 <= rank && rank <= slaves && bits <= 11_888 {
            let key = Key { dir, rank, area: 0 };
            cuts.set(key, bits);
            hulls.add(key);
        }
    }
    hulls
}

/// Sets widths of a task that is cut, and repairs its boundaries. True if `spans` spans are not settled.
fn leaves_counted<L: Ledger>(cuts: &mut Cuts, areas: &[Width], spans: u32, blank: Blank) -> bool
    requires name { blank.name ≡ L.name }
    requires parts { blank.parts ≡ L.parts }
    requires one { L.parts ≡ 1 }
    requires slaves { cuts.old.tree.slaves ≡ 20 }
    requires holds { HoldsTaskList cuts.old.tree }
    requires cut { cuts.old.starts ++ END ∷ [] ≡ boundaries cuts.old.tree.list }
    ensures slaves { cuts.new.tree.slaves ≡ 20 }
    ensures holds { HoldsTaskList cuts.new.tree }
    ensures cut { IsTrue result → cuts.new.starts ++ END ∷ [] ≡ boundaries cuts.new.tree.list }
{
    let mut steps: Steps<L> = Steps::start(blank);
    let hulls = set_all(cuts, 20, areas);
    match cuts.repair(&hulls, &mut steps) {
        Ok(count) => count == spans,
        Err(_) => false,
    }
}

/// Sets widths of a task that is cut, repairs its boundaries, and returns whether as many spans are not settled. Nobody reads
/// the steps.
fn leaves(cuts: &mut Cuts, areas: &[Width], spans: u32) -> bool
    requires slaves { cuts.old.tree.slaves ≡ 20 }
    requires holds { HoldsTaskList cuts.old.tree }
    requires cut { cuts.old.starts ++ END ∷ [] ≡ boundaries cuts.old.tree.list }
    ensures slaves { cuts.new.tree.slaves ≡ 20 }
    ensures holds { HoldsTaskList cuts.new.tree }
    ensures cut { IsTrue result → cuts.new.starts ++ END ∷ [] ≡ boundaries cuts.new.tree.list }
{
    leaves_counted::<Brand>(cuts, areas, spans, Blank::new(1))
}

/// True if the boundaries are `Key::START` and then those of these directions and slaves.
fn are_starts(starts: &[Key], later: &[(Dir, u16)]) -> bool {
    let [first, rest @ ..] = starts else {
        return false;
    };
    for (start, (dir, rank)) in rest.iter().zip(later) {
        if start.dir != *dir || start.rank != *rank {
            return false;
        }
    }
    *first == Key::START && rest.len() == later.len()
}

/// An edit of a task: the widths that it sets, in bits, and the number of spans that it does not leave settled.
type Row = (&'static [Width], u32);

/// Carries out edits from an empty task on. True if each leaves its number of spans unsettled, and the datagrams after the
/// first then begin at the keys.
fn are_repaired(alloc: Global, rows: &[Row], later: &[(Dir, u16)]) -> Result<bool, AllocError> {
    let mut cuts = Cuts::new(alloc, 20)?;
    for row in rows {
        let (areas, spans) = *row;
        if !leaves(&mut cuts, areas, spans) {
            return Ok(false);
        }
    }
    Ok(are_starts(cuts.starts(), later))
}

/// Tasks: the edits from an empty task on, and the keys at which the later datagrams begin after them. An edit in front reaches
/// two spans. A repair begins below the touched key, and goes over both hulls. A touched task has an unsettled span. An edit at
/// the end keeps the spans before it.
const TASKS: [(&[Row], &[(Dir, u16)]); 5] = [
    (
        &[
            (&[(Out, 1, 5600)], 1),
            (
                &[
                    (Out, 2, 5600),
                    (Out, 3, 5600),
                    (Out, 4, 5600),
                    (Out, 5, 5600),
                    (Out, 6, 11_200),
                    (Out, 7, 5600),
                    (Out, 8, 5600),
                ],
                5,
            ),
            (&[(Out, 1, 0)], 2),
        ],
        &[(Out, 4), (Out, 6), (Out, 7)],
    ),
    (
        &[
            (&[(Out, 1, 8000), (Out, 2, 5600), (Out, 3, 5600)], 2),
            (&[(Out, 2, 2400)], 2),
        ],
        &[(Out, 3)],
    ),
    (
        &[
            (
                &[
                    (Out, 1, 800),
                    (Out, 2, 11_200),
                    (Out, 3, 11_200),
                    (Out, 4, 11_200),
                    (In, 1, 800),
                    (In, 2, 11_200),
                ],
                6,
            ),
            (&[(Out, 1, 0), (In, 1, 0)], 2),
        ],
        &[(Out, 3), (Out, 4), (In, 2)],
    ),
    (
        &[
            (&[(Out, 1, 8), (In, 1, 16)], 1),
            (&[(In, 1, 0)], 1),
            (&[], 0),
            (&[(Out, 1, 0)], 1),
        ],
        &[],
    ),
    (
        &[
            (
                &[
                    (Out, 1, 11_200),
                    (Out, 2, 11_200),
                    (Out, 3, 11_200),
                    (Out, 4, 11_200),
                ],
                4,
            ),
            (&[(Out, 4, 10_400)], 2),
        ],
        &[(Out, 2), (Out, 3), (Out, 4)],
    ),
];

/// The repair after an edit reaches as many spans as were counted by hand, and leaves the right datagrams.
#[test]
fn edits_reach_spans(rt: HostRuntime) -> Result<(), Fail> {
    for (rows, later) in &TASKS {
        assert!(rt; are_repaired(rt.alloc(), *rows, *later)?);
    }
    Ok(())
}

/// The number of datagrams that a task of 16 full ones has after a repair that would give it 17. None if the 16 are refused, or
/// that repair is not.
fn left_by_refusal(alloc: Global) -> Result<Option<usize>, AllocError> {
    let mut cuts = Cuts::new(alloc, 20)?;
    let mut full = [(Out, 1, 11_200); 16];
    for i in 0..16 {
        full[i].1 = i as u16 + 1;
    }
    if !leaves(&mut cuts, &full, 16) || leaves(&mut cuts, &[(In, 1, 11_200)], 2) {
        return Ok(None);
    }
    Ok(Some(cuts.starts().len()))
}

/// A repair that would make a seventeenth datagram is refused, and the sixteen stay.
#[test]
fn a_refused_repair_leaves_the_boundaries(rt: HostRuntime) -> Result<(), Fail> {
    assert_eq!(rt; left_by_refusal(rt.alloc())?, Some(16));
    Ok(())
}
