//! Sums and searches that were worked out by hand.
ghost use Rattle.std.specs.Prelude.{◌≡◌, IfOk};
ghost use Rattle.hc_bitsum.specs.Tree.{CanBegin, HasPlace};

use hc_bitsum::steps::Steps;
use hc_bitsum::sum::Sum;
use hc_bitsum::tree::SumTree;
use hc_cuts::next::next_cut;
use hc_records::keys::Key;
use hc_records::records::Dir;
use std::alloc::{AllocError, Global};
use std::marker::Brand;
use std::sync::ledger::{Blank, Ledger};
use std::test::Fail;

/// The key of a slave's first output area.
pub fn out(rank: u16) -> Key
    ensures rank { result.rank ≡ rank }
    ensures area { result.area ≡ 0 }
{
    Key {
        dir: Dir::Out,
        rank,
        area: 0,
    }
}

/// The key of a slave's first input area.
pub fn input(rank: u16) -> Key
    ensures rank { result.rank ≡ rank }
    ensures area { result.area ≡ 0 }
{
    Key {
        dir: Dir::In,
        rank,
        area: 0,
    }
}

/// Three slaves: outputs of 11,880, 8 and 1 bits, and an input of 12.
fn filled_tree(alloc: Global) -> Result<SumTree, AllocError>
    ensures { IfOk result (λ tree. tree.slaves ≡ 3) }
{
    let mut tree = SumTree::new(alloc, 3)?;
    tree.set(out(3), 1);
    tree.set(input(1), 12);
    tree.set(out(1), 11_880);
    tree.set(out(2), 8);
    Ok(tree)
}

/// The area for which a datagram that begins at a key has no room, and the boundary there, in steps that nobody reads.
fn searched<L: Ledger>(tree: &SumTree, from: Key, blank: Blank) -> (Key, Key)
    requires name { blank.name ≡ L.name }
    requires parts { blank.parts ≡ L.parts }
    requires one { L.parts ≡ 1 }
    requires from { CanBegin tree.now.slaves from }
{
    let mut steps: Steps<L> = Steps::start(blank);
    let found = tree.last_fit(from, 0, 11_888, &mut steps);
    (found, next_cut(tree, from, &mut steps))
}

/// The result of a search from the front.
fn from_start(tree: &SumTree) -> (Key, Key) {
    searched::<Brand>(tree, Key::START, Blank::new(1))
}

/// The result of a search from an area's key.
fn from_key(tree: &SumTree, from: Key) -> (Key, Key)
    requires { HasPlace tree.now.slaves from }
{
    searched::<Brand>(tree, from, Blank::new(1))
}

/// The bit after a run that starts at bit 0.
fn ends(sum: &Sum) -> Option<u32> {
    match sum {
        Sum::Empty => None,
        Sum::Run { ends, .. } => Some(ends[0]),
    }
}

/// A search in a tree of sums finds the first area without room in a datagram, and the end if all fit.
#[test]
fn a_search_finds_the_first_area_without_room(rt: HostRuntime) -> Result<(), Fail> {
    let tree = filled_tree(rt.alloc())?;
    // 11,880 and 8 bits fill the 11,888 of a datagram; then there are 1 bit, and the input from bit 8 to 19
    let found = [from_start(&tree), from_key(&tree, out(3))];
    assert_eq!(rt; found, [(out(3), out(3)), (Key::END, Key::END)]);
    // in one run: 11,889 bits, and the input from bit 11,896 to 11,907
    assert_eq!(rt;
        (ends(&tree.total()), ends(&Sum::of(Dir::In, 0))),
        (Some(11_908), None)
    );
    let empty = SumTree::new(rt.alloc(), 3)?;
    assert_eq!(rt; from_start(&empty), (Key::END, Key::END));
    Ok(())
}
