//! A tree of the areas of a task.
use hc_bitsum::SumTree;
use hc_records::Dir;
use hc_records::keys::Key;
use std::test::Fail;

/// The first output area of the line's first slave.
const AREA: Key = Key {
    dir: Dir::Out,
    rank: 1,
    area: 0,
};

/// A tree has the width that an area was given.
#[test]
fn a_tree_has_widths(rt: HostRuntime) -> Result<(), Fail> {
    let mut tree = SumTree::new(rt.alloc(), 2)?;
    assert_eq!(rt; tree.bits(AREA), 0);
    tree.set(AREA, 12);
    assert_eq!(rt; tree.bits(AREA), 12);
    Ok(())
}
