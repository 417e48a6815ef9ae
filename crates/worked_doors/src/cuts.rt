//! The areas of a task with the keys where its datagrams begin.
use hc_cuts::Cuts;
use hc_records::Dir;
use hc_records::keys::Key;
use std::test::Fail;

/// The first output area of the line's first slave.
const AREA: Key = Key {
    dir: Dir::Out,
    rank: 1,
    area: 0,
};

/// A task whose areas have no bits has one boundary, its start.
#[test]
fn areas_have_widths_and_boundaries(rt: HostRuntime) -> Result<(), Fail> {
    let mut cuts = Cuts::new(rt.alloc(), 2)?;
    cuts.set(AREA, 12);
    assert_eq!(rt; cuts.bits(AREA), 12);
    assert_eq!(rt; cuts.starts(), [Key::START].as_slice());
    Ok(())
}
