//! The changes that a reader of the input images gets, worked out by hand.
use crate::answers::UNPOSTED;
use crate::asked::Asked::Remap;
use crate::asked::Wanted;
use crate::lines::AXIS;
use crate::stages::Stage::{Blocks, Changes, Rows};
use crate::stages::{Case, first_wrong_case};
use hc_events::change::Change;
use std::test::Fail;

/// The expected contents of a change.
#[derive(Clone, Copy)]
pub enum Update {
    /// A task's datagram has these data.
    Good(u8, u8, &'static [u8]),
    /// An edit by which this many variables move, appear or go.
    Swapped(u32),
}

/// True if a change has these contents.
fn says(change: &Change, updates: &Update) -> bool {
    match (change, updates) {
        (Change::Good(good), Update::Good(task, datagram, bytes)) => {
            good.task() == *task && good.datagram() == *datagram && good.bytes() == *bytes
        }
        (Change::Swapped(swap), Update::Swapped(places)) => swap.places() == *places,
        _ => false,
    }
}

/// True if the changes are exactly these, in order.
pub fn are_answered(changes: &[Change], updates: &[Update]) -> bool {
    let mut left = updates.iter();
    for change in changes {
        match left.next() {
            Some(updates) if says(change, updates) => {}
            _ => return false,
        }
    }
    left.next().is_none()
}

/// Written blocks give no change. A good answer gives one change, once; stale answers, other counters and refusals give none.
/// An edit that moves nothing gives a change all the same. Without its outputs the axis has its inputs from the datagram's
/// first byte on: variable 1 goes, and variable 2 moves.
const CASES: &[Case] = &[(
    AXIS,
    &[
        Blocks(4),
        Changes(&[]),
        Rows(UNPOSTED),
        Changes(&[Update::Good(0, 0, b"\0\x34\x0a")]),
        Changes(&[]),
        Rows(&[
            (Remap(1001, 1, &[0x1a00]), Wanted::Edited(1, 0, 0)),
            (Remap(1001, 0, &[]), Wanted::Edited(2, 1, 3)),
        ]),
        Changes(&[Update::Swapped(0), Update::Swapped(2)]),
        Changes(&[]),
    ],
)];

/// The changes since the last taking are the good answers and edits, and no refusal, stale answer or other counter.
#[test]
fn changes_show_what_is_new_since_they_were_taken(rt: HostRuntime) -> Result<(), Fail> {
    assert!(rt; first_wrong_case(rt.alloc(), CASES)?.is_none());
    Ok(())
}
