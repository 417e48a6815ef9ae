//! The tasks that wait after an edit, worked out by hand: as a prepared edit foretells them, and as they are once it is carried
//! out and the slave that came is cleared.
use crate::driven::Driven;
use crate::lines::{opened, write_all};
use hc_core::keeping::Core;
use hc_project::read_group;
use hc_records::edit::Edit;
use hc_records::faults::EditFault;
use hc_records::items::Items;
use std::alloc::{AllocError, Global};
use std::test::Fail;

/// An axis in task 0, and three grippers: one in task 2, one in task 0 too, and one with an area of 0 bits.
const LINE: &str = r#"
slave = [
  { station = 1001, area = [
    { sm = 2, dir = "out", phys = 0x1100, task = 0, assigned = [0x1600], pdo = [
      { index = 0x1600, entries = [[1, 2]] },
    ] },
    { sm = 3, dir = "in", phys = 0x1180, task = 0, assigned = [0x1a00], pdo = [
      { index = 0x1a00, entries = [[2, 12]] },
    ] },
  ] },
]
group = [
  { alias = 5, slave = [
    { station = 1002, area = [
      { sm = 2, dir = "out", phys = 0x1100, task = 2, assigned = [0x1600], pdo = [
        { index = 0x1600, entries = [[3, 8]] },
      ] },
    ] },
  ] },
  { alias = 6, slave = [
    { station = 1003, area = [
      { sm = 2, dir = "out", phys = 0x1100, task = 0, assigned = [0x1600], pdo = [
        { index = 0x1600, entries = [[4, 8]] },
      ] },
    ] },
  ] },
  { alias = 7, slave = [
    { station = 1004, area = [
      { sm = 2, dir = "out", phys = 0x1100, task = 3, assigned = [], pdo = [
        { index = 0x1600, entries = [[5, 8]] },
      ] },
    ] },
  ] },
]
"#;

/// A gripper that is declared later.
const LATER: &str = r#"
group = [
  { alias = 8, slave = [
    { station = 1005, area = [
      { sm = 2, dir = "out", phys = 0x1100, task = 4, assigned = [0x1600], pdo = [
        { index = 0x1600, entries = [[6, 8]] },
      ] },
    ] },
  ] },
]
"#;

/// A step on the line.
#[derive(Clone, Copy)]
enum Step {
    /// Each owed block is written and answered well.
    Write,
    /// The group with this alias is connected, and its slave with this station address is cleared.
    Connect(u16, u16),
    /// The group with this alias is disconnected, and stays on the wire.
    Disconnect(u16),
    /// An area of the axis gets these PDOs assigned.
    Map(u8, &'static [u16]),
    /// An area of the axis moves to a task.
    Move(u8, u8),
    /// The group of this text is declared.
    Declare(&'static str),
    /// The slave with this station address is unplugged.
    Unplug(u16),
}

use Step::{Connect, Declare, Disconnect, Map, Move, Unplug, Write};

/// Steps from the opening on, each with the tasks that wait after it.
const ROWS: [&[(Step, u8)]; 5] = [
    // any register may hold anything at the opening; once it is written, a gripper concerns its own task, also when it has gone
    &[
        (Map(0, &[0x1600]), 0xff),
        (Write, 0),
        (Connect(5, 1002), 0b100),
        (Write, 0),
        (Disconnect(5), 0b100),
        (Map(0, &[0x1600]), 0b100),
        (Connect(7, 1004), 0b100),
        (Declare(LATER), 0b100),
        (Unplug(1002), 0),
        (Map(0, &[0x1600]), 0),
        (Connect(8, 1005), 0b1_0000),
    ],
    // a gripper that shares the axis' task
    &[(Write, 0), (Connect(6, 1003), 0b1), (Write, 0)],
    // an area gets 0 bits: its register names task 0 until the zeros are written; then it gets its 2 bits again
    &[
        (Write, 0),
        (Map(0, &[]), 0b1),
        (Write, 0),
        (Connect(7, 1004), 0),
        (Map(0, &[0x1600]), 0b1),
    ],
    // an area moves: its register names the old task, and its block the new one
    &[(Write, 0), (Move(1, 5), 0b10_0001), (Write, 0)],
    // a gripper goes, and comes again
    &[
        (Write, 0),
        (Connect(5, 1002), 0b100),
        (Write, 0),
        (Disconnect(5), 0b100),
        (Connect(5, 1002), 0b100),
        (Write, 0),
    ],
];

/// The edit of a step. None if the step is not an edit.
fn edit_of(alloc: Global, step: Step) -> Result<Option<Edit>, AllocError> {
    Ok(match step {
        Write | Unplug(_) => None,
        Connect(alias, _) => Some(Edit::Connect(alias)),
        Disconnect(alias) => Some(Edit::Disconnect(alias)),
        Map(area, pdos) => Some(Edit::Remap {
            station: 1001,
            area,
            pdos: Items::of(Vec::from_slice(alloc, pdos)?),
        }),
        Move(area, task) => Some(Edit::Move {
            station: 1001,
            area,
            task,
        }),
        Declare(text) => match read_group(alloc, text.as_bytes()) {
            Ok(group) => Some(Edit::Declare(group)),
            Err(_) => return Err(AllocError),
        },
    })
}

/// Carries an edit out, and returns the tasks that will wait, as it was foretold.
fn carried_out(core: &mut Core, alloc: Global, edit: &Edit) -> Result<u8, EditFault> {
    let ready = core.prepare(alloc, edit)?;
    let waiting = ready.will_wait();
    let _ = core.carry_out(ready);
    Ok(waiting)
}

/// Carries out a step that is no edit, or the part of a step after its edit. True if nothing was refused.
fn is_done(driven: &mut Driven, alloc: Global, step: Step) -> Result<bool, AllocError> {
    Ok(match step {
        Write => write_all(driven, alloc)? > 0,
        Connect(_, station) => driven.core.cleared(station).is_ok(),
        Unplug(station) => driven.core.unplugged(station).is_ok(),
        Disconnect(_) | Map(_, _) | Move(_, _) | Declare(_) => true,
    })
}

/// The tasks that wait after a step. None if something was refused, or others were foretold.
fn waiting_after(driven: &mut Driven, alloc: Global, step: Step) -> Result<Option<u8>, AllocError> {
    let foretold = match edit_of(alloc, step)? {
        Some(edit) => match carried_out(&mut driven.core, alloc, &edit) {
            Ok(waiting) => Some(waiting),
            Err(_) => return Ok(None),
        },
        None => None,
    };
    if !is_done(driven, alloc, step)? {
        return Ok(None);
    }
    let waiting = !driven.core.ready();
    if foretold.unwrap_or(waiting) == waiting {
        Ok(Some(waiting))
    } else {
        Ok(None)
    }
}

/// The number of the first step after which other tasks wait. The number of the steps if there is none.
fn first_wrong(alloc: Global, row: &[(Step, u8)]) -> Result<usize, Fail> {
    let mut driven = opened(alloc, LINE)?;
    let mut number = 0_usize;
    for (step, waiting) in row {
        if waiting_after(&mut driven, alloc, *step)? != Some(*waiting) {
            return Ok(number);
        }
        number = number.saturating_add(1);
    }
    Ok(number)
}

/// The tasks that wait after each step are those that were worked out by hand, and a prepared edit foretells them.
#[test]
fn edits_foretell_which_tasks_will_wait(rt: HostRuntime) -> Result<(), Fail> {
    for row in ROWS {
        assert_eq!(rt; first_wrong(rt.alloc(), row)?, row.len());
    }
    Ok(())
}
