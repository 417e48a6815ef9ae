//! The lines of the rows.
use crate::driven::Driven;
use hc_core::keeping::Core;
use hc_events::answer::Answer;
use hc_events::event::Event;
use hc_project::read_project;
use hc_records::faults::{EditFault, ProjectFault};
use hc_records::items::Items;
use hc_records::project::Project;
use hc_records::records::{Area, Dir, Entry, Group, Pdo, Slave, VarId};
use std::alloc::{AllocError, Global};
use std::test::Fail;
use thiserror::Error;

/// An axis with 2 output bits and 12 input bits in task 0, always in the line.
pub const AXIS: &str = r#"
slave = [
  { station = 1001, area = [
    { sm = 2, dir = "out", phys = 0x1100, task = 0, assigned = [0x1600], pdo = [
      { index = 0x1600, entries = [[1, 2]] },
    ] },
    { sm = 3, dir = "in", phys = 0x1180, task = 0, assigned = [0x1a00], pdo = [
      { index = 0x1a00, entries = [[2, 12]] },
    ] },
  ] },
]
"#;

/// The fault of a line that is not opened.
#[derive(Debug, Drop, Error)]
pub enum Refused {
    /// The project was refused.
    #[error("{0}")]
    Project(ProjectFault),
    /// The opening was refused.
    #[error("{0}")]
    Opening(EditFault),
}

/// A project at its opening.
fn opened_project(
    alloc: Global,
    project: Result<Project, ProjectFault>,
) -> Result<Driven, Refused> {
    let project = match project {
        Ok(project) => project,
        Err(fault) => return Err(Refused::Project(fault)),
    };
    match Core::new(alloc, project) {
        Ok(core) => Ok(Driven { core }),
        Err(fault) => Err(Refused::Opening(fault)),
    }
}

/// The project of a text at its opening.
pub fn opened(alloc: Global, text: &str) -> Result<Driven, Refused> {
    opened_project(alloc, read_project(alloc, text.as_bytes()))
}

/// An area of task 0 with one variable.
fn area(
    alloc: Global,
    sm: u8,
    dir: Dir,
    index: u16,
    variable: u32,
    bits: u8,
) -> Result<Area, AllocError> {
    let mut entries = Items::new(alloc);
    entries.push((VarId::new(variable), bits))?;
    let mut offered = Items::new(alloc);
    offered.push(Pdo { index, entries })?;
    let mut assigned = Items::new(alloc);
    assigned.push(index)?;
    let phys = match dir {
        Dir::Out => 0x1100,
        Dir::In => 0x1180,
    };
    Ok(Area {
        sm,
        dir,
        phys,
        offered,
        assigned,
        task: 0,
    })
}

/// The axis as it is in the text above.
fn axis(alloc: Global) -> Result<Items<Group>, AllocError> {
    let mut areas = Items::new(alloc);
    areas.push(area(alloc, 2, Dir::Out, 0x1600, 1, 2)?)?;
    areas.push(area(alloc, 3, Dir::In, 0x1a00, 2, 12)?)?;
    let mut slaves = Items::new(alloc);
    slaves.push(Slave {
        station: 1001,
        areas,
    })?;
    let mut groups = Items::new(alloc);
    groups.push(Group { alias: 0, slaves })?;
    Ok(groups)
}

/// The axis at its opening, without a text to be read, for rows that need it often.
pub fn opened_axis(alloc: Global) -> Result<Driven, Fail> {
    let groups = axis(alloc)?;
    Ok(opened_project(alloc, Project::checked(alloc, groups))?)
}

/// The bytes that a PDO of 64 entries holds.
const PDO_BYTES: u16 = 512;

/// Gaps of this many bytes together.
fn gaps(alloc: Global, bytes: u16) -> Result<Items<Entry>, AllocError> {
    let mut entries = Items::new(alloc);
    let mut left = bytes;
    for _ in 0..bytes.div_ceil(8) {
        let own = left.min(8);
        left -= own;
        entries.push((None, 8 * own as u8))?;
    }
    Ok(entries)
}

/// An output area of a task with this many bytes.
fn wide_area(alloc: Global, task: u8, bytes: u16) -> Result<Area, AllocError> {
    let mut offered = Items::new(alloc);
    let mut assigned = Items::new(alloc);
    let mut left = bytes;
    for index in 0..bytes.div_ceil(PDO_BYTES) {
        let own = left.min(PDO_BYTES);
        left -= own;
        let entries = gaps(alloc, own)?;
        offered.push(Pdo { index, entries })?;
        assigned.push(index)?;
    }
    Ok(Area {
        sm: 0,
        dir: Dir::Out,
        phys: 0x1000,
        offered,
        assigned,
        task,
    })
}

/// The mandatory group of slaves with the stations from 1 on, each with an output area of a task and this many bytes.
fn wide(alloc: Global, areas: &[(u8, u16)]) -> Result<Items<Group>, AllocError> {
    let mut slaves = Items::new(alloc);
    let mut station = 0_u16;
    for (task, bytes) in areas {
        station = station.saturating_add(1);
        let mut own = Items::new(alloc);
        own.push(wide_area(alloc, *task, *bytes)?)?;
        slaves.push(Slave {
            station,
            areas: own,
        })?;
    }
    let mut groups = Items::new(alloc);
    groups.push(Group { alias: 0, slaves })?;
    Ok(groups)
}

/// The line of these slaves at its opening.
pub fn opened_wide(alloc: Global, areas: &[(u8, u16)]) -> Result<Driven, Fail> {
    let groups = wide(alloc, areas)?;
    Ok(opened_project(alloc, Project::checked(alloc, groups))?)
}

/// Sets the working counter of a register write's frame to 1: it is after the 16 bytes of the frame's
/// head, the datagram's 10 and its data, whose number is the byte 22.
fn answer_write(frame: &mut [u8]) {
    if frame.len() > 26 {
        let at = usize::from(frame[22]) + 26;
        if at < frame.len() {
            frame[at] = 1;
        }
    }
}

/// Writes the next owed block, and hands its answer in. False if no block is owed, or the answer is not taken as the
/// confirmation.
pub fn write_one(driven: &mut Driven, alloc: Global) -> Result<bool, AllocError> {
    let sent = driven.put(alloc, Event::SendWrite)?;
    let Answer::WriteSent(text) = sent else {
        return Ok(false);
    };
    let mut frame = text.into_vec();
    answer_write(frame.as_mut_slice());
    let answer = driven.put(alloc, Event::Arrive(frame.as_slice()))?;
    Ok(matches!(answer, Answer::WriteDone))
}

/// Writes the owed blocks one after another, each with its answer, and returns their number. At most 200 are written, enough
/// for every row.
pub fn write_all(driven: &mut Driven, alloc: Global) -> Result<u32, AllocError> {
    let mut written = 0_u32;
    for _ in 0..200 {
        if !write_one(driven, alloc)? {
            return Ok(written);
        }
        written = written.saturating_add(1);
    }
    Ok(written)
}
