//! Edits that are drawn from a fixed seed, on a plan of 16 slaves, with declarations of 48 more among them: the line after
//! each, and the edit itself. The tests of this crate and the exchanges of `worked_program` run them.
ghost use Rattle.std.specs.Prelude.{◌<◌, IsTrue};

use hc_plan::plan::Plan;
use hc_records::edit::Edit;
use hc_records::faults::EditFault;
use hc_records::items::Items;
use hc_records::project::Project;
use hc_records::records::{Area, Dir, Entry, Group, Pdo, Slave, VarId};
use std::alloc::{AllocError, Global};

/// The areas: an output area of each of the 64 slaves, then an input area of each.
pub const AREAS: usize = 128;

/// The bits of the PDOs that each area offers, by their indexes from 0 on.
pub const PDOS: [u16; 7] = [3, 8, 700, 3971, 4035, 3974, 3879];

/// The PDOs that a remap assigns together.
pub const ASSIGNED: [&[u16]; 8] = [&[], &[0], &[1], &[2], &[3], &[4], &[4, 5], &[4, 5, 6]];

/// The bits that each list of `ASSIGNED` gives an area.
pub const BITS: [u16; 8] = [0, 3, 8, 700, 3971, 4035, 8009, 11_888];

/// The bits of an entry, but for the last one of a PDO. The first entry is a variable, the second a gap, and so on.
pub const ENTRY_BITS: u16 = 64;

/// The tasks that a move takes an area to: task 0 more often than others, which it crowds.
const TASKS: [u8; 8] = [0, 0, 0, 0, 1, 1, 5, 7];

/// The first state of the linear congruence.
const SEED: u64 = 20_261_122;

/// The line after the edits so far.
#[derive(Clone, Copy)]
pub struct Line {
    /// The PDOs assigned to each area, as a place in `ASSIGNED`.
    pub assigned: [u8; AREAS],
    /// The task of each area.
    pub tasks: [u8; AREAS],
    /// True for each group of four slaves that is present.
    pub present: [bool; 16],
    /// The number of declared groups.
    pub declared: u16,
}

/// The opening: the mandatory group alone is present, three others are declared, and nothing is assigned.
const OPENING: Line = Line {
    assigned: [0; AREAS],
    tasks: [0; AREAS],
    present: [
        true, false, false, false, false, false, false, false, false, false, false, false, false,
        false, false, false,
    ],
    declared: 4,
};

/// Edits that are drawn one after another.
#[derive(Clone, Copy)]
pub struct Drawing {
    state: u64,
    /// The line after the edits that the plan accepted.
    pub line: Line,
}

/// The plan's answer to a drawn edit.
#[derive(Clone, Copy)]
pub struct Answered {
    /// The line as the edit would leave it.
    pub next: Line,
    /// True if the edit declares a group.
    pub is_declaration: bool,
    /// The fault by which the edit was refused. None if it was accepted.
    pub refused: Option<EditFault>,
}

/// The next number of a linear congruence.
fn drawn(state: &mut u64) -> usize {
    *state = state
        .wrapping_mul(6_364_136_223_846_793_005)
        .wrapping_add(1_442_695_040_888_963_407);
    (*state >> 33) as usize
}

impl Line {
    /// True if the edit that a number draws declares a group. At most 16 groups are declared.
    fn declares(&self, number: usize) -> bool
        ensures { IsTrue result → self.now.declared < 16 }
    {
        self.declared < 16 && number / 1024 % 4 == 0 && number / 128 % 8 == 5
    }

    /// The line after the edit that a number draws: a group is declared, connected or disconnected, or an area gets other PDOs
    /// or another task.
    fn edited(&self, number: usize) -> Line {
        let mut next = *self;
        let area = number % 128;
        let choice = number / 128 % 8;
        match number / 1024 % 4 {
            0 if self.declares(number) => next.declared += 1,
            0 => next.present[area / 8] = area < 8 || choice < 6,
            1 => next.tasks[area] = TASKS[choice],
            _ => next.assigned[area] = choice as u8,
        }
        next
    }

    /// The bits that an area, below 128, has in a task's list. 0 if the area is not in the list.
    pub fn width(&self, task: u8, area: usize) -> u16
        requires { area < 128 }
    {
        if self.present[area % 64 / 4] && self.tasks[area] == task {
            BITS[usize::from(self.assigned[area] % 8)]
        } else {
            0
        }
    }
}

impl Drawing {
    /// No edit is drawn yet.
    pub fn begin() -> Drawing {
        Drawing {
            state: SEED,
            line: OPENING,
        }
    }

    /// Draws an edit, and applies it to the plan. Fails if an allocation for the edit itself failed.
    pub fn apply_next(&mut self, alloc: Global, plan: &mut Plan) -> Result<Answered, AllocError> {
        let number = drawn(&mut self.state);
        let next = self.line.edited(number);
        let is_declaration = self.line.declares(number);
        let edit = edit(alloc, &self.line, number)?;
        let refused = match plan.apply(alloc, &edit) {
            Ok(_) => {
                self.line = next;
                None
            }
            Err(fault) => Some(fault),
        };
        Ok(Answered {
            next,
            is_declaration,
            refused,
        })
    }
}

/// The entries of a PDO of this many bits. Its variables have numbers from `first` on.
fn entries(alloc: Global, first: u32, bits: u16) -> Result<Items<Entry>, AllocError> {
    let mut entries = Items::new(alloc);
    let (mut left, mut number) = (bits, first);
    let mut is_variable = true;
    for _ in 0..bits.div_ceil(ENTRY_BITS) {
        let own = left.min(ENTRY_BITS);
        let variable = if is_variable {
            VarId::new(number)
        } else {
            None
        };
        entries.push((variable, own as u8))?;
        left -= own;
        number = number.saturating_add(1);
        is_variable = !is_variable;
    }
    Ok(entries)
}

/// An area with nothing assigned. Its variables have numbers from `first` on.
fn area(alloc: Global, first: u32, sm: u8, dir: Dir, phys: u16) -> Result<Area, AllocError> {
    let mut offered = Items::new(alloc);
    let (mut index, mut variable) = (0_u16, first);
    for bits in PDOS {
        let entries = entries(alloc, variable, bits)?;
        offered.push(Pdo { index, entries })?;
        index = index.saturating_add(1);
        variable = variable.saturating_add(64);
    }
    Ok(Area {
        sm,
        dir,
        phys,
        offered,
        assigned: Items::new(alloc),
        task: 0,
    })
}

/// A group of four slaves, the mandatory one for number 0; the slaves' station addresses follow one another from 1 on.
fn group(alloc: Global, number: u16) -> Result<Group, AllocError>
    requires { number < 16 }
{
    let mut slaves = Items::new(alloc);
    for place in 0..4 {
        let station = 4 * number + place + 1;
        let first = 1024 * u32::from(station);
        let mut areas = Items::new(alloc);
        areas.push(area(alloc, first, 0, Dir::Out, 0x1000)?)?;
        areas.push(area(alloc, first + 512, 1, Dir::In, 0x2000)?)?;
        slaves.push(Slave { station, areas })?;
    }
    Ok(Group {
        alias: number,
        slaves,
    })
}

/// The groups of the project.
pub fn groups(alloc: Global) -> Result<Items<Group>, AllocError> {
    let mut groups = Items::new(alloc);
    for number in 0..4 {
        groups.push(group(alloc, number)?)?;
    }
    Ok(groups)
}

/// The edit that assigns PDOs to an area.
pub fn remap(alloc: Global, station: u16, area: u8, pdos: &[u16]) -> Result<Edit, AllocError> {
    Ok(Edit::Remap {
        station,
        area,
        pdos: Items::of(Vec::from_slice(alloc, pdos)?),
    })
}

/// The edit that a number draws.
fn edit(alloc: Global, line: &Line, number: usize) -> Result<Edit, AllocError> {
    let place = number % 128;
    let choice = number / 128 % 8;
    let station = (place % 64) as u16 + 1;
    let area = (place / 64) as u8;
    match number / 1024 % 4 {
        0 if line.declares(number) => Ok(Edit::Declare(group(alloc, line.declared)?)),
        0 if place < 8 || choice < 6 => Ok(Edit::Connect((place / 8) as u16)),
        0 => Ok(Edit::Disconnect((place / 8) as u16)),
        1 => Ok(Edit::Move {
            station,
            area,
            task: TASKS[choice],
        }),
        _ => remap(alloc, station, area, ASSIGNED[choice]),
    }
}
