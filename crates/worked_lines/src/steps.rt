//! Steps of a line's plan, each with its answer.
use crate::drawn::remap;
use crate::opened::{group_of, plan_of};
use hc_places::table::{Datagram, Places};
use hc_plan::plan::Plan;
use hc_plan::report::Report;
use hc_records::edit::Edit;
use hc_records::faults::EditFault;
use hc_records::records::{Dir, VarId};
use std::alloc::{AllocError, Global};
use std::test::Fail;

/// The epoch, the numbers of recut spans and of variables that get another place, and the blocks that move, by station address
/// and number.
pub type Reported = (u32, u32, u32, &'static [(u16, u8)]);

/// The answer to an edit.
pub type Answer = Result<Reported, EditFault>;

/// A datagram: its address, length, expected counter and offset.
pub type Wanted = (u32, u16, u16, u16);

/// A place: its task, datagram, first bit, bits and direction.
pub type IsPlaced = (u8, u8, u16, u8, Dir);

/// A step, with its answer.
#[derive(Clone, Copy)]
pub enum Step {
    Connect(u16, Answer),
    Disconnect(u16, Answer),
    /// An area of a slave gets these PDOs.
    Remap(u16, u8, &'static [u16], Answer),
    /// An area of a slave moves to a task.
    Move(u16, u8, u8, Answer),
    /// The group of a text is declared.
    Declare(&'static str, Answer),
    /// The datagrams of a task.
    Datagrams(u8, &'static [Wanted]),
    /// The bytes of outputs and of inputs of a task.
    Part(u8, (u16, u16)),
    /// The place of a variable.
    At(u32, Option<IsPlaced>),
    /// A slave's block with a number, at its register.
    Block(u16, u8, u16, &'static [u8]),
}

/// The number of the last variable.
const LAST: u32 = 7;

/// True if two tables have the same part and the same first datagram of each task.
fn has_same_tasks(one: &Places, other: &Places) -> bool {
    for task in 0..8 {
        if one.part(task) != other.part(task) || one.datagram(task, 0) != other.datagram(task, 0) {
            return false;
        }
    }
    true
}

/// True if two tables have the same places of the variables up to `LAST`, and the same tasks.
fn is_same_table(one: &Places, other: &Places) -> bool {
    for number in 1..=LAST {
        if let Some(variable) = VarId::new(number) {
            if one.place(variable) != other.place(variable) {
                return false;
            }
        }
    }
    has_same_tasks(one, other)
}

/// True if a report has these numbers and blocks, and its swap leads from one table to the other.
fn says(
    alloc: Global,
    report: &Report,
    reported: &Reported,
    table: &mut Places,
    new: &Places,
) -> Result<bool, AllocError> {
    table.swap(alloc, &report.swap)?;
    Ok(
        (report.epoch, report.recut, report.swap.places()) == (reported.0, reported.1, reported.2)
            && report.moved as usize == reported.3.len()
            && report.blocks.as_slice() == reported.3
            && is_same_table(table, new),
    )
}

/// The answer to an edit. If an allocation fails, and the plan has the epoch, the number of groups and the table that it had,
/// the edit is carried out again.
fn applied(
    plan: &mut Plan,
    alloc: Global,
    edit: &Edit,
    table: &Places,
) -> Result<Report, EditFault> {
    let had = (plan.epoch(), plan.groups().len());
    let answer = plan.apply(alloc, edit);
    let has = (plan.epoch(), plan.groups().len());
    match answer {
        Err(EditFault::Memory) if has == had && is_same_table(plan.places(), table) => {
            plan.apply(alloc, edit)
        }
        answer => answer,
    }
}

/// Carries out an edit. True if it has this answer, and a refused one leaves the table.
fn is_answered(plan: &mut Plan, alloc: Global, edit: &Edit, answer: &Answer) -> Result<bool, Fail> {
    let mut table = plan.places().copied(alloc)?;
    match (applied(plan, alloc, edit, &table), answer) {
        (Err(EditFault::Memory), _) => Err(Fail::from(EditFault::Memory)),
        (Ok(report), Ok(reported)) => Ok(says(
            alloc,
            &report,
            reported,
            &mut table,
            plan.places(),
        )?),
        (Err(fault), Err(other)) => Ok(fault == *other && is_same_table(&table, plan.places())),
        _ => Ok(false),
    }
}

/// True if a plan has exactly these datagrams of a task.
pub fn has_datagrams(plan: &Plan, task: u8, datagrams: &[Wanted]) -> bool {
    let mut number = 0_u8;
    for (address, length, expected, offset) in datagrams {
        let wanted = Datagram {
            address: *address,
            length: *length,
            expected: *expected,
            offset: *offset,
        };
        if plan.places().datagram(task, number) != Some(wanted) {
            return false;
        }
        number = number.saturating_add(1);
    }
    plan.places().datagram(task, number).is_none()
}

/// True if a variable has this place, or none.
fn is_at(plan: &Plan, number: u32, wanted: Option<IsPlaced>) -> bool {
    let Some(variable) = VarId::new(number) else {
        return false;
    };
    match plan.places().place(variable) {
        Some(place) => {
            wanted == Some((place.task, place.datagram, place.bit, place.bits, place.dir))
        }
        None => wanted.is_none(),
    }
}

/// True if a slave's block with this number has these bytes, and is at this register.
pub fn has_block(plan: &Plan, station: u16, number: u8, register: u16, bytes: &[u8]) -> bool {
    match plan.block(station, number) {
        Some(block) => block.register() == register && block.bytes() == bytes,
        None => false,
    }
}

/// True if a step has its answer.
fn holds(plan: &mut Plan, alloc: Global, step: Step) -> Result<bool, Fail> {
    match step {
        Step::Connect(alias, answer) => is_answered(plan, alloc, &Edit::Connect(alias), &answer),
        Step::Disconnect(alias, answer) => {
            is_answered(plan, alloc, &Edit::Disconnect(alias), &answer)
        }
        Step::Remap(station, area, pdos, answer) => {
            let edit = remap(alloc, station, area, pdos)?;
            is_answered(plan, alloc, &edit, &answer)
        }
        Step::Move(station, area, task, answer) => {
            let edit = Edit::Move {
                station,
                area,
                task,
            };
            is_answered(plan, alloc, &edit, &answer)
        }
        Step::Declare(text, answer) => {
            let edit = Edit::Declare(group_of(alloc, text)?);
            is_answered(plan, alloc, &edit, &answer)
        }
        Step::Datagrams(task, datagrams) => Ok(has_datagrams(plan, task, datagrams)),
        Step::Part(task, part) => Ok(plan.places().part(task) == part),
        Step::At(number, place) => Ok(is_at(plan, number, place)),
        Step::Block(station, number, register, bytes) => {
            Ok(has_block(plan, station, number, register, bytes))
        }
    }
}

/// The number, from 0, of a plan's first step with another answer. None if there is none.
fn first_wrong(plan: &mut Plan, alloc: Global, steps: &[Step]) -> Result<Option<usize>, Fail> {
    let mut number = 0_usize;
    for step in steps {
        if !holds(plan, alloc, *step)? {
            return Ok(Some(number));
        }
        number = number.saturating_add(1);
    }
    Ok(None)
}

/// The number, from 0, of the first step with another answer, in the line of a text from its opening on. None if there is none.
pub fn first_wrong_of(alloc: Global, text: &str, steps: &[Step]) -> Result<Option<usize>, Fail> {
    let mut plan = plan_of(alloc, text)?;
    first_wrong(&mut plan, alloc, steps)
}
