//! Prepared edits of a simulated line: machines come and go with their group.
ghost use Rattle.std.specs.Prelude.{◌≡◌, ◌+◌, ◌^◌, ◌<◌, ◌≤◌, [], ◌++◌, IfOk, IfSome, find, length, option_and_then, option_map, reverse, sum_by, vec_len, vec_capacity};
ghost use Rattle.std.specs.Option.{option_copied};
ghost use Rattle.hc_records.specs.Line.{IsCounted, groups_of, line_from, present_slaves};
ghost use Rattle.hc_records.specs.Project.{lowest_fault};
ghost use Rattle.hc_segment.specs.Line.{all_machines};
ghost use Rattle.hc_segment.specs.Machines.{coming_at, going_at, has_alias, machines_replaced, replacement, slaves_before};

use crate::Segment;
use crate::fresh::fresh_machines;
use crate::line::SimulatedLine;
use crate::rows::Cut;
use hc_machine::SlaveMachine;
use hc_records::edit::Edit;
use hc_records::records::Declared;
use std::alloc::{AllocError, Global};
use std::marker::Model;

/// A prepared edit of a line's machines, with all memory for it. Contracts see the replacement, and the number of machines for
/// which it was prepared.
#[derive(Drop)]
pub struct LineEdit {
    count: usize,
    position: usize,
    gone: usize,
    coming: Vec<SlaveMachine>,
    // no machine yet, but a place for each old and each coming one
    all: Vec<SlaveMachine>,
    cut: Cut,
}

impl Model for LineEdit {
    ghost use Rattle.hc_segment.specs.Changing.{Prepared};

    ghost Value = { Prepared };

    ghost use Rattle.hc_segment.specs.Prepared.{HasRoomForMachines, prepared_in};

    ghost view = { prepared_in };

    ghost invariant = { HasRoomForMachines };
}

/// The declared group with an alias.
fn group_with(groups: &[Declared], alias: u16) -> Option<&Declared>
    ensures { option_copied result ≡ find (has_alias alias) groups.now }
{
    groups.iter().find(|declared| declared.group.alias == alias)
}

/// The number of slaves of a declared group that are in the line.
fn present_count(declared: &Declared) -> usize
    ensures { result ≡ length (present_slaves declared.now) }
{
    if declared.present {
        declared.group.slaves.len()
    } else {
        0
    }
}

/// The number of slaves of the line before the group with an alias. The recursion is as deep as the number of groups, at most
/// 512.
fn slaves_before(groups: &[Declared], alias: u16) -> usize
    requires { IsCounted groups.now }
    ensures { result ≡ slaves_before alias groups.now }
{
    let Some((declared, others)) = groups.split_first() else {
        return 0;
    };
    if declared.group.alias == alias {
        return 0;
    }
    present_count(declared) + slaves_before(others, alias)
}

/// The machines of segments in a row; no segment is left.
fn gathered(segments: &mut Vec<Segment>, room: Vec<SlaveMachine>) -> Vec<SlaveMachine>
    requires empty { room.items ≡ [] }
    requires room { length (all_machines segments.old.items) ≤ vec_capacity room }
    ensures items { result.items ≡ all_machines segments.old.items }
    ensures room { vec_capacity room ≤ vec_capacity result }
{
    let mut all = room;
    segments.reverse();
    while let Some(segment) = segments.pop() {
        let mut machines = segment.into_machines();
        let _moved = all.append(&mut machines);
    }
    all
}

/// The machines after a replacement: after the first `position` machines, which stay, `gone` machines go, and others come in
/// their place.
fn turned(
    machines: Vec<SlaveMachine>,
    position: usize,
    gone: usize,
    coming: Vec<SlaveMachine>,
) -> Vec<SlaveMachine>
    requires few { position + gone < 2 ^ 64 }
    requires room { vec_len machines + vec_len coming ≤ vec_capacity machines }
    ensures { result.items ≡ machines_replaced (record { position = position; gone = gone; coming = coming.items }) machines.items }
{
    let mut machines = machines;
    let mut coming = coming;
    let front = position.min(machines.len());
    let back = (position + gone).min(machines.len());
    let after_it = machines.len() - back;
    machines.rotate_left(back);
    machines.truncate(after_it + front);
    let _moved = machines.append(&mut coming);
    machines.rotate_left(after_it);
    machines
}

impl LineEdit {
    /// The edit of a line of `count` machines, with the memory for it.
    fn new(
        alloc: Global,
        count: usize,
        position: usize,
        gone: usize,
        coming: Vec<SlaveMachine>,
    ) -> Result<LineEdit, AllocError>
        requires { position + gone < 2 ^ 32 }
        ensures { IfOk result (λ ready. ready ≡ record { count = count; replacement = record { position = position; gone = gone; coming = coming.items } }) }
    {
        // no memory has so many machines that their number does not fit
        let Some(most) = count.checked_add(coming.len()) else {
            return Err(AllocError);
        };
        let all = Vec::with_capacity(alloc, most)?;
        let left = (position + gone).min(count) - position.min(count);
        let cut = Cut::new(alloc, most - left)?;
        Ok(LineEdit {
            count,
            position,
            gone,
            coming,
            all,
            cut,
        })
    }
}

impl SimulatedLine {
    /// The edit by which the group with an alias comes. None if the group is in the line, or not declared.
    fn prepare_coming(
        &self,
        alloc: Global,
        groups: &[Declared],
        alias: u16,
    ) -> Result<Option<LineEdit>, AllocError>
        requires { lowest_fault (groups_of groups.now) ≡ None }
        ensures replacement { IfOk result (λ ready. option_map (λ r. r.replacement) ready ≡ option_and_then (coming_at (slaves_before alias groups.now)) (find (has_alias alias) groups.now)) }
        ensures count { IfOk result (λ ready. IfSome ready (λ r. r.count ≡ length self.now)) }
    {
        match group_with(groups, alias) {
            Some(declared) => {
                if declared.present {
                    return Ok(None);
                }
                let position = slaves_before(groups, alias);
                let coming = fresh_machines(alloc, &declared.group)?;
                Ok(Some(LineEdit::new(alloc, self.len(), position, 0, coming)?))
            }
            None => Ok(None),
        }
    }

    /// The edit by which the group with an alias goes. None if the group is not in the line, or not declared.
    fn prepare_going(
        &self,
        alloc: Global,
        groups: &[Declared],
        alias: u16,
    ) -> Result<Option<LineEdit>, AllocError>
        requires { lowest_fault (groups_of groups.now) ≡ None }
        ensures replacement { IfOk result (λ ready. option_map (λ r. r.replacement) ready ≡ option_and_then (going_at (slaves_before alias groups.now)) (find (has_alias alias) groups.now)) }
        ensures count { IfOk result (λ ready. IfSome ready (λ r. r.count ≡ length self.now)) }
    {
        match group_with(groups, alias) {
            Some(declared) => {
                if !declared.present {
                    return Ok(None);
                }
                let position = slaves_before(groups, alias);
                let gone = declared.group.slaves.len();
                Ok(Some(LineEdit::new(alloc, self.len(), position, gone, Vec::new(alloc))?))
            }
            None => Ok(None),
        }
    }

    /// Prepares what an edit, which these groups accept, changes of the machines. None if it touches no machine. All memory for
    /// it is allocated here, and nothing changes. `AllocError` if an allocation failed.
    pub fn prepare(
        &self,
        alloc: Global,
        groups: &[Declared],
        edit: &Edit,
    ) -> Result<Option<LineEdit>, AllocError>
        requires { lowest_fault (groups_of groups.now) ≡ None }
        ensures replacement { IfOk result (λ ready. option_map (λ r. r.replacement) ready ≡ replacement groups.now edit.now) }
        ensures count { IfOk result (λ ready. IfSome ready (λ r. r.count ≡ length self.now)) }
    {
        match edit {
            Edit::Connect(alias) => self.prepare_coming(alloc, groups, *alias),
            Edit::Disconnect(alias) => self.prepare_going(alloc, groups, *alias),
            _ => Ok(None),
        }
    }

    /// Carries out an edit that was prepared for a line of as many machines. Machines that go are dropped, fresh ones come in
    /// their place, and the others keep their memory. The machines are then cut into at most four segments again, each of at
    /// most a fourth of them, rounded up. It does not allocate.
    pub fn carry_out(&mut self, ready: LineEdit)
        requires { ready.count ≡ length self.old }
        ensures { self.new ≡ machines_replaced ready.replacement self.old }
    {
        let LineEdit {
            count: _,
            position,
            gone,
            coming,
            all,
            cut,
        } = ready;
        let machines = gathered(&mut self.segments, all);
        let machines = turned(machines, position, gone, coming);
        self.count = machines.len();
        self.segments = cut.segments(machines);
    }
}
