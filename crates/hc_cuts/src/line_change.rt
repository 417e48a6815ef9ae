//! The difference between two lines: a stretch of slaves, and the areas of each of them in either line. An edit makes it once,
//! and every part that stores something of the line uses it.
ghost use Rattle.std.specs.Prelude.{◌≡◌, [], slice_index_or, true};
ghost use Rattle.hc_cuts.specs.LineChange.{areas_if};

use crate::areas::SlaveAreas;
use hc_records::records::{Area, Slave};
use std::marker::Model;

/// The areas of the slaves of a stretch in one of the two lines.
#[derive(Clone, Copy, Debug)]
pub(crate) enum Side<'a> {
    /// This many slaves, none of which is present.
    Absent(usize),
    /// Present slaves, each with the areas of its record.
    Present(&'a [Slave]),
    /// One slave with these areas.
    One(&'a [Area]),
    /// The slaves of a whole line.
    Line(&'a [SlaveAreas<'a>]),
}

/// Returns the areas of the slave at an index of some; none if there is no such slave.
fn record_areas<'a>(slaves: &'a [Slave], index: usize) -> &'a [Area]
    ensures { result.now ≡ slice_index_or (areas_if true slaves.now) index [] }
{
    match slaves.get(index) {
        Some(slave) => slave.areas.as_slice(),
        None => &[],
    }
}

/// Returns the areas of the slave at an index of a whole line.
fn listed_areas<'a>(slaves: &'a [SlaveAreas<'a>], index: usize) -> &'a [Area]
    ensures { result.now ≡ slice_index_or slaves.now index [] }
{
    match slaves.get(index) {
        Some(slave) => slave.as_slice(),
        None => &[],
    }
}

impl<'a> Side<'a> {
    ghost use Rattle.std.specs.Prelude.{◌≡◌, [], length, slice_index_or};
    ghost use Rattle.hc_cuts.specs.inner.LineChange.{side_areas};
    ghost use Rattle.hc_cuts.specs.LineChange.{areas_if};

    /// Returns the slaves of a group that is present or not.
    fn of_group(slaves: &'a [Slave], present: bool) -> Side<'a>
        ensures { side_areas result ≡ areas_if present slaves.now }
    {
        if present {
            Side::Present(slaves)
        } else {
            Side::Absent(slaves.len())
        }
    }

    /// Returns the number of slaves.
    fn slaves(&self) -> usize
        ensures { result ≡ length (side_areas self.now) }
    {
        match self {
            Side::Absent(slaves) => *slaves,
            Side::Present(slaves) => slaves.len(),
            Side::One(_) => 1,
            Side::Line(slaves) => slaves.len(),
        }
    }

    /// Returns the areas of the slave at an index, or `None` if there is no such slave.
    fn areas(&self, index: usize) -> &'a [Area]
        ensures { result.now ≡ slice_index_or (side_areas self.now) index [] }
    {
        match self {
            Side::Present(slaves) => record_areas(slaves, index),
            Side::One(areas) if index == 0 => areas,
            Side::Line(slaves) => listed_areas(slaves, index),
            Side::Absent(_) | Side::One(_) => &[],
        }
    }
}

/// The difference between two lines: slaves in a row, with the areas of each in either line. All other slaves have the same
/// areas in both. It lends what it returns, and allocates nothing.
#[derive(Debug, Drop)]
pub struct LineChange<'a> {
    first: u16,
    before: Side<'a>,
    after: Side<'a>,
}

impl<'a> Model for LineChange<'a> {
    ghost use Rattle.std.specs.Prelude.{◌≡◌, length};
    ghost use Rattle.hc_cuts.specs.inner.LineChange.{side_areas};
    ghost use Rattle.hc_cuts.specs.LineChange.{LineChange};

    ghost Value = { LineChange };

    ghost view = { λ change. record { first = change.first; areas_before = side_areas change.before; areas_after = side_areas change.after } };

    ghost invariant = { λ change. length (side_areas change.after) ≡ length (side_areas change.before) };
}

impl<'a> LineChange<'a> {
    ghost use Rattle.std.specs.Prelude.{◌≡◌, ◌+◌, ◌<◌, ◌∷◌, [], IfNone, IfSome, false, length, replicate, slice_index_or};
    ghost use Rattle.hc_cuts.specs.LineChange.{areas_if, back, changes};

    /// Returns the change of a group's slaves, from a rank on, which were in the line or not, and are in it afterwards or not.
    pub fn of_group(first: u16, slaves: &'a [Slave], was: bool, is: bool) -> LineChange<'a>
        ensures { result ≡ record { first = first; areas_before = areas_if was slaves.now; areas_after = areas_if is slaves.now } }
    {
        LineChange {
            first,
            before: Side::of_group(slaves, was),
            after: Side::of_group(slaves, is),
        }
    }

    /// Returns the change of the slave with a rank that had some areas in the line, and gets others.
    pub fn of_slave(rank: u16, before: &'a [Area], after: &'a [Area]) -> LineChange<'a>
        ensures { result ≡ record { first = rank; areas_before = before.now ∷ []; areas_after = after.now ∷ [] } }
    {
        LineChange {
            first: rank,
            before: Side::One(before),
            after: Side::One(after),
        }
    }

    /// Returns the change from a line without slaves to one whose slaves have these areas.
    pub(crate) fn opening(line: &'a [SlaveAreas<'a>]) -> LineChange<'a>
        ensures { result ≡ record { first = 1; areas_before = replicate (length line.now) []; areas_after = line.now } }
    {
        LineChange {
            first: 1,
            before: Side::Absent(line.len()),
            after: Side::Line(line),
        }
    }

    /// Returns the rank of the first slave.
    pub fn first(&self) -> u16
        ensures { result ≡ self.now.first }
    {
        self.first
    }

    /// Returns the number of slaves, as many before as after.
    pub fn slaves(&self) -> usize
        ensures count { result ≡ length self.now.areas_before }
        ensures same { length self.now.areas_after ≡ length self.now.areas_before }
    {
        self.before.slaves()
    }

    /// Returns the areas of the slave at an index, from 0, in the line before, or `None` if there is no such slave.
    pub fn areas_before(&self, index: usize) -> &'a [Area]
        ensures { result.now ≡ slice_index_or self.now.areas_before index [] }
    {
        self.before.areas(index)
    }

    /// Returns the areas of the slave at an index, from 0, in the line after, or `None` if there is no such slave.
    pub fn areas_after(&self, index: usize) -> &'a [Area]
        ensures { result.now ≡ slice_index_or self.now.areas_after index [] }
    {
        self.after.areas(index)
    }

    /// Returns the index of the slave with a rank among these, or `None` if it is not one of them.
    pub fn index_of(&self, rank: u16) -> Option<usize>
        ensures some { IfSome result (λ index. (rank ≡ self.now.first + index) × (index < length self.now.areas_before)) }
        ensures none { IfNone result (changes self.now rank ≡ false) }
    {
        if rank < self.first {
            return None;
        }
        let index = usize::from(rank - self.first);
        if index < self.before.slaves() {
            Some(index)
        } else {
            None
        }
    }

    /// Returns the change in the other direction.
    pub fn back(&self) -> LineChange<'a>
        ensures { result ≡ back self.now }
    {
        LineChange {
            first: self.first,
            before: self.after,
            after: self.before,
        }
    }
}
