//! Segments into which machines are cut. The room for them is allocated before.
ghost use Rattle.std.specs.Prelude.{◌≡◌, ◌≤◌, ◌+◌, ◌*◌, ◌/◌, [], ◌++◌, All, IfOk, drop, length, map, take, vec_len, vec_capacity};
ghost use Rattle.std.specs.Vec.Iter.{into_iter_items};
ghost use Rattle.hc_segment.specs.Line.{all_machines};
ghost use Rattle.hc_segment.specs.Cutting.{fourth};

use crate::Segment;
use hc_machine::SlaveMachine;
use std::alloc::{AllocError, Global};
use std::marker::Model;
use std::vec::IntoIter;

/// The most segments of a line.
const MOST_SEGMENTS: usize = 4;

/// Room for the machines of a segment. Contracts see it as the number of machines that there is room for.
#[derive(Drop)]
struct SegmentMachines {
    machines: Vec<SlaveMachine>,
}

impl Model for SegmentMachines {
    ghost use Rattle.std.specs.Prelude.{◌≡◌, ℕ, vec_capacity, vec_len};

    ghost Value = { ℕ };

    ghost view = { λ row. vec_capacity row.machines };

    ghost invariant = { λ row. vec_len row.machines ≡ 0 };
}

impl SegmentMachines {
    /// Room for `size` machines.
    fn new(alloc: Global, size: usize) -> Result<SegmentMachines, AllocError>
        ensures { IfOk result (λ row. size ≤ row) }
    {
        Ok(SegmentMachines {
            machines: Vec::with_capacity(alloc, size)?,
        })
    }

    /// The segment of the next machines, at most `most` of them.
    fn fill(self, machines: &mut IntoIter<SlaveMachine>, most: usize) -> Segment
        requires { most ≤ self }
        ensures segment { result ≡ take most (into_iter_items machines.old) }
        ensures rest { into_iter_items machines.new ≡ drop most (into_iter_items machines.old) }
    {
        let SegmentMachines { machines: mut row } = self;
        for _ in 0..most {
            let Some(machine) = machines.next() else {
                return Segment::of(row);
            };
            row.push_reserved(machine);
        }
        Segment::of(row)
    }
}

/// Room for segments of machines. Contracts see the number of segments, and the most machines of each.
#[derive(Drop)]
pub(crate) struct Cut {
    // no segment yet, but a place for one of each row
    segments: Vec<Segment>,
    rows: Vec<SegmentMachines>,
    // the most machines of a segment
    size: usize,
}

impl Model for Cut {
    ghost use Rattle.std.specs.Prelude.{◌≡◌, ◌≤◌, All, length, vec_capacity, vec_len};
    ghost use Rattle.hc_segment.specs.Cutting.{SegmentRoom};

    ghost Value = { SegmentRoom };

    ghost view = { λ cut. record { number = length cut.rows.items; size = cut.size } };

    ghost invariant = { λ cut. (vec_len cut.segments ≡ 0) × (length cut.rows.items ≤ vec_capacity cut.segments) × All (λ row. cut.size ≤ row) cut.rows.items };
}

/// Returns `number` rows of this size.
fn rows_of(alloc: Global, number: usize, size: usize) -> Result<Vec<SegmentMachines>, AllocError>
    ensures count { IfOk result (λ rows. length rows.items ≡ number) }
    ensures rows { IfOk result (λ rows. All (λ row. size ≤ row) rows.items) }
{
    let mut rows = Vec::new(alloc);
    for _ in 0..number {
        rows.push(SegmentMachines::new(alloc, size)?)?;
    }
    Ok(rows)
}

impl Cut {
    /// Room for `count` machines: at most four segments, each of at most a fourth of them, rounded up.
    pub(crate) fn new(alloc: Global, count: usize) -> Result<Cut, AllocError>
        ensures room { IfOk result (λ cut. count ≤ cut.number * cut.size) }
        ensures few { IfOk result (λ cut. cut.number ≤ 4) }
        ensures size { IfOk result (λ cut. cut.size ≡ fourth count) }
    {
        let size = count.div_ceil(MOST_SEGMENTS);
        let number = count.div_ceil(size.max(1));
        Ok(Cut {
            segments: Vec::with_capacity(alloc, number)?,
            rows: rows_of(alloc, number, size)?,
            size,
        })
    }

    /// The segments of these machines. All segments are used, though the last ones may be empty.
    pub(crate) fn segments(self, machines: Vec<SlaveMachine>) -> Vec<Segment>
        requires { length machines.items ≤ self.number * self.size }
        ensures machines { all_machines result.items ≡ machines.items }
        ensures number { length result.items ≡ self.number }
        ensures sizes { All (λ size. size ≤ self.size) (map length result.items) }
    {
        let Cut {
            mut segments,
            rows,
            size,
        } = self;
        let mut machines = machines.into_iter();
        for row in rows {
            segments.push_reserved(row.fill(&mut machines, size));
        }
        segments
    }
}
