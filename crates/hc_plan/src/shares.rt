//! The share of a slave in the working counter of a datagram, from the places of the slave's areas (ETG.1000.4, 5.4: a slave
//! whose inputs are read adds 1, one whose outputs are written 2, one with both 3).
ghost use Rattle.std.specs.Prelude.{◌≡◌, ◌+◌, ◌≤◌, IfSome, length};
ghost use Rattle.std.specs.List.{enumerate_from, list_any};
ghost use Rattle.hc_records.specs.declared.limits.TheConstants.{MOST_AREAS};
ghost use Rattle.hc_records.specs.Line.{line_from};
ghost use Rattle.hc_plan.specs.Shares.{SharesAddUp, share_of};
ghost use Rattle.hc_plan.specs.inner.Blocks.{IsLayoutOf};
ghost use Rattle.hc_plan.specs.inner.Shares.{is_area_in, share_in};

use crate::placed_line::PlacedLine;
use hc_groups::index::Indexed;
use hc_records::keys::Key;
use hc_records::records::{Area, Dir};
use hc_records::task::Task;

/// True if an area at an index of a slave with a rank has a direction and lies in the datagram of a task with a number.
fn is_carried(
    layout: &PlacedLine,
    task: Task,
    datagram: u8,
    dir: Dir,
    rank: u16,
    index: u8,
    area: &Area,
) -> bool
    ensures { result ≡ is_area_in layout.now (task, datagram) dir rank (index, area.now) }
{
    if area.task != task.number() || area.dir != dir {
        return false;
    }
    let key = Key {
        dir,
        rank,
        area: index,
    };
    match layout.placed(task, key) {
        Some(placed) => placed.datagram() == u16::from(datagram),
        None => false,
    }
}

/// True if one of the areas of a slave with a rank, from an index on, has a direction and lies in the datagram. A slave has at
/// most 8 areas, which bounds the recursion.
fn has_area(
    layout: &PlacedLine,
    task: Task,
    datagram: u8,
    dir: Dir,
    rank: u16,
    index: u8,
    areas: &[Area],
) -> bool
    requires { index + length areas.now ≤ MOST_AREAS }
    ensures { result ≡ list_any (is_area_in layout.now (task, datagram) dir rank) (enumerate_from index areas.now) }
{
    match areas {
        [] => false,
        [first, rest @ ..] => {
            is_carried(layout, task, datagram, dir, rank, index, first)
                || has_area(layout, task, datagram, dir, rank, index + 1, rest)
        }
    }
}

/// Returns the number, 0 to 3, that a slave with a rank and these areas adds to the counter of a datagram.
fn share(layout: &PlacedLine, task: Task, datagram: u8, rank: u16, areas: &[Area]) -> u16
    requires { length areas.now ≤ MOST_AREAS }
    ensures value { result ≡ share_in layout.now (task, datagram) rank areas.now }
    ensures low { result ≤ 3 }
{
    let writes = if has_area(layout, task, datagram, Dir::Out, rank, 0, areas) {
        2
    } else {
        0
    };
    let reads = if has_area(layout, task, datagram, Dir::In, rank, 0, areas) {
        1
    } else {
        0
    };
    writes + reads
}

/// Returns the number, 0 to 3, that the slave with a station address adds to the counter of a datagram; none if no such slave
/// is in the line.
pub(crate) fn share_of(
    groups: &Indexed<'_>,
    layout: &PlacedLine,
    task: Task,
    datagram: u8,
    station: u16,
) -> Option<u16>
    requires { IsLayoutOf groups.now layout.now }
    ensures value { result ≡ share_of (line_from 1 groups.now) task datagram station }
    ensures low { IfSome result (λ share. share ≤ 3) }
{
    match groups.slave_at(station) {
        Some(member) => {
            // says that the task's number is below 8
            let _ = task.number();
            let areas = member.slave().areas.as_slice();
            Some(share(layout, task, datagram, member.rank(), areas))
        }
        None => None,
    }
}

/// The numbers that the slaves of a project's line add to the working counter of a datagram sum up to its expected counter. The
/// function does nothing: its contract is the law.
pub fn shares_add_up()
    ensures { SharesAddUp }
{}
