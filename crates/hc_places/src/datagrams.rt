//! The datagrams of a task, from the places of its areas.
ghost use Rattle.std.specs.Prelude.{◌≡◌};
ghost use Rattle.hc_records.specs.Image.{datagram_count};
ghost use Rattle.hc_places.specs.DatagramUses.{table_at};
ghost use Rattle.hc_places.specs.inner.Parts.{AreSendable};

use crate::datagram_uses::DatagramUse;
use crate::table::TaskTable;
use hc_cuts::packing::Placed;
use hc_records::task::Task;

/// Returns the number of datagrams that the areas take.
fn datagram_count(areas: &[Placed]) -> usize
    ensures { result ≡ datagram_count areas.now }
{
    let mut count = 0;
    for area in areas {
        count = count.max(usize::from(area.datagram()) + 1);
    }
    count
}

/// Returns the table of a task from the places of its areas.
pub(crate) fn task_table(task: Task, areas: &[Placed]) -> TaskTable
    requires { AreSendable areas.now }
    ensures { result ≡ table_at task areas.now }
{
    let mut table = TaskTable::empty();
    for number in 0..datagram_count(areas) as u16 {
        table.add(task, DatagramUse::of(areas, number));
    }
    table
}
