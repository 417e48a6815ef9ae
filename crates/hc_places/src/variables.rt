//! The places of a task's variables.
ghost use Rattle.std.specs.Prelude.{◌≡◌, ◌+◌, ◌<◌, ◌≤◌, ◌++◌, All, IfOk, OnOk, map};
ghost use Rattle.std.specs.List.{flat_map};
ghost use Rattle.hc_records.specs.Area.{entry_bits, width};
ghost use Rattle.hc_records.specs.Image.{variables_from};
ghost use Rattle.hc_records.specs.declared.limits.TheConstants.{MOST_AREA_BITS, MOST_DATAGRAMS};
ghost use Rattle.hc_places.specs.Found.{IsFoundSuiting, area_rows, found_variables};
ghost use Rattle.hc_places.specs.inner.Parts.{AreSendable, row_at};
ghost use Rattle.hc_records.specs.Limits.{IsEntryInside};
ghost use Rattle.hc_places.specs.Ranges.{OffersBits};

use crate::table::Place;
use hc_cuts::areas::{SlaveAreas, find_area};
use hc_cuts::packing::Placed;
use hc_records::assignment::offered_entries;
use hc_records::records::{Area, Dir, Entry, VarId};
use hc_records::task::Task;
use std::alloc::AllocError;

/// The task, the datagram and the direction that an area's variables have in common.
#[derive(Drop)]
struct Carrier {
    task: Task,
    datagram: u8,
    dir: Dir,
}

/// Adds the variables of entries, from a bit on, and returns the first bit after them. Fails with `AllocError` if an allocation
/// fails.
fn add_entries(
    rows: &mut Vec<(VarId, Place)>,
    carrier: &Carrier,
    first: u16,
    entries: &[Entry],
) -> Result<u16, AllocError>
    requires datagram { carrier.now.datagram < MOST_DATAGRAMS }
    requires inside { first + entry_bits entries.now ≤ MOST_AREA_BITS }
    requires widths { All IsEntryInside entries.now }
    ensures rows { OnOk result (rows.new.items ≡ rows.old.items ++ map (row_at carrier.now.task carrier.now.datagram carrier.now.dir) (variables_from first entries.now)) }
    ensures after_it { IfOk result (λ after_it. after_it ≡ first + entry_bits entries.now) }
{
    let mut bit = first;
    for entry in entries {
        let (variable, bits) = *entry;
        if let Some(variable) = variable {
            let place = Place {
                task: carrier.task.number(),
                datagram: carrier.datagram,
                bit,
                bits,
                dir: carrier.dir,
            };
            rows.push((variable, place))?;
        }
        bit += u16::from(bits);
    }
    Ok(bit)
}

/// Adds the variables of an area that is at a place in a task, with their places, in the order in which its entries are
/// assigned. The area's bits are in one of 16 datagrams. Fails with `AllocError` if an allocation fails.
pub fn add_area(
    rows: &mut Vec<(VarId, Place)>,
    task: Task,
    area: &Area,
    placed: Placed,
) -> Result<(), AllocError>
    requires few { placed.datagram < MOST_DATAGRAMS }
    requires inside { placed.bit + width area.now ≤ MOST_AREA_BITS }
    requires offers { OffersBits area.now }
    ensures { OnOk result (rows.new.items ≡ rows.old.items ++ area_rows task area.now placed) }
{
    let carrier = Carrier {
        task,
        datagram: placed.datagram() as u8,
        dir: area.dir,
    };
    let mut bit = placed.bit();
    for index in area.assigned.as_slice() {
        let entries = offered_entries(area.offered.as_slice(), *index);
        bit = add_entries(rows, &carrier, bit, entries)?;
    }
    Ok(())
}

/// Adds the variables of a task whose areas have these places; the records of the areas are found under their keys. Fails with
/// `AllocError` if an allocation fails.
pub(crate) fn add_found(
    rows: &mut Vec<(VarId, Place)>,
    task: Task,
    slaves: &[SlaveAreas],
    places: &[Placed],
) -> Result<(), AllocError>
    requires sendable { AreSendable places.now }
    requires suit { All (IsFoundSuiting slaves.now) places.now }
    ensures { OnOk result (rows.new.items ≡ rows.old.items ++ flat_map (found_variables task slaves.now) places.now) }
{
    for placed in places {
        if let Some(area) = find_area(slaves, placed.key()) {
            add_area(rows, task, area, *placed)?;
        }
    }
    Ok(())
}
