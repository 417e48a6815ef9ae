//! The places of a task's areas, a span at a time: its datagram is filled with the areas from its boundary to the
//! next one.
ghost use Rattle.std.specs.Prelude.{◌≡◌, ◌<◌, ◌++◌, All, OnOk, true};
ghost use Rattle.hc_records.specs.Keys.{is_before};
ghost use Rattle.hc_records.specs.Laws.{IsPackable};
ghost use Rattle.hc_records.specs.SpanLaws.{places_in_span, next_cut};
ghost use Rattle.hc_records.specs.declared.keys.TheConstants.Key.{END};
ghost use Rattle.hc_records.specs.declared.limits.TheConstants.{MOST_DATAGRAMS};
ghost use Rattle.hc_bitsum.specs.Tree.{HoldsTaskList};
ghost use Rattle.hc_cuts.specs.Starts.{next_boundary};
ghost use Rattle.hc_cuts.specs.Walk.{blank_datagram, span_places};

use crate::packing::{Front, Placed};
use hc_bitsum::tree::SumTree;
use hc_records::keys::Key;
use std::alloc::{AllocError, Global};

/// Appends areas with their places in the datagram with a number, into which all of them fit. Memory for them is reserved
/// first; `AllocError` if an allocation fails.
fn add_areas(
    places: &mut Vec<Placed>,
    areas: &[(Key, u16)],
    datagram: u16,
) -> Result<(), AllocError>
    requires packable { All IsPackable areas.now }
    requires below { All (λ area. is_before area.0 END ≡ true) areas.now }
    requires room { next_cut (blank_datagram datagram) areas.now ≡ END }
    requires few { datagram < MOST_DATAGRAMS }
    ensures { OnOk result (places.new.items ≡ places.old.items ++ places_in_span (blank_datagram datagram) areas.now) }
{
    places.reserve(areas.len())?;
    let mut front = Front::blank(datagram);
    for area in areas {
        let (key, bits) = *area;
        let place = front.place(key, bits);
        places.push(place)?;
        front = place.after_it();
    }
    Ok(())
}

/// Appends the areas of a span, from a boundary to the next one, with their places in the datagram with a number. `AllocError`
/// if an allocation fails; then the places of the first areas may be appended.
pub(crate) fn add_span(
    alloc: Global,
    places: &mut Vec<Placed>,
    task: &SumTree,
    span: (Key, Key),
    datagram: u16,
) -> Result<(), AllocError>
    requires holds { HoldsTaskList task.now }
    requires ends { span.1 ≡ next_boundary span.0 task.now.list }
    requires few { datagram < MOST_DATAGRAMS }
    ensures { OnOk result (places.new.items ≡ places.old.items ++ span_places datagram span.0 task.now.list) }
{
    let areas = task.areas_between(alloc, span.0, span.1)?;
    add_areas(places, areas.as_slice(), datagram)
}
