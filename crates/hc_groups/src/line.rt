//! The station addresses of the slaves of the line, in line order. They stand at the front of a list with a place for each
//! declared slave, so that a group can be connected and disconnected without an allocation.
ghost use Rattle.std.specs.Prelude.{◌≡◌, ◌+◌, ◌≤◌, ◌++◌, [], if◌then◌else◌, IfOk, OnOk, drop, length, sum_by, take};
ghost use Rattle.hc_groups.specs.Index.{BeginsWithLine, declared_count, line_stations, stations};
ghost use Rattle.hc_groups.specs.inner.Line.{IsReplaced};

use hc_records::records::{Declared, Slave};
use std::alloc::{AllocError, Global};

/// Appends the station addresses of slaves.
fn add_stations(all: &mut Vec<u16>, slaves: &[Slave]) -> Result<(), AllocError>
    ensures { OnOk result (all.new.items ≡ all.old.items ++ stations slaves.now) }
{
    for slave in slaves {
        all.push(slave.station)?;
    }
    Ok(())
}

/// Returns the slaves of a declared group in the line: all if it is present, else none.
pub(crate) fn slaves_if(declared: &Declared, present: bool) -> &[Slave]
    ensures { result.now ≡ (if present then declared.now.group.slaves else []) }
{
    if present {
        declared.group.slaves.as_slice()
    } else {
        &[]
    }
}

/// Returns the station addresses of the slaves of the line.
fn stations_of(alloc: Global, groups: &[Declared]) -> Result<Vec<u16>, AllocError>
    ensures { IfOk result (λ all. all.items ≡ line_stations groups.now) }
{
    let mut all = Vec::new(alloc);
    for declared in groups {
        add_stations(&mut all, slaves_if(declared, declared.present))?;
    }
    Ok(all)
}

/// Returns the station addresses of the slaves of the line at the front of a list with as many places as slaves are declared.
/// `AllocError` if an allocation fails.
pub(crate) fn line_list(
    alloc: Global,
    groups: &[Declared],
    declared: usize,
) -> Result<Vec<u16>, AllocError>
    requires { declared ≡ sum_by declared_count groups.now }
    ensures { IfOk result (λ all. BeginsWithLine groups.now all.items) }
{
    let mut all = stations_of(alloc, groups)?;
    all.resize(declared, 0)?;
    Ok(all)
}

/// Writes the station addresses of slaves into a list, from a position on.
fn write_stations(list: &mut [u16], position: usize, slaves: &[Slave])
    requires { position + length slaves.now ≤ length list.old }
    ensures { list.new ≡ take position list.old ++ (stations slaves.now ++ drop (position + length slaves.now) list.old) }
{
    for i in 0..slaves.len() {
        list[position + i] = slaves[i].station;
    }
}

/// A stretch of the line, by positions: the first slave, the number of its slaves, and the number of slaves of the line.
#[derive(Clone, Copy)]
pub(crate) struct Stretch {
    pub(crate) position: usize,
    pub(crate) own: usize,
    pub(crate) line: usize,
}

/// Replaces the slaves of a stretch by others: the station addresses after it move up or down.
pub(crate) fn replace(list: &mut [u16], stretch: Stretch, slaves: &[Slave])
    requires inside { stretch.position + stretch.own ≤ stretch.line }
    requires most { stretch.line ≤ length list.old }
    requires room { stretch.line + length slaves.now ≤ length list.old + stretch.own }
    ensures { IsReplaced stretch (stations slaves.now) list.old list.new }
{
    let after = stretch.position + stretch.own;
    list.copy_within(after..stretch.line, stretch.position + slaves.len());
    write_stations(list, stretch.position, slaves);
}
