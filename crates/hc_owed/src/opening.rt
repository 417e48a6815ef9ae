//! The registers of a line at its opening, from the declared slaves: their station addresses, known bytes and owed blocks.
ghost use Rattle.std.specs.Prelude.{◌≡◌, ◌+◌, ◌++◌, ◌*◌, ◌<◌, ◌≤◌, ◌^◌, IfOk, OnOk, None, length, map, replicate};
ghost use Rattle.hc_records.specs.Line.{groups_of};
ghost use Rattle.hc_records.specs.Project.{slaves_of};
ghost use Rattle.hc_owed.specs.Opening.{declared_flags, slave_has_block, slave_flags, slaves_flags};

use crate::flags::Flags;
use hc_records::records::{Declared, Slave};
use hc_registers::blocks::Block;
use std::alloc::{AllocError, Global};

/// Adds the station addresses of slaves. Fails with `AllocError` if an allocation fails.
pub(crate) fn push_stations(stations: &mut Vec<u16>, slaves: &[Slave]) -> Result<(), AllocError>
    ensures { OnOk result (stations.new.items ≡ stations.old.items ++ map (λ slave. slave.station) slaves.now) }
{
    for slave in slaves {
        stations.push(slave.station)?;
    }
    Ok(())
}

/// Returns the station addresses of all declared slaves, by rank. Fails with `AllocError` if an allocation fails.
pub(crate) fn declared_stations(alloc: Global, groups: &[Declared]) -> Result<Vec<u16>, AllocError>
    ensures { IfOk result (λ stations. stations.items ≡ map (λ slave. slave.station) (slaves_of (groups_of groups.now))) }
{
    let mut stations = Vec::new(alloc);
    for declared in groups {
        push_stations(&mut stations, declared.group.slaves.as_slice())?;
    }
    Ok(stations)
}

/// Returns a list in which nothing is known at so many places. Fails with `AllocError` if an allocation fails.
pub(crate) fn nothing_known(alloc: Global, places: usize) -> Result<Vec<Option<Block>>, AllocError>
    ensures { IfOk result (λ known. known.items ≡ replicate places None) }
{
    let mut known = Vec::with_capacity(alloc, places)?;
    for _ in 0..places {
        known.push(None)?;
    }
    Ok(known)
}

/// True if a slave has a block with this number: a present slave has two blocks for each area.
fn has_block(present: bool, slave: &Slave, number: usize) -> bool
    ensures { result ≡ slave_has_block present slave.now number }
{
    present && number / 2 < slave.areas.len()
}

/// Adds the places of a slave; those with a block are set.
fn push_slave(flags: &mut Flags, present: bool, slave: &Slave)
    requires { length flags.old.list + 16 ≤ flags.old.room }
    ensures { flags.new ≡ record flags.old { list = flags.old.list ++ slave_flags present slave.now } }
{
    for number in 0..16 {
        flags.push(has_block(present, slave, number));
    }
}

/// Adds the places of slaves, which are all present or all absent.
fn push_slaves(flags: &mut Flags, present: bool, slaves: &[Slave])
    requires { length flags.old.list + 16 * length slaves.now ≤ flags.old.room }
    ensures { flags.new ≡ record flags.old { list = flags.old.list ++ slaves_flags present slaves.now } }
{
    for slave in slaves {
        push_slave(flags, present, slave);
    }
}

/// Returns a flag for each place of all declared slaves; those with a block of the line are set. Fails with `AllocError` if an
/// allocation fails.
pub(crate) fn declared_flags(
    alloc: Global,
    groups: &[Declared],
    places: usize,
) -> Result<Flags, AllocError>
    requires places { places ≡ 16 * length (slaves_of (groups_of groups.now)) }
    requires low { places < 2 ^ 32 }
    ensures { IfOk result (λ flags. flags.list ≡ declared_flags groups.now) }
{
    let mut flags = Flags::with_room(alloc, places)?;
    for declared in groups {
        push_slaves(
            &mut flags,
            declared.present,
            declared.group.slaves.as_slice(),
        );
    }
    Ok(flags)
}
