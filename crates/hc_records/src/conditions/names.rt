//! Names of the whole project that occur twice: aliases, station addresses, variables. An ordered set finds them.
ghost use Rattle.std.specs.Prelude.{◌≡◌, ◌++◌, IfOk, OnOk, map};
ghost use Rattle.hc_records.specs.Lists.{has_repeat};
ghost use Rattle.hc_records.specs.Project.{area_names, entry_names, has_repeated_alias, has_repeated_station, has_repeated_variable, pdo_names, slave_names};

use crate::records::{Area, Entry, Group, Pdo, Slave};
use std::alloc::{AllocError, Global};
use std::collections::BTreeSet;

/// Returns whether a number occurs twice, by a set of those seen.
fn repeats(alloc: Global, numbers: &[u32]) -> Result<bool, AllocError>
    ensures { IfOk result (λ found. found ≡ has_repeat numbers.now) }
{
    let mut seen = BTreeSet::new(alloc);
    for number in numbers {
        if !seen.insert(*number)? {
            return Ok(true);
        }
    }
    Ok(false)
}

/// Returns whether two groups have one alias.
pub fn repeats_alias(alloc: Global, groups: &[Group]) -> Result<bool, AllocError>
    ensures { IfOk result (λ found. found ≡ has_repeated_alias groups.now) }
{
    let mut aliases = Vec::new(alloc);
    for group in groups {
        aliases.push(u32::from(group.alias))?;
    }
    repeats(alloc, &aliases)
}

/// Appends the station addresses of slaves, in order. `AllocError` if an allocation fails.
fn add_stations(stations: &mut Vec<u32>, slaves: &[Slave]) -> Result<(), AllocError>
    ensures { OnOk result (stations.new.items ≡ stations.old.items ++ map (λ slave. slave.station) slaves.now) }
{
    for slave in slaves {
        stations.push(u32::from(slave.station))?;
    }
    Ok(())
}

/// Returns whether two slaves have one station address.
pub fn repeats_station(alloc: Global, groups: &[Group]) -> Result<bool, AllocError>
    ensures { IfOk result (λ found. found ≡ has_repeated_station groups.now) }
{
    let mut stations = Vec::new(alloc);
    for group in groups {
        add_stations(&mut stations, group.slaves.as_slice())?;
    }
    repeats(alloc, &stations)
}

/// Appends the variables of a PDO's entries, in order; an entry without a variable has none. `AllocError` if an allocation
/// fails.
fn add_entry_names(names: &mut Vec<u32>, entries: &[Entry]) -> Result<(), AllocError>
    ensures { OnOk result (names.new.items ≡ names.old.items ++ entry_names entries.now) }
{
    for entry in entries {
        if let Some(name) = entry.0 {
            names.push(name.number())?;
        }
    }
    Ok(())
}

/// Appends the variables of PDOs, in order. `AllocError` if an allocation fails.
fn add_pdo_names(names: &mut Vec<u32>, pdos: &[Pdo]) -> Result<(), AllocError>
    ensures { OnOk result (names.new.items ≡ names.old.items ++ pdo_names pdos.now) }
{
    for pdo in pdos {
        add_entry_names(names, pdo.entries.as_slice())?;
    }
    Ok(())
}

/// Appends the variables that areas offer, assigned or not, in order. `AllocError` if an allocation fails.
fn add_area_names(names: &mut Vec<u32>, areas: &[Area]) -> Result<(), AllocError>
    ensures { OnOk result (names.new.items ≡ names.old.items ++ area_names areas.now) }
{
    for area in areas {
        add_pdo_names(names, area.offered.as_slice())?;
    }
    Ok(())
}

/// Appends the variables that the areas of slaves offer, assigned or not, in order. `AllocError` if an allocation fails.
pub fn add_slave_names(names: &mut Vec<u32>, slaves: &[Slave]) -> Result<(), AllocError>
    ensures { OnOk result (names.new.items ≡ names.old.items ++ slave_names slaves.now) }
{
    for slave in slaves {
        add_area_names(names, slave.areas.as_slice())?;
    }
    Ok(())
}

/// Returns whether a variable is in two entries.
pub fn repeats_variable(alloc: Global, groups: &[Group]) -> Result<bool, AllocError>
    ensures { IfOk result (λ found. found ≡ has_repeated_variable groups.now) }
{
    let mut names = Vec::new(alloc);
    for group in groups {
        add_slave_names(&mut names, group.slaves.as_slice())?;
    }
    repeats(alloc, &names)
}
