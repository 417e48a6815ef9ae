//! Project texts that are read, compared as a listing of every field that was written by hand, and texts that are refused.
mod groups;
mod limits;
mod projects;
mod refusals;

use hc_project::read_project;
use hc_records::faults::ProjectFault;
use hc_records::records::{Area, Dir, Pdo, Slave, VarId};
use std::alloc::{AllocError, Global};

/// The number of the fault of a text, 0 for a project.
fn fault_number(alloc: Global, text: &str) -> u8 {
    match read_project(alloc, text.as_bytes()) {
        Ok(_) => 0,
        Err(fault) => fault.number(),
    }
}

/// Every field of a project, a line for each group, slave, area and PDO.
fn listing(alloc: Global, text: &str) -> Result<String, ProjectFault> {
    let project = read_project(alloc, text.as_bytes())?;
    let mut list = String::new(alloc);
    for group in project.groups() {
        let alias = group.alias;
        writeln!(list, "group {alias}")?;
        list_slaves(&mut list, group.slaves.as_slice())?;
    }
    Ok(list)
}

/// Adds a line for each slave, with its areas after it.
fn list_slaves(list: &mut String, slaves: &[Slave]) -> Result<(), AllocError> {
    for slave in slaves {
        let station = slave.station;
        writeln!(list, "  slave {station}")?;
        list_areas(list, slave.areas.as_slice())?;
    }
    Ok(())
}

/// Adds a line for each area, with its PDOs after it.
fn list_areas(list: &mut String, areas: &[Area]) -> Result<(), AllocError> {
    for area in areas {
        let sm = area.sm;
        let dir = if area.dir == Dir::Out { "out" } else { "in" };
        let phys = area.phys;
        let task = area.task;
        write!(
            list,
            "    area sm {sm} {dir} phys {phys:#x} task {task} assigned"
        )?;
        list_indexes(list, area.assigned.as_slice())?;
        list.push_str("\n")?;
        list_pdos(list, area.offered.as_slice())?;
    }
    Ok(())
}

/// Adds the indexes of PDOs, in hexadecimal.
fn list_indexes(list: &mut String, indexes: &[u16]) -> Result<(), AllocError> {
    for index in indexes {
        let index = *index;
        write!(list, " {index:#x}")?;
    }
    Ok(())
}

/// Adds a line for each PDO, with its entries.
fn list_pdos(list: &mut String, pdos: &[Pdo]) -> Result<(), AllocError> {
    for pdo in pdos {
        let index = pdo.index;
        write!(list, "      pdo {index:#x} entries")?;
        list_entries(list, pdo.entries.as_slice())?;
        list.push_str("\n")?;
    }
    Ok(())
}

/// Adds each entry as its variable's number, 0 for none, and its bits.
fn list_entries(list: &mut String, entries: &[(Option<VarId>, u8)]) -> Result<(), AllocError> {
    for entry in entries {
        let variable = match entry.0 {
            Some(id) => id.number(),
            None => 0,
        };
        let bits = entry.1;
        write!(list, " {variable}:{bits}")?;
    }
    Ok(())
}
