//! The faults that an edit has by itself: beside the declared groups, their presence, and its own words.
ghost use Rattle.std.specs.Prelude.{◌≡◌, None, Some, IfErr, IfOk};
ghost use Rattle.hc_records.specs.Edits.{area_at, area_faults};
ghost use Rattle.hc_records.specs.Lists.{lowest};
ghost use Rattle.hc_records.specs.declared.edit.Edit.TheVariants.{Connect, Disconnect, Remap, Move};
ghost use Rattle.hc_groups.specs.Edits.{assigning_faults, own_fault, groups_state};

use crate::index::Indexed;
use hc_records::assignment::repeats;
use hc_records::edit::Edit;
use hc_records::faults::EditFault;
use hc_records::limits::{MOST_AREA_BITS, TASKS};
use hc_records::records::Area;

/// Returns why a group cannot be connected: `AlreadyPresent` if it is present, `UnknownAlias` if no declared group has the
/// alias.
fn connect_fault(groups: &Indexed, alias: u16) -> Option<EditFault>
    ensures { result ≡ own_fault groups.now (Connect alias) }
{
    match groups.presence(alias) {
        Some(false) => None,
        Some(true) => Some(EditFault::AlreadyPresent),
        None => Some(EditFault::UnknownAlias),
    }
}

/// Returns why a group cannot be disconnected: `Mandatory` for the present group with alias 0, `NotPresent` if it is absent,
/// `UnknownAlias` if no declared group has the alias.
fn disconnect_fault(groups: &Indexed, alias: u16) -> Option<EditFault>
    ensures { result ≡ own_fault groups.now (Disconnect alias) }
{
    match groups.presence(alias) {
        Some(true) if alias == 0 => Some(EditFault::Mandatory),
        Some(true) => None,
        Some(false) => Some(EditFault::NotPresent),
        None => Some(EditFault::UnknownAlias),
    }
}

/// Returns an area of the present slave with a station address, or why there is none.
fn area_of<'a>(groups: &Indexed<'a>, station: u16, area: u8) -> Result<&'a Area, EditFault>
    ensures found { IfOk result (λ found. area_at (groups_state groups.now) station area ≡ Some found.now) }
    ensures free { IfOk result (λ found. lowest (area_faults (groups_state groups.now) station area) ≡ None) }
    ensures refused { IfErr result (λ fault. lowest (area_faults (groups_state groups.now) station area) ≡ Some fault) }
{
    if !groups.is_declared_station(station) {
        return Err(EditFault::UnknownStation);
    }
    let Some(slave) = groups.slave_at(station) else {
        return Err(EditFault::Absent);
    };
    match slave.slave().areas.as_slice().get(usize::from(area)) {
        Some(found) => Ok(found),
        None => Err(EditFault::NoSuchArea),
    }
}

/// Returns why an area cannot have these PDOs assigned.
fn assigning_fault(area: &Area, pdos: &[u16]) -> Option<EditFault>
    ensures { result ≡ lowest (assigning_faults area.now pdos.now) }
{
    if area.has_unknown(pdos) {
        return Some(EditFault::UnknownPdo);
    }
    if repeats(pdos) {
        return Some(EditFault::RepeatedPdo);
    }
    if MOST_AREA_BITS < area.width_with(pdos) {
        return Some(EditFault::AreaTooBig);
    }
    None
}

/// Returns the lowest fault that a remap with these indexes has by itself, as `own_fault` of that edit. The indexes may stand
/// in a slice; no list of them is made. It allocates nothing.
pub fn remap_fault(groups: &Indexed, station: u16, area: u8, pdos: &[u16]) -> Option<EditFault>
    ensures { result ≡ own_fault groups.now (Remap station area pdos.now) }
{
    match area_of(groups, station, area) {
        Ok(found) => assigning_fault(found, pdos),
        Err(fault) => Some(fault),
    }
}

/// Returns why an area cannot move to a task: `UnknownStation`, `Absent` or `NoSuchArea` if there is no such area, otherwise
/// `NoSuchTask` for a task over 7.
fn move_fault(groups: &Indexed, station: u16, area: u8, task: u8) -> Option<EditFault>
    ensures { result ≡ own_fault groups.now (Move station area task) }
{
    match area_of(groups, station, area) {
        Ok(_) if task < TASKS => None,
        Ok(_) => Some(EditFault::NoSuchTask),
        Err(fault) => Some(fault),
    }
}

/// Returns the lowest fault that an edit has by itself, or `None`: the first of the faults 1 to 11 that holds over the declared
/// groups. An edit that declares a group has none of these. It allocates nothing.
pub fn own_fault(groups: &Indexed, edit: &Edit) -> Option<EditFault>
    ensures { result ≡ own_fault groups.now edit.now }
{
    match edit {
        Edit::Connect(alias) => connect_fault(groups, *alias),
        Edit::Disconnect(alias) => disconnect_fault(groups, *alias),
        Edit::Remap {
            station,
            area,
            pdos,
        } => remap_fault(groups, *station, *area, pdos.as_slice()),
        Edit::Move {
            station,
            area,
            task,
        } => move_fault(groups, *station, *area, *task),
        Edit::Declare(_) => None,
    }
}
