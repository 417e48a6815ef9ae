//! A prepared edit of the declared groups, which can be carried out in them.
ghost use Rattle.std.specs.Prelude.{◌≡◌, false, true, IfOk, None, Some, option_map};
ghost use Rattle.std.specs.List.{list_any};
ghost use Rattle.hc_records.specs.Edits.{declares};
ghost use Rattle.hc_records.specs.Line.{IsCounted};
ghost use Rattle.hc_groups.specs.Edits.{own_fault};
ghost use Rattle.hc_groups.specs.Changes.{change_by, has_alias, presence_change};
ghost use Rattle.hc_groups.specs.declared.prepared.Prepared.TheVariants.{Presence};

use crate::areas::{AreaChange, AreaEdit};
use crate::carrying::{reassign, turn};
use crate::changes::{AreasChange, PresenceChange, areas_change, presence_change};
use crate::faults::own_fault;
use crate::index::Indexed;
use hc_records::edit::Edit;
use hc_records::faults::EditFault;
use hc_records::items::Items;
use hc_records::records::Declared;
use std::alloc::{AllocError, Global};

/// The change that an edit makes of the declared groups.
#[derive(Debug, Drop)]
pub enum Prepared {
    /// A group is connected or disconnected.
    Presence(PresenceChange),
    /// A slave gets these areas.
    Areas(AreasChange),
}

/// Returns the change of connecting or disconnecting a declared group.
fn presence_by(groups: &Indexed, alias: u16, present: bool) -> Prepared
    requires counted { IsCounted groups.now }
    requires known { list_any (has_alias alias) groups.now ≡ true }
    ensures { option_map Presence (presence_change groups.now alias present) ≡ Some result }
{
    let Some(change) = presence_change(groups, alias, present) else {
        unreachable!()
    };
    Prepared::Presence(change)
}

/// Returns the change of an edit that has no fault of its own and declares no group. `AllocError` if an allocation fails.
fn change_by(alloc: Global, groups: &Indexed, edit: &Edit) -> Result<Prepared, AllocError>
    requires counted { IsCounted groups.now }
    requires changes { declares edit.now ≡ false }
    requires own { own_fault groups.now edit.now ≡ None }
    ensures { IfOk result (λ change. change_by groups.now edit.now ≡ Some change) }
{
    match edit {
        Edit::Connect(alias) => Ok(presence_by(groups, *alias, true)),
        Edit::Disconnect(alias) => Ok(presence_by(groups, *alias, false)),
        Edit::Remap {
            station,
            area,
            pdos,
        } => {
            let area_edit = AreaEdit {
                station: *station,
                area: *area,
                change: AreaChange::Pdos(pdos),
            };
            Ok(Prepared::Areas(areas_change(alloc, groups, &area_edit)?))
        }
        Edit::Move {
            station,
            area,
            task,
        } => {
            let area_edit = AreaEdit {
                station: *station,
                area: *area,
                change: AreaChange::Task(*task),
            };
            Ok(Prepared::Areas(areas_change(alloc, groups, &area_edit)?))
        }
        Edit::Declare(_) => unreachable!(),
    }
}

impl Prepared {
    ghost use Rattle.std.specs.Prelude.{◌≡◌, ◌≢◌, false, Err, IfErr, IfOk, IfSome, None, OnOk, Some};
    ghost use Rattle.hc_records.specs.declared.faults.EditFault.TheVariants.{Memory};
    ghost use Rattle.hc_records.specs.Edits.{declares, groups_after};
    ghost use Rattle.hc_records.specs.Line.{groups_of};
    ghost use Rattle.hc_records.specs.Project.{lowest_fault};
    ghost use Rattle.hc_groups.specs.Edits.{own_fault};
    ghost use Rattle.hc_groups.specs.Changes.{change_by, changed_groups};
    ghost use Rattle.hc_groups.specs.Rows.{ChangesRow};

    /// Prepares an edit that declares no group, for the groups of a project. Carried out, the change leaves the groups that the
    /// edit leaves, again a project's. The slaves that it concerns have consecutive ranks; each other slave keeps its record,
    /// and stays present or absent. The new areas of a slave are copied here. The index finds groups and slaves; none is
    /// searched. The groups are unchanged in any case. Fails with one of these:
    ///
    /// - The lowest fault that the edit has by itself, which is judged before the first allocation.
    /// - `Memory`: an allocation failed.
    pub fn of(alloc: Global, groups: &Indexed, edit: &Edit) -> Result<Prepared, EditFault>
        requires project { lowest_fault (groups_of groups.now) ≡ None }
        requires changes { declares edit.now ≡ false }
        ensures change { IfOk result (λ change. change_by groups.now edit.now ≡ Some change) }
        ensures groups { IfOk result (λ change. changed_groups change groups.now ≡ groups_after groups.now edit.now) }
        ensures project_after { IfOk result (λ change. lowest_fault (groups_of (changed_groups change groups.now)) ≡ None) }
        ensures row { IfOk result (λ change. ChangesRow change groups.now) }
        ensures accepted { OnOk result (own_fault groups.now edit.now ≡ None) }
        ensures own { IfSome (own_fault groups.now edit.now) (λ fault. result ≡ Err fault) }
        ensures refused { IfErr result (λ fault. fault ≢ Memory → own_fault groups.now edit.now ≡ Some fault) }
    {
        if let Some(fault) = own_fault(groups, edit) {
            return Err(fault);
        }
        let change = change_by(alloc, groups, edit)?;
        Ok(change)
    }

    /// Carries the change out in the groups for which it was prepared, in place. It allocates nothing and cannot fail. In other
    /// groups it changes the group or slave at its index, if there is one.
    pub fn carry_out(self, groups: &mut Items<Declared>)
        ensures { groups.new ≡ changed_groups self groups.old }
    {
        match self {
            Prepared::Presence(change) => turn(change, groups),
            Prepared::Areas(change) => reassign(change, groups),
        }
    }
}
