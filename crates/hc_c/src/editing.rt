//! Edits of the line, and their cost.
ghost use Rattle.std.specs.Prelude.{◌≡◌, ◌≢◌, ◌∷◌, ℕ, Err, IfErr, IfOk, IfSome, None, Ok, OnErr, OnOk, false, is_some, true};
ghost use Rattle.hc_records.specs.declared.edit.Edit.TheVariants.{Connect, Disconnect, Move, Remap};
ghost use Rattle.hc_records.specs.declared.faults.EditFault.TheVariants.{Memory, TooManyDatagrams};
ghost use Rattle.hc_records.specs.Edits.{edited, state_after};
ghost use Rattle.hc_groups.specs.Edits.{own_fault};
ghost use Rattle.hc_events.specs.Entries.{Edited};
ghost use Rattle.hc_events.specs.Faults.{core_fault_number, edit_refusal};
ghost use Rattle.hc_events.specs.Points.{state_of};
ghost use Rattle.hc_plan.specs.Prepared.{IsPrepared};
ghost use Rattle.hc_c.specs.Embedded.{embedded_discarding, embedded_history};
ghost use Rattle.hc_c.specs.declared.numbers.TheConstants.{BUSY, OVER_LIMIT};
ghost use Rattle.hc_c.specs.Edits.{CostsEdit, IsCost, Serves, prepared_waits};
ghost use Rattle.hc_c.specs.Handles.{HoldsAsBefore, IfServedBoth, no_line_number};

use crate::embedded::Embedded;
use crate::handle::{Handle, with_line};
use crate::numbers::{DONE, MEMORY};
use hc_core::prepared::CoreEdit;
use hc_events::faults::CoreFault;
use hc_plan::prepared::PreparedEdit;
use hc_records::edit::Edit;
use hc_records::faults::EditFault;
use hc_records::items::Items;
use std::alloc::Global;

/// The effect of an edit, in C.
#[repr(C)]
#[derive(Clone, Copy)]
pub struct Cost {
    /// The epoch that begins with it.
    epoch: u32,
    /// The number of spans of touched tasks that are not settled. A task that loses its last datagram counts one.
    recut: u32,
    /// The number of register blocks of the new line that differ from the old line's: the old line has no block with these
    /// bytes at this register of this slave.
    moved: u32,
    /// The number of variables whose place differs, appears or is gone.
    places: u32,
    /// The lowest task that would need more than 16 datagrams, if the edit fails with `OVER_LIMIT`; otherwise 0.
    crowded: u8,
    /// The tasks that will wait once each slave that comes with the edit is cleared: bit t stands for task t.
    waits: u8,
    reserved: [u8; 2],
}

/// Returns the effect of a prepared edit, with the tasks that will wait.
fn cost_of(edit: &PreparedEdit, waits: u8) -> Cost
    ensures cost { IsCost edit.now.old edit.now.new waits result }
    ensures prepared { IsPrepared edit.now }
{
    let report = edit.report();
    Cost {
        epoch: report.epoch,
        recut: report.recut,
        moved: report.moved,
        places: report.swap.places(),
        crowded: 0,
        waits,
        reserved: [0; 2],
    }
}

/// Writes the effect of a prepared edit, or returns its fault. The prepared edit is large and a move would copy it, so it is
/// read in place.
fn give(prepared: &Result<CoreEdit, EditFault>, cost: &mut Cost) -> Result<(), EditFault>
    ensures cost { IfOk prepared.now (λ core_edit. IsCost (state_of core_edit.core.history) core_edit.edit.new (prepared_waits core_edit) cost.new) }
    ensures prepared { IfOk prepared.now (λ core_edit. IsPrepared core_edit.edit × (core_edit.edit.old ≡ state_of core_edit.core.history)) }
    ensures refused { IfErr result (λ fault. prepared.now ≡ Err fault) }
    ensures answer { IfErr prepared.now (λ fault. result ≡ Err fault) }
    ensures cost_stays { OnErr result (cost.new ≡ cost.old) }
{
    match prepared {
        Ok(core_edit) => {
            *cost = cost_of(core_edit.edit(), core_edit.will_wait());
            Ok(())
        }
        Err(fault) => Err(*fault),
    }
}

/// Prepares an edit and writes its effect, or returns its fault.
fn ask(own: &mut Embedded, alloc: Global, edit: &Edit, cost: &mut Cost) -> Result<(), EditFault>
    ensures accepted { OnOk result (edited (state_of (embedded_history own.old)) edit.now ≡ Ok (state_after (state_of (embedded_history own.old)) edit.now)) }
    ensures cost { OnOk result (CostsEdit (embedded_history own.old) edit.now cost.new) }
    ensures refused { IfErr result (λ fault. fault ≢ Memory → edited (state_of (embedded_history own.old)) edit.now ≡ Err fault) }
    ensures own { IfSome (own_fault (state_of (embedded_history own.old)).groups edit.now) (λ fault. result ≡ Err fault) }
    ensures unchanged { own.new ≡ own.old }
    ensures cost_stays { OnErr result (cost.new ≡ cost.old) }
{
    let prepared = own.core.prepare(alloc, edit);
    give(&prepared, cost)
}

/// Prepares an edit, carries it out and writes its effect, or returns its fault.
fn carry(own: &mut Embedded, alloc: Global, edit: &Edit, cost: &mut Cost) -> Result<(), EditFault>
    ensures accepted { OnOk result (edited (state_of (embedded_history own.old)) edit.now ≡ Ok (state_after (state_of (embedded_history own.old)) edit.now)) }
    ensures cost { OnOk result (CostsEdit (embedded_history own.old) edit.now cost.new) }
    ensures carried { OnOk result (own.new ≡ embedded_discarding own.old (Edited edit.now ∷ embedded_history own.old)) }
    ensures refused { IfErr result (λ fault. fault ≢ Memory → edited (state_of (embedded_history own.old)) edit.now ≡ Err fault) }
    ensures own { IfSome (own_fault (state_of (embedded_history own.old)).groups edit.now) (λ fault. result ≡ Err fault) }
    ensures unchanged { OnErr result (own.new ≡ own.old) }
    ensures cost_stays { OnErr result (cost.new ≡ cost.old) }
{
    match own.core.prepare(alloc, edit) {
        Ok(core_edit) => {
            *cost = cost_of(core_edit.edit(), core_edit.will_wait());
            let _ = own.core.carry_out(core_edit);
            own.core.discard_changes();
            Ok(())
        }
        Err(fault) => Err(fault),
    }
}

/// Returns the number of a fault. For a task that would need too many datagrams it writes that task to `cost`.
fn refuse(fault: EditFault, cost: &mut Cost) -> u8
    ensures number { result ≡ core_fault_number (edit_refusal fault) }
    ensures crowds { (task : ℕ) → fault ≡ TooManyDatagrams task → cost.new ≡ record cost.old { crowded = task } }
    ensures unwritten { result ≢ OVER_LIMIT → cost.new ≡ cost.old }
{
    if let EditFault::TooManyDatagrams(task) = fault {
        cost.crowded = task;
    }
    CoreFault::from(fault).number()
}

/// Prepares an edit and writes its effect, or returns its fault. The edit is carried out unless C only asks.
fn work_out(
    own: &mut Embedded,
    alloc: Global,
    edit: &Edit,
    asks: bool,
    cost: &mut Cost,
) -> Result<(), EditFault>
    ensures accepted { OnOk result (edited (state_of (embedded_history own.old)) edit.now ≡ Ok (state_after (state_of (embedded_history own.old)) edit.now)) }
    ensures cost { OnOk result (CostsEdit (embedded_history own.old) edit.now cost.new) }
    ensures carried { OnOk result (asks ≡ false → own.new ≡ embedded_discarding own.old (Edited edit.now ∷ embedded_history own.old)) }
    ensures asked { asks ≡ true → own.new ≡ own.old }
    ensures refused { IfErr result (λ fault. fault ≢ Memory → edited (state_of (embedded_history own.old)) edit.now ≡ Err fault) }
    ensures own { IfSome (own_fault (state_of (embedded_history own.old)).groups edit.now) (λ fault. result ≡ Err fault) }
    ensures unchanged { OnErr result (own.new ≡ own.old) }
    ensures cost_stays { OnErr result (cost.new ≡ cost.old) }
{
    if asks {
        ask(own, alloc, edit, cost)
    } else {
        carry(own, alloc, edit, cost)
    }
}

/// Carries out an edit, or only asks, and returns `DONE` or the fault's number.
pub(crate) fn serve(
    own: &mut Embedded,
    alloc: Global,
    edit: &Edit,
    asks: bool,
    cost: &mut Cost,
) -> u8
    ensures { Serves own.old own.new edit.now asks result cost.old cost.new }
{
    match work_out(own, alloc, edit, asks, cost) {
        Ok(()) => DONE,
        Err(fault) => refuse(fault, cost),
    }
}

/// Carries out a remap, or only asks. The remap is judged before its indexes are copied, so a failed allocation hides no fault
/// of its own.
fn serve_remap(
    own: &mut Embedded,
    alloc: Global,
    station: u16,
    area: u8,
    pdos: &[u16],
    asks: bool,
    cost: &mut Cost,
) -> u8
    ensures { Serves own.old own.new (Remap station area pdos.now) asks result cost.old cost.new }
{
    if let Some(fault) = own.core.plan().remap_fault(station, area, pdos) {
        return refuse(fault, cost);
    }
    match Vec::from_slice(alloc, pdos) {
        Ok(pdos) => {
            let edit = Edit::Remap {
                station,
                area,
                pdos: Items::of(pdos),
            };
            serve(own, alloc, &edit, asks, cost)
        }
        Err(_) => MEMORY,
    }
}

/// Connects the group with an alias. With `asks` nothing changes, and only the effect is reported. Returns `DONE`, and `cost`
/// is the effect. Fails with one of these; then nothing has changed, and `cost` is unchanged but for `crowded` with
/// `OVER_LIMIT`:
///
/// - `BUSY`, `CLOSED` or `MISUSED`.
/// - The lowest that holds of `UnknownAlias`, 1, `AlreadyPresent`, 2, `OVER_LIMIT`, 12, and `EpochsSpent`, 13.
/// - `MEMORY`: an allocation failed. Exception: 1 and 2 are returned whatever memory does.
#[unsafe(no_mangle)]
pub extern "C" fn zangjulf_connect(
    alloc: Global,
    handle: &mut Handle,
    alias: u16,
    asks: bool,
    cost: &mut Cost,
) -> u8
    ensures serves { IfServedBoth handle.old handle.new result (λ old new. Serves old new (Connect alias) asks result cost.old cost.new) }
    ensures held { handle.new.mark ≡ handle.old.mark }
    ensures busy { result ≡ BUSY → HoldsAsBefore handle.old handle.new × (cost.new ≡ cost.old) }
    ensures closed { handle.old.holding.value ≡ None → (result ≡ no_line_number handle.old.mark) × (cost.new ≡ cost.old) }
{
    with_line!(handle, |own| {
        let edit = Edit::Connect(alias);
        serve(own, alloc, &edit, asks, cost)
    })
}

/// Disconnects the group with an alias. With `asks` nothing changes, and only the effect is reported. Returns `DONE`, and
/// `cost` is the effect. Fails with one of these; then nothing has changed, and `cost` is unchanged but for `crowded` with
/// `OVER_LIMIT`:
///
/// - `BUSY`, `CLOSED` or `MISUSED`.
/// - The lowest that holds of `UnknownAlias`, 1, `NotPresent`, 3, `Mandatory`, 4, `OVER_LIMIT`, 12, and `EpochsSpent`, 13.
/// - `MEMORY`: an allocation failed. Exception: 1, 3 and 4 are returned whatever memory does.
#[unsafe(no_mangle)]
pub extern "C" fn zangjulf_disconnect(
    alloc: Global,
    handle: &mut Handle,
    alias: u16,
    asks: bool,
    cost: &mut Cost,
) -> u8
    ensures serves { IfServedBoth handle.old handle.new result (λ old new. Serves old new (Disconnect alias) asks result cost.old cost.new) }
    ensures held { handle.new.mark ≡ handle.old.mark }
    ensures busy { result ≡ BUSY → HoldsAsBefore handle.old handle.new × (cost.new ≡ cost.old) }
    ensures closed { handle.old.holding.value ≡ None → (result ≡ no_line_number handle.old.mark) × (cost.new ≡ cost.old) }
{
    with_line!(handle, |own| {
        let edit = Edit::Disconnect(alias);
        serve(own, alloc, &edit, asks, cost)
    })
}

/// Assigns the PDOs with these indexes, in this order, to an area, counted from 0, of the present slave with a station address.
/// With `asks` nothing changes, and only the effect is reported. Returns `DONE`, and `cost` is the effect. Fails with one of
/// these; then nothing has changed, and `cost` is unchanged but for `crowded` with `OVER_LIMIT`:
///
/// - `BUSY`, `CLOSED` or `MISUSED`.
/// - The lowest that holds of the faults 5 to 7 and 9 to 13: `UnknownStation`, `Absent`, `NoSuchArea`, `UnknownPdo`,
///   `RepeatedPdo`, `AreaTooBig`, `OVER_LIMIT` and `EpochsSpent`.
/// - `MEMORY`: an allocation failed. Exception: 5 to 11 are returned whatever memory does.
#[unsafe(no_mangle)]
pub extern "C" fn zangjulf_remap(
    alloc: Global,
    handle: &mut Handle,
    station: u16,
    area: u8,
    pdos: &[u16],
    asks: bool,
    cost: &mut Cost,
) -> u8
    ensures serves { IfServedBoth handle.old handle.new result (λ old new. Serves old new (Remap station area pdos.now) asks result cost.old cost.new) }
    ensures held { handle.new.mark ≡ handle.old.mark }
    ensures busy { result ≡ BUSY → HoldsAsBefore handle.old handle.new × (cost.new ≡ cost.old) }
    ensures closed { handle.old.holding.value ≡ None → (result ≡ no_line_number handle.old.mark) × (cost.new ≡ cost.old) }
{
    with_line!(
        handle,
        |own| serve_remap(own, alloc, station, area, pdos, asks, cost)
    )
}

/// Moves an area, counted from 0, of the present slave with a station address to a task. With `asks` nothing changes, and only
/// the effect is reported. Returns `DONE`, and `cost` is the effect. Fails with one of these; then nothing has changed, and
/// `cost` is unchanged but for `crowded` with `OVER_LIMIT`:
///
/// - `BUSY`, `CLOSED` or `MISUSED`.
/// - The lowest that holds of the faults 5 to 8, 12 and 13: `UnknownStation`, `Absent`, `NoSuchArea`, `NoSuchTask`,
///   `OVER_LIMIT` and `EpochsSpent`.
/// - `MEMORY`: an allocation failed. Exception: 5 to 8 are returned whatever memory does.
#[unsafe(no_mangle)]
pub extern "C" fn zangjulf_move_area(
    alloc: Global,
    handle: &mut Handle,
    station: u16,
    area: u8,
    task: u8,
    asks: bool,
    cost: &mut Cost,
) -> u8
    ensures serves { IfServedBoth handle.old handle.new result (λ old new. Serves old new (Move station area task) asks result cost.old cost.new) }
    ensures held { handle.new.mark ≡ handle.old.mark }
    ensures busy { result ≡ BUSY → HoldsAsBefore handle.old handle.new × (cost.new ≡ cost.old) }
    ensures closed { handle.old.holding.value ≡ None → (result ≡ no_line_number handle.old.mark) × (cost.new ≡ cost.old) }
{
    with_line!(handle, |own| {
        let edit = Edit::Move {
            station,
            area,
            task,
        };
        serve(own, alloc, &edit, asks, cost)
    })
}
