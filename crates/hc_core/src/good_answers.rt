//! The effects of an arrival's good answers: on the input image with the ages of its data, and on the changes that its readers
//! get.
ghost use Rattle.std.specs.Prelude.{◌≡◌, [], All, IfOk, OnOk, map, option_to_list};
ghost use Rattle.hc_events.specs.Images.{FitsImage};
ghost use Rattle.hc_core.specs.GoodAnswers.{change_of, good_of, good_answers_in};
ghost use Rattle.hc_core.specs.Ages.{AreAged, AreRenewed};

use crate::ages::{Ages, DataAge};
use crate::buffers::Buffers;
use hc_events::answer::Outcome;
use hc_events::change::{Change, GoodAnswer};
use hc_frames::reading::{Part, Returned};
use hc_images::inputs::Inputs;
use hc_records::task::Task;
use std::alloc::{AllocError, Global};

/// Returns the change that an outcome makes, or none if it is not a good answer. Fails with `AllocError` if an allocation
/// fails.
fn change_of(
    alloc: Global,
    buffers: &mut Buffers,
    outcome: &Outcome,
    part: &Part<'_>,
) -> Result<Option<Change>, AllocError>
    requires { All FitsImage (good_of outcome.now part.now.carried) }
    ensures { IfOk result (λ change. option_to_list change ≡ map change_of (good_of outcome.now part.now.carried)) }
{
    match outcome {
        Outcome::Inputs { task, datagram } => {
            let bytes = buffers.filled(alloc, part.bytes)?;
            let good = GoodAnswer::of(*task, *datagram, bytes);
            Ok(Some(Change::Good(good)))
        }
        Outcome::WrongCount {
            expected: _,
            got: _,
        } => Ok(None),
        Outcome::Stale => Ok(None),
        Outcome::Done => Ok(None),
        Outcome::Missed => Ok(None),
    }
}

/// Puts the changes of an arrival's good answers into an empty list, each with a copy of its data.
pub(crate) fn put_changes(
    alloc: Global,
    buffers: &mut Buffers,
    changes: &mut Vec<Change>,
    outcomes: &[Outcome],
    arrival: &Returned<'_>,
) -> Result<(), AllocError>
    requires fit { All FitsImage (good_answers_in outcomes.now arrival.now.parts) }
    requires empty { changes.old.items ≡ [] }
    ensures { OnOk result (changes.new.items ≡ map change_of (good_answers_in outcomes.now arrival.now.parts)) }
{
    let mut parts = arrival.parts();
    for outcome in outcomes {
        let Some(part) = parts.next() else {
            return Ok(());
        };
        if let Some(change) = change_of(alloc, buffers, outcome, &part)? {
            changes.push(change)?;
        }
    }
    Ok(())
}

/// Stores the data of an outcome as those of its datagram, with their serial and their epoch, if the outcome is a good answer.
fn put_good(
    inputs: &mut Inputs,
    ages: &mut Ages,
    serial: u64,
    epoch: u32,
    outcome: &Outcome,
    part: &Part<'_>,
)
    requires { All FitsImage (good_of outcome.now part.now.carried) }
    ensures slots { AreRenewed (good_of outcome.now part.now.carried) inputs.old inputs.new }
    ensures ages { AreAged (record { serial = serial; epoch = epoch }) (good_of outcome.now part.now.carried) ages.old ages.new }
{
    match outcome {
        Outcome::Inputs { task, datagram } => {
            let task = Task(*task);
            inputs.put(task, *datagram, part.bytes);
            ages.put(task, *datagram, DataAge { serial, epoch });
        }
        Outcome::WrongCount {
            expected: _,
            got: _,
        } => {}
        Outcome::Stale => {}
        Outcome::Done => {}
        Outcome::Missed => {}
    }
}

/// Stores the data of an arrival's good answers as those of their datagrams, one after another. They answer the sending with
/// the arrival's serial, and came in this epoch.
pub(crate) fn put_good_answers(
    inputs: &mut Inputs,
    ages: &mut Ages,
    epoch: u32,
    outcomes: &[Outcome],
    arrival: &Returned<'_>,
)
    requires { All FitsImage (good_answers_in outcomes.now arrival.now.parts) }
    ensures slots { AreRenewed (good_answers_in outcomes.now arrival.now.parts) inputs.old inputs.new }
    ensures ages { AreAged (record { serial = arrival.now.serial; epoch = epoch }) (good_answers_in outcomes.now arrival.now.parts) ages.old ages.new }
{
    let serial = arrival.serial();
    let mut parts = arrival.parts();
    for outcome in outcomes {
        let Some(part) = parts.next() else {
            return;
        };
        put_good(inputs, ages, serial, epoch, outcome, &part);
    }
}
