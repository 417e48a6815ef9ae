//! A core that events are put to.
ghost use Rattle.std.specs.Prelude.{IsTrue};
ghost use Rattle.hc_events.specs.Calls.{AreSentTogether};
ghost use Rattle.hc_events.specs.Steps.{step_of};
ghost use Rattle.hc_core.specs.Serving.{IsAsked};

use hc_core::keeping::Core;
use hc_events::answer::Answer;
use hc_events::event::Event;
use hc_events::faults::CoreFault;
use hc_events::together::Together;
use hc_records::edit::Edit;
use hc_records::faults::EditFault;
use std::alloc::{AllocError, Global};

/// True if tasks can be sent together: at least one, at most eight, and none twice.
pub fn are_sent_together(tasks: &[u8]) -> bool
    ensures { IsTrue result → AreSentTogether tasks.now }
{
    match Together::of(tasks) {
        Some(_) => true,
        None => false,
    }
}

/// True if a caller may ask the event of a core.
fn is_asked(event: Event<'_>) -> bool
    ensures { IsTrue result → IsAsked (step_of event.entry) }
{
    match event {
        Event::SendTasks(tasks) | Event::SendReady(tasks) => are_sent_together(tasks),
        _ => true,
    }
}

/// The answer of a core to an event. The call states nothing of the answer, or of the core.
fn served(core: &mut Core, alloc: Global, event: Event<'_>) -> Answer
    requires { IsAsked (step_of event) }
{
    core.step(alloc, event)
}

/// The observable state of a core: the owed blocks, the next serial and the epoch.
fn left_by(core: &Core) -> (u32, u64, u32) {
    (core.owed(), core.next_serial(), core.plan().epoch())
}

/// The answer of a core to an event. If an allocation failed and left the core as it was, the event is asked once more.
fn served_or_again(core: &mut Core, alloc: Global, event: Event<'_>) -> Answer
    requires { IsAsked (step_of event) }
{
    let left = left_by(core);
    let answer = served(core, alloc, event);
    if matches!(answer, Answer::Refused(CoreFault::Memory)) && left_by(core) == left {
        return served(core, alloc, event);
    }
    answer
}

/// The answer that an edit would have, by its preparing. None if the prepared edit has another number of blocks than its report
/// says.
fn answered_before(
    core: &mut Core,
    alloc: Global,
    edit: &Edit,
) -> Result<Option<Answer>, EditFault> {
    let ready = core.prepare(alloc, edit)?;
    let report = ready.edit().report();
    if ready.edit().blocks().len() != report.moved as usize {
        return Ok(None);
    }
    Ok(Some(Answer::Edited {
        epoch: report.epoch,
        recut: report.recut,
        moved: report.moved,
    }))
}

/// A core to which events are put.
#[derive(Drop)]
pub struct Driven {
    pub core: Core,
}

impl Driven {
    /// The answer to the next event. Fails if an allocation failed for the repeated event too, or if the event may not be asked
    /// of a core.
    pub fn put(&mut self, alloc: Global, event: Event<'_>) -> Result<Answer, AllocError> {
        if !is_asked(event) {
            return Err(AllocError);
        }
        let answer = served_or_again(&mut self.core, alloc, event);
        if matches!(answer, Answer::Refused(CoreFault::Memory)) {
            return Err(AllocError);
        }
        Ok(answer)
    }

    /// The answer that an edit would have. None if its preparing changes the core, or its blocks and its report differ. Fails
    /// if an allocation failed.
    pub fn prepared(&mut self, alloc: Global, edit: &Edit) -> Result<Option<Answer>, AllocError> {
        let left = left_by(&self.core);
        let answer = match answered_before(&mut self.core, alloc, edit) {
            Ok(answer) => answer,
            Err(EditFault::Memory) => return Err(AllocError),
            Err(fault) => Some(Answer::Refused(CoreFault::from(fault))),
        };
        if left_by(&self.core) == left {
            Ok(answer)
        } else {
            Ok(None)
        }
    }
}
