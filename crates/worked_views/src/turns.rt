//! Swaps and answers, published in turn: each answer of an epoch has but the epoch's lowest byte, again and again.
ghost use Rattle.std.specs.Prelude.{IfSome};
ghost use Rattle.worked_views.specs.Lines.{LeadsTo};

use crate::lines::{DOCK, UNDOCK, append_answer, publish, publish_edit};
use hc_plan::plan::Plan;
use hc_publish::publisher::Publisher;
use hc_records::edit::Edit;
use hc_records::limits::TASKS;
use std::alloc::Global;
use std::sync::Wait;

/// Appends an answer of each task. None if an allocation failed, or a task has no datagram.
fn append_answers(alloc: Global, plan: &Plan, publisher: &mut Publisher) -> Option<()>
    requires { LeadsTo publisher.old plan.now }
    ensures { IfSome result (λ _. LeadsTo publisher.new plan.now) }
{
    let [byte, _, _, _] = plan.epoch().to_le_bytes();
    for task in 0..TASKS {
        let length = usize::from(plan.places().datagram(task, 0)?.length);
        let Ok(bytes) = vec![in alloc; byte; length] else {
            return None;
        };
        append_answer(Vec::new(alloc), plan, publisher, task, &bytes).ok()?;
    }
    Some(())
}

/// Publishes an edit, and then the answers of its epoch.
fn publish_turn<R: Wait>(
    rt: &R,
    alloc: Global,
    plan: &mut Plan,
    publisher: &mut Publisher,
    edit: &Edit,
) -> Option<()>
    requires { LeadsTo publisher.old plan.old }
    ensures { IfSome result (λ _. LeadsTo publisher.new plan.new) }
{
    publish_edit(rt, alloc, plan, publisher, edit)?;
    append_answers(alloc, plan, publisher)?;
    publish(rt, plan, publisher).ok()
}

/// Connects and disconnects the feeder, again and again, with four publishings each time.
pub fn publish_turns<R: Wait>(
    rt: &R,
    alloc: Global,
    plan: &mut Plan,
    publisher: &mut Publisher,
    turns: u32,
) -> Option<()>
    requires { LeadsTo publisher.old plan.old }
    ensures { IfSome result (λ _. LeadsTo publisher.new plan.new) }
{
    for _ in 0..turns {
        publish_turn(rt, alloc, plan, publisher, &DOCK)?;
        publish_turn(rt, alloc, plan, publisher, &UNDOCK)?;
    }
    Some(())
}
