//! Tasks that are sent together: 1 to 8, none twice. A command that sends tasks and a call from C check their tasks by it.
ghost use Rattle.std.specs.Prelude.{◌≡◌, ◌↔◌, IsTrue};
ghost use Rattle.hc_records.specs.Lists.{has_repeat};
ghost use Rattle.hc_events.specs.Calls.{AreSentTogether, are_together};

use arrayvec::ArrayVec;
use hc_records::limits::TASKS;
use std::marker::Model;

/// Returns whether a task occurs twice.
#[inline(always)]
fn has_repeat(tasks: &[u8]) -> bool
    ensures { result ≡ has_repeat tasks.now }
{
    let mut rest = tasks;
    while let [task, later @ ..] = rest {
        if later.contains(task) {
            return true;
        }
        rest = later;
    }
    false
}

/// Returns whether tasks can be sent together: at least one, at most eight, and none twice.
#[inline(always)]
fn are_together(tasks: &[u8]) -> bool
    ensures same { result ≡ are_together tasks.now }
    ensures exact { IsTrue result ↔ AreSentTogether tasks.now }
{
    !tasks.is_empty() && tasks.len() <= usize::from(TASKS) && !has_repeat(tasks)
}

/// Tasks that are sent together, in order. Their numbers are not judged yet: each is any number.
#[derive(Debug, Drop)]
pub struct Together {
    tasks: ArrayVec<u8, 8>,
}

impl Model for Together {
    ghost use Rattle.std.specs.Prelude.{ℕ, List};
    ghost use Rattle.hc_events.specs.Calls.{AreSentTogether};

    ghost Value = { List ℕ };

    ghost view = { λ together. together.tasks.items };

    ghost invariant = { λ together. AreSentTogether together.tasks.items };
}

impl Together {
    ghost use Rattle.std.specs.Prelude.{◌≡◌, IfNone, IfSome};
    ghost use Rattle.hc_events.specs.Calls.{AreSentTogether, if_together};

    /// Returns these tasks if they can be sent together, else `None`.
    #[inline(always)]
    pub fn of(tasks: &[u8]) -> Option<Together>
        ensures tasks { result ≡ if_together tasks.now }
        ensures together { IfSome result (λ together. AreSentTogether tasks.now) }
        ensures apart { IfNone result (¬ AreSentTogether tasks.now) }
    {
        if !are_together(tasks) {
            return None;
        }
        let mut own = ArrayVec::new();
        own.try_extend_from_slice(tasks).unwrap();
        Some(Together { tasks: own })
    }

    /// Returns the tasks, in order.
    pub fn as_slice(&self) -> &[u8]
        ensures tasks { result.now ≡ self.now }
        ensures together { AreSentTogether self.now }
    {
        self.tasks.as_slice()
    }
}
