//! `Core::changes_by`: the number of changes that an arrival would add.
ghost use Rattle.std.specs.Prelude.{◌≡◌, ◌+◌, ◌≤◌, ◌∷◌, count_by, length};
ghost use Rattle.hc_events.specs.Answering.{judged_by};
ghost use Rattle.hc_events.specs.Changes.{updates_of};
ghost use Rattle.hc_events.specs.Entries.{Came};
ghost use Rattle.hc_events.specs.Outcomes.{arrived_answer};
ghost use Rattle.hc_events.specs.Steps.{judged_answer};
ghost use Rattle.hc_core.specs.GoodAnswers.{is_inputs};

use crate::keeping::Core;
use hc_events::answer::{Arrived, Outcome};
use hc_frames::reading::Returned;

/// True if an outcome is a good answer.
fn is_inputs(outcome: &Outcome) -> bool
    ensures { result ≡ is_inputs outcome.now }
{
    match outcome {
        Outcome::Inputs {
            task: _,
            datagram: _,
        } => true,
        Outcome::WrongCount {
            expected: _,
            got: _,
        } => false,
        Outcome::Stale => false,
        Outcome::Done => false,
        Outcome::Missed => false,
    }
}

/// Counts the good answers among outcomes. The recursion is as deep as the list: a frame has at most 115 datagrams.
fn count_inputs(outcomes: &[Outcome]) -> usize
    ensures count { result ≡ count_by is_inputs outcomes.now }
    ensures few { result ≤ length outcomes.now }
{
    match outcomes {
        [] => 0,
        [outcome, rest @ ..] => usize::from(is_inputs(outcome)) + count_inputs(rest),
    }
}

impl Core {
    /// Returns the number of changes that an arrival read as a frame would add, 0 to 115: one for each good answer. `arrived`
    /// and `outcomes` are the results of `judge` for this arrival. It allocates nothing.
    pub fn changes_by(
        &self,
        arrival: &Returned<'_>,
        arrived: Arrived,
        outcomes: &[Outcome],
    ) -> usize
        requires { judged_answer (judged_by self.now.history arrival.now) ≡ arrived_answer arrived outcomes.now }
        ensures { length (updates_of (Came arrival.now ∷ self.now.history)) ≡ length (updates_of self.now.history) + result }
    {
        let _ = arrival;
        match arrived {
            Arrived::Answered => count_inputs(outcomes),
            Arrived::WriteDone => 0,
            Arrived::WriteMissed => 0,
            Arrived::Stale => 0,
            Arrived::Written => 0,
        }
    }
}
