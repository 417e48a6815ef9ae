//! The command `arrive`.
ghost use Rattle.std.specs.Prelude.{◌≡◌, ◌≤◌, ◌+◌, ◌*◌, ◌++◌, IfOk, length, OnErr, OnOk, string_bytes};
ghost use Rattle.std.specs.List.{flat_map};
ghost use Rattle.std.specs.String.{string_capacity, string_len};
ghost use Rattle.hc_events.specs.Steps.{Arrives};
ghost use Rattle.hc_program.specs.Answers.{outcome_text, pair_text, event_text};
ghost use Rattle.hc_program.specs.Standings.{stepped};

use crate::refusals::push_refusal;
use crate::session::Session;
use hc_events::answer::{Answer, Outcome};
use hc_events::faults::CoreFault;
use hc_frames::reading::read_frame;
use hc_text::room::{MOST_DIGITS, add_number, add_text};
use std::alloc::{AllocError, Global};

/// The length of the longest line about an arrival: words, two numbers, and the line feed.
const LONGEST_OUTCOME: usize = 14 + 2 * MOST_DIGITS;

/// Hands in an arriving frame and appends its outcomes: a line for each datagram of tasks, one for a register write or a stale
/// frame, or the fault of a frame that cannot be read. For several writes in one frame, which the program never sends, it
/// appends nothing. It allocates for the longest lines before the frame is handed in. `AllocError` if an allocation fails; then
/// nothing has arrived, and `out` may have a prefix of the lines.
#[tactic(auto, unfolding(crate::specs::Answers::event_text))]
pub fn reply(
    alloc: Global,
    bytes: &[u8],
    session: &mut Session,
    out: &mut String,
) -> Result<(), AllocError>
    ensures text { OnOk result (string_bytes out.new ≡ string_bytes out.old ++ event_text session.old.history (Arrives bytes.now)) }
    ensures next { OnOk result (session.new ≡ stepped session.old (Arrives bytes.now)) }
    ensures unchanged { OnErr result (session.new ≡ session.old) }
{
    let datagrams = match read_frame(bytes) {
        Ok(arrival) => arrival.len(),
        Err(fault) => return push_refusal(CoreFault::from(fault), out),
    };
    out.reserve(room_of(datagrams.max(1))?)?;
    match session.arrive(alloc, bytes) {
        Answer::Answered(outcomes) => add_outcomes(outcomes.as_slice(), out),
        Answer::WriteDone => add_text("write done\n", out),
        Answer::WriteMissed => add_text("write missed\n", out),
        Answer::Stale => add_text("stale\n", out),
        // the program sends no frame of several register writes, so such an answer has no text
        Answer::Written(_) => {}
        // a frame that can be read is refused only with `Memory`
        Answer::Refused(_) => return Err(AllocError),
        _ => unreachable!(),
    }
    Ok(())
}

/// Returns the length of `lines` of the longest lines. `AllocError` if no memory has so many bytes.
fn room_of(lines: usize) -> Result<usize, AllocError>
    ensures { IfOk result (λ room. room ≡ LONGEST_OUTCOME * lines) }
{
    match LONGEST_OUTCOME.checked_mul(lines) {
        Some(room) => Ok(room),
        None => Err(AllocError),
    }
}

/// Appends the lines of the outcomes of an arriving frame's datagrams. The capacity must suffice.
fn add_outcomes(outcomes: &[Outcome], out: &mut String)
    requires { string_len out.old + LONGEST_OUTCOME * length outcomes.now ≤ string_capacity out.old }
    ensures { string_bytes out.new ≡ string_bytes out.old ++ flat_map outcome_text outcomes.now }
{
    for outcome in outcomes {
        add_outcome(*outcome, out);
    }
}

/// Appends the line of a datagram's outcome. The capacity must suffice.
#[tactic(auto, unfolding(crate::specs::Answers::outcome_text))]
fn add_outcome(outcome: Outcome, out: &mut String)
    requires { string_len out.old + LONGEST_OUTCOME ≤ string_capacity out.old }
    ensures bytes { string_bytes out.new ≡ string_bytes out.old ++ outcome_text outcome }
    ensures len { string_len out.new ≤ string_len out.old + LONGEST_OUTCOME }
    ensures room { string_capacity out.old ≤ string_capacity out.new }
{
    match outcome {
        Outcome::Inputs { task, datagram } => {
            add_text("inputs ", out);
            add_pair(u64::from(task), u64::from(datagram), out);
        }
        Outcome::WrongCount { expected, got } => {
            add_text("wrong count ", out);
            add_pair(u64::from(expected), u64::from(got), out);
        }
        Outcome::Stale => add_text("stale\n", out),
        Outcome::Done => {}
        Outcome::Missed => {}
    }
}

/// Appends two numbers and the end of the line. The capacity must suffice.
fn add_pair(first: u64, second: u64, out: &mut String)
    requires { string_len out.old + 2 + 2 * MOST_DIGITS ≤ string_capacity out.old }
    ensures bytes { string_bytes out.new ≡ string_bytes out.old ++ pair_text first second }
    ensures len { string_len out.new ≤ string_len out.old + 2 + 2 * MOST_DIGITS }
    ensures room { string_capacity out.old ≤ string_capacity out.new }
{
    add_number(first, out);
    add_text(" ", out);
    add_number(second, out);
    add_text("\n", out);
}
