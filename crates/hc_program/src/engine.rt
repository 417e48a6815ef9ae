//! The run of `hotline`. It reads all input, opens the project, and answers each turn: a command line, or a declaration with
//! the lines of its document. It writes each reply before it answers the next turn.
ghost use Rattle.std.specs.Prelude.{◌≡◌, ◌≢◌, ◌≤◌, ◌+◌, false, true, length, IfSome};
ghost use Rattle.std.specs.Option.{option_copied};
ghost use Rattle.hc_text.specs.Cutting.{left_in};
ghost use Rattle.hc_program.specs.Declaring.{turn_of, next_turns};
ghost use Rattle.hc_program.specs.Opening.{with_refused_growth, is_refused_growth};
ghost use Rattle.hc_program.specs.Runs.{reply_to, run, reply_of};
ghost use Rattle.hc_program.specs.Standings.{SessionState};
ghost use Rattle.hc_program.specs.Starved.{EndsAsOne, StarvedOutcome, StarvedRun, StopsLine};
ghost use Rattle.hc_program.specs.Text.{EndsAs, program_outcome, unopened};
ghost use Rattle.hc_program.specs.Turns.{AnswersLine, end_after, run_end_of};
ghost use Rattle.hc_text.specs.declared.input.TheConstants.{MOST_INPUT};

use crate::opening::{Unopened, memory_text, open_session, push_unopened};
use crate::replies::answer;
use crate::session::Session;
use crate::stops::stop_line;
use crate::turn::{Turn, split_turn};
use hc_text::input::{Unread, read_all};
use hc_text::lines::split_sections;
use hc_text::output::write_text;
use std::alloc::Global;
use std::io::{Read, Write};
use std::sync::Wait;
use std::thread::Threads;

/// The exit status of a run that reached its last line.
pub(crate) const DONE: u8 = 0;

/// The exit status after a line that is no command.
const BAD_COMMAND: u8 = 2;

/// The exit status if the project is not opened.
pub(crate) const UNOPENED: u8 = 3;

/// The exit status if the input is not read or a write fails.
pub(crate) const BROKEN: u8 = 4;

/// The reason for status 4.
#[derive(Clone, Copy, Debug, PartialEq, Eq)]
pub enum Broken {
    /// The input was not read; nothing was written.
    Unread(Unread),
    /// A write failed, wrote nothing, or was interrupted too often; less than the whole text was written.
    Unwritten,
}

/// The end of a run.
#[derive(Clone, Copy, Debug, PartialEq, Eq)]
pub struct RunEnd {
    /// The exit status: 0 for a run that reached its last line, 2 after a line that is no command, 3 if the project is not
    /// opened, 4 if the input is not read or a write fails.
    pub status: u8,
    /// True if an allocation failed on the way, or a seat or a view was refused, which never occurs in practice.
    pub starved: bool,
    /// The reason for status 4; `None` with any other status.
    pub broken: Option<Broken>,
}

/// The end of a turn.
#[derive(Clone, Copy, Debug, PartialEq, Eq)]
struct TurnEnd {
    /// The exit status, if the run ends here.
    end: Option<u8>,
    /// True if the turn was stopped, or its publishing refused.
    starved: bool,
}

/// Writes a reply. The run ends or continues after it.
fn write_reply<W: Write>(text: &[u8], goes_on: bool, starved: bool, output: &mut W) -> TurnEnd
    ensures takes { (next : SessionState) → AnswersLine (W.contents output.old) (W.contents output.new) next result.end (reply_of text.now next goes_on) }
    ensures starved { result.starved ≡ starved }
{
    match write_text(output, text) {
        Ok(()) => TurnEnd {
            end: end_after(goes_on),
            starved,
        },
        Err(_) => TurnEnd {
            end: Some(BROKEN),
            starved,
        },
    }
}

/// Returns the exit status, if the run ends after a reply that was written.
fn end_after(goes_on: bool) -> Option<u8>
    ensures { result ≡ end_after goes_on }
{
    if goes_on { None } else { Some(BAD_COMMAND) }
}

/// Returns the end of a run whose input was read, with this status; for status 4 the reason is a failed write.
fn ended(status: u8, starved: bool) -> RunEnd
    ensures { result ≡ run_end_of status starved }
{
    let broken = if status == BROKEN {
        Some(Broken::Unwritten)
    } else {
        None
    };
    RunEnd {
        status,
        starved,
        broken,
    }
}

/// Answers a turn, publishes its changes, and writes its reply, or the line of its stop. A refused publishing prints nothing;
/// the next one continues.
fn take_turn<Rt: Threads + Wait + Sync, W: Write>(
    rt: &Rt,
    alloc: Global,
    turn: Turn<'_>,
    session: &mut Session,
    output: &mut W,
) -> TurnEnd
    ensures answered { result.starved ≡ false
        → AnswersLine (W.contents output.old) (W.contents output.new) session.new result.end (reply_to session.old (turn_of turn.entry)) }
    ensures stopped { result.starved ≡ true
        → StopsLine session.old (turn_of turn.entry) (W.contents output.old) (W.contents output.new) session.new result.end }
{
    let answered = answer(rt, alloc, turn, session);
    let published = session.publish(rt, alloc);
    match answered {
        Ok(reply) => write_reply(
            reply.text.as_bytes(),
            reply.goes_on,
            published.is_err(),
            output,
        ),
        Err(stop) => write_reply(stop_line(stop), true, true, output),
    }
}

/// Runs the remaining command lines, from a line number on.
fn run_commands<Rt: Threads + Wait + Sync, W: Write>(
    rt: &Rt,
    alloc: Global,
    session: &mut Session,
    lines: Option<&[u8]>,
    first: u32,
    output: &mut W,
) -> RunEnd
    requires { first + left_in (option_copied lines) ≤ MOST_INPUT + 2 }
    ensures unstarved { result.starved ≡ false
        → EndsAs (W.contents output.old) (W.contents output.new) result (run session.old (next_turns first (option_copied lines.entry))) }
    ensures starved { result.starved ≡ true
        → EndsAsOne (W.contents output.old) (W.contents output.new) result (StarvedRun session.old (next_turns first (option_copied lines.entry))) }
{
    let mut starved = false;
    let mut number = first;
    let mut rest = lines;
    while let Some(text) = rest {
        let cut = split_turn(text, number);
        let taken = take_turn(rt, alloc, cut.turn, session, output);
        starved |= taken.starved;
        if let Some(status) = taken.end {
            return ended(status, starved);
        }
        number = cut.first;
        rest = cut.after_it;
    }
    ended(DONE, starved)
}

/// Writes the last lines of a run, and ends it with this status, which is not that of a failed write.
pub(crate) fn end_with<W: Write>(lines: &[u8], end: u8, starved: bool, output: &mut W) -> RunEnd
    requires { end ≢ 4 }
    ensures ends { EndsAs (W.contents output.old) (W.contents output.new) result (record { text = lines.now; status = end }) }
    ensures starved { result.starved ≡ starved }
{
    match write_text(output, lines) {
        Ok(()) => ended(end, starved),
        Err(_) => ended(BROKEN, starved),
    }
}

/// Writes the reason for which the project is not opened.
#[tactic(auto, using(crate::proofs::Openings::in_refused_growth_same))]
fn end_unopened<W: Write>(alloc: Global, fault: Unopened, output: &mut W) -> RunEnd
    ensures ends { result.starved ≡ false
        → EndsAs (W.contents output.old) (W.contents output.new) result (unopened fault) }
    ensures unstarved { result.starved ≡ false → is_refused_growth fault ≡ false }
    ensures starved { result.starved ≡ true
        → EndsAs (W.contents output.old) (W.contents output.new) result (unopened (with_refused_growth fault)) }
{
    let mut line = String::new(alloc);
    match push_unopened(fault, &mut line) {
        Ok(()) => end_with(line.as_bytes(), UNOPENED, fault.is_refused_growth(), output),
        Err(_) => end_with(memory_text(fault), UNOPENED, true, output),
    }
}

/// Runs an input that was read.
fn run_input<Rt: Threads + Wait + Sync, W: Write>(
    rt: &Rt,
    alloc: Global,
    input: &[u8],
    output: &mut W,
) -> RunEnd
    requires { length input.now ≤ MOST_INPUT }
    ensures unstarved { result.starved ≡ false
        → EndsAs (W.contents output.old) (W.contents output.new) result (program_outcome input.now) }
    ensures starved { result.starved ≡ true
        → EndsAsOne (W.contents output.old) (W.contents output.new) result (StarvedOutcome input.now) }
{
    let sections = split_sections(input);
    match open_session(rt, alloc, sections.project) {
        Ok(mut session) => {
            let end = run_commands(
                rt,
                alloc,
                &mut session,
                sections.commands,
                sections.first,
                output,
            );
            session.finish(rt);
            end
        }
        Err(fault) => end_unopened(alloc, fault, output),
    }
}

/// Runs the program: reads all of a reader, and writes the text that is defined for these bytes. If it ends unstarved with a
/// status other than 4, the whole text was written and the status is the text's. After any unstarved end a prefix of the text
/// was written.
///
/// After a starved end the same is true of one of the texts that a failed allocation allows: no text and status 4 if the input
/// is not read; `project fault 11 Memory` or `open fault 2 Memory` and status 3 if the project is not opened; otherwise the
/// text of the commands, of which one or more printed `refused 28 Memory` or, if frames did not go along the line, `chain fault
/// 1 Memory`, or were not published. A command with such a line changed nothing. Exception: of `scan`, `program` and `cycle`
/// what was done before is done. `open fault 3 NoSeat`, of a project that can be opened, and `refused 7 NoEntry` count as such
/// texts; they never occur in practice.
///
/// After each turn its changes are published, and each task's seat learns them. A refused publishing prints nothing: tasks view
/// what they viewed before, and the next publishing continues.
///
/// Faults are found in the order input, project, opening, commands. Status 4 means that the input is longer than 4,194,304
/// bytes, that reading fails or does not end within 4,194,305 turns, or that a write fails, writes nothing, or is interrupted
/// over 4,194,305 times in one reply. Frames go along the line in threads of its segments; the run waits for them.
pub fn run_hotline<Rt: Threads + Wait + Sync, R: Read, W: Write>(
    rt: &Rt,
    alloc: Global,
    input: &mut R,
    output: &mut W,
) -> RunEnd
    ensures unstarved { result.starved ≡ false → IfSome (R.remaining input.old)
        (λ bytes. EndsAs (W.contents output.old) (W.contents output.new) result (program_outcome bytes)) }
    ensures starved { result.starved ≡ true → IfSome (R.remaining input.old)
        (λ bytes. EndsAsOne (W.contents output.old) (W.contents output.new) result (StarvedOutcome bytes)) }
{
    match read_all(alloc, input) {
        Ok(bytes) => run_input(rt, alloc, &bytes, output),
        Err(fault) => RunEnd {
            status: BROKEN,
            starved: fault == Unread::Memory,
            broken: Some(Broken::Unread(fault)),
        },
    }
}
