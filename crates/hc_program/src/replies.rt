//! The reply to one turn: a command line, or a declaration.
ghost use Rattle.std.specs.Prelude.{◌≡◌, ◌++◌, IfErr, IfOk, OnOk, false, map, string_bytes};
ghost use Rattle.hc_program.specs.Refusals.{bad_command_text};
ghost use Rattle.hc_program.specs.Declaring.{turn_of};
ghost use Rattle.hc_program.specs.Runs.{bare_reply, reply_to_words};
ghost use Rattle.hc_program.specs.Starved.{StopsTurn, StopsWords};

use crate::commands::{declare, obey};
use crate::refusals::push_bad_command;
use crate::session::Session;
use crate::stops::Stop;
use crate::turn::Turn;
use hc_text::commands::command_in;
use hc_text::words::split_words;
use std::alloc::{AllocError, Global};
use std::sync::Wait;
use std::thread::Threads;

/// The printed text of a turn, and whether the run continues.
#[derive(Debug, Drop)]
pub struct Reply {
    /// The printed text.
    pub text: String,
    /// True if the run continues. It ends at a line that is no command.
    pub goes_on: bool,
}

/// Carries out a turn and returns its reply. Nothing is published yet. Returns a `Stop` if an allocation fails or a seat gets
/// no view: nothing was then carried out, or a command of several calls was stopped (`StopsTurn`).
pub fn answer<R: Threads + Wait + Sync>(
    rt: &R,
    alloc: Global,
    turn: Turn<'_>,
    session: &mut Session,
) -> Result<Reply, Stop>
    ensures text { IfOk result (λ reply. string_bytes reply.text ≡ (bare_reply session.old (turn_of turn.entry)).text) }
    ensures goes_on { IfOk result (λ reply. reply.goes_on ≡ (bare_reply session.old (turn_of turn.entry)).goes_on) }
    ensures next { OnOk result (session.new ≡ (bare_reply session.old (turn_of turn.entry)).session_state) }
    ensures stops { IfErr result (λ stop. StopsTurn session.old (turn_of turn.entry) stop session.new) }
{
    let mut text = String::new(alloc);
    let goes_on = push_turn(rt, alloc, turn, session, &mut text)?;
    Ok(Reply { text, goes_on })
}

/// Appends the printed text of a turn, and returns whether the run continues.
#[tactic(auto, unfolding(crate::specs::Runs::bare_reply))]
fn push_turn<R: Threads + Wait + Sync>(
    rt: &R,
    alloc: Global,
    turn: Turn<'_>,
    session: &mut Session,
    out: &mut String,
) -> Result<bool, Stop>
    ensures text { OnOk result (string_bytes out.new ≡ string_bytes out.old ++ (bare_reply session.old (turn_of turn.entry)).text) }
    ensures goes_on { IfOk result (λ goes_on. goes_on ≡ (bare_reply session.old (turn_of turn.entry)).goes_on) }
    ensures next { OnOk result (session.new ≡ (bare_reply session.old (turn_of turn.entry)).session_state) }
    ensures stops { IfErr result (λ stop. StopsTurn session.old (turn_of turn.entry) stop session.new) }
{
    match turn {
        Turn::Says { number, line } => {
            let words = split_words(alloc, line)?;
            push_reply(rt, alloc, &words, number, session, out)
        }
        Turn::Declares {
            number: _,
            document: Some(document),
        } => {
            declare::reply(alloc, document, session, out)?;
            Ok(true)
        }
        Turn::Declares {
            number,
            document: None,
        } => Ok(push_no_command(number, out)?),
    }
}

/// Appends that a line is no command; the run ends after it.
fn push_no_command(number: u32, out: &mut String) -> Result<bool, AllocError>
    ensures text { OnOk result (string_bytes out.new ≡ string_bytes out.old ++ bad_command_text number) }
    ensures goes_on { IfOk result (λ goes_on. goes_on ≡ false) }
{
    push_bad_command(number, out)?;
    Ok(false)
}

/// Appends the printed text of a line's words, and returns whether the run continues.
fn push_reply<R: Threads + Wait + Sync>(
    rt: &R,
    alloc: Global,
    words: &[&[u8]],
    number: u32,
    session: &mut Session,
    out: &mut String,
) -> Result<bool, Stop>
    ensures text { OnOk result (string_bytes out.new ≡ string_bytes out.old ++ (reply_to_words session.old number (map (λ word. word.now) words.now)).text) }
    ensures goes_on { IfOk result (λ goes_on. goes_on ≡ (reply_to_words session.old number (map (λ word. word.now) words.now)).goes_on) }
    ensures next { OnOk result (session.new ≡ (reply_to_words session.old number (map (λ word. word.now) words.now)).session_state) }
    ensures stops { IfErr result (λ stop. StopsWords session.old (map (λ word. word.now) words.now) stop session.new) }
{
    let [name, arguments @ ..] = words else {
        return Ok(true);
    };
    match command_in(alloc, name, arguments)? {
        Some(command) => {
            obey(rt, alloc, &command, session, out)?;
            Ok(true)
        }
        None => Ok(push_no_command(number, out)?),
    }
}
