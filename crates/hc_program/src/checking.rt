//! The run of `projectcheck`: it reads a project text, and prints `ok` or the text's fault and its place.
ghost use Rattle.std.specs.Prelude.{◌≡◌, ◌≤◌, ◌++◌, false, true, length, IfOk, IfSome, OnOk, string_bytes};
ghost use Rattle.hc_text.specs.declared.input.TheConstants.{MOST_INPUT};
ghost use Rattle.hc_program.specs.Checking.{CheckOutcome, IsCheckedText, StarvedCheck, position_text, answered_status, answered_text};
ghost use Rattle.hc_program.specs.Starved.{EndsAsOne};

use crate::engine::{BROKEN, Broken, DONE, RunEnd, UNOPENED, end_with};
use crate::opening::{Unopened, memory_text};
use crate::places::push_location;
use crate::refusals::push_project_fault;
use hc_project::{Found, locate};
use hc_records::faults::ProjectFault;
use hc_text::input::{Unread, read_all};
use std::alloc::{AllocError, Global};
use std::io::{Read, Write};

/// The report on a text.
#[derive(Drop)]
struct CheckedText {
    /// The lines to print.
    text: String,
    /// The exit status.
    status: u8,
}

/// Adds the line of a place in a text that is no TOML document.
fn push_position(line: usize, column: usize, out: &mut String) -> Result<(), AllocError>
    ensures { OnOk result (string_bytes out.new ≡ string_bytes out.old ++ position_text line column) }
{
    write!(out, "at line {line} column {column}\n")
}

/// Adds the lines of a fault and its place, or the line `ok`.
fn push_answered(found: Option<Found>, out: &mut String) -> Result<(), AllocError>
    ensures { OnOk result (string_bytes out.new ≡ string_bytes out.old ++ answered_text found) }
{
    match found {
        None => out.push_str("ok\n"),
        Some(Found::InText { line, column }) => {
            push_project_fault(ProjectFault::NotToml, out)?;
            push_position(line, column, out)
        }
        Some(Found::InProject { fault, location }) => {
            push_project_fault(fault, out)?;
            push_location(location, out)
        }
    }
}

/// Returns the exit status: 0 for a project, 3 for a fault.
fn status_of(found: Option<Found>) -> u8
    ensures { result ≡ answered_status found }
{
    match found {
        None => DONE,
        Some(_) => UNOPENED,
    }
}

/// Returns the report on a text. `AllocError` if an allocation fails.
fn say(alloc: Global, input: &[u8]) -> Result<CheckedText, AllocError>
    ensures { IfOk result (λ checked. IsCheckedText input.now (string_bytes checked.text) checked.status) }
{
    let found = locate(alloc, input)?;
    let mut text = String::new(alloc);
    push_answered(found, &mut text)?;
    Ok(CheckedText {
        text,
        status: status_of(found),
    })
}

/// Writes the report on an input that was read.
fn check_input<W: Write>(alloc: Global, input: &[u8], output: &mut W) -> RunEnd
    requires { length input.now ≤ MOST_INPUT }
    ensures unstarved { result.starved ≡ false
        → EndsAsOne (W.contents output.old) (W.contents output.new) result (CheckOutcome input.now) }
    ensures starved { result.starved ≡ true
        → EndsAsOne (W.contents output.old) (W.contents output.new) result StarvedCheck }
{
    match say(alloc, input) {
        Ok(checked) => end_with(checked.text.as_bytes(), checked.status, false, output),
        Err(_) => {
            let line = memory_text(Unopened::Project(ProjectFault::Memory));
            end_with(line, UNOPENED, true, output)
        }
    }
}

/// Runs the check: reads all of a reader, and writes `ok`, or the fault of the project text and its place. If it ends unstarved
/// with a status other than 4, the written text is the report of `locate`, with status 0 for a project and 3 for a fault. After
/// any unstarved end it is a prefix of such a text. A starved end has written nothing, with status 4, if the input was not
/// read, and otherwise `project fault 11 Memory`, with status 3.
///
/// Status 4 is returned as by `run_hotline`: the input is too long, or reading or writing failed.
pub fn run_projectcheck<R: Read, W: Write>(alloc: Global, input: &mut R, output: &mut W) -> RunEnd
    ensures unstarved { result.starved ≡ false → IfSome (R.remaining input.old)
        (λ bytes. EndsAsOne (W.contents output.old) (W.contents output.new) result (CheckOutcome bytes)) }
    ensures starved { result.starved ≡ true
        → EndsAsOne (W.contents output.old) (W.contents output.new) result StarvedCheck }
{
    match read_all(alloc, input) {
        Ok(bytes) => check_input(alloc, &bytes, output),
        Err(fault) => RunEnd {
            status: BROKEN,
            starved: fault == Unread::Memory,
            broken: Some(Broken::Unread(fault)),
        },
    }
}
