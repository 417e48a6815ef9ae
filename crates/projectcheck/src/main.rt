//! The program `projectcheck`: a project text on standard input, its lowest fault and where it is on standard output.
#![tactic(auto)]

use hc_program::checking::run_projectcheck;
use std::process::ExitCode;

/// Checks the project text of standard input, prints what it found, and ends with the check's exit status.
fn main(rt: HostRuntime) -> ExitCode {
    let mut input = rt.stdin();
    let mut output = rt.stdout();
    let end = run_projectcheck(rt.alloc(), &mut input, &mut output);
    ExitCode::from(end.status)
}
