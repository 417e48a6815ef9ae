//! The program `hotline`: project text and commands on standard input, answers on standard output.
#![tactic(auto)]

use hc_program::engine::run_hotline;
use std::process::ExitCode;

/// Runs the commands of standard input, prints their answers, and ends with the run's exit status.
fn main(rt: HostRuntime) -> ExitCode {
    let mut input = rt.stdin();
    let mut output = rt.stdout();
    let end = run_hotline(&rt, rt.alloc(), &mut input, &mut output);
    ExitCode::from(end.status)
}
