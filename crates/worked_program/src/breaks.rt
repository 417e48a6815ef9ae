//! Inputs that are too long, readers that fail, and writers that fail.
use crate::devices::{Faltering, Halting, Interrupted, LineFeeds, Narrow, Stuttering};
use crate::printed::{FIRST_COMMANDS, FIRST_TEXT, ONE_SLAVE, Printed, ROOM, joined};
use hc_program::engine::{Broken, RunEnd, run_hotline};
use hc_text::input::{MOST_INPUT, Unread};
use std::alloc::{AllocError, Global};
use std::io::ErrorKind;
use std::sync::Wait;
use std::test::Fail;
use std::thread::Threads;

/// An unstarved end with another status than 4.
fn ended(status: u8) -> RunEnd {
    RunEnd {
        status,
        starved: false,
        broken: None,
    }
}

/// An unstarved end with status 4.
fn broken(broken: Broken) -> RunEnd {
    RunEnd {
        status: 4,
        starved: false,
        broken: Some(broken),
    }
}

/// The end of a run over this many line feeds, and true if it prints nothing.
fn fed<R: Threads + Wait + Sync>(
    rt: &R,
    alloc: Global,
    size: usize,
) -> Result<(RunEnd, bool), AllocError> {
    let mut input = LineFeeds { left: size };
    let mut output = Vec::new(alloc);
    let end = run_hotline(rt, alloc, &mut input, &mut output);
    if end.starved {
        return Err(AllocError);
    }
    Ok((end, output.is_empty()))
}

/// An input of the greatest length is run; one byte more ends the run with status 4, and nothing is printed.
#[test]
fn one_byte_too_long(rt: HostRuntime) -> Result<(), Fail> {
    let most = fed(&rt, rt.alloc(), MOST_INPUT)?;
    let longer = fed(&rt, rt.alloc(), MOST_INPUT + 1)?;
    assert!(rt;
        most == (ended(0), true) && longer == (broken(Broken::Unread(Unread::TooLong)), true)
    );
    Ok(())
}

/// A reader that is interrupted forever ends the run with status 4 after 4,194,305 calls, and nothing is printed.
#[test]
fn reading_ends_after_its_turns(rt: HostRuntime) -> Result<(), Fail> {
    let mut input = Interrupted { calls: 0 };
    let mut output = Vec::new(rt.alloc());
    let end = run_hotline(&rt, rt.alloc(), &mut input, &mut output);
    assert!(rt;
        end == broken(Broken::Unread(Unread::Failed))
            && input.calls == 4_194_305
            && output.is_empty()
    );
    Ok(())
}

/// The end and the output of a run over a text whose reader fails in this way at a call.
fn halted<R: Threads + Wait + Sync>(
    rt: &R,
    alloc: Global,
    text: &str,
    calls_left: u32,
    kind: ErrorKind,
) -> Result<Printed, AllocError> {
    let mut input = Halting {
        left: text.as_bytes(),
        calls_left,
        kind,
    };
    let mut output = Vec::with_capacity(alloc, ROOM)?;
    let end = run_hotline(rt, alloc, &mut input, &mut output);
    if end.starved {
        return Err(AllocError);
    }
    Ok(Printed { end, text: output })
}

/// The number of calls, from the first on and at most 20, at which a failing read has its effect. It ends a run over a text,
/// except after the last read.
pub fn reads_failed<R: Threads + Wait + Sync>(
    rt: &R,
    alloc: Global,
    text: &str,
) -> Result<u32, AllocError> {
    let reads = text.as_bytes().len() / 50 + 2;
    for calls_left in 0..20u32 {
        let printed = halted(rt, alloc, text, calls_left, ErrorKind::BrokenPipe)?;
        let is_read = calls_left as usize >= reads;
        let end = if is_read {
            ended(0)
        } else {
            broken(Broken::Unread(Unread::Failed))
        };
        if printed.end != end || printed.text.is_empty() == is_read {
            return Ok(calls_left);
        }
    }
    Ok(20)
}

/// A run ends when a read fails, at whichever call. A failure after the last read changes nothing.
#[test]
fn each_read_fails_once(rt: HostRuntime) -> Result<(), Fail> {
    let text = joined(rt.alloc(), ONE_SLAVE, FIRST_COMMANDS)?;
    assert!(rt; reads_failed(&rt, rt.alloc(), text.as_str())? == 20);
    Ok(())
}

/// The number of calls, from the first on and at most 8, at which an interrupted read changes nothing of the first run.
fn reads_interrupted<R: Threads + Wait + Sync>(
    rt: &R,
    alloc: Global,
    text: &str,
) -> Result<u32, AllocError> {
    for calls_left in 0..8 {
        let printed = halted(rt, alloc, text, calls_left, ErrorKind::Interrupted)?;
        if !printed.is(0, FIRST_TEXT) {
            return Ok(calls_left);
        }
    }
    Ok(8)
}

/// A read that is interrupted is tried again, and the output is the same.
#[test]
fn an_interrupted_read_is_taken_again(rt: HostRuntime) -> Result<(), Fail> {
    let text = joined(rt.alloc(), ONE_SLAVE, FIRST_COMMANDS)?;
    assert!(rt; reads_interrupted(&rt, rt.alloc(), text.as_str())? == 8);
    Ok(())
}

/// The end and the output of a run over a text whose writer is interrupted at every other call.
fn stuttered<R: Threads + Wait + Sync>(
    rt: &R,
    alloc: Global,
    text: &str,
) -> Result<Printed, AllocError> {
    let mut input = text.as_bytes();
    let mut output = Stuttering {
        taken: Vec::with_capacity(alloc, ROOM)?,
        is_interrupted: false,
    };
    let end = run_hotline(rt, alloc, &mut input, &mut output);
    if end.starved {
        return Err(AllocError);
    }
    Ok(Printed {
        end,
        text: output.taken,
    })
}

/// A write that is interrupted is tried again, and the output is the same.
#[test]
fn an_interrupted_write_is_taken_again(rt: HostRuntime) -> Result<(), Fail> {
    let text = joined(rt.alloc(), ONE_SLAVE, FIRST_COMMANDS)?;
    let printed = stuttered(&rt, rt.alloc(), text.as_str())?;
    assert!(rt; printed.is(0, FIRST_TEXT));
    Ok(())
}

/// The end of a run whose writer is interrupted forever, and the number of the writer's calls.
fn interrupted<R: Threads + Wait + Sync>(
    rt: &R,
    alloc: Global,
) -> Result<(RunEnd, u32), AllocError> {
    let mut input = "%%\nfoo\n".as_bytes();
    let mut output = Interrupted { calls: 0 };
    let end = run_hotline(rt, alloc, &mut input, &mut output);
    if end.starved {
        return Err(AllocError);
    }
    Ok((end, output.calls))
}

/// A writer that is interrupted forever ends the run with status 4 after 4,194,306 calls.
#[test]
fn writing_ends_after_its_interruptions(rt: HostRuntime) -> Result<(), Fail> {
    assert!(rt; interrupted(&rt, rt.alloc())? == (broken(Broken::Unwritten), 4_194_306));
    Ok(())
}

/// True if a run over a text, whose writer takes 7 bytes this many times and then none or fails, prints a prefix of its output.
/// The run ends with the given status if that is the whole output, and otherwise with 4.
fn is_cut_at<R: Threads + Wait + Sync>(
    rt: &R,
    alloc: Global,
    text: &str,
    printed: &str,
    status: u8,
    fails_after: (bool, u32),
) -> Result<bool, AllocError> {
    let mut input = text.as_bytes();
    let mut output = Narrow {
        taken: Vec::with_capacity(alloc, ROOM)?,
        calls_left: fails_after.1,
        fails: fails_after.0,
    };
    let end = run_hotline(rt, alloc, &mut input, &mut output);
    if end.starved {
        return Err(AllocError);
    }
    let is_front = printed.as_bytes().starts_with(output.taken.as_slice());
    let is_whole = output.taken.len() == printed.len();
    let wanted = if is_whole {
        ended(status)
    } else {
        broken(Broken::Unwritten)
    };
    Ok(is_front && end == wanted)
}

/// The number of cuts, at most 160, with which a run over a text ends as it should. Each write in turn takes nothing, and then
/// fails.
pub fn writes_cut<R: Threads + Wait + Sync>(
    rt: &R,
    alloc: Global,
    text: &str,
    printed: &str,
) -> Result<u32, AllocError> {
    for calls in 0..160u32 {
        if !is_cut_at(rt, alloc, text, printed, 0, (calls % 2 == 1, calls / 2))? {
            return Ok(calls);
        }
    }
    Ok(160)
}

/// A run ends with status 4 when a write fails or takes nothing, at whichever call, after it printed the beginning of its
/// output.
#[test]
fn each_write_fails_in_turn(rt: HostRuntime) -> Result<(), Fail> {
    let text = joined(rt.alloc(), ONE_SLAVE, FIRST_COMMANDS)?;
    assert!(rt; writes_cut(&rt, rt.alloc(), text.as_str(), FIRST_TEXT)? == 160);
    Ok(())
}

/// True if a run over a text, whose writer fails once and takes bytes afterwards, ends with status 4 and not with its whole
/// output. If the failing call is not reached, the run ends with status 0 and its whole output.
fn falters_at<R: Threads + Wait + Sync>(
    rt: &R,
    alloc: Global,
    text: &str,
    printed: &str,
    calls_left: u32,
) -> Result<bool, AllocError> {
    let mut input = text.as_bytes();
    let mut output = Faltering {
        taken: Vec::with_capacity(alloc, ROOM)?,
        calls_left,
        has_failed: false,
    };
    let end = run_hotline(rt, alloc, &mut input, &mut output);
    if end.starved {
        return Err(AllocError);
    }
    let is_front = printed.as_bytes().starts_with(output.taken.as_slice());
    let is_whole = output.taken.len() == printed.len();
    let wanted = if output.has_failed {
        broken(Broken::Unwritten)
    } else {
        ended(0)
    };
    Ok(is_front && is_whole != output.has_failed && end == wanted)
}

/// The number of writes, from the first on and at most 80, at which one failure ends a run over a text as it should.
pub fn writes_falter<R: Threads + Wait + Sync>(
    rt: &R,
    alloc: Global,
    text: &str,
    printed: &str,
) -> Result<u32, AllocError> {
    for calls in 0..80u32 {
        if !falters_at(rt, alloc, text, printed, calls)? {
            return Ok(calls);
        }
    }
    Ok(80)
}

/// One failed write ends the run, even if later writes would succeed.
#[test]
fn a_failed_write_is_not_tried_again(rt: HostRuntime) -> Result<(), Fail> {
    let text = joined(rt.alloc(), ONE_SLAVE, FIRST_COMMANDS)?;
    assert!(rt; writes_falter(&rt, rt.alloc(), text.as_str(), FIRST_TEXT)? == 80);
    Ok(())
}

/// True if a run, whose writer takes 7 bytes 0 to 5 times and then none, prints a prefix of a text. The run ends with the given
/// status if that is the whole text, and otherwise with 4.
fn is_cut<R: Threads + Wait + Sync>(
    rt: &R,
    alloc: Global,
    text: &str,
    printed: &str,
    status: u8,
) -> Result<bool, AllocError> {
    for calls_left in 0..6 {
        if !is_cut_at(rt, alloc, text, printed, status, (false, calls_left))? {
            return Ok(false);
        }
    }
    Ok(true)
}

/// The line of a bad command or a project fault is printed as far as the writer takes it. The run ends with status 4 unless
/// that is all of it.
#[test]
fn a_refusal_is_cut_too(rt: HostRuntime) -> Result<(), Fail> {
    let command = is_cut(&rt, rt.alloc(), "%%\nfoo\n", "line 2: bad command\n", 2)?;
    let project = is_cut(
        &rt,
        rt.alloc(),
        "slave = 1\n",
        "project fault 2 MissingField\n",
        3,
    )?;
    assert!(rt; command && project);
    Ok(())
}
