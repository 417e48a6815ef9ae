//! The command `program`.
ghost use Rattle.std.specs.Prelude.{◌≡◌, ◌≤◌, ◌+◌, ◌++◌, ◌∷◌, [], IfErr, IfOk, OnErr, OnOk, length, string_bytes};
ghost use Rattle.std.specs.String.{string_capacity, string_len};
ghost use Rattle.hc_events.specs.Steps.{Arrives, answer_to};
ghost use Rattle.hc_segment.specs.Line.{frame_through};
ghost use Rattle.hc_program.specs.declared.stops.RefusedGrowth.TheVariants.{Memory};
ghost use Rattle.hc_program.specs.Programs.{WritesOnce, program_text, programmed, programmed_text, says_done};
ghost use Rattle.hc_program.specs.Standings.{passed, stepped};
ghost use Rattle.hc_program.specs.Stops.{StopsInWrite, StopsProgram};

use super::write::WRITE_FRAME;
use crate::session::Session;
use crate::stops::RefusedGrowth;
use hc_events::answer::Answer;
use hc_events::faults::CoreFault;
use hc_rings::FrameBox;
use hc_text::room::{MOST_DIGITS, add_number, add_text};
use std::alloc::Global;
use std::sync::Wait;
use std::thread::Threads;

/// The length of the longest line: its words, two numbers, and the line feed.
const LONGEST_PROGRAMMED: usize = 15 + 2 * MOST_DIGITS;

/// Passes a frame along the line, and returns it as it comes back. Returns a `RefusedGrowth` if an allocation fails; then no
/// machine has seen it.
fn pass<R: Threads + Wait + Sync>(
    rt: &R,
    alloc: Global,
    session: &mut Session,
    frame: &[u8],
) -> Result<FrameBox, RefusedGrowth>
    requires { length frame.now ≤ WRITE_FRAME }
    ensures back { IfOk result (λ back. back ≡ frame_through session.old.machines frame.now) }
    ensures next { OnOk result (session.new ≡ passed session.old (frame.now ∷ [])) }
    ensures unchanged { OnErr result (session.new ≡ session.old) }
{
    let mut frames = Vec::with_capacity(alloc, 1)?;
    frames.push_reserved(FrameBox::of(alloc, frame)?);
    let mut back = session.pass(rt, alloc, frames)?;
    match back.pop() {
        Some(frame) => Ok(frame),
        None => unreachable!(),
    }
}

/// Hands in a frame, and returns whether it confirms a block. Returns a `RefusedGrowth` if an allocation fails; then the frame
/// has not arrived.
fn take_in(alloc: Global, frame: &[u8], session: &mut Session) -> Result<bool, RefusedGrowth>
    ensures done { IfOk result (λ done. done ≡ says_done (answer_to session.old.history (Arrives frame.now))) }
    ensures next { OnOk result (session.new ≡ stepped session.old (Arrives frame.now)) }
    ensures unchanged { IfErr result (λ refused_growth. (refused_growth ≡ Memory) × (session.new ≡ session.old)) }
{
    match session.arrive(alloc, frame) {
        Answer::WriteDone => Ok(true),
        Answer::Refused(CoreFault::Memory) => Err(RefusedGrowth::Memory),
        _ => Ok(false),
    }
}

/// Sends the next write along the line, hands in the frame that returns, and returns whether the block was written. Nothing is
/// sent if no block is owed or no serial is left. Returns a `RefusedGrowth` if an allocation fails.
fn write_once<R: Threads + Wait + Sync>(
    rt: &R,
    alloc: Global,
    session: &mut Session,
) -> Result<bool, RefusedGrowth>
    ensures once { IfOk result (λ done. WritesOnce session.old done session.new) }
    ensures stops { IfErr result (λ refused_growth. StopsInWrite session.old refused_growth session.new) }
{
    let mut frame = [0u8; WRITE_FRAME];
    match session.next_write(&mut frame) {
        Ok(size) => {
            let back = pass(rt, alloc, session, &frame[..size])?;
            take_in(alloc, back.bytes(), session)
        }
        Err(_) => Ok(false),
    }
}

/// Writes owed blocks along the line until none is owed or a write fails, and returns the number of blocks written.
fn write_all<R: Threads + Wait + Sync>(
    rt: &R,
    alloc: Global,
    session: &mut Session,
) -> Result<u64, RefusedGrowth>
    ensures programmed { IfOk result (λ count. programmed session.old ≡ record { session_state = session.new; written = count }) }
    ensures stops { IfErr result (λ refused_growth. StopsProgram session.old refused_growth session.new) }
{
    let mut count = 0u64;
    while write_once(rt, alloc, session)? {
        count += 1;
    }
    Ok(count)
}

/// Writes owed blocks along the line, always the first one, until none is owed or a write fails. Appends the numbers of blocks
/// written and of blocks owed then. It allocates for the line first. Returns a `RefusedGrowth` if an allocation fails; the
/// steps before it stay done.
#[tactic(auto, unfolding(crate::specs::Programs::program_text))]
pub fn reply<R: Threads + Wait + Sync>(
    rt: &R,
    alloc: Global,
    session: &mut Session,
    out: &mut String,
) -> Result<(), RefusedGrowth>
    ensures text { OnOk result (string_bytes out.new ≡ string_bytes out.old ++ program_text session.old) }
    ensures next { OnOk result (session.new ≡ (programmed session.old).session_state) }
    ensures stops { IfErr result (λ refused_growth. StopsProgram session.old refused_growth session.new) }
{
    out.reserve(LONGEST_PROGRAMMED)?;
    let count = write_all(rt, alloc, session)?;
    add_programmed(count, session.core().owed(), out);
    Ok(())
}

/// Appends the line. The capacity must suffice.
fn add_programmed(done: u64, owed: u32, out: &mut String)
    requires { string_len out.old + LONGEST_PROGRAMMED ≤ string_capacity out.old }
    ensures { string_bytes out.new ≡ string_bytes out.old ++ programmed_text done owed }
{
    add_text("written ", out);
    add_number(done, out);
    add_text(" owed ", out);
    add_number(u64::from(owed), out);
    add_text("\n", out);
}
