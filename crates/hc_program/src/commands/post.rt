//! The command `post`.
ghost use Rattle.std.specs.Prelude.{◌≡◌, ◌≢◌, ◌⊎◌, ◌++◌, IfErr, OnOk, string_bytes};
ghost use Rattle.hc_conductor.specs.declared.one_thread.refusals.PostRefusal.TheVariants as why;
ghost use Rattle.hc_program.specs.declared.stops.Stop.TheVariants as stop;
ghost use Rattle.hc_program.specs.declared.stops.RefusedGrowth.TheVariants as refused_growth;
ghost use Rattle.hc_program.specs.Posts.{post_refusal_name, post_refusal_number, post_refusal_text, post_text, session_posted};
ghost use Rattle.hc_program.specs.Stops.{Unviewed};

use crate::refusals::push_refusal;
use crate::session::Session;
use crate::stops::{RefusedGrowth, Stop};
use hc_conductor::one_thread::refusals::PostRefusal;
use hc_events::faults::CoreFault;
use hc_records::limits::TASKS;
use hc_text::commands::Posting;
use hc_text::room::add_text;
use std::alloc::{AllocError, Global};

/// The length of the line of an accepted post.
const POSTED: usize = 7;

/// Posts values of a task and appends `session_posted`, or the reason for which nothing is posted, or the refusal of a task
/// over 7. It allocates for the line first. Returns a `Stop` if an allocation fails or the task's seat gets no view; then
/// nothing was posted, and `out` may have a prefix of the line.
#[tactic(auto, unfolding(crate::specs::Posts::post_text))]
pub fn reply(
    alloc: Global,
    posting: &Posting,
    session: &mut Session,
    out: &mut String,
) -> Result<(), Stop>
    ensures text { OnOk result (string_bytes out.new ≡ string_bytes out.old ++ post_text session.old posting.now) }
    ensures next { OnOk result (session.new ≡ session_posted session.old posting.now) }
    ensures stops { IfErr result (λ why. Unviewed session.old why session.new) }
{
    if posting.task >= TASKS {
        return Ok(push_refusal(CoreFault::NoSuchTask, out)?);
    }
    out.reserve(POSTED)?;
    match session.post(alloc, posting.task, posting.settings.as_slice()) {
        Ok(()) => {
            add_text("posted\n", out);
            Ok(())
        }
        Err(refusal) => say_post_refusal(refusal, out),
    }
}

/// Appends the reason for which nothing is posted. Returns a `Stop` if a view or memory is missing.
fn say_post_refusal(refusal: PostRefusal, out: &mut String) -> Result<(), Stop>
    ensures text { OnOk result (string_bytes out.new ≡ string_bytes out.old ++ post_refusal_text refusal) }
    ensures judged { OnOk result ((refusal ≢ why.NoEntry) × (refusal ≢ why.Memory)) }
    ensures stops { IfErr result (λ stopped. (stopped ≡ stop.RefusedGrowth refused_growth.Memory) ⊎ (stopped ≡ stop.NoEntry)) }
{
    match refusal {
        PostRefusal::NoEntry => Err(Stop::NoEntry),
        PostRefusal::Memory => Err(Stop::RefusedGrowth(RefusedGrowth::Memory)),
        refusal => Ok(push_post_refusal(refusal, out)?),
    }
}

/// Returns the number that is printed for a refused post.
fn post_refusal_number(refusal: PostRefusal) -> u8
    ensures { result ≡ post_refusal_number refusal }
{
    match refusal {
        PostRefusal::NoSuchVariable => 1,
        PostRefusal::IsInput => 2,
        PostRefusal::OtherTask => 3,
        PostRefusal::TooWide => 4,
        PostRefusal::NoSpare => 5,
        PostRefusal::NoEntry => 7,
        PostRefusal::Memory => 28,
    }
}

/// Appends the line of a refused post, as `refused 5 NoSpare`.
#[tactic(auto, unfolding(crate::specs::Posts::post_refusal_text))]
fn push_post_refusal(refusal: PostRefusal, out: &mut String) -> Result<(), AllocError>
    ensures { OnOk result (string_bytes out.new ≡ string_bytes out.old ++ post_refusal_text refusal) }
{
    let number = post_refusal_number(refusal);
    write!(out, "refused {number} ")?;
    push_post_refusal_name(refusal, out)?;
    out.push_str("\n")
}

/// Appends the name of a post's refusal.
fn push_post_refusal_name(refusal: PostRefusal, out: &mut String) -> Result<(), AllocError>
    ensures { OnOk result (string_bytes out.new ≡ string_bytes out.old ++ post_refusal_name refusal) }
{
    match refusal {
        PostRefusal::NoSuchVariable => out.push_str("NoSuchVariable"),
        PostRefusal::IsInput => out.push_str("IsInput"),
        PostRefusal::OtherTask => out.push_str("OtherTask"),
        PostRefusal::TooWide => out.push_str("TooWide"),
        PostRefusal::NoSpare => out.push_str("NoSpare"),
        PostRefusal::NoEntry => out.push_str("NoEntry"),
        PostRefusal::Memory => out.push_str("Memory"),
    }
}
