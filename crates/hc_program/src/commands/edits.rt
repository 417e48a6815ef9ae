//! The four edits: `connect A`, `disconnect A`, `remap S A P..` and `move S A T`.
ghost use Rattle.std.specs.Prelude.{◌≡◌, ◌≤◌, ◌+◌, ◌++◌, OnErr, OnOk, string_bytes};
ghost use Rattle.std.specs.String.{string_capacity, string_len};
ghost use Rattle.hc_events.specs.Steps.{Edits};
ghost use Rattle.hc_program.specs.Standings.{session_edited};
ghost use Rattle.hc_program.specs.Answers.{report_text, event_text};

use crate::refusals::say_refusal;
use crate::session::Session;
use hc_events::answer::Answer;
use hc_records::edit::Edit;
use hc_text::room::{MOST_DIGITS, add_number, add_text};
use std::alloc::{AllocError, Global};

/// The length of the longest line of an accepted edit: its words, three numbers, and the line feed.
const LONGEST_REPORT: usize = 21 + 3 * MOST_DIGITS;

/// Carries out an edit and appends the changes, or its fault. The core is then as the edit leaves it, and the machines of its
/// group were connected or disconnected. It allocates for the line and the machines before the edit is carried out.
/// `AllocError` if an allocation fails; then nothing was accepted, and `out` may have a prefix of the line.
#[tactic(auto, unfolding(crate::specs::Answers::event_text))]
pub fn reply(
    alloc: Global,
    edit: &Edit,
    session: &mut Session,
    out: &mut String,
) -> Result<(), AllocError>
    ensures text { OnOk result (string_bytes out.new ≡ string_bytes out.old ++ event_text session.old.history (Edits edit.now)) }
    ensures next { OnOk result (session.new ≡ session_edited session.old edit.now) }
    ensures unchanged { OnErr result (session.new ≡ session.old) }
{
    out.reserve(LONGEST_REPORT)?;
    let ready = session.prepare(alloc, edit)?;
    match session.edit(alloc, edit) {
        Answer::Edited {
            epoch,
            recut,
            moved,
        } => {
            session.carry_out(ready);
            add_report(epoch, recut, moved, out);
            Ok(())
        }
        Answer::Refused(fault) => say_refusal(fault, out),
        _ => unreachable!(),
    }
}

/// Appends the line of an accepted edit, as `epoch 1 recut 1 moved 4`. The capacity must suffice.
#[tactic(auto, unfolding(crate::specs::Answers::report_text))]
fn add_report(epoch: u32, recut: u32, moved: u32, out: &mut String)
    requires { string_len out.old + LONGEST_REPORT ≤ string_capacity out.old }
    ensures { string_bytes out.new ≡ string_bytes out.old ++ report_text epoch recut moved }
{
    add_text("epoch ", out);
    add_number(u64::from(epoch), out);
    add_text(" recut ", out);
    add_number(u64::from(recut), out);
    add_text(" moved ", out);
    add_number(u64::from(moved), out);
    add_text("\n", out);
}
