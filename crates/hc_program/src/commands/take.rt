//! The command `take`.
ghost use Rattle.std.specs.Prelude.{◌≡◌, ◌≤◌, ◌+◌, ◌++◌, OnErr, OnOk, string_bytes};
ghost use Rattle.std.specs.String.{string_capacity, string_len};
ghost use Rattle.hc_program.specs.Takings.{take_text, taken_text, session_taken};

use crate::session::Session;
use hc_text::room::{MOST_DIGITS, add_number, add_text};
use std::alloc::AllocError;

/// The length of the longest line: its words, two numbers, and the line feed.
const LONGEST_TAKEN: usize = 16 + 2 * MOST_DIGITS;

/// Hands the tasks' posts to the core and appends how many it accepted, and how many it refused because another epoch has
/// begun. It allocates for the line first. `AllocError` if an allocation fails; then no post was taken.
#[tactic(auto, unfolding(crate::specs::Takings::take_text))]
pub fn reply(session: &mut Session, out: &mut String) -> Result<(), AllocError>
    ensures text { OnOk result (string_bytes out.new ≡ string_bytes out.old ++ take_text session.old) }
    ensures next { OnOk result (session.new ≡ session_taken session.old) }
    ensures unchanged { OnErr result (session.new ≡ session.old) }
{
    out.reserve(LONGEST_TAKEN)?;
    let taken = session.take();
    add_taken(taken.accepted, taken.refused, out);
    Ok(())
}

/// Appends the line. The capacity must suffice.
#[tactic(auto, unfolding(crate::specs::Takings::taken_text))]
fn add_taken(accepted: u32, refused: u32, out: &mut String)
    requires { string_len out.old + LONGEST_TAKEN ≤ string_capacity out.old }
    ensures { string_bytes out.new ≡ string_bytes out.old ++ taken_text accepted refused }
{
    add_text("taken ", out);
    add_number(u64::from(accepted), out);
    add_text(" refused ", out);
    add_number(u64::from(refused), out);
    add_text("\n", out);
}
