//! The command `name`.
ghost use Rattle.std.specs.Prelude.{◌≡◌, ◌≤◌, ◌+◌, ◌++◌, OnErr, OnOk, string_bytes};
ghost use Rattle.std.specs.String.{string_capacity, string_len};
ghost use Rattle.hc_program.specs.Setups.{name_text, named, named_text};

use crate::session::Session;
use crate::stops::RefusedGrowth;
use hc_text::room::{MOST_DIGITS, add_number, add_text};
use std::alloc::Global;
use std::sync::Wait;
use std::thread::Threads;

/// The length of the longest line: its word, a number, and the line feed.
const LONGEST_NAMED: usize = 7 + MOST_DIGITS;

/// Gives each slave its station address along the line and appends how many took it. It allocates for the line first. Returns a
/// `RefusedGrowth` if an allocation fails; then no slave was written to.
#[tactic(auto, unfolding(crate::specs::Setups::name_text))]
pub fn reply<R: Threads + Wait + Sync>(
    rt: &R,
    alloc: Global,
    session: &mut Session,
    out: &mut String,
) -> Result<(), RefusedGrowth>
    ensures text { OnOk result (string_bytes out.new ≡ string_bytes out.old ++ name_text session.old) }
    ensures next { OnOk result (session.new ≡ named session.old) }
    ensures unchanged { OnErr result (session.new ≡ session.old) }
{
    out.reserve(LONGEST_NAMED)?;
    let count = session.name(rt, alloc)?;
    add_named(count, out);
    Ok(())
}

/// Appends the line. The capacity must suffice.
fn add_named(count: usize, out: &mut String)
    requires { string_len out.old + LONGEST_NAMED ≤ string_capacity out.old }
    ensures { string_bytes out.new ≡ string_bytes out.old ++ named_text count }
{
    add_text("named ", out);
    add_number(count as u64, out);
    add_text("\n", out);
}
