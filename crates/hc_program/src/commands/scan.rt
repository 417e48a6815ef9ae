//! The command `scan`.
ghost use Rattle.std.specs.Prelude.{◌≡◌, ◌++◌, IfErr, OnOk, string_bytes};
ghost use Rattle.hc_program.specs.Setups.{alias_text, aliases_text, scan_text, scanned};
ghost use Rattle.hc_program.specs.Stops.{StopsScan};

use crate::session::Session;
use crate::stops::RefusedGrowth;
use std::alloc::{AllocError, Global};
use std::sync::Wait;
use std::thread::Threads;

/// Reads the alias of each slave along the line and appends them, position by position. Returns a `RefusedGrowth` if an
/// allocation fails; then `out` may have a prefix of the lines.
#[tactic(auto, unfolding(crate::specs::Setups::scan_text))]
pub fn reply<R: Threads + Wait + Sync>(
    rt: &R,
    alloc: Global,
    session: &mut Session,
    out: &mut String,
) -> Result<(), RefusedGrowth>
    ensures text { OnOk result (string_bytes out.new ≡ string_bytes out.old ++ scan_text session.old) }
    ensures next { OnOk result (session.new ≡ scanned session.old) }
    ensures stops { IfErr result (λ refused_growth. StopsScan session.old refused_growth session.new) }
{
    let aliases = session.scan(rt, alloc)?;
    push_aliases(&aliases, out)?;
    Ok(())
}

/// Appends a line for each slave of the segment, in order: its position and its alias.
fn push_aliases(aliases: &[u16], out: &mut String) -> Result<(), AllocError>
    ensures { OnOk result (string_bytes out.new ≡ string_bytes out.old ++ aliases_text 0 aliases.now) }
{
    let mut position = 0usize;
    for alias in aliases {
        push_alias(position, *alias, out)?;
        position += 1;
    }
    Ok(())
}

/// Appends the line of a slave's position and alias.
#[tactic(auto, unfolding(crate::specs::Setups::alias_text))]
fn push_alias(position: usize, alias: u16, out: &mut String) -> Result<(), AllocError>
    ensures { OnOk result (string_bytes out.new ≡ string_bytes out.old ++ alias_text position alias) }
{
    write!(out, "slot {position} ")?;
    write!(out, "alias {alias}\n")
}
