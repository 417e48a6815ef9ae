//! The commands `poke` and `peek`.
ghost use Rattle.std.specs.Prelude.{◌≡◌, ◌<◌, ◌+◌, ◌++◌, [], IfOk, OnErr, OnOk, length, slice_index_or, string_bytes};
ghost use Rattle.hc_machine.specs.declared.limits.TheConstants.{MEMORY_BYTES};
ghost use Rattle.hc_program.specs.Memories.{machine_at, memory_text, peek_text, poke_text, poked_session_state};

use crate::refusals::push_refusal;
use crate::session::Session;
use hc_events::faults::CoreFault;
use hc_machine::limits::MEMORY_BYTES;
use hc_text::commands::{Peek, Poke};
use hc_text::printing::{push_register, push_spaced_bytes};
use std::alloc::AllocError;

/// Returns the position of the machine of the slave with a station address. Fails with `UnknownStation` or `Absent`.
#[tactic(auto, unfolding(crate::specs::Memories::machine_at))]
fn machine_at(session: &Session, station: u16) -> Result<usize, CoreFault>
    ensures at { result ≡ machine_at session.now station }
    ensures in_range { IfOk result (λ position. position < length session.now.machines) }
{
    match session.core().plan().position(station) {
        Ok(position) => {
            let position = position as usize;
            if position < session.machines() {
                Ok(position)
            } else {
                Err(CoreFault::Absent)
            }
        }
        Err(fault) => Err(CoreFault::from(fault)),
    }
}

/// Writes bytes to the memory of a slave's machine, or appends the fault. `AllocError` if an allocation fails; then nothing was
/// written, and `out` may have a prefix of the line.
pub fn reply_poke(poke: &Poke, session: &mut Session, out: &mut String) -> Result<(), AllocError>
    ensures text { OnOk result (string_bytes out.new ≡ string_bytes out.old ++ poke_text session.old poke.now) }
    ensures next { OnOk result (session.new ≡ poked_session_state session.old poke.now) }
    ensures unchanged { OnErr result (session.new ≡ session.old) }
{
    let (station, at, bytes) = poke.parts();
    match machine_at(session, station) {
        Ok(position) => {
            out.push_str("poked\n")?;
            session.write_memory(position, usize::from(at), bytes);
            Ok(())
        }
        Err(fault) => push_refusal(fault, out),
    }
}

/// Returns the memory of the machine at a position.
fn memory_at(session: &Session, position: usize) -> &[u8]
    requires { position < length session.now.machines }
    ensures bytes { result.now ≡ slice_index_or session.now.machines position [] }
    ensures size { length result.now ≡ MEMORY_BYTES }
{
    match session.memory(position) {
        Some(memory) => memory,
        None => unreachable!(),
    }
}

/// Appends bytes of the memory of a slave's machine, or the fault. `AllocError` if an allocation fails; then `out` may have a
/// prefix of the line.
pub fn reply_peek(peek: &Peek, session: &Session, out: &mut String) -> Result<(), AllocError>
    ensures { OnOk result (string_bytes out.new ≡ string_bytes out.old ++ peek_text session.now peek.now) }
{
    let (station, at, count) = peek.parts();
    match machine_at(session, station) {
        Ok(position) => {
            let first = usize::from(at);
            let memory = memory_at(session, position);
            push_memory(at, &memory[first..first + usize::from(count)], out)
        }
        Err(fault) => push_refusal(fault, out),
    }
}

/// Appends the line of bytes that are read from an address, both in hexadecimal.
#[tactic(auto, unfolding(crate::specs::Memories::memory_text))]
fn push_memory(at: u16, bytes: &[u8], out: &mut String) -> Result<(), AllocError>
    ensures { OnOk result (string_bytes out.new ≡ string_bytes out.old ++ memory_text at bytes.now) }
{
    out.push_str("mem ")?;
    push_register(at, out)?;
    out.push_str(":")?;
    push_spaced_bytes(bytes, out)?;
    out.push_str("\n")
}
