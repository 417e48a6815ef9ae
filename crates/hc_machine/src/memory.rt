//! A slave's memory: bytes read and written by register, and the alias that no datagram changes.

ghost use Rattle.std.specs.Prelude.{◌≡◌, ◌+◌, ◌≤◌, length, set, slice_index, slice_range};
ghost use Rattle.hc_machine.specs.Commands.{register_written};
ghost use Rattle.hc_machine.specs.Memory.{with_part};

use crate::limits::MEMORY_BYTES;
use hc_frames::limits::ALIAS_REGISTER;

/// The two bytes of the configured station alias.
pub(crate) fn alias_of(memory: &[u8]) -> (u8, u8)
    requires { length memory.now ≡ MEMORY_BYTES }
    ensures { (result.0 ≡ slice_index memory.now ALIAS_REGISTER) × (result.1 ≡ slice_index memory.now (ALIAS_REGISTER + 1)) }
{
    let at = usize::from(ALIAS_REGISTER);
    (memory[at], memory[at + 1])
}

/// Puts the two bytes of the configured station alias back.
pub(crate) fn put_back(memory: &mut [u8], alias: (u8, u8))
    requires { length memory.old ≡ MEMORY_BYTES }
    ensures { memory.new ≡ set (set memory.old ALIAS_REGISTER alias.0) (ALIAS_REGISTER + 1) alias.1 }
{
    let at = usize::from(ALIAS_REGISTER);
    memory[at] = alias.0;
    memory[at + 1] = alias.1;
}

/// Copies memory from a register on.
pub(crate) fn read_memory(memory: &[u8], register: usize, bytes: &mut [u8])
    requires { register + length bytes.old ≤ length memory.now }
    ensures { bytes.new ≡ slice_range memory.now register (register + length bytes.old) }
{
    let end = register + bytes.len();
    bytes.copy_from_slice(&memory[register..end]);
}

/// Puts bytes in the place of those from `at` on.
pub(crate) fn put_part(bytes: &mut [u8], at: usize, part: &[u8])
    requires { at + length part.now ≤ length bytes.old }
    ensures { bytes.new ≡ with_part at part.now bytes.old }
{
    bytes[at..at + part.len()].copy_from_slice(part);
}

/// Writes bytes from a register on; the alias stays.
pub(crate) fn write_memory(memory: &mut [u8], register: usize, bytes: &[u8])
    requires memory { length memory.old ≡ MEMORY_BYTES }
    requires within { register + length bytes.now ≤ MEMORY_BYTES }
    ensures { memory.new ≡ register_written memory.old register bytes.now }
{
    let alias = alias_of(memory);
    put_part(memory, register, bytes);
    put_back(memory, alias);
}
