//! Simulated slaves. C stores the memory of each; the library stores nothing between two calls.
ghost use Rattle.std.specs.Prelude.{◌≡◌, ◌≢◌, ◌+◌, ◌≤◌, length};
ghost use Rattle.hc_machine.specs.declared.limits.TheConstants.{MEMORY_BYTES};
ghost use Rattle.hc_machine.specs.Frames.{frame_after, memory_after};
ghost use Rattle.hc_machine.specs.Memory.{fresh_memory, with_part, zeros};

use crate::numbers::{DONE, MISUSED};
use hc_frames::limits::{ALIAS_REGISTER, MAX_DATA};
use hc_machine::limits::MEMORY_BYTES;
use hc_machine::{is_readable, serve_frame};

/// Replaces all bytes by zeros.
#[tactic(auto, unfolding(hc_machine::specs::Memory::zeros))]
fn clear(memory: &mut [u8])
    ensures { memory.new ≡ zeros (length memory.old) }
{
    memory.fill(0);
}

/// Replaces the bytes from `at` on.
fn put_part(bytes: &mut [u8], at: usize, part: &[u8])
    requires { at + length part.now ≤ length bytes.old }
    ensures { bytes.new ≡ with_part at part.now bytes.old }
{
    bytes[at..at + part.len()].copy_from_slice(part);
}

/// Writes the memory of a slave that no frame has passed.
fn start(memory: &mut [u8], alias: u16)
    requires { length memory.old ≡ MEMORY_BYTES }
    ensures { memory.new ≡ fresh_memory alias }
{
    clear(memory);
    put_part(memory, usize::from(ALIAS_REGISTER), &alias.to_le_bytes());
}

/// Passes a frame through the slave with this memory.
fn process(memory: &mut [u8], frame: &mut [u8])
    requires { length memory.old ≡ MEMORY_BYTES }
    ensures frame { frame.new ≡ frame_after memory.old frame.old }
    ensures memory { memory.new ≡ memory_after memory.old frame.old }
{
    if is_readable(frame) {
        let mut spare = [0; MAX_DATA as usize];
        serve_frame(memory, &mut spare, frame);
    }
}

/// Writes the memory of a slave that no frame has passed, 12,288 bytes: zeros, except its configured station alias. Returns
/// `DONE`. It allocates nothing. Fails with `MISUSED` if the memory has another length; then it is unchanged.
#[unsafe(no_mangle)]
pub extern "C" fn zangjulf_slave_start(memory: &mut [u8], alias: u16) -> u8
    ensures done { length memory.old ≡ MEMORY_BYTES → (result ≡ DONE) × (memory.new ≡ fresh_memory alias) }
    ensures misused { length memory.old ≢ MEMORY_BYTES → (result ≡ MISUSED) × (memory.new ≡ memory.old) }
{
    if memory.len() != MEMORY_BYTES {
        return MISUSED;
    }
    start(memory, alias);
    DONE
}

/// Passes a frame through the slave with a memory of 12,288 bytes, in place. A frame that cannot be read is left as it is.
/// Returns `DONE`. It allocates nothing. Fails with `MISUSED` if the memory has another length; then memory and frame are
/// unchanged.
#[unsafe(no_mangle)]
pub extern "C" fn zangjulf_slave_process(memory: &mut [u8], frame: &mut [u8]) -> u8
    ensures frame { length memory.old ≡ MEMORY_BYTES → (result ≡ DONE) × (frame.new ≡ frame_after memory.old frame.old) }
    ensures memory { length memory.old ≡ MEMORY_BYTES → memory.new ≡ memory_after memory.old frame.old }
    ensures misused { length memory.old ≢ MEMORY_BYTES → (result ≡ MISUSED) × (memory.new ≡ memory.old) × (frame.new ≡ frame.old) }
{
    if memory.len() != MEMORY_BYTES {
        return MISUSED;
    }
    process(memory, frame);
    DONE
}
