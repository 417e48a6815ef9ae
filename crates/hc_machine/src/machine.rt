//! A slave of the line.

ghost use Rattle.std.specs.Prelude.{◌≡◌, ◌+◌, ◌≤◌, IfOk, is_none, length, true, vec_len};
ghost use Rattle.std.specs.Borrow.{sem};
ghost use Rattle.hc_frames.specs.Arrived.{fault_in};
ghost use Rattle.hc_machine.specs.Frames.{frame_after, memory_after};
ghost use Rattle.hc_machine.specs.Lending.{LendsMemory};
ghost use Rattle.hc_machine.specs.Memory.{fresh_memory, with_part, zeros};

use crate::frames::{is_readable, serve_frame};
use crate::limits::MEMORY_BYTES;
use crate::memory::put_part;
use hc_frames::limits::{ALIAS_REGISTER, MAX_DATA};
use std::alloc::{AllocError, Global};
use std::marker::Model;

/// A slave: its memory, and room for the data of a datagram. Contracts see it as the bytes of its memory.
#[derive(Drop)]
pub struct SlaveMachine {
    memory: Vec<u8>,
    spare: Vec<u8>,
}

impl Model for SlaveMachine {
    ghost use Rattle.std.specs.Prelude.{◌≡◌, ℕ, List, vec_len};
    ghost use Rattle.hc_frames.specs.declared.limits.TheConstants.{MAX_DATA};
    ghost use Rattle.hc_machine.specs.declared.limits.TheConstants.{MEMORY_BYTES};

    ghost Value = { List ℕ };

    ghost view = { λ machine. machine.memory.items };

    ghost invariant = { λ machine. (vec_len machine.memory ≡ MEMORY_BYTES) × (vec_len machine.spare ≡ MAX_DATA) };
}

/// Returns `n` zeros.
fn zeros(alloc: Global, n: usize) -> Result<Vec<u8>, AllocError>
    ensures items { IfOk result (λ bytes. bytes.items ≡ zeros n) }
    ensures size { IfOk result (λ bytes. vec_len bytes ≡ n) }
{
    vec![in alloc; 0; n]
}

/// The memory of a slave that no frame has met.
fn fresh_memory(alloc: Global, alias: u16) -> Result<Vec<u8>, AllocError>
    ensures items { IfOk result (λ memory. memory.items ≡ fresh_memory alias) }
    ensures size { IfOk result (λ memory. vec_len memory ≡ MEMORY_BYTES) }
{
    let mut memory = zeros(alloc, MEMORY_BYTES)?;
    put_part(
        &mut memory,
        usize::from(ALIAS_REGISTER),
        &alias.to_le_bytes(),
    );
    Ok(memory)
}

impl SlaveMachine {
    /// A slave whose memory is zeros but for its configured station alias, 0 to 65,535 (ETG.1000.4, 6.1.2). `AllocError` if an
    /// allocation failed.
    pub fn new(alloc: Global, alias: u16) -> Result<SlaveMachine, AllocError>
        ensures { IfOk result (λ machine. machine ≡ fresh_memory alias) }
    {
        let memory = fresh_memory(alloc, alias)?;
        let spare = zeros(alloc, usize::from(MAX_DATA))?;
        Ok(SlaveMachine { memory, spare })
    }

    /// Serves a frame as the slave does, in the frame's place. A frame that the reader does not read stays as it is. One that
    /// it reads can be read after the slave too. It does not allocate.
    pub fn process(&mut self, frame: &mut [u8])
        ensures frame { frame.new ≡ frame_after self.old frame.old }
        ensures memory { self.new ≡ memory_after self.old frame.old }
        ensures readable { is_none (fault_in frame.old) ≡ true → is_none (fault_in frame.new) ≡ true }
    {
        if is_readable(frame) {
            self.process_readable(frame);
        }
    }

    /// Serves a frame that the reader reads, as `process` does, and does not read it again. A caller that passes a frame
    /// through many slaves reads it once, since it can be read after each of them too. It does not allocate.
    pub fn process_readable(&mut self, frame: &mut [u8])
        requires { is_none (fault_in frame.old) ≡ true }
        ensures frame { frame.new ≡ frame_after self.old frame.old }
        ensures memory { self.new ≡ memory_after self.old frame.old }
        ensures readable { is_none (fault_in frame.new) ≡ true }
    {
        serve_frame(&mut self.memory, &mut self.spare, frame);
    }

    /// The bytes of its memory, 12,288 from register 0 on.
    pub fn memory(&self) -> &[u8]
        ensures bytes { result.now ≡ self.now }
        ensures size { length result.now ≡ MEMORY_BYTES }
    {
        self.memory.as_slice()
    }

    /// Lends the bytes of the slave's memory for writing, any of them: the alias and the registers too. It does not allocate.
    pub fn memory_mut(&mut self) -> &mut [u8]
        ensures* written { sem 𝓛 (LendsMemory self.entry result) }
        ensures bytes { result.now ≡ self.old }
        ensures size { length result.now ≡ MEMORY_BYTES }
    {
        self.memory.as_mut_slice()
    }

    /// Writes bytes to the slave's memory from byte `at` on, 0 to 12,288 less their number: any of them, the alias and the
    /// registers too. It does not allocate. It is for callers whose proofs learn nothing from the loan of `memory_mut`.
    pub fn write_memory(&mut self, at: usize, bytes: &[u8])
        requires within { at + length bytes.now ≤ MEMORY_BYTES }
        ensures { self.new ≡ with_part at bytes.now self.old }
    {
        put_part(&mut self.memory, at, bytes);
    }
}
