//! `Buffers`: memory of good answers that was given back, for the data of later ones.
ghost use Rattle.std.specs.Prelude.{◌≡◌, IfOk};

use hc_records::items::Items;
use std::alloc::{AllocError, Global};

/// The most buffers that are stored: one for each datagram of a line, 16 in each of the eight tasks (this project's profile).
const MOST_BUFFERS: usize = 128;

/// Buffers whose bytes nobody reads any more. Contracts see nothing of them.
#[derive(Drop)]
pub(crate) struct Buffers {
    free: Vec<Vec<u8>>,
}

impl Buffers {
    /// Returns an empty store. It allocates nothing.
    pub(crate) fn new(alloc: Global) -> Buffers {
        Buffers {
            free: Vec::new(alloc),
        }
    }

    /// Stores a buffer. Exception: it is dropped if 128 are stored already, or if the list of buffers cannot grow.
    pub(crate) fn put(&mut self, buffer: Vec<u8>) {
        if self.free.len() < MOST_BUFFERS {
            drop(self.free.push(buffer));
        }
    }

    /// Returns these bytes in a stored buffer, or in a new one if none is stored. Fails with `AllocError` if an allocation
    /// fails.
    pub(crate) fn filled(&mut self, alloc: Global, bytes: &[u8]) -> Result<Items<u8>, AllocError>
        ensures { IfOk result (λ copy. copy ≡ bytes.now) }
    {
        let mut buffer = match self.free.pop() {
            Some(buffer) => buffer,
            None => Vec::new(alloc),
        };
        buffer.clear();
        buffer.extend_from_slice(bytes)?;
        Ok(Items::of(buffer))
    }
}
