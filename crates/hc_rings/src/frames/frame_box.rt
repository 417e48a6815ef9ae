//! A frame in a box of its own, which goes from thread to thread whole.
ghost use Rattle.std.specs.Prelude.{◌≡◌, ◌≤◌, length, IfOk};
ghost use Rattle.std.specs.Borrow.{sem};
ghost use Rattle.hc_rings.specs.Lending.{LendsFrame};

use std::alloc::{AllocError, Global};
use std::marker::Model;

/// The most bytes that a frame has, without its check sequence (IEEE 802.3).
pub const LARGEST_FRAME: usize = 1514;

/// An owned frame of at most 1,514 bytes. Contracts see it as the list of its bytes.
#[derive(Drop)]
pub struct FrameBox {
    bytes: Vec<u8>,
}

impl Model for FrameBox {
    ghost use Rattle.std.specs.Prelude.{◌≤◌, ℕ, List, vec_len};

    ghost Value = { List ℕ };

    ghost view = { λ f. f.bytes.items };

    ghost invariant = { λ f. vec_len f.bytes ≤ 1514 };
}

impl FrameBox {
    /// Returns a frame with a copy of the bytes, at most 1,514. `AllocError` if an allocation fails.
    pub fn of(alloc: Global, bytes: &[u8]) -> Result<FrameBox, AllocError>
        requires { length bytes.now ≤ LARGEST_FRAME }
        ensures { IfOk result (λ f. f ≡ bytes.now) }
    {
        let bytes = Vec::from_slice(alloc, bytes)?;
        Ok(FrameBox { bytes })
    }

    /// Returns the frame's bytes, at most 1,514.
    pub fn bytes(&self) -> &[u8]
        ensures bytes { result.now ≡ self.now }
        ensures most { length result.now ≤ LARGEST_FRAME }
    {
        self.bytes.as_slice()
    }

    /// Lends the frame's bytes for writing. Their number stays. It allocates nothing.
    pub fn bytes_mut(&mut self) -> &mut [u8]
        ensures* written { sem 𝓛 (LendsFrame self.entry result) }
        ensures bytes { result.now ≡ self.old }
        ensures most { length result.now ≤ LARGEST_FRAME }
    {
        self.bytes.as_mut_slice()
    }
}
