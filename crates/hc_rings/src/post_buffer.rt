//! The buffer of a post. A task's seat fills it and the conductor reads it; it goes through the ring whole and returns as a
//! spare.
ghost use Rattle.std.specs.Prelude.{◌≡◌, ◌≤◌, length, IfOk};
ghost use Rattle.std.specs.Borrow.{sem};
ghost use Rattle.hc_rings.specs.Post.{blank_post};
ghost use Rattle.hc_rings.specs.Lending.{LendsPost};

use std::alloc::{AllocError, Global};
use std::marker::Model;

/// The most bytes that the image of a task has: 16 datagrams of 1,486 bytes each.
pub const LARGEST_IMAGE: usize = 16 * 1486;

/// An epoch and the output bytes that are posted for it. Its memory suffices from the start for the largest image. Contracts
/// see a `Post`. None of its calls allocates.
#[derive(Debug, Drop)]
pub struct PostBuffer {
    epoch: u32,
    bytes: Vec<u8>,
}

impl Model for PostBuffer {
    ghost use Rattle.std.specs.Prelude.{◌≤◌, vec_len, vec_capacity};
    ghost use Rattle.hc_rings.specs.Post.{Post};

    ghost Value = { Post };

    ghost view = { λ b. record { epoch = b.epoch; bytes = b.bytes.items } };

    ghost invariant = { λ b. (23776 ≤ vec_capacity b.bytes) × (vec_len b.bytes ≤ 23776) };
}

impl PostBuffer {
    /// Returns a buffer without bytes, for epoch 0.
    pub(crate) fn new(alloc: Global) -> Result<PostBuffer, AllocError>
        ensures { IfOk result (λ b. b ≡ blank_post 0 0) }
    {
        let bytes = Vec::with_capacity(alloc, LARGEST_IMAGE)?;
        Ok(PostBuffer { epoch: 0, bytes })
    }

    /// Returns the epoch of the post.
    pub fn epoch(&self) -> u32
        ensures { result ≡ self.now.epoch }
    {
        self.epoch
    }

    /// Returns the output bytes, at most 23,776.
    pub fn bytes(&self) -> &[u8]
        ensures bytes { result.now ≡ self.now.bytes }
        ensures most { length result.now ≤ LARGEST_IMAGE }
    {
        self.bytes.as_slice()
    }

    /// Begins the post anew: for this epoch, with `size` bytes (at most 23,776) that are all 0.
    pub fn begin(&mut self, epoch: u32, size: usize)
        requires { size ≤ LARGEST_IMAGE }
        ensures { self.new ≡ blank_post epoch size }
    {
        self.epoch = epoch;
        self.bytes.clear();
        self.bytes.resize(size, 0).unwrap();
    }

    /// Lends the output bytes for writing. The epoch and the number of bytes stay.
    pub fn bytes_mut(&mut self) -> &mut [u8]
        ensures* written { sem 𝓛 (LendsPost self.entry result) }
        ensures bytes { result.now ≡ self.old.bytes }
    {
        self.bytes.as_mut_slice()
    }
}
