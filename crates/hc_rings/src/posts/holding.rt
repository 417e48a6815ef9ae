//! The buffer that a task's seat holds for its next post: its bytes are lent for writing, and then it is posted.
ghost use Rattle.std.specs.Prelude.{◌≡◌, ◌<◌, ◌≤◌, ◌↔◌, [], ◌∷◌, ◌++◌, length, None, Some, IsOk, IsSome, IfSome, OnOk, OnErr, IsErrOf, IfOk, replicate, true, false};
ghost use Rattle.std.specs.Borrow.{sem};
ghost use Rattle.hc_rings.specs.Faults.{post_fault_number};
ghost use Rattle.hc_rings.specs.Post.{blank_post};
ghost use Rattle.hc_rings.specs.Ring.{posted, handed_out, held, known_places, known_spares, FourWait, PostsEach, HoldsThisPost, HoldsPost, HoldsNothing, SameSender};
ghost use Rattle.hc_rings.specs.Lending.{LendsBuffer, LendsBytes, LendsHeld, LendsOutputs};

use super::{NoSpare, POSTS_WAITING, PostSender, SPARE_BUFFERS};
use crate::post_buffer::{LARGEST_IMAGE, PostBuffer};
use thiserror::Error;

/// The reason for which a post is not made. A fault's number never changes.
#[derive(Clone, Copy, Debug, PartialEq, Eq, Error)]
pub enum PostFault {
    /// No buffer is held.
    #[error("no buffer is held")]
    NoBuffer,
    /// The ring had no place for the post. The buffer stays held, unchanged.
    #[error("no place is free for the post")]
    Full,
}

impl PostFault {
    /// Returns the fault's number: 1 or 2.
    pub fn number(self) -> u8
        ensures { result ≡ post_fault_number self }
    {
        match self {
            PostFault::NoBuffer => 1,
            PostFault::Full => 2,
        }
    }
}

impl PostSender {
    /// Holds a buffer of `size` bytes (at most 23,776), all 0, for the next post, for this epoch: the buffer that is held
    /// already, or else a spare. Fails with `NoSpare` only if none is held and four buffers were handed out before. If `buffer`
    /// was never called, these are four posts, and all but four were taken, as far as the sender has seen.
    pub fn hold(&mut self, epoch: u32, size: usize) -> Result<(), NoSpare>
        requires { size ≤ LARGEST_IMAGE }
        ensures ring { SameSender self.old self.new }
        ensures posted { posted self.new ≡ posted self.old }
        ensures ok { OnOk result (HoldsThisPost self.old self.new (blank_post epoch size)) }
        ensures no_spare { OnErr result ((held self.old ≡ None) × (held self.new ≡ None) × (handed_out self.new ≡ handed_out self.old)) }
        ensures no_spare_only_after_four { OnErr result (SPARE_BUFFERS ≤ handed_out self.old) }
        ensures known { 0 < known_spares self.old → IsOk result }
        ensures places { known_places self.new ≡ known_places self.old }
        ensures posts_each { PostsEach self.old → PostsEach self.new × OnErr result (SPARE_BUFFERS ≤ length (posted self.old)) }
        ensures four_wait { PostsEach self.old → OnErr result (FourWait self.new) }
    {
        let mut buffer = match self.held.take() {
            Some(buffer) => buffer,
            None => self.buffer()?,
        };
        buffer.begin(epoch, size);
        self.held = Some(buffer);
        Ok(())
    }

    /// Lends the bytes of the held buffer for writing. Its epoch and the number of bytes stay.
    pub fn held_mut(&mut self) -> &mut [u8]
        requires { IsSome (held self.old) }
        ensures* lent { sem 𝓛 (LendsHeld self.entry result) }
        ensures bytes { IfSome (held self.old) (λ post. result.now ≡ post.bytes) }
    {
        lend(&mut self.held)
    }

    /// Lends `size` bytes (at most 23,776), all 0, of the buffer that is then held for the next post, for this epoch: the
    /// buffer that is held already, or else a spare. It is `hold` and `held_mut` in one call. Fails with `NoSpare` only if none
    /// is held and four buffers were handed out before. If `buffer` was never called, these are four posts.
    pub fn outputs(&mut self, epoch: u32, size: usize) -> Result<&mut [u8], NoSpare>
        requires { size ≤ LARGEST_IMAGE }
        ensures* lent { sem 𝓛 (LendsOutputs self.entry epoch size result) }
        ensures zeros { IfOk result (λ bytes. bytes.now ≡ replicate size 0) }
        ensures no_spare { OnErr result ((held self.old ≡ None) × (SPARE_BUFFERS ≤ handed_out self.old)) }
        ensures posts_each { PostsEach self.old → OnErr result (SPARE_BUFFERS ≤ length (posted self.old)) }
    {
        if self.holds_zeros(epoch, size) {
            return Ok(self.held_mut());
        }
        Err(NoSpare)
    }

    /// Holds a buffer of zeros for the next post, and returns whether one is held.
    fn holds_zeros(&mut self, epoch: u32, size: usize) -> bool
        requires { size ≤ LARGEST_IMAGE }
        ensures held { result ≡ true → HoldsPost self.old self.new (blank_post epoch size) × IsSome (held self.new) }
        ensures no_spare { result ≡ false → HoldsNothing self.old self.new × (SPARE_BUFFERS ≤ handed_out self.old) }
        ensures posts_each { PostsEach self.old → result ≡ false → SPARE_BUFFERS ≤ length (posted self.old) }
    {
        self.hold(epoch, size).is_ok()
    }

    /// Posts the held buffer, with its epoch and its bytes as they were left. Fails with `NoBuffer` if none is held, and with
    /// `Full` only if four posts were made before, and all but four were taken, as far as the sender has seen.
    pub fn post_held(&mut self) -> Result<(), PostFault>
        ensures ring { SameSender self.old self.new }
        ensures handed_out { handed_out self.new ≡ handed_out self.old }
        ensures no_buffer { IsErrOf result PostFault.NoBuffer ↔ (held self.old ≡ None) }
        ensures ok { OnOk result (IfSome (held self.old) (λ post. posted self.new ≡ posted self.old ++ post ∷ []) × (held self.new ≡ None)) }
        ensures err { OnErr result ((posted self.new ≡ posted self.old) × (held self.new ≡ held self.old)) }
        ensures full_only_after_four { IsErrOf result PostFault.Full → POSTS_WAITING ≤ length (posted self.old) }
        ensures full_where_no_place { IsErrOf result PostFault.Full → known_places self.old ≤ 1 }
        ensures four_wait { IsErrOf result PostFault.Full → FourWait self.new }
        ensures posts_each { PostsEach self.old → PostsEach self.new }
    {
        let Some(buffer) = self.held.take() else {
            return Err(PostFault::NoBuffer);
        };
        if let Err(buffer) = self.posts.post(buffer) {
            self.held = Some(buffer);
            return Err(PostFault::Full);
        }
        Ok(())
    }
}

/// Lends the bytes of a buffer that is there.
fn lend(held: &mut Option<PostBuffer>) -> &mut [u8]
    requires { IsSome held.old }
    ensures* lent { sem 𝓛 (LendsBytes held.entry result) }
    ensures bytes { IfSome held.old (λ post. result.now ≡ post.bytes) }
{
    let buffer = buffer_of(held);
    buffer.bytes_mut()
}

/// Lends a buffer that is there.
fn buffer_of(held: &mut Option<PostBuffer>) -> &mut PostBuffer
    requires { IsSome held.old }
    ensures* lent { sem 𝓛 (LendsBuffer held.entry result) }
    ensures buffer { held.old ≡ Some result.now }
{
    match held {
        Some(buffer) => buffer,
        None => unreachable!(),
    }
}
