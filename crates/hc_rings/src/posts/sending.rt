//! A task seat's end of a ring of posts.
ghost use Rattle.std.specs.Prelude.{◌≡◌, ◌+◌, ◌<◌, ◌≤◌, [], ◌∷◌, ◌++◌, length, IsOk, OnOk, OnErr, IfErr};
ghost use Rattle.hc_rings.specs.Ring.{posted, handed_out, held, known_places, known_spares, SameSender};

use super::{POSTS_WAITING, PostSender, SPARE_BUFFERS};
use crate::post_buffer::PostBuffer;
use thiserror::Error;

/// Each buffer is handed out, and none was found to have returned.
#[derive(Clone, Copy, Debug, PartialEq, Eq, Error)]
#[error("no buffer is free")]
pub struct NoSpare;

/// The ring had no place for the post, which is returned.
#[derive(Debug, Drop, Error)]
#[error("no place is free for the post")]
pub struct Full(pub PostBuffer);

impl PostSender {
    /// Returns a spare buffer, to be filled and posted. It may have the bytes of an earlier post. Fails with `NoSpare` only if
    /// four buffers were handed out before.
    pub fn buffer(&mut self) -> Result<PostBuffer, NoSpare>
        ensures ring { SameSender self.old self.new }
        ensures posted { (posted self.new ≡ posted self.old) × (held self.new ≡ held self.old) }
        ensures ok { OnOk result (handed_out self.new ≡ handed_out self.old + 1) }
        ensures no_spare { OnErr result (handed_out self.new ≡ handed_out self.old) }
        ensures no_spare_known { OnErr result (known_spares self.new ≡ 0) }
        ensures no_spare_only_after_four { OnErr result (SPARE_BUFFERS ≤ handed_out self.old) }
        ensures known { 0 < known_spares self.old → IsOk result }
        ensures places { known_places self.new ≡ known_places self.old }
    {
        self.spares.next().ok_or(NoSpare)
    }

    /// Posts the buffer with its epoch and bytes. Fails with `Full`, which returns the buffer, only if four posts were made
    /// before.
    pub fn post(&mut self, buffer: PostBuffer) -> Result<(), Full>
        ensures ring { SameSender self.old self.new }
        ensures ok { OnOk result (posted self.new ≡ posted self.old ++ buffer ∷ []) }
        ensures full { IfErr result (λ full. (full.0 ≡ buffer) × (posted self.new ≡ posted self.old)) }
        ensures full_only_after_four { OnErr result (POSTS_WAITING ≤ length (posted self.old)) }
        ensures full_where_no_place { OnErr result (known_places self.old ≤ 1) }
        ensures handed_out { (handed_out self.new ≡ handed_out self.old) × (held self.new ≡ held self.old) }
    {
        match self.posts.post(buffer) {
            Ok(()) => Ok(()),
            Err(buffer) => Err(Full(buffer)),
        }
    }

    /// Returns whether the receiver is gone: then nobody takes the posts. No contract speaks of the result.
    pub fn is_abandoned(&mut self) -> bool
        ensures ring { SameSender self.old self.new }
        ensures posted { (posted self.new ≡ posted self.old) × (held self.new ≡ held self.old) × (handed_out self.new ≡ handed_out self.old) }
        ensures known { (known_spares self.new ≡ known_spares self.old) × (known_places self.old ≤ known_places self.new) }
    {
        self.posts.is_abandoned()
    }
}
