//! The end of a ring at which spare buffers come out. A `PostSender` owns it.
ghost use Rattle.std.specs.Prelude.{◌+◌, ◌≤◌, length};
ghost use Rattle.rtrb.specs.Ring.{received, known_items};

use crate::post_buffer::PostBuffer;
use rtrb::Consumer;

/// Four spares were there before the first was handed out.
#[derive(Drop)]
pub(crate) struct SpareBuffers {
    pub(crate) ring: Consumer<PostBuffer>,
    ghost four: { 4 ≤ length (received ring) + length (known_items ring) },
}

impl SpareBuffers {
    ghost use Rattle.std.specs.Prelude.{◌≡◌, ◌+◌, ◌<◌, ◌≤◌, length, IsSome, OnSome, IfNone};
    ghost use Rattle.rtrb.specs.Ring.{known_items, received, SameConsumer};

    /// Returns a spare buffer, or `None` if none is found.
    pub(crate) fn next(&mut self) -> Option<PostBuffer>
        ensures ring { SameConsumer self.old.ring self.new.ring }
        ensures some { OnSome result (length (received self.new.ring) ≡ length (received self.old.ring) + 1) }
        ensures none { IfNone result (length (received self.new.ring) ≡ length (received self.old.ring)) }
        ensures none_known { IfNone result (length (known_items self.new.ring) ≡ 0) }
        ensures none_only_after_four { IfNone result (4 ≤ length (received self.old.ring)) }
        ensures known { 0 < length (known_items self.old.ring) → IsSome result }
    {
        if self.ring.is_empty() {
            return None;
        }
        Some(self.ring.pop_known())
    }
}
