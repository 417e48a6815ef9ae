//! The end of a ring at which posts go in. A `PostSender` owns it; when it is dropped it stores the end after the last post.
ghost use Rattle.std.specs.Prelude.{◌≡◌, ◌+◌, ◌≤◌, true, length};
ghost use Rattle.rtrb.specs.Ring.{sent, known_free, producer_capacity};
ghost use Rattle.hc_rings.specs.Items.{is_open};

use crate::item::{EndComesLast, Item};
use crate::post_buffer::PostBuffer;
use crate::posts::{POSTS_WAITING, PostsEnd};
use rtrb::Producer;
use std::alloc::Global;

/// It reserves one place for the end.
pub(crate) struct OutgoingPosts {
    pub(crate) ring: Producer<Item, Global, EndComesLast>,
    ghost not_ended: { is_open (sent ring) ≡ true },
    ghost place_for_end: { 1 ≤ known_free ring },
    ghost places: { 5 ≤ known_free ring + length (sent ring) },
    ghost five: { producer_capacity ring ≡ 5 },
}

impl OutgoingPosts {
    ghost use Rattle.std.specs.Prelude.{◌≡◌, ◌≤◌, [], ◌∷◌, ◌++◌, length, OnOk, OnErr, IfErr, IfSome};
    ghost use Rattle.rtrb.specs.Ring.{all_sent, IsPair, IsFinishedOf, SameProducer};
    ghost use Rattle.hc_rings.specs.Items.{posts_of};
    ghost use Rattle.hc_rings.specs.declared.incoming.IncomingPosts.{IncomingPosts};
    ghost use Rattle.hc_rings.specs.Ends.{put_in};

    /// Puts a post into the ring, or returns it if four posts wait.
    #[tactic(auto, using(crate::proofs::Items::posts_of_append, crate::proofs::Items::is_open_post, crate::proofs::Items::length_posts_of))]
    pub(crate) fn post(&mut self, buffer: PostBuffer) -> Result<(), PostBuffer>
        ensures ring { SameProducer self.old.ring self.new.ring }
        ensures ok { OnOk result (put_in self.new ≡ put_in self.old ++ buffer ∷ []) }
        ensures full { IfErr result (λ back. (back ≡ buffer) × (put_in self.new ≡ put_in self.old)) }
        ensures full_only_after_four { OnErr result (POSTS_WAITING ≤ length (put_in self.old)) }
        ensures full_where_no_place { OnErr result (known_free self.old.ring ≤ 1) }
        ensures full_where_none_found { OnErr result (known_free self.new.ring ≤ 1) }
    {
        if self.ring.slots() < 2 {
            return Err(buffer);
        }
        self.ring.push_reserved(Item::Buffer(buffer));
        Ok(())
    }

    /// Returns whether the other end is gone. No contract speaks of the result.
    pub(crate) fn is_abandoned(&mut self) -> bool
        ensures ring { SameProducer self.old.ring self.new.ring }
        ensures sent { sent self.new.ring ≡ sent self.old.ring }
        ensures places { known_free self.old.ring ≤ known_free self.new.ring }
    {
        self.ring.is_abandoned()
    }

    /// Stores the end, and returns all posts that went in. `None` if the other end of the ring is gone.
    #[tactic(auto, using(crate::proofs::Items::posts_of_ended, crate::proofs::Items::items_of_ended))]
    pub(crate) fn finish(self) -> Option<PostsEnd>
        ensures ring { IfSome result (λ end. (incoming : IncomingPosts) → IsPair self.ring incoming.ring → IsFinishedOf end.items incoming.ring) }
        ensures all { IfSome result (λ end. posts_of (all_sent end.items) ≡ put_in self) }
    {
        let OutgoingPosts { mut ring } = self;
        ring.push_reserved(Item::End);
        let items = ring.finish()?;
        Some(PostsEnd { items })
    }
}

impl Drop for OutgoingPosts {
    fn drop(self) {
        let OutgoingPosts { mut ring } = self;
        ring.push_reserved(Item::End);
    }
}
