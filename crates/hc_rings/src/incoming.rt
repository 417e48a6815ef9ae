//! The end of a ring at which posts come out. A `PostReceiver` owns it, and knows whether the end has come.
ghost use Rattle.std.specs.Prelude.{◌≡◌, [], true};
ghost use Rattle.rtrb.specs.Ring.{received, known_items, consumer_capacity};
ghost use Rattle.hc_rings.specs.Items.{posts_of, items_of};

use crate::item::{EndComesLast, Item};
use crate::outgoing::OutgoingPosts;
use crate::post_buffer::PostBuffer;
use crate::posts::PostsEnd;
use rtrb::Consumer;
use std::alloc::Global;

/// The ring has a capacity of four posts and the end.
#[derive(Drop)]
pub(crate) struct IncomingPosts {
    pub(crate) ring: Consumer<Item, Global, EndComesLast>,
    pub(crate) ended: bool,
    ghost places: { consumer_capacity ring ≡ 5 },
    ghost came: { received ring ≡ items_of (posts_of (received ring)) ended },
    ghost nothing_after: { ended ≡ true → known_items ring ≡ [] },
}

impl IncomingPosts {
    ghost use Rattle.std.specs.Prelude.{◌≡◌, ◌+◌, ◌≤◌, [], ◌∷◌, ◌++◌, length, IfSome, IfNone, true};
    ghost use mathlib.Core.List.{IsPrefix};
    ghost use Rattle.rtrb.specs.Ring.{sent, all_sent, known_free, received, IsPair, IsFinishedOf, SameProducer, SameConsumer};
    ghost use Rattle.hc_rings.specs.Items.{posts_of};
    ghost use Rattle.hc_rings.specs.Ends.{put_in, came_out, known_ahead};

    /// Takes the next post, or returns `None` if none is found or the end comes.
    pub(crate) fn next(&mut self) -> Option<PostBuffer>
        ensures ring { SameConsumer self.old.ring self.new.ring }
        ensures some { IfSome result (λ b. came_out self.new ≡ came_out self.old ++ b ∷ []) }
        ensures first { IfSome result (λ b. IsPrefix (known_ahead self.old) (b ∷ known_ahead self.new)) }
        ensures none { IfNone result (came_out self.new ≡ came_out self.old) }
        ensures none_known { IfNone result ((known_ahead self.old ≡ []) × (known_ahead self.new ≡ [])) }
        ensures ended { self.old.ended ≡ true → (result ≡ None) × (received self.new.ring ≡ received self.old.ring) × (self.new.ended ≡ true) }
    {
        if self.ended {
            return None;
        }
        match self.ring.pop() {
            Ok(Item::Buffer(buffer)) => Some(buffer),
            Ok(Item::End) => {
                // Nothing follows the end, so there is nothing to find.
                let Err(_) = self.ring.pop() else {
                    unreachable!()
                };
                self.ended = true;
                None
            }
            Err(_) => None,
        }
    }

    /// Returns whether the sender is gone. No contract speaks of the result.
    pub(crate) fn is_abandoned(&mut self) -> bool
        ensures ring { SameConsumer self.old.ring self.new.ring }
        ensures came { (received self.new.ring ≡ received self.old.ring) × (self.new.ended ≡ self.old.ended) }
        ensures known { IsPrefix (known_ahead self.old) (known_ahead self.new) }
    {
        self.ended || self.ring.is_abandoned()
    }

    /// Returns how many posts are in the ring, for a thread that holds both ends.
    pub(crate) fn beside(&mut self, outgoing: &mut OutgoingPosts) -> usize
        requires { IsPair outgoing.old.ring self.old.ring }
        ensures ring { SameConsumer self.old.ring self.new.ring × SameProducer outgoing.old.ring outgoing.new.ring }
        ensures came { received self.new.ring ≡ received self.old.ring }
        ensures known { IsPrefix (known_ahead self.old) (known_ahead self.new) }
        ensures sent { sent outgoing.new.ring ≡ sent outgoing.old.ring }
        ensures places { 5 ≤ known_free outgoing.new.ring + length (known_ahead self.new) }
        ensures split { came_out self.new ++ known_ahead self.new ≡ put_in outgoing.new }
        ensures count { (result ≡ length (known_ahead self.new)) × (result ≤ 5) }
    {
        outgoing.ring.slots_beside(&mut self.ring);
        self.ring.slots_beside(&mut outgoing.ring)
    }

    /// Returns how many posts are in the ring, after its other end has finished.
    pub(crate) fn after(&mut self, end: &mut PostsEnd) -> usize
        requires { IsFinishedOf end.old.items self.old.ring }
        ensures ring { SameConsumer self.old.ring self.new.ring }
        ensures end { IsFinishedOf end.new.items self.new.ring × (all_sent end.new.items ≡ all_sent end.old.items) }
        ensures came { received self.new.ring ≡ received self.old.ring }
        ensures known { IsPrefix (known_ahead self.old) (known_ahead self.new) }
        ensures split { came_out self.new ++ known_ahead self.new ≡ posts_of (all_sent end.old.items) }
        ensures count { (result ≡ length (known_ahead self.new)) × (result ≤ 5) }
    {
        let items = self.ring.slots_after(&mut end.items);
        if self.ended { 0 } else { items - 1 }
    }
}
