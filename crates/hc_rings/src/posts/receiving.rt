//! The conductor's end of a ring of posts.
ghost use Rattle.std.specs.Prelude.{◌≡◌, ◌+◌, ◌<◌, ◌≤◌, ◌⊎◌, [], ◌∷◌, ◌++◌, List, length, IsSome, IfSome, IfNone};
ghost use mathlib.Core.List.{IsPrefix};
ghost use Rattle.hc_rings.specs.Post.{Post};
ghost use Rattle.hc_rings.specs.Ring.{posted, handed_out, held, known_places, known_spares, taken, left, given_back, spare_places, EndCameAfter, ArePostEnds, SameSender, SameReceiver};

use super::{POSTS_WAITING, PostReceiver, PostSender, SPARE_BUFFERS};
use crate::post_buffer::PostBuffer;

impl PostReceiver {
    /// Takes the oldest post, or returns `None` if none is found. The sender may post at any time.
    pub fn take(&mut self) -> Option<PostBuffer>
        ensures ring { SameReceiver self.old self.new }

        // The taken post is the first that was known to be left; more may be known afterwards.
        ensures some { IfSome result (λ b. taken self.new ≡ taken self.old ++ b ∷ []) }
        ensures first { IfSome result (λ b. IsPrefix (left self.old) (b ∷ left self.new)) }

        // A post that is known to be left is taken.
        ensures none { IfNone result (taken self.new ≡ taken self.old) }
        ensures none_left { IfNone result ((left self.old ≡ []) × (left self.new ≡ [])) }

        ensures places { spare_places self.new ≡ spare_places self.old }
        ensures end { (posts : List Post) → EndCameAfter self.old posts → EndCameAfter self.new posts }
        ensures given_back { given_back self.new ≡ given_back self.old }
    {
        if let Some(buffer) = self.rest.pop_front() {
            return Some(buffer);
        }
        self.posts.next()
    }

    /// Returns a buffer to the spares, for the sender to fill again. It is dropped if no place is found.
    pub fn give_back(&mut self, buffer: PostBuffer)
        ensures ring { SameReceiver self.old self.new }
        ensures taken { (taken self.new ≡ taken self.old) × (left self.new ≡ left self.old) }
        ensures end { (posts : List Post) → EndCameAfter self.old posts → EndCameAfter self.new posts }

        // It is dropped only if no place is known, even after a look.
        ensures given_back { (given_back self.new ≡ given_back self.old ++ buffer ∷ [])
            ⊎ ((given_back self.new ≡ given_back self.old) × (spare_places self.new ≡ 0)) }
        ensures stored { 0 < spare_places self.old → given_back self.new ≡ given_back self.old ++ buffer ∷ [] }
        ensures places { spare_places self.old ≤ spare_places self.new + 1 }
    {
        let _ = self.spares.push(buffer);
    }

    /// Returns how many posts are left, after the sender is gone; `None` while it may still post. After `Some(n)` the next `n`
    /// calls of `take` return a post each, and then there is none.
    pub fn finish(&mut self) -> Option<u32>
        ensures ring { SameReceiver self.old self.new }
        ensures taken { (taken self.new ≡ taken self.old) × IsPrefix (left self.old) (left self.new) }
        ensures end { IfSome result (λ _. EndCameAfter self.new (taken self.new ++ left self.new)) }
        ensures count { IfSome result (λ n. n ≡ length (left self.new)) }
        ensures again { (posts : List Post) → EndCameAfter self.old posts → IsSome result × EndCameAfter self.new posts }
        ensures given_back { given_back self.new ≡ given_back self.old }
    {
        self.look_for_end();
        if self.posts.ended {
            Some(self.rest.len() as u32)
        } else {
            None
        }
    }

    /// Returns how many posts are left, for a thread that holds both ends: the taken posts and those that are left are all that
    /// were posted. Each end then knows what the other did: the sender a place for each post that is not left, and each spare
    /// buffer that is not handed out; the receiver a place for each buffer that is.
    pub fn beside(&mut self, sender: &mut PostSender) -> u32
        requires { ArePostEnds sender.old self.old }
        ensures ring { SameReceiver self.old self.new × SameSender sender.old sender.new }
        ensures taken { (taken self.new ≡ taken self.old) × IsPrefix (left self.old) (left self.new) }
        ensures posted { (posted sender.new ≡ posted sender.old) × (handed_out sender.new ≡ handed_out sender.old) }
        ensures held { held sender.new ≡ held sender.old }
        ensures split { taken self.new ++ left self.new ≡ posted sender.new }
        ensures places { POSTS_WAITING + 1 ≤ known_places sender.new + length (left self.new) }
        ensures spares { known_spares sender.new + handed_out sender.new ≡ length (given_back self.new) }
        ensures spare_places { SPARE_BUFFERS + handed_out sender.new ≤ spare_places self.new + length (given_back self.new) }
        ensures count { result ≡ length (left self.new) }
        ensures given_back { given_back self.new ≡ given_back self.old }
    {
        self.spares.slots_beside(&mut sender.spares.ring);
        sender.spares.ring.slots_beside(&mut self.spares);
        let waiting = self.posts.beside(&mut sender.posts);
        (self.rest.len() + waiting) as u32
    }

    /// Moves the posts in the ring to `rest`, up to the end, after the sender is gone: at most four.
    fn look_for_end(&mut self)
        ensures ring { SameReceiver self.old self.new }
        ensures taken { (taken self.new ≡ taken self.old) × IsPrefix (left self.old) (left self.new) }
        ensures again { (posts : List Post) → EndCameAfter self.old posts → EndCameAfter self.new posts }
        ensures given_back { given_back self.new ≡ given_back self.old }
    {
        if !self.posts.is_abandoned() {
            return;
        }
        while self.rest.len() <= POSTS_WAITING {
            let Some(buffer) = self.posts.next() else {
                return;
            };
            self.rest.push_back_reserved(buffer);
        }
    }
}
