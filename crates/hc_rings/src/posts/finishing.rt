//! The end of a sender, shown to the receiver, who then knows all that was posted and what is left of it.
ghost use Rattle.std.specs.Prelude.{◌≡◌, true};
ghost use Rattle.rtrb.specs.Ring.{all_sent};
ghost use Rattle.hc_rings.specs.Items.{posts_of, items_of};

use super::{PostReceiver, PostSender};
use crate::item::{EndComesLast, Item};
use rtrb::Finished;
use std::alloc::Global;

/// All that a sender posted, after it ended. It may go to the receiver's thread, and owns no memory.
#[derive(Drop)]
pub struct PostsEnd {
    pub(crate) items: Finished<Item, Global, EndComesLast>,
    ghost ended: { all_sent items ≡ items_of (posts_of (all_sent items)) true },
}

impl PostSender {
    ghost use Rattle.std.specs.Prelude.{◌≡◌, IfSome};
    ghost use Rattle.hc_rings.specs.Ring.{posted, ArePostEnds};
    ghost use Rattle.hc_rings.specs.Finished.{all_posted, IsEndOf};
    ghost use Rattle.hc_rings.specs.declared.posts.PostReceiver.{PostReceiver as Receiver};

    /// Ends the sender, and returns all that it posted. A buffer that it holds is dropped, and is no post. `None` if the
    /// receiver is gone.
    pub fn finish(self) -> Option<PostsEnd>
        ensures end { IfSome result (λ end. (receiver : Receiver) → ArePostEnds self receiver → IsEndOf end receiver) }
        ensures posted { IfSome result (λ end. all_posted end ≡ posted self) }
    {
        let PostSender {
            posts,
            spares: _,
            held: _,
        } = self;
        posts.finish()
    }
}

impl PostReceiver {
    ghost use Rattle.std.specs.Prelude.{◌≡◌, ◌++◌, length};
    ghost use mathlib.Core.List.{IsPrefix};
    ghost use Rattle.hc_rings.specs.Ring.{taken, left, given_back, SameReceiver};
    ghost use Rattle.hc_rings.specs.Finished.{all_posted, IsEndOf};

    /// Returns how many posts are left, after the sender has finished: the taken posts and those that are left are all that
    /// were posted.
    pub fn finish_after(&mut self, end: &mut PostsEnd) -> u32
        requires { IsEndOf end.old self.old }
        ensures ring { SameReceiver self.old self.new }
        ensures end { IsEndOf end.new self.new × (all_posted end.new ≡ all_posted end.old) }
        ensures taken { (taken self.new ≡ taken self.old) × IsPrefix (left self.old) (left self.new) }
        ensures split { taken self.new ++ left self.new ≡ all_posted end.old }
        ensures count { result ≡ length (left self.new) }
        ensures given_back { given_back self.new ≡ given_back self.old }
    {
        let waiting = self.posts.after(end);
        (self.rest.len() + waiting) as u32
    }
}
