//! The two ends of a ring of posts: a task's seat posts at one, and the conductor takes at the other and returns the buffers.
ghost use Rattle.std.specs.Prelude.{◌≡◌, ◌≤◌, ◌++◌};
ghost use Rattle.std.specs.VecDeque.{deque_len, deque_capacity};
ghost use Rattle.rtrb.specs.Ring.{received, producer_capacity};
ghost use Rattle.hc_rings.specs.Items.{all_but, posts_of};

use crate::incoming::IncomingPosts;
use crate::outgoing::OutgoingPosts;
use crate::post_buffer::PostBuffer;
use crate::spares::SpareBuffers;
use rtrb::Producer;
use std::collections::VecDeque;

mod finishing;
mod holding;
mod opening;
mod receiving;
mod sending;

pub use finishing::PostsEnd;
pub use holding::PostFault;
pub use opening::post_ring;
pub use sending::{Full, NoSpare};

/// The most posts that wait in a ring.
pub const POSTS_WAITING: usize = 4;

/// The number of buffers that a ring has for its posts.
pub const SPARE_BUFFERS: usize = 4;

/// The end that posts. It may go to a thread of its own. When it is dropped the receiver learns that no post follows.
#[derive(Drop)]
pub struct PostSender {
    posts: OutgoingPosts,
    spares: SpareBuffers,
    // The buffer of the next post, from `outputs` on until it is posted.
    held: Option<PostBuffer>,
}

/// The end that takes posts and returns their buffers. It may go to a thread of its own.
#[derive(Drop)]
pub struct PostReceiver {
    posts: IncomingPosts,
    // Posts that came out of the ring ahead of its end and were not taken yet.
    rest: VecDeque<PostBuffer>,
    spares: Producer<PostBuffer>,
    ghost four: { producer_capacity spares ≡ 4 },
    ghost room: { (deque_len rest ≤ 5) × (5 ≤ deque_capacity rest) },
    ghost in_order: { all_but rest.items (posts_of (received posts.ring)) ++ rest.items ≡ posts_of (received posts.ring) },
}
