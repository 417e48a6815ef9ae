//! Rings that carry owned buffers from one thread to one other: posts of output bytes, whose buffers return as spares, and
//! frames.
//!
//! The taken items followed by those that are left are the posted ones. A caller knows this by `beside` with both ends in hand,
//! or by `finish_after` with the end that the sender's own `finish` returned. After a plain drop of the sender
//! `PostReceiver::finish` returns how many posts are left, and says that nothing follows them; it ties them to no list of the
//! sender. Once a ring is made, none of its calls allocates or waits. Only tests show that a post is found by a `take` before
//! the end, that a spare or a place is found again after four posts, and that both `finish` return once the sender is gone.
#![tactic(auto)]

mod frames;
mod incoming;
mod item;
pub mod laws;
mod outgoing;
mod post_buffer;
mod posts;
mod spares;

pub use frames::{FrameBox, FrameReceiver, FrameSender, LARGEST_FRAME, frame_ring};
pub use post_buffer::{LARGEST_IMAGE, PostBuffer};
pub use posts::{
    Full, NoSpare, POSTS_WAITING, PostFault, PostReceiver, PostSender, PostsEnd, SPARE_BUFFERS,
    post_ring,
};
