//! Opening of a ring of posts with its spare buffers.
ghost use Rattle.std.specs.Prelude.{◌≡◌, [], length, IfOk, None};
ghost use Rattle.rtrb.specs.Ring.{sent, received, known_items, producer_capacity, IsPair};
ghost use Rattle.hc_rings.specs.Ring.{posted, handed_out, held, taken, left, given_back, ArePostEnds};

use super::{POSTS_WAITING, PostReceiver, PostSender, SPARE_BUFFERS};
use crate::incoming::IncomingPosts;
use crate::item::EndComesLast;
use crate::outgoing::OutgoingPosts;
use crate::post_buffer::PostBuffer;
use crate::spares::SpareBuffers;
use rtrb::{Consumer, Producer, RingBuffer};
use std::alloc::{AllocError, Global};
use std::collections::VecDeque;

/// Returns the two ends of a ring of posts, with its four buffers among the spares. It allocates all the memory that the ring
/// needs; no later call of the two ends allocates. `AllocError` if an allocation fails, or if `rtrb` makes no such ring.
pub fn post_ring(alloc: Global) -> Result<(PostSender, PostReceiver), AllocError>
    ensures ends { IfOk result (λ r. ArePostEnds r.0 r.1) }
    ensures sender { IfOk result (λ r. (posted r.0 ≡ []) × (handed_out r.0 ≡ 0) × (held r.0 ≡ None)) }
    ensures receiver { IfOk result (λ r. (taken r.1 ≡ []) × (left r.1 ≡ []) × (length (given_back r.1) ≡ SPARE_BUFFERS)) }
{
    // One place is for the end that the sender leaves.
    let (posts_in, posts_out) = RingBuffer::with_protocol::<Global, EndComesLast>(
        alloc,
        POSTS_WAITING + 1,
    )?;
    let (spares_in, spares_out) = spares(alloc)?;
    let rest = VecDeque::with_capacity(alloc, POSTS_WAITING + 1)?;
    let sender = PostSender {
        posts: OutgoingPosts { ring: posts_in },
        spares: SpareBuffers { ring: spares_out },
        held: None,
    };
    let receiver = PostReceiver {
        posts: IncomingPosts {
            ring: posts_out,
            ended: false,
        },
        rest,
        spares: spares_in,
    };
    Ok((sender, receiver))
}

/// Returns a ring that is full of spare buffers, all of which its consumer knows.
fn spares(alloc: Global) -> Result<(Producer<PostBuffer>, Consumer<PostBuffer>), AllocError>
    ensures pair { IfOk result (λ r. IsPair r.0 r.1) }
    ensures four { IfOk result (λ r. producer_capacity r.0 ≡ SPARE_BUFFERS) }
    ensures full { IfOk result (λ r. (length (sent r.0) ≡ SPARE_BUFFERS) × (received r.1 ≡ []) × (length (known_items r.1) ≡ SPARE_BUFFERS)) }
{
    let (mut spares, mut taken) = RingBuffer::new(alloc, SPARE_BUFFERS)?;
    for _ in 0..SPARE_BUFFERS {
        spares.push_reserved(PostBuffer::new(alloc)?);
    }
    taken.slots_beside(&mut spares);
    Ok((spares, taken))
}
