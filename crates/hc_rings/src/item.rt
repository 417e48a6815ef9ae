//! The items of a post ring and their order.
ghost use Rattle.hc_rings.specs.Items.{EndIsLast};

use crate::post_buffer::PostBuffer;
use rtrb::Protocol;

/// A post, or the end that the sender stores when it is dropped.
#[derive(Drop)]
pub(crate) enum Item {
    Buffer(PostBuffer),
    End,
}

/// Nothing follows the end.
#[derive(Clone, Copy)]
pub(crate) struct EndComesLast;

impl Protocol<Item> for EndComesLast {
    ghost allows = { EndIsLast };
}
