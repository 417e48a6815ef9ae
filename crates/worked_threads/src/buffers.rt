//! A full ring, and the buffers of one.
use crate::posting::Step::{Held, Post, Take};
use crate::posting::{Step, Taking, all_done, post_four, takes_four};
use hc_rings::{Full, LARGEST_IMAGE, NoSpare, PostFault, post_ring};
use std::alloc::{AllocError, Global};
use std::test::Fail;

/// True if a full ring hands back a buffer of another ring, with its epoch and its bytes. If that buffer is given back to it
/// after its own four, it has no place among the spares and is dropped.
fn hands_back(alloc: Global) -> Result<bool, AllocError> {
    let (mut sender, mut receiver) = post_ring(alloc)?;
    let (mut other, _) = post_ring(alloc)?;
    let Ok(mut buffer) = other.buffer() else {
        return Ok(false);
    };
    buffer.begin(70, 2);
    buffer.bytes_mut().fill(5);
    let is_full = post_four(&mut sender, &[0, 0, 0]);
    let Err(Full(buffer)) = sender.post(buffer) else {
        return Ok(false);
    };
    let is_same = buffer.epoch() == 70 && buffer.bytes() == [5, 5].as_slice();
    let is_empty = takes_four(&mut receiver, &[0, 0, 0]);
    receiver.give_back(buffer);
    let is_full_again = post_four(&mut sender, &[0, 0, 0]) && sender.buffer().is_err();
    Ok(is_full && is_same && is_empty && is_full_again)
}

const THREE_POSTS: [Step; 3] = [Post(0, [0, 0, 0]), Post(1, [0, 0, 0]), Post(2, [0, 0, 0])];

/// The steps once the ring is full.
const HELD_LAST: [Step; 7] = [
    Held(Err(PostFault::Full)),
    Take(Taking::Post(0, [0, 0, 0])),
    Held(Ok(())),
    Take(Taking::Post(1, [0, 0, 0])),
    Take(Taking::Post(2, [0, 0, 0])),
    Take(Taking::Post(3, [0, 0, 0])),
    Take(Taking::Post(70, [5, 5, 5])),
];

/// True if a ring that was filled with a buffer of another ring keeps the buffer that is held for the epoch 70, and posts it
/// last.
fn keeps_held(alloc: Global) -> Result<bool, AllocError> {
    let (mut sender, mut receiver) = post_ring(alloc)?;
    let (mut other, _) = post_ring(alloc)?;
    let is_begun = all_done(&mut sender, &mut receiver, &THREE_POSTS);
    if sender.hold(70, 3).is_err() {
        return Ok(false);
    }
    sender.held_mut().fill(5);
    let Ok(mut buffer) = other.buffer() else {
        return Ok(false);
    };
    buffer.begin(3, 3);
    let is_full = sender.post(buffer).is_ok();
    let is_unchanged = all_done(&mut sender, &mut receiver, &HELD_LAST);
    Ok(is_begun && is_full && is_unchanged)
}

/// A ring with four posts takes no fifth one: it hands the buffer back, and a held buffer stays held.
#[test]
fn a_full_ring_takes_no_fifth_post(rt: HostRuntime) -> Result<(), Fail> {
    let alloc = rt.alloc();
    assert_eq!(rt; (hands_back(alloc)?, keeps_held(alloc)?), (true, true));
    Ok(())
}

/// A new buffer is empty. It takes the largest image, and has only zeros once it is begun again.
#[test]
fn a_buffer_begins_anew(rt: HostRuntime) -> Result<(), Fail> {
    let (mut sender, _) = post_ring(rt.alloc())?;
    let is_well = match sender.buffer() {
        Ok(mut buffer) => {
            let is_empty = (buffer.epoch(), buffer.bytes().len()) == (0, 0);
            buffer.begin(4_294_967_295, LARGEST_IMAGE);
            buffer.bytes_mut().fill(255);
            let is_largest = (buffer.epoch(), buffer.bytes().len()) == (4_294_967_295, 23_776);
            let is_filled = buffer.bytes() == [255; LARGEST_IMAGE].as_slice();
            buffer.begin(1, 4);
            let is_anew = buffer.epoch() == 1 && buffer.bytes() == [0; 4].as_slice();
            is_empty && is_largest && is_filled && is_anew
        }
        Err(NoSpare) => false,
    };
    assert!(rt; is_well);
    Ok(())
}
