//! Posts and frames that go from thread to thread.
use hc_rings::{
    FrameBox, FrameReceiver, FrameSender, PostReceiver, PostSender, frame_ring, post_ring,
};
use std::test::Fail;
use std::thread;

/// The number of looks after which a thread gives up.
const TURNS: u32 = 10_000_000;

/// The number of posts that go from thread to thread.
const POSTS: u32 = 500;

/// Posts `POSTS` posts, each as soon as a buffer is back. True if all are posted.
fn post_all(mut sender: PostSender) -> bool {
    for number in 0..POSTS {
        if !post_waiting(&mut sender, number) {
            return false;
        }
    }
    true
}

/// Posts the post with this number once a buffer is free. True if it is posted within `TURNS` turns.
fn post_waiting(sender: &mut PostSender, number: u32) -> bool {
    for _ in 0..TURNS {
        if let Ok(mut buffer) = sender.buffer() {
            buffer.begin(number, number as usize % 7);
            buffer.bytes_mut().fill((number % 251) as u8);
            return sender.post(buffer).is_ok();
        }
        thread::yield_now();
    }
    false
}

/// Takes `POSTS` posts. True if they come as they were posted, in order, and then the end.
fn take_all(mut receiver: PostReceiver) -> bool {
    for number in 0..POSTS {
        if !takes_waiting(&mut receiver, number) {
            return false;
        }
    }
    sees_end(&mut receiver)
}

/// Takes the next post within `TURNS` turns, and gives its buffer back. True if it is the one with this number.
fn takes_waiting(receiver: &mut PostReceiver, number: u32) -> bool {
    for _ in 0..TURNS {
        if let Some(buffer) = receiver.take() {
            let bytes = &[(number % 251) as u8; 7][..number as usize % 7];
            let is_wanted = buffer.epoch() == number && buffer.bytes() == bytes;
            receiver.give_back(buffer);
            return is_wanted;
        }
        thread::yield_now();
    }
    false
}

/// True if the end comes within `TURNS` turns, and no post is left.
fn sees_end(receiver: &mut PostReceiver) -> bool {
    for _ in 0..TURNS {
        if receiver.finish() == Some(0) {
            return receiver.take().is_none();
        }
        thread::yield_now();
    }
    false
}

/// All 500 posts go from one thread to another, whole and in order.
#[test]
fn posts_go_from_thread_to_thread(rt: HostRuntime) -> Result<(), Fail> {
    let (sender, receiver) = post_ring(rt.alloc())?;
    let crossed = thread::join(&rt, move || post_all(sender), move || take_all(receiver));
    assert_eq!(rt; crossed, (true, true));
    Ok(())
}

/// The number of frames that go from thread to thread. Each holds its number and 1.
const FRAMES: u32 = 12;

/// Sends each frame as soon as there is a place. True if all are sent.
fn send_all(mut sender: FrameSender, frames: Vec<FrameBox>) -> bool {
    for frame in frames {
        if !send_waiting(&mut sender, frame) {
            return false;
        }
    }
    true
}

/// Sends a frame once the ring has a place. True if it is sent within `TURNS` turns.
fn send_waiting(sender: &mut FrameSender, frame: FrameBox) -> bool {
    let mut frame = frame;
    for _ in 0..TURNS {
        match sender.send(frame) {
            Ok(()) => return true,
            Err(back) => frame = back,
        }
        thread::yield_now();
    }
    false
}

/// Takes `FRAMES` frames. True if they come as they were sent, in order, and no other one.
fn take_frames(mut receiver: FrameReceiver) -> bool {
    for number in 0..FRAMES {
        if !takes_frame_waiting(&mut receiver, number) {
            return false;
        }
    }
    receiver.take().is_none()
}

/// Takes the next frame within `TURNS` turns. True if it is the one with this number.
fn takes_frame_waiting(receiver: &mut FrameReceiver, number: u32) -> bool {
    for _ in 0..TURNS {
        if let Some(frame) = receiver.take() {
            return frame.bytes() == [(number % 256) as u8, 1].as_slice();
        }
        thread::yield_now();
    }
    false
}

/// All 12 frames go from one thread to another, whole and in order, through a ring for three.
#[test]
fn frames_go_from_thread_to_thread(rt: HostRuntime) -> Result<(), Fail> {
    let alloc = rt.alloc();
    let mut frames = Vec::new(alloc);
    for number in 0..FRAMES {
        frames.push(FrameBox::of(alloc, &[(number % 256) as u8, 1])?)?;
    }
    let (sender, receiver) = frame_ring(alloc, 3)?;
    let crossed = thread::join(
        &rt,
        move || send_all(sender, frames),
        move || take_frames(receiver),
    );
    assert_eq!(rt; crossed, (true, true));
    Ok(())
}
