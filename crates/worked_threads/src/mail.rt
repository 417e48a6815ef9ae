//! The newest content goes from one thread to another through a mailbox: images of a task one way, its posts the other way.
ghost use Rattle.std.specs.Prelude.{◌≡◌};

use hc_mail::image::{ImageHead, LineState, TaskImage};
use hc_mail::opening::open;
use hc_mail::post::TaskPost;
use hc_mail::receiver::Receiver;
use hc_mail::sender::Sender;
use std::test::Fail;
use std::thread;

/// The number of contents that are sent at full speed.
const SENDINGS: u32 = 2_000;

/// The most looks for a content.
const TURNS: u32 = 100_000_000;

/// The head of an image of an epoch. The task's epoch is half of it, the first serial twice, the post that was taken last has the
/// next number, and it was refused if the epoch is odd.
fn head_of(epoch: u32) -> ImageHead {
    ImageHead {
        epoch,
        task_epoch: epoch / 2,
        first_serial: 2 * u64::from(epoch),
        taken: u64::from(epoch) + 1,
        is_refused: epoch % 2 == 1,
        line: LineState::Open,
    }
}

/// Sends an image of an epoch with two datagrams of two bytes. The second datagram has data, the epoch modulo 251, twice: they
/// answer the sending whose serial is the epoch. The same byte is the only output. Returns its number.
fn send_epoch(sender: &mut Sender<TaskImage>, epoch: u32) -> u64
    requires { sender.old.own.room ≡ (4, 2) }
    ensures room { sender.new.own.room ≡ (4, 2) }
    ensures one { sender.new.place.table_id ≡ sender.old.place.table_id }
{
    let byte = (epoch % 251) as u8;
    sender.begin(head_of(epoch));
    sender.add_zeros(2);
    sender.add(&[byte, byte], u64::from(epoch));
    sender.add_outputs(&[byte]);
    sender.send()
}

/// True if the numbers in an image's head are those of `head_of`.
fn has_head(image: &TaskImage) -> bool {
    let head = image.head();
    head.task_epoch == head.epoch / 2
        && head.first_serial == 2 * u64::from(head.epoch)
        && head.taken == u64::from(head.epoch) + 1
        && head.is_refused == (head.epoch % 2 == 1)
}

/// True if an image is whole: an epoch's as it was sent, or the blank one.
fn is_whole(image: &TaskImage) -> bool {
    let epoch = image.head().epoch;
    let byte = (epoch % 251) as u8;
    if epoch == 0 {
        return image.bytes().is_empty() && image.serials().is_empty() && image.outputs().is_empty();
    }
    has_head(image)
        && image.bytes() == [0, 0, byte, byte].as_slice()
        && image.serials() == [None, Some(u64::from(epoch))].as_slice()
        && image.outputs() == [byte].as_slice()
}

/// Sends the images of all epochs, one after another.
fn send_all(mut sender: Sender<TaskImage>)
    requires { sender.own.room ≡ (4, 2) }
{
    for epoch in 1..=SENDINGS {
        send_epoch(&mut sender, epoch);
    }
}

/// Looks until the last image is there, at most `TURNS` times. Returns the epoch of the last image seen, and true if each one
/// was whole, had its epoch as its number, and was not older than the one before.
fn watch(mut receiver: Receiver<TaskImage>) -> (bool, u32) {
    let mut epoch = 0;
    for _ in 0..TURNS {
        receiver.look();
        let image = receiver.content();
        let now = image.head().epoch;
        let is_newer = is_whole(image) && epoch <= now && receiver.number() == u64::from(now);
        epoch = now;
        if !is_newer {
            return (false, epoch);
        }
        if epoch == SENDINGS {
            break;
        }
        thread::yield_now();
    }
    (true, epoch)
}

/// Each image that a thread sees while 2,000 are sent is whole and not older than the one before, and the last one is seen.
#[test]
fn images_go_from_thread_to_thread(rt: HostRuntime) -> Result<(), Fail> {
    let (sender, receiver) = open(rt.alloc(), 4, 2)?;
    let ((), watched) = thread::join(&rt, move || send_all(sender), move || watch(receiver));
    assert_eq!(rt; watched, (true, SENDINGS));
    Ok(())
}

/// The epoch, the last byte and the number of the image that a receiver shows. No byte if the image has none.
fn shown(receiver: &Receiver<TaskImage>) -> (u32, Option<u8>, u64) {
    let image = receiver.content();
    (
        image.head().epoch,
        image.bytes().last().copied(),
        receiver.number(),
    )
}

/// A look shows the last image that was sent, with its number. Without a look the one before stays.
#[test]
fn a_look_shows_the_newest(rt: HostRuntime) -> Result<(), Fail> {
    let (mut sender, mut receiver) = open(rt.alloc(), 4, 2)?;
    let is_early = receiver.look();
    let blank = shown(&receiver);
    let first = send_epoch(&mut sender, 5);
    let second = send_epoch(&mut sender, 2);
    let before = shown(&receiver);
    let is_newer = receiver.look();
    let after = shown(&receiver);
    let is_again = receiver.look();
    assert_eq!(rt; (first, second), (1, 2));
    assert_eq!(rt; (is_early, is_newer, is_again), (false, true, false));
    assert_eq!(rt; (blank, before), ((0, None, 0), (0, None, 0)));
    assert_eq!(rt;
        (after, shown(&receiver)),
        ((2, Some(2), 2), (2, Some(2), 2))
    );
    Ok(())
}

/// A receiver sees the last image after the sender is dropped.
#[test]
fn an_end_goes_on_alone(rt: HostRuntime) -> Result<(), Fail> {
    let (mut sender, mut receiver) = open(rt.alloc(), 4, 2)?;
    send_epoch(&mut sender, 7);
    receiver.learn(sender.note());
    drop(sender.moved());
    receiver.look();
    let is_last = is_whole(receiver.content());
    assert_eq!(rt; (shown(&receiver), is_last), ((7, Some(7), 1), true));
    Ok(())
}

/// A receiver sees the image that the sender sent, also after the receiver was moved.
#[test]
fn what_was_seen_was_sent(rt: HostRuntime) -> Result<(), Fail> {
    let (mut sender, receiver) = open(rt.alloc(), 4, 2)?;
    send_epoch(&mut sender, 3);
    let mut receiver = receiver.moved();
    receiver.look();
    sender.check(receiver.note());
    assert_eq!(rt; shown(&receiver), (3, Some(3), 1));
    Ok(())
}

/// Posts for all epochs, one after another, the epoch modulo 251 as the only byte.
fn post_all(mut sender: Sender<TaskPost>)
    requires { sender.own.room ≡ 4 }
{
    for epoch in 1..=SENDINGS {
        sender.write(epoch, &[(epoch % 251) as u8]);
        sender.send();
    }
}

/// Looks until the last post is there, at most `TURNS` times. Returns the epoch of the last post taken, and true if each one
/// was whole, had its epoch as its number, and was newer than the one before.
fn take_all(mut receiver: Receiver<TaskPost>) -> (bool, u32) {
    let mut epoch = 0;
    for _ in 0..TURNS {
        if receiver.look() {
            let post = receiver.content();
            let now = post.epoch();
            let is_whole = post.bytes() == [(now % 251) as u8].as_slice();
            if !is_whole || now <= epoch || receiver.number() != u64::from(now) {
                return (false, now);
            }
            epoch = now;
        }
        if epoch == SENDINGS {
            break;
        }
        thread::yield_now();
    }
    (true, epoch)
}

/// Each post that a thread takes while 2,000 are made is whole and newer than the one before, and the last one is taken.
#[test]
fn posts_go_from_thread_to_thread(rt: HostRuntime) -> Result<(), Fail> {
    let (sender, receiver) = open(rt.alloc(), 4, 0)?;
    let ((), taken) = thread::join(&rt, move || post_all(sender), move || take_all(receiver));
    assert_eq!(rt; taken, (true, SENDINGS));
    Ok(())
}

/// A newer post replaces the one that waits, also a shorter one, and each is taken once.
#[test]
fn the_newest_post_is_taken(rt: HostRuntime) -> Result<(), Fail> {
    let (mut sender, mut receiver) = open::<TaskPost>(rt.alloc(), 4, 0)?;
    sender.write(1, &[1, 2, 3, 4]);
    let first = sender.send();
    sender.write(2, &[5]);
    let second = sender.send();
    let is_newer = receiver.look();
    let post = receiver.content();
    assert_eq!(rt;
        (first, second, is_newer, receiver.number()),
        (1, 2, true, 2)
    );
    assert_eq!(rt; (post.epoch(), post.bytes()), (2, [5].as_slice()));
    assert_eq!(rt; receiver.look(), false);
    Ok(())
}
