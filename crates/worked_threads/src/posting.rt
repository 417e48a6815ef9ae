//! Steps of the two ends of a ring of posts, each with its result.
ghost use Rattle.std.specs.Prelude.{◌≡◌, ◌≤◌, [], ◌∷◌, ◌++◌, length, IsTrue};
ghost use Rattle.hc_rings.specs.Post.{post_of};
ghost use Rattle.hc_rings.specs.Ring.{posted, SameReceiver, SameSender};

use hc_rings::{LARGEST_IMAGE, NoSpare, PostFault, PostReceiver, PostSender};

/// Posts these bytes for this epoch. True if they are posted.
pub fn post(sender: &mut PostSender, epoch: u32, bytes: &[u8; 3]) -> bool
    ensures { SameSender sender.old sender.new }
{
    let Ok(mut buffer) = sender.buffer() else {
        return false;
    };
    buffer.begin(epoch, 3);
    for (to, from) in buffer.bytes_mut().iter_mut().zip(bytes) {
        *to = *from;
    }
    sender.post(buffer).is_ok()
}

/// Posts these bytes for each of the epochs 0 to 3. True if all four are posted.
pub fn post_four(sender: &mut PostSender, bytes: &[u8; 3]) -> bool {
    for epoch in 0..4 {
        if !post(sender, epoch, bytes) {
            return false;
        }
    }
    true
}

/// Posts these bytes for this epoch, from the buffer that the sender holds. True if they are posted.
fn post_held_bytes(sender: &mut PostSender, epoch: u32, bytes: &[u8]) -> bool
    requires { length bytes.now ≤ LARGEST_IMAGE }
    ensures { IsTrue result → posted sender.new ≡ posted sender.old ++ post_of epoch bytes.now ∷ [] }
{
    if sender.hold(epoch, bytes.len()).is_err() {
        return false;
    }
    sender.held_mut().copy_from_slice(bytes);
    sender.post_held().is_ok()
}

/// Begins outputs of this size. True if they are zeros. Each is then the byte.
fn begins_outputs(sender: &mut PostSender, epoch: u32, size: usize, byte: u8) -> bool
    requires { size ≤ LARGEST_IMAGE }
{
    match sender.outputs(epoch, size) {
        Ok(outputs) => {
            let is_zero = &*outputs == &[0; LARGEST_IMAGE][..size];
            outputs.fill(byte);
            is_zero
        }
        Err(NoSpare) => false,
    }
}

/// Takes the next post, and gives its buffer back. True if it is for this epoch and has these bytes.
pub fn takes(receiver: &mut PostReceiver, epoch: u32, bytes: &[u8; 3]) -> bool
    ensures { SameReceiver receiver.old receiver.new }
{
    let Some(buffer) = receiver.take() else {
        return false;
    };
    let same = buffer.epoch() == epoch && buffer.bytes() == bytes.as_slice();
    receiver.give_back(buffer);
    same
}

/// Takes the next four posts. True if they are for the epochs 0 to 3 and have these bytes.
pub fn takes_four(receiver: &mut PostReceiver, bytes: &[u8; 3]) -> bool {
    for epoch in 0..4 {
        if !takes(receiver, epoch, bytes) {
            return false;
        }
    }
    true
}

/// A call of a receiver, with its result.
pub enum Taking {
    /// The receiver takes a post with this epoch and these bytes, and gives its buffer back.
    Post(u32, [u8; 3]),
    /// The receiver takes posts with the epochs 0 to 3 and these bytes.
    Four([u8; 3]),
    /// The receiver finds no post.
    Nothing,
    /// The receiver returns the number of posts that are left, if it sees that the sender is gone.
    Left(Option<u32>),
}

/// True if a call of the receiver has its result.
fn comes(receiver: &mut PostReceiver, taking: &Taking) -> bool {
    match taking {
        Taking::Post(epoch, bytes) => takes(receiver, *epoch, bytes),
        Taking::Four(bytes) => takes_four(receiver, bytes),
        Taking::Nothing => receiver.take().is_none(),
        Taking::Left(left) => receiver.finish() == *left,
    }
}

/// True if all calls of the receiver have their results.
pub fn all_come(receiver: &mut PostReceiver, takings: &[Taking]) -> bool {
    for taking in takings {
        if !comes(receiver, taking) {
            return false;
        }
    }
    true
}

/// A step of one of the ends, with its result.
pub enum Step {
    /// A buffer is handed out for this epoch, and posted with these bytes.
    Post(u32, [u8; 3]),
    /// Buffers are handed out for the epochs 0 to 3, and each is posted with these bytes.
    PostFour([u8; 3]),
    /// A buffer is held for this epoch, and posted with these bytes.
    PostHeld(u32, [u8; 3]),
    /// This many outputs are begun for this epoch, and are zeros. Each is then the byte.
    Begin(u32, usize, u8),
    /// The held buffer is posted, or the post fails for this cause.
    Held(Result<(), PostFault>),
    /// No buffer is spare: none is handed out, and none can be held, neither by its size nor as outputs.
    NoSpare,
    /// The receiver makes this call.
    Take(Taking),
}

/// True if a step has its result.
fn is_done(sender: &mut PostSender, receiver: &mut PostReceiver, step: &Step) -> bool {
    match step {
        Step::Post(epoch, bytes) => post(sender, *epoch, bytes),
        Step::PostFour(bytes) => post_four(sender, bytes),
        Step::PostHeld(epoch, bytes) => post_held_bytes(sender, *epoch, bytes),
        Step::Begin(epoch, size, byte) => {
            *size <= LARGEST_IMAGE && begins_outputs(sender, *epoch, *size, *byte)
        }
        Step::Held(posted) => sender.post_held() == *posted,
        Step::NoSpare => {
            let none_is_handed_out = sender.buffer().is_err();
            let none_is_held = sender.hold(9, 5) == Err(NoSpare) && sender.outputs(9, 5).is_err();
            none_is_handed_out && none_is_held
        }
        Step::Take(taking) => comes(receiver, taking),
    }
}

/// True if all steps have their results, one after another.
pub fn all_done(sender: &mut PostSender, receiver: &mut PostReceiver, steps: &[Step]) -> bool {
    for step in steps {
        if !is_done(sender, receiver, step) {
            return false;
        }
    }
    true
}
