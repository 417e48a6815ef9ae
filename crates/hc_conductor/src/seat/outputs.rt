//! Outputs that a task holds and posts at its seat.
ghost use Rattle.std.specs.Prelude.{◌≡◌, ◌<◌, ◌≤◌, ◌↔◌, [], ◌∷◌, ◌++◌, IfOk, IfSome, IsErrOf, IsOk, IsSome, None, OnErr, OnOk, false, length, replicate, true};
ghost use Rattle.std.specs.Borrow.{sem};
ghost use Rattle.hc_rings.specs.declared.posts.TheConstants.{POSTS_WAITING};
ghost use Rattle.hc_rings.specs.Ring.{SameSender, known_places, known_spares};
ghost use Rattle.hc_rings.specs.declared.posts.holding.PostFault.TheVariants.{Full, NoBuffer};
ghost use Rattle.hc_conductor.specs.Outputs.{HoldsNone, HoldsOutputs, SeatLendsHeld, SeatLendsOutputs, SameSeat, blank_outputs};
ghost use Rattle.hc_conductor.specs.Seats.{SeatPostsEach, seat_held, seat_posted, sender, outputs_size};

use super::TaskSeat;
use hc_rings::{NoSpare, PostFault};

impl TaskSeat {
    /// Holds zeros for the next post, as many as the task has output bytes in the epoch that was viewed last, or in the
    /// opening's before any view. They lie in the buffer that is held already, or in a free one. Fails with `NoSpare` if none
    /// is held and no buffer is free: only after four posts, and never if a free buffer is known. It allocates nothing and
    /// waits for nobody.
    pub fn hold(&mut self) -> Result<(), NoSpare>
        ensures held { OnOk result (HoldsOutputs self.old self.new (blank_outputs self.old) × IsSome (seat_held self.new)) }
        ensures none_held { OnErr result (HoldsNone self.old self.new) }
        ensures posts_each { SeatPostsEach self.old → OnErr result (POSTS_WAITING ≤ length (seat_posted self.old)) }
        ensures known { 0 < known_spares (sender self.old) → IsOk result }
        ensures places { known_places (sender self.new) ≡ known_places (sender self.old) }
    {
        self.posts
            .hold(self.viewer.epoch, usize::from(self.viewer.size))
    }

    /// Lends the held outputs for writing. Their epoch and the number of bytes stay.
    pub fn held_mut(&mut self) -> &mut [u8]
        requires { IsSome (seat_held self.old) }
        ensures* lent { sem 𝓛 (SeatLendsHeld self.entry result) }
        ensures bytes { IfSome (seat_held self.old) (λ post. result.now ≡ post.bytes) }
    {
        self.posts.held_mut()
    }

    /// Holds zeros for the next post, and returns whether a buffer was free. If none was, four posts were made.
    fn holds_zeros(&mut self) -> bool
        ensures held { result ≡ true → HoldsOutputs self.old self.new (blank_outputs self.old) × IsSome (seat_held self.new) }
        ensures no_spare { result ≡ false → HoldsNone self.old self.new }
        ensures posts_each { SeatPostsEach self.old → result ≡ false → POSTS_WAITING ≤ length (seat_posted self.old) }
    {
        self.hold().is_ok()
    }

    /// Lends zeros for the next post, as many as the task has output bytes in the epoch that was viewed last, or in the
    /// opening's before any view. A second call before a post lends the same buffer, zeros again, for the epoch that was viewed
    /// last by then. Fails with `NoSpare` if none is held and no buffer is free: only after four posts. It allocates nothing
    /// and waits for nobody.
    ///
    /// It is `hold` and `held_mut` in one call. Its proof is by hand, and a caller with a generated proof learns nothing of the
    /// seat after it.
    pub fn outputs(&mut self) -> Result<&mut [u8], NoSpare>
        ensures* lent { sem 𝓛 (SeatLendsOutputs self.entry result) }
        ensures zeros { IfOk result (λ bytes. bytes.now ≡ replicate (outputs_size self.old) 0) }
        ensures none_held { OnErr result (seat_held self.old ≡ None) }
        ensures posts_each { SeatPostsEach self.old → OnErr result (POSTS_WAITING ≤ length (seat_posted self.old)) }
    {
        if self.holds_zeros() {
            return Ok(self.held_mut());
        }
        Err(NoSpare)
    }

    /// Posts the held outputs as they are, for the epoch that they are held for. It allocates nothing and waits for nobody.
    /// Fails with one of these; then the outputs stay held:
    ///
    /// - `NoBuffer`: exactly if none are held.
    /// - `Full`: only after four posts, and never if a free place is known.
    pub fn post(&mut self) -> Result<(), PostFault>
        ensures seat { SameSeat self.old self.new }
        ensures ring { SameSender (sender self.old) (sender self.new) }
        ensures no_buffer { IsErrOf result NoBuffer ↔ (seat_held self.old ≡ None) }
        ensures ok { OnOk result (IfSome (seat_held self.old) (λ post. seat_posted self.new ≡ seat_posted self.old ++ post ∷ []) × (seat_held self.new ≡ None)) }
        ensures err { OnErr result ((seat_posted self.new ≡ seat_posted self.old) × (seat_held self.new ≡ seat_held self.old)) }
        ensures full_only_after_four { IsErrOf result Full → POSTS_WAITING ≤ length (seat_posted self.old) }
        ensures full_where_no_place { IsErrOf result Full → known_places (sender self.old) ≤ 1 }
        ensures posts_each { SeatPostsEach self.old → SeatPostsEach self.new }
    {
        self.posts.post_held()
    }
}
