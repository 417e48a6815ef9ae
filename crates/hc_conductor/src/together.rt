//! Posts, for a thread that holds the conductor and all its seats: the posts that wait are known, and all of them are taken.
ghost use Rattle.std.specs.Prelude.{◌≡◌, All, [], length, map};
ghost use Rattle.hc_events.specs.Steps.{entries_after_all};
ghost use Rattle.hc_rings.specs.Ring as ring;
ghost use Rattle.hc_conductor.specs.Conducting.{SameChanges, core_history};
ghost use Rattle.hc_conductor.specs.Seats.{sender, viewer_of};
ghost use Rattle.hc_conductor.specs.Taking.{CountsPosts, events_of_all};
ghost use Rattle.hc_conductor.specs.Together.{AreJoined, EachRing, LostNoBuffer, KnowAll, posts_waiting};

use crate::conductor::Conductor;
use crate::seat::TaskSeat;
use crate::taking::{PostRule, Taken, take_all};
use hc_records::limits::TASKS;
use hc_rings::PostReceiver;

/// Brings both ends of each ring up to date with one another, and writes the number of waiting posts to `counts`. There are at
/// most eight rings, which bounds the recursion.
fn look(rings: &mut [PostReceiver], seats: &mut [TaskSeat], counts: &mut [u32])
    requires joined { EachRing AreJoined (map sender seats.old) rings.old }
    requires each { length counts.old ≡ length seats.old }
    ensures known { EachRing KnowAll (map sender seats.new) rings.new }
    ensures whole { EachRing LostNoBuffer (map sender seats.old) rings.old → EachRing LostNoBuffer (map sender seats.new) rings.new }
    ensures viewers { map viewer_of seats.new ≡ map viewer_of seats.old }
    ensures held { map ring.held (map sender seats.new) ≡ map ring.held (map sender seats.old) }
    ensures waiting { posts_waiting (map sender seats.new) rings.new ≡ posts_waiting (map sender seats.old) rings.old }
    ensures counts { counts.new ≡ map length (posts_waiting (map sender seats.old) rings.old) }
{
    let Some((seat, other_seats)) = seats.split_first_mut() else {
        return;
    };
    let Some((ring, other_rings)) = rings.split_first_mut() else {
        unreachable!()
    };
    let Some((count, other_counts)) = counts.split_first_mut() else {
        unreachable!()
    };
    *count = ring.beside(&mut seat.posts);
    look(other_rings, other_seats, other_counts);
}

impl Conductor {
    /// Returns how many posts of each task wait, task i's at index i. The thread holds the conductor and all its seats, in the
    /// order of their tasks, even if they worked in threads of their own before. Each seat then knows of a place for every post
    /// that does not wait, and of every free buffer. Its next `post` does not fail for a missing place. Its next `hold` fails
    /// exactly if four of its posts wait, unless its ring lost a buffer. It allocates nothing and waits for nobody.
    pub fn posts_waiting(&mut self, seats: &mut [TaskSeat]) -> [u32; TASKS as usize]
        requires { EachRing AreJoined (map sender seats.old) self.old.rings }
        ensures known { EachRing KnowAll (map sender seats.new) self.new.rings }
        ensures whole { EachRing LostNoBuffer (map sender seats.old) self.old.rings → EachRing LostNoBuffer (map sender seats.new) self.new.rings }
        ensures viewers { map viewer_of seats.new ≡ map viewer_of seats.old }
        ensures held { map ring.held (map sender seats.new) ≡ map ring.held (map sender seats.old) }
        ensures waiting { posts_waiting (map sender seats.new) self.new.rings ≡ posts_waiting (map sender seats.old) self.old.rings }
        ensures counts { result ≡ map length (posts_waiting (map sender seats.old) self.old.rings) }
        ensures record { core_history self.new ≡ core_history self.old }
        ensures changes { SameChanges self.old self.new }
    {
        let mut counts = [0; TASKS as usize];
        look(&mut self.rings, seats, &mut counts);
        counts
    }

    /// Takes all posts of the tasks, and hands each to the core for its epoch: the tasks ascending, each task's posts in order.
    /// The thread holds the conductor and all its seats, in the order of their tasks. A refused post changes nothing. Each
    /// buffer goes back to its seat. It allocates nothing and waits for nobody.
    pub fn take_all_posts(&mut self, seats: &mut [TaskSeat]) -> Taken
        requires { EachRing AreJoined (map sender seats.old) self.old.rings }
        ensures entries { core_history self.new ≡ entries_after_all (core_history self.old) (events_of_all 0 (posts_waiting (map sender seats.old) self.old.rings)) }
        ensures counts { CountsPosts (core_history self.old) (events_of_all 0 (posts_waiting (map sender seats.old) self.old.rings)) result }
        ensures changes { SameChanges self.old self.new }
        ensures joined { EachRing AreJoined (map sender seats.new) self.new.rings }
        ensures whole { EachRing LostNoBuffer (map sender seats.old) self.old.rings → EachRing LostNoBuffer (map sender seats.new) self.new.rings }
        ensures none { All (λ posts. posts ≡ []) (posts_waiting (map sender seats.new) self.new.rings) }
        ensures viewers { map viewer_of seats.new ≡ map viewer_of seats.old }
        ensures held { map ring.held (map sender seats.new) ≡ map ring.held (map sender seats.old) }
    {
        let counts = self.posts_waiting(seats);
        take_all(
            &mut self.core,
            PostRule::Present,
            0,
            &mut self.rings,
            &counts,
        )
    }
}
