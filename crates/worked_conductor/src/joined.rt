//! Seats that post while the conductor takes posts, and then all in one thread with it: all waiting posts are taken.
ghost use Rattle.std.specs.Prelude.{List, map};
ghost use Rattle.hc_rings.specs.declared.posts.PostReceiver.{PostReceiver};
ghost use Rattle.hc_conductor.specs.Seats.{sender};
ghost use Rattle.hc_conductor.specs.Together.{AreJoined, EachRing};

use crate::lines::opening;
use crate::posting::{accepted, is_posted};
use hc_conductor::conductor::Conductor;
use hc_conductor::seat::TaskSeat;
use hc_conductor::taking::Taken;
use hc_publish::faults::OpenFault;
use std::alloc::Global;
use std::sync::Wait;

/// Each seat posts, and the number of posts made is returned. It is proved that joined rings stay joined. The recursion is as
/// deep as the number of seats, eight.
fn posted(seats: &mut [TaskSeat]) -> u32
    ensures { (rings : List PostReceiver) → EachRing AreJoined (map sender seats.old) rings → EachRing AreJoined (map sender seats.new) rings }
{
    let Some((seat, others)) = seats.split_first_mut() else {
        return 0;
    };
    let one = u32::from(is_posted(seat, 0));
    posted(others).saturating_add(one)
}

/// The number of posts before a taking, the posts it took, the number of posts after it, and the posts of two takings by a
/// thread that has all seats again.
type Joined = (u32, Taken, u32, Taken, Taken);

/// All seats post, some posts are taken, all seats post twice, and all posts are taken. The one precondition is that the rings
/// are joined, which they are at the opening.
fn all_taken(conductor: &mut Conductor, seats: &mut [TaskSeat]) -> Joined
    requires { EachRing AreJoined (map sender seats.old) conductor.old.rings }
{
    let first = posted(seats);
    let some = conductor.take_posts();
    let second = posted(seats).saturating_add(posted(seats));
    let all = conductor.take_all_posts(seats);
    let none = conductor.take_all_posts(seats);
    (first, some, second, all, none)
}

/// The posts before and after a taking, from the axis' opening on.
fn all_taken_on_axis<R: Wait>(rt: &R, alloc: Global) -> Result<Joined, OpenFault> {
    let (mut conductor, mut seats) = opening(rt, alloc)?;
    let joined = all_taken(&mut conductor, &mut seats);
    conductor.finish(rt);
    Ok(joined)
}

/// All waiting posts are taken once one thread has the conductor and all seats, whatever was taken before.
#[test]
fn all_is_taken_after_other_takings(rt: HostRuntime) {
    assert_eq!(rt;
        all_taken_on_axis(&rt, rt.alloc()),
        Ok((8, accepted(8), 16, accepted(16), accepted(0)))
    );
}
