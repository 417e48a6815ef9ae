//! Learning of what is published, for all seats.
ghost use Rattle.std.specs.Prelude.{◌≡◌, length, map, replicate};
ghost use mathlib.Core.List.{IsPrefix};
ghost use Rattle.hc_conductor.specs.Conducting.{conductor_published};
ghost use Rattle.hc_conductor.specs.Seats.{seat_known, task_seat_origin, sender, seat_task};
ghost use Rattle.hc_conductor.specs.Learning.{CanLearn};

use crate::conductor::Conductor;
use crate::seat::TaskSeat;

/// Makes each seat learn all that is published. There are at most eight, which bounds the recursion.
pub(crate) fn learn_all(conductor: &Conductor, seats: &mut [TaskSeat])
    requires { CanLearn conductor.now seats.old }
    ensures known { map seat_known seats.new ≡ replicate (length seats.old) (conductor_published conductor.now) }
    ensures tasks { map seat_task seats.new ≡ map seat_task seats.old }
    ensures origins { map task_seat_origin seats.new ≡ map task_seat_origin seats.old }
    ensures senders { map sender seats.new ≡ map sender seats.old }
{
    let Some((seat, others)) = seats.split_first_mut() else {
        return;
    };
    seat.learn(conductor.note());
    learn_all(conductor, others);
}
