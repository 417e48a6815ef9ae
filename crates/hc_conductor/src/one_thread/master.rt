//! The master.
use crate::conductor::Conductor;
use crate::seat::TaskSeat;
use std::marker::Model;

/// A conductor and the seats of its eight tasks, which one thread owns. It is not `Drop`: end it by `finish`.
pub struct Master {
    pub(crate) conductor: Conductor,
    // task i's at place i
    pub(crate) seats: Vec<TaskSeat>,
}

impl Model for Master {
    ghost use Rattle.hc_conductor.specs.contracts.seat.TaskSeat as seat;
    ghost use Rattle.hc_conductor.specs.Mastered.{IsSoundMaster, mastering_in};
    ghost use Rattle.hc_conductor.specs.Mastering.{Mastering};
    ghost use Rattle.hc_rings.specs.contracts.posts.PostReceiver as receiver;
    ghost use Rattle.std.specs.Coded.{codes};

    ghost Value = { Mastering };

    ghost coded = { Prim.hlevel (codes, receiver.the_row.coded, seat.the_row.coded) };

    ghost view = { mastering_in };

    ghost invariant = { IsSoundMaster };
}
