//! The conductor.
use hc_core::keeping::Core;
use hc_events::change::Change;
use hc_publish::publisher::Publisher;
use hc_rings::PostReceiver;
use std::marker::Model;

/// The core and the publisher of one line, and the ends at which its tasks' posts come in. One thread owns it. It is not
/// `Drop`: end it by `finish`.
pub struct Conductor {
    pub(crate) core: Core,
    pub(crate) publisher: Publisher,
    // changes that were taken from the core and not appended, the newest first
    pub(crate) waiting: Vec<Change>,
    // the ends at which the tasks' posts come in, task i's at index i
    pub(crate) rings: Vec<PostReceiver>,
}

impl Model for Conductor {
    ghost use Rattle.hc_conductor.specs.Conducted.{IsSoundConductor, conducting_in};
    ghost use Rattle.hc_conductor.specs.Conducting.{Conducting};
    ghost use Rattle.hc_rings.specs.contracts.posts.PostReceiver as receiver;
    ghost use Rattle.std.specs.Coded.{codes};

    ghost Value = { Conducting };

    ghost coded = { Prim.hlevel (codes, receiver.the_row.coded) };

    ghost view = { conducting_in };

    ghost invariant = { IsSoundConductor };
}
