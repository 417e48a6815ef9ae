//! One published copy.
use crate::publication_log::LogPrefix;
use crate::shown::Shown;
use hc_events::change::GoodAnswer;
use std::marker::Model;
use std::sync::Mutex;

/// One of the two published copies: the data that tasks read, and the part of the publication log that the last publishing to
/// this copy had reached.
#[derive(Drop)]
pub struct Copy {
    pub(crate) shown: Shown,
    pub(crate) front: LogPrefix,
    // good answers that both copies have applied, until the publisher takes them out; a lock, since the seats' threads hold the
    // copy too, though only the publisher looks here
    pub(crate) used: Mutex<Vec<GoodAnswer>>,
}

impl Model for Copy {
    ghost use Rattle.hc_publish.specs.Copies.{story_in};
    ghost use Rattle.hc_publish.specs.Stories.{Story};

    ghost Value = { Story };

    ghost view = { story_in };
}
