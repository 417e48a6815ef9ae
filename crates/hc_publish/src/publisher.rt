//! The publisher.
use crate::absorb::Step;
use crate::copies::Copy;
use crate::publication_log::{Head, LogPrefix};
use crate::rule::{Image, Known};
use hc_events::change::Change;
use left_right::writer::Writer;
use std::marker::Model;
use thiserror::Error;

mod steps;

pub(crate) type Copies = Writer<Copy, Step, Known, Image>;

/// The end that publishes changes to the seats. It is not `Drop`: end it by `finish`.
pub struct Publisher {
    pub(crate) writer: Copies,
    pub(crate) head: Head,
    // the whole publication log: every list that was ever about to be shown
    pub(crate) front: LogPrefix,
    // the last pending step is a seal of all the changes, which a refused publishing left
    pub(crate) is_sealed: bool,
}

impl Model for Publisher {
    ghost use Rattle.hc_publish.specs.PublishedState.{PublishedState};
    ghost use Rattle.hc_publish.specs.Published.{IsSoundPublisher, published_state_in};

    ghost Value = { PublishedState };

    ghost view = { published_state_in };

    ghost invariant = { IsSoundPublisher };
}

/// The list that was published, for a seat to learn. At run time it is only a count.
#[derive(Drop)]
pub struct Note {
    pub(crate) front: LogPrefix,
}

/// A change that is returned because an allocation failed.
#[derive(Debug, Drop, Error)]
#[error("out of memory")]
pub struct Kept(pub Change);
