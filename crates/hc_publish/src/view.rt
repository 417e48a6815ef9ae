//! Views.
use crate::copies::Copy;
use crate::rule::{Image, Known};
use left_right::reader::Reading;
use std::marker::Model;

mod steps;

/// A seat while it views the published copy. It is not `Drop`: end it by `leave`.
pub struct View {
    pub(crate) task: u8,
    pub(crate) reading: Reading<Copy, Known, Image>,
}

impl Model for View {
    ghost use Rattle.hc_publish.specs.Looks.{Look};
    ghost use Rattle.hc_publish.specs.Views.{IsSoundView, look_of};

    ghost Value = { Look };

    ghost view = { look_of };

    ghost invariant = { IsSoundView };
}
