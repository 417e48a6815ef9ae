//! Seats.
ghost use Rattle.std.specs.Prelude.{◌≡◌, [], ◌∷◌};
ghost use Rattle.left_right.specs.Sides.{view};
ghost use Rattle.hc_publish.specs.Rule.{publication_logs};

use crate::copies::Copy;
use crate::publication_log::LogPrefix;
use crate::rule::{Image, Known};
use left_right::reader::Reader;

mod steps;

/// One task's seat, with all that it saw or learnt. A dropped seat makes nobody wait.
#[derive(Drop)]
pub struct Seat {
    pub(crate) task: u8,
    pub(crate) reader: Reader<Copy, Known, Image>,
    pub(crate) front: LogPrefix,
    ghost bound: { publication_logs (view reader.place) ≡ front.book ∷ [] },
}
