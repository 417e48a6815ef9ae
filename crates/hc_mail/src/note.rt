//! Notes between the two ends.
ghost use Rattle.std.specs.Prelude.{◌≡◌, []};

use crate::table::Place;

/// The contents that one end has seen, for the other end to learn. It has no bytes at run time.
#[derive(Drop)]
pub struct Note<T> {
    pub(crate) place: Place<T>,
    ghost rests: { place.me.1 ≡ [] },
}

/// Passes on a value that may move to another thread.
pub(crate) fn passed<E: Send>(end: E) -> E
    ensures { result ≡ end }
{
    end
}
