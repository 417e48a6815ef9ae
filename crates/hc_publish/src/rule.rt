//! The rule of the published copy, and the steps that keep it: `Looks` is a publishing or an entry, `Binds` tells a new seat
//! which publication log it has. A seat's list and a note's list are prefixes of that log, so of two such lists one begins the
//! other.
ghost use Rattle.std.specs.Prelude.{[], ◌++◌};
ghost use Rattle.hc_publish.specs.Rule.{CopyIsSealed, Sees};

use crate::copies::Copy;
use crate::publication_log::Token;
use atomic_table::{Join, Split};
use crossbeam_utils::rule::{Outcome, Protocol};

/// The tokens of the copies that a thread saw. No value of it exists at run time: a clause reads an array as a list of any
/// length.
pub type Known = [Token; 0];

/// The rule.
pub struct Image;

impl Protocol<Copy, Known> for Image {
    ghost holds = { CopyIsSealed };

    ghost first = { [] };
}

/// A step after which a thread knows the copy that is shown.
pub struct Looks;

impl Outcome<Copy, Known> for Looks {
    ghost then = { Sees };
}

/// A step in which the publisher's knowledge passes to a seat.
pub struct Binds;

impl Split<Known> for Binds {
    ghost left = { λ known. known };

    ghost right = { λ known. known };
}

impl Join<Known> for Binds {
    ghost both = { λ known changes_since. known ++ changes_since };

    ghost spent = { [] };
}
