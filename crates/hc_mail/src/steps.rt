//! What each step at the table gives the end that takes it. These types are for the proofs alone.
ghost use Rattle.std.specs.Prelude.{[]};
ghost use Rattle.hc_mail.specs.Rule.{confirmed, entered, found, insight, letter_sent, letter_taken, waited};
ghost use Rattle.hc_mail.specs.declared.table.Role.TheVariants.{Enters, Rests, Waits};

use crate::content::Content;
use crate::letter::Letter;
use crate::table::Insight;
use atomic_table::{Join, Play, Split};

/// The sender takes its slot.
pub(crate) struct Enter;

impl<T> Play<Letter<T>, Insight<T>> for Enter {
    ghost then = { entered };
}

/// The receiver takes its slot.
pub(crate) struct Wait;

impl<T> Play<Letter<T>, Insight<T>> for Wait {
    ghost then = { waited };
}

/// A letter is sent.
pub(crate) struct Deliver;

impl<T: Content> Play<Letter<T>, Insight<T>> for Deliver {
    ghost then = { letter_sent T.kind };
}

/// The receiver finds out whether the middle letter is newer than its own.
pub(crate) struct Find;

impl<T> Play<Letter<T>, Insight<T>> for Find {
    ghost then = { found };
}

/// The newer letter is taken.
pub(crate) struct Take;

impl<T: Content> Play<Letter<T>, Insight<T>> for Take {
    ghost then = { letter_taken T.kind };
}

/// The sender sees that what a note named was sent here.
pub(crate) struct Confirm;

impl<T> Play<Letter<T>, Insight<T>> for Confirm {
    ghost then = { confirmed };
}

/// The two ends are parted.
pub(crate) struct Part;

impl<T> Split<Insight<T>> for Part {
    ghost left = { λ i. insight Enters i.seen i.reported };

    ghost right = { λ i. insight Waits i.seen i.reported };
}

/// An end makes a note of what it saw.
pub(crate) struct Note;

impl<T> Split<Insight<T>> for Note {
    ghost left = { λ i. i };

    ghost right = { λ i. insight Rests i.seen i.reported };
}

/// An end learns from the other's note.
pub(crate) struct Learn;

impl<T> Join<Insight<T>> for Learn {
    ghost both = { λ i note. insight i.role i.seen note.seen };

    ghost spent = { insight Rests [] [] };
}
