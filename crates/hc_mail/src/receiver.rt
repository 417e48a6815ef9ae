//! The receiver of a mailbox.
ghost use Rattle.std.specs.Prelude.{◌≡◌, ◌<◌, false, length, true};
ghost use Rattle.hc_mail.specs.Contents.{StartsWith, counted, newest};
ghost use Rattle.hc_mail.specs.Ends.{reported, seen, StaysAtTable};

use crate::content::Content;
use crate::letter::ContentBox;
use crate::note::{Note, passed};
use crate::taker::Taker;
use std::marker::Model;

/// It looks at the newest content, and never waits.
#[derive(Drop)]
pub struct Receiver<T: Content> {
    pub(crate) taker: Taker<T>,
    pub(crate) shown: ContentBox<T>,
}

impl<T: Content> Model for Receiver<T> {
    ghost use Rattle.std.specs.Prelude.{◌≡◌};
    ghost use Rattle.hc_mail.specs.Contents.{newest};
    ghost use Rattle.hc_mail.specs.Ends.{ReceiverEnd, seen};

    ghost Value = { ReceiverEnd T };

    ghost view = { λ end. end.taker };

    ghost invariant = { λ end. (end.shown ≡ newest T.kind end.taker.room (seen end.taker.place)) × (T.kind.room end.shown ≡ T.kind.room (T.kind.blank end.taker.room)) };
}

impl<T: Content> Receiver<T> {
    /// Takes the newest of all contents that had been sent at one moment of this call, and returns whether it is a newer one. They
    /// begin with all that had been sent when it looked before, and with all that a note named.
    pub fn look(&mut self) -> bool
        ensures later { StartsWith (seen self.new.place) (seen self.old.place) × StartsWith (seen self.new.place) (reported self.old.place) }
        ensures newer { result ≡ true → length (seen self.old.place) < length (seen self.new.place) }
        ensures none { result ≡ false → self.new ≡ self.old }
        ensures table { StaysAtTable self.old.place self.new.place × (self.new.room ≡ self.old.room) }
    {
        self.taker.take(&mut self.shown)
    }

    /// The newest content at the last look; a blank one if none had been sent.
    pub fn content(&self) -> &T
        ensures newest { result.now ≡ newest T.kind self.now.room (seen self.now.place) }
        ensures room { T.kind.room result.now ≡ T.kind.room (T.kind.blank self.now.room) }
    {
        self.shown.content()
    }

    /// Its number: how many contents had been sent at the last look.
    pub fn number(&self) -> u64
        ensures { result ≡ counted (length (seen self.now.place)) }
    {
        self.taker.number()
    }

    /// Learns from a note of the sender: no later look shows an older content than the newest that the note names.
    pub fn learn(&mut self, note: Note<T>)
        requires { note.place.table_id ≡ self.old.place.table_id }
        ensures reported { reported self.new.place ≡ seen note.place }
        ensures unchanged { (self.new.place.table_id ≡ self.old.place.table_id) × (self.new.room ≡ self.old.room) × (seen self.new.place ≡ seen self.old.place) }
    {
        self.taker.learn(note);
    }

    /// A note of what was seen so far, for the sender to check.
    pub fn note(&mut self) -> Note<T>
        ensures note { (result.place.table_id ≡ self.old.place.table_id) × (seen result.place ≡ seen self.old.place) }
        ensures unchanged { self.new ≡ self.old }
    {
        self.taker.note()
    }

    /// The end may go to another thread.
    pub fn moved(self) -> Receiver<T>
    where
        T: Send,
        ensures { result ≡ self }
    {
        passed(self)
    }
}
