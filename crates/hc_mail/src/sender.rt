//! The sender of a mailbox.
ghost use Rattle.std.specs.Prelude.{◌≡◌, ◌++◌, ◌∷◌, [], length};
ghost use Rattle.hc_mail.specs.Contents.{StartsWith, counted};
ghost use Rattle.hc_mail.specs.Ends.{seen, StaysAtTable};

use crate::content::Content;
use crate::note::{Note, passed};
use crate::steps::{Confirm, Deliver, Learn, Note as MakeNote};
use crate::table::{MailTable, Place};
use std::marker::Model;
use std::sync::Arc;

/// It sends contents, and never waits. The content lies in the slot that the end has, so that sending it moves nothing but the
/// slot's number.
#[derive(Drop)]
pub struct Sender<T: Content> {
    pub(crate) mail: Arc<MailTable<T>>,
    pub(crate) seat: Place<T>,
    pub(crate) slot: usize,
    // how many contents it sent
    pub(crate) count: u64,
}

impl<T: Content> Model for Sender<T> {
    ghost use Rattle.std.specs.Arc.{arc_value};
    ghost use Rattle.hc_mail.specs.Ends.{IsSender, SenderEnd, with_nothing};
    ghost use Rattle.hc_mail.specs.Rule.{in_hand};

    ghost Value = { SenderEnd T };

    ghost view = { λ end. record { place = with_nothing end.seat; own = (in_hand T.kind end.seat.me.1).content } };

    ghost invariant = { λ end. IsSender T.kind end.seat end.slot end.count (arc_value end.mail).shared.table_id (arc_value end.mail).shared.key };
}

impl<T: Content> Sender<T> {
    /// Sends the content, and returns its number: contents are numbered from 1. The receiver's next look shows it, unless a newer
    /// one is sent before. The content that comes back is an older one, or blank.
    pub fn send(&mut self) -> u64
        ensures number { result ≡ counted (length (seen self.new.place)) }
        ensures sent { seen self.new.place ≡ seen self.old.place ++ self.old.own ∷ [] }
        ensures table { StaysAtTable self.old.place self.new.place }
        ensures room { T.kind.room self.new.own ≡ T.kind.room self.old.own }
    {
        let shared = &self.mail.shared;
        self.count = self.count.wrapping_add(1);
        self.seat.slot_mut(shared, self.slot).number = self.count;
        let word = shared.swap::<Deliver>(&mut self.seat, 0, self.slot as u64 + 4);
        self.slot = (word % 4) as usize;
        self.count
    }

    /// A note of what was sent so far, for the receiver to learn.
    pub fn note(&mut self) -> Note<T>
        ensures note { (result.place.table_id ≡ self.old.place.table_id) × (seen result.place ≡ seen self.old.place) }
        ensures unchanged { self.new ≡ self.old }
    {
        let shared = &self.mail.shared;
        let place = shared.split_seat::<MakeNote>(&mut self.seat);
        Note { place }
    }

    /// Learns from a note of the receiver that the contents which the receiver had seen are the first that this end sent, in
    /// their order. It changes nothing else.
    pub fn check(&mut self, note: Note<T>)
        requires { note.place.table_id ≡ self.old.place.table_id }
        ensures sent { StartsWith (seen self.new.place) (seen note.place) }
        ensures unchanged { (self.new.place.table_id ≡ self.old.place.table_id) × (self.new.own ≡ self.old.own) × (seen self.new.place ≡ seen self.old.place) }
    {
        let Note { place } = note;
        let shared = &self.mail.shared;
        shared.join_seat::<Learn>(&mut self.seat, place);
        shared.load::<Confirm>(&mut self.seat, 0);
    }

    /// The end may go to another thread.
    pub fn moved(self) -> Sender<T>
    where
        T: Send,
        ensures { result ≡ self }
    {
        passed(self)
    }
}
