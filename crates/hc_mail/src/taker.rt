//! The receiver's place at the table, without the content that it shows.
ghost use Rattle.std.specs.Prelude.{◌≡◌, ◌<◌, false, length, true};
ghost use Rattle.hc_mail.specs.Contents.{StartsWith, counted, newest};
ghost use Rattle.hc_mail.specs.Ends.{reported, seen, StaysAtTable};

use crate::content::Content;
use crate::holder::Holder;
use crate::note::Note;
use crate::steps::{Find, Learn, Note as MakeNote, Take};
use crate::table::{MailTable, Place};
use std::marker::Model;
use std::sync::Arc;

/// It takes the newest content in exchange for one that the caller holds, and never waits.
#[derive(Drop)]
pub struct Taker<T: Content> {
    pub(crate) mail: Arc<MailTable<T>>,
    pub(crate) seat: Place<T>,
    pub(crate) slot: usize,
    // the number of the content that it took last
    pub(crate) number: u64,
}

impl<T: Content> Model for Taker<T> {
    ghost use Rattle.std.specs.Arc.{arc_value};
    ghost use Rattle.hc_mail.specs.Ends.{IsReceiver, ReceiverEnd, with_nothing};

    ghost Value = { ReceiverEnd T };

    ghost view = { λ end. record { place = with_nothing end.seat; room = (arc_value end.mail).shared.key } };

    ghost invariant = { λ end. IsReceiver T.kind end.seat end.slot end.number (arc_value end.mail).shared.table_id };
}

impl<T: Content> Taker<T> {
    /// Looks for the newest of all contents that had been sent at one moment of this call, and returns whether it is a newer one.
    /// Then the holder has it, in exchange for the content that it held. All that had been sent begins with all that had been sent
    /// at the look before, and with all that a note named.
    pub fn take<H: Holder<T>>(&mut self, holder: &mut H) -> bool
        requires { T.kind.room (H.held holder.old) ≡ T.kind.room (T.kind.blank self.old.room) }
        ensures later { StartsWith (seen self.new.place) (seen self.old.place) × StartsWith (seen self.new.place) (reported self.old.place) }
        ensures newer { result ≡ true → length (seen self.old.place) < length (seen self.new.place) }
        ensures newest { result ≡ true → H.held holder.new ≡ newest T.kind self.new.room (seen self.new.place) }
        ensures none { result ≡ false → (self.new ≡ self.old) × (holder.new ≡ holder.old) }
        ensures room { T.kind.room (H.held holder.new) ≡ T.kind.room (T.kind.blank self.new.room) }
        ensures table { StaysAtTable self.old.place self.new.place × (self.new.room ≡ self.old.room) }
    {
        let shared = &self.mail.shared;
        if shared.load::<Find>(&mut self.seat, 0) < 4 {
            return false;
        }
        holder.exchange(&mut self.seat.slot_mut(shared, self.slot).content);
        let word = shared.swap::<Take>(&mut self.seat, 0, self.slot as u64);
        self.slot = (word % 4) as usize;
        let letter = self.seat.slot_mut(shared, self.slot);
        self.number = letter.number;
        holder.exchange(&mut letter.content);
        true
    }

    /// Returns how many contents had been sent at the last look.
    pub fn number(&self) -> u64
        ensures { result ≡ counted (length (seen self.now.place)) }
    {
        self.number
    }

    /// Learns from a note of the sender: no later look takes an older content than the newest that the note names.
    pub fn learn(&mut self, note: Note<T>)
        requires { note.place.table_id ≡ self.old.place.table_id }
        ensures reported { reported self.new.place ≡ seen note.place }
        ensures unchanged { (self.new.place.table_id ≡ self.old.place.table_id) × (self.new.room ≡ self.old.room) × (seen self.new.place ≡ seen self.old.place) }
    {
        let Note { place } = note;
        let shared = &self.mail.shared;
        shared.join_seat::<Learn>(&mut self.seat, place);
    }

    /// Returns a note of what was seen so far, for the sender to check.
    pub fn note(&mut self) -> Note<T>
        ensures note { (result.place.table_id ≡ self.old.place.table_id) × (seen result.place ≡ seen self.old.place) }
        ensures unchanged { self.new ≡ self.old }
    {
        let shared = &self.mail.shared;
        let place = shared.split_seat::<MakeNote>(&mut self.seat);
        Note { place }
    }
}
