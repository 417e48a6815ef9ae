//! The table that both ends share, and what each of them knows. The table has one word and three slots. The word is the number
//! of the slot in the middle, and 4 more if a letter was sent since the last look. The sender's letter and the middle one lie
//! in their slots. The receiver has its content beside the table, so that it may be read without changing the end; in its slot
//! lies a letter whose content has no room.
ghost use Rattle.std.specs.Prelude.{List};
ghost use base.Fml.{ftrue};
ghost use base.Stored.{coded_list};

use crate::content::Content;
use crate::letter::Letter;
use atomic_table::{Seat, Shared, Table, TableRule};
use std::alloc::Global;
use std::marker::{Model, PhantomData};

/// What a seat at the table does. No value of it is made: it is for the proofs.
pub enum Role {
    /// It holds nothing, and says only what was seen.
    Rests,
    /// Both ends in one, before they are parted.
    Opens,
    /// The sender, before it takes its slot.
    Enters,
    /// The sender with its slot.
    Sends(u64),
    /// The receiver, before it takes its slot.
    Waits,
    /// The receiver with its slot.
    Looks(u64),
    /// The receiver with its slot, after it found that the middle letter is newer than its own.
    Takes(u64),
}

/// What a seat knows. No value of it is made.
pub struct Insight<T> {
    pub role: Role,
    marker: PhantomData<T>,
    /// The contents that it sent, or that had been sent when it looked.
    pub ghost seen: { List T } by { coded_list T.code },
    /// The contents that a note of the other end named.
    pub ghost reported: { List T } by { coded_list T.code },
}

impl<T> Model for Insight<T> {
    ghost also_owns = { λ _. ftrue };
}

/// The rule of the table, whose key is the mailbox's room.
pub struct MailRule;

impl<T: Content> TableRule<Letter<T>, Insight<T>, (usize, usize)> for MailRule {
    ghost use Rattle.hc_mail.specs.Rule.{IsMail, opener};

    ghost holds = { IsMail T.kind };

    ghost first = { λ _. opener };
}

pub(crate) type MailTable<T> = Table<Letter<T>, Insight<T>, (usize, usize), MailRule, Global>;

pub(crate) type Place<T> = Seat<Letter<T>, Insight<T>>;
