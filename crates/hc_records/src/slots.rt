//! The places of datagrams in a list with one place for each datagram that a line can have. The images, and the table of the
//! last sendings, are such lists.
ghost use Rattle.std.specs.Prelude.{◌≡◌};
ghost use Rattle.hc_records.specs.Slots.{slot_number};

use crate::limits::{MOST_DATAGRAMS, TASKS};

/// The number of datagrams that a line can have: 16 in each of the eight tasks (this project's profile).
pub const SLOTS: usize = TASKS as usize * MOST_DATAGRAMS;

/// Returns the place of a datagram: the tasks follow one another, with 16 places each.
pub fn slot_number(task: u8, number: u8) -> usize
    ensures { result ≡ slot_number task number }
{
    MOST_DATAGRAMS * usize::from(task) + usize::from(number)
}
