//! Opening of a mailbox.
ghost use Rattle.std.specs.Prelude.{◌≡◌, [], IfOk};
ghost use Rattle.std.specs.Arc.{arc_value};
ghost use Rattle.hc_mail.specs.Rule.{IsSized, opener};
ghost use Rattle.hc_mail.specs.Ends.{reported, seen};

use crate::boxes::blank_box;
use crate::content::Content;
use crate::letter::Letter;
use crate::receiver::Receiver;
use crate::sender::Sender;
use crate::steps::{Enter, Part, Wait};
use crate::table::{MailTable, Place};
use crate::taker::Taker;
use atomic_table::Table;
use std::alloc::{AllocError, Global};
use std::sync::Arc;

/// Returns a blank letter with this capacity. `AllocError` if an allocation fails.
fn blank_letter<T: Content>(
    alloc: Global,
    bytes: usize,
    datagrams: usize,
) -> Result<Letter<T>, AllocError>
    ensures { IfOk result (λ letter. letter ≡ record { number = 0; content = T.kind.blank (bytes, datagrams) }) }
{
    let content = blank_box(alloc, bytes, datagrams)?;
    Ok(Letter { number: 0, content })
}

/// Returns the table with a blank letter in the middle, and letters of capacity 0 in the slots of the ends; and its first seat.
fn lay<T: Content>(
    alloc: Global,
    bytes: usize,
    datagrams: usize,
) -> Result<(Arc<MailTable<T>>, Place<T>), AllocError>
    ensures table { IfOk result (λ made. made.1.table_id ≡ (arc_value made.0).shared.table_id) }
    ensures sized { IfOk result (λ made. IsSized made.1.table_id) }
    ensures key { IfOk result (λ made. (arc_value made.0).shared.key ≡ (bytes, datagrams)) }
    ensures me { IfOk result (λ made. made.1.me ≡ (opener, [])) }
{
    let first = blank_letter(alloc, 0, 0)?;
    let middle = blank_letter(alloc, bytes, datagrams)?;
    let last = blank_letter(alloc, 0, 0)?;
    let slots = vec![in alloc; first, middle, last]?;
    match Table::new(alloc, &[1], slots, &(bytes, datagrams)) {
        Ok((table, place)) => Ok((Arc::new(alloc, table)?, place)),
        Err(_refused) => Err(AllocError),
    }
}

/// Opens a mailbox for contents of a capacity in bytes and datagrams. It allocates all the memory that the mailbox ever needs.
/// Both ends begin with a blank content. `AllocError` if an allocation fails.
pub fn open<T: Content>(
    alloc: Global,
    bytes: usize,
    datagrams: usize,
) -> Result<(Sender<T>, Receiver<T>), AllocError>
    ensures one { IfOk result (λ ends. ends.0.place.table_id ≡ ends.1.place.table_id) }
    ensures sender { IfOk result (λ ends. (seen ends.0.place ≡ []) × (reported ends.0.place ≡ []) × (ends.0.own ≡ T.kind.blank (bytes, datagrams))) }
    ensures receiver { IfOk result (λ ends. (seen ends.1.place ≡ []) × (reported ends.1.place ≡ []) × (ends.1.room ≡ (bytes, datagrams))) }
{
    let (mail, mut seat) = lay(alloc, bytes, datagrams)?;
    let own = blank_letter(alloc, bytes, datagrams)?;
    let shown = blank_box(alloc, bytes, datagrams)?;
    let other = Arc::try_clone(&mail)?;
    let shared = &mail.shared;
    let mut second = shared.split_seat::<Part>(&mut seat);
    shared.load::<Enter>(&mut seat, 0);
    shared.load::<Wait>(&mut second, 0);
    *seat.slot_mut(shared, 0) = own;
    let sender = Sender {
        mail,
        seat,
        slot: 0,
        count: 0,
    };
    let taker = Taker {
        mail: other,
        seat: second,
        slot: 2,
        number: 0,
    };
    let receiver = Receiver { taker, shown };
    Ok((sender, receiver))
}
