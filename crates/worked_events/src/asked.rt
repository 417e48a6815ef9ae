//! Rows of events with their expected answers, as constant tables, and the comparison with a core's answers.
use crate::driven::Driven;
use crate::texts::back;
use hc_events::answer::{Answer, Outcome};
use hc_events::event::Event;
use hc_events::faults::CoreFault;
use hc_frames::Command;
use hc_project::read_group;
use hc_records::edit::Edit;
use hc_records::items::Items;
use std::alloc::{AllocError, Global};

/// A datagram that comes back: its command, its address, its data and its working counter.
pub type Back = (Command, u32, &'static [u8], u16);

/// A frame: its serial, the number of bytes of its datagrams, the bytes after its head, and the number of zeros after them.
pub type Text = (u16, u8, &'static [u8], usize);

/// An event of a row.
#[derive(Clone, Copy)]
pub enum Asked {
    Connect(u16),
    Disconnect(u16),
    Remap(u16, u8, &'static [u16]),
    Move(u16, u8, u8),
    /// The group of this text is declared.
    Declare(&'static str),
    /// A task's post of an epoch.
    Post(u8, u32, &'static [u8]),
    /// A task's steady post of an epoch.
    PostSteady(u8, u32, &'static [u8]),
    Send(&'static [u8]),
    SendReady(&'static [u8]),
    Write,
    Writes,
    Further,
    /// These bytes arrive.
    Arrive(&'static [u8]),
    /// The frame with a serial arrives that carries these datagrams.
    Comes(u64, &'static [Back]),
    Read(u8),
    /// A task reads its steady data.
    ReadSteady(u8),
    /// The slave with this station address is forgotten.
    Forget(u16),
    /// The slave with this station address is cleared.
    Clear(u16),
}

/// The expected answer to a row's event.
#[derive(Clone, Copy)]
pub enum Wanted {
    /// The epoch, the recut spans and the moved blocks.
    Edited(u32, u32, u32),
    Posted,
    Sent(&'static [Text]),
    WriteSent(Text),
    WritesSent(Text),
    Answered(&'static [Outcome]),
    WriteDone,
    WriteMissed,
    Written(&'static [Outcome]),
    Stale,
    /// The epoch and the slots.
    Image(u32, &'static [Option<&'static [u8]>]),
    Forgotten,
    Cleared,
    Refused(CoreFault),
}

/// An event, and its expected answer.
pub type Row = (Asked, Wanted);

/// The 16 bytes before a frame's datagrams: six of 0xff, the source with the serial, the EtherType, and the
/// number of the datagrams' bytes with the type 1 in its highest four bits.
fn head_of(serial: u16, size: u8) -> [u8; 16] {
    let [low, high] = serial.to_le_bytes();
    [
        0xff, 0xff, 0xff, 0xff, 0xff, 0xff, 2, 0, 0, 0, high, low, 0x88, 0xa4, size, 0x10,
    ]
}

/// True if all these bytes are 0.
fn are_zeros(bytes: &[u8]) -> bool {
    for byte in bytes {
        if *byte != 0 {
            return false;
        }
    }
    true
}

/// True if the bytes are these, with this many zeros after them.
fn are_padded(bytes: &[u8], front: &[u8], zeros: usize) -> bool {
    if bytes.len() != front.len().saturating_add(zeros) {
        return false;
    }
    let (own, after_it) = bytes.split_at(front.len());
    own == front && are_zeros(after_it)
}

/// True if the bytes are this frame's.
pub fn is_text(bytes: &[u8], text: &Text) -> bool {
    if bytes.len() < 16 {
        return false;
    }
    let (head, after_it) = bytes.split_at(16);
    head == head_of(text.0, text.1).as_slice() && are_padded(after_it, text.2, text.3)
}

/// True if the frames are these, in order.
pub fn are_texts(frames: &[Items<u8>], texts: &[Text]) -> bool {
    if frames.len() != texts.len() {
        return false;
    }
    for (frame, text) in frames.iter().zip(texts) {
        if !is_text(frame.as_slice(), text) {
            return false;
        }
    }
    true
}

/// True if a slot has these bytes, or none.
fn is_slot(slot: &Option<Items<u8>>, wanted: &Option<&'static [u8]>) -> bool {
    match (slot, wanted) {
        (Some(bytes), Some(other)) => bytes.as_slice() == *other,
        (None, None) => true,
        _ => false,
    }
}

/// True if the slots are these, in order.
fn are_slots(slots: &[Option<Items<u8>>], wanted: &[Option<&'static [u8]>]) -> bool {
    if slots.len() != wanted.len() {
        return false;
    }
    for (slot, other) in slots.iter().zip(wanted) {
        if !is_slot(slot, other) {
            return false;
        }
    }
    true
}

/// True if an answer is the expected one.
pub fn is_wanted(answer: &Answer, wanted: &Wanted) -> bool {
    match (answer, wanted) {
        (
            Answer::Edited {
                epoch,
                recut,
                moved,
            },
            Wanted::Edited(first, second, third),
        ) => *epoch == *first && *recut == *second && *moved == *third,
        (Answer::Posted, Wanted::Posted) => true,
        (Answer::Sent(frames), Wanted::Sent(texts)) => are_texts(frames.as_slice(), *texts),
        (Answer::WriteSent(frame), Wanted::WriteSent(text)) => is_text(frame.as_slice(), text),
        (Answer::WritesSent(frame), Wanted::WritesSent(text)) => is_text(frame.as_slice(), text),
        (Answer::Answered(outcomes), Wanted::Answered(others)) => outcomes.as_slice() == *others,
        (Answer::WriteDone, Wanted::WriteDone) => true,
        (Answer::WriteMissed, Wanted::WriteMissed) => true,
        (Answer::Written(outcomes), Wanted::Written(others)) => outcomes.as_slice() == *others,
        (Answer::Stale, Wanted::Stale) => true,
        (Answer::Image { epoch, slots }, Wanted::Image(number, others)) => {
            *epoch == *number && are_slots(slots.as_slice(), *others)
        }
        (Answer::Forgotten, Wanted::Forgotten) => true,
        (Answer::Cleared, Wanted::Cleared) => true,
        (Answer::Refused(fault), Wanted::Refused(other)) => *fault == *other,
        _ => false,
    }
}

/// The edit of a row's event. None if the event is no edit, or declares a group whose text cannot be read.
fn edit_of(alloc: Global, asked: Asked) -> Result<Option<Edit>, AllocError> {
    let edit = match asked {
        Asked::Connect(alias) => Edit::Connect(alias),
        Asked::Disconnect(alias) => Edit::Disconnect(alias),
        Asked::Remap(station, area, indexes) => Edit::Remap {
            station,
            area,
            pdos: Items::of(Vec::from_slice(alloc, indexes)?),
        },
        Asked::Move(station, area, task) => Edit::Move {
            station,
            area,
            task,
        },
        Asked::Declare(text) => match read_group(alloc, text.as_bytes()) {
            Ok(group) => Edit::Declare(group),
            Err(_) => return Ok(None),
        },
        _ => return Ok(None),
    };
    Ok(Some(edit))
}

/// The answer to a row's event that is no edit. `NothingOwed` for an edit.
fn other_answer(driven: &mut Driven, alloc: Global, asked: Asked) -> Result<Answer, AllocError> {
    match asked {
        Asked::Post(task, epoch, bytes) => driven.put(alloc, Event::Post { task, epoch, bytes }),
        Asked::PostSteady(task, epoch, bytes) => {
            driven.put(alloc, Event::PostSteady { task, epoch, bytes })
        }
        Asked::Send(tasks) => driven.put(alloc, Event::SendTasks(tasks)),
        Asked::SendReady(tasks) => driven.put(alloc, Event::SendReady(tasks)),
        Asked::Write => driven.put(alloc, Event::SendWrite),
        Asked::Writes => driven.put(alloc, Event::SendWrites),
        Asked::Further => driven.put(alloc, Event::SendFurther),
        Asked::Arrive(bytes) => driven.put(alloc, Event::Arrive(bytes)),
        Asked::Comes(serial, datagrams) => {
            let bytes = back(alloc, serial, datagrams)?;
            driven.put(alloc, Event::Arrive(bytes.as_slice()))
        }
        Asked::Read(task) => driven.put(alloc, Event::Read(task)),
        Asked::ReadSteady(task) => driven.core.steady_read(alloc, task),
        Asked::Forget(station) => driven.put(alloc, Event::Forget(station)),
        Asked::Clear(station) => driven.put(alloc, Event::Cleared(station)),
        _ => Ok(Answer::Refused(CoreFault::NothingOwed)),
    }
}

/// The answer to a row's event.
pub fn answer(driven: &mut Driven, alloc: Global, asked: Asked) -> Result<Answer, AllocError> {
    match edit_of(alloc, asked)? {
        Some(edit) => driven.put(alloc, Event::Edit(&edit)),
        None => other_answer(driven, alloc, asked),
    }
}

/// True if a row's edit, when it is prepared, has the expected report and leaves the core as it was.
fn is_prepared(driven: &mut Driven, alloc: Global, row: &Row) -> Result<bool, AllocError> {
    let Some(edit) = edit_of(alloc, row.0)? else {
        return Ok(false);
    };
    match driven.prepared(alloc, &edit)? {
        Some(answer) => Ok(is_wanted(&answer, &row.1)),
        None => Ok(false),
    }
}

/// The number, from 0, of the first row whose edit is not prepared so. None if there is none.
pub fn first_unprepared(
    driven: &mut Driven,
    alloc: Global,
    rows: &[Row],
) -> Result<Option<usize>, AllocError> {
    let mut number = 0_usize;
    for row in rows {
        if !is_prepared(driven, alloc, row)? {
            return Ok(Some(number));
        }
        number = number.saturating_add(1);
    }
    Ok(None)
}

/// True if an event has its row's answer.
pub fn holds(driven: &mut Driven, alloc: Global, row: &Row) -> Result<bool, AllocError> {
    Ok(is_wanted(&answer(driven, alloc, row.0)?, &row.1))
}

/// The number, from 0, of the first row whose event has another answer. None if there is none.
pub fn first_wrong(
    driven: &mut Driven,
    alloc: Global,
    rows: &[Row],
) -> Result<Option<usize>, AllocError> {
    let mut number = 0_usize;
    for row in rows {
        if !holds(driven, alloc, row)? {
            return Ok(Some(number));
        }
        number = number.saturating_add(1);
    }
    Ok(None)
}
