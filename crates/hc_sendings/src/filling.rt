//! `fill_part`: one task's part of a proposal, so that the parts of tasks can be written side by side.
ghost use Rattle.std.specs.Prelude.{◌≡◌, ◌≢◌, ◌+◌, ◌-◌, ◌^◌, ◌==◌, ◌<◌, ◌≤◌, [], All, if◌then◌else◌, length, slice_get};
ghost use Rattle.hc_records.specs.Image.{logical_address};
ghost use Rattle.hc_records.specs.declared.limits.TheConstants.{TASKS};
ghost use Rattle.hc_frames.specs.FrameText.{sent_datagram_text, frame_head, lrw};
ghost use Rattle.hc_frames.specs.declared.limits.TheConstants.{MAX_DATA, MAX_ETHERCAT};
ghost use Rattle.hc_sendings.specs.PartTexts.{CanBeWritten, frame_part_text, own_bytes_of, own_texts, part_text};
ghost use Rattle.hc_sendings.specs.Parts.{padding_bytes, share};
ghost use Rattle.hc_sendings.specs.Texts.{carried_bytes};

use crate::parts::share;
use crate::writing::{SentData, carried_bytes};
use hc_events::sending::{Named, Sending};
use hc_frames::building::{build_datagram_of, build_head};
use hc_frames::limits::{BESIDE_DATA_BYTES, HEAD_BYTES, LEAST_FRAME};
use hc_records::task::Task;
use hc_registers::fmmu::logical_address;

/// Returns the bytes of a task's datagrams among these, with their headers and their counters.
fn own_bytes<D: SentData>(datagrams: &[Named], task: u8, sent: &D) -> usize
    requires { 2 + carried_bytes (D.bytes sent.now) datagrams.now ≤ MAX_ETHERCAT }
    ensures bytes { result ≡ own_bytes_of (D.bytes sent.now) task datagrams.now }
    ensures most { result ≤ carried_bytes (D.bytes sent.now) datagrams.now }
{
    match datagrams {
        [] => 0,
        [named, rest @ ..] => {
            let (own, number) = *named;
            let bytes = BESIDE_DATA_BYTES + sent.bytes_of(own, number).len();
            share(task, bytes, Some((own, number))) + own_bytes(rest, task, sent)
        }
    }
}

/// Writes the head of a frame with so many bytes of datagrams into a slice of its 16 bytes, or nothing into
/// an empty one.
fn write_head(out: &mut [u8], serial: u64, size: u16)
    requires exact { length out.old ≢ 0 → length out.old ≡ 16 }
    requires serial { serial < 2 ^ 40 }
    requires size { size + 2 ≤ MAX_ETHERCAT }
    ensures { out.new ≡ if length out.old == 0 then [] else frame_head serial size }
{
    if !out.is_empty() {
        build_head(out, serial, size);
    }
}

/// Writes a datagram with these data into a slice of its exact size, or nothing into an empty one.
fn write_datagram(out: &mut [u8], serial: u64, datagram: Named, bytes: &[u8], more: bool)
    requires exact { length out.old ≢ 0 → length out.old ≡ 12 + length bytes.now }
    requires known { datagram.0 < TASKS }
    requires size { length bytes.now ≤ MAX_DATA }
    ensures { out.new ≡ if length out.old == 0 then [] else sent_datagram_text serial more (lrw (logical_address datagram.0 datagram.1) bytes.now) }
{
    if !out.is_empty() {
        let (task, number) = datagram;
        let address = logical_address(Task(task), u16::from(number));
        build_datagram_of(out, serial, address, bytes, more);
    }
}

/// Writes a task's datagrams among these into a slice of their exact size. A frame has at most 115, which bounds the recursion.
fn write_own<D: SentData>(out: &mut [u8], serial: u64, datagrams: &[Named], task: u8, sent: &D)
    requires known { All (λ named. named.0 < TASKS) datagrams.now }
    requires exact { length out.old ≡ own_bytes_of (D.bytes sent.now) task datagrams.now }
    requires size { 2 + carried_bytes (D.bytes sent.now) datagrams.now ≤ MAX_ETHERCAT }
    ensures { out.new ≡ own_texts (D.bytes sent.now) serial task datagrams.now }
{
    if let [named, rest @ ..] = datagrams {
        let (own, number) = *named;
        let bytes = sent.bytes_of(own, number);
        let (first, others) = out.split_at_mut(share(
            task,
            BESIDE_DATA_BYTES + bytes.len(),
            Some((own, number)),
        ));
        write_datagram(first, serial, (own, number), bytes, !rest.is_empty());
        write_own(others, serial, rest, task, sent);
    }
}

/// Returns `bytes` if the first of these datagrams is one of the task's, otherwise 0.
fn first_share(datagrams: &[Named], task: u8, bytes: usize) -> usize
    ensures bytes { result ≡ share task bytes (slice_get datagrams.now 0) }
    ensures most { result ≤ bytes }
{
    share(task, bytes, datagrams.first().copied())
}

/// Returns `bytes` if the last of these datagrams is one of the task's, otherwise 0.
fn last_share(datagrams: &[Named], task: u8, bytes: usize) -> usize
    ensures bytes { result ≡ share task bytes (slice_get datagrams.now (length datagrams.now - 1)) }
    ensures most { result ≤ bytes }
{
    share(task, bytes, datagrams.last().copied())
}

/// The zeros after so many bytes of datagrams, up to the least frame.
fn padding_bytes(size: usize) -> usize
    requires { size ≤ MAX_ETHERCAT }
    ensures { result ≡ padding_bytes size }
{
    usize::from(LEAST_FRAME).saturating_sub(HEAD_BYTES + size)
}

/// The bytes of a frame's datagrams.
fn frame_bytes<D: SentData>(frame: &Sending, sent: &D) -> usize
    requires { CanBeWritten (D.bytes sent.now) frame.now }
    ensures bytes { result ≡ carried_bytes (D.bytes sent.now) frame.now.datagrams }
    ensures most { 2 + carried_bytes (D.bytes sent.now) frame.now.datagrams ≤ MAX_ETHERCAT }
{
    carried_bytes(frame.datagrams(), sent)
}

/// The bytes of a task's part of a frame.
fn frame_part_bytes<D: SentData>(frame: &Sending, task: u8, sent: &D) -> usize
    requires { CanBeWritten (D.bytes sent.now) frame.now }
    ensures { result ≡ length (frame_part_text (D.bytes sent.now) task frame.now) }
{
    let datagrams = frame.datagrams();
    let padding = padding_bytes(frame_bytes(frame, sent));
    let head = first_share(datagrams, task, HEAD_BYTES);
    let own = own_bytes(datagrams, task, sent);
    head + own + last_share(datagrams, task, padding)
}

/// Writes a task's part of a frame into a slice of its exact size.
fn fill_frame_part<D: SentData>(out: &mut [u8], frame: &Sending, task: u8, sent: &D)
    requires can { CanBeWritten (D.bytes sent.now) frame.now }
    requires exact { length out.old ≡ length (frame_part_text (D.bytes sent.now) task frame.now) }
    ensures { out.new ≡ frame_part_text (D.bytes sent.now) task frame.now }
{
    let datagrams = frame.datagrams();
    let size = frame_bytes(frame, sent);
    let own = own_bytes(datagrams, task, sent);
    let (head, rest) = out.split_at_mut(first_share(datagrams, task, HEAD_BYTES));
    let (texts, padding) = rest.split_at_mut(own);
    write_head(head, frame.serial(), size as u16);
    write_own(texts, frame.serial(), datagrams, task, sent);
    padding.fill(0);
}

/// Writes the part of one task in several frames into a slice of its exact size. The part has, for each frame, the task's
/// datagrams, the 16 bytes before them if the frame's first datagram is the task's, and the zeros after them if its last one
/// is. It has no bytes if the task has no datagram. Each datagram carries the data that `sent` has of it, as many bytes as it
/// was planned with. Tasks are 0 to 7, and serials below 2^40. It allocates nothing. A proposal has at most 128 frames, which
/// bounds the recursion.
pub fn fill_part<D: SentData>(out: &mut [u8], frames: &[Sending], task: u8, sent: &D)
    requires can { All (CanBeWritten (D.bytes sent.now)) frames.now }
    requires exact { length out.old ≡ length (part_text (D.bytes sent.now) task frames.now) }
    ensures { out.new ≡ part_text (D.bytes sent.now) task frames.now }
{
    if let [frame, rest @ ..] = frames {
        let (own, others) = out.split_at_mut(frame_part_bytes(frame, task, sent));
        fill_frame_part(own, frame, task, sent);
        fill_part(others, rest, task, sent);
    }
}
