//! `write_frame` and `frame_text`: the bytes of planned frames.
ghost use Rattle.std.specs.Prelude.{◌≡◌, ◌+◌, ◌^◌, ◌<◌, ◌≤◌, ◌++◌, ℕ, All, IfOk, List, OnOk, length, map, replicate};
ghost use Rattle.hc_records.specs.declared.limits.TheConstants.{TASKS};
ghost use Rattle.hc_frames.specs.FrameText.{sent_datagrams_text};
ghost use Rattle.hc_frames.specs.Sizes.{frame_bytes};
ghost use Rattle.hc_frames.specs.declared.limits.TheConstants.{MAX_ETHERCAT};
ghost use Rattle.hc_sendings.specs.Parts.{padding_bytes};
ghost use Rattle.hc_sendings.specs.Texts.{datagram_with_data, carried_bytes, frame_text_of};

use hc_events::sending::{Named, Sending};
use hc_frames::building::{add_datagram_of, add_head, build_datagram_of, build_head};
use hc_frames::limits::{BESIDE_DATA_BYTES, HEAD_BYTES, LEAST_FRAME};
use hc_records::items::Items;
use hc_records::task::Task;
use hc_registers::fmmu::logical_address;
use std::alloc::{AllocError, Global};

/// The most bytes of datagrams of a frame that is written over zeros. A longer one is added part by part.
const SHORT_BYTES: usize = 500;

/// The source of the data that datagrams are sent with.
pub trait SentData {
    /// The data of each datagram, by its task and its number in the task.
    ghost bytes: { Self → ℕ → ℕ → List ℕ };

    /// The data of a datagram.
    fn bytes_of(&self, task: u8, number: u8) -> &[u8]
        ensures { result.now ≡ bytes self.now task number };
}

/// Returns the bytes of datagrams, with their headers and their counters.
pub(crate) fn carried_bytes<D: SentData>(datagrams: &[Named], sent: &D) -> usize
    requires { 2 + carried_bytes (D.bytes sent.now) datagrams.now ≤ MAX_ETHERCAT }
    ensures { result ≡ carried_bytes (D.bytes sent.now) datagrams.now }
{
    match datagrams {
        [] => 0,
        [(task, number), rest @ ..] => {
            BESIDE_DATA_BYTES + sent.bytes_of(*task, *number).len() + carried_bytes(rest, sent)
        }
    }
}

/// Writes datagrams one after another into a slice of their exact size. A frame has at most 115, which bounds the recursion.
fn write_datagrams<D: SentData>(out: &mut [u8], serial: u64, datagrams: &[Named], sent: &D)
    requires known { All (λ named. named.0 < TASKS) datagrams.now }
    requires exact { length out.old ≡ carried_bytes (D.bytes sent.now) datagrams.now }
    requires size { 2 + carried_bytes (D.bytes sent.now) datagrams.now ≤ MAX_ETHERCAT }
    ensures { out.new ≡ sent_datagrams_text serial (map (datagram_with_data (D.bytes sent.now)) datagrams.now) }
{
    if let [(task, number), rest @ ..] = datagrams {
        let bytes = sent.bytes_of(*task, *number);
        let (first, others) = out.split_at_mut(BESIDE_DATA_BYTES + bytes.len());
        let address = logical_address(Task(*task), u16::from(*number));
        build_datagram_of(first, serial, address, bytes, !rest.is_empty());
        write_datagrams(others, serial, rest, sent);
    }
}

/// Returns the bytes of a frame's datagrams. In a frame over the least size these are all bytes after its head, so that they
/// need no count.
#[inline(always)]
fn datagrams_bytes<D: SentData>(whole: usize, datagrams: &[Named], sent: &D) -> usize
    requires size { 2 + carried_bytes (D.bytes sent.now) datagrams.now ≤ MAX_ETHERCAT }
    requires exact { whole ≡ frame_bytes (carried_bytes (D.bytes sent.now) datagrams.now) }
    ensures { result ≡ carried_bytes (D.bytes sent.now) datagrams.now }
{
    if whole > usize::from(LEAST_FRAME) {
        whole - HEAD_BYTES
    } else {
        carried_bytes(datagrams, sent)
    }
}

/// Writes a frame of tasks into a slice of its exact size. The size is 16 bytes more than its datagrams have with their headers
/// and counters, which are at most 1,498; a frame under 60 bytes is padded to 60. Each datagram carries the data that `sent` has
/// of it, and each but the last tells that more follow. The serial is below 2^40. It allocates nothing.
#[inline(always)]
pub fn write_frame<D: SentData>(out: &mut [u8], frame: &Sending, sent: &D)
    requires serial { frame.now.serial < 2 ^ 40 }
    requires known { All (λ named. named.0 < TASKS) frame.now.datagrams }
    requires size { 2 + carried_bytes (D.bytes sent.now) frame.now.datagrams ≤ MAX_ETHERCAT }
    requires exact { length out.old ≡ frame_bytes (carried_bytes (D.bytes sent.now) frame.now.datagrams) }
    ensures { out.new ≡ frame_text_of (D.bytes sent.now) frame.now }
{
    let datagrams = frame.datagrams();
    let size = datagrams_bytes(out.len(), datagrams, sent);
    let (head, rest) = out.split_at_mut(HEAD_BYTES);
    let (texts, padding) = rest.split_at_mut(size);
    build_head(head, frame.serial(), size as u16);
    write_datagrams(texts, frame.serial(), datagrams, sent);
    if !padding.is_empty() {
        padding.fill(0);
    }
}

/// Adds datagrams one after another to a text. A frame has at most 115, which bounds the recursion.
fn add_datagrams<D: SentData>(
    text: &mut Vec<u8>,
    serial: u64,
    datagrams: &[Named],
    sent: &D,
) -> Result<(), AllocError>
    requires known { All (λ named. named.0 < TASKS) datagrams.now }
    requires size { 2 + carried_bytes (D.bytes sent.now) datagrams.now ≤ MAX_ETHERCAT }
    ensures { OnOk result (text.new.items ≡ text.old.items ++ sent_datagrams_text serial (map (datagram_with_data (D.bytes sent.now)) datagrams.now)) }
{
    if let [(task, number), rest @ ..] = datagrams {
        let bytes = sent.bytes_of(*task, *number);
        let address = logical_address(Task(*task), u16::from(*number));
        add_datagram_of(text, serial, address, bytes, !rest.is_empty())?;
        add_datagrams(text, serial, rest, sent)?;
    }
    Ok(())
}

/// Adds the zeros after so many bytes of datagrams, up to the least frame.
fn add_padding(text: &mut Vec<u8>, size: usize) -> Result<(), AllocError>
    requires { size ≤ MAX_ETHERCAT }
    ensures { OnOk result (text.new.items ≡ text.old.items ++ replicate (padding_bytes size) 0) }
{
    let zeros = usize::from(LEAST_FRAME).saturating_sub(HEAD_BYTES + size);
    if zeros == 0 {
        return Ok(());
    }
    text.extend_from_slice(&[0; 44][..zeros])
}

/// Returns the text of a frame with so many bytes of datagrams, written over zeros, which takes the fewest steps for a short
/// frame.
fn text_over_zeros<D: SentData>(
    alloc: Global,
    frame: &Sending,
    sent: &D,
    size: usize,
) -> Result<Items<u8>, AllocError>
    requires serial { frame.now.serial < 2 ^ 40 }
    requires known { All (λ named. named.0 < TASKS) frame.now.datagrams }
    requires most { 2 + carried_bytes (D.bytes sent.now) frame.now.datagrams ≤ MAX_ETHERCAT }
    requires size { size ≡ carried_bytes (D.bytes sent.now) frame.now.datagrams }
    ensures { IfOk result (λ text. text ≡ frame_text_of (D.bytes sent.now) frame.now) }
{
    let whole = HEAD_BYTES + size;
    let mut text = Vec::from_elem(alloc, 0, whole.max(usize::from(LEAST_FRAME)))?;
    write_frame(&mut text, frame, sent);
    Ok(Items::of(text))
}

/// Returns the text of a frame with so many bytes of datagrams, added part by part: no byte of it is written twice.
fn text_by_parts<D: SentData>(
    alloc: Global,
    frame: &Sending,
    sent: &D,
    size: usize,
) -> Result<Items<u8>, AllocError>
    requires serial { frame.now.serial < 2 ^ 40 }
    requires known { All (λ named. named.0 < TASKS) frame.now.datagrams }
    requires most { 2 + carried_bytes (D.bytes sent.now) frame.now.datagrams ≤ MAX_ETHERCAT }
    requires size { size ≡ carried_bytes (D.bytes sent.now) frame.now.datagrams }
    ensures { IfOk result (λ text. text ≡ frame_text_of (D.bytes sent.now) frame.now) }
{
    let datagrams = frame.datagrams();
    let mut text = Vec::with_capacity(alloc, frame.size())?;
    add_head(&mut text, frame.serial(), size as u16)?;
    add_datagrams(&mut text, frame.serial(), datagrams, sent)?;
    add_padding(&mut text, size)?;
    Ok(Items::of(text))
}

/// Returns the text of a frame of tasks, as `write_frame` writes it into a slice. It allocates only the text's memory. Fails
/// with `AllocError` if the allocation fails.
pub fn frame_text<D: SentData>(
    alloc: Global,
    frame: &Sending,
    sent: &D,
) -> Result<Items<u8>, AllocError>
    requires serial { frame.now.serial < 2 ^ 40 }
    requires known { All (λ named. named.0 < TASKS) frame.now.datagrams }
    requires size { 2 + carried_bytes (D.bytes sent.now) frame.now.datagrams ≤ MAX_ETHERCAT }
    ensures { IfOk result (λ text. text ≡ frame_text_of (D.bytes sent.now) frame.now) }
{
    let size = carried_bytes(frame.datagrams(), sent);
    if size <= SHORT_BYTES {
        text_over_zeros(alloc, frame, sent, size)
    } else {
        text_by_parts(alloc, frame, sent, size)
    }
}
