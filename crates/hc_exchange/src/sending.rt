//! The frames of a task's datagrams with packed output bytes, one datagram in each.
ghost use Rattle.std.specs.Prelude.{◌≡◌, ◌+◌, ◌^◌, ◌<◌, ◌≤◌, ℕ, [], ◌∷◌, IfOk, length, map};
ghost use Rattle.hc_records.specs.declared.limits.TheConstants.{MOST_DATAGRAMS, TASKS};
ghost use Rattle.hc_records.specs.Laws.{IsDatagramLength};
ghost use Rattle.hc_frames.specs.declared.limits.TheConstants.{MAX_DATA};
ghost use Rattle.hc_frames.specs.FrameText.{frame_text, lrw};
ghost use Rattle.hc_frames.specs.Sizes.{frame_size};
ghost use Rattle.hc_images.specs.Packed.{HoldsOutputValues, IsLaidOut, sent_bytes};
ghost use Rattle.hc_images.specs.Values.{posted_values};
ghost use Rattle.hc_exchange.specs.Sent.{task_frames};

use hc_frames::building::{build_datagram_of, build_head, frame_size};
use hc_frames::limits::{BESIDE_DATA_BYTES, HEAD_BYTES};
use hc_images::outputs::Outputs;
use hc_places::table::Places;
use hc_records::limits::TASKS;
use hc_records::task::Task;
use hc_registers::fmmu::logical_address;
use std::alloc::{AllocError, Global};

/// The output values of a task's image, packed as they are sent. `AllocError` if an allocation failed.
pub(crate) fn packed(
    alloc: Global,
    places: &Places,
    task: u8,
    image: &[u8],
) -> Result<Outputs, AllocError>
    requires { IsLaidOut places.now }
    ensures { IfOk result (λ packed. task < TASKS → HoldsOutputValues places.now (posted_values places.now task image.now (λ variable k. 0)) packed) }
{
    let mut packed = Outputs::new(alloc, places)?;
    if task < TASKS {
        packed.post(places, Task(task), image);
    }
    Ok(packed)
}

/// Writes the frame of one LRW datagram with these data into a slice of its exact size.
fn write_lrw(out: &mut [u8], serial: u64, address: u32, bytes: &[u8])
    requires exact { length out.old ≡ frame_size (length bytes.now) }
    requires serial { serial < 2 ^ 40 }
    requires size { length bytes.now ≤ MAX_DATA }
    ensures { out.new ≡ frame_text serial (lrw address bytes.now ∷ []) }
{
    let size = BESIDE_DATA_BYTES + bytes.len();
    let (head, rest) = out.split_at_mut(HEAD_BYTES);
    let (datagram, padding) = rest.split_at_mut(size);
    build_head(head, serial, size as u16);
    build_datagram_of(datagram, serial, address, bytes, false);
    padding.fill(0);
}

/// The frame of one LRW datagram with these data, in memory of its own. `AllocError` if the allocation failed.
fn frame_of(alloc: Global, serial: u64, address: u32, bytes: &[u8]) -> Result<Vec<u8>, AllocError>
    requires serial { serial < 2 ^ 40 }
    requires size { length bytes.now ≤ MAX_DATA }
    ensures { IfOk result (λ frame. frame.items ≡ frame_text serial (lrw address bytes.now ∷ [])) }
{
    let mut frame = vec![in alloc; 0; frame_size(bytes.len() as u16)]?;
    write_lrw(frame.as_mut_slice(), serial, address, bytes);
    Ok(frame)
}

/// The frames of a task's first `count` datagrams, with serials from `serial` on. `AllocError` if an allocation failed.
pub(crate) fn frames_of(
    alloc: Global,
    serial: u64,
    task: u8,
    count: usize,
    packed: &Outputs,
) -> Result<Vec<Vec<u8>>, AllocError>
    requires serial { serial + 16 ≤ 2 ^ 40 }
    requires few { count ≤ MOST_DATAGRAMS }
    requires task { 0 < count → task < TASKS }
    requires sizes { (d : ℕ) → d < count → IsDatagramLength (length (sent_bytes packed.now task d)) }
    ensures { IfOk result (λ frames. map (λ frame. frame.items) frames.items ≡ task_frames serial task count (sent_bytes packed.now task)) }
{
    let mut frames = Vec::with_capacity(alloc, count)?;
    for n in 0..count {
        let address = logical_address(Task(task), n as u16);
        let frame = frame_of(
            alloc,
            serial + n as u64,
            address,
            packed.bytes(task, n as u8),
        )?;
        frames.push_reserved(frame);
    }
    Ok(frames)
}
