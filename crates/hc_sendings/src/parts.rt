//! `part_size`: the bytes of one task in the frames of several tasks, so that tasks can be written side by side.
ghost use Rattle.std.specs.Prelude.{◌≡◌, ◌+◌, ◌*◌, ◌≤◌, All, length, sum_by};
ghost use Rattle.hc_records.specs.Line.{line};
ghost use Rattle.hc_frames.specs.declared.limits.TheConstants.{SETUP_SERIAL};
ghost use Rattle.hc_events.specs.Accepted.{IsInLine};
ghost use Rattle.hc_sendings.specs.Parts.{frame_part, own_bytes, own_share, part_size, share};

use hc_events::sending::{Named, Sending};
use hc_frames::limits::{BESIDE_DATA_BYTES, HEAD_BYTES, LEAST_FRAME};
use hc_plan::plan::Plan;

/// Returns the bytes of a datagram of the plan's line with its header and its working counter, at most 1,498.
fn own_bytes(plan: &Plan, datagram: Named) -> usize
    requires { IsInLine (line plan.now) datagram }
    ensures bytes { result ≡ own_bytes (line plan.now) datagram }
    ensures most { result ≤ 1498 }
{
    let (task, number) = datagram;
    let datagrams = plan.places().datagrams(task);
    BESIDE_DATA_BYTES + usize::from(datagrams[usize::from(number)].length)
}

/// Returns the bytes of datagrams of the plan's line, of which there are at most 115.
fn datagrams_bytes(plan: &Plan, datagrams: &[Named]) -> usize
    requires in_line { All (IsInLine (line plan.now)) datagrams.now }
    requires few { length datagrams.now ≤ 115 }
    ensures bytes { result ≡ sum_by (own_bytes (line plan.now)) datagrams.now }
    ensures most { result ≤ 172270 }
{
    let mut bytes = 0;
    for datagram in datagrams {
        bytes += own_bytes(plan, *datagram);
    }
    bytes
}

/// Returns the bytes of a task's datagrams among these.
fn own_share(plan: &Plan, datagrams: &[Named], task: u8) -> usize
    requires in_line { All (IsInLine (line plan.now)) datagrams.now }
    requires few { length datagrams.now ≤ 115 }
    ensures bytes { result ≡ sum_by (own_share (line plan.now) task) datagrams.now }
    ensures most { result ≤ 172270 }
{
    let mut bytes = 0;
    for datagram in datagrams {
        if datagram.0 == task {
            bytes += own_bytes(plan, *datagram);
        }
    }
    bytes
}

/// Returns `bytes` if there is a datagram and it is one of the task's, otherwise 0.
pub(crate) fn share(task: u8, bytes: usize, datagram: Option<Named>) -> usize
    ensures bytes { result ≡ share task bytes datagram }
    ensures most { result ≤ bytes }
{
    match datagram {
        None => 0,
        Some(named) => { if named.0 == task { bytes } else { 0 } }
    }
}

/// The bytes of a task's part of a frame with these datagrams.
fn frame_part(plan: &Plan, datagrams: &[Named], task: u8) -> usize
    requires in_line { All (IsInLine (line plan.now)) datagrams.now }
    requires few { length datagrams.now ≤ 115 }
    ensures bytes { result ≡ frame_part (line plan.now) task datagrams.now }
    ensures most { result ≤ 172330 }
{
    let bytes = datagrams_bytes(plan, datagrams);
    let padding = usize::from(LEAST_FRAME).saturating_sub(HEAD_BYTES + bytes);
    share(task, HEAD_BYTES, datagrams.first().copied())
        + own_share(plan, datagrams, task)
        + share(task, padding, datagrams.last().copied())
}

/// Returns the bytes of a task's part of frames of the plan's line. The part has the task's datagrams, the 16 bytes before
/// those of a frame whose first datagram is the task's, and the zeros after those of a frame whose last one is.
pub fn part_size(plan: &Plan, frames: &[Sending], task: u8) -> usize
    requires in_line { All (λ frame. All (IsInLine (line plan.now)) frame.datagrams) frames.now }
    requires few { length frames.now ≤ SETUP_SERIAL }
    ensures { result ≡ part_size (line plan.now) task frames.now }
{
    let mut size = 0;
    for frame in frames {
        size += frame_part(plan, frame.datagrams(), task);
    }
    size
}
