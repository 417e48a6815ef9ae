//! Sending of ready tasks, while register blocks of other tasks may be owed.
ghost use Rattle.std.specs.Prelude.{◌≡◌, ◌≢◌, ◌+◌, ◌<◌, ℕ, IfSome, None, length, sum_by};
ghost use Rattle.hc_events.specs.Calls.{AreSentTogether, frames_size};
ghost use Rattle.hc_events.specs.declared.faults.CoreFault.TheVariants.{Room};
ghost use Rattle.hc_events.specs.Faults.{core_fault_number};
ghost use Rattle.hc_events.specs.Sendings.{sent_frame_size};
ghost use Rattle.hc_c.specs.Embedded.{all_sent_from, embedded_history, tasks_sent};
ghost use Rattle.hc_c.specs.Handles.{Becomes, HoldsAsBefore, IfAnswered, IfAnsweredWith, no_line_number};
ghost use Rattle.hc_c.specs.Lists.{put_first};
ghost use Rattle.hc_c.specs.Numbers.{refusal_number};
ghost use Rattle.hc_c.specs.Sends.{SendsFrames, TellsWait, send_refusal, sent_out, table_from};
ghost use Rattle.hc_c.specs.declared.numbers.TheConstants.{ROOM};

use crate::embedded::Embedded;
use crate::handle::{Handle, with_line};
use crate::numbers::{DONE, MEMORY, MISUSED, WAITS};
use crate::too_short::refuse;
use crate::widths::in_32_bits;
use hc_events::faults::CoreFault;
use hc_events::sending::Sending;
use hc_events::together::Together;

/// The place of a frame among those that were sent, in C.
#[repr(C)]
#[derive(Clone, Copy)]
pub struct SentFrame {
    /// The offset of the frame in the slice, in bytes.
    offset: u32,
    /// The length of the frame, 60 to 1,514 bytes.
    size: u32,
}

/// A task that waits, with the numbers of blocks and registers that hold it up, in C.
#[repr(C)]
#[derive(Clone, Copy)]
pub struct WaitingTask {
    /// The number of owed register blocks that concern it.
    blocks: u32,
    /// The number of registers of slaves outside the line that concern it.
    outside: u32,
    /// The task, 0 to 7.
    task: u8,
    reserved: [u8; 3],
}

/// The result of a sending, in C.
#[repr(C)]
#[derive(Clone, Copy)]
pub struct Sent {
    /// The serial of the first frame; later frames have consecutive serials.
    first_serial: u64,
    /// The length of all frames together, in bytes.
    size: u32,
    /// The number of frames, at most 128.
    frames: u32,
    /// The first task that waits, if the sending fails with `WAITS`; zeros after `DONE`.
    waits: WaitingTask,
    reserved: u32,
}

/// Writes the places of frames to the front of `table`, as many as fit; the first frame begins at the byte `at`. A sending has
/// at most 128 frames, which bounds the recursion.
fn put_table(at: u32, frames: &[Sending], table: &mut [SentFrame])
    requires { at + sum_by sent_frame_size frames.now < 4294967296 }
    ensures { table.new ≡ put_first (table_from at frames.now) table.old }
{
    let Some((frame, rest)) = frames.split_first() else {
        return;
    };
    let Some((first, others)) = table.split_first_mut() else {
        return;
    };
    let size = in_32_bits(frame.size());
    *first = SentFrame { offset: at, size };
    put_table(at + size, rest, others);
}

/// Stores `serial` as the first serial of the last sending of each of these tasks. There are at most eight, which bounds the
/// recursion.
fn note_sent(firsts: &mut [u64], tasks: &[u8], serial: u64)
    ensures { firsts.new ≡ all_sent_from serial firsts.old tasks.now }
{
    let Some((task, rest)) = tasks.split_first() else {
        return;
    };
    let task = usize::from(*task);
    if task < firsts.len() {
        firsts[task] = serial;
    }
    note_sent(firsts, rest, serial);
}

/// Returns the number of a refusal. With `ROOM` it also writes the length needed, with `WAITS` the task that waits.
#[tactic(auto, using(crate::proofs::Rooms::room_alone, crate::proofs::Rooms::waits_alone))]
fn refuse_frames(fault: CoreFault, sent: &mut Sent) -> u8
    requires { (bytes : ℕ) → fault ≡ Room bytes → bytes < 4294967296 }
    ensures number { result ≡ core_fault_number fault }
    ensures room { result ≡ ROOM → (fault ≡ Room sent.new.size) × (sent.new ≡ record sent.old { size = sent.new.size }) }
    ensures waits { result ≡ WAITS → TellsWait fault sent.old sent.new }
    ensures unwritten { result ≢ ROOM → result ≢ WAITS → sent.new ≡ sent.old }
{
    if let CoreFault::Waits {
        task,
        blocks,
        outside,
    } = fault
    {
        sent.waits = WaitingTask {
            blocks,
            outside,
            task,
            reserved: [0; 3],
        };
    }
    refuse(fault, &mut sent.size)
}

/// Returns the C form of a sending that is done.
fn sent_out(first_serial: u64, size: usize, frames: usize) -> Sent
    requires size { size < 4294967296 }
    requires frames { frames < 4294967296 }
    ensures { result ≡ sent_out first_serial size frames }
{
    Sent {
        first_serial,
        size: in_32_bits(size),
        frames: in_32_bits(frames),
        waits: WaitingTask {
            blocks: 0,
            outside: 0,
            task: 0,
            reserved: [0; 3],
        },
        reserved: 0,
    }
}

/// Sends ready tasks that can be sent together. Returns `DONE` or the number of the refusal.
#[tactic(auto, using(crate::proofs::Rooms::ready_frames_need))]
fn send_tasks(
    own: &mut Embedded,
    tasks: &[u8],
    out: &mut [u8],
    table: &mut [SentFrame],
    sent: &mut Sent,
) -> u8
    requires { AreSentTogether tasks.now }
    ensures answer { result ≡ refusal_number (send_refusal (embedded_history own.old) tasks.now (length out.old)) }
    ensures memory { result ≢ MEMORY }
    ensures sent { result ≡ DONE → SendsFrames (embedded_history own.old) tasks.now out.old out.new table.old table.new sent.new }
    ensures entries { result ≡ DONE → own.new ≡ tasks_sent tasks.now own.old }
    ensures needed { result ≡ ROOM → sent.new ≡ record sent.old { size = frames_size (embedded_history own.old) tasks.now } }
    ensures waits { result ≡ WAITS → IfSome (send_refusal (embedded_history own.old) tasks.now (length out.old)) (λ fault. TellsWait fault sent.old sent.new) }
    ensures unwritten { result ≢ DONE → result ≢ ROOM → result ≢ WAITS → sent.new ≡ sent.old }
    ensures unchanged { result ≢ DONE → own.new ≡ own.old }
    ensures untouched { result ≢ DONE → (out.new ≡ out.old) × (table.new ≡ table.old) }
{
    let first_serial = own.core.next_serial();
    // the plan says that the line is a project's and its tasks have few datagrams, so that sizes and counts fit 32 bits
    let _ = own.core.plan().places();
    let spare = &mut own.spare;
    let frames = &mut spare.frames;
    match own.core.send_ready_into(tasks, out, frames) {
        Ok(size) => {
            *sent = sent_out(first_serial, size, frames.len());
            put_table(0, frames.as_slice(), table);
            note_sent(&mut own.sent_from, tasks, first_serial);
            own.counts.count_frames(frames.as_slice());
            DONE
        }
        Err(fault) => refuse_frames(fault, sent),
    }
}

/// Sends ready tasks, in the order of `tasks`. A task is ready if no owed register block concerns it and no slave outside the
/// line may take part in it. Returns `DONE`. It allocates nothing, since the list of frames has its capacity from the opening.
///
/// `out` begins with the frames, one after another and each of its own length. `table` begins with their places, as many as
/// fit. `sent` has the first serial, the length and the number of frames; there is none if the tasks have no datagram.
///
/// Fails with the first of these; then nothing is sent and nothing has changed:
///
/// - `BUSY`, `CLOSED` or `MISUSED`.
/// - `MISUSED`: there is no task, there are more than 8, or one is named twice.
/// - `NoSuchTask`, 8: a task is over 7.
/// - `WAITS`: a task waits. `sent.waits` is the first that does; the rest of `sent` is unchanged.
/// - `SerialsSpent`, 19: too few serials are left.
/// - `ROOM`: `out` is too short. `sent.size` is the length needed; the rest of `sent` is unchanged.
#[unsafe(no_mangle)]
pub extern "C" fn zangjulf_send(
    handle: &mut Handle,
    tasks: &[u8],
    out: &mut [u8],
    table: &mut [SentFrame],
    sent: &mut Sent,
) -> u8
    ensures answer { IfAnswered handle.old result (λ history. AreSentTogether tasks.now → result ≡ refusal_number (send_refusal history tasks.now (length out.old))) }
    ensures misused { IfAnswered handle.old result (λ _. ¬ AreSentTogether tasks.now → result ≡ MISUSED) }
    ensures memory { result ≢ MEMORY }
    ensures sent { IfAnsweredWith DONE handle.old result (λ history. SendsFrames history tasks.now out.old out.new table.old table.new sent.new) }
    ensures entries { result ≡ DONE → Becomes handle.old handle.new (tasks_sent tasks.now) }
    ensures needed { IfAnsweredWith ROOM handle.old result (λ history. sent.new ≡ record sent.old { size = frames_size history tasks.now }) }
    ensures waits { IfAnsweredWith WAITS handle.old result (λ history. IfSome (send_refusal history tasks.now (length out.old)) (λ fault. TellsWait fault sent.old sent.new)) }
    ensures unwritten { result ≢ DONE → result ≢ ROOM → result ≢ WAITS → sent.new ≡ sent.old }
    ensures unchanged { result ≢ DONE → HoldsAsBefore handle.old handle.new }
    ensures untouched { result ≢ DONE → (out.new ≡ out.old) × (table.new ≡ table.old) }
    ensures closed { handle.old.holding.value ≡ None → (result ≡ no_line_number handle.old.mark) × (sent.new ≡ sent.old) }
{
    with_line!(handle, |own| match Together::of(tasks) {
        Some(_) => send_tasks(own, tasks, out, table, sent),
        None => MISUSED,
    })
}
