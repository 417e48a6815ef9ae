//! The loops of docs/use/CONDUCTOR.md, as they are there.
ghost use Rattle.std.specs.Prelude.{◌≡◌};
ghost use Rattle.hc_conductor.specs.Seats.{task_seat_origin};

use hc_conductor::conductor::Conductor;
use hc_conductor::seat::TaskSeat;
use hc_events::faults::CoreFault;
use hc_events::sending::Sending;
use hc_records::records::VarId;
use std::alloc::Global;
use std::sync::Wait;

/// The network to which frames go.
pub trait Network {
    /// Sends a frame out. The frame that comes back is in its place.
    fn exchange(&mut self, frame: &mut [u8]);
}

/// Room for the frames of both tasks.
const ROOM: usize = 256;

/// Writes each owed register block.
fn write_owed<N: Network>(
    alloc: Global,
    conductor: &mut Conductor,
    network: &mut N,
) -> Result<(), CoreFault> {
    let mut frame = [0; ROOM];
    for _ in 0..conductor.core().owed() {
        let size = conductor.next_write(&mut frame)?;
        let Some(sent) = frame.get_mut(..size) else {
            return Ok(());
        };
        network.exchange(sent);
        conductor.arrive(alloc, sent);
    }
    Ok(())
}

/// Sends each frame out, and hands the frame that comes back to the conductor.
fn exchange_all<N: Network>(
    alloc: Global,
    conductor: &mut Conductor,
    network: &mut N,
    frames: &[Sending],
    arena: &mut [u8; ROOM],
) {
    let mut at: usize = 0;
    for frame in frames {
        let end = at.saturating_add(frame.size());
        let Some(sent) = arena.get_mut(at..end) else {
            return;
        };
        network.exchange(sent);
        conductor.arrive(alloc, sent);
        at = end;
    }
}

/// One cycle of the master's thread.
pub fn master_cycle<R: Wait, N: Network>(
    rt: &R,
    alloc: Global,
    conductor: &mut Conductor,
    network: &mut N,
) -> Result<(), CoreFault> {
    write_owed(alloc, conductor, network)?; // register blocks that the line lacks
    conductor.take_posts(); // what the tasks posted is sent from now on
    let mut arena = [0; ROOM];
    let frames = conductor.send(alloc, &[0, 1], &mut arena)?;
    exchange_all(alloc, conductor, network, &frames, &mut arena);
    conductor.publish(rt, alloc)?; // what came is seen from now on
    Ok(())
}

/// The value that a task reads, and its seat.
fn read(seat: TaskSeat, input: VarId) -> (TaskSeat, Option<u64>)
    ensures { task_seat_origin result.0 ≡ task_seat_origin seat }
{
    match seat.view() {
        Ok(view) => {
            let value = view.value(input).ok();
            (view.leave(), value)
        }
        Err(seat) => (seat, None), // no entry: the seat as it was
    }
}

/// Posts outputs, each byte as this one, for the epoch that was viewed last.
fn post(seat: &mut TaskSeat, byte: u8)
    ensures { task_seat_origin seat.new ≡ task_seat_origin seat.old }
{
    if seat.hold().is_err() {
        return; // four posts wait
    }
    seat.held_mut().fill(byte);
    let _ = seat.post(); // refused, they stay held
}

/// One cycle of a task's thread. Returns the value that it read, and the seat for the next cycle, which is of the same
/// conductor.
pub fn task_cycle(seat: TaskSeat, input: VarId, byte: u8) -> (TaskSeat, Option<u64>)
    ensures { task_seat_origin result.0 ≡ task_seat_origin seat }
{
    let (mut seat, value) = read(seat, input);
    post(&mut seat, byte);
    (seat, value)
}
