//! The loop of docs/use/CONDUCTOR.md by which a tool docks between two cycles, as it is there.
use crate::loops::Network;
use hc_conductor::conductor::Conductor;
use hc_events::answer::{Answer, Outcome};
use hc_events::faults::CoreFault;
use hc_records::edit::Edit;
use std::alloc::Global;

/// The most bytes of a frame.
const FRAME: usize = 1514;

/// The number of tries to write a tool's blocks before it is given up.
const TRIES: usize = 2;

/// Carries an edit out, or returns the fault by which it is refused.
fn edit(alloc: Global, conductor: &mut Conductor, edit: &Edit) -> Result<(), CoreFault> {
    match conductor.edit(alloc, edit) {
        Answer::Refused(fault) => Err(fault),
        _ => Ok(()),
    }
}

/// Writes the owed register blocks that fit into one frame. True if each of them was written.
fn is_frame_written<N: Network>(
    alloc: Global,
    conductor: &mut Conductor,
    network: &mut N,
) -> Result<bool, CoreFault> {
    let mut frame = [0; FRAME];
    let writes = conductor.next_writes(&mut frame)?;
    let Some(sent) = frame.get_mut(..writes.size) else {
        return Ok(false);
    };
    network.exchange(sent);
    Ok(match conductor.arrive(alloc, sent) {
        Answer::Written(blocks) => blocks
            .as_slice()
            .iter()
            .all(|block| *block == Outcome::Done),
        Answer::WriteDone => true,
        _ => false,
    })
}

/// Writes all owed register blocks. False if a frame misses one.
fn are_written<N: Network>(
    alloc: Global,
    conductor: &mut Conductor,
    network: &mut N,
) -> Result<bool, CoreFault> {
    for _ in 0..conductor.core().owed() {
        if conductor.core().owed() == 0 {
            return Ok(true);
        }
        if !is_frame_written(alloc, conductor, network)? {
            return Ok(false);
        }
    }
    Ok(conductor.core().owed() == 0)
}

/// Docks a tool between two cycles. True if its blocks are written. If two tries miss a block, the tool is given up, and the
/// line is as it was before.
pub fn dock<N: Network>(
    alloc: Global,
    conductor: &mut Conductor,
    network: &mut N,
    alias: u16,
) -> Result<bool, CoreFault> {
    edit(alloc, conductor, &Edit::Connect(alias))?;
    for _ in 0..TRIES {
        if are_written(alloc, conductor, network)? {
            return Ok(true);
        }
    }
    edit(alloc, conductor, &Edit::Disconnect(alias))?;
    Ok(false)
}
