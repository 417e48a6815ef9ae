//! Laws of the definitions that the contracts of C's calls use.
ghost use Rattle.hc_c.specs.Beside.{BuiltIsMine};
ghost use Rattle.hc_c.specs.LastSendings.{CallsLead, SeatsSeeTheState, StatesTellLastData};
ghost use Rattle.hc_c.specs.Offsets.{ReadsHoldByOffset};

/// `zangjulf_is_mine` recognises each frame that the library writes.
pub fn built_is_mine()
    ensures { BuiltIsMine }
{}

/// The image that `zangjulf_read` writes holds the data of each datagram with data at the datagram's offset. Every other byte
/// of the image is 0, and the image has as many bytes as the task's outputs and inputs together.
pub fn reads_hold_by_offset()
    ensures { ReadsHoldByOffset }
{}

/// The state of a task is `COMPLETE` exactly if the data of each of its datagrams are of the last frame that carried it, and
/// `NO_DATA` exactly if it has datagrams and none has such data. A task without datagrams is complete. A task each of whose
/// datagrams had a good answer since it was sent last is complete. If the last frame that carried one of its datagrams did not
/// come back, a task is not complete. This holds for each line that events led to.
pub fn states_tell_last_data()
    ensures { StatesTellLastData }
{}

/// Each call from C leads to such a line: an opening, a sending of ready tasks, and every other call, which leaves the first
/// serials of the tasks' last sendings.
pub fn calls_lead()
    ensures { CallsLead }
{}

/// An image that a seat is shown has the state that a read reports at that moment.
pub fn seats_see_the_state()
    ensures { SeatsSeeTheState }
{}
