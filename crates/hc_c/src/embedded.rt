//! The line of an open handle.

use crate::counting::Counts;
use crate::handle::calls::Calls;
use crate::seat::ends::OwnerEnds;
use crate::spare::Spare;
use hc_core::keeping::Core;

/// An opened line: its core, the counters, the owner's ends of the seats, lists that calls use again, and the guard of its
/// calls.
pub struct Embedded {
    /// The core.
    pub core: Core,
    /// The first serial of each task's last sending, 0 before the first.
    pub sent_from: [u64; 8],
    /// The counters of each datagram.
    pub counts: Counts,
    /// The owner's ends of the tasks' seats.
    pub ends: OwnerEnds,
    /// Lists that calls use again.
    pub spare: Spare,
    /// The guard: one call runs at a time.
    pub calls: Calls,
}

impl Drop for Embedded {
    fn drop(self) {
        let Embedded {
            core: _,
            sent_from: _,
            counts: _,
            ends: _,
            spare: _,
            calls: _,
        } = self;
    }
}
