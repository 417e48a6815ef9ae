//! The part of a task's seat that views.
ghost use Rattle.std.specs.Prelude.{◌≤◌};
ghost use Rattle.hc_publish.specs.Seats.{seat_origin};
ghost use Rattle.hc_rings.specs.declared.post_buffer.TheConstants.{LARGEST_IMAGE};
ghost use Rattle.hc_conductor.specs.Openings.{IsOpenable};

use hc_publish::seat::Seat;

/// A seat at the published copies, with the epoch that it viewed last, 0 before any, and the bytes of its task's outputs in
/// that epoch.
#[derive(Drop)]
pub(crate) struct Viewer {
    pub(crate) seat: Seat,
    pub(crate) epoch: u32,
    pub(crate) size: u16,
    ghost openable: { IsOpenable (seat_origin seat).groups },
    ghost fits: { size ≤ LARGEST_IMAGE },
}
