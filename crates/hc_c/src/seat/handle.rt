//! The handle of a seat, which C stores between two calls.
ghost use Rattle.std.specs.Prelude.{◌≡◌, ◌==◌, IsSome, is_some};
ghost use Rattle.std.specs.declared.option.Option.{Option};
ghost use Rattle.std.specs.declared.option.Option.TheVariants.{None, Some};
ghost use Rattle.hc_c.specs.HeldSeat.{end_coded, owns_end};
ghost use Rattle.hc_c.specs.declared.seat.ends.TaskEnd.{TaskEnd};
ghost use Rattle.hc_c.specs.declared.seat.limits.TheConstants.{OPEN_SEAT};

use crate::handle::crosses;
use crate::handle::unboxed::Unboxed;
use crate::numbers::{CLOSED, MISUSED};
use crate::seat::ends::TaskEnd;
use crate::seat::limits::OPEN_SEAT;
use std::alloc::Global;
use std::marker::Model;
use std::mem;

/// The address of a task's end, or none. The type names no other type of this crate, so that C can have it.
#[repr(C)]
#[derive(Drop)]
pub struct SeatHolding {
    at: *mut u8,
    alloc: Global,
    pub ghost value: { Option TaskEnd } by { end_coded },
}

impl Model for SeatHolding {
    ghost also_owns = { λ holding. owns_end holding.alloc holding.at holding.value };
}

impl SeatHolding {
    ghost use types.Logic.{sem};
    ghost use Rattle.hc_c.specs.LendingEnd.{LendsEnd};

    /// Returns a null pointer: no end is held.
    fn nothing(alloc: Global) -> SeatHolding
        ensures { result.value ≡ None }
    {
        SeatHolding {
            at: std::ptr::null_mut(),
            alloc,
        }
    }

    /// Returns a pointer to a task's end, from its address.
    fn of(own: Unboxed<TaskEnd, Global>) -> SeatHolding
        ensures { result.value ≡ Some own.value }
    {
        let Unboxed { at, alloc } = own;
        SeatHolding {
            at: at as *mut u8,
            alloc,
        }
    }

    /// Returns the address of the task's end. An end must be held.
    fn into_unboxed(self) -> Unboxed<TaskEnd, Global>
        requires { IsSome self.value }
        ensures { self.value ≡ Some result.value }
    {
        let SeatHolding { at, alloc } = self;
        Unboxed {
            at: at as *mut TaskEnd,
            alloc,
        }
    }

    /// Lends the task's end in place: no word of the handle is written.
    pub fn end_mut(&mut self) -> &mut TaskEnd
        requires { IsSome self.old.value }
        ensures* writes_back { sem 𝓛 (LendsEnd self.entry result) }
        ensures value { self.old.value ≡ Some result.now }
    {
        unsafe { &mut *(self.at as *mut TaskEnd) }
    }
}

/// The two words that C stores. They are zeros if no seat is open.
#[repr(C)]
#[derive(Drop)]
pub struct SeatHandle {
    pub mark: u64,
    pub holding: SeatHolding,
    ghost same: { mark == OPEN_SEAT ≡ is_some holding.value },
}

impl SeatHandle {
    ghost use Rattle.hc_c.specs.Handles.{no_line_number};

    /// Returns the handle of an open seat.
    pub fn of(own: Box<TaskEnd, Global>) -> SeatHandle
        ensures { result.holding.value ≡ Some own.value }
    {
        SeatHandle {
            mark: OPEN_SEAT,
            holding: SeatHolding::of(Unboxed::of(own)),
        }
    }

    /// Returns whether a seat is open.
    pub fn is_open(&self) -> bool
        ensures { result ≡ is_some self.now.holding.value }
    {
        self.mark == OPEN_SEAT
    }

    /// Returns the answer of a handle without a seat: `CLOSED` if it is closed, `MISUSED` if it was never zeroed.
    pub fn refusal(&self) -> u8
        requires { self.now.holding.value ≡ None }
        ensures { result ≡ no_line_number self.now.mark }
    {
        if self.mark == 0 { CLOSED } else { MISUSED }
    }

    /// Takes the task's end out of the handle, which is then closed. The handle must hold one.
    pub fn take(&mut self, alloc: Global) -> Box<TaskEnd, Global>
        requires { IsSome self.old.holding.value }
        ensures taken { self.old.holding.value ≡ Some result.value }
        ensures closed { (self.new.mark ≡ 0) × (self.new.holding.value ≡ None) }
    {
        let closed = SeatHandle {
            mark: 0,
            holding: SeatHolding::nothing(alloc),
        };
        let was = mem::replace(self, closed);
        was.holding.into_unboxed().into_box()
    }
}

/// Shows by its type that the end in a seat's handle is `Send`: between two calls it may move to another thread, and be freed
/// there.
pub fn end_crosses(own: Box<TaskEnd, Global>) -> Box<TaskEnd, Global>
    ensures { result ≡ own }
{
    crosses(own)
}
