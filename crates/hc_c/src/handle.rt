//! The handle of a line, which C stores between two calls.
ghost use Rattle.std.specs.Prelude.{◌≡◌, ◌==◌, IfSome, IsSome, is_some};
ghost use Rattle.std.specs.declared.option.Option.{Option};
ghost use Rattle.std.specs.declared.option.Option.TheVariants.{None, Some};
ghost use Rattle.hc_c.specs.Held.{embedded_coded, owns_embedded};
ghost use Rattle.hc_c.specs.declared.embedded.Embedded.{Embedded};
ghost use Rattle.hc_c.specs.declared.handle.TheConstants.{OPEN};
ghost use Rattle.hc_c.specs.declared.numbers.TheConstants.{BUSY};

pub mod calls;
pub mod unboxed;

use crate::embedded::Embedded;
use crate::numbers::{BUSY, CLOSED, MISUSED};
use calls::Entered;
use std::alloc::Global;
use std::marker::Model;
use std::mem;
use unboxed::Unboxed;

/// The address of an opened line, or none. The type names no other type of this crate, so that C can have it.
#[repr(C)]
#[derive(Drop)]
pub struct Holding {
    at: *mut u8,
    alloc: Global,
    pub ghost value: { Option Embedded } by { embedded_coded },
}

impl Model for Holding {
    ghost also_owns = { λ holding. owns_embedded holding.alloc holding.at holding.value };
}

impl Holding {
    ghost use types.Logic.{sem};
    ghost use Rattle.hc_c.specs.Lending.{LendsLine};

    /// Returns a null pointer: no line is held.
    fn nothing(alloc: Global) -> Holding
        ensures { result.value ≡ None }
    {
        Holding {
            at: std::ptr::null_mut(),
            alloc,
        }
    }

    /// Returns a pointer to an opened line, from its address.
    fn of(own: Unboxed<Embedded, Global>) -> Holding
        ensures { result.value ≡ Some own.value }
    {
        let Unboxed { at, alloc } = own;
        Holding {
            at: at as *mut u8,
            alloc,
        }
    }

    /// Returns the address of the opened line. A line must be held.
    fn into_unboxed(self) -> Unboxed<Embedded, Global>
        requires { IsSome self.value }
        ensures { self.value ≡ Some result.value }
    {
        let Holding { at, alloc } = self;
        Unboxed {
            at: at as *mut Embedded,
            alloc,
        }
    }

    /// Lends the opened line to the call that runs. A call that did not begin has no `Entered`, and cannot take the line.
    pub fn line(&mut self, _entered: &Entered) -> &mut Embedded
        requires { IsSome self.old.value }
        ensures* writes_back { sem 𝓛 (LendsLine self.entry result) }
        ensures value { self.old.value ≡ Some result.now }
    {
        self.line_mut()
    }

    /// Lends the opened line in place: no word of the handle is written.
    fn line_mut(&mut self) -> &mut Embedded
        requires { IsSome self.old.value }
        ensures* writes_back { sem 𝓛 (LendsLine self.entry result) }
        ensures value { self.old.value ≡ Some result.now }
    {
        unsafe { &mut *(self.at as *mut Embedded) }
    }
}

/// The mark of an open handle: the letters "zangjulf". A closed handle has the mark 0. With any other mark it is not a handle.
pub const OPEN: u64 = 0x7a61_6e67_6a75_6c66;

/// The two words that C stores. They are zeros if no line is open.
#[repr(C)]
#[derive(Drop)]
pub struct Handle {
    pub mark: u64,
    pub holding: Holding,
    ghost same: { mark == OPEN ≡ is_some holding.value },
}

impl Handle {
    ghost use Rattle.hc_c.specs.Handles.{HoldsAsBefore, no_line_number};

    /// Returns the handle of an opened line.
    pub fn of(own: Box<Embedded, Global>) -> Handle
        ensures { result.holding.value ≡ Some own.value }
    {
        Handle {
            mark: OPEN,
            holding: Holding::of(Unboxed::of(own)),
        }
    }

    /// Takes the opened line out of the handle, which is then closed. The handle must hold a line.
    pub fn take(&mut self, alloc: Global) -> Box<Embedded, Global>
        requires { IsSome self.old.holding.value }
        ensures taken { self.old.holding.value ≡ Some result.value }
        ensures closed { (self.new.mark ≡ 0) × (self.new.holding.value ≡ None) }
    {
        let closed = Handle {
            mark: 0,
            holding: Holding::nothing(alloc),
        };
        let was = mem::replace(self, closed);
        was.holding.into_unboxed().into_box()
    }

    /// Begins a call on the line that `Holding::line` lends; `Calls::end` ends it. Returns `None` if the handle holds no line
    /// or another call with it runs: `refusal` tells them apart.
    pub fn enter(&mut self) -> Option<Entered>
        ensures line { IfSome result (λ _. IsSome self.new.holding.value) }
        ensures unchanged { HoldsAsBefore self.old self.new }
        ensures closed { self.old.holding.value ≡ None → result ≡ None }
    {
        if self.mark != OPEN {
            return None;
        }
        self.holding.line_mut().calls.begin()
    }

    /// Returns the answer of a call that did not begin: `BUSY` if the handle holds a line, `CLOSED` if it is closed, `MISUSED`
    /// if it was never zeroed.
    pub fn refusal(&self) -> u8
        ensures line { IsSome self.now.holding.value → result ≡ BUSY }
        ensures closed { self.now.holding.value ≡ None → result ≡ no_line_number self.now.mark }
    {
        if self.mark == OPEN {
            BUSY
        } else if self.mark == 0 {
            CLOSED
        } else {
            MISUSED
        }
    }
}

/// Makes a call on the line of a handle: the call begins, the expression after `|own|` is evaluated with the line as `own`, and
/// the call ends. If the call does not begin, the function returns `Handle::refusal`.
macro_rules! with_line {
    ($handle:ident, |$own:ident| $answer:expr) => {{
        let Some(entered) = $handle.enter() else {
            return $handle.refusal();
        };
        let $own = $handle.holding.line(&entered);
        let answer = $answer;
        $own.calls.end(entered);
        answer
    }};
}

pub(crate) use with_line;

/// Values that may move to another thread.
pub fn crosses<T: Send>(it: T) -> T
    ensures { result ≡ it }
{
    it
}

/// Shows by its type that an opened line is `Send`: between two calls it may move to another thread, and be freed there.
pub fn line_crosses(own: Box<Embedded, Global>) -> Box<Embedded, Global>
    ensures { result ≡ own }
{
    crosses(own)
}
