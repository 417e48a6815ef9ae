//! The guard of an opened line. One call runs at a time, and a call that meets another one does not wait. A call begins with a
//! token that is not `Drop`, so each call that begins also ends. Contracts see nothing of the flag, since another thread may
//! change it at any time.
ghost use Rattle.hc_mail.specs.declared.image.LineState.TheVariants.{Closed};
ghost use Rattle.hc_c.specs.SeatImages.{EachTold};

use crate::embedded::Embedded;
use std::sync::atomic::{AtomicU64, Ordering};

/// The token of a running call. It cannot be dropped: `Calls::end` takes it, or `Entered::end_with`.
pub struct Entered {
    only: (),
}

impl Entered {
    /// Ends the call that closes a line, and frees the line's memory. Each seat was shown an image that says so.
    pub fn end_with(self, own: Box<Embedded>)
        requires { EachTold Closed own.value.ends }
    {
        let Entered { only: _ } = self;
        drop(own);
    }
}

/// The number of running calls with the line's handle: 0 or 1.
#[derive(Drop)]
pub struct Calls {
    run: AtomicU64,
}

impl Calls {
    /// Returns a guard without a running call.
    pub fn none() -> Calls {
        Calls {
            run: AtomicU64::new(0),
        }
    }

    /// Begins a call, unless one runs. Only `Handle::enter` calls it, so an `Entered` belongs to a handle's line.
    pub(super) fn begin(&self) -> Option<Entered> {
        if self.run.swap(1, Ordering::SeqCst) != 0 {
            return None;
        }
        Some(Entered { only: () })
    }

    /// Ends a call.
    pub fn end(&self, entered: Entered) {
        let Entered { only: _ } = entered;
        self.run.store(0, Ordering::SeqCst);
    }
}
