//! The contents that a mailbox carries, all of one kind.
ghost use Rattle.std.specs.Prelude.{◌≡◌, IfOk};
ghost use Rattle.hc_mail.specs.Contents.{Kind};

use std::alloc::{AllocError, Global};

/// A content that a mailbox carries. Its capacity is fixed, and all its memory is allocated at the opening.
pub trait Content: Drop {
    ghost kind: { Kind Self };

    /// Returns a blank content with a capacity in bytes and datagrams. `AllocError` if an allocation fails.
    fn blank(alloc: Global, bytes: usize, datagrams: usize) -> Result<Self, AllocError>
        ensures { IfOk result (λ content. content ≡ kind.blank (bytes, datagrams)) };
}
