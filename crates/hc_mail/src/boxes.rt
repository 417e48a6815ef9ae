//! The content of a box, made and lent.
ghost use Rattle.std.specs.Prelude.{◌≡◌, IfOk};
ghost use Rattle.std.specs.Borrow.{Lends, sem};
ghost use Rattle.hc_mail.specs.contracts.letter.ContentBox.{the_row};

use crate::content::Content;
use crate::letter::ContentBox;
use std::alloc::{AllocError, Global};

impl<T> ContentBox<T> {
    /// Lends the content.
    pub(crate) fn content(&self) -> &T
        ensures { result.now ≡ self.now }
    {
        &self.own
    }

    /// Lends the content for writing.
    pub(crate) fn content_mut(&mut self) -> &mut T
        ensures* lent { sem 𝓛 (Lends (the_row T.row) T.row self.entry result (λ left. left)) }
        ensures content { result.now ≡ self.old }
    {
        &mut self.own
    }
}

/// Returns a blank content in a box. `AllocError` if an allocation fails.
pub(crate) fn blank_box<T: Content>(
    alloc: Global,
    bytes: usize,
    datagrams: usize,
) -> Result<ContentBox<T>, AllocError>
    ensures { IfOk result (λ content. content ≡ T.kind.blank (bytes, datagrams)) }
{
    let content = T::blank(alloc, bytes, datagrams)?;
    let own = Box::new(alloc, content)?;
    Ok(ContentBox { own })
}
