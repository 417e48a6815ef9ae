//! Holders of the newest content that a receiver took.
ghost use Rattle.std.specs.Prelude.{◌≡◌};

use crate::letter::ContentBox;
use std::mem;

/// A holder of a content. A look exchanges that content for the newest one.
pub trait Holder<T> {
    ghost held: { Self → T };

    /// Exchanges the content for the one in a box. Pointers move, and no byte of the contents does.
    fn exchange(&mut self, content: &mut ContentBox<T>)
        ensures taken { held self.new ≡ content.old }
        ensures given { content.new ≡ held self.old };
}

impl<T> Holder<T> for ContentBox<T> {
    ghost held = { λ content. content };

    fn exchange(&mut self, content: &mut ContentBox<T>) {
        mem::swap(self, content);
    }
}
