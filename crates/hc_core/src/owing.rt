//! `Core::owed_block`: the owed register blocks, one by one.
ghost use Rattle.std.specs.Prelude.{◌≡◌, IfSome, slice_get};
ghost use Rattle.hc_events.specs.Owed.{owed_blocks};
ghost use Rattle.hc_core.specs.Firsts.{HasBlockBytes};

use crate::keeping::Core;
use hc_plan::blocks::LineBlock;

impl Core {
    /// Returns the owed block with an index, from 0, in line order and block order, which is the order of their writes. None if
    /// fewer are owed. The block has 1 to 16 bytes. It allocates nothing.
    pub fn owed_block(&self, index: u32) -> Option<LineBlock>
        ensures block { result ≡ slice_get (owed_blocks self.now.history) index }
        ensures bytes { IfSome result (λ block. HasBlockBytes block.block) }
    {
        let found = self.owed.nth(&self.plan, index)?;
        Some(found.block)
    }
}
