//! `RegisterBlocks`: the register blocks of a line, which a plan stores beside its table. Its look-ups read them, and an edit puts
//! its moved blocks in their place.
ghost use Rattle.std.specs.Prelude.{◌≡◌};
ghost use Rattle.hc_registers.specs.Blocks.{same_bytes};

use crate::opened_blocks::block_at_place;
use crate::placed_line::PlacedLine;
use hc_groups::index::Indexed;
use hc_records::room::Room;
use hc_registers::blocks::Block;
use hc_registers::ranked::{Gone, RankedBlock};
use std::alloc::{AllocError, Global};
use std::marker::Model;

/// The places of each declared slave, present or not: one for each block number.
const SLAVE_PLACES: usize = 16;

/// The register blocks of a line at sixteen places for each declared slave, by rank: those of a slave outside the line are
/// empty. Contracts see the list of the places.
#[derive(Debug, Drop)]
pub(crate) struct RegisterBlocks {
    places: Vec<Option<Block>>,
}

impl Model for RegisterBlocks {
    ghost use Rattle.std.specs.Prelude.{List, Option};
    ghost use Rattle.hc_registers.specs.Blocks.{RegisterBlock};

    ghost Value = { List (Option RegisterBlock) };

    ghost view = { λ blocks. blocks.places.items };
}

/// True if two blocks have the same bytes at the same register.
fn is_same(a: &Block, b: &Block) -> bool
    ensures { result ≡ same_bytes a.now b.now }
{
    a.register() == b.register() && a.bytes() == b.bytes()
}

impl RegisterBlocks {
    ghost use Rattle.std.specs.Prelude.{◌≡◌, ◌+◌, ◌*◌, ◌++◌, ◌<◌, ◌≤◌, All, IfOk, None, length, map, option_map, replicate};
    ghost use Rattle.hc_registers.specs.RankDifferences.{block_place, first_gone};
    ghost use Rattle.hc_registers.specs.RankPlaces.{place};
    ghost use Rattle.hc_records.specs.Lists.{changed_at};
    ghost use Rattle.hc_plan.specs.RegisterBlocks.{block_in, blocks_by_rank, has_at, replaced_from};
    ghost use Rattle.hc_plan.specs.inner.Blocks.{IsLayoutOf};
    ghost use Rattle.hc_plan.specs.inner.MovedBlocks.{is_stored};
    ghost use Rattle.hc_plan.specs.inner.RegisterBlocks.{BlocksAreEdited, with_all_moved, with_moved};

    /// Returns the blocks of the line of a project's declared groups, from the places of the line's areas. Fails with
    /// `AllocError` if an allocation fails.
    pub(crate) fn open(
        alloc: Global,
        groups: &Indexed<'_>,
        layout: &PlacedLine,
    ) -> Result<RegisterBlocks, AllocError>
        requires { IsLayoutOf groups.now layout.now }
        ensures { IfOk result (λ blocks. blocks ≡ blocks_by_rank groups.now) }
    {
        let count = SLAVE_PLACES * groups.declared();
        let mut places = Vec::with_capacity(alloc, count)?;
        for place in 0..count {
            places.push(block_at_place(groups, layout, place))?;
        }
        Ok(RegisterBlocks { places })
    }

    /// Returns the block at a place, from 0; none if the place is empty, or if there is no such place.
    pub(crate) fn at(&self, place: usize) -> Option<Block>
        ensures { result ≡ has_at self.now place }
    {
        match self.places.get(place) {
            Some(Some(block)) => Some(block.copied()),
            Some(None) | None => None,
        }
    }

    /// True if a block is stored at its place, with its bytes and register.
    pub(crate) fn has(&self, block: &RankedBlock) -> bool
        requires { 1 ≤ block.now.rank }
        ensures { result ≡ is_stored self.now block.now }
    {
        match self.places.get(block.place()) {
            Some(Some(stored)) => is_same(&block.found.block, stored),
            Some(None) | None => false,
        }
    }

    /// Returns the block with a number, from 0, of the slave with a rank, counted from 1; none if the slave has no such block.
    pub(crate) fn of_slave(&self, rank: u16, number: u8) -> Option<Block>
        ensures low { number < 16 → result ≡ has_at self.now (place rank number) }
        ensures high { 16 ≤ number → result ≡ None }
    {
        if usize::from(number) >= SLAVE_PLACES {
            return None;
        }
        let first = SLAVE_PLACES * usize::from(rank.saturating_sub(1));
        self.at(first + usize::from(number))
    }

    /// Sets the block at a place.
    fn set_block(&mut self, place: usize, block: Option<Block>)
        requires { place < length self.old }
        ensures { self.new ≡ changed_at place (λ _. block) self.old }
    {
        self.places[place] = block;
    }

    /// Empties the places of the slaves that left.
    fn clear(&mut self, gone: Gone)
        requires rank { 1 ≤ gone.rank }
        requires inside { first_gone gone + 16 * gone.slaves ≤ length self.old }
        ensures { self.new ≡ replaced_from (first_gone gone) (16 * gone.slaves) None self.old }
    {
        let from = gone.first_place();
        for i in 0..SLAVE_PLACES * usize::from(gone.slaves) {
            self.set_block(from + i, None);
        }
    }

    /// Stores a moved block in place of the old one.
    fn replace(&mut self, moved: &RankedBlock)
        requires rank { 1 ≤ moved.now.rank }
        requires inside { block_place moved.now < length self.old }
        ensures { self.new ≡ with_moved moved.now self.old }
    {
        self.set_block(moved.place(), Some(moved.found.block.copied()));
    }

    /// Stores moved blocks in place of the old ones.
    fn replace_all(&mut self, moved: &[RankedBlock])
        requires ranks { All (λ block. 1 ≤ block.rank) moved.now }
        requires inside { All (λ block. block_place block < length self.old) moved.now }
        ensures { self.new ≡ with_all_moved moved.now self.old }
    {
        for block in moved {
            self.replace(block);
        }
    }

    /// Applies an accepted edit that declares nothing. `gone` are the slaves that left the line, and `moved` its moved blocks,
    /// as the line now configures them. It takes the time of the blocks that left and moved.
    pub(crate) fn change(&mut self, gone: Gone, moved: &[RankedBlock])
        requires edited { BlocksAreEdited self.old gone moved.now }
        ensures { (is : BlocksAreEdited self.old gone moved.now) → self.new ≡ map block_in is.new }
    {
        self.clear(gone);
        self.replace_all(moved);
    }

    /// Memory for the places of so many slaves after the others. Fails with `AllocError` if the allocation fails.
    pub(crate) fn room_for(
        &self,
        alloc: Global,
        slaves: usize,
    ) -> Result<Room<Option<Block>>, AllocError>
        requires { slaves < 65536 }
        ensures { IfOk result (λ room. length self.now + 16 * slaves ≤ room) }
    {
        Room::for_more(alloc, &self.places, SLAVE_PLACES * slaves)
    }

    /// Adds empty places of so many slaves after the others, in memory that was allocated before.
    pub(crate) fn admit(&mut self, room: Room<Option<Block>>, slaves: usize)
        requires few { slaves < 65536 }
        requires room { length self.old + 16 * slaves ≤ room }
        ensures { self.new ≡ self.old ++ replicate (16 * slaves) None }
    {
        let places = SLAVE_PLACES * slaves;
        room.widen(&mut self.places, places);
        for _ in 0..places {
            self.places.push_reserved(None);
        }
    }
}
