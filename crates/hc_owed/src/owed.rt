//! `Owed`: the register blocks that the slaves of the present line still lack.
ghost use Rattle.std.specs.Prelude.{◌≡◌, option_map};
ghost use Rattle.hc_owed.specs.RegisterState.{differs};

use crate::flags::Flags;
use crate::opening::{declared_flags, declared_stations, nothing_known};
use hc_plan::plan::Plan;
use hc_registers::blocks::{Block, LineBlock};
use hc_registers::ranked::{Gone, RankedBlock};
use std::alloc::{AllocError, Global};
use std::marker::Model;

/// A block that its slave lacks.
#[derive(Debug, Drop)]
pub struct OwedBlock {
    /// Its place: sixteen for each declared slave by rank, present or not, one for each block number.
    pub place: u32,
    /// The block, as the line configures it.
    pub block: LineBlock,
}

/// True if the known bytes of a block are not those that the line configures, or if none are known.
fn differs(known: &Option<Block>, block: &Block) -> bool
    ensures { result ≡ differs block.now.bytes (option_map (λ known. known.bytes) known.now) }
{
    match known {
        Some(known) => block.bytes() != known.bytes(),
        None => true,
    }
}

/// For each place of a declared slave's blocks, present or not: the bytes that the slave is known to have, and a flag if the
/// block is owed. The line's blocks are the plan's. Contracts see it as a `RegisterState`, which also has the station
/// addresses.
#[derive(Debug, Drop)]
pub struct Owed {
    pub(crate) known: Vec<Option<Block>>,
    pub(crate) owed: Flags,
    // the station addresses of the declared slaves, by rank
    pub(crate) stations: Vec<u16>,
}

impl Model for Owed {
    ghost use Rattle.std.specs.Prelude.{◌≡◌, ◌*◌, ◌<◌, length, map, option_map};
    ghost use Rattle.hc_owed.specs.RegisterState.{RegisterState};

    ghost Value = { RegisterState };

    ghost view = { λ o. record { known = map (λ known. option_map (λ block. block.bytes) known) o.known.items; owed = o.owed.list; stations = o.stations.items } };

    ghost invariant = { λ o. (length o.known.items ≡ 16 * length o.stations.items) × (length o.owed.list ≡ 16 * length o.stations.items) × (length o.stations.items < 65536) };
}

impl Owed {
    ghost use Rattle.std.specs.Prelude.{◌≡◌, ◌+◌, ◌*◌, ◌<◌, ◌≤◌, All, IfOk, None, Some, length, option_map, slice_get, true};
    ghost use Rattle.hc_records.specs.Line.{State, groups_of};
    ghost use Rattle.hc_records.specs.Project.{lowest_fault};
    ghost use Rattle.hc_registers.specs.Blocks.{LineBlock};
    ghost use Rattle.hc_registers.specs.RankDifferences.{block_place, first_gone};
    ghost use Rattle.hc_owed.specs.RegisterState.{Knowledge, register_state_of, nothing_known};
    ghost use Rattle.hc_owed.specs.Laws.{ConfirmsBlock, GivesBlockAt, GivesFirstOwed, GivesNextOwed, GivesOwedAt, IsLackingAt, IsRightFor, RegistersAreEdited, known_over, known_without, lacking_blocks, owed_from, with_known};
    ghost use Rattle.hc_owed.specs.Steps.{cleared, compared, compared_all, places_emptied, forgotten_at, forgotten_of, has_block, learnt, owed_where_moved, place_judged};

    /// Returns the state of a line whose slaves were just connected: nothing is known of any block, and every block is owed.
    /// Fails with `AllocError` if an allocation fails. Of the later calls only `room_for` allocates.
    pub fn new(alloc: Global, plan: &Plan) -> Result<Owed, AllocError>
        ensures { IfOk result (λ owed. owed ≡ register_state_of nothing_known plan.now) }
    {
        let stations = declared_stations(alloc, plan.groups())?;
        let places = 16 * stations.len();
        let known = nothing_known(alloc, places)?;
        let owed = declared_flags(alloc, plan.groups(), places)?;
        Ok(Owed {
            known,
            owed,
            stations,
        })
    }

    /// Returns the number of owed blocks of the line. It takes constant time.
    pub fn count(&self) -> u32
        ensures { (known : Knowledge) (state : State) → IsRightFor known state self.now → result ≡ length (lacking_blocks known state) }
    {
        self.owed.count() as u32
    }

    /// Returns the number of declared slaves, present or not: fewer than 65,536.
    pub fn slaves(&self) -> usize
        ensures count { result ≡ length self.now.stations }
        ensures few { result < 65536 }
    {
        self.stations.len()
    }

    /// True if the block at a place is owed; false for a place without a block.
    pub fn is_owed(&self, place: usize) -> bool
        requires { place < length self.now.owed }
        ensures { slice_get self.now.owed place ≡ Some result }
    {
        self.owed.get(place)
    }

    /// Returns the line's block at a place, with its slave's station address and its number; none if the place is empty.
    fn found_at(&self, plan: &Plan, place: usize) -> Option<OwedBlock>
        requires { place < length self.now.known }
        ensures { GivesBlockAt plan.now self.now place result }
    {
        let block = plan.block_at_place(place)?;
        let station = self.stations[place / 16];
        let number = (place % 16) as u8;
        Some(OwedBlock {
            place: place as u32,
            block: LineBlock {
                station,
                number,
                block,
            },
        })
    }

    /// Returns the first owed block of a plan's line in line and block order; none if nothing is owed. It looks at 64 places at
    /// a time.
    pub fn first(&self, plan: &Plan) -> Option<OwedBlock>
        ensures { GivesFirstOwed plan.now self.now result }
    {
        let place = self.owed.first()?;
        self.found_at(plan, place)
    }

    /// Returns the owed block of a plan's line with an index, from 0, in line and block order; none if fewer are owed. It
    /// counts the words of 64 places up to it.
    pub fn nth(&self, plan: &Plan, index: u32) -> Option<OwedBlock>
        ensures { (known : Knowledge) (state : State) → plan.now ≡ state → IsRightFor known state self.now → GivesOwedAt known state index result }
    {
        let place = self.owed.nth(index as usize)?;
        self.found_at(plan, place)
    }

    /// Returns the first owed block of a plan's line at a place or after it, in line and block order; none if nothing is owed
    /// from there on. Place 0 gives the first owed block, and the place after an owed block the next one. It looks at 64 places
    /// at a time.
    pub fn next_from(&self, plan: &Plan, place: u32) -> Option<OwedBlock>
        ensures next { GivesNextOwed plan.now self.now place result }
        ensures all { (known : Knowledge) (state : State) → lowest_fault (groups_of state.groups) ≡ None → owed_from known state 0 ≡ lacking_blocks known state }
    {
        let place = self.owed.next_from(place as usize)?;
        self.found_at(plan, place)
    }

    /// Sets the known bytes of the block at a place.
    fn learn(&mut self, place: usize, known: Option<Block>)
        requires { place < length self.old.known }
        ensures { self.new ≡ learnt place (option_map (λ block. block.bytes) known) self.old }
    {
        self.known[place] = known;
    }

    /// Marks the block at a place as owed or not owed.
    fn judge(&mut self, place: usize, owed: bool)
        requires { place < length self.old.known }
        ensures { self.new ≡ place_judged place owed self.old }
    {
        self.owed.set(place, owed);
    }

    /// Records that the write of an owed block at a place was sent. Until it is answered well nothing is known of the block,
    /// and it stays owed.
    pub fn sent(&mut self, place: u32)
        requires { place < length self.old.known }
        ensures { (known : Knowledge) (state : State) (block : LineBlock) → IsLackingAt self.old place known state block → self.new ≡ with_known known state block None }
    {
        self.learn(place as usize, None);
    }

    /// Records that the write of the block at a place was answered well: its slave has the bytes that the plan's line
    /// configures, and the block is no longer owed.
    pub fn confirmed(&mut self, plan: &Plan, place: u32)
        requires { place < length self.old.known }
        ensures { ConfirmsBlock plan.now place self.old self.new }
    {
        let block = plan.block_at_place(place as usize);
        self.learn(place as usize, block);
        self.judge(place as usize, false);
    }

    /// True if a place has a block: one that is owed or known.
    fn has_block(&self, place: usize) -> bool
        requires { place < length self.now.known }
        ensures { result ≡ has_block self.now place }
    {
        if self.owed.get(place) {
            return true;
        }
        self.known[place].is_some()
    }

    /// Makes the block at a place, if there is one, unknown and so owed.
    fn forget_at(&mut self, place: usize)
        requires { place < length self.old.known }
        ensures { self.new ≡ forgotten_at place self.old }
    {
        let owed = self.has_block(place);
        self.learn(place, None);
        self.judge(place, owed);
    }

    /// Makes the block at a place, if there is one, unknown and so owed, if the place belongs to the slave with a station
    /// address.
    fn forget_of(&mut self, place: usize, station: u16)
        requires { place < length self.old.known }
        ensures { self.new ≡ forgotten_of station place self.old }
    {
        if self.stations[place / 16] == station {
            self.forget_at(place);
        }
    }

    /// Forgets the registers of the slave with a station address: nothing is known of its blocks any more, and each of them is
    /// owed. Nothing changes if the line has no such slave. It takes the time of the places of all declared slaves, and
    /// allocates nothing.
    pub fn forget(&mut self, station: u16)
        ensures { (known : Knowledge) (state : State) → self.old ≡ register_state_of known state → self.new ≡ register_state_of (known_without station known) state }
    {
        for place in 0..self.known.len() {
            self.forget_of(place, station);
        }
    }

    /// Empties the places of the slaves that left.
    fn clear(&mut self, gone: Gone)
        requires rank { 1 ≤ gone.rank }
        requires inside { first_gone gone + 16 * gone.slaves ≤ length self.old.known }
        ensures { self.new ≡ cleared gone self.old }
    {
        let from = gone.first_place();
        for i in 0..16 * usize::from(gone.slaves) {
            self.learn(from + i, None);
            self.judge(from + i, false);
        }
    }

    /// True if a moved block is owed once the edit that moves it is carried out: other bytes are known at its place, or none.
    pub(crate) fn will_owe(&self, moved: &RankedBlock) -> bool
        requires rank { 1 ≤ moved.now.rank }
        requires inside { block_place moved.now < length self.now.known }
        ensures { result ≡ owed_where_moved moved.now self.now }
    {
        differs(&self.known[moved.place()], &moved.found.block)
    }

    /// Compares a moved block with its known bytes, and marks it as owed or not.
    fn compare(&mut self, moved: &RankedBlock)
        requires rank { 1 ≤ moved.now.rank }
        requires inside { block_place moved.now < length self.old.known }
        ensures { self.new ≡ compared moved.now self.old }
    {
        let place = moved.place();
        let owed = self.will_owe(moved);
        self.judge(place, owed);
    }

    /// Compares moved blocks with their known bytes, and marks each as owed or not.
    fn compare_all(&mut self, moved: &[RankedBlock])
        requires ranks { All (λ block. 1 ≤ block.rank) moved.now }
        requires inside { All (λ block. block_place block < length self.old.known) moved.now }
        ensures { self.new ≡ compared_all moved.now self.old }
    {
        for block in moved {
            self.compare(block);
        }
    }

    /// Applies an accepted edit that declares nothing. `gone` are the slaves that left the line, and `moved` its moved blocks,
    /// as the line now configures them. Of the blocks of slaves that left nothing is stored. Of the blocks of slaves that came
    /// nothing is known, and they are owed. Of the other blocks the known bytes stay, and the moved ones are compared with
    /// them. It takes the time of the blocks that left and moved.
    pub fn change(&mut self, gone: Gone, moved: &[RankedBlock])
        requires edited { RegistersAreEdited self.old gone moved.now }
        ensures { (is : RegistersAreEdited self.old gone moved.now) → self.new ≡ register_state_of (known_over is.old is.known) is.new }
    {
        self.clear(gone);
        self.compare_all(moved);
    }
}
