//! `SumTree`: a tree of sums over the areas of a task, those with a width, in key order.
ghost use Rattle.std.specs.Prelude.{◌≡◌, ◌+◌, ◌*◌, ◌^◌, ◌<◌, ◌≤◌, ◌++◌, ℕ, IfOk, IsTrue, drop, length};
ghost use Rattle.hc_records.specs.declared.limits.TheConstants.{MOST_SLAVES};
ghost use Rattle.hc_bitsum.specs.Tree.{CanBegin, HasPlace, HoldsTaskList};
ghost use Rattle.hc_bitsum.specs.Branch.{IsBranch, branch_slots};
ghost use Rattle.hc_bitsum.specs.Search.{scan};
ghost use Rattle.hc_bitsum.specs.Slots.{key_at};

use crate::branch::Branch;
use crate::filled::Filled;
use crate::row::Fit;
use crate::steps::Steps;
use crate::sum::Sum;
use hc_records::keys::Key;
use hc_records::limits::MOST_AREAS;
use hc_records::records::Dir;
use std::alloc::{AllocError, Global};
use std::marker::Model;
use std::sync::ledger::Ledger;

/// The areas of a task with their widths, in two halves: outputs and inputs.
#[derive(Debug)]
pub struct SumTree {
    slaves: u16,
    outputs: Branch,
    inputs: Branch,
}

impl Drop for SumTree {
    fn drop(self) {
        let SumTree {
            slaves: _,
            outputs: _,
            inputs: _,
        } = self;
    }
}

impl Model for SumTree {
    ghost use Rattle.std.specs.Prelude.{◌++◌, filter};
    ghost use Rattle.hc_bitsum.specs.Branch.{branch_slots};
    ghost use Rattle.hc_bitsum.specs.Tree.{Tree, has_width};
    ghost use Rattle.hc_bitsum.specs.Places.{KeepsAreas};

    ghost Value = { Tree };

    ghost view = { λ tree. record { slaves = tree.slaves; list = filter has_width ((branch_slots tree.outputs).areas ++ (branch_slots tree.inputs).areas) } };

    ghost invariant = { λ tree. KeepsAreas tree.slaves tree.outputs tree.inputs };
}

/// Returns the exponent, 0 to 11, of the least power of two that is not below the number of slaves.
fn levels_of(slaves: u16) -> u32
    requires { slaves ≤ MOST_SLAVES }
    ensures room { slaves ≤ 2 ^ result }
    ensures low { result ≤ 11 }
    ensures least { (levels : ℕ) → slaves ≤ 2 ^ levels → result ≤ levels }
{
    for levels in 0..11 {
        if u32::from(slaves) <= 1 << levels {
            return levels;
        }
    }
    11
}

/// True if a key has a place among those of so many slaves.
fn has_place(slaves: u16, key: Key) -> bool
    ensures yes { IsTrue result → HasPlace slaves key }
    ensures no { HasPlace slaves key → IsTrue result }
{
    1 <= key.rank && key.rank <= slaves && usize::from(key.area) < MOST_AREAS
}

/// The place of a key in its direction.
fn place_of(key: Key) -> u32
    requires first { 1 ≤ key.rank }
    requires area { key.area < 8 }
    ensures value { key ≡ key_at key.dir result }
    ensures within { result + 8 ≡ 8 * key.rank + key.area }
{
    8 * (u32::from(key.rank) - 1) + u32::from(key.area)
}

/// Returns a tree with places for the areas of so many slaves, at most 2,048, and with these areas. Fails with `AllocError` if
/// an allocation fails.
fn filled_tree(alloc: Global, slaves: u16, areas: &[(Key, u16)]) -> Result<SumTree, AllocError>
    requires most { slaves ≤ MOST_SLAVES }
    requires holds { HoldsTaskList (record { slaves = slaves; list = areas.now }) }
    ensures { IfOk result (λ tree. tree ≡ record { slaves = slaves; list = areas.now }) }
{
    let mut tree = SumTree::new(alloc, slaves)?;
    for area in areas {
        let (key, bits) = *area;
        tree.set(key, bits);
    }
    Ok(tree)
}

/// Fills a datagram with the areas of two parts in a row, after the first `skip` areas of the first part, as long as each ends
/// within the room, in bits.
fn fit_both<L: Ledger>(
    first: &Branch,
    second: &Branch,
    skip: u32,
    filled: Filled,
    room: u32,
    steps: &mut Steps<L>,
) -> Fit
    requires first { IsBranch first.now }
    requires second { IsBranch second.now }
    requires within { skip < length (branch_slots first.now).areas }
    requires here { filled.bit ≤ room }
    requires room { room < 2 ^ 30 }
    ensures fit { result ≡ scan room filled (drop skip ((branch_slots first.now).areas ++ (branch_slots second.now).areas)) }
    ensures least { steps.old + 1 ≤ steps.new }
    ensures most { steps.new ≤ steps.old + 62 }
{
    match first.fit(skip, filled, room, steps) {
        Fit::Found(key) => Fit::Found(key),
        Fit::Through(end) => second.fit_all(end, room, steps),
    }
}

impl SumTree {
    ghost use Rattle.std.specs.Prelude.{◌≡◌, ◌↔◌, [], IfOk, IsTrue, OnOk};
    ghost use Rattle.hc_records.specs.declared.limits.TheConstants.{MOST_AREA_BITS};
    ghost use Rattle.hc_records.specs.Boundaries.{width_in};
    ghost use Rattle.hc_records.specs.SpanLaws.{areas_from};
    ghost use Rattle.hc_bitsum.specs.Filling.{areas_between, filled_with_areas};
    ghost use Rattle.hc_bitsum.specs.Search.{datagram_begun, first_beyond};
    ghost use Rattle.hc_bitsum.specs.Sums.{sum_of};
    ghost use Rattle.hc_bitsum.specs.Tree.{HasRoom, with_width};

    /// Returns a tree with places for the areas of so many slaves, at most 2,048; none has a width yet. Fails with `AllocError`
    /// if an allocation fails.
    pub fn new(alloc: Global, slaves: u16) -> Result<SumTree, AllocError>
        requires { slaves ≤ MOST_SLAVES }
        ensures { IfOk result (λ tree. tree ≡ record { slaves = slaves; list = [] }) }
    {
        let levels = levels_of(slaves);
        Ok(SumTree {
            slaves,
            outputs: Branch::blank(alloc, Dir::Out, levels)?,
            inputs: Branch::blank(alloc, Dir::In, levels)?,
        })
    }

    /// Sets the width in bits of an area, at most 11,888. The area's slave is one of those for which the tree has places. An
    /// area of 0 bits is not in the tree's list of areas, which is a task's list after it too. It allocates nothing.
    pub fn set(&mut self, key: Key, bits: u16)
        requires place { HasPlace self.old.slaves key }
        requires narrow { bits ≤ MOST_AREA_BITS }
        ensures set { self.new ≡ record self.old { list = with_width key bits self.old.list } }
        ensures holds { HoldsTaskList self.new }
    {
        let place = place_of(key);
        match key.dir {
            Dir::Out => self.outputs.set(place, bits),
            Dir::In => self.inputs.set(place, bits),
        }
    }

    /// True if it has room for so many slaves: it has places for the least power of two that is not below the number of its own
    /// slaves. It allocates nothing.
    pub fn has_room(&self, slaves: u16) -> bool
        ensures { IsTrue result ↔ HasRoom self.now.slaves slaves }
    {
        u32::from(slaves) <= 1 << levels_of(self.slaves)
    }

    /// Sets the number of slaves, for which it has room: those after its present ones have no areas yet. Its areas stay, and
    /// are a task's list. It allocates nothing.
    pub fn admit(&mut self, slaves: u16)
        requires more { self.old.slaves ≤ slaves }
        requires room { HasRoom self.old.slaves slaves }
        ensures admitted { self.new ≡ record self.old { slaves = slaves } }
        ensures holds { HoldsTaskList self.new }
    {
        self.slaves = slaves;
    }

    /// Returns a tree of its own areas with places for so many slaves, at most 2,048: those after its own have no areas yet. It
    /// goes over all its areas. Fails with `AllocError` if an allocation fails.
    pub fn widened(&self, alloc: Global, slaves: u16) -> Result<SumTree, AllocError>
        requires more { self.now.slaves ≤ slaves }
        requires most { slaves ≤ MOST_SLAVES }
        ensures widened { IfOk result (λ tree. tree ≡ record self.now { slaves = slaves }) }
        ensures holds { IfOk result HoldsTaskList }
    {
        let areas = self.areas_between(alloc, Key::START, Key::END)?;
        filled_tree(alloc, slaves, &areas)
    }

    /// Returns the width in bits of the area with a key, at most 11,888; 0 if it takes no place. The key may be any. It
    /// allocates nothing, and takes no steps.
    pub fn bits(&self, key: Key) -> u16
        ensures width { result ≡ width_in self.now.list key }
        ensures narrow { result ≤ MOST_AREA_BITS }
    {
        if !has_place(self.slaves, key) {
            return 0;
        }
        let place = place_of(key);
        match key.dir {
            Dir::Out => self.outputs.bits(place),
            Dir::In => self.inputs.bits(place),
        }
    }

    /// Returns the filling of a datagram once its areas from one key on, that one included, and before another are added to a
    /// filling of at most 11,888 bits: `Filled::begun(0)` if they begin the datagram. The keys may be any, `Key::START` and
    /// `Key::END` too; no area lies between them if the second is not after the first. It takes one climb and one descent in
    /// each direction's tree. It allocates nothing, and takes no steps.
    pub fn filled_between(&self, from: Key, until: Key, filled: Filled) -> Filled
        requires { filled.bit ≤ MOST_AREA_BITS }
        ensures { result ≡ filled_with_areas filled (areas_between from until self.now.list) }
    {
        let outputs = self.outputs.filled_between(from, until, filled);
        self.inputs.filled_between(from, until, outputs)
    }

    /// Returns its areas from one key on, that one included, and before another, in key order, each with its width. The keys
    /// may be any, as for `filled_between`. It skips the rows of slaves without such areas by their sums, and takes no steps.
    /// Its areas are a task's list. Fails with `AllocError` if an allocation fails.
    pub fn areas_between(
        &self,
        alloc: Global,
        from: Key,
        until: Key,
    ) -> Result<Vec<(Key, u16)>, AllocError>
        ensures areas { IfOk result (λ areas. areas.items ≡ areas_between from until self.now.list) }
        ensures holds { OnOk result (HoldsTaskList self.now) }
    {
        let mut areas = Vec::new(alloc);
        self.outputs.add_between(&mut areas, from, until)?;
        self.inputs.add_between(&mut areas, from, until)?;
        Ok(areas)
    }

    /// The sum of all its areas.
    pub fn total(&self) -> Sum
        ensures { result ≡ sum_of self.now.list }
    {
        self.outputs.total().join(self.inputs.total())
    }

    /// Returns the key of the first area that would end past a room, or `Key::END` if none would. The areas from a key on fill
    /// a datagram from bit `phase` on. The key is one that `set` takes, or `Key::START`, with which all areas are gone over.
    /// `phase` is at most `room`, which is at most 11,888 bits. Each node and area that is read is a step, at least 1 and at
    /// most 62. Its areas are a task's list, so that a search can begin at each of their keys. It allocates nothing.
    pub fn last_fit<L: Ledger>(&self, from: Key, phase: u32, room: u32, steps: &mut Steps<L>) -> Key
        requires from { CanBegin self.now.slaves from }
        requires phase { phase ≤ room }
        requires room { room ≤ MOST_AREA_BITS }
        ensures key { result ≡ first_beyond room (datagram_begun phase) (areas_from from self.now.list) }
        ensures holds { HoldsTaskList self.now }
        ensures least { steps.old + 1 ≤ steps.new }
        ensures most { steps.new ≤ steps.old + 62 }
    {
        let filled = Filled::begun(phase);
        if from.rank == 0 {
            return fit_both(&self.outputs, &self.inputs, 0, filled, room, steps).key_or_end();
        }
        let place = place_of(from);
        match from.dir {
            Dir::Out => fit_both(
                &self.outputs,
                &self.inputs,
                place,
                filled,
                room,
                steps,
            ).key_or_end(),
            Dir::In => self.inputs.fit(place, filled, room, steps).key_or_end(),
        }
    }
}
