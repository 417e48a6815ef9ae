//! The areas of a task and the keys at which its datagrams begin.
ghost use Rattle.std.specs.Prelude.{◌≡◌, ◌+◌, ◌*◌, ◌<◌, ◌≤◌, ◌∷◌, ◌++◌, [], IfOk, OnErr, OnOk, length, slice_index_or};
ghost use Rattle.hc_records.specs.Boundaries.{boundaries};
ghost use Rattle.hc_records.specs.Image.{datagram_count, inside};
ghost use Rattle.hc_records.specs.Packing.{empty_front, packed};
ghost use Rattle.hc_records.specs.declared.keys.TheConstants.Key.{END};
ghost use Rattle.hc_records.specs.declared.limits.TheConstants.{MOST_DATAGRAMS};
ghost use Rattle.hc_cuts.specs.Firsts.{IsOverLimit};
ghost use Rattle.hc_cuts.specs.Starts.{most_read};

use crate::cursor::Cursor;
use crate::fold::TooManyDatagrams;
use crate::hulls::Hulls;
use crate::packing::Placed;
use crate::repair::repaired_starts;
use crate::walk::add_span;
use arrayvec::ArrayVec;
use hc_bitsum::steps::Steps;
use hc_bitsum::sum::Sum;
use hc_bitsum::tree::SumTree;
use hc_records::keys::Key;
use hc_records::records::Dir;
use std::alloc::{AllocError, Global};
use std::marker::Model;
use std::sync::ledger::Ledger;

/// A task's areas, and the boundaries that were last computed for them.
#[derive(Debug)]
pub struct Cuts {
    tree: SumTree,
    starts: ArrayVec<Key, 16>,
}

impl Drop for Cuts {
    fn drop(self) {
        let Cuts { tree: _, starts: _ } = self;
    }
}

impl Model for Cuts {
    ghost use Rattle.hc_cuts.specs.Starts.{TaskCuts};

    ghost Value = { TaskCuts };

    ghost view = { λ cuts. record { tree = cuts.tree; starts = cuts.starts.items } };

    ghost use Rattle.hc_bitsum.specs.Tree.{HoldsTaskList};

    ghost invariant = { λ cuts. HoldsTaskList cuts.tree };
}

/// Returns the boundary after one at which a datagram begins: the next of them, or `Key::END`.
pub(crate) fn end_of(starts: &[Key], i: usize) -> Key
    requires { i < length starts.now }
    ensures { result ≡ slice_index_or (starts.now ++ END ∷ []) (i + 1) END }
{
    match starts.get(i + 1) {
        Some(next) => *next,
        None => Key::END,
    }
}

impl Cuts {
    ghost use Rattle.std.specs.Prelude.{◌≡◌, ◌↔◌, ◌+◌, ◌*◌, ◌≤◌, ◌∷◌, ◌++◌, List, [], IfOk, IsTrue, OnErr, OnOk, length};
    ghost use Rattle.hc_records.specs.declared.limits.TheConstants.{MOST_AREA_BITS, MOST_DATAGRAMS, MOST_SLAVES};
    ghost use Rattle.hc_records.specs.TaskList.{Keyed};
    ghost use Rattle.hc_records.specs.Boundaries.{unsettled_spans, width_in};
    ghost use Rattle.hc_bitsum.specs.Tree.{HasPlace, HasRoom, HoldsTaskList, with_width};
    ghost use Rattle.hc_cuts.specs.Cursors.{IsCursorOf};
    ghost use Rattle.hc_cuts.specs.Inputs.{has_inputs};
    ghost use Rattle.hc_cuts.specs.Place.{place_of};
    ghost use Rattle.hc_cuts.specs.Repair.{AreOfBefore, unsettled_between, IsBefore};
    ghost use Rattle.hc_cuts.specs.Starts.{empty_task_cuts, cuts_with_slaves};

    /// Returns a task without areas of `slaves` slaves, at most 2,048. `AllocError` if an allocation fails.
    pub fn new(alloc: Global, slaves: u16) -> Result<Cuts, AllocError>
        requires { slaves ≤ MOST_SLAVES }
        ensures { IfOk result (λ cuts. cuts ≡ empty_task_cuts slaves) }
    {
        let tree = SumTree::new(alloc, slaves)?;
        let mut starts = ArrayVec::new();
        starts.push(Key::START);
        Ok(Cuts { tree, starts })
    }

    /// Sets the width of an area of one of its slaves, at most 11,888 bits; the boundaries stay those that were last computed.
    /// Its areas are then a task's list again. It allocates nothing.
    pub fn set(&mut self, key: Key, bits: u16)
        requires place { HasPlace self.old.tree.slaves key }
        requires narrow { bits ≤ MOST_AREA_BITS }
        ensures areas { self.new.tree ≡ record self.old.tree { list = with_width key bits self.old.tree.list } }
        ensures starts { self.new.starts ≡ self.old.starts }
        ensures holds { HoldsTaskList self.new.tree }
    {
        self.tree.set(key, bits);
    }

    /// Returns whether it has the capacity for this many slaves (`SumTree::has_room`). It allocates nothing.
    pub fn has_room(&self, slaves: u16) -> bool
        ensures { IsTrue result ↔ HasRoom self.now.tree.slaves slaves }
    {
        self.tree.has_room(slaves)
    }

    /// Extends it to this many slaves, for which it has the capacity: those after its own have no areas yet. Its areas and
    /// boundaries stay, and its areas are a task's list. It allocates nothing.
    pub fn admit(&mut self, slaves: u16)
        requires more { self.old.tree.slaves ≤ slaves }
        requires room { HasRoom self.old.tree.slaves slaves }
        ensures admitted { self.new ≡ cuts_with_slaves slaves self.old }
        ensures holds { HoldsTaskList self.new.tree }
    {
        self.tree.admit(slaves);
    }

    /// Returns its areas and boundaries in a tree with places for this many slaves, at most 2,048: those after its own have no
    /// areas yet. No boundary is searched; the areas are copied. `AllocError` if an allocation fails.
    pub fn widened(&self, alloc: Global, slaves: u16) -> Result<Cuts, AllocError>
        requires more { self.now.tree.slaves ≤ slaves }
        requires most { slaves ≤ MOST_SLAVES }
        ensures widened { IfOk result (λ cuts. cuts ≡ cuts_with_slaves slaves self.now) }
        ensures holds { IfOk result (λ cuts. HoldsTaskList cuts.tree) }
    {
        Ok(Cuts {
            tree: self.tree.widened(alloc, slaves)?,
            starts: self.copied_starts(),
        })
    }

    /// Returns whether the task has inputs: whether the last of its areas is one, as outputs come first. The sum of all areas
    /// says that, so no area is read. It allocates nothing.
    pub fn has_inputs(&self) -> bool
        ensures { result ≡ has_inputs self.now.tree.list }
    {
        match self.tree.total() {
            Sum::Empty => false,
            Sum::Run { last, .. } => last == Dir::In,
        }
    }

    /// Returns the boundaries that were last computed, without the last one, `Key::END`: `Key::START`, at which the first
    /// datagram begins if there is one, and the keys at which the later ones do.
    pub fn starts(&self) -> &[Key]
        ensures starts { result.now ≡ self.now.starts }
        ensures few { length result.now ≤ MOST_DATAGRAMS }
    {
        &self.starts
    }

    /// Returns a copy of the boundaries that were last computed, as `starts` lends them. It allocates nothing.
    pub fn copied_starts(&self) -> ArrayVec<Key, 16>
        ensures { result.items ≡ self.now.starts }
    {
        let Ok(starts) = ArrayVec::try_from(self.starts.as_slice()) else {
            unreachable!()
        };
        starts
    }

    /// Replaces the boundaries that were last computed. It allocates nothing.
    pub fn put_starts(&mut self, others: ArrayVec<Key, 16>)
        ensures areas { self.new.tree ≡ self.old.tree }
        ensures starts { self.new.starts ≡ others.items }
    {
        self.starts = others;
    }

    /// Computes the boundaries after widths were set, and returns how many of the spans between them are not settled: those
    /// that do not begin at an old boundary, or that meet a hull. The old boundaries are those of its areas at that time, whose
    /// widths differ from the present ones only inside the hulls. A settled span stays; each other one is searched, in 1 to 104
    /// steps. It allocates nothing. Fails with `TooManyDatagrams` exactly if packing gives more than 16 datagrams; then the
    /// boundaries are unchanged, after at most 16 searches.
    pub fn repair<L: Ledger>(
        &mut self,
        hulls: &Hulls,
        steps: &mut Steps<L>,
    ) -> Result<u32, TooManyDatagrams>
        requires { AreOfBefore self.old.starts hulls.now self.old.tree.list }
        ensures areas { self.new.tree ≡ self.old.tree }
        ensures starts { OnOk result (self.new.starts ++ END ∷ [] ≡ boundaries self.old.tree.list) }
        ensures few { OnOk result (datagram_count (packed empty_front self.old.tree.list) ≤ MOST_DATAGRAMS) }
        ensures refused { OnErr result (IsOverLimit self.old.tree.list) }
        ensures stay { OnErr result (self.new.starts ≡ self.old.starts) }
        ensures least { IfOk result (λ count. steps.old + count ≤ steps.new) }
        ensures most { IfOk result (λ count. steps.new ≤ steps.old + most_read * count) }
        ensures bound { steps.new ≤ steps.old + most_read * MOST_DATAGRAMS }
        ensures judged { IfOk result (λ count. count ≡ unsettled_between hulls.now self.old.starts self.new.starts) }
        ensures count { IfOk result (λ count. (old : List Keyed) → IsBefore self.old.starts hulls.now self.old.tree.list old → count ≡ unsettled_spans old self.old.tree.list) }
        ensures spans { IfOk result (λ count. count ≤ MOST_DATAGRAMS) }
    {
        let (starts, count) = repaired_starts(&self.tree, &self.starts, hulls, steps)?;
        self.starts = starts;
        Ok(count)
    }

    /// Returns the areas of one of its datagrams with their places, in key order; none if it has no datagram with that number.
    /// The boundaries must be its areas', as `cut` leaves them; only the areas of the datagram are read. `AllocError` if an
    /// allocation fails.
    pub fn datagram(&self, alloc: Global, number: u16) -> Result<Vec<Placed>, AllocError>
        requires { self.now.starts ++ END ∷ [] ≡ boundaries self.now.tree.list }
        ensures { IfOk result (λ places. places.items ≡ inside number (packed empty_front self.now.tree.list)) }
    {
        let mut places = Vec::new(alloc);
        let starts = self.starts.as_slice();
        let first = usize::from(number);
        if first >= starts.len() {
            return Ok(places);
        }
        let span = (starts[first], end_of(starts, first));
        add_span(alloc, &mut places, &self.tree, span, number)?;
        Ok(places)
    }

    /// Returns the areas of the task with their places, in key order: packed one after another from the empty first datagram.
    /// The boundaries must be its areas', as `cut` leaves them. `AllocError` if an allocation fails.
    pub fn places(&self, alloc: Global) -> Result<Vec<Placed>, AllocError>
        requires { self.now.starts ++ END ∷ [] ≡ boundaries self.now.tree.list }
        ensures { IfOk result (λ places. places.items ≡ packed empty_front self.now.tree.list) }
    {
        let mut places = Vec::new(alloc);
        let starts = self.starts.as_slice();
        for i in 0..starts.len() {
            let span = (starts[i], end_of(starts, i));
            add_span(alloc, &mut places, &self.tree, span, i as u16)?;
        }
        Ok(places)
    }

    /// Returns the width in bits of its area with a key; 0 if it has no such area. It allocates nothing and takes no steps.
    pub fn bits(&self, key: Key) -> u16
        ensures { result ≡ width_in self.now.tree.list key }
    {
        self.tree.bits(key)
    }

    /// Returns the place of its area with a key: the datagram that carries it, and its first bit there. `None` if it has no
    /// such area. It equals the place that `places` gives, without the places of the others: the boundaries give the datagram,
    /// and the tree how far it is filled before the area. The boundaries must be its areas', as `cut` leaves them. It allocates
    /// nothing and takes no steps.
    pub fn place(&self, key: Key) -> Option<Placed>
        requires { self.now.starts ++ END ∷ [] ≡ boundaries self.now.tree.list }
        ensures { result ≡ place_of key self.now.tree.list }
    {
        self.place_from(&mut Cursor::start(), key)
    }

    /// Returns the place of its area with a key, as `place` does, with the help of a cursor in the task, for example one at the
    /// start. The cursor is in the task again, at the area if there is one. If its datagram carries an area at its key or after
    /// it, only the areas between are read, so areas that are asked for in key order take few reads. The boundaries must be its
    /// areas', as `cut` leaves them. It allocates nothing and takes no steps.
    #[inline(always)]
    pub fn place_from(&self, cursor: &mut Cursor, key: Key) -> Option<Placed>
        requires cut { self.now.starts ++ END ∷ [] ≡ boundaries self.now.tree.list }
        requires stood { IsCursorOf self.now.starts self.now.tree.list cursor.old }
        ensures place { result ≡ place_of key self.now.tree.list }
        ensures in_task { IsCursorOf self.now.starts self.now.tree.list cursor.new }
    {
        cursor.place(&self.tree, self.starts.as_slice(), key)
    }
}
