//! `Branch`: a part of a tree, with the areas of one direction. It has a row for each slave, and above the rows a tree of sums
//! in an array. Node 1 is the root, below node `k` are `2 * k` and `2 * k + 1`, and the last level has a node for each row.
ghost use Rattle.std.specs.Prelude.{◌≡◌, ◌+◌, ◌-◌, ◌*◌, ◌^◌, ◌<◌, ◌≤◌, ◌++◌, ◌∷◌, [], All, IfOk, IsTrue, OnOk, length, drop, filter, get_or};
ghost use Rattle.hc_records.specs.declared.limits.TheConstants.{MOST_AREA_BITS};
ghost use Rattle.hc_bitsum.specs.Branch.{AreForks, AreRowSums, AreSums, IsBranch, IsNode, areas_after, node_areas, branch_slots};
ghost use Rattle.hc_bitsum.specs.Filling.{areas_between, filled_with_areas};
ghost use Rattle.hc_bitsum.specs.Rows.{IsRow, blank_slots, part};
ghost use Rattle.hc_bitsum.specs.Search.{IsInRoom, scan};
ghost use Rattle.hc_bitsum.specs.Slots.{IsShaped, bits_at, key_at, stretch, with_bits};
ghost use Rattle.hc_bitsum.specs.Strides.{HasClimbed, BeginsWithRow};
ghost use Rattle.hc_bitsum.specs.Sums.{filled_by_run, sum_of};
ghost use Rattle.hc_bitsum.specs.Tree.{has_width};
ghost use Rattle.hc_bitsum.specs.declared.sum.Sum.TheVariants.{Empty};

use crate::filled::Filled;
use crate::row::{AreaWidths, Fit, fit_row, key_at, places_before, row_sum};
use crate::steps::Steps;
use crate::sum::Sum;
use hc_records::keys::Key;
use hc_records::records::Dir;
use std::alloc::{AllocError, Global};
use std::sync::ledger::Ledger;

/// The areas of one direction, with the sum of each node's areas.
#[derive(Debug)]
pub(crate) struct Branch {
    dir: Dir,
    /// The number of levels of nodes above the last one: 2 to the power of it rows.
    levels: u32,
    rows: Vec<AreaWidths>,
    sums: Vec<Sum>,
}

impl Drop for Branch {
    fn drop(self) {
        let Branch {
            dir: _,
            levels: _,
            rows: _,
            sums: _,
        } = self;
    }
}

/// The position of a walk over rows: the next row, a node that begins with it, that node's height above the last level, and the
/// filling of a datagram by the rows before.
#[derive(Clone, Copy)]
struct Climbed {
    row: usize,
    node: usize,
    height: u32,
    filled: Filled,
}

/// Computes the sum of a row again, and the sums of the nodes above it.
fn sum_anew(dir: Dir, levels: u32, rows: &[AreaWidths], sums: &mut [Sum], row: usize)
    requires low { levels ≤ 11 }
    requires many { length rows.now ≡ 2 ^ levels }
    requires nodes { length sums.old ≡ 2 * 2 ^ levels }
    requires each { All IsRow rows.now }
    requires row { row < length rows.now }
    requires rows { AreRowSums (λ i. i ≡ row → ⊥) dir rows.now sums.old }
    requires forks { AreForks (λ k. Unit {0}) (length rows.now) sums.old }
    ensures nodes { length sums.new ≡ 2 * 2 ^ levels }
    ensures sums { AreSums dir rows.now sums.new }
{
    let mut node = rows.len() + row;
    sums[node] = row_sum(dir, &rows[row]);
    for level in 0..levels {
        node /= 2;
        sums[node] = sums[2 * node].join(sums[2 * node + 1]);
    }
}

impl Branch {
    /// Returns a branch of areas of no bits, with 2 to the power of `levels` rows. Fails with `AllocError` if an allocation
    /// fails.
    pub(crate) fn blank(alloc: Global, dir: Dir, levels: u32) -> Result<Branch, AllocError>
        requires low { levels ≤ 11 }
        ensures slots { IfOk result (λ branch. branch_slots branch ≡ blank_slots dir levels) }
        ensures branch { IfOk result IsBranch }
    {
        let rows = 1 << levels;
        Ok(Branch {
            dir,
            levels,
            rows: Vec::from_elem(alloc, [0; 8], rows)?,
            sums: Vec::from_elem(alloc, Sum::Empty, 2 * rows)?,
        })
    }

    /// The sum of all its areas.
    pub(crate) fn total(&self) -> Sum
        requires { IsBranch self.now }
        ensures sum { result ≡ sum_of (branch_slots self.now).areas }
        ensures shaped { IsShaped (branch_slots self.now) }
    {
        self.sums[1]
    }

    /// Returns the filling of a datagram once all areas of a node are in it.
    fn filled_by(&self, node: usize, filled: Filled) -> Filled
        requires node { node < length self.now.sums.items }
        requires here { filled.bit < 2 ^ 31 }
        requires there { (filled_by_run (get_or self.now.sums.items node Empty) filled).bit < 2 ^ 32 }
        ensures { result ≡ filled_by_run (get_or self.now.sums.items node Empty) filled }
    {
        filled.after(&self.sums[node])
    }

    /// Returns the filling of a datagram once all areas of a node are in it. Reading the node is a step.
    fn after_node<L: Ledger>(&self, node: usize, filled: Filled, steps: &mut Steps<L>) -> Filled
        requires node { node < length self.now.sums.items }
        requires here { filled.bit < 2 ^ 31 }
        requires there { (filled_by_run (get_or self.now.sums.items node Empty) filled).bit < 2 ^ 32 }
        ensures end { result ≡ filled_by_run (get_or self.now.sums.items node Empty) filled }
        ensures step { steps.new ≡ steps.old + 1 }
    {
        steps.tick();
        self.filled_by(node, filled)
    }

    /// Fills a datagram with the areas of a node, as long as each ends within the room, in bits. There is no room for all of
    /// them. Each node and area that is read is a step.
    fn fit_below<L: Ledger>(
        &self,
        top: u32,
        from: usize,
        filled: Filled,
        room: u32,
        steps: &mut Steps<L>,
    ) -> Fit
        requires branch { IsBranch self.now }
        requires node { IsNode self.now.levels top from }
        requires here { filled.bit ≤ room }
        requires room { room < 2 ^ 30 }
        requires beyond { room < (filled_with_areas filled (node_areas self.now top from)).bit }
        ensures fit { result ≡ scan room filled (node_areas self.now top from) }
        ensures least { steps.old ≤ steps.new }
        ensures most { steps.new ≤ steps.old + top + 8 }
    {
        let mut node = from;
        let mut height = top;
        let mut so_far = filled;
        while height > 0 {
            height -= 1;
            let left = 2 * node;
            let end = self.after_node(left, so_far, steps);
            if end.bit <= room {
                so_far = end;
                node = left + 1;
            } else {
                node = left;
            }
        }
        let row = node - self.rows.len();
        fit_row(
            self.dir,
            &self.rows[row],
            8 * row as u32,
            0,
            so_far,
            room,
            steps,
        )
    }

    /// Fills a datagram with the areas after a row, as long as each ends within the room, in bits. Each
    /// node and area that is read is a step.
    fn fit_after<L: Ledger>(
        &self,
        row: usize,
        filled: Filled,
        room: u32,
        steps: &mut Steps<L>,
    ) -> Fit
        requires branch { IsBranch self.now }
        requires row { row < length self.now.rows.items }
        requires here { filled.bit ≤ room }
        requires room { room < 2 ^ 30 }
        ensures fit { result ≡ scan room filled (areas_after self.now (row + 1)) }
        ensures end { IsInRoom room result }
        ensures least { steps.old ≤ steps.new }
        ensures most { steps.new ≤ steps.old + 30 }
    {
        let mut node = self.rows.len() + row;
        let mut height = 0;
        let mut so_far = filled;
        while height < self.levels {
            if node % 2 == 0 {
                let end = self.after_node(node + 1, so_far, steps);
                if end.bit > room {
                    return self.fit_below(height, node + 1, so_far, room, steps);
                }
                so_far = end;
            }
            node /= 2;
            height += 1;
        }
        Fit::Through(so_far)
    }

    /// Fills a datagram with all its areas, as long as each ends within the room, in bits. Each node and
    /// area that is read is a step.
    pub(crate) fn fit_all<L: Ledger>(&self, filled: Filled, room: u32, steps: &mut Steps<L>) -> Fit
        requires branch { IsBranch self.now }
        requires here { filled.bit ≤ room }
        requires room { room < 2 ^ 30 }
        ensures fit { result ≡ scan room filled (branch_slots self.now).areas }
        ensures end { IsInRoom room result }
        ensures least { steps.old + 1 ≤ steps.new }
        ensures most { steps.new ≤ steps.old + 20 }
    {
        let end = self.after_node(1, filled, steps);
        if end.bit <= room {
            return Fit::Through(end);
        }
        self.fit_below(self.levels, 1, filled, room, steps)
    }

    /// Fills a datagram with its areas from the one after `skip` others, as long as each ends within
    /// the room, in bits. Each node and area that is read is a step.
    pub(crate) fn fit<L: Ledger>(
        &self,
        skip: u32,
        filled: Filled,
        room: u32,
        steps: &mut Steps<L>,
    ) -> Fit
        requires branch { IsBranch self.now }
        requires within { skip < length (branch_slots self.now).areas }
        requires here { filled.bit ≤ room }
        requires room { room < 2 ^ 30 }
        ensures fit { result ≡ scan room filled (drop skip (branch_slots self.now).areas) }
        ensures end { IsInRoom room result }
        ensures least { steps.old + 1 ≤ steps.new }
        ensures most { steps.new ≤ steps.old + 38 }
    {
        let row = (skip / 8) as usize;
        let area = (skip % 8) as usize;
        match fit_row(
            self.dir,
            &self.rows[row],
            skip / 8 * 8,
            area,
            filled,
            room,
            steps,
        ) {
            Fit::Found(key) => Fit::Found(key),
            Fit::Through(end) => self.fit_after(row, end, room, steps),
        }
    }

    /// Fills a datagram with the nodes from a row on, each higher than the one before, that end by
    /// another row. Exception: if the walk begins with row 0, it fills nothing, since the root begins with row 0 too.
    fn climb(&self, first: usize, end: usize, filled: Filled) -> Climbed
        requires branch { IsBranch self.now }
        requires order { first ≤ end }
        requires within { end ≤ length self.now.rows.items }
        requires there { (filled_with_areas filled (part self.now.dir self.now.rows.items first (end - first))).bit < 2 ^ 30 }
        ensures { HasClimbed self.now first end filled result }
    {
        if first == 0 {
            return Climbed {
                row: 0,
                node: 1,
                height: self.levels,
                filled,
            };
        }
        let mut row = first;
        let mut node = self.rows.len() + first;
        let mut height = 0;
        let mut so_far = filled;
        while height < self.levels {
            if row + (1 << height) > end {
                break;
            }
            if node % 2 == 1 {
                so_far = self.filled_by(node, so_far);
                row += 1 << height;
                node += 1;
            }
            node /= 2;
            height += 1;
        }
        Climbed {
            row,
            node,
            height,
            filled: so_far,
        }
    }

    /// Fills a datagram with the nodes from the end of a climb on, each lower than the one before, up to the row by which they
    /// end.
    fn descend(&self, from: Climbed, end: usize) -> Filled
        requires branch { IsBranch self.now }
        requires order { from.row ≤ end }
        requires within { end ≤ length self.now.rows.items }
        requires begins { BeginsWithRow self.now.levels from.height from.node from.row }
        requires near { end < from.row + 2 ^ (from.height + 1) }
        requires there { (filled_with_areas from.filled (part self.now.dir self.now.rows.items from.row (end - from.row))).bit < 2 ^ 30 }
        ensures { result ≡ filled_with_areas from.filled (part self.now.dir self.now.rows.items from.row (end - from.row)) }
    {
        let mut row = from.row;
        let mut node = from.node;
        let mut height = from.height;
        let mut so_far = from.filled;
        'levels: loop {
            if row + (1 << height) <= end {
                so_far = self.filled_by(node, so_far);
                row += 1 << height;
                node += 1;
            }
            if row == end {
                return so_far;
            }
            node *= 2;
            height -= 1;
        }
    }

    /// Returns the filling of a datagram once the areas from one place up to another are in it, gone over one by one.
    fn filled_by_each(&self, first: u32, end: u32, filled: Filled) -> Filled
        requires branch { IsBranch self.now }
        requires order { first ≤ end }
        requires within { end ≤ length (branch_slots self.now).areas }
        requires there { (filled_with_areas filled (stretch first end (branch_slots self.now).areas)).bit < 2 ^ 30 }
        ensures { result ≡ filled_with_areas filled (stretch first end (branch_slots self.now).areas) }
    {
        let mut so_far = filled;
        for at in first..end {
            so_far = so_far.after_area(self.dir, self.bits(at));
        }
        so_far
    }

    /// Returns the filling of a datagram once the areas from one place up to another are in it.
    #[inline(never)]
    fn filled_by_stretch(&self, first: u32, end: u32, filled: Filled) -> Filled
        requires branch { IsBranch self.now }
        requires order { first ≤ end }
        requires within { end ≤ length (branch_slots self.now).areas }
        requires there { (filled_with_areas filled (stretch first end (branch_slots self.now).areas)).bit < 2 ^ 30 }
        ensures { result ≡ filled_with_areas filled (stretch first end (branch_slots self.now).areas) }
    {
        let first_row = first.div_ceil(8);
        let end_row = end / 8;
        if first_row >= end_row {
            return self.filled_by_each(first, end, filled);
        }
        let head = self.filled_by_each(first, 8 * first_row, filled);
        let climbed = self.climb(first_row as usize, end_row as usize, head);
        let rows = self.descend(climbed, end_row as usize);
        self.filled_by_each(8 * end_row, end, rows)
    }

    /// Returns the filling of a datagram once its areas from one key on and before another are in it.
    #[inline(always)]
    pub(crate) fn filled_between(&self, from: Key, until: Key, filled: Filled) -> Filled
        requires branch { IsBranch self.now }
        requires there { (filled_with_areas filled (areas_between from until (branch_slots self.now).areas)).bit < 2 ^ 30 }
        ensures { result ≡ filled_with_areas filled (areas_between from until (branch_slots self.now).areas) }
    {
        let places = 8 * self.rows.len() as u32;
        let first = places_before(self.dir, from, places);
        let end = places_before(self.dir, until, places);
        if end <= first {
            return filled;
        }
        self.filled_by_stretch(first, end, filled)
    }

    /// The width of the area after `at` others, in bits.
    pub(crate) fn bits(&self, at: u32) -> u16
        requires branch { IsBranch self.now }
        requires within { at < length (branch_slots self.now).areas }
        ensures { result ≡ bits_at at (branch_slots self.now).areas }
    {
        self.rows[(at / 8) as usize][(at % 8) as usize]
    }

    /// Sets the width of the area after `at` others, in bits.
    pub(crate) fn set(&mut self, at: u32, bits: u16)
        requires branch { IsBranch self.old }
        requires within { at < length (branch_slots self.old).areas }
        requires bits { bits ≤ MOST_AREA_BITS }
        ensures slots { branch_slots self.new ≡ with_bits (branch_slots self.old) at bits }
        ensures branch { IsBranch self.new }
    {
        let row = (at / 8) as usize;
        self.rows[row][(at % 8) as usize] = bits;
        sum_anew(self.dir, self.levels, &self.rows, &mut self.sums, row);
    }

    /// True if the sum of a row is empty: no area of the row has a width.
    fn is_blank(&self, index: usize) -> bool
        requires branch { IsBranch self.now }
        requires within { index < length self.now.rows.items }
        ensures { IsTrue result → filter has_width (part self.now.dir self.now.rows.items index 1) ≡ [] }
    {
        match self.sums[self.rows.len() + index] {
            Sum::Empty => true,
            Sum::Run { .. } => false,
        }
    }

    /// True if the sum of all areas is empty: none of them has a width.
    fn is_empty(&self) -> bool
        requires { IsBranch self.now }
        ensures { IsTrue result → filter has_width (branch_slots self.now).areas ≡ [] }
    {
        match self.total() {
            Sum::Empty => true,
            Sum::Run { .. } => false,
        }
    }

    /// Adds the area after `at` others to areas, if it has a width. Fails with `AllocError` if an allocation fails.
    fn add_area(&self, areas: &mut Vec<(Key, u16)>, at: u32) -> Result<(), AllocError>
        requires branch { IsBranch self.now }
        requires within { at < length (branch_slots self.now).areas }
        ensures { OnOk result (areas.new.items ≡ areas.old.items ++ filter has_width ((key_at self.now.dir at, bits_at at (branch_slots self.now).areas) ∷ [])) }
    {
        let bits = self.bits(at);
        if bits > 0 {
            areas.push((key_at(self.dir, at), bits))?;
        }
        Ok(())
    }

    /// Adds those of its areas from one place up to another that have a width to others, in their order. It skips rows without
    /// such an area. Fails with `AllocError` if an allocation fails.
    fn add_stretch(
        &self,
        areas: &mut Vec<(Key, u16)>,
        first: u32,
        end: u32,
    ) -> Result<(), AllocError>
        requires branch { IsBranch self.now }
        requires order { first ≤ end }
        requires within { end ≤ length (branch_slots self.now).areas }
        ensures { OnOk result (areas.new.items ≡ areas.old.items ++ filter has_width (stretch first end (branch_slots self.now).areas)) }
    {
        let mut at = first;
        'places: while at < end {
            if at % 8 == 0 && at + 8 <= end && self.is_blank((at / 8) as usize) {
                at += 8;
            } else {
                self.add_area(areas, at)?;
                at += 1;
            }
        }
        Ok(())
    }

    /// Adds its areas from one key on and before another that have a width to others, in key order. Their memory is allocated
    /// first. Fails with `AllocError` if an allocation fails.
    pub(crate) fn add_between(
        &self,
        areas: &mut Vec<(Key, u16)>,
        from: Key,
        until: Key,
    ) -> Result<(), AllocError>
        requires { IsBranch self.now }
        ensures { OnOk result (areas.new.items ≡ areas.old.items ++ filter has_width (areas_between from until (branch_slots self.now).areas)) }
    {
        let places = 8 * self.rows.len() as u32;
        let first = places_before(self.dir, from, places);
        let end = places_before(self.dir, until, places);
        if end <= first || self.is_empty() {
            return Ok(());
        }
        areas.reserve((end - first) as usize)?;
        self.add_stretch(areas, first, end)
    }
}
