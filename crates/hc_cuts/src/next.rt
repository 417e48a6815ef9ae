//! The key at which the next datagram of a task begins, by a search in its tree of sums.
ghost use Rattle.std.specs.Prelude.{◌≡◌, ◌+◌, ◌≤◌};
ghost use Rattle.hc_bitsum.specs.Tree.{CanBegin, HoldsTaskList};
ghost use Rattle.hc_cuts.specs.Starts.{most_read, next_boundary};

use hc_bitsum::steps::Steps;
use hc_bitsum::tree::SumTree;
use hc_records::keys::Key;
use hc_records::limits::MOST_AREA_BITS;
use std::sync::ledger::Ledger;

/// Returns the key at which the next datagram of a task begins, if one begins at a key, with the areas from there on;
/// `Key::END` if it holds all of them. The key is `Key::START`, for the front of the list, or one that has a place in the tree,
/// as the keys of its areas have. Each node and area that is read is a step, at least 1 and at most 104. It allocates nothing.
pub fn next_cut<L: Ledger>(task: &SumTree, from: Key, steps: &mut Steps<L>) -> Key
    requires { CanBegin task.now.slaves from }
    ensures key { result ≡ next_boundary from task.now.list }
    ensures holds { HoldsTaskList task.now }
    ensures least { steps.old + 1 ≤ steps.new }
    ensures most { steps.new ≤ steps.old + most_read }
{
    task.last_fit(from, 0, MOST_AREA_BITS, steps)
}
