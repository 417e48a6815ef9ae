//! The variables that areas of declared slaves offer, present or not, assigned or not, sorted.
ghost use Rattle.std.specs.Prelude.{◌≡◌, ◌+◌, ◌==◌, ◌≤◌, ◌∷◌, ◌++◌, IfOk, drop, false, length, nat_lt, slice_range, take, true};
ghost use Rattle.std.specs.List.{list_any};
ghost use Rattle.std.specs.List.Sorted.{IsNonDecreasing, IsPartitionPoint, IsPermutation};
ghost use Rattle.hc_records.specs.Project.{slave_names};
ghost use Rattle.hc_groups.specs.Index.{variables};

use crate::lists::append;
use hc_records::add_slave_names;
use hc_records::records::{Declared, Slave};
use hc_records::room::Room;
use std::alloc::{AllocError, Global};

/// Returns the variables that areas of declared slaves offer, in declared order.
fn declared_variables(alloc: Global, groups: &[Declared]) -> Result<Vec<u32>, AllocError>
    ensures { IfOk result (λ all. all.items ≡ variables groups.now) }
{
    let mut all = Vec::new(alloc);
    for declared in groups {
        add_slave_names(&mut all, declared.group.slaves.as_slice())?;
    }
    Ok(all)
}

/// Returns the variables that areas of declared slaves offer, the lowest first. `AllocError` if an allocation fails.
pub(crate) fn sorted_variables(alloc: Global, groups: &[Declared]) -> Result<Vec<u32>, AllocError>
    ensures same { IfOk result (λ all. IsPermutation (variables groups.now) all.items) }
    ensures order { IfOk result (λ all. IsNonDecreasing all.items) }
{
    let mut all = declared_variables(alloc, groups)?;
    all.sort_unstable();
    Ok(all)
}

/// Returns the variables that areas of slaves offer, the lowest first. `AllocError` if an allocation fails.
pub(crate) fn sorted_names(alloc: Global, slaves: &[Slave]) -> Result<Vec<u32>, AllocError>
    ensures same { IfOk result (λ all. IsPermutation (slave_names slaves.now) all.items) }
    ensures order { IfOk result (λ all. IsNonDecreasing all.items) }
{
    let mut all = Vec::new(alloc);
    add_slave_names(&mut all, slaves)?;
    all.sort_unstable();
    Ok(all)
}

/// Returns whether a variable is one of these.
pub(crate) fn is_one_of(variables: &[u32], variable: u32) -> bool
    requires { IsNonDecreasing variables.now }
    ensures { result ≡ list_any (λ other. other == variable) variables.now }
{
    variables.binary_search(&variable).is_ok()
}

/// Returns how many variables are lower than this one.
fn count_lower(variables: &[u32], variable: u32) -> usize
    requires { IsNonDecreasing variables.now }
    ensures bound { result ≤ length variables.now }
    ensures parted { IsPartitionPoint (λ other. nat_lt other variable ≡ true) (λ other. nat_lt other variable ≡ false) variables.now result }
{
    variables.partition_point(|other| *other < variable)
}

/// Shifts the variables from one index to another up by a number of places, and inserts a variable before them.
fn put_below(all: &mut Vec<u32>, at: usize, left: usize, more: usize, variable: u32)
    requires order { at ≤ left }
    requires bound { left + more + 1 ≤ length all.old.items }
    ensures size { length all.new.items ≡ length all.old.items }
    ensures front { take at all.new.items ≡ take at all.old.items }
    ensures after_it { drop (at + more) all.new.items ≡ variable ∷ (slice_range all.old.items at left ++ drop (left + more + 1) all.old.items) }
{
    all.copy_within(at..left, at + more + 1);
    all[at + more] = variable;
}

/// Merges variables into others, both the lowest first, in memory that was reserved: the highest first, and those of the others
/// that are higher are shifted once.
pub(crate) fn add_variables(variables: &mut Vec<u32>, room: Room<u32>, names: &[u32])
    requires order { IsNonDecreasing variables.old.items }
    requires own { IsNonDecreasing names.now }
    requires room { length variables.old.items + length names.now ≤ room }
    ensures same { IsPermutation (variables.old.items ++ names.now) variables.new.items }
    ensures order { IsNonDecreasing variables.new.items }
{
    let mut left = variables.len();
    let mut more = names.len();
    append(variables, room, names);
    while more > 0 {
        more -= 1;
        let at = count_lower(&variables[..left], names[more]);
        put_below(variables, at, left, more, names[more]);
        left = at;
    }
}
