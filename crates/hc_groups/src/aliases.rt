//! The aliases of all declared groups, present or not, sorted.
ghost use Rattle.std.specs.Prelude.{◌≡◌, ◌≢◌, ◌+◌, ◌<◌, ◌≤◌, ◌∷◌, All, Contains, IfOk, MatchOption, false, length, nat_lt, true};
ghost use Rattle.std.specs.List.Sorted.{IsNonDecreasingBy, IsPartitionPoint, IsPermutation};
ghost use Rattle.hc_groups.specs.Index.{aliases};

use hc_records::records::Declared;
use hc_records::room::Room;
use std::alloc::{AllocError, Global};

/// The alias of a declared group, with the group's number.
#[derive(Clone, Copy, Debug)]
pub struct Alias {
    /// Its alias.
    pub alias: u16,
    /// Its number among the declared groups, from 0.
    pub group: u16,
}

/// Returns the aliases of the declared groups, in declared order.
fn declared_aliases(alloc: Global, groups: &[Declared]) -> Result<Vec<Alias>, AllocError>
    requires { length groups.now < 65536 }
    ensures { IfOk result (λ all. all.items ≡ aliases groups.now) }
{
    let mut all = Vec::new(alloc);
    let mut group = 0;
    for declared in groups {
        all.push(Alias {
            alias: declared.group.alias,
            group,
        })?;
        group += 1;
    }
    Ok(all)
}

/// Returns the aliases of the declared groups, the lowest first. `AllocError` if an allocation fails.
pub(crate) fn sorted_aliases(alloc: Global, groups: &[Declared]) -> Result<Vec<Alias>, AllocError>
    requires { length groups.now < 65536 }
    ensures same { IfOk result (λ all. IsPermutation (aliases groups.now) all.items) }
    ensures order { IfOk result (λ all. IsNonDecreasingBy (λ alias. alias.alias) all.items) }
{
    let mut all = declared_aliases(alloc, groups)?;
    all.sort_unstable_by_key(|alias| alias.alias);
    Ok(all)
}

/// Returns how many aliases are lower than this one.
fn count_below(aliases: &[Alias], alias: u16) -> usize
    requires { IsNonDecreasingBy (λ own. own.alias) aliases.now }
    ensures bound { result ≤ length aliases.now }
    ensures parted { IsPartitionPoint (λ own. nat_lt own.alias alias ≡ true) (λ own. nat_lt own.alias alias ≡ false) aliases.now result }
{
    aliases.partition_point(|own| own.alias < alias)
}

/// Returns the number of the declared group with an alias, or `None` if there is none.
pub(crate) fn find_group(aliases: &[Alias], alias: u16) -> Option<u16>
    requires { IsNonDecreasingBy (λ own. own.alias) aliases.now }
    ensures { MatchOption result (All (λ own. own.alias ≢ alias) aliases.now) (λ group. Contains aliases.now (record { alias = alias; group = group })) }
{
    let own = *aliases.get(count_below(aliases, alias))?;
    if own.alias == alias {
        Some(own.group)
    } else {
        None
    }
}

/// Inserts an alias, in memory that was reserved: those after it are shifted once.
pub(crate) fn add_alias(aliases: &mut Vec<Alias>, room: Room<Alias>, alias: Alias)
    requires order { IsNonDecreasingBy (λ own. own.alias) aliases.old.items }
    requires room { length aliases.old.items + 1 ≤ room }
    ensures same { IsPermutation (alias ∷ aliases.old.items) aliases.new.items }
    ensures order { IsNonDecreasingBy (λ own. own.alias) aliases.new.items }
{
    room.widen(aliases, 1);
    let at = count_below(aliases.as_slice(), alias.alias);
    let _added = aliases.insert(at, alias);
}
