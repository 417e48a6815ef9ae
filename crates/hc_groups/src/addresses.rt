//! The ranks of all declared slaves, present or not, by their station addresses.
ghost use Rattle.std.specs.Prelude.{◌≡◌, ◌+◌, ◌<◌, ◌≤◌, ◌++◌, All, IfOk, List, OnOk, length, map, replicate};
ghost use Rattle.hc_records.specs.Line.{IsCounted, members_from};
ghost use Rattle.hc_groups.specs.declared.addresses.Address.{Address};
ghost use Rattle.hc_groups.specs.Index.{AreRanks, address_of, addresses, FindsRank};

use crate::lists::fill;
use hc_records::records::{Declared, Slave};
use hc_records::room::Room;
use std::alloc::{AllocError, Global};

/// The station address of a declared slave, with its rank among all of them, from 1.
#[derive(Clone, Copy, Debug)]
pub struct Address {
    /// Its configured station address.
    pub station: u16,
    /// Its rank.
    pub rank: u16,
}

/// Appends the addresses of slaves from this rank on.
pub(crate) fn add_addresses(
    all: &mut Vec<Address>,
    rank: u16,
    slaves: &[Slave],
) -> Result<(), AllocError>
    requires { rank + length slaves.now < 65536 }
    ensures { OnOk result (all.new.items ≡ all.old.items ++ map address_of (members_from rank slaves.now)) }
{
    let mut next = rank;
    for slave in slaves {
        all.push(Address {
            station: slave.station,
            rank: next,
        })?;
        next += 1;
    }
    Ok(())
}

/// Returns the station addresses of all declared slaves, in declared order.
fn declared_addresses(alloc: Global, groups: &[Declared]) -> Result<Vec<Address>, AllocError>
    requires { IsCounted groups.now }
    ensures { IfOk result (λ all. all.items ≡ addresses groups.now) }
{
    let mut all = Vec::new(alloc);
    let mut rank = 1;
    for declared in groups {
        let slaves = declared.group.slaves.as_slice();
        add_addresses(&mut all, rank, slaves)?;
        rank += slaves.len() as u16;
    }
    Ok(all)
}

/// Returns the highest station address; 0 if there is none.
pub(crate) fn highest_station(addresses: &[Address]) -> u16
    ensures { All (λ address. address.station ≤ result) addresses.now }
{
    let mut highest = 0;
    for address in addresses {
        highest = highest.max(address.station);
    }
    highest
}

/// Writes the ranks of slaves at their station addresses, among those of others.
fn write_ranks(ranks: &mut Vec<u16>, addresses: &[Address])
    requires room { All (λ address. address.station < length ranks.old.items) addresses.now }
    requires some { All (λ address. 1 ≤ address.rank) addresses.now }
    ensures { (others : List Address) → AreRanks others ranks.old.items → AreRanks (others ++ addresses.now) ranks.new.items }
{
    for address in addresses {
        ranks[usize::from(address.station)] = address.rank;
    }
}

/// Returns `n` zeros.
fn no_ranks(alloc: Global, n: usize) -> Result<Vec<u16>, AllocError>
    ensures { IfOk result (λ ranks. ranks.items ≡ replicate n 0) }
{
    vec![in alloc; 0; n]
}

/// Returns, for each station address up to the highest of a declared slave, the slave's rank, or 0 if none has it. `AllocError`
/// if an allocation fails.
pub(crate) fn ranks_by_station(alloc: Global, groups: &[Declared]) -> Result<Vec<u16>, AllocError>
    requires { IsCounted groups.now }
    ensures { IfOk result (λ ranks. AreRanks (addresses groups.now) ranks.items) }
{
    let addresses = declared_addresses(alloc, groups)?;
    let highest = highest_station(&addresses);
    let mut ranks = no_ranks(alloc, usize::from(highest) + 1)?;
    write_ranks(&mut ranks, &addresses);
    Ok(ranks)
}

/// Extends ranks up to a number, in memory that was reserved: no slave has the station addresses that are added.
fn lengthen(ranks: &mut Vec<u16>, room: Room<u16>, reach: usize)
    requires { reach ≤ room }
    ensures reach { reach ≤ length ranks.new.items }
    ensures same { (all : List Address) → AreRanks all ranks.old.items → AreRanks all ranks.new.items }
{
    let count = ranks.len();
    if reach <= count {
        return;
    }
    fill(ranks, room, reach - count, 0);
}

/// Adds the ranks of slaves at their station addresses, which are all below a number, in memory that was reserved.
pub(crate) fn add_ranks(ranks: &mut Vec<u16>, room: Room<u16>, addresses: &[Address], reach: usize)
    requires room { reach ≤ room }
    requires reach { All (λ address. address.station < reach) addresses.now }
    requires some { All (λ address. 1 ≤ address.rank) addresses.now }
    ensures { (others : List Address) → AreRanks others ranks.old.items → AreRanks (others ++ addresses.now) ranks.new.items }
{
    lengthen(ranks, room, reach);
    write_ranks(ranks, addresses);
}

/// Returns the rank of the declared slave with a station address, or `None` if there is none.
pub(crate) fn find_rank(ranks: &[u16], station: u16) -> Option<u16>
    ensures { (all : List Address) → AreRanks all ranks.now → FindsRank all station result }
{
    let rank = *ranks.get(usize::from(station))?;
    if rank == 0 { None } else { Some(rank) }
}
