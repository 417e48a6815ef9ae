//! The addition of a declared group to an index: all memory is reserved first, so that nothing can fail afterwards.
ghost use Rattle.std.specs.Prelude.{◌≡◌, ◌+◌, ◌<◌, All, IfOk, length, map};
ghost use Rattle.std.specs.List.Sorted.{IsNonDecreasing, IsPermutation};
ghost use Rattle.hc_records.specs.Line.{members_from};
ghost use Rattle.hc_records.specs.Project.{slave_names};
ghost use Rattle.hc_groups.specs.Index.{address_of, block_sum, slave_block_count, sums_from};

use crate::addresses::{Address, add_addresses, add_ranks, highest_station};
use crate::aliases::{Alias, add_alias};
use crate::index::Index;
use crate::lists::{add_list, add_sum, fill};
use crate::sums::slave_sums;
use crate::variables::{add_variables, sorted_names};
use hc_records::records::{Group, Slave};
use hc_records::room::Room;
use std::alloc::{AllocError, Global};
use std::marker::Model;

/// Memory for the lists of an index that grow by one element with each group.
#[derive(Drop)]
struct GroupRoom {
    aliases: Room<Alias>,
    fronts: Room<Vec<u32>>,
    ranks: Room<u32>,
    slaves: Room<u32>,
    blocks: Room<u32>,
}

/// Memory for the lists that grow with a group's slaves, their station addresses and the variables that they offer.
#[derive(Drop)]
struct SlaveRoom {
    stations: Room<u16>,
    variables: Room<u32>,
    owners: Room<u16>,
    line: Room<u16>,
}

/// The facts of a group that an index stores.
#[derive(Drop)]
struct Entry {
    // the station addresses of the group's slaves with their ranks
    addresses: Vec<Address>,
    // a number above all of these addresses
    reach: usize,
    // the variables that they offer, the lowest first
    names: Vec<u32>,
    // the number of blocks before each of them in the group, and of all
    sums: Vec<u32>,
}

/// The memory that an index needs to add a declared group, and the facts of the group that it stores.
#[derive(Drop)]
pub struct IndexRoom {
    by_group: GroupRoom,
    by_slave: SlaveRoom,
    entry: Entry,
}

impl Model for IndexRoom {
    ghost use Rattle.hc_groups.specs.Room.{IndexRoom};

    ghost Value = { IndexRoom };

    ghost view = { λ room. record { aliases = room.by_group.aliases; stations = room.by_slave.stations; variables = room.by_slave.variables; owners = room.by_slave.owners; line = room.by_slave.line; fronts = room.by_group.fronts; ranks = room.by_group.ranks; slaves = room.by_group.slaves; blocks = room.by_group.blocks; addresses = room.entry.addresses.items; reach = room.entry.reach; names = room.entry.names.items; sums = room.entry.sums.items } };
}

/// Returns the station addresses of slaves from this rank on.
fn own_addresses(alloc: Global, rank: u16, slaves: &[Slave]) -> Result<Vec<Address>, AllocError>
    requires { rank + length slaves.now < 65536 }
    ensures { IfOk result (λ all. all.items ≡ map address_of (members_from rank slaves.now)) }
{
    let mut all = Vec::new(alloc);
    add_addresses(&mut all, rank, slaves)?;
    Ok(all)
}

/// Returns the facts of a group whose first slave has this rank. `AllocError` if an allocation fails.
fn entry_of(alloc: Global, rank: u16, slaves: &[Slave]) -> Result<Entry, AllocError>
    requires counted { rank + length slaves.now < 65536 }
    requires few { block_sum slaves.now < 4294967296 }
    ensures addresses { IfOk result (λ entry. entry.addresses.items ≡ map address_of (members_from rank slaves.now)) }
    ensures reach { IfOk result (λ entry. All (λ address. address.station < entry.reach) entry.addresses.items) }
    ensures names { IfOk result (λ entry. IsPermutation (slave_names slaves.now) entry.names.items) }
    ensures order { IfOk result (λ entry. IsNonDecreasing entry.names.items) }
    ensures sums { IfOk result (λ entry. entry.sums.items ≡ sums_from slave_block_count 0 slaves.now) }
{
    let addresses = own_addresses(alloc, rank, slaves)?;
    let reach = usize::from(highest_station(&addresses)) + 1;
    let names = sorted_names(alloc, slaves)?;
    let sums = slave_sums(alloc, slaves)?;
    Ok(Entry {
        addresses,
        reach,
        names,
        sums,
    })
}

impl Index {
    ghost use Rattle.std.specs.Prelude.{◌+◌, ◌++◌, ◌∷◌, [], IfOk, List, length};
    ghost use Rattle.hc_records.specs.declared.records.Declared.{Declared};
    ghost use Rattle.hc_records.specs.Edits.{absent};
    ghost use Rattle.hc_groups.specs.Index.{IsIndexOf};
    ghost use Rattle.hc_groups.specs.Room.{IndexCanAdmit, CanEnter, IsIndexRoomFor, IsGroupRoom, IsSlaveRoom};

    /// Reserves memory for one more element in each list that grows by one with each group.
    fn group_room(&self, alloc: Global) -> Result<GroupRoom, AllocError>
        ensures { IfOk result (IsGroupRoom self.now) }
    {
        Ok(GroupRoom {
            aliases: Room::for_more(alloc, &self.aliases, 1)?,
            fronts: Room::for_more(alloc, &self.fronts, 1)?,
            ranks: Room::for_more(alloc, &self.ranks, 1)?,
            slaves: Room::for_more(alloc, &self.slaves, 1)?,
            blocks: Room::for_more(alloc, &self.blocks, 1)?,
        })
    }

    /// Reserves memory for `count` more slaves with their facts.
    fn slave_room(
        &self,
        alloc: Global,
        count: usize,
        entry: &Entry,
    ) -> Result<SlaveRoom, AllocError>
        ensures { IfOk result (IsSlaveRoom self.now entry.now count) }
    {
        let longer = entry.reach.saturating_sub(self.stations.len());
        Ok(SlaveRoom {
            stations: Room::for_more(alloc, &self.stations, longer)?,
            variables: Room::for_more(alloc, &self.variables, entry.names.len())?,
            owners: Room::for_more(alloc, &self.owners, count)?,
            line: Room::for_more(alloc, &self.line, count)?,
        })
    }

    /// Reserves the memory to add a group that is declared after the others. `AllocError` if an allocation fails. It reads only
    /// the new group.
    pub fn room_for(&self, alloc: Global, group: &Group) -> Result<IndexRoom, AllocError>
        requires { CanEnter self.now group.now }
        ensures { IfOk result (λ room. (groups : List Declared) → IsIndexOf groups self.now → IsIndexRoomFor groups group.now room) }
    {
        let slaves = group.slaves.as_slice();
        let entry = entry_of(alloc, self.owners.len() as u16 + 1, slaves)?;
        let by_group = self.group_room(alloc)?;
        let by_slave = self.slave_room(alloc, slaves.len(), &entry)?;
        Ok(IndexRoom {
            by_group,
            by_slave,
            entry,
        })
    }

    /// Adds a group, declared after the others and absent, in memory that was reserved: the index becomes that of the groups
    /// with this one. It cannot fail. It reads the new group; of the others, aliases and variables that are higher than its own
    /// are shifted once.
    pub fn admit(&mut self, group: &Group, room: IndexRoom)
        requires { IndexCanAdmit self.old group.now room }
        ensures { (can : IndexCanAdmit self.old group.now room) → IsIndexOf (can.groups ++ absent group.now ∷ []) self.new }
    {
        let IndexRoom {
            by_group,
            by_slave,
            entry,
        } = room;
        let number = self.fronts.len() as u16;
        let count = group.slaves.len();
        let alias = Alias {
            alias: group.alias,
            group: number,
        };
        add_alias(&mut self.aliases, by_group.aliases, alias);
        add_ranks(
            &mut self.stations,
            by_slave.stations,
            &entry.addresses,
            entry.reach,
        );
        add_variables(&mut self.variables, by_slave.variables, &entry.names);
        fill(&mut self.owners, by_slave.owners, count, number);
        fill(&mut self.line, by_slave.line, count, 0);
        add_list(&mut self.fronts, by_group.fronts, entry.sums);
        add_sum(&mut self.ranks, by_group.ranks, count as u32);
        add_sum(&mut self.slaves, by_group.slaves, 0);
        add_sum(&mut self.blocks, by_group.blocks, 0);
    }
}
