//! The index of a project's declared groups, and the look-ups in groups by it.
ghost use Rattle.std.specs.Prelude.{◌≡◌, ◌<◌, None, IfOk, length};
ghost use Rattle.hc_records.specs.Line.{groups_of};
ghost use Rattle.hc_records.specs.Project.{lowest_fault};
ghost use Rattle.hc_groups.specs.Changes.{IsMade, changed_groups};
ghost use Rattle.hc_groups.specs.declared.prepared.Prepared.TheVariants.{Presence};
ghost use Rattle.hc_groups.specs.Index.{BeginsWithLine, IsIndexOf};
ghost use Rattle.hc_groups.specs.inner.Line.{IsStretchOf};
ghost use Rattle.hc_groups.specs.inner.Turned.{turned_index};

use crate::addresses::{find_rank, ranks_by_station};
use crate::aliases::{Alias, find_group, sorted_aliases};
use crate::changes::{PresenceChange, SlavePlace};
use crate::line::{Stretch, line_list, replace, slaves_if};
use crate::owning::owners;
use crate::prepared::Prepared;
use crate::sums::{
    SumPlace, declared_sums, find_near_share, find_sum_place, group_fronts, line_counts, number_at,
    recount, sum_line,
};
use crate::variables::{is_one_of, sorted_variables};
use hc_records::records::{Declared, Slave, VarId};
use std::alloc::{AllocError, Global};
use std::marker::Model;

/// A slave of the line, found by an index.
#[derive(Drop)]
pub struct LineSlave<'a> {
    rank: u16,
    slave: &'a Slave,
}

impl<'a> Model for LineSlave<'a> {
    ghost use Rattle.hc_records.specs.Line.{Member};

    ghost Value = { Member };

    ghost view = { λ member. record { rank = member.rank; slave = member.slave.now } };
}

impl<'a> LineSlave<'a> {
    ghost use Rattle.std.specs.Prelude.{◌≡◌};

    /// Returns the slave's rank: its number among all declared slaves, present or not, from 1.
    pub fn rank(&self) -> u16
        ensures { result ≡ self.now.rank }
    {
        self.rank
    }

    /// Returns the slave's record.
    pub fn slave(&self) -> &'a Slave
        ensures { result.now ≡ self.now.slave }
    {
        self.slave
    }
}

/// The index of a project's declared groups, by which each is found by its alias, and their slaves and blocks are found.
#[derive(Debug)]
pub struct Index {
    // of all declared groups, the lowest alias first
    pub(crate) aliases: Vec<Alias>,
    // at each station address the rank of the declared slave that has it, or 0
    pub(crate) stations: Vec<u16>,
    // the variables that declared slaves offer, the lowest first
    pub(crate) variables: Vec<u32>,
    // the number of the group of each declared slave
    pub(crate) owners: Vec<u16>,
    // for each declared group, the number of blocks before each of its slaves in the group, and of all
    pub(crate) fronts: Vec<Vec<u32>>,
    // the number of slaves declared before each group, and of all
    pub(crate) ranks: Vec<u32>,
    // the number of slaves of the line before each group, and of all
    pub(crate) slaves: Vec<u32>,
    // the number of blocks of the line before each group, and of all
    pub(crate) blocks: Vec<u32>,
    // the station addresses of the slaves of the line by their positions, and after them places for the other declared slaves
    pub(crate) line: Vec<u16>,
}

impl Drop for Index {
    fn drop(self) {
        let Index {
            aliases: _,
            stations: _,
            variables: _,
            owners: _,
            fronts: _,
            ranks: _,
            slaves: _,
            blocks: _,
            line: _,
        } = self;
    }
}

impl Model for Index {
    ghost use Rattle.std.specs.Prelude.{◌<◌, length, map, vec_capacity};
    ghost use Rattle.std.specs.List.Sorted.{IsNonDecreasing, IsNonDecreasingBy};
    ghost use Rattle.hc_groups.specs.Index.{Index};

    ghost Value = { Index };

    ghost view = { λ index. record { aliases = index.aliases.items; stations = index.stations.items; variables = index.variables.items; owners = index.owners.items; fronts = map (λ sums. sums.items) index.fronts.items; ranks = index.ranks.items; slaves = index.slaves.items; blocks = index.blocks.items; line = index.line.items } };

    ghost invariant = { λ index. IsNonDecreasingBy (λ alias. alias.alias) index.aliases.items × IsNonDecreasing index.variables.items × (length index.fronts.items < vec_capacity index.slaves) × (length index.fronts.items < vec_capacity index.blocks) };
}

impl Index {
    /// Returns the index of a project's declared groups. `AllocError` if an allocation fails.
    pub fn new(alloc: Global, groups: &[Declared]) -> Result<Index, AllocError>
        requires { lowest_fault (groups_of groups.now) ≡ None }
        ensures { IfOk result (IsIndexOf groups.now) }
    {
        let aliases = sorted_aliases(alloc, groups)?;
        let stations = ranks_by_station(alloc, groups)?;
        let variables = sorted_variables(alloc, groups)?;
        let owners = owners(alloc, groups)?;
        let fronts = group_fronts(alloc, groups)?;
        let ranks = declared_sums(alloc, groups)?;
        let mut slaves = Vec::with_capacity(alloc, groups.len() + 1)?;
        let mut blocks = Vec::with_capacity(alloc, groups.len() + 1)?;
        sum_line(&mut slaves, &mut blocks, fronts.as_slice(), groups);
        let line = line_list(alloc, groups, owners.len())?;
        Ok(Index {
            aliases,
            stations,
            variables,
            owners,
            fronts,
            ranks,
            slaves,
            blocks,
            line,
        })
    }

    /// Sets whether a group is present: the sums of the groups after it change, and no other group is read.
    fn turn(&mut self, groups: &[Declared], change: &PresenceChange)
        requires index { IsIndexOf groups.now self.old }
        requires inside { change.now.group < length groups.now }
        ensures { self.new ≡ turned_index groups.now change.now self.old }
    {
        let sums = self.fronts[change.group].as_slice();
        let (slaves, blocks) = line_counts(&groups[change.group], change.present, sums);
        recount(self.slaves.as_mut_slice(), change.group, slaves);
        recount(self.blocks.as_mut_slice(), change.group, blocks);
    }

    /// Returns the positions of a group's slaves in the line.
    fn stretch(&self, groups: &[Declared], group: usize) -> Stretch
        requires index { IsIndexOf groups.now self.now }
        requires inside { group < length groups.now }
        ensures { IsStretchOf groups.now group result }
    {
        let position = self.slaves[group] as usize;
        Stretch {
            position,
            own: self.slaves[group + 1] as usize - position,
            line: self.slaves[groups.len()] as usize,
        }
    }

    /// Sets whether a group with slaves is present, with the station addresses of its slaves.
    fn restation(&mut self, groups: &[Declared], change: &PresenceChange, stretch: Stretch)
        requires line { BeginsWithLine groups.now self.old.line }
        requires stretch { IsStretchOf groups.now change.now.group stretch }
        requires inside { change.now.group < length groups.now }
        ensures rest { self.new ≡ record self.old { line = self.new.line } }
        ensures line { BeginsWithLine (changed_groups (Presence change.now) groups.now) self.new.line }
    {
        let slaves = slaves_if(&groups[change.group], change.present);
        replace(self.line.as_mut_slice(), stretch, slaves);
    }

    /// Carries out the change of an edit: the index becomes that of the groups after the change. If a group is connected or
    /// disconnected, the sums of the groups after it change, and the station addresses after its own move up or down. If a
    /// slave gets other areas, nothing changes, since it gets as many. It allocates nothing.
    pub fn follow(&mut self, groups: &[Declared], change: &Prepared)
        requires index { IsIndexOf groups.now self.old }
        requires made { IsMade groups.now change.now }
        requires project { lowest_fault (groups_of (changed_groups change.now groups.now)) ≡ None }
        ensures { IsIndexOf (changed_groups change.now groups.now) self.new }
    {
        match change {
            Prepared::Presence(change) => {
                let stretch = self.stretch(groups, change.group);
                self.turn(groups, change);
                self.restation(groups, change, stretch);
            }
            Prepared::Areas(_) => {}
        }
    }

    /// Returns the groups with their index, for look-ups.
    pub fn of<'a>(&'a self, groups: &'a [Declared]) -> Indexed<'a>
        requires { IsIndexOf groups.now self.now }
        ensures { result ≡ groups.now }
    {
        Indexed {
            groups,
            aliases: self.aliases.as_slice(),
            stations: self.stations.as_slice(),
            variables: self.variables.as_slice(),
            owners: self.owners.as_slice(),
            fronts: self.fronts.as_slice(),
            ranks: self.ranks.as_slice(),
            slaves: self.slaves.as_slice(),
            blocks: self.blocks.as_slice(),
            line: self.line.as_slice(),
        }
    }
}

/// A project's declared groups with their index. Contracts see the groups.
#[derive(Drop)]
pub struct Indexed<'a> {
    groups: &'a [Declared],
    aliases: &'a [Alias],
    stations: &'a [u16],
    variables: &'a [u32],
    owners: &'a [u16],
    fronts: &'a [Vec<u32>],
    ranks: &'a [u32],
    slaves: &'a [u32],
    blocks: &'a [u32],
    line: &'a [u16],
}

impl<'a> Model for Indexed<'a> {
    ghost use Rattle.std.specs.Prelude.{List, map};
    ghost use Rattle.std.specs.List.Sorted.{IsNonDecreasing, IsNonDecreasingBy};
    ghost use Rattle.hc_records.specs.declared.records.Declared.{Declared};
    ghost use Rattle.hc_groups.specs.Index.{IsIndexOf};

    ghost Value = { List Declared };

    ghost view = { λ indexed. indexed.groups.now };

    ghost invariant = { λ indexed. IsIndexOf indexed.groups.now (record { aliases = indexed.aliases.now; stations = indexed.stations.now; variables = indexed.variables.now; owners = indexed.owners.now; fronts = map (λ sums. sums.items) indexed.fronts.now; ranks = indexed.ranks.now; slaves = indexed.slaves.now; blocks = indexed.blocks.now; line = indexed.line.now }) × IsNonDecreasingBy (λ alias. alias.alias) indexed.aliases.now × IsNonDecreasing indexed.variables.now };
}

impl<'a> Indexed<'a> {
    ghost use Rattle.std.specs.Prelude.{◌≡◌, ◌≢◌, ◌==◌, ◌&&◌, ◌+◌, ◌<◌, ◌≤◌, ◌⊎◌, All, IfSome, MatchOption, Some, false, find, is_some, length, option_map, position, slice_get, sum_by, take, unwrap_or};
    ghost use Rattle.std.specs.List.{list_any};
    ghost use Rattle.hc_records.specs.Edits.{has_station, is_declared_variable};
    ghost use Rattle.hc_records.specs.Line.{groups_of, is_at, line_from};
    ghost use Rattle.hc_records.specs.Project.{slaves_of};
    ghost use Rattle.hc_groups.specs.Changes.{first_rank, slave_place};
    ghost use Rattle.hc_groups.specs.Index.{IsDeclaredAt, IsMember, declared_count, own_blocks, owned_by, rank_in, slave_in};

    /// Returns the declared groups, present or not.
    pub fn groups(&self) -> &'a [Declared]
        ensures { result.now ≡ self.now }
    {
        self.groups
    }

    /// Returns the number of slaves in the line.
    pub fn slaves(&self) -> usize
        ensures value { result ≡ length (line_from 1 self.now) }
        ensures few { result < 65535 }
    {
        self.slaves[self.groups.len()] as usize
    }

    /// Returns the number of register blocks of the slaves in the line.
    pub fn blocks(&self) -> u32
        ensures { result ≡ sum_by own_blocks (line_from 1 self.now) }
    {
        self.blocks[self.groups.len()]
    }

    /// Returns the number among the declared groups, from 0, of the group with an alias, present or not, or `None` if none has
    /// it.
    pub fn group(&self, alias: u16) -> Option<usize>
        ensures value { result ≡ position (λ declared. declared.group.alias == alias) self.now }
        ensures low { IfSome result (λ group. group < 65536) }
    {
        let group = find_group(self.aliases, alias)?;
        Some(usize::from(group))
    }

    /// Returns whether the group with an alias, which has this number, from 0, is in the line.
    fn is_present(&self, alias: u16, group: usize) -> bool
        requires named { position (λ declared. declared.group.alias == alias) self.now ≡ Some group }
        requires low { group < 65536 }
        ensures { result ≡ list_any (λ declared. (declared.group.alias == alias) && declared.present) self.now }
    {
        self.groups[group].present
    }

    /// Returns whether the group with an alias is in the line, or `None` if no declared group has it.
    pub(crate) fn presence(&self, alias: u16) -> Option<bool>
        ensures declared { is_some result ≡ list_any (λ declared. declared.group.alias == alias) self.now }
        ensures present { unwrap_or result false ≡ list_any (λ declared. (declared.group.alias == alias) && declared.present) self.now }
    {
        let group = self.group(alias)?;
        Some(self.is_present(alias, group))
    }

    /// Returns the rank of the first slave of the group with a number, counted from 1 over all declared slaves; its other
    /// slaves have consecutive ranks.
    pub(crate) fn first_rank(&self, group: usize) -> u16
        requires { group < length self.now }
        ensures { result ≡ first_rank self.now group }
    {
        number_at(self.ranks, group, 0) + 1
    }

    /// Returns whether a slave with a station address is declared, present or not.
    pub fn is_declared_station(&self, station: u16) -> bool
        ensures { result ≡ list_any (λ declared. has_station station declared.group.slaves) self.now }
    {
        find_rank(self.stations, station).is_some()
    }

    /// Returns the number of declared slaves, present or not.
    pub fn declared(&self) -> usize
        ensures { result ≡ length (slaves_of (groups_of self.now)) }
    {
        self.owners.len()
    }

    /// Returns whether an area of a declared slave, present or not, offers a variable, assigned or not.
    pub fn is_declared_variable(&self, variable: VarId) -> bool
        ensures { result ≡ is_declared_variable self.now variable }
    {
        is_one_of(self.variables, variable.number())
    }

    /// Returns the number of the group, from 0, of the declared slave with a rank, present or not, and the slave's index in it.
    /// `None` if fewer slaves are declared.
    fn find_declared(&self, rank: u16) -> Option<SumPlace>
        requires { 1 ≤ rank }
        ensures sum_place { MatchOption result (sum_by declared_count self.now < rank) (λ sum_place. IsDeclaredAt self.now rank sum_place.index sum_place.offset) }
        ensures low { IfSome result (λ sum_place. sum_place.index < 65536) }
    {
        let index = usize::from(*self.owners.get(usize::from(rank) - 1)?);
        let offset = u32::from(rank) - 1 - self.ranks[index];
        Some(SumPlace { index, offset })
    }

    /// Returns the number of the group, from 0, of the slave of the line with a rank, and the slave's index in it. `None` if no
    /// slave of the line has the rank.
    fn find_present(&self, rank: u16) -> Option<SumPlace>
        requires { 1 ≤ rank }
        ensures { MatchOption result (All (λ member. member.rank ≢ rank) (line_from 1 self.now)) (λ sum_place. IsMember self.now rank sum_place.index sum_place.offset) }
    {
        let sum_place = self.find_declared(rank)?;
        if self.groups[sum_place.index].present {
            Some(sum_place)
        } else {
            None
        }
    }

    /// Returns the position of the declared slave with a station address, present or not, or `None` if no declared slave has
    /// it.
    pub(crate) fn slave_place(&self, station: u16) -> Option<SlavePlace>
        ensures { result ≡ slave_place self.now station }
    {
        let rank = find_rank(self.stations, station)?;
        let sum_place = self.find_declared(rank)?;
        Some(SlavePlace {
            group: sum_place.index,
            slave: sum_place.offset as usize,
            rank,
        })
    }

    /// Returns a group from which a walk over the declared slaves meets each one with this rank or a higher one: the group's
    /// number, from 0, and the rank of its first slave, which is no higher unless it is 1. It allocates nothing.
    pub fn group_before(&self, rank: u16) -> (usize, u16)
        ensures inside { result.0 ≤ length self.now }
        ensures first { result.1 ≡ sum_by declared_count (take result.0 self.now) + 1 }
        ensures low { (result.1 ≡ 1) ⊎ (result.1 ≤ rank) }
    {
        if rank == 0 {
            return (0, 1);
        }
        match self.find_declared(rank) {
            Some(sum_place) => (sum_place.index, self.first_rank(sum_place.index)),
            None => (self.groups.len(), self.first_rank_after()),
        }
    }

    /// Returns the rank after that of the last declared slave.
    fn first_rank_after(&self) -> u16
        ensures { result ≡ sum_by declared_count self.now + 1 }
    {
        self.owners.len() as u16 + 1
    }

    /// Returns the position in the line, from 0, of the slave with a station address, or `None` if it is not present.
    pub fn position(&self, station: u16) -> Option<usize>
        ensures value { result ≡ position (is_at station) (line_from 1 self.now) }
        ensures low { IfSome result (λ index. index < 65535) }
    {
        let rank = find_rank(self.stations, station)?;
        let sum_place = self.find_present(rank)?;
        let position = number_at(self.slaves, sum_place.index, sum_place.offset);
        Some(usize::from(position))
    }

    /// Returns the slave at an index in the group with a number, both from 0, or `None` if there is none.
    fn slave_in(&self, group: usize, place: u32) -> Option<LineSlave<'a>>
        ensures { result ≡ option_map (λ slave. record { rank = rank_in self.now group place; slave = slave }) (slave_in self.now group place) }
    {
        let declared = self.groups.get(group)?;
        let slaves = declared.group.slaves.as_slice();
        let slave = slaves.get(place as usize)?;
        Some(LineSlave {
            rank: number_at(self.ranks, group, place) + 1,
            slave,
        })
    }

    /// Returns the station address of the slave at a position of the line, from 0, or `None` if the line is shorter.
    pub fn station(&self, position: usize) -> Option<u16>
        ensures { result ≡ option_map (λ member. member.slave.station) (slice_get (line_from 1 self.now) position) }
    {
        if position >= self.slaves() {
            return None;
        }
        Some(self.line[position])
    }

    /// Returns the slave of the line with a station address, or `None` if it is not present.
    pub fn slave_at(&self, station: u16) -> Option<LineSlave<'a>>
        ensures { result ≡ find (is_at station) (line_from 1 self.now) }
    {
        let rank = find_rank(self.stations, station)?;
        let sum_place = self.find_present(rank)?;
        self.slave_in(sum_place.index, sum_place.offset)
    }

    /// Returns the slave of the line with a rank, counted from 1 over all declared slaves, or `None` if it is not present.
    pub fn slave_of_rank(&self, rank: u16) -> Option<LineSlave<'a>>
        ensures { result ≡ find (λ member. member.rank == rank) (line_from 1 self.now) }
    {
        if rank == 0 {
            return None;
        }
        let sum_place = self.find_present(rank)?;
        self.slave_in(sum_place.index, sum_place.offset)
    }

    /// Returns the slave that has the register block with a number, from 0, in line and block order, and the block's number in
    /// the slave's own order. `None` if the line has fewer blocks.
    pub fn block_owner(&self, n: u32) -> Option<(LineSlave<'a>, u8)>
        ensures { result ≡ owned_by (line_from 1 self.now) n }
    {
        let group = find_sum_place(self.blocks, n)?;
        let own = self.fronts.get(group.index)?;
        let place = find_near_share(own.as_slice(), group.offset)?;
        let slave = self.slave_in(group.index, place.index as u32)?;
        Some((slave, place.offset as u8))
    }
}
