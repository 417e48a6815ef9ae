//! A plan: the declared groups, those that are present, the epoch, and the configuration of the line.
ghost use Rattle.std.specs.Prelude.{◌≡◌, IfOk, None, map};
ghost use Rattle.hc_records.specs.Edits.{over_limit_task};
ghost use Rattle.hc_records.specs.Line.{line_from, opened_group};
ghost use Rattle.hc_cuts.specs.Areas.{areas_by_rank};
ghost use Rattle.hc_cuts.specs.TaskCuts.{line_cuts};
ghost use Rattle.hc_groups.specs.Index.{IsIndexOf};
ghost use Rattle.hc_plan.specs.RegisterBlocks.{blocks_by_rank};

use crate::blocks::{LineBlock, block_at, block_of_rank, nth_block};
use crate::placed_line::PlacedLine;
use crate::register_blocks::RegisterBlocks;
use crate::shares::share_of;
use hc_cuts::tasks::LineCuts;
use hc_groups::faults::remap_fault;
use hc_groups::index::{Index, Indexed};
use hc_places::configure::{OpenedLine, open_line};
use hc_places::table::Places;
use hc_records::faults::EditFault;
use hc_records::items::Items;
use hc_records::keys::Key;
use hc_records::project::Project;
use hc_records::records::{Declared, Group};
use hc_records::task::Task;
use hc_registers::blocks::Block;
use std::alloc::{AllocError, Global};
use std::marker::{Brand, Model};
use std::sync::ledger::Blank;

/// Returns the declared groups at the opening: only the mandatory one, which has alias 0, is present. Fails with `AllocError`
/// if an allocation fails.
fn opened_groups(alloc: Global, groups: Vec<Group>) -> Result<Items<Declared>, AllocError>
    ensures { IfOk result (λ opened. opened ≡ map opened_group groups.items) }
{
    let mut opened = Vec::with_capacity(alloc, groups.len())?;
    for group in groups {
        let present = group.alias == 0;
        opened.push(Declared { group, present })?;
    }
    Ok(Items::of(opened))
}

/// The register blocks of the line of declared groups, by the trees of its tasks.
fn opened_blocks(
    alloc: Global,
    groups: &[Declared],
    index: &Index,
    cuts: &LineCuts,
) -> Result<RegisterBlocks, AllocError>
    requires index { IsIndexOf groups.now index.now }
    requires cuts { cuts.now ≡ line_cuts (areas_by_rank groups.now) }
    requires fits { over_limit_task (line_from 1 groups.now) ≡ None }
    ensures { IfOk result (λ blocks. blocks ≡ blocks_by_rank groups.now) }
{
    RegisterBlocks::open(alloc, &index.of(groups), &PlacedLine::of(groups, cuts))
}

/// A state of a line and its configuration. Its drop is written out, so that the owners of a plan do not open it wherever they
/// drop it.
#[derive(Debug)]
pub struct Plan {
    pub(crate) groups: Items<Declared>,
    // the index of the slaves of the line and their blocks
    pub(crate) index: Index,
    pub(crate) epoch: u32,
    pub(crate) places: Places,
    // the register blocks of the line, by rank
    pub(crate) blocks: RegisterBlocks,
    // the tasks of the line, from which an edit cuts the new ones
    pub(crate) cuts: LineCuts,
}

impl Drop for Plan {
    fn drop(self) {
        let Plan {
            groups: _,
            index: _,
            epoch: _,
            places: _,
            blocks: _,
            cuts: _,
        } = self;
    }
}

impl Model for Plan {
    ghost use Rattle.std.specs.Prelude.{◌≡◌, None};
    ghost use Rattle.hc_records.specs.Edits.{over_limit_task};
    ghost use Rattle.hc_records.specs.Line.{State, groups_of, line_from};
    ghost use Rattle.hc_records.specs.Project.{lowest_fault};
    ghost use Rattle.hc_places.specs.Table.{table_of};
    ghost use Rattle.hc_cuts.specs.Areas.{areas_by_rank};
    ghost use Rattle.hc_cuts.specs.TaskCuts.{line_cuts};
    ghost use Rattle.hc_groups.specs.Index.{IsIndexOf};
    ghost use Rattle.hc_plan.specs.RegisterBlocks.{blocks_by_rank};

    ghost Value = { State };

    ghost view = { λ plan. record { groups = plan.groups; epoch = plan.epoch } };

    ghost invariant = { λ plan. (lowest_fault (groups_of plan.groups) ≡ None) × (over_limit_task (line_from 1 plan.groups) ≡ None) × (plan.places ≡ table_of (line_from 1 plan.groups)) × (plan.cuts ≡ line_cuts (areas_by_rank plan.groups)) × IsIndexOf plan.groups plan.index × (plan.blocks ≡ blocks_by_rank plan.groups) };
}

impl Plan {
    ghost use Rattle.std.specs.Prelude.{◌≡◌, ◌<◌, ◌≤◌, ◌∷◌, ◌++◌, [], IfErr, IfOk, IfSome, None, OnOk, length};
    ghost use Rattle.hc_records.specs.declared.keys.TheConstants.Key.{END};
    ghost use Rattle.hc_records.specs.declared.limits.TheConstants.{MOST_DATAGRAMS, TASKS};
    ghost use Rattle.hc_records.specs.Boundaries.{boundaries};
    ghost use Rattle.hc_records.specs.TaskList.{task_list};
    ghost use Rattle.hc_records.specs.declared.edit.Edit.TheVariants.{Remap};
    ghost use Rattle.hc_records.specs.Edits.{over_limit_task};
    ghost use Rattle.hc_records.specs.Line.{groups_of, line, opened};
    ghost use Rattle.hc_records.specs.Project.{lowest_fault};
    ghost use Rattle.hc_groups.specs.Edits.{own_fault};
    ghost use Rattle.hc_places.specs.Layout.{NamesOverLimit};
    ghost use Rattle.hc_plan.specs.inner.Blocks.{IsLayoutOf};
    ghost use Rattle.hc_plan.specs.Configuration.{block_at, block_of_rank, config, line_block_at, position_of, station_at};
    ghost use Rattle.hc_plan.specs.RegisterBlocks.{blocks_by_rank, has_at};
    ghost use Rattle.hc_plan.specs.Shares.{share_at};

    /// Returns the plan of a project at its opening: only the mandatory group is present, and the epoch is 0. Fails with
    /// `TooManyDatagrams` and the lowest task that needs more than 16 datagrams, or with `Memory` if an allocation fails; the
    /// project is then dropped.
    pub fn new(alloc: Global, project: Project) -> Result<Plan, EditFault>
        ensures state { IfOk result (λ plan. plan ≡ opened project) }
        ensures accepted { OnOk result (over_limit_task (line (opened project)) ≡ None) }
        ensures refused { IfErr result (NamesOverLimit (line (opened project))) }
    {
        let groups = opened_groups(alloc, project.into_groups().into_vec())?;
        let index = Index::new(alloc, groups.as_slice())?;
        let line = open_line::<Brand>(alloc, groups.as_slice(), Blank::new(1))?;
        let OpenedLine { cuts, places } = line;
        let blocks = opened_blocks(alloc, groups.as_slice(), &index, &cuts)?;
        Ok(Plan {
            groups,
            index,
            epoch: 0,
            places,
            blocks,
            cuts,
        })
    }

    /// Returns the number of accepted edits since the opening.
    pub fn epoch(&self) -> u32
        ensures { result ≡ self.now.epoch }
    {
        self.epoch
    }

    /// Returns the declared groups with their assigned PDOs and tasks, each marked as present or not. No fault's condition
    /// holds of them, and no task of the line needs more than 16 datagrams. It allocates nothing.
    pub fn groups(&self) -> &[Declared]
        ensures value { result.now ≡ self.now.groups }
        ensures project { lowest_fault (groups_of self.now.groups) ≡ None }
        ensures uncrowded { over_limit_task (line self.now) ≡ None }
    {
        self.groups.as_slice()
    }

    /// The table of the present line: its datagrams, parts and variable places. No fault's condition
    /// holds of the declared groups, and no task of the line needs more than 16 datagrams.
    pub fn places(&self) -> &Places
        ensures table { result.now ≡ (config (line self.now)).table }
        ensures project { lowest_fault (groups_of self.now.groups) ≡ None }
        ensures uncrowded { over_limit_task (line self.now) ≡ None }
    {
        &self.places
    }

    /// Returns the block with a number, from 0, in the order of the slave with a station address: for each area in record order
    /// its sync manager block, then its FMMU block. None if no such slave is present or it has fewer blocks. It allocates
    /// nothing.
    pub fn block(&self, station: u16, number: u8) -> Option<Block>
        ensures { result ≡ block_at (line self.now) station number }
    {
        block_at(&self.indexed(), &self.blocks, station, number)
    }

    /// Returns the block with a number, from 0, in the order of the slave with a rank, counted from 1 over all declared slaves,
    /// present or not. It is the block that `block` returns by the slave's station address. None if the slave is not present or
    /// has fewer blocks. It allocates nothing.
    pub fn block_of_rank(&self, rank: u16, number: u8) -> Option<LineBlock>
        ensures { result ≡ block_of_rank (line self.now) rank number }
    {
        block_of_rank(&self.indexed(), &self.blocks, rank, number)
    }

    /// Returns the block at a place, from 0. Sixteen places stand for each declared slave, by rank, one for each block number.
    /// None if the place is empty, as those of a slave outside the line are, or if there is no such place. It takes constant
    /// time, and allocates nothing.
    pub fn block_at_place(&self, place: usize) -> Option<Block>
        ensures { result ≡ has_at (blocks_by_rank self.now.groups) place }
    {
        self.blocks.at(place)
    }

    /// Returns the lowest fault, one of 5 to 11, that a remap to these PDO indexes has by itself; none if it has none. `prepare`
    /// judges the same edit alike, but the edit owns a list of the indexes. It allocates nothing.
    pub fn remap_fault(&self, station: u16, area: u8, pdos: &[u16]) -> Option<EditFault>
        ensures { result ≡ own_fault self.now.groups (Remap station area pdos.now) }
    {
        remap_fault(&self.indexed(), station, area, pdos)
    }

    /// Returns the number of blocks of the present line. It allocates nothing.
    pub fn blocks(&self) -> u32
        ensures { result ≡ length (config (line self.now)).blocks }
    {
        self.indexed().blocks()
    }

    /// Returns the block with a number, from 0, in line and block order, with its slave's station address; none if the line has
    /// fewer blocks. It allocates nothing.
    pub fn nth_block(&self, n: u32) -> Option<(u16, Block)>
        ensures { result ≡ line_block_at (line self.now) n }
    {
        nth_block(&self.indexed(), &self.blocks, n)
    }

    /// Returns the keys at which the datagrams of a task, 0 to 7, begin in the present line: `Key::START`, with which the first
    /// one begins if there is one, and a key for each later one. With `Key::END` after them they are the task's boundaries. It
    /// allocates nothing.
    pub fn starts(&self, task: u8) -> &[Key]
        requires { task < TASKS }
        ensures keys { result.now ++ END ∷ [] ≡ boundaries (task_list task (line self.now)) }
        ensures few { length result.now ≤ MOST_DATAGRAMS }
    {
        self.cuts.starts(Task(task))
    }

    /// Returns the station address of the slave at a position of the line, from 0; none if the line is shorter. It allocates
    /// nothing.
    pub fn station(&self, n: u32) -> Option<u16>
        ensures { result ≡ station_at (line self.now) n }
    {
        self.indexed().station(n as usize)
    }

    /// Returns the position in the line, from 0, of the slave with a station address. Fails with `UnknownStation` if no
    /// declared slave has it, or with `Absent` if that slave's group is not present. It allocates nothing.
    pub fn position(&self, station: u16) -> Result<u32, EditFault>
        ensures { result ≡ position_of self.now station }
    {
        let indexed = self.indexed();
        match indexed.position(station) {
            Some(position) => Ok(position as u32),
            None if indexed.is_declared_station(station) => Err(EditFault::Absent),
            None => Err(EditFault::UnknownStation),
        }
    }

    /// Returns the number, 0 to 3, that the slave with a station address adds to the working counter of the datagram of a task
    /// with a number: 2 if the datagram carries outputs of the slave, 1 if it carries inputs, and 3 if both (ETG.1000.4, 5.4).
    /// None if the task has no such datagram, or the line has no such slave. All slaves of the line together add the datagram's
    /// expected counter.
    pub fn counter_share(&self, task: u8, datagram: u8, station: u16) -> Option<u16>
        ensures value { result ≡ share_at (line self.now) task datagram station }
        ensures low { IfSome result (λ share. share ≤ 3) }
    {
        match self.places.datagram(task, datagram) {
            Some(_) => share_of(
                &self.indexed(),
                &self.placed_line(),
                Task(task),
                datagram,
                station,
            ),
            None => None,
        }
    }

    /// The declared groups, for look-ups by the index.
    pub(crate) fn indexed(&self) -> Indexed<'_>
        ensures { result ≡ self.now.groups }
    {
        self.index.of(self.groups.as_slice())
    }

    /// The places of the areas of the line.
    fn placed_line(&self) -> PlacedLine<'_>
        ensures { IsLayoutOf self.now.groups result }
    {
        PlacedLine::of(self.groups.as_slice(), &self.cuts)
    }
}
