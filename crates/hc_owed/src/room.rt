//! The blocks of a declared group: `room_for` allocates their memory, and `admit`, which adds them, cannot fail.
ghost use Rattle.std.specs.Prelude.{◌≡◌, ◌+◌, ◌≤◌, ◌++◌, IfOk, None, length, map, replicate};

use crate::opening::push_stations;
use crate::owed::Owed;
use hc_records::records::Slave;
use hc_records::room::Room;
use hc_registers::blocks::Block;
use std::alloc::{AllocError, Global};
use std::marker::Model;

/// The memory for the blocks of a declared group's slaves, and their station addresses.
#[derive(Drop)]
pub struct OwedRoom {
    known: Room<Option<Block>>,
    owed: Room<u64>,
    stations: Room<u16>,
    added: Vec<u16>,
}

impl Model for OwedRoom {
    ghost use Rattle.hc_owed.specs.Room.{OwedRoom};

    ghost Value = { OwedRoom };

    ghost view = { λ room. record { known = room.known; owed = room.owed; stations = room.stations; added = room.added.items } };
}

/// Returns the station addresses of slaves. Fails with `AllocError` if an allocation fails.
fn own_stations(alloc: Global, slaves: &[Slave]) -> Result<Vec<u16>, AllocError>
    ensures { IfOk result (λ stations. stations.items ≡ map (λ slave. slave.station) slaves.now) }
{
    let mut stations = Vec::new(alloc);
    push_stations(&mut stations, slaves)?;
    Ok(stations)
}

/// Adds so many places of which nothing is known, in memory that was allocated before.
fn add_nothing(list: &mut Vec<Option<Block>>, room: Room<Option<Block>>, places: usize)
    requires { length list.old.items + places ≤ room }
    ensures { list.new.items ≡ list.old.items ++ replicate places None }
{
    room.widen(list, places);
    for _ in 0..places {
        list.push_reserved(None);
    }
}

/// Adds station addresses, in memory that was allocated before.
fn add_stations(stations: &mut Vec<u16>, room: Room<u16>, added: Vec<u16>)
    requires { length stations.old.items + length added.items ≤ room }
    ensures { stations.new.items ≡ stations.old.items ++ added.items }
{
    let mut more = added;
    room.widen(stations, more.len());
    let _moved = stations.append(&mut more);
}

impl Owed {
    ghost use Rattle.std.specs.Prelude.{◌≡◌, ◌+◌, ◌*◌, ◌<◌, ◌≤◌, IfOk, length};
    ghost use Rattle.hc_records.specs.declared.edit.Edit.TheVariants.{Declare};
    ghost use Rattle.hc_records.specs.Edits.{changed};
    ghost use Rattle.hc_owed.specs.RegisterState.{register_state_of};
    ghost use Rattle.hc_owed.specs.Laws.{known_over};
    ghost use Rattle.hc_owed.specs.Room.{RegistersCanAdmit, IsOwedRoomFor, registers_widened};

    /// Allocates the memory for the slaves of a group that is declared after the others. Fails with `AllocError` if an
    /// allocation fails. It looks at the group alone.
    pub fn room_for(&self, alloc: Global, slaves: &[Slave]) -> Result<OwedRoom, AllocError>
        requires { length self.now.stations + length slaves.now < 65536 }
        ensures { IfOk result (IsOwedRoomFor (length self.now.stations) slaves.now) }
    {
        let places = 16 * slaves.len();
        Ok(OwedRoom {
            known: Room::for_more(alloc, &self.known, places)?,
            owed: self.owed.room_for(alloc, places)?,
            stations: Room::for_more(alloc, &self.stations, slaves.len())?,
            added: own_stations(alloc, slaves)?,
        })
    }

    /// Adds empty places of slaves after the others.
    fn widen(&mut self, room: OwedRoom)
        requires few { length self.old.stations + length room.added < 65536 }
        requires known { 16 * (length self.old.stations + length room.added) ≤ room.known }
        requires owed { 16 * (length self.old.stations + length room.added) ≤ 64 * room.owed }
        requires stations { length self.old.stations + length room.added ≤ room.stations }
        ensures { self.new ≡ registers_widened room.added self.old }
    {
        let places = 16 * room.added.len();
        add_nothing(&mut self.known, room.known, places);
        self.owed.add_cleared(room.owed, places);
        add_stations(&mut self.stations, room.stations, room.added);
    }

    /// Adds the slaves of a group that is declared after the others, absent: they get empty places, in memory that was
    /// allocated before. It cannot fail. The known and the owed blocks of the line stay as they were.
    pub fn admit(&mut self, room: OwedRoom)
        requires { RegistersCanAdmit self.old room }
        ensures { (can : RegistersCanAdmit self.old room) → self.new ≡ register_state_of (known_over can.old can.known) (changed can.old (Declare can.group)) }
    {
        self.widen(room);
    }
}
