//! Changes of the input images, in order, for their readers.
ghost use Rattle.std.specs.Prelude.{◌≡◌, ◌<◌, ◌≤◌, length};
ghost use Rattle.hc_records.specs.declared.limits.TheConstants.{MOST_DATAGRAMS, MOST_DATAGRAM_BYTES, TASKS};

use hc_places::swap::Swap;
use hc_records::items::Items;
use std::marker::Model;

/// The good answer of a datagram: a task, 0 to 7, the datagram's number in it, 0 to 15, and its data, at most 1,486 bytes.
/// Every input image can store it.
#[derive(Debug, Drop)]
pub struct GoodAnswer {
    task: u8,
    datagram: u8,
    bytes: Items<u8>,
}

impl Model for GoodAnswer {
    ghost use Rattle.hc_events.specs.Images.{FitsImage, NewAnswer};

    ghost Value = { NewAnswer };

    ghost view = { λ good. record { task = good.task; datagram = good.datagram; bytes = good.bytes } };

    ghost invariant = { λ good. FitsImage (record { task = good.task; datagram = good.datagram; bytes = good.bytes }) };
}

impl GoodAnswer {
    /// Returns the good answer of a task's datagram with these data. It allocates nothing.
    pub fn of(task: u8, datagram: u8, bytes: Items<u8>) -> GoodAnswer
        requires task { task < TASKS }
        requires datagram { datagram < MOST_DATAGRAMS }
        requires few { length bytes ≤ MOST_DATAGRAM_BYTES }
        ensures { result ≡ record { task = task; datagram = datagram; bytes = bytes } }
    {
        GoodAnswer {
            task,
            datagram,
            bytes,
        }
    }

    /// Returns the task, 0 to 7.
    pub fn task(&self) -> u8
        ensures value { result ≡ self.now.task }
        ensures below { result < TASKS }
    {
        self.task
    }

    /// Returns the datagram's number in the task, 0 to 15.
    pub fn datagram(&self) -> u8
        ensures value { result ≡ self.now.datagram }
        ensures below { result < MOST_DATAGRAMS }
    {
        self.datagram
    }

    /// Returns the data, as many bytes as the datagram has, at most 1,486.
    pub fn bytes(&self) -> &[u8]
        ensures value { result.now ≡ self.now.bytes }
        ensures few { length result.now ≤ MOST_DATAGRAM_BYTES }
    {
        self.bytes.as_slice()
    }

    /// Returns the data as a list of their own, in the same memory, which the next answer can use.
    pub fn into_bytes(self) -> Items<u8>
        ensures { result ≡ self.bytes }
    {
        let GoodAnswer {
            task: _,
            datagram: _,
            bytes,
        } = self;
        bytes
    }
}

/// A change of what tasks read.
#[derive(Debug, Drop)]
pub enum Change {
    /// An edit was accepted: a new epoch with its places, in which no datagram has an answer yet.
    Swapped(Swap),
    /// A datagram has a good answer.
    Good(GoodAnswer),
}
