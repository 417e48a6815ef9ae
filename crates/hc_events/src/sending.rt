//! A frame of tasks that can be sent: its serial, its size, and the datagrams that it carries.
ghost use Rattle.std.specs.Prelude.{◌≡◌};

use arrayvec::ArrayVec;
use hc_frames::limits::{BESIDE_DATA_BYTES, HEAD_BYTES, LEAST_FRAME, MAX_DATA, MAX_ETHERCAT};
use std::marker::Model;

/// The most register blocks of one frame: each has at least 8 bytes and 12 beside them, and 1,498 bytes follow the EtherCAT
/// header (ETG.1000.4, 5.3 and 5.4).
pub const FRAME_BLOCKS: usize = 74;

/// The number of a datagram's task and its number in that task.
pub type Named = (u8, u8);

/// A frame of one to 115 datagrams of tasks: the 1,498 bytes after the EtherCAT header hold 115
/// datagrams of one data byte, 13 bytes each (ETG.1000.4, 5.3 and 5.4). It owns no memory.
#[derive(Clone, Debug, Drop)]
pub struct Sending {
    serial: u64,
    bytes: u16,
    datagrams: ArrayVec<Named, 115>,
}

impl Model for Sending {
    ghost use Rattle.hc_events.specs.Sendings.{Frame, FrameIsFilled};

    ghost Value = { Frame };

    ghost view = { λ sending. record { serial = sending.serial; bytes = sending.bytes; datagrams = sending.datagrams.items } };

    ghost invariant = { λ sending. FrameIsFilled sending.bytes sending.datagrams.items };
}

impl Sending {
    ghost use Rattle.std.specs.Prelude.{◌≡◌, ◌≤◌, ◌+◌, IsTrue};
    ghost use Rattle.hc_frames.specs.declared.limits.TheConstants.{MAX_DATA};
    ghost use Rattle.hc_events.specs.Sendings.{FrameIsFilled, frame_of_one, has_room, frame_joined, sent_frame_size};

    /// Returns a frame of one datagram with `length` bytes of data, 1 to 1,486.
    pub fn of(serial: u64, datagram: Named, length: u16) -> Sending
        requires some { 1 ≤ length }
        requires most { length ≤ MAX_DATA }
        ensures { result ≡ frame_of_one serial datagram length }
    {
        let mut datagrams = ArrayVec::new();
        datagrams.push(datagram);
        Sending {
            serial,
            bytes: BESIDE_DATA_BYTES as u16 + length,
            datagrams,
        }
    }

    /// Returns whether a datagram with `length` bytes of data, at most 1,486, can join the frame: the frame then has at most
    /// the 1,500 bytes that may follow the Ethernet header.
    pub fn has_room(&self, length: u16) -> bool
        requires { length ≤ MAX_DATA }
        ensures { result ≡ has_room self.now.bytes length }
    {
        2 + self.bytes + BESIDE_DATA_BYTES as u16 + length <= MAX_ETHERCAT
    }

    /// Adds a datagram with `length` bytes of data, 1 to 1,486, to the frame after its others. `has_room` must have returned
    /// that it fits.
    pub fn join(&mut self, datagram: Named, length: u16)
        requires some { 1 ≤ length }
        requires room { IsTrue (has_room self.old.bytes length) }
        ensures { self.new ≡ frame_joined self.old datagram length }
    {
        self.datagrams.push(datagram);
        self.bytes += BESIDE_DATA_BYTES as u16 + length;
    }

    /// Returns the serial, which the frame has as its source address; its low byte is the index of each datagram.
    pub fn serial(&self) -> u64
        ensures { result ≡ self.now.serial }
    {
        self.serial
    }

    /// Returns the length of the whole frame, 60 to 1,514 bytes.
    pub fn size(&self) -> usize
        ensures { result ≡ sent_frame_size self.now }
    {
        let bytes = HEAD_BYTES + usize::from(self.bytes);
        bytes.max(usize::from(LEAST_FRAME))
    }

    /// Returns the datagrams of the frame, in order: each by its task and its number in the task. They fit the frame, so there
    /// are at most 115.
    pub fn datagrams(&self) -> &[Named]
        ensures datagrams { result.now ≡ self.now.datagrams }
        ensures filled { FrameIsFilled self.now.bytes self.now.datagrams }
    {
        self.datagrams.as_slice()
    }
}
