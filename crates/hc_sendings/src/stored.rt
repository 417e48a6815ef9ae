//! `StoredFrame`: a frame of tasks as it is stored while it is awaited.
use arrayvec::ArrayVec;
use hc_events::sending::Named;
use std::marker::Model;

/// The serial of a frame, and its datagrams in order, at most 115: the 1,498 bytes after the EtherCAT header hold so many of
/// one data byte, 13 bytes each (ETG.1000.4, 5.3 and 5.4). It owns no memory.
#[derive(Debug, Drop)]
pub(crate) struct StoredFrame {
    serial: u64,
    datagrams: ArrayVec<Named, 115>,
}

impl Model for StoredFrame {
    ghost use Rattle.hc_sendings.specs.Stored.{StoredFrame};

    ghost Value = { StoredFrame };

    ghost view = { λ stored. record { serial = stored.serial; datagrams = stored.datagrams.items } };
}

impl StoredFrame {
    ghost use Rattle.std.specs.Prelude.{◌≡◌, ◌≤◌, [], length};
    ghost use Rattle.hc_sendings.specs.declared.awaited.TheConstants.{FRAME_DATAGRAMS};

    /// Returns a frame with this serial, and no datagrams yet.
    pub(crate) fn new(serial: u64) -> StoredFrame
        ensures { result ≡ record { serial = serial; datagrams = [] } }
    {
        StoredFrame {
            serial,
            datagrams: ArrayVec::new(),
        }
    }

    /// Stores these datagrams in a frame that has none. One datagram needs no loop.
    pub(crate) fn fill(&mut self, datagrams: &[Named])
        requires empty { self.old.datagrams ≡ [] }
        requires few { length datagrams.now ≤ FRAME_DATAGRAMS }
        ensures { self.new ≡ record self.old { datagrams = datagrams.now } }
    {
        if let [only] = datagrams {
            self.datagrams.push(*only);
            return;
        }
        for datagram in datagrams {
            self.datagrams.push(*datagram);
        }
    }

    /// Removes the datagrams of a frame that was answered.
    pub(crate) fn clear(&mut self)
        ensures { self.new ≡ record self.old { datagrams = [] } }
    {
        self.datagrams.clear();
    }

    /// Its serial.
    pub(crate) fn serial(&self) -> u64
        ensures { result ≡ self.now.serial }
    {
        self.serial
    }

    /// Its datagrams, in order.
    pub(crate) fn datagrams(&self) -> &[Named]
        ensures datagrams { result.now ≡ self.now.datagrams }
        ensures few { length result.now ≤ FRAME_DATAGRAMS }
    {
        self.datagrams.as_slice()
    }
}
