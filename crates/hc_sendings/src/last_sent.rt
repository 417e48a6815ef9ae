//! `LastSent`: the newest frame of each datagram.
use hc_events::sending::Named;
use hc_records::slots::{SLOTS, slot_number};
use std::alloc::{AllocError, Global};
use std::marker::Model;

/// For each datagram that a task can have the serial of the newest frame that it was sent in; none if it was not sent.
#[derive(Debug, Drop)]
pub(crate) struct LastSent {
    serials: Vec<Option<u64>>,
}

impl Model for LastSent {
    ghost use Rattle.std.specs.Prelude.{◌≡◌, length};
    ghost use Rattle.hc_sendings.specs.Stored.{LastSent};
    ghost use Rattle.hc_records.specs.declared.slots.TheConstants.{SLOTS};

    ghost Value = { LastSent };

    ghost view = { λ last_sent. last_sent.serials.items };

    ghost invariant = { λ last_sent. length last_sent.serials.items ≡ SLOTS };
}

impl LastSent {
    ghost use Rattle.std.specs.Prelude.{◌≡◌, All, IfOk, length};
    ghost use Rattle.std.specs.List.{list_any};
    ghost use Rattle.hc_events.specs.Sendings.{Named};
    ghost use Rattle.hc_sendings.specs.Stored.{is_last_sent, last_sent_of, serial_noted};
    ghost use Rattle.hc_sendings.specs.Waiting.{IsTaskDatagram};
    ghost use Rattle.hc_records.specs.declared.slots.TheConstants.{SLOTS};

    /// Returns a table in which no datagram was sent. Fails with `AllocError` if the allocation fails.
    pub(crate) fn new(alloc: Global) -> Result<LastSent, AllocError>
        ensures { IfOk result (λ last_sent. length last_sent ≡ SLOTS) }
    {
        Ok(LastSent {
            serials: vec![in alloc; None; SLOTS]?,
        })
    }

    /// True if the newest frame that a datagram was sent in has this serial.
    pub(crate) fn is(&self, serial: u64, datagram: Named) -> bool
        ensures { result ≡ is_last_sent self.now serial datagram }
    {
        match self.serials.get(slot_number(datagram.0, datagram.1)) {
            Some(last_sent) => *last_sent == Some(serial),
            None => false,
        }
    }

    /// True if the frame with this serial is the newest of one of these datagrams.
    pub(crate) fn is_any(&self, serial: u64, datagrams: &[Named]) -> bool
        ensures { result ≡ list_any (is_last_sent self.now serial) datagrams.now }
    {
        datagrams.iter().any(|datagram| self.is(serial, *datagram))
    }

    /// Notes that datagrams are sent in a frame with this serial.
    pub(crate) fn note(&mut self, serial: u64, datagrams: &[Named])
        requires { All IsTaskDatagram datagrams.now }
        ensures places { length self.new ≡ length self.old }
        ensures noted { (named : Named) → IsTaskDatagram named → last_sent_of self.new named ≡ serial_noted named datagrams.now serial (last_sent_of self.old named) }
    {
        for datagram in datagrams {
            self.serials[slot_number(datagram.0, datagram.1)] = Some(serial);
        }
    }
}
