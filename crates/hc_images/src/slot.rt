//! The data of one datagram.
ghost use Rattle.std.specs.Prelude.{◌≡◌, ◌≤◌, IfOk, length};
ghost use Rattle.std.specs.Option.{option_copied};
ghost use Rattle.hc_records.specs.declared.limits.TheConstants.{MOST_DATAGRAM_BYTES};

use arrayvec::ArrayVec;
use hc_records::items::Items;
use std::alloc::{AllocError, Global};
use std::marker::Model;

/// The data of a datagram, or none, with the capacity for the longest data.
#[derive(Debug, Drop)]
pub(crate) struct Slot {
    is_fresh: bool,
    bytes: ArrayVec<u8, 1486>,
}

impl Model for Slot {
    ghost use Rattle.std.specs.Prelude.{ℕ, List, Option, Some, None, if◌then◌else◌};

    ghost Value = { Option (List ℕ) };

    ghost view = { λ slot. if slot.is_fresh then Some slot.bytes.items else None };
}

impl Slot {
    /// Returns a slot without data.
    pub(crate) fn new() -> Slot
        ensures { result ≡ None }
    {
        Slot {
            is_fresh: false,
            bytes: ArrayVec::new(),
        }
    }

    /// Takes the data from the slot.
    pub(crate) fn clear(&mut self)
        ensures { self.new ≡ None }
    {
        self.is_fresh = false;
    }

    /// Stores data, at most 1,486 bytes. Data of the same length are written over the old ones, since a list that is cleared is
    /// zeroed.
    pub(crate) fn put(&mut self, bytes: &[u8])
        requires { length bytes.now ≤ MOST_DATAGRAM_BYTES }
        ensures { self.new ≡ Some bytes.now }
    {
        if self.bytes.len() == bytes.len() {
            self.bytes.as_mut_slice().copy_from_slice(bytes);
        } else {
            self.bytes.clear();
            self.bytes.try_extend_from_slice(bytes).unwrap();
        }
        self.is_fresh = true;
    }

    /// Lends the data, or `None`.
    pub(crate) fn data(&self) -> Option<&[u8]>
        ensures { option_copied result ≡ self.now }
    {
        if self.is_fresh {
            Some(self.bytes.as_slice())
        } else {
            None
        }
    }

    /// Returns a copy of the data, or none. `AllocError` if an allocation fails.
    pub(crate) fn read(&self, alloc: Global) -> Result<Option<Items<u8>>, AllocError>
        ensures { IfOk result (λ copy. copy ≡ self.now) }
    {
        let Some(bytes) = self.data() else {
            return Ok(None);
        };
        Ok(Some(Items::of(Vec::from_slice(alloc, bytes)?)))
    }
}
