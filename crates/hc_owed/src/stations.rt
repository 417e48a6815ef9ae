//! The station addresses of the declared slaves, and their indexes by rank.
ghost use Rattle.std.specs.Prelude.{◌≡◌, ◌==◌, ◌<◌, IfSome, Some, position, slice_get};

use crate::owed::Owed;

impl Owed {
    /// Returns the index by rank, from 0, of the declared slave with a station address, or `None` if no declared slave has it.
    /// It takes the time of the declared slaves.
    pub fn index_of(&self, station: u16) -> Option<usize>
        ensures index { result ≡ position (λ other. other == station) self.now.stations }
        ensures low { IfSome result (λ index. index < 65536) }
    {
        self.stations.iter().position(|other| *other == station)
    }

    /// Returns the station address of the declared slave with an index by rank, from 0, or `None` if fewer are declared. It
    /// takes constant time.
    pub fn station(&self, index: usize) -> Option<u16>
        ensures { result ≡ slice_get self.now.stations index }
    {
        self.stations.get(index).copied()
    }
}
