//! Faults of a frame that cannot be read.
ghost use Rattle.std.specs.Prelude.{◌≡◌};
ghost use Rattle.hc_frames.specs.Arrived.{fault_number};

use thiserror::Error;

/// The reason for which a frame cannot be read: the first of these conditions that holds, in this order (ETG.1000.4, frame,
/// EtherCAT header and datagram structure; this project's profile). A fault's number is part of the program's printed words and
/// never changes.
#[derive(Clone, Copy, Debug, PartialEq, Eq, Error)]
pub enum FrameFault {
    /// The frame has fewer than 28 bytes.
    #[error("the frame is shorter than a datagram without data")]
    Short,
    /// The EtherType is not 88a4.
    #[error("the frame is no EtherCAT frame")]
    NotEtherCat,
    /// Bits 11 to 15 of the EtherCAT header are not bit 12 alone.
    #[error("the frame has no datagrams of the EtherCAT type")]
    BadType,
    /// The header's length is over 1,498 or past the frame's end; or whole datagrams of 1 to 1,486 data bytes, each but the
    /// last followed by more, do not fill it.
    #[error("the datagrams don't fill the length of the header")]
    BadLength,
    /// The circulating bit of a datagram is set.
    #[error("a datagram has gone round the ring")]
    Circulating,
    /// The last datagram says that more follow.
    #[error("more datagrams are promised than the frame has")]
    MoreFollows,
    /// A datagram's command is not one that this project uses.
    #[error("a datagram has an unknown command")]
    UnknownCommand,
    /// A datagram's index is not the serial modulo 256.
    #[error("a datagram's index isn't that of the serial")]
    IndexMismatch,
}

impl FrameFault {
    /// Returns the fault's number, 1 to 8.
    pub fn number(self) -> u8
        ensures { result ≡ fault_number self }
    {
        match self {
            FrameFault::Short => 1,
            FrameFault::NotEtherCat => 2,
            FrameFault::BadType => 3,
            FrameFault::BadLength => 4,
            FrameFault::Circulating => 5,
            FrameFault::MoreFollows => 6,
            FrameFault::UnknownCommand => 7,
            FrameFault::IndexMismatch => 8,
        }
    }
}
