//! The numbers of a frame that builders and their callers share, in bytes.

use hc_records::limits::MOST_DATAGRAM_BYTES;

/// The most data bytes of one datagram: what an Ethernet frame of 1,514 bytes leaves (ETG.1000.4, datagram structure).
pub const MAX_DATA: u16 = MOST_DATAGRAM_BYTES;

/// The most bytes after the Ethernet header: the EtherCAT header and the datagrams.
pub const MAX_ETHERCAT: u16 = 1_500;

/// The fewest bytes of a frame without its check sequence: a shorter one is padded with zeros (IEEE 802.3).
pub const LEAST_FRAME: u16 = 60;

/// The bytes of a frame before its first datagram: the Ethernet header of 14 and the EtherCAT header of 2.
pub const HEAD_BYTES: usize = 16;

/// The bytes of a datagram before its data.
pub const DATAGRAM_HEAD_BYTES: usize = 10;

/// The bytes of a datagram beside its data: the 10 before it, and the 2 of the working counter after it.
pub const BESIDE_DATA_BYTES: usize = 12;

/// The offset of the data of a frame's first datagram.
pub const FIRST_DATA: usize = HEAD_BYTES + DATAGRAM_HEAD_BYTES;

/// The setup serial, which alias reads and station writes have: the highest of 40 bits, which no other frame has (this
/// project's profile).
pub const SETUP_SERIAL: u64 = 0xff_ffff_ffff;

/// The register of the configured station address (ETG.1000.4, station address registers).
pub const STATION_REGISTER: u16 = 0x0010;

/// The register of the configured station alias (ETG.1000.4, station address registers).
pub const ALIAS_REGISTER: u16 = 0x0012;

/// The most FMMUs of a slave (ETG.1000.4, 6.6).
pub const MOST_FMMUS: u8 = 16;

/// The most bytes of the datagrams of a frame: what may follow the Ethernet header, without the EtherCAT header.
pub const MAX_DATAGRAMS: u16 = MAX_ETHERCAT - 2;

/// The fewest bytes of a frame that the reader reads: the head, and a datagram without data.
pub const LEAST_READ: usize = HEAD_BYTES + BESIDE_DATA_BYTES;
