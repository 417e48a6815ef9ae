//! The FMMU block of an area: the mapping of logical bits of a datagram to bits of the slave's memory (ETG.1000.4, 6.6).
ghost use Rattle.std.specs.Prelude.{◌≡◌, slice_index};
ghost use Rattle.std.specs.Option.{ForSome};
ghost use Rattle.hc_records.specs.Area.{width};
ghost use Rattle.hc_records.specs.Image.{logical_address};
ghost use Rattle.hc_registers.specs.Blocks.{IsMappable, fmmu_bytes, mapped_bytes, type_of};
ghost use Rattle.hc_registers.specs.Fields.{long_at, word_at};

use hc_records::records::{Area, Dir};
use hc_records::task::Task;

/// The number of logical addresses of each task. Those of task n begin at n + 1 times this number (this project's profile).
const TASK_SPAN: u32 = 0x0100_0000;

/// The logical addresses from the start of a datagram to the start of the next one (this project's
/// profile).
const DATAGRAM_SPAN: u32 = 2048;

/// Returns the logical address at which a datagram of a task begins.
pub fn logical_address(task: Task, datagram: u16) -> u32
    ensures { result ≡ logical_address task datagram }
{
    TASK_SPAN * (u32::from(task.number()) + 1) + DATAGRAM_SPAN * u32::from(datagram)
}

/// The place at which an area begins.
#[derive(Clone, Copy, Debug, PartialEq, Eq)]
pub struct Mapping {
    /// The logical address of its datagram.
    pub address: u32,
    /// Its first bit in the datagram.
    pub bit: u16,
}

/// The type of an FMMU of a direction: the master writes outputs and reads inputs.
fn type_byte(dir: Dir) -> u8
    ensures { result ≡ type_of dir }
{
    match dir {
        Dir::Out => 2,
        Dir::In => 1,
    }
}

/// The block of an area of so many bits that is mapped. No PDO of the area is read.
pub(crate) fn mapped_block(area: &Area, bits: u16, mapping: Mapping) -> [u8; 16]
    requires bits { bits ≡ width area.now }
    requires mapping { IsMappable area.now mapping }
    ensures { result ≡ mapped_bytes area.now mapping }
{
    let bit = mapping.bit;
    let last = bit + bits - 1;
    let logical = (mapping.address + u32::from(bit / 8)).to_le_bytes();
    let length = (last / 8 - bit / 8 + 1).to_le_bytes();
    let physical = area.phys.to_le_bytes();
    [
        logical[0],
        logical[1],
        logical[2],
        logical[3],
        length[0],
        length[1],
        (bit % 8) as u8,
        (last % 8) as u8,
        physical[0],
        physical[1],
        0,
        type_byte(area.dir),
        1,
        0,
        0,
        0,
    ]
}

/// Returns the block of an area: logical start address, length in bytes from the first to the last that it touches, logical
/// start and stop bit, physical start address and bit, type and activation. An area that is not mapped has a block of zeros.
pub fn fmmu_block(area: &Area, mapping: Option<Mapping>) -> [u8; 16]
    requires { ForSome mapping (IsMappable area.now) }
    ensures { result ≡ fmmu_bytes area.now mapping }
{
    match mapping {
        None => [0; 16],
        Some(mapping) => mapped_block(area, area.width(), mapping),
    }
}

/// The logical start address: bytes 0 to 3.
pub fn logical_start_address(block: &[u8; 16]) -> u32
    ensures { result ≡ long_at block.now 0 }
{
    u32::from_le_bytes([block[0], block[1], block[2], block[3]])
}

/// The length in bytes: bytes 4 and 5.
pub fn length(block: &[u8; 16]) -> u16
    ensures { result ≡ word_at block.now 4 }
{
    u16::from_le_bytes([block[4], block[5]])
}

/// The logical start bit: byte 6.
pub fn logical_start_bit(block: &[u8; 16]) -> u8
    ensures { result ≡ slice_index block.now 6 }
{
    block[6]
}

/// Returns the logical stop bit of an FMMU block: byte 7.
pub fn logical_stop_bit(block: &[u8; 16]) -> u8
    ensures { result ≡ slice_index block.now 7 }
{
    block[7]
}

/// Returns the physical start address of an FMMU block: bytes 8 and 9.
pub fn physical_start_address(block: &[u8; 16]) -> u16
    ensures { result ≡ word_at block.now 8 }
{
    u16::from_le_bytes([block[8], block[9]])
}

/// Returns the physical start bit of an FMMU block: byte 10.
pub fn physical_start_bit(block: &[u8; 16]) -> u8
    ensures { result ≡ slice_index block.now 10 }
{
    block[10]
}

/// The type: byte 11. Bit 0 lets the master read, bit 1 write.
pub fn fmmu_type(block: &[u8; 16]) -> u8
    ensures { result ≡ slice_index block.now 11 }
{
    block[11]
}

/// The activation byte: byte 12.
pub fn activate(block: &[u8; 16]) -> u8
    ensures { result ≡ slice_index block.now 12 }
{
    block[12]
}
