//! The sync manager block of an area: the memory that carries its process data (ETG.1000.4, 6.7).
ghost use Rattle.std.specs.Prelude.{◌≡◌, ◌≤◌, slice_index};
ghost use Rattle.hc_records.specs.Area.{width};
ghost use Rattle.hc_records.specs.declared.limits.TheConstants.{MOST_AREA_BITS};
ghost use Rattle.hc_registers.specs.Blocks.{control_of, sync_manager_bytes};
ghost use Rattle.hc_registers.specs.Fields.{word_at};

use hc_records::records::{Area, Dir};

/// The control byte of a direction (this project's profile).
fn control_byte(dir: Dir) -> u8
    ensures { result ≡ control_of dir }
{
    match dir {
        Dir::Out => 0x64,
        Dir::In => 0x20,
    }
}

/// The block of an area whose width in bits is known. No PDO of the area is read.
pub(crate) fn sized_block(area: &Area, bits: u16) -> [u8; 8]
    requires width { width area.now ≤ MOST_AREA_BITS }
    requires bits { bits ≡ width area.now }
    ensures { result ≡ sync_manager_bytes area.now }
{
    let start = area.phys.to_le_bytes();
    let length = ((bits + 7) / 8).to_le_bytes();
    let active = if bits == 0 { 0 } else { 1 };
    [
        start[0],
        start[1],
        length[0],
        length[1],
        control_byte(area.dir),
        0,
        active,
        0,
    ]
}

/// The block of an area of 0 to 11,888 bits: start address, length in bytes, control, status,
/// activation, PDI control. An area of 0 bits has length 0 and is inactive.
pub fn sync_block(area: &Area) -> [u8; 8]
    requires { width area.now ≤ MOST_AREA_BITS }
    ensures { result ≡ sync_manager_bytes area.now }
{
    sized_block(area, area.width())
}

/// The physical start address: bytes 0 and 1.
pub fn start_address(block: &[u8; 8]) -> u16
    ensures { result ≡ word_at block.now 0 }
{
    u16::from_le_bytes([block[0], block[1]])
}

/// The length in bytes: bytes 2 and 3.
pub fn length(block: &[u8; 8]) -> u16
    ensures { result ≡ word_at block.now 2 }
{
    u16::from_le_bytes([block[2], block[3]])
}

/// The control byte: byte 4.
pub fn control(block: &[u8; 8]) -> u8
    ensures { result ≡ slice_index block.now 4 }
{
    block[4]
}

/// The status byte: byte 5.
pub fn status(block: &[u8; 8]) -> u8
    ensures { result ≡ slice_index block.now 5 }
{
    block[5]
}

/// The activation byte: byte 6.
pub fn activate(block: &[u8; 8]) -> u8
    ensures { result ≡ slice_index block.now 6 }
{
    block[6]
}

/// The PDI control byte: byte 7.
pub fn pdi_control(block: &[u8; 8]) -> u8
    ensures { result ≡ slice_index block.now 7 }
{
    block[7]
}
