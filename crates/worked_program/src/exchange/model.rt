//! A plain body of an exchange, bit by bit: 64 slaves with an output and an input area each, packed from the front, task by
//! task.
ghost use Rattle.std.specs.Prelude.{◌<◌};

use std::alloc::{AllocError, Global};
use worked_lines::drawn::{AREAS, ASSIGNED, ENTRY_BITS, Line, PDOS};

/// Bytes of process memory, which begins at 0x1000; the output area begins there, and the input area 4,096 bytes later.
pub const PROCESS: usize = 8192;

/// The offset of the input area in process memory.
const INPUTS: usize = 4096;

/// The most bits of a datagram.
const DATAGRAM_BITS: usize = 11_888;

/// An area in its task's image: its number, its datagram, and its first bit and its bits in the datagram.
#[derive(Clone, Copy)]
struct Location {
    area: usize,
    datagram: usize,
    bit: usize,
    bits: usize,
}

/// The expected result of an exchange: the size and the working counter of each datagram, and the data of all, one after
/// another.
#[derive(Drop)]
pub struct Wanted {
    /// Size and counter of each datagram.
    pub datagrams: Vec<(usize, u16)>,
    /// The data.
    pub data: Vec<u8>,
}

/// True if an area is one of inputs.
fn is_input(area: usize) -> bool {
    area >= 64
}

/// Adds the bits of a PDO one by one, true for those of a variable. The first entry is a variable, the second a gap, and so on.
fn add_bits(bits: &mut Vec<bool>, pdo: u16) -> Result<(), AllocError> {
    let Some(own) = PDOS.get(usize::from(pdo)) else {
        return Ok(());
    };
    for bit in 0..*own {
        bits.push(bit / ENTRY_BITS % 2 == 0)?;
    }
    Ok(())
}

/// The bits of an area one by one, by what is assigned to it.
fn variable_bits(alloc: Global, assigned: u8) -> Result<Vec<bool>, AllocError> {
    let mut bits = Vec::new(alloc);
    if let Some(pdos) = ASSIGNED.get(usize::from(assigned)) {
        for pdo in *pdos {
            add_bits(&mut bits, *pdo)?;
        }
    }
    Ok(bits)
}

/// A bit of bytes, by its number from the least significant bit of the first byte on. False after the end.
fn get(bytes: &[u8], bit: usize) -> bool {
    match bytes.get(bit / 8) {
        Some(byte) => byte >> (bit % 8) & 1 == 1,
        None => false,
    }
}

/// Sets a bit of bytes.
fn set(bytes: &mut [u8], bit: usize, value: bool) {
    if let Some(byte) = bytes.get_mut(bit / 8) {
        let mask = 1 << (bit % 8);
        *byte = if value { *byte | mask } else { *byte & !mask };
    }
}

/// The number of slaves of the line before a slave.
pub fn position(line: &Line, slave: usize) -> usize {
    let mut count = 0_usize;
    for other in 0..64 {
        if other < slave && line.present[other / 4] {
            count = count.saturating_add(1);
        }
    }
    count
}

/// The areas of a task with their places: outputs in line order, then inputs. An area of 8 bits or more begins a byte, and so
/// does the first input; one that would end after bit 11,888 begins the next datagram.
fn spots(line: &Line, alloc: Global, task: u8) -> Result<Vec<Location>, AllocError> {
    let mut spots = Vec::new(alloc);
    let (mut datagram, mut end, mut inputs) = (0_usize, 0_usize, false);
    for area in 0..AREAS {
        let bits = usize::from(line.width(task, area));
        if bits > 0 {
            let bytes = end.saturating_add(7) / 8;
            let mut bit = if bits >= 8 || is_input(area) && !inputs {
                bytes.saturating_mul(8)
            } else {
                end
            };
            if bit.saturating_add(bits) > DATAGRAM_BITS {
                datagram = datagram.saturating_add(1);
                bit = 0;
            }
            spots.push(Location {
                area,
                datagram,
                bit,
                bits,
            })?;
            end = bit.saturating_add(bits);
            inputs = is_input(area);
        }
    }
    Ok(spots)
}

/// Carries one area's bits: an input's from memory to the data; an output variable's from the image, and the 0 of a gap, to
/// the data and to memory.
fn carry(
    line: &Line,
    alloc: Global,
    location: Location,
    first: usize,
    image: &[u8],
    data: &mut [u8],
    memories: &mut [u8],
) -> Result<(), AllocError>
    requires { location.area < 128 }
{
    let phys = if is_input(location.area) { INPUTS } else { 0 };
    let byte = position(line, location.area % 64)
        .saturating_mul(PROCESS)
        .saturating_add(phys);
    let memory = byte.saturating_mul(8);
    let mut bit = 0_usize;
    for is_variable in variable_bits(alloc, line.assigned[location.area])? {
        let (at, own) = (first.saturating_add(bit), memory.saturating_add(bit));
        if is_input(location.area) {
            set(data, at, get(memories, own));
        } else {
            let sent = is_variable && get(image, at);
            set(data, at, sent);
            set(memories, own, sent);
        }
        bit = bit.saturating_add(1);
    }
    Ok(())
}

/// The expected result of an exchange of a task with an image of outputs. It also leaves the expected process memories of the
/// line's slaves, which are one after another.
pub fn exchanged(
    line: &Line,
    alloc: Global,
    task: u8,
    image: &[u8],
    memories: &mut [u8],
) -> Result<Wanted, AllocError> {
    let spots = spots(line, alloc, task)?;
    let datagrams = datagrams_of(alloc, &spots)?;
    let mut data = vec![in alloc; 0; offset(&datagrams, AREAS)]?;
    for location in &spots {
        let first = offset(&datagrams, location.datagram)
            .saturating_mul(8)
            .saturating_add(location.bit);
        if location.area < AREAS {
            carry(line, alloc, *location, first, image, &mut data, memories)?;
        }
    }
    Ok(Wanted { datagrams, data })
}

/// The number of bytes of the first `count` datagrams.
fn offset(datagrams: &[(usize, u16)], count: usize) -> usize {
    let mut bytes = 0_usize;
    for (own, _) in datagrams.iter().take(count) {
        bytes = bytes.saturating_add(*own);
    }
    bytes
}

/// The bytes and the counters of the datagrams of areas that are in their order: an output area adds 2 to its datagram's
/// counter, and an input area 1.
fn datagrams_of(alloc: Global, spots: &[Location]) -> Result<Vec<(usize, u16)>, AllocError> {
    let mut datagrams: Vec<(usize, u16)> = Vec::new(alloc);
    for location in spots {
        let share = if is_input(location.area) { 1_u16 } else { 2 };
        let bytes = location.bit.saturating_add(location.bits).saturating_add(7) / 8;
        if datagrams.len() == location.datagram {
            datagrams.push((0, 0))?;
        }
        if let Some(last) = datagrams.last_mut() {
            *last = (bytes, last.1.saturating_add(share));
        }
    }
    Ok(datagrams)
}
