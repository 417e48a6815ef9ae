//! Frames byte by byte, from the tables of the standard (ETG.1000.4, 5.3 and 5.4). A frame has six bytes of destination, six of
//! source whose last five are the serial, the EtherType, a length word, and the datagrams.
use crate::asked::Back;
use std::alloc::{AllocError, Global};

/// The low word of a number of bytes: of all lengths here the whole.
fn word(size: usize) -> [u8; 2] {
    let [low, high, _, _, _, _, _, _] = size.to_le_bytes();
    [low, high]
}

/// The bytes of datagrams, each with 12 bytes beside its data.
fn size_of(datagrams: &[Back]) -> usize {
    let mut size = 0_usize;
    for datagram in datagrams {
        size = size.saturating_add(12).saturating_add(datagram.2.len());
    }
    size
}

/// Writes a frame's first 16 bytes.
fn put_head(text: &mut Vec<u8>, serial: u64, size: usize) -> Result<(), AllocError> {
    let [_, _, _, s4, s3, s2, s1, s0] = serial.to_be_bytes();
    let [low, high] = word(size);
    text.extend_from_slice(&[0xff, 0xff, 0xff, 0xff, 0xff, 0xff, 2])?;
    text.extend_from_slice(&[s4, s3, s2, s1, s0, 0x88, 0xa4, low, high | 0x10])
}

/// Writes a datagram: command, index, address, length with the bit that says whether more follow, interrupt,
/// data and working counter.
fn put_part(
    text: &mut Vec<u8>,
    serial: u64,
    datagram: &Back,
    more: bool,
) -> Result<(), AllocError> {
    let [a0, a1, a2, a3] = datagram.1.to_le_bytes();
    let [low, high] = word(datagram.2.len());
    let follows = if more { 0x80 } else { 0 };
    let [index, _, _, _, _, _, _, _] = serial.to_le_bytes();
    text.extend_from_slice(&[datagram.0.code(), index, a0, a1, a2, a3])?;
    text.extend_from_slice(&[low, high | follows, 0, 0])?;
    text.extend_from_slice(datagram.2)?;
    text.extend_from_slice(&datagram.3.to_le_bytes())
}

/// The frame with a serial of datagrams that come back.
pub fn back(alloc: Global, serial: u64, datagrams: &[Back]) -> Result<Vec<u8>, AllocError> {
    let mut text = Vec::new(alloc);
    put_head(&mut text, serial, size_of(datagrams))?;
    let mut left = datagrams.len();
    for datagram in datagrams {
        left = left.saturating_sub(1);
        put_part(&mut text, serial, datagram, left > 0)?;
    }
    for _ in text.len()..60 {
        text.push(0)?;
    }
    Ok(text)
}
