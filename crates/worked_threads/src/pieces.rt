//! Frames of one datagram, and bytes that are in frames and memories.
ghost use Rattle.std.specs.Prelude.{◌≤◌, length};

/// An offset, and the bytes that are to be there.
pub type Piece = (usize, &'static [u8]);

/// A frame of one datagram with the serial 0: 64 bytes; those after the working counter are 0.
pub fn frame_of(command: u8, address: u32, bytes: &[u8]) -> [u8; 64]
    requires { length bytes.now ≤ 36 }
{
    let mut frame = [0; 64];
    frame[..7].copy_from_slice(&[0xff, 0xff, 0xff, 0xff, 0xff, 0xff, 2]);
    frame[12..14].copy_from_slice(&[0x88, 0xa4]);
    frame[14] = 12 + bytes.len() as u8;
    frame[15] = 0x10;
    frame[16] = command;
    frame[18..22].copy_from_slice(&address.to_le_bytes());
    frame[22] = bytes.len() as u8;
    frame[26..26 + bytes.len()].copy_from_slice(bytes);
    frame
}

/// True if the wanted bytes are at this offset.
pub fn is_placed(bytes: &[u8], at: usize, wanted: &[u8]) -> bool {
    match bytes.get(at..) {
        Some(rest) => rest.starts_with(wanted),
        None => false,
    }
}

/// True if each of the pieces is at its offset.
pub fn are_placed(bytes: &[u8], pieces: &[Piece]) -> bool {
    for (at, wanted) in pieces {
        if !is_placed(bytes, *at, *wanted) {
            return false;
        }
    }
    true
}

/// Writes bytes at an offset. False if they have no room.
pub fn put(bytes: &mut [u8], at: usize, written: &[u8]) -> bool {
    let has_room = at <= bytes.len() && written.len() <= bytes.len() - at;
    if has_room {
        bytes[at..at + written.len()].copy_from_slice(written);
    }
    has_room
}
