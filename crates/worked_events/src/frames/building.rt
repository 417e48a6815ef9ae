//! Frames that are built, whose bytes were worked out by hand from the standard's tables (ETG.1000.4, 5.3 and 5.4).
ghost use Rattle.std.specs.Prelude.{◌≡◌, length};

use hc_frames::Command;
use hc_frames::building::{
    Room, build_alias_read, build_datagram, build_frame, build_head, build_lrw, build_station,
    build_write, frame_size,
};
use std::test::Fail;

const OLD: u8 = 0xa5;

/// An offset in a frame, and the bytes that are to be there.
type Piece = (usize, &'static [u8]);

/// True if a frame has these bytes at this offset.
fn is_placed(out: &[u8], at: usize, bytes: &[u8]) -> bool {
    match out.get(at..) {
        Some(rest) => rest.starts_with(bytes),
        None => false,
    }
}

/// True if a frame has each of the pieces at its offset.
fn are_placed(out: &[u8], pieces: &[Piece]) -> bool {
    for (at, bytes) in pieces {
        if !is_placed(out, *at, *bytes) {
            return false;
        }
    }
    true
}

/// True if the sixteen bytes before the datagrams are those of a sending with this serial, below 256, and with these two bytes
/// of the EtherCAT header.
fn has_head(out: &[u8], serial: u8, low: u8, high: u8) -> bool {
    let head = [
        255, 255, 255, 255, 255, 255, 2, 0, 0, 0, 0, serial, 0x88, 0xa4, low, high,
    ];
    is_placed(out, 0, &head)
}

const THREE_BYTES: [Piece; 3] = [
    (16, &[0x0c, 0, 0, 0, 0, 1, 3, 0, 0, 0]),
    (26, &[0; 34]),
    (60, &[OLD; 4]),
];

const FILLED: [Piece; 2] = [
    (16, &[0x0c, 6, 0, 0, 0, 2, 1, 0, 0, 0, 2, 0, 0, 0]),
    (30, &[0; 30]),
];

const LONGEST: [Piece; 3] = [(14, &[0xda, 0x15]), (22, &[0xce, 0x05]), (1511, &[1, 0, 0])];

/// Builds a frame of process data, and fills its data. True if they were zeros before, and the frame has this head and these
/// pieces.
fn is_built(
    out: &mut [u8],
    serial: u8,
    address: u32,
    fill: (u16, u8),
    header: (u8, u8),
    pieces: &[Piece],
) -> bool {
    if fill.0 < 1 || 1486 < fill.0 {
        return false;
    }
    let Ok(data) = build_lrw(out, u64::from(serial), address, fill.0) else {
        return false;
    };
    let was_blank = data.len() == usize::from(fill.0) && data.iter().all(|byte| *byte == 0);
    data.fill(fill.1);
    was_blank && has_head(out, serial, header.0, header.1) && are_placed(out, pieces)
}

/// Frames of process data have the head, datagrams and padding that were worked out by hand, up to 1,514 bytes.
#[test]
fn process_data_are_built(rt: HostRuntime) {
    let are_built = [
        is_built(
            &mut [OLD; 64],
            0,
            0x0100_0000,
            (3, 0),
            (0x0f, 0x10),
            &THREE_BYTES,
        ),
        is_built(
            &mut [OLD; 60],
            6,
            0x0200_0000,
            (1, 2),
            (0x0d, 0x10),
            &FILLED,
        ),
        is_built(
            &mut [OLD; 1514],
            0,
            0x0100_0000,
            (1486, 1),
            (0xda, 0x15),
            &LONGEST,
        ),
    ];
    assert_eq!(rt; (are_built, frame_size(1486)), ([true; 3], 1514));
}

/// The number of the five calls that fail since 60 bytes are needed.
fn calls_without_room(out: &mut [u8]) -> usize
    requires { length out.old ≡ 59 }
{
    let calls = [
        matches!(build_lrw(out, 0, 0x0100_0000, 3), Err(Room(60))),
        build_write(out, 0, 1001, 0x0810, &[0; 8]) == Err(Room(60)),
        build_alias_read(out, 2) == Err(Room(60)),
        build_station(out, 2, 1001) == Err(Room(60)),
        matches!(build_frame(out, 0, &[(0, 1)]), Err(Room(60))),
    ];
    calls.iter().filter(|call| **call).count()
}

/// Each of the five calls fails for a buffer of 59 bytes, asks for 60, and leaves the buffer as it was.
#[test]
fn room_for_process_data(rt: HostRuntime) {
    let mut out = [OLD; 59];
    let calls = calls_without_room(&mut out);
    assert!(rt; calls == 5 && out == [OLD; 59]);
}

/// The block of a sync manager.
const BLOCK: [u8; 8] = [0x00, 0x11, 0x01, 0x00, 0x64, 0x00, 0x01, 0x00];

const WRITTEN: [Piece; 4] = [
    (16, &[5, 0, 0xe9, 0x03, 0x10, 0x08, 8, 0, 0, 0]),
    (26, &BLOCK),
    (34, &[0; 26]),
    (60, &[OLD; 2]),
];

/// A register write to a sync manager has the bytes that were worked out by hand.
#[test]
fn write_of_a_sync_manager(rt: HostRuntime) {
    let mut out = [OLD; 62];
    let built = build_write(&mut out, 0, 1001, 0x0810, &BLOCK);
    assert!(rt; built == Ok(60) && has_head(&out, 0, 0x14, 0x10) && are_placed(&out, &WRITTEN));
}

const ALIAS_READ: [Piece; 3] = [
    (
        0,
        &[
            255, 255, 255, 255, 255, 255, 2, 255, 255, 255, 255, 255, 0x88, 0xa4, 0x0e, 0x10,
        ],
    ),
    (16, &[1, 255, 254, 255, 0x12, 0, 2, 0, 0, 0]),
    (26, &[0; 34]),
];

const STATION: [Piece; 1] = [(16, &[2, 255, 0, 0, 0x10, 0, 2, 0, 0, 0, 0xe9, 0x03, 0, 0])];

/// The frames that read an alias and write a station address by position have the bytes that were worked out by hand.
#[test]
fn setup_of_a_position(rt: HostRuntime) {
    let mut out = [OLD; 60];
    let is_read = build_alias_read(&mut out, 2) == Ok(60) && are_placed(&out, &ALIAS_READ);
    let is_written = build_station(&mut out, 0, 1001) == Ok(60) && are_placed(&out, &STATION);
    assert!(rt; is_read && is_written);
}

const IN_ONE_FRAME: [Piece; 4] = [
    (16, &[0x0c, 6, 0, 0, 0, 1, 2, 0x80, 0, 0, 0, 0, 0, 0]),
    (30, &[0x0c, 6, 0, 0, 0, 2, 1, 0, 0, 0, 2, 0, 0]),
    (43, &[0; 17]),
    (60, &[OLD; 1]),
];

/// The datagrams of two tasks in one frame are handed out as zeros, one after the other, and have the bytes that were worked
/// out by hand.
#[test]
fn two_tasks_in_one_frame(rt: HostRuntime) -> Result<(), Fail> {
    let mut out = [OLD; 61];
    let open = build_frame(&mut out, 6, &[(0x0100_0000, 2), (0x0200_0000, 1)])?;
    let (first, open) = open.next().ok_or("no first part")?;
    let is_first = &*first == [0, 0].as_slice();
    let (second, open) = open.next().ok_or("no second part")?;
    let is_second = &*second == [0].as_slice();
    second.fill(2);
    let is_handed_out = is_first && is_second && open.next().is_none();
    assert!(rt; is_handed_out && has_head(&out, 6, 0x1b, 0x10) && are_placed(&out, &IN_ONE_FRAME));
    Ok(())
}

/// The second datagram of the two.
const SECOND: [u8; 13] = [0x0c, 6, 0, 0, 0, 2, 1, 0, 0, 0, 2, 0, 0];

/// True if the second datagram is built with these bytes.
fn is_second_built() -> bool {
    let mut second = [OLD; 13];
    let data = build_datagram(&mut second, 6, 0x0200_0000, 1, false);
    data.fill(2);
    second == SECOND
}

/// The first datagram of the two, with zeros as its data.
const FIRST: [u8; 14] = [0x0c, 6, 0, 0, 0, 1, 2, 0x80, 0, 0, 0, 0, 0, 0];

/// True if the first datagram is built with these bytes, and its data are handed out as zeros.
fn is_first_built() -> bool {
    let mut first = [OLD; 14];
    let data = build_datagram(&mut first, 6, 0x0100_0000, 2, true);
    let is_blank = &*data == [0, 0].as_slice();
    is_blank && first == FIRST
}

/// A head and two datagrams that are built one by one have the bytes that were worked out by hand.
#[test]
fn one_frame_from_its_pieces(rt: HostRuntime) {
    let mut start = [OLD; 16];
    build_head(&mut start, 6, 27);
    assert!(rt; has_head(&start, 6, 0x1b, 0x10) && is_first_built() && is_second_built());
}

/// APRD, APWR, FPWR and LRW have the numbers 1, 2, 5 and 12 (ETG.1000.4).
#[test]
fn numbers_of_the_commands(rt: HostRuntime) {
    let numbers = [
        Command::Aprd.code(),
        Command::Apwr.code(),
        Command::Fpwr.code(),
        Command::Lrw.code(),
    ];
    assert!(rt; numbers == [1, 2, 5, 12]);
}
