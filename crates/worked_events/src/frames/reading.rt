//! Frames that are read, whose bytes were worked out by hand from the standard's tables (ETG.1000.4, 5.3 and 5.4).
use hc_frames::Command;
use hc_frames::reading::{FrameFault, Part, Returned, read_frame};
use std::test::Fail;

/// The answer to a datagram of three bytes of process data with the serial 4.
const ARRIVED: [u8; 31] = [
    0xff, 0xff, 0xff, 0xff, 0xff, 0xff, 2, 0, 0, 0, 0, 4, 0x88, 0xa4, 0x0f, 0x10, 0x0c, 4, 0, 0, 0,
    1, 3, 0, 0, 0, 0, 0x34, 0x0a, 3, 0,
];

/// The fault of a frame; none if it can be read.
fn fault_of(frame: &[u8]) -> Option<FrameFault> {
    read_frame(frame).err()
}

/// A datagram that is to be read: its offset, its command, its address, its interrupt field, its data and its working counter.
type Wanted = (usize, Command, u32, u16, &'static [u8], u16);

/// True if a datagram has these fields.
fn is_wanted(part: &Part, wanted: &Wanted) -> bool {
    let (start, command, address, interrupt, bytes, counter) = wanted;
    part.start == *start
        && part.command == *command
        && part.address == *address
        && part.interrupt == *interrupt
        && part.bytes == *bytes
        && part.counter == *counter
}

/// True if a frame has exactly these datagrams, each as the walk gives it and by its number.
fn are_wanted(returned: &Returned, wanted: &[Wanted]) -> bool {
    let mut number = 0;
    for (part, row) in returned.parts().zip(wanted) {
        let is_same = match returned.get(number) {
            Some(same) => is_wanted(&same, row),
            None => false,
        };
        if !is_same || !is_wanted(&part, row) {
            return false;
        }
        number = number.saturating_add(1);
    }
    returned.len() == wanted.len()
        && returned.parts().nth(number).is_none()
        && returned.get(number).is_none()
}

/// True if a frame is read with this serial and with exactly these datagrams.
fn is_read(frame: &[u8], serial: u64, wanted: &[Wanted]) -> Result<bool, FrameFault> {
    let returned = read_frame(frame)?;
    Ok(returned.serial() == serial && are_wanted(&returned, wanted))
}

const ONE_READ: [Wanted; 1] = [(16, Command::Lrw, 0x0100_0000, 0, &[0, 0x34, 0x0a], 3)];

/// Two datagrams of 2 and 1 bytes and their padding.
const TWO: [u8; 60] = [
    0xff, 0xff, 0xff, 0xff, 0xff, 0xff, 2, 0, 0, 0, 0, 6, 0x88, 0xa4, 0x1b, 0x10, 0x0c, 6, 0, 0, 0,
    1, 2, 0x80, 0, 0, 0x34, 0x0a, 1, 0, 0x0c, 6, 0, 0, 0, 2, 1, 0, 0, 0, 2, 1, 0, 0, 0, 0, 0, 0, 0,
    0, 0, 0, 0, 0, 0, 0, 0, 0, 0, 0,
];

const TWO_READ: [Wanted; 2] = [
    (16, Command::Lrw, 0x0100_0000, 0, &[0x34, 0x0a], 1),
    (30, Command::Lrw, 0x0200_0000, 0, &[2], 1),
];

const WRITE_READ: [Wanted; 1] = [(
    16,
    Command::Fpwr,
    0x0810_03e9,
    0,
    &[1, 2, 3, 4, 5, 6, 7, 8],
    0,
)];

/// A register write as it is sent, without padding.
const WRITE: [u8; 36] = [
    0xff, 0xff, 0xff, 0xff, 0xff, 0xff, 2, 0, 0, 0, 0, 0, 0x88, 0xa4, 0x14, 0x10, 5, 0, 0xe9, 3,
    0x10, 8, 8, 0, 0, 0, 1, 2, 3, 4, 5, 6, 7, 8, 0, 0,
];

/// The answer with another destination and another first source byte, and with bytes after its counter.
const SURROUNDED: [u8; 34] = [
    1, 0x80, 0xc2, 0, 0, 0x0e, 0xff, 0, 0, 0, 0, 4, 0x88, 0xa4, 0x0f, 0x10, 0x0c, 4, 0, 0, 0, 1, 3,
    0, 0, 0, 0, 0x34, 0x0a, 3, 0, 0xa5, 0xa5, 0xa5,
];

/// A frame, and the serial and the datagrams with which it is read.
type Read = (&'static [u8], u64, &'static [Wanted]);

const READ: [Read; 4] = [
    (&ARRIVED, 4, &ONE_READ),
    (&SURROUNDED, 4, &ONE_READ),
    (&TWO, 6, &TWO_READ),
    (&WRITE, 0, &WRITE_READ),
];

/// Frames are read with the serial and datagrams that were worked out by hand.
#[test]
fn frames_are_read(rt: HostRuntime) -> Result<(), Fail> {
    for (frame, serial, wanted) in &READ {
        assert!(rt; is_read(*frame, *serial, *wanted)?);
    }
    Ok(())
}

/// The fault that is found first in two datagrams with some of their bytes changed. None if they can be read.
fn fault_with(changes: &[(usize, u8)]) -> Option<FrameFault> {
    let mut frame = TWO;
    for (at, value) in changes {
        if *at < frame.len() {
            frame[*at] = *value;
        }
    }
    fault_of(&frame)
}

/// Changed bytes of the two datagrams, and the fault that is found first.
const FIRST_FAULTS: [(&[(usize, u8)], FrameFault); 9] = [
    (&[(12, 0x89), (15, 0x20)], FrameFault::NotEtherCat),
    (&[(15, 0x20), (14, 0x1c)], FrameFault::BadType),
    (&[(14, 0x1c), (37, 0x40)], FrameFault::BadLength),
    (&[(37, 0xc0), (30, 3)], FrameFault::Circulating),
    (&[(37, 0x80), (30, 3)], FrameFault::MoreFollows),
    (&[(30, 3), (17, 5)], FrameFault::UnknownCommand),
    (&[(31, 7)], FrameFault::IndexMismatch),
    (&[(23, 0)], FrameFault::BadLength),
    (&[(23, 0xc0)], FrameFault::Circulating),
];

/// The number of rows, from the first on, that have their faults.
fn faults_found(rows: &[(&[(usize, u8)], FrameFault)]) -> usize {
    let mut count = 0;
    for (changes, fault) in rows {
        if fault_with(*changes) != Some(*fault) {
            return count;
        }
        count = count.saturating_add(1);
    }
    count
}

/// The header's length and the data's, and the fault.
const LENGTHS: [(u16, u16, Option<FrameFault>); 5] = [
    (0, 3, Some(FrameFault::BadLength)),
    (12, 0, Some(FrameFault::BadLength)),
    (13, 1, None),
    (1498, 1486, None),
    (1499, 1487, Some(FrameFault::BadLength)),
];

/// The number of rows, from the first on, that have their faults.
fn lengths_judged(rows: &[(u16, u16, Option<FrameFault>)]) -> usize {
    let mut frame = [0; 1600];
    frame[..31].copy_from_slice(&ARRIVED);
    let mut count = 0;
    for (size, data, fault) in rows {
        frame[14..16].copy_from_slice(&size.wrapping_add(4096).to_le_bytes());
        frame[22..24].copy_from_slice(&data.to_le_bytes());
        if fault_of(&frame) != *fault {
            return count;
        }
        count = count.saturating_add(1);
    }
    count
}

/// The faults in the order of their numbers, from 1 on.
const FAULTS: [FrameFault; 8] = [
    FrameFault::Short,
    FrameFault::NotEtherCat,
    FrameFault::BadType,
    FrameFault::BadLength,
    FrameFault::Circulating,
    FrameFault::MoreFollows,
    FrameFault::UnknownCommand,
    FrameFault::IndexMismatch,
];

/// The number of faults, from the first on, whose numbers are their places, from 1 on.
fn faults_numbered(faults: &[FrameFault]) -> u8 {
    let mut count = 0u8;
    for fault in faults {
        if fault.number() != count.wrapping_add(1) {
            return count;
        }
        count = fault.number();
    }
    count
}

/// The number of cuts of the answer, from the empty one on, that have their faults. The shortest datagram ends with the byte
/// 27.
fn cuts_refused() -> usize {
    for size in 0..31 {
        let fault = if size < 28 {
            FrameFault::Short
        } else {
            FrameFault::BadLength
        };
        if fault_of(&ARRIVED[..size]) != Some(fault) {
            return size;
        }
    }
    31
}

/// Cut frames, changed bytes and wrong lengths have the faults that were worked out by hand. A header's length of 0 or 12 holds
/// no data, and 1,499 is over the most.
#[test]
fn frames_are_refused(rt: HostRuntime) {
    let counts = [
        cuts_refused(),
        faults_found(&FIRST_FAULTS),
        lengths_judged(&LENGTHS),
    ];
    assert_eq!(rt; (counts, faults_numbered(&FAULTS)), ([31, 9, 5], 8));
    let commands = [Command::of(5), Command::of(3)];
    assert_eq!(rt; commands, [Some(Command::Fpwr), None]);
}
