//! Registers by position and by station.
use crate::lines::Step::{Frame, Kept, Pass, Put};
use crate::lines::{Run, first_wrongs, is_unchanged, put_in, segment_of};
use hc_frames::building::build_alias_read;
use std::alloc::{AllocError, Global};
use std::test::Fail;

/// The alias read at the position 2, as it is sent.
const ALIAS_READ: [u8; 60] = [
    0xff, 0xff, 0xff, 0xff, 0xff, 0xff, 2, 0xff, 0xff, 0xff, 0xff, 0xff, 0x88, 0xa4, 0x0e, 0x10, 1,
    0xff, 0xfe, 0xff, 0x12, 0, 2, 0, 0, 0, 0, 0, 0, 0, 0, 0, 0, 0, 0, 0, 0, 0, 0, 0, 0, 0, 0, 0, 0,
    0, 0, 0, 0, 0, 0, 0, 0, 0, 0, 0, 0, 0, 0, 0,
];

/// Station 1001 is written by position, and is then met by the second datagram.
const WRITTEN_AND_MET: [u8; 44] = [
    0xff, 0xff, 0xff, 0xff, 0xff, 0xff, 2, 0, 0, 0, 0, 0, 0x88, 0xa4, 28, 0x10, 2, 0, 0, 0, 0x10,
    0, 2, 0x80, 0, 0, 0xe9, 3, 0, 0, 5, 0, 0xe9, 3, 0, 0x10, 2, 0, 0, 0, 5, 6, 0, 0,
];

const RUNS: [Run; 6] = [
    // the alias of the third slave is read
    (
        &[0, 7, 100],
        &[Frame(
            &ALIAS_READ,
            &[(18, &[1, 0, 0x12, 0]), (26, &[100, 0, 1, 0])],
        )],
    ),
    // positions wrap: the first slave counts 65,535 up to 0, the second answers
    (
        &[0, 100],
        &[Pass(1, 0x0012_ffff, &[0, 0], 0x0012_0001, &[100, 0, 1, 0])],
    ),
    // station 1001 is written to the slaves at positions 0 and 2, and both are met by it
    (
        &[0, 0, 0],
        &[
            Pass(2, 0x0010_0000, &[0xe9, 3], 0x0010_0003, &[0xe9, 3, 1, 0]),
            Pass(2, 0x0010_fffe, &[0xe9, 3], 0x0010_0001, &[0xe9, 3, 1, 0]),
            Pass(5, 0x1000_03e9, &[5, 6], 0x1000_03e9, &[5, 6, 2, 0]),
            Kept(0, 0x1000, &[5, 6]),
            Kept(1, 0x1000, &[0, 0]),
            Kept(2, 0x1000, &[5, 6]),
        ],
    ),
    // a station is met once it is written
    (
        &[0],
        &[
            Frame(
                &WRITTEN_AND_MET,
                &[(26, &[0xe9, 3, 1, 0]), (40, &[5, 6, 1, 0])],
            ),
            Kept(0, 0x1000, &[5, 6]),
        ],
    ),
    // writes leave the alias
    (
        &[0x0164],
        &[
            Pass(
                2,
                0x0010_0000,
                &[1, 2, 3, 4, 5, 6],
                0x0010_0001,
                &[1, 2, 3, 4, 5, 6, 1, 0],
            ),
            Kept(0, 0x10, &[1, 2, 0x64, 1, 5, 6]),
            Pass(5, 0x0012_0201, &[9, 9], 0x0012_0201, &[9, 9, 1, 0]),
            Kept(0, 0x10, &[1, 2, 0x64, 1, 5, 6]),
        ],
    ),
    // ranges end with memory: one byte past it is refused by position, which is counted up, and by station
    (
        &[0],
        &[
            Put(0, 0x2ffe, &[7, 8]),
            Pass(1, 0x2ffe_0000, &[0, 0], 0x2ffe_0001, &[7, 8, 1, 0]),
            Pass(1, 0x2fff_0000, &[5, 6], 0x2fff_0001, &[5, 6, 0, 0]),
            Pass(2, 0x2fff_0000, &[5, 6], 0x2fff_0001, &[5, 6, 0, 0]),
            Pass(5, 0x2fff_0000, &[5, 6], 0x2fff_0000, &[5, 6, 0, 0]),
            Kept(0, 0x2ffe, &[7, 8]),
        ],
    ),
];

/// True if a segment gives its two machines back, each with its alias and with the bytes that were written.
fn are_given_back(alloc: Global) -> Result<bool, AllocError> {
    let mut segment = segment_of(alloc, &[1, 2])?;
    let are_put = put_in(&mut segment, 0, 0x1000, &[9]) && put_in(&mut segment, 1, 0x1000, &[9]);
    let machines = segment.into_machines();
    let are_unchanged = [
        is_unchanged(&machines, 0, 0x12, &[1, 0]),
        is_unchanged(&machines, 0, 0x1000, &[9]),
        is_unchanged(&machines, 1, 0x12, &[2, 0]),
        is_unchanged(&machines, 1, 0x1000, &[9]),
    ];
    Ok(are_put && machines.len() == 2 && are_unchanged == [true; 4])
}

/// Registers are read by position and written by position and station address, as worked out by hand.
#[test]
fn registers_are_read_and_written(rt: HostRuntime) -> Result<(), Fail> {
    let alloc = rt.alloc();
    let mut frame = [9; 60];
    let built = build_alias_read(&mut frame, 2);
    assert_eq!(rt; (built, frame), (Ok(60), ALIAS_READ));
    let found = (first_wrongs(alloc, &RUNS)?, are_given_back(alloc)?);
    assert_eq!(rt; found, ([None, None], true));
    Ok(())
}
