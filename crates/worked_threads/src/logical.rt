//! Process data through FMMUs.
use crate::lines::Step::{Frame, Kept, Pass, Put};
use crate::lines::{Run, first_wrongs};
use crate::pieces::{frame_of, is_placed, put};
use hc_machine::SlaveMachine;
use std::alloc::{AllocError, Global};
use std::test::Fail;

/// Blocks, memory and data of a datagram. The blocks are those of FMMUs 0 and 1: logical start address, length, start bit, stop
/// bit, physical start address, start bit, type, activate. Two bytes of memory, and a datagram of two bytes at logical address
/// 0x01000000, are given before and after.
struct Row {
    blocks: [[u8; 16]; 2],
    memory: [(u16, u8); 2],
    came: [u8; 2],
    left: [u8; 2],
    counter: u8,
    after: [(u16, u8); 2],
}

const NONE: [u8; 16] = [0; 16];

const ROWS: [Row; 20] = [
    // no FMMU is active
    Row {
        blocks: [[0, 0, 0, 1, 2, 0, 0, 7, 0, 0x10, 0, 3, 0, 0, 0, 0], NONE],
        memory: [(0x1000, 0x11), (0x1001, 0x22)],
        came: [0x33, 0x44],
        left: [0x33, 0x44],
        counter: 0,
        after: [(0x1000, 0x11), (0x1001, 0x22)],
    },
    // four bits are read over a byte's edge: 1101, low bit first
    Row {
        blocks: [[0, 0, 0, 1, 2, 0, 6, 1, 0, 0x10, 0, 1, 1, 0, 0, 0], NONE],
        memory: [(0x1000, 0xfb), (0x1001, 0)],
        came: [0x00, 0xff],
        left: [0xc0, 0xfe],
        counter: 1,
        after: [(0x1000, 0xfb), (0x1001, 0)],
    },
    // four bits are written over a byte's edge, from memory bit 5 on
    Row {
        blocks: [[0, 0, 0, 1, 2, 0, 6, 1, 0, 0x10, 5, 2, 1, 0, 0, 0], NONE],
        memory: [(0x1000, 0x80), (0x1001, 0xfe)],
        came: [0xc0, 0x02],
        left: [0xc0, 0x02],
        counter: 2,
        // bits 1, 1, 0, 1 at bits 5, 6, 7 and 8, which were 0, 0, 1, 0
        after: [(0x1000, 0x60), (0x1001, 0xff)],
    },
    // a start bit over the stop bit in one byte: no pair
    Row {
        blocks: [[0, 0, 0, 1, 1, 0, 5, 2, 0, 0x10, 0, 3, 1, 0, 0, 0], NONE],
        memory: [(0x1000, 0xff), (0x1001, 0xff)],
        came: [0, 0],
        left: [0, 0],
        counter: 0,
        after: [(0x1000, 0xff), (0x1001, 0xff)],
    },
    // a start bit over the stop bit, a byte further: four pairs
    Row {
        blocks: [[0, 0, 0, 1, 2, 0, 5, 0, 0, 0x10, 0, 1, 1, 0, 0, 0], NONE],
        memory: [(0x1000, 0xff), (0x1001, 0)],
        came: [0, 0],
        left: [0xe0, 0x01],
        counter: 1,
        after: [(0x1000, 0xff), (0x1001, 0)],
    },
    // length 0: no pair
    Row {
        blocks: [
            [0, 0, 0, 1, 0, 0, 0, 7, 0, 0x10, 0, 3, 1, 0, 0, 0],
            [1, 0, 0, 1, 0, 0, 0, 7, 0, 0x10, 0, 3, 1, 0, 0, 0],
        ],
        memory: [(0x1000, 0xff), (0x1001, 0xff)],
        came: [0, 0],
        left: [0, 0],
        counter: 0,
        after: [(0x1000, 0xff), (0x1001, 0xff)],
    },
    // of the bit fields the low three bits count, of the type the low two, of the activation the lowest
    Row {
        blocks: [
            [
                0, 0, 0, 1, 1, 0, 0xf8, 0xff, 0, 0x10, 0xf8, 0xfd, 0x81, 0, 0, 0,
            ],
            NONE,
        ],
        memory: [(0x1000, 0x5a), (0x1001, 0)],
        came: [0, 0],
        left: [0x5a, 0],
        counter: 1,
        after: [(0x1000, 0x5a), (0x1001, 0)],
    },
    // if two read FMMUs pair one logical bit, the lower number decides
    Row {
        blocks: [
            [0, 0, 0, 1, 1, 0, 0, 3, 0, 0x10, 0, 1, 1, 0, 0, 0],
            [0, 0, 0, 1, 1, 0, 0, 7, 1, 0x10, 0, 1, 1, 0, 0, 0],
        ],
        memory: [(0x1000, 0x05), (0x1001, 0xf0)],
        came: [0, 0],
        left: [0xf5, 0],
        counter: 1,
        after: [(0x1000, 0x05), (0x1001, 0xf0)],
    },
    // if two write FMMUs pair one bit of memory, the lower number decides
    Row {
        blocks: [
            [1, 0, 0, 1, 1, 0, 0, 3, 0, 0x10, 0, 2, 1, 0, 0, 0],
            [0, 0, 0, 1, 1, 0, 0, 7, 0, 0x10, 0, 2, 1, 0, 0, 0],
        ],
        memory: [(0x1000, 0), (0x1001, 0)],
        came: [0x12, 0x34],
        left: [0x12, 0x34],
        counter: 2,
        after: [(0x1000, 0x14), (0x1001, 0)],
    },
    // a lower read FMMU whose pair lies past memory does not decide
    Row {
        blocks: [
            [0, 0, 0, 1, 2, 0, 0, 7, 0xff, 0x2f, 0, 1, 1, 0, 0, 0],
            [1, 0, 0, 1, 1, 0, 0, 7, 0, 0x10, 0, 1, 1, 0, 0, 0],
        ],
        memory: [(0x2fff, 0x77), (0x1000, 0x88)],
        came: [0, 0],
        left: [0x77, 0x88],
        counter: 1,
        after: [(0x2fff, 0x77), (0x1000, 0x88)],
    },
    // type 3: what was there is read, and what came in is written
    Row {
        blocks: [[0, 0, 0, 1, 2, 0, 0, 7, 0, 0x10, 0, 3, 1, 0, 0, 0], NONE],
        memory: [(0x1000, 0xaa), (0x1001, 0xbb)],
        came: [0x55, 0x66],
        left: [0xaa, 0xbb],
        counter: 3,
        after: [(0x1000, 0x55), (0x1001, 0x66)],
    },
    // two FMMUs of each direction count once
    Row {
        blocks: [
            [0, 0, 0, 1, 1, 0, 0, 7, 0, 0x10, 0, 3, 1, 0, 0, 0],
            [1, 0, 0, 1, 1, 0, 0, 7, 1, 0x10, 0, 3, 1, 0, 0, 0],
        ],
        memory: [(0x1000, 1), (0x1001, 2)],
        came: [3, 4],
        left: [1, 2],
        counter: 3,
        after: [(0x1000, 3), (0x1001, 4)],
    },
    // a read FMMU over memory that another writes: both act on what was there
    Row {
        blocks: [
            [0, 0, 0, 1, 1, 0, 0, 7, 0, 0x10, 0, 2, 1, 0, 0, 0],
            [1, 0, 0, 1, 1, 0, 0, 7, 0, 0x10, 0, 1, 1, 0, 0, 0],
        ],
        memory: [(0x1000, 0x99), (0x1001, 0)],
        came: [0x12, 0x34],
        left: [0x12, 0x99],
        counter: 3,
        after: [(0x1000, 0x12), (0x1001, 0)],
    },
    // pairs past memory do not count
    Row {
        blocks: [[0, 0, 0, 1, 2, 0, 0, 7, 0xff, 0x2f, 0, 2, 1, 0, 0, 0], NONE],
        memory: [(0x2fff, 0), (0x0000, 0)],
        came: [0x12, 0x34],
        left: [0x12, 0x34],
        counter: 2,
        after: [(0x2fff, 0x12), (0x0000, 0)],
    },
    // all pairs lie past memory
    Row {
        blocks: [
            [0, 0, 0, 1, 2, 0, 0, 7, 0, 0x30, 0, 3, 1, 0, 0, 0],
            [0, 0, 0, 1, 2, 0, 0, 7, 0xff, 0xff, 0, 3, 1, 0, 0, 0],
        ],
        memory: [(0x2fff, 0), (0x0000, 0)],
        came: [0x12, 0x34],
        left: [0x12, 0x34],
        counter: 0,
        after: [(0x2fff, 0), (0x0000, 0)],
    },
    // another datagram's FMMUs, the byte before and the byte after
    Row {
        blocks: [
            [0xff, 0xff, 0xff, 0, 1, 0, 0, 7, 0, 0x10, 0, 3, 1, 0, 0, 0],
            [2, 0, 0, 1, 1, 0, 0, 7, 1, 0x10, 0, 3, 1, 0, 0, 0],
        ],
        memory: [(0x1000, 1), (0x1001, 2)],
        came: [3, 4],
        left: [3, 4],
        counter: 0,
        after: [(0x1000, 1), (0x1001, 2)],
    },
    // an FMMU that begins before the datagram and ends in it
    Row {
        blocks: [
            [0xff, 0xff, 0xff, 0, 2, 0, 0, 3, 0, 0x10, 0, 1, 1, 0, 0, 0],
            NONE,
        ],
        memory: [(0x1000, 0), (0x1001, 0x7e)],
        came: [0xf1, 0xff],
        left: [0xfe, 0xff],
        counter: 1,
        after: [(0x1000, 0), (0x1001, 0x7e)],
    },
    // the alias is 100, in 0x0012 and 0x0013: both bytes stay, those beside them do not, and the writes count; here the byte
    // before it, and its low byte
    Row {
        blocks: [[0, 0, 0, 1, 2, 0, 0, 7, 0x11, 0, 0, 2, 1, 0, 0, 0], NONE],
        memory: [(0x0011, 7), (0x0014, 8)],
        came: [0x12, 0x34],
        left: [0x12, 0x34],
        counter: 2,
        after: [(0x0011, 0x12), (0x0012, 100)],
    },
    // the alias's high byte, and the byte after it
    Row {
        blocks: [[0, 0, 0, 1, 2, 0, 0, 7, 0x13, 0, 0, 2, 1, 0, 0, 0], NONE],
        memory: [(0x0011, 7), (0x0014, 8)],
        came: [0x12, 0x34],
        left: [0x12, 0x34],
        counter: 2,
        after: [(0x0013, 0), (0x0014, 0x34)],
    },
    // the alias alone: the write counts all the same
    Row {
        blocks: [[0, 0, 0, 1, 2, 0, 0, 7, 0x12, 0, 0, 2, 1, 0, 0, 0], NONE],
        memory: [(0x0011, 7), (0x0014, 8)],
        came: [0x12, 0x34],
        left: [0x12, 0x34],
        counter: 2,
        after: [(0x0012, 100), (0x0013, 0)],
    },
];

/// The number of the first row with another result. None if there is none. Each row has a machine of its own, with the alias
/// 100.
fn first_wrong_row(alloc: Global, rows: &[Row]) -> Result<Option<usize>, AllocError> {
    for (number, row) in rows.iter().enumerate() {
        let mut machine = SlaveMachine::new(alloc, 100)?;
        let memory = machine.memory_mut();
        let are_blocks = put(memory, 0x0600, &row.blocks[0]) && put(memory, 0x0610, &row.blocks[1]);
        let [first, second] = row.memory;
        let are_put = put(memory, usize::from(first.0), &[first.1])
            && put(memory, usize::from(second.0), &[second.1]);
        let mut frame = frame_of(12, 0x0100_0000, &row.came);
        machine.process(&mut frame);
        let [low, high] = row.left;
        let is_left = is_placed(&frame, 26, &[low, high, row.counter, 0]);
        let [first, second] = row.after;
        let memory = machine.memory();
        let are_after = is_placed(memory, usize::from(first.0), &[first.1])
            && is_placed(memory, usize::from(second.0), &[second.1]);
        if !(are_blocks && are_put && is_left && are_after) {
            return Ok(Some(number));
        }
    }
    Ok(None)
}

/// The data that a frame writes into the block of FMMU 1. They are a block that reads their own first byte from 0x1000.
const BLOCK: [u8; 16] = [0, 0, 0, 1, 1, 0, 0, 7, 0, 0x10, 0, 1, 1, 0, 0, 0];

/// FMMU 0 writes 16 bytes from the logical address 0x01000000 on into the block of FMMU 1.
const WRITES_A_BLOCK: [u8; 16] = [0, 0, 0, 1, 16, 0, 0, 7, 0x10, 0x06, 0, 2, 1, 0, 0, 0];

/// FMMU 0 reads and writes the byte 0x1000.
const BOTH_WAYS: [u8; 16] = [0, 0, 0, 1, 1, 0, 0, 7, 0, 0x10, 0, 3, 1, 0, 0, 0];

/// Two datagrams: 16 bytes at 0x01000000, and one byte at 0x01000010, which the block written by the first pairs.
const TWO: [u8; 57] = [
    0xff, 0xff, 0xff, 0xff, 0xff, 0xff, 2, 0, 0, 0, 0, 0, 0x88, 0xa4, 41, 0x10, 12, 0, 0, 0, 0, 1,
    16, 0x80, 0, 0, 16, 0, 0, 1, 1, 0, 0, 7, 0, 0x10, 0, 1, 1, 0, 0, 0, 0, 0, 12, 0, 16, 0, 0, 1,
    1, 0, 0, 0, 7, 0, 0,
];

/// A datagram of one byte whose working counter is 65,535.
const LAST_COUNT: [u8; 29] = [
    0xff, 0xff, 0xff, 0xff, 0xff, 0xff, 2, 0, 0, 0, 0, 0, 0x88, 0xa4, 13, 0x10, 12, 0, 0, 0, 0, 1,
    1, 0, 0, 0, 0, 0xff, 0xff,
];

/// A datagram of one byte that circulated.
const CIRCULATING: [u8; 29] = [
    0xff, 0xff, 0xff, 0xff, 0xff, 0xff, 2, 0, 0, 0, 0, 0, 0x88, 0xa4, 13, 0x10, 12, 0, 0, 0, 0, 1,
    1, 0x40, 0, 0, 7, 0, 0,
];

/// A logical write alone, which is not served.
const UNSERVED: [u8; 29] = [
    0xff, 0xff, 0xff, 0xff, 0xff, 0xff, 2, 0, 0, 0, 0, 0, 0x88, 0xa4, 13, 0x10, 11, 0, 0, 0, 0, 1,
    1, 0, 0, 0, 7, 0, 0,
];

/// A served datagram, and after it one that is not.
const SECOND_UNSERVED: [u8; 42] = [
    0xff, 0xff, 0xff, 0xff, 0xff, 0xff, 2, 0, 0, 0, 0, 0, 0x88, 0xa4, 26, 0x10, 12, 0, 0, 0, 0, 1,
    1, 0x80, 0, 0, 7, 0, 0, 11, 0, 0, 0, 0, 0, 1, 0, 0, 0, 0, 0, 0,
];

const RUNS: [Run; 6] = [
    // FMMU 15 reads the first byte from 0x1000; the block after it, at 0x0700, would read the second from 0x1001: it is no
    // FMMU
    (
        &[0],
        &[
            Put(
                0,
                0x06f0,
                &[0, 0, 0, 1, 1, 0, 0, 7, 0, 0x10, 0, 1, 1, 0, 0, 0],
            ),
            Put(
                0,
                0x0700,
                &[1, 0, 0, 1, 1, 0, 0, 7, 1, 0x10, 0, 1, 1, 0, 0, 0],
            ),
            Put(0, 0x1000, &[0x5a, 0xa5]),
            Pass(12, 0x0100_0000, &[1, 2], 0x0100_0000, &[0x5a, 2, 1, 0]),
        ],
    ),
    // counters wrap: 65,535 and 3
    (
        &[0],
        &[
            Put(0, 0x0600, &BOTH_WAYS),
            Frame(&LAST_COUNT, &[(27, &[2, 0])]),
        ],
    ),
    // logical bits do not wrap: of two bytes from the last logical address on none is at address 0
    (
        &[0],
        &[
            Put(
                0,
                0x0600,
                &[
                    0xff, 0xff, 0xff, 0xff, 2, 0, 0, 7, 0, 0x10, 0, 1, 1, 0, 0, 0,
                ],
            ),
            Put(0, 0x1000, &[0x11, 0x22]),
            Pass(12, 0xffff_ffff, &[0, 0], 0xffff_ffff, &[0x11, 0x22, 1, 0]),
            Pass(12, 0, &[0, 0], 0, &[0, 0, 0, 0]),
        ],
    ),
    // a datagram meets FMMUs as they were before it: the first writes alone, the second, of the same data, is read too
    (
        &[0],
        &[
            Put(0, 0x0600, &WRITES_A_BLOCK),
            Put(0, 0x1000, &[0x5a]),
            Pass(
                12,
                0x0100_0000,
                &BLOCK,
                0x0100_0000,
                &[0, 0, 0, 1, 1, 0, 0, 7, 0, 0x10, 0, 1, 1, 0, 0, 0, 2, 0],
            ),
            Pass(
                12,
                0x0100_0000,
                &BLOCK,
                0x0100_0000,
                &[0x5a, 0, 0, 1, 1, 0, 0, 7, 0, 0x10, 0, 1, 1, 0, 0, 0, 3, 0],
            ),
        ],
    ),
    // a second datagram meets what the first wrote
    (
        &[0],
        &[
            Put(0, 0x0600, &WRITES_A_BLOCK),
            Put(0, 0x1000, &[0x5a]),
            Frame(
                &TWO,
                &[
                    (26, &[16, 0, 0, 1, 1, 0, 0, 7, 0, 0x10, 0, 1, 1, 0, 0, 0]),
                    (42, &[2, 0]),
                    (54, &[0x5a, 1, 0]),
                ],
            ),
            Kept(
                0,
                0x0610,
                &[16, 0, 0, 1, 1, 0, 0, 7, 0, 0x10, 0, 1, 1, 0, 0, 0],
            ),
            Frame(&TWO, &[(42, &[2, 0]), (54, &[0x5a, 1, 0])]),
        ],
    ),
    // frames that are not read stay, and so does memory
    (
        &[0],
        &[
            Put(0, 0x0600, &BOTH_WAYS),
            Frame(&CIRCULATING, &[(0, &CIRCULATING)]),
            Kept(0, 0x1000, &[0]),
            Frame(&UNSERVED, &[(0, &UNSERVED)]),
            Kept(0, 0x1000, &[0]),
            Frame(&SECOND_UNSERVED, &[(0, &SECOND_UNSERVED)]),
            Kept(0, 0x1000, &[0]),
            Frame(&[], &[]),
            // the first datagram of the last one alone acts
            Pass(12, 0x0100_0000, &[7], 0x0100_0000, &[0, 3, 0]),
            Kept(0, 0x1000, &[7]),
        ],
    ),
];

/// Machines read and write process data through their FMMUs, bit by bit as worked out by hand.
#[test]
fn process_data_go_through_fmmus(rt: HostRuntime) -> Result<(), Fail> {
    let alloc = rt.alloc();
    let found = (first_wrong_row(alloc, &ROWS)?, first_wrongs(alloc, &RUNS)?);
    assert_eq!(rt; found, (None, [None, None]));
    Ok(())
}
