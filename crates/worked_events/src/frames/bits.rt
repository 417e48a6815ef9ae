//! Runs of bits that were worked out by hand.
ghost use Rattle.std.specs.Prelude.{◌+◌, ◌*◌, ◌≤◌, ◌↔◌, length, IsTrue};

use hc_bits::{copy_bits, get_bits, put_bits};

/// True if the run of `n` bits from the bit `at` on lies in the slice, which has at most 32 bytes.
fn is_run(bytes: &[u8], at: usize, n: usize) -> bool
    requires { length bytes.now ≤ 32 }
    ensures { IsTrue result ↔ (at + n ≤ 8 * length bytes.now) }
{
    n <= 8 * bytes.len() && at <= 8 * bytes.len() - n
}

/// Low bit first: 10100101 00111100 00001111 11110000 10000001 01111110 01001000 00101100 01101010 00011110.
const READ: [u8; 10] = [0xa5, 0x3c, 0xf0, 0x0f, 0x81, 0x7e, 0x12, 0x34, 0x56, 0x78];

/// The hexadecimal digits in order, low digit first, from 0 to f and then to 7.
const DIGITS: [u8; 12] = [
    0x10, 0x32, 0x54, 0x76, 0x98, 0xba, 0xdc, 0xfe, 0x10, 0x32, 0x54, 0x76,
];

/// A run of bits in `READ`, as its first bit and its number of bits, and its value.
type Read = (usize, usize, u64);

const READS: [Read; 24] = [
    (0, 0, 0),
    (0, 1, 1),
    (1, 1, 0),
    (7, 1, 1),
    (7, 2, 1),
    (6, 3, 2),
    (7, 4, 9),
    (0, 8, 0xa5),
    (4, 8, 0xca),
    (0, 16, 0x3ca5),
    (8, 16, 0xf03c),
    (4, 16, 0x03ca),
    (20, 8, 0xff),
    (19, 10, 0x1fe),
    (62, 4, 8),
    (63, 2, 0),
    (1, 63, 0x1a09_3f40_87f8_1e52),
    (0, 64, 0x3412_7e81_0ff0_3ca5),
    (4, 64, 0x6341_27e8_10ff_03ca),
    (15, 64, 0xf0ac_6824_fd02_1fe0),
    (16, 64, 0x7856_3412_7e81_0ff0),
    (72, 8, 0x78),
    (78, 2, 1),
    (80, 0, 0),
];

/// True if the row's value is read.
fn is_read(row: &Read) -> bool {
    let (at, n, value) = *row;
    n <= 64 && is_run(&READ, at, n) && get_bits(&READ, at, n) == value
}

/// The first bit and the number of bits of the first row that is not read. None if all are.
fn misread(rows: &[Read]) -> Option<(usize, usize)> {
    for row in rows {
        if !is_read(row) {
            return Some((row.0, row.1));
        }
    }
    None
}

/// A write of a run: the value of every byte before, the run's first bit and its number of bits, the value, and the bytes
/// after.
type Put = (u8, usize, usize, u64, [u8; 10]);

const PUTS: [Put; 10] = [
    (0, 0, 1, 1, [0x01, 0, 0, 0, 0, 0, 0, 0, 0, 0]),
    (
        0xff,
        0,
        1,
        0,
        [0xfe, 0xff, 0xff, 0xff, 0xff, 0xff, 0xff, 0xff, 0xff, 0xff],
    ),
    (
        0xff,
        3,
        5,
        1,
        [0x0f, 0xff, 0xff, 0xff, 0xff, 0xff, 0xff, 0xff, 0xff, 0xff],
    ),
    (0, 7, 2, 3, [0x80, 0x01, 0, 0, 0, 0, 0, 0, 0, 0]),
    (
        0xff,
        7,
        2,
        0,
        [0x7f, 0xfe, 0xff, 0xff, 0xff, 0xff, 0xff, 0xff, 0xff, 0xff],
    ),
    (0, 4, 8, 0xff, [0xf0, 0x0f, 0, 0, 0, 0, 0, 0, 0, 0]),
    (
        0xaa,
        8,
        16,
        0x1234,
        [0xaa, 0x34, 0x12, 0xaa, 0xaa, 0xaa, 0xaa, 0xaa, 0xaa, 0xaa],
    ),
    (0, 79, 1, 1, [0, 0, 0, 0, 0, 0, 0, 0, 0, 0x80]),
    (
        0x55,
        80,
        0,
        0,
        [0x55, 0x55, 0x55, 0x55, 0x55, 0x55, 0x55, 0x55, 0x55, 0x55],
    ),
    (
        0xff,
        4,
        64,
        0x0123_4567_89ab_cdef,
        [0xff, 0xde, 0xbc, 0x9a, 0x78, 0x56, 0x34, 0x12, 0xf0, 0xff],
    ),
];

/// True if the row's write leaves the row's bytes.
fn is_put(row: &Put) -> bool {
    let (before, at, n, value, after) = *row;
    let mut bytes = [before; 10];
    if n > 64 || !is_run(&bytes, at, n) || (n < 64 && value >> n != 0) {
        return false;
    }
    put_bits(&mut bytes, at, n, value);
    bytes == after
}

/// The first bit and the number of bits of the first row that is not written. None if all are.
fn misput(rows: &[Put]) -> Option<(usize, usize)> {
    for row in rows {
        if !is_put(row) {
            return Some((row.1, row.2));
        }
    }
    None
}

/// A copy of a run: its first bit in `DIGITS`, the value of every byte before, its first bit in the copy, its number of bits,
/// and the bytes after.
type Copied = (usize, u8, usize, usize, [u8; 12]);

const COPIES: [Copied; 8] = [
    (0, 0xff, 96, 0, [0xff; 12]),
    (0, 0, 0, 96, DIGITS),
    (
        4,
        0xff,
        0,
        88,
        [
            0x21, 0x43, 0x65, 0x87, 0xa9, 0xcb, 0xed, 0x0f, 0x21, 0x43, 0x65, 0xff,
        ],
    ),
    (
        0,
        0xff,
        4,
        84,
        [
            0x0f, 0x21, 0x43, 0x65, 0x87, 0xa9, 0xcb, 0xed, 0x0f, 0x21, 0x43, 0xff,
        ],
    ),
    (
        4,
        0,
        12,
        72,
        [
            0, 0x10, 0x32, 0x54, 0x76, 0x98, 0xba, 0xdc, 0xfe, 0x10, 0x02, 0,
        ],
    ),
    (
        8,
        0,
        4,
        68,
        [
            0x20, 0x43, 0x65, 0x87, 0xa9, 0xcb, 0xed, 0x0f, 0x21, 0, 0, 0,
        ],
    ),
    (
        24,
        0xff,
        90,
        5,
        [
            0xff, 0xff, 0xff, 0xff, 0xff, 0xff, 0xff, 0xff, 0xff, 0xff, 0xff, 0xdb,
        ],
    ),
    (92, 0, 3, 4, [0x38, 0, 0, 0, 0, 0, 0, 0, 0, 0, 0, 0]),
];

/// True if the row's copy leaves the row's bytes.
fn is_copied(row: &Copied) -> bool {
    let (at, before, at2, n, after) = *row;
    let mut bytes = [before; 12];
    if !is_run(&DIGITS, at, n) || !is_run(&bytes, at2, n) {
        return false;
    }
    copy_bits(&DIGITS, at, &mut bytes, at2, n);
    bytes == after
}

/// The first bits, from and to, and the number of bits of the first row that is not copied. None if all are.
fn miscopied(rows: &[Copied]) -> Option<(usize, usize, usize)> {
    for row in rows {
        if !is_copied(row) {
            return Some((row.0, row.2, row.3));
        }
    }
    None
}

/// Runs of bits are read, written and copied across the edges of bytes and words, and their neighbours stay.
#[test]
fn runs_go_over_byte_and_word_edges(rt: HostRuntime) {
    assert_eq!(rt;
        (misread(&READS), misput(&PUTS), miscopied(&COPIES)),
        (None, None, None)
    );
}
