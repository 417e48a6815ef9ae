//! Blocks of worked lines, with the bytes that their registers must hold.
use crate::pieces::trees::{input, out};
use hc_records::items::Items;
use hc_records::keys::Key;
use hc_records::records::{Area, Dir, Pdo, VarId};
use hc_registers::counters::expected_count;
use hc_registers::fmmu::{self, Mapping, fmmu_block};
use hc_registers::sync_manager::{self, sync_block};
use std::alloc::{AllocError, Global};
use std::test::Fail;

/// An area and its blocks: direction, address, a width of at most 64 bits, its first bit in datagram 0 of task 0, and the bytes
/// of its sync manager block and of its FMMU block.
type Row = (Dir, u16, u8, u16, [u8; 8], [u8; 16]);

/// An output area of 2 bits and an input area of 12 bits after it; the second and the third of three areas of 3
/// bits; an area of no bits.
const ROWS: [Row; 5] = [
    (
        Dir::Out,
        0x1100,
        2,
        0,
        [0x00, 0x11, 0x01, 0x00, 0x64, 0x00, 0x01, 0x00],
        [0, 0, 0, 1, 1, 0, 0, 1, 0x00, 0x11, 0, 2, 1, 0, 0, 0],
    ),
    (
        Dir::In,
        0x1180,
        12,
        8,
        [0x80, 0x11, 0x02, 0x00, 0x20, 0x00, 0x01, 0x00],
        [1, 0, 0, 1, 2, 0, 0, 3, 0x80, 0x11, 0, 1, 1, 0, 0, 0],
    ),
    (
        Dir::Out,
        0x1010,
        3,
        3,
        [0x10, 0x10, 0x01, 0x00, 0x64, 0x00, 0x01, 0x00],
        [0, 0, 0, 1, 1, 0, 3, 5, 0x10, 0x10, 0, 2, 1, 0, 0, 0],
    ),
    (
        Dir::Out,
        0x1000,
        3,
        6,
        [0x00, 0x10, 0x01, 0x00, 0x64, 0x00, 0x01, 0x00],
        [0, 0, 0, 1, 2, 0, 6, 0, 0x00, 0x10, 0, 2, 1, 0, 0, 0],
    ),
    (
        Dir::In,
        0x1180,
        0,
        0,
        [0x80, 0x11, 0x00, 0x00, 0x20, 0x00, 0x00, 0x00],
        [0; 16],
    ),
];

/// The area of a row, with one variable, which is assigned if it has bits.
fn area(alloc: Global, row: &Row) -> Result<Area, AllocError> {
    let mut entries = Items::new(alloc);
    entries.push((VarId::new(1), row.2))?;
    let mut offered = Items::new(alloc);
    offered.push(Pdo {
        index: 0x1600,
        entries,
    })?;
    let mut assigned = Items::new(alloc);
    if row.2 > 0 {
        assigned.push(0x1600)?;
    }
    Ok(Area {
        sm: 2,
        dir: row.0,
        phys: row.1,
        offered,
        assigned,
        task: 0,
    })
}

/// True if an area has a row's blocks.
fn has_blocks(area: &Area, row: &Row) -> bool {
    let width = area.width_with(area.assigned.as_slice());
    if width > 64 || row.3 > 64 {
        return false;
    }
    let mapping = if width == 0 {
        None
    } else {
        Some(Mapping {
            address: 0x0100_0000,
            bit: row.3,
        })
    };
    sync_block(area) == row.4 && fmmu_block(area, mapping) == row.5
}

/// An area has the blocks of its sync manager and its FMMU with the bytes that were worked out by hand, also an area without
/// bits.
#[test]
fn areas_have_their_blocks(rt: HostRuntime) -> Result<(), Fail> {
    for row in &ROWS {
        let area = area(rt.alloc(), row)?;
        assert!(rt; has_blocks(&area, row));
    }
    Ok(())
}

/// The fields of a sync manager's and an FMMU's block are read from their bytes (ETG.1000.4).
#[test]
fn fields_are_read(rt: HostRuntime) {
    let manager = [0x80, 0x11, 0x02, 0x01, 0x20, 0x03, 0x01, 0x04];
    let block = [1, 2, 3, 4, 5, 6, 7, 8, 9, 10, 11, 12, 13, 0, 0, 0];
    let words = [
        sync_manager::start_address(&manager),
        sync_manager::length(&manager),
        fmmu::length(&block),
        fmmu::physical_start_address(&block),
    ];
    let bytes = [
        sync_manager::control(&manager),
        sync_manager::status(&manager),
        sync_manager::activate(&manager),
        sync_manager::pdi_control(&manager),
        fmmu::logical_start_bit(&block),
        fmmu::logical_stop_bit(&block),
        fmmu::physical_start_bit(&block),
        fmmu::fmmu_type(&block),
        fmmu::activate(&block),
    ];
    let are_read = words == [0x1180, 0x0102, 0x0605, 0x0a09]
        && bytes == [0x20, 3, 1, 4, 7, 8, 11, 12, 13]
        && fmmu::logical_start_address(&block) == 0x0403_0201;
    assert!(rt; are_read);
}

/// Each slave adds 2 to a datagram's expected working counter if it writes outputs, and 1 if it reads inputs.
#[test]
fn counters_count_slaves(rt: HostRuntime) {
    let second = Key { area: 1, ..out(1) };
    let keys = [out(1), second, out(2), input(1)];
    let counts = [
        expected_count(&[], &[1, 2]),
        expected_count(&keys[..3], &[1, 2]),
        expected_count(&keys, &[1, 2]),
    ];
    assert_eq!(rt; counts, [0, 4, 5]);
}
