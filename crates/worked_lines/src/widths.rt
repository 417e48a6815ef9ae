//! Lines that are known by the widths of their areas, and what their plans have at the opening.
use crate::opened::{Refused, opened};
use crate::steps::{Wanted, has_block, has_datagrams};
use hc_plan::plan::Plan;
use hc_records::faults::EditFault;
use hc_records::items::Items;
use hc_records::project::Project;
use hc_records::records::{Area, Dir, Entry, Group, Pdo, Slave};
use std::alloc::{AllocError, Global};
use std::test::Fail;

/// The bits that a PDO of 64 entries holds.
const PDO_BITS: u16 = 4096;

/// The direction and the bits of an area.
type Width = (Dir, u16);

/// Entries without variables that have this many bits together.
pub fn entries(alloc: Global, bits: u16) -> Result<Items<Entry>, AllocError> {
    let mut entries = Items::new(alloc);
    for _ in 0..bits / 64 {
        entries.push((None, 64))?;
    }
    let left = bits % 64;
    if left > 0 {
        entries.push((None, left as u8))?;
    }
    Ok(entries)
}

/// PDOs that have this many bits together, with the indexes from 0 on.
fn pdos(alloc: Global, bits: u16) -> Result<Items<Pdo>, AllocError> {
    let mut pdos = Items::new(alloc);
    let mut left = bits;
    for index in 0..bits.div_ceil(PDO_BITS) {
        let own = left.min(PDO_BITS);
        left -= own;
        let entries = entries(alloc, own)?;
        pdos.push(Pdo { index, entries })?;
    }
    Ok(pdos)
}

/// The indexes of these PDOs.
fn indexes(alloc: Global, bits: u16) -> Result<Items<u16>, AllocError> {
    let mut indexes = Items::new(alloc);
    for index in 0..bits.div_ceil(PDO_BITS) {
        indexes.push(index)?;
    }
    Ok(indexes)
}

/// An area of task 0 with a direction and this many bits, all of its PDOs assigned.
fn area(alloc: Global, sm: u8, dir: Dir, bits: u16) -> Result<Area, AllocError> {
    let offered = pdos(alloc, bits)?;
    Ok(Area {
        sm,
        dir,
        phys: if sm == 0 { 0x1000 } else { 0x2000 },
        offered,
        assigned: indexes(alloc, bits)?,
        task: 0,
    })
}

/// A slave with at most two areas, each with its direction and its bits.
fn slave(alloc: Global, station: u16, widths: &[Width]) -> Result<Slave, AllocError> {
    let mut areas = Items::new(alloc);
    let mut sm = 0_u8;
    for width in widths {
        areas.push(area(alloc, sm, width.0, width.1)?)?;
        sm = sm.saturating_add(1);
    }
    Ok(Slave { station, areas })
}

/// The mandatory group of slaves with these areas and the stations from 1 on.
fn mandatory(alloc: Global, line: &[&[Width]]) -> Result<Items<Group>, AllocError> {
    let mut slaves = Items::new(alloc);
    let mut station = 1_u16;
    for widths in line {
        slaves.push(slave(alloc, station, widths)?)?;
        station = station.saturating_add(1);
    }
    let mut groups = Items::new(alloc);
    groups.push(Group { alias: 0, slaves })?;
    Ok(groups)
}

/// The plan of a line of mandatory slaves with these areas and the stations from 1 on.
fn plan_of_widths(alloc: Global, line: &[&[Width]]) -> Result<Plan, Refused> {
    match mandatory(alloc, line) {
        Ok(groups) => opened(alloc, Project::checked(alloc, groups)),
        Err(_) => Err(Refused::Opening(EditFault::Memory)),
    }
}

/// The areas of a slave with an output area of 700 bytes.
const SMALL: &[Width] = &[(Dir::Out, 8 * 700)];

/// The areas of a slave with an output area of 1,400 bytes.
const FULL: &[Width] = &[(Dir::Out, 8 * 1400)];

/// The slaves of a line, the datagrams of task 0, and its bytes of outputs and inputs. None if it has too many datagrams.
type Line = (
    &'static [&'static [Width]],
    Option<(&'static [Wanted], (u16, u16))>,
);

/// One bit more than a datagram holds begins another, and so does an area that no longer fits. Inputs are after all outputs,
/// and a slave counts in each datagram of its areas. A task has 16 datagrams, and no seventeenth.
const LINES: &[Line] = &[
    (
        &[&[(Dir::Out, 8 * 1485)], &[(Dir::Out, 8)], &[(Dir::Out, 1)]],
        Some((
            &[(0x0100_0000, 1486, 4, 0), (0x0100_0800, 1, 2, 1486)],
            (1487, 0),
        )),
    ),
    (
        &[SMALL, SMALL, SMALL, SMALL, SMALL, FULL, SMALL, SMALL],
        Some((
            &[
                (0x0100_0000, 1400, 4, 0),
                (0x0100_0800, 1400, 4, 1400),
                (0x0100_1000, 700, 2, 2800),
                (0x0100_1800, 1400, 2, 3500),
                (0x0100_2000, 1400, 4, 4900),
            ],
            (6300, 0),
        )),
    ),
    (
        &[&[(Dir::Out, 8000)], SMALL, SMALL],
        Some((
            &[(0x0100_0000, 1000, 2, 0), (0x0100_0800, 1400, 4, 1000)],
            (2400, 0),
        )),
    ),
    (
        &[
            &[(Dir::Out, 800), (Dir::In, 800)],
            &[(Dir::Out, 11_200), (Dir::In, 11_200)],
            FULL,
            FULL,
        ],
        Some((
            &[
                (0x0100_0000, 100, 2, 0),
                (0x0100_0800, 1400, 2, 100),
                (0x0100_1000, 1400, 2, 1500),
                (0x0100_1800, 1400, 2, 2900),
                (0x0100_2000, 100, 1, 4300),
                (0x0100_2800, 1400, 1, 4400),
            ],
            (4300, 1500),
        )),
    ),
    (
        &[FULL; 16],
        Some((
            &[
                (0x0100_0000, 1400, 2, 0),
                (0x0100_0800, 1400, 2, 1400),
                (0x0100_1000, 1400, 2, 2800),
                (0x0100_1800, 1400, 2, 4200),
                (0x0100_2000, 1400, 2, 5600),
                (0x0100_2800, 1400, 2, 7000),
                (0x0100_3000, 1400, 2, 8400),
                (0x0100_3800, 1400, 2, 9800),
                (0x0100_4000, 1400, 2, 11_200),
                (0x0100_4800, 1400, 2, 12_600),
                (0x0100_5000, 1400, 2, 14_000),
                (0x0100_5800, 1400, 2, 15_400),
                (0x0100_6000, 1400, 2, 16_800),
                (0x0100_6800, 1400, 2, 18_200),
                (0x0100_7000, 1400, 2, 19_600),
                (0x0100_7800, 1400, 2, 21_000),
            ],
            (22_400, 0),
        )),
    ),
    (&[FULL; 17], None),
];

/// True if a line has its datagrams, or is refused since task 0 needs too many.
fn is_packed(alloc: Global, line: &Line) -> Result<bool, Refused> {
    match (plan_of_widths(alloc, line.0), line.1) {
        (Ok(plan), Some(wanted)) => {
            Ok(has_datagrams(&plan, 0, wanted.0) && plan.places().part(0) == wanted.1)
        }
        (Err(Refused::Opening(EditFault::TooManyDatagrams(0))), None) => Ok(true),
        (Err(refused), _) => Err(refused),
        _ => Ok(false),
    }
}

/// The number of the first line with another result. None if there is none.
fn first_unpacked(alloc: Global) -> Result<Option<usize>, Refused> {
    let mut number = 0_usize;
    for line in LINES {
        if !is_packed(alloc, line)? {
            return Ok(Some(number));
        }
        number = number.saturating_add(1);
    }
    Ok(None)
}

/// Lines of given area widths have the datagrams and bytes that were worked out by hand, or are refused with too many.
#[test]
fn areas_fill_datagrams(rt: HostRuntime) -> Result<(), Fail> {
    assert_eq!(rt; first_unpacked(rt.alloc())?, None);
    Ok(())
}

/// The area of 1,400 bytes fills the fourth datagram.
#[test]
fn a_wide_area_fills_a_datagram(rt: HostRuntime) -> Result<(), Fail> {
    let plan = plan_of_widths(rt.alloc(), LINES[1].0)?;
    let sixth = [0, 0x18, 0, 1, 0x78, 0x05, 0, 7, 0, 0x10, 0, 2, 1, 0, 0, 0];
    assert!(rt; has_block(&plan, 6, 1, 0x0600, &sixth));
    Ok(())
}
