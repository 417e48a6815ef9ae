//! Lists on both sides of their limits, the widest area, and bytes that are no text.
use super::fault_number;
use hc_project::read_project;
use hc_records::faults::ProjectFault;
use std::alloc::{AllocError, Global};
use std::test::Fail;

/// A piece of text, repeated `times` times.
fn repeated(alloc: Global, piece: &str, times: u32) -> Result<String, AllocError> {
    let mut text = String::new(alloc);
    for _ in 0..times {
        text.push_str(piece)?;
    }
    Ok(text)
}

/// The items of an array, each with one number of a range between two pieces of text.
fn numbered(
    alloc: Global,
    front: &str,
    first: u32,
    last: u32,
    back: &str,
) -> Result<String, AllocError> {
    let mut text = String::new(alloc);
    for number in first..=last {
        write!(text, "{front}{number}{back}, ")?;
    }
    Ok(text)
}

/// A slave with one area at an address, its assigned indexes and its offered PDOs.
fn one_area(alloc: Global, phys: u32, assigned: &str, offered: &str) -> Result<String, AllocError> {
    format!(in alloc;
        "[[slave]]\nstation = 1\n[[slave.area]]\nsm = 0\ndir = 'in'\nphys = {phys}\ntask = 0\nassigned = [{assigned}]\npdo = [{offered}]\n"
    )
}

/// The PDO with index 1 and its entries.
fn entries(alloc: Global, count: u32) -> Result<String, AllocError> {
    let list = repeated(alloc, "[0, 1], ", count)?;
    let pdo = format!(in alloc; "{{ index = 1, entries = [{list}] }}")?;
    one_area(alloc, 4096, "", pdo.as_str())
}

/// A project text whose one area offers `count` empty PDOs.
fn offered(alloc: Global, count: u32) -> Result<String, AllocError> {
    let pdos = numbered(alloc, "{ index = ", 1, count, ", entries = [] }")?;
    one_area(alloc, 4096, "", pdos.as_str())
}

/// A project text whose one area is assigned `count` PDOs, and offers 32.
fn assigned(alloc: Global, count: u32) -> Result<String, AllocError> {
    let pdos = numbered(alloc, "{ index = ", 1, 32, ", entries = [] }")?;
    let indexes = numbered(alloc, "", 1, count, "")?;
    one_area(alloc, 4096, indexes.as_str(), pdos.as_str())
}

/// A project text whose one slave has `count` areas.
fn areas(alloc: Global, count: u32) -> Result<String, AllocError> {
    let back = ", dir = 'in', phys = 4096, task = 0, assigned = [] }";
    let list = numbered(alloc, "{ sm = ", 1, count, back)?;
    format!(in alloc; "slave = [{{ station = 1, area = [{list}] }}]")
}

/// A project text with `count` slaves.
fn slaves(alloc: Global, count: u32) -> Result<String, AllocError> {
    let list = numbered(alloc, "{ station = ", 1, count, " }")?;
    format!(in alloc; "slave = [{list}]")
}

/// A mandatory slave, and all others in one group.
fn grouped_slaves(alloc: Global, count: u32) -> Result<String, AllocError> {
    let list = numbered(alloc, "{ station = ", 2, count, " }")?;
    format!(in alloc; "slave = [{{ station = 1 }}]\ngroup = [{{ alias = 1, slave = [{list}] }}]")
}

/// Groups of one slave, whose station is its group's alias, so that a text names each number once.
fn groups(alloc: Global, count: u32) -> Result<String, AllocError> {
    let mut text = String::new(alloc);
    for alias in 1..=count {
        write!(text, "[[group]]\nalias = {alias}\nslave = [{{ station = ")?;
        write!(text, "{alias} }}]\n")?;
    }
    Ok(text)
}

/// Adds a PDO of `gaps` gaps of 64 bits, and one gap more of the last bits.
fn add_pdo(list: &mut String, index: u32, gaps: u32, last: u32) -> Result<(), AllocError> {
    write!(list, "{{ index = {index}, entries = [")?;
    for _ in 0..gaps {
        list.push_str("[0, 64], ")?;
    }
    write!(list, "[0, {last}]] }}, ")
}

/// An area at an address, whose three assigned PDOs have 11,840 bits and `more` bits.
fn wide_area(alloc: Global, phys: u32, more: u32) -> Result<String, AllocError> {
    let mut offered = String::new(alloc);
    add_pdo(&mut offered, 1, 63, 64)?;
    add_pdo(&mut offered, 2, 63, 64)?;
    add_pdo(&mut offered, 3, 57, more)?;
    one_area(alloc, phys, "1, 2, 3", offered.as_str())
}

/// A list of the format that has a limit.
#[derive(Clone, Copy)]
enum List {
    Entries,
    Offered,
    Assigned,
    Areas,
    Slaves,
    GroupedSlaves,
    Groups,
}

/// A text with `count` items in a list.
fn text_of(alloc: Global, list: List, count: u32) -> Result<String, AllocError> {
    match list {
        List::Entries => entries(alloc, count),
        List::Offered => offered(alloc, count),
        List::Assigned => assigned(alloc, count),
        List::Areas => areas(alloc, count),
        List::Slaves => slaves(alloc, count),
        List::GroupedSlaves => grouped_slaves(alloc, count),
        List::Groups => groups(alloc, count),
    }
}

/// A list, its items, and the number of the text's fault.
const LISTS: [(List, u32, u8); 14] = [
    (List::Entries, 64, 0),
    (List::Entries, 65, 3),
    (List::Offered, 32, 0),
    (List::Offered, 33, 3),
    (List::Assigned, 32, 0),
    (List::Assigned, 33, 3),
    (List::Areas, 8, 0),
    (List::Areas, 9, 3),
    (List::Slaves, 2048, 0),
    (List::Slaves, 2049, 3),
    (List::GroupedSlaves, 2048, 0),
    (List::GroupedSlaves, 2049, 3),
    (List::Groups, 511, 0),
    (List::Groups, 512, 3),
];

/// Each list is accepted up to its limit, and refused with one item more.
#[test]
fn lists_on_both_sides(rt: HostRuntime) -> Result<(), Fail> {
    for (list, count, fault) in &LISTS {
        let text = text_of(rt.alloc(), *list, *count)?;
        assert_eq!(rt;
            (*count, fault_number(rt.alloc(), text.as_str())),
            (*count, *fault)
        );
    }
    Ok(())
}

/// The first byte of an area of 11,840 bits, how many bits it has more, and the number of the text's
/// fault.
const WIDE_AREAS: [(u32, u32, u8); 6] = [
    (4096, 48, 0),
    (4096, 49, 10),
    (10802, 48, 0),
    (10802, 49, 10),
    (10803, 48, 3),
    (10803, 49, 3),
];

/// An area of 11,888 bits is accepted, also at the end of the slave's memory. It is refused with a bit more, or if it begins a
/// byte later there.
#[test]
fn widest_area(rt: HostRuntime) -> Result<(), Fail> {
    for (phys, more, fault) in &WIDE_AREAS {
        let text = wide_area(rt.alloc(), *phys, *more)?;
        assert_eq!(rt;
            (*phys, *more, fault_number(rt.alloc(), text.as_str())),
            (*phys, *more, *fault)
        );
    }
    Ok(())
}

/// Bytes that are not UTF-8, or hold a control character.
const NO_TEXTS: [&[u8]; 3] = [b"\xff", b"slave = []\n# \xc3", b"\x00"];

/// Bytes that are no UTF-8, or hold a control character, are refused with `NotToml`.
#[test]
fn bytes_that_are_no_text(rt: HostRuntime) -> Result<(), Fail> {
    for bytes in &NO_TEXTS {
        let fault = read_project(rt.alloc(), *bytes).err();
        assert_eq!(rt; fault, Some(ProjectFault::NotToml));
    }
    Ok(())
}
