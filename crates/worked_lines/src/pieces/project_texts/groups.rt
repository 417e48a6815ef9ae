//! Texts of one group, as it is declared while a line runs.
use super::list_slaves;
use hc_project::read_group;
use hc_records::faults::ProjectFault;
use std::alloc::Global;
use std::test::Fail;

/// A tool of one slave with an output area.
const TOOL: &str = r#"[[group]]
alias = 200
[[group.slave]]
station = 2001
[[group.slave.area]]
sm = 2
dir = "out"
phys = 0x1000
task = 0
assigned = [5]
pdo = [{ index = 5, entries = [[3, 8]] }]
"#;

const TOOL_LISTING: &str = "group 200
  slave 2001
    area sm 2 out phys 0x1000 task 0 assigned 0x5
      pdo 0x5 entries 3:8
";

/// Texts that are not one group's, with the numbers of their faults.
const REFUSED: [(&str, u8); 9] = [
    ("", 12),
    ("group = []", 12),
    ("slave = [{ station = 1 }]", 12),
    (
        "slave = [{ station = 1 }]\ngroup = [{ alias = 200, slave = [{ station = 2001 }] }]",
        12,
    ),
    (
        "group = [{ alias = 200, slave = [{ station = 1 }] }, { alias = 201, slave = [{ station = 2 }] }]",
        12,
    ),
    ("group = [{ alias = 0, slave = [{ station = 1 }] }]", 3),
    (
        "group = [{ alias = 200, slave = [{ station = 1 }, { station = 1 }] }]",
        5,
    ),
    ("slave = [{ station = 1 }, { station = 1 }]", 5),
    ("group = [", 1),
];

/// Every field of the group of a text.
fn listing(alloc: Global, text: &str) -> Result<String, ProjectFault> {
    let group = read_group(alloc, text.as_bytes())?;
    let mut list = String::new(alloc);
    let alias = group.alias;
    writeln!(list, "group {alias}")?;
    list_slaves(&mut list, group.slaves.as_slice())?;
    Ok(list)
}

/// The number of the fault of a text, 0 for a group.
fn fault_number(alloc: Global, text: &str) -> u8 {
    match read_group(alloc, text.as_bytes()) {
        Ok(_) => 0,
        Err(fault) => fault.number(),
    }
}

/// The text of one group is read with every field.
#[test]
fn a_text_of_one_group(rt: HostRuntime) -> Result<(), Fail> {
    let list = listing(rt.alloc(), TOOL)?;
    assert!(rt; list.as_str() == TOOL_LISTING);
    Ok(())
}

/// A text that is not one group's is refused with its lowest fault.
#[test]
fn texts_of_no_single_group(rt: HostRuntime) {
    for (text, number) in &REFUSED {
        assert_eq!(rt; fault_number(rt.alloc(), *text), *number);
    }
}

/// The text of a group is read, or fails with `Memory` and with no other fault.
#[test]
fn group_or_memory(rt: HostRuntime) {
    match read_group(rt.alloc(), TOOL.as_bytes()) {
        Ok(group) => assert_eq!(rt; group.alias, 200),
        Err(fault) => assert_eq!(rt; fault, ProjectFault::Memory),
    }
}
