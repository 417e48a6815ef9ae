//! The output of `projectcheck` for a text with one wrong piece: the fault and its place.
use hc_program::checking::run_projectcheck;
use std::alloc::Global;
use std::test::Fail;

/// A line with every key of the format. A case changes one piece of it.
const LINE: &str = r#"[[slave]]
station = 1001
[[slave.area]]
sm = 2
dir = "out"
phys = 0x1100
task = 0
assigned = [0x1600]
[[slave.area.pdo]]
index = 0x1600
entries = [[1, 8]]
[[slave.area.pdo]]
index = 0x1601
entries = [[2, 8]]
[[slave.area]]
sm = 3
dir = "in"
phys = 0x1180
task = 1
assigned = []
[[slave.area.pdo]]
index = 0x1a00
entries = [[3, 12]]
[[group]]
alias = 100
[[group.slave]]
station = 2001
[[group]]
alias = 200
slave = [{ station = 2002 }]
"#;

/// Cases, one a line: a piece of the text, its replacement, the exit status, and the printed lines.
const CASES: &str = r#"station = 1001 -> station = 1001 => 0 ok
station = 1001 -> station = => 3 project fault 1 NotToml; at line 2 column 10
station = 1001 ->  => 3 project fault 2 MissingField; at slave[0].station
task = 1 -> task = "1" => 3 project fault 2 MissingField; at slave[0].area[1].task station 1001
assigned = [] ->  => 3 project fault 2 MissingField; at slave[0].area[1].assigned station 1001
[[3, 12]] -> [[3, 12, 0]] => 3 project fault 2 MissingField; at slave[0].area[1].pdo[0].entries[0] station 1001
alias = 200 ->  => 3 project fault 2 MissingField; at group[1].alias
station = 2001 -> station = 2001.5 => 3 project fault 2 MissingField; at group[0].slave[0].station alias 100
slave = [{ station = 2002 }] ->  => 3 project fault 2 MissingField; at group[1].slave alias 200
slave = [{ station = 2002 }] -> slave = [] => 3 project fault 3 OutOfRange; at group[1].slave alias 200
alias = 100 -> alias = 0 => 3 project fault 3 OutOfRange; at group[0].alias
station = 2001 -> station = 65536 => 3 project fault 3 OutOfRange; at group[0].slave[0].station alias 100
dir = "in" -> dir = "IN" => 3 project fault 3 OutOfRange; at slave[0].area[1].dir station 1001
phys = 0x1180 -> phys = 0x2fff => 3 project fault 3 OutOfRange; at slave[0].area[1].phys station 1001
[[2, 8]] -> [[2, 8], [4, 0]] => 3 project fault 3 OutOfRange; at slave[0].area[0].pdo[1].entries[1][1] station 1001
[[2, 8]] -> [[4294967296, 8]] => 3 project fault 3 OutOfRange; at slave[0].area[0].pdo[1].entries[0][0] station 1001
alias = 200 -> alias = 100 => 3 project fault 4 RepeatedAlias; at group[1].alias alias 100 first group[0].alias alias 100
station = 2002 -> station = 1001 => 3 project fault 5 RepeatedStation; at group[1].slave[0].station alias 200 station 1001 first slave[0].station station 1001
sm = 3 -> sm = 2 => 3 project fault 6 RepeatedSyncManager; at slave[0].area[1].sm station 1001 first slave[0].area[0].sm station 1001
phys = 0x1180 -> phys = 0x1101 => 3 project fault 7 OverlappingAreas; at slave[0].area[1] station 1001 first slave[0].area[0] station 1001
[[3, 12]] -> [[3, 4], [1, 8]] => 3 project fault 8 RepeatedVariable; at slave[0].area[1].pdo[0].entries[1][0] station 1001 first slave[0].area[0].pdo[0].entries[0][0] station 1001
[0x1600] -> [0x1601, 0x1602] => 3 project fault 9 UnknownPdo; at slave[0].area[0].assigned[1] station 1001
[0x1600] -> [0x1601, 0x1600, 0x1601] => 3 project fault 9 UnknownPdo; at slave[0].area[0].assigned[2] station 1001 first slave[0].area[0].assigned[0] station 1001
index = 0x1601 -> index = 0x1600 => 3 project fault 9 UnknownPdo; at slave[0].area[0].pdo[1].index station 1001 first slave[0].area[0].pdo[0].index station 1001"#;

/// The exit status and the output for the line with a change, on one line.
fn printed_line(alloc: Global, change: &str) -> Result<String, Fail> {
    let (from, to) = change.split_once(" -> ").ok_or("no change")?;
    let (front, back) = LINE.split_once(from).ok_or("no such piece")?;
    let text = format!(in alloc; "{front}{to}{back}")?;
    let mut input = text.as_bytes();
    let mut output = Vec::new(alloc);
    let status = run_projectcheck(alloc, &mut input, &mut output).status;
    let printed = std::str::from_utf8(&output)?;
    let lines = printed.trim_end().replace(alloc, "\n", "; ")?;
    Ok(format!(in alloc; "{status} {lines}")?)
}

/// The first case with another answer. None if there is none.
fn mistold<'a>(alloc: Global, cases: &'a str) -> Result<Option<&'a str>, Fail> {
    for case in cases.lines() {
        let (change, wanted) = case.split_once(" => ").ok_or("nothing wanted")?;
        if printed_line(alloc, change)?.as_str() != wanted {
            return Ok(Some(case));
        }
    }
    Ok(None)
}

/// Each fault of a project text is printed with its place and its exit status.
#[test]
fn each_fault_has_its_place(rt: HostRuntime) -> Result<(), Fail> {
    assert_eq!(rt; mistold(rt.alloc(), CASES)?, None);
    Ok(())
}
