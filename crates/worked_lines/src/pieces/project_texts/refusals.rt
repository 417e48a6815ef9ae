//! Texts that are refused, each with the lowest fault that it has by the format's own page.
use super::fault_number;
use std::alloc::Global;
use std::test::Fail;

/// A line with every key of the format. A case changes one piece of it, or two.
const LINE: &str = r#"
[[slave]]
station = 1001
[[slave.area]]
sm = 2
dir = "out"
phys = 0x1100
task = 0
assigned = [0x1600]
[[slave.area.pdo]]
index = 0x1600
entries = [[1, 8]]
[[slave.area.pdo]]
index = 0x1601
entries = [[2, 8]]
[[slave.area]]
sm = 3
dir = "in"
phys = 0x1180
task = 1
assigned = []
[[slave.area.pdo]]
index = 0x1a00
entries = [[3, 12]]
[[group]]
alias = 100
[[group.slave]]
station = 2001
[[group]]
alias = 200
slave = [{ station = 2002 }]
"#;

/// Cases, one a line: a piece of the text, its replacement, perhaps a second such change, and the number of the fault, 0 for
/// none.
const RANGES: &str = r#"station = 1001 -> station = 1001 => 0
alias = 100 -> alias = -1 => 3
alias = 100 -> alias = 0 => 3
alias = 100 -> alias = 1 => 0
alias = 100 -> alias = 65535 => 0
alias = 100 -> alias = 65536 => 3
station = 1001 -> station = -1 => 3
station = 1001 -> station = 0 => 3
station = 1001 -> station = 1 => 0
station = 2001 -> station = 65535 => 0
station = 2001 -> station = 65536 => 3
station = 2001 -> station = 0 => 3
slave = [{ station = 2002 }] -> slave = [] => 3
sm = 2 -> sm = -1 => 3
sm = 2 -> sm = 0 => 0
sm = 2 -> sm = 15 => 0
sm = 2 -> sm = 16 => 3
sm = 2 -> sm = 256 => 3
sm = 2 -> sm = 9223372036854775807 => 3
dir = "out" -> dir = "in" => 0
dir = "in" -> dir = "out" => 0
dir = "in" -> dir = "" => 3
dir = "in" -> dir = "In" => 3
dir = "out" -> dir = "OUT" => 3
dir = "out" -> dir = "outs" => 3
phys = 0x1100 -> phys = -4096 => 3
phys = 0x1100 -> phys = 0x0fff => 3
phys = 0x1100 -> phys = 0x1000 => 0
phys = 0x1100 -> phys = 0x2ffe => 0
phys = 0x1100 -> phys = 0x2fff => 3
phys = 0x1100 -> phys = 0x3000 => 3
phys = 0x1100 -> phys = 0x11000 => 3
entries = [[3, 12]] -> entries = [] & phys = 0x1180 -> phys = 0x2fff => 0
entries = [[3, 12]] -> entries = [] & phys = 0x1180 -> phys = 0x3000 => 3
task = 0 -> task = -1 => 3
task = 0 -> task = 7 => 0
task = 0 -> task = 8 => 3
task = 0 -> task = 256 => 3
assigned = [] -> assigned = [-1] => 3
assigned = [] -> assigned = [0] => 9
assigned = [] -> assigned = [65535] => 9
assigned = [] -> assigned = [65536] => 3
index = 0x1601 -> index = -1 => 3
index = 0x1601 -> index = 0 => 0
index = 0x1601 -> index = 65535 => 0
index = 0x1601 -> index = 65536 => 3
[[2, 8]] -> [[-1, 8]] => 3
[[2, 8]] -> [[0, 8]] => 0
[[2, 8]] -> [[4294967295, 8]] => 0
[[2, 8]] -> [[4294967296, 8]] => 3
[[2, 8]] -> [[2, -8]] => 3
[[2, 8]] -> [[2, 0]] => 3
[[2, 8]] -> [[2, 1]] => 0
[[2, 8]] -> [[2, 64]] => 0
[[2, 8]] -> [[2, 65]] => 3
[[2, 8]] -> [[2, 256]] => 3
[[2, 8]] -> [] => 0
[[2, 8]] -> [[2, 8], [0, 8], [0, 8]] => 0"#;

/// Keys that are absent, and values of another kind.
const KINDS: &str = r#"alias = 100 ->  => 2
alias = 100 -> alias = "100" => 2
alias = 100 -> alias = 100.0 => 2
alias = 100 -> alias = [100] => 2
station = 1001 ->  => 2
station = 2001 ->  => 2
station = 2001 -> Station = 2001 => 2
station = 2001 -> station = true => 2
slave = [{ station = 2002 }] ->  => 2
slave = [{ station = 2002 }] -> slave = 2002 => 2
slave = [{ station = 2002 }] -> slave = { station = 2002 } => 2
slave = [{ station = 2002 }] -> slave = [2002] => 2
slave = [{ station = 2002 }] -> slave = [[]] => 2
slave = [{ station = 2002 }] -> slave = [{}] => 2
slave = [{ station = 2002 }] -> slave = [{ station = 2002, area = {} }] => 2
slave = [{ station = 2002 }] -> slave = [{ station = 2002, area = "" }] => 2
slave = [{ station = 2002 }] -> slave = [{ station = 2002, area = [[]] }] => 2
slave = [{ station = 2002 }] -> slave = [{ station = 2002, area = [] }] => 0
slave = [{ station = 2002 }] -> slave = [{ station = 2002, area = [{ sm = 0, dir = "in", phys = 0x1000, task = 0, assigned = [] }] }] => 0
slave = [{ station = 2002 }] -> slave = [{ station = 2002, area = [{ sm = 0, dir = "in", phys = 0x1000, task = 0, assigned = [], pdo = [] }] }] => 0
slave = [{ station = 2002 }] -> slave = [{ station = 2002, area = [{ sm = 0, dir = "in", phys = 0x1000, task = 0, assigned = [], pdo = 1 }] }] => 2
slave = [{ station = 2002 }] -> slave = [{ station = 2002, area = [{ sm = 0, dir = "in", phys = 0x1000, task = 0, assigned = [], pdo = {} }] }] => 2
slave = [{ station = 2002 }] -> slave = [{ station = 2002, area = [{ sm = 0, dir = "in", phys = 0x1000, task = 0, assigned = [], pdo = [1] }] }] => 2
slave = [{ station = 2002 }] -> slave = [{ station = 2002, area = [{ sm = 0, dir = "in", phys = 0x1000, task = 0, assigned = [], pdo = [{}] }] }] => 2
sm = 2 ->  => 2
sm = 2 -> sm = "2" => 2
sm = 2 -> sm = 2.0 => 2
dir = "in" ->  => 2
dir = "in" -> dir = 1 => 2
dir = "in" -> dir = ["in"] => 2
phys = 0x1180 ->  => 2
phys = 0x1180 -> phys = "0x1180" => 2
phys = 0x1180 -> phys = 1979-05-27 => 2
task = 1 ->  => 2
task = 1 -> task = false => 2
assigned = [] ->  => 2
assigned = [] -> assigned = 0x1a00 => 2
assigned = [] -> assigned = {} => 2
assigned = [] -> assigned = ["0x1a00"] => 2
assigned = [] -> assigned = [[0x1a00]] => 2
index = 0x1a00 ->  => 2
index = 0x1a00 -> index = "0x1a00" => 2
index = 0x1a00 -> index = inf => 2
entries = [[3, 12]] ->  => 2
entries = [[3, 12]] -> entries = 12 => 2
entries = [[3, 12]] -> entries = [3, 12] => 2
entries = [[3, 12]] -> entries = [[3]] => 2
entries = [[3, 12]] -> entries = [[]] => 2
entries = [[3, 12]] -> entries = [[3, 12, 0]] => 2
entries = [[3, 12]] -> entries = [[3, 12.0]] => 2
entries = [[3, 12]] -> entries = [["3", 12]] => 2
entries = [[3, 12]] -> entries = [{ variable = 3, bits = 12 }] => 2"#;

/// Names that are twice, areas that overlap, PDOs that are not offered.
const CONDITIONS: &str = r#"alias = 200 -> alias = 100 => 4
station = 2001 -> station = 1001 => 5
station = 2001 -> station = 2002 => 5
sm = 3 -> sm = 2 => 6
phys = 0x1180 -> phys = 0x1100 => 7
phys = 0x1180 -> phys = 0x1101 => 7
phys = 0x1180 -> phys = 0x1102 => 0
phys = 0x1180 -> phys = 0x10ff => 7
phys = 0x1180 -> phys = 0x10fe => 0
entries = [[3, 12]] -> entries = [] & phys = 0x1180 -> phys = 0x1100 => 0
[[3, 12]] -> [[1, 12]] => 8
[[3, 12]] -> [[2, 12]] => 8
[[1, 8]] -> [[1, 4], [1, 4]] => 8
[[1, 8]] -> [[0, 4], [0, 4]] => 0
assigned = [0x1600] -> assigned = [] => 0
assigned = [0x1600] -> assigned = [0x1601, 0x1600] => 0
assigned = [0x1600] -> assigned = [0x1600, 0x1600] => 9
assigned = [0x1600] -> assigned = [0x1600, 0x1602] => 9
assigned = [] -> assigned = [0x1600] => 9
index = 0x1601 -> index = 0x1600 => 9"#;

/// Two faults at once: the lower one is reported.
const PAIRS: &str = r#"station = 1001 -> station = = & alias = 100 -> alias = "x" => 1
sm = 2 -> sm = 16 & alias = 100 -> alias = "x" => 2
sm = 2 -> sm = 256 & dir = "in" -> dir = 1 => 2
dir = "in" -> dir = "up" & index = 0x1a00 ->  => 2
[[2, 8]] -> [[2, 65], [2]] & station = 1001 -> station = 0 => 2
alias = 200 -> alias = 100 & station = 1001 ->  => 2
alias = 200 -> alias = 100 & task = 0 -> task = 8 => 3
alias = 200 -> alias = 100 & task = 0 -> task = 300 => 3
alias = 200 -> alias = 100 & station = 2001 -> station = 1001 => 4
station = 2001 -> station = 1001 & sm = 3 -> sm = 2 => 5
sm = 3 -> sm = 2 & phys = 0x1180 -> phys = 0x1100 => 6
phys = 0x1180 -> phys = 0x1100 & [[3, 12]] -> [[1, 12]] => 7
[[3, 12]] -> [[1, 12]] & assigned = [] -> assigned = [7] => 8
[[3, 12]] -> [[1, 12]] & alias = 200 -> alias = 100 => 4
assigned = [] -> assigned = [7] & dir = "out" -> dir = "OUT" => 3"#;

/// Whole texts, a line each, and the fault's number.
const TEXTS: &str = r#"slave => 1
slave = => 1
slave = [ => 1
slave = 99999999999999999999 => 1
other = 99999999999999999999 => 1
slave = 1 => 2
slave = "" => 2
slave = {} => 2
slave = [1] => 2
slave = [[]] => 2
slave = [{}] => 2
slave = [{ station = 1 }] => 0
slave = [{ station = 1 }, 1] => 2
slave = [{ station = 0 }, 1] => 2
slave = [{ station = 0 }, {}] => 2
slave = [{ station = 0 }, { station = 1 }] => 3
slave = [{ station = 1, station = 2 }] => 1
[slave] => 2
group = 1 => 2
group = {} => 2
group = [1] => 2
group = [{}] => 2
group = [{ alias = 1 }] => 2
group = [{ alias = 1, slave = [] }] => 3
group = [{ alias = 0, slave = [{ station = 1 }] }] => 3
group = [{ alias = 1, slave = [{ station = 1 }] }] => 0
[group] => 2"#;

/// The text with the first such piece changed.
fn changed(alloc: Global, text: &str, from: &str, to: &str) -> Result<String, Fail> {
    let (front, back) = text.split_once(from).ok_or("no such piece")?;
    Ok(format!(in alloc; "{front}{to}{back}")?)
}

/// The line with the changes of a case.
fn line_of(alloc: Global, changes: &str) -> Result<String, Fail> {
    let mut text = String::from_str(alloc, LINE)?;
    for change in changes.split(" & ") {
        let (from, to) = change.split_once(" -> ").ok_or("no change")?;
        text = changed(alloc, text.as_str(), from, to)?;
    }
    Ok(text)
}

/// The text before the number of a case, and that number.
fn parts(case: &str) -> Result<(&str, u8), Fail> {
    let (front, number) = case.rsplit_once(" => ").ok_or("no number")?;
    Ok((front, number.parse::<u8>()?))
}

/// The first case whose changed line has another fault. None if there is none.
fn misjudged<'a>(alloc: Global, cases: &'a str) -> Result<Option<&'a str>, Fail> {
    for case in cases.lines() {
        let (changes, wanted) = parts(case)?;
        let text = line_of(alloc, changes)?;
        if fault_number(alloc, text.as_str()) != wanted {
            return Ok(Some(case));
        }
    }
    Ok(None)
}

/// A good project text with one or two changes has the lowest of the faults that they bring, or none.
#[test]
fn one_change_or_two(rt: HostRuntime) -> Result<(), Fail> {
    assert_eq!(rt; misjudged(rt.alloc(), RANGES)?, None);
    assert_eq!(rt; misjudged(rt.alloc(), KINDS)?, None);
    assert_eq!(rt; misjudged(rt.alloc(), CONDITIONS)?, None);
    assert_eq!(rt; misjudged(rt.alloc(), PAIRS)?, None);
    Ok(())
}

/// The first case whose text has another fault. None if there is none.
fn misread<'a>(alloc: Global, cases: &'a str) -> Result<Option<&'a str>, Fail> {
    for case in cases.lines() {
        let (text, wanted) = parts(case)?;
        if fault_number(alloc, text) != wanted {
            return Ok(Some(case));
        }
    }
    Ok(None)
}

/// Whole project texts have the fault that the format's page gives them.
#[test]
fn whole_texts(rt: HostRuntime) -> Result<(), Fail> {
    assert_eq!(rt; misread(rt.alloc(), TEXTS)?, None);
    Ok(())
}
