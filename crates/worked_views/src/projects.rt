//! The projects of the lines that are opened in these tests, and in those of `worked_conductor`.
use hc_project::read_project;
use hc_records::project::Project;
use std::alloc::Global;

/// An axis that is always there, with 2 output bits and 12 input bits in task 0.
pub const AXIS: &str = r#"
[[slave]]
station = 1001

[[slave.area]]
sm = 2
dir = "out"
phys = 0x1100
task = 0
assigned = [0x1600]
pdo = [{ index = 0x1600, entries = [[1, 2]] }]

[[slave.area]]
sm = 3
dir = "in"
phys = 0x1180
task = 0
assigned = [0x1a00]
pdo = [{ index = 0x1a00, entries = [[2, 12]] }]
"#;

/// A feeder, alias 200, that can be docked, with 8 input bits in task 1.
pub const FEEDER: &str = r#"
[[group]]
alias = 200

[[group.slave]]
station = 1101

[[group.slave.area]]
sm = 3
dir = "in"
phys = 0x1180
task = 1
assigned = [0x1a00]
pdo = [{ index = 0x1a00, entries = [[3, 8]] }]
"#;

/// A terminal with 16 input bits in each of the eight tasks, and one with 16 output bits in each. A feeder, alias 200, can be
/// docked, with 8 output and 8 input bits in each of two tasks.
pub const EIGHT: &str = r#"
[[slave]]
station = 1001
area = [
    { sm = 0, dir = "in", phys = 0x1000, task = 0, assigned = [0x1a00], pdo = [{ index = 0x1a00, entries = [[1, 16]] }] },
    { sm = 1, dir = "in", phys = 0x1100, task = 1, assigned = [0x1a00], pdo = [{ index = 0x1a00, entries = [[2, 16]] }] },
    { sm = 2, dir = "in", phys = 0x1200, task = 2, assigned = [0x1a00], pdo = [{ index = 0x1a00, entries = [[3, 16]] }] },
    { sm = 3, dir = "in", phys = 0x1300, task = 3, assigned = [0x1a00], pdo = [{ index = 0x1a00, entries = [[4, 16]] }] },
    { sm = 4, dir = "in", phys = 0x1400, task = 4, assigned = [0x1a00], pdo = [{ index = 0x1a00, entries = [[5, 16]] }] },
    { sm = 5, dir = "in", phys = 0x1500, task = 5, assigned = [0x1a00], pdo = [{ index = 0x1a00, entries = [[6, 16]] }] },
    { sm = 6, dir = "in", phys = 0x1600, task = 6, assigned = [0x1a00], pdo = [{ index = 0x1a00, entries = [[7, 16]] }] },
    { sm = 7, dir = "in", phys = 0x1700, task = 7, assigned = [0x1a00], pdo = [{ index = 0x1a00, entries = [[8, 16]] }] },
]

[[slave]]
station = 1002
area = [
    { sm = 0, dir = "out", phys = 0x1000, task = 0, assigned = [0x1600], pdo = [{ index = 0x1600, entries = [[11, 16]] }] },
    { sm = 1, dir = "out", phys = 0x1100, task = 1, assigned = [0x1600], pdo = [{ index = 0x1600, entries = [[12, 16]] }] },
    { sm = 2, dir = "out", phys = 0x1200, task = 2, assigned = [0x1600], pdo = [{ index = 0x1600, entries = [[13, 16]] }] },
    { sm = 3, dir = "out", phys = 0x1300, task = 3, assigned = [0x1600], pdo = [{ index = 0x1600, entries = [[14, 16]] }] },
    { sm = 4, dir = "out", phys = 0x1400, task = 4, assigned = [0x1600], pdo = [{ index = 0x1600, entries = [[15, 16]] }] },
    { sm = 5, dir = "out", phys = 0x1500, task = 5, assigned = [0x1600], pdo = [{ index = 0x1600, entries = [[16, 16]] }] },
    { sm = 6, dir = "out", phys = 0x1600, task = 6, assigned = [0x1600], pdo = [{ index = 0x1600, entries = [[17, 16]] }] },
    { sm = 7, dir = "out", phys = 0x1700, task = 7, assigned = [0x1600], pdo = [{ index = 0x1600, entries = [[18, 16]] }] },
]

[[group]]
alias = 200

[[group.slave]]
station = 1101
area = [
    { sm = 0, dir = "out", phys = 0x1000, task = 1, assigned = [0x1600], pdo = [{ index = 0x1600, entries = [[21, 8]] }] },
    { sm = 1, dir = "out", phys = 0x1080, task = 6, assigned = [0x1600], pdo = [{ index = 0x1600, entries = [[22, 8]] }] },
    { sm = 2, dir = "in", phys = 0x1180, task = 1, assigned = [0x1a00], pdo = [{ index = 0x1a00, entries = [[31, 8]] }] },
    { sm = 3, dir = "in", phys = 0x1280, task = 6, assigned = [0x1a00], pdo = [{ index = 0x1a00, entries = [[32, 8]] }] },
]
"#;

/// The project that the texts spell, one after the other. None if they spell none, or an allocation failed.
pub fn project_of(alloc: Global, texts: &[&str]) -> Option<Project> {
    let mut whole = String::new(alloc);
    for text in texts {
        whole.push_str(text).ok()?;
    }
    read_project(alloc, whole.as_bytes()).ok()
}
