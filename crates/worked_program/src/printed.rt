//! Runs over memory, what they print and how they end; and the first run.
use hc_program::engine::{RunEnd, run_hotline};
use std::alloc::{AllocError, Global};
use std::sync::Wait;
use std::thread::Threads;

/// One mandatory slave with an output and an input area.
pub const ONE_SLAVE: &str = r#"[[slave]]
station = 1001
[[slave.area]]
sm = 2
dir = "out"
phys = 0x1100
task = 0
assigned = [0x1600]
[[slave.area.pdo]]
index = 0x1600
entries = [[1, 2]]
[[slave.area]]
sm = 3
dir = "in"
phys = 0x1180
task = 0
assigned = [0x1a00]
[[slave.area.pdo]]
index = 0x1a00
entries = [[2, 12]]
"#;

/// A slave with an output and an input area in a group, and no mandatory one.
pub const ONE_IN_GROUP: &str = r#"[[group]]
alias = 100
[[group.slave]]
station = 1001
[[group.slave.area]]
sm = 2
dir = "out"
phys = 0x1100
task = 0
assigned = [0x1600]
pdo = [{ index = 0x1600, entries = [[1, 2]] }]
[[group.slave.area]]
sm = 3
dir = "in"
phys = 0x1180
task = 0
assigned = [0x1a00]
pdo = [{ index = 0x1a00, entries = [[2, 12]] }]
"#;

/// The commands of the first run.
pub const FIRST_COMMANDS: &str = "%%\nlayout\nregs 1001\nshow 0 0\n";

/// The output of the first run.
pub const FIRST_TEXT: &str = "epoch 0
task 0 parts 1 2
datagram 0 address 0x01000000 length 3 expected 3
sm 2 at 0x0810: 00 11 01 00 64 00 01 00
fmmu 0 at 0x0600: 00 00 00 01 01 00 00 01 00 11 00 02 01 00 00 00
sm 3 at 0x0818: 80 11 02 00 20 00 01 00
fmmu 1 at 0x0610: 01 00 00 01 02 00 00 03 80 11 00 01 01 00 00 00
frame 0: ffffffffffff02000000000088a40f100c00000000010300000000000000000000000000000000000000000000000000000000000000000000000000
";

/// The most bytes that a run may print without another allocation for the list that takes them.
pub const ROOM: usize = 16_384;

/// The output of a run, and its end.
#[derive(Drop)]
pub struct Printed {
    pub end: RunEnd,
    pub text: Vec<u8>,
}

impl Printed {
    /// True if the run ended unstarved, with this status and text.
    pub fn is(&self, status: u8, text: &str) -> bool {
        !self.end.starved && self.end.status == status && self.text.as_slice() == text.as_bytes()
    }

    /// True if the run printed that an allocation failed, or ended while the input was read.
    fn says_memory(&self) -> bool {
        match self.end.status {
            3 => {
                self.text.as_slice() == b"project fault 11 Memory\n".as_slice()
                    || self.text.as_slice() == b"open fault 2 Memory\n".as_slice()
            }
            4 => self.text.is_empty(),
            _ => self.text.ends_with(b"Memory\n") || has_memory_line(&self.text),
        }
    }
}

/// True if a text has the line of a command whose allocation failed.
fn has_memory_line(text: &[u8]) -> bool {
    text.windows(18)
        .any(|part| part == b"refused 28 Memory\n".as_slice())
        || text
            .windows(21)
            .any(|part| part == b"chain fault 1 Memory\n".as_slice())
}

/// Runs an input over memory.
fn run<R: Threads + Wait + Sync>(
    rt: &R,
    alloc: Global,
    input: &[u8],
) -> Result<Printed, AllocError> {
    let mut reader: &[u8] = input;
    let mut text = Vec::with_capacity(alloc, ROOM)?;
    let end = run_hotline(rt, alloc, &mut reader, &mut text);
    Ok(Printed { end, text })
}

/// True if an input ends with this status and text. Fails if an allocation failed and the run printed so. False if the run did
/// not print so.
pub fn ends_as<R: Threads + Wait + Sync>(
    rt: &R,
    alloc: Global,
    input: &[u8],
    status: u8,
    text: &str,
) -> Result<bool, AllocError> {
    let run = run(rt, alloc, input)?;
    if run.end.starved && run.says_memory() {
        return Err(AllocError);
    }
    Ok(run.is(status, text))
}

/// A project text and commands after it.
pub fn joined(alloc: Global, project: &str, commands: &str) -> Result<String, AllocError> {
    let mut input = String::new(alloc);
    input.push_str(project)?;
    input.push_str(commands)?;
    Ok(input)
}
