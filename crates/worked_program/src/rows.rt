//! Runs in rows, whose pieces may have marks that are written out.
use crate::printed::ends_as;
use std::alloc::{AllocError, Global};
use std::sync::Wait;
use std::test::Fail;
use std::thread::Threads;

/// A run: the pieces of its input, its status, and the pieces of its text. A piece may have marks, which are written out.
/// `<entries N>`, `<pdos N>` and `<slaves A B T N>` have N bits, `<groups A B>` have a slave each, and `<zeros N>` are N bytes
/// 0. `<sends A B>` and `<sent A B>` are sendings of the task of `ONE_SLAVE`, and their output.
pub type Run = (&'static [&'static str], u8, &'static [&'static str]);

/// Adds gaps of this many bits together, at most 4,096.
fn push_entries(text: &mut String, bits: u32) -> Result<(), AllocError> {
    let mut left = bits;
    for _ in 0..64 {
        let width = left.min(64);
        if width == 0 {
            return Ok(());
        }
        write!(text, "[0, {width}], ")?;
        left -= width;
    }
    Ok(())
}

/// Adds the PDOs 1 to 3, with this many bits together.
fn push_pdos(text: &mut String, bits: u32) -> Result<(), AllocError> {
    let mut left = bits;
    for index in 1..4 {
        let width = left.min(4096);
        write!(text, "{{ index = {index}, entries = [")?;
        push_entries(text, width)?;
        text.push_str("] }, ")?;
        left -= width;
    }
    Ok(())
}

/// Adds mandatory slaves with stations from one to another, each with an output area of a task with this many bits.
fn push_slaves(
    text: &mut String,
    from: u32,
    to: u32,
    task: u32,
    bits: u32,
) -> Result<(), AllocError> {
    for station in from..=to {
        write!(text, "[[slave]]\nstation = {station}\n[[slave.area]]\n")?;
        write!(text, "sm = 0\ndir = 'out'\nphys = 0x1000\ntask = {task}\n")?;
        text.push_str("assigned = [1, 2, 3]\npdo = [")?;
        push_pdos(text, bits)?;
        text.push_str("]\n")?;
    }
    Ok(())
}

/// Adds groups with aliases from one to another, each with a slave without areas at the station address of its alias.
fn push_groups(text: &mut String, from: u32, to: u32) -> Result<(), AllocError> {
    for alias in from..=to {
        write!(
            text,
            "[[group]]\nalias = {alias}\n[[group.slave]]\nstation = {alias}\n"
        )?;
    }
    Ok(())
}

/// Adds this many bytes 0, as a frame's bytes are printed.
fn push_zeros(text: &mut String, count: u32) -> Result<(), AllocError> {
    for _ in 0..count {
        text.push_str("00")?;
    }
    Ok(())
}

/// Adds the output of sendings with serials from one to another.
fn push_sent(text: &mut String, from: u32, to: u32) -> Result<(), AllocError> {
    for serial in from..=to {
        let index = serial % 256;
        write!(text, "sent {serial}: ffffffffffff02{serial:010x}88a40f10")?;
        write!(text, "0c{index:02x}0000000103000000")?;
        push_zeros(text, 34)?;
        text.push_str("\n")?;
    }
    Ok(())
}

/// Adds the text of a mark.
fn push_mark(text: &mut String, mark: &str) -> Result<(), Fail> {
    let mut numbers = [0; 4];
    let mut words = mark.split(' ');
    let name = words.next();
    for (number, word) in numbers.iter_mut().zip(words) {
        *number = word.parse::<u32>()?;
    }
    let [first, second, third, fourth] = numbers;
    match name {
        Some("entries") => push_entries(text, first)?,
        Some("pdos") => push_pdos(text, first)?,
        Some("slaves") => push_slaves(text, first, second, third, fourth)?,
        Some("groups") => push_groups(text, first, second)?,
        Some("zeros") => push_zeros(text, first)?,
        Some("sent") => push_sent(text, first, second)?,
        _ => {
            for _ in first..=second {
                text.push_str("send 0\n")?;
            }
        }
    }
    Ok(())
}

/// Adds a piece, its marks written out.
fn push_piece(text: &mut String, piece: &str) -> Result<(), Fail> {
    for part in piece.split('<') {
        match part.split_once('>') {
            Some((mark, rest)) => {
                push_mark(text, mark)?;
                text.push_str(rest)?;
            }
            None => text.push_str(part)?,
        }
    }
    Ok(())
}

/// The pieces one after another.
pub fn written(alloc: Global, pieces: &[&str]) -> Result<String, Fail> {
    let mut text = String::new(alloc);
    for piece in pieces {
        push_piece(&mut text, *piece)?;
    }
    Ok(text)
}

/// True if a run ends with its status and its text.
fn is_run<R: Threads + Wait + Sync>(rt: &R, alloc: Global, run: &Run) -> Result<bool, Fail> {
    let input = written(alloc, run.0)?;
    let text = written(alloc, run.2)?;
    Ok(ends_as(rt, alloc, input.as_bytes(), run.1, text.as_str())?)
}

/// The number of the first run that ends otherwise. None if there is none.
pub fn first_wrong<R: Threads + Wait + Sync>(
    rt: &R,
    alloc: Global,
    runs: &[Run],
) -> Result<Option<usize>, Fail> {
    let mut number = 0_usize;
    for run in runs {
        if !is_run(rt, alloc, run)? {
            return Ok(Some(number));
        }
        number = number.saturating_add(1);
    }
    Ok(None)
}
