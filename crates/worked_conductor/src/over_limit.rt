//! A project whose opening line needs too many datagrams is not opened.
use hc_conductor::open;
use hc_publish::faults::OpenFault;
use hc_records::project::Project;
use std::alloc::{AllocError, Global};
use std::sync::Wait;
use std::test::Fail;
use worked_views::projects::project_of;

/// Adds a PDO with this many entries of 64 bits.
fn push_pdo(text: &mut String, index: u32, entries: u32) -> Result<(), AllocError> {
    text.push_str("{ index = ")?;
    write!(text, "{index}, entries = [")?;
    for _ in 0..entries {
        text.push_str("[0, 64], ")?;
    }
    text.push_str("] }, ")
}

/// Adds `slaves` slaves, the first with the station address `first`, each with outputs of 1,400 bytes in a task. No datagram
/// has room for two of them.
fn push_slaves(text: &mut String, first: u32, slaves: u32, task: u32) -> Result<(), AllocError> {
    for number in 0..slaves {
        let station = first.saturating_add(number);
        write!(text, "[[slave]]\nstation = {station}\n")?;
        text.push_str("area = [{ sm = 0, dir = \"out\", phys = 0x1000, assigned = [1, 2, 3], ")?;
        write!(text, "task = {task}, pdo = [")?;
        push_pdo(text, 1, 64)?;
        push_pdo(text, 2, 64)?;
        push_pdo(text, 3, 47)?;
        text.push_str("] }]\n")?;
    }
    Ok(())
}

/// A line with `slaves` such slaves in task 5, as many in task 7, and sixteen in task 2.
pub fn line_over_limit(alloc: Global, slaves: u32) -> Result<Project, AllocError> {
    let mut text = String::new(alloc);
    push_slaves(&mut text, 1000, slaves, 7)?;
    push_slaves(&mut text, 2000, slaves, 5)?;
    push_slaves(&mut text, 3000, 16, 2)?;
    project_of(alloc, &[&text]).ok_or(AllocError)
}

/// The fault by which the line is refused. None if it is opened.
fn refusal<R: Wait>(rt: &R, alloc: Global, slaves: u32) -> Result<Option<OpenFault>, AllocError> {
    match open(rt, alloc, line_over_limit(alloc, slaves)?) {
        Ok((conductor, _)) => {
            conductor.finish(rt);
            Ok(None)
        }
        Err(fault) => Ok(Some(fault)),
    }
}

/// A task has at most sixteen datagrams. If two tasks need one more, the lower one is reported.
#[test]
fn a_over_limit_project_names_its_lowest_task(rt: HostRuntime) -> Result<(), Fail> {
    let alloc = rt.alloc();
    let found = (refusal(&rt, alloc, 16)?, refusal(&rt, alloc, 17)?);
    assert_eq!(rt; found, (None, Some(OpenFault::TooManyDatagrams(5))));
    Ok(())
}
