//! A project whose opening line needs too many datagrams is not opened.
use crate::over_limit::line_over_limit;
use hc_conductor::one_thread::open;
use hc_publish::faults::OpenFault;
use std::alloc::{AllocError, Global};
use std::sync::Wait;
use std::test::Fail;

/// The fault by which the line is refused. None if it is opened.
fn refusal<R: Wait>(rt: &R, alloc: Global, slaves: u32) -> Result<Option<OpenFault>, AllocError> {
    match open(rt, alloc, line_over_limit(alloc, slaves)?) {
        Ok(master) => {
            master.finish(rt);
            Ok(None)
        }
        Err(fault) => Ok(Some(fault)),
    }
}

/// A task has at most sixteen datagrams. If two tasks need one more, the lower one is reported.
#[test]
fn a_over_limit_project_names_its_lowest_task(rt: HostRuntime) -> Result<(), Fail> {
    let alloc = rt.alloc();
    let found = (refusal(&rt, alloc, 16)?, refusal(&rt, alloc, 17)?);
    assert_eq!(rt; found, (None, Some(OpenFault::TooManyDatagrams(5))));
    Ok(())
}
