//! A text becomes a project, or has a fault.
use hc_project::{locate, read_project};
use hc_records::ProjectFault;
use std::test::Fail;

/// A slave's station address is its own.
#[test]
fn a_text_becomes_a_project(rt: HostRuntime) -> Result<(), Fail> {
    let alloc = rt.alloc();
    let project = read_project(alloc, "[[slave]]\nstation = 1001\n".as_bytes())?;
    assert_eq!(rt; project.groups().len(), 1);
    let twice = "[[slave]]\nstation = 1001\n[[slave]]\nstation = 1001\n".as_bytes();
    let refused = read_project(alloc, twice);
    assert_eq!(rt; refused.err(), Some(ProjectFault::RepeatedStation));
    assert!(rt; locate(alloc, twice)?.is_some());
    Ok(())
}
