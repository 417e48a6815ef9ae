//! The program over a reader and a writer.
use hc_program::run_hotline;

/// A project without slaves, and one command.
#[test]
fn a_command_is_answered(rt: HostRuntime) {
    let mut input = "%%\nlayout\n".as_bytes();
    let mut output = Vec::new(rt.alloc());
    let end = run_hotline(&rt, rt.alloc(), &mut input, &mut output);
    assert_eq!(rt; end.status, 0);
    assert_eq!(rt; output.as_slice(), "epoch 0\n".as_bytes());
}
