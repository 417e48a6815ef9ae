//! The inputs of a task.
use hc_images::Inputs;
use hc_records::Task;
use std::test::Fail;

/// A datagram's data are there until they are cleared.
#[test]
fn inputs_are_put_and_cleared(rt: HostRuntime) -> Result<(), Fail> {
    let mut inputs = Inputs::new(rt.alloc())?;
    inputs.put(Task(0), 1, &[0x12, 0x34]);
    assert_eq!(rt; inputs.data(Task(0), 1), Some([0x12, 0x34].as_slice()));
    inputs.clear_task(Task(0));
    assert_eq!(rt; inputs.data(Task(0), 1), None);
    Ok(())
}
