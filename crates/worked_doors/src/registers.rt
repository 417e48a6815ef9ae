//! The fields of a register block.
use hc_registers::sync_manager::{control, length, start_address};
use std::test::Fail;

/// The block of an output area of one byte at 0x1100 is read field by field.
#[test]
fn a_sync_manager_block_has_fields(rt: HostRuntime) -> Result<(), Fail> {
    let block: [u8; 8] = [0x00, 0x11, 0x01, 0x00, 0x64, 0x00, 0x01, 0x00];
    assert_eq!(rt; start_address(&block), 0x1100);
    assert_eq!(rt; length(&block), 1);
    assert_eq!(rt; control(&block), 0x64);
    Ok(())
}
