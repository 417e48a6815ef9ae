//! A line of words spells a command.
use hc_text::{Command, command_in};
use std::test::Fail;

/// A number is read as it is spelled.
#[test]
fn words_spell_a_command(rt: HostRuntime) -> Result<(), Fail> {
    let alloc = rt.alloc();
    let command = command_in(alloc, "regs".as_bytes(), &["1001".as_bytes()])?;
    assert!(rt; matches!(command, Some(Command::Regs { station: 1001 })));
    let unknown = command_in(alloc, "regs".as_bytes(), &[])?;
    assert!(rt; unknown.is_none());
    Ok(())
}
