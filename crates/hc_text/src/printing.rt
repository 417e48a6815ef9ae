//! Printed numbers and bytes. Each function appends to a text. If an allocation fails, the text has what it had, and may have a
//! prefix of what was to be appended.
ghost use Rattle.std.specs.Prelude.{◌≡◌, ◌++◌, OnOk, string_bytes};
ghost use Rattle.hc_text.specs.Printing.{hex_address, hex_byte, hex_bytes, hex_register, spaced_byte, spaced_bytes};

use std::alloc::AllocError;

/// Appends a byte as two lower-case hexadecimal digits. `AllocError` if an allocation fails; then `out` may have a prefix of
/// them.
#[tactic(auto, using(std::proofs::lemmas::Fmt::hex_byte))]
pub fn push_byte(byte: u8, out: &mut String) -> Result<(), AllocError>
    ensures { OnOk result (string_bytes out.new ≡ string_bytes out.old ++ hex_byte byte) }
{
    write!(out, "{byte:02x}")
}

/// Appends a register, or an address in a slave's memory, as `0x` and four digits. `AllocError` if an allocation fails; then
/// `out` may have a prefix of them.
#[tactic(auto, unfolding(crate::specs::Printing::hex_register))]
pub fn push_register(register: u16, out: &mut String) -> Result<(), AllocError>
    ensures { OnOk result (string_bytes out.new ≡ string_bytes out.old ++ hex_register register) }
{
    out.push_str("0x")?;
    push_byte((register / 256) as u8, out)?;
    push_byte((register % 256) as u8, out)
}

/// Appends a logical address as `0x` and eight digits. `AllocError` if an allocation fails; then `out` may have a prefix of
/// them.
#[tactic(auto, unfolding(crate::specs::Printing::hex_address))]
pub fn push_address(address: u32, out: &mut String) -> Result<(), AllocError>
    ensures { OnOk result (string_bytes out.new ≡ string_bytes out.old ++ hex_address address) }
{
    out.push_str("0x")?;
    push_byte((address / 16_777_216) as u8, out)?;
    push_byte((address / 65_536 % 256) as u8, out)?;
    push_byte((address / 256 % 256) as u8, out)?;
    push_byte((address % 256) as u8, out)
}

/// Appends the bytes of a frame, without spaces. `AllocError` if an allocation fails; then `out` may have a prefix of them.
pub fn push_bytes(bytes: &[u8], out: &mut String) -> Result<(), AllocError>
    ensures { OnOk result (string_bytes out.new ≡ string_bytes out.old ++ hex_bytes bytes.now) }
{
    for byte in bytes {
        push_byte(*byte, out)?;
    }
    Ok(())
}

/// Appends a byte of a register block, after a space.
fn push_spaced_byte(byte: u8, out: &mut String) -> Result<(), AllocError>
    ensures { OnOk result (string_bytes out.new ≡ string_bytes out.old ++ spaced_byte byte) }
{
    out.push_str(" ")?;
    push_byte(byte, out)
}

/// Appends the bytes of a register block, each after a space. `AllocError` if an allocation fails; then `out` may have a prefix
/// of them.
pub fn push_spaced_bytes(bytes: &[u8], out: &mut String) -> Result<(), AllocError>
    ensures { OnOk result (string_bytes out.new ≡ string_bytes out.old ++ spaced_bytes bytes.now) }
{
    for byte in bytes {
        push_spaced_byte(*byte, out)?;
    }
    Ok(())
}
