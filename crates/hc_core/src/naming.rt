//! The names that a returned datagram has by its own address (ETG.1000.4, 5.4; logical addresses: this project's profile). An
//! answered frame has the addresses that were sent: see the laws `addresses_are_those_sent` and `answered_are_named`.
ghost use Rattle.std.specs.Prelude.{◌≡◌};
ghost use Rattle.hc_events.specs.Names.{named_at, written_at};

use hc_frames::reading::Part;

/// Returns the task of the datagram with this logical address, and the datagram's number in the task, 0 to 15. In a frame that
/// a task's sending brought back the task is 0 to 7. For a register write the result means nothing.
pub fn named_by(part: &Part<'_>) -> (u8, u8)
    ensures { result ≡ named_at part.now.carried.address }
{
    let task = (part.address / 0x0100_0000).saturating_sub(1);
    (task as u8, (part.address / 2048 % 16) as u8)
}

/// Returns the station address and the register that a register write addresses. For a task's datagram the result means
/// nothing.
pub fn written_by(part: &Part<'_>) -> (u16, u16)
    ensures { result ≡ written_at part.now.carried.address }
{
    ((part.address % 65536) as u16, (part.address / 65536) as u16)
}
