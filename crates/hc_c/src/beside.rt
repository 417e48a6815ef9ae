//! Frames beside those of the line: a master's own, before it opens one, and other people's on the same wire.
ghost use Rattle.std.specs.Prelude.{◌≡◌, false, true, [], ◌∷◌};
ghost use Rattle.hc_frames.specs.FrameText.{alias_read, frame_text, station_write};
ghost use Rattle.hc_frames.specs.declared.limits.TheConstants.{SETUP_SERIAL};
ghost use Rattle.hc_c.specs.Beside.{AnswersBuilt, GivesFmmuOff, GivesFrame, is_fmmu_count, is_mine};
ghost use Rattle.hc_c.specs.declared.numbers.TheConstants.{MISUSED};

use crate::numbers::{DONE, MISUSED, ROOM};
use hc_frames::building::{Room, build_alias_read, build_fmmu_off, build_station};
use hc_frames::limits::MOST_FMMUS;

/// The first byte of the source address of each frame that the library writes: a locally administered address.
pub const SOURCE: u8 = 2;

/// Returns the C answer for a frame that was built, and stores its size.
fn give(built: Result<usize, Room>, size: &mut usize) -> u8
    ensures { AnswersBuilt built result size.new }
{
    match built {
        Ok(bytes) => {
            *size = bytes;
            DONE
        }
        Err(Room(needed)) => {
            *size = needed;
            ROOM
        }
    }
}

/// Writes the frame that reads the configured station alias of the slave at a position, counted from 0 (APRD of register
/// 0x0012; ETG.1000.4, auto increment addressing). Returns `DONE`: the frame is at the front of `out`, and `size` is its
/// length, 60 bytes. It allocates nothing. Fails with `ROOM` if `out` is shorter; then `size` is the length needed, and `out`
/// is unchanged.
#[unsafe(no_mangle)]
pub extern "C" fn zangjulf_alias_read(position: u16, out: &mut [u8], size: &mut usize) -> u8
    ensures { GivesFrame (frame_text SETUP_SERIAL (alias_read position ∷ [])) result size.new out.old out.new }
{
    give(build_alias_read(out, position), size)
}

/// Writes the frame that gives a station address to the slave at a position, counted from 0 (APWR of register 0x0010;
/// ETG.1000.4, auto increment addressing). Returns `DONE`: the frame is at the front of `out`, and `size` is its length, 60
/// bytes. It allocates nothing. Fails with `ROOM` if `out` is shorter; then `size` is the length needed, and `out` is
/// unchanged.
#[unsafe(no_mangle)]
pub extern "C" fn zangjulf_station_write(
    position: u16,
    station: u16,
    out: &mut [u8],
    size: &mut usize,
) -> u8
    ensures { GivesFrame (frame_text SETUP_SERIAL (station_write position station ∷ [])) result size.new out.old out.new }
{
    give(build_station(out, position, station), size)
}

/// Writes the frame that switches off the first `count` FMMUs, 1 to 16, of the slave with a station address: an FPWR of 16 ×
/// `count` zeros to register 0x0600 (ETG.1000.4, 6.6). A slave that took it and uses no other FMMU takes no part in process
/// data. Returns `DONE`: the frame is at the front of `out`, and `size` is its length, 60 to 284 bytes. It allocates nothing.
/// Fails with one of these; then `out` is unchanged:
///
/// - `MISUSED`: `count` is not 1 to 16. `size` is unchanged too.
/// - `ROOM`: `out` is shorter than the frame. `size` is the length needed.
#[unsafe(no_mangle)]
pub extern "C" fn zangjulf_fmmu_off(station: u16, count: u8, out: &mut [u8], size: &mut usize) -> u8
    ensures given { is_fmmu_count count ≡ true → GivesFmmuOff station count result size.new out.old out.new }
    ensures misused { is_fmmu_count count ≡ false → (result ≡ MISUSED) × (size.new ≡ size.old) × (out.new ≡ out.old) }
{
    if count < 1 || count > MOST_FMMUS {
        return MISUSED;
    }
    give(build_fmmu_off(out, station, count), size)
}

/// Returns whether a frame may be one that the library wrote, before or after it passed the slaves: its EtherType is 0x88A4,
/// and its source address begins with 2. A master's own EtherCAT frames need another first byte there, with bit 1 set, for
/// example 6. Slaves set bit 1 of that byte.
#[unsafe(no_mangle)]
pub extern "C" fn zangjulf_is_mine(frame: &[u8]) -> bool
    ensures { result ≡ is_mine frame.now }
{
    frame.len() >= 14 && frame[6] == SOURCE && frame[12] == 0x88 && frame[13] == 0xa4
}
