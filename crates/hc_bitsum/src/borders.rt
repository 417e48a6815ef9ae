//! The rule by which an area begins after the first free bit, at a byte border.
ghost use Rattle.std.specs.Prelude.{◌≡◌, ◌^◌, ◌<◌};
ghost use Rattle.hc_records.specs.Keys.{is_turn};
ghost use Rattle.hc_records.specs.Packing.{next_byte};

use hc_records::records::Dir;

/// Returns the first byte border at or after a bit.
pub fn byte_border(bit: u32) -> u32
    requires { bit < 2 ^ 31 }
    ensures { result ≡ next_byte bit }
{
    (bit + 7) / 8 * 8
}

/// True if an input comes after an output.
pub fn is_turning(last: Dir, dir: Dir) -> bool
    ensures { result ≡ is_turn last dir }
{
    last == Dir::Out && dir == Dir::In
}
